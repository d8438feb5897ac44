//! The files that a run checks.

use crate::names::ShownName;
use crate::shares::Share;
use pdb_request::Request;
use std::alloc::{AllocError, Global};
use std::fmt;
use std::fmt::{Display, Formatter};

/// The files that a run checks which does what was asked, in the order of their checks: what a maker makes has the name under which
/// it is kept.
pub fn checked_files<'a>(alloc: Global, asked: &Request<'a>) -> Result<Vec<&'a str>, AllocError> {
    let mut files = asked.tables().to_vec(alloc)?;
    match asked {
        Request::LogCheck(check) => files.push(check.log)?,
        Request::MakeTable(making) => files.push(making.out)?,
        Request::Solve(search) => files.push(search.out)?,
        _ => {}
    }
    Ok(files)
}

/// What share of its jobs the check of a file has begun. It is shown as the line that tells it.
#[derive(Clone, Copy, Debug, PartialEq, Eq)]
pub(crate) struct FileShare<'a> {
    pub(crate) file: &'a str,
    /// Which file it is, from 1, of how many.
    pub(crate) number: usize,
    pub(crate) count: usize,
    pub(crate) share: Share,
}

impl Display for FileShare<'_> {
    fn fmt<W: fmt::Write>(&self, f: &mut Formatter<W>) -> fmt::Result {
        let file = ShownName(self.file);
        let (number, count) = (self.number, self.count);
        let (percent, jobs) = (self.share.percent(), self.share.jobs);
        write!(
            f,
            "pdb_cli: {file}, {number} of {count}: {percent} percent of {jobs} blocks or lemmas begun"
        )
    }
}

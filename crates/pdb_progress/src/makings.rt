//! How far a table is made.

use crate::names::ShownName;
use crate::shares::Share;
use std::fmt;
use std::fmt::{Display, Formatter};

/// What is done at a table that is made.
#[derive(Clone, Copy, Debug, PartialEq, Eq)]
pub(crate) enum Stage {
    /// Its counts are found: all up to so many moves were.
    Finding(u8),
    /// Its entries are filled in.
    Filling,
}

/// How far a table is made. It is shown as the line that tells it.
#[derive(Clone, Copy, Debug, PartialEq, Eq)]
pub(crate) struct TableProgress<'a> {
    /// The name under which it is to be kept, where that is known.
    pub(crate) file: Option<&'a str>,
    pub(crate) stage: Stage,
    /// How many counts were found, or entries filled in, and how many are to be.
    pub(crate) share: Share,
}

impl Display for TableProgress<'_> {
    fn fmt<W: fmt::Write>(&self, f: &mut Formatter<W>) -> fmt::Result {
        f.write_str("pdb_cli: ")?;
        if let Some(file) = self.file {
            write!(f, "{}: ", ShownName(file))?;
        }
        let (percent, all) = (self.share.percent(), self.share.jobs);
        match self.stage {
            Stage::Finding(moves) => write!(
                f,
                "{percent} percent of {all} counts found, those up to {moves} moves"
            ),
            Stage::Filling => write!(f, "{percent} percent of {all} entries filled in"),
        }
    }
}

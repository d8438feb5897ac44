//! What share of its jobs a check has begun, or of its counts or entries a table has.

ghost use Rattle.std.specs.Prelude.{◌≡◌, ◌↔◌, ◌*◌, ◌/◌, ◌≤◌, IfSome, IsSome};
ghost use Rattle.pdb_progress.specs.Shares.{IsShare};

use std::fmt;
use std::fmt::{Display, Formatter};

/// The most jobs that a check has.
const MOST_JOBS: u64 = 1 << 32;

/// What share of its jobs a check has begun. It is shown as the line that tells it.
#[derive(Clone, Copy, Debug, PartialEq, Eq)]
pub struct Share {
    /// How many jobs were begun.
    pub begun: u64,
    /// How many there are.
    pub jobs: u64,
    ghost is: { IsShare begun jobs },
}

impl Share {
    /// The share of so many jobs begun among so many, where a check may have begun so many.
    pub fn of(begun: u64, jobs: u64) -> Option<Share>
        ensures variant { IsSome result ↔ IsShare begun jobs }
        ensures value { IfSome result (λ share. (share.begun ≡ begun) × (share.jobs ≡ jobs)) }
    {
        if jobs == 0 || jobs > MOST_JOBS || begun > jobs {
            return None;
        }
        Some(Share { begun, jobs })
    }

    /// The share in whole percent, rounded down.
    pub fn percent(&self) -> u64
        ensures value { result ≡ 100 * self.now.begun / self.now.jobs }
        ensures most { result ≤ 100 }
    {
        100 * self.begun / self.jobs
    }
}

impl Display for Share {
    fn fmt<W: fmt::Write>(&self, f: &mut Formatter<W>) -> fmt::Result {
        let percent = self.percent();
        let jobs = self.jobs;
        write!(
            f,
            "pdb_cli: {percent} percent of {jobs} blocks or lemmas begun"
        )
    }
}

//! How a run ended, for the caller of a program.

ghost use Rattle.std.specs.Prelude.{◌≡◌};
ghost use Rattle.pdb_run.specs.Statuses.{status_number};

/// How a run ended.
#[derive(Clone, Copy, Debug, PartialEq, Eq)]
pub enum Status {
    /// A yes.
    Yes,
    /// A refusal.
    Refused,
    /// Bad words, or a fault of a read, a write or a maker.
    Fault,
    /// Want of memory.
    NoMemory,
}

impl Status {
    /// The exit status of the program: 0 to 3.
    pub fn code(self) -> u8
        ensures { result ≡ status_number self }
    {
        match self {
            Status::Yes => 0,
            Status::Refused => 1,
            Status::Fault => 2,
            Status::NoMemory => 3,
        }
    }
}

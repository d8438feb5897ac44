//! What the passes of a book ask of it, and what it answers.

ghost use Rattle.std.specs.Prelude.{◌≡◌};
ghost use Rattle.book_core.specs.declared.events.CoreFault.TheVariants.{Memory};

use std::alloc::AllocError;

/// What a pass, named by its number, asks in one step.
#[derive(Clone, Copy, Debug, PartialEq, Eq)]
pub enum Event {
    /// It claims the next job.
    Claim(u8),
    /// It reports a place, of which the book keeps the least.
    Report(u8, u64),
    /// It looks at the least place reported so far.
    Look(u8),
}

/// What a step answers.
#[derive(Clone, Copy, Debug, PartialEq, Eq)]
pub enum Answer {
    /// The claim drew this job.
    Drawn(u64),
    /// The claim found no job left, and the pass has ended.
    Ended,
    /// The place was reported.
    Reported,
    /// The least place reported so far, by any pass, or none.
    Least(Option<u64>),
}

/// Why a step is refused. The first of these that stands is answered.
#[derive(Clone, Copy, Debug, PartialEq, Eq)]
pub enum CoreFault {
    /// No pass has this number.
    C1,
    /// The pass claims and has ended.
    C2,
    /// The place is 2^32 or more.
    C3,
    /// A list could not grow.
    Memory,
}

impl From<AllocError> for CoreFault {
    ghost from_gives = { λ _ fault. fault ≡ Memory };

    fn from(_: AllocError) -> CoreFault {
        CoreFault::Memory
    }
}

impl Event {
    ghost use Rattle.book_core.specs.Steps.{pass_of};

    /// The number of the pass that asks.
    pub(crate) fn pass(self) -> usize
        ensures { result ≡ pass_of self }
    {
        match self {
            Event::Claim(pass) | Event::Report(pass, _) | Event::Look(pass) => usize::from(pass),
        }
    }
}

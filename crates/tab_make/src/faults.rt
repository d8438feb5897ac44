//! Why nothing is made.

ghost use Rattle.std.specs.Prelude.{◌≡◌};
ghost use Rattle.tab_make.specs.Stops.{of_stop};
ghost use Rattle.tab_make.specs.declared.faults.MakeFault.TheVariants.{Memory};

use std::alloc::{AllocError, AllocFailed};

/// Why no table or no log is made.
#[derive(Clone, Copy, Debug, PartialEq, Eq)]
pub enum MakeFault {
    /// The search has expanded as many boards as it may.
    K1,
    /// The board has no solution, by the parity of its numbers or since a set says never; or a set says that each has more than 255
    /// moves.
    K2,
    /// A count would be above 253.
    K3,
    /// The log would be longer than a log file may be.
    K5,
    /// There isn't the memory.
    Memory,
    /// The maker finds that it is wrong.
    Wrong,
}

impl From<AllocError> for MakeFault {
    ghost from_gives = { λ _ fault. fault ≡ Memory };

    fn from(_: AllocError) -> MakeFault {
        MakeFault::Memory
    }
}

/// Why a table is not made to its end.
#[derive(Clone, Copy, Debug, PartialEq, Eq)]
pub(crate) enum Unmade {
    /// There isn't the memory.
    NoMemory,
    /// A number is not one of those that there are of its kind.
    WrongNumber,
}

impl From<AllocError> for Unmade {
    fn from(_: AllocError) -> Unmade {
        Unmade::NoMemory
    }
}

impl<T: Drop> From<AllocFailed<T>> for Unmade {
    fn from(_: AllocFailed<T>) -> Unmade {
        Unmade::NoMemory
    }
}

impl From<Unmade> for MakeFault {
    ghost from_gives = { λ stop fault. fault ≡ of_stop stop };

    fn from(stop: Unmade) -> MakeFault {
        match stop {
            Unmade::NoMemory => MakeFault::Memory,
            Unmade::WrongNumber => MakeFault::Wrong,
        }
    }
}

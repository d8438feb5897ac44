//! What a search may still spend, and what it found.

ghost use Rattle.std.specs.Prelude.{◌≡◌, []};

use crate::answers::Letters;
use arrayvec::ArrayVec;

/// Why a search stops before all boards are refuted.
#[derive(Clone, Copy, Debug, PartialEq, Eq)]
pub(crate) enum Stop {
    /// It found a solution.
    Solved,
    /// Its budget ended.
    Spent,
}

/// What a search may still spend, and the moves of a solution that it found.
#[derive(Drop)]
pub(crate) struct Effort {
    /// How many more boards may be expanded.
    pub(crate) left: u64,
    /// The letters of the moves, the last one first.
    pub(crate) letters: Letters,
}

impl Effort {
    /// So many boards may be expanded, and nothing is found yet.
    pub(crate) fn within(budget: u64) -> Effort
        ensures left { result.left ≡ budget }
        ensures none { result.letters.items ≡ [] }
    {
        Effort {
            left: budget,
            letters: ArrayVec::new(),
        }
    }
}

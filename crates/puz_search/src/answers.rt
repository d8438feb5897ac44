//! What a search answers.

ghost use Rattle.std.specs.Prelude.{◌≡◌, ◌+◌, ◌≤◌, ◌++◌, length};

use arrayvec::ArrayVec;

/// The letters of moves, each `U`, `D`, `L` or `R`.
pub type Letters = ArrayVec<u8, 255>;

/// What a search for a solution of fewer moves than a bound answers.
#[derive(Drop)]
pub enum SearchAnswer {
    /// There is none, and the search expanded so many boards.
    Refuted(u64),
    /// The moves of one.
    Solved(Letters),
    /// The budget of boards ended before the search did.
    Spent,
}

/// Letters, and more letters behind them.
pub(crate) fn joined(front: &[u8], back: &[u8]) -> Letters
    requires { length front.now + length back.now ≤ 255 }
    ensures { result.items ≡ front.now ++ back.now }
{
    let mut letters = ArrayVec::new();
    for letter in front {
        letters.push(*letter);
    }
    for letter in back {
        letters.push(*letter);
    }
    letters
}

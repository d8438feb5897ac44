//! Which boards have solutions, by parity (Johnson and Story 1879).

ghost use Rattle.std.specs.Prelude.{◌≡◌, ◌↔◌, ◌%◌, IsTrue, count_by, nat_lt};
ghost use Rattle.puz_board.specs.Solvable.{HasTheBlanksParity, inversions};

use crate::boards::Board;

/// Whether a board has a solution.
///
/// A move exchanges the blank with a tile beside it. So it changes the parity of the order of the numbers, and that of
/// the blank's distance from cell 0. On the goal board both are even, and all boards on which they agree have solutions.
pub fn is_solvable(board: &Board) -> bool
    ensures { IsTrue result ↔ HasTheBlanksParity board.now }
{
    inversion_parity(board.numbers()) == usize::from(board.blank_parity())
}

/// The parity of how many pairs of numbers stand in the wrong order: 0 or 1.
fn inversion_parity(numbers: &[u8]) -> usize
    ensures { result ≡ inversions numbers.now % 2 }
{
    match numbers.split_first() {
        Some((first, rest)) => (smaller_count(rest, *first) + inversion_parity(rest)) % 2,
        None => 0,
    }
}

/// How many numbers are smaller than this one.
fn smaller_count(numbers: &[u8], number: u8) -> usize
    ensures { result ≡ count_by (λ other. nat_lt other number) numbers.now }
{
    numbers.iter().filter(|other| **other < number).count()
}

//! Strings that are said to be forbidden.

ghost use Rattle.std.specs.Prelude.{◌≡◌, ◌*◌, ◌<◌, ◌↔◌, ℕ, IsTrue, All};
ghost use Rattle.move_strings.specs.Checks.{IsSameFrom, IsSameOn};
ghost use Rattle.move_strings.specs.Strings.{ComesBefore, IsWitness};

use crate::effects::{board_from, is_same_on};
use crate::order::comes_before;
use puz_board::{Board, Move, Side};

/// A string that is said to be forbidden, and its witness: a string that comes before it and is said to have the same effect.
#[derive(Drop)]
pub struct Forbidden {
    /// The string.
    pub string: Vec<Move>,
    /// The string that comes before it and has the same effect.
    pub witness: Vec<Move>,
}

/// Whether each string is forbidden on boards of the side, by the witness that is given with it.
///
/// Both strings are played from each cell, on a board of distinct numbers.
pub fn are_forbidden(side: Side, forbidden: &[Forbidden]) -> bool
    ensures { IsTrue result
        ↔ All (λ entry. IsWitness side entry.string.items entry.witness.items) forbidden.now }
{
    are_before(forbidden) && are_same(side, forbidden)
}

/// Whether each entry's witness comes before its string.
fn are_before(forbidden: &[Forbidden]) -> bool
    ensures { IsTrue result
        ↔ All (λ entry. ComesBefore entry.witness.items entry.string.items) forbidden.now }
{
    for entry in forbidden {
        if !comes_before(entry.witness.as_slice(), entry.string.as_slice()) {
            return false;
        }
    }
    true
}

/// Whether each entry's strings have the same effect, from each cell.
fn are_same(side: Side, forbidden: &[Forbidden]) -> bool
    ensures { IsTrue result ↔ ((cell : ℕ) → cell < side * side
        → All (λ entry. IsSameFrom side cell entry.string.items entry.witness.items) forbidden.now) }
{
    for cell in 0..side.cells() {
        if !are_same_from(side, cell, forbidden) {
            return false;
        }
    }
    true
}

/// Whether each entry's strings have the same effect, from one cell.
fn are_same_from(side: Side, cell: u8, forbidden: &[Forbidden]) -> bool
    requires { cell < side * side }
    ensures { IsTrue result
        ↔ All (λ entry. IsSameFrom side cell entry.string.items entry.witness.items) forbidden.now }
{
    match board_from(side, cell) {
        Some(board) => are_same_on(&board, forbidden),
        None => false,
    }
}

/// Whether each entry's strings have the same effect on a board.
fn are_same_on(board: &Board, forbidden: &[Forbidden]) -> bool
    ensures { IsTrue result
        ↔ All (λ entry. IsSameOn board.now entry.string.items entry.witness.items) forbidden.now }
{
    for entry in forbidden {
        if !is_same_on(board, entry.string.as_slice(), entry.witness.as_slice()) {
            return false;
        }
    }
    true
}

//! Which boards are out of reach of logs: they have no solution, by parity, or by what sets say no short one.

ghost use Rattle.std.specs.Prelude.{◌≡◌, ◌<◌, ℕ, IsTrue, length, true};
ghost use Rattle.puz_board.specs.Boards.{side_of};
ghost use Rattle.puz_board.specs.Solvable.{HasTheBlanksParity};
ghost use Rattle.set_sum.specs.Bundles.{SaysAtLeast};
ghost use Rattle.set_sum.specs.Raised.{told_of};
ghost use Rattle.tab_rule.specs.declared.tables.Count.TheVariants.{Finite};
ghost use Rattle.puz_make.specs.Faults.{IsOutOfReach};

use puz_board::{Board, is_solvable};
use set_sum::Bundle;
use tab_rule::Count;

/// The greatest bound that a lemma claims.
const GREATEST_BOUND: u8 = 255;

/// Whether no log proves how few moves solve a board: by parity it has no solution, or a set says that it has none of 255 moves or
/// fewer.
pub fn is_out_of_reach(bundle: &Bundle<'_>, board: &Board) -> bool
    requires { side_of board.now ≡ bundle.now.side }
    ensures reach { IsTrue result → IsOutOfReach bundle.now board.now }
    ensures unsolvable { (HasTheBlanksParity board.now → ⊥) → IsTrue result }
{
    !is_solvable(board) || has_too_great_a_sum(bundle, board)
}

/// Whether a set says of a board that it has no solution, or, by parity, none of 255 moves or fewer.
fn has_too_great_a_sum(bundle: &Bundle<'_>, board: &Board) -> bool
    requires { side_of board.now ≡ bundle.now.side }
    ensures { IsTrue result → (set : ℕ) × SaysAtLeast bundle.now true set board.now 256 }
{
    for set in 0..bundle.sets() {
        if is_too_great(bundle, set, board) {
            return true;
        }
    }
    false
}

/// Whether this set does.
fn is_too_great(bundle: &Bundle<'_>, set: u8, board: &Board) -> bool
    requires set { set < length bundle.now.sets }
    requires side { side_of board.now ≡ bundle.now.side }
    ensures { IsTrue result → SaysAtLeast bundle.now true set board.now 256 }
{
    match bundle.sum(set, board) {
        Count::Finite(sum) => u32::from(GREATEST_BOUND) < raised(board, sum),
        Count::Never => true,
    }
}

/// A finite sum, raised to the parity of the solutions of the board.
fn raised(board: &Board, sum: u16) -> u32
    ensures { Finite result ≡ told_of true board.now (Finite sum) }
{
    let sum = u32::from(sum);
    if sum % 2 != u32::from(board.blank_parity()) {
        sum + 1
    } else {
        sum
    }
}

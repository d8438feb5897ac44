//! What some tables of a bundle tell of a board together.

ghost use Rattle.std.specs.Prelude.{◌≡◌, ◌<◌, ◌≤◌, true, Any, List, ℕ, length};
ghost use Rattle.std.specs.List.{AllByRecursion};
ghost use Rattle.puz_board.specs.Boards.{IsBoardOf, side_of};
ghost use Rattle.puz_board.specs.Transposing.{transposed};
ghost use Rattle.set_sum.specs.Bundles.{most_members};
ghost use Rattle.set_sum.specs.Parts.{part_pattern, parts_shown};
ghost use Rattle.set_sum.specs.Sums.{SetSays};
ghost use Rattle.tab_rule.specs.Counts.{AreCellsOf};

use crate::members::Member;
use crate::parts::Part;
use puz_board::{Board, Side, transposed_cell};
use tab_rule::Count;

/// The cell of each number on the transposed board: the transposed cell of that of the transposed number.
pub(crate) fn mirrored(side: Side, found: &[u8; 25]) -> [u8; 25]
    requires { (board : List ℕ) × IsBoardOf side board × AreCellsOf found.now board }
    ensures { (board : List ℕ) → IsBoardOf side board → AreCellsOf found.now board
        → AreCellsOf result (transposed board) }
{
    let mut cells = [0; 25];
    for number in 0..side.cells() {
        let cell = found[usize::from(transposed_cell(side, number))];
        cells[usize::from(number)] = transposed_cell(side, cell);
    }
    cells
}

/// The same, where a member looks up the transposed board.
fn mirrored_for(set: &[Member], side: Side, found: &[u8; 25]) -> [u8; 25]
    requires { (board : List ℕ) × IsBoardOf side board × AreCellsOf found.now board }
    ensures { (board : List ℕ) → IsBoardOf side board → AreCellsOf found.now board
        → Any (λ m. m.is_transposed ≡ true) set.now → AreCellsOf result (transposed board) }
{
    for member in set {
        if member.is_transposed {
            return mirrored(side, found);
        }
    }
    *found
}

/// The sum of what these members say of a board, and `Never` where one of them does.
pub(crate) fn sum_of(tables: &[Part<'_>], set: &[Member], board: &Board) -> Count
    requires there { AllByRecursion (λ member. member.table < length tables.now) set.now }
    requires few { length set.now ≤ most_members }
    requires side { AllByRecursion (λ t. (part_pattern t).side ≡ side_of board.now) tables.now }
    ensures { SetSays (parts_shown tables.now) set.now board.now result }
{
    let found = board.cells_of_all();
    let transposed = mirrored_for(set, board.side(), &found);
    let mut total = 0;
    for member in set {
        let cells = if member.is_transposed {
            &transposed
        } else {
            &found
        };
        match tables[usize::from(member.table)].look_in(cells) {
            Count::Finite(count) => total += count,
            Count::Never => return Count::Never,
        }
    }
    Count::Finite(total)
}

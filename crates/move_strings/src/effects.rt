//! The effects of strings.

ghost use Rattle.std.specs.Prelude.{◌≡◌, ◌*◌, ◌<◌, ◌↔◌, IfSome, IsSome, IsTrue};
ghost use Rattle.puz_board.specs.Boards.{IsBoardOf, blank};
ghost use Rattle.puz_board.specs.Paths.{board_after};
ghost use Rattle.move_strings.specs.Checks.{IsSameOn, exchanged};

use puz_board::{Board, Move, Side};

/// The board after the moves, where each can be made.
fn after(board: &Board, moves: &[Move]) -> Option<Board>
    ensures { result ≡ board_after board.now moves.now }
{
    let mut at = *board;
    for mv in moves {
        at = at.apply(*mv)?;
    }
    Some(at)
}

/// Whether the witness can be made on a board, where the string can, and leaves the same board.
pub(crate) fn is_same_on(board: &Board, string: &[Move], witness: &[Move]) -> bool
    ensures { IsTrue result ↔ IsSameOn board.now string.now witness.now }
{
    match after(board, string) {
        Some(end) => after(board, witness) == Some(end),
        None => true,
    }
}

/// A board of the side whose blank is in the cell: the goal board with two numbers exchanged.
pub(crate) fn board_from(side: Side, cell: u8) -> Option<Board>
    requires { cell < side * side }
    ensures some { IsSome result }
    ensures board { IfSome result (λ board. IsBoardOf side board × (blank board ≡ cell)) }
{
    let mut numbers = [0; 25];
    for place in 0..side.cells() {
        numbers[usize::from(place)] = number_in(place, cell);
    }
    Board::from_cells(&numbers[..usize::from(side.cells())])
}

/// The number in a place of the goal board, where the blank has been exchanged with the number in a cell.
fn number_in(place: u8, cell: u8) -> u8
    ensures { result ≡ exchanged cell place }
{
    if place == cell {
        0
    } else if place == 0 {
        cell
    } else {
        place
    }
}

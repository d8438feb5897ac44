//! Boards turned by half a turn.

ghost use Rattle.std.specs.Prelude.{◌≡◌, ◌*◌, ◌<◌};
ghost use Rattle.puz_board.specs.Boards.{side_of};
ghost use Rattle.puz_goal.specs.Turning.{half_turned, turned_cell, turned_number};

use puz_board::{Board, Side};

/// The cell to which half a turn takes a cell.
fn turned_cell(side: Side, cell: u8) -> u8
    requires { cell < side * side }
    ensures value { result ≡ turned_cell side cell }
    ensures within { result < side * side }
{
    side.cells() - 1 - cell
}

/// What a number becomes: the blank stays the blank, and a tile becomes the one that many cells from the last.
fn turned_number(side: Side, number: u8) -> u8
    requires { number < side * side }
    ensures value { result ≡ turned_number side number }
    ensures within { result < side * side }
{
    if number == 0 {
        0
    } else {
        side.cells() - number
    }
}

/// The board turned by half a turn.
pub(crate) fn half_turned(board: &Board) -> Board
    ensures value { result ≡ half_turned board.now }
    ensures side { side_of result ≡ side_of board.now }
{
    let side = board.side();
    let mut numbers = [0; 25];
    for cell in 0..side.cells() {
        let number = board.at(turned_cell(side, cell));
        numbers[usize::from(cell)] = turned_number(side, number);
    }
    let Some(turned) = Board::from_cells(&numbers[..usize::from(side.cells())]) else {
        unreachable!();
    };
    turned
}

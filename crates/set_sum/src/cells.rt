//! What is asked of the cells of a board at each step of a walk.

ghost use Rattle.std.specs.Prelude.{◌≡◌, ℕ, ◌*◌, ◌%◌, ◌<◌, ◌≤◌, ◌↔◌, IsTrue, length, slice_index};
ghost use Rattle.puz_board.specs.Boards.{IsGoal, at};
ghost use Rattle.puz_board.specs.Cells.{step_of};
ghost use Rattle.puz_board.specs.Parity.{taxicab};

use crate::bundles::MOST_CELLS;
use puz_board::masks::{first_column, has_cell, last_column};
use puz_board::{Board, Move, Side};

/// The cell to which a move leads, where the blank stays on the board. It takes no division.
#[inline]
pub(crate) fn cell_after(side: Side, cell: u8, mv: Move) -> Option<u8>
    requires { cell < side * side }
    ensures { result ≡ step_of side cell mv }
{
    let n = side.get();
    let stays = match mv {
        Move::Up => n <= cell,
        Move::Down => cell < n * n - n,
        Move::Left => !has_cell(first_column(side), cell),
        Move::Right => !has_cell(last_column(side), cell),
    };
    if !stays {
        return None;
    }
    Some(match mv {
        Move::Up => cell - n,
        Move::Down => cell + n,
        Move::Left => cell - 1,
        Move::Right => cell + 1,
    })
}

/// The parity of how many rows and columns lie between a cell and cell 0. It takes no division.
#[inline]
pub(crate) fn parity_of(side: Side, cell: u8) -> u8
    requires { cell < side * side }
    ensures parity { result ≡ taxicab side cell % 2 }
    ensures bit { result ≤ 1 }
{
    match side.get() {
        2 => (cell + cell / 2) % 2,
        4 => (cell + cell / 4) % 2,
        _ => cell % 2,
    }
}

/// Whether each number is in the cell of its own number.
#[inline]
pub(crate) fn is_in_order(numbers: &[u8]) -> bool
    ensures { IsTrue result ↔ IsGoal numbers.now }
{
    for (cell, number) in numbers.iter().enumerate() {
        if usize::from(*number) != cell {
            return false;
        }
    }
    true
}

/// The numbers of a board. Zeros stand behind them.
pub(crate) fn numbers_of(board: &Board) -> [u8; MOST_CELLS]
    ensures room { length result ≡ 25 }
    ensures numbers { (cell : ℕ) → cell < length board.now
        → slice_index result cell ≡ at board.now cell }
{
    let mut numbers = [0; MOST_CELLS];
    for cell in 0..board.side().cells() {
        numbers[usize::from(cell)] = board.at(cell);
    }
    numbers
}

/// Whether a board has these numbers.
pub(crate) fn has_numbers(board: &Board, numbers: &[u8]) -> bool
    requires { length numbers.now ≡ length board.now }
    ensures { IsTrue result ↔ (board.now ≡ numbers.now) }
{
    for cell in 0..board.side().cells() {
        if board.at(cell) != numbers[usize::from(cell)] {
            return false;
        }
    }
    true
}

//! The numbers of boards, and where moves lead on them.

ghost use Rattle.std.specs.Prelude.{◌≡◌, ◌<◌, ◌*◌, length, take};

use crate::cells::{CELLS, Cell};
use puz_board::{Board, MOVES, Move, Side, step};

/// No cell.
const NOWHERE: u8 = u8::MAX;

/// The number in each cell of a board.
pub(crate) fn numbers_of(board: &Board) -> [u8; CELLS]
    ensures { take (length board.now) result ≡ board.now }
{
    let mut numbers = [0; CELLS];
    let side = board.side();
    for cell in 0..side.cells() {
        numbers[usize::from(cell)] = board.at(cell);
    }
    numbers
}

/// Where moves lead on the boards of a side.
#[derive(Clone, Copy)]
pub(crate) struct Steps {
    /// For each cell where each move leads, in the order of the moves.
    cells: [[u8; 4]; CELLS],
}

impl Steps {
    /// Those on the boards of a side.
    pub(crate) fn on(side: Side) -> Steps {
        let mut cells = [[NOWHERE; 4]; CELLS];
        for cell in 0..side.cells() {
            cells[usize::from(cell)] = steps_from(side, cell);
        }
        Steps { cells }
    }

    /// The cell to which a move leads from one, where it stays on the board.
    #[inline]
    pub(crate) fn after(&self, cell: Cell, mv: Move) -> Option<Cell> {
        let cells = &self.cells[cell.place()];
        Cell::of(match mv {
            Move::Up => cells[0],
            Move::Down => cells[1],
            Move::Left => cells[2],
            Move::Right => cells[3],
        })
    }
}

/// Where the moves lead from a cell, in their order.
fn steps_from(side: Side, cell: u8) -> [u8; 4]
    requires { cell < side * side }
{
    let mut steps = [NOWHERE; 4];
    for (to, mv) in steps.iter_mut().zip(&MOVES) {
        if let Some(cell) = step(side, cell, *mv) {
            *to = cell;
        }
    }
    steps
}

/// Whether a move takes back the one that led to a board.
#[inline]
pub(crate) fn takes_back(arriving: Option<Move>, mv: Move) -> bool {
    match arriving {
        Some(arriving) => arriving.reverse() == mv,
        None => false,
    }
}

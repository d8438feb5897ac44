//! Cells of a board.

ghost use Rattle.std.specs.Prelude.{◌<◌};

use puz_board::Board;

/// How many cells a board has at most, and so numbers.
const MOST_CELLS: u8 = 25;

/// The same, as a length.
pub(crate) const CELLS: usize = MOST_CELLS as usize;

/// A cell of a board.
#[derive(Clone, Copy, PartialEq, Eq)]
pub(crate) struct Cell {
    number: u8,
    ghost is_on_a_board: { number < 25 },
}

impl Cell {
    /// The cell of a number, if a board has one.
    #[inline]
    pub(crate) fn of(number: u8) -> Option<Cell> {
        if number < MOST_CELLS {
            Some(Cell { number })
        } else {
            None
        }
    }

    /// The cell of a board's blank.
    pub(crate) fn of_blank(board: &Board) -> Cell {
        let _side = board.side();
        Cell {
            number: board.blank(),
        }
    }

    /// Its number.
    #[inline]
    pub(crate) fn number(self) -> u8 {
        self.number
    }

    /// Its place among what there is of all cells.
    #[inline]
    pub(crate) fn place(self) -> usize
        ensures { result < 25 }
    {
        usize::from(self.number)
    }
}

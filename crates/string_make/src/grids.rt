//! A grid so large that no string leaves it.

ghost use Rattle.std.specs.Prelude.{◌<◌};

use puz_board::Move;

/// How many columns the grid has. The blank is first in the middle, and no string has so many moves that it leaves the grid.
pub(crate) const WIDTH: u16 = 32;

/// How many cells there are.
const CELLS: usize = 1024;

/// The cell in which the blank is first.
pub(crate) const MIDDLE: u16 = 528;

/// A grid in whose cells numbers stand, first each in the cell of its own.
#[derive(Clone, Copy)]
pub(crate) struct Grid {
    numbers: [u16; 1024],
    blank: u16,
}

/// A slide of the blank to a cell beside its own.
#[derive(Clone, Copy)]
pub(crate) struct Shift {
    /// Where the blank was.
    pub(crate) from: u16,
    /// Where it is now.
    pub(crate) to: u16,
    /// The number of the tile that it has changed places with.
    pub(crate) tile: u16,
}

impl Grid {
    /// The grid before any move.
    pub(crate) fn new() -> Grid {
        let mut numbers = [0; 1024];
        for cell in 0..CELLS as u16 {
            numbers[usize::from(cell)] = cell;
        }
        Grid {
            numbers,
            blank: MIDDLE,
        }
    }

    /// The slide that a move would make.
    #[inline]
    pub(crate) fn slide(&self, mv: Move) -> Shift {
        let to = beside(self.blank, mv);
        Shift {
            from: self.blank,
            to,
            tile: self.numbers[place(to)],
        }
    }

    /// Makes a move.
    #[inline]
    pub(crate) fn make(&mut self, mv: Move) {
        let slide = self.slide(mv);
        self.numbers[place(slide.to)] = self.numbers[place(slide.from)];
        self.numbers[place(slide.from)] = slide.tile;
        self.blank = slide.to;
    }
}

/// The cell to which a move leads, round the ends of the grid.
#[inline]
fn beside(cell: u16, mv: Move) -> u16 {
    match mv {
        Move::Up => cell.wrapping_sub(WIDTH),
        Move::Down => cell.wrapping_add(WIDTH),
        Move::Left => cell.wrapping_sub(1),
        Move::Right => cell.wrapping_add(1),
    }
}

/// The place of a cell among the numbers.
#[inline]
fn place(cell: u16) -> usize
    ensures { result < 1024 }
{
    usize::from(cell) % CELLS
}

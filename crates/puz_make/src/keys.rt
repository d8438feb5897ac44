//! The tiles on a board that is moved in place, and a key by which boards are found again.
//!
//! The key is that of Zobrist (1970): the exclusive or of one random word for each tile and its cell, so a move changes it by
//! two words. The words are the outputs of SplitMix64 (Steele, Lea and Flood 2014), whose arithmetic is modulo 2^64.

ghost use Rattle.std.specs.Prelude.{◌≡◌, ◌<◌, ◌≤◌};

use crate::cells::{CELLS, Cell};
use crate::positions::numbers_of;
use puz_board::Board;

/// The key of a board. Few boards have the same one.
#[derive(Clone, Copy, PartialEq, Eq)]
pub(crate) struct Key {
    word: u64,
}

impl Key {
    /// The key of no tiles.
    pub(crate) const NONE: Key = Key { word: 0 };

    /// Adds a tile in a cell, or takes it away.
    #[inline]
    fn turn(&mut self, tile: u8, cell: u8) {
        self.word ^= word_of(tile, cell);
    }

    /// One of so many homes: keys that differ mostly have different ones.
    #[inline]
    pub(crate) fn home(self, count: usize) -> usize
        requires { 0 < count }
        ensures { result < count }
    {
        self.word as usize % count
    }
}

/// The tiles on a board.
#[derive(Clone, Copy)]
pub(crate) struct Tiles {
    /// The number in each cell.
    numbers: [u8; CELLS],
    /// How many cells the board has.
    cells: usize,
    ghost few_cells: { cells ≤ 25 },
    /// The cell of the blank.
    pub(crate) blank: Cell,
    /// The key of the board.
    pub(crate) key: Key,
}

impl Tiles {
    /// The tiles on a board.
    pub(crate) fn new(board: &Board) -> Tiles {
        let numbers = numbers_of(board);
        let cells = board.side().cells();
        let mut key = Key::NONE;
        for (cell, tile) in (0..cells).zip(&numbers) {
            if *tile != 0 {
                key.turn(*tile, cell);
            }
        }
        Tiles {
            numbers,
            cells: usize::from(cells),
            blank: Cell::of_blank(board),
            key,
        }
    }

    /// The number in each cell.
    pub(crate) fn numbers(&self) -> &[u8] {
        &self.numbers[..self.cells]
    }

    /// Moves the blank to a cell beside it.
    #[inline]
    pub(crate) fn slide(&mut self, to: Cell) {
        let from = self.blank;
        let tile = self.numbers[to.place()];
        self.key.turn(tile, to.number());
        self.key.turn(tile, from.number());
        self.numbers[from.place()] = tile;
        self.numbers[to.place()] = 0;
        self.blank = to;
    }
}

/// The word of a tile in a cell.
#[inline]
fn word_of(tile: u8, cell: u8) -> u64 {
    let number = u64::from(tile) << 8 | u64::from(cell);
    let mut word = number.wrapping_mul(0x9E37_79B9_7F4A_7C15);
    word = (word ^ word >> 30).wrapping_mul(0xBF58_476D_1CE4_E5B9);
    word = (word ^ word >> 27).wrapping_mul(0x94D0_49BB_1331_11EB);
    word ^ word >> 31
}

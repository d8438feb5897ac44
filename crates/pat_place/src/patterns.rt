//! Patterns.

ghost use Rattle.std.specs.Prelude.{◌≡◌, ◌+◌, ◌*◌, ◌^◌, ◌<◌, ◌≤◌, ◌↔◌, length, IsSome, IfSome, IsTrue};
ghost use Rattle.std.specs.List.{AllByRecursion};
ghost use Rattle.puz_board.specs.Masks.{numbers_of};
ghost use Rattle.puz_board.specs.Transposing.{transposed_tiles};
ghost use Rattle.pat_place.specs.Patterns.{IsPattern, most_tiles, width};
ghost use Rattle.pat_place.specs.Ranks.{falling_factorial, placements};

use crate::mask_numbers::put_numbers;
use arrayvec::ArrayVec;
use puz_board::masks::{has_cell, with};
use puz_board::{Side, transposed_cell};
use std::marker::Model;

/// A pattern: a set of tiles of a board, within the limits of its side.
#[derive(Clone, Copy)]
pub struct Pattern {
    side: Side,
    mask: u32,
}

impl Model for Pattern {
    ghost use Rattle.pat_place.specs.Patterns.{ShownPattern};

    ghost Value = { ShownPattern };

    ghost use Rattle.pat_place.specs.StoredPatterns.{IsStoredPattern, pattern_shown, stored_pattern_of, stored_pattern_of-shown};

    ghost view = { pattern_shown };

    ghost invariant = { IsStoredPattern };

    ghost inverse = { stored_pattern_of };

    ghost inverse_ok = { stored_pattern_of-shown };
}

impl Pattern {
    /// The pattern whose tiles are the numbers of the set bits, where that is a pattern.
    pub fn of_mask(side: Side, mask: u32) -> Option<Pattern>
        ensures pattern { IsSome result
            ↔ IsPattern (record { side = side; tiles = numbers_of mask }) }
        ensures value { IfSome result (λ p. p ≡ record { side = side; tiles = numbers_of mask }) }
    {
        let n = side.get();
        if !has_tiles_only(n * n, mask) || !is_size(n, mask.count_ones()) {
            return None;
        }
        Some(Pattern { side, mask })
    }

    /// The side of the pattern's boards.
    pub fn side(&self) -> Side
        ensures side { result ≡ self.now.side }
        ensures pattern { IsPattern self.now }
    {
        self.side
    }

    /// The tiles as a mask: bit t is set for tile t.
    pub fn mask(&self) -> u32
        ensures { numbers_of result ≡ self.now.tiles }
    {
        self.mask
    }

    /// How many tiles there are: 1 to 8.
    pub fn size(&self) -> u8
        ensures size { result ≡ length self.now.tiles }
        ensures pattern { IsPattern self.now }
        ensures few { result ≤ 8 }
    {
        self.mask.count_ones() as u8
    }

    /// The tiles, ascending.
    pub fn tiles(&self) -> ArrayVec<u8, 8>
        ensures tiles { result.items ≡ self.now.tiles }
        ensures pattern { IsPattern self.now }
    {
        let mut tiles = ArrayVec::new();
        put_numbers(self.mask, &mut tiles);
        tiles
    }

    /// The pattern of what the tiles become where rows and columns are exchanged.
    pub fn transposed(&self) -> Pattern
        ensures { let tiles = transposed_tiles self.now.side self.now.tiles in
            result ≡ record { side = self.now.side; tiles = tiles } }
    {
        let side = self.side();
        let mut mask = 0;
        for tile in 0..side.cells() {
            if has_cell(self.mask, transposed_cell(side, tile)) {
                mask = with(mask, tile);
            }
        }
        Pattern { side, mask }
    }

    /// How many slots a table has for each placement: no placement has more regions of free cells.
    pub fn width(&self) -> u8
        ensures { result ≡ width self.now.side (length self.now.tiles) }
    {
        let size = self.size();
        (size + 1).min(self.side.cells() - size)
    }

    /// How many placements there are: n²·(n² - 1) ··· (n² - k + 1) for k tiles of side n. With `width` slots for each,
    /// there are fewer than 2^32 slots.
    pub fn count(&self) -> u64
        ensures product { result
            ≡ falling_factorial (self.now.side * self.now.side) (length self.now.tiles) }
        ensures count { result ≡ length (placements self.now.side (length self.now.tiles)) }
        ensures small { result * width self.now.side (length self.now.tiles) < 2 ^ 32 }
        ensures fits { result < 2 ^ 32 }
    {
        let cells = u64::from(self.side.cells());
        let mut count = 1;
        for placed in 0..u64::from(self.size()) {
            count *= cells - placed;
        }
        count
    }
}

/// Whether the numbers of the mask are tiles of a board of so many cells.
fn has_tiles_only(cells: u8, mask: u32) -> bool
    requires { cells < 32 }
    ensures { IsTrue result ↔ AllByRecursion (λ t. (0 < t) × (t < cells)) (numbers_of mask) }
{
    mask % 2 == 0 && mask >> cells == 0
}

/// Whether a pattern of side n may have so many tiles.
fn is_size(n: u8, size: u32) -> bool
    ensures { IsTrue result ↔ ((0 < size) × (size ≤ most_tiles n)) }
{
    let most = match n {
        2 => 3,
        5 => 6,
        _ => 8,
    };
    0 < size && size <= most
}

//! The placements of a pattern's tiles but the last, in the order of their entries.

ghost use Rattle.std.specs.Prelude.{◌+◌, ◌<◌, ◌≤◌, ◌^◌};

use crate::entries::MOST_TILES;
use crate::faults::Unmade;
use crate::grids::{PatternGrid, cell_at};
use puz_board::masks::{count_below, with};

/// The first tiles of a pattern in their cells.
#[derive(Clone, Copy)]
pub(crate) struct Placed {
    /// The number of the first entry with these cells.
    first: u32,
    /// The cells.
    pub(crate) set: u32,
    /// The number of the order in which the tiles stand on them.
    pub(crate) order: u16,
}

/// A placement of all tiles but the last among those of a pattern, from which later ones are found at little cost: where
/// only the last of these tiles change their cells, nothing is done for the others.
#[derive(Clone, Copy)]
pub(crate) struct PlacementWalk<'a> {
    grid: &'a PatternGrid,
    /// Each tile and those before it, and at first no tile.
    placed: [Placed; MOST_TILES],
}

impl<'a> PlacementWalk<'a> {
    /// The first placement.
    pub(crate) fn new(grid: &'a PatternGrid) -> Result<PlacementWalk<'a>, Unmade> {
        let none = Placed {
            first: 0,
            set: 0,
            order: 0,
        };
        let mut walk = PlacementWalk {
            grid,
            placed: [none; MOST_TILES],
        };
        walk.place_from(0, 0)?;
        Ok(walk)
    }

    /// All tiles but the last.
    #[inline]
    pub(crate) fn placed(&self) -> Placed {
        self.placed[usize::from(self.grid.size) - 1]
    }

    /// Goes to the placement that has the entry.
    pub(crate) fn go_to(&mut self, number: u32) -> Result<(), Unmade> {
        for index in 0..self.grid.size - 1 {
            let first = self.placed[usize::from(index) + 1].first;
            let on = number.checked_sub(first).ok_or(Unmade::WrongNumber)?;
            if on >= self.grid.weights[usize::from(index)] {
                return self.place_from(index, number);
            }
        }
        Ok(())
    }

    /// Places the tiles from this one on for an entry.
    fn place_from(&mut self, index: u8, number: u32) -> Result<(), Unmade> {
        for index in index..self.grid.size - 1 {
            let before = self.placed[usize::from(index)];
            let weight = self.grid.weights[usize::from(index)];
            self.placed[usize::from(index) + 1] = before.and_next(
                self.grid, index, weight, number,
            )?;
        }
        Ok(())
    }
}

impl Placed {
    /// These tiles, and the next one where it stands for an entry.
    fn and_next(
        &self,
        grid: &PatternGrid,
        index: u8,
        weight: u32,
        number: u32,
    ) -> Result<Placed, Unmade> {
        let on = number.checked_sub(self.first).ok_or(Unmade::WrongNumber)?;
        let place = on.checked_div(weight).ok_or(Unmade::WrongNumber)?;
        let cell = cell_at(grid.all & !self.set, place)?;
        let order = self.next_order(index, cell);
        Ok(Placed {
            first: number - on % weight,
            set: with(self.set, cell),
            order: u16::try_from(order).ok().ok_or(Unmade::WrongNumber)?,
        })
    }

    /// The number of the order in which the tile of an index stands in a cell behind these tiles.
    #[inline]
    pub(crate) fn next_order(&self, index: u8, cell: u8) -> u32
        requires { cell < 32 }
    {
        u32::from(self.order) * (u32::from(index) + 1) + u32::from(count_below(self.set, cell))
    }
}

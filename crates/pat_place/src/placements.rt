//! Placements.

ghost use Rattle.std.specs.Prelude.{◌≡◌, ℕ, ◌*◌, ◌^◌, ◌<◌, ◌-◌, true, List, count_ones, length, slice_index, slice_set, take, drop, replicate};
ghost use Rattle.puz_board.specs.Boards.{IsBoard, IsGoal, side_of};
ghost use Rattle.puz_board.specs.Masks.{IsMaskOf};
ghost use Rattle.pat_place.specs.Patterns.{IsPattern, has};
ghost use Rattle.pat_place.specs.Placements.{IsPlacement, IsFree, cells_found, placement_of};

use crate::mask_numbers::put_numbers;
use crate::patterns::Pattern;
use arrayvec::ArrayVec;
use puz_board::{Board, masks};
use std::marker::Model;

/// A placement: the cells of a pattern's tiles, in the tiles' order.
#[derive(Clone, Copy)]
pub struct Placement {
    pattern: Pattern,
    cells: [u8; 8],
}

impl Model for Placement {
    ghost use Rattle.pat_place.specs.Placements.{ShownPlacement};

    ghost Value = { ShownPlacement };

    ghost use Rattle.pat_place.specs.StoredPlacements.{IsStoredPlacement, placement_shown, stored_placement_of, stored_placement_of-shown};

    ghost view = { placement_shown };

    ghost invariant = { IsStoredPlacement };

    ghost inverse = { stored_placement_of };

    ghost inverse_ok = { stored_placement_of-shown };
}

impl Placement {
    /// The placement of the goal board, which has tile t in cell t.
    pub fn goal(pattern: &Pattern) -> Placement
        ensures value { result ≡ record { pattern = pattern.now; cells = pattern.now.tiles } }
        ensures of_goal { (b : List ℕ) → IsBoard b → side_of b ≡ pattern.now.side → IsGoal b
            → placement_of pattern.now.tiles b ≡ result.cells }
    {
        Placement::in_cells(pattern, pattern.tiles().as_slice())
    }

    /// Where the pattern's tiles are on a board.
    pub fn of_board(pattern: &Pattern, board: &Board) -> Placement
        requires { side_of board.now ≡ pattern.now.side }
        ensures { result
            ≡ record { pattern = pattern.now; cells = placement_of pattern.now.tiles board.now } }
    {
        // Asked only for what its contract says.
        let _side = pattern.side();
        Placement::of_cells(pattern, &board.cells_of_all())
    }

    /// The placement with each of the pattern's tiles in the cell that was found for its number.
    pub fn of_cells(pattern: &Pattern, found: &[u8; 25]) -> Placement
        requires { let cells = cells_found pattern.now.tiles found.now in
            IsPlacement (record { pattern = pattern.now; cells = cells }) }
        ensures { result
            ≡ record { pattern = pattern.now; cells = cells_found pattern.now.tiles found.now } }
    {
        let mut cells = [0; 8];
        let tiles = pattern.tiles();
        for (i, tile) in tiles.as_slice().iter().enumerate() {
            cells[i] = found[*tile as usize];
        }
        Placement {
            pattern: *pattern,
            cells,
        }
    }

    /// The cells, in the tiles' order.
    pub fn cells(&self) -> ArrayVec<u8, 8>
        ensures cells { result.items ≡ self.now.cells }
        ensures placement { IsPlacement self.now }
        ensures pattern { IsPattern self.now.pattern }
    {
        let mut cells = ArrayVec::new();
        for cell in self.as_slice() {
            cells.push(*cell);
        }
        cells
    }

    /// The cell of one tile, by its index in the pattern.
    #[inline]
    pub fn cell(&self, index: usize) -> u8
        requires { index < length self.now.cells }
        ensures cell { result ≡ slice_index self.now.cells index }
        ensures placement { IsPlacement self.now }
        ensures pattern { IsPattern self.now.pattern }
    {
        self.as_slice()[index]
    }

    /// The cells as a mask: bit c is set for cell c.
    pub fn occupied(&self) -> u32
        ensures { IsMaskOf result (λ c. has self.now.cells c ≡ true) }
    {
        let mut occupied = 0;
        for cell in self.as_slice() {
            occupied = masks::with(occupied, *cell);
        }
        occupied
    }

    /// The placement with one tile, by its index in the pattern, moved to a free cell.
    pub fn moved(&self, index: usize, cell: u8) -> Placement
        requires index { index < length self.now.cells }
        requires free { IsFree self.now.pattern.side self.now.cells cell }
        ensures { result ≡ record self.now { cells = slice_set self.now.cells index cell } }
    {
        let mut cells = self.cells;
        cells[index] = cell;
        Placement {
            pattern: self.pattern,
            cells,
        }
    }

    /// The placement with the pattern's tiles, in their order, in the cells of a set, ascending.
    pub fn of_set(pattern: &Pattern, set: u32) -> Placement
        requires bits { set < 2 ^ (pattern.now.side * pattern.now.side) }
        requires size { count_ones set ≡ length pattern.now.tiles }
        ensures pattern { result.pattern ≡ pattern.now }
        ensures set { IsMaskOf set (λ c. has result.cells c ≡ true) }
    {
        let _side = pattern.side();
        let mut cells = ArrayVec::new();
        put_numbers(set, &mut cells);
        Placement::in_cells(pattern, cells.as_slice())
    }

    /// The placement with the pattern's tiles in these cells.
    fn in_cells(pattern: &Pattern, cells: &[u8]) -> Placement
        requires { IsPlacement (record { pattern = pattern.now; cells = cells.now }) }
        ensures { result ≡ record { pattern = pattern.now; cells = cells.now } }
    {
        let _side = pattern.side();
        let mut stored = [0; 8];
        for (i, cell) in cells.iter().enumerate() {
            stored[i] = *cell;
        }
        Placement {
            pattern: *pattern,
            cells: stored,
        }
    }

    /// The placement with these cells, which have zeros behind them.
    pub(crate) fn with_cells(pattern: &Pattern, cells: [u8; 8]) -> Placement
        requires placement { let placed = take (length pattern.now.tiles) cells in
            IsPlacement (record { pattern = pattern.now; cells = placed }) }
        requires rest { drop (length pattern.now.tiles) cells
            ≡ replicate (8 - length pattern.now.tiles) 0 }
        ensures { result
            ≡ record { pattern = pattern.now; cells = take (length pattern.now.tiles) cells } }
    {
        let _side = pattern.side();
        Placement {
            pattern: *pattern,
            cells,
        }
    }

    /// The cells, with zeros behind them.
    pub(crate) fn padded(&self) -> [u8; 8]
        ensures len { length result ≡ 8 }
        ensures cells { take (length self.now.pattern.tiles) result ≡ self.now.cells }
        ensures rest { drop (length self.now.pattern.tiles) result
            ≡ replicate (8 - length self.now.pattern.tiles) 0 }
    {
        self.cells
    }

    /// The pattern.
    pub fn pattern(&self) -> Pattern
        ensures pattern { result ≡ self.now.pattern }
        ensures placement { IsPlacement self.now }
        ensures is_pattern { IsPattern self.now.pattern }
    {
        self.pattern
    }

    /// The cells, in the tiles' order.
    #[inline]
    pub(crate) fn as_slice(&self) -> &[u8]
        ensures cells { result.now ≡ self.now.cells }
        ensures placement { IsPlacement self.now }
        ensures pattern { IsPattern self.now.pattern }
    {
        &self.cells[..self.pattern.size() as usize]
    }
}

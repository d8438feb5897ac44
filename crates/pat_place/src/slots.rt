//! Regions of free cells, and slots.

ghost use Rattle.std.specs.Prelude.{◌≢◌, ℕ, ◌*◌, ◌^◌, ◌<◌, ◌≤◌, MatchOption, length, slice_index};
ghost use Rattle.std.specs.Int.{bit_at};
ghost use Rattle.arrayvec.specs.ArrayVec.{array_vec_len};
ghost use Rattle.puz_board.specs.Masks.{IsMaskOf};
ghost use Rattle.pat_place.specs.Patterns.{width};
ghost use Rattle.pat_place.specs.Placements.{IsFree};
ghost use Rattle.pat_place.specs.Regions.{IsSlot, AreRegions, IsFirstMaskWith};

use crate::flood::{region_of, region_until};
use crate::placements::Placement;
use arrayvec::ArrayVec;
use puz_board::masks;

/// The regions of free cells as masks, in the order of their least cells.
pub fn regions(placement: &Placement) -> ArrayVec<u32, 8>
    ensures regions { AreRegions placement.now.pattern.side placement.now.cells result.items }
    ensures few { array_vec_len result
        ≤ width placement.now.pattern.side (length placement.now.cells) }
{
    let side = placement.pattern().side();
    let free = free_cells(placement);
    let mut rest = free;
    let mut regions = ArrayVec::new();
    'each: while rest != 0 {
        let region = region_of(side, free, masks::first_of(rest));
        regions.push(region);
        rest &= !region;
    }
    regions
}

/// The place of the first of these regions that has the cell.
#[inline]
pub fn find_region(regions: &[u32], cell: u8) -> Option<usize>
    requires { cell < 32 }
    ensures { MatchOption result
        ((i : ℕ) → i < length regions.now → bit_at (slice_index regions.now i) cell ≢ 1)
        (IsFirstMaskWith regions.now cell) }
{
    for (j, region) in regions.iter().enumerate() {
        if masks::has_cell(*region, cell) {
            return Some(j);
        }
    }
    None
}

/// The slot of a free cell: the number of its region among all regions, from 0.
pub fn slot_of(placement: &Placement, cell: u8) -> u8
    requires { IsFree placement.now.pattern.side placement.now.cells cell }
    ensures slot { IsSlot placement.now.pattern.side placement.now.cells cell result }
    ensures below { result < width placement.now.pattern.side (length placement.now.cells) }
{
    let side = placement.pattern().side();
    let free = free_cells(placement);
    let mut rest = free;
    let goal = masks::with(0, cell);
    let mut slot = 0;
    'search: loop {
        let region = region_until(side, free, masks::first_of(rest), goal);
        if region & goal != 0 {
            return slot;
        }
        rest &= !region;
        slot += 1;
    }
}

/// The cells that no tile of the pattern is in.
pub fn free_cells(placement: &Placement) -> u32
    ensures free { IsMaskOf result (IsFree placement.now.pattern.side placement.now.cells) }
    ensures within { result < 2 ^ (placement.now.pattern.side * placement.now.pattern.side) }
{
    masks::all_below(placement.pattern().side().cells()) & !placement.occupied()
}

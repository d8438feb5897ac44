//! The regions of all placements of a block, flooded side by side.
//!
//! A column of cells has a mask for each placement of the block. Behind the last placement stand masks without cells.

ghost use Rattle.std.specs.Prelude.{◌≡◌, ◌≢◌, ℕ, ◌+◌, ◌-◌, ◌*◌, ◌^◌, ◌<◌, ◌≤◌, bit_and, length, slice_index};
ghost use Rattle.tab_lanes.specs.Floods.{AllMayGrow};
ghost use Rattle.tab_rule.specs.Blocks.{block_ranks};
ghost use Rattle.tab_columns.specs.Columns.{AreFree, AreOf, EachSlot, IsFirstCell, IsFirstRegion};
ghost use Rattle.tab_columns.specs.Moves.{IsRegion};

use crate::columns::{MOST_ENTRIES, MOST_PLACEMENTS};
use pat_place::{Placement, free_cells};
use puz_board::Side;
use tab_file::TableView;
use tab_lanes::flood;

/// The mask of each slot's region, and 0 for a slot without one.
#[inline(never)] // so that the stack has the columns of one step alone
pub(crate) fn masks_of(table: &TableView<'_>, placements: &[Placement]) -> [u32; MOST_ENTRIES]
    requires few { length placements.now ≤ block_ranks }
    requires placements { AreOf table.now.pattern placements.now }
    ensures { EachSlot table.now.pattern placements.now
        (IsRegion table.now.pattern.side)
        (length placements.now) result }
{
    let pattern = table.pattern();
    let width = usize::from(pattern.width());
    let free = free_column(placements);
    let mut rest = free;
    let mut masks = [0; MOST_ENTRIES];
    for slot in 0..width {
        let regions = first_regions(pattern.side(), &rest, &free);
        put_slot(&mut masks, &regions, width, slot);
        take_out(&mut rest, &regions);
    }
    masks
}

/// The free cells of each placement.
fn free_column(placements: &[Placement]) -> [u32; MOST_PLACEMENTS]
    requires { length placements.now ≤ block_ranks }
    ensures { AreFree placements.now (length placements.now) result }
{
    let mut free = [0; MOST_PLACEMENTS];
    for (row, placement) in placements.iter().enumerate() {
        free[row] = free_cells(placement);
    }
    free
}

/// The region of the least cell that is left, of each placement, and no cells where none is left.
fn first_regions(
    side: Side,
    rest: &[u32; MOST_PLACEMENTS],
    free: &[u32; MOST_PLACEMENTS],
) -> [u32; MOST_PLACEMENTS]
    requires { AllMayGrow side rest.now free.now }
    ensures len { length result ≡ block_ranks }
    ensures each { (row : ℕ) → row < block_ranks
        → IsFirstRegion side
        (slice_index free.now row) (slice_index rest.now row) (slice_index result row) }
{
    let mut regions = [0; MOST_PLACEMENTS];
    for (row, mask) in rest.iter().enumerate() {
        regions[row] = first_cell(*mask);
    }
    flood(side, &mut regions, free);
    regions
}

/// The least cell of a mask alone.
#[inline]
fn first_cell(mask: u32) -> u32
    ensures { IsFirstCell mask result }
{
    if mask == 0 {
        0
    } else {
        1 << mask.trailing_zeros()
    }
}

/// Puts the masks of one slot, one for each placement, into the column of all slots.
fn put_slot(
    masks: &mut [u32; MOST_ENTRIES],
    regions: &[u32; MOST_PLACEMENTS],
    width: usize,
    slot: usize,
)
    requires width { width ≤ 8 }
    requires slot { slot < width }
    ensures here { (row : ℕ) → row < block_ranks
        → slice_index masks.new (row * width + slot) ≡ slice_index regions.now row }
    ensures others { (row j : ℕ) → j < width → j ≢ slot
        → slice_index masks.new (row * width + j) ≡ slice_index masks.old (row * width + j) }
{
    for (row, region) in regions.iter().enumerate() {
        masks[row * width + slot] = *region;
    }
}

/// Takes the cells of a region out of those that are left, for each placement.
fn take_out(rest: &mut [u32; MOST_PLACEMENTS], regions: &[u32; MOST_PLACEMENTS])
    ensures { (row : ℕ) → row < block_ranks
        → slice_index rest.new row
        ≡ bit_and (slice_index rest.old row) (2 ^ 32 - 1 - slice_index regions.now row) }
{
    for (row, region) in regions.iter().enumerate() {
        rest[row] &= !*region;
    }
}

//! The entries one move of a pattern's tile away.

ghost use Rattle.std.specs.Prelude.{◌≡◌, ℕ, ◌+◌, ◌*◌, ◌<◌, ◌≤◌, IfSome, MatchOption, length, slice_get, slice_index, slice_set, Some};
ghost use Rattle.puz_board.specs.Cells.{step_of};
ghost use Rattle.puz_board.specs.declared.moves.Move.{Move};
ghost use Rattle.pat_place.specs.Placements.{IsFree, IsPlacement};
ghost use Rattle.tab_file.specs.Tables.{IsTable, slot_count};
ghost use Rattle.tab_columns.specs.Columns.{AreColumnsOf, EachSlot, most_entries};
ghost use Rattle.tab_rule.specs.Entries.{IsEntryAt};
ghost use Rattle.tab_rule.specs.LocalRule.{IsLeastNear, IsLeastOf};
ghost use Rattle.tab_columns.specs.Moves.{IsEntryTowards, IsFoundTowards, IsRegion, IsTileIn, NoneTowards};

use crate::columns::MOST_ENTRIES;
use pat_place::{Placement, find_region, rank, slot_of};
use puz_board::{Move, Side, step};
use tab_file::{NO_WAY_HOME, TableView};
use tab_lanes::min_into;

/// The most cells that a board has.
const MOST_CELLS: usize = 25;

/// The least entry one move away from each slot of these placements, and that of no way home where there is none. The
/// masks are those of the slots' regions.
#[inline(never)] // so that the stack has the columns of one step alone
pub(crate) fn least_near(
    table: &TableView<'_>,
    placements: &[Placement],
    masks: &[u32; MOST_ENTRIES],
) -> [u8; MOST_ENTRIES]
    requires { AreColumnsOf table.now placements.now masks.now }
    ensures len { length result ≡ most_entries }
    ensures each { EachSlot table.now.pattern placements.now
        (IsLeastNear table.now)
        (length placements.now) result }
{
    let mut least = [NO_WAY_HOME; MOST_ENTRIES];
    for index in 0..usize::from(table.pattern().size()) {
        let up = entries_towards(table, placements, masks, index, Move::Up);
        min_into(&mut least, &up);
        let down = entries_towards(table, placements, masks, index, Move::Down);
        min_into(&mut least, &down);
        let left = entries_towards(table, placements, masks, index, Move::Left);
        min_into(&mut least, &left);
        let right = entries_towards(table, placements, masks, index, Move::Right);
        min_into(&mut least, &right);
    }
    least
}

/// The entry after one tile's move in one direction for each slot, and that of no way home where the move doesn't lead to
/// a cell of the slot's region. The tile is given by its index.
fn entries_towards(
    table: &TableView<'_>,
    placements: &[Placement],
    masks: &[u32; MOST_ENTRIES],
    index: usize,
    mv: Move,
) -> [u8; MOST_ENTRIES]
    requires columns { AreColumnsOf table.now placements.now masks.now }
    requires index { index < length table.now.pattern.tiles }
    ensures len { length result ≡ most_entries }
    ensures each { EachSlot table.now.pattern placements.now
        (λ cells j. IsLeastOf (IsEntryTowards table.now cells j index mv))
        (length placements.now) result }
{
    let pattern = table.pattern();
    let width = usize::from(pattern.width());
    let beside = cells_towards(pattern.side(), mv);
    let mut entries = [NO_WAY_HOME; MOST_ENTRIES];
    for (row, placement) in placements.iter().enumerate() {
        let begin = row * width;
        let to = beside[usize::from(placement.cell(index))];
        let regions = &masks[begin..begin + width];
        let found = entry_after_step(table, placement, regions, index, to);
        put_found(&mut entries, begin, found);
    }
    entries
}

/// The cell beside each cell in one direction, where there is one.
fn cells_towards(side: Side, mv: Move) -> [Option<u8>; MOST_CELLS]
    ensures { (c : ℕ) → c < side * side → slice_get result c ≡ Some (step_of side c mv) }
{
    let mut beside = [None; MOST_CELLS];
    for cell in 0..side.cells() {
        beside[usize::from(cell)] = step(side, cell, mv);
    }
    beside
}

/// Puts an entry that was found, with its slot, into the column of a placement that begins here.
#[inline]
fn put_found(entries: &mut [u8; MOST_ENTRIES], begin: usize, found: Option<(usize, u8)>)
    requires { IfSome found (λ f. begin + f.0 < most_entries) }
    ensures { MatchOption found
        (entries.new ≡ entries.old)
        (λ f. entries.new ≡ slice_set entries.old (begin + f.0) f.1) }
{
    if let Some((slot, entry)) = found {
        entries[begin + slot] = entry;
    }
}

/// The entry after a tile's move to the cell beside it in some direction, where the tile can move there, and the slot
/// whose region it moves into. The regions are those of the placement's slots.
#[inline]
fn entry_after_step(
    table: &TableView<'_>,
    placement: &Placement,
    regions: &[u32],
    index: usize,
    to: Option<u8>,
) -> Option<(usize, u8)>
    requires table { IsTable table.now }
    requires pattern { placement.now.pattern ≡ table.now.pattern }
    requires placement { IsPlacement placement.now }
    requires index { index < length table.now.pattern.tiles }
    requires size { length regions.now ≡ slot_count table.now.pattern }
    requires regions { (j : ℕ) → j < slot_count table.now.pattern
        → IsRegion table.now.pattern.side placement.now.cells j (slice_index regions.now j) }
    requires to { IfSome to (λ c. c < 32) }
    ensures { (mv : Move)
        → to ≡ step_of table.now.pattern.side (slice_index placement.now.cells index) mv
        → MatchOption result
        (NoneTowards table.now placement.now.cells index mv)
        (λ found. IsFoundTowards table.now placement.now.cells index mv found.0 found.1) }
{
    let cell = placement.cell(index);
    let to = to?;
    let slot = find_region(regions, to)?;
    Some((slot, entry_after(table, placement, index, cell, to)))
}

/// The entry of the placement with a tile moved to a free cell, and of the region that has the cell which the tile left.
fn entry_after(table: &TableView<'_>, placement: &Placement, index: usize, cell: u8, to: u8) -> u8
    requires tile { IsTileIn table.now placement.now index cell }
    requires free { IsFree placement.now.pattern.side placement.now.cells to }
    ensures { IsEntryAt table.now
        (slice_set placement.now.cells index to)
        (slice_index placement.now.cells index) result }
{
    let moved = placement.moved(index, to);
    let slot = slot_of(&moved, cell);
    table.entry(rank(&moved), slot)
}

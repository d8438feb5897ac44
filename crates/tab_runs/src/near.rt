//! The least entries one move away, of all placements of a run at once.

ghost use Rattle.std.specs.Prelude.{◌≡◌, ℕ, ◌+◌, ◌*◌, ◌<◌, ◌≤◌, true, length, slice_set, take, IfSome};
ghost use Rattle.std.specs.Bool.{OnTrue};
ghost use Rattle.std.specs.Int.{bit_at};
ghost use Rattle.puz_board.specs.Masks.{IsMaskOf};
ghost use Rattle.pat_place.specs.Patterns.{has};
ghost use Rattle.pat_place.specs.Placements.{IsFree};
ghost use Rattle.tab_runs.specs.RunPlaces.{AreFreeBelow};
ghost use Rattle.tab_runs.specs.RunsOfTables.{IsLastTileOf, IsRunOf};
ghost use Rattle.tab_runs.specs.Steps.{AreLeastNear, IsBesideStep, IsIndexStep, IsPairStep, IsSomeLastStep, IsStepAmong, IsTakenIn, IsTileStep};

use crate::kernels::{take_in, take_one};
use crate::runs::{BYTE_PLACES, LastTile, Run, run_entries};
use puz_board::masks;
use tab_file::{NO_WAY_HOME, TableView};

/// The cells with one of them changed. Zeros stand behind them.
#[inline]
fn with_moved(cells: &[u8], index: usize, to: u8) -> [u8; 8]
    requires few { length cells.now ≤ 8 }
    requires index { index < length cells.now }
    ensures { take (length cells.now) result ≡ slice_set cells.now index to }
{
    let mut moved = [0; 8];
    for (i, cell) in cells.iter().enumerate() {
        moved[i] = *cell;
    }
    moved[index] = to;
    moved
}

/// Takes in the moves of one tile to one cell, in all placements of the run. Where a set is not kept it answers false.
#[inline]
fn take_tile(
    table: &TableView<'_>,
    run: &Run<'_>,
    index: usize,
    to: u8,
    mins: &mut [u8; BYTE_PLACES],
) -> bool
    requires run { IsRunOf table.now run.now }
    requires index { index < length run.now.cells.now }
    requires free { IsFree table.now.pattern.side run.now.cells.now to }
    ensures { OnTrue result
        (IsTakenIn mins.old mins.new (IsTileStep table.now run.now.cells.now index to)) }
{
    // Asked only for what its contract says.
    let _pattern = table.pattern();
    let rows = run.row_table;
    let from = run.cells[index];
    let Some(kept) = rows.of_set(masks::with(masks::without(run.set, from), to)) else {
        return false;
    };
    let to_row = rows.row_in(run.rows, to);
    let from_row = rows.row_in(kept.rows, from);
    let moved = with_moved(run.cells, index, to);
    let near = run_entries(table, &moved[..run.cells.len()]);
    take_in(mins, to_row, near, from_row);
    true
}

/// Takes in all moves of one tile. Where a set is not kept it answers false.
fn take_index(
    table: &TableView<'_>,
    run: &Run<'_>,
    index: usize,
    mins: &mut [u8; BYTE_PLACES],
) -> bool
    requires run { IsRunOf table.now run.now }
    requires index { index < length run.now.cells.now }
    ensures { OnTrue result
        (IsTakenIn mins.old mins.new (IsIndexStep table.now run.now.cells.now index)) }
{
    let _pattern = table.pattern();
    let mut targets = run.row_table.beside(run.cells[index]) & !run.set;
    'targets: while targets != 0 {
        let to = masks::first_of(targets);
        if !take_tile(table, run, index, to, mins) {
            return false;
        }
        targets = masks::without(targets, to);
    }
    true
}

/// Takes in all moves of all tiles but the last. Where a set is not kept it answers false.
fn take_tiles(table: &TableView<'_>, run: &Run<'_>, mins: &mut [u8; BYTE_PLACES]) -> bool
    requires run { IsRunOf table.now run.now }
    ensures { let cells = run.now.cells.now in OnTrue result
        (IsTakenIn mins.old mins.new (IsStepAmong table.now cells (length cells))) }
{
    for index in 0..run.cells.len() {
        if !take_index(table, run, index, mins) {
            return false;
        }
    }
    true
}

/// For each of the first `count` cells how many cells below it no tile of the run is in.
fn free_below_each(run: &Run<'_>, count: u8) -> [u8; 25]
    requires small { count ≤ 25 }
    requires set { IsMaskOf run.now.set (λ c. has run.now.cells.now c ≡ true) }
    ensures { AreFreeBelow run.now.cells.now count result }
{
    let mut below = [0; 25];
    let mut free: u8 = 0;
    for cell in 0..count {
        below[usize::from(cell)] = free;
        if !masks::has_cell(run.set, cell) {
            free += 1;
        }
    }
    below
}

/// Takes in the last tile's moves between two free cells, the lower one first.
#[inline]
fn take_pair(table: &TableView<'_>, last: &LastTile<'_>, a: u8, b: u8, mins: &mut [u8; BYTE_PLACES])
    requires last { IsLastTileOf table.now last.now }
    requires free_a { IsFree table.now.pattern.side last.now.run.cells.now a }
    requires free_b { IsFree table.now.pattern.side last.now.run.cells.now b }
    requires order { a < b }
    ensures { IsTakenIn mins.old mins.new (IsPairStep table.now last.now.run.cells.now a b) }
{
    let _pattern = table.pattern();
    let run = last.run;
    let own = run.own;
    let row_a = run.row_table.row_in(run.rows, a);
    let row_b = run.row_table.row_in(run.rows, b);
    let index_a = last.below[usize::from(a)];
    let index_b = last.below[usize::from(b)] - 1;
    let in_a = row_b[usize::from(index_a)];
    let in_b = row_a[usize::from(index_b)];
    take_one(mins, in_a, own[usize::from(in_b)]);
    take_one(mins, in_b, own[usize::from(in_a)]);
}

/// Takes in the last tile's moves between one free cell and those of a mask, which are all above it.
#[inline]
fn take_beside(
    table: &TableView<'_>,
    last: &LastTile<'_>,
    a: u8,
    mask: u32,
    mins: &mut [u8; BYTE_PLACES],
)
    requires last { IsLastTileOf table.now last.now }
    requires free_a { IsFree table.now.pattern.side last.now.run.cells.now a }
    requires others { (x : ℕ) → bit_at mask x ≡ 1
        → IsFree table.now.pattern.side last.now.run.cells.now x × (a < x) }
    ensures { let cells = last.now.run.cells.now in
        IsTakenIn mins.old mins.new (IsBesideStep table.now cells a mask 0) }
{
    let _pattern = table.pattern();
    let mut targets = last.run.row_table.beside(a) & mask;
    'targets: while targets != 0 {
        let b = masks::first_of(targets);
        take_pair(table, last, a, b, mins);
        targets = masks::without(targets, b);
    }
}

/// Takes in all moves of the last tile.
fn take_lasts(table: &TableView<'_>, run: &Run<'_>, mins: &mut [u8; BYTE_PLACES])
    requires run { IsRunOf table.now run.now }
    ensures { IsTakenIn mins.old mins.new (IsSomeLastStep table.now run.now.cells.now) }
{
    let count = table.pattern().side().cells();
    let below = free_below_each(run, count);
    let last = LastTile { run: *run, below };
    let mut left = masks::all_below(count) & !run.set;
    'left: while left != 0 {
        let a = masks::first_of(left);
        left = masks::without(left, a);
        take_beside(table, &last, a, left, mins);
    }
}

/// The least entries one move away from the placements of a run, at the places of their slots. Where a set is not kept
/// there is no answer.
pub(crate) fn least_near(table: &TableView<'_>, run: &Run<'_>) -> Option<[u8; BYTE_PLACES]>
    requires run { IsRunOf table.now run.now }
    ensures { IfSome result (λ mins. AreLeastNear table.now run.now.cells.now mins) }
{
    let _pattern = table.pattern();
    let mut mins = [NO_WAY_HOME; BYTE_PLACES];
    if !take_tiles(table, run, &mut mins) {
        return None;
    }
    take_lasts(table, run, &mut mins);
    Some(mins)
}

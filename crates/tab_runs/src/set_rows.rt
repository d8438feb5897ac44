//! The rows of all cells for one set of cells.

ghost use Rattle.std.specs.Prelude.{◌≡◌, ℕ, ◌+◌, ◌*◌, ◌^◌, ◌<◌, ◌≤◌, count_ones, length, true, IfOk, OnOk};
ghost use Rattle.puz_board.specs.Masks.{IsMaskOf};
ghost use Rattle.pat_place.specs.Patterns.{has};
ghost use Rattle.tab_file.specs.Tables.{slot_count};
ghost use Rattle.tab_runs.specs.SetRows.{AreKindsOfRun, AreKindsUpTo, AreMarked, AreRowsOfRun, IsColumn, IsInSome, listed_of};
ghost use Rattle.tab_runs.specs.RunPlaces.{IsRun, run_length};
ghost use Rattle.tab_runs.specs.Rows.{row_length};
ghost use Rattle.tab_runs.specs.StoredRows.{AreKeptSets};
ghost use Rattle.tab_runs.specs.RowTables.{entries_of_run, rows_for};

use arrayvec::ArrayVec;
use pat_place::{Pattern, find_region, next, put_numbers, rank_among, regions, unrank};
use puz_board::masks;
use std::alloc::{AllocError, Global};
use tab_file::OTHER_SLOT;

/// A placement of a run, as a column of the rows.
#[derive(Clone, Copy)]
struct Column {
    /// The last tile's cell.
    last: u8,
    /// How many free cells are below it.
    free: u8,
    /// The place of the first slot.
    first_place: u8,
}

/// Fills in where the regions of one placement stand in `cells` rows of `listed` bytes.
fn fill_column(set_rows: &mut [u8], cells: u8, listed: usize, column: Column, regions: &[u32])
    requires small { cells ≤ 25 }
    requires short { listed ≤ 25 }
    requires size { length set_rows.old ≡ cells * listed }
    requires below { (x : ℕ) → IsInSome regions.now x → x < column.last → 0 < column.free }
    requires within { (x : ℕ) → IsInSome regions.now x
        → listed_of column.last column.free x < listed }
    requires fits { column.first_place + length regions.now ≤ 255 }
    ensures { IsColumn listed column.last column.free column.first_place regions.now cells
        set_rows.old set_rows.new }
{
    for x in 0..cells {
        if let Some(j) = find_region(regions, x) {
            let index = column.free - u8::from(x < column.last);
            set_rows[usize::from(x) * listed + usize::from(index)] = column.first_place + j as u8;
        }
    }
}

/// Marks the places of a placement's slots that have a region.
fn mark(kinds: &mut [u8], at: usize, count: usize)
    requires { at + count ≤ length kinds.old }
    ensures { AreMarked at count kinds.old kinds.new }
{
    for place in at..at + count {
        kinds[place] = OTHER_SLOT;
    }
}

/// How many entries a run of the pattern has.
pub(crate) fn entries_of_run(pattern: &Pattern) -> usize
    ensures { result ≡ entries_of_run pattern.now.side (length pattern.now.tiles) }
{
    let run = usize::from(pattern.side().cells()) + 1 - usize::from(pattern.size());
    run * usize::from(pattern.width())
}

/// How many cells a row of the pattern lists.
pub(crate) fn cells_of_row(pattern: &Pattern) -> usize
    ensures { result ≡ row_length pattern.now.side (length pattern.now.tiles) }
{
    usize::from(pattern.side().cells()) - usize::from(pattern.size())
}

/// Fills in the rows of all cells for a run's set of cells, and which slots have a region.
fn fill_rows(pattern: &Pattern, cells: &[u8], set: u32, set_rows: &mut [u8], kinds: &mut [u8])
    requires run { IsRun pattern.now cells.now }
    requires set { IsMaskOf set (λ c. has cells.now c ≡ true) }
    requires size { let p = pattern.now in
        length set_rows.old ≡ p.side * p.side * row_length p.side (length p.tiles) }
    requires kinds { AreKindsUpTo pattern.now.side (slot_count pattern.now) cells.now 0 kinds.old }
    requires room { length kinds.old
        ≡ run_length pattern.now.side cells.now * slot_count pattern.now }
    ensures rows { AreRowsOfRun pattern.now cells.now set_rows.new }
    ensures kinds { AreKindsOfRun pattern.now cells.now kinds.new }
{
    let count = pattern.side().cells();
    let width = pattern.width();
    let listed = cells_of_row(pattern);
    let run = u64::from(count) - cells.len() as u64;
    let first = rank_among(cells, count) * run;
    let mut placement = unrank(pattern, first);
    let mut free: u8 = 0;
    for last in 0..count {
        if !masks::has_cell(set, last) {
            let regions = regions(&placement);
            let before = free * width;
            let column = Column {
                last,
                free,
                first_place: 1 + before,
            };
            fill_column(set_rows, count, listed, column, regions.as_slice());
            mark(kinds, usize::from(before), regions.len());
            next(&mut placement);
            free += 1;
        }
    }
}

/// The rows of all cells for one set of cells, and which slots have a region.
#[derive(Drop)]
struct SetRows {
    rows: Vec<u8>,
    kinds: Vec<u8>,
}

/// The rows of all cells for a run's set of cells, and which slots have a region.
fn rows_of(alloc: Global, pattern: &Pattern, cells: &[u8], set: u32) -> Result<SetRows, AllocError>
    requires run { IsRun pattern.now cells.now }
    requires set { IsMaskOf set (λ c. has cells.now c ≡ true) }
    ensures rows { IfOk result (λ made. AreRowsOfRun pattern.now cells.now made.rows.items) }
    ensures kinds { IfOk result (λ made. AreKindsOfRun pattern.now cells.now made.kinds.items) }
    ensures size { IfOk result (λ made. length made.kinds.items
        ≡ entries_of_run pattern.now.side (length pattern.now.tiles)) }
{
    let count = usize::from(pattern.side().cells());
    let mut rows = vec![in alloc; 0; count * cells_of_row(pattern)]?;
    let mut kinds = vec![in alloc; 0; entries_of_run(pattern)]?;
    fill_rows(
        pattern,
        cells,
        set,
        rows.as_mut_slice(),
        kinds.as_mut_slice(),
    );
    Ok(SetRows { rows, kinds })
}

/// What is kept for some sets of cells, one behind the other.
#[derive(Drop)]
pub(crate) struct KeptSets {
    /// The sets.
    pub(crate) masks: Vec<u32>,
    /// For each set and cell the row.
    pub(crate) rows: Vec<u8>,
    /// For each set which slots have a region.
    pub(crate) kinds: Vec<u8>,
}

/// Puts a set of cells, its rows and its kinds behind those that are there. Without them only speed is lost.
pub(crate) fn push_set(
    alloc: Global,
    pattern: &Pattern,
    set: u32,
    kept: &mut KeptSets,
) -> Result<(), AllocError>
    requires bits { set < 2 ^ (pattern.now.side * pattern.now.side) }
    requires size { count_ones set + 1 ≡ length pattern.now.tiles }
    requires kept { AreKeptSets (rows_for pattern.now) kept.old }
    ensures { OnOk result (AreKeptSets (rows_for pattern.now) kept.new) }
{
    // Asked only for what its contract says.
    let _pattern = pattern.side();
    let mut cells = ArrayVec::new();
    put_numbers(set, &mut cells);
    let made = rows_of(alloc, pattern, cells.as_slice(), set)?;
    kept.rows.extend_from_slice(made.rows.as_slice())?;
    kept.kinds.extend_from_slice(made.kinds.as_slice())?;
    kept.masks.push(set)?;
    Ok(())
}

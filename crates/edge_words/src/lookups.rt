//! The entries of a table, by runs.

ghost use Rattle.std.specs.Prelude.{◌≡◌, ◌+◌, ◌-◌, ◌*◌, ◌^◌, ◌<◌, ◌≤◌, true, IfSome, length};
ghost use Rattle.puz_board.specs.Cells.{reverse_of, step_of};
ghost use Rattle.puz_board.specs.Masks.{IsMaskOf};
ghost use Rattle.pat_place.specs.Patterns.{IsPattern, has};
ghost use Rattle.pat_place.specs.Placements.{IsFree};
ghost use Rattle.pat_place.specs.Ranks.{IsRank};
ghost use Rattle.pat_place.specs.Regions.{IsSlot};
ghost use Rattle.tab_runs.specs.RunPlaces.{IsFirstRank, IsRun};
ghost use Rattle.tab_runs.specs.Rows.{IsOpen, listed_below, row_length};
ghost use Rattle.tab_runs.specs.RowTables.{AreRowsOf, rows_for};
ghost use Rattle.tab_runs.specs.Runs.{with_last};
ghost use Rattle.edge_words.specs.Indexes.{index_count, most_words};
ghost use Rattle.edge_words.specs.Lookups.{AreEntriesOf, AreOrigins, HaveEntries, IsRunOf, SaysOfAll, but_last};
ghost use Rattle.edge_words.specs.Words.{move_of};

use crate::indexes::strides_of;
use crate::runs::RunView;
use pat_place::{Pattern, rank_among, slot_of, unrank};
use puz_board::masks::{all_below, count_below};
use puz_board::{Move, Side, step};
use std::marker::Model;
use tab_rule::CheckedTable;
use tab_runs::RowTable;

/// How many moves there are to all cells: four to each of 25.
const MOST_WAYS: usize = 100;

/// A table, whose entries are looked up by runs. It takes no flood where its rows are kept.
#[derive(Drop)]
pub(crate) struct Lookup<'a> {
    pattern: Pattern,
    entries: &'a [u8],
    /// How many entries a placement has.
    width: usize,
    /// How many cells a row lists.
    listed: usize,
    rows: RowTable,
    /// For each cell and move the cell from which the move leads there.
    origins: [Option<u8>; MOST_WAYS],
    /// What a tile's cell counts in the index of a placement.
    strides: [u32; 8],
}

impl<'a> Model for Lookup<'a> {
    ghost use Rattle.pat_place.specs.Patterns.{ShownPattern};

    ghost Value = { ShownPattern };

    ghost use Rattle.edge_words.specs.Lookups.{IsStoredLookup};

    ghost view = { λ lookup. lookup.pattern };

    ghost invariant = { IsStoredLookup };
}

impl<'a> Lookup<'a> {
    /// The lookup of a table, with the rows for its pattern.
    pub(crate) fn new(table: &CheckedTable<'a>, rows: RowTable) -> Lookup<'a>
        requires few { index_count table.now.pattern ≤ most_words }
        requires rows { rows ≡ rows_for table.now.pattern }
        ensures { result ≡ table.now.pattern }
    {
        let pattern = table.pattern();
        Lookup {
            pattern,
            entries: table.entries(),
            width: usize::from(pattern.width()),
            listed: usize::from(pattern.side().cells()) - usize::from(pattern.size()),
            rows,
            origins: all_origins(pattern.side()),
            strides: strides_of(&pattern),
        }
    }

    /// The pattern.
    #[inline]
    pub(crate) fn pattern(&self) -> Pattern
        ensures pattern { result ≡ self.now }
        ensures is_pattern { IsPattern self.now }
        ensures entries { HaveEntries self.now }
    {
        self.pattern
    }

    /// The run with these cells, whose mask is given.
    #[inline]
    pub(crate) fn run_of(&self, cells: [u8; 8], set: u32) -> RunView<'_>
        requires room { length cells ≡ 8 }
        requires run { IsRun self.now (but_last self.now cells) }
        requires set { IsMaskOf set (λ c. has (but_last self.now cells) c ≡ true) }
        ensures run { IsRunOf self.now result }
        ensures cells { result.cells ≡ cells }
    {
        let count = self.pattern.side().cells();
        let others = usize::from(self.pattern.size()) - 1;
        let rank = rank_among(&cells[..others], count);
        let first = rank * (u64::from(count) - others as u64);
        RunView {
            cells,
            set,
            free: all_below(count) & !set,
            first,
            own: self.entries_from(&cells, first),
            rows: self.rows_of(&cells, set),
        }
    }

    /// The entries of the run with these cells, whose first placement has this rank.
    #[inline]
    fn entries_from(&self, cells: &[u8; 8], first: u64) -> &[u8]
        requires run { IsRun self.now (but_last self.now cells.now) }
        requires first { IsFirstRank self.now.side (but_last self.now cells.now) first }
        ensures { AreEntriesOf self.now (but_last self.now cells.now) result.now }
    {
        let count = usize::from(self.pattern.side().cells());
        let placements = count + 1 - usize::from(self.pattern.size());
        let start = first as usize * self.width;
        &self.entries[start..start + placements * self.width]
    }

    /// The rows of the set of these cells, if they are kept.
    #[inline]
    fn rows_of(&self, cells: &[u8; 8], set: u32) -> Option<&[u8]>
        requires { IsMaskOf set (λ c. has (but_last self.now cells.now) c ≡ true) }
        ensures { IfSome result (λ rows.
            AreRowsOf self.now.side (length self.now.tiles) set rows.now) }
    {
        match self.rows.of_set(set) {
            Some(kept) => Some(kept.rows),
            None => None,
        }
    }

    /// The cell from which the move with a number leads the blank to a cell, if there is one.
    #[inline]
    pub(crate) fn origin(&self, cell: u8, number: u8) -> Option<u8>
        requires { cell < self.now.side * self.now.side }
        ensures origin { result ≡ step_of self.now.side cell (reverse_of (move_of number)) }
        ensures within { IfSome result (λ from. from < self.now.side * self.now.side) }
    {
        // Asked only for what its contract says.
        let _side = self.pattern.side();
        self.origins[usize::from(4 * cell + number % 4)]
    }

    /// What the cell of a tile, by its index in the pattern, counts in the index of a placement.
    #[inline]
    pub(crate) fn stride(&self, tile: usize) -> usize
        requires { tile < length self.now.tiles }
        ensures stride { let p = self.now in
            result ≡ (p.side * p.side) ^ (length p.tiles - 1 - tile) }
        ensures few { result < 2 ^ 32 }
    {
        let _side = self.pattern.side();
        self.strides[tile] as usize
    }

    /// Where the row of a cell begins among the rows of a set.
    #[inline]
    pub(crate) fn row_start(&self, cell: u8) -> usize
        requires { cell < self.now.side * self.now.side }
        ensures { result ≡ cell * row_length self.now.side (length self.now.tiles) }
    {
        let _side = self.pattern.side();
        usize::from(cell) * self.listed
    }

    /// The entry of the run's placement with the last tile in a cell, where the blank is in another one, which has this place
    /// among the rows of the run's set.
    #[inline(always)]
    pub(crate) fn entry(&self, run: &RunView<'_>, cell: u8, last: u8, place: usize) -> u8
        requires run { IsRunOf self.now run.now }
        requires open { IsOpen self.now.side (but_last self.now run.now.cells) cell last }
        requires place { let p = self.now in place ≡ cell * row_length p.side (length p.tiles)
            + listed_below (but_last p run.now.cells) cell last }
        ensures { let cells = with_last (but_last self.now run.now.cells) last in
            SaysOfAll self.now cells cell result }
    {
        let _side = self.pattern.side();
        match run.rows {
            Some(rows) => run.own[usize::from(rows[place]) - 1],
            None => self.found_entry(run, cell, last),
        }
    }

    /// The same, by a flood.
    fn found_entry(&self, run: &RunView<'_>, cell: u8, last: u8) -> u8
        requires run { IsRunOf self.now run.now }
        requires open { IsOpen self.now.side (but_last self.now run.now.cells) cell last }
        ensures { let cells = with_last (but_last self.now run.now.cells) last in
            SaysOfAll self.now cells cell result }
    {
        let _side = self.pattern.side();
        let number = usize::from(count_below(run.free, last));
        run.own[number * self.width + usize::from(self.slot_of(run, last, cell))]
    }

    /// The slot of a free cell of that placement.
    fn slot_of(&self, run: &RunView<'_>, last: u8, cell: u8) -> u8
        requires run { IsRunOf self.now run.now }
        requires last { IsFree self.now.side (but_last self.now run.now.cells) last }
        requires free { let cells = with_last (but_last self.now run.now.cells) last in
            IsFree self.now.side cells cell }
        ensures { let cells = with_last (but_last self.now run.now.cells) last in
            IsSlot self.now.side cells cell result }
    {
        let _side = self.pattern.side();
        slot_of(&unrank(&self.pattern, self.rank_of(run, last)), cell)
    }

    /// The rank of the run's placement with the last tile in a cell.
    fn rank_of(&self, run: &RunView<'_>, last: u8) -> u64
        requires run { IsRunOf self.now run.now }
        requires last { IsFree self.now.side (but_last self.now run.now.cells) last }
        ensures { IsRank self.now.side (with_last (but_last self.now run.now.cells) last) result }
    {
        let _side = self.pattern.side();
        run.first + u64::from(count_below(run.free, last))
    }
}

/// For each cell of a board of a side and each move the cell from which the move leads there.
fn all_origins(side: Side) -> [Option<u8>; MOST_WAYS]
    ensures { AreOrigins side result }
{
    let mut origins = [None; MOST_WAYS];
    for place in 0..4 * side.cells() {
        let back = move_of(place).reverse();
        origins[usize::from(place)] = step(side, place / 4, back);
    }
    origins
}

/// The move with a number, of which the last digit to the base 4 counts.
#[inline]
fn move_of(number: u8) -> Move
    ensures { result ≡ move_of number }
{
    match number % 4 {
        0 => Move::Up,
        1 => Move::Down,
        2 => Move::Left,
        _ => Move::Right,
    }
}

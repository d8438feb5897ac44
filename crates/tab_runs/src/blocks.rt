//! The check of a block of a table, run by run.

ghost use Rattle.std.specs.Prelude.{◌≡◌, ◌≢◌, ℕ, ◌+◌, ◌-◌, ◌*◌, ◌%◌, ◌<◌, ◌≤◌, IfOk, MatchOption, length, slice_index};
ghost use Rattle.pat_place.specs.Placements.{IsPlacement};
ghost use Rattle.pat_place.specs.Ranks.{IsRank};
ghost use Rattle.tab_rule.specs.Blocks.{BlockKeepsRule, IsLeastBadIn, block_count};
ghost use Rattle.tab_rule.specs.Entries.{IsGoalNumber};
ghost use Rattle.tab_file.specs.Tables.{placement_count, slot_count};
ghost use Rattle.tab_file.specs.EntryRules.{goal_slot};
ghost use Rattle.tab_runs.specs.Checks.{ArePlacesOf, IsFirstBadPlace, RunKeepsRule};
ghost use Rattle.tab_runs.specs.Parts.{EntriesKeepRule, IsFirstBadEntry};
ghost use Rattle.tab_runs.specs.RunPlaces.{most_run_entries};
ghost use Rattle.tab_runs.specs.RunsOfTables.{AreCellsOfRun, AreRanksOf, IsRunOf, TellKindsOf};
ghost use Rattle.tab_runs.specs.Steps.{AreLeastNear};
ghost use Rattle.tab_runs.specs.RowTables.{rows_for};

use crate::checks::first_bad;
use crate::masks::last_outside;
use crate::near::least_near;
use crate::rows::RowTable;
use crate::runs::{BYTE_PLACES, Run, RunCells, RunKinds, run_entries};
use pat_place::{Pattern, Placement, next, unrank};
use puz_board::masks;
use std::ops::Range;
use tab_file::{GOAL_SLOT, TableView, WITHOUT_REGION};
use tab_rule::{BLOCK_RANKS, goal_number};

/// The table of rows doesn't have a set of cells.
#[derive(Clone, Copy, Debug, PartialEq, Eq)]
pub struct MissingRow;

/// The number of a block's least entry that breaks the local rule. The rows are those of the table's side and number of tiles;
/// where they lack a set of the block, nothing is answered.
pub fn check_runs(
    table: &TableView<'_>,
    rows: &RowTable,
    block: u64,
) -> Result<Option<u64>, MissingRow>
    requires block { block < block_count table.now.pattern }
    requires rows { rows.now ≡ rows_for table.now.pattern }
    ensures { IfOk result (λ found.
        MatchOption found (BlockKeepsRule table.now block) (IsLeastBadIn table.now block)) }
{
    let pattern = table.pattern();
    let run = placements_of_run(&pattern);
    let goal = goal_number(table);
    let first = block * BLOCK_RANKS;
    let end = pattern.count().min(first + BLOCK_RANKS);
    let mut placement = unrank(&pattern, first);
    let mut from = first;
    'runs: while from < end {
        let to = end.min(from - from % run + run);
        if let Some(number) = check_run(table, rows, goal, &placement, from..to)? {
            return Ok(Some(number));
        }
        from = to;
        placement = last_of_run(&pattern, &placement);
        next(&mut placement);
    }
    Ok(None)
}

/// The last placement of a placement's run.
fn last_of_run(pattern: &Pattern, placement: &Placement) -> Placement
    requires pattern { placement.now.pattern ≡ pattern.now }
    requires placement { IsPlacement placement.now }
    ensures pattern { result.pattern ≡ pattern.now }
    ensures placement { IsPlacement result }
    ensures rank { let p = pattern.now in (r : ℕ) → IsRank p.side placement.now.cells r
        → IsRank p.side result.cells
        (r - r % (p.side * p.side + 1 - length p.tiles) + (p.side * p.side - length p.tiles)) }
{
    let count = pattern.side().cells();
    let index = usize::from(pattern.size()) - 1;
    let cell = placement.cell(index);
    let set = masks::without(placement.occupied(), cell);
    let Some(last) = last_outside(set, count) else {
        return *placement;
    };
    if last == cell {
        return *placement;
    }
    placement.moved(index, last)
}

/// The first bad entry of the placements with these ranks, all of one run, where this is the first placement.
fn check_run(
    table: &TableView<'_>,
    rows: &RowTable,
    goal: u64,
    placement: &Placement,
    ranks: Range<u64>,
) -> Result<Option<u64>, MissingRow>
    requires rows { rows.now ≡ rows_for table.now.pattern }
    requires goal { IsGoalNumber table.now.pattern goal }
    requires pattern { placement.now.pattern ≡ table.now.pattern }
    requires rank { IsRank table.now.pattern.side placement.now.cells ranks.start }
    requires some { ranks.start < ranks.end }
    requires count { ranks.end ≤ placement_count table.now.pattern }
    requires run { let p = table.now.pattern in let count = p.side * p.side + 1 - length p.tiles in
        ranks.end ≤ ranks.start - ranks.start % count + count }
    ensures { let low = ranks.start * slot_count table.now.pattern in
        let high = ranks.end * slot_count table.now.pattern in
        IfOk result (λ found. MatchOption found
        (EntriesKeepRule table.now low high)
        (IsFirstBadEntry table.now low high)) }
{
    let pattern = table.pattern();
    let placed = placement.cells();
    let all_cells = placed.as_slice();
    let index = usize::from(pattern.size()) - 1;
    let set = masks::without(placement.occupied(), all_cells[index]);
    let first = ranks.start - ranks.start % placements_of_run(&pattern);
    let run_cells = RunCells {
        cells: &all_cells[..index],
        set,
        first,
    };
    check_part(table, rows, goal, &run_cells, ranks)
}

/// The first bad entry of the placements of a run that have these ranks.
fn check_part(
    table: &TableView<'_>,
    rows: &RowTable,
    goal: u64,
    run_cells: &RunCells<'_>,
    ranks: Range<u64>,
) -> Result<Option<u64>, MissingRow>
    requires rows { rows.now ≡ rows_for table.now.pattern }
    requires goal { IsGoalNumber table.now.pattern goal }
    requires run_cells { AreCellsOfRun table.now run_cells.now }
    requires ranks { AreRanksOf table.now run_cells.now ranks.start ranks.end }
    ensures { let low = ranks.start * slot_count table.now.pattern in
        let high = ranks.end * slot_count table.now.pattern in
        IfOk result (λ found. MatchOption found
        (EntriesKeepRule table.now low high)
        (IsFirstBadEntry table.now low high)) }
{
    let RunCells { cells, set, first } = *run_cells;
    let Some(kept) = rows.of_set(set) else {
        return Err(MissingRow);
    };
    let run = Run {
        cells,
        set,
        row_table: rows,
        rows: kept.rows,
        own: run_entries(table, cells),
    };
    let Some(mins) = least_near(table, &run) else {
        return Err(MissingRow);
    };
    let width = u64::from(table.pattern().width());
    let low = ((ranks.start - first) * width) as usize;
    let high = ((ranks.end - first) * width) as usize;
    let before = first * width;
    let kinds = RunKinds {
        told: kept.kinds,
        before,
        goal,
    };
    match first_bad_of_kinds(table, &run, &mins, &kinds, low..high) {
        Some(place) => Ok(Some(before + place as u64)),
        None => Ok(None),
    }
}

/// The first place of a run's entries, among these, whose entry breaks the local rule.
fn first_bad_of_kinds(
    table: &TableView<'_>,
    run: &Run<'_>,
    mins: &[u8; BYTE_PLACES],
    kinds: &RunKinds<'_>,
    places: Range<usize>,
) -> Option<usize>
    requires run { IsRunOf table.now run.now }
    requires mins { AreLeastNear table.now run.now.cells.now mins.now }
    requires kinds { TellKindsOf table.now run.now.cells.now kinds.now }
    requires places { ArePlacesOf table.now run.now.cells.now places.start places.end }
    ensures { MatchOption result
        (RunKeepsRule table.now run.now.cells.now places.start places.end)
        (IsFirstBadPlace table.now run.now.cells.now places.start places.end) }
{
    // Asked only for what its contract says.
    let _pattern = table.pattern();
    let RunKinds { told, before, goal } = *kinds;
    if goal < before || goal - before >= told.len() as u64 {
        return first_bad(table, run, mins, told, places);
    }
    let kinds = with_goal(told, (goal - before) as usize);
    first_bad(table, run, mins, &kinds, places)
}

/// The kinds of a run's slots, of which the one at this place is the goal's.
fn with_goal(told: &[u8], goal: usize) -> [u8; BYTE_PLACES]
    requires few { length told.now ≤ most_run_entries }
    requires goal { goal < length told.now }
    ensures goal { slice_index result goal ≡ goal_slot }
    ensures others { (place : ℕ) → place < length told.now → place ≢ goal
        → slice_index result place ≡ slice_index told.now place }
{
    let mut kinds = [WITHOUT_REGION; BYTE_PLACES];
    for (place, kind) in told.iter().enumerate() {
        kinds[place] = *kind;
    }
    kinds[goal] = GOAL_SLOT;
    kinds
}

/// How many placements a run has.
fn placements_of_run(pattern: &Pattern) -> u64
    ensures count { result ≡ pattern.now.side * pattern.now.side + 1 - length pattern.now.tiles }
    ensures some { 0 < result }
{
    u64::from(pattern.side().cells()) + 1 - u64::from(pattern.size())
}

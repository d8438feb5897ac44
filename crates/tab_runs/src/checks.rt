//! The check of a run: the first entry between two places that breaks the local rule.

ghost use Rattle.std.specs.Prelude.{◌+◌, ◌*◌, ◌≤◌, MatchOption, length};
ghost use Rattle.tab_file.specs.Tables.{slot_count};
ghost use Rattle.tab_runs.specs.Checks.{AreKinds, ArePlacesOf, IsFirstBadPlace, RunKeepsRule};
ghost use Rattle.tab_runs.specs.RunPlaces.{run_length};
ghost use Rattle.tab_runs.specs.RunsOfTables.{IsRunOf};
ghost use Rattle.tab_runs.specs.Steps.{AreLeastNear};

use crate::runs::{BYTE_PLACES, Run};
use std::ops::Range;
use tab_file::TableView;

/// The first place of a run's entries, among these, whose entry breaks the local rule. Places are counted
/// from 0 here.
pub(crate) fn first_bad(
    table: &TableView<'_>,
    run: &Run<'_>,
    mins: &[u8; BYTE_PLACES],
    kinds: &[u8],
    places: Range<usize>,
) -> Option<usize>
    requires run { IsRunOf table.now run.now }
    requires mins { AreLeastNear table.now run.now.cells.now mins.now }
    requires kinds { AreKinds table.now run.now.cells.now kinds.now }
    requires room { run_length table.now.pattern.side run.now.cells.now
        * slot_count table.now.pattern ≤ length kinds.now }
    requires places { ArePlacesOf table.now run.now.cells.now places.start places.end }
    ensures { MatchOption result
        (RunKeepsRule table.now run.now.cells.now places.start places.end)
        (IsFirstBadPlace table.now run.now.cells.now places.start places.end) }
{
    // Asked only for what its contract says.
    let _pattern = table.pattern();
    let low = places.start;
    let high = places.end;
    let Some(place) = tab_lanes::first_bad(
        &run.own[1 + low..1 + high],
        &mins[1 + low..1 + high],
        &kinds[low..high],
    ) else {
        return None;
    };
    Some(low + place)
}

//! The words of all placements, run by run.

ghost use Rattle.std.specs.Prelude.{◌≡◌, ◌≢◌, ℕ, ◌+◌, ◌-◌, ◌*◌, ◌/◌, ◌%◌, ◌<◌, ◌≤◌, true, List, MatchOption, length};
ghost use Rattle.std.specs.List.{AllByRecursion};
ghost use Rattle.puz_board.specs.Masks.{IsMaskOf};
ghost use Rattle.pat_place.specs.Patterns.{has};
ghost use Rattle.pat_place.specs.Placements.{IsApart};
ghost use Rattle.tab_runs.specs.RunPlaces.{IsRun};
ghost use denote.Param.Send.{IsSync};
ghost use Rattle.edge_words.specs.Fills.{AreAllTold, AreToldBelow, IsFillable, IsSpan, run_count};
ghost use Rattle.edge_words.specs.Indexes.{index_count, index_in, most_words};
ghost use Rattle.edge_words.specs.Lookups.{IsRunOf, but_last};

use crate::edges::words_of;
use crate::lookups::Lookup;
use crate::runs::RunView;
use pat_place::Pattern;
use puz_board::masks::{has_cell, with};
use std::thread::{Threads, join_mut};

/// Runs, one after the other by their indexes.
#[derive(Clone, Copy)]
pub(crate) struct Span {
    /// The first index.
    pub(crate) low: usize,
    /// Behind the last one.
    pub(crate) high: usize,
}

/// Fills in the words of a span by so many threads at once.
pub(crate) fn fill_by<R: Threads + Sync>(
    rt: &R,
    lookup: &Lookup<'_>,
    threads: u8,
    span: Span,
    words: &mut [u32],
)
    requires { IsFillable lookup.now span words.old }
    ensures { AreAllTold lookup.now span words.new }
{
    let cells = usize::from(lookup.pattern().side().cells());
    if threads < 2 {
        return fill(lookup, &span, words);
    }
    let half = threads / 2;
    let others = threads - half;
    let part = (span.high - span.low) / usize::from(threads) * usize::from(half);
    let middle = span.low + part;
    let low = Span {
        high: middle,
        ..span
    };
    let high = Span {
        low: middle,
        ..span
    };
    let (front, back) = words.split_at_mut(part * cells);
    join_mut(
        rt,
        &mut ||
            requires { IsSync R.row × IsFillable lookup.now low front.now }
            ensures { AreAllTold lookup.entry.now low front.exit.now }
        { fill_by(rt, lookup, half, low, front) },
        &mut ||
            requires { IsSync R.row × IsFillable lookup.now high back.now }
            ensures { AreAllTold lookup.entry.now high back.exit.now }
        { fill_by(rt, lookup, others, high, back) },
    );
}

/// Fills in the words of a span, run by run.
pub(crate) fn fill(lookup: &Lookup<'_>, span: &Span, words: &mut [u32])
    requires { IsFillable lookup.now span.now words.old }
    ensures { AreAllTold lookup.now span.now words.new }
{
    for index in span.low..span.high {
        if let Some(run) = run_at(lookup, index) {
            fill_run(lookup, &run, index, span, words);
        }
    }
}

/// Fills in the words of a run's placements, where those of the span's runs with lower indexes are there.
fn fill_run(lookup: &Lookup<'_>, run: &RunView<'_>, index: usize, span: &Span, words: &mut [u32])
    requires run { IsRunOf lookup.now run.now }
    requires index { index_in lookup.now (but_last lookup.now run.now.cells) ≡ index }
    requires span { IsSpan lookup.now span.now × (span.now.low ≤ index) × (index < span.now.high) }
    requires few { index_count lookup.now ≤ most_words }
    requires told { AreToldBelow lookup.now span.now index words.old }
    ensures { AreToldBelow lookup.now span.now (index + 1) words.new }
{
    let cells = lookup.pattern().side().cells();
    let start = (index - span.low) * usize::from(cells);
    let found = words_of(lookup, run, &words[..start]);
    for last in 0..cells {
        words[start + usize::from(last)] = found[usize::from(last)];
    }
}

/// The run with an index, where no two of its tiles are in the same cell.
fn run_at<'a>(lookup: &'a Lookup<'_>, index: usize) -> Option<RunView<'a>>
    requires index { index < run_count lookup.now }
    ensures { MatchOption result
        ((cells : List ℕ) → IsRun lookup.now cells → index_in lookup.now cells ≢ index)
        (λ run. IsRunOf lookup.now run
        × (index_in lookup.now (but_last lookup.now run.cells) ≡ index)) }
{
    let pattern = lookup.pattern();
    let cells = cells_at(&pattern, index);
    let Some(set) = set_of(&cells[..usize::from(pattern.size()) - 1]) else {
        return None;
    };
    Some(lookup.run_of(cells, set))
}

/// The cells of all tiles but the last whose index this is. Zeros stand behind them.
fn cells_at(pattern: &Pattern, index: usize) -> [u8; 8]
    requires { index < run_count pattern.now }
    ensures room { length result ≡ 8 }
    ensures index { index_in pattern.now (but_last pattern.now result) ≡ index }
    ensures inside { let count = pattern.now.side * pattern.now.side in
        AllByRecursion (λ c. c < count) (but_last pattern.now result) }
{
    let count = usize::from(pattern.side().cells());
    let mut cells = [0; 8];
    let mut rest = index;
    let mut tile = usize::from(pattern.size()) - 1;
    while tile > 0 {
        tile -= 1;
        cells[tile] = last_digit(rest, count);
        rest = without_digit(rest, count);
    }
    cells
}

/// The last digit of a number to the base that is the count of a board's cells. The bases of large boards stand here as
/// constants, so that nothing is divided.
#[inline]
fn last_digit(number: usize, count: usize) -> u8
    requires some { 0 < count }
    requires few { count ≤ 25 }
    ensures { result ≡ number % count }
{
    let digit = match count {
        16 => number % 16,
        25 => number % 25,
        _ => number % count,
    };
    digit as u8
}

/// The number without its last digit.
#[inline]
fn without_digit(number: usize, count: usize) -> usize
    requires { 0 < count }
    ensures { result ≡ number / count }
{
    match count {
        16 => number / 16,
        25 => number / 25,
        _ => number / count,
    }
}

/// The cells as a mask, where no two of them are the same.
fn set_of(cells: &[u8]) -> Option<u32>
    requires { AllByRecursion (λ c. c < 25) cells.now }
    ensures { MatchOption result
        (¬ IsApart cells.now)
        (λ set. IsApart cells.now × IsMaskOf set (λ c. has cells.now c ≡ true)) }
{
    let mut set = 0;
    for cell in cells {
        if has_cell(set, *cell) {
            return None;
        }
        set = with(set, *cell);
    }
    Some(set)
}

//! What a gate is told of searches, counts and entries.

use crate::runs::ran_parted;
use crate::same::same_for;
use byte_io::memory::MemShelf;
use pdb_program::RunHost;
use std::alloc::{AllocError, Global};
use std::process::Abort;
use std::sync::Wait;
use std::sync::atomic::{AtomicU64, Ordering};
use std::test::Fail;
use std::thread::Threads;
use test_samples::LeastCosts;
use test_samples::files::TILES_12;
use work_run::Gate;

/// Notes how many searches there are, the digits of their bounds, and how many counts and entries of a table it is told of.
#[derive(Drop)]
struct Told {
    searches: AtomicU64,
    bounds: AtomicU64,
    counts: AtomicU64,
    entries: AtomicU64,
}

impl Gate for Told {
    fn before(&self, _job: u64) {}

    fn searches(&self, bound: u8) {
        self.searches.fetch_add(1, Ordering::SeqCst);
        let digits = self.bounds.load(Ordering::SeqCst).wrapping_mul(10);
        let bounds = digits.wrapping_add(u64::from(bound));
        self.bounds.store(bounds, Ordering::SeqCst);
    }

    fn found(&self, _moves: u8, counts: u64, _all: u64) {
        self.counts.store(counts, Ordering::SeqCst);
    }

    fn filled(&self, entries: u64, _all: u64) {
        self.entries.fetch_add(entries, Ordering::SeqCst);
    }
}

/// The gate to a run of these words, which one space parts.
fn told_by<H: Threads + Wait + Sync>(
    rt: &H,
    alloc: Global,
    words: &str,
    shelf: &mut MemShelf,
) -> Result<Told, AllocError> {
    let told = Told {
        searches: AtomicU64::new(0),
        bounds: AtomicU64::new(0),
        counts: AtomicU64::new(0),
        entries: AtomicU64::new(0),
    };
    let gate = &told;
    ran_parted(&RunHost { rt, alloc, gate }, words, shelf)?;
    Ok(told)
}

/// A gate is told of these bounds, counts and entries.
fn expect_told<H: Threads + Wait + Sync + Abort>(
    rt: &H,
    alloc: Global,
    words: &str,
    want: [u64; 3],
) -> Result<(), Fail> {
    let files: [(&str, &[u8]); 3] = [
        ("six", b"3 2 1 0"),
        ("sets", b"set 0\n"),
        ("f12", &TILES_12),
    ];
    let told = told_by(rt, alloc, words, &mut MemShelf::of(alloc, &files)?)?;
    let found = [
        told.bounds.load(Ordering::SeqCst),
        told.counts.load(Ordering::SeqCst),
        told.entries.load(Ordering::SeqCst),
    ];
    same_for(rt, &found, &want, &words);
    Ok(())
}

#[test]
fn a_gate_is_told_of_what_makers_do(rt: HostRuntime) -> Result<(), Fail> {
    // Thresholds are searched from the least on.
    let cases = [
        ("make-table 3 14 o", [0, 744, 2016]),
        ("solve six sets o f12", [1357, 0, 0]),
        ("solve six sets o f12 --budget 8 --workers 2", [1357, 0, 0]),
        ("solve six sets o f12 --budget 1", [135, 0, 0]),
    ];
    for (words, want) in cases {
        expect_told(&rt, rt.alloc(), words, want)?;
    }
    Ok(())
}

/// A bound of one of the two boards of side 3 that are 31 moves from the goal board, the most (Reinefeld 1993): over the table of the
/// tile 4 it takes 68,581 boards, more than one thread searches alone.
const HARD: &[u8] = b"8 7 6 0 4 1 2 5 3 : 21\n";

/// The same claim twice.
const TWICE: &[u8] = b"8 7 6 0 4 1 2 5 3 : 21\n8 7 6 0 4 1 2 5 3 : 21\n";

/// So many searches for hard claims are begun in a run of these words.
fn expect_searches<H: Threads + Wait + Sync + Abort>(
    rt: &H,
    alloc: Global,
    words: &str,
    searches: u64,
) -> Result<(), Fail> {
    let table = LeastCosts::new(alloc, &[4])?.table(alloc)?;
    let files: [(&str, &[u8]); 4] = [
        ("hard", HARD),
        ("twice", TWICE),
        ("sets", b"set 0\n"),
        ("t", &table),
    ];
    let told = told_by(rt, alloc, words, &mut MemShelf::of(alloc, &files)?)?;
    let found = told.searches.load(Ordering::SeqCst);
    same_for(rt, &found, &searches, &words);
    Ok(())
}

#[test]
fn a_claim_is_searched_for_anew_over_words_where_it_takes_many_boards(
    rt: HostRuntime,
) -> Result<(), Fail> {
    // Words are made after a third as many boards as the tables have placements, 24 here: below 2 and 4 the first claim takes 14, and
    // below 6 more than are left. Over words nine searches are for each claim, below 2, 4 and so on up to 16, and below 21.
    expect_searches(&rt, rt.alloc(), "prove twice sets t t t t t t t t", 21)
}

#[test]
fn sums_are_asked_of_more_than_eight_tables(rt: HostRuntime) -> Result<(), Fail> {
    expect_searches(&rt, rt.alloc(), "prove hard sets t t t t t t t t t", 9)
}

#[test]
fn sums_are_asked_of_folded_tables(rt: HostRuntime) -> Result<(), Fail> {
    expect_searches(&rt, rt.alloc(), "prove hard sets t --fold --workers 2", 9)
}

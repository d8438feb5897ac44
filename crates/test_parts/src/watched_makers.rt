//! What a gate is told while tables are made.

use crate::same::same_for;
use pat_place::Pattern;
use puz_board::Side;
use puz_make::draft;
use std::process::Abort;
use std::sync::atomic::{AtomicU64, Ordering};
use std::thread::Threads;
use work_run::Gate;

/// Notes what it is told. Nobody passes it.
#[derive(Drop)]
struct Told {
    passed: AtomicU64,
    /// How many times boards were told.
    calls: AtomicU64,
    /// How many layers were told; the moves, the counts and all counts of the last of them.
    layers: AtomicU64,
    moves: AtomicU64,
    counts: AtomicU64,
    all_counts: AtomicU64,
    entries: AtomicU64,
    all_entries: AtomicU64,
}

impl Told {
    fn new() -> Told {
        Told {
            passed: AtomicU64::new(0),
            calls: AtomicU64::new(0),
            layers: AtomicU64::new(0),
            moves: AtomicU64::new(0),
            counts: AtomicU64::new(0),
            all_counts: AtomicU64::new(0),
            entries: AtomicU64::new(0),
            all_entries: AtomicU64::new(0),
        }
    }
}

/// What a number is.
fn of(number: &AtomicU64) -> u64 {
    number.load(Ordering::SeqCst)
}

impl Gate for Told {
    fn before(&self, _job: u64) {
        self.passed.fetch_add(1, Ordering::SeqCst);
    }

    fn expanded(&self, _boards: u64) {
        self.calls.fetch_add(1, Ordering::SeqCst);
    }

    fn found(&self, moves: u8, counts: u64, all: u64) {
        self.layers.fetch_add(1, Ordering::SeqCst);
        self.moves.store(u64::from(moves), Ordering::SeqCst);
        self.counts.store(counts, Ordering::SeqCst);
        self.all_counts.store(all, Ordering::SeqCst);
    }

    fn filled(&self, entries: u64, all: u64) {
        self.entries.fetch_add(entries, Ordering::SeqCst);
        self.all_entries.store(all, Ordering::SeqCst);
    }
}

/// A gate is told this of the table of a side and a mask: how many moves its deepest count has, how many counts it has and looks
/// for, and how many entries.
fn told_of_table<R: Threads + Sync + AllocGlobal + Abort>(
    rt: &R,
    (side, mask): (u8, u32),
    (deepest, counts, all): (u64, u64, u64),
    entries: u64,
) {
    let side = Side::of(side).expect(rt, "a side");
    let pattern = Pattern::of_mask(side, mask).expect(rt, "a pattern");
    let gate = Told::new();
    let made = draft(rt, rt.alloc(), &pattern, &gate);
    assert!(rt;
        made.is_ok_and(|made| made.file.len() as u64 == entries.saturating_add(20)),
        "{mask}"
    );
    same_for(
        rt,
        &(of(&gate.layers), of(&gate.moves)),
        &(deepest, deepest),
        &mask,
    );
    same_for(
        rt,
        &(of(&gate.counts), of(&gate.all_counts)),
        &(counts, all),
        &mask,
    );
    same_for(
        rt,
        &(of(&gate.entries), of(&gate.all_entries)),
        &(entries, entries),
        &mask,
    );
    same_for(rt, &(of(&gate.passed), of(&gate.calls)), &(0, 0), &mask);
}

// A table has as many counts as entries that aren't 254, and finds those that aren't 255.
#[test]
fn a_gate_is_told_of_each_layer_and_of_all_entries(rt: HostRuntime) {
    told_of_table(&rt, (2, 2), (2, 4, 4), 8);
    told_of_table(&rt, (2, 6), (4, 8, 16), 24);
    told_of_table(&rt, (2, 14), (6, 12, 24), 24);
    told_of_table(&rt, (3, 62), (20, 30_720, 30_720), 60_480);
}

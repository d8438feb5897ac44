//! What a gate is told of searches.

use crate::bundles::{bundle_of_made, over_one};
use crate::finding::{board_of, made};
use crate::korf_board;
use crate::same::same;
use crate::starts::{reversals, start_of};
use move_strings::Automaton;
use puz_board::Board;
use puz_search::{Deepened, Guide, PartBound, SearchAnswer, refute, shortest};
use set_sum::Bundle;
use std::process::Abort;
use std::sync::atomic::{AtomicU64, Ordering};
use std::thread::Threads;
use test_samples::boards::RING;
use test_samples::files::TILE_1;
use work_run::{Gate, Workers};

/// Counts searches, boards and jobs.
#[derive(Drop)]
struct Counts {
    searches: AtomicU64,
    boards: AtomicU64,
    jobs: AtomicU64,
}

impl Counts {
    fn new() -> Counts {
        Counts {
            searches: AtomicU64::new(0),
            boards: AtomicU64::new(0),
            jobs: AtomicU64::new(0),
        }
    }
}

impl Gate for Counts {
    fn before(&self, _job: u64) {
        self.jobs.fetch_add(1, Ordering::SeqCst);
    }

    fn searches(&self, _bound: u8) {
        self.searches.fetch_add(1, Ordering::SeqCst);
    }

    fn expanded(&self, boards: u64) {
        self.boards.fetch_add(boards, Ordering::SeqCst);
    }
}

/// What a gate is told of the searches for a board of a ring.
fn watch<R: Threads + Sync + AllocGlobal + Abort>(
    rt: &R,
    bundle: &Bundle<'_>,
    automaton: &Automaton,
) {
    let board = Board::from_cells(&RING[6]).expect(rt, "a board");
    if automaton.side() != bundle.side() {
        panic!(rt; "of one side");
    }
    let start = start_of(rt, bundle, &board);
    let guide = Guide::new(bundle, automaton);
    let counts = Counts::new();
    let workers = Workers::new(rt, rt.alloc(), 2, &counts);
    let bound = PartBound::whole(6);
    let SearchAnswer::Refuted(boards) = refute(&guide, &start, &bound, 100, &workers) else {
        panic!(rt; "refuted");
    };
    same(rt, &counts.searches.load(Ordering::SeqCst), &1);
    same(rt, &counts.boards.load(Ordering::SeqCst), &boards);
    let Deepened::Shortest(_) = shortest(&guide, &start, 100, &workers) else {
        panic!(rt; "a solution");
    };
    // Thresholds 1, 3, 5 and 7.
    same(rt, &counts.searches.load(Ordering::SeqCst), &5);
}

#[test]
fn a_gate_is_told_of_each_search_and_of_its_boards(rt: HostRuntime) {
    let bundle = over_one(&rt, &TILE_1);
    let automaton = reversals(&rt, bundle.side());
    watch(&rt, &bundle, &automaton);
}

/// How many jobs so many workers begin in a search of more boards than one thread searches alone.
fn jobs_of<R: Threads + Sync + AllocGlobal + Abort>(
    rt: &R,
    bundle: &Bundle<'_>,
    workers: u8,
) -> u64 {
    let automaton = reversals(rt, bundle.side());
    let guide = Guide::new(bundle, &automaton);
    let start = start_of(rt, bundle, &board_of(rt, &korf_board::BOARD));
    let counts = Counts::new();
    let workers = match workers {
        1..=64 => Workers::new(rt, rt.alloc(), workers, &counts),
        _ => panic!(rt; "1 to 64 workers"),
    };
    let bound = PartBound::whole(korf_board::MOVES);
    let answer = refute(&guide, &start, &bound, u64::MAX, &workers);
    let SearchAnswer::Refuted(boards) = answer else {
        panic!(rt; "refuted");
    };
    assert!(rt; boards > 1 << 16, "{boards}");
    counts.jobs.load(Ordering::SeqCst)
}

/// How many workers there are, and how many jobs they share: the boards so many moves away that there are 512 for each worker, and
/// no more than 4,096 are wanted. Another program counted the boards.
const JOBS: [(u8, u64); 2] = [(1, 905), (64, 5_352)];

#[test]
fn a_large_search_is_cut_into_hundreds_of_jobs_for_each_worker(rt: HostRuntime) {
    let files = made(&rt, 4, &korf_board::MASKS);
    let bundle = bundle_of_made(&rt, &files, korf_board::ALL);
    for (workers, jobs) in JOBS {
        same(&rt, &jobs_of(&rt, &bundle, workers), &jobs);
    }
}

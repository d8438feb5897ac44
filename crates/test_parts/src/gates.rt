//! What a gate is told before any worker starts.

use crate::same::{same, same_for};
use crate::workers::Good;
use std::sync::atomic::{AtomicU64, Ordering};
use std::test::Fail;
use std::thread::yield_now;
use work_run::{Gate, run_jobs};

/// How often other threads are let on before the gate notes that it was told, so that a worker that had started before
/// would come first.
const TURNS: u64 = 10_000;

/// Notes what it is told, how many jobs come, and how many of them before it was told.
#[derive(Drop)]
struct Counter {
    told: AtomicU64,
    jobs: AtomicU64,
    came: AtomicU64,
    came_before: AtomicU64,
}

impl Counter {
    fn new() -> Counter {
        Counter {
            told: AtomicU64::new(0),
            jobs: AtomicU64::new(0),
            came: AtomicU64::new(0),
            came_before: AtomicU64::new(0),
        }
    }
}

impl Gate for Counter {
    fn begins(&self, jobs: u64) {
        for _ in 0..TURNS {
            yield_now();
        }
        self.jobs.fetch_add(jobs, Ordering::SeqCst);
        self.told.fetch_add(1, Ordering::SeqCst);
    }

    fn before(&self, _job: u64) {
        self.came.fetch_add(1, Ordering::SeqCst);
        if self.told.load(Ordering::SeqCst) == 0 {
            self.came_before.fetch_add(1, Ordering::SeqCst);
        }
    }
}

#[test]
fn a_gate_is_told_the_number_of_jobs_once_and_before_they_come(
    rt: HostRuntime,
) -> Result<(), Fail> {
    for (count, workers) in [(100, 1), (100, 2), (100, 7), (0, 1), (0, 2), (0, 7)] {
        let gate = Counter::new();
        let jobs = Good { count };
        let fault = run_jobs(&rt, rt.alloc(), &jobs, workers, &gate)?;
        same(&rt, &fault, &None);
        same_for(&rt, &gate.told.into_inner(), &1, &(count, workers));
        let came = (gate.jobs.into_inner(), gate.came.into_inner());
        same(&rt, &came, &(count, count));
        same(&rt, &gate.came_before.into_inner(), &0);
    }
    Ok(())
}

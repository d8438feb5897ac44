//! Workers that share jobs.

use crate::same::{same, same_for};
use std::alloc::AllocError;
use std::process::Abort;
use std::test::Fail;
use std::thread::Threads;
use test_samples::Log;
use work_run::{Gate, OpenGate, Workers};
use work_share::{Task, share};

/// Squares of the numbers below a count.
#[derive(Drop)]
struct Squares {
    count: usize,
}

impl Task for Squares {
    ghost use Rattle.std.specs.Prelude.{◌≡◌, ◌*◌};

    type Outcome = u128;

    ghost jobs = { λ squares. squares.count };

    ghost gives = { λ squares job square. square ≡ job * job };

    fn count(&self) -> usize {
        self.count
    }

    fn run(&self, job: usize) -> u128 {
        job as u128 * job as u128
    }
}

/// The squares below a count, by so many workers. Where memory is refused once, they are shared once more.
fn shared<R: Threads + Sync + AllocGlobal + Abort, G: Gate + Sync>(
    rt: &R,
    count: usize,
    workers: u8,
    gate: &G,
) -> Result<Vec<u128>, AllocError> {
    let workers = match workers {
        1..=64 => Workers::new(rt, rt.alloc(), workers, gate),
        _ => panic!(rt; "1 to 64 workers"),
    };
    let task = Squares { count };
    match share(&task, &workers) {
        Ok(squares) => Ok(squares),
        Err(_) => share(&task, &workers),
    }
}

#[test]
fn each_outcome_stands_in_the_place_of_its_job(rt: HostRuntime) -> Result<(), Fail> {
    for workers in [1, 2, 7, 64] {
        for count in [0, 1, 5, 1000] {
            let squares = shared(&rt, count, workers, &OpenGate)?;
            same(&rt, &squares.len(), &count);
            for (job, square) in squares.iter().enumerate() {
                same_for(
                    &rt,
                    square,
                    &(job as u128 * job as u128),
                    &("workers", workers),
                );
            }
        }
    }
    Ok(())
}

#[test]
fn each_job_passes_the_gate_once(rt: HostRuntime) -> Result<(), Fail> {
    for workers in [1, 2, 7, 64] {
        let log = Log::new(rt.alloc(), 100)?;
        let task = Squares { count: 100 };
        let outcomes = share(&task, &Workers::new(&rt, rt.alloc(), workers, &log));
        let mut jobs = log.notes(rt.alloc())?;
        jobs.sort()?;
        if outcomes.is_ok() {
            same(&rt, &log.count(), &100);
            for (job, number) in (0..100).zip(&jobs) {
                same(&rt, number, &job);
            }
        }
    }
    Ok(())
}

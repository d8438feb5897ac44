//! All workers of a task.

ghost use Rattle.std.specs.Prelude.{◌≡◌, IfOk};
ghost use Rattle.work_share.specs.Shares.{AreDone, AreOutcomes};

use crate::draws::{Done, draw_jobs};
use crate::places::in_order;
use crate::tasks::Task;
use std::alloc::AllocError;
use std::sync::atomic::AtomicUsize;
use std::thread;
use std::thread::Threads;
use work_run::{Gate, Workers};

/// What each job of a task gives, in the order of the jobs, by these workers at once.
///
/// Each worker draws the next job when it has run the one before. The caller's thread is one of the workers, and where there is one
/// alone, everything happens there. The gate is told how many jobs there are before the first worker starts, and is passed
/// before each job. It fails only where the threads can't be started, or there is no memory for what the jobs give.
pub fn share<T: Task + Sync, R: Threads + Sync, G: Gate + Sync>(
    task: &T,
    workers: &Workers<'_, R, G>,
) -> Result<Vec<T::Outcome>, AllocError>
    ensures { IfOk result (λ outcomes.
        AreOutcomes (T.gives task.now) (T.jobs task.now) outcomes.items) }
{
    let (alloc, gate) = (workers.alloc, workers.gate);
    let jobs = task.count();
    gate.begins(jobs as u64);
    let counter = AtomicUsize::new(0);
    let drawn = &counter;
    let draw = |_worker: usize| -> Vec<Done<T::Outcome>>
        requires { jobs ≡ T.jobs task.now }
        ensures { AreDone (T.gives task.entry.now) (T.jobs task.entry.now) result.items }
    { draw_jobs(task, jobs, drawn, alloc, gate) };
    let parts = thread::map_indices(workers.rt, alloc, usize::from(workers.count), &draw)?;
    in_order(task, jobs, parts, alloc, gate)
}

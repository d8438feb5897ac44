//! All workers of a check.

ghost use Rattle.std.specs.Prelude.{◌≡◌, ◌≤◌, IfOk, vec_capacity};
ghost use Rattle.work_run.specs.Faults.{IsFault};
ghost use Rattle.work_run.specs.PassesAtWork.{AreDone, AreNew};
ghost use Rattle.work_run.specs.Workers.{AreWorkers};

use crate::gates::Gate;
use crate::jobs::Job;
use crate::promises::Worked;
use crate::worker::work;
use crate::workers::Workers;
use book_live::{Book, Pass};
use std::alloc::{AllocError, Global};
use std::snapshot::Snapshot;
use std::sync::Wait;
use std::thread;
use std::thread::{Scope, Threads};

/// The least bad place of all jobs, or none, by so many workers at once.
///
/// The caller's thread is one of them, and each other worker has a thread of its own.
/// The gate is told how many jobs there are before the first worker starts.
/// Where a thread can't be started, those that run are joined first.
pub fn run_jobs<R: Threads + Wait, J: Job + Sync, G: Gate + Sync>(
    rt: &R,
    alloc: Global,
    job: &J,
    workers: u8,
    gate: &G,
) -> Result<Option<u64>, AllocError>
    requires { AreWorkers workers }
    ensures { IfOk result (IsFault (J.bad job.now) (J.begins job.now (J.jobs job.now))) }
{
    run_jobs_by(job, &Workers::new(rt, alloc, workers, gate))
}

/// The least bad place of all jobs, or none, by these workers at once. It is what `run_jobs` answers.
pub fn run_jobs_by<R: Threads + Wait, J: Job + Sync, G: Gate + Sync>(
    job: &J,
    workers: &Workers<'_, R, G>,
) -> Result<Option<u64>, AllocError>
    ensures { IfOk result (IsFault (J.bad job.now) (J.begins job.now (J.jobs job.now))) }
{
    let (rt, gate) = (workers.rt, workers.gate);
    let jobs = job.count();
    let (book, passes) = Book::new(workers.alloc, jobs, workers.count)?;
    let shared = &book;
    gate.begins(jobs);
    let ended = thread::scope(
        thread::scope_env(),
        rt,
        |scope| -> Result<Vec<Pass>, AllocError>
            requires { (shared.now.sizes.jobs ≡ J.jobs job.now) × AreNew shared.now passes.items }
            ensures { IfOk result (λ done.
                AreDone (J.bad job.entry.now) (J.begins job.entry.now) (J.jobs job.entry.now)
                passes.items done.items) }
        {
            let task = Shared {
                job,
                book: shared,
                gate,
            };
            work_all(rt, scope, &task, passes)
        },
    )?;
    Ok(book.close(ended))
}

/// What workers share: their jobs, the book from which these are drawn, and the gate.
#[derive(Drop)]
struct Shared<'s, J, G> {
    job: &'s J,
    book: &'s Book,
    gate: &'s G,
}

/// Works through the passes at once: the first on the caller's thread, each other on a thread of its own.
/// They come back in their order.
fn work_all<'s, E, R: Threads, J: Job + Sync, G: Gate + Sync>(
    rt: &R,
    scope: &Scope<'s, E>,
    task: &Shared<'s, J, G>,
    mut passes: Vec<Pass>,
) -> Result<Vec<Pass>, AllocError>
    requires jobs { task.now.book.now.sizes.jobs ≡ J.jobs task.now.job.now }
    requires new { AreNew task.now.book.now passes.items }
    ensures done { let job = task.now.job.now in IfOk result (λ done.
        AreDone (J.bad job) (J.begins job) (J.jobs job) passes.items done.items) }
    ensures capacity { IfOk result (λ done. vec_capacity passes ≤ vec_capacity done) }
{
    let (job, book, gate) = (task.job, task.book, task.gate);
    let Some(pass) = passes.pop() else {
        return Ok(passes);
    };
    if passes.is_empty() {
        passes.push_reserved(work(job, book, pass, gate));
        return Ok(passes);
    }
    let promise = Worked {
        job: Snapshot::of(job),
        pass: Snapshot::of(&pass),
    };
    let worker = scope.spawn_with(promise, move || work(job, book, pass, gate))?;
    let others = work_all(rt, scope, task, passes);
    let pass = worker.join(rt);
    let mut passes = others?;
    passes.push_reserved(pass);
    Ok(passes)
}

//! One worker, and the jobs that it draws.

ghost use Rattle.std.specs.Prelude.{◌≡◌};
ghost use Rattle.work_share.specs.Shares.{AreDone};

use crate::tasks::Task;
use std::alloc::Global;
use std::sync::atomic::{AtomicUsize, Ordering};
use work_run::Gate;

/// A job that was run, and what it gave.
#[derive(Drop)]
pub(crate) struct Done<O> {
    pub(crate) job: usize,
    pub(crate) outcome: O,
}

/// Draws jobs one after the other and runs them, until none is left. The gate is passed before each.
///
/// The next number is whatever the workers' counter says. A worker with no memory for what its jobs give draws none.
pub(crate) fn draw_jobs<T: Task, G: Gate>(
    task: &T,
    jobs: usize,
    drawn: &AtomicUsize,
    alloc: Global,
    gate: &G,
) -> Vec<Done<T::Outcome>>
    requires { jobs ≡ T.jobs task.now }
    ensures { AreDone (T.gives task.now) (T.jobs task.now) result.items }
{
    let Ok(mut done) = Vec::with_capacity(alloc, jobs) else {
        return Vec::new(alloc);
    };
    for _ in 0..jobs {
        let job = drawn.fetch_add(1, Ordering::SeqCst);
        if jobs <= job {
            return done;
        }
        gate.before(job as u64);
        done.push_reserved(Done {
            job,
            outcome: task.run(job),
        });
    }
    done
}

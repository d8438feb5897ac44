//! What the jobs of all workers gave, in the order of the jobs.

ghost use Rattle.std.specs.Prelude.{◌≡◌, ◌<◌, IfOk, length, slice_set};
ghost use Rattle.std.specs.List.{All};
ghost use Rattle.work_share.specs.Shares.{AreDone, AreOutcomes, ArePlaced};

use crate::draws::Done;
use crate::tasks::Task;
use std::alloc::{AllocError, Global};
use work_run::Gate;

/// What the jobs gave, in their order. A job that no worker ran is run here.
pub(crate) fn in_order<T: Task, G: Gate>(
    task: &T,
    jobs: usize,
    parts: Vec<Vec<Done<T::Outcome>>>,
    alloc: Global,
    gate: &G,
) -> Result<Vec<T::Outcome>, AllocError>
    requires jobs { jobs ≡ T.jobs task.now }
    requires parts { All (λ part. AreDone (T.gives task.now) (T.jobs task.now) part.items) parts.items }
    ensures { IfOk result (λ outcomes.
        AreOutcomes (T.gives task.now) (T.jobs task.now) outcomes.items) }
{
    let mut places = Vec::with_capacity(alloc, jobs)?;
    for _ in 0..jobs {
        places.push_reserved(None);
    }
    for part in parts {
        place_all(task, part, &mut places);
    }
    take_all(task, places, alloc, gate)
}

/// Puts what the jobs of a worker gave in their places.
fn place_all<T: Task>(task: &T, part: Vec<Done<T::Outcome>>, places: &mut [Option<T::Outcome>])
    requires part { AreDone (T.gives task.now) (T.jobs task.now) part.items }
    requires all { length places.old ≡ T.jobs task.now }
    requires placed { ArePlaced (T.gives task.now) places.old }
    ensures { ArePlaced (T.gives task.now) places.new }
{
    for done in part {
        place(done, places);
    }
}

/// Puts what a job gave in its place.
fn place<O: Drop>(done: Done<O>, places: &mut [Option<O>])
    requires { done.job < length places.old }
    ensures { places.new ≡ slice_set places.old done.job (Some done.outcome) }
{
    places[done.job] = Some(done.outcome);
}

/// Takes what is in the places, and runs each job whose place is empty.
fn take_all<T: Task, G: Gate>(
    task: &T,
    mut places: Vec<Option<T::Outcome>>,
    alloc: Global,
    gate: &G,
) -> Result<Vec<T::Outcome>, AllocError>
    requires all { length places.items ≡ T.jobs task.now }
    requires placed { ArePlaced (T.gives task.now) places.items }
    ensures { IfOk result (λ outcomes.
        AreOutcomes (T.gives task.now) (T.jobs task.now) outcomes.items) }
{
    let jobs = places.len();
    let mut outcomes = Vec::with_capacity(alloc, jobs)?;
    for job in 0..jobs {
        outcomes.push_reserved(match places[job].take() {
            Some(outcome) => outcome,
            None => {
                gate.before(job as u64);
                task.run(job)
            }
        });
    }
    Ok(outcomes)
}

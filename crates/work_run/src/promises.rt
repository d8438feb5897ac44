//! What the thread of a worker gives back.

use crate::jobs::Job;
use book_live::Pass;
use std::snapshot::Snapshot;
use std::thread::Promise;

/// The pass that went in comes back ended, and the jobs that it drew are done.
#[derive(Drop)]
pub struct Worked<J> {
    pub(crate) job: Snapshot<J>,
    pub(crate) pass: Snapshot<Pass>,
}

impl<J: Job> Promise<Pass> for Worked<J> {
    ghost use Rattle.work_run.specs.Work.{IsDone};

    ghost kept_by = { λ promise after.
        IsDone (J.bad promise.job.value) (J.begins promise.job.value) (J.jobs promise.job.value)
        promise.pass.value after };
}

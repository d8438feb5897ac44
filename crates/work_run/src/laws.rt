//! What holds of the jobs that workers skip. The function here says it of all of them, and does nothing.

ghost use Rattle.work_run.specs.Laws.{DrawnJobsAreSettled, SkippedPlacesLieAbove};

use crate::jobs::Job;

/// A job that was skipped changes nothing: each of its bad places lies above the closing answer.
///
/// The closing answer of a book is above nothing that its workers saw.
pub fn skipped_places_lie_above<J: Job>(job: &J)
    ensures skipped { SkippedPlacesLieAbove (J.bad job.now) (J.begins job.now) }
    // So of each job that a worker drew, the least bad place was reported, or all bad places lie above.
    ensures drawn { DrawnJobsAreSettled (J.bad job.now) (J.begins job.now) (J.jobs job.now) }
{}

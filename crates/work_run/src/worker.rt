//! One worker.

ghost use Rattle.std.specs.Prelude.{◌≡◌, ◌↔◌, IsTrue};
ghost use Rattle.book_core.specs.Passes.{fresh};
ghost use Rattle.work_run.specs.Work.{IsAbove, IsDone};

use crate::gates::Gate;
use crate::jobs::Job;
use book_live::{Book, Pass};

/// Claims jobs, runs them and reports their least bad places, until no job is left.
///
/// Before it runs a job it looks once at the least place reported so far, and skips a job that begins above that:
/// no bad place there can be the least. It answers its pass, ended. The pass is a new one of the book.
pub fn work<J: Job, G: Gate>(job: &J, book: &Book, mut pass: Pass, gate: &G) -> Pass
    requires jobs { book.now.sizes.jobs ≡ J.jobs job.now }
    requires pass { (pass.book ≡ book.now) × (pass.deeds ≡ fresh) }
    ensures { IsDone (J.bad job.now) (J.begins job.now) (J.jobs job.now) pass result }
{
    while let Some(number) = book.claim(&mut pass) {
        if is_above(job.first(number), book.look(&mut pass)) {
            continue;
        }
        gate.before(number);
        if let Some(place) = job.run(number) {
            book.report(&mut pass, place);
        }
    }
    pass
}

/// Whether a place lies above the least that was seen. Where none was seen, no place does.
fn is_above(place: u64, seen: Option<u64>) -> bool
    ensures { IsTrue result ↔ IsAbove place seen }
{
    seen.is_some_and(|least| least < place)
}

//! A worked example of two passes in one thread, and books that many threads share.

ghost use Rattle.std.specs.Prelude.{◌≡◌, ◌<◌, ◌≤◌, ◌^◌, true, IfOk, IfSome};
ghost use Rattle.book_core.specs.Books.{AreWorkers};
ghost use Rattle.book_core.specs.Passes.{fresh};
ghost use Rattle.book_live.specs.Closing.{IsNewPass};

use crate::same::same;
use book_live::{Book, Pass};
use std::alloc::{AllocError, Global};
use std::sync::atomic::{AtomicU64, Ordering};
use std::test::Fail;
use std::thread;
use std::thread::Threads;

/// A book of so many jobs, and its two passes.
fn book_of_two(alloc: Global, jobs: u64) -> Result<(Book, Pass, Pass), AllocError>
    requires { jobs ≤ 2 ^ 32 }
    ensures sizes { IfOk result (λ r. (r.0.sizes.jobs ≡ jobs) × (r.0.sizes.workers ≡ 2)) }
    ensures passes { IfOk result (λ r. IsNewPass r.0 0 r.1 × IsNewPass r.0 1 r.2) }
{
    let (book, mut passes) = Book::new(alloc, jobs, 2)?;
    let second = passes.remove(1);
    let first = passes.remove(0);
    Ok((book, first, second))
}

#[test]
fn two_passes_share_two_jobs(rt: HostRuntime) -> Result<(), Fail> {
    // That the passes have drawn is known of what is asserted in place, so that they may draw again.
    let (book, mut first, mut second) = book_of_two(rt.alloc(), 2)?;
    assert_eq!(rt; book.claim(&mut first), Some(0));
    assert_eq!(rt; book.claim(&mut second), Some(1));
    book.report(&mut second, 9);
    same(&rt, &book.look(&mut first), &Some(9));
    book.report(&mut first, 4);
    same(&rt, &book.claim(&mut first), &None);
    same(&rt, &book.claim(&mut second), &None);
    same(&rt, &(first.number(), second.number()), &(0, 1));
    assert!(rt; first.ended() && second.ended());
    let passes = vec![in rt.alloc(); first, second]?;
    same(&rt, &book.close(passes), &Some(4));
    Ok(())
}

#[test]
fn a_look_shows_nothing_before_the_first_report(rt: HostRuntime) -> Result<(), Fail> {
    let (book, mut first, mut second) = book_of_two(rt.alloc(), 0)?;
    same(&rt, &book.look(&mut first), &None);
    book.report(&mut second, 4_294_967_295);
    same(&rt, &book.look(&mut first), &Some(4_294_967_295));
    same(&rt, &(first.ended(), second.ended()), &(false, false));
    Ok(())
}

// Run with each allocation refused in turn.
#[test]
fn want_of_memory_is_answered_and_a_second_book_is_made(rt: HostRuntime) -> Result<(), Fail> {
    let (book, mut first, second) = match book_of_two(rt.alloc(), 2) {
        Ok(made) => made,
        Err(_) => book_of_two(rt.alloc(), 2)?,
    };
    same(&rt, &book.claim(&mut first), &Some(0));
    same(&rt, &book.look(&mut first), &None);
    same(&rt, &(second.number(), second.ended()), &(1, false));
    Ok(())
}

/// What the threads of a book drew, and whether a look was above a report of its own pass.
#[derive(Drop)]
struct Tally {
    count: AtomicU64,
    sum: AtomicU64,
    wrong_looks: AtomicU64,
}

impl Tally {
    fn new() -> Tally {
        Tally {
            count: AtomicU64::new(0),
            sum: AtomicU64::new(0),
            wrong_looks: AtomicU64::new(0),
        }
    }

    fn note(&self, job: u64) {
        self.count.fetch_add(1, Ordering::SeqCst);
        self.sum.fetch_add(job, Ordering::SeqCst);
    }
}

/// The place that a job reports, if it reports one.
fn place_of(job: u64) -> Option<u64>
    ensures { IfSome result (λ place. place < 2 ^ 32) }
{
    if job % 3 == 0 {
        None
    } else {
        Some(job.wrapping_mul(2_654_435_761) % 4_294_967_296)
    }
}

/// Draws jobs and reports their places until none is left.
fn draw_all(book: &Book, mut pass: Pass, tally: &Tally) -> Pass
    requires { (pass.book ≡ book.now) × (pass.deeds ≡ fresh) }
    ensures { (result.book ≡ book.now) × (result.number ≡ pass.number)
        × (result.deeds.ended ≡ true) }
{
    while let Some(job) = book.claim(&mut pass) {
        tally.note(job);
        if let Some(place) = place_of(job) {
            book.report(&mut pass, place);
            if book.look(&mut pass).is_none_or(|least| least > place) {
                tally.wrong_looks.fetch_add(1, Ordering::SeqCst);
            }
        }
    }
    pass
}

/// The closing answer of a book whose passes have a thread each.
fn close_after_threads<R: Threads + Sync>(
    rt: &R,
    alloc: Global,
    jobs: u64,
    workers: u8,
    tally: &Tally,
) -> Result<Option<u64>, AllocError>
    requires jobs { jobs ≤ 2 ^ 32 }
    requires workers { AreWorkers workers }
{
    let (book, passes) = Book::new(alloc, jobs, workers)?;
    let shared = &book;
    let ended = thread::map_vec(
        rt,
        passes,
        &|pass: Pass| -> Pass
            requires { (pass.book ≡ shared.now) × (pass.deeds ≡ fresh) }
            ensures { (result.book ≡ shared.entry.now) × (result.number ≡ pass.number)
                × (result.deeds.ended ≡ true) }
        { draw_all(shared, pass, tally) },
    )?;
    Ok(book.close(ended))
}

#[test]
fn a_book_of_no_jobs_ends_64_passes(rt: HostRuntime) -> Result<(), Fail> {
    let tally = Tally::new();
    let closing = close_after_threads(&rt, rt.alloc(), 0, 64, &tally)?;
    same(&rt, &closing, &None);
    same(&rt, &tally.count.into_inner(), &0);
    Ok(())
}

#[test]
fn threads_draw_each_job_once_and_keep_the_least_place(rt: HostRuntime) -> Result<(), Fail> {
    const JOBS: u64 = 100_000;
    let least = (0..JOBS).filter_map(place_of).min();
    for _ in 0..20 {
        let tally = Tally::new();
        let closing = close_after_threads(&rt, rt.alloc(), JOBS, 64, &tally)?;
        same(&rt, &closing, &least);
        same(&rt, &tally.count.into_inner(), &JOBS);
        same(&rt, &tally.sum.into_inner(), &(JOBS * (JOBS - 1) / 2));
        same(&rt, &tally.wrong_looks.into_inner(), &0);
    }
    Ok(())
}

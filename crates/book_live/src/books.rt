//! The book that threads share.

ghost use Rattle.std.specs.Prelude.{◌≡◌, ◌<◌, ◌≤◌, ◌^◌, ℕ, ◌++◌, [], false, true, length, Some, IfOk, IfSome, IfNone, All};
ghost use Rattle.book_core.specs.Books.{AreWorkers};
ghost use Rattle.book_core.specs.declared.events.Event.{Event};
ghost use Rattle.book_core.specs.declared.events.Answer.{Answer};
ghost use Rattle.book_core.specs.Passes.{Deeds, fresh, with_drawn, with_end, with_report, with_seen};
ghost use Rattle.book_core.specs.Places.{IsLeast, IsAtMost};
ghost use Rattle.book_live.specs.Views.{view, alone, opening, without_first, first_alone, together};
ghost use Rattle.book_live.specs.Shown.{place_in_word};
ghost use Rattle.book_live.specs.Steps.{IsOneStep, claim_answer};
ghost use Rattle.book_live.specs.SeatSteps.{Claimed, Placed, Looked};
ghost use Rattle.book_live.specs.Callers.{ArePasses, all_deeds, IsEachDrawnOnce, IsOutcome, ShowsStart, numbered_passes, ShowsEnd};
ghost use Rattle.book_live.specs.Closing.{HoldsAll, IsWhole};

use crate::passes::Pass;
use crate::rules::{BookSeat, Claims, LEAST, Looks, NEXT, NONE, Reports, Rule, Shares};
use crate::views::{Sizes, View};
use atomic_table::Table;
use std::alloc::{AllocError, Global};
use std::marker::Model;

/// A book of jobs, from which passes draw.
///
/// Each call of a pass is one atomic step, which waits for nobody and takes no memory.
#[derive(Drop)]
pub struct Book {
    table: Table<(), View, Sizes, Rule, Global>,
    jobs: u64,
    workers: u8,
}

impl Model for Book {
    ghost use Rattle.book_live.specs.Callers.{BookId};

    ghost Value = { BookId };

    ghost use Rattle.std.specs.Prelude.{◌≡◌, ◌<◌, ◌≤◌, ◌^◌};

    ghost view = { λ b. record {
      table = b.table.shared.table_id;
      sizes = record { jobs = b.jobs; workers = b.workers };
    } };

    ghost invariant = { λ b.
        (b.table.shared.key ≡ record { jobs = b.jobs; workers = b.workers })
        × (b.table.shared.table_id.words ≡ 2) × (b.table.shared.table_id.slots ≡ 0)
        × (0 < b.workers) };
}

impl Book {
    /// A book from which no job is drawn, and its passes in the order of their numbers.
    pub fn new(alloc: Global, jobs: u64, workers: u8) -> Result<(Book, Vec<Pass>), AllocError>
        requires jobs { jobs ≤ 2 ^ 32 }
        requires workers { AreWorkers workers }
        ensures sizes { IfOk result (λ r. (r.0.sizes.jobs ≡ jobs) × (r.0.sizes.workers ≡ workers)) }
        ensures passes { IfOk result (λ r. ArePasses r.0 (λ p. p.deeds ≡ fresh) r.1.items) }
        ensures shown { IfOk result (λ r. ShowsStart r.0 r.1.items) }
    {
        let mut passes = Vec::with_capacity(alloc, usize::from(workers))?;
        let (book, mut seat) = Book::open(alloc, jobs, workers)?;
        for number in 0..workers {
            passes.push_reserved(Pass {
                seat: book.split(&mut seat),
                number,
                ended: false,
            });
        }
        Ok((book, passes))
    }

    /// Draws the next job. Where none is left, the pass ends.
    pub fn claim(&self, pass: &mut Pass) -> Option<u64>
        requires book { pass.old.book ≡ self.now }
        requires open { pass.old.deeds.ended ≡ false }
        ensures event { IsOneStep self.now.sizes (Event.Claim pass.old.number) pass.old.deeds
            (claim_answer result) pass.new.deeds }
        ensures drawn { IfSome result (λ job.
            pass.new ≡ record pass.old { deeds = with_drawn pass.old.deeds job }) }
        ensures ended { IfNone result (
            pass.new ≡ record pass.old { deeds = with_end pass.old.deeds }) }
        ensures job { IfSome result (λ job. job < self.now.sizes.jobs) }
        // The jobs that this pass drew before are below it, so they are no more than this.
        ensures few { IfSome result (λ job. length pass.old.deeds.drawn ≤ job) }
    {
        let found = self.claim_at(&mut pass.seat);
        if found < self.jobs {
            Some(found)
        } else {
            pass.ended = true;
            None
        }
    }

    /// Reports a place. The book keeps the least.
    pub fn report(&self, pass: &mut Pass, place: u64)
        requires book { pass.old.book ≡ self.now }
        requires place { place < 2 ^ 32 }
        ensures event { IsOneStep self.now.sizes (Event.Report pass.old.number place) pass.old.deeds
            Answer.Reported pass.new.deeds }
        ensures reported { pass.new ≡ record pass.old { deeds = with_report pass.old.deeds place } }
    {
        self.report_at(&mut pass.seat, place);
    }

    /// Shows the least place that any pass has reported so far, or none, and records it as seen.
    pub fn look(&self, pass: &mut Pass) -> Option<u64>
        requires book { pass.old.book ≡ self.now }
        ensures event { IsOneStep self.now.sizes (Event.Look pass.old.number) pass.old.deeds
            (Answer.Least result) pass.new.deeds }
        ensures seen { pass.new ≡ record pass.old { deeds = with_seen pass.old.deeds result } }
        ensures place { IfSome result (λ place. place < 2 ^ 32) }
        ensures own { All (λ place. IsAtMost result (Some place)) pass.old.deeds.reported }
        ensures falls { IsAtMost result pass.old.deeds.seen }
    {
        let found = self.look_at(&mut pass.seat);
        place_in(found)
    }

    /// The least of all reported places, or none, once all passes have ended.
    pub fn close(self, mut passes: Vec<Pass>) -> Option<u64>
        requires { ArePasses self (λ p. p.deeds.ended ≡ true) passes.items }
        ensures drawn { IsEachDrawnOnce self passes.items }
        ensures least { IsLeast result (all_deeds passes.items) }
        ensures seen { All (λ p. IsAtMost result p.deeds.seen) passes.items }
        ensures outcome { IsOutcome self passes.items result }
        ensures shown { ShowsEnd self passes.items result }
    {
        prove_eq!(passes.len(), usize::from(self.workers));
        let mut seat = passes.remove(0).seat;
        self.join_all(&mut seat, passes);
        let least = self.finish(seat);
        place_in(least)
    }

    /// A book, and a seat that stands for all its passes.
    fn open(alloc: Global, jobs: u64, workers: u8) -> Result<(Book, BookSeat), AllocError>
        requires jobs { jobs ≤ 2 ^ 32 }
        requires workers { AreWorkers workers }
        ensures sizes { IfOk result (λ r. (r.0.sizes.jobs ≡ jobs) × (r.0.sizes.workers ≡ workers)) }
        ensures seat { IfOk result (λ r.
            (r.1.table_id ≡ r.0.table) × (r.1.me ≡ (opening r.0.sizes, []))) }
    {
        let about = Sizes { jobs, workers };
        let (table, seat) = Table::of_words(alloc, &[0, NONE], &about)?;
        Ok((
            Book {
                table,
                jobs,
                workers,
            },
            seat,
        ))
    }
}

impl Book {
    /// One step that adds a claim to the first word, and answers how many there were before.
    fn claim_at(&self, seat: &mut BookSeat) -> u64
        requires table { seat.old.table_id ≡ self.now.table }
        requires open { (number : ℕ) × (p : Deeds)
            × (seat.old.me.0 ≡ alone self.now.sizes number p) × (p.ended ≡ false) }
        ensures table { (seat.new.table_id ≡ seat.old.table_id) × (seat.new.me.1 ≡ seat.old.me.1) }
        ensures claim { Claimed seat.old.me.0 result seat.new.me.0 }
    {
        self.table.shared.fetch_add::<Claims>(seat, NEXT, 1)
    }

    /// One step that lowers the second word to the place.
    fn report_at(&self, seat: &mut BookSeat, place: u64)
        requires table { seat.old.table_id ≡ self.now.table }
        requires alone { (number : ℕ) × (p : Deeds)
            × (seat.old.me.0 ≡ alone self.now.sizes number p) }
        requires place { place < 2 ^ 32 }
        ensures table { (seat.new.table_id ≡ seat.old.table_id) × (seat.new.me.1 ≡ seat.old.me.1) }
        ensures report { Placed seat.old.me.0 place seat.new.me.0 }
    {
        self.table.shared.fetch_min::<Reports>(seat, LEAST, place);
    }

    /// One step that reads the second word.
    fn look_at(&self, seat: &mut BookSeat) -> u64
        requires table { seat.old.table_id ≡ self.now.table }
        requires alone { (number : ℕ) × (p : Deeds)
            × (seat.old.me.0 ≡ alone self.now.sizes number p) }
        ensures table { (seat.new.table_id ≡ seat.old.table_id) × (seat.new.me.1 ≡ seat.old.me.1) }
        ensures look { Looked seat.old.me.0 result seat.new.me.0 }
    {
        self.table.shared.load::<Looks>(seat, LEAST)
    }

    /// A seat for the first of the passes.
    fn split(&self, seat: &mut BookSeat) -> BookSeat
        requires { seat.old.table_id ≡ self.now.table }
        ensures others { (seat.new.table_id ≡ seat.old.table_id)
            × (seat.new.me ≡ (without_first seat.old.me.0, seat.old.me.1)) }
        ensures first { (result.table_id ≡ seat.old.table_id)
            × (result.me ≡ (first_alone seat.old.me.0, [])) }
    {
        self.table.shared.split_seat::<Shares>(seat)
    }

    /// Takes in the passes of another seat.
    fn join(&self, seat: &mut BookSeat, other: BookSeat)
        requires seat { seat.old.table_id ≡ self.now.table }
        requires other { (other.table_id ≡ self.now.table) × (other.me.1 ≡ []) }
        ensures { (seat.new.table_id ≡ seat.old.table_id)
            × (seat.new.me ≡ (together seat.old.me.0 other.me.0, seat.old.me.1)) }
    {
        self.table.shared.join_seat::<Shares>(seat, other);
    }

    /// Takes in these passes, in their order.
    fn join_all(&self, seat: &mut BookSeat, passes: Vec<Pass>)
        requires seat { seat.old.table_id ≡ self.now.table }
        requires passes { All (λ p. p.book ≡ self.now) passes.items }
        ensures table { seat.new.table_id ≡ seat.old.table_id }
        ensures all { seat.new.me ≡ (
          view seat.old.me.0.sizes (seat.old.me.0.held ++ numbered_passes passes.items),
          seat.old.me.1,
        ) }
    {
        for pass in passes {
            self.join(seat, pass.seat);
        }
    }

    /// The second word at the end, when the seat stands for all passes.
    fn finish(self, seat: BookSeat) -> u64
        requires table { seat.table_id ≡ self.table }
        requires all { HoldsAll self.sizes seat.me.0 }
        ensures { IsWhole self.sizes seat.me.0 result }
    {
        let Book { table, .. } = self;
        let closed = table.close_with(seat);
        let least = closed.word(LEAST);
        closed.free();
        least
    }
}

/// The place that the word holds, if it holds one.
fn place_in(word: u64) -> Option<u64>
    ensures { result ≡ place_in_word word }
{
    (word < NONE).then_some(word)
}

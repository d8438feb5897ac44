//! The machine: a book of jobs that one thread steps.

ghost use Rattle.std.specs.Prelude.{◌≡◌, ◌<◌, ◌≤◌, ◌^◌, length, slice_get, take, IfOk, IfErr, IfSome, IfNone, OnOk, OnErr, IsOk, IsOkAnd, IsErrOf, IsSomeAnd};
ghost use Rattle.book_core.specs.Books.{AreWorkers, SameSizes, start};
ghost use Rattle.book_core.specs.Steps.{step, IsRefusal, TakesRoom};
ghost use Rattle.book_core.specs.Runs.{going, run_from, run_on, StopsAt};
ghost use Rattle.book_core.specs.Laws.{BookLaw};

use crate::events::{Answer, CoreFault, Event};
use crate::passes::Deeds;
use std::alloc::{AllocError, Global};
use std::marker::Model;

/// Want of memory, as a call's only error.
pub type Memory = AllocError;

/// At most so many workers share a book.
pub const MOST_WORKERS: u8 = 64;

/// Places are below this.
const PLACES: u64 = 1 << 32;

/// A book of jobs, and what its passes have done.
#[derive(Drop)]
pub struct Core {
    alloc: Global,
    jobs: u64,
    next: u64,
    least: Option<u64>,
    passes: Vec<Deeds>,
}

impl Model for Core {
    ghost use Rattle.book_core.specs.Books.{Book};
    ghost use Rattle.book_core.specs.StoredBooks.{IsInRange};

    ghost Value = { Book };

    ghost view = { λ c. record {
      jobs = c.jobs;
      next = c.next;
      least = c.least;
      passes = c.passes.items;
    } };

    ghost invariant = { λ c. IsInRange record {
      jobs = c.jobs;
      next = c.next;
      least = c.least;
      passes = c.passes.items;
    } };
}

impl Core {
    /// A book at its start: no job is drawn and nothing is reported.
    pub fn start(alloc: Global, jobs: u64, workers: u8) -> Result<Core, Memory>
        requires jobs { jobs ≤ 2 ^ 32 }
        requires workers { AreWorkers workers }
        ensures start { IfOk result (λ core. core ≡ start jobs workers) }
        ensures law { IfOk result BookLaw }
    {
        let mut passes = Vec::with_capacity(alloc, usize::from(workers))?;
        for _ in 0..workers {
            passes.push(Deeds::new(alloc))?;
        }
        Ok(Core {
            alloc,
            jobs,
            next: 0,
            least: None,
            passes,
        })
    }

    /// Takes one event. A fault changes nothing.
    pub fn step(&mut self, event: Event) -> Result<Answer, CoreFault>
        ensures ok { IfOk result (λ answer. step self.old event ≡ Ok (self.new, answer)) }
        ensures fault { IfErr result (IsRefusal self.old event) }
        // Want of memory comes only where a list of a pass has to grow.
        ensures memory { IsErrOf result CoreFault.Memory
            → IsOkAnd (step self.old event) (λ r. TakesRoom r.1) }
        ensures err { OnErr result (self.new ≡ self.old) }
        ensures law { BookLaw self.old → BookLaw self.new }
        ensures sizes { SameSizes self.old self.new }
    {
        if let Some(fault) = self.refusal(event) {
            return Err(fault);
        }
        match event {
            Event::Claim(pass) => Ok(self.claim(pass)?),
            Event::Report(pass, place) => Ok(self.report(pass, place)?),
            Event::Look(pass) => Ok(self.look(pass)),
        }
    }

    /// Takes events one after another, and answers each of them.
    /// At `Err((i, fault))` event number i met the fault, and the core stands after the first i events.
    pub fn run(&mut self, events: &[Event]) -> Result<Vec<Answer>, (u64, CoreFault)>
        ensures ok { IfOk result (λ answers.
            run_from self.old events.now ≡ going self.new answers.items) }
        ensures fault { IfErr result (λ e. StopsAt self.old events.now e.0 e.1) }
        ensures stands { IfErr result (λ e.
            self.new ≡ (run_from self.old (take e.0 events.now)).book) }
        ensures law { BookLaw self.old → BookLaw self.new }
        ensures sizes { SameSizes self.old self.new }
    {
        let mut answers = Vec::new(self.alloc);
        for (i, event) in events.iter().enumerate() {
            if let Err(fault) = self.step_into(*event, &mut answers) {
                return Err((i as u64, fault));
            }
        }
        Ok(answers)
    }

    /// Takes one event and adds its answer. A fault changes nothing.
    fn step_into(&mut self, event: Event, answers: &mut Vec<Answer>) -> Result<(), CoreFault>
        ensures ok { OnOk result (
            run_on (going self.old answers.old.items) event ≡ going self.new answers.new.items) }
        ensures fault { IfErr result (IsRefusal self.old event) }
        ensures err { OnErr result (self.new ≡ self.old) }
    {
        // With room for the answer, nothing can fail once the step is taken.
        if answers.reserve(1).is_err() {
            return Err(self.refusal(event).unwrap_or(CoreFault::Memory));
        }
        let answer = self.step(event)?;
        answers.push_reserved(answer);
        Ok(())
    }

    /// The number of claims so far.
    pub fn next(&self) -> u64
        ensures { result ≡ self.now.next }
    {
        self.next
    }

    /// The least place reported so far, or none.
    pub fn least(&self) -> Option<u64>
        ensures { result ≡ self.now.least }
    {
        self.least
    }

    /// The jobs that the pass drew, in this order.
    pub fn drawn(&self, pass: u8) -> &[u64]
        requires { pass < length self.now.passes }
        ensures { IsSomeAnd (slice_get self.now.passes pass) (λ p. result.now ≡ p.drawn) }
    {
        self.passes[usize::from(pass)].drawn()
    }

    /// The places that the pass reported, in this order.
    pub fn reported(&self, pass: u8) -> &[u64]
        requires { pass < length self.now.passes }
        ensures { IsSomeAnd (slice_get self.now.passes pass) (λ p. result.now ≡ p.reported) }
    {
        self.passes[usize::from(pass)].reported()
    }

    /// The least place that the last look of the pass showed, if it showed one.
    pub fn seen(&self, pass: u8) -> Option<u64>
        requires { pass < length self.now.passes }
        ensures { IsSomeAnd (slice_get self.now.passes pass) (λ p. result ≡ p.seen) }
    {
        self.passes[usize::from(pass)].seen()
    }

    /// Whether a claim of the pass found no job left.
    pub fn ended(&self, pass: u8) -> bool
        requires { pass < length self.now.passes }
        ensures { IsSomeAnd (slice_get self.now.passes pass) (λ p. result ≡ p.ended) }
    {
        self.passes[usize::from(pass)].ended()
    }

    /// Why the event is refused, where memory plays no part.
    fn refusal(&self, event: Event) -> Option<CoreFault>
        ensures some { IfSome result (λ fault. step self.now event ≡ Err fault) }
        ensures none { IfNone result (IsOk (step self.now event)) }
    {
        let Some(pass) = self.passes.get(event.pass()) else {
            return Some(CoreFault::C1);
        };
        match event {
            Event::Claim(_) if pass.ended() => Some(CoreFault::C2),
            Event::Report(_, place) if place >= PLACES => Some(CoreFault::C3),
            _ => None,
        }
    }

    /// Draws the next job, or ends the pass where none is left.
    fn claim(&mut self, pass: u8) -> Result<Answer, AllocError>
        requires { IsOk (step self.old (Event.Claim pass)) }
        ensures ok { IfOk result (λ answer.
            step self.old (Event.Claim pass) ≡ Ok (self.new, answer)) }
        ensures memory { OnErr result (
            IsOkAnd (step self.old (Event.Claim pass)) (λ r. TakesRoom r.1)) }
        ensures err { OnErr result (self.new ≡ self.old) }
    {
        let job = self.next;
        let claimant = &mut self.passes[usize::from(pass)];
        if job < self.jobs {
            claimant.draw(job)?;
            self.next = job + 1;
            Ok(Answer::Drawn(job))
        } else {
            claimant.end();
            self.next = job + 1;
            Ok(Answer::Ended)
        }
    }

    /// Keeps a reported place, and the least of all.
    fn report(&mut self, pass: u8, place: u64) -> Result<Answer, AllocError>
        requires { IsOk (step self.old (Event.Report pass place)) }
        ensures ok { IfOk result (λ answer.
            step self.old (Event.Report pass place) ≡ Ok (self.new, answer)) }
        ensures memory { OnErr result (
            IsOkAnd (step self.old (Event.Report pass place)) (λ r. TakesRoom r.1)) }
        ensures err { OnErr result (self.new ≡ self.old) }
    {
        self.passes[usize::from(pass)].report(place)?;
        self.least = Some(self.least.map_or(place, |least| least.min(place)));
        Ok(Answer::Reported)
    }

    /// Shows the least place to the pass.
    fn look(&mut self, pass: u8) -> Answer
        requires { IsOk (step self.old (Event.Look pass)) }
        ensures { step self.old (Event.Look pass) ≡ Ok (self.new, result) }
    {
        let least = self.least;
        self.passes[usize::from(pass)].see(least);
        Answer::Least(least)
    }
}

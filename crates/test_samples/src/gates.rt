//! Gates that hold workers, and a log of what happens in which order.

use std::alloc::{AllocError, Global};
use std::ops::Range;
use std::sync::atomic::{AtomicU64, Ordering};
use std::thread::yield_now;
use work_run::Gate;

/// How often a held worker looks. Each look gives way, so that a loaded machine makes the looks slower and not fewer.
const LOOKS: u64 = 20_000_000;

/// Holds some jobs until others were entered, or until it has looked too often.
#[derive(Drop)]
pub struct HoldingGate<'a> {
    held: &'a [u64],
    awaited: &'a [u64],
    places: Range<u64>,
    came: AtomicU64,
    entered: AtomicU64,
    let_on: AtomicU64,
}

impl<'a> HoldingGate<'a> {
    /// Holds each of the first jobs until all of the others were entered, each of them once. A job may be among both.
    pub fn new(held: &'a [u64], awaited: &'a [u64]) -> HoldingGate<'a> {
        HoldingGate {
            held,
            awaited,
            places: 0..u64::MAX,
            came: AtomicU64::new(0),
            entered: AtomicU64::new(0),
            let_on: AtomicU64::new(0),
        }
    }

    /// The same gate to the jobs with these places, from 0, in the order in which all jobs come. The others pass.
    pub fn among(mut self, places: Range<u64>) -> HoldingGate<'a> {
        self.places = places;
        self
    }

    /// Whether each of the held jobs came, and saw all the others entered before its looks ran out.
    pub fn saw_all(&self) -> bool {
        self.let_on.load(Ordering::SeqCst) == self.held.len() as u64
    }

    fn wait(&self) {
        for _ in 0..LOOKS {
            if self.entered.load(Ordering::SeqCst) == self.awaited.len() as u64 {
                self.let_on.fetch_add(1, Ordering::SeqCst);
                return;
            }
            yield_now();
        }
    }
}

impl<'a> Gate for HoldingGate<'a> {
    fn before(&self, job: u64) {
        let place = self.came.fetch_add(1, Ordering::SeqCst);
        let is_among = self.places.contains(&place);
        if is_among && self.awaited.contains(&job) {
            self.entered.fetch_add(1, Ordering::SeqCst);
        }
        if is_among && self.held.contains(&job) {
            self.wait();
        }
    }
}

/// Numbers in the order in which they were noted, by one thread or by several. As a gate it notes the jobs that enter.
#[derive(Drop)]
pub struct Log {
    noted: AtomicU64,
    notes: Vec<AtomicU64>,
}

impl Log {
    /// An empty log with room for so many numbers.
    pub fn new(alloc: Global, room: usize) -> Result<Log, AllocError> {
        let mut notes = Vec::new(alloc);
        for _ in 0..room {
            notes.push(AtomicU64::new(0))?;
        }
        Ok(Log {
            noted: AtomicU64::new(0),
            notes,
        })
    }

    /// Notes a number. Where there is no room, it is counted alone.
    pub fn note(&self, number: u64) {
        let place = self.noted.fetch_add(1, Ordering::SeqCst);
        if let Some(note) = self.notes.get(place as usize) {
            note.store(number, Ordering::SeqCst);
        }
    }

    /// How many numbers were noted, those without room too.
    pub fn count(&self) -> u64 {
        self.noted.load(Ordering::SeqCst)
    }

    /// The numbers that there was room for, in order, while nobody notes more.
    pub fn notes(&self, alloc: Global) -> Result<Vec<u64>, AllocError> {
        let mut numbers = Vec::new(alloc);
        for note in self.notes.iter().take(self.count() as usize) {
            numbers.push(note.load(Ordering::SeqCst))?;
        }
        Ok(numbers)
    }
}

impl Gate for Log {
    fn before(&self, job: u64) {
        self.note(job);
    }
}

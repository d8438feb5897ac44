//! Two workers that read the clock at once: one of them tells how far the check has come.

use crate::same::same;
use crate::workers::Good;
use pdb_progress::Progress;
use std::fmt::Display;
use std::io;
use std::rt::Clock;
use std::sync::atomic::{AtomicBool, AtomicU64, Ordering};
use std::test::Fail;
use std::thread::yield_now;
use std::time::Duration;
use work_run::run_jobs;

/// In how many seconds the workers meet.
const SECONDS: u64 = 1000;

/// How often a worker looks for the other one.
const LOOKS: u64 = 20_000_000;

/// A worker gives way after so many looks, so that a loaded machine makes the looks slower and not fewer. It is at the clock still
/// when most of them end.
const LOOKS_AT_ONCE: u64 = 64;

/// A clock that is read once in the second 0 and twice in each later one. Of the two each waits for the other, until one has
/// looked too often. The lines that are told are counted.
#[derive(Drop)]
struct Meetings {
    readings: AtomicU64,
    is_over: AtomicBool,
    told: AtomicU64,
}

impl Meetings {
    fn new() -> Meetings {
        Meetings {
            readings: AtomicU64::new(0),
            is_over: AtomicBool::new(false),
            told: AtomicU64::new(0),
        }
    }

    /// Waits for all that read the clock in this second.
    fn wait(&self, second: u64) {
        for look in 0..LOOKS {
            let are_all_there = self.readings.load(Ordering::SeqCst) > second.saturating_mul(2);
            if are_all_there || self.is_over.load(Ordering::SeqCst) {
                return;
            }
            if look % LOOKS_AT_ONCE == 0 {
                yield_now();
            }
        }
        self.is_over.store(true, Ordering::SeqCst);
    }
}

impl Clock for Meetings {
    fn monotonic(&self) -> io::Result<Duration> {
        let reading = self.readings.fetch_add(1, Ordering::SeqCst);
        let second = reading / 2 + reading % 2;
        self.wait(second);
        Ok(Duration::from_secs(second))
    }

    fn since_1970(&self) -> io::Result<Duration> {
        self.monotonic()
    }
}

impl Eprint for Meetings {
    fn eprint<D: Display + Drop>(&self, value: D) -> io::Result<()> {
        self.eprintln(value)
    }

    fn eprintln<D: Display + Drop>(&self, _value: D) -> io::Result<()> {
        self.told.fetch_add(1, Ordering::SeqCst);
        Ok(())
    }
}

#[test]
fn of_two_workers_at_once_one_tells(rt: HostRuntime) -> Result<(), Fail> {
    let clock = Meetings::new();
    let gate = Progress::start(&clock, Vec::new(rt.alloc()))?;
    let jobs = Good { count: 2 * SECONDS };
    let fault = run_jobs(&rt, rt.alloc(), &jobs, 2, &gate)?;
    same(&rt, &fault, &None);
    same(&rt, &clock.told.load(Ordering::SeqCst), &SECONDS);
    Ok(())
}

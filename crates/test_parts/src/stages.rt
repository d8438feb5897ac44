//! A clock, a variable of the environment and a standard error that a test sets and reads.

use std::alloc::{AllocError, Global};
use std::env::{Env, FillError};
use std::fmt::Display;
use std::io;
use std::rt::Clock;
use std::sync::OnceLock;
use std::sync::atomic::{AtomicU64, Ordering};
use std::time::Duration;

/// How many lines a stage keeps.
const LINES: usize = 8;

/// Stands for the system. It notes the first lines that are told, and counts them all.
#[derive(Drop)]
pub(crate) struct Stage {
    alloc: Global,
    millis: AtomicU64,
    /// The value of each variable.
    pub(crate) value: Option<&'static [u8]>,
    pub(crate) has_clock: bool,
    pub(crate) is_open: bool,
    told: AtomicU64,
    lines: Vec<OnceLock<String>>,
}

impl Stage {
    /// A stage at the time 0 with a clock and an open standard error.
    pub(crate) fn new(alloc: Global) -> Result<Stage, AllocError> {
        let mut lines = Vec::new(alloc);
        for _ in 0..LINES {
            lines.push(OnceLock::new())?;
        }
        Ok(Stage {
            alloc,
            millis: AtomicU64::new(0),
            value: None,
            has_clock: true,
            is_open: true,
            told: AtomicU64::new(0),
            lines,
        })
    }

    /// Sets the clock.
    pub(crate) fn set_clock(&self, millis: u64) {
        self.millis.store(millis, Ordering::SeqCst);
    }

    /// How many lines were told.
    pub(crate) fn told(&self) -> u64 {
        self.told.load(Ordering::SeqCst)
    }

    /// A line that was told, from 0, or an empty one where it wasn't.
    pub(crate) fn line(&self, place: usize) -> &str {
        let Some(line) = self.lines.get(place) else {
            return "";
        };
        match line.get() {
            Some(text) => text.as_str(),
            None => "",
        }
    }
}

impl Clock for Stage {
    fn monotonic(&self) -> io::Result<Duration> {
        if self.has_clock {
            Ok(Duration::from_millis(self.millis.load(Ordering::SeqCst)))
        } else {
            Err(io::Error::from(io::ErrorKind::Unsupported))
        }
    }

    fn since_1970(&self) -> io::Result<Duration> {
        self.monotonic()
    }
}

impl Env for Stage {
    fn arg(&self, _i: usize, _buf: &mut [u8]) -> Result<usize, FillError> {
        Err(FillError::NotPresent)
    }

    fn var(&self, _name: &str, buf: &mut [u8]) -> Result<usize, FillError> {
        let Some(value) = self.value else {
            return Err(FillError::NotPresent);
        };
        if value.len() > buf.len() {
            return Err(FillError::TooLong);
        }
        buf[..value.len()].copy_from_slice(value);
        Ok(value.len())
    }

    fn var_at(&self, _i: usize, _buf: &mut [u8]) -> Result<usize, FillError> {
        Err(FillError::NotPresent)
    }
}

impl Eprint for Stage {
    fn eprint<D: Display + Drop>(&self, value: D) -> io::Result<()> {
        self.eprintln(value)
    }

    fn eprintln<D: Display + Drop>(&self, value: D) -> io::Result<()> {
        let place = self.told.fetch_add(1, Ordering::SeqCst);
        if !self.is_open {
            return Err(io::Error::from(io::ErrorKind::BrokenPipe));
        }
        let text = format!(in self.alloc; "{value}")?;
        if let Some(line) = self.lines.get(place as usize) {
            let _ = line.try_set(text);
        }
        Ok(())
    }
}

//! A shelf for tests.

ghost use Rattle.std.specs.Prelude.{None};

use crate::streams::{Calls, NO_CALLS};
use byte_io::memory::MemShelf;
use byte_io::shelf::{KeepFault, Shelf};
use byte_io::streams::ReadFault;
use std::alloc::Global;

/// Why a call of a shelf fails: by its device, since the file that is read is over its limit, or since memory is refused. What is
/// kept has no limit: there, and where keeping is tried, `Size` is a fault of the device too.
#[derive(Clone, Copy, Debug, PartialEq, Eq)]
pub enum ShelfFault {
    Device,
    Size,
    Memory,
}

/// A shelf over memory, one of whose loads, trials and keeps, counted from 0, fails and leaves all files as they are.
#[derive(Drop)]
pub struct FailingShelf {
    files: MemShelf,
    calls: Calls,
    fault: ShelfFault,
    has_failed: bool,
}

impl FailingShelf {
    /// A shelf over these files that wasn't called yet, and whose call of this number fails so.
    pub fn new(files: MemShelf, failing: u64, fault: ShelfFault) -> FailingShelf {
        FailingShelf {
            files,
            calls: Calls {
                failing: failing..failing.saturating_add(1),
                ..NO_CALLS
            },
            fault,
            has_failed: false,
        }
    }

    /// The files that it stands over.
    pub fn files(&self) -> &MemShelf {
        &self.files
    }

    /// How many loads, trials and keeps were called.
    pub fn calls(&self) -> u64 {
        self.calls.made
    }

    /// What comes of a call that fails and keeps, or tries to.
    fn keep_fault(&self) -> KeepFault {
        match self.fault {
            ShelfFault::Device | ShelfFault::Size => KeepFault::F3,
            ShelfFault::Memory => KeepFault::Memory,
        }
    }
}

impl Shelf for FailingShelf {
    ghost held = { λ _. None };

    ghost has_failed = { λ shelf. shelf.has_failed };

    ghost calls = { λ _. None };

    fn load(&mut self, alloc: Global, name: &str, limit: u64) -> Result<Vec<u8>, ReadFault> {
        let loaded = match (self.calls.next(), self.fault) {
            (Some(_), _) => self.files.load(alloc, name, limit),
            (None, ShelfFault::Device) => Err(ReadFault::F1),
            (None, ShelfFault::Size) => Err(ReadFault::F2),
            (None, ShelfFault::Memory) => Err(ReadFault::Memory),
        };
        if matches!(loaded, Err(ReadFault::F1)) {
            self.has_failed = true;
        }
        loaded
    }

    fn are_one(&self, name: &str, other: &str) -> bool {
        self.files.are_one(name, other)
    }

    fn begins_with(&self, name: &str, front: &[u8]) -> bool {
        self.files.begins_with(name, front)
    }

    fn peek(&self, alloc: Global, name: &str, limit: u64) -> Result<Option<Vec<u8>>, ReadFault> {
        self.files.peek(alloc, name, limit)
    }

    fn is_read_only(&self, name: &str) -> bool {
        self.files.is_read_only(name)
    }

    fn try_keep(&mut self, alloc: Global, name: &str) -> Result<(), KeepFault> {
        let tried = match self.calls.next() {
            Some(_) => self.files.try_keep(alloc, name),
            None => Err(self.keep_fault()),
        };
        if tried == Err(KeepFault::F3) {
            self.has_failed = true;
        }
        tried
    }

    fn keep(&mut self, alloc: Global, name: &str, bytes: &[u8]) -> Result<(), KeepFault> {
        let kept = match self.calls.next() {
            Some(_) => self.files.keep(alloc, name, bytes),
            None => Err(self.keep_fault()),
        };
        if kept == Err(KeepFault::F3) {
            self.has_failed = true;
        }
        kept
    }

    fn failed(&self) -> bool {
        self.has_failed
    }
}

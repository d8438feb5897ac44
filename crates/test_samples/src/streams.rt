//! Readers and a writer for tests.

use std::alloc::Global;
use std::io;
use std::io::{ErrorKind, Read, Write};
use std::ops::Range;

/// Calls, counted from 0: some of them fail, and from one on each moves one byte at most.
#[derive(Drop)]
pub(crate) struct Calls {
    pub(crate) made: u64,
    pub(crate) failing: Range<u64>,
    pub(crate) single_from: u64,
}

/// None was made, and none is to fail.
pub(crate) const NO_CALLS: Calls = Calls {
    made: 0,
    failing: 0..0,
    single_from: u64::MAX,
};

impl Calls {
    /// Counts a call. How many bytes it may move, or none where it fails.
    pub(crate) fn next(&mut self) -> Option<usize> {
        let call = self.made;
        self.made = call.saturating_add(1);
        if self.failing.contains(&call) {
            None
        } else if self.single_from <= call {
            Some(1)
        } else {
            Some(usize::MAX)
        }
    }
}

/// A reader over bytes. Its reads are counted from 0.
#[derive(Drop)]
pub struct SampleReader<'a> {
    rest: &'a [u8],
    calls: Calls,
    kind: ErrorKind,
}

impl<'a> SampleReader<'a> {
    /// A reader that never fails, and gives all that a read has room for.
    pub fn new(bytes: &'a [u8]) -> SampleReader<'a> {
        SampleReader {
            rest: bytes,
            calls: NO_CALLS,
            kind: ErrorKind::Other,
        }
    }

    /// The same reader, whose reads from one to before another fail with such an error.
    pub fn failing(self, from: u64, to: u64, kind: ErrorKind) -> SampleReader<'a> {
        let calls = Calls {
            made: self.calls.made,
            failing: from..to,
            single_from: self.calls.single_from,
        };
        SampleReader {
            rest: self.rest,
            calls,
            kind,
        }
    }

    /// The same reader, that gives one byte at a time from this read on.
    pub fn byte_by_byte_from(mut self, call: u64) -> SampleReader<'a> {
        self.calls.single_from = call;
        self
    }

    /// How many reads were made.
    pub fn calls(&self) -> u64 {
        self.calls.made
    }
}

impl Read for SampleReader<'_> {
    fn read(&mut self, buf: &mut [u8]) -> io::Result<usize> {
        let Some(most) = self.calls.next() else {
            return Err(io::Error::from(self.kind));
        };
        let count = most.min(buf.len()).min(self.rest.len());
        let (given, rest) = self.rest.split_at(count);
        buf[..count].copy_from_slice(given);
        self.rest = rest;
        Ok(count)
    }
}

/// A reader that never ends: it gives zeros, at most so many at a time.
#[derive(Drop)]
pub struct EndlessReader {
    piece: usize,
    calls: u64,
}

impl EndlessReader {
    /// A reader that was not read yet. A piece is at least one byte.
    pub fn new(piece: usize) -> EndlessReader {
        EndlessReader { piece, calls: 0 }
    }

    /// How many reads were made.
    pub fn calls(&self) -> u64 {
        self.calls
    }
}

impl Read for EndlessReader {
    fn read(&mut self, buf: &mut [u8]) -> io::Result<usize> {
        self.calls = self.calls.saturating_add(1);
        let count = self.piece.min(buf.len());
        buf[..count].fill(0);
        Ok(count)
    }
}

/// How a write fails: by an error of this kind, or by taking nothing.
#[derive(Clone, Copy, Debug, PartialEq, Eq)]
pub enum Failing {
    ByError(ErrorKind),
    ByTakingNothing,
}

/// A writer that keeps what it takes. Its writes are counted from 0.
#[derive(Drop)]
pub struct SampleWriter {
    taken: Vec<u8>,
    calls: Calls,
    how: Failing,
}

impl SampleWriter {
    /// A writer that never fails, and takes all that it is given.
    pub fn new(alloc: Global) -> SampleWriter {
        SampleWriter {
            taken: Vec::new(alloc),
            calls: NO_CALLS,
            how: Failing::ByTakingNothing,
        }
    }

    /// The same writer, whose writes from one to before another fail in this way.
    pub fn failing(mut self, from: u64, to: u64, how: Failing) -> SampleWriter {
        self.calls.failing = from..to;
        self.how = how;
        self
    }

    /// The same writer, that takes one byte at a time from this write on.
    pub fn byte_by_byte_from(mut self, call: u64) -> SampleWriter {
        self.calls.single_from = call;
        self
    }

    /// The bytes that it took.
    pub fn taken(&self) -> &[u8] {
        self.taken.as_slice()
    }

    /// How many writes were made.
    pub fn calls(&self) -> u64 {
        self.calls.made
    }
}

impl Write for SampleWriter {
    fn write(&mut self, buf: &[u8]) -> io::Result<usize> {
        let Some(most) = self.calls.next() else {
            return match self.how {
                Failing::ByError(kind) => Err(io::Error::from(kind)),
                Failing::ByTakingNothing => Ok(0),
            };
        };
        let count = most.min(buf.len());
        self.taken.extend_from_slice(&buf[..count])?;
        Ok(count)
    }

    fn flush(&mut self) -> io::Result<()> {
        Ok(())
    }
}

//! Runs over memory, and what they left.

use byte_io::shelf::Shelf;
use byte_io::sources::Source;
use pdb_program::{RunHost, run};
use std::alloc::{AllocError, Global};
use std::sync::Wait;
use std::test::Fail;
use std::thread::Threads;
use work_run::{Gate, OpenGate};

/// What a run left: its status, and the bytes on its two outputs.
#[derive(Drop)]
pub struct Ended {
    pub status: u8,
    pub out: Vec<u8>,
    pub err: Vec<u8>,
}

impl Ended {
    /// It wrote this and nothing on its errors, and ended with this status; or the test fails, and shows what it wrote.
    pub fn expect(&self, out: &[u8], status: u8) -> Result<(), Fail> {
        if self.out.as_slice() == out {
            return self.expect_last(out, status);
        }
        Err(self.unwanted())
    }

    /// It wrote this last and nothing on its errors, and ended with this status; or the test fails, and shows what it wrote.
    pub fn expect_last(&self, last: &[u8], status: u8) -> Result<(), Fail> {
        if self.status == status && self.out.ends_with(last) && self.err.is_empty() {
            return Ok(());
        }
        Err(self.unwanted())
    }

    /// A failure of the test that shows what the run left.
    fn unwanted(&self) -> Fail {
        Fail::new(format_args!(
            "status {}, written {:?}, on the errors {:?}",
            self.status,
            text(&self.out),
            text(&self.err)
        ))
    }
}

/// Bytes as text.
fn text(bytes: &[u8]) -> &str {
    std::str::from_utf8(bytes).unwrap_or("no UTF-8 text")
}

/// Words of which each is a text of its own.
pub fn owned(alloc: Global, words: &[&str]) -> Result<Vec<String>, AllocError> {
    let mut all = Vec::new(alloc);
    for word in words {
        all.push(String::from_str(alloc, word)?)?;
    }
    Ok(all)
}

/// The words of a text in which one space parts them.
pub fn parted(alloc: Global, words: &str) -> Result<Vec<&str>, AllocError> {
    let mut all = Vec::new(alloc);
    for word in words.split(' ') {
        all.push(word)?;
    }
    Ok(all)
}

/// A run of these words on a host, over a shelf and a reader.
pub fn ran_by<H: Threads + Wait + Sync, S: Shelf, R: Source, G: Gate + Sync>(
    host: &RunHost<'_, H, G>,
    words: &[&str],
    shelf: &mut S,
    reader: &mut R,
) -> Result<Ended, AllocError> {
    let (rt, alloc, gate) = (host.rt, host.alloc, host.gate);
    let mut out = Vec::new(alloc);
    let mut err = Vec::new(alloc);
    let words = owned(alloc, words)?;
    let status = run(rt, alloc, words, shelf, reader, &mut out, &mut err, gate);
    Ok(Ended { status, out, err })
}

/// A run of these words over a shelf and a reader.
pub fn ran<H: Threads + Wait + Sync, S: Shelf, R: Source>(
    rt: &H,
    alloc: Global,
    words: &[&str],
    shelf: &mut S,
    reader: &mut R,
) -> Result<Ended, AllocError> {
    let gate = &OpenGate;
    ran_by(&RunHost { rt, alloc, gate }, words, shelf, reader)
}

/// A run of these words, which one space parts, on a host and over a shelf, without input.
pub fn ran_parted<H: Threads + Wait + Sync, S: Shelf, G: Gate + Sync>(
    host: &RunHost<'_, H, G>,
    words: &str,
    shelf: &mut S,
) -> Result<Ended, AllocError> {
    let words = parted(host.alloc, words)?;
    let mut reader = b"".as_slice();
    ran_by(host, words.as_slice(), shelf, &mut reader)
}

//! A reader whose start is kept.

use crate::fronts::MOST_SEEN;
use std::io;
use std::io::Read;

/// A reader that keeps the first 4096 bytes that it gives, or all where it gives fewer.
#[derive(Drop)]
pub struct KeptStart<'a, R> {
    reader: &'a mut R,
    bytes: [u8; MOST_SEEN],
    seen: usize,
}

impl<'a, R> KeptStart<'a, R> {
    /// A reader of which nothing is kept yet.
    pub fn new(reader: &'a mut R) -> KeptStart<'a, R> {
        KeptStart {
            reader,
            bytes: [0; MOST_SEEN],
            seen: 0,
        }
    }

    /// The bytes that are kept.
    pub fn kept(&self) -> &[u8] {
        self.bytes.get(..self.seen).unwrap_or(&self.bytes)
    }
}

/// Keeps as much of these bytes as there is room for, and gives how many.
fn keep(room: Option<&mut [u8]>, given: &[u8]) -> usize {
    let Some(room) = room else { return 0 };
    let fits = room.len().min(given.len());
    room[..fits].copy_from_slice(&given[..fits]);
    fits
}

impl<R: Read> Read for KeptStart<'_, R> {
    ghost remaining = { λ kept. R.remaining kept.reader.now };

    fn read(&mut self, buf: &mut [u8]) -> io::Result<usize> {
        let count = self.reader.read(buf)?;
        let fits = keep(self.bytes.get_mut(self.seen..), &buf[..count]);
        self.seen = self.seen.saturating_add(fits);
        Ok(count)
    }
}

//! The bytes of a log, lemma by lemma.

ghost use Rattle.std.specs.Prelude.{IfErr};
ghost use Rattle.puz_make.specs.Faults.{IsLogFault};

use crate::keys::Tiles;
use log_file::{BOUND_AND_LENGTH, NEWEST_VERSION, SIGNATURE};
use puz_board::Side;
use std::alloc::{AllocError, Global};
use tab_make::MakeFault;

/// The place of the number of lemmas in a header.
const COUNT_AT: usize = 6;

/// The bytes of a log, as far as its lemmas are written.
#[derive(Drop)]
pub(crate) struct LogBytes {
    /// How many cells a board has.
    cells: usize,
    /// How many bytes the log may have. It has the memory for them from the start.
    most: usize,
    bytes: Vec<u8>,
    /// The place of each lemma.
    starts: Vec<usize>,
}

impl LogBytes {
    /// A log without lemmas, of at most so many bytes.
    pub(crate) fn new(alloc: Global, side: Side, most: usize) -> Result<LogBytes, AllocError> {
        let mut bytes = Vec::with_capacity(alloc, most)?;
        bytes.extend_from_slice(SIGNATURE)?;
        bytes.extend_from_slice(&[NEWEST_VERSION, side.get()])?;
        bytes.extend_from_slice(&0u32.to_be_bytes())?;
        Ok(LogBytes {
            cells: usize::from(side.cells()),
            most,
            bytes,
            starts: Vec::new(alloc),
        })
    }

    /// How many lemmas there are.
    pub(crate) fn count(&self) -> usize {
        self.starts.len()
    }

    /// How many bytes a lemma has before its tree.
    pub(crate) fn front_len(&self) -> usize {
        self.cells.saturating_add(BOUND_AND_LENGTH)
    }

    /// Whether a lemma is one of this board.
    pub(crate) fn is_of(&self, number: u32, tiles: &Tiles) -> bool {
        let Some(start) = self.starts.get(number as usize) else {
            return false;
        };
        let end = start.saturating_add(self.cells);
        self.bytes.get(*start..end) == Some(tiles.numbers())
    }

    /// Begins a lemma, up to its tree, which has so many bytes. Answers its number.
    pub(crate) fn begin(
        &mut self,
        tiles: &Tiles,
        bound: u8,
        length: usize,
    ) -> Result<u32, MakeFault>
        ensures { IfErr result IsLogFault }
    {
        let number = number_of(self.starts.len())?;
        let length = number_of(length)?;
        self.note_start()?;
        self.add(tiles.numbers())?;
        self.add(&[bound])?;
        self.add(&length.to_be_bytes())?;
        Ok(number)
    }

    /// Notes that a lemma begins here.
    fn note_start(&mut self) -> Result<(), AllocError> {
        self.starts.push(self.bytes.len())?;
        Ok(())
    }

    /// Adds bytes to the lemma. That the log may have so many was seen before.
    pub(crate) fn add(&mut self, bytes: &[u8]) -> Result<(), MakeFault>
        ensures { IfErr result IsLogFault }
    {
        if self.bytes.len().saturating_add(bytes.len()) > self.most {
            return Err(MakeFault::Wrong);
        }
        self.bytes.extend_from_slice(bytes)?;
        Ok(())
    }

    /// The log.
    pub(crate) fn finish(self) -> Result<Vec<u8>, MakeFault>
        ensures { IfErr result IsLogFault }
    {
        let LogBytes {
            mut bytes,
            starts,
            ..
        } = self;
        let count = number_of(starts.len())?.to_be_bytes();
        for (byte, digit) in bytes.iter_mut().skip(COUNT_AT).zip(&count) {
            *byte = *digit;
        }
        Ok(bytes)
    }
}

/// A number that a log has: it has room for it, since it has fewer bytes.
fn number_of(count: usize) -> Result<u32, MakeFault>
    ensures { IfErr result IsLogFault }
{
    u32::try_from(count).map_err(|_| MakeFault::Wrong)
}

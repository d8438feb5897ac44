//! The starts of files.

use std::alloc::Global;
use std::fs::File;
use std::io::Read;
use std::rt::Files;
use std::{fs, io};

/// How many bytes of a file are looked at.
pub(crate) const MOST_SEEN: usize = 4096;

/// The start of a plain file.
#[derive(Drop)]
pub(crate) struct FileStart {
    /// Its first 4096 bytes, or all where it has fewer.
    bytes: Vec<u8>,
    /// How many bytes it has.
    length: u64,
}

impl FileStart {
    /// The start of the file under a name. Of what is no plain file, as a pipe, and of what can't be read there is none.
    pub(crate) fn of<R: Files>(alloc: Global, files: &R, name: &str) -> Option<FileStart> {
        let data = fs::metadata(files, name).ok()?;
        if !data.is_file() {
            return None;
        }
        let mut bytes = vec![in alloc; 0_u8; MOST_SEEN].ok()?;
        let mut file = File::open(files, name).ok()?;
        let seen = fill(&mut file, bytes.as_mut_slice()).ok()?;
        bytes.truncate(seen);
        let length = if seen < MOST_SEEN {
            seen as u64
        } else {
            data.len()
        };
        Some(FileStart { bytes, length })
    }

    /// Its bytes, as far as they are seen.
    pub(crate) fn bytes(&self) -> &[u8] {
        self.bytes.as_slice()
    }

    /// How many bytes the file has.
    pub(crate) fn length(&self) -> u64 {
        self.length
    }

    /// All bytes of the file, where all are seen.
    pub(crate) fn whole(&self) -> Option<&[u8]> {
        if self.bytes.len() < MOST_SEEN {
            Some(self.bytes.as_slice())
        } else {
            None
        }
    }

    /// The lines of the file that are seen whole.
    pub(crate) fn whole_lines(&self) -> Option<&[u8]> {
        match self.whole() {
            Some(bytes) => Some(bytes),
            None => {
                let last = self.bytes.iter().rposition(|byte| *byte == b'\n')?;
                self.bytes.get(..=last)
            }
        }
    }
}

/// Reads until there is no room or nothing more comes, and gives the number of bytes.
fn fill<F: Read>(file: &mut F, room: &mut [u8]) -> io::Result<usize> {
    let mut seen = 0_usize;
    for _ in 0..MOST_SEEN {
        let Some(rest) = room.get_mut(seen..) else {
            break;
        };
        let count = file.read(rest)?;
        if count == 0 {
            break;
        }
        seen = seen.saturating_add(count);
    }
    Ok(seen)
}

//! Files for tests.

use std::alloc::{AllocError, Allocator, Global};
use std::cell::{RefCell, RefMut};
use std::collections::BTreeMap;
use std::fs::{Metadata, OpenFile, OpenOptions};
use std::io;
use std::io::{Empty, ErrorKind, Read, Seek, SeekFrom, Write};
use std::ops::Range;
use std::rc::Rc;
use std::rt::Files;

/// How many bytes a read or a write moves at most.
const PIECE: usize = 4;

/// A call of the system. `Look` asks what is told of a file, and `Create` makes one where nothing stands.
#[derive(Clone, Copy, Debug, PartialEq, Eq)]
pub enum Call {
    Look,
    Open,
    Create,
    Read,
    Write,
    Sync,
    Rename,
    Remove,
}

/// The files of one folder, over memory; a name that ends in `/` is that of a folder in it. Their calls are counted from
/// 0, and each of them is noted. One that fails does nothing.
#[derive(Drop)]
pub struct SampleFiles {
    alloc: Global,
    state: Rc<RefCell<State>>,
}

#[derive(Drop)]
struct State {
    /// The place of the file under each name. An open file may have no name any more.
    names: BTreeMap<String, usize>,
    files: Vec<SampleFile>,
    calls: Vec<Call>,
    failing: Range<u64>,
    said: Option<u64>,
}

/// A file, whose first bytes are synced.
#[derive(Drop)]
struct SampleFile {
    bytes: Vec<u8>,
    synced: usize,
}

impl SampleFiles {
    /// Files of these names and bytes, all of them synced, where the last of a name counts. No call fails.
    pub fn new(alloc: Global, files: &[(&str, &[u8])]) -> Result<SampleFiles, AllocError> {
        let mut state = State {
            names: BTreeMap::new(alloc),
            files: Vec::new(alloc),
            calls: Vec::new(alloc),
            failing: 0..0,
            said: None,
        };
        for (name, bytes) in files {
            state.add(alloc, name, bytes)?;
        }
        let state = Rc::new(alloc, RefCell::new(state))?;
        Ok(SampleFiles { alloc, state })
    }

    /// From now on the calls from one to before another fail.
    pub fn fail(&self, from: u64, to: u64) {
        if let Ok(mut state) = self.state.try_borrow_mut() {
            state.failing = from..to;
        }
    }

    /// From now on each open file is said to have so many bytes, whatever it has.
    pub fn say(&self, size: u64) {
        if let Ok(mut state) = self.state.try_borrow_mut() {
            state.said = Some(size);
        }
    }

    /// The calls, in their order.
    pub fn calls(&self) -> Result<Vec<Call>, AllocError> {
        let state = self.state.try_borrow().map_err(|_| AllocError)?;
        Vec::from_slice(self.alloc, state.calls.as_slice())
    }

    /// Whether a name has just these bytes, all of them synced.
    pub fn has(&self, name: &str, bytes: &[u8]) -> bool {
        let Ok(state) = self.state.try_borrow() else {
            return false;
        };
        let place = state.place(name).ok();
        let file = place.and_then(|place| state.files.get(place));
        file.is_some_and(|file| file.bytes.as_slice() == bytes && file.synced == bytes.len())
    }

    /// How many names there are.
    pub fn count(&self) -> usize {
        let state = self.state.try_borrow();
        state.map_or(0, |state| state.names.len())
    }
}

/// The state, after this call was noted, if it doesn't fail.
fn called(state: &RefCell<State>, call: Call) -> io::Result<RefMut<'_, State>> {
    let Ok(mut state) = state.try_borrow_mut() else {
        return failed(ErrorKind::Unsupported);
    };
    let number = state.calls.len() as u64;
    state.calls.push(call)?;
    if state.failing.contains(&number) {
        return failed(ErrorKind::Other);
    }
    Ok(state)
}

fn failed<T>(kind: ErrorKind) -> io::Result<T> {
    Err(io::Error::from(kind))
}

impl State {
    /// Puts a file under a name, and gives its place.
    fn add(&mut self, alloc: Global, name: &str, bytes: &[u8]) -> Result<usize, AllocError> {
        let place = self.files.len();
        self.files.push(SampleFile {
            bytes: Vec::from_slice(alloc, bytes)?,
            synced: bytes.len(),
        })?;
        self.names.insert(String::from_str(alloc, name)?, place)?;
        Ok(place)
    }

    /// The place of the file under a name.
    fn place(&self, name: &str) -> io::Result<usize> {
        match self.names.get(name) {
            Some(place) => Ok(*place),
            None => failed(ErrorKind::NotFound),
        }
    }

    /// The file at a place.
    fn at(&mut self, place: usize) -> io::Result<&mut SampleFile> {
        match self.files.get_mut(place) {
            Some(file) => Ok(file),
            None => failed(ErrorKind::Unsupported),
        }
    }
}

/// An open file. Writes go to its end.
#[derive(Drop)]
pub struct OpenSample {
    state: Rc<RefCell<State>>,
    place: usize,
    read: usize,
}

impl Read for OpenSample {
    fn read(&mut self, buf: &mut [u8]) -> io::Result<usize> {
        let mut state = called(&self.state, Call::Read)?;
        let rest = state.at(self.place)?.bytes.get(self.read..).unwrap_or(&[]);
        let count = PIECE.min(buf.len()).min(rest.len());
        buf[..count].copy_from_slice(&rest[..count]);
        self.read = self.read.saturating_add(count);
        Ok(count)
    }
}

impl Write for OpenSample {
    fn write(&mut self, buf: &[u8]) -> io::Result<usize> {
        let mut state = called(&self.state, Call::Write)?;
        let count = PIECE.min(buf.len());
        let file = state.at(self.place)?;
        file.bytes.extend_from_slice(&buf[..count])?;
        Ok(count)
    }

    fn flush(&mut self) -> io::Result<()> {
        Ok(())
    }
}

impl Seek for OpenSample {
    fn seek(&mut self, _to: SeekFrom) -> io::Result<u64> {
        failed(ErrorKind::Unsupported)
    }
}

impl OpenFile for OpenSample {
    fn metadata(&self) -> io::Result<Metadata> {
        let mut state = called(&self.state, Call::Look)?;
        let size = state.at(self.place)?.bytes.len() as u64;
        Ok(Metadata::of_file(state.said.unwrap_or(size)))
    }

    fn set_len(&self, _size: u64) -> io::Result<()> {
        failed(ErrorKind::Unsupported)
    }

    fn sync_all(&self) -> io::Result<()> {
        let mut state = called(&self.state, Call::Sync)?;
        let file = state.at(self.place)?;
        file.synced = file.bytes.len();
        Ok(())
    }

    fn sync_data(&self) -> io::Result<()> {
        self.sync_all()
    }
}

impl Files for SampleFiles {
    type File = OpenSample;

    type Dir = Empty;

    fn open_file(&self, how: &OpenOptions, path: &str) -> io::Result<OpenSample> {
        how.check()?;
        let place = if how.asks_create_new() {
            let mut state = called(&self.state, Call::Create)?;
            if state.names.contains_key(path) {
                return failed(ErrorKind::AlreadyExists);
            }
            state.add(self.alloc, path, b"")?
        } else {
            called(&self.state, Call::Open)?.place(path)?
        };
        Ok(OpenSample {
            state: self.state.clone()?,
            place,
            read: 0,
        })
    }

    fn open_dir(&self, _path: &str) -> io::Result<Empty> {
        failed(ErrorKind::Unsupported)
    }

    fn metadata(&self, path: &str) -> io::Result<Metadata> {
        let mut state = called(&self.state, Call::Look)?;
        let place = state.place(path)?;
        let size = state.at(place)?.bytes.len() as u64;
        Ok(if path.ends_with('/') {
            Metadata::of_dir()
        } else {
            Metadata::of_file(size)
        })
    }

    fn symlink_metadata(&self, path: &str) -> io::Result<Metadata> {
        self.metadata(path)
    }

    fn copy(&self, _from: &str, _to: &str) -> io::Result<u64> {
        failed(ErrorKind::Unsupported)
    }

    fn rename(&self, from: &str, to: &str) -> io::Result<()> {
        let name = String::from_str(self.alloc, to)?;
        let mut state = called(&self.state, Call::Rename)?;
        let place = state.place(from)?;
        state.names.remove(from);
        state.names.insert(name, place)?;
        Ok(())
    }

    fn remove_file(&self, path: &str) -> io::Result<()> {
        match called(&self.state, Call::Remove)?.names.remove(path) {
            Some(_) => Ok(()),
            None => failed(ErrorKind::NotFound),
        }
    }

    fn create_dir(&self, _path: &str) -> io::Result<()> {
        failed(ErrorKind::Unsupported)
    }

    fn remove_dir(&self, _path: &str) -> io::Result<()> {
        failed(ErrorKind::Unsupported)
    }

    fn remove_dir_all<B: Allocator>(&self, _alloc: B, _path: &str) -> io::Result<()> {
        failed(ErrorKind::Unsupported)
    }
}

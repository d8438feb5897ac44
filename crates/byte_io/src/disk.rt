//! A shelf over the files of the system.

ghost use Rattle.std.specs.Prelude.{◌≡◌, ◌≤◌, IfOk, None, false, length};

use crate::shelf::{KeepFault, Shelf};
use crate::streams::{ReadFault, WriteFault, put_bytes, read_said};
use std::alloc::{AllocError, Global};
use std::fs::{File, Metadata, OpenFile, OpenOptions, Permissions};
use std::io::{ErrorKind, Read};
use std::os::unix::fs::{MetadataExt, PermissionsExt};
use std::rt::Files;
use std::{fs, io};

/// How many names are tried for the temporary file of a name, until nothing stands under one.
const TEMPORARY_NAMES: u16 = 1_000;

/// How many bytes of a file's own name its temporary file has in its name. The system takes 255, and this leaves room for an
/// ending.
const MOST_NAME: usize = 240;

/// The bits of a mode that a file hands on to the one that takes its place: none by which others would run that as its owner.
const KEPT_BITS: u32 = 0o1777;

/// The bit of a mode by which the owner may write the file.
const OWNER_WRITES: u32 = 0o200;

/// The files of the system, by their paths. It tells no bytes: what is said of a file speaks of the bytes that were read.
#[derive(Drop)]
pub struct DiskShelf<'a, R> {
    files: &'a R,
    has_failed: bool,
}

impl<'a, R: Files> DiskShelf<'a, R> {
    /// A shelf that hasn't failed.
    pub fn new(files: &'a R) -> DiskShelf<'a, R>
        ensures { result.has_failed ≡ false }
    {
        DiskShelf {
            files,
            has_failed: false,
        }
    }
}

impl<R: Files> Shelf for DiskShelf<'_, R> {
    ghost held = { λ _. None };

    ghost has_failed = { λ shelf. shelf.has_failed };

    ghost calls = { λ _. None };

    fn load(&mut self, alloc: Global, name: &str, limit: u64) -> Result<Vec<u8>, ReadFault> {
        let result = read_file(alloc, self.files, name, limit);
        if matches!(&result, Err(ReadFault::F1)) {
            self.has_failed = true;
        }
        result
    }

    fn are_one(&self, name: &str, other: &str) -> bool {
        name == other || is_one_file(self.files, name, other)
    }

    fn begins_with(&self, name: &str, front: &[u8]) -> bool {
        begins_with(self.files, name, front)
    }

    fn peek(&self, alloc: Global, name: &str, limit: u64) -> Result<Option<Vec<u8>>, ReadFault> {
        if !is_plain(self.files, name) {
            return Ok(None);
        }
        Ok(Some(read_file(alloc, self.files, name, limit)?))
    }

    fn is_read_only(&self, name: &str) -> bool {
        match fs::symlink_metadata(self.files, name) {
            Ok(data) => data.is_file() && !owner_writes(&data),
            Err(_) => false,
        }
    }

    fn try_keep(&mut self, alloc: Global, name: &str) -> Result<(), KeepFault> {
        let tried = make_and_remove(alloc, self.files, name);
        if tried == Err(KeepFault::F3) {
            self.has_failed = true;
        }
        tried
    }

    fn keep(&mut self, alloc: Global, name: &str, bytes: &[u8]) -> Result<(), KeepFault> {
        let kept = replace(alloc, self.files, name, bytes);
        if kept == Err(KeepFault::F3) {
            self.has_failed = true;
        }
        kept
    }

    fn failed(&self) -> bool {
        self.has_failed
    }
}

/// The bytes of the file under a name, which are at most so many.
fn read_file<R: Files>(
    alloc: Global,
    files: &R,
    name: &str,
    limit: u64,
) -> Result<Vec<u8>, ReadFault>
    ensures { IfOk result (λ bytes. length bytes.items ≤ limit) }
{
    match File::open(files, name) {
        Ok(mut file) => {
            let size = said_size(&file);
            read_said(alloc, &mut file, limit, size)
        }
        Err(_) => Err(ReadFault::F1),
    }
}

/// How many bytes the system says that a file has; 0 where it says nothing, or where it is no plain file, as a folder or
/// a pipe.
fn said_size<F: OpenFile>(file: &F) -> u64 {
    match file.metadata() {
        Ok(data) if data.is_file() => data.len(),
        _ => 0,
    }
}

/// Whether the plain file under a name is the file that another name leads to. Where a system numbers no files, none is.
fn is_one_file<R: Files>(files: &R, name: &str, other: &str) -> bool {
    match (
        fs::symlink_metadata(files, name),
        fs::metadata(files, other),
    ) {
        (Ok(one), Ok(other)) => {
            one.ino() != 0 && one.ino() == other.ino() && one.dev() == other.dev()
        }
        _ => false,
    }
}

/// The most bytes of a file's front that are looked at.
const MOST_FRONT: usize = 16;

/// Whether the plain file under a name begins so. One that can't be looked at doesn't, but each begins with no bytes.
fn begins_with<R: Files>(files: &R, name: &str, front: &[u8]) -> bool {
    if !is_plain(files, name) {
        return false;
    }
    if front.is_empty() {
        return true;
    }
    let mut bytes = [0; MOST_FRONT];
    let Some(read) = bytes.get_mut(..front.len()) else {
        return false;
    };
    let is_read = match File::open(files, name) {
        Ok(mut file) => file.read_exact(read).is_ok(),
        Err(_) => false,
    };
    is_read && bytes.starts_with(front)
}

/// Whether a plain file stands under a name.
fn is_plain<R: Files>(files: &R, name: &str) -> bool {
    match fs::symlink_metadata(files, name) {
        Ok(data) => data.is_file(),
        Err(_) => false,
    }
}

/// Whether the owner of a file may write it.
fn owner_writes(data: &Metadata) -> bool {
    data.mode() & OWNER_WRITES != 0
}

/// A file that is to stand under a name once it is whole.
#[derive(Drop)]
struct Temporary<F> {
    file: F,
    name: String,
    /// The mode that it gets from what stands under that name, where that is told.
    mode: Option<Permissions>,
}

/// Makes the temporary file of a name, and removes it.
fn make_and_remove<R: Files>(alloc: Global, files: &R, name: &str) -> Result<(), KeepFault> {
    let made = make_temporary(alloc, files, name)?;
    if remove_temporary(files, made.name.as_str()) {
        Ok(())
    } else {
        Err(KeepFault::F3)
    }
}

/// How often it is tried to remove a temporary file.
const REMOVALS: u8 = 3;

/// Removes a temporary file, and answers whether it is gone. A removal that fails is tried again, so that one failure leaves
/// nothing.
fn remove_temporary<R: Files>(files: &R, name: &str) -> bool {
    for _ in 0..REMOVALS {
        match fs::remove_file(files, name) {
            Ok(()) => return true,
            Err(error) if error.kind() == ErrorKind::NotFound => return true,
            Err(_) => {}
        }
    }
    false
}

/// Puts bytes in the place of a plain file, or where nothing stands. At each moment the name has what it had or all of
/// these bytes, since a file gets it only when it is whole.
fn replace<R: Files>(alloc: Global, files: &R, name: &str, bytes: &[u8]) -> Result<(), KeepFault> {
    let mut made = make_temporary(alloc, files, name)?;
    match fill_and_rename(files, &mut made, bytes, name) {
        Ok(()) => Ok(()),
        Err(_) => {
            let _ = remove_temporary(files, made.name.as_str());
            Err(KeepFault::F3)
        }
    }
}

/// Makes a temporary file for what is to stand under a name, beside it. Nothing stood there, so the file is this run's: what
/// others have made stays, be it a user's, another run's, or what was left over by one that was stopped.
fn make_temporary<R: Files>(
    alloc: Global,
    files: &R,
    name: &str,
) -> Result<Temporary<R::File>, KeepFault> {
    if name.is_empty() {
        return Err(KeepFault::F3);
    }
    let mode = mode_of(files, name)?;
    for number in 0..TEMPORARY_NAMES {
        let temporary = temporary_name(alloc, name, number)?;
        match create_new(files, temporary.as_str()) {
            Ok(file) => {
                return Ok(Temporary {
                    file,
                    name: temporary,
                    mode,
                });
            }
            Err(error) if error.kind() == ErrorKind::AlreadyExists => {}
            Err(_) => return Err(KeepFault::F3),
        }
    }
    Err(KeepFault::F3)
}

/// The mode that the plain file under a name hands on, where there is one and the system tells it. Where something else stands
/// there, as a link, a folder, a pipe or a device, or a file that its owner may not write, or the name is too long, nothing can be
/// kept under it.
fn mode_of<R: Files>(files: &R, name: &str) -> Result<Option<Permissions>, KeepFault> {
    match fs::symlink_metadata(files, name) {
        Ok(data) if data.is_file() && owner_writes(&data) => {
            Ok(Some(Permissions::from_mode(data.mode() & KEPT_BITS)))
        }
        Ok(_) => Err(KeepFault::F3),
        Err(error) if error.kind() == ErrorKind::InvalidFilename => Err(KeepFault::F3),
        Err(_) => Ok(None),
    }
}

/// The temporary file's name of this number: `NAME.unkept`, and then `NAME.1.unkept`, `NAME.2.unkept` and so on. A long name is
/// cut.
fn temporary_name(alloc: Global, name: &str, number: u16) -> Result<String, AllocError> {
    let name = short_name(name);
    if number == 0 {
        format!(in alloc; "{name}.unkept")
    } else {
        format!(in alloc; "{name}.{number}.unkept")
    }
}

/// A name of which the part behind the last `/` is cut where it is long.
fn short_name(name: &str) -> &str {
    let folder = name.rfind('/').map_or(0, |at| at.saturating_add(1));
    let end = folder.saturating_add(MOST_NAME);
    // A letter has at most four bytes, so one of four places is between two letters.
    for back in 0..4 {
        if let Some(short) = name.get(..end.saturating_sub(back)) {
            return short;
        }
    }
    name
}

/// Makes a file where nothing stands.
fn create_new<R: Files>(files: &R, name: &str) -> io::Result<R::File> {
    OpenOptions::new()
        .write(true)
        .create_new(true)
        .open(files, name)
}

/// Writes a temporary file whole, down to its device, and then gives it another name.
fn fill_and_rename<R: Files>(
    files: &R,
    made: &mut Temporary<R::File>,
    bytes: &[u8],
    to: &str,
) -> Result<(), WriteFault> {
    put_bytes(&mut made.file, bytes)?;
    made.file.sync_all()?;
    if let Some(mode) = made.mode.take() {
        // Not each system has modes.
        let _ = fs::set_permissions(files, made.name.as_str(), mode);
    }
    fs::rename(files, made.name.as_str(), to)?;
    Ok(())
}

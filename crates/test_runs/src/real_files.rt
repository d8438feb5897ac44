//! A shelf over real files: their names and sizes, what stands beside one that is kept, and what can't be read or kept.

use crate::bytes::sample_bytes;
use crate::same::{equal, holds_for};
use byte_io::disk::DiskShelf;
use byte_io::shelf::{KeepFault, Shelf};
use byte_io::streams::ReadFault;
use std::alloc::AllocGlobal;
use std::io::Read;
use std::process::Abort;
use std::rt::Files;
use std::test::Fail;
use std::{fs, io};

const OLD: &[u8] = b"old";

const NEW: &[u8] = b"new bytes";

/// Ends the test where something stands under a name.
fn expect_no_file<R: Files + Abort>(rt: &R, name: &str) -> io::Result<()> {
    let exists = fs::exists(rt, name)?;
    holds_for(rt, !exists, &name);
    Ok(())
}

/// Ends the test where a shelf hasn't just these bytes under a name, within this limit.
fn expect_within<R: Files + AllocGlobal + Abort>(
    rt: &R,
    shelf: &mut DiskShelf<'_, R>,
    name: &str,
    bytes: &[u8],
    limit: u64,
) -> Result<(), Fail> {
    let read = shelf.load(rt.alloc(), name, limit)?;
    let is_right = equal(&read.as_slice(), &bytes);
    holds_for(rt, is_right, &(name, limit));
    Ok(())
}

/// Keeps so many bytes under a name. Ends the test where a shelf hasn't them within each limit that they meet, or has them within one
/// less.
fn expect_kept<R: Files + AllocGlobal + Abort>(
    rt: &R,
    name: &str,
    count: usize,
) -> Result<(), Fail> {
    let bytes = sample_bytes(rt.alloc(), count)?;
    let mut shelf = DiskShelf::new(rt);
    shelf.try_keep(rt.alloc(), name)?;
    shelf.keep(rt.alloc(), name, bytes.as_slice())?;
    expect_within(rt, &mut shelf, name, bytes.as_slice(), count as u64)?;
    expect_within(rt, &mut shelf, name, bytes.as_slice(), u64::MAX)?;
    if count > 0 {
        let read = shelf.load(rt.alloc(), name, count as u64 - 1);
        holds_for(rt, read.err() == Some(ReadFault::F2), &(name, count));
    }
    holds_for(rt, !shelf.failed(), &(name, count));
    Ok(())
}

/// Names, and how many bytes are kept under each.
const FILES: [(&str, usize); 5] = [
    ("keep_test", 0),
    (" keep_test", 9),
    ("keep_test ", 65_536),
    ("keep test\t", 65_537),
    ("./--", 3_145_745),
];

#[test]
fn a_file_is_kept_and_read_whole_under_its_very_name(rt: HostRuntime) -> Result<(), Fail> {
    fs::write(&rt, "keep_test.unkept", OLD)?;
    fs::create_dir(&rt, "keep_test.1.unkept")?;
    for (name, count) in FILES {
        expect_kept(&rt, name, count)?;
        expect_kept(&rt, name, 17)?;
    }
    for (name, _) in FILES {
        let bytes = fs::read(&rt, name)?;
        holds_for(&rt, bytes.len() == 17, &name);
        fs::remove_file(&rt, name)?;
    }
    assert!(rt; fs::read(&rt, "keep_test.unkept")?.as_slice() == OLD);
    for name in ["keep_test.2.unkept", " keep_test.unkept", "--.unkept"] {
        expect_no_file(&rt, name)?;
    }
    fs::remove_file(&rt, "keep_test.unkept")?;
    fs::remove_dir(&rt, "keep_test.1.unkept")?;
    Ok(())
}

#[test]
fn a_missing_file_and_a_folder_can_not_be_read(rt: HostRuntime) {
    for name in ["no_such_file", ".", "", "a\0b"] {
        for limit in [0u64, 9, u64::MAX] {
            let mut shelf = DiskShelf::new(&rt);
            let read = shelf.load(rt.alloc(), name, limit);
            holds_for(
                &rt,
                read.err() == Some(ReadFault::F1) && shelf.failed(),
                &name,
            );
        }
    }
}

/// Ends the test where a name isn't found wrong by its trial, and by what keeps there.
fn expect_not_kept<R: Files + AllocGlobal + Abort>(rt: &R, name: &str) {
    let mut trial = DiskShelf::new(rt);
    let tried = trial.try_keep(rt.alloc(), name);
    holds_for(rt, tried == Err(KeepFault::F3) && trial.failed(), &name);
    let mut shelf = DiskShelf::new(rt);
    let kept = shelf.keep(rt.alloc(), name, NEW);
    holds_for(rt, kept == Err(KeepFault::F3) && shelf.failed(), &name);
}

/// Names of which each is wrong in its own way, where there is a folder and a file.
const WRONG: [&str; 8] = [
    ".",
    "wrong_folder",
    "wrong_folder/",
    "wrong_file/a",
    "no_folder/a",
    "/dev/full",
    "",
    "a\0b",
];

#[test]
fn a_name_that_can_not_be_kept_under_is_a_failure(rt: HostRuntime) -> Result<(), Fail> {
    fs::create_dir(&rt, "wrong_folder")?;
    fs::write(&rt, "wrong_file", OLD)?;
    for name in WRONG {
        expect_not_kept(&rt, name);
    }
    for name in [
        ".unkept",
        "..unkept",
        "wrong_folder.unkept",
        "wrong_folder/.unkept",
    ] {
        expect_no_file(&rt, name)?;
    }
    fs::remove_file(&rt, "wrong_file")?;
    fs::remove_dir(&rt, "wrong_folder")?;
    Ok(())
}

/// Reads the first bytes of a file, and says how many it read.
fn read_short<R: Files>(files: &R, name: &str, bytes: &mut [u8; 16]) -> io::Result<usize> {
    fs::open(files, name)?.read(bytes)
}

/// Run with each request for memory refused in turn: that is no failure of the shelf.
#[test]
fn memory_that_is_refused_leaves_what_was_there(rt: HostRuntime) -> Result<(), Fail> {
    fs::write(&rt, "memory_test", OLD)?;
    let mut disk = DiskShelf::new(&rt);
    let tried = disk.try_keep(rt.alloc(), "memory_test");
    assert!(rt; tried == Ok(()) || tried == Err(KeepFault::Memory));
    let want = match disk.keep(rt.alloc(), "memory_test", NEW) {
        Ok(()) => NEW,
        Err(KeepFault::Memory) => OLD,
        Err(KeepFault::F3) => b"",
    };
    let mut bytes = [0u8; 16];
    let count = read_short(&rt, "memory_test", &mut bytes)?;
    assert!(rt; bytes.get(..count) == Some(want) && !disk.failed());
    expect_no_file(&rt, "memory_test.unkept")?;
    fs::remove_file(&rt, "memory_test")?;
    Ok(())
}

/// Ends the test where names of one file, and what files begin with, are told otherwise.
fn expect_fronts<R: Files + Abort>(rt: &R) {
    let shelf = DiskShelf::new(rt);
    for name in ["front_test", "./front_test", "front_link"] {
        holds_for(rt, shelf.are_one("front_test", name), &name);
    }
    for name in ["front_other", "front_folder", "none", ""] {
        holds_for(rt, !shelf.are_one("front_test", name), &name);
    }
    assert!(rt; shelf.are_one("none", "none") && !shelf.are_one("none", "none_other"));
    assert!(rt; shelf.begins_with("front_test", b"ol") && shelf.begins_with("front_test", OLD));
    for front in [
        b"od".as_slice(),
        b"older",
        b"old, and more bytes than are looked at",
    ] {
        holds_for(rt, !shelf.begins_with("front_test", front), &front);
    }
    assert!(rt; shelf.begins_with("front_test", b"") && !shelf.begins_with("front_folder", b""));
    for name in ["front_folder", "none", "", "front_test/a"] {
        holds_for(rt, !shelf.begins_with(name, b"ol"), &name);
    }
}

#[test]
fn names_of_one_file_and_fronts_of_files_are_told(rt: HostRuntime) -> Result<(), Fail> {
    fs::write(&rt, "front_test", OLD)?;
    fs::write(&rt, "front_other", OLD)?;
    fs::hard_link(&rt, "front_test", "front_link")?;
    fs::create_dir(&rt, "front_folder")?;
    expect_fronts(&rt);
    for name in ["front_test", "front_other", "front_link"] {
        fs::remove_file(&rt, name)?;
    }
    fs::remove_dir(&rt, "front_folder")?;
    Ok(())
}

//! A shelf over a system that may say a wrong size of its file, and whose calls may fail.

use crate::calls::expect_calls;
use crate::same::{holds_for, same_bytes};
use byte_io::disk::DiskShelf;
use byte_io::shelf::Shelf;
use byte_io::streams::ReadFault;
use std::alloc::{AllocError, AllocGlobal, Global};
use std::process::Abort;
use std::test::Fail;
use test_samples::{Call, SampleFiles};

const NAME: &str = " its name";

const TEXT: &[u8] = b"3 2 1 0 ; ULDRUL\n";

/// The calls that read its seventeen bytes.
const CALLS: &[Call] = &[
    Call::Open,
    Call::Look,
    Call::Read,
    Call::Read,
    Call::Read,
    Call::Read,
    Call::Read,
    Call::Read,
];

/// A system that has the text under the name.
fn sample(alloc: Global) -> Result<SampleFiles, AllocError> {
    SampleFiles::new(alloc, &[(NAME, TEXT)])
}

/// What a shelf over a system reads under the name, and whether it failed then.
fn load(alloc: Global, files: &SampleFiles, limit: u64) -> (Result<Vec<u8>, ReadFault>, bool) {
    let mut shelf = DiskShelf::new(files);
    let read = shelf.load(alloc, NAME, limit);
    (read, shelf.failed())
}

/// Ends the test where the text isn't read whole from a system.
fn expect_whole<R: AllocGlobal + Abort>(rt: &R, files: &SampleFiles) -> Result<(), ReadFault> {
    let (read, failed) = load(rt.alloc(), files, 100);
    same_bytes(rt, read?.as_slice(), TEXT);
    assert!(rt; !failed);
    Ok(())
}

#[test]
fn a_file_is_read_whole_whatever_size_is_said(rt: HostRuntime) -> Result<(), Fail> {
    for size in [0, 1, 16, 17, 18, 100] {
        let files = sample(rt.alloc())?;
        files.say(size);
        expect_whole(&rt, &files)?;
    }
    Ok(())
}

#[test]
fn a_file_is_read_whole_where_nothing_is_said(rt: HostRuntime) -> Result<(), Fail> {
    let files = sample(rt.alloc())?;
    files.fail(1, 2);
    expect_whole(&rt, &files)?;
    expect_calls(&rt, &files, CALLS)?;
    Ok(())
}

#[test]
fn a_file_said_to_be_over_its_limit_is_not_read(rt: HostRuntime) -> Result<(), Fail> {
    let alloc = rt.alloc();
    let files = sample(alloc)?;
    files.say(18);
    let (read, failed) = load(alloc, &files, 17);
    assert!(rt; matches!(read, Err(ReadFault::F2)) && !failed);
    expect_calls(&rt, &files, &CALLS[..2])?;
    Ok(())
}

/// Ends the test where a call that fails is no failure of the shelf.
fn expect_failure<R: AllocGlobal + Abort>(rt: &R, call: u64) -> Result<(), AllocError> {
    let files = sample(rt.alloc())?;
    files.fail(call, u64::MAX);
    let (read, failed) = load(rt.alloc(), &files, 17);
    let fails = matches!(read, Err(ReadFault::F1)) && failed;
    holds_for(rt, fails, &("call", call));
    Ok(())
}

#[test]
fn a_read_that_fails_is_a_failure_of_the_shelf(rt: HostRuntime) -> Result<(), Fail> {
    for call in 2..CALLS.len() as u64 {
        expect_failure(&rt, call)?;
    }
    Ok(())
}

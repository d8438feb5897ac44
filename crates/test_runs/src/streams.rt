//! Streams that fail, end early or late, or go byte by byte.

use crate::bytes::sample_bytes;
use crate::same::{equal, holds_for, same, same_bytes};
use byte_io::streams::{
    ReadFault, WriteFault, put_bytes, put_text, read_all, read_sized, read_watched,
};
use byte_io::watched::Watched;
use std::alloc::AllocGlobal;
use std::io::ErrorKind;
use std::process::Abort;
use std::test::Fail;
use test_samples::{EndlessReader, Failing, SampleReader, SampleWriter};

const TEXT: &[u8] = b"3 2 1 0 ; ULDRUL\n";

/// Ends the test where bytes that come one by one from a call on aren't read whole, whatever size is said.
fn expect_read_sized<R: AllocGlobal + Abort>(
    rt: &R,
    bytes: &[u8],
    single_from: u64,
    size: u64,
) -> Result<(), Fail> {
    let mut reader = SampleReader::new(bytes).byte_by_byte_from(single_from);
    let read = read_sized(rt.alloc(), &mut reader, 70_003, size)?;
    let is_right = equal(&read.as_slice(), &bytes);
    holds_for(rt, is_right, &("size", size));
    Ok(())
}

#[test]
fn an_input_is_read_whole_whatever_its_pieces(rt: HostRuntime) -> Result<(), Fail> {
    let bytes = sample_bytes(rt.alloc(), 70_003)?;
    for single_from in [0u64, 1, u64::MAX] {
        for size in [0u64, 1, 65_536, 70_002, 70_003, 70_004, 1_000_000] {
            expect_read_sized(&rt, bytes.as_slice(), single_from, size)?;
        }
    }
    Ok(())
}

/// Ends the test where so many bytes aren't read within a limit of as many, or are within one of one less.
fn expect_limit_met<R: AllocGlobal + Abort>(rt: &R, count: usize) -> Result<(), Fail> {
    let bytes = sample_bytes(rt.alloc(), count)?;
    let bytes = bytes.as_slice();
    let limit = count as u64;
    let mut reader = bytes;
    let read = read_all(rt.alloc(), &mut reader, limit)?;
    let is_right = equal(&read.as_slice(), &bytes);
    holds_for(rt, is_right, &(count, "bytes"));
    let mut reader = bytes;
    let read = read_all(rt.alloc(), &mut reader, limit.saturating_sub(1));
    holds_for(rt, read.err() == Some(ReadFault::F2), &(count, "bytes"));
    Ok(())
}

#[test]
fn a_limit_is_met_exactly(rt: HostRuntime) -> Result<(), Fail> {
    for count in [1, 17, 65_536, 131_073] {
        expect_limit_met(&rt, count)?;
    }
    Ok(())
}

#[test]
fn an_input_that_never_ends_is_over_its_limit(rt: HostRuntime) {
    for piece in [1usize, 7, usize::MAX] {
        let mut reader = EndlessReader::new(piece);
        let read = read_all(rt.alloc(), &mut reader, 1000);
        assert!(rt; matches!(read, Err(ReadFault::F2)));
        assert!(rt; reader.calls() <= 1001);
    }
}

/// Ends the test where a read that fails so at a call doesn't end the reading.
fn expect_read_ends<R: AllocGlobal + Abort>(rt: &R, kind: ErrorKind, call: u64) {
    let mut reader = SampleReader::new(TEXT)
        .byte_by_byte_from(0)
        .failing(call, call.saturating_add(1), kind);
    let read = read_all(rt.alloc(), &mut reader, 100);
    let failed = matches!(read, Err(ReadFault::F1));
    holds_for(rt, failed, &("call", call));
    same(rt, &reader.calls(), &call.saturating_add(1));
}

#[test]
fn a_read_that_fails_ends_the_reading(rt: HostRuntime) {
    for call in 0..=TEXT.len() as u64 {
        expect_read_ends(&rt, ErrorKind::Other, call);
        expect_read_ends(&rt, ErrorKind::Interrupted, call);
    }
}

#[test]
fn memory_that_is_refused_is_no_failure_of_the_reader(rt: HostRuntime) {
    let mut reader = SampleReader::new(TEXT);
    let mut watched = Watched::new(&mut reader);
    let read = read_watched(rt.alloc(), &mut watched, u64::MAX, 1 << 62);
    assert!(rt; matches!(read, Err(ReadFault::Memory)));
    assert!(rt; !watched.has_failed());
    same(&rt, &watched.calls(), &0);
}

#[test]
fn a_text_is_written_whole_whatever_the_pieces(rt: HostRuntime) -> Result<(), Fail> {
    for single_from in [0u64, 1, u64::MAX] {
        let mut out = SampleWriter::new(rt.alloc()).byte_by_byte_from(single_from);
        put_text(&mut out, "refused B5 at number 3\n")?;
        same_bytes(&rt, out.taken(), b"refused B5 at number 3\n");
    }
    Ok(())
}

/// Ends the test where a write that fails so at a call leaves something else than the front before it.
fn expect_front<R: AllocGlobal + Abort>(rt: &R, how: Failing, call: usize) {
    let from = call as u64;
    let mut out = SampleWriter::new(rt.alloc())
        .byte_by_byte_from(0)
        .failing(from, from.saturating_add(1), how);
    let put = put_bytes(&mut out, TEXT);
    same(rt, &put, &Err(WriteFault::F3));
    same(rt, &Some(out.taken()), &TEXT.get(..call));
    same(rt, &out.calls(), &from.saturating_add(1));
}

#[test]
fn a_write_that_fails_leaves_a_front(rt: HostRuntime) {
    for call in 0..TEXT.len() {
        expect_front(&rt, Failing::ByError(ErrorKind::Other), call);
        expect_front(&rt, Failing::ByError(ErrorKind::Interrupted), call);
        expect_front(&rt, Failing::ByTakingNothing, call);
    }
}

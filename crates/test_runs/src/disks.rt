//! Runs over the shelf of the system's files, whose calls fail or stop, one after the other.

use crate::runs::{Ended, ran};
use crate::same::{holds_for, same};
use crate::tasks::{FILES, TASKS, Task};
use byte_io::disk::DiskShelf;
use std::alloc::{AllocError, Global};
use std::process::Abort;
use std::sync::Wait;
use std::test::Fail;
use std::thread::Threads;
use test_samples::{Call, SampleFiles};

/// The run of a task over files.
fn ran_over<H: Threads + Wait + Sync>(
    rt: &H,
    alloc: Global,
    task: &Task<'_>,
    files: &SampleFiles,
) -> Result<Ended, AllocError> {
    let mut shelf = DiskShelf::new(files);
    let mut reader = b"".as_slice();
    ran(rt, alloc, task.words, &mut shelf, &mut reader)
}

/// The calls of a run in which nothing fails, which says the task's lines and keeps its file.
fn calls_of<H: Threads + Wait + Sync>(
    rt: &H,
    alloc: Global,
    task: &Task<'_>,
) -> Result<Vec<Call>, Fail> {
    let files = SampleFiles::new(alloc, &FILES)?;
    let ended = ran_over(rt, alloc, task, &files)?;
    let calls = files.calls()?;
    expect_whole(alloc, task, &ended, &files, 0)?;
    Ok(calls)
}

/// What is said alone where the call of this number fails, and fails again. Nothing is, where the system only doesn't tell how
/// long a file is, or what stands under a name. Behind the inputs it is seen how the file begins whose place is to be taken.
fn fault_at(
    alloc: Global,
    task: &Task<'_>,
    calls: &[Call],
    at: usize,
) -> Result<Option<String>, AllocError> {
    let opened = calls
        .iter()
        .take(at.saturating_add(1))
        .filter(|call| **call == Call::Open)
        .count();
    let name = task.reads.get(opened.saturating_sub(1)).unwrap_or(&"");
    let out = task.out.unwrap_or("");
    match calls.get(at) {
        Some(Call::Look) | None => Ok(None),
        Some(Call::Open | Call::Read) if opened <= task.reads.len() => {
            Ok(Some(format!(in alloc; "fault read {name}\n")?))
        }
        Some(_) => Ok(Some(format!(in alloc; "fault write {out}\n")?)),
    }
}

/// Each name has what it had before.
fn are_as_before(files: &SampleFiles) -> bool {
    FILES.iter().all(|(name, bytes)| files.has(name, bytes))
}

/// The run says the task's lines, and what it makes is kept, under no further name than so many that were left over.
fn expect_whole(
    alloc: Global,
    task: &Task<'_>,
    ended: &Ended,
    files: &SampleFiles,
    left_over: usize,
) -> Result<(), Fail> {
    let lines = task.lines(alloc)?;
    ended.expect(lines.as_bytes(), task.status)?;
    let (is_kept, is_new) = match (task.out, task.made) {
        (Some(name), Some(bytes)) => (
            files.has(name, bytes),
            FILES.iter().all(|(other, _)| *other != name),
        ),
        _ => (are_as_before(files), false),
    };
    let count = (FILES.len() + usize::from(is_new)).saturating_add(left_over);
    if is_kept && files.count() == count {
        Ok(())
    } else {
        Err(Fail::new("the files are others"))
    }
}

/// The files, whose calls fail from this one on and before that one.
fn failing_files(alloc: Global, from: u64, to: u64) -> Result<SampleFiles, AllocError> {
    let files = SampleFiles::new(alloc, &FILES)?;
    files.fail(from, to);
    Ok(files)
}

/// What is said alone where the call of this number fails, unless that is the removal of what was made for the trial of the name:
/// it is removed at the second try.
fn fault_alone_at(
    alloc: Global,
    task: &Task<'_>,
    calls: &[Call],
    at: usize,
) -> Result<Option<String>, AllocError> {
    if calls.get(at) == Some(&Call::Remove) {
        return Ok(None);
    }
    fault_at(alloc, task, calls, at)
}

/// A run ended with this fault alone, and the files are as before.
fn expect_fault<R: Abort>(
    rt: &R,
    ended: &Ended,
    files: &SampleFiles,
    fault: &str,
) -> Result<(), Fail> {
    ended.expect(fault.as_bytes(), 2)?;
    holds_for(rt, are_as_before(files), &fault);
    same(rt, &files.count(), &FILES.len());
    Ok(())
}

/// The call of this number fails: that is told alone, or the run ends as the whole one.
fn expect_with_one_fault<H: Threads + Wait + Sync + Abort>(
    rt: &H,
    alloc: Global,
    task: &Task<'_>,
    calls: &[Call],
    at: usize,
) -> Result<(), Fail> {
    let files = failing_files(alloc, at as u64, (at as u64).saturating_add(1))?;
    let ended = ran_over(rt, alloc, task, &files)?;
    match fault_alone_at(alloc, task, calls, at)? {
        Some(fault) => expect_fault(rt, &ended, &files, fault.as_str()),
        None => expect_whole(alloc, task, &ended, &files, 0),
    }
}

#[test]
fn a_call_that_fails_is_told_alone_and_leaves_the_files(rt: HostRuntime) -> Result<(), Fail> {
    let alloc = rt.alloc();
    for task in &TASKS {
        let calls = calls_of(&rt, alloc, task)?;
        for at in 0..calls.len() {
            expect_with_one_fault(&rt, alloc, task, calls.as_slice(), at)?;
        }
    }
    Ok(())
}

/// The fault that is told alone where all calls from this number on fail: that of the first which asks for more than a look.
fn told_from(
    alloc: Global,
    task: &Task<'_>,
    calls: &[Call],
    at: usize,
) -> Result<String, AllocError> {
    let told = (at..calls.len()).find(|at| calls.get(*at) != Some(&Call::Look));
    let fault = fault_at(alloc, task, calls, told.unwrap_or(at))?;
    Ok(fault.unwrap_or(String::new(alloc)))
}

/// The files are as before beside one more name at most that was left over: how many were.
fn left_over<R: Abort>(rt: &R, files: &SampleFiles, at: usize) -> usize {
    holds_for(rt, are_as_before(files), &("as before, call", at));
    let left_over = files.count().saturating_sub(FILES.len());
    holds_for(rt, left_over <= 1, &("left over, call", at));
    left_over
}

/// All calls from this number on fail: that is told alone, and the next run ends as the whole one.
fn expect_stopped<H: Threads + Wait + Sync + Abort>(
    rt: &H,
    alloc: Global,
    task: &Task<'_>,
    calls: &[Call],
    at: usize,
) -> Result<(), Fail> {
    let files = failing_files(alloc, at as u64, u64::MAX)?;
    let fault = told_from(alloc, task, calls, at)?;
    ran_over(rt, alloc, task, &files)?.expect(fault.as_bytes(), 2)?;
    let left_over = left_over(rt, &files, at);
    files.fail(0, 0);
    let ended = ran_over(rt, alloc, task, &files)?;
    expect_whole(alloc, task, &ended, &files, left_over)
}

#[test]
fn a_system_that_stops_leaves_the_files_and_the_next_run_ends_well(
    rt: HostRuntime,
) -> Result<(), Fail> {
    let alloc = rt.alloc();
    for task in &TASKS {
        let calls = calls_of(&rt, alloc, task)?;
        for at in 0..calls.len() {
            expect_stopped(&rt, alloc, task, calls.as_slice(), at)?;
        }
    }
    Ok(())
}

//! Runs over a shelf, each of whose calls fails in turn.

use crate::runs::{Ended, ran};
use crate::same::{holds_for, same_for};
use crate::tasks::{FILES, TASKS, Task};
use byte_io::memory::MemShelf;
use std::alloc::{AllocError, Global};
use std::process::Abort;
use std::sync::Wait;
use std::test::Fail;
use std::thread::Threads;
use test_samples::{FailingShelf, ShelfFault};

/// How many calls of a shelf a run of a task makes in which none fails: a load of each input, the trial of a name, and a keep.
fn calls_of(task: &Task<'_>) -> usize {
    let tries = usize::from(task.out.is_some());
    let keeps = usize::from(task.made.is_some());
    task.reads.len().saturating_add(tries + keeps)
}

/// The run of a task over a shelf whose call of this number fails for this reason, and that shelf.
fn ran_over<H: Threads + Wait + Sync>(
    rt: &H,
    alloc: Global,
    task: &Task<'_>,
    call: usize,
    why: ShelfFault,
) -> Result<(Ended, FailingShelf), AllocError> {
    let mut shelf = FailingShelf::new(MemShelf::of(alloc, &FILES)?, call as u64, why);
    let mut reader = b"".as_slice();
    let ended = ran(rt, alloc, task.words, &mut shelf, &mut reader)?;
    Ok((ended, shelf))
}

/// What is said where the call of this number fails for this reason, and the status.
fn fault_at(
    alloc: Global,
    task: &Task<'_>,
    call: usize,
    why: ShelfFault,
) -> Result<(String, u8), AllocError> {
    let out = task.out.unwrap_or("");
    let line = match (why, task.reads.get(call)) {
        (ShelfFault::Memory, _) => return Ok((String::from_str(alloc, "no memory\n")?, 3)),
        (ShelfFault::Device, Some(name)) => format!(in alloc; "fault read {name}\n")?,
        (ShelfFault::Size, Some(name)) => format!(in alloc; "fault size {name}\n")?,
        (_, None) => format!(in alloc; "fault write {out}\n")?,
    };
    Ok((line, 2))
}

/// All files are as before, and none was made.
fn are_as_before(files: &MemShelf) -> bool {
    let is_kept = FILES
        .iter()
        .all(|(name, bytes)| files.get(name) == Some(*bytes));
    is_kept && files.get("made").is_none()
}

/// A call that fails is told alone, and is the last one; and the files are as before.
fn expect_fault<H: Threads + Wait + Sync + Abort>(
    rt: &H,
    alloc: Global,
    task: &Task<'_>,
    call: usize,
    why: ShelfFault,
) -> Result<(), Fail> {
    let (line, status) = fault_at(alloc, task, call, why)?;
    let (ended, shelf) = ran_over(rt, alloc, task, call, why)?;
    ended.expect(line.as_bytes(), status)?;
    same_for(rt, &shelf.calls(), &(call as u64).saturating_add(1), &why);
    holds_for(rt, are_as_before(shelf.files()), &(why, "at call", call));
    Ok(())
}

/// The run of a task in which nothing fails says its lines by no more calls.
fn expect_calls<H: Threads + Wait + Sync + Abort>(
    rt: &H,
    alloc: Global,
    task: &Task<'_>,
) -> Result<(), Fail> {
    let lines = task.lines(alloc)?;
    let (ended, shelf) = ran_over(rt, alloc, task, 99, ShelfFault::Device)?;
    ended.expect(lines.as_bytes(), task.status)?;
    same_for(rt, &shelf.calls(), &(calls_of(task) as u64), &task.words);
    Ok(())
}

#[test]
fn a_call_of_a_shelf_that_fails_is_told_alone_and_is_the_last(rt: HostRuntime) -> Result<(), Fail> {
    for task in &TASKS {
        expect_calls(&rt, rt.alloc(), task)?;
        for call in 0..calls_of(task) {
            for why in [ShelfFault::Device, ShelfFault::Size, ShelfFault::Memory] {
                expect_fault(&rt, rt.alloc(), task, call, why)?;
            }
        }
    }
    Ok(())
}

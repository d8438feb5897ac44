//! Runs in memory, by the function whose contract supposes nothing of shelf and streams.

use crate::runs::owned;
use crate::same::{holds_for, same, same_for};
use crate::tasks::{FILES, TASKS, Task};
use byte_io::memory::MemShelf;
use pdb_program::{MemoryRun, run_in_memory};
use std::alloc::{AllocError, Global};
use std::process::Abort;
use std::sync::Wait;
use std::test::Fail;
use std::thread::Threads;

/// A run of these words over the files and this input.
fn ran_on<H: Threads + Wait + Sync>(
    rt: &H,
    alloc: Global,
    words: &[&str],
    input: &[u8],
) -> Result<MemoryRun, AllocError> {
    let files = MemShelf::of(alloc, &FILES)?;
    let words = owned(alloc, words)?;
    Ok(run_in_memory(rt, alloc, words, files, input))
}

/// The run of a task says its lines, and what it makes is among the files.
fn expect_task<H: Threads + Wait + Sync + Abort>(
    rt: &H,
    alloc: Global,
    task: &Task<'_>,
) -> Result<(), Fail> {
    let run = ran_on(rt, alloc, task.words, b"")?;
    let lines = task.lines(alloc)?;
    same_for(rt, &run.output.as_slice(), &lines.as_bytes(), &task.words);
    same_for(rt, &run.status, &task.status, &task.words);
    let is_kept = run.files.get(task.out.unwrap_or("")) == task.made;
    holds_for(rt, is_kept, &task.words);
    Ok(())
}

#[test]
fn answers_are_those_over_any_shelf(rt: HostRuntime) -> Result<(), Fail> {
    for task in &TASKS {
        expect_task(&rt, rt.alloc(), task)?;
    }
    let run = ran_on(&rt, rt.alloc(), &["replay"], b"1 0 2 3 ; L")?;
    same(&rt, &run.output.as_slice(), &b"solution 1\n".as_slice());
    same(&rt, &run.status, &0);
    Ok(())
}

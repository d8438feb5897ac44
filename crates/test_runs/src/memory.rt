//! Want of memory, to be run with each allocation refused in turn (`rt try --test --fail-alloc N`).

use crate::runs::{Ended, ran};
use crate::tasks::{FILES, TASKS, Task};
use byte_io::memory::MemShelf;
use std::alloc::{AllocError, Global};
use std::sync::Wait;
use std::test::Fail;
use std::thread::Threads;

/// The run of a task, and the shelf that it leaves.
fn ran_on<H: Threads + Wait + Sync>(
    rt: &H,
    alloc: Global,
    task: &Task<'_>,
) -> Result<(Ended, MemShelf), AllocError> {
    let mut shelf = MemShelf::of(alloc, &FILES)?;
    let mut reader = b"".as_slice();
    let ended = ran(rt, alloc, task.words, &mut shelf, &mut reader)?;
    Ok((ended, shelf))
}

/// The same, and a second run where memory was wanted before the first began.
fn ran_at_last<H: Threads + Wait + Sync>(
    rt: &H,
    alloc: Global,
    task: &Task<'_>,
) -> Result<(Ended, MemShelf), AllocError> {
    match ran_on(rt, alloc, task) {
        Ok(ran) => Ok(ran),
        Err(_) => ran_on(rt, alloc, task),
    }
}

/// A run says its last lines; or that there is no memory, alone, and leaves the files, and the next one says the lines.
fn expect_or_no_memory<H: Threads + Wait + Sync>(
    rt: &H,
    alloc: Global,
    task: &Task<'_>,
) -> Result<(), Fail> {
    let (ended, shelf) = ran_at_last(rt, alloc, task)?;
    if ended.status != 3 {
        return ended.expect_last(task.last.as_bytes(), task.status);
    }
    ended.expect(b"no memory\n", 3)?;
    for (name, bytes) in FILES {
        if shelf.get(name) != Some(bytes) || shelf.get("made").is_some() {
            return Err(Fail::new("the files are others"));
        }
    }
    let (ended, _) = ran_on(rt, alloc, task)?;
    ended.expect_last(task.last.as_bytes(), task.status)
}

#[test]
fn want_of_memory_stands_alone_or_changes_no_line(rt: HostRuntime) -> Result<(), Fail> {
    for task in &TASKS {
        expect_or_no_memory(&rt, rt.alloc(), task)?;
    }
    Ok(())
}

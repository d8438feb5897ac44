//! Runs of each command over a shelf that fails.

use crate::commands::{Command, FILES, ended, io_over};
use crate::same::{holds_for, same, same_for};
use byte_io::memory::MemShelf;
use pdb_run::Status;
use std::alloc::{AllocGlobal, Global};
use std::process::Abort;
use std::sync::Wait;
use std::test::Fail;
use std::thread::Threads;
use test_samples::{FailingShelf, ShelfFault};
use work_run::{OpenGate, Workers};

/// The number of a shelf's call that fails, why it does, and the line that a run says then.
#[derive(Clone, Copy)]
struct Failure<'a> {
    call: u64,
    why: ShelfFault,
    line: &'a [u8],
}

/// A command's run with this failure ends there, says its line alone and leaves all files.
fn expect_fault<H: Threads + Wait + Sync + Abort>(
    rt: &H,
    alloc: Global,
    command: Command,
    failure: &Failure<'_>,
) -> Result<(), Fail> {
    let Failure { call, why, line } = *failure;
    let mut shelf = FailingShelf::new(MemShelf::of(alloc, &FILES)?, call, why);
    let mut reader = b"".as_slice();
    let mut out = Vec::new(alloc);
    let mut io = io_over(&mut shelf, &mut reader, &mut out);
    let status = ended(&Workers::new(rt, alloc, 1, &OpenGate), command, &mut io)?;
    let want = match why {
        ShelfFault::Memory => Status::NoMemory,
        _ => Status::Fault,
    };
    same(rt, &status, &want);
    same_for(rt, &out.as_slice(), &line, &(why, "at call", call));
    same(rt, &shelf.calls(), &call.saturating_add(1));
    for (name, bytes) in FILES {
        holds_for(rt, shelf.files().get(name) == Some(bytes), &name);
    }
    Ok(())
}

/// A command's run with each fault of a call that reads an input of this name ends there.
fn expect_faults<H: AllocGlobal + Threads + Wait + Sync + Abort>(
    rt: &H,
    command: Command,
    call: u64,
    name: &str,
) -> Result<(), Fail> {
    let alloc = rt.alloc();
    let unread = format!(in alloc; "fault read {name}\n")?;
    let too_long = format!(in alloc; "fault size {name}\n")?;
    for (why, line) in [
        (ShelfFault::Device, unread.as_bytes()),
        (ShelfFault::Size, too_long.as_bytes()),
        (ShelfFault::Memory, b"no memory\n"),
    ] {
        expect_fault(rt, alloc, command, &Failure { call, why, line })?;
    }
    Ok(())
}

#[test]
fn an_input_that_can_not_be_read_is_told_alone(rt: HostRuntime) -> Result<(), Fail> {
    let cases: [(Command, &[&str]); 7] = [
        (Command::Replay, &["puzzle"]),
        (Command::Table, &["f12"]),
        (Command::Bound, &["board", "sets", "log", "f12", "f3"]),
        (Command::Optimal, &["puzzle", "sets", "log", "f12", "f3"]),
        (Command::Solve, &["next", "sets", "f12", "f3"]),
        (Command::Prove, &["puzzle", "sets", "f12", "f3"]),
        (Command::Parts, &["board", "answers"]),
    ];
    for (command, names) in cases {
        for (call, name) in names.iter().enumerate() {
            expect_faults(&rt, command, call as u64, name)?;
        }
    }
    Ok(())
}

#[test]
fn what_can_not_be_kept_is_told_alone(rt: HostRuntime) -> Result<(), Fail> {
    // A search reads four inputs. Of both commands first the trial of the name fails, and then the keeping.
    for (command, call) in [
        (Command::MakeTable, 0),
        (Command::MakeTable, 1),
        (Command::Solve, 4),
        (Command::Solve, 5),
    ] {
        for (why, line) in [
            (ShelfFault::Device, b"fault write o\n".as_slice()),
            (ShelfFault::Memory, b"no memory\n"),
        ] {
            expect_fault(&rt, rt.alloc(), command, &Failure { call, why, line })?;
        }
    }
    Ok(())
}

//! Whole runs of each command over files in memory, and what each says and keeps.

ghost use Rattle.std.specs.Prelude.{◌≡◌, IfOk};

use crate::bytes::joined;
use crate::same::{holds_for, same, same_bytes};
use crate::sha256;
use byte_io::memory::MemShelf;
use pdb_check::{run_log_check, run_replay, run_table};
use pdb_keep::{run_make_table, run_solve};
use pdb_parts::run_parts;
use pdb_prove::run_prove;
use pdb_request::{JoinParts, LogCheck, LogClaim, MakeTable, Prove, Replay, Solve, TableCheck};
use pdb_run::{BorrowedIo, Io, Status};
use puz_goal::Goal;
use std::alloc::{AllocError, AllocGlobal, Global};
use std::process::Abort;
use std::sync::Wait;
use std::test::Fail;
use std::thread::Threads;
use test_samples::files::{TILE_3, TILES_12};
use test_samples::logs::BRANCHES;
use work_run::{OpenGate, Workers};

/// The names of the files here and their bytes.
pub(crate) const FILES: [(&str, &[u8]); 9] = [
    ("board", b"3 2 1 0"),
    ("next", b"1 0 2 3"),
    ("puzzle", b"3 2 1 0 ; ULDRUL"),
    ("answers", b"part 0/1 of bound 6 of 3 2 1 0\n"),
    ("sets", b"set 0\n"),
    ("log", &BRANCHES),
    ("f12", &TILES_12),
    ("f3", &TILE_3),
    ("o", b"what stood here"),
];

/// A command over these files.
#[derive(Clone, Copy, Debug, PartialEq, Eq)]
pub(crate) enum Command {
    Replay,
    Table,
    Bound,
    Optimal,
    Solve,
    MakeTable,
    Prove,
    Parts,
}

/// The check of the log, of what is claimed of a text of this name.
fn check_of(
    alloc: Global,
    claim: LogClaim,
    text: &'static str,
) -> Result<LogCheck<&'static str>, AllocError> {
    Ok(LogCheck {
        claim,
        text,
        sets: "sets",
        log: "log",
        tables: vec![in alloc; "f12", "f3"]?,
        workers: 1,
        fold: false,
        goal: Goal::First,
    })
}

/// A search on the board one move away, whose log is to be kept as `o`.
fn search(alloc: Global) -> Result<Solve<'static, &'static str>, AllocError> {
    Ok(Solve {
        board: "next",
        sets: "sets",
        out: "o",
        replace: true,
        tables: vec![in alloc; "f12", "f3"]?,
        workers: 1,
        fold: false,
        goal: Goal::First,
        budget: 1_000,
    })
}

/// A claim on the moves of the puzzle, which is to be proved.
fn proving(alloc: Global) -> Result<Prove<Option<&'static str>, &'static str>, AllocError> {
    Ok(Prove {
        claims: Some("puzzle"),
        sets: "sets",
        tables: vec![in alloc; "f12", "f3"]?,
        workers: 1,
        fold: false,
        goal: Goal::First,
        budget: None,
    })
}

/// A bound in one part.
fn parts(alloc: Global) -> Result<JoinParts<Option<&'static str>, &'static str>, AllocError>
    ensures { IfOk result (λ parts. parts.count ≡ 1) }
{
    Ok(JoinParts {
        board: Some("board"),
        bound: 6,
        count: 1,
        answers: vec![in alloc; "answers"]?,
        goal: Goal::First,
    })
}

/// A table that is to be made and kept as `o`.
const PATTERN: MakeTable<'static> = MakeTable {
    side: 2,
    mask: 6,
    out: "o",
    replace: true,
    workers: 1,
};

/// The table of the tiles 1 and 2.
const TABLE: TableCheck<'static> = TableCheck {
    file: "f12",
    workers: 1,
};

/// The end of a command's run.
pub(crate) fn ended<H: Threads + Wait + Sync, I: Io>(
    workers: &Workers<'_, H, OpenGate>,
    command: Command,
    io: &mut I,
) -> Result<Status, AllocError> {
    let alloc = workers.alloc;
    let puzzle = Some("puzzle");
    let goal = Goal::First;
    let ended = match command {
        Command::Replay => run_replay(alloc, Replay { puzzle, goal }, io),
        Command::Table => run_table(&TABLE, workers, io),
        Command::Bound => run_log_check(&check_of(alloc, LogClaim::Bound, "board")?, workers, io),
        Command::Optimal => {
            run_log_check(&check_of(alloc, LogClaim::Optimum, "puzzle")?, workers, io)
        }
        Command::Solve => run_solve(&search(alloc)?, workers, io),
        Command::MakeTable => run_make_table(&PATTERN, workers, io),
        Command::Prove => run_prove(&proving(alloc)?, workers, io),
        Command::Parts => run_parts(alloc, &parts(alloc)?, io, &mut Vec::new(alloc)),
    };
    Ok(ended.status)
}

/// A run's shelf, its reader and its output, as one.
pub(crate) fn io_over<'s, 'r, 'o, S, R, W>(
    shelf: &'s mut S,
    reader: &'r mut R,
    out: &'o mut W,
) -> BorrowedIo<'s, 'r, 'o, S, R, W> {
    BorrowedIo { shelf, reader, out }
}

/// Ends the test where a command, by some workers, doesn't say these lines with a yes, or something else stands under `o` then.
fn expect_yes<H: AllocGlobal + Threads + Wait + Sync + Abort>(
    rt: &H,
    command: Command,
    lines: &[&[u8]],
    kept: &[u8],
) -> Result<(), Fail> {
    let alloc = rt.alloc();
    for count in [1u8, 2, 7] {
        let workers = Workers::new(rt, alloc, count, &OpenGate);
        let mut shelf = MemShelf::of(alloc, &FILES)?;
        let mut reader = b"".as_slice();
        let mut out = Vec::new(alloc);
        let mut io = io_over(&mut shelf, &mut reader, &mut out);
        same(rt, &ended(&workers, command, &mut io)?, &Status::Yes);
        same_bytes(rt, out.as_slice(), joined(alloc, lines)?.as_slice());
        holds_for(rt, shelf.get("o") == Some(kept), &(command, count));
    }
    Ok(())
}

/// The log of that search: a leaf, since the set says 1.
const ONE_MOVE: &[u8] = b"PDBL\x02\x02\0\0\0\x01\x01\0\x02\x03\x01\0\0\0\x01\x01";

const EXACT: &[u8] = b"exact side 2 mask 6 entries 24 unreachable 8 deepest 4\n";

#[test]
fn each_command_comes_to_its_yes(rt: HostRuntime) -> Result<(), Fail> {
    let (f12, f3, log) = (sha256::OF_12, sha256::OF_3, sha256::OF_BRANCHES);
    let (one_move, puzzle) = (sha256::OF_ONE_MOVE, sha256::OF_PUZZLE);
    let old = b"what stood here".as_slice();
    let cases: [(Command, &[&[u8]], &[u8]); 8] = [
        (Command::Replay, &[b"solution 6\n"], old),
        (Command::Table, &[f12, EXACT], old),
        (Command::Bound, &[f12, f3, log, b"bound 6\n"], old),
        (Command::Optimal, &[f12, f3, log, b"optimal 6\n"], old),
        (
            Command::Solve,
            &[f12, f3, one_move, b"moves L\noptimal 1\n"],
            ONE_MOVE,
        ),
        (Command::MakeTable, &[f12, EXACT], &TILES_12),
        (
            Command::Prove,
            &[f12, f3, puzzle, b"optimal 6 of 3 2 1 0 ; ULDRUL\n"],
            old,
        ),
        (
            Command::Parts,
            &[
                b"sha256 e0be5a9b6d557bd5db86ac8d7d9effbaad5279b9ea5f2974b8ae808db6c99d41\n",
                b"joined bound 6 of 3 2 1 0 from 1 parts, by lines that were read\n",
            ],
            old,
        ),
    ];
    for (command, lines, kept) in cases {
        expect_yes(&rt, command, lines, kept)?;
    }
    Ok(())
}

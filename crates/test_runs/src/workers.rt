//! Workers who really share their work: a gate holds jobs until others were entered.

use crate::runs::ran_parted;
use crate::same::holds_for;
use byte_io::memory::MemShelf;
use pdb_program::RunHost;
use std::alloc::{AllocError, Global};
use std::process::Abort;
use std::sync::Wait;
use std::test::Fail;
use std::thread::Threads;
use test_samples::files::{FOURTEEN_BLOCKS, TILES_12};
use test_samples::logs::CITATION;
use test_samples::{HoldingGate, LeastCosts};

/// The files of all runs here: 14 blocks whose entries all say that no walk leads home, a table of two blocks, and those of side 2,
/// whose tables have one.
fn files(alloc: Global) -> Result<MemShelf, AllocError> {
    let mut blocks = FOURTEEN_BLOCKS.to_vec(alloc)?;
    blocks.resize(13_460, 0xFF)?;
    let three = LeastCosts::new(alloc, &[1, 2, 3])?.table(alloc)?;
    let files: [(&str, &[u8]); 9] = [
        ("blocks", blocks.as_slice()),
        ("three", three.as_slice()),
        ("near", b"1 0 2 3 4 5 6 7 8"),
        ("board", b"3 2 1 0"),
        ("puzzle", b"3 2 1 0 ; ULDRUL"),
        ("claims", b"3 2 1 0 : 7\n1 0 2 3\n"),
        ("sets", b"set 0\n"),
        ("log", &CITATION),
        ("f12", &TILES_12),
    ];
    MemShelf::of(alloc, &files)
}

/// The words of a run, the jobs that its workers have at once, where these stand among all jobs, its last line, and its status.
type Case<'a> = (&'a str, &'a [u64], (u64, u64), &'a [u8], u8);

const CASES: [Case<'static>; 6] = [
    (
        "table blocks --workers 4",
        &[0, 1, 2, 3],
        (0, 14),
        b"refused T7 at entry 1\n",
        1,
    ),
    // The first job of all is the table's, and those behind it are the lemmas'.
    (
        "bound board sets log f12 --workers 2",
        &[0, 1],
        (1, 3),
        b"bound 6\n",
        0,
    ),
    (
        "optimal puzzle sets log f12 --workers 2",
        &[0, 1],
        (1, 3),
        b"optimal 6\n",
        0,
    ),
    (
        "make-table 3 14 made --workers 2",
        &[0, 1],
        (0, 2),
        b"exact side 3 mask 14 entries 2016 unreachable 0 deepest 12\n",
        0,
    ),
    (
        "solve near sets made three --workers 2",
        &[0, 1],
        (0, 2),
        b"moves L\noptimal 1\n",
        0,
    ),
    // Those behind it are the claims'.
    (
        "prove claims sets f12 --workers 2",
        &[0, 1],
        (1, 3),
        b"optimal 1 of 1 0 2 3 ; L\n",
        1,
    ),
];

/// All workers that are asked for are in their jobs at once, and the run says its last line.
fn expect_side_by_side<H: Threads + Wait + Sync + Abort>(
    rt: &H,
    alloc: Global,
    case: Case<'_>,
) -> Result<(), Fail> {
    let (words, jobs, (from, to), last, status) = case;
    let mut shelf = files(alloc)?;
    let gate = &HoldingGate::new(jobs, jobs).among(from..to);
    ran_parted(&RunHost { rt, alloc, gate }, words, &mut shelf)?.expect_last(last, status)?;
    holds_for(rt, gate.saw_all(), &words);
    Ok(())
}

#[test]
fn as_many_workers_are_at_work_at_once_as_are_asked_for(rt: HostRuntime) -> Result<(), Fail> {
    for case in CASES {
        expect_side_by_side(&rt, rt.alloc(), case)?;
    }
    Ok(())
}

//! One worked example for each kind of inputs: the verdict, and the bytes that tell it.

ghost use Rattle.std.specs.Prelude.{◌<◌, ◌≤◌};

use crate::bytes::joined;
use crate::same::same_bytes;
use crate::sha256;
use pdb_verdict::{Inputs, Verdict, digests, line, report, verify, verify_puzzle};
use puz_goal::Goal;
use std::alloc::AllocGlobal;
use std::process::Abort;
use std::sync::Wait;
use std::test::Fail;
use std::thread::Threads;
use test_samples::HoldingGate;
use test_samples::files::{TILE_3, TILES_12};
use test_samples::logs::{BRANCHES, CITATION};
use work_run::OpenGate;

/// Ends the test where the answer on the inputs, by so many workers, is told by other bytes than these digest lines and this line.
fn expect_tells<H: AllocGlobal + Threads + Wait + Abort>(
    rt: &H,
    inputs: &Inputs<'_>,
    workers: u8,
    lines: (&[u8], &[u8]),
) -> Result<(), Fail>
    requires { (0 < workers) × (workers ≤ 64) }
{
    let (digest_lines, line) = lines;
    let answer = verify(rt, rt.alloc(), &inputs, workers, &OpenGate);
    let mut out = Vec::new(rt.alloc());
    assert!(rt; report(inputs, &answer, &mut out).is_ok());
    let wanted = joined(rt.alloc(), &[digest_lines, line])?;
    same_bytes(rt, out.as_slice(), wanted.as_slice());
    out.clear();
    assert!(rt; digests(inputs, &mut out).is_ok());
    same_bytes(rt, out.as_slice(), digest_lines);
    Ok(())
}

#[test]
fn each_kind_of_inputs_has_its_verdict(rt: HostRuntime) -> Result<(), Fail> {
    let alloc = rt.alloc();
    let tables = vec![in alloc; TILES_12.to_vec(alloc)?, TILE_3.to_vec(alloc)?]?;
    let tables = tables.as_slice();
    let of_log = joined(alloc, &[sha256::OF_12, sha256::OF_3, sha256::OF_BRANCHES])?;
    let of_log = of_log.as_slice();
    let (sets, log) = (b"set 0 1\n".as_slice(), BRANCHES.as_slice());
    for fold in [false, true] {
        let bound = Inputs::Bound {
            board: b"3 2 1 0",
            sets,
            log,
            tables,
            fold,
            goal: Goal::First,
        };
        let optimal = Inputs::Optimal {
            puzzle: b"3 2 1 0 ; ULDRUL",
            sets,
            log,
            tables,
            fold,
            goal: Goal::First,
        };
        for workers in [1u8, 2, 7, 64] {
            expect_tells(&rt, &bound, workers, (of_log, b"bound 6\n"))?;
            expect_tells(&rt, &optimal, workers, (of_log, b"optimal 6\n"))?;
        }
    }
    let table = Inputs::Table { table: &TILES_12 };
    let exact = b"exact side 2 mask 6 entries 24 unreachable 8 deepest 4\n";
    expect_tells(&rt, &table, 7, (sha256::OF_12, exact))?;
    let replay = Inputs::Replay {
        puzzle: b"3 2 1 0 ; ULDRUL\n",
        goal: Goal::First,
    };
    expect_tells(&rt, &replay, 1, (b"", b"solution 6\n"))
}

#[test]
fn a_puzzle_text_has_its_line(rt: HostRuntime) -> Result<(), Fail> {
    let mut out = Vec::new(rt.alloc());
    assert!(rt; line(&verify_puzzle(Goal::First, b"0 1 2 x ;u"), &mut out).is_ok());
    same_bytes(&rt, out.as_slice(), b"refused B1 at byte 6\n");
    Ok(())
}

#[test]
fn two_workers_check_lemmas_side_by_side(rt: HostRuntime) -> Result<(), Fail> {
    let alloc = rt.alloc();
    let tables = vec![in alloc; TILES_12.to_vec(alloc)?]?;
    let inputs = Inputs::Bound {
        board: b"3 2 1 0",
        sets: b"set 0\n",
        log: &CITATION,
        tables: tables.as_slice(),
        fold: false,
        goal: Goal::First,
    };
    // The first job of all is the table's.
    let gate = HoldingGate::new(&[0], &[1]).among(1..u64::MAX);
    let answer = verify(&rt, alloc, &inputs, 2, &gate);
    assert!(rt; answer == Ok(Verdict::Bound(6)) && gate.saw_all());
    Ok(())
}

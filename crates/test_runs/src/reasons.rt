//! What is said why a run ended without a yes.

use crate::asked::{bound, search};
use crate::same::{same, same_for};
use byte_io::memory::MemShelf;
use pdb_reason::{Beginning, Reason};
use pdb_run::Cause;
use pdb_verdict::Fault;
use set_sum::SetFault;
use std::test::Fail;
use tab_file::HeadFault;
use tab_rule::TableRefusal;

#[test]
fn a_reason_has_its_sentence(rt: HostRuntime) -> Result<(), Fail> {
    let asked = bound(rt.alloc(), &["t0", "t1"])?;
    let wrong =
        "what the program made is wrong, as its own check found, and is not kept: please report this";
    let cases = [
        (
            Cause::Refused(Fault::TableOf(1, TableRefusal::Head(HeadFault::T2))),
            "t1: a table file begins with `PDBT` and a byte 1. It begins as a log does: is a word left out before it?",
        ),
        (
            Cause::Refused(Fault::K1(Some(1))),
            "the budget of boards is spent: `--budget N` allows more",
        ),
        (
            Cause::Refused(Fault::K1(Some(2))),
            "the budget of boards is spent: `--budget N` allows more. The searches that ended found no solution of fewer than 1 moves",
        ),
        (Cause::MadeWrong, wrong),
        (Cause::Unwritten, ""),
        (Cause::Open, ""),
    ];
    for (why, wanted) in cases {
        let told = match Reason::of(&asked, why) {
            Some(reason) => format!(in rt.alloc(); "{}", reason.beginning(Beginning::OfLog))?,
            None => String::from_str(rt.alloc(), "pdb_cli: ")?,
        };
        let told = told.strip_prefix("pdb_cli: ");
        same_for(&rt, &told, &Some(wanted), &why);
    }
    let reason = Reason::of(&asked, Cause::Refused(Fault::Sets(SetFault::S1(0))));
    let name = reason.and_then(|reason| reason.name());
    same(&rt, &name, &Some("sets"));
    Ok(())
}

#[test]
fn a_file_that_is_spared_is_named(rt: HostRuntime) -> Result<(), Fail> {
    let asked = search(rt.alloc())?;
    let shelf = MemShelf::of(rt.alloc(), &[("out", b"PDBT\x01 ..")])?;
    let reason = Reason::of(&asked, Cause::Spared("out")).ok_or("a reason")?;
    let told = format!(in rt.alloc(); "{}", reason.on_shelf(&asked, &shelf).ahead())?;
    let wanted =
        "pdb_cli: this run can't end in a yes: out: a table is there, or what can't be read, so no log takes its place: `--replace` allows that";
    same(&rt, &told.as_str(), &wanted);
    Ok(())
}

#[test]
fn beginnings_of_files(rt: HostRuntime) {
    let cases: [(&[u8], Beginning); 9] = [
        (b"PDBT\x01\x02", Beginning::OfTable),
        (b"PDBL", Beginning::OfLog),
        (b"PDB", Beginning::OfAny),
        (b"", Beginning::OfAny),
        (b"1 2 3 00 ; ULDR\n", Beginning::OfBoardSolvedLast),
        (b"2 1 3 0", Beginning::OfBoardWithBlankLast),
        (b"3 2 1 10", Beginning::OfAny),
        (b"0 1 2 3 ; U 0", Beginning::OfAny),
        (b"\xff 0", Beginning::OfAny),
    ];
    for (bytes, beginning) in cases {
        same(&rt, &Beginning::of(bytes), &beginning);
    }
}

//! What words ask for: an example of each command.

use crate::same::holds_for;
use pdb_request::{
    JoinParts, LogCheck, LogClaim, MakeTable, Prove, Replay, Request, Solve, TableCheck,
};
use pdb_words::read_words;
use puz_goal::Goal;
use std::alloc::{AllocError, AllocGlobal, Global};
use std::process::Abort;
use std::test::Fail;

/// The words of a text, which one space parts, each a text of its own.
fn owned(alloc: Global, words: &str) -> Result<Vec<String>, AllocError> {
    let mut all = Vec::new(alloc);
    for word in words.split(' ') {
        all.push(String::from_str(alloc, word)?)?;
    }
    Ok(all)
}

/// Ends the test where words ask for something else.
fn expect_request<R: AllocGlobal + Abort>(
    rt: &R,
    words: &str,
    wanted: &Request<'_>,
) -> Result<(), AllocError> {
    let alloc = rt.alloc();
    let words = owned(alloc, words)?;
    let read = read_words(alloc, words.as_slice());
    let is_right = matches!(&read, Ok(found) if found == wanted);
    holds_for(rt, is_right, &(&words, &read));
    Ok(())
}

#[test]
fn words_ask_for_what_writes_nothing(rt: HostRuntime) -> Result<(), Fail> {
    let file = "f";
    let puzzle = Some("-");
    let goal = Goal::First;
    expect_request(&rt, "replay -", &Request::Replay(Replay { puzzle, goal }))?;
    let table = TableCheck { file, workers: 64 };
    expect_request(&rt, "table --workers=64 f", &Request::TableCheck(table))?;
    let wanted = Request::LogCheck(LogCheck {
        claim: LogClaim::Optimum,
        text: "p",
        sets: "s",
        log: "l",
        tables: vec![in rt.alloc(); "t", "u"]?,
        workers: 1,
        fold: true,
        goal: Goal::Last,
    });
    expect_request(&rt, "optimal --fold --goal last p s l t u", &wanted)?;
    let wanted = Request::Prove(Prove {
        claims: None,
        sets: "s",
        tables: vec![in rt.alloc(); "-t"]?,
        workers: 7,
        fold: false,
        goal: Goal::First,
        budget: Some(9),
    });
    expect_request(&rt, "prove --budget 9 --workers 7 -- - s -t", &wanted)?;
    let wanted = Request::JoinParts(JoinParts {
        board: Some("./-"),
        bound: 255,
        count: 65_535,
        answers: vec![in rt.alloc(); "-", "a"]?,
        goal: Goal::First,
    });
    expect_request(&rt, "parts ./- 255 65535 - a", &wanted)?;
    Ok(())
}

#[test]
fn words_ask_for_what_is_to_be_kept(rt: HostRuntime) -> Result<(), Fail> {
    let wanted = Request::Solve(Solve {
        board: "b",
        sets: "s",
        out: "o",
        replace: true,
        tables: vec![in rt.alloc(); "t"]?,
        workers: 1,
        fold: false,
        goal: Goal::First,
        budget: 1_000_000,
    });
    expect_request(&rt, "solve b s o t --replace", &wanted)?;
    // Bit t of a mask is that of tile t.
    for (word, mask) in [
        ("30", 30),
        ("0x1E", 30),
        ("tiles:4,1,3,2", 30),
        ("tiles:0,31", 1 << 31 | 1),
    ] {
        let wanted = Request::MakeTable(MakeTable {
            side: 4,
            mask,
            out: "o",
            replace: false,
            workers: 1,
        });
        let words = format!(in rt.alloc(); "make-table 4 {word} o")?;
        expect_request(&rt, words.as_str(), &wanted)?;
    }
    Ok(())
}

//! The refusal that the starts of files tell before a run begins, where they are large, missing or can't be read.

use crate::asked::{bound, search};
use crate::bytes::put_often;
use crate::same::{same, same_for};
use pdb_early::{Look, fault_ahead, takes_long};
use pdb_request::{Replay, Request};
use pdb_verdict::line_of;
use puz_goal::Goal;
use std::alloc::{AllocError, AllocGlobal, Global};
use std::process::Abort;
use std::test::Fail;
use test_samples::files::{FOURTEEN_BLOCKS, TILE_3, TILES_12, with_byte};
use test_samples::logs::LEAF;
use test_samples::{Call, SampleFiles};

/// Files with these names.
type Named<'a> = (&'a str, &'a [u8]);

/// Files with which nothing is wrong but the last line of the set text.
const FILES: [Named<'_>; 5] = [
    ("board", b"3 2 1 0\n"),
    ("sets", b"set 0 1\nset 2\n"),
    ("log", &LEAF),
    ("t0", &TILES_12),
    ("t1", &TILE_3),
];

/// The line that is told of them.
const LINE: &str = "refused S2 at line 1";

/// The line of the refusal that the starts of these files tell of a bound over both tables, or an empty text.
fn told<H: AllocGlobal>(rt: &H, files: &SampleFiles) -> Result<String, Fail> {
    let alloc = rt.alloc();
    let asked = bound(alloc, &["t0", "t1"])?;
    let fault = fault_ahead(&Look { alloc, files }, &asked);
    let line = fault.map(|fault| line_of(&Err(fault)));
    let text = line.as_ref().map_or("", |line| line.trim_end());
    Ok(String::from_str(alloc, text)?)
}

/// Files with nothing wrong, but for those that come behind them under the same names.
fn with_others<'a>(alloc: Global, others: &[Named<'a>]) -> Result<Vec<Named<'a>>, AllocError> {
    let mut files: Vec<Named<'a>> = Vec::new(alloc);
    for (name, bytes) in FILES {
        files.push((name, bytes))?;
    }
    files.push(("sets", b"set 0 1\n"))?;
    files.extend_from_slice(others)?;
    Ok(files)
}

/// Ends the test where another line is told where a file has so many zeros behind its front, and nothing is wrong with the set text.
fn expect_told_of_large<H: AllocGlobal + Abort>(
    rt: &H,
    (name, front): Named<'_>,
    zeros: usize,
    wanted: &str,
) -> Result<(), Fail> {
    let alloc = rt.alloc();
    let mut file = front.to_vec(alloc)?;
    put_often(&mut file, zeros, b"\0")?;
    let named = with_others(alloc, &[(name, file.as_slice())])?;
    let files = SampleFiles::new(alloc, named.as_slice())?;
    same(rt, &told(rt, &files)?.as_str(), &wanted);
    Ok(())
}

#[test]
fn of_large_files_the_starts_and_the_sizes_are_seen(rt: HostRuntime) -> Result<(), Fail> {
    let (of_side_3, no_board) = (with_byte(&LEAF, 5, 3), with_byte(&LEAF, 10, 2));
    let cases: [(Named<'_>, usize, &str); 5] = [
        (("log", &LEAF), 5_000, ""),
        (("log", &no_board), 5_000, ""),
        (("log", &of_side_3), 5_000, "refused L4"),
        (("t1", &FOURTEEN_BLOCKS), 13_440, "refused S4 at table 1"),
        (("t1", &FOURTEEN_BLOCKS), 13_439, "refused T6 of table 1"),
    ];
    for (file, zeros, line) in cases {
        expect_told_of_large(&rt, file, zeros, line)?;
    }
    Ok(())
}

#[test]
fn of_files_that_are_not_seen_nothing_is_told(rt: HostRuntime) -> Result<(), Fail> {
    for without in 0..FILES.len() {
        let mut seen = FILES.to_vec(rt.alloc())?;
        seen.remove(without);
        let files = SampleFiles::new(rt.alloc(), seen.as_slice())?;
        let line = if without == 1 { "" } else { LINE };
        same_for(&rt, &told(&rt, &files)?.as_str(), &line, &without);
    }
    Ok(())
}

#[test]
fn files_are_read_alone_and_where_a_call_fails_less_is_told(rt: HostRuntime) -> Result<(), Fail> {
    let files = SampleFiles::new(rt.alloc(), &FILES)?;
    same(&rt, &told(&rt, &files)?.as_str(), &LINE);
    let calls = files.calls()?;
    for call in &calls {
        assert!(rt; matches!(call, Call::Look | Call::Open | Call::Read));
    }
    let mut silent = 0_usize;
    for failing in 0..calls.len() as u64 {
        let files = SampleFiles::new(rt.alloc(), &FILES)?;
        files.fail(failing, failing.saturating_add(1));
        let told = told(&rt, &files)?;
        assert!(rt; told.is_empty() || told.as_str() == LINE);
        silent = silent.saturating_add(usize::from(told.is_empty()));
    }
    // The calls that read the set text are few of them.
    assert!(rt; 0 < silent && silent < 10 && calls.len() > 15);
    Ok(())
}

/// The least number of bytes of tables whose check may take long.
const MANY: usize = 4_194_304;

/// A file of many bytes, one of half as many, one of one less, and a folder.
fn large_files(alloc: Global) -> Result<SampleFiles, AllocError> {
    let bytes = vec![in alloc; 0_u8; MANY]?;
    let bytes = bytes.as_slice();
    SampleFiles::new(
        alloc,
        &[
            ("t0", bytes),
            ("less", &bytes[1..]),
            ("half", &bytes[MANY / 2..]),
            ("folder/", b""),
        ],
    )
}

/// Ends the test where a run over these two tables may take long though this isn't wanted, or the other way round.
fn expect_long<R: AllocGlobal + Abort>(
    rt: &R,
    files: &SampleFiles,
    tables: [&str; 2],
    wanted: bool,
) -> Result<(), AllocError> {
    let asked = bound(rt.alloc(), &tables)?;
    same_for(rt, &takes_long(files, &asked), &wanted, &tables);
    Ok(())
}

#[test]
fn tables_of_many_bytes_may_take_long(rt: HostRuntime) -> Result<(), Fail> {
    let files = large_files(rt.alloc())?;
    for (tables, wanted) in [
        (["t0", "no file"], true),
        (["less", "no file"], false),
        (["half", "half"], true),
        (["folder/", "no file"], true),
        (["no file", "no file"], false),
    ] {
        expect_long(&rt, &files, tables, wanted)?;
    }
    let replay = Request::Replay(Replay {
        puzzle: Some("t0"),
        goal: Goal::First,
    });
    assert!(rt; takes_long(&files, &search(rt.alloc())?));
    assert!(rt; !takes_long(&files, &replay));
    Ok(())
}

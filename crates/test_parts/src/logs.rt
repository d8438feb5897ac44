//! Logs that were worked out by hand, and the gate that workers pass who check one.

use crate::bundles::over_one;
use crate::same::{same, same_for};
use log_check::{LogFault, LogRefusal, check_lemma, check_log, check_log_by};
use log_file::LogView;
use puz_board::Board;
use set_sum::Bundle;
use std::alloc::{AllocError, Global};
use std::test::Fail;
use test_samples::boards::RING;
use test_samples::files::{TILE_1, TILES_12, TILES_123, with_byte};
use test_samples::logs::{BY_PARITY, CITATION, LEAF, deepest, too_deep};
use test_samples::{HoldingGate, Log};
use work_run::{OpenGate, Workers};

#[test]
fn lemmas_are_read_in_their_order(rt: HostRuntime) {
    let log = LogView::read(rt.alloc(), &CITATION)
        .ok()
        .expect(&rt, "a log");
    same(
        &rt,
        &(log.version(), log.side().get(), log.len()),
        &(1, 2, 2),
    );
    let lemmas: [([u8; 4], u8, &[u8]); 2] = [
        ([3, 0, 1, 2], 5, b"\0\x01\0\0\0\x01"),
        ([3, 2, 1, 0], 6, b"\0\x20\0\0\0\0\0\0\0\0\x01"),
    ];
    for (i, (cells, bound, tree)) in (0..log.len()).zip(lemmas) {
        assert!(rt; i < log.len());
        same(&rt, &Some(log.board(i)), &Board::from_cells(&cells));
        same(&rt, &(log.bound(i), log.tree(i)), &(bound, tree));
    }
}

/// Whether a lemma of a log is good over a bundle.
fn is_good(bundle: &Bundle<'_>, log: &LogView<'_>, lemma: u32) -> Option<bool> {
    if lemma < log.len() && log.side() == bundle.side() {
        Some(check_lemma(log, bundle, lemma))
    } else {
        None
    }
}

#[test]
fn a_lemma_may_cite_one_before_it(rt: HostRuntime) {
    let bundle = over_one(&rt, &TILES_12);
    let of_itself = with_byte(&CITATION, 39, 1);
    for (file, wanted) in [(&CITATION, true), (&of_itself, false)] {
        let log = LogView::read(rt.alloc(), file).ok().expect(&rt, "a log");
        same(&rt, &is_good(&bundle, &log, 0), &Some(true));
        same(&rt, &is_good(&bundle, &log, 1), &Some(wanted));
    }
}

/// A log that is refused because of a lemma.
fn refused(lemma: u32) -> Result<u8, LogFault> {
    Err(LogFault::Refused(LogRefusal::L6(lemma)))
}

#[test]
fn worked_logs_prove_their_bounds(rt: HostRuntime) -> Result<(), Fail> {
    let (deepest, too_deep) = (deepest(rt.alloc())?, too_deep(rt.alloc())?);
    let unsolvable = [0, 1, 3, 2];
    let logs: [(&[u8], &[u8], [u8; 4], Result<u8, LogFault>); 5] = [
        (&TILES_123, &LEAF, RING[6], Ok(6)),
        (&TILES_12, &CITATION, RING[6], Ok(6)),
        (&TILES_12, &BY_PARITY, RING[6], Ok(6)),
        // A branch over two chains of 254 branches, and then one branch more.
        (&TILE_1, &deepest, unsolvable, Ok(255)),
        (&TILE_1, &too_deep, unsolvable, refused(0)),
    ];
    for (table, log, numbers, wanted) in logs {
        let bundle = over_one(&rt, table);
        let board = Board::from_cells(&numbers).expect(&rt, "a board");
        for workers in [1, 7] {
            let answer = check_log(&rt, rt.alloc(), &bundle, log, &board, workers, &OpenGate);
            same_for(&rt, &answer, &wanted, &(log, workers));
        }
    }
    Ok(())
}

/// A log of so many lemmas of one board: the first has a leaf, and each other cites the one before. The bound is 6, and 7
/// for the lemma with this number, which no tree proves.
fn chain(alloc: Global, count: u32, spoilt: Option<u32>) -> Result<Vec<u8>, AllocError> {
    let mut log = Vec::new(alloc);
    log.extend_from_slice(b"PDBL\x01\x02")?;
    log.extend_from_slice(&count.to_be_bytes())?;
    for i in 0..count {
        log.extend_from_slice(&RING[6])?;
        log.push(if spoilt == Some(i) { 7 } else { 6 })?;
        if i == 0 {
            log.extend_from_slice(b"\0\0\0\x01\x01")?;
        } else {
            log.extend_from_slice(b"\0\0\0\x05\x20")?;
            log.extend_from_slice(&(i - 1).to_be_bytes())?;
        }
    }
    Ok(log)
}

#[test]
fn each_lemma_is_entered_once(rt: HostRuntime) -> Result<(), Fail> {
    let bundle = over_one(&rt, &TILES_123);
    let board = Board::from_cells(&RING[6]).expect(&rt, "a board");
    let file = chain(rt.alloc(), 300, None)?;
    for workers in [1, 2, 7, 64] {
        let entered = Log::new(rt.alloc(), 400)?;
        let answer = check_log(&rt, rt.alloc(), &bundle, &file, &board, workers, &entered);
        same(&rt, &answer, &Ok(6));
        let mut lemmas = entered.notes(rt.alloc())?;
        lemmas.sort()?;
        same_for(&rt, &lemmas.len(), &300, &("workers", workers));
        assert!(rt; (0..).zip(&lemmas).all(|(lemma, entered)| lemma == *entered));
    }
    Ok(())
}

#[test]
fn lemmas_behind_a_bad_one_are_not_entered(rt: HostRuntime) -> Result<(), Fail> {
    let bundle = over_one(&rt, &TILES_12);
    let board = Board::from_cells(&RING[6]).expect(&rt, "a board");
    let file = with_byte(&CITATION, 14, 6);
    let entered = Log::new(rt.alloc(), 2)?;
    let answer = check_log(&rt, rt.alloc(), &bundle, &file, &board, 1, &entered);
    same(&rt, &answer, &refused(0));
    same(&rt, &entered.notes(rt.alloc())?.as_slice(), &[0].as_slice());
    Ok(())
}

#[test]
fn a_lemma_is_checked_while_one_before_it_waits(rt: HostRuntime) {
    let bundle = over_one(&rt, &TILES_12);
    let board = Board::from_cells(&RING[6]).expect(&rt, "a board");
    let gate = HoldingGate::new(&[0], &[1]);
    let answer = check_log(&rt, rt.alloc(), &bundle, &CITATION, &board, 2, &gate);
    same(&rt, &answer, &Ok(6));
    assert!(rt; gate.saw_all());
}

#[test]
fn four_workers_check_four_lemmas_side_by_side(rt: HostRuntime) -> Result<(), Fail> {
    let bundle = over_one(&rt, &TILES_123);
    let board = Board::from_cells(&RING[6]).expect(&rt, "a board");
    let log = chain(rt.alloc(), 5, Some(2))?;
    let gate = HoldingGate::new(&[0, 1, 2, 3], &[0, 1, 2, 3]);
    let answer = check_log(&rt, rt.alloc(), &bundle, &log, &board, 4, &gate);
    same(&rt, &answer, &refused(2));
    assert!(rt; gate.saw_all());
    Ok(())
}

// Run with each allocation behind those of the bundle refused in turn.
#[test]
fn want_of_memory_is_answered_and_a_second_check_finds_the_bound(rt: HostRuntime) {
    let bundle = over_one(&rt, &TILES_12);
    let board = Board::from_cells(&RING[6]).expect(&rt, "a board");
    let workers = Workers::new(&rt, rt.alloc(), 7, &OpenGate);
    let mut bound = check_log_by(&bundle, &CITATION, &board, &workers);
    if bound == Err(LogFault::Memory) {
        bound = check_log_by(&bundle, &CITATION, &board, &workers);
    }
    same(&rt, &bound, &Ok(6));
}

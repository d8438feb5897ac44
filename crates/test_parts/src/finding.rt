//! Tables that are made, and logs that are made over them.

use crate::same::same_for;
use log_check::{LogFault, check_log};
use pat_place::Pattern;
use puz_board::{Board, Side};
use puz_make::{Limits, MakeFault, build, log_within};
use set_sum::Bundle;
use std::process::Abort;
use std::sync::Wait;
use std::thread::Threads;
use work_run::{OpenGate, Workers};

/// The tables that are made for a side and masks.
pub(crate) fn made<R: Threads + Sync + AllocGlobal + Abort>(
    rt: &R,
    side: u8,
    masks: &[u32],
) -> Vec<Vec<u8>> {
    let side = Side::of(side).expect(rt, "a side");
    let mut files = Vec::new(rt.alloc());
    for mask in masks {
        let pattern = Pattern::of_mask(side, *mask).expect(rt, "a pattern");
        let file = build(rt, rt.alloc(), &pattern).expect(rt, "a table");
        files.push(file).expect(rt, "memory");
    }
    files
}

/// The board of these numbers.
pub(crate) fn board_of(rt: &impl Abort, numbers: &[u8]) -> Board {
    Board::from_cells(numbers).expect(rt, "a board")
}

/// The log that is made of a board over a bundle of its side, where no solution has fewer moves.
pub(crate) fn log_made<R: Threads + Sync + AllocGlobal + Abort>(
    rt: &R,
    bundle: &Bundle<'_>,
    numbers: &[u8],
    moves: u8,
    limits: &Limits,
) -> Result<Vec<u8>, MakeFault> {
    let board = board_of(rt, numbers);
    assert!(rt; board.side() == bundle.side());
    let workers = Workers::new(rt, rt.alloc(), 2, &OpenGate);
    log_within(bundle, &board, moves, limits, &workers)
}

/// The bound that a log proves for a board.
pub(crate) fn bound_of<R: Threads + Wait + AllocGlobal + Abort>(
    rt: &R,
    bundle: &Bundle<'_>,
    numbers: &[u8],
    log: &[u8],
) -> Result<u8, LogFault> {
    let board = board_of(rt, numbers);
    check_log(rt, rt.alloc(), bundle, log, &board, 1, &OpenGate)
}

/// Asserts that a log proves that no solution of a board has fewer moves.
pub(crate) fn expect_proved<R: Threads + Wait + AllocGlobal + Abort>(
    rt: &R,
    bundle: &Bundle<'_>,
    numbers: &[u8],
    log: &[u8],
    moves: u8,
) {
    let bound = bound_of(rt, bundle, numbers, log);
    same_for(rt, &bound, &Ok(moves), &numbers);
}

/// Asserts that the log that is made of a board proves that no solution has fewer moves.
pub(crate) fn expect_log<R: Threads + Wait + Sync + AllocGlobal + Abort>(
    rt: &R,
    bundle: &Bundle<'_>,
    numbers: &[u8],
    moves: u8,
) {
    let log = log_made(rt, bundle, numbers, moves, &Limits::USUAL).expect(rt, "a log");
    expect_proved(rt, bundle, numbers, &log, moves);
}

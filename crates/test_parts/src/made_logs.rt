//! Logs that the maker writes for boards of each side: the checker takes them.

use crate::bundles::{bundle, bundle_of_made, over_folded, over_one};
use crate::finding::{expect_log, expect_proved, log_made, made};
use crate::same::same;
use puz_make::Limits;
use set_sum::Bundle;
use std::process::Abort;
use std::sync::Wait;
use std::thread::Threads;
use test_samples::boards::RING;
use test_samples::files::{TILE_1, TILES_12};

/// How many bytes a log of one lemma has besides its tree and the numbers of its board: ten of the header, one of the bound and
/// four of the length.
const FRONT: usize = 15;

/// Each tree is cut into lemmas, however small it is.
pub(crate) const ALWAYS: Limits = Limits {
    one_lemma_below: 0,
    ..Limits::USUAL
};

/// How many lemmas a log has.
pub(crate) fn lemmas_of(log: &[u8]) -> u32 {
    match log {
        [_, _, _, _, _, _, a, b, c, d, ..] => u32::from_be_bytes([*a, *b, *c, *d]),
        _ => 0,
    }
}

/// A board, how many moves a shortest solution has, and how many bytes the tree has.
#[derive(Clone, Copy)]
pub(crate) struct Near<'a> {
    pub(crate) numbers: &'a [u8],
    pub(crate) moves: u8,
    pub(crate) tree: usize,
}

/// Asserts that a board has a good log of one lemma, and where its tree is cut into lemmas a good one that is no longer.
fn expect_logs<R: Threads + Wait + Sync + AllocGlobal + Abort>(
    rt: &R,
    bundle: &Bundle<'_>,
    near: Near<'_>,
) {
    let (numbers, moves) = (near.numbers, near.moves);
    let one = log_made(rt, bundle, numbers, moves, &Limits::USUAL).expect(rt, "a log");
    expect_proved(rt, bundle, numbers, &one, moves);
    let tree = one.len().saturating_sub(FRONT + numbers.len());
    same(rt, &(lemmas_of(&one), tree), &(1, near.tree));
    let cut = log_made(rt, bundle, numbers, moves, &ALWAYS).expect(rt, "a log");
    expect_proved(rt, bundle, numbers, &cut, moves);
    assert!(rt; cut.len() <= one.len(), "{:?}", numbers);
}

/// Asserts that each board of the ring has a good log of its fewest moves.
fn expect_ring<R: Threads + Wait + Sync + AllocGlobal + Abort>(rt: &R, bundle: &Bundle<'_>) {
    for (step, numbers) in RING.iter().enumerate() {
        expect_log(rt, bundle, numbers, step.min(12 - step) as u8);
    }
}

#[test]
fn boards_of_side_2_have_good_logs(rt: HostRuntime) {
    // Leaves by parity, a transposed member, and a folded table.
    expect_ring(&rt, &over_one(&rt, &TILES_12));
    expect_ring(&rt, &bundle(&rt, &[&TILE_1], b"set 0 0t\n"));
    expect_ring(&rt, &over_folded(&rt, &TILES_12));
}

/// Boards of side 3 over the table of the tiles 1 to 3. The moves of each were found by another program, breadth first, and the
/// trees by benches/peers/make_log.c.
pub(crate) const BOARDS_OF_SIDE_3: [Near<'static>; 3] = [
    Near {
        numbers: &[2, 4, 5, 1, 6, 8, 3, 7, 0],
        moves: 12,
        tree: 115,
    },
    Near {
        numbers: &[2, 5, 3, 4, 0, 8, 6, 1, 7],
        moves: 16,
        tree: 351,
    },
    Near {
        numbers: &[8, 3, 2, 5, 1, 4, 6, 7, 0],
        moves: 22,
        tree: 21_115,
    },
];

#[test]
fn boards_of_side_3_have_good_logs(rt: HostRuntime) {
    let files = made(&rt, 3, &[14]);
    let bundle = bundle_of_made(&rt, &files, b"set 0\n");
    for near in BOARDS_OF_SIDE_3 {
        expect_logs(&rt, &bundle, near);
    }
}

/// The end of a random walk of 40 moves on side 4, over the tables of the tiles 1 to 3, of 5 to 7, and of 10, 11 and 15.
const BOARD_OF_SIDE_4: Near<'static> = Near {
    numbers: &[1, 2, 7, 11, 6, 3, 15, 9, 4, 5, 10, 14, 8, 12, 13, 0],
    moves: 26,
    tree: 2859,
};

#[test]
fn a_board_of_side_4_has_good_logs(rt: HostRuntime) {
    let files = made(&rt, 4, &[14, 224, 35840]);
    let bundle = bundle_of_made(&rt, &files, b"set 0 1 2\n");
    expect_logs(&rt, &bundle, BOARD_OF_SIDE_4);
}

/// The board from which `UUUULLLL` leads home: the blank is in cell 24, cut off by the tiles 23 and 24.
const CORNER: [u8; 25] = [
    1, 2, 3, 4, 9, 5, 6, 7, 8, 14, 10, 11, 12, 13, 19, 15, 16, 17, 18, 24, 20, 21, 22, 23, 0,
];

/// The tiles 19 and 24; 5 and 10; 15 and 20; 21 and 22; and 23.
const MASKS_OF_SIDE_5: [u32; 5] = [
    1 << 19 | 1 << 24,
    1 << 5 | 1 << 10,
    1 << 15 | 1 << 20,
    1 << 21 | 1 << 22,
    1 << 23,
];

#[test]
fn a_board_of_side_5_has_good_logs(rt: HostRuntime) {
    let files = made(&rt, 5, &MASKS_OF_SIDE_5);
    let texts: [&[u8]; 3] = [
        b"set 0\n",
        b"set 0t 1t 2t 3t 4t\n",
        b"set 0 1 2 3 4\nset 0t\n",
    ];
    for text in texts {
        expect_log(&rt, &bundle_of_made(&rt, &files, text), &CORNER, 8);
    }
}

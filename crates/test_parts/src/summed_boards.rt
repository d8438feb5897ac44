//! What sets say of boards, and of a board that is moved.

use crate::bundles::{bundle, bundle_of_made, over_folded, over_one};
use crate::finding::{board_of, made};
use crate::korf_board::BOARD;
use crate::same::{same, same_for};
use puz_board::{Board, Move};
use set_sum::{Bundle, Member, Sums};
use std::process::Abort;
use std::test::Fail;
use tab_rule::Count;
use test_samples::boards::RING;
use test_samples::files::{TILE_1, TILE_3, TILES_12};

/// What a set of a bundle says of the board with these numbers.
fn sum(bundle: &Bundle<'_>, set: u8, numbers: &[u8]) -> Option<Count> {
    let board = Board::from_cells(numbers)?;
    if set < bundle.sets() && board.side() == bundle.side() {
        Some(bundle.sum(set, &board))
    } else {
        None
    }
}

/// Asserts what the first set of a bundle says of a board.
fn expect_sum(rt: &impl Abort, bundle: &Bundle<'_>, numbers: &[u8], wanted: Count) {
    same_for(rt, &sum(bundle, 0, numbers), &Some(wanted), &numbers);
}

#[test]
fn members_add_up(rt: HostRuntime) {
    // Tiles 1 and 2 take four moves home, and tile 3 takes two.
    let both = bundle(&rt, &[&TILES_12, &TILE_3], b"set 0 1\n");
    expect_sum(&rt, &both, &[3, 2, 1, 0], Count::Finite(6));
    expect_sum(&rt, &both, &[0, 1, 3, 2], Count::Never);
    // Tile 1 takes two moves home, and the transposed member says the same of tile 2.
    let with_mirror = bundle(&rt, &[&TILE_1], b"set 0 0t\n");
    expect_sum(&rt, &with_mirror, &[3, 2, 1, 0], Count::Finite(4));
    // Tiles 1 and 2 have a way home from the other region alone.
    let full = over_one(&rt, &TILES_12);
    expect_sum(&rt, &full, &[0, 2, 1, 3], Count::Never);
    let folded = over_folded(&rt, &TILES_12);
    expect_sum(&rt, &folded, &[0, 2, 1, 3], Count::Finite(4));
}

#[test]
fn a_bundle_has_the_tables_and_the_sets_that_were_read(rt: HostRuntime) {
    let bundle = bundle(&rt, &[&TILES_12, &TILE_3], b"set 1\nset 0t 1\n");
    let counts = (bundle.side().get(), bundle.tables(), bundle.sets());
    same(&rt, &counts, &(2, 2, 2));
    if bundle.tables() != 2 || bundle.sets() != 2 {
        panic!(rt; "two tables and two sets");
    }
    same(&rt, &bundle.part(0).pattern().mask(), &0b0110);
    let members = [(0, true), (1, false)].map(|(table, is_transposed)| Member {
        table,
        is_transposed,
    });
    same(&rt, &bundle.members(1), &members.as_slice());
}

/// The masks of all tiles of side 4, one by one.
const ALONE: [u32; 15] = [
    1 << 1,
    1 << 2,
    1 << 3,
    1 << 4,
    1 << 5,
    1 << 6,
    1 << 7,
    1 << 8,
    1 << 9,
    1 << 10,
    1 << 11,
    1 << 12,
    1 << 13,
    1 << 14,
    1 << 15,
];

/// The boards 1, 2, 3 and 79 that Korf published (1985), and the estimates with which his searches began: how many rows and
/// columns all tiles are away from home.
const ESTIMATES: [([u8; 16], u16); 4] = [
    ([14, 13, 15, 7, 11, 12, 9, 5, 6, 0, 2, 1, 4, 8, 10, 3], 41),
    ([13, 5, 4, 10, 9, 12, 8, 14, 2, 3, 7, 1, 0, 15, 11, 6], 43),
    ([14, 7, 8, 2, 13, 11, 10, 4, 9, 12, 5, 0, 3, 6, 1, 15], 41),
    (BOARD, 28),
];

#[test]
fn tables_of_one_tile_each_say_what_korfs_estimates_did(rt: HostRuntime) {
    let files = made(&rt, 4, &ALONE);
    let bundle = bundle_of_made(&rt, &files, b"set 0 1 2 3 4 5 6 7 8 9 10 11 12 13 14\n");
    for (numbers, estimate) in &ESTIMATES {
        expect_sum(&rt, &bundle, numbers, Count::Finite(*estimate));
    }
}

/// Moves that lead the farthest board of side 2 home, and what tiles 1 and 2 take home after each.
const WAY_HOME: [(Move, u16); 6] = [
    (Move::Up, 3),
    (Move::Left, 3),
    (Move::Down, 2),
    (Move::Right, 1),
    (Move::Up, 1),
    (Move::Left, 0),
];

/// What the first set says of the board where it stands.
fn said<R: Abort>(rt: &R, sums: &mut Sums<'_>) -> Count {
    if sums.sets() == 0 {
        panic!(rt; "a set");
    }
    sums.sum(0)
}

/// Asserts that a step changes what is said, and that it is said again once the step is taken back.
fn expect_step<R: Abort>(rt: &R, sums: &mut Sums<'_>, mv: Move, wanted: u16) {
    let before = said(rt, sums);
    let step = sums.step(mv).expect(rt, "a board");
    sums.take_back(&step);
    same_for(rt, &said(rt, sums), &before, &mv);
    let _step = sums.step(mv).expect(rt, "a board");
    same_for(rt, &said(rt, sums), &Count::Finite(wanted), &mv);
}

/// Asserts it of each step on the way home from the farthest board of side 2.
fn expect_way_home<R: Abort>(rt: &R, bundle: &Bundle<'_>) {
    let board = board_of(rt, &RING[6]);
    if board.side() != bundle.side() {
        panic!(rt; "side 2");
    }
    let mut sums = Sums::new(bundle, &board);
    for (mv, wanted) in &WAY_HOME {
        expect_step(rt, &mut sums, *mv, *wanted);
    }
    assert!(rt; sums.is_goal());
    same(rt, &sums.blank_parity(), &0);
}

#[test]
fn a_board_that_is_moved_home_and_back_has_the_sums_of_where_it_stands(rt: HostRuntime) {
    let bundle = over_one(&rt, &TILES_12);
    expect_way_home(&rt, &bundle);
}

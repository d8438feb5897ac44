//! A solution of each larger side, all boards of side 2 on their ring, and a value of each call on boards, steps and masks.

ghost use Rattle.std.specs.Prelude.{◌<◌};

use crate::given::{board_of, side_of};
use crate::same::{same, same_for};
use puz_board::masks::{
    above, all_below, count_below, first_column, first_of, has_cell, last_column, select, with,
    without,
};
use puz_board::{Board, BoardFault, Move, MoveFault, replay, split_puzzle, step, transposed_cell};
use puz_goal::{Goal, replay_for};
use std::process::Abort;
use test_samples::boards::RING;

/// The blank's moves round the ring of boards.
const ROUND: [Move; 4] = [Move::Right, Move::Down, Move::Left, Move::Up];

/// What a puzzle text is answered: its board's fault, or what its moves do.
fn answer(puzzle: &[u8]) -> Option<Result<Result<u16, MoveFault>, BoardFault>> {
    let (board, moves) = split_puzzle(puzzle)?;
    Some(match Board::read(board) {
        Ok(board) => Ok(replay(&board, moves)),
        Err(fault) => Err(fault),
    })
}

/// Puzzles, and what their moves do. No board of side 3 is more than 31 moves from the goal board.
const REPLAYED: [(&[u8], Result<u16, MoveFault>); 5] = [
    (b"3 2 1 0 ; ULDRUL\n", Ok(6)),
    (
        b"8 0 6 5 4 7 2 3 1 ; LDDRUULDDRURULLDRRDLLURRULDDLUU",
        Ok(31),
    ),
    (
        b"4 3 7 11 5 6 2 0 1 13 9 15 8 12 10 14 ; ULLLDDDRURDRUUULDLLURDLU",
        Ok(24),
    ),
    (
        b"6 10 1 3 8 11 5 7 4 9 12 13 14 2 0 15 16 17 18 19 20 21 22 23 24 ; ULDLLLUURDLURRRRDDLLURULDDLLUU",
        Ok(30),
    ),
    (b"1 0 2 3 ; LRR", Err(MoveFault::M2(2))),
];

#[test]
fn puzzles_of_each_side_are_replayed(rt: HostRuntime) {
    for (puzzle, want) in REPLAYED {
        same_for(&rt, &answer(puzzle), &Some(Ok(want)), &puzzle);
    }
    same(&rt, &answer(b"0 1 2 2 ;"), &Some(Err(BoardFault::B5(3))));
}

/// Two moves put tiles 5 and 8 in their cells, with the blank in the last.
#[test]
fn moves_end_with_the_blank_last(rt: HostRuntime) {
    let board = board_of(&rt, &[1, 2, 3, 4, 0, 6, 7, 5, 8]);
    same(&rt, &replay_for(Goal::Last, &board, b"DR"), &Ok(2));
    same(
        &rt,
        &replay_for(Goal::First, &board, b"DR"),
        &Err(MoveFault::M4),
    );
    same(
        &rt,
        &Goal::Last.board_for(&board),
        &board_of(&rt, &[1, 4, 2, 3, 0, 5, 6, 7, 8]),
    );
}

/// The board at a place of the ring, which goes on at its first.
fn on_ring(rt: &impl Abort, place: usize) -> Board {
    board_of(rt, &RING[place % 12])
}

/// A move leads from a board of the ring to the next one, and its reverse back. As many moves lead from the goal board to the
/// first one. Rows and columns change places in its mirror, so the ring of mirrors goes the other way round.
fn leads_on(rt: &impl Abort, i: usize)
    requires { i < 12 }
{
    let (board, next) = (on_ring(rt, i), on_ring(rt, i + 1));
    let mv = ROUND[i % 4];
    same_for(rt, &board.apply(mv), &Some(next), &i);
    same_for(rt, &next.apply(mv.reverse()), &Some(board), &i);
    same_for(rt, &board.is_goal(), &(i == 0), &i);
    same_for(rt, &usize::from(board.blank_parity()), &(i % 2), &i);
    same_for(rt, &board.transposed(), &on_ring(rt, 12 - i), &i);
}

#[test]
fn the_boards_of_side_two_lie_on_a_ring(rt: HostRuntime) {
    for i in 0..12 {
        leads_on(&rt, i);
    }
}

#[test]
fn numbers_and_cells_of_a_board(rt: HostRuntime) {
    let board = board_of(&rt, &[3, 0, 1, 2]);
    same(&rt, &(board.side().get(), board.side().cells()), &(2, 4));
    same(&rt, &(board.at(0), board.at(1), board.blank()), &(3, 0, 1));
    same(&rt, &(board.cell_of(3), board.cell_of(2)), &(0, 3));
    let cells = board.cells_of_all();
    same(&rt, &cells.get(..4), &Some([1, 2, 3, 0].as_slice()));
}

#[test]
fn steps_and_letters_of_moves(rt: HostRuntime) {
    let side = side_of(&rt, 3);
    same(&rt, &step(side, 2, Move::Down), &Some(5));
    same(&rt, &step(side, 2, Move::Right), &None);
    same(&rt, &transposed_cell(side, 2), &6);
    same(&rt, &Move::of_byte(b'L'), &Some(Move::Left));
    same(&rt, &Move::Up.letter(), &b'U');
}

#[test]
fn masks_have_their_numbers(rt: HostRuntime) {
    // The numbers 1, 3 and 7.
    let mask = 0b1000_1010;
    assert!(rt; has_cell(mask, 3) && !has_cell(mask, 2));
    let masks = [
        (with(mask, 0), 0b1000_1011),
        (without(mask, 3), 0b1000_0010),
        (above(mask, 3), 0b1000_0000),
        (all_below(3), 0b111),
        (first_column(side_of(&rt, 4)), 0x1111),
        (last_column(side_of(&rt, 4)), 0x8888),
    ];
    for (found, want) in masks {
        same(&rt, &found, &want);
    }
    assert!(rt; mask.count_ones() > 2);
    let numbers = (first_of(mask), count_below(mask, 7), select(mask, 2));
    same(&rt, &numbers, &(1, 2, 7));
}

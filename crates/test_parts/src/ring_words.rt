//! Edge words of tiles 1 and 2 of side 2, along the ring of boards.

ghost use Rattle.std.specs.Prelude.{◌≡◌};

use crate::bundles::over_one;
use crate::finding::board_of;
use crate::same::same_for;
use edge_words::{WordRoom, Words, bit_number, index_count, index_step, raises};
use puz_board::{Board, Move};
use set_sum::{Bundle, Part};
use std::process::Abort;
use std::thread::Threads;
use tab_rule::CheckedTable;
use test_samples::boards::RING;
use test_samples::files::TILES_12;
use work_run::{OpenGate, Workers};

/// How many moves of the tiles 1 and 2 lead home from each board of the ring.
const COUNTS: [u8; 12] = [0, 1, 1, 2, 3, 3, 4, 3, 3, 2, 1, 1];

/// How the blank goes round the ring.
const ROUND: [Move; 4] = [Move::Right, Move::Down, Move::Left, Move::Up];

/// The words of a table, by two workers.
pub(crate) fn words_of<R: Threads + Sync + AllocGlobal + Abort>(
    rt: &R,
    table: &CheckedTable<'_>,
) -> Option<Words> {
    let workers = Workers::new(rt, rt.alloc(), 2, &OpenGate);
    Words::of(table, &workers).ok().expect(rt, "memory")
}

/// The room for the words of a table.
fn room_for<R: AllocGlobal + Abort>(rt: &R, table: &CheckedTable<'_>) -> WordRoom
    ensures { result ≡ table.now.pattern }
{
    match WordRoom::of(rt.alloc(), &table.pattern()) {
        Ok(Some(room)) => room,
        _ => panic!(rt; "a room"),
    }
}

/// A move of a tile from one board to the next, and whether it raises the count.
#[derive(Clone, Copy)]
struct TileMove {
    board: Board,
    next: Board,
    mv: Move,
    /// The tile's index in the pattern.
    tile: u8,
    rises: bool,
}

/// Asserts what words say of a move.
fn expect_move<R: Abort>(rt: &R, words: &Words, tile_move: &TileMove) {
    let TileMove {
        board,
        next,
        mv,
        tile,
        rises,
    } = *tile_move;
    let pattern = words.pattern();
    let count = index_count(&pattern).expect(rt, "few words");
    if tile >= pattern.size() || board.side() != pattern.side() || next.side() != pattern.side() {
        panic!(rt; "of the pattern and its side");
    }
    let index = words.index_of(&board);
    if index as usize >= count {
        panic!(rt; "one of the words");
    }
    same_for(rt, &words.rises(index, tile, mv), &rises, &board);
    let bit = raises(words.word(index), bit_number(tile, mv));
    same_for(rt, &bit, &rises, &board);
    let after = index.wrapping_add(index_step(&pattern, tile, mv));
    same_for(rt, &words.index_of(&next), &after, &board);
}

/// The move round the ring from the board with this place, where it is one of the tiles 1 and 2 that moves.
fn move_from<R: Abort>(rt: &R, place: usize) -> Option<TileMove> {
    let here = place % 12;
    let there = (here + 1) % 12;
    let blank = RING[there].iter().position(|number| *number == 0)?;
    let tile = RING[here].get(blank)?.checked_sub(1)?;
    if tile > 1 {
        return None;
    }
    Some(TileMove {
        board: board_at(rt, here),
        next: board_at(rt, there),
        mv: ROUND[here % 4],
        tile,
        rises: COUNTS[here] < COUNTS[there],
    })
}

/// The board with this place on the ring.
fn board_at<R: Abort>(rt: &R, place: usize) -> Board {
    board_of(rt, &RING[place % 12])
}

/// Asserts what words say of all moves of the tiles round the ring, of which there are eight.
fn expect_round<R: Abort>(rt: &R, words: &Words) {
    let mut moves: u8 = 0;
    for place in 0..12 {
        if let Some(tile_move) = move_from(rt, place) {
            expect_move(rt, words, &tile_move);
            moves = moves.saturating_add(1);
        }
    }
    same_for(rt, &moves, &8, &"moves");
}

/// Asserts it of the words of a bundle's first table, and of those that are filled into a room.
fn expect_words<R: Threads + Sync + AllocGlobal + Abort>(rt: &R, bundle: &Bundle<'_>) {
    if bundle.tables() == 0 {
        panic!(rt; "a table");
    }
    let Part::Full(table) = bundle.part(0) else {
        panic!(rt; "a full table");
    };
    expect_round(rt, &words_of(rt, table).expect(rt, "words"));
    let room = room_for(rt, table);
    let workers = Workers::new(rt, rt.alloc(), 1, &OpenGate);
    expect_round(rt, &room.fill(table, &workers));
}

#[test]
fn words_say_which_moves_raise_a_count(rt: HostRuntime) {
    expect_words(&rt, &over_one(&rt, &TILES_12));
}

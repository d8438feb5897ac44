//! Edge words beside known counts, made at once or in a room that was taken before, and want of memory for either.

ghost use Rattle.work_run.specs.Workers.{AreWorkers};

use crate::given::pattern_with;
use crate::same::{same, same_for};
use crate::tables::exact;
use edge_words::{WordRoom, Words, index_count};
use puz_board::Move;
use std::alloc::AllocError;
use std::process::Abort;
use std::test::Fail;
use std::thread::Threads;
use tab_check::{CheckedTable, check_table};
use test_samples::files::TILE_1;
use work_run::{OpenGate, Workers};

/// Of tile 1 of side 2: the tile's cell, the way of the blank that moves it, and whether that raises its count. The count is 1,
/// 0, 2 and 1 in the cells 0 to 3.
const BITS_OF_TILE_1: [(u32, Move, bool); 8] = [
    (0, Move::Up, true),
    (0, Move::Left, false),
    (1, Move::Up, true),
    (1, Move::Right, true),
    (2, Move::Down, false),
    (2, Move::Left, false),
    (3, Move::Down, false),
    (3, Move::Right, true),
];

/// The words of a table by so many workers.
fn words_by<R: Threads + Sync + AllocGlobal + Abort>(
    rt: &R,
    table: &CheckedTable<'_>,
    workers: u8,
) -> Option<Words>
    requires { AreWorkers workers }
{
    let workers = Workers::new(rt, rt.alloc(), workers, &OpenGate);
    Words::of(table, &workers).ok().expect(rt, "memory")
}

/// The bit of tile 1 in a cell and a move, where there is one.
fn bit(words: &Words, cell: u32, mv: Move) -> Option<bool> {
    let pattern = words.pattern();
    if cell as usize >= index_count(&pattern)? || pattern.size() != 1 {
        return None;
    }
    Some(words.rises(cell, 0, mv))
}

/// Asserts the bits of words of tile 1.
fn expect_bits(rt: &impl Abort, words: &Words) {
    for (cell, mv, rises) in BITS_OF_TILE_1 {
        same_for(rt, &bit(words, cell, mv), &Some(rises), &(cell, mv));
    }
}

#[test]
fn the_bits_of_one_tile_of_side_2_are_known(rt: HostRuntime) {
    for workers in [1, 2, 7] {
        let words = words_by(&rt, &exact(&rt, &TILE_1), workers);
        expect_bits(&rt, &words.expect(&rt, "words"));
    }
}

#[test]
fn eight_tiles_of_side_4_have_too_many_indexes(rt: HostRuntime) {
    let pattern = pattern_with(&rt, 4, 510);
    same(&rt, &index_count(&pattern), &None);
    assert!(rt; matches!(WordRoom::of(rt.alloc(), &pattern), Ok(None)));
}

// Run with each allocation refused in turn.
#[test]
fn want_of_memory_for_words_is_answered_and_a_second_room_is_filled_in(
    rt: HostRuntime,
) -> Result<(), Fail> {
    let table = match check_table(&rt, rt.alloc(), &TILE_1, 1, &OpenGate) {
        Ok(table) => table,
        Err(_) => exact(&rt, &TILE_1),
    };
    let two = Workers::new(&rt, rt.alloc(), 2, &OpenGate);
    let words = match Words::of(&table, &two) {
        Ok(words) => words,
        Err(AllocError) => Words::of(&table, &two)?,
    };
    expect_bits(&rt, &words.expect(&rt, "words"));
    let room = match WordRoom::of(rt.alloc(), &table.pattern()) {
        Ok(room) => room,
        Err(AllocError) => WordRoom::of(rt.alloc(), &table.pattern())?,
    };
    expect_bits(&rt, &room.expect(&rt, "a room").fill(&table, &two));
    Ok(())
}

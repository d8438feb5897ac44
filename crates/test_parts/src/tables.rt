//! What is answered of known tables and told by them of boards, folded too; blocks that aren't entered; and want of memory.

use crate::files::viewed;
use crate::given::board_of;
use crate::same::{same, same_for};
use puz_board::Board;
use std::process::Abort;
use std::sync::Wait;
use std::test::Fail;
use std::thread::Threads;
use tab_check::{
    Census, CheckedTable, Count, FoldedTable, TableFault, TableRefusal, block_count, check_block,
    check_table, fold,
};
use tab_columns::passes;
use tab_file::view;
use test_samples::Log;
use test_samples::files::{TILE_1, TILE_24, TILES_12, TILES_123, TWO_BLOCKS, with_byte};
use work_run::OpenGate;

/// The table of an exact file.
pub(crate) fn exact<'a, R: Threads + Wait + AllocGlobal + Abort>(
    rt: &R,
    file: &'a [u8],
) -> CheckedTable<'a> {
    check_table(rt, rt.alloc(), file, 1, &OpenGate)
        .ok()
        .expect(rt, "an exact table")
}

/// The fault of a table file by seven workers.
fn fault<R: Threads + Wait + AllocGlobal>(rt: &R, file: &[u8]) -> Option<TableFault> {
    check_table(rt, rt.alloc(), file, 7, &OpenGate).err()
}

/// The refusal that names this entry.
fn bad_entry(number: u64) -> TableFault {
    TableFault::Refused(TableRefusal::T7(number))
}

/// The least bad entry of a table file, by columns, one block after the other.
fn bad_by_columns(file: &[u8]) -> Option<u64> {
    let table = view(file).ok()?;
    for block in 0..block_count(&table.pattern()) {
        if let Some(number) = check_block(&table, block) {
            return Some(number);
        }
    }
    None
}

#[test]
fn known_tables_are_exact(rt: HostRuntime) {
    let tables: [(&[u8], u64, u64, u8); 4] = [
        (&TILES_123, 24, 12, 6),
        (&TILES_12, 24, 8, 4),
        (&TILE_1, 8, 0, 2),
        (&TILE_24, 50, 0, 8),
    ];
    for (file, entries, unreachable, deepest) in tables {
        let want = Census {
            entries,
            unreachable,
            deepest,
        };
        let table = exact(&rt, file);
        same(&rt, &table.census(), &want);
        let (_, entries) = file.split_at(file.len().min(20));
        same(&rt, &table.entries(), &entries);
        same(&rt, &bad_by_columns(file), &None);
    }
    let changed = with_byte(&TILES_123, 34, 0x02);
    same(&rt, &bad_by_columns(&changed), &Some(14));
}

/// What a table tells of the board with these numbers in its cells.
fn told(table: &CheckedTable<'_>, numbers: &[u8]) -> Option<Count> {
    let board = Board::from_cells(numbers)?;
    if table.pattern().side() == board.side() {
        Some(table.look(&board))
    } else {
        None
    }
}

#[test]
fn boards_are_looked_up(rt: HostRuntime) {
    let table = exact(&rt, &TILES_12);
    let with_slots = exact(&rt, &TILES_12).with_slots(rt.alloc());
    let looks = [
        ([3, 2, 1, 0], Count::Finite(4)),
        ([1, 0, 2, 3], Count::Finite(1)),
        ([0, 2, 1, 3], Count::Never),
    ];
    for (numbers, want) in looks {
        same_for(&rt, &told(&table, &numbers), &Some(want), &numbers);
        same_for(&rt, &told(&with_slots, &numbers), &Some(want), &numbers);
    }
}

/// What a folded table tells of the board with these numbers in its cells.
fn told_folded(rt: &impl Abort, folded: &FoldedTable, numbers: &[u8]) -> Count {
    let board = board_of(rt, numbers);
    assert!(rt; folded.pattern().side() == board.side());
    folded.look(&board)
}

// Run with each allocation refused in turn.
#[test]
fn tables_fold_to_one_byte_a_placement(rt: HostRuntime) -> Result<(), Fail> {
    let table = match check_table(&rt, rt.alloc(), &TILES_12, 1, &OpenGate) {
        Ok(table) => table,
        Err(_) => exact(&rt, &TILES_12),
    };
    let folded = match fold(rt.alloc(), &table) {
        Ok(folded) => folded,
        Err(_) => fold(rt.alloc(), &table)?,
    };
    let entries = b"\xFF\x01\x02\x01\x00\xFF\xFF\x04\x03\x02\x03\xFF";
    same(&rt, &folded.entries(), &entries.as_slice());
    // The table itself says that no walk leads home: the blank is in the other region.
    same(
        &rt,
        &told_folded(&rt, &folded, &[0, 2, 1, 3]),
        &Count::Finite(4),
    );
    same(
        &rt,
        &told_folded(&rt, &folded, &[1, 2, 0, 3]),
        &Count::Never,
    );
    Ok(())
}

#[test]
fn blocks_above_a_bad_entry_are_not_entered(rt: HostRuntime) -> Result<(), Fail> {
    let mut file = [0xFE; 2036];
    file[..20].copy_from_slice(&TWO_BLOCKS);
    let log = Log::new(rt.alloc(), 2)?;
    let answer = check_table(&rt, rt.alloc(), &file, 1, &log);
    same(&rt, &answer.err(), &Some(bad_entry(0)));
    same(&rt, &log.notes(rt.alloc())?.as_slice(), &[0].as_slice());
    Ok(())
}

#[test]
fn a_table_that_ends_at_a_count_passes_it(rt: HostRuntime) {
    // The greatest count is 4, and stands in one entry.
    let cut = with_byte(&TILES_12, 35, 0xFF);
    let passed = (passes(&viewed(&rt, &cut), 3), passes(&viewed(&rt, &cut), 2));
    same(&rt, &passed, &(true, false));
    same(&rt, &passes(&viewed(&rt, &TILES_12), 4), &false);
}

/// The header of all eight tiles on side 3: one slot, and 362,880 entries.
const EIGHT_PUZZLE: &[u8] = b"PDBT\x01\x03\x08\0\0\0\x01\xFE\0\0\0\0\0\x05\x89\x80";

// Run with each allocation refused in turn. Where the rows of the large table want memory, the answer is the same.
#[test]
fn want_of_memory_is_answered_and_a_second_check_finds_the_fault(
    rt: HostRuntime,
) -> Result<(), Fail> {
    let small = with_byte(&TILES_123, 34, 0x02);
    let mut large = match vec![in rt.alloc(); 0xFF; 362_900] {
        Ok(file) => file,
        Err(_) => vec![in rt.alloc(); 0xFF; 362_900]?,
    };
    for (here, head) in large.as_mut_slice().iter_mut().zip(EIGHT_PUZZLE) {
        *here = *head;
    }
    // Only the goal has to be other than 255. Each of its tiles leaves one free cell before it: its rank is
    // 8! + 7! + 6! + 5! + 4! + 3! + 2! + 1!.
    for (file, number) in [(small.as_slice(), 14), (large.as_slice(), 46_233)] {
        let mut answer = fault(&rt, file);
        if answer == Some(TableFault::Memory) {
            answer = fault(&rt, file);
        }
        same(&rt, &answer, &Some(bad_entry(number)));
    }
    Ok(())
}

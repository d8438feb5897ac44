//! The rows of a table: there are some for each set that a block asks for, and for no other.

use crate::files::viewed;
use crate::given::pattern_of;
use crate::made_tables::made;
use crate::same::{same, same_for};
use std::process::Abort;
use std::test::Fail;
use tab_check::block_count;
use tab_runs::{RowTable, check_runs};
use test_samples::files::{TILE_1, TILE_24, TILES_12, TILES_123, with_byte};

/// The least bad entry of a table file, by runs, one block after the other.
fn bad_by_runs<R: AllocGlobal + Abort>(rt: &R, file: &[u8]) -> Result<Option<u64>, Fail> {
    let table = viewed(rt, file);
    let rows = RowTable::build(rt.alloc(), &table.pattern())?;
    for block in 0..block_count(&table.pattern()) {
        let found = check_runs(&table, &rows, block);
        let found = found.ok().expect(rt, "the rows of each set");
        if found.is_some() {
            return Ok(found);
        }
    }
    Ok(None)
}

#[test]
fn each_block_of_an_exact_table_has_its_rows(rt: HostRuntime) -> Result<(), Fail> {
    let files: [&[u8]; 4] = [&TILES_123, &TILES_12, &TILE_1, &TILE_24];
    for file in files {
        same(&rt, &bad_by_runs(&rt, file)?, &None);
    }
    for (n, mask) in [(3, 14), (3, 496), (3, 510), (4, 14)] {
        let file = made(&rt, n, mask).expect(&rt, "a table");
        same_for(&rt, &bad_by_runs(&rt, &file)?, &None, &(n, mask));
    }
    let changed = with_byte(&TILES_123, 34, 0x02);
    same(&rt, &bad_by_runs(&rt, &changed)?, &Some(14));
    Ok(())
}

#[test]
fn each_set_of_the_right_size_has_rows_and_no_other(rt: HostRuntime) -> Result<(), Fail> {
    let patterns = [
        (2, 0b1110),
        (3, 0b1_1110),
        (3, 0b1_1111_1110),
        (4, 0b1110),
        (4, 0b1_1111_1110),
    ];
    for (side, mask) in patterns {
        let pattern = pattern_of(side, mask).expect(&rt, "a pattern");
        let rows = RowTable::build(rt.alloc(), &pattern)?;
        let tiles = u32::from(pattern.size());
        for set in 0..1u32 << pattern.side().cells() {
            let kept = rows.of_set(set).is_some();
            same_for(&rt, &kept, &(set.count_ones() + 1 == tiles), &(side, set));
        }
    }
    Ok(())
}

#[test]
fn the_slots_with_a_region_are_told(rt: HostRuntime) -> Result<(), Fail> {
    let pattern = pattern_of(2, 0b0110).expect(&rt, "a pattern");
    let rows = RowTable::build(rt.alloc(), &pattern)?;
    // One tile is in cell 0. With the other in cell 1 or 2 the free cells are one region, and with it in cell 3 they are two.
    let told = rows.of_set(1).expect(&rt, "kept");
    same(&rt, &told.kinds, &[2, 0, 2, 0, 2, 2].as_slice());
    Ok(())
}

// Run with each allocation refused in turn.
#[test]
fn rows_are_made_again_after_want_of_memory(rt: HostRuntime) -> Result<(), Fail> {
    let pattern = pattern_of(2, 0b1110).expect(&rt, "a pattern");
    let mut rows = RowTable::build(rt.alloc(), &pattern);
    if rows.is_err() {
        rows = RowTable::build(rt.alloc(), &pattern);
    }
    assert!(rt; rows.is_ok());
    Ok(())
}

//! Tables that are made: known ones byte by byte, one with a known census, and others that are found exact; and their layers.

use crate::given::pattern_with;
use crate::same::{same, same_for};
use std::process::Abort;
use std::sync::Wait;
use std::test::Fail;
use std::thread::Threads;
use tab_check::check_table;
use tab_make::{MakeFault, build, entry_of, layer};
use test_samples::LeastCosts;
use test_samples::files::{TILE_1, TILE_24, TILES_12, TILES_123};
use work_run::OpenGate;

/// The table that is made for a side and a mask.
pub(crate) fn made<R: Threads + Sync + AllocGlobal + Abort>(
    rt: &R,
    n: u8,
    mask: u32,
) -> Result<Vec<u8>, MakeFault> {
    build(rt, rt.alloc(), &pattern_with(rt, n, mask))
}

// Holds too where any one request for memory is refused: that is answered, and a later call isn't hurt.
#[test]
fn known_tables_are_made(rt: HostRuntime) {
    let tables: [(u8, u32, &[u8]); 4] = [
        (2, 14, &TILES_123),
        (2, 6, &TILES_12),
        (2, 2, &TILE_1),
        (5, 1 << 24, &TILE_24),
    ];
    for (n, mask, want) in tables {
        let mut file = made(&rt, n, mask);
        if file.is_err() {
            same(&rt, &file.err(), &Some(MakeFault::Memory));
            file = made(&rt, n, mask);
        }
        let file = file.expect(&rt, "a table");
        assert!(rt; file.as_slice() == want, "{n} {mask}");
    }
}

/// Masks of sides 2 to 5. A tile of sides 4 and 5 passes up to three others in one move.
const EXACT: [(u8, &[u32]); 4] = [
    (2, &[2, 4, 6, 8, 10, 12, 14]),
    (3, &[2, 14, 48, 84, 134, 146, 170, 198, 228, 256, 390, 496]),
    (4, &[14, 30, 37_408]),
    (5, &[14, 16_777_218]),
];

/// The table that is made for a side and a mask is found exact.
fn is_exact<R: Threads + Wait + Sync + AllocGlobal + Abort>(rt: &R, n: u8, mask: u32) {
    let file = made(rt, n, mask).expect(rt, "a table");
    let table = check_table(rt, rt.alloc(), &file, 2, &OpenGate);
    let found = table.map(|table| table.pattern().mask());
    same_for(rt, &found, &Ok(mask), &n);
}

#[test]
fn made_tables_are_exact(rt: HostRuntime) {
    for (n, masks) in EXACT {
        for mask in masks {
            is_exact(&rt, n, *mask);
        }
    }
}

/// How many boards of side 3 are so many moves from the goal board, from 0 on. They are known.
const BOARDS_BY_MOVES: [usize; 32] = [
    1, 2, 4, 8, 16, 20, 39, 62, 116, 152, 286, 396, 748, 1024, 1893, 2512, 4485, 5638, 9529, 10878,
    16993, 17110, 23952, 20224, 24047, 15578, 14560, 6274, 3910, 760, 221, 2,
];

#[test]
fn all_tiles_of_side_3_have_their_census_and_are_as_a_search_finds_them(
    rt: HostRuntime,
) -> Result<(), Fail> {
    let file = made(&rt, 3, 510).expect(&rt, "a table");
    let entries = file.get(20..).unwrap_or(&[]);
    assert!(rt; entries.len() == 362_880);
    for (moves, boards) in (0..).zip(&BOARDS_BY_MOVES) {
        let found = layer(&rt, rt.alloc(), entries, moves)?;
        same_for(&rt, &found.len(), boards, &moves);
    }
    let costs = LeastCosts::new(rt.alloc(), &[1, 2, 3, 4, 5, 6, 7, 8])?;
    assert!(rt; costs.table(rt.alloc())? == file);
    Ok(())
}

#[test]
fn layers_are_ascending_numbers(rt: HostRuntime) -> Result<(), Fail> {
    same(&rt, &(entry_of(253), entry_of(254)), &(Some(253), None));
    let entries = &TILES_123[20..];
    let cases: [(u8, &[u32]); 3] = [(4, &[17, 21]), (0, &[9]), (7, &[])];
    for (count, numbers) in cases {
        let found = layer(&rt, rt.alloc(), entries, count)?;
        same(&rt, &found.as_slice(), &numbers);
    }
    Ok(())
}

// Holds too where any one request for memory is refused.
#[test]
fn layers_are_listed_after_want_of_memory(rt: HostRuntime) -> Result<(), Fail> {
    let entries = &TILES_123[20..];
    let found = match layer(&rt, rt.alloc(), entries, 4) {
        Err(_) => layer(&rt, rt.alloc(), entries, 4)?,
        Ok(found) => found,
    };
    same(&rt, &found.as_slice(), &[17, 21].as_slice());
    Ok(())
}

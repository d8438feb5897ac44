//! Values of patterns, placements, ranks, regions and slots, and the slots that a table keeps.

ghost use Rattle.std.specs.Prelude.{◌≡◌, IsTrue};
ghost use Rattle.pat_place.specs.Placements.{IsFree};

use crate::given::{board_of, pattern_of, pattern_with};
use crate::same::{same, same_for};
use pat_place::{Pattern, Placement, SlotTable, next, rank, regions, slot_of, unrank};
use puz_board::masks;
use std::process::Abort;
use std::test::Fail;

/// The placement on a board of a pattern's side.
fn on_board(rt: &impl Abort, pattern: &Pattern, numbers: &[u8]) -> Placement {
    let board = board_of(rt, numbers);
    assert!(rt; board.side() == pattern.side());
    Placement::of_board(pattern, &board)
}

/// The placement of a rank, which is below the count.
fn of_rank(rt: &impl Abort, pattern: &Pattern, rank: u64) -> Placement {
    assert!(rt; rank < pattern.count());
    unrank(pattern, rank)
}

/// Whether a cell is on the board and has no tile.
fn is_free(placement: &Placement, cell: u8) -> bool
    ensures { IsTrue result → IsFree placement.now.pattern.side placement.now.cells cell }
{
    cell < placement.pattern().side().cells() && !masks::has_cell(placement.occupied(), cell)
}

/// The placement has these cells and this rank, and is that of the rank.
fn check_cells(rt: &impl Abort, placement: &Placement, cells: &[u8], r: u64) {
    same(rt, &placement.cells().as_slice(), &cells);
    same(rt, &rank(placement), &r);
    let found = of_rank(rt, &placement.pattern(), r);
    same(rt, &found.cells().as_slice(), &cells);
}

/// How many tiles a pattern has, its width and its count; `None` where the mask is no pattern's.
fn numbers_of(n: u8, mask: u32) -> Option<(u8, u8, u64)> {
    let pattern = pattern_of(n, mask)?;
    Some((pattern.size(), pattern.width(), pattern.count()))
}

/// Sides and masks, and how many tiles their patterns have, their widths and their counts.
const MASKS: [(u8, u32, Option<(u8, u8, u64)>); 4] = [
    (5, 126, Some((6, 7, 127_512_000))),
    (4, 510, Some((8, 8, 518_918_400))),
    (4, 1022, None),
    (3, 510, Some((8, 1, 362_880))),
];

#[test]
fn patterns_are_the_masks_within_the_limits(rt: HostRuntime) {
    for (n, mask, want) in MASKS {
        same_for(&rt, &numbers_of(n, mask), &want, &(n, mask));
    }
    let pattern = pattern_with(&rt, 5, 1 << 3 | 1 << 1 | 1 << 24);
    same(&rt, &pattern.tiles().as_slice(), &[1, 3, 24].as_slice());
    same(&rt, &pattern_with(&rt, 4, 14).transposed().mask(), &4368);
}

#[test]
fn placements_are_the_cells_of_tiles(rt: HostRuntime) {
    let pattern = pattern_with(&rt, 3, 14);
    check_cells(&rt, &Placement::goal(&pattern), &[1, 2, 3], 64);
    let placement = on_board(&rt, &pattern, &[0, 4, 5, 6, 7, 8, 3, 2, 1]);
    check_cells(&rt, &placement, &[8, 7, 6], 503);
    same(&rt, &placement.occupied(), &0b111_000_000);
}

/// Ranks of placements of eight tiles on side 4, and their cells.
const OF_EIGHT: [(u64, [u8; 8]); 4] = [
    (0, [0, 1, 2, 3, 4, 5, 6, 7]),
    (34_761_970, [1, 2, 3, 4, 5, 6, 7, 8]),
    (164_267_492, [5, 0, 15, 10, 3, 12, 6, 9]),
    (518_918_399, [15, 14, 13, 12, 11, 10, 9, 8]),
];

#[test]
fn ranks_of_eight_tiles_of_side_four(rt: HostRuntime) {
    let pattern = pattern_with(&rt, 4, 510);
    for (r, cells) in OF_EIGHT {
        check_cells(&rt, &of_rank(&rt, &pattern, r), &cells, r);
    }
    let mut placement = of_rank(&rt, &pattern, 0);
    assert!(rt; next(&mut placement));
    check_cells(&rt, &placement, &[0, 1, 2, 3, 4, 5, 6, 8], 1);
    assert!(rt; !next(&mut of_rank(&rt, &pattern, 518_918_399)));
}

#[test]
fn regions_are_masks_by_least_cell(rt: HostRuntime) {
    let placement = of_rank(&rt, &pattern_with(&rt, 5, 30), 14_286);
    check_cells(&rt, &placement, &[1, 5, 7, 11], 14_286);
    let wanted = [1, 33_552_156, 64];
    same(&rt, &regions(&placement).as_slice(), &wanted.as_slice());
    for (cell, slot) in [(0, 0), (2, 1), (24, 1), (6, 2)] {
        same_for(&rt, &slot_at(&placement, cell), &Some(slot), &cell);
    }
}

/// The slot of a cell, where the cell is free.
fn slot_at(placement: &Placement, cell: u8) -> Option<u8> {
    if is_free(placement, cell) {
        Some(slot_of(placement, cell))
    } else {
        None
    }
}

/// The slot of a cell that a table keeps, where the cell is free.
fn kept_slot_at(kept: &SlotTable, placement: &Placement, cell: u8) -> Option<u8>
    requires { placement.now.pattern.side ≡ kept.now }
{
    if is_free(placement, cell) {
        kept.slot(placement, cell)
    } else {
        None
    }
}

/// In each placement of a pattern's tiles each free cell has the slot that a flood finds if the sets are kept, and none if
/// they aren't.
fn check_sets(rt: &impl Abort, kept: &SlotTable, pattern: &Pattern, is_kept: bool)
    requires { pattern.now.side ≡ kept.now }
{
    for r in 0..pattern.count() {
        let placement = unrank(pattern, r);
        for cell in 0..pattern.side().cells() {
            let want = if is_kept {
                slot_at(&placement, cell)
            } else {
                None
            };
            same_for(rt, &kept_slot_at(kept, &placement, cell), &want, &(r, cell));
        }
    }
}

/// The masks of the tiles 1, 1 and 2, and so on.
const MASKS_OF_TILES: [u32; 8] = [2, 6, 14, 30, 62, 126, 254, 510];

/// Sides and masks of patterns.
const PATTERNS: [(u8, u32); 6] = [
    (2, 0b0010),
    (2, 0b0110),
    (2, 0b1110),
    (3, 0b10),
    (3, 0b1110),
    (3, 0b1_1111_1110),
];

#[test]
fn each_set_of_the_right_size_has_its_slots_and_no_other(rt: HostRuntime) -> Result<(), Fail> {
    for (side, mask) in PATTERNS {
        let pattern = pattern_with(&rt, side, mask);
        let kept = SlotTable::build(rt.alloc(), &pattern)?;
        for tiles in MASKS_OF_TILES {
            if let Some(other) = Pattern::of_mask(pattern.side(), tiles) {
                check_sets(&rt, &kept, &other, other.size() == pattern.size());
            }
        }
    }
    Ok(())
}

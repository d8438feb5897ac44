//! A value of each kernel over columns of bytes and of masks.

ghost use Rattle.std.specs.Prelude.{IsTrue};
ghost use Rattle.tab_lanes.specs.Floods.{AllMayGrow};

use crate::given::side_of;
use crate::same::same;
use puz_board::Side;
use std::process::Abort;
use tab_file::{GOAL_SLOT, OTHER_SLOT, WITHOUT_REGION};
use tab_lanes::{count_eq, first_bad, flood, flood_step, greatest_count, min_into};

/// The kinds of six slots.
const KINDS: [u8; 6] = [
    WITHOUT_REGION,
    GOAL_SLOT,
    OTHER_SLOT,
    OTHER_SLOT,
    OTHER_SLOT,
    OTHER_SLOT,
];

#[test]
fn columns_break_the_rule_where_they_do(rt: HostRuntime) {
    let entries = [0xFE, 0, 1, 0xFD, 0xFF, 5];
    let found = first_bad(&entries, &[0, 1, 0, 0xFC, 0xFF, 5], &KINDS);
    same(&rt, &found, &Some(5));
}

/// Two whole vectors and two places.
#[test]
fn columns_are_taken_to_their_ends(rt: HostRuntime) {
    let mut entries = [1; 130];
    entries[129] = 2;
    let found = first_bad(&entries, &[0; 130], &[OTHER_SLOT; 130]);
    same(&rt, &found, &Some(129));
    same(&rt, &count_eq(&entries, 1), &129);
    same(&rt, &greatest_count(&entries), &2);
    min_into(&mut entries, &[1; 130]);
    same(&rt, &entries, &[1; 130]);
}

/// Whether masks may grow over free cells.
fn may_all_grow(side: Side, masks: &[u32], free: &[u32]) -> bool
    ensures { IsTrue result → AllMayGrow side masks.now free.now }
{
    if masks.len() != free.len() {
        return false;
    }
    let cells = u32::from(side.cells());
    for place in 0..masks.len() {
        if free[place] >> cells != 0 || masks[place] & free[place] != masks[place] {
            return false;
        }
    }
    true
}

/// Three masks after a step, or after all steps, over these free cells.
fn grown(rt: &impl Abort, mut masks: [u32; 3], free: &[u32; 3], in_a_step: bool) -> [u32; 3] {
    let side = side_of(rt, 3);
    assert!(rt; may_all_grow(side, &masks[..], &free[..]));
    if in_a_step {
        flood_step(side, &mut masks[..], &free[..]);
    } else {
        flood(side, &mut masks[..], &free[..]);
    }
    masks
}

#[test]
fn masks_grow(rt: HostRuntime) {
    // From cell 2 down the last column and along the last row; cell 0 is alone.
    let free = [0b111_100_101; 3];
    let masks = [0b100, 0b1, 0];
    same(&rt, &grown(&rt, masks, &free, true), &[0b100_100, 0b1, 0]);
    same(
        &rt,
        &grown(&rt, masks, &free, false),
        &[0b111_100_100, 0b1, 0],
    );
}

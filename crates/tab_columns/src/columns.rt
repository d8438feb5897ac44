//! Columns of a block: its placements, and the kinds of their slots.
//!
//! A column has a number for each slot of each placement, in the order of the entries.

ghost use Rattle.std.specs.Prelude.{◌≡◌, ℕ, ◌+◌, ◌^◌, ◌<◌, ◌≤◌, IsTrue, length, slice_index, take};
ghost use Rattle.tab_file.specs.Tables.{placement_count};
ghost use Rattle.tab_rule.specs.Blocks.{block_ranks};
ghost use Rattle.tab_columns.specs.Columns.{HaveRanks, IsKindByMask, most_entries};

use pat_place::{Pattern, Placement, next, unrank};
use tab_file::{GOAL_SLOT, OTHER_SLOT, WITHOUT_REGION};
use tab_rule::BLOCK_RANKS;

/// The most placements that a block has.
pub(crate) const MOST_PLACEMENTS: usize = BLOCK_RANKS as usize;

/// The most entries that a block has: 8 slots for each placement.
pub(crate) const MOST_ENTRIES: usize = MOST_PLACEMENTS * 8;

/// So many placements in the order of their ranks, from this rank on. What stands behind them counts for nothing.
#[inline(never)] // so that the stack has the columns of one step alone
pub(crate) fn placements_from(
    pattern: &Pattern,
    first: u64,
    count: usize,
) -> [Placement; MOST_PLACEMENTS]
    requires some { 0 < count }
    requires few { count ≤ block_ranks }
    requires within { first + count ≤ placement_count pattern.now }
    ensures { HaveRanks pattern.now first (take count result) }
{
    let mut placement = unrank(pattern, first);
    let mut placements = [placement; MOST_PLACEMENTS];
    for row in 1..count {
        next(&mut placement);
        placements[row] = placement;
    }
    placements
}

/// The kind of each slot by the mask of its region. The number of the first slot's entry is given, and that of the goal's.
pub(crate) fn kinds_of(masks: &[u32; MOST_ENTRIES], begin: u64, goal: u64) -> [u8; MOST_ENTRIES]
    requires { begin < 2 ^ 32 }
    ensures len { length result ≡ most_entries }
    ensures each { (i : ℕ) → i < most_entries
        → IsKindByMask (slice_index masks.now i) (begin + i ≡ goal) (slice_index result i) }
{
    let mut kinds = [WITHOUT_REGION; MOST_ENTRIES];
    for (i, mask) in masks.iter().enumerate() {
        kinds[i] = kind_of(*mask, begin + i as u64 == goal);
    }
    kinds
}

/// The kind of a slot by the mask of its region.
#[inline]
fn kind_of(mask: u32, is_goal: bool) -> u8
    ensures { IsKindByMask mask (IsTrue is_goal) result }
{
    if mask == 0 {
        WITHOUT_REGION
    } else if is_goal {
        GOAL_SLOT
    } else {
        OTHER_SLOT
    }
}

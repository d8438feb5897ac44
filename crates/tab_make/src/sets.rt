//! The sets of as many cells as a pattern has tiles.

ghost use Rattle.std.specs.Prelude.{◌<◌, ◌≤◌, ◌^◌};

use pat_place::Pattern;
use puz_board::masks::{all_below, first_of};
use std::alloc::{AllocError, Global};

/// All sets of as many cells as a pattern has tiles, in ascending order of their masks.
pub(crate) fn all_sets(alloc: Global, pattern: &Pattern) -> Result<Vec<u32>, AllocError> {
    let all = all_below(pattern.side().cells());
    let mut sets = Vec::new(alloc);
    let mut next = u64::from(all_below(pattern.size()));
    for _ in 0..=all {
        if next == 0 || next > u64::from(all) {
            break;
        }
        let set = next as u32;
        sets.push(set)?;
        next = next_set(set);
    }
    Ok(sets)
}

/// The next set of as many cells: the least cell that can goes to the next one, and those below it go to the first cells.
fn next_set(set: u32) -> u64
    requires { 0 < set }
{
    let least = first_of(set);
    let set = u64::from(set);
    let carried = set + (1 << least);
    carried | (carried ^ set) >> least >> 2
}

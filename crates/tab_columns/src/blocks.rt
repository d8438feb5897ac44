//! The columns of a block, and its least bad entry.

ghost use Rattle.std.specs.Prelude.{◌≡◌, ◌+◌, ◌<◌, ◌≤◌, MatchOption, drop, length, take};
ghost use Rattle.tab_columns.specs.BlockColumns.{AreBlockColumns};
ghost use Rattle.tab_rule.specs.Blocks.{BlockKeepsRule, IsLeastBadIn, block_count};

use crate::columns::{MOST_ENTRIES, kinds_of, placements_from};
use crate::floods::masks_of;
use crate::neighbours::least_near;
use tab_file::TableView;
use tab_lanes::first_bad;
use tab_rule::{BLOCK_RANKS, goal_number};

/// The columns of a block: of each of its entries the kind of the slot, and the least entry one move away. What stands
/// behind them counts for nothing.
#[derive(Drop)]
pub(crate) struct BlockColumns {
    /// The number of the block's first entry.
    pub(crate) begin: usize,
    /// How many entries the block has.
    pub(crate) len: usize,
    pub(crate) kinds: [u8; MOST_ENTRIES],
    pub(crate) least: [u8; MOST_ENTRIES],
}

/// The columns of a block. A block has `BLOCK_RANKS` placements, the last one what is left.
pub(crate) fn columns_of(table: &TableView<'_>, block: u64) -> BlockColumns
    requires { block < block_count table.now.pattern }
    ensures { AreBlockColumns table.now block result.begin result.len result.kinds result.least }
{
    let pattern = table.pattern();
    let width = usize::from(pattern.width());
    let first = block * BLOCK_RANKS;
    let count = (pattern.count() - first).min(BLOCK_RANKS) as usize;
    let begin = first as usize * width;
    let len = count * width;
    let all = placements_from(&pattern, first, count);
    let placements = &all[..count];
    let masks = masks_of(table, placements);
    let kinds = kinds_of(&masks, begin as u64, goal_number(table));
    let least = least_near(table, placements, &masks);
    BlockColumns {
        begin,
        len,
        kinds,
        least,
    }
}

/// The number of a block's least entry that breaks the local rule.
pub fn check_block(table: &TableView<'_>, block: u64) -> Option<u64>
    requires { block < block_count table.now.pattern }
    ensures { MatchOption result (BlockKeepsRule table.now block) (IsLeastBadIn table.now block) }
{
    let columns = columns_of(table, block);
    let begin = columns.begin;
    let len = columns.len;
    let entries = part(table.entries(), begin, len);
    let least = part(&columns.least, 0, len);
    let kinds = part(&columns.kinds, 0, len);
    match first_bad(entries, least, kinds) {
        Some(place) => Some((begin + place) as u64),
        None => None,
    }
}

/// So many bytes from this one on.
fn part(bytes: &[u8], begin: usize, len: usize) -> &[u8]
    requires { begin + len ≤ length bytes.now }
    ensures { result.now ≡ take len (drop begin bytes.now) }
{
    &bytes[begin..begin + len]
}

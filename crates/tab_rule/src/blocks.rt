//! Blocks of a table: the placements are cut, in the order of their ranks, into pieces that are checked one by one.

ghost use Rattle.std.specs.Prelude.{◌≡◌};
ghost use Rattle.tab_rule.specs.Blocks.{block_count};

use pat_place::Pattern;

/// How many placements a block has.
pub const BLOCK_RANKS: u64 = 256;

/// How many blocks a table of the pattern has. Each has `BLOCK_RANKS` placements, the last one what is left.
pub fn block_count(pattern: &Pattern) -> u64
    ensures { result ≡ block_count pattern.now }
{
    pattern.count().div_ceil(BLOCK_RANKS)
}

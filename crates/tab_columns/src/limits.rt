//! Whether a table ends at a count that isn't enough.

ghost use Rattle.std.specs.Prelude.{◌↔◌, ◌<◌, IsTrue, MatchOption};
ghost use Rattle.tab_columns.specs.Limits.{BlockIsPast, BlockKeepsUpTo};
ghost use Rattle.tab_rule.specs.Blocks.{block_count};
ghost use Rattle.tab_rule.specs.Limits.{IsPassed, IsPast, KeepsRuleUpTo};

use crate::blocks::columns_of;
use tab_file::{GOAL_SLOT, NO_REGION, NO_WAY_HOME, OTHER_SLOT, TableView, WITHOUT_REGION};
use tab_rule::block_count;

/// Whether the counts of the pattern's boards pass a count, as this table shows: each entry keeps the local rule up to it,
/// and some entry is past it. No memory is taken; entry by entry, so that it is slow.
pub fn passes(table: &TableView<'_>, most: u8) -> bool
    ensures { IsTrue result ↔ IsPassed most table.now }
{
    let mut is_passed = false;
    for block in 0..block_count(&table.pattern()) {
        match block_passes(table, block, most) {
            Some(has_past) => is_passed |= has_past,
            None => return false,
        }
    }
    is_passed
}

/// Whether some entry of a block is past the count, where each keeps the local rule up to it; none where one breaks it.
fn block_passes(table: &TableView<'_>, block: u64, most: u8) -> Option<bool>
    requires { block < block_count table.now.pattern }
    ensures { MatchOption result
        (¬ BlockKeepsUpTo most table.now block)
        (λ is_past. BlockKeepsUpTo most table.now block
        × (IsTrue is_past ↔ BlockIsPast most table.now block)) }
{
    let columns = columns_of(table, block);
    let entries = table.entries();
    let mut has_past = false;
    for i in 0..columns.len {
        let kind = columns.kinds[i];
        let least = columns.least[i];
        let entry = entries[columns.begin + i];
        if !keeps_up_to(most, kind, least, entry) {
            return None;
        }
        has_past |= is_past(most, kind, least, entry);
    }
    Some(has_past)
}

/// Whether an entry keeps the local rule up to the count, by the kind of its slot and the least entry one move away.
#[inline]
fn keeps_up_to(most: u8, kind: u8, least: u8, entry: u8) -> bool
    ensures { IsTrue result ↔ KeepsRuleUpTo most kind least entry }
{
    match kind {
        WITHOUT_REGION => entry == NO_REGION,
        GOAL_SLOT => entry == 0,
        OTHER_SLOT if least < most => entry == least + 1,
        OTHER_SLOT => entry == NO_WAY_HOME && (least == most || least == NO_WAY_HOME),
        _ => false,
    }
}

/// Whether it is past the count.
#[inline]
fn is_past(most: u8, kind: u8, least: u8, entry: u8) -> bool
    ensures { IsTrue result ↔ IsPast most kind least entry }
{
    kind == OTHER_SLOT && least == most && entry == NO_WAY_HOME
}

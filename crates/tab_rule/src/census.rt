//! The census of a table's entries.

ghost use Rattle.tab_rule.specs.Counts.{IsCensusOf};

use tab_file::{NO_WAY_HOME, count_eq, greatest_count};

/// How many entries a table has, how many of them say that no walk leads home, and the greatest count.
#[derive(Clone, Copy, Debug, PartialEq, Eq)]
pub struct Census {
    pub entries: u64,
    pub unreachable: u64,
    pub deepest: u8,
}

/// The census of these entries.
pub(crate) fn census_of(entries: &[u8]) -> Census
    ensures { IsCensusOf entries.now result }
{
    Census {
        entries: entries.len() as u64,
        unreachable: count_eq(entries, NO_WAY_HOME),
        deepest: greatest_count(entries),
    }
}

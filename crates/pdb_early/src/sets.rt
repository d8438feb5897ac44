//! Set texts.

use pat_place::Pattern;
use set_sum::{MOST_TABLES, SetFault, SetText, one_side, text_fault};

/// Why so many tables and a set text make no bundle, as far as is seen of the text, and of the tables' patterns.
pub(crate) fn sets_fault(
    text: Option<&[u8]>,
    count: usize,
    patterns: Option<&[Pattern]>,
) -> Option<SetFault> {
    if count > MOST_TABLES {
        return Some(SetFault::S5);
    }
    match (patterns, text) {
        (Some(patterns), Some(text)) => SetText::read(patterns, text).err(),
        (Some(patterns), None) => one_side(patterns).err(),
        (None, Some(text)) => text_fault(text, count),
        (None, None) => None,
    }
}

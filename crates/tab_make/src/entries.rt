//! What the bytes of a table say, and where they stand.

ghost use Rattle.std.specs.Prelude.{◌≡◌, ◌≤◌, ◌↔◌, IsSome, IfSome};
ghost use Rattle.tab_file.specs.EntryBytes.{greatest_count};

use tab_file::GREATEST_COUNT;

/// How many tiles a pattern has at most.
pub const MOST_TILES: usize = 8;

/// The entry that holds a count, where the count is at most 253.
pub fn entry_of(count: u32) -> Option<u8>
    ensures some { IsSome result ↔ (count ≤ greatest_count) }
    ensures value { IfSome result (λ entry. entry ≡ count) }
{
    if count <= u32::from(GREATEST_COUNT) {
        Some(count as u8)
    } else {
        None
    }
}

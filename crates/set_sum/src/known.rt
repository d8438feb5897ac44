//! What members are known to say of a board of a walk.

ghost use Rattle.std.specs.Prelude.{◌≡◌, ℕ, ◌<◌, ◌≤◌, length};
ghost use Rattle.tab_file.specs.EntryBytes.{greatest_count};
ghost use Rattle.tab_rule.specs.declared.tables.Count.TheVariants.{Finite};
ghost use Rattle.set_sum.specs.Noting.{IsJoined, IsNoted};
ghost use Rattle.set_sum.specs.Known.{said_by};

use crate::bundles::MOST_MEMBERS;
use puz_board::masks::{first_of, with, without};
use tab_file::NO_WAY_HOME;
use tab_rule::Count;

/// What members are known to say of a board. Each member has a place.
#[derive(Clone, Copy)]
pub(crate) struct Known {
    /// The places of the members of which it is known: bit p for place p.
    pub(crate) places: u32,
    /// For each of these places what its member says, as a table's entry says it.
    pub(crate) entries: [u8; MOST_MEMBERS],
}

/// A step of a walk, by which it is taken back: where the blank was, and what was known of the board.
#[derive(Clone, Copy)]
pub struct PositionStep {
    pub(crate) from: u8,
    pub(crate) known: Known,
}

/// Notes the entry of one place.
#[inline]
pub(crate) fn note(known: &mut Known, place: u8, entry: u8)
    requires place { place < 32 }
    requires room { length known.old.entries ≡ 32 }
    ensures { IsNoted place entry known.old known.new }
{
    known.entries[usize::from(place)] = entry;
    known.places = with(known.places, place);
}

/// What is known, and at these places what is known elsewhere.
#[inline]
pub(crate) fn joined(known: &Known, other: &Known, places: u32) -> Known
    requires room { length known.now.entries ≡ 32 }
    requires other { length other.now.entries ≡ 32 }
    ensures { IsJoined places other.now known.now result }
{
    let mut now = *known;
    let mut fresh = places & !known.places;
    while fresh != 0 {
        let place = first_of(fresh);
        note(&mut now, place, other.entries[usize::from(place)]);
        fresh = without(fresh, place);
    }
    now
}

/// What an entry says.
#[inline]
pub(crate) fn said_by(entry: u8) -> Count
    ensures { result ≡ said_by entry }
{
    if entry == NO_WAY_HOME {
        Count::Never
    } else {
        Count::Finite(u16::from(entry))
    }
}

/// The entry that says this.
#[inline]
pub(crate) fn entry_of(count: Count) -> u8
    requires { (d : ℕ) → count ≡ Finite d → d ≤ greatest_count }
    ensures { said_by result ≡ count }
{
    match count {
        Count::Finite(count) => count as u8,
        Count::Never => NO_WAY_HOME,
    }
}

//! Bundles of full tables, without the bytes of the tables.

ghost use Rattle.std.specs.Prelude.{◌≡◌, ◌*◌, ◌<◌, ◌≤◌, ◌⊎◌, ℕ, true, IfNone, IfSome, MatchOption, [], length, map, slice_index_or};
ghost use Rattle.puz_board.specs.Cells.{step_of};
ghost use Rattle.edge_words.specs.Indexes.{index_count, most_words};
ghost use Rattle.set_sum.specs.Bundles.{IsBundle, most_members};
ghost use Rattle.set_sum.specs.Parts.{no_part, part_pattern, part_shown};
ghost use Rattle.set_sum.specs.declared.members.Member.{Member};
ghost use Rattle.puz_walk.specs.Outlines.{CanHaveWords, full_part};
ghost use Rattle.puz_walk.specs.Seats.{IsSeatOf};
ghost use Rattle.puz_walk.specs.WordBundles.{most_worded};

use crate::seats::{MOST_SEATS, Seat, all_seats, seat_place};
use crate::ways::{Ways, all_ways, way_place};
use arrayvec::ArrayVec;
use edge_words::index_count;
use puz_board::{Move, Side};
use set_sum::{Bundle, MOST_MEMBERS, MOST_SETS, Member, Part};
use std::marker::Model;

/// The most tables of a bundle with words.
pub(crate) const MOST_WORDED: usize = 8;

/// The members of a set.
type SetOutline = ArrayVec<Member, MOST_MEMBERS>;

/// A bundle of full tables without the bytes of the tables: the patterns and the sets, and what a walk over edge words asks at
/// each move.
#[derive(Drop)]
pub struct Outline {
    side: Side,
    /// The tiles of each table's pattern, as a mask.
    masks: ArrayVec<u32, MOST_WORDED>,
    sets: ArrayVec<SetOutline, MOST_SETS>,
    /// For each set, tile and move what is read and changed when the move moves the tile.
    seats: [Seat; MOST_SEATS],
    /// For each cell and move the cell to which it leads.
    ways: Ways,
}

impl Model for Outline {
    ghost use Rattle.set_sum.specs.Bundles.{ShownBundle};

    ghost Value = { ShownBundle };

    ghost use Rattle.puz_walk.specs.StoredOutlines.{IsStoredOutline, outline_shown};

    ghost view = { outline_shown };

    ghost invariant = { IsStoredOutline };
}

impl Outline {
    /// The outline of a bundle. There is none where there are more than 8 tables, where a table is folded, or where a pattern
    /// has more indexes than there may be words.
    pub fn of(bundle: &Bundle<'_>) -> Option<Outline>
        ensures some { IfSome result (λ made. (made ≡ bundle.now) × CanHaveWords bundle.now) }
        ensures none { IfNone result (¬ CanHaveWords bundle.now) }
    {
        let masks = masks_of(bundle)?;
        let side = bundle.side();
        Some(Outline {
            side,
            masks,
            sets: sets_of(bundle),
            seats: all_seats(bundle),
            ways: all_ways(side),
        })
    }

    /// The side of the boards.
    pub fn side(&self) -> Side
        ensures side { result ≡ self.now.side }
        ensures bundle { IsBundle self.now }
    {
        self.side
    }

    /// How many tables there are.
    pub(crate) fn tables(&self) -> usize
        ensures tables { result ≡ length self.now.tables }
        ensures few { result ≤ most_worded }
    {
        self.masks.len()
    }

    /// The tiles of a table's pattern, as a mask.
    pub(crate) fn mask(&self, table: usize) -> u32
        requires { table < length self.now.tables }
        ensures { full_part result ≡ slice_index_or self.now.tables table no_part }
    {
        self.masks.as_slice()[table]
    }

    /// How many sets there are.
    #[inline]
    pub(crate) fn sets(&self) -> u8
        ensures sets { result ≡ length self.now.sets }
        ensures bundle { IsBundle self.now }
    {
        self.sets.len() as u8
    }

    /// The cell to which a move leads, where the blank stays on the board.
    #[inline]
    pub(crate) fn after(&self, cell: u8, mv: Move) -> Option<u8>
        requires { cell < self.now.side * self.now.side }
        ensures { result ≡ step_of self.now.side cell mv }
    {
        self.ways[way_place(cell, mv)]
    }

    /// The seat of a tile in a set for a move.
    #[inline]
    pub(crate) fn seat(&self, set: u8, tile: u8, mv: Move) -> Seat
        requires set { set < length self.now.sets }
        requires tile { tile < self.now.side * self.now.side }
        ensures seat { IsSeatOf self.now set tile mv result }
    {
        self.seats[seat_place(set, tile, mv)]
    }
}

/// The tiles of the patterns of all tables of a bundle, where each can have words.
fn masks_of(bundle: &Bundle<'_>) -> Option<ArrayVec<u32, MOST_WORDED>>
    ensures some { IfSome result (λ masks.
        CanHaveWords bundle.now × (map full_part masks.items ≡ bundle.now.tables)) }
    ensures none { IfNone result (¬ CanHaveWords bundle.now) }
{
    let tables = bundle.tables();
    if usize::from(tables) > MOST_WORDED {
        return None;
    }
    let mut masks = ArrayVec::new();
    for number in 0..tables {
        masks.push(mask_of(bundle.part(number))?);
    }
    Some(masks)
}

/// The tiles of a table's pattern, where the table can have words.
fn mask_of(part: &Part<'_>) -> Option<u32>
    ensures { MatchOption result
        (((part_shown part.now).is_folded ≡ true)
        ⊎ (most_words < index_count (part_pattern part.now)))
        (λ mask. (part_shown part.now ≡ full_part mask)
        × (index_count (part_pattern part.now) ≤ most_words)) }
{
    match part {
        Part::Full(table) => {
            let pattern = table.pattern();
            index_count(&pattern)?;
            Some(pattern.mask())
        }
        Part::Folded(_) => None,
    }
}

/// The members of all sets of a bundle.
fn sets_of(bundle: &Bundle<'_>) -> ArrayVec<SetOutline, MOST_SETS>
    ensures { map (λ set. set.items) result.items ≡ bundle.now.sets }
{
    let mut sets = ArrayVec::new();
    for set in 0..bundle.sets() {
        sets.push(copied(bundle.members(set)));
    }
    sets
}

/// The members of a set, in a list of their own.
fn copied(members: &[Member]) -> SetOutline
    requires { length members.now ≤ most_members }
    ensures { result.items ≡ members.now }
{
    let mut set = ArrayVec::new();
    for member in members {
        set.push(*member);
    }
    set
}

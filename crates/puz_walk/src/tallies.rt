//! For each set its sum on a board, and what its members say of the board.

ghost use Rattle.std.specs.Prelude.{◌≡◌, ℕ, ◌+◌, ◌^◌, ◌<◌, IfNone, IfSome, List, length};
ghost use Rattle.puz_board.specs.Boards.{side_of};
ghost use Rattle.set_sum.specs.Known.{place_of, said_by};
ghost use Rattle.set_sum.specs.Members.{MemberSays};
ghost use Rattle.set_sum.specs.declared.members.Member.{Member};
ghost use Rattle.puz_walk.specs.Cuts.{AreBelow, GoesBeyond};
ghost use Rattle.puz_walk.specs.Tallies.{AreEntriesOf, AreLow, AreTallied, AreTold, IsLow, IsSlideOf, IsTold, entry_place};

use crate::cuts::sums_of;
use crate::owners::{MOST_OWNERS, Owner, all_owners};
use puz_board::Board;
use set_sum::{Bundle, MOST_SETS, Member, Position};

/// How many entries there are: 32 for each of 16 sets.
pub(crate) const MOST_ENTRIES: usize = 512;

/// For each set its sum on a board, and what its members say of the board.
#[derive(Drop)]
pub(crate) struct Tally {
    /// For each set and tile the member of the set whose pattern has the tile.
    pub(crate) owners: [Option<Owner>; MOST_OWNERS],
    pub(crate) sums: [u8; MOST_SETS],
    /// The set that is asked first.
    pub(crate) first: u8,
    /// What each member of each set says, as an entry of its table says it.
    pub(crate) entries: [u8; MOST_ENTRIES],
}

/// For each set the entry of its owner of a tile. Where it has none, 0.
pub(crate) type Told = [u8; MOST_SETS];

/// Where the entry of a member of a set is kept.
#[inline]
fn entry_place(set: u8, member: Member) -> usize
    requires { member.table < 16 }
    ensures { result ≡ entry_place set member }
{
    32 * usize::from(set) + 2 * usize::from(member.table) + usize::from(member.is_transposed)
}

/// The tally of a board where no set has a sum above a limit.
pub(crate) fn tally_of(position: &Position<'_>, board: &Board, most: u8) -> Option<Tally>
    requires board { board.now ≡ position.now.board }
    requires side { side_of board.now ≡ position.now.bundle.side }
    ensures some { IfSome result (λ tally.
        AreTallied position.now.bundle position.now.board tally
        × AreBelow position.now.bundle position.now.board (most + 1)) }
    ensures none { IfNone result
        (GoesBeyond position.now.bundle position.now.board (most + 1)) }
{
    let bundle = position.bundle();
    // Asked only for what its contract says.
    let _sets = bundle.sets();
    let sums = sums_of(bundle, board, most)?;
    Some(Tally {
        owners: all_owners(bundle),
        sums,
        first: 0,
        entries: all_entries(position),
    })
}

/// What the members of all sets say of a board.
fn all_entries(position: &Position<'_>) -> [u8; MOST_ENTRIES]
    ensures room { length result ≡ 512 }
    ensures entries { (set : ℕ) → set < length position.now.bundle.sets
        → AreEntriesOf position.now.bundle position.now.board result set }
{
    let mut entries = [0; MOST_ENTRIES];
    for place in 0..32 * u16::from(position.bundle().sets()) {
        entries[usize::from(place)] = entry_at(position, (place % 32) as u8);
    }
    entries
}

/// What the member with a place says of a board, where there is its table.
fn entry_at(position: &Position<'_>, place: u8) -> u8
    ensures { (member : Member) → member.table < length position.now.bundle.tables
        → place ≡ place_of member
        → MemberSays position.now.bundle.tables member position.now.board (said_by result) }
{
    let member = Member {
        table: place / 2,
        is_transposed: place % 2 == 1,
    };
    if member.table < position.bundle().tables() {
        position.entry(member)
    } else {
        0
    }
}

/// A set whose sum isn't below a limit now that a tile has moved. Where there is none, `told` has what the owners of the tile say
/// now. The tally is of the board before the move.
#[inline]
pub(crate) fn judge(
    position: &Position<'_>,
    tally: &Tally,
    tile: u8,
    limit: u8,
    told: &mut Told,
) -> Option<u8>
    requires room { length told.old ≡ 16 }
    requires limit { limit < 255 }
    requires moved { (b : List ℕ) × IsSlideOf position.now.bundle b position.now.board tile
        × AreTallied position.now.bundle b tally.now }
    ensures told { IfNone result
        (AreTold position.now.bundle position.now.board tile told.new) }
    ensures low { IfNone result
        (AreLow position.now.bundle position.now.board limit) }
    ensures cut { IfSome result (λ set.
        GoesBeyond position.now.bundle position.now.board limit) }
    ensures set { IfSome result (λ set. set < length position.now.bundle.sets) }
{
    let sets = position.bundle().sets();
    let first = tally.first;
    let Some(entry) = judged(position, tally, tile, limit, first) else {
        return Some(first);
    };
    told[usize::from(first)] = entry;
    for set in 0..sets {
        if set != first {
            let Some(entry) = judged(position, tally, tile, limit, set) else {
                return Some(set);
            };
            told[usize::from(set)] = entry;
        }
    }
    None
}

/// What the owner of a tile that has moved says of the board, where the sum of the set is below a limit now.
#[inline]
fn judged(position: &Position<'_>, tally: &Tally, tile: u8, limit: u8, set: u8) -> Option<u8>
    requires set { set < length position.now.bundle.sets }
    requires limit { limit < 255 }
    requires moved { (b : List ℕ) × IsSlideOf position.now.bundle b position.now.board tile
        × AreTallied position.now.bundle b tally.now }
    ensures told { IfSome result
        (IsTold position.now.bundle position.now.board tile set) }
    ensures low { IfSome result (λ entry.
        IsLow position.now.bundle position.now.board limit set) }
    ensures cut { IfNone result
        (GoesBeyond position.now.bundle position.now.board limit) }
{
    let _sets = position.bundle().sets();
    let sum = tally.sums[usize::from(set)];
    let Some(owner) = tally.owners[32 * usize::from(set) + usize::from(tile)] else {
        return if sum < limit { Some(0) } else { None };
    };
    let others = sum - tally.entries[entry_place(set, owner.member)];
    let entry = position.entry(owner.member);
    if u16::from(others) + u16::from(entry) < u16::from(limit) {
        Some(entry)
    } else {
        None
    }
}

/// Takes what the owners of a tile that has moved say now, and hands back what they said before.
#[inline]
pub(crate) fn exchange(bundle: &Bundle<'_>, tally: &mut Tally, tile: u8, told: &mut Told)
    requires { (b : List ℕ) × (next : List ℕ) × IsSlideOf bundle.now b next tile
        × AreTallied bundle.now b tally.old × AreTold bundle.now next tile told.old
        × AreLow bundle.now next (2 ^ 8) }
    ensures tally { (b next : List ℕ) → IsSlideOf bundle.now b next tile
        → AreTallied bundle.now b tally.old → AreTold bundle.now next tile told.old
        → AreLow bundle.now next (2 ^ 8) → AreTallied bundle.now next tally.new }
    ensures told { (b next : List ℕ) → IsSlideOf bundle.now b next tile
        → AreTallied bundle.now b tally.old → AreTold bundle.now next tile told.old
        → AreLow bundle.now next (2 ^ 8) → AreTold bundle.now b tile told.new }
{
    for set in 0..bundle.sets() {
        let number = usize::from(set);
        if let Some(owner) = tally.owners[32 * number + usize::from(tile)] {
            let place = entry_place(set, owner.member);
            let before = tally.entries[place];
            tally.sums[number] = tally.sums[number] - before + told[number];
            tally.entries[place] = told[number];
            told[number] = before;
        }
    }
}

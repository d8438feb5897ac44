//! The member of a set whose pattern has a tile.

ghost use Rattle.std.specs.Prelude.{◌≡◌, ◌*◌, ◌<◌, length};
ghost use Rattle.puz_walk.specs.StoredWords.{AreOwnersOf, IsOwnerOf, cell_for, move_for, transposed_move};

use puz_board::masks::{count_below, has_cell};
use puz_board::{Move, Side, transposed_cell};
use set_sum::{Bundle, Member};

/// How many owners there are: 32 for each of 16 sets.
pub(crate) const MOST_OWNERS: usize = 512;

/// The member of a set whose pattern has a tile.
#[derive(Clone, Copy)]
pub(crate) struct Owner {
    pub(crate) member: Member,
    /// The index of the tile that it looks up in the pattern of its table.
    pub(crate) tile: u8,
}

/// The member of a set whose pattern has a tile.
pub(crate) fn owner_of(bundle: &Bundle<'_>, set: u8, tile: u8) -> Option<Owner>
    requires set { set < length bundle.now.sets }
    requires tile { tile < bundle.now.side * bundle.now.side }
    ensures { IsOwnerOf bundle.now set tile result }
{
    let side = bundle.side();
    for member in bundle.members(set) {
        let wanted = cell_for(side, *member, tile);
        let mask = bundle.part(member.table).pattern().mask();
        if has_cell(mask, wanted) {
            return Some(Owner {
                member: *member,
                tile: count_below(mask, wanted),
            });
        }
    }
    None
}

/// For each set and tile the member of the set whose pattern has the tile.
pub(crate) fn all_owners(bundle: &Bundle<'_>) -> [Option<Owner>; MOST_OWNERS]
    ensures { AreOwnersOf bundle.now result }
{
    let cells = bundle.side().cells();
    let mut owners = [None; MOST_OWNERS];
    for place in 0..32 * u16::from(bundle.sets()) {
        let tile = (place % 32) as u8;
        if tile < cells {
            owners[usize::from(place)] = owner_of(bundle, (place / 32) as u8, tile);
        }
    }
    owners
}

/// The cell, or the tile, that a member looks up.
fn cell_for(side: Side, member: Member, cell: u8) -> u8
    requires { cell < side * side }
    ensures value { result ≡ cell_for side member cell }
    ensures within { result < side * side }
{
    if member.is_transposed {
        transposed_cell(side, cell)
    } else {
        cell
    }
}

/// The move by which the board moves that a member looks up.
#[inline]
pub(crate) fn move_for(member: Member, mv: Move) -> Move
    ensures { result ≡ move_for member mv }
{
    if member.is_transposed {
        transposed_move(mv)
    } else {
        mv
    }
}

/// The move with rows and columns exchanged.
#[inline]
fn transposed_move(mv: Move) -> Move
    ensures { result ≡ transposed_move mv }
{
    match mv {
        Move::Up => Move::Left,
        Move::Down => Move::Right,
        Move::Left => Move::Up,
        Move::Right => Move::Down,
    }
}

//! For each set, tile and move what a walk reads and changes when the move moves the tile.

ghost use Rattle.std.specs.Prelude.{◌≡◌, ◌*◌, ◌<◌, ◌≤◌, ℕ, length};
ghost use Rattle.edge_words.specs.Indexes.{index_count, most_words};
ghost use Rattle.edge_words.specs.Spots.{IsIndexStep};
ghost use Rattle.edge_words.specs.Words.{bit_number};
ghost use Rattle.set_sum.specs.Parts.{part_pattern};
ghost use Rattle.puz_walk.specs.Seats.{AreSeatsOf, IsSeatFor, IsSeatOf, IsVacant, seat_place};
ghost use Rattle.puz_walk.specs.StoredWords.{IsOwner, move_for};
ghost use Rattle.puz_walk.specs.Outlines.{CanHaveWords};

use crate::owners::{Owner, move_for, owner_of};
use crate::ways::way_of;
use crate::word_spots::member_place;
use edge_words::{bit_number, index_step};
use puz_board::{MOVES, Move};
use set_sum::{Bundle, Part};

/// How many seats there are: 4 for each of 32 tiles of 16 sets.
pub(crate) const MOST_SEATS: usize = 2048;

/// The number of no table.
const NO_TABLE: u8 = 255;

/// What a walk reads and changes of a set when a move moves a tile.
#[derive(Clone, Copy)]
pub(crate) struct Seat {
    /// The table of the member of the set whose pattern has the tile. Where there is none, it is none of the bundle's.
    pub(crate) table: u8,
    /// Where the index and the word of the member are kept.
    pub(crate) place: u8,
    /// The bit of a word that says whether the move raises the count.
    pub(crate) bit: u8,
    /// How many members of the set have the tile: 1, or 0.
    pub(crate) owners: u8,
    /// What the move adds to the index, modulo 2^32.
    pub(crate) step: u32,
}

/// Where the seat of a tile in a set is kept for a move.
#[inline]
pub(crate) fn seat_place(set: u8, tile: u8, mv: Move) -> usize
    ensures { result ≡ seat_place set tile mv }
{
    128 * usize::from(set) + 4 * usize::from(tile) + way_of(mv)
}

/// The seats of the tiles of all sets for all moves.
pub(crate) fn all_seats(bundle: &Bundle<'_>) -> [Seat; MOST_SEATS]
    requires { CanHaveWords bundle.now }
    ensures { AreSeatsOf bundle.now result }
{
    let cells = bundle.side().cells();
    let mut seats = [vacant(0); MOST_SEATS];
    for place in 0..128 * u16::from(bundle.sets()) {
        let tile = (place / 4 % 32) as u8;
        if tile < cells {
            let mv = MOVES[usize::from(place % 4)];
            seats[usize::from(place)] = seat_of(bundle, (place / 128) as u8, tile, mv);
        }
    }
    seats
}

/// The seat of a tile in a set for a move.
fn seat_of(bundle: &Bundle<'_>, set: u8, tile: u8, mv: Move) -> Seat
    requires tables { CanHaveWords bundle.now }
    requires set { set < length bundle.now.sets }
    requires tile { tile < bundle.now.side * bundle.now.side }
    ensures { IsSeatOf bundle.now set tile mv result }
{
    // Asked only for what its contract says.
    let _sets = bundle.sets();
    match owner_of(bundle, set, tile) {
        Some(owner) => owned_seat(bundle, set, owner, mv),
        None => vacant(set),
    }
}

/// The seat of a tile that a member of a set has, for a move.
fn owned_seat(bundle: &Bundle<'_>, set: u8, owner: Owner, mv: Move) -> Seat
    requires tables { CanHaveWords bundle.now }
    requires set { set < length bundle.now.sets }
    requires owner { (tile : ℕ) × IsOwner bundle.now set tile owner }
    ensures { IsSeatFor bundle.now set owner mv result }
{
    let _sets = bundle.sets();
    Seat {
        table: owner.member.table,
        place: member_place(set, owner.member) as u8,
        bit: bit_for(owner, mv),
        owners: 1,
        step: step_for(bundle.part(owner.member.table), owner, mv),
    }
}

/// The bit of a word that tells of a move of the board.
fn bit_for(owner: Owner, mv: Move) -> u8
    requires { owner.tile < 8 }
    ensures { result ≡ bit_number owner.tile (move_for owner.member mv) }
{
    bit_number(owner.tile, move_for(owner.member, mv))
}

/// What a move of the board adds to the index of the owner of its tile.
fn step_for(part: &Part<'_>, owner: Owner, mv: Move) -> u32
    requires few { index_count (part_pattern part.now) ≤ most_words }
    requires tile { owner.tile < length (part_pattern part.now).tiles }
    ensures { IsIndexStep (part_pattern part.now) owner.tile (move_for owner.member mv) result }
{
    index_step(&part.pattern(), owner.tile, move_for(owner.member, mv))
}

/// The seat of a tile that no member of a set has. Its place is one of the set, so that what is put back there is.
fn vacant(set: u8) -> Seat
    requires { set < 16 }
    ensures { IsVacant set result }
{
    Seat {
        table: NO_TABLE,
        place: 16 * set,
        bit: 0,
        owners: 0,
        step: 0,
    }
}

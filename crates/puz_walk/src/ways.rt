//! Where moves lead.

ghost use Rattle.std.specs.Prelude.{◌≡◌, ◌*◌, ◌+◌, ◌<◌};
ghost use Rattle.edge_words.specs.Words.{way_of};
ghost use Rattle.puz_walk.specs.StoredWords.{AreWaysOf};

use puz_board::{MOVES, Move, Side, step};

/// How many moves there are from all cells: four from each of 25.
pub(crate) const MOST_WAYS: usize = 100;

/// For each cell and move the cell to which it leads.
pub(crate) type Ways = [Option<u8>; MOST_WAYS];

/// Where the cell to which a move leads is kept.
#[inline]
pub(crate) fn way_place(cell: u8, mv: Move) -> usize
    ensures { result ≡ 4 * cell + way_of mv }
{
    4 * usize::from(cell) + way_of(mv)
}

/// The number of a move.
#[inline]
pub(crate) fn way_of(mv: Move) -> usize
    ensures number { result ≡ way_of mv }
    ensures few { result < 4 }
{
    match mv {
        Move::Up => 0,
        Move::Down => 1,
        Move::Left => 2,
        Move::Right => 3,
    }
}

/// For each cell and move of boards of a side the cell to which it leads.
pub(crate) fn all_ways(side: Side) -> Ways
    ensures { AreWaysOf side result }
{
    let mut ways = [None; MOST_WAYS];
    for place in 0..4 * side.cells() {
        ways[usize::from(place)] = step(side, place / 4, MOVES[usize::from(place % 4)]);
    }
    ways
}

//! How far the letters that tell a part have been read.

ghost use Rattle.std.specs.Prelude.{◌≡◌, ◌+◌, ◌-◌, ◌*◌, ◌^◌, ◌<◌, ◌≤◌, IsTrue, false};

use move_strings::{BoundPart, rank_of_move};
use puz_board::Move;

/// How far the letters that tell a part have been read.
#[derive(Clone, Copy)]
pub(crate) struct Prefix {
    index: u16,
    count: u16,
    /// How many letters are still to come.
    pub(crate) ahead: u8,
    /// The rank of those that have been read.
    rank: u64,
    ghost some: { 1 ≤ count },
    ghost few: { ahead ≤ 20 },
    ghost small: { rank < 2 ^ (2 * (20 - ahead)) },
}

impl Prefix {
    ghost use Rattle.move_strings.specs.BoundParts.{letters_of};
    ghost use Rattle.puz_search.specs.Prefixes.{IsInside, IsOutside, IsRead, next_ahead, next_rank, part_of};

    /// All moves: no letter is to come, and each board is of the part.
    pub(crate) fn of_all() -> Prefix
        ensures { IsRead result }
    {
        Prefix {
            index: 0,
            count: 1,
            ahead: 0,
            rank: 0,
        }
    }

    /// The moves of a part, none of whose letters has been read.
    pub(crate) fn of_part(part: BoundPart) -> Prefix
        ensures part { part_of result ≡ part }
        ensures ahead { result.ahead ≡ letters_of part }
        ensures rank { result.rank ≡ 0 }
    {
        Prefix {
            index: part.index(),
            count: part.count(),
            ahead: part.letters(),
            rank: 0,
        }
    }

    /// What has been read after a move.
    pub(crate) fn after(&self, mv: Move) -> Prefix
        ensures part { part_of result ≡ part_of self.now }
        ensures ahead { result.ahead ≡ next_ahead self.now.ahead }
        ensures rank { result.rank ≡ next_rank self.now.ahead self.now.rank mv }
    {
        if self.ahead == 0 {
            return *self;
        }
        Prefix {
            index: self.index,
            count: self.count,
            ahead: self.ahead - 1,
            rank: 4 * self.rank + u64::from(rank_of_move(mv)),
        }
    }

    /// Whether no letter is to come, and they aren't of the part.
    pub(crate) fn is_outside(&self) -> bool
        ensures outside { IsTrue result
            → IsOutside (part_of self.now) self.now.ahead self.now.rank }
        ensures inside { result ≡ false
            → IsInside (part_of self.now) self.now.ahead self.now.rank }
    {
        self.ahead == 0 && self.rank % u64::from(self.count) != u64::from(self.index)
    }
}

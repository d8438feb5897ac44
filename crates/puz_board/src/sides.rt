//! How large a board is.

ghost use Rattle.std.specs.Prelude.{◌≡◌, ℕ, ◌*◌, ◌≤◌, MatchOption};
ghost use Rattle.std.specs.Option.{SomeIff};
ghost use Rattle.puz_board.specs.Boards.{side_of_count};

use std::marker::Model;

/// How many cells a row of the board has, and how many rows there are: 2, 3, 4 or 5.
#[derive(Clone, Copy, Debug, PartialEq, Eq)]
pub struct Side {
    n: u8,
}

impl Model for Side {
    ghost Value = { ℕ };

    ghost view = { λ s. s.n };

    ghost invariant = { λ s. (2 ≤ s.n) × (s.n ≤ 5) };

    ghost inverse = { λ n. record { n = n } };
}

impl Side {
    /// The side `n`, where it is one of 2 to 5.
    pub fn of(n: u8) -> Option<Side>
        ensures { SomeIff result ((2 ≤ n) × (n ≤ 5)) n }
    {
        if 2 <= n && n <= 5 {
            Some(Side { n })
        } else {
            None
        }
    }

    /// The side of a board of so many cells.
    #[tactic(auto, unfolding(crate::specs::Boards::side_of_count))]
    pub(crate) fn of_count(count: usize) -> Option<Side>
        ensures { MatchOption result
            (side_of_count count ≡ 0)
            (λ n. (n ≡ side_of_count count) × (2 ≤ n) × (n ≤ 5) × (count ≡ n * n)) }
    {
        match count {
            4 => Some(Side { n: 2 }),
            9 => Some(Side { n: 3 }),
            16 => Some(Side { n: 4 }),
            25 => Some(Side { n: 5 }),
            _ => None,
        }
    }

    /// The side as a number.
    pub fn get(self) -> u8
        ensures value { result ≡ self }
        ensures low { 2 ≤ self }
        ensures high { self ≤ 5 }
    {
        self.n
    }

    /// How many cells the board has: 4, 9, 16 or 25.
    pub fn cells(self) -> u8
        ensures value { result ≡ self * self }
        ensures low { 2 ≤ self }
        ensures high { self ≤ 5 }
    {
        self.n * self.n
    }
}

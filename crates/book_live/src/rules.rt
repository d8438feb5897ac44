//! The rule of a book's two words, and what each kind of step tells.

use crate::views::{Sizes, View};
use atomic_table::{Join, Play, Seat, Split, TableRule};

/// The word that counts the claims.
pub const NEXT: usize = 0;

/// The word that holds the least reported place, or `NONE`.
pub const LEAST: usize = 1;

/// Places are below this, so that it can stand for none.
pub const NONE: u64 = 1 << 32;

/// What a thread steps with. It has no bytes.
pub type BookSeat = Seat<(), View>;

/// The words and the views show the book after some list of events.
pub struct Rule;

impl TableRule<(), View, Sizes> for Rule {
    ghost use Rattle.book_live.specs.Views.{opening};
    ghost use Rattle.book_live.specs.Shown.{Shown};

    ghost holds = { Shown };

    ghost first = { opening };
}

/// A claim: a fetch_add of one.
pub struct Claims;

impl Play<(), View> for Claims {
    ghost use Rattle.std.specs.Prelude.{◌≡◌};
    ghost use Rattle.book_live.specs.SeatSteps.{Claimed};

    ghost then = { λ _ before found after. Claimed before.0 found after.0 × (after.1 ≡ before.1) };
}

/// A report: a fetch_min of the place.
pub struct Reports;

impl Play<(), View> for Reports {
    ghost use Rattle.std.specs.Prelude.{◌≡◌};
    ghost use Rattle.book_live.specs.SeatSteps.{Placed};

    ghost then = { λ step before _ after.
        Placed before.0 step.first after.0 × (after.1 ≡ before.1) };
}

/// A look: a load.
pub struct Looks;

impl Play<(), View> for Looks {
    ghost use Rattle.std.specs.Prelude.{◌≡◌};
    ghost use Rattle.book_live.specs.SeatSteps.{Looked};

    ghost then = { λ _ before found after. Looked before.0 found after.0 × (after.1 ≡ before.1) };
}

/// How seats are made and joined: a new one takes the first pass, and a joined one adds its passes behind.
pub struct Shares;

impl Split<View> for Shares {
    ghost use Rattle.book_live.specs.Views.{without_first, first_alone};

    ghost left = { without_first };

    ghost right = { first_alone };
}

impl Join<View> for Shares {
    ghost use Rattle.book_live.specs.Views.{together, spent};

    ghost both = { together };

    ghost spent = { spent };
}

//! The right of one worker to take steps on its book.

ghost use Rattle.std.specs.Prelude.{◌≡◌};

use crate::rules::BookSeat;
use std::marker::Model;

/// One of the passes of a book. It may go to another thread, and only who has it steps with it.
#[derive(Drop)]
pub struct Pass {
    pub(crate) seat: BookSeat,
    pub(crate) number: u8,
    pub(crate) ended: bool,
}

impl Model for Pass {
    ghost use Rattle.book_live.specs.Callers.{PassState};

    ghost Value = { PassState };

    ghost use Rattle.std.specs.Prelude.{◌≡◌, []};
    ghost use Rattle.book_live.specs.Views.{alone};
    ghost use Rattle.book_live.specs.StoredPasses.{deeds_of};

    ghost view = { λ p. record {
      book = record { table = p.seat.table_id; sizes = p.seat.me.0.sizes };
      number = p.number;
      deeds = deeds_of p.seat.me.0;
    } };

    // The seat stands for this pass alone and holds no slot.
    ghost invariant = { λ p.
        (p.seat.me ≡ (alone p.seat.me.0.sizes p.number (deeds_of p.seat.me.0), []))
        × ((deeds_of p.seat.me.0).ended ≡ p.ended) };
}

impl Pass {
    /// Its number among the passes of its book, from 0.
    pub fn number(&self) -> u8
        ensures { result ≡ self.now.number }
    {
        self.number
    }

    /// Whether a claim of it was told that no job is left.
    pub fn ended(&self) -> bool
        ensures { result ≡ self.now.deeds.ended }
    {
        self.ended
    }
}

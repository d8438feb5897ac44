//! What a seat of a book shows. The rule and the proofs speak of it, and no value of a view is made.

use book_core::Deeds;
use std::collections::LinkedList;
use std::marker::Model;

/// How many jobs and passes a book has.
#[derive(Drop)]
pub struct Sizes {
    pub jobs: u64,
    pub workers: u8,
}

/// A pass with its number.
pub struct NumberedPass {
    number: u8,
    deeds: Deeds,
}

impl Model for NumberedPass {
    ghost use Rattle.book_core.specs.Shares.{NumberedPass};

    ghost Value = { NumberedPass };

    ghost view = { λ p. record { number = p.number; deeds = p.deeds } };
}

/// The passes that a seat stands for.
pub struct View {
    pub sizes: Sizes,
    pub held: LinkedList<NumberedPass>,
}

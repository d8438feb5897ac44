//! The parts of a bound.

ghost use Rattle.std.specs.Prelude.{◌≡◌, ◌%◌, ◌<◌, ◌≤◌};
ghost use Rattle.std.specs.Option.{SomeIff};
ghost use Rattle.move_strings.specs.BoundParts.{IsPart, ShownPart, digits_of, letters_of};

use std::marker::Model;

/// The most parts of a bound.
pub const MOST_PARTS: u16 = 65535;

/// So many letters more than the count of parts has digits to the base 4 tell the part, so that the parts are of like size.
const MORE_LETTERS: u8 = 12;

/// One of the parts of a bound, whose count is odd.
///
/// It has those strings of moves whose first letters, read as a number to the base 4, leave its index where they are divided by
/// the count of parts. Strings that are too short for that are of each part. An even count would make parts of unlike size: the
/// last letters alone would tell them apart.
#[derive(Clone, Copy, Debug, PartialEq, Eq)]
pub struct BoundPart {
    index: u16,
    count: u16,
}

impl Model for BoundPart {
    ghost use Rattle.move_strings.specs.BoundParts.{IsPart, ShownPart};

    ghost Value = { ShownPart };

    ghost view = { λ p. record { index = p.index; count = p.count } };

    ghost invariant = { λ p. IsPart (record { index = p.index; count = p.count }) };

    ghost inverse = { λ p. record { index = p.index; count = p.count } };
}

impl BoundPart {
    /// The part with this index of so many, where the index is below the count and the count is odd.
    pub fn new(index: u16, count: u16) -> Option<BoundPart>
        ensures { SomeIff result
            (IsPart (record { index = index; count = count }))
            (record { index = index; count = count }) }
    {
        if index < count && count % 2 == 1 {
            Some(BoundPart { index, count })
        } else {
            None
        }
    }

    /// Its index, from 0 on.
    pub fn index(self) -> u16
        ensures value { result ≡ self.index }
        ensures part { IsPart self }
    {
        self.index
    }

    /// How many parts there are.
    pub fn count(self) -> u16
        ensures value { result ≡ self.count }
        ensures part { IsPart self }
    {
        self.count
    }

    /// How many first letters tell the part: 13 to 20.
    pub fn letters(self) -> u8
        ensures value { result ≡ letters_of self }
        ensures some { 13 ≤ result }
        ensures few { result ≤ 20 }
    {
        MORE_LETTERS + digits(self.count)
    }
}

/// How many digits a count of parts has to the base 4.
fn digits(count: u16) -> u8
    requires { 1 ≤ count }
    ensures value { result ≡ digits_of count }
    ensures some { 1 ≤ result }
    ensures few { result ≤ 8 }
{
    let mut digits = 0;
    for place in 0..8 {
        if 4_u32.pow(place) <= u32::from(count) {
            digits += 1;
        }
    }
    digits
}

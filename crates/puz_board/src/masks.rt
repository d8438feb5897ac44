//! Masks of cells or tiles: bit x stands for the number x.

ghost use Rattle.std.specs.Prelude.{◌≡◌, ◌≢◌, ℕ, ◌-◌, ◌*◌, ◌%◌, ◌^◌, ◌<◌, ◌≤◌, ◌↔◌, IsTrue, count_ones};
ghost use Rattle.std.specs.Int.{bit_at};
ghost use Rattle.puz_board.specs.Masks.{IsMaskOf, ones_below};

use crate::sides::Side;

/// The first cell of each row.
#[inline]
pub fn first_column(side: Side) -> u32
    ensures { IsMaskOf result (λ c. (c < side * side) × (c % side ≡ 0)) }
{
    match side.get() {
        2 => 0b01_01,
        3 => 0b001_001_001,
        4 => 0b0001_0001_0001_0001,
        _ => 0b00001_00001_00001_00001_00001,
    }
}

/// The last cell of each row.
#[inline]
pub fn last_column(side: Side) -> u32
    ensures { IsMaskOf result (λ c. (c < side * side) × (c % side ≡ side - 1)) }
{
    match side.get() {
        2 => 0b10_10,
        3 => 0b100_100_100,
        4 => 0b1000_1000_1000_1000,
        _ => 0b10000_10000_10000_10000_10000,
    }
}

/// The numbers below `count`.
#[inline]
pub fn all_below(count: u8) -> u32
    requires { count < 32 }
    ensures { result ≡ 2 ^ count - 1 }
{
    (1 << count) - 1
}

/// Whether the mask has a number.
#[inline]
pub fn has_cell(mask: u32, number: u8) -> bool
    requires { number < 32 }
    ensures { IsTrue result ↔ (bit_at mask number ≡ 1) }
{
    mask >> number & 1 == 1
}

/// The mask with one number more.
#[inline]
pub fn with(mask: u32, number: u8) -> u32
    requires { number < 32 }
    ensures here { bit_at result number ≡ 1 }
    ensures others { (x : ℕ) → x ≢ number → bit_at result x ≡ bit_at mask x }
{
    mask | 1 << number
}

/// The mask without one number.
#[inline]
pub fn without(mask: u32, number: u8) -> u32
    requires { number < 32 }
    ensures here { bit_at result number ≡ 0 }
    ensures others { (x : ℕ) → x < 32 → x ≢ number → bit_at result x ≡ bit_at mask x }
    ensures least { result ≤ mask }
{
    mask & !(1 << number)
}

/// The numbers of the mask above `number`.
#[inline]
pub fn above(mask: u32, number: u8) -> u32
    requires { number < 31 }
    ensures above { (x : ℕ) → number < x → bit_at result x ≡ bit_at mask x }
    ensures upto { (x : ℕ) → x ≤ number → bit_at result x ≡ 0 }
{
    mask & !all_below(number + 1)
}

/// The least number of the mask.
#[inline]
pub fn first_of(mask: u32) -> u8
    requires { 0 < mask }
    ensures within { result < 32 }
    ensures here { bit_at mask result ≡ 1 }
    ensures lowest { (x : ℕ) → x < result → bit_at mask x ≡ 0 }
{
    mask.trailing_zeros() as u8
}

/// How many numbers of the mask are below `number`.
#[inline]
pub fn count_below(mask: u32, number: u8) -> u8
    requires { number < 32 }
    ensures count { result ≡ ones_below mask number }
    ensures few { result ≤ number }
{
    (mask & all_below(number)).count_ones() as u8
}

/// The number of the mask that has `place` numbers of the mask below it.
pub fn select(mask: u32, place: u8) -> u8
    requires { place < count_ones mask }
    ensures within { result < 32 }
    ensures here { bit_at mask result ≡ 1 }
    ensures place { ones_below mask result ≡ place }
{
    let mut number = 0;
    let mut span = 32;
    while span > 1 {
        let half = span / 2;
        let upper = count_below(mask, number + half) <= place;
        number += half * u8::from(upper);
        span -= half;
    }
    number
}

//! Numbers in decimal.

ghost use Rattle.std.specs.Prelude.{◌≡◌, ◌≤◌, ℕ, IfNone, IfSome, decimal};

use itoa::Buffer;
use std::str;

/// The number, from 0 to 65,535, that these digits are the decimal of.
pub(crate) fn read_numeral(digits: &[u8]) -> Option<u16>
    ensures some { IfSome result (λ n. digits.now ≡ decimal n) }
    ensures none { IfNone result ((n : ℕ) → n ≤ 65535 → ¬ (digits.now ≡ decimal n)) }
{
    let text = str::from_utf8(digits).ok()?;
    let number = text.parse::<u16>().ok()?;
    // A sign and leading zeros are read as well.
    if Buffer::new().format(number) == text {
        Some(number)
    } else {
        None
    }
}

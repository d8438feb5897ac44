//! The numbers of a mask, as a short list.

ghost use Rattle.std.specs.Prelude.{◌≡◌, ◌≤◌, [], length};
ghost use Rattle.puz_board.specs.Masks.{numbers_of};

use arrayvec::ArrayVec;
use puz_board::masks::{first_of, without};

/// Puts the numbers of the mask, ascending, into an empty list. There are eight at most.
#[inline]
pub fn put_numbers(mask: u32, numbers: &mut ArrayVec<u8, 8>)
    requires few { length (numbers_of mask) ≤ 8 }
    requires empty { numbers.old.items ≡ [] }
    ensures { numbers.new.items ≡ numbers_of mask }
{
    let mut rest = mask;
    while rest != 0 {
        let number = first_of(rest);
        numbers.push(number);
        rest = without(rest, number);
    }
}

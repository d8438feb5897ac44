//! The numbers of a board text.

ghost use Rattle.std.specs.Prelude.{◌≡◌, ◌+◌, ◌<◌, ◌≤◌, ◌∷◌, length, take, drop, None, slice_index, slice_set, IsTrue};
ghost use Rattle.std.specs.Char.{is_ascii_digit};
ghost use Rattle.puz_board.specs.BoardTexts.{long_run, numbers_in, stray_byte};

/// How many numbers a text has, and the first 25 of them.
#[derive(Drop)]
pub(crate) struct Numbers {
    pub(crate) count: usize,
    pub(crate) kept: [u8; 25],
}

impl Numbers {
    /// Counts a number, and keeps it where there is room.
    fn push(&mut self, number: u8)
        requires { self.old.count < usize.MAX }
        ensures count { self.new.count ≡ self.old.count + 1 }
        ensures kept { self.new.kept ≡ slice_set self.old.kept self.old.count number }
    {
        if self.count < 25 {
            self.kept[self.count] = number;
        }
        self.count += 1;
    }
}

/// A number, and the place behind its digits.
#[derive(Clone, Copy)]
struct Number {
    value: u8,
    end: usize,
}

/// The number whose digits begin at a place.
fn number_at(text: &[u8], start: usize) -> Number
    requires start { start < length text.now }
    requires digit { IsTrue (is_ascii_digit (slice_index text.now start)) }
    requires clean { stray_byte text.now ≡ None }
    requires short { long_run text.now ≡ None }
    ensures end { result.end ≤ length text.now }
    ensures onward { start < result.end }
    ensures number { numbers_in (drop start text.now)
        ≡ result.value ∷ numbers_in (drop result.end text.now) }
{
    let first = text[start] - b'0';
    let next = start + 1;
    if next < text.len() && text[next].is_ascii_digit() {
        Number {
            value: 10 * first + (text[next] - b'0'),
            end: next + 1,
        }
    } else {
        Number {
            value: first,
            end: next,
        }
    }
}

/// The numbers of a text in which no byte is stray and no run of digits is long.
pub(crate) fn read_numbers(text: &[u8]) -> Numbers
    requires clean { stray_byte text.now ≡ None }
    requires short { long_run text.now ≡ None }
    ensures count { result.count ≡ length (numbers_in text.now) }
    ensures kept { result.count ≤ 25 → take result.count result.kept ≡ numbers_in text.now }
{
    let mut numbers = Numbers {
        count: 0,
        kept: [0; 25],
    };
    let mut i = 0;
    while i < text.len() {
        if text[i].is_ascii_digit() {
            let number = number_at(text, i);
            numbers.push(number.value);
            i = number.end;
        } else {
            i += 1;
        }
    }
    numbers
}

//! The order of strings: by length, and then by letters.

ghost use Rattle.std.specs.Prelude.{◌≡◌, ◌<◌, ◌↔◌, IsTrue};
ghost use Rattle.move_strings.specs.Strings.{ComesBefore, rank_of};

use puz_board::Move;

/// The place of a move in the order of letters, U D L R: 0 to 3.
#[inline]
pub fn rank_of_move(mv: Move) -> u8
    ensures rank { result ≡ rank_of mv }
    ensures few { result < 4 }
{
    match mv {
        Move::Up => 0,
        Move::Down => 1,
        Move::Left => 2,
        Move::Right => 3,
    }
}

/// Whether a string comes before another: it is shorter, or as long and earlier at the first place where they differ.
pub(crate) fn comes_before(first: &[Move], second: &[Move]) -> bool
    ensures { IsTrue result ↔ ComesBefore first.now second.now }
{
    if first.len() != second.len() {
        return first.len() < second.len();
    }
    for (i, mv) in first.iter().enumerate() {
        if rank_of_move(*mv) != rank_of_move(second[i]) {
            return rank_of_move(*mv) < rank_of_move(second[i]);
        }
    }
    false
}

//! Letters of moves, turned by half a turn.

ghost use Rattle.std.specs.Prelude.{◌≡◌, map};
ghost use Rattle.puz_goal.specs.Turning.{turned_letter};

/// The letter of the move in the opposite direction. Any other byte stays.
pub(crate) fn turned_letter(letter: u8) -> u8
    ensures { result ≡ turned_letter letter }
{
    match letter {
        b'U' => b'D',
        b'D' => b'U',
        b'L' => b'R',
        b'R' => b'L',
        other => other,
    }
}

/// Turns each letter of a text.
pub(crate) fn turn_letters(text: &mut [u8])
    ensures { text.new ≡ map turned_letter text.old }
{
    for i in 0..text.len() {
        text[i] = turned_letter(text[i]);
    }
}

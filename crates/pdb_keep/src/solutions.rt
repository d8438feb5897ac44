//! The lines of solutions that were found.

ghost use Rattle.std.specs.Prelude.{◌≡◌, ◌≤◌, ◌∷◌, ◌++◌, [], codes, length};
ghost use Rattle.pdb_keep.specs.Solve.{letters_of, lines_on, moves_words};

use arrayvec::ArrayString;
use itoa::Buffer;
use pdb_run::{AnswerLines, lines};
use puz_board::Move;
use puz_goal::Goal;

/// The most letters of the moves of an optimum: how many they are is a byte.
const MOST_LETTERS: usize = u8::MAX as usize;

/// The letters of the moves of a text, and how many they are, for a goal.
pub(crate) fn lines_on(goal: Goal, moves: &[u8], count: u8) -> AnswerLines
    requires { length (letters_of moves.now) ≡ count }
    ensures { result.bytes ≡ lines_on goal moves.now count }
{
    let letters = letters_of(moves);
    let mut digits = Buffer::new();
    with_end(letters.as_str(), digits.format(count), goal.words())
}

/// Letters, the digits of how many they are, and what both lines end with.
fn with_end<'t>(letters: &'t str, count: &'t str, words: &'t str) -> AnswerLines
    requires letters { length letters.now ≤ MOST_LETTERS }
    requires count { length count.now ≤ 3 }
    requires words { length words.now ≤ 20 }
    ensures { result.bytes ≡ moves_words letters.now ++ words.now
        ++ codes "\noptimal " ++ count.now ++ words.now ++ codes "\n" }
{
    if letters.is_empty() {
        lines(&["moves", words, "\noptimal ", count, words, "\n"])
    } else {
        lines(&["moves ", letters, words, "\noptimal ", count, words, "\n"])
    }
}

/// The letters of the moves of a text.
fn letters_of(moves: &[u8]) -> ArrayString<MOST_LETTERS>
    requires { length (letters_of moves.now) ≤ MOST_LETTERS }
    ensures { result.bytes ≡ letters_of moves.now }
{
    let mut letters = ArrayString::new();
    for byte in moves {
        letters.push_str(letter_in(*byte));
    }
    letters
}

/// The letter that a byte is, and nothing for any other byte.
fn letter_in(byte: u8) -> &'static str
    ensures { result.now ≡ letters_of (byte ∷ []) }
{
    match Move::of_byte(byte) {
        Some(Move::Up) => "U",
        Some(Move::Down) => "D",
        Some(Move::Left) => "L",
        Some(Move::Right) => "R",
        None => "",
    }
}

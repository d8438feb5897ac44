//! The letters of moves texts.

ghost use Rattle.std.specs.Prelude.{◌≡◌, ◌↔◌, ◌≤◌, ◌||◌, IsTrue, length};
ghost use Rattle.puz_board.specs.BoardTexts.{is_separator};
ghost use Rattle.puz_board.specs.MovesTexts.{is_letter};
ghost use Rattle.std.specs.List.{list_all, list_any};
ghost use Rattle.claim_text.specs.Claims.{IsMovesText, letters};

use puz_board::Move;

/// How many letters a claim's moves text may have.
pub const MOST_MOVES: usize = 1000;

/// Whether a byte is a space, a tab, a CR or an LF.
pub(crate) fn is_separator(b: u8) -> bool
    ensures { result ≡ is_separator b }
{
    matches!(b, b' ' | b'\t' | b'\r' | b'\n')
}

/// Whether a text has separators alone.
pub(crate) fn are_separators(text: &[u8]) -> bool
    ensures { result ≡ list_all is_separator text.now }
{
    text.iter().all(|b| is_separator(*b))
}

/// Whether a byte is one of the letters U, D, L and R.
pub(crate) fn is_letter(b: u8) -> bool
    ensures { result ≡ is_letter b }
{
    Move::of_byte(b).is_some()
}

/// Whether a text has letters and separators alone, and 1,000 letters at most.
pub(crate) fn is_moves_text(text: &[u8]) -> bool
    ensures { IsTrue result ↔ IsMovesText text.now }
{
    are_letters(text) && count_letters(text) <= MOST_MOVES
}

/// Whether a text has letters and separators alone.
fn are_letters(text: &[u8]) -> bool
    ensures { result ≡ list_all (λ b. is_letter b || is_separator b) text.now }
{
    text.iter().all(|b| is_letter(*b) || is_separator(*b))
}

/// How many letters a text has.
fn count_letters(text: &[u8]) -> usize
    ensures { result ≡ length (letters text.now) }
{
    text.iter().filter(|b| is_letter(**b)).count()
}

/// Whether a text has a letter.
pub(crate) fn has_letters(text: &[u8]) -> bool
    ensures { result ≡ list_any is_letter text.now }
{
    text.iter().any(|b| is_letter(*b))
}

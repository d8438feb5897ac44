//! The words of a text: what it has between its separators.

ghost use Rattle.std.specs.Prelude.{◌≡◌, ◌<◌, [], ◌∷◌, IfNone, IfSome, List, ℕ, length, not, position};
ghost use Rattle.puz_board.specs.BoardTexts.{is_separator, parts};

use crate::letters::is_separator;

/// The first word of a text, and what stands behind it.
pub(crate) fn split_word(text: &[u8]) -> Option<(&[u8], &[u8])>
    ensures some { IfSome result (λ split. parts text.now ≡ split.0.now ∷ parts split.1.now) }
    ensures none { IfNone result (parts text.now ≡ []) }
{
    let start = first_other(text)?;
    let rest = &text[start..];
    match first_separator(rest) {
        None => Some((rest, &[])),
        Some(end) => Some((&rest[..end], &rest[end..])),
    }
}

/// The word of a text that has one.
pub(crate) fn only_word(text: &[u8]) -> Option<&[u8]>
    ensures some { IfSome result (λ word. parts text.now ≡ word.now ∷ []) }
    ensures none { IfNone result ((word : List ℕ) → ¬ (parts text.now ≡ word ∷ [])) }
{
    let (word, behind) = split_word(text)?;
    if split_word(behind).is_none() {
        Some(word)
    } else {
        None
    }
}

/// The place of the first byte that is no separator.
fn first_other(text: &[u8]) -> Option<usize>
    ensures place { result ≡ position (λ b. not (is_separator b)) text.now }
    ensures within { IfSome result (λ i. i < length text.now) }
{
    text.iter().position(|b| !is_separator(*b))
}

/// The place of the first separator.
fn first_separator(text: &[u8]) -> Option<usize>
    ensures place { result ≡ position is_separator text.now }
    ensures within { IfSome result (λ i. i < length text.now) }
{
    text.iter().position(|b| is_separator(*b))
}

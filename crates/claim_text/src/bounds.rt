//! Bounds and their parts, as claims say them.

ghost use Rattle.std.specs.Prelude.{◌≡◌, ◌≤◌, ℕ, [], ◌∷◌, IfNone, IfSome, List, decimal};
ghost use Rattle.puz_board.specs.BoardTexts.{parts};
ghost use Rattle.move_strings.specs.BoundParts.{IsPart, ShownPart};
ghost use Rattle.claim_text.specs.Claims.{ShownAsks, SpellsAsks, part_words};
ghost use Rattle.claim_text.specs.Shown.{asks_shown};

use crate::claims::Asks;
use crate::cuts::split_at;
use crate::numerals::read_numeral;
use crate::words::{only_word, split_word};
use move_strings::BoundPart;

/// What a text behind the `:` of a claim says: a bound from 0 to 255, alone or with one of its parts.
pub(crate) fn read_asks(text: &[u8]) -> Option<Asks<'_>>
    ensures some { IfSome result (λ asks. SpellsAsks text.now (asks_shown asks)) }
    ensures none { IfNone result ((asks : ShownAsks) → ¬ SpellsAsks text.now asks) }
{
    let (number, behind) = split_word(text)?;
    let bound = u8::try_from(read_numeral(number)?).ok()?;
    let Some((word, behind)) = split_word(behind) else {
        return Some(Asks::Bound(bound));
    };
    if word != b"part".as_slice() {
        return None;
    }
    let part = read_part(only_word(behind)?)?;
    Some(Asks::Part(bound, part))
}

/// The part that these words say.
fn read_part(words: &[u8]) -> Option<BoundPart>
    ensures some { IfSome result (λ p. (words.now ≡ part_words p) × IsPart p) }
    ensures none { IfNone result ((p : ShownPart) → IsPart p → ¬ (words.now ≡ part_words p)) }
{
    let (index, count) = split_at(words, b'/')?;
    BoundPart::new(read_numeral(index)?, read_numeral(count)?)
}

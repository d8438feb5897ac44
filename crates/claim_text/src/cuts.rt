//! Texts cut at a byte.

ghost use Rattle.std.specs.Prelude.{◌≡◌, ◌<◌, ◌∷◌, [], IfNone, IfSome, length};
ghost use Rattle.claim_text.specs.Claims.{HasNo, IsCutAt};
ghost use Rattle.claim_text.specs.Texts.{lines_of};

/// What stands before the first such byte of a text, and what stands behind it.
pub(crate) fn split_at(text: &[u8], byte: u8) -> Option<(&[u8], &[u8])>
    ensures some { IfSome result (λ parts. IsCutAt byte text.now parts.0.now parts.1.now) }
    ensures none { IfNone result (HasNo byte text.now) }
{
    let place = text.iter().position(|b| *b == byte)?;
    Some((&text[..place], &text[place + 1..]))
}

/// The first line of a text, and what stands behind it. An empty text has none.
pub(crate) fn split_line(text: &[u8]) -> Option<(&[u8], &[u8])>
    ensures some { IfSome result (λ split.
        lines_of text.now ≡ split.0.now ∷ lines_of split.1.now) }
    ensures shorter { IfSome result (λ split. length split.1.now < length text.now) }
    ensures none { IfNone result (text.now ≡ []) }
{
    if text.is_empty() {
        return None;
    }
    // The last line may lack its LF.
    let Some((line, behind)) = split_at(text, b'\n') else {
        return Some((text, &[]));
    };
    Some((line, behind))
}

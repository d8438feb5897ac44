//! Whole lines.

ghost use Rattle.std.specs.Prelude.{◌≡◌, ◌<◌, ◌==◌, ◌∷◌, [], IfNone, IfSome, length, position};
ghost use Rattle.pdb_parts.specs.Joining.{whole_lines};

/// The first whole line of a text, with its LF, and what stands behind it.
pub(crate) fn split_whole_line(text: &[u8]) -> Option<(&[u8], &[u8])>
    ensures some { IfSome result (λ split.
        whole_lines text.now ≡ split.0.now ∷ whole_lines split.1.now) }
    ensures shorter { IfSome result (λ split. length split.1.now < length text.now) }
    ensures none { IfNone result (whole_lines text.now ≡ []) }
{
    let end = first_lf(text)?;
    Some((&text[..=end], &text[end + 1..]))
}

/// The place of the first LF.
fn first_lf(text: &[u8]) -> Option<usize>
    ensures place { result ≡ position (λ byte. byte == 10) text.now }
    ensures within { IfSome result (λ i. i < length text.now) }
{
    text.iter().position(|b| *b == b'\n')
}

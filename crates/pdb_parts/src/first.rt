//! What the errors are told of the first line that is skipped.

ghost use Rattle.std.specs.Prelude.{◌≡◌, ◌++◌, ◌<◌, IfOk, OnOk, map, string_bytes};
ghost use Rattle.pdb_parts.specs.Beside.{first_line, quoted_byte};
ghost use Rattle.pdb_parts.specs.Stored.{first_with, skipped_shown, told_with};

use itoa::Buffer;
use std::alloc::{AllocError, Global};

/// The most bytes of a line that are quoted.
const MOST_QUOTED: usize = 160;

/// A line that is skipped, with its LF, and its number in its file, from 1 on.
#[derive(Clone, Copy)]
pub(crate) struct SkippedLine<'t> {
    pub(crate) number: usize,
    pub(crate) line: &'t [u8],
}

/// The first line that is skipped, where one more line stands behind.
pub(crate) fn first_with<'t>(
    before: Option<SkippedLine<'t>>,
    line: SkippedLine<'t>,
    is_skip: bool,
) -> Option<SkippedLine<'t>>
    ensures { result ≡ first_with before.entry line.entry is_skip }
{
    match before {
        None if is_skip => Some(line),
        _ => before,
    }
}

/// What is told of the first line that is skipped, where one more file stands behind, of this name: of its lines this is the first.
pub(crate) fn told_with(
    alloc: Global,
    before: String,
    name: &str,
    first: Option<SkippedLine<'_>>,
) -> Result<String, AllocError>
    ensures { let told = told_with (string_bytes before) name.now (skipped_shown first.entry) in
        IfOk result (λ text. string_bytes text ≡ told) }
{
    match first {
        Some(skipped) if before.is_empty() => first_line(alloc, name, skipped),
        _ => Ok(before),
    }
}

/// What is told of the first line that is skipped, of a file of this name.
fn first_line(alloc: Global, name: &str, skipped: SkippedLine<'_>) -> Result<String, AllocError>
    ensures { let told = first_line name.now skipped.entry.number skipped.entry.line.now in
        IfOk result (λ text. string_bytes text ≡ told) }
{
    let end = skipped.line.len().saturating_sub(1).min(MOST_QUOTED);
    let mut text = String::new(alloc);
    text.push_str("pdb_cli: the first of them is line ")?;
    text.push_str(Buffer::new().format(skipped.number))?;
    text.push_str(" of ")?;
    add_quoted(&mut text, name.as_bytes())?;
    text.push_str(": ")?;
    add_quoted(&mut text, &skipped.line[..end])?;
    text.push_str("\n")?;
    Ok(text)
}

/// Adds bytes to a text as they are quoted.
#[tactic(auto, using(std::proofs::lemmas::Str::encode_ascii))]
fn add_quoted(text: &mut String, bytes: &[u8]) -> Result<(), AllocError>
    ensures { let more = map quoted_byte bytes.now in
        OnOk result (string_bytes text.new ≡ string_bytes text.old ++ more) }
{
    for byte in bytes {
        text.push(char::from(quoted_byte(*byte)))?;
    }
    Ok(())
}

/// A byte as it is quoted: `?` for all but the printable ones of ASCII.
fn quoted_byte(byte: u8) -> u8
    ensures value { result ≡ quoted_byte byte }
    ensures ascii { result < 128 }
{
    if byte < b' ' || b'~' < byte {
        b'?'
    } else {
        byte
    }
}

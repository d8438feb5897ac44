//! What the errors are told of lines that are skipped, and of parts that a budget ended.

ghost use Rattle.std.specs.Prelude.{◌≡◌, ◌⊎◌, ◌+◌, ◌++◌, IfOk, IfSome, string_bytes};
ghost use Rattle.std.specs.Io.KnownBytes.{Appends};
ghost use Rattle.byte_io.specs.Streams.{AppendsFront};
ghost use Rattle.pdb_parts.specs.Beside.{counts_text, ended_line, skipped_line, where_some};

use arrayvec::ArrayString;
use byte_io::streams::put_text;
use itoa::Buffer;
use std::alloc::{AllocError, Global};
use std::io::Write;

/// One line of it, as a value.
type BesideLine = ArrayString<128>;

/// How many whole lines there are, and how many of these are skipped.
#[derive(Clone, Copy, Debug, PartialEq, Eq)]
pub(crate) struct LineCounts {
    pub(crate) all: usize,
    pub(crate) skipped: usize,
}

impl LineCounts {
    /// The counts of these lines and of more, or none where they are too great.
    pub(crate) fn and(self, more: LineCounts) -> Option<LineCounts>
        ensures all { IfSome result (λ both. both.all ≡ self.all + more.all) }
        ensures skipped { IfSome result (λ both. both.skipped ≡ self.skipped + more.skipped) }
    {
        Some(LineCounts {
            all: self.all.checked_add(more.all)?,
            skipped: self.skipped.checked_add(more.skipped)?,
        })
    }
}

/// What is told of lines of which so many are skipped, the first of them so, and of so many open parts whose search a budget ended.
pub(crate) fn counts_text(
    alloc: Global,
    first: &str,
    counts: LineCounts,
    spent: usize,
    count: u16,
) -> Result<String, AllocError>
    ensures { let told = counts_text counts.skipped counts.all first.now spent count in
        IfOk result (λ text. string_bytes text ≡ told) }
{
    let mut text = skipped_text(alloc, first, counts)?;
    text.push_str(ended_text(spent, count).as_str())?;
    Ok(text)
}

/// Tells a text on the errors. Where that can't be written, there is nobody to tell.
pub(crate) fn tell<E: Write>(text: &str, err: &mut E)
    ensures { let old = E.contents err.old in let new = E.contents err.new in
        Appends old new text.now ⊎ AppendsFront old new text.now }
{
    let _ = put_text(err, text);
}

/// What is told of lines that are skipped, if there are any.
fn skipped_text(alloc: Global, first: &str, counts: LineCounts) -> Result<String, AllocError>
    ensures { let line = skipped_line counts.skipped counts.all in
        IfOk result (λ text. string_bytes text ≡ where_some counts.skipped (line ++ first.now)) }
{
    let mut text = String::new(alloc);
    if counts.skipped == 0 {
        return Ok(text);
    }
    text.push_str(skipped_line(counts).as_str())?;
    text.push_str(first)?;
    Ok(text)
}

/// The line that tells how many of all lines are skipped.
fn skipped_line(counts: LineCounts) -> BesideLine
    ensures { result.bytes ≡ skipped_line counts.skipped counts.all }
{
    let mut line = BesideLine::new();
    line.push_str("pdb_cli: lines that tell of no part of this bound, and were skipped: ");
    line.push_str(Buffer::new().format(counts.skipped));
    line.push_str(" of ");
    line.push_str(Buffer::new().format(counts.all));
    line.push_str("\n");
    line
}

/// What is told of open parts whose search a budget ended, if there are any.
fn ended_text(spent: usize, count: u16) -> BesideLine
    ensures { result.bytes ≡ where_some spent (ended_line spent count) }
{
    if spent == 0 {
        return BesideLine::new();
    }
    ended_line(spent, count)
}

/// The line that tells of how many parts a budget ended the search.
fn ended_line(spent: usize, count: u16) -> BesideLine
    ensures { result.bytes ≡ ended_line spent count }
{
    let mut line = BesideLine::new();
    line.push_str("pdb_cli: parts that are open since a budget ended their search: ");
    line.push_str(Buffer::new().format(spent));
    line.push_str(" of ");
    line.push_str(Buffer::new().format(count));
    line.push_str("\n");
    line
}

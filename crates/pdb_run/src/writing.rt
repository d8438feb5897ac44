//! What is written of an answer.

ghost use Rattle.std.specs.Prelude.{◌≡◌, map};
ghost use Rattle.byte_io.specs.Streams.{Writes};
ghost use Rattle.pdb_run.specs.Answers.{answer_text, digest_lines, made_file};
ghost use Rattle.pdb_run.specs.Pages.{Adds};
ghost use Rattle.pdb_run.specs.Writing.{all_files, digests_of, list_of, named_line, shown_byte};

use crate::answers::{CommandAnswer, Digested};
use crate::pages::Page;
use byte_io::sinks::Sink;
use byte_io::streams::WriteFault;

/// Writes an answer: the digests, and then its lines. It is one write, where the writer takes all and a page holds all.
#[tactic(auto, using(crate::proofs::PageLemmas::gathers_three))]
pub fn say<W: Sink>(answer: &CommandAnswer<'_>, out: &mut W) -> Result<(), WriteFault>
    ensures { Writes (W.output out.old) (W.output out.new) (answer_text answer.now) result }
{
    let mut page = Page::on(out);
    add_digests(&mut page, answer)?;
    add_made_digest(&mut page, answer)?;
    page.add_text(answer.lines.as_str())?;
    page.write()
}

/// Adds the digests to a page: the lines that are made already, or else those of the files.
fn add_digests<W: Sink>(
    page: &mut Page<'_, W>,
    answer: &CommandAnswer<'_>,
) -> Result<(), WriteFault>
    ensures same_out { page.new.out.ghost_name ≡ page.old.out.ghost_name }
    ensures added { Adds W.output page.old page.new (digest_lines answer.now.digested) result }
{
    match &answer.digested {
        Digested::Files(files, last) => page.add_digests(files, *last),
        Digested::Lines(lines) => page.add(lines.as_slice()),
    }
}

/// Adds the digest of the file that was made to a page, where there is one: the line that is made already, or else that of the
/// file.
fn add_made_digest<W: Sink>(
    page: &mut Page<'_, W>,
    answer: &CommandAnswer<'_>,
) -> Result<(), WriteFault>
    ensures same_out { page.new.out.ghost_name ≡ page.old.out.ghost_name }
    ensures added { let digest = digests_of (list_of (made_file answer.now)) in
        Adds W.output page.old page.new digest result }
{
    match &answer.made_digest {
        Some(digest) => page.add(digest.as_slice()),
        None => page.add_digest(answer.made.as_deref()),
    }
}

/// Writes the digest line of each file, and of the last one, where there is one.
pub fn say_digests<W: Sink>(
    files: &[Vec<u8>],
    last: Option<&[u8]>,
    out: &mut W,
) -> Result<(), WriteFault>
    ensures { let digests = digests_of (all_files files.now last.entry) in
        Writes (W.output out.old) (W.output out.new) digests result }
{
    let mut page = Page::on(out);
    page.add_digests(files, last)?;
    page.write()
}

/// Writes a text, a name as a line shows it, and the line's end.
#[tactic(auto, using(crate::proofs::PageLemmas::gathers_three))]
pub(crate) fn put_named<W: Sink>(text: &str, name: &str, out: &mut W) -> Result<(), WriteFault>
    ensures { let line = named_line text.now (map shown_byte name.now) in
        Writes (W.output out.old) (W.output out.new) line result }
{
    let mut page = Page::on(out);
    page.add_text(text)?;
    page.add_name(name)?;
    page.add_text("\n")?;
    page.write()
}

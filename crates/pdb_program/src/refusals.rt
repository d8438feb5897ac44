//! What is said of words that ask for nothing.

ghost use Rattle.std.specs.Prelude.{◌≡◌, ℕ, List};
ghost use Rattle.pdb_run.specs.Ended.{HasItsStatus};
ghost use Rattle.pdb_run.specs.declared.statuses.Status.{Status};
ghost use Rattle.pdb_words.specs.Faults.{IsCauseOfWordFault};
ghost use Rattle.pdb_program.specs.Refusals.{AppendsWholeOrFront, Refuses};
ghost use Rattle.pdb_program.specs.Steps.{OnlyWrites};

use byte_io::streams::put_text;
use pdb_run::{Cause, Ended, Io, say_no_memory, say_text};
use pdb_verdict::Fault;
use pdb_words::{WordFault, version_line};
use std::io::Write;

/// Shows help or the version, or says why the words ask for nothing.
pub(crate) fn explain<'n, I: Io, E: Write>(
    fault: WordFault,
    io: &mut I,
    err: &mut E,
) -> Ended<'n, Fault>
    ensures caused { HasItsStatus result }
    ensures same_streams { I.streams io.new ≡ I.streams io.old }
    ensures refuses { let old = I.world io.old in let new = I.world io.new in
        (words : List (List ℕ)) → IsCauseOfWordFault words fault
        → Refuses words old.written new.written
        (E.contents err.old) (E.contents err.new) result.status }
    ensures same { OnlyWrites (I.world io.old) (I.world io.new) }
{
    match fault {
        WordFault::Help(text) => say_text(text.as_str(), None, io),
        WordFault::Version => say_text(version_line(), None, io),
        WordFault::Mistake(text) => tell(text.as_str(), err),
        WordFault::Memory => say_no_memory(io),
    }
}

/// Tells of a mistake in the words. Where that can't be written, there is nobody to tell.
pub(crate) fn tell<'n, E: Write>(text: &str, err: &mut E) -> Ended<'n, Fault>
    ensures caused { HasItsStatus result }
    ensures told { AppendsWholeOrFront text.now (E.contents err.old) (E.contents err.new) }
    ensures status { result.status ≡ Status.Fault }
{
    let _ = put_text(err, text);
    Ended::by(Some(Cause::Words))
}

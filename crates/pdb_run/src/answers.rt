//! An answer as a value.

ghost use Rattle.std.specs.Prelude.{◌≡◌, ◌≤◌, length, option_map};
ghost use Rattle.pdb_run.specs.Writing.{digests_of, joined, list_of};

use crate::digests::Digests;
use arrayvec::ArrayString;
use std::alloc::AllocError;

/// The most bytes of the lines behind the digests: the longest are the letters of 255 moves, which is the greatest bound of a
/// log, and a verdict.
pub const LINES_LEN: usize = 320;

/// Lines, as a value.
pub type AnswerLines = ArrayString<LINES_LEN>;

/// The digest lines that come first in an answer.
#[derive(Drop)]
pub enum Digested<'a> {
    /// Those of files, and of a last one, where there is one: they are still to be made.
    Files(&'a [Vec<u8>], Option<&'a [u8]>),
    /// These lines, which are made already.
    Lines(Digests),
}

/// An answer: the digests of the files that it speaks of, a file that was made, its lines, and whether it is a yes.
#[derive(Drop)]
pub struct CommandAnswer<'a> {
    pub digested: Digested<'a>,
    /// A file that was made: its digest comes next, and after a yes it is kept, where the command keeps any.
    pub made: Option<Vec<u8>>,
    /// The line of this digest, where it is made already.
    pub made_digest: Option<Digests>,
    /// The lines behind the digests.
    pub lines: AnswerLines,
    /// Whether it is a yes.
    pub is_yes: bool,
    ghost made_ready: { option_map (λ d. d.items) made_digest
        ≡ option_map (λ _. digests_of (list_of (option_map (λ v. v.items) made))) made_digest },
}

/// An answer, or why there is none, and the fault for which it is no yes, where that has one cause.
#[derive(Drop)]
pub struct Answered<'a, E, F> {
    pub answer: Result<CommandAnswer<'a>, E>,
    pub fault: Option<F>,
}

/// Why a maker has no answer.
#[derive(Clone, Copy, Debug, PartialEq, Eq)]
pub enum Unanswered {
    /// Memory was refused.
    Memory,
    /// What it made is wrong, as the check of it finds or the maker itself.
    Wrong,
}

impl From<AllocError> for Unanswered {
    ghost use Rattle.pdb_run.specs.declared.answers.Unanswered.{Unanswered};

    ghost from_gives = { λ _ why. why ≡ Unanswered.Memory };

    fn from(_refused: AllocError) -> Unanswered {
        Unanswered::Memory
    }
}

/// Pieces of text in one.
#[tactic(auto, using(crate::proofs::PageLemmas::joined_fits))]
pub fn lines(pieces: &[&str]) -> AnswerLines
    requires { length (joined pieces.now) ≤ LINES_LEN }
    ensures { result.bytes ≡ joined pieces.now }
{
    let mut all = AnswerLines::new();
    for piece in pieces {
        all.push_str(piece);
    }
    all
}

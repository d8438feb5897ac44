//! What whole lines tell of a bound in parts.

ghost use Rattle.std.specs.Prelude.{◌≡◌, ◌++◌, ◌<◌, ◌||◌, ℕ, List, Some, false, length, slice_index_or, IfErr, IfOk, OnOk};
ghost use Rattle.std.specs.List.{All};
ghost use Rattle.claim_text.specs.Parts.{AreParts};
ghost use Rattle.pdb_parts.specs.Beside.{first_in};
ghost use Rattle.pdb_parts.specs.Joining.{AreFirstMoves, RefutesNot, whole_lines};
ghost use Rattle.pdb_parts.specs.Stored.{AreCountsOf, AreMarksOf, IsBelow, holds_in, shown, skipped_shown, spent_in};

use crate::answers::{PartAnswer, read_answer};
use crate::beside::LineCounts;
use crate::first::{SkippedLine, first_with};
use crate::whole_lines::split_whole_line;
use puz_board::Board;
use puz_goal::Goal;

/// A bound of a board in so many parts, and where the blank is at home.
#[derive(Drop)]
pub(crate) struct BoundInParts {
    pub(crate) board: Board,
    pub(crate) bound: u8,
    pub(crate) count: u16,
    pub(crate) goal: Goal,
}

/// What the whole lines of a text tell that show no moves, beside marks: how many they are, and the first that is skipped.
#[derive(Clone, Copy)]
pub(crate) struct TextLines<'t> {
    pub(crate) counts: LineCounts,
    pub(crate) first: Option<SkippedLine<'t>>,
}

/// Marks the part of which a line tells, where it tells of one.
fn mark_part(holds: &mut [bool], spent: &mut [bool], answer: PartAnswer)
    requires holds { IsBelow (length holds.old) answer }
    requires spent { IsBelow (length spent.old) answer }
    ensures holds_size { length holds.new ≡ length holds.old }
    ensures spent_size { length spent.new ≡ length spent.old }
    ensures holds { (i : ℕ) → i < length holds.old → slice_index_or holds.new i false
        ≡ (slice_index_or holds.old i false || holds_in answer i) }
    ensures spent { (i : ℕ) → i < length spent.old → slice_index_or spent.new i false
        ≡ (slice_index_or spent.old i false || spent_in answer i) }
{
    match answer {
        PartAnswer::Holds(index) => holds[usize::from(index)] = true,
        PartAnswer::Spent(index) => spent[usize::from(index)] = true,
        PartAnswer::Other | PartAnswer::Skipped => {}
    }
}

/// Marks the parts of which the whole lines of a text tell, and counts these lines; up to the first that shows that the bound is
/// false by moves, which are answered then.
pub(crate) fn mark_text<'t>(
    holds: &mut [bool],
    spent: &mut [bool],
    text: &'t [u8],
    asked: &BoundInParts,
) -> Result<TextLines<'t>, &'t [u8]>
    requires holds { length holds.old ≡ asked.now.count }
    requires spent { length spent.old ≡ asked.now.count }
    requires parts { AreParts asked.now.count }
    ensures holds_size { length holds.new ≡ length holds.old }
    ensures spent_size { length spent.new ≡ length spent.old }
    ensures marks { (done : List (List ℕ)) → AreMarksOf holds.old spent.old done (shown asked.now)
        → OnOk result (AreMarksOf holds.new spent.new (done ++ whole_lines text.now) (shown asked.now)) }
    ensures counts { IfOk result
        (λ lines. AreCountsOf lines.counts (whole_lines text.now) (shown asked.now)) }
    ensures skipped { IfOk result
        (λ lines. skipped_shown lines.first ≡ first_in (shown asked.now) 0 (whole_lines text.now)) }
    ensures none { OnOk result (All (RefutesNot (shown asked.now)) (whole_lines text.now)) }
    ensures first { IfErr result
        (λ moves. AreFirstMoves (shown asked.now) (whole_lines text.now) (Some moves.now)) }
{
    let mut counts = LineCounts { all: 0, skipped: 0 };
    let mut first = None;
    let mut rest = text;
    while let Some((line, behind)) = split_whole_line(rest) {
        let answer = read_answer(line, asked)?;
        let is_skip = answer.is_skip();
        mark_part(holds, spent, answer);
        counts.all += 1;
        counts.skipped += usize::from(is_skip);
        let number = counts.all;
        first = first_with(first, SkippedLine { number, line }, is_skip);
        rest = behind;
    }
    Ok(TextLines { counts, first })
}

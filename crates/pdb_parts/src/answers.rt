//! What a line tells of a bound in parts.

ghost use Rattle.std.specs.Prelude.{◌≡◌, ◌++◌, ◌<◌, ℕ, List, IfErr, IfNone, IfOk, IfSome, codes};
ghost use Rattle.puz_goal.specs.Goals.{SolvesFor};
ghost use Rattle.claim_text.specs.Parts.{AreParts};
ghost use Rattle.pdb_parts.specs.Beside.{is_aside};
ghost use Rattle.pdb_parts.specs.Joining.{Refutes};
ghost use Rattle.pdb_parts.specs.Stored.{IsAnswerOf, is_skip, shown};

use crate::marks::BoundInParts;
use claim_text::{refused_part, told_index};
use puz_goal::replay_for;

/// What a line tells of a bound in parts that shows no moves against it.
#[derive(Clone, Copy, Debug)]
pub(crate) enum PartAnswer {
    /// The part with this index holds.
    Holds(u16),
    /// A budget ended the search of the part with this index.
    Spent(u16),
    /// No more, and it isn't skipped: it says that the board has no solution, or nothing.
    Other,
    /// Nothing.
    Skipped,
}

impl PartAnswer {
    /// Whether the line is skipped.
    pub(crate) fn is_skip(self) -> bool
        ensures { result ≡ is_skip self }
    {
        matches!(self, PartAnswer::Skipped)
    }
}

/// Whether a line says nothing: that of a digest, a remark behind `#`, or an empty one.
fn is_aside(line: &[u8]) -> bool
    ensures { result ≡ is_aside line.now }
{
    line.starts_with(b"sha256 ".as_slice())
        || line.starts_with(b"#".as_slice())
        || line == b"\n".as_slice()
}

/// What a line tells, which has its LF; or the moves text in it, where that shows that the bound is false.
pub(crate) fn read_answer<'l>(line: &'l [u8], asked: &BoundInParts) -> Result<PartAnswer, &'l [u8]>
    requires { AreParts asked.now.count }
    ensures answer { IfOk result (IsAnswerOf (shown asked.now) line.now) }
    ensures moves { IfErr result (λ moves. Refutes (shown asked.now) line.now moves.now) }
{
    if is_aside(line) {
        return Ok(PartAnswer::Other);
    }
    if let Some(index) = told_index(asked.goal, line, asked.count, asked.bound, &asked.board) {
        return Ok(PartAnswer::Holds(index));
    }
    let Some(refused) = refused_part(asked.goal, line, asked.count, asked.bound, &asked.board)
    else {
        return Ok(PartAnswer::Skipped);
    };
    if refused.what == b"refused K1".as_slice() {
        return Ok(PartAnswer::Spent(refused.index));
    }
    if refused.what == b"refused K2".as_slice() {
        return Ok(PartAnswer::Other);
    }
    match moves_in(refused.what, asked) {
        Some(moves) => Err(moves),
        None => Ok(PartAnswer::Skipped),
    }
}

/// The moves for which a claim is refused, as `refused O2 by ULDRUL`, where they are a solution of fewer moves than the bound.
fn moves_in<'l>(what: &'l [u8], asked: &BoundInParts) -> Option<&'l [u8]>
    ensures some { IfSome result (λ moves. (what.now ≡ codes "refused O2 by" ++ moves.now)
        × ((n : ℕ) × SolvesFor asked.now.goal asked.now.board moves.now n
        × (n < asked.now.bound))) }
    ensures none { IfNone result ((moves : List ℕ) (n : ℕ)
        → what.now ≡ codes "refused O2 by" ++ moves
        → SolvesFor asked.now.goal asked.now.board moves n → ¬ (n < asked.now.bound)) }
{
    let moves = what.strip_prefix(b"refused O2 by".as_slice())?;
    let count = replay_for(asked.goal, &asked.board, moves).ok()?;
    if count < u16::from(asked.bound) {
        Some(moves)
    } else {
        None
    }
}

//! What files of answer lines tell of a bound in parts, noted of one after the other.

ghost use Rattle.std.specs.Prelude.{◌≡◌, ◌∷◌, ◌++◌, ◌<◌, ℕ, List, [], IfOk, string_bytes};
ghost use Rattle.puz_goal.specs.Goals.{SolvesFor};
ghost use Rattle.claim_text.specs.Claims as claims;
ghost use Rattle.claim_text.specs.Claims.{ShownClaim};
ghost use Rattle.claim_text.specs.Lines.{shorter, told_line};
ghost use Rattle.claim_text.specs.Parts.{AreParts};
ghost use Rattle.byte_io.specs.Shelf.{Bytes};
ghost use Rattle.pdb_request.specs.Asked.{PartsArguments, parts_shown};
ghost use Rattle.pdb_run.specs.Writing.{digest_line};
ghost use Rattle.pdb_parts.specs.Steps.{IsNoted, MarksFiles, TellsOfFiles};
ghost use Rattle.pdb_parts.specs.Stored.{shown};

use crate::beside::LineCounts;
use crate::first::told_with;
use crate::marks::{BoundInParts, mark_text};
use claim_text::{Asks, Claim, shorter_line};
use pdb_request::JoinParts;
use puz_board::{Board, BoardFault};
use puz_goal::Goal;
use sha2::{Digest, Sha256};
use std::alloc::{AllocError, Global};

/// What files tell whose lines show no moves against a bound in parts.
#[derive(Drop)]
pub(crate) struct Marks {
    /// A mark for each part that holds.
    pub(crate) holds: Vec<bool>,
    /// One for each part whose search a budget ended.
    pub(crate) spent: Vec<bool>,
    pub(crate) counts: LineCounts,
    /// What is told of the first line that is skipped.
    pub(crate) first: String,
    /// The digest line of each file.
    pub(crate) digests: String,
}

/// What files tell of a bound in parts.
#[derive(Drop)]
pub(crate) enum Told {
    /// Moves show that it is false, as this line says.
    Against(String),
    /// None do.
    Marked(Marks),
}

/// A bound in parts, and what files tell of it.
#[derive(Drop)]
pub(crate) struct Joining {
    pub(crate) asked: BoundInParts,
    pub(crate) told: Told,
}

/// Why parts can't be joined.
#[derive(Clone, Copy)]
pub(crate) enum Unjoined {
    /// The board text is refused.
    Board(BoardFault),
    /// Memory is.
    Memory,
}

impl From<AllocError> for Unjoined {
    ghost use Rattle.pdb_parts.specs.declared.noting.Unjoined.{Unjoined};

    ghost from_gives = { λ _ why. why ≡ Unjoined.Memory };

    fn from(_refused: AllocError) -> Unjoined {
        Unjoined::Memory
    }
}

/// The bound in parts that is asked for, of the board of this text, where no file is noted.
pub(crate) fn begin(
    alloc: Global,
    text: &[u8],
    parts: &JoinParts<Option<&str>, &str>,
) -> Result<Joining, Unjoined>
    requires { AreParts parts.now.count }
    ensures { IsNoted (parts_shown parts.now) text.now [] [] result }
{
    let board = match Board::read(text) {
        Ok(board) => board,
        Err(fault) => return Err(Unjoined::Board(fault)),
    };
    let asked = BoundInParts {
        board,
        bound: parts.bound,
        count: parts.count,
        goal: parts.goal,
    };
    let told = no_files(alloc, &asked)?;
    Ok(Joining { asked, told })
}

/// What is noted once a file with this name and text is, too.
pub(crate) fn note(
    alloc: Global,
    noted: Result<Joining, Unjoined>,
    name: &str,
    text: &[u8],
) -> Result<Joining, Unjoined>
    requires { (arguments : PartsArguments) × (board : Bytes) × (names : List Bytes)
        × (answers : List Bytes) × IsNoted arguments board names answers noted }
    ensures { (arguments : PartsArguments) (board : Bytes) (names answers : List Bytes)
        → IsNoted arguments board names answers noted
        → IsNoted arguments board (names ++ name.now ∷ []) (answers ++ text.now ∷ []) result }
{
    let Joining { asked, told } = noted?;
    let told = with_file(alloc, told, name, text, &asked)?;
    Ok(Joining { asked, told })
}

/// What no files tell.
fn no_files(alloc: Global, asked: &BoundInParts) -> Result<Told, AllocError>
    ensures { IfOk result (TellsOfFiles (shown asked.now) [] []) }
{
    Ok(Told::Marked(Marks {
        holds: vec![in alloc; false; usize::from(asked.count)]?,
        spent: vec![in alloc; false; usize::from(asked.count)]?,
        counts: LineCounts { all: 0, skipped: 0 },
        first: String::new(alloc),
        digests: String::new(alloc),
    }))
}

/// What files tell with one more, of this name and text.
fn with_file(
    alloc: Global,
    told: Told,
    name: &str,
    text: &[u8],
    asked: &BoundInParts,
) -> Result<Told, AllocError>
    requires parts { AreParts asked.now.count }
    requires told { (names : List Bytes) × (answers : List Bytes)
        × TellsOfFiles (shown asked.now) names answers told }
    ensures { (names answers : List Bytes) → TellsOfFiles (shown asked.now) names answers told
        → IfOk result
        (TellsOfFiles (shown asked.now) (names ++ name.now ∷ []) (answers ++ text.now ∷ [])) }
{
    match told {
        Told::Against(line) => Ok(Told::Against(line)),
        Told::Marked(marks) => with_marks(alloc, marks, name, text, asked),
    }
}

/// The same, where the files before show no moves.
fn with_marks(
    alloc: Global,
    marks: Marks,
    name: &str,
    text: &[u8],
    asked: &BoundInParts,
) -> Result<Told, AllocError>
    requires parts { AreParts asked.now.count }
    requires marks { (names : List Bytes) × (answers : List Bytes)
        × MarksFiles (shown asked.now) names answers marks }
    ensures { (names answers : List Bytes) → MarksFiles (shown asked.now) names answers marks
        → IfOk result
        (TellsOfFiles (shown asked.now) (names ++ name.now ∷ []) (answers ++ text.now ∷ [])) }
{
    let Marks {
        mut holds,
        mut spent,
        counts,
        first,
        digests,
    } = marks;
    let lines = match mark_text(holds.as_mut_slice(), spent.as_mut_slice(), text, asked) {
        Ok(lines) => lines,
        Err(moves) => {
            let line = false_text(alloc, asked.goal, moves, &asked.board, asked.bound)?;
            return Ok(Told::Against(line));
        }
    };
    let Some(counts) = counts.and(lines.counts) else {
        // No run reads more lines than can be counted.
        return Err(AllocError);
    };
    Ok(Told::Marked(Marks {
        holds,
        spent,
        counts,
        first: told_with(alloc, first, name, lines.first)?,
        digests: with_digest(alloc, digests, text)?,
    }))
}

/// The line that says that moves show the bound of a board to be false.
fn false_text(
    alloc: Global,
    goal: Goal,
    moves: &[u8],
    board: &Board,
    bound: u8,
) -> Result<String, AllocError>
    requires { (n : ℕ) × SolvesFor goal board.now moves.now n × (n < bound) }
    ensures { let claim : ShownClaim = record { board = board.now; asks = claims.bound bound } in
        IfOk result (λ text. string_bytes text ≡ told_line goal (shorter moves.now claim)) }
{
    let claim = Claim {
        board: *board,
        asks: Asks::Bound(bound),
    };
    let mut text = String::new(alloc);
    text.push_str(shorter_line(goal, moves, &claim).as_str())?;
    Ok(text)
}

/// Digest lines, with that of one more text behind them.
fn with_digest(alloc: Global, before: String, text: &[u8]) -> Result<String, AllocError>
    ensures { let all = string_bytes before ++ digest_line text.now in
        IfOk result (λ lines. string_bytes lines ≡ all) }
{
    let mut lines = before;
    let digest = hex::encode(alloc, Sha256::digest(text))?;
    lines.push_str("sha256 ")?;
    lines.push_str(digest.as_str())?;
    lines.push_str("\n")?;
    Ok(lines)
}

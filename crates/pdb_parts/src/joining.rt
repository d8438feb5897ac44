//! What is said of a bound in parts.

ghost use Rattle.std.specs.Prelude.{◌≡◌, ◌≤◌, ◌&&◌, ◌<◌, ◌++◌, List, false, filter, flat_map, length, not, slice_index_or, string_bytes, IfOk};
ghost use Rattle.std.specs.List.{list_all, range_with_len};
ghost use Rattle.claim_text.specs.Lines.{joined_line};
ghost use Rattle.claim_text.specs.Parts.{AreParts};
ghost use Rattle.byte_io.specs.Shelf.{Bytes};
ghost use Rattle.pdb_request.specs.Asked.{PartsArguments};
ghost use Rattle.pdb_parts.specs.Joining.{open_claim};
ghost use Rattle.pdb_parts.specs.Steps.{IsJoinedOf, IsNoted, MarksFiles, TellsOfFiles};
ghost use Rattle.pdb_parts.specs.Stored.{IsJoined, shown};

use crate::beside::counts_text;
use crate::marks::BoundInParts;
use crate::noting::{Joining, Marks, Told, Unjoined};
use claim_text::{Asks, Claim, Line, claim_line, joined_line};
use move_strings::BoundPart;
use std::alloc::{AllocError, Global};

/// What is said of a bound in parts, whether that is that it holds, and what the errors are told beside it.
#[derive(Drop)]
pub(crate) struct Joined {
    pub(crate) text: String,
    pub(crate) is_yes: bool,
    pub(crate) beside: String,
}

/// What is said where this is noted of files of answer lines: that the bound is false, where a whole line shows moves for that; that
/// it holds, where of each part one says so; or else the claims of the parts that are open.
pub(crate) fn join(alloc: Global, noted: Result<Joining, Unjoined>) -> Result<Joined, Unjoined>
    requires { (arguments : PartsArguments) × (board : Bytes) × (names : List Bytes)
        × (answers : List Bytes) × IsNoted arguments board names answers noted }
    ensures { (arguments : PartsArguments) (board : Bytes) (names answers : List Bytes)
        → IsNoted arguments board names answers noted
        → IsJoinedOf arguments board names answers result }
{
    let Joining { asked, told } = noted?;
    Ok(join_told(alloc, told, &asked)?)
}

/// The same, where the board text isn't refused.
fn join_told(alloc: Global, told: Told, asked: &BoundInParts) -> Result<Joined, AllocError>
    requires parts { AreParts asked.now.count }
    requires told { (names : List Bytes) × (answers : List Bytes)
        × TellsOfFiles (shown asked.now) names answers told }
    ensures { (names answers : List Bytes) → TellsOfFiles (shown asked.now) names answers told
        → IfOk result (λ joined. IsJoined joined names answers (shown asked.now)) }
{
    match told {
        Told::Against(text) => Ok(Joined {
            text,
            is_yes: false,
            beside: String::new(alloc),
        }),
        Told::Marked(marks) => join_marked(alloc, marks, asked),
    }
}

/// The same, where no line shows moves.
fn join_marked(alloc: Global, marks: Marks, asked: &BoundInParts) -> Result<Joined, AllocError>
    requires parts { AreParts asked.now.count }
    requires marks { (names : List Bytes) × (answers : List Bytes)
        × MarksFiles (shown asked.now) names answers marks }
    ensures { (names answers : List Bytes) → MarksFiles (shown asked.now) names answers marks
        → IfOk result (λ joined. IsJoined joined names answers (shown asked.now)) }
{
    let holds = marks.holds.as_slice();
    let spent = count_spent(holds, marks.spent.as_slice());
    let beside = counts_text(
        alloc,
        marks.first.as_str(),
        marks.counts,
        spent,
        asked.count,
    )?;
    if are_marked(holds) {
        let text = bound_text(marks.digests, asked)?;
        return Ok(Joined {
            text,
            is_yes: true,
            beside,
        });
    }
    let text = open_claims(alloc, holds, asked)?;
    Ok(Joined {
        text,
        is_yes: false,
        beside,
    })
}

/// Whether each part has a mark.
fn are_marked(holds: &[bool]) -> bool
    ensures { result ≡ list_all (λ mark. mark) holds.now }
{
    holds.iter().all(|mark| *mark)
}

/// How many parts have the second mark, and not the first.
fn count_spent(holds: &[bool], spent: &[bool]) -> usize
    requires { length spent.now ≡ length holds.now }
    ensures { result ≡ length (filter (λ i. not (slice_index_or holds.now i false) && slice_index_or spent.now i false)
        (range_with_len 0 (length holds.now))) }
{
    let mut count = 0;
    for index in 0..holds.len() {
        if holds[index] {
            continue;
        }
        count += usize::from(spent[index]);
    }
    count
}

/// Digest lines, and the line of the bound behind them.
fn bound_text(digests: String, asked: &BoundInParts) -> Result<String, AllocError>
    ensures { let asked = asked.now in
        let line = joined_line asked.goal asked.bound asked.count asked.board in
        IfOk result (λ text. string_bytes text ≡ string_bytes digests ++ line) }
{
    let mut text = digests;
    let line = joined_line(asked.goal, asked.bound, asked.count, &asked.board);
    text.push_str(line.as_str())?;
    Ok(text)
}

/// The lines of the claims that the parts hold which have no mark.
fn open_claims(alloc: Global, holds: &[bool], asked: &BoundInParts) -> Result<String, AllocError>
    requires size { length holds.now ≡ asked.now.count }
    requires parts { AreParts asked.now.count }
    ensures { let left = filter (λ i. not (slice_index_or holds.now i false))
        (range_with_len 0 asked.now.count) in
        IfOk result (λ text. string_bytes text ≡ flat_map (open_claim (shown asked.now)) left) }
{
    let mut text = String::new(alloc);
    for index in 0..asked.count {
        if holds[usize::from(index)] {
            continue;
        }
        text.push_str(open_claim(index, asked).as_str())?;
    }
    Ok(text)
}

/// The line of the claim that the part with this index holds.
fn open_claim(index: u16, asked: &BoundInParts) -> Line
    requires below { index < asked.now.count }
    requires parts { AreParts asked.now.count }
    ensures { result.bytes ≡ open_claim (shown asked.now) index }
{
    let Some(part) = BoundPart::new(index, asked.count) else {
        unreachable!();
    };
    let claim = Claim {
        board: asked.board,
        asks: Asks::Part(asked.bound, part),
    };
    claim_line(&claim)
}

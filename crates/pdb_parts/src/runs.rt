//! A run of `parts`.

ghost use Rattle.std.specs.Prelude.{◌≡◌, [], Err, IfErr, IfOk, string_bytes};
ghost use Rattle.claim_text.specs.Parts.{AreParts};
ghost use Rattle.pdb_request.specs.Asked.{parts_shown};
ghost use Rattle.pdb_run.specs.Ended.{HasItsStatus, status_by};
ghost use Rattle.pdb_run.specs.Inputs.{wanted_of};
ghost use Rattle.pdb_run.specs.Io.{HasStopped, IsSaid};
ghost use Rattle.pdb_run.specs.Runs.{Ends, status_of_reply};
ghost use Rattle.pdb_run.specs.Writing.{reply_text};
ghost use Rattle.pdb_run.specs.declared.statuses.Status.TheVariants as status;
ghost use Rattle.pdb_verdict.specs.Lines.{reply_on};
ghost use Rattle.pdb_verdict.specs.declared.verdicts.Fault.TheVariants as fault;
ghost use Rattle.pdb_parts.specs.Beside.{TellsOfAnswers};
ghost use Rattle.pdb_parts.specs.Parts.{an_answers_text, parts_inputs, parts_plan};
ghost use Rattle.pdb_parts.specs.Steps.{HasReadParts, TellsBeside};

use crate::beside::tell;
use crate::joining::{Joined, join};
use crate::noting::{Joining, Unjoined, begin, note};
use pdb_request::JoinParts;
use pdb_run::{
    Cause, Digested, Ended, Input, Io, Status, Unread, say_no_memory, say_text, say_unread,
};
use pdb_verdict::{Fault, a_text, told};
use puz_board::BoardFault;
use std::alloc::Global;
use std::io::Write;

/// The most bytes of a file of answer lines.
const ANSWERS_LIMIT: u64 = 1 << 26;

/// A file of answer lines under this name.
fn an_answers_text<'a>(name: &'a str) -> Input<'a>
    ensures { wanted_of result ≡ an_answers_text name.now }
{
    Input {
        name: Some(name),
        limit: ANSWERS_LIMIT,
    }
}

/// Reads the board text, and then one file of answer lines after the other, of which each is noted before the next is read. The first
/// input that fails ends it.
fn read_parts<'n, I: Io>(
    alloc: Global,
    asked: &JoinParts<Option<&'n str>, &'n str>,
    io: &mut I,
) -> Result<Result<Joining, Unjoined>, Unread<'n>>
    requires { AreParts asked.now.count }
    ensures same_streams { I.streams io.new ≡ I.streams io.old }
    ensures read { let arguments = parts_shown asked.now in IfOk result
        (λ noted. HasReadParts arguments (I.world io.old) (I.world io.new) arguments.answers noted) }
    ensures unread { let wanted = parts_inputs (parts_shown asked.now) in IfErr result
        (λ e. HasStopped wanted (I.world io.old) (I.world io.new) (wanted_of e.input) e.why) }
{
    let board = a_text(asked.board);
    let text = match io.load(alloc, &board) {
        Ok(text) => text,
        Err(why) => return Err(Unread { input: board, why }),
    };
    let mut noted = begin(alloc, text.as_slice(), asked);
    for name in asked.answers.as_slice() {
        let input = an_answers_text(name);
        let answers = match io.load(alloc, &input) {
            Ok(answers) => answers,
            Err(why) => return Err(Unread { input, why }),
        };
        noted = note(alloc, noted, name, answers.as_slice());
    }
    Ok(noted)
}

/// A whole run of `parts`, without threads: it returns where its shelf, its reader and its writers do. Once its answer is written,
/// it tells on the errors of lines that it skipped, and of parts that a budget ended.
#[inline(never)] // so that the stack has the values of one command alone
pub fn run_parts<'n, I: Io, E: Write>(
    alloc: Global,
    asked: &JoinParts<Option<&'n str>, &'n str>,
    io: &mut I,
    err: &mut E,
) -> Ended<'n, Fault>
    requires { AreParts asked.now.count }
    ensures caused { HasItsStatus result }
    ensures same_streams { I.streams io.new ≡ I.streams io.old }
    ensures ends { let plan = parts_plan (parts_shown asked.now) in
        Ends plan (I.world io.old) (I.world io.new) result.status }
    ensures told { let old_err = E.contents err.old in let new_err = E.contents err.new in
        TellsOfAnswers (parts_shown asked.now) (I.world io.old) old_err new_err result.status }
{
    let noted = match read_parts(alloc, asked, io) {
        Ok(noted) => noted,
        Err(unread) => return say_unread(&unread, io),
    };
    match join(alloc, noted) {
        Ok(joined) => say_joined(&joined, io, err),
        Err(Unjoined::Board(why)) => say_refused(why, io),
        Err(Unjoined::Memory) => say_no_memory(io),
    }
}

/// Says why a board text is refused.
fn say_refused<'n, I: Io>(why: BoardFault, io: &mut I) -> Ended<'n, Fault>
    ensures caused { HasItsStatus result }
    ensures same_streams { I.streams io.new ≡ I.streams io.old }
    ensures said { let text = reply_text (reply_on [] (Err (fault.Board why))) in
        IsSaid text status.Refused (I.world io.old) (I.world io.new) result.status }
{
    let fault = Fault::Board(why);
    let refused = told(Digested::Files(&[], None), &Err(fault));
    say_text(refused.lines.as_str(), Some(Cause::Refused(fault)), io)
}

/// Says what comes of parts, and then tells what is told beside it.
fn say_joined<'n, I: Io, E: Write>(joined: &Joined, io: &mut I, err: &mut E) -> Ended<'n, Fault>
    ensures caused { HasItsStatus result }
    ensures same_streams { I.streams io.new ≡ I.streams io.old }
    ensures said { let status = status_of_reply joined.now.is_yes in
        IsSaid (string_bytes joined.now.text) status (I.world io.old) (I.world io.new) result.status }
    ensures told { let text = string_bytes joined.now.beside in
        TellsBeside text (E.contents err.old) (E.contents err.new) result.status }
{
    let ended = say_text(joined.text.as_str(), cause_in(joined), io);
    if matches!(ended.status, Status::Yes | Status::Refused) {
        tell(joined.beside.as_str(), err);
    }
    ended
}

/// Why what comes of parts is no yes, if it is none.
fn cause_in<'n>(joined: &Joined) -> Option<Cause<'n, Fault>>
    ensures { status_by result ≡ status_of_reply joined.now.is_yes }
{
    if joined.is_yes {
        None
    } else {
        Some(Cause::Open)
    }
}

//! A run of the program on words.

ghost use Rattle.std.specs.Prelude.{◌≡◌, ◌++◌, None, Option, map, string_bytes};
ghost use Rattle.byte_io.specs.Shelf.{Bytes};
ghost use Rattle.pdb_request.specs.Asked.{ProveArguments, prove, request_shown};
ghost use Rattle.pdb_run.specs.Calls.{calls};
ghost use Rattle.pdb_run.specs.Ended.{HasItsStatus};
ghost use Rattle.pdb_run.specs.Inputs.{failures};
ghost use Rattle.pdb_run.specs.Runs.{world};
ghost use Rattle.pdb_words.specs.CommandLine.{Parses, asked_of};
ghost use Rattle.pdb_program.specs.Headline.{Headline};
ghost use Rattle.pdb_program.specs.PartLines.{ArePartLinesTrue};
ghost use Rattle.pdb_program.specs.Programs.{AskToKeepNothing, EndsFor, RunsOn, TellsFor, plan_of};
ghost use Rattle.pdb_program.specs.Read.{IsOrderly};
ghost use Rattle.pdb_program.specs.Refusals.{Refuses};

use crate::hosts::RunHost;
use crate::refusals::explain;
use byte_io::shelf::Shelf;
use byte_io::sinks::Sink;
use byte_io::sources::Source;
use pdb_check::{run_log_check, run_replay, run_table};
use pdb_keep::{run_make_table, run_solve};
use pdb_parts::run_parts;
use pdb_prove::run_prove;
use pdb_request::Request;
use pdb_run::{BorrowedIo, Ended, Io};
use pdb_verdict::Fault;
use pdb_words::read_words;
use std::alloc::Global;
use std::io::Write;
use std::sync::Wait;
use std::thread::Threads;
use work_run::Gate;

/// Does what the words ask for, and answers the status: 0 for a yes, for help or for the version, 1 for a refusal, 2 for
/// bad words or a fault of a read or a write, 3 for want of memory.
///
/// The words leave out the program's own name. Without any it is `replay` on the reader. Workers pass the gate.
pub fn run<H: Threads + Wait + Sync, S: Shelf, R: Source, W: Sink, E: Write, G: Gate + Sync>(
    rt: &H,
    alloc: Global,
    words: Vec<String>,
    shelf: &mut S,
    reader: &mut R,
    out: &mut W,
    err: &mut E,
    gate: &G,
) -> u8
    // What a yes means on each command, and a no to a table, in boards, paths and bytes: over a shelf, a reader and a writer that
    // tell their bytes, for 1 to 64 workers and every order in which they take their work.
    ensures headline { let words = map string_bytes words.items in
        (before later : Bytes → Option Bytes) (input start lines : Bytes) → Parses words
        → S.held shelf.old ≡ Some before → S.held shelf.new ≡ Some later
        → R.remaining reader.old ≡ Some input
        → (W.output out.old).bytes ≡ Some start → (W.output out.new).bytes ≡ Some (start ++ lines)
        → Headline (asked_of words) before later input lines result }

    // What each line means that `prove` writes of a part of a bound.
    ensures part_lines { let words = map string_bytes words.items in
        (a : ProveArguments) (start lines : Bytes) → Parses words → asked_of words ≡ prove a
        → (W.output out.old).bytes ≡ Some start → (W.output out.new).bytes ≡ Some (start ++ lines)
        → ArePartLinesTrue a.goal lines }

    // With a yes or a no the writer got exactly the lines on the inputs that the words ask for, and with a yes what was made
    // and checked stands under its name. In any case the run says one thing that it has cause to say, or a proper front of it
    // where the writer failed; so it does of words that don't parse. On the errors it tells of answers that `parts` reads, and
    // else nothing of words that parse.
    ensures runs { RunsOn (map string_bytes words.items)
        (world (S.held shelf.old) (calls (S.calls shelf.old) (R.may_have_ended reader.old))
        (failures (S.has_failed shelf.old) (R.may_have_failed reader.old))
        (R.remaining reader.old) (W.output out.old))
        (world (S.held shelf.new) (calls (S.calls shelf.new) (R.may_have_ended reader.new))
        (failures (S.has_failed shelf.new) (R.may_have_failed reader.new))
        (R.remaining reader.new) (W.output out.new))
        (E.contents err.old) (E.contents err.new) result }
{
    let host = RunHost { rt, alloc, gate };
    let mut io = BorrowedIo { shelf, reader, out };
    answer(&host, words.as_slice(), &mut io, err).status.code()
}

/// Does what the words ask for, on any shelf, reader and output.
pub(crate) fn answer<'n, H: Threads + Wait + Sync, I: Io, E: Write, G: Gate + Sync>(
    host: &RunHost<'_, H, G>,
    words: &'n [String],
    io: &mut I,
    err: &mut E,
) -> Ended<'n, Fault>
    ensures caused { HasItsStatus result }
    ensures same_streams { I.streams io.new ≡ I.streams io.old }
    ensures ends { let words = map string_bytes words.now in Parses words
        → EndsFor (asked_of words) (I.world io.old) (I.world io.new) result.status }
    ensures refuses { let words = map string_bytes words.now in
        let old = I.world io.old in let new = I.world io.new in (Parses words → ⊥)
        → Refuses words old.written new.written
        (E.contents err.old) (E.contents err.new) result.status }
    ensures tells { let words = map string_bytes words.now in
        let old_err = E.contents err.old in let new_err = E.contents err.new in
        Parses words → TellsFor (asked_of words) (I.world io.old) old_err new_err result.status }
    ensures same { AskToKeepNothing (map string_bytes words.now)
        → (I.world io.new).files ≡ (I.world io.old).files }
{
    let request = match read_words(host.alloc, words) {
        Ok(request) => request,
        Err(fault) => return explain(fault, io, err),
    };
    answer_to(host, &request, io, err)
}

/// Does what was asked for, on any shelf, reader and output.
pub(crate) fn answer_to<'n, H: Threads + Wait + Sync, I: Io, E: Write, G: Gate + Sync>(
    host: &RunHost<'_, H, G>,
    request: &Request<'n>,
    io: &mut I,
    err: &mut E,
) -> Ended<'n, Fault>
    requires { IsOrderly request.now }
    ensures caused { HasItsStatus result }
    ensures same_streams { I.streams io.new ≡ I.streams io.old }
    ensures ends { let asked = request_shown request.now in
        EndsFor asked (I.world io.old) (I.world io.new) result.status }
    ensures tells { let asked = request_shown request.now in
        let old_err = E.contents err.old in let new_err = E.contents err.new in
        TellsFor asked (I.world io.old) old_err new_err result.status }
    ensures same { (plan_of (request_shown request.now)).keeps_under ≡ None
        → (I.world io.new).files ≡ (I.world io.old).files }
{
    match request {
        Request::Replay(asked) => run_replay(host.alloc, *asked, io),
        Request::TableCheck(check) => run_table(check, &host.workers(check.workers), io),
        Request::LogCheck(check) => run_log_check(check, &host.workers(check.workers), io),
        Request::MakeTable(asked) => run_make_table(asked, &host.workers(asked.workers), io),
        Request::Solve(search) => run_solve(search, &host.workers(search.workers), io),
        Request::Prove(prove) => run_prove(prove, &host.workers(prove.workers), io),
        Request::JoinParts(parts) => run_parts(host.alloc, parts, io, err),
    }
}

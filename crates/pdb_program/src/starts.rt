//! A run of the program, from what the system gave as its arguments.

ghost use Rattle.std.specs.Prelude.{◌≡◌, ◌++◌, ℕ, Option, Some, drop, map, string_bytes, IfErr, IfOk, OnErr};
ghost use Rattle.std.specs.Io.KnownBytes.{Keeps};
ghost use Rattle.byte_io.specs.Shelf.{Bytes};
ghost use Rattle.pdb_request.specs.Asked.{ProveArguments, prove};
ghost use Rattle.pdb_run.specs.Writing.{memory_line};
ghost use Rattle.pdb_run.specs.Calls.{calls};
ghost use Rattle.pdb_run.specs.Inputs.{failures};
ghost use Rattle.pdb_run.specs.Ended.{HasItsStatus, status_by};
ghost use Rattle.pdb_run.specs.Runs.{Says, world};
ghost use Rattle.pdb_run.specs.Statuses.{status_number};
ghost use Rattle.pdb_run.specs.declared.statuses.Status.{Status};
ghost use Rattle.pdb_words.specs.CommandLine.{Parses, asked_of};
ghost use Rattle.pdb_words.specs.Faults.{unreadable_word};
ghost use Rattle.pdb_program.specs.Headline.{Headline};
ghost use Rattle.pdb_program.specs.PartLines.{ArePartLinesTrue};
ghost use Rattle.pdb_program.specs.Programs.{AskToKeepNothing, EndsFor, RunsOn, TellsFor};
ghost use Rattle.pdb_program.specs.Refusals.{AppendsWholeOrFront, Refuses};

use crate::arguments::{ReadArguments, words_in};
use crate::hosts::{ArgumentFault, ProgramCall, RunHost};
use crate::programs::{answer, answer_to};
use crate::refusals::tell;
use byte_io::shelf::Shelf;
use byte_io::sinks::Sink;
use byte_io::sources::Source;
use byte_io::streams::put_text;
use pdb_run::{BorrowedIo, Cause, Ended, Io, NO_MEMORY};
use pdb_verdict::Fault;
use pdb_words::unreadable_word;
use std::io::Write;
use std::sync::Wait;
use std::thread::Threads;
use work_run::Gate;

/// A run on the arguments behind the first, which is the program's own name, or what is said where they can't be taken:
/// for want of memory, or since one is no UTF-8 text, which is named by its place. Then the shelf and the reader stay as they are.
pub fn start<'n, H: Threads + Wait + Sync, S: Shelf, R: Source, W: Sink, E: Write, G: Gate + Sync>(
    call: ProgramCall<'_, 'n, '_, H, G>,
    shelf: &mut S,
    reader: &mut R,
    out: &mut W,
    err: &mut E,
) -> Ended<'n, Fault>
    // What a yes means on each command, and a no to a table, in boards, paths and bytes, as on `run`.
    ensures caused { HasItsStatus result }
    ensures headline { IfOk call.entry.arguments (λ read.
        let words = drop 1 (map string_bytes read.now.all.now) in
        (before later : Bytes → Option Bytes) (input start lines : Bytes) → Parses words
        → S.held shelf.old ≡ Some before → S.held shelf.new ≡ Some later
        → R.remaining reader.old ≡ Some input
        → (W.output out.old).bytes ≡ Some start → (W.output out.new).bytes ≡ Some (start ++ lines)
        → Headline (asked_of words) before later input lines (status_number result.status)) }

    ensures part_lines { IfOk call.entry.arguments (λ read.
        let words = drop 1 (map string_bytes read.now.all.now) in
        (a : ProveArguments) (start lines : Bytes) → Parses words → asked_of words ≡ prove a
        → (W.output out.old).bytes ≡ Some start → (W.output out.new).bytes ≡ Some (start ++ lines)
        → ArePartLinesTrue a.goal lines) }

    ensures runs { IfOk call.entry.arguments (λ read. RunsOn (drop 1 (map string_bytes read.now.all.now))
        (world (S.held shelf.old) (calls (S.calls shelf.old) (R.may_have_ended reader.old))
        (failures (S.has_failed shelf.old) (R.may_have_failed reader.old))
        (R.remaining reader.old) (W.output out.old))
        (world (S.held shelf.new) (calls (S.calls shelf.new) (R.may_have_ended reader.new))
        (failures (S.has_failed shelf.new) (R.may_have_failed reader.new))
        (R.remaining reader.new) (W.output out.new))
        (E.contents err.old) (E.contents err.new) (status_number result.status)) }
    ensures memory { IfErr call.entry.arguments (λ fault. fault ≡ ArgumentFault.Memory
        → Says memory_line Status.NoMemory (W.output out.old) (W.output out.new) result.status
        × Keeps (E.contents err.old) (E.contents err.new)) }
    ensures unreadable { IfErr call.entry.arguments (λ fault. (place : ℕ)
        → fault ≡ ArgumentFault.Unreadable place
        → Keeps (W.output out.old).bytes (W.output out.new).bytes
        × AppendsWholeOrFront (unreadable_word place) (E.contents err.old) (E.contents err.new)
        × (result.status ≡ Status.Fault)) }
    ensures untouched { OnErr call.entry.arguments
        ((shelf.new ≡ shelf.old) × (reader.new ≡ reader.old)) }
{
    let ProgramCall { host, arguments } = call;
    match arguments {
        Ok(read) => {
            let mut io = BorrowedIo { shelf, reader, out };
            answer_read(&host, read, &mut io, err)
        }
        Err(fault) => without_words(fault, out, err),
    }
}

/// Does what the words among these arguments ask for. Where they were read they aren't read again.
fn answer_read<'n, H: Threads + Wait + Sync, I: Io, E: Write, G: Gate + Sync>(
    host: &RunHost<'_, H, G>,
    read: &ReadArguments<'n>,
    io: &mut I,
    err: &mut E,
) -> Ended<'n, Fault>
    ensures caused { HasItsStatus result }
    ensures same_streams { I.streams io.new ≡ I.streams io.old }
    ensures ends { let words = drop 1 (map string_bytes read.now.all.now) in Parses words
        → EndsFor (asked_of words) (I.world io.old) (I.world io.new) result.status }
    ensures refuses { let words = drop 1 (map string_bytes read.now.all.now) in
        let old = I.world io.old in let new = I.world io.new in (Parses words → ⊥)
        → Refuses words old.written new.written
        (E.contents err.old) (E.contents err.new) result.status }
    ensures tells { let words = drop 1 (map string_bytes read.now.all.now) in
        let old_err = E.contents err.old in let new_err = E.contents err.new in
        Parses words → TellsFor (asked_of words) (I.world io.old) old_err new_err result.status }
    ensures same { AskToKeepNothing (drop 1 (map string_bytes read.now.all.now))
        → (I.world io.new).files ≡ (I.world io.old).files }
{
    match &read.asked {
        Some(request) => answer_to(host, request, io, err),
        None => answer(host, words_in(read.all), io, err),
    }
}

/// Says why there are no words.
fn without_words<'n, W: Sink, E: Write>(
    fault: ArgumentFault,
    out: &mut W,
    err: &mut E,
) -> Ended<'n, Fault>
    ensures caused { HasItsStatus result }
    ensures memory { fault ≡ ArgumentFault.Memory
        → Says memory_line Status.NoMemory (W.output out.old) (W.output out.new) result.status
        × Keeps (E.contents err.old) (E.contents err.new) }
    ensures unreadable { (place : ℕ) → fault ≡ ArgumentFault.Unreadable place
        → Keeps (W.output out.old).bytes (W.output out.new).bytes
        × AppendsWholeOrFront (unreadable_word place) (E.contents err.old) (E.contents err.new)
        × (result.status ≡ Status.Fault) }
{
    match fault {
        ArgumentFault::Memory => say_on(out, NO_MEMORY, Cause::NoMemory),
        ArgumentFault::Unreadable(place) => tell(unreadable_word(place).as_str(), err),
    }
}

/// Says a text on the output, which ends a run that has this cause to end without a yes.
fn say_on<'n, W: Sink>(out: &mut W, text: &str, why: Cause<'n, Fault>) -> Ended<'n, Fault>
    ensures caused { HasItsStatus result }
    ensures said { let status = status_by (Some why.entry) in
        Says text.now status (W.output out.old) (W.output out.new) result.status }
{
    match put_text(out, text) {
        Ok(()) => Ended::by(Some(why)),
        Err(_) => Ended::by(Some(Cause::Unwritten)),
    }
}

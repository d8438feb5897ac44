//! What is written of an answer.

ghost use Rattle.std.specs.Prelude.{◌≡◌, ◌≢◌, ◌++◌, Err, List, option_map, IfOk, OnErr};
ghost use Rattle.byte_io.specs.Shelf.{Bytes};
ghost use Rattle.byte_io.specs.Streams.{Writes};
ghost use Rattle.pdb_run.specs.Writing.{digests_of, list_of};
ghost use Rattle.pdb_run.specs.Answers.{IsReplyOf, all_bytes, digest_lines};
ghost use Rattle.pdb_verdict.specs.Inputs.{given, goal_of};
ghost use Rattle.pdb_verdict.specs.Lines.{digested_of, line_for, line_of, lines_of, reply_for, reply_on, stands_alone};
ghost use Rattle.pdb_verdict.specs.declared.verdicts.Fault.TheVariants.{Memory};

use crate::inputs::Inputs;
use crate::lines::{line_for, line_of};
use crate::verdicts::{Fault, Verdict};
use byte_io::sinks::Sink;
use byte_io::streams::{WriteFault, put_text};
use pdb_run::{Answered, CommandAnswer, Digested, FILES_BESIDE, say, say_digests};
use puz_goal::Goal;
use set_sum::MOST_TABLES;
use std::alloc::AllocError;

// The digests of all tables of a bundle may be made beside its check.
const _: () = prove!(FILES_BESIDE == MOST_TABLES);

/// Writes all lines on the inputs: the digests and then the answer's line, which stands alone for want of memory.
pub fn report<W: Sink>(
    inputs: &Inputs<'_>,
    answer: &Result<Verdict, Fault>,
    out: &mut W,
) -> Result<(), WriteFault>
    ensures { let lines = lines_of (given inputs.now) answer.now in
        Writes (W.output out.old) (W.output out.new) lines result }
{
    if stands_alone(answer) {
        return line(answer, out);
    }
    let (files, last) = checked_files(inputs);
    say(
        &told_for(goal_of(inputs), Digested::Files(files, last), answer),
        out,
    )
}

/// Writes the digest line of each file that is checked.
pub fn digests<W: Sink>(inputs: &Inputs<'_>, out: &mut W) -> Result<(), WriteFault>
    ensures { let lines = digests_of (digested_of (given inputs.now)) in
        Writes (W.output out.old) (W.output out.new) lines result }
{
    let (files, last) = checked_files(inputs);
    say_digests(files, last, out)
}

/// Writes the line of a verdict, a refusal or want of memory.
pub fn line<W: Sink>(answer: &Result<Verdict, Fault>, out: &mut W) -> Result<(), WriteFault>
    ensures { Writes (W.output out.old) (W.output out.new) (line_of answer.now) result }
{
    put_text(out, line_of(answer).as_str())
}

/// What is to be written of an answer behind these digest lines, where nothing was made: of a yes for the first goal, or of any
/// refusal.
pub fn told<'i>(digested: Digested<'i>, answer: &Result<Verdict, Fault>) -> CommandAnswer<'i>
    ensures { (files : List Bytes) → digest_lines digested.entry ≡ digests_of files
        → IsReplyOf result (reply_on files answer.now) }
{
    told_for(Goal::First, digested, answer)
}

/// The same for any goal.
pub fn told_for<'i>(
    goal: Goal,
    digested: Digested<'i>,
    answer: &Result<Verdict, Fault>,
) -> CommandAnswer<'i>
    ensures { (files : List Bytes) → digest_lines digested.entry ≡ digests_of files
        → IsReplyOf result (reply_for goal files answer.now) }
{
    CommandAnswer {
        digested,
        made: None,
        made_digest: None,
        lines: line_for(goal, answer),
        is_yes: answer.is_ok(),
    }
}

/// As `told`, but for want of memory, with the fault that it tells.
pub fn told_or_memory<'i>(
    digested: Digested<'i>,
    answer: Result<Verdict, Fault>,
) -> Answered<'i, AllocError, Fault>
    ensures told { (files : List Bytes) → digest_lines digested.entry ≡ digests_of files
        → IfOk result.answer (λ told. IsReplyOf told (reply_on files answer) × (answer ≢ Err Memory)) }
    ensures memory { OnErr result.answer (answer ≡ Err Memory) }
{
    told_or_memory_for(Goal::First, digested, answer)
}

/// The same for any goal.
pub fn told_or_memory_for<'i>(
    goal: Goal,
    digested: Digested<'i>,
    answer: Result<Verdict, Fault>,
) -> Answered<'i, AllocError, Fault>
    ensures told { (files : List Bytes) → digest_lines digested.entry ≡ digests_of files
        → IfOk result.answer (λ told.
        IsReplyOf told (reply_for goal files answer) × (answer ≢ Err Memory)) }
    ensures memory { OnErr result.answer (answer ≡ Err Memory) }
{
    match settled(answer) {
        Ok(answer) => Answered {
            answer: Ok(told_for(goal, digested, &answer)),
            fault: answer.err(),
        },
        Err(memory) => Answered {
            answer: Err(memory),
            fault: None,
        },
    }
}

/// What is found, where memory isn't wanted.
pub fn settled<A: Drop>(found: Result<A, Fault>) -> Result<Result<A, Fault>, AllocError>
    ensures ok { IfOk result (λ settled. (settled ≡ found) × (settled ≢ Err Memory)) }
    ensures err { OnErr result (found ≡ Err Memory) }
{
    match found {
        Err(Fault::Memory) => Err(AllocError),
        Ok(found) => Ok(Ok(found)),
        Err(refused) => Ok(Err(refused)),
    }
}

/// The files whose digests are told: several, and one behind them.
fn checked_files<'i>(inputs: &Inputs<'i>) -> (&'i [Vec<u8>], Option<&'i [u8]>)
    ensures { all_bytes result.0.now ++ list_of (option_map (λ file. file.now) result.1)
        ≡ digested_of (given inputs.now) }
{
    match *inputs {
        Inputs::Replay { .. } => (&[], None),
        Inputs::Table { table } => (&[], Some(table)),
        Inputs::Bound { log, tables, .. } | Inputs::Optimal { log, tables, .. } => {
            (tables, Some(log))
        }
    }
}

/// Where the blank of what is checked is at home.
fn goal_of(inputs: &Inputs<'_>) -> Goal
    ensures { result ≡ goal_of (given inputs.now) }
{
    match *inputs {
        Inputs::Replay { goal, .. } => goal,
        Inputs::Table { .. } => Goal::First,
        Inputs::Bound { goal, .. } | Inputs::Optimal { goal, .. } => goal,
    }
}

/// Whether an answer is written without digests, as want of memory is.
fn stands_alone(answer: &Result<Verdict, Fault>) -> bool
    ensures { result ≡ stands_alone answer.now }
{
    matches!(answer, Err(Fault::Memory))
}

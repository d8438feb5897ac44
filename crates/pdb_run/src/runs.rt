//! A run of a command: its beginning and its end. Between them the command checks.

ghost use Rattle.std.specs.Prelude.{◌≡◌, ◌↔◌, ◌<◌, List, None, Ok, Some, codes, false, length, map, true, MatchResult, IfErr, IfNone, IfOk, IfSome, IsTrue, OnErr, OnOk};
ghost use Rattle.byte_io.specs.Shelf.{Bytes};
ghost use Rattle.pdb_run.specs.Answers.{IsAnswerBy, IsMadeBy, all_bytes, answer_text};
ghost use Rattle.pdb_run.specs.Ended.{HasItsStatus, status_by};
ghost use Rattle.pdb_run.specs.Inputs.{HasNoSuch, HasSuch, TakesLook, wanted_of};
ghost use Rattle.pdb_run.specs.Io.{HasRead, HasReadAndTried, IsKept, IsNotKept, IsSaid};
ghost use Rattle.pdb_run.specs.Runs.{Ends, MayReplaceBy, SparesBy, World, spared, status_of, status_of_reply, text_of, unkept_status, unkept_text, unread};
ghost use Rattle.pdb_run.specs.Steps.{fronts_in, kept_of};
ghost use Rattle.pdb_run.specs.declared.statuses.Status.{Status};
ghost use Rattle.pdb_run.specs.Writing.{maker_line, memory_line, named_line, shown, shown_byte};

use crate::answers::{Answered, CommandAnswer, Unanswered};
use crate::commands::{Command, Input};
use crate::ends::{Cause, Ended};
use crate::inputs::{Unread, load_all};
use crate::io::Io;
use byte_io::shelf::KeepFault;
use byte_io::streams::{ReadFault, WriteFault};
use std::alloc::{AllocError, Global};

/// The line of want of memory.
pub const NO_MEMORY: &str = "no memory\n";

/// The line of what was made wrong.
const MADE_WRONG: &str = "fault maker\n";

/// Reads the inputs of a command. Where one can't be read, that is said, and the run has ended.
#[tactic(auto, using(crate::proofs::AnswerLemmas::ends_unlisted))]
pub fn read_inputs<'n, C: Command<'n>, F: Copy, I: Io>(
    alloc: Global,
    command: &C,
    io: &mut I,
) -> Result<Vec<Vec<u8>>, Ended<'n, F>>
    ensures caused { IfErr result HasItsStatus }
    ensures same_streams { I.streams io.new ≡ I.streams io.old }
    ensures read { let wanted = (C.plan command.now).inputs in IfOk result
        (λ inputs. HasRead wanted (I.world io.old) (I.world io.new) (all_bytes inputs.items)) }
    ensures count { let wanted = (C.plan command.now).inputs in
        IfOk result (λ inputs. length inputs.items ≡ length wanted) }
    ensures ends { let plan = C.plan command.now in
        IfErr result (λ ended. Ends plan (I.world io.old) (I.world io.new) ended.status) }
{
    let Ok(wanted) = command.inputs(alloc) else {
        return Err(say_no_memory(io));
    };
    read_wanted(alloc, command, wanted.as_slice(), io)
}

/// The same, where its inputs are listed.
#[tactic(auto, using(crate::proofs::AnswerLemmas::ends_unlisted))]
fn read_wanted<'n, C: Command<'n>, F: Copy, I: Io>(
    alloc: Global,
    command: &C,
    wanted: &[Input<'n>],
    io: &mut I,
) -> Result<Vec<Vec<u8>>, Ended<'n, F>>
    requires { map wanted_of wanted.now ≡ (C.plan command.now).inputs }
    ensures caused { IfErr result HasItsStatus }
    ensures same_streams { I.streams io.new ≡ I.streams io.old }
    ensures read { let wanted = (C.plan command.now).inputs in IfOk result
        (λ inputs. HasRead wanted (I.world io.old) (I.world io.new) (all_bytes inputs.items)) }
    ensures count { let wanted = (C.plan command.now).inputs in
        IfOk result (λ inputs. length inputs.items ≡ length wanted) }
    ensures ends { let plan = C.plan command.now in
        IfErr result (λ ended. Ends plan (I.world io.old) (I.world io.new) ended.status) }
{
    // Only the contract speaks of it.
    let _command = command;
    let Ok(room) = Vec::with_capacity(alloc, wanted.len()) else {
        return Err(say_no_memory(io));
    };
    match load_all(alloc, wanted, room, io) {
        Ok(inputs) => Ok(inputs),
        Err(fault) => Err(say_unread(&fault, io)),
    }
}

/// Files that are spared by what was read.
pub trait Sparing {
    /// Which ones are, for inputs of these bytes.
    ghost spares: { Self → List Bytes → Bytes → Type 0 };

    /// Up to how many bytes files are looked at, where they are: longer ones are spared. Where they aren't, none is spared.
    fn most_bytes(&self, inputs: &[Vec<u8>]) -> Option<u64>
        ensures over { let Such = spares self.now (all_bytes inputs.now) in
            IfSome result (λ most. (file : Bytes) → most < length file → Such file) }
        ensures none { let Such = spares self.now (all_bytes inputs.now) in
            IfNone result ((file : Bytes) → ¬ Such file) };

    /// Whether a file is spared.
    fn spares(&self, alloc: Global, inputs: &[Vec<u8>], file: &[u8]) -> Result<bool, AllocError>
        ensures { let Such = spares self.now (all_bytes inputs.now) in
            IfOk result (λ is. IsTrue is ↔ Such file.now) };
}

/// A name to keep a file under, and how the files begin whose place it may take there, if not that of any.
#[derive(Clone, Copy)]
pub struct Keeping<'n, 'f> {
    pub name: &'n str,
    pub replaces: Option<&'f [&'f [u8]]>,
}

/// As `read_inputs`, of a command that keeps a file under a name: once its inputs are read it is seen whether the file there is
/// spared, and then tried whether one can be kept there. Where it is, or that fails, it is said, and the run has ended before
/// anything is checked or made.
#[tactic(auto, using(crate::proofs::AnswerLemmas::ends_unlisted))]
pub fn read_inputs_and_try<'n, C: Command<'n>, S: Sparing, F: Copy, I: Io>(
    alloc: Global,
    command: &C,
    keeping: Keeping<'n, '_>,
    sparing: &S,
    io: &mut I,
) -> Result<Vec<Vec<u8>>, Ended<'n, F>>
    requires under { (C.plan command.now).keeps_under ≡ Some keeping.name.now }
    requires replaces { (C.plan command.now).replaces ≡ fronts_in keeping }
    requires spares { (inputs : List Bytes) (file : Bytes)
        → (C.plan command.now).Spares inputs file ↔ S.spares sparing.now inputs file }
    ensures caused { IfErr result HasItsStatus }
    ensures same_streams { I.streams io.new ≡ I.streams io.old }
    ensures tried { let plan = C.plan command.now in let old = I.world io.old in IfOk result
        (λ inputs. HasReadAndTried plan keeping.entry.name.now old (I.world io.new) (all_bytes inputs.items)) }
    ensures count { let wanted = (C.plan command.now).inputs in
        IfOk result (λ inputs. length inputs.items ≡ length wanted) }
    ensures ends { let plan = C.plan command.now in
        IfErr result (λ ended. Ends plan (I.world io.old) (I.world io.new) ended.status) }
{
    let Ok(wanted) = command.inputs(alloc) else {
        return Err(say_no_memory(io));
    };
    let inputs = read_wanted(alloc, command, wanted.as_slice(), io)?;
    if is_spared(&keeping, wanted.as_slice(), io) {
        return Err(say_spared(keeping.name, io));
    }
    match spares_what_is_there(alloc, keeping.name, sparing, inputs.as_slice(), io) {
        Ok(true) => return Err(say_spared(keeping.name, io)),
        Ok(false) => {}
        Err(_) => return Err(say_no_memory(io)),
    }
    match io.try_keep(alloc, keeping.name) {
        Ok(()) => Ok(inputs),
        Err(why) => Err(say_unkept(keeping.name, why, io)),
    }
}

/// Whether a file is spared under a name, where these are the inputs, whatever they hold.
fn is_spared<I: Io>(keeping: &Keeping<'_, '_>, inputs: &[Input<'_>], io: &I) -> bool
    ensures spared { let wanted = map wanted_of inputs.now in let files = (I.world io.now).files in
        result ≡ true → SparesBy (fronts_in keeping.now) wanted files keeping.now.name.now }
    ensures free { let wanted = map wanted_of inputs.now in let files = (I.world io.now).files in
        result ≡ false → MayReplaceBy (fronts_in keeping.now) wanted files keeping.now.name.now }
{
    match keeping.replaces {
        Some(fronts) => io.is_spared(keeping.name, inputs, fronts),
        None => false,
    }
}

/// Whether a file is spared under a name, where this was read of the inputs.
fn spares_what_is_there<S: Sparing, I: Io>(
    alloc: Global,
    name: &str,
    sparing: &S,
    inputs: &[Vec<u8>],
    io: &I,
) -> Result<bool, AllocError>
    ensures spared { let Such = S.spares sparing.now (all_bytes inputs.now) in
        result ≡ Ok true → HasSuch Such (I.world io.now).files name.now }
    ensures free { let Such = S.spares sparing.now (all_bytes inputs.now) in
        result ≡ Ok false → HasNoSuch Such (I.world io.now).files name.now }
    ensures unseen { let Such = S.spares sparing.now (all_bytes inputs.now) in
        OnErr result (TakesLook Such (I.world io.now).files name.now) }
{
    let Some(most) = sparing.most_bytes(inputs) else {
        return Ok(false);
    };
    match io.peek(alloc, name, most) {
        Ok(Some(file)) => sparing.spares(alloc, inputs, file.as_slice()),
        Ok(None) => Ok(false),
        Err(ReadFault::Memory) => Err(AllocError),
        Err(_) => Ok(true),
    }
}

/// Says what a command answers, or that its check wants memory. So a run ends that has read the inputs on whose bytes that is
/// the answer, of a command that keeps nothing.
#[tactic(auto, using(crate::proofs::AnswerLemmas::ends_wanting))]
pub fn conclude<'n, C: Command<'n>, F: Copy, I: Io>(
    command: &C,
    answered: &Answered<'_, AllocError, F>,
    io: &mut I,
) -> Ended<'n, F>
    requires { (C.plan command.now).keeps_under ≡ None }
    ensures caused { HasItsStatus result }
    ensures same_streams { I.streams io.new ≡ I.streams io.old }
    ensures ends { let plan = C.plan command.now in
        (inputs : List Bytes) (old : World) → HasRead plan.inputs old (I.world io.old) inputs
        → IsAnswerBy (plan.MayReply inputs) (plan.TakesMemory inputs) answered.now.answer
        → Ends plan old (I.world io.new) result.status }
{
    match &answered.answer {
        Ok(answer) => say_answer(answer, answered.fault, io),
        Err(_) => say_no_memory(io),
    }
}

/// As `conclude`, of a command that keeps a file under a name: what it made is kept after a yes, and then the answer is
/// said. Where it can't be kept, that is said alone; so is that it was made wrong.
pub fn keep_and_conclude<'n, C: Command<'n>, F: Copy, I: Io>(
    alloc: Global,
    command: &C,
    answered: &Answered<'_, Unanswered, F>,
    name: &'n str,
    io: &mut I,
) -> Ended<'n, F>
    requires { (C.plan command.now).keeps_under ≡ Some name.now }
    ensures caused { HasItsStatus result }
    ensures same_streams { I.streams io.new ≡ I.streams io.old }
    ensures ends { let plan = C.plan command.now in
        (inputs : List Bytes) (old : World)
        → HasReadAndTried plan name.now old (I.world io.old) inputs
        → IsMadeBy (plan.MayReply inputs) (plan.TakesMemory inputs) (plan.Makes inputs) answered.now.answer
        → Ends plan old (I.world io.new) result.status }
{
    match &answered.answer {
        Ok(answer) => match keep_made(alloc, answer, name, io) {
            Ok(()) => say_answer(answer, answered.fault, io),
            Err(why) => say_unkept(name, why, io),
        },
        Err(Unanswered::Memory) => say_no_memory(io),
        Err(Unanswered::Wrong) => say_made_wrong(io),
    }
}

/// Keeps what was made, after a yes.
fn keep_made<I: Io>(
    alloc: Global,
    answer: &CommandAnswer<'_>,
    name: &str,
    io: &mut I,
) -> Result<(), KeepFault>
    ensures same_streams { I.streams io.new ≡ I.streams io.old }
    ensures kept { let file = kept_of answer.now in
        OnOk result (IsKept name.now file (I.world io.old) (I.world io.new)) }
    ensures made { OnErr result ((file : Bytes) × (kept_of answer.now ≡ Some file)) }
    ensures failed { IfErr result (IsNotKept name.now (I.world io.old) (I.world io.new)) }
{
    match &answer.made {
        Some(made) if answer.is_yes => io.keep(alloc, name, made.as_slice()),
        _ => Ok(()),
    }
}

/// Says an answer, which for this fault is no yes, where that has one cause.
fn say_answer<'n, F: Copy, I: Io>(
    answer: &CommandAnswer<'_>,
    fault: Option<F>,
    io: &mut I,
) -> Ended<'n, F>
    ensures caused { HasItsStatus result }
    ensures same_streams { I.streams io.new ≡ I.streams io.old }
    ensures said { let status = status_of_reply answer.now.is_yes in
        IsSaid (answer_text answer.now) status (I.world io.old) (I.world io.new) result.status }
{
    match io.write_answer(answer) {
        Ok(()) => Ended::answered(answer.is_yes, fault),
        Err(_) => Ended::by(Some(Cause::Unwritten)),
    }
}

/// Says which input was not read.
pub fn say_unread<'n, F: Copy, I: Io>(fault: &Unread<'n>, io: &mut I) -> Ended<'n, F>
    ensures caused { HasItsStatus result }
    ensures same_streams { I.streams io.new ≡ I.streams io.old }
    ensures said { let outcome = unread (wanted_of fault.now.input) fault.now.why in
        IsSaid (text_of outcome) (status_of outcome) (I.world io.old) (I.world io.new) result.status }
{
    match fault.why {
        ReadFault::F1 => say_unreadable(&fault.input, io),
        ReadFault::F2 => say_too_long(&fault.input, io),
        ReadFault::Memory => say_no_memory(io),
    }
}

/// Says that an input can't be read.
fn say_unreadable<'n, F: Copy, I: Io>(input: &Input<'n>, io: &mut I) -> Ended<'n, F>
    ensures caused { HasItsStatus result }
    ensures same_streams { I.streams io.new ≡ I.streams io.old }
    ensures said { let line = named_line (codes "fault read ") (shown (wanted_of input.now).name) in
        IsSaid line Status.Fault (I.world io.old) (I.world io.new) result.status }
{
    say_named("fault read ", name_of(input), Cause::Unread(input.name), io)
}

/// Says that an input has more bytes than it may have.
fn say_too_long<'n, F: Copy, I: Io>(input: &Input<'n>, io: &mut I) -> Ended<'n, F>
    ensures caused { HasItsStatus result }
    ensures same_streams { I.streams io.new ≡ I.streams io.old }
    ensures said { let line = named_line (codes "fault size ") (shown (wanted_of input.now).name) in
        IsSaid line Status.Fault (I.world io.old) (I.world io.new) result.status }
{
    say_named(
        "fault size ",
        name_of(input),
        Cause::TooLong(input.name),
        io,
    )
}

/// Says that nothing is kept under a name, since what is there is spared.
fn say_spared<'n, F: Copy, I: Io>(name: &'n str, io: &mut I) -> Ended<'n, F>
    ensures caused { HasItsStatus result }
    ensures same_streams { I.streams io.new ≡ I.streams io.old }
    ensures said { let outcome = spared name.now in
        IsSaid (text_of outcome) (status_of outcome) (I.world io.old) (I.world io.new) result.status }
{
    say_named("fault write ", name, Cause::Spared(name), io)
}

/// Says that nothing is kept under a name.
fn say_unkept<'n, F: Copy, I: Io>(name: &'n str, why: KeepFault, io: &mut I) -> Ended<'n, F>
    ensures caused { HasItsStatus result }
    ensures same_streams { I.streams io.new ≡ I.streams io.old }
    ensures said { let text = unkept_text name.now why in
        IsSaid text (unkept_status why) (I.world io.old) (I.world io.new) result.status }
{
    match why {
        KeepFault::F3 => say_unwritable(name, io),
        KeepFault::Memory => say_no_memory(io),
    }
}

/// Says that nothing can be kept under a name.
fn say_unwritable<'n, F: Copy, I: Io>(name: &'n str, io: &mut I) -> Ended<'n, F>
    ensures caused { HasItsStatus result }
    ensures same_streams { I.streams io.new ≡ I.streams io.old }
    ensures said { let line = named_line (codes "fault write ") (shown (Some name.now)) in
        IsSaid line Status.Fault (I.world io.old) (I.world io.new) result.status }
{
    say_named("fault write ", name, Cause::Unkept(name), io)
}

/// Says that what was made is wrong.
fn say_made_wrong<'n, F: Copy, I: Io>(io: &mut I) -> Ended<'n, F>
    ensures caused { HasItsStatus result }
    ensures same_streams { I.streams io.new ≡ I.streams io.old }
    ensures said { IsSaid maker_line Status.Fault (I.world io.old) (I.world io.new) result.status }
{
    say_text(MADE_WRONG, Some(Cause::MadeWrong), io)
}

/// An input's name, and `-` for the reader.
fn name_of<'a>(input: &Input<'a>) -> &'a str
    ensures { map shown_byte result.now ≡ shown (wanted_of input.now).name }
{
    match input.name {
        Some(name) => name,
        None => "-",
    }
}

/// Says the line of a fault with a name.
fn say_named<'n, F: Copy, I: Io>(
    text: &str,
    name: &str,
    why: Cause<'n, F>,
    io: &mut I,
) -> Ended<'n, F>
    ensures caused { HasItsStatus result }
    ensures same_streams { I.streams io.new ≡ I.streams io.old }
    ensures said { let line = named_line text.now (map shown_byte name.now) in
        IsSaid line (status_by (Some why.entry)) (I.world io.old) (I.world io.new) result.status }
{
    end_after(io.write_named(text, name), Some(why))
}

/// Says that there isn't the memory.
pub fn say_no_memory<'n, F: Copy, I: Io>(io: &mut I) -> Ended<'n, F>
    ensures caused { HasItsStatus result }
    ensures same_streams { I.streams io.new ≡ I.streams io.old }
    ensures said { IsSaid memory_line Status.NoMemory (I.world io.old) (I.world io.new) result.status }
{
    say_text(NO_MEMORY, Some(Cause::NoMemory), io)
}

/// Says a text, which ends a run that has this cause to end without a yes, if any.
pub fn say_text<'n, F: Copy, I: Io>(
    text: &str,
    why: Option<Cause<'n, F>>,
    io: &mut I,
) -> Ended<'n, F>
    ensures caused { HasItsStatus result }
    ensures same_streams { I.streams io.new ≡ I.streams io.old }
    ensures said { IsSaid text.now (status_by why.entry) (I.world io.old) (I.world io.new) result.status }
{
    end_after(io.write_text(text), why)
}

/// The end of a run that has this cause to end without a yes, if any, where this came of its last write.
fn end_after<'n, F: Copy>(
    written: Result<(), WriteFault>,
    why: Option<Cause<'n, F>>,
) -> Ended<'n, F>
    ensures caused { HasItsStatus result }
    ensures status { MatchResult written
        (λ _. result.status ≡ status_by why.entry) (λ _. result.status ≡ Status.Fault) }
{
    match written {
        Ok(()) => Ended::by(why),
        Err(_) => Ended::by(Some(Cause::Unwritten)),
    }
}

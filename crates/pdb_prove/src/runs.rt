//! A run of `prove`.

ghost use Rattle.std.specs.Prelude.{◌≡◌, ◌≤◌, ◌∷◌, IfErr, IfOk, IfSome, MatchOption, MatchResult, None, false, length, map, option_map};
ghost use Rattle.std.specs.List.{All};
ghost use Rattle.claim_text.specs.Lines.{HasFewLetters};
ghost use Rattle.claim_text.specs.Shown.{claim_shown};
ghost use Rattle.claim_text.specs.Texts.{AreClaims};
ghost use Rattle.pdb_request.specs.Asked.{prove_shown};
ghost use Rattle.pdb_run.specs.Answers.{all_bytes, answer_text, digest_lines};
ghost use Rattle.pdb_run.specs.Ended.{HasItsStatus};
ghost use Rattle.pdb_run.specs.Inputs.{wanted_of};
ghost use Rattle.pdb_run.specs.Io.{HasRead};
ghost use Rattle.pdb_run.specs.Runs.{World, status_of_reply};
ghost use Rattle.pdb_run.specs.Writing.{digests_of};
ghost use Rattle.pdb_prove.specs.Prove.{AreReady, ClaimsFiles, ProveEnds, a_claims_text, budget_of, digested_files, in_order, prove_inputs, prove_plan};
ghost use Rattle.pdb_prove.specs.Steps.{AreCut, HasBegun, IsAskedOver, IsCauseForClaims, IsRoomFor, IsSameAsked, IsToldTo, PrunesFor, claims_of, files_of};

use crate::asked::{Asked, Ready, of_claims};
use crate::batches::answer_all;
use crate::help::Help;
use crate::mistakes::beside_fault;
use crate::words::TableWords;
use byte_io::streams::WriteFault;
use claim_text::{Claim, read_claims};
use move_strings::Automaton;
use pdb_request::Prove;
use pdb_run::{
    AnswerLines, Beside, Cause, Command, CommandAnswer, Digested, Ended, Input, Io, conclude,
    read_inputs,
};
use pdb_verdict::{Fault, TableFiles, a_text, given_up, over_tables, told_or_memory, with_tables};
use set_sum::Bundle;
use std::alloc::{AllocError, Global};
use std::convert::identity;
use std::sync::Wait;
use std::thread::Threads;
use work_run::{Gate, Workers};

/// The most bytes of a claims text.
const CLAIMS_LIMIT: u64 = 1 << 26;

/// Claims to be proved, as a command.
#[derive(Clone, Copy)]
struct Proving<'c, 'n>(&'c Prove<Option<&'n str>, &'n str>);

impl<'n> Command<'n> for Proving<'_, 'n> {
    ghost plan = { λ command. prove_plan (prove_shown command.0.now) };

    fn inputs(&self, alloc: Global) -> Result<Vec<Input<'n>>, AllocError> {
        let prove = self.0;
        let texts = [a_claims_text(prove.claims), a_text(Some(prove.sets))];
        with_tables(alloc, &texts, prove.tables.as_slice())
    }
}

/// A claims text under this name, or of the reader.
fn a_claims_text<'a>(name: Option<&'a str>) -> Input<'a>
    ensures { wanted_of result ≡ a_claims_text (option_map (λ s. s.now) name.entry) }
{
    Input {
        name,
        limit: CLAIMS_LIMIT,
    }
}

/// Claims to be proved with a claims text and the bytes of the other inputs, which were read in their order.
fn with_bytes<'t>(
    prove: &Prove<Option<&str>, &str>,
    text: &'t [u8],
    inputs: Vec<Vec<u8>>,
) -> Prove<&'t [u8], Vec<u8>>
    requires { 1 ≤ length inputs.items }
    ensures fold { result.fold ≡ prove.now.fold }
    ensures inputs { text.now ∷ all_bytes inputs.items ≡ in_order (files_of result) }
{
    let mut tables = inputs;
    Prove {
        claims: text,
        sets: tables.remove(0),
        tables,
        workers: prove.workers,
        fold: prove.fold,
        budget: prove.budget,
        goal: prove.goal,
    }
}

/// A whole run of `prove`, whoever checks the tables and searches. Each line is written as soon as it and those before it are
/// known.
#[inline(never)] // so that the stack has the values of one command alone
pub fn run_prove<'n, H: Threads + Wait + Sync, G: Gate + Sync, I: Io>(
    prove: &Prove<Option<&'n str>, &'n str>,
    workers: &Workers<'_, H, G>,
    io: &mut I,
) -> Ended<'n, Fault>
    ensures caused { HasItsStatus result }
    ensures same_streams { I.streams io.new ≡ I.streams io.old }
    ensures ends { let arguments = prove_shown prove.now in
        ProveEnds arguments (I.world io.old) (I.world io.new) result.status }
{
    let command = Proving(prove);
    let mut inputs = match read_inputs(workers.alloc, &command, io) {
        Ok(inputs) => inputs,
        Err(ended) => return ended,
    };
    let text = inputs.remove(0);
    let files = with_bytes(prove, text.as_slice(), inputs);
    match read_claims(workers.alloc, files.claims) {
        Ok(claims) => answer_claims(&command, claims, files, workers, io),
        Err(fault) => {
            let digested = Digested::Files(files.tables.as_slice(), Some(files.claims));
            let beside = beside_fault(files.claims, fault);
            tell_fault(&command, digested, of_claims(fault), io).telling(beside)
        }
    }
}

/// The rest of a run over claims that were read. Over full tables words may be wanted: once there is memory for them, the bundle is
/// given up, and then the bytes of each table as its words are made.
#[inline(never)] // so that the stack hasn't what was needed to read them
fn answer_claims<'n, H: Threads + Wait + Sync, G: Gate + Sync, I: Io>(
    command: &Proving<'_, 'n>,
    claims: Vec<Claim<'_>>,
    files: Prove<&[u8], Vec<u8>>,
    workers: &Workers<'_, H, G>,
    io: &mut I,
) -> Ended<'n, Fault>
    requires are { AreClaims files.claims.now (map claim_shown claims.items) }
    requires few { All (λ claim. HasFewLetters (claim_shown claim)) claims.items }
    ensures caused { HasItsStatus result }
    ensures same_streams { I.streams io.new ≡ I.streams io.old }
    ensures ends { let arguments = prove_shown command.now.0.now in (old : World)
        → HasRead (prove_inputs arguments) old (I.world io.old) (in_order (files_of files.entry))
        → files.entry.fold ≡ arguments.fold
        → ProveEnds arguments old (I.world io.new) result.status }
{
    let Prove {
        claims: text,
        sets,
        mut tables,
        fold,
        ..
    } = files;
    let given = given_up(&mut tables, fold);
    let kept = tables.as_slice();
    let files = TableFiles { given, kept, fold };
    let (digested, bundle) = over_tables(files, Some(text), sets.as_slice(), workers, identity);
    let ready = Ready::of(command.0.goal, text, claims, budget_of(command.0), bundle);
    let Ready { mut asked, bundle } = match begin(command, digested, ready, io) {
        Ok(ready) => ready,
        Err(ended) => return ended,
    };
    let (words, strings) = match answer_over_tables(&mut asked, &bundle, !fold, workers, io) {
        Ok(wanted) => wanted,
        Err(_) => return Ended::by(Some(Cause::Unwritten)),
    };
    let Some(words) = words else {
        return told_end(&asked);
    };
    drop(bundle);
    let words = words.fill(tables, workers);
    let bundle = words.bundle();
    let mut help = Help::over_words(&bundle, strings);
    match answer_all(&mut asked, &mut help, workers, io) {
        Ok(()) => told_end(&asked),
        Err(_) => Ended::by(Some(Cause::Unwritten)),
    }
}

/// The end of a run in which all claims are told.
fn told_end<'n>(asked: &Asked<'_>) -> Ended<'n, Fault>
    ensures caused { HasItsStatus result }
    ensures status { result.status ≡ status_of_reply asked.now.is_yes }
{
    Ended::answered(asked.is_yes, asked.refused).telling(Beside::Tally(asked.tally))
}

/// Answers claims over the tables of a bundle, until words are wanted. They may be wanted only where this is said. The memory for
/// words that are wanted, and the automaton of strings where it was made.
fn answer_over_tables<H: Threads + Sync, G: Gate + Sync, I: Io>(
    asked: &mut Asked<'_>,
    bundle: &Bundle<'_>,
    may_want_words: bool,
    workers: &Workers<'_, H, G>,
    io: &mut I,
) -> Result<(Option<TableWords>, Option<Automaton>), WriteFault>
    requires few { All HasFewLetters (claims_of asked.old) }
    requires over { IsAskedOver bundle.now asked.old }
    ensures same { IsSameAsked asked.old asked.new }
    ensures goes_on { may_want_words ≡ false → IfOk result (λ wanted. wanted.0 ≡ None) }
    ensures wanted { let all = length asked.old.claims.items in
        IfOk result (λ wanted. MatchOption wanted.0 (all ≤ asked.new.told) (IsRoomFor bundle.now)) }
    ensures strings { IfOk result (λ wanted. IfSome wanted.1 (PrunesFor bundle.now.side)) }
    ensures same_streams { I.streams io.new ≡ I.streams io.old }
    ensures told { (begun : World) → IsToldTo bundle.now begun (I.world io.old) asked.old
        → MatchResult result
        (λ _. IsToldTo bundle.now begun (I.world io.new) asked.new)
        (λ _. AreCut asked.new.goal bundle.now asked.new.budget begun (I.world io.new)
        (claims_of asked.new)) }
{
    let mut help = Help::over_tables(bundle, may_want_words);
    answer_all(asked, &mut help, workers, io)?;
    let Help { words, strings, .. } = help;
    Ok((words, strings))
}

/// Tells the digests where all is ready, and else why nothing is searched.
fn begin<'n, 'b, 'c, I: Io>(
    command: &Proving<'_, 'n>,
    digested: Digested<'b>,
    ready: Result<Ready<'b, 'c>, Fault>,
    io: &mut I,
) -> Result<Ready<'b, 'c>, Ended<'n, Fault>>
    ensures caused { IfErr result HasItsStatus }
    ensures same_streams { I.streams io.new ≡ I.streams io.old }
    ensures ready { IfOk result (λ begun. ready.entry ≡ Ok begun) }
    ensures begins { let arguments = prove_shown command.now.0.now in
        (files : ClaimsFiles) (old : World)
        → HasRead (prove_inputs arguments) old (I.world io.old) (in_order files)
        → digest_lines digested.entry ≡ digests_of (digested_files files)
        → MatchResult ready.entry
        (λ ready. AreReady arguments.fold files (claims_of ready.asked) ready.bundle)
        (IsCauseForClaims arguments.fold files)
        → MatchResult result
        (λ ready.
        HasBegun arguments files old (I.world io.new) (claims_of ready.asked) ready.bundle)
        (λ ended. ProveEnds arguments old (I.world io.new) ended.status) }
{
    let ready = match ready {
        Ok(ready) => ready,
        Err(fault) => return Err(tell_fault(command, digested, fault, io)),
    };
    match io.write_answer(&digests_alone(digested)) {
        Ok(()) => Ok(ready),
        Err(_) => Err(Ended::by(Some(Cause::Unwritten))),
    }
}

/// Tells why nothing is searched.
#[inline(never)] // so that the stack hasn't its values while claims are searched for
fn tell_fault<'n, I: Io>(
    command: &Proving<'_, 'n>,
    digested: Digested<'_>,
    fault: Fault,
    io: &mut I,
) -> Ended<'n, Fault>
    ensures caused { HasItsStatus result }
    ensures same_streams { I.streams io.new ≡ I.streams io.old }
    ensures ends { let arguments = prove_shown command.now.0.now in
        (files : ClaimsFiles) (old : World)
        → HasRead (prove_inputs arguments) old (I.world io.old) (in_order files)
        → digest_lines digested.entry ≡ digests_of (digested_files files)
        → IsCauseForClaims arguments.fold files fault
        → ProveEnds arguments old (I.world io.new) result.status }
{
    conclude(command, &told_or_memory(digested, Err(fault)), io)
}

/// How many boards may be expanded for a claim.
fn budget_of(prove: &Prove<Option<&str>, &str>) -> u64
    ensures { result ≡ budget_of (prove_shown prove.now).budget }
{
    match prove.budget {
        Some(budget) => budget,
        None => u64::MAX,
    }
}

/// The digest lines alone, as an answer.
fn digests_alone<'i>(digested: Digested<'i>) -> CommandAnswer<'i>
    ensures { answer_text result ≡ digest_lines digested.entry }
{
    CommandAnswer {
        digested,
        made: None,
        made_digest: None,
        lines: AnswerLines::new(),
        is_yes: true,
    }
}

//! The commands `bound` and `optimal`: checks of a log.

ghost use Rattle.std.specs.Prelude.{◌≡◌, ◌≤◌, length};
ghost use Rattle.pdb_request.specs.Asked.{log_check_shown};
ghost use Rattle.pdb_run.specs.Answers.{IsAnswerBy, all_bytes};
ghost use Rattle.pdb_run.specs.Ended.{HasItsStatus};
ghost use Rattle.pdb_run.specs.Runs.{Ends};
ghost use Rattle.pdb_verdict.specs.Inputs.{files_in_order};
ghost use Rattle.pdb_verdict.specs.Steps.{IsAnswerOver, claim_read};
ghost use Rattle.pdb_verdict.specs.Verdicts.{TakesMemory, TellsResult};
ghost use Rattle.pdb_check.specs.Plans.{log_check_plan};

use pdb_request::LogCheck;
use pdb_run::{Answered, Command, Ended, Input, Io, conclude, digested_beside, read_inputs};
use pdb_verdict::{
    Fault, TableFiles, Verdict, a_log, a_text, answer_over, begin_claim, given_up, over_tables,
    told_or_memory_for, with_tables,
};
use set_sum::Bundle;
use std::alloc::{AllocError, Global};
use std::sync::Wait;
use std::thread::Threads;
use work_run::{Gate, Workers};

/// A check of a log, as a command.
#[derive(Clone, Copy)]
struct CheckingLog<'c, 'n>(&'c LogCheck<&'n str>);

impl<'n> Command<'n> for CheckingLog<'_, 'n> {
    ghost plan = { λ command. log_check_plan command.0.now.claim
        (log_check_shown command.0.now) };

    fn inputs(&self, alloc: Global) -> Result<Vec<Input<'n>>, AllocError> {
        let check = self.0;
        let texts = [
            a_text(Some(check.text)),
            a_text(Some(check.sets)),
            a_log(check.log),
        ];
        with_tables(alloc, &texts, check.tables.as_slice())
    }
}

/// A check of a log with the bytes of its inputs, which were read in their order.
fn with_bytes(check: &LogCheck<&str>, inputs: Vec<Vec<u8>>) -> LogCheck<Vec<u8>>
    requires { 3 ≤ length inputs.items }
    ensures claim { result.claim ≡ check.now.claim }
    ensures fold { result.fold ≡ check.now.fold }
    ensures goal { result.goal ≡ check.now.goal }
    ensures inputs { all_bytes inputs.items ≡ files_in_order (claim_read result) }
{
    let mut tables = inputs;
    LogCheck {
        claim: check.claim,
        text: tables.remove(0),
        sets: tables.remove(0),
        log: tables.remove(0),
        tables,
        workers: check.workers,
        fold: check.fold,
        goal: check.goal,
    }
}

/// A whole run of `bound` or of `optimal`, whoever checks the tables and the log.
#[inline(never)] // so that the stack has the values of one command alone
pub fn run_log_check<'n, H: Threads + Wait + Sync, G: Gate + Sync, I: Io>(
    check: &LogCheck<&'n str>,
    workers: &Workers<'_, H, G>,
    io: &mut I,
) -> Ended<'n, Fault>
    ensures caused { HasItsStatus result }
    ensures same_streams { I.streams io.new ≡ I.streams io.old }
    ensures ends { let plan = log_check_plan check.now.claim (log_check_shown check.now) in
        Ends plan (I.world io.old) (I.world io.new) result.status }
{
    let command = CheckingLog(check);
    let mut read = match read_inputs(workers.alloc, &command, io) {
        Ok(inputs) => with_bytes(check, inputs),
        Err(ended) => return ended,
    };
    let answered = answer_log_check(&mut read, workers);
    conclude(&command, &answered, io)
}

/// The answer to a check of a log. The board comes before all else, and takes no memory.
fn answer_log_check<'i, H: Threads + Wait + Sync, G: Gate + Sync>(
    check: &'i mut LogCheck<Vec<u8>>,
    workers: &Workers<'_, H, G>,
) -> Answered<'i, AllocError, Fault>
    ensures { let claimed = claim_read check.old in
        IsAnswerBy (TellsResult claimed) (TakesMemory claimed) result.answer }
{
    let (claim, fold, goal) = (check.claim, check.fold, check.goal);
    let LogCheck {
        text,
        sets,
        log,
        tables,
        ..
    } = check;
    let (sets, log) = (sets.as_slice(), log.as_slice());
    match begin_claim(goal, claim, text.as_slice()) {
        Ok(start) => {
            let check = |bundle: Result<Bundle<'_>, Fault>| -> Result<Verdict, Fault>
                ensures { IsAnswerOver bundle.entry start log.entry.now result }
            { answer_over(bundle, &start, log, workers) };
            let given = given_up(tables, fold);
            let kept = tables.as_slice();
            let files = TableFiles { given, kept, fold };
            let (digested, answer) = over_tables(files, Some(log), sets, workers, check);
            told_or_memory_for(goal, digested, answer)
        }
        Err(refused) => {
            let tables = tables.as_slice();
            let refuse = || Err(refused);
            let (digested, answer) = digested_beside(workers, tables, Some(log), refuse);
            told_or_memory_for(goal, digested, answer)
        }
    }
}

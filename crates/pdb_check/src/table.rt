//! The command `table`.

ghost use Rattle.std.specs.Prelude.{◌≡◌};
ghost use Rattle.pdb_request.specs.Asked.{table_check_shown};
ghost use Rattle.pdb_run.specs.Ended.{HasItsStatus};
ghost use Rattle.pdb_run.specs.Runs.{Ends};
ghost use Rattle.pdb_verdict.specs.Inputs.{table_file};
ghost use Rattle.pdb_verdict.specs.Verdicts.{IsAnswerTo};
ghost use Rattle.pdb_check.specs.Plans.{table_plan};

use pdb_request::TableCheck;
use pdb_run::{Command, Ended, Input, Io, conclude, digested_beside, read_inputs};
use pdb_verdict::{Fault, Verdict, a_table, told_or_memory, verify_table};
use std::alloc::{AllocError, Global};
use std::sync::Wait;
use std::thread::Threads;
use work_run::{Gate, Workers};

/// A check of a table, as a command.
#[derive(Clone, Copy)]
struct CheckingTable<'a>(TableCheck<'a>);

impl<'n> Command<'n> for CheckingTable<'n> {
    ghost plan = { λ command. table_plan (table_check_shown command.0) };

    fn inputs(&self, alloc: Global) -> Result<Vec<Input<'n>>, AllocError> {
        let mut inputs = Vec::new(alloc);
        inputs.push(a_table(self.0.file))?;
        Ok(inputs)
    }
}

/// A whole run of `table`, whoever checks the table.
#[inline(never)] // so that the stack has the values of one command alone
pub fn run_table<'n, H: Threads + Wait + Sync, G: Gate + Sync, I: Io>(
    check: &TableCheck<'n>,
    workers: &Workers<'_, H, G>,
    io: &mut I,
) -> Ended<'n, Fault>
    ensures caused { HasItsStatus result }
    ensures same_streams { I.streams io.new ≡ I.streams io.old }
    ensures ends { let plan = table_plan (table_check_shown check.now) in
        Ends plan (I.world io.old) (I.world io.new) result.status }
{
    let command = CheckingTable(*check);
    let inputs = match read_inputs(workers.alloc, &command, io) {
        Ok(inputs) => inputs,
        Err(ended) => return ended,
    };
    let table = inputs[0].as_slice();
    let check = || -> Result<Verdict, Fault>
        ensures { IsAnswerTo (table_file table.entry.now) result }
    { verify_table(table, workers) };
    let (digested, answer) = digested_beside(workers, &[], Some(table), check);
    conclude(&command, &told_or_memory(digested, answer), io)
}

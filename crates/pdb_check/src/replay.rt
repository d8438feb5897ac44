//! The command `replay`.

ghost use Rattle.std.specs.Prelude.{◌≡◌};
ghost use Rattle.pdb_request.specs.Asked.{replay_shown};
ghost use Rattle.pdb_run.specs.Ended.{HasItsStatus};
ghost use Rattle.pdb_run.specs.Runs.{Ends};
ghost use Rattle.pdb_check.specs.Plans.{replay_plan};

use pdb_request::Replay;
use pdb_run::{Answered, Command, Digested, Ended, Input, Io, conclude, read_inputs};
use pdb_verdict::{Fault, a_text, told_for, verify_puzzle};
use std::alloc::{AllocError, Global};

/// A replay, as a command.
#[derive(Clone, Copy)]
struct Replaying<'a>(Replay<'a>);

impl<'n> Command<'n> for Replaying<'n> {
    ghost plan = { λ command. replay_plan (replay_shown command.0) };

    fn inputs(&self, alloc: Global) -> Result<Vec<Input<'n>>, AllocError> {
        let mut inputs = Vec::new(alloc);
        inputs.push(a_text(self.0.puzzle))?;
        Ok(inputs)
    }
}

/// A whole run of `replay`, without threads: it returns where its shelf, its reader and its writer do.
#[inline(never)] // so that the stack has the values of one command alone
pub fn run_replay<'n, I: Io>(alloc: Global, asked: Replay<'n>, io: &mut I) -> Ended<'n, Fault>
    ensures caused { HasItsStatus result }
    ensures same_streams { I.streams io.new ≡ I.streams io.old }
    ensures ends { let plan = replay_plan (replay_shown asked.entry) in
        Ends plan (I.world io.old) (I.world io.new) result.status }
{
    let command = Replaying(asked);
    let inputs = match read_inputs(alloc, &command, io) {
        Ok(inputs) => inputs,
        Err(ended) => return ended,
    };
    let answer = verify_puzzle(asked.goal, inputs[0].as_slice());
    let answered: Answered<'_, AllocError, Fault> = Answered {
        answer: Ok(told_for(asked.goal, Digested::Files(&[], None), &answer)),
        fault: answer.err(),
    };
    conclude(&command, &answered, io)
}

//! The inputs of a search: what is wanted, in order, and what was read, in the same order.

ghost use Rattle.std.specs.Prelude.{◌≡◌, ◌≤◌, length};
ghost use Rattle.pdb_request.specs.Asked.{solve_shown};
ghost use Rattle.pdb_run.specs.Answers.{all_bytes};
ghost use Rattle.pdb_keep.specs.Solve.{solve_plan};
ghost use Rattle.pdb_keep.specs.Steps.{search_read};

use pdb_request::Solve;
use pdb_run::{Command, Input};
use pdb_verdict::{a_text, with_tables};
use std::alloc::{AllocError, Global};

/// A search, as a command.
#[derive(Clone, Copy)]
pub(crate) struct Solving<'c, 'n>(pub(crate) &'c Solve<'n, &'n str>);

impl<'n> Command<'n> for Solving<'_, 'n> {
    ghost plan = { λ command. solve_plan (solve_shown command.0.now) };

    fn inputs(&self, alloc: Global) -> Result<Vec<Input<'n>>, AllocError> {
        let search = self.0;
        let texts = [a_text(Some(search.board)), a_text(Some(search.sets))];
        with_tables(alloc, &texts, search.tables.as_slice())
    }
}

/// A search with the bytes of its inputs, which were read in their order.
pub(crate) fn with_bytes<'n>(
    search: &Solve<'n, &'n str>,
    inputs: Vec<Vec<u8>>,
) -> Solve<'n, Vec<u8>>
    requires { 2 ≤ length inputs.items }
    ensures fold { result.fold ≡ search.now.fold }
    ensures budget { result.budget ≡ search.now.budget }
    ensures goal { result.goal ≡ search.now.goal }
    ensures inputs { all_bytes inputs.items ≡ search_read result }
{
    let mut tables = inputs;
    Solve {
        board: tables.remove(0),
        sets: tables.remove(0),
        out: search.out,
        replace: search.replace,
        tables,
        workers: search.workers,
        fold: search.fold,
        budget: search.budget,
        goal: search.goal,
    }
}

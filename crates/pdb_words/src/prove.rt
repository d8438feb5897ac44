//! The words of `prove [--workers N] [--fold] [--goal first|last] [--budget N] CLAIMS SETS TABLES..`.

ghost use Rattle.std.specs.Prelude.{◌≡◌, IfOk, option_map};
ghost use Rattle.clap.specs.Words.{app_of};
ghost use Rattle.pdb_request.specs.Asked.{HasBudget, request_shown};
ghost use Rattle.pdb_words.specs.Arguments.{rows_found};
ghost use Rattle.pdb_words.specs.Prove.{file_or_input, prove_command, prove_in};
ghost use Rattle.pdb_words.specs.Workers.{HasWorkers};

use crate::budget::{OPTIONAL, optional_budget_in};
use crate::files::{SETS, TABLES, file_in, files_in};
use crate::fold::{FOLD, fold_in};
use crate::goal::{GOAL, goal_in};
use crate::rows::{Kind, Page, Row, command_of, with_statuses};
use crate::workers::{WORKERS, workers_in};
use clap::{ArgMatches, Command};
use pdb_request::{Prove, Request};
use std::alloc::{AllocError, Global};

/// The command: its help, and what it takes, for `clap`.
pub(crate) fn prove_command<'a>(alloc: Global) -> Result<Command<'a>, AllocError>
    ensures { IfOk result (λ c. app_of c ≡ prove_command) }
{
    let page = Page {
        name: "prove",
        about: "Proves bounds and shortest solutions of many boards by a search, without a log",
        usage: "pdb_cli prove [--workers N] [--fold] [--goal first|last] [--budget N] CLAIMS SETS TABLES..",
        after_help: with_statuses!(
            "CLAIMS has a claim a line:
  BOARD               asks for a shortest solution
  BOARD ; MOVES       says that these moves are a shortest solution
  BOARD : N           says that no solution has fewer than N moves
  BOARD : N part I/K  says that part I of the K parts of that bound holds
Answers come a line a claim, in order, each written as soon as it and those before are done:
`optimal N of BOARD ; MOVES`, `bound N of BOARD`, `part I/K of bound N of BOARD`, or
`refused .. of ..`: why, and the claim.
No log is needed. Workers share the check of the tables and the search.",
            ""
        ),
    };
    let rows = [
        Row {
            id: "CLAIMS",
            kind: Kind::Word,
            help: "The file of the claims, or - for standard input",
        },
        WORKERS,
        FOLD,
        GOAL,
        SETS,
        TABLES,
        OPTIONAL,
    ];
    command_of(alloc, page, &rows)
}

/// The file that a name stands for, or none for `-`, which stands for standard input.
pub(crate) fn file_or_input(name: &str) -> Option<&str>
    ensures { option_map (λ file. file.now) result ≡ file_or_input name.now }
{
    if name == "-" { None } else { Some(name) }
}

/// What these matches of the command ask for.
pub(crate) fn prove_in<'a>(alloc: Global, found: &ArgMatches<'a>) -> Result<Request<'a>, AllocError>
    ensures asked { IfOk result (λ asked. request_shown asked ≡ prove_in (rows_found found.now)) }
    ensures workers { IfOk result HasWorkers }
    ensures budget { IfOk result HasBudget }
{
    Ok(Request::Prove(Prove {
        claims: file_or_input(file_in(found, "CLAIMS")),
        sets: file_in(found, "SETS"),
        tables: files_in(alloc, found, "TABLES")?,
        workers: workers_in(found),
        fold: fold_in(found),
        goal: goal_in(found),
        budget: optional_budget_in(found),
    }))
}

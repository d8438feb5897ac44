//! The words of `solve [--workers N] [--fold] [--goal first|last] [--budget N] [--replace] BOARD SETS OUT TABLES..`.

ghost use Rattle.std.specs.Prelude.{◌≡◌, IfOk};
ghost use Rattle.clap.specs.Words.{app_of};
ghost use Rattle.pdb_request.specs.Asked.{HasBudget, request_shown};
ghost use Rattle.pdb_words.specs.Arguments.{rows_found};
ghost use Rattle.pdb_words.specs.Solve.{solve_command, solve_in};
ghost use Rattle.pdb_words.specs.Workers.{HasWorkers};

use crate::budget::{USUAL, budget_in};
use crate::files::{SETS, TABLES, file_in, files_in};
use crate::fold::{FOLD, fold_in};
use crate::goal::{GOAL, goal_in};
use crate::replace::{REPLACE, replace_in};
use crate::rows::{Kind, Page, Row, command_of, with_statuses};
use crate::workers::{WORKERS, workers_in};
use clap::{ArgMatches, Command};
use pdb_request::{Request, Solve};
use std::alloc::{AllocError, Global};

/// The command: its help, and what it takes, for `clap`.
pub(crate) fn solve_command<'a>(alloc: Global) -> Result<Command<'a>, AllocError>
    ensures { IfOk result (λ c. app_of c ≡ solve_command) }
{
    let page = Page {
        name: "solve",
        about: "Searches for a shortest solution of a board, and keeps the log that proves it",
        usage: "pdb_cli solve [--workers N] [--fold] [--goal first|last] [--budget N] [--replace] BOARD SETS OUT TABLES..",
        after_help: with_statuses!(
            "The budget is in boards expanded. The usual 1000000 is enough for most boards of side 4 over
three tables of five tiles whose solutions have fewer than about 55 moves; harder ones take
2 to 10 million. Where it is spent, the answer is `refused K1`.
The search is one thread's work, whatever --workers says: workers share the checks. Tables
that make-table builds are built by all processors.
OUT is replaced once its log is found good; until then, and otherwise, it stays as it is. An
OUT that is an input, or no log of BOARD, is replaced only with --replace.
`prove` answers a board without a log.

Reads BOARD, SETS and TABLES. Answers the digests of the tables and the log, `moves ..` and
`optimal N`, or `refused ..` and why.",
            ""
        ),
    };
    let rows = [
        Row {
            id: "BOARD",
            kind: Kind::Word,
            help: "A board text",
        },
        WORKERS,
        FOLD,
        GOAL,
        SETS,
        Row {
            id: "OUT",
            kind: Kind::Word,
            help: "The file that is to hold the log",
        },
        TABLES,
        USUAL,
        REPLACE,
    ];
    command_of(alloc, page, &rows)
}

/// What these matches of the command ask for.
pub(crate) fn solve_in<'a>(alloc: Global, found: &ArgMatches<'a>) -> Result<Request<'a>, AllocError>
    ensures asked { IfOk result (λ asked. request_shown asked ≡ solve_in (rows_found found.now)) }
    ensures workers { IfOk result HasWorkers }
    ensures budget { IfOk result HasBudget }
{
    Ok(Request::Solve(Solve {
        board: file_in(found, "BOARD"),
        sets: file_in(found, "SETS"),
        out: file_in(found, "OUT"),
        replace: replace_in(found),
        tables: files_in(alloc, found, "TABLES")?,
        workers: workers_in(found),
        fold: fold_in(found),
        goal: goal_in(found),
        budget: budget_in(found),
    }))
}

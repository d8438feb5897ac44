//! The words of `bound [--workers N] [--fold] [--goal first|last] BOARD SETS LOG TABLES..`, and of `optimal`, which has PUZZLE in
//! place of BOARD.

ghost use Rattle.std.specs.Prelude.{◌≡◌, IfOk};
ghost use Rattle.clap.specs.Words.{app_of};
ghost use Rattle.pdb_request.specs.Asked.{HasBudget, request_shown};
ghost use Rattle.pdb_words.specs.Arguments.{rows_found};
ghost use Rattle.pdb_words.specs.LogChecks.{check_command, check_in, text_id};
ghost use Rattle.pdb_words.specs.Workers.{HasWorkers};

use crate::files::{SETS, TABLES, file_in, files_in};
use crate::fold::{FOLD, fold_in};
use crate::goal::{GOAL, goal_in};
use crate::rows::{Kind, Page, Row, command_of, with_statuses};
use crate::workers::{WORKERS, workers_in};
use clap::{ArgMatches, Command};
use pdb_request::{LogCheck, LogClaim, Request};
use std::alloc::{AllocError, Global};

/// The file of the log.
const LOG: Row<'static> = Row {
    id: "LOG",
    kind: Kind::Word,
    help: "A log file",
};

/// The command `bound`: its help, and what it takes, for `clap`.
pub(crate) fn bound_command<'a>(alloc: Global) -> Result<Command<'a>, AllocError>
    ensures { IfOk result (λ c. app_of c ≡ check_command LogClaim.Bound) }
{
    let page = Page {
        name: "bound",
        about: "Says whether a log proves that no solution of a board has fewer moves than its bound",
        usage: "pdb_cli bound [--workers N] [--fold] [--goal first|last] BOARD SETS LOG TABLES..",
        after_help: with_statuses!(
            "Reads all of these files. Answers the digests of the tables and the log, and `bound N`,
or `refused ..` with what is wrong first.",
            ""
        ),
    };
    let rows = [
        Row {
            id: "BOARD",
            kind: Kind::Word,
            help: "A board text",
        },
        WORKERS,
        FOLD,
        GOAL,
        SETS,
        LOG,
        TABLES,
    ];
    command_of(alloc, page, &rows)
}

/// The command `optimal`: its help, and what it takes, for `clap`.
pub(crate) fn optimal_command<'a>(alloc: Global) -> Result<Command<'a>, AllocError>
    ensures { IfOk result (λ c. app_of c ≡ check_command LogClaim.Optimum) }
{
    let page = Page {
        name: "optimal",
        about: "Says whether a log proves that the moves of a puzzle text are a shortest solution",
        usage: "pdb_cli optimal [--workers N] [--fold] [--goal first|last] PUZZLE SETS LOG TABLES..",
        after_help: with_statuses!(
            "Reads all of these files. Answers the digests of the tables and the log, and `optimal N`,
or `refused ..` with what is wrong first.",
            ""
        ),
    };
    let rows = [
        Row {
            id: "PUZZLE",
            kind: Kind::Word,
            help: "A puzzle text",
        },
        WORKERS,
        FOLD,
        GOAL,
        SETS,
        LOG,
        TABLES,
    ];
    command_of(alloc, page, &rows)
}

/// The id of the text that a claim is about.
fn text_id(claim: LogClaim) -> &'static str
    ensures { result.now ≡ text_id claim }
{
    match claim {
        LogClaim::Bound => "BOARD",
        LogClaim::Optimum => "PUZZLE",
    }
}

/// The check of a log that these matches of a command ask for, with its claim.
pub(crate) fn check_in<'a>(
    alloc: Global,
    found: &ArgMatches<'a>,
    claim: LogClaim,
) -> Result<Request<'a>, AllocError>
    ensures asked { IfOk result (λ asked.
        request_shown asked ≡ check_in claim (rows_found found.now)) }
    ensures workers { IfOk result HasWorkers }
    ensures budget { IfOk result HasBudget }
{
    Ok(Request::LogCheck(LogCheck {
        claim,
        text: file_in(found, text_id(claim)),
        sets: file_in(found, "SETS"),
        log: file_in(found, "LOG"),
        tables: files_in(alloc, found, "TABLES")?,
        workers: workers_in(found),
        fold: fold_in(found),
        goal: goal_in(found),
    }))
}

//! The words of `table [--workers N] FILE`.

ghost use Rattle.std.specs.Prelude.{◌≡◌, IfOk};
ghost use Rattle.clap.specs.Words.{app_of};
ghost use Rattle.pdb_request.specs.Asked.{HasBudget, request_shown};
ghost use Rattle.pdb_words.specs.Arguments.{rows_found};
ghost use Rattle.pdb_words.specs.Table.{table_command, table_in};
ghost use Rattle.pdb_words.specs.Workers.{HasWorkers};

use crate::files::file_in;
use crate::rows::{Kind, Page, Row, command_of, with_statuses};
use crate::workers::{WORKERS, workers_in};
use clap::{ArgMatches, Command};
use pdb_request::{Request, TableCheck};
use std::alloc::{AllocError, Global};

/// The command: its help, and what it takes, for `clap`.
pub(crate) fn table_command<'a>(alloc: Global) -> Result<Command<'a>, AllocError>
    ensures { IfOk result (λ c. app_of c ≡ table_command) }
{
    let page = Page {
        name: "table",
        about: "Says whether a table file is exact",
        usage: "pdb_cli table [--workers N] FILE",
        after_help: with_statuses!(
            "Reads one table file. Answers its digest and `exact ..`, or `refused ..` with what is
wrong first.",
            ""
        ),
    };
    let rows = [
        WORKERS,
        Row {
            id: "FILE",
            kind: Kind::Word,
            help: "A table file",
        },
    ];
    command_of(alloc, page, &rows)
}

/// What these matches of the command ask for.
pub(crate) fn table_in<'a>(found: &ArgMatches<'a>) -> Request<'a>
    ensures asked { request_shown result ≡ table_in (rows_found found.now) }
    ensures workers { HasWorkers result }
    ensures budget { HasBudget result }
{
    Request::TableCheck(TableCheck {
        file: file_in(found, "FILE"),
        workers: workers_in(found),
    })
}

//! The words of `make-table [--workers N] [--replace] SIDE MASK OUT`.

ghost use Rattle.std.specs.Prelude.{◌≡◌, ◌∷◌, [], IfOk};
ghost use Rattle.std.specs.Option.{MatchOption};
ghost use Rattle.clap.specs.declared.error.kind.ErrorKind.TheVariants.{ValueValidation};
ghost use Rattle.clap.specs.Words.{app_of};
ghost use Rattle.pdb_request.specs.Asked.{HasBudget, request_shown};
ghost use Rattle.pdb_words.specs.Arguments.{rows_found};
ghost use Rattle.pdb_words.specs.MakeTable.{make_table_command, make_table_in, mask_faults, mask_in, mask_number_in, side_number_in};
ghost use Rattle.pdb_words.specs.Workers.{HasWorkers};

use crate::files::file_in;
use crate::masks::mask_written;
use crate::numbers::number_in;
use crate::replace::{REPLACE, replace_in};
use crate::rows::{Kind, Page, Row, command_of, with_statuses};
use crate::workers::{WORKERS, workers_in};
use clap::builder::ValueParser;
use clap::{ArgMatches, Command};
use pdb_request::{MakeTable, Request};
use std::alloc::{AllocError, Global};

/// The side of a pattern.
const SIDE: Row<'static> = Row {
    id: "SIDE",
    kind: Kind::Number(ValueParser::Signed(0, 255)),
    help: "The side of the puzzle, 2 to 5",
};

/// The tile mask of a pattern.
const MASK: Row<'static> = Row {
    id: "MASK",
    kind: Kind::Word,
    help: "The tiles of the pattern: tiles:1,2,3,4 or tiles:1-4, or the sum of 2^t over its tiles t, as 30 or 0x1e",
};

/// The command: its help, and what it takes, for `clap`.
pub(crate) fn make_table_command<'a>(alloc: Global) -> Result<Command<'a>, AllocError>
    ensures { IfOk result (λ c. app_of c ≡ make_table_command) }
{
    let page = Page {
        name: "make-table",
        about: "Makes the table of a pattern, and keeps it if it is exact",
        usage: "pdb_cli make-table [--workers N] [--replace] SIDE MASK OUT",
        after_help: with_statuses!(
            "Building uses all processors, whatever --workers says: workers share the check behind it.
OUT is replaced once the table is found exact; until then, and otherwise, it stays as it is.
An OUT that is no table of SIDE and MASK is replaced only with --replace.

Reads no file. Answers the digest of the table and `exact ..`, or `refused ..` and why.",
            ""
        ),
    };
    let rows = [
        WORKERS,
        REPLACE,
        SIDE,
        MASK,
        Row {
            id: "OUT",
            kind: Kind::Word,
            help: "The file that is to hold the table",
        },
    ];
    command_of(alloc, page, &rows)
}

/// The side that these matches of the command name.
fn side_number_in(found: &ArgMatches<'_>) -> u8
    ensures { result ≡ side_number_in (rows_found found.now) }
{
    number_in(found, "SIDE", 0, u64::from(u8::MAX), 0) as u8
}

/// The tile mask that these matches of the command name, if their word for it writes one.
fn mask_in(found: &ArgMatches<'_>) -> Option<u32>
    ensures { result ≡ mask_in (rows_found found.now) }
{
    mask_written(file_in(found, "MASK"))
}

/// The same, or 0.
fn mask_number_in(found: &ArgMatches<'_>) -> u32
    ensures { result ≡ mask_number_in (rows_found found.now) }
{
    mask_in(found).unwrap_or(0)
}

/// The word for the mask, where it writes none.
pub(crate) fn wrong_mask_in<'a>(found: &ArgMatches<'a>) -> Option<&'a str>
    ensures { MatchOption result (mask_faults (rows_found found.now) ≡ [])
        (λ _. mask_faults (rows_found found.now) ≡ ValueValidation ∷ []) }
{
    match mask_in(found) {
        Some(_) => None,
        None => Some(file_in(found, "MASK")),
    }
}

/// What these matches of the command ask for.
pub(crate) fn make_table_in<'a>(found: &ArgMatches<'a>) -> Request<'a>
    ensures asked { request_shown result ≡ make_table_in (rows_found found.now) }
    ensures workers { HasWorkers result }
    ensures budget { HasBudget result }
{
    Request::MakeTable(MakeTable {
        side: side_number_in(found),
        mask: mask_number_in(found),
        out: file_in(found, "OUT"),
        replace: replace_in(found),
        workers: workers_in(found),
    })
}

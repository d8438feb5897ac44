//! The words of `parts [--goal first|last] BOARD N K ANSWERS..`.

ghost use Rattle.std.specs.Prelude.{◌≡◌, ◌↔◌, [], IfOk, IsTrue};
ghost use Rattle.clap.specs.Words.{app_of};
ghost use Rattle.pdb_request.specs.Asked.{HasBudget, HasOddCount, request_shown};
ghost use Rattle.pdb_words.specs.Arguments.{rows_found};
ghost use Rattle.pdb_words.specs.Parts.{bound_in, count_faults, count_in, parts_command, parts_in};
ghost use Rattle.pdb_words.specs.Workers.{HasWorkers};

use crate::files::{file_in, files_in};
use crate::goal::{GOAL, goal_in};
use crate::numbers::number_in;
use crate::prove::file_or_input;
use crate::rows::{Kind, Page, Row, command_of, with_statuses};
use clap::builder::ValueParser;
use clap::{ArgMatches, Command};
use pdb_request::{JoinParts, Request};
use std::alloc::{AllocError, Global};

/// The bound.
const BOUND: Row<'static> = Row {
    id: "N",
    kind: Kind::Number(ValueParser::Signed(0, 255)),
    help: "How many moves each solution is to have at least, 0 to 255",
};

/// How many parts it has.
const COUNT: Row<'static> = Row {
    id: "K",
    kind: Kind::Number(ValueParser::Signed(1, 65535)),
    help: "How many parts the bound has, an odd number up to 65535",
};

/// The files of answer lines.
const ANSWERS: Row<'static> = Row {
    id: "ANSWERS",
    kind: Kind::Words,
    help: "The files of answer lines",
};

/// The command: its help, and what it takes, for `clap`.
pub(crate) fn parts_command<'a>(alloc: Global) -> Result<Command<'a>, AllocError>
    ensures { IfOk result (λ c. app_of c ≡ parts_command) }
{
    let page = Page {
        name: "parts",
        about: "Says a bound where lines say that all its parts hold, or which parts are open",
        usage: "pdb_cli parts [--goal first|last] BOARD N K ANSWERS..",
        after_help: with_statuses!(
            "ANSWERS are files of lines as `prove` writes them, at least one; - is a file of that name. Where
a line `part I/K of bound N of BOARD` stands in them for each I below K, it writes the digest of
each file, and says `joined bound N of BOARD from K parts, by lines that were read`. It believes
these lines: whoever trusts them trusts the bound. A line `refused O2 by MOVES of ..` on one of
the parts it doesn't believe, but replays: where MOVES solve BOARD in fewer than N moves, it says
`refused O2 by MOVES of BOARD : N`. Else it writes the claims `BOARD : N part I/K` that are
still open, with status 1: they are the next CLAIMS of `prove`. A last line without its end is
no line.",
            ""
        ),
    };
    let rows = [
        Row {
            id: "BOARD",
            kind: Kind::Word,
            help: "The file of the board, or - for standard input",
        },
        GOAL,
        BOUND,
        COUNT,
        ANSWERS,
    ];
    command_of(alloc, page, &rows)
}

/// The bound that these matches of the command name.
fn bound_in(found: &ArgMatches<'_>) -> u8
    ensures { result ≡ bound_in (rows_found found.now) }
{
    number_in(found, "N", 0, u64::from(u8::MAX), 0) as u8
}

/// How many parts these matches of the command name.
pub(crate) fn count_in(found: &ArgMatches<'_>) -> u16
    ensures { result ≡ count_in (rows_found found.now) }
{
    number_in(found, "K", 1, u64::from(u16::MAX), 1) as u16
}

/// Whether their count is odd.
pub(crate) fn has_odd_count(found: &ArgMatches<'_>) -> bool
    ensures { IsTrue result ↔ (count_faults (rows_found found.now) ≡ []) }
{
    count_in(found) % 2 == 1
}

/// What these matches of the command ask for.
pub(crate) fn parts_in<'a>(alloc: Global, found: &ArgMatches<'a>) -> Result<Request<'a>, AllocError>
    requires { count_faults (rows_found found.now) ≡ [] }
    ensures asked { IfOk result (λ asked. request_shown asked ≡ parts_in (rows_found found.now)) }
    ensures workers { IfOk result HasWorkers }
    ensures budget { IfOk result HasBudget }
    ensures count { IfOk result HasOddCount }
{
    Ok(Request::JoinParts(JoinParts {
        board: file_or_input(file_in(found, "BOARD")),
        bound: bound_in(found),
        count: count_in(found),
        answers: files_in(alloc, found, "ANSWERS")?,
        goal: goal_in(found),
    }))
}

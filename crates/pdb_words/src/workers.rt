//! The flag `--workers N`.

ghost use Rattle.std.specs.Prelude.{◌≡◌};
ghost use Rattle.book_core.specs.Books.{AreWorkers};
ghost use Rattle.pdb_words.specs.Arguments.{rows_found};
ghost use Rattle.pdb_words.specs.Workers.{workers_in};

use crate::numbers::number_in;
use crate::rows::{Kind, Row};
use book_core::MOST_WORKERS;
use clap::ArgMatches;
use clap::builder::ValueParser;

/// The flag.
pub(crate) const WORKERS: Row<'static> = Row {
    id: "workers",
    kind: Kind::UsualNumberFlag(ValueParser::Signed(1, MOST_WORKERS as i64), "1"),
    help: "How many workers share the check, 1 to 64",
};

/// How many workers these matches of a command ask for.
pub(crate) fn workers_in(found: &ArgMatches<'_>) -> u8
    ensures asked { result ≡ workers_in (rows_found found.now) }
    ensures within { AreWorkers result }
{
    number_in(found, "workers", 1, u64::from(MOST_WORKERS), 1) as u8
}

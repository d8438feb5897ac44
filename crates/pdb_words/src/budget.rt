//! The flag `--budget N`.

ghost use Rattle.std.specs.Prelude.{◌≡◌, IfSome};
ghost use Rattle.pdb_request.specs.Asked.{IsBudget};
ghost use Rattle.pdb_words.specs.Arguments.{rows_found};
ghost use Rattle.pdb_words.specs.Budget.{budget_in, optional_budget_in};

use crate::numbers::{number_in, optional_number_in};
use crate::rows::{Kind, Row};
use clap::ArgMatches;
use clap::builder::ValueParser;

/// A search may be let expand so many boards at most.
const MOST_BUDGET: u64 = 1_000_000_000_000;

/// So many boards may be expanded where the words don't say how many.
const USUAL_BUDGET: u64 = 1_000_000;

/// The flag with a usual budget.
pub(crate) const USUAL: Row<'static> = Row {
    id: "budget",
    kind: Kind::UsualNumberFlag(ValueParser::Unsigned(1, MOST_BUDGET), "1000000"),
    help: "How many boards the search may expand, 1 to 1000000000000",
};

/// The flag without a usual budget.
pub(crate) const OPTIONAL: Row<'static> = Row {
    id: "budget",
    kind: Kind::NumberFlag(ValueParser::Unsigned(1, MOST_BUDGET)),
    help: "How many boards may be expanded for a claim, 1 to 1000000000000; without it as many as it takes",
};

/// How many boards these matches of a command let a search expand: the usual budget where they don't say it.
pub(crate) fn budget_in(found: &ArgMatches<'_>) -> u64
    ensures asked { result ≡ budget_in (rows_found found.now) }
    ensures within { IsBudget result }
{
    number_in(found, "budget", 1, MOST_BUDGET, USUAL_BUDGET)
}

/// How many boards these matches of a command let be expanded for a claim, or none for as many as it takes.
pub(crate) fn optional_budget_in(found: &ArgMatches<'_>) -> Option<u64>
    ensures asked { result ≡ optional_budget_in (rows_found found.now) }
    ensures within { IfSome result IsBudget }
{
    optional_number_in(found, "budget", 1, MOST_BUDGET)
}

//! The flag `--replace`.

ghost use Rattle.std.specs.Prelude.{◌≡◌};
ghost use Rattle.pdb_words.specs.Arguments.{rows_found};
ghost use Rattle.pdb_words.specs.Replace.{replace_in};

use crate::rows::{Kind, Row};
use clap::ArgMatches;

/// The flag.
pub(crate) const REPLACE: Row<'static> = Row {
    id: "replace",
    kind: Kind::Flag,
    help: "Let OUT be an input of the run, or any other file that its owner may write",
};

/// Whether these matches of a command ask that what is made may replace any file.
#[tactic(auto, using(crate::proofs::ArgumentLemmas::found_rows))]
pub(crate) fn replace_in(found: &ArgMatches<'_>) -> bool
    ensures { result ≡ replace_in (rows_found found.now) }
{
    // `clap` gives a flag that stands in the words this text.
    found.get_str("replace") == Some("true")
}

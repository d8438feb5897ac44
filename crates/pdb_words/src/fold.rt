//! The flag `--fold`.

ghost use Rattle.std.specs.Prelude.{◌≡◌};
ghost use Rattle.pdb_words.specs.Arguments.{rows_found};
ghost use Rattle.pdb_words.specs.Fold.{fold_in};

use crate::rows::{Kind, Row};
use clap::ArgMatches;

/// The flag.
pub(crate) const FOLD: Row<'static> = Row {
    id: "fold",
    kind: Kind::Flag,
    help: "Fold each table once it is checked: one byte a placement",
};

/// Whether these matches of a command ask that tables are folded.
#[tactic(auto, using(crate::proofs::ArgumentLemmas::found_rows))]
pub(crate) fn fold_in(found: &ArgMatches<'_>) -> bool
    ensures { result ≡ fold_in (rows_found found.now) }
{
    // `clap` gives a flag that stands in the words this text.
    found.get_str("fold") == Some("true")
}

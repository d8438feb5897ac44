//! The files that a command names.

ghost use Rattle.std.specs.Prelude.{◌≡◌, IfOk};
ghost use Rattle.pdb_request.specs.Asked.{file_names};
ghost use Rattle.pdb_words.specs.Arguments.{rows_found};
ghost use Rattle.pdb_words.specs.Files.{file_in, files_in};

use crate::rows::{Kind, Row};
use clap::ArgMatches;
use std::alloc::{AllocError, Global};

/// The file of the sets.
pub(crate) const SETS: Row<'static> = Row {
    id: "SETS",
    kind: Kind::Word,
    help: "The sets of tables",
};

/// The files of the tables.
pub(crate) const TABLES: Row<'static> = Row {
    id: "TABLES",
    kind: Kind::Words,
    help: "The table files, in the order of their numbers",
};

/// The name that these matches of a command have for a file.
#[tactic(auto, using(crate::proofs::ArgumentLemmas::found_rows))]
pub(crate) fn file_in<'a>(found: &ArgMatches<'a>, id: &str) -> &'a str
    ensures { result.now ≡ file_in id.now (rows_found found.now) }
{
    found.get_str(id).unwrap_or("")
}

/// The names that these matches of a command have for files.
#[tactic(auto, using(crate::proofs::ArgumentLemmas::found_rows))]
pub(crate) fn files_in<'a>(
    alloc: Global,
    found: &ArgMatches<'a>,
    id: &str,
) -> Result<Vec<&'a str>, AllocError>
    ensures { IfOk result (λ names. file_names names.items ≡ files_in id.now (rows_found found.now)) }
{
    found.get_strs(id).unwrap_or(&[]).to_vec(alloc)
}

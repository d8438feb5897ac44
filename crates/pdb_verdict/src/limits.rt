//! The kinds of input, and the most bytes of each.

ghost use Rattle.std.specs.Prelude.{◌≡◌, ◌++◌, IfOk, Some, map, option_map};
ghost use Rattle.pdb_request.specs.Asked.{file_names};
ghost use Rattle.pdb_run.specs.Inputs.{wanted_of};
ghost use Rattle.pdb_verdict.specs.Limits.{a_log, a_table, a_text};

use pdb_run::Input;
use std::alloc::{AllocError, Global};

/// The most bytes of a board text, a puzzle text or a set text.
const TEXT_LIMIT: u64 = 65_536;

/// A text under this name, or of the reader.
pub fn a_text<'a>(name: Option<&'a str>) -> Input<'a>
    ensures { wanted_of result ≡ a_text (option_map (λ s. s.now) name.entry) }
{
    Input {
        name,
        limit: TEXT_LIMIT,
    }
}

/// A log file under this name.
pub fn a_log<'a>(name: &'a str) -> Input<'a>
    ensures { wanted_of result ≡ a_log name.now }
{
    Input {
        name: Some(name),
        limit: log_file::MOST_BYTES as u64,
    }
}

/// A table file under this name.
pub fn a_table<'a>(name: &'a str) -> Input<'a>
    ensures { wanted_of result ≡ a_table name.now }
{
    Input {
        name: Some(name),
        limit: tab_file::MOST_BYTES,
    }
}

/// These inputs, and behind them the table files under these names.
pub fn with_tables<'n>(
    alloc: Global,
    first: &[Input<'n>],
    names: &[&'n str],
) -> Result<Vec<Input<'n>>, AllocError>
    ensures { let tables = map a_table (file_names names.now) in
        IfOk result (λ all. map wanted_of all.items ≡ map wanted_of first.now ++ tables) }
{
    let mut all = first.to_vec(alloc)?;
    for name in names {
        all.push(a_table(name))?;
    }
    Ok(all)
}

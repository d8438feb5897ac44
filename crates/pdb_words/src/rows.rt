//! Rows: what commands take, a word or a flag each, of which `clap` makes their command lines and their helps.

ghost use Rattle.std.specs.Prelude.{◌≡◌, IfOk, false};
ghost use Rattle.clap.specs.Words.{app_of, rule_of};
ghost use Rattle.pdb_words.specs.StoredRows.{command_of, rule_of_row};

use clap::builder::ValueParser;
use clap::{Arg, ArgAction, Command};
use std::alloc::{AllocError, Global};

/// What the words have for a row.
#[derive(Clone, Copy)]
pub(crate) enum Kind<'a> {
    /// One word, or none.
    OptionalWord,
    /// One word.
    Word,
    /// One word or more.
    Words,
    /// A number that this parser takes.
    Number(ValueParser<'a>),
    /// The flag `--ID`, or nothing.
    Flag,
    /// The flag `--ID N` with a number that this parser takes, or nothing.
    NumberFlag(ValueParser<'a>),
    /// The same, where nothing stands for this number.
    UsualNumberFlag(ValueParser<'a>, &'a str),
    /// The flag `--ID VALUE` with a word, or nothing for this word. The help has this for the value.
    WordFlag(&'a str, &'a str),
}

/// A word or a flag of a command.
#[derive(Clone, Copy)]
pub(crate) struct Row<'a> {
    /// The name by which the help and the matches know it.
    pub(crate) id: &'a str,
    pub(crate) kind: Kind<'a>,
    /// What the help says of it.
    pub(crate) help: &'a str,
}

/// A command's name and help.
#[derive(Clone, Copy)]
pub(crate) struct Page<'a> {
    pub(crate) name: &'a str,
    /// What it does, in a line.
    pub(crate) about: &'a str,
    /// How it is used.
    pub(crate) usage: &'a str,
    /// What stands at the end of its help.
    pub(crate) after_help: &'a str,
}

/// What stands at the end of a help: these texts, with what the statuses mean between them.
macro_rules! with_statuses {
    ($before:literal, $behind:literal) => {
        concat!(
            $before,
            "\n\nStatus: 0 yes, 1 refused, 2 bad words or a fault of a read, a write or a maker, 3 no memory.",
            $behind
        )
    };
}

pub(crate) use with_statuses;

/// The row, for `clap`.
fn arg_of<'a>(alloc: Global, row: &Row<'a>) -> Arg<'a>
    ensures rule { rule_of result ≡ rule_of_row row.now }
    ensures local { result.global ≡ false }
{
    let arg = Arg::new(alloc, row.id).help(row.help);
    match row.kind {
        Kind::OptionalWord => arg,
        Kind::Word => arg.required(true),
        Kind::Words => arg.required(true).num_args(1..),
        Kind::Number(parser) => arg.required(true).value_parser(parser),
        Kind::Flag => arg.long(row.id).action(ArgAction::SetTrue),
        Kind::NumberFlag(parser) => arg.long(row.id).value_name("N").value_parser(parser),
        Kind::UsualNumberFlag(parser, usual) => arg
            .long(row.id)
            .value_name("N")
            .value_parser(parser)
            .default_value(usual),
        Kind::WordFlag(usual, value) => arg.long(row.id).value_name(value).default_value(usual),
    }
}

/// The command that takes these words in their order, and these flags, for `clap`.
pub(crate) fn command_of<'a>(
    alloc: Global,
    page: Page<'a>,
    rows: &[Row<'a>],
) -> Result<Command<'a>, AllocError>
    ensures { IfOk result (λ c. app_of c ≡ command_of page.entry.name.now rows.now) }
{
    let mut command = Command::new(alloc, page.name)
        .about(page.about)
        .override_usage(page.usage)
        .after_help(page.after_help);
    for row in rows {
        command = command.arg(arg_of(alloc, row))?;
    }
    Ok(command)
}

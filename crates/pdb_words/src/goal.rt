//! The flag `--goal first|last`.

ghost use Rattle.std.specs.Prelude.{◌≡◌, ◌∷◌, []};
ghost use Rattle.std.specs.Option.{MatchOption};
ghost use Rattle.clap.specs.declared.error.kind.ErrorKind.TheVariants.{ValueValidation};
ghost use Rattle.pdb_words.specs.Arguments.{rows_found};
ghost use Rattle.pdb_words.specs.Goal.{goal_faults, goal_in, goal_written};

use crate::rows::{Kind, Row};
use clap::ArgMatches;
use puz_goal::Goal;

/// The flag.
pub(crate) const GOAL: Row<'static> = Row {
    id: "goal",
    kind: Kind::WordFlag("first", "first|last"),
    help: "Where the blank is at home, with the tiles in order",
};

/// The goal that a word writes.
fn goal_written(word: &str) -> Option<Goal>
    ensures { result ≡ goal_written word.now }
{
    if word == "first" {
        Some(Goal::First)
    } else if word == "last" {
        Some(Goal::Last)
    } else {
        None
    }
}

/// The goal that these matches of a command ask for.
#[tactic(auto, using(crate::proofs::ArgumentLemmas::found_rows))]
pub(crate) fn goal_in(found: &ArgMatches<'_>) -> Goal
    ensures { result ≡ goal_in (rows_found found.now) }
{
    match found.get_str("goal") {
        Some(word) => goal_written(word).unwrap_or(Goal::First),
        None => Goal::First,
    }
}

/// The word for the goal, where it writes none.
#[tactic(auto, using(crate::proofs::ArgumentLemmas::found_rows))]
pub(crate) fn wrong_goal_in<'a>(found: &ArgMatches<'a>) -> Option<&'a str>
    ensures { MatchOption result (goal_faults (rows_found found.now) ≡ [])
        (λ _. goal_faults (rows_found found.now) ≡ ValueValidation ∷ []) }
{
    match found.get_str("goal") {
        Some(word) if goal_written(word).is_none() => Some(word),
        _ => None,
    }
}

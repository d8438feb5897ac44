//! The words of `replay [--goal first|last] [FILE]`.

ghost use Rattle.std.specs.Prelude.{◌≡◌, IfOk};
ghost use Rattle.clap.specs.Words.{app_of};
ghost use Rattle.pdb_request.specs.Asked.{HasBudget, request_shown};
ghost use Rattle.pdb_words.specs.Arguments.{rows_found};
ghost use Rattle.pdb_words.specs.Replay.{replay_command, replay_in};
ghost use Rattle.pdb_words.specs.Workers.{HasWorkers};

use crate::goal::{GOAL, goal_in};
use crate::rows::{Kind, Page, Row, command_of, with_statuses};
use clap::{ArgMatches, Command};
use pdb_request::{Replay, Request};
use std::alloc::{AllocError, Global};

/// The command: its help, and what it takes, for `clap`.
pub(crate) fn replay_command<'a>(alloc: Global) -> Result<Command<'a>, AllocError>
    ensures { IfOk result (λ c. app_of c ≡ replay_command) }
{
    let page = Page {
        name: "replay",
        about: "Plays the moves of a puzzle text, and says whether they solve its board",
        usage: "pdb_cli replay [--goal first|last] [FILE]",
        after_help: with_statuses!(
            "Reads a puzzle text: a board, `;`, and letters U, D, L, R that say where the blank goes.
Answers `solution N`, or `refused ..` with what is wrong first.",
            ""
        ),
    };
    let rows = [
        GOAL,
        Row {
            id: "FILE",
            kind: Kind::OptionalWord,
            help: "A puzzle text; without it, standard input",
        },
    ];
    command_of(alloc, page, &rows)
}

/// What these matches of the command ask for.
#[tactic(auto, using(crate::proofs::ArgumentLemmas::found_rows))]
pub(crate) fn replay_in<'a>(found: &ArgMatches<'a>) -> Request<'a>
    ensures asked { request_shown result ≡ replay_in (rows_found found.now) }
    ensures workers { HasWorkers result }
    ensures budget { HasBudget result }
{
    Request::Replay(Replay {
        puzzle: found.get_str("FILE"),
        goal: goal_in(found),
    })
}

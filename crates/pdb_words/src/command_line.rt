//! The commands of the program, and the reading of words.

ghost use Rattle.std.specs.Prelude.{◌≡◌, ◌∷◌, [], IfErr, IfOk, IfSome, map, string_bytes, true};
ghost use Rattle.std.specs.Option.{MatchOption};
ghost use Rattle.clap.specs.Words.{App, FailsBy, app_of, subcommand_of, subcommand_rows_of, with_subcommand};
ghost use Rattle.clap.specs.declared.error.kind.ErrorKind.TheVariants.{ValueValidation};
ghost use Rattle.pdb_request.specs.Asked.{HasBudget, HasOddCount, request_shown};
ghost use Rattle.pdb_words.specs.Arguments.{rows_found};
ghost use Rattle.pdb_words.specs.CommandLine.{Parses, asked_in, asked_of, checks, command_line, own_faults, parse_faults, program, value_faults_in};
ghost use Rattle.pdb_words.specs.Commands.{IsCommand};
ghost use Rattle.pdb_words.specs.Faults.{IsCauseOfWordFault, IsMistakeOrMemory, IsPlainlySaid};
ghost use Rattle.pdb_words.specs.Workers.{HasWorkers};

use crate::faults::{
    WordFault, even_count_text, fault_by, mistake, wrong_goal_text, wrong_mask_text,
};
use crate::goal::wrong_goal_in;
use crate::log_checks::{bound_command, check_in, optimal_command};
use crate::make_table::{make_table_command, make_table_in, wrong_mask_in};
use crate::parts::{count_in, has_odd_count, parts_command, parts_in};
use crate::prove::{prove_command, prove_in};
use crate::replay::{replay_command, replay_in};
use crate::rows::with_statuses;
use crate::solve::{solve_command, solve_in};
use crate::table::{table_command, table_in};
use clap::{ArgMatches, Command};
use pdb_request::{LogClaim, Replay, Request};
use puz_goal::Goal;
use std::alloc::{AllocError, Global};

/// What stands at the end of the help.
const AFTER_HELP: &str = with_statuses!(
    "Without a command it does `replay` on standard input.",
    "\nThe formats of texts, files and output lines are in docs/FORMATS.md."
);

/// Reads the words, which leave out the program's own name.
#[inline(never)] // so that a run's stack hasn't the values of this
pub fn read_words<'a>(alloc: Global, words: &'a [String]) -> Result<Request<'a>, WordFault>
    ensures parses { IfOk result (λ _. Parses (map string_bytes words.now)) }
    ensures asked { IfOk result (λ asked.
        request_shown asked ≡ asked_of (map string_bytes words.now)) }
    ensures workers { IfOk result HasWorkers }
    ensures budget { IfOk result HasBudget }
    ensures count { IfOk result HasOddCount }
    ensures cause { IfErr result (λ fault. IsCauseOfWordFault (map string_bytes words.now) fault) }
    ensures plain { IfErr result IsPlainlySaid }
{
    match matches_of(alloc, words) {
        Ok(matches) => match wrong_value(alloc, &matches) {
            None => request_in(alloc, &matches).map_err(|_| WordFault::Memory),
            Some(fault) => Err(fault),
        },
        Err(error) => Err(fault_by(alloc, error)),
    }
}

/// The command line, for `clap`.
fn command_line<'a>(alloc: Global) -> Result<Command<'a>, AllocError>
    ensures { IfOk result (λ c. app_of c ≡ command_line) }
{
    let program = with_command(checks(alloc), make_table_command(alloc));
    let program = with_command(program, solve_command(alloc));
    let program = with_command(program, prove_command(alloc));
    with_command(program, parts_command(alloc))
}

/// The program with the commands that only check.
fn checks<'a>(alloc: Global) -> Result<Command<'a>, AllocError>
    ensures { IfOk result (λ c. app_of c ≡ checks) }
{
    let program = with_command(program(alloc), replay_command(alloc));
    let program = with_command(program, table_command(alloc));
    let program = with_command(program, bound_command(alloc));
    with_command(program, optimal_command(alloc))
}

/// The program without its commands.
fn program<'a>(alloc: Global) -> Result<Command<'a>, AllocError>
    ensures { IfOk result (λ c. app_of c ≡ program) }
{
    let program = Command::new(alloc, "pdb_cli").bin_name("pdb_cli")?;
    Ok(
        program
            .about("Checks claims about sliding-tile puzzles, and makes tables and logs")
            .after_help(AFTER_HELP)
            .version("0.2.0")
            .no_binary_name(true),
    )
}

/// The program with one more command, where memory was there for both.
#[tactic(auto, using(clap::proofs::SimpleLemmas::plain_fields))]
fn with_command<'a>(
    program: Result<Command<'a>, AllocError>,
    command: Result<Command<'a>, AllocError>,
) -> Result<Command<'a>, AllocError>
    ensures { (above app : App) → app.top.is_plain ≡ true
        → IfOk program.entry (λ c. app_of c ≡ above) → IfOk command.entry (λ c. app_of c ≡ app)
        → IfOk result (λ c. app_of c ≡ with_subcommand above app.top) }
{
    let program = program?;
    let command = command?;
    program.subcommand(command)
}

/// What `clap` finds in the words.
fn matches_of<'a>(alloc: Global, words: &'a [String]) -> Result<ArgMatches<'a>, clap::Error>
    ensures rows { let texts = map string_bytes words.now in
        IfOk result (λ m. subcommand_rows_of m ≡ subcommand_of command_line texts) }
    ensures kinds { FailsBy (parse_faults (map string_bytes words.now)) result }
    ensures command { IfOk result (λ m.
        IfSome (subcommand_rows_of m) (λ found. IsCommand found.0)) }
{
    command_line(alloc)?.try_get_matches_from(words)
}

/// The fault of a value in these matches of words, where one is wrong: a goal, a mask, or an even count of parts.
fn wrong_value(alloc: Global, matches: &ArgMatches<'_>) -> Option<WordFault>
    ensures faults { let faults = value_faults_in (subcommand_rows_of matches.now) in
        MatchOption result (faults ≡ []) (λ _. faults ≡ ValueValidation ∷ []) }
    ensures kind { IfSome result IsMistakeOrMemory }
    ensures plain { IfSome result IsPlainlySaid }
{
    let (name, found) = matches.subcommand()?;
    match wrong_goal_in(found) {
        Some(word) => Some(mistake(alloc, wrong_goal_text(alloc, word))),
        None => wrong_own_value(alloc, name, found),
    }
}

/// The same of a value that only the command of this name has.
fn wrong_own_value(alloc: Global, name: &str, found: &ArgMatches<'_>) -> Option<WordFault>
    ensures faults { let faults = own_faults name.now (rows_found found.now) in
        MatchOption result (faults ≡ []) (λ _. faults ≡ ValueValidation ∷ []) }
    ensures kind { IfSome result IsMistakeOrMemory }
    ensures plain { IfSome result IsPlainlySaid }
{
    match name {
        "make-table" => match wrong_mask_in(found) {
            None => None,
            Some(word) => Some(mistake(alloc, wrong_mask_text(alloc, word))),
        },
        "parts" => if has_odd_count(found) {
            None
        } else {
            Some(mistake(alloc, even_count_text(alloc, count_in(found))))
        },
        _ => None,
    }
}

/// What the words ask for, in which these matches were found.
fn request_in<'a>(alloc: Global, matches: &ArgMatches<'a>) -> Result<Request<'a>, AllocError>
    requires command { IfSome (subcommand_rows_of matches.now) (λ found. IsCommand found.0) }
    requires values { value_faults_in (subcommand_rows_of matches.now) ≡ [] }
    ensures asked { IfOk result (λ asked.
        request_shown asked ≡ asked_in (subcommand_rows_of matches.now)) }
    ensures workers { IfOk result HasWorkers }
    ensures budget { IfOk result HasBudget }
    ensures count { IfOk result HasOddCount }
{
    match matches.subcommand() {
        None => Ok(Request::Replay(Replay {
            puzzle: None,
            goal: Goal::First,
        })),
        Some(("replay", found)) => Ok(replay_in(found)),
        Some(("table", found)) => Ok(table_in(found)),
        Some(("bound", found)) => check_in(alloc, found, LogClaim::Bound),
        Some(("optimal", found)) => check_in(alloc, found, LogClaim::Optimum),
        Some(("make-table", found)) => Ok(make_table_in(found)),
        Some(("solve", found)) => solve_in(alloc, found),
        Some(("prove", found)) => prove_in(alloc, found),
        Some(("parts", found)) => parts_in(alloc, found),
        Some(_) => unreachable!(),
    }
}

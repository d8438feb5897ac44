//! Whether a log proves what is claimed of it: that no solution of a board has fewer moves than its bound, or that the moves of a
//! puzzle text are a solution, and none has fewer.

ghost use Rattle.std.specs.Prelude.{◌≡◌, Bool, List, ℕ};
ghost use Rattle.pdb_verdict.specs.BegunClaims.{begun};
ghost use Rattle.pdb_verdict.specs.FileBundles.{IsReadBundle};
ghost use Rattle.pdb_verdict.specs.Optimal.{IsOptimumOver};
ghost use Rattle.pdb_verdict.specs.Steps.{IsAnswerOver, IsFoundFor, answer_with, optimum_of};

use crate::replay::solved_board;
use crate::verdicts::{Fault, Verdict};
use log_check::check_log_by;
use pdb_request::LogClaim;
use puz_board::Board;
use puz_goal::{Goal, replay_for};
use set_sum::Bundle;
use std::sync::Wait;
use std::thread::Threads;
use work_run::{Gate, Workers};

/// What a claim on a log begins with.
#[derive(Clone, Copy, Debug, PartialEq, Eq)]
pub struct BegunClaim {
    /// The board of its text, turned for its goal.
    pub board: Board,
    /// Of a puzzle text how many moves solve the board, and of a board text none.
    pub moves: Option<u16>,
}

/// What a claim on a log begins with, by its text: a board text for a bound, a puzzle text for an optimum. Or why the text is
/// refused, which is told before anything else is looked at. It takes no memory and waits for nobody.
pub fn begin_claim(goal: Goal, claim: LogClaim, text: &[u8]) -> Result<BegunClaim, Fault>
    ensures { result ≡ begun goal claim text.now }
{
    match claim {
        LogClaim::Bound => {
            let board = goal.board_for(&Board::read(text)?);
            Ok(BegunClaim { board, moves: None })
        }
        LogClaim::Optimum => {
            let (board, moves) = solved_board(goal, text)?;
            let moves = Some(moves);
            Ok(BegunClaim { board, moves })
        }
    }
}

/// The answer to a claim that has begun so, over a bundle. Or the first refusal that stands: why there is no bundle, the log's, and
/// then `O1`. Want of memory may be answered in place of all behind the first table's header.
#[tactic(auto, using(crate::proofs::ClaimLemmas::claim_answered))]
pub fn answer_over<H: Threads + Wait, G: Gate + Sync>(
    bundle: Result<Bundle<'_>, Fault>,
    start: &BegunClaim,
    log: &[u8],
    workers: &Workers<'_, H, G>,
) -> Result<Verdict, Fault>
    ensures { IsAnswerOver bundle.entry start.now log.now result }
{
    answer_with(start.moves, bound_for(bundle, &start.board, log, workers))
}

/// The bound that a log proves for a board, over a bundle, where there is one.
#[tactic(auto, using(crate::proofs::BoundLemmas::cause_found, crate::proofs::BoundLemmas::bound_found, crate::proofs::BoundLemmas::log_found))]
fn bound_for<H: Threads + Wait, G: Gate + Sync>(
    bundle: Result<Bundle<'_>, Fault>,
    board: &Board,
    log: &[u8],
    workers: &Workers<'_, H, G>,
) -> Result<u8, Fault>
    ensures { (fold : Bool) (sets : List ℕ) (tables : List (List ℕ))
        → IsReadBundle fold tables sets bundle.entry
        → IsFoundFor fold board.now sets log.now tables result }
{
    let bundle = bundle?;
    let bound = check_log_by(&bundle, log, board, workers)?;
    Ok(bound)
}

/// Moves that are said to solve a board for a goal: the board and a moves text, as a puzzle text has them.
#[derive(Clone, Copy)]
pub struct SaidMoves<'a> {
    pub goal: Goal,
    pub board: &'a Board,
    pub moves: &'a [u8],
}

/// The optimum that is proved for a board and moves, over the bundle that files make: as of the puzzle text of a text that spells the
/// board, and of the moves.
pub fn optimum_over<H: Threads + Wait, G: Gate + Sync>(
    bundle: &Bundle<'_>,
    said: SaidMoves<'_>,
    log: &[u8],
    workers: &Workers<'_, H, G>,
) -> Result<u8, Fault>
    ensures { IsOptimumOver said.entry.goal bundle.now said.entry.board.now said.entry.moves.now
        log.now result }
{
    let solution = replay_for(said.goal, said.board, said.moves)?;
    let board = said.goal.board_for(said.board);
    optimum_of(solution, check_log_by(bundle, log, &board, workers)?)
}

/// The bound of a board that so many moves solve, as an optimum.
fn optimum_of(solution: u16, bound: u8) -> Result<u8, Fault>
    ensures { result ≡ optimum_of solution bound }
{
    if solution == u16::from(bound) {
        Ok(bound)
    } else {
        Err(Fault::O1 { solution, bound })
    }
}

/// The answer where this is found for the board of a text, which so many moves solve, where that is claimed.
fn answer_with(moves: Option<u16>, found: Result<u8, Fault>) -> Result<Verdict, Fault>
    ensures { result ≡ answer_with moves found }
{
    let bound = found?;
    match moves {
        None => Ok(Verdict::Bound(bound)),
        Some(moves) => Ok(Verdict::Optimal(optimum_of(moves, bound)?)),
    }
}

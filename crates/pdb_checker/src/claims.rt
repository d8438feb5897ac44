//! Claims on boards, and their answers.

ghost use Rattle.std.specs.Prelude.{◌≡◌, ◌≢◌, ◌<◌, ◌≤◌, ℕ, IfErr, List, OnOk, length};
ghost use Rattle.std.specs.List.{All};
ghost use Rattle.puz_board.specs.Boards.{side_of};
ghost use Rattle.puz_board.specs.MovesTexts.{Solves};
ghost use Rattle.set_sum.specs.Bounds.{IsBounded};
ghost use Rattle.puz_search.specs.Answers.{IsShorter};
ghost use Rattle.pdb_checker.specs.Answers.{moves_in};
ghost use Rattle.pdb_checker.specs.Claims.{AreAnswered, IsAnswered, IsExact, IsShorterThan};
ghost use Rattle.pdb_checker.specs.Searches.{IsFoundFor};
ghost use Rattle.pdb_checker.specs.declared.searches.Question.TheVariants.{Below, Shortest};

use crate::answers::{Answer, MISUSED, YES};
use crate::bundles::{Over, bundle_of};
use crate::helps::Help;
use crate::searches::{Found, Question};
use pdb_verdict::{Fault, Verdict};
use puz_board::{Board, is_solvable, replay};
use puz_walk::Start;
use set_sum::Bundle;
use std::alloc::Global;

/// A claim says that no solution has fewer moves than its bound.
pub(crate) const BOUND: u8 = 0;
/// That its moves are a shortest solution.
pub(crate) const MOVES: u8 = 1;
/// It asks for a shortest solution.
pub(crate) const SHORTEST: u8 = 2;

/// A claim on the solutions of a board.
#[repr(C)]
#[derive(Clone, Copy)]
pub struct Claim<'a> {
    /// The text of the board.
    pub board: &'a [u8],
    /// The text of the moves, where it says that they are a shortest solution.
    pub moves: &'a [u8],
    /// The bound, where it says that no solution has fewer moves.
    pub bound: u8,
    /// What it asks: 0 for a bound, 1 for moves, 2 for a shortest solution.
    pub asks: u8,
}

/// The answer to one claim over tables and sets, or why these are refused.
pub(crate) fn answer_one(alloc: Global, claim: &Claim<'_>, over: &Over<'_>) -> Answer
    requires { All (λ table. IsExact table.file.now) over.now.tables.now }
    ensures { IsAnswered claim.now result }
{
    match bundle_of(alloc, over) {
        Ok(bundle) => answer_over(alloc, &bundle, over.budget, claim),
        Err(fault) => Answer::refused(fault),
    }
}

/// The answer to one claim over a bundle.
fn answer_over(alloc: Global, bundle: &Bundle<'_>, budget: u64, claim: &Claim<'_>) -> Answer
    ensures { IsAnswered claim.now result }
{
    match Help::new(alloc, bundle, budget) {
        Ok(mut help) => answer_claim(&mut help, claim),
        Err(_) => Answer::refused(Fault::Memory),
    }
}

/// The answers to claims over tables and sets, with the status 0; or why these are refused, in each answer, with its status.
pub(crate) fn answer_all(
    alloc: Global,
    over: &Over<'_>,
    claims: &[Claim<'_>],
    answers: &mut [Answer],
) -> u8
    requires known { All (λ table. IsExact table.file.now) over.now.tables.now }
    requires size { length claims.now ≡ length answers.old }
    ensures { result ≡ 0 → AreAnswered claims.now answers.new }
{
    match bundle_of(alloc, over) {
        Ok(bundle) => answer_each(alloc, &bundle, over.budget, claims, answers),
        Err(fault) => refuse_all(fault, answers),
    }
}

/// The answer to each claim over a bundle, in its place.
fn answer_each(
    alloc: Global,
    bundle: &Bundle<'_>,
    budget: u64,
    claims: &[Claim<'_>],
    answers: &mut [Answer],
) -> u8
    requires { length claims.now ≡ length answers.old }
    ensures { result ≡ 0 → AreAnswered claims.now answers.new }
{
    let mut help = match Help::new(alloc, bundle, budget) {
        Ok(help) => help,
        Err(_) => return refuse_all(Fault::Memory, answers),
    };
    for number in 0..claims.len() {
        answers[number] = answer_claim(&mut help, &claims[number]);
    }
    YES
}

/// The same refusal as each answer.
fn refuse_all(fault: Fault, answers: &mut [Answer]) -> u8
    ensures { 2 ≤ result }
{
    let refused = Answer::refused(fault);
    for number in 0..answers.len() {
        answers[number] = refused;
    }
    refused.status
}

/// The answer to a claim.
fn answer_claim(help: &mut Help<'_>, claim: &Claim<'_>) -> Answer
    ensures { IsAnswered claim.now result }
{
    let board = match Board::read(claim.board) {
        Ok(board) => board,
        Err(refused) => return Answer::refused(Fault::Board(refused)),
    };
    if board.side() != help.bundle.side() {
        return Answer::refused(Fault::Q2(0));
    }
    match claim.asks {
        BOUND => answer_bound(help, &board, claim.bound),
        MOVES => answer_moves(help, &board, claim.moves),
        SHORTEST => answer_shortest(help, &board),
        _ => Answer::bare(MISUSED, 0),
    }
}

/// Whether no solution of a board has fewer moves than a bound.
fn answer_bound(help: &mut Help<'_>, board: &Board, bound: u8) -> Answer
    requires { side_of board.now ≡ help.old.bundle.now.side }
    ensures yes { result.status ≡ 0 → IsBounded board.now bound }
    ensures shorter { result.status ≡ 1 → IsShorter board.now bound (moves_in result) }
{
    if !is_solvable(board) {
        return Answer::refused(Fault::K2);
    }
    let start = Start::of(help.bundle, board);
    match refuted(&help.search(&start, Question::Below(bound))) {
        Ok(()) => Answer::of(&Ok(Verdict::Bound(bound))),
        Err(answer) => answer,
    }
}

/// Whether moves solve a board, and no solution has fewer.
fn answer_moves(help: &mut Help<'_>, board: &Board, moves: &[u8]) -> Answer
    requires { side_of board.now ≡ help.old.bundle.now.side }
    ensures yes { result.status ≡ 0 → Solves board.now moves.now result.count
        × IsBounded board.now result.count }
    ensures shorter { result.status ≡ 1 → IsShorterThan board.now moves.now (moves_in result) }
{
    let count = match replay(board, moves) {
        Ok(count) => count,
        Err(refused) => return Answer::refused(Fault::Moves(refused)),
    };
    let bound = count.min(255) as u8;
    let start = Start::of(help.bundle, board);
    match refuted(&help.search(&start, Question::Below(bound))) {
        Ok(()) if count <= 255 => Answer::of(&Ok(Verdict::Optimal(bound))),
        Ok(()) => Answer::refused(Fault::K2),
        Err(answer) => answer,
    }
}

/// Nothing where a search refutes that there is a solution of fewer moves than a bound, and else the answer that tells what it found.
fn refuted(found: &Found) -> Result<(), Answer>
    ensures ok { OnOk result ((b : List ℕ) (r : ℕ) → IsFoundFor b (Below r) found.now → IsBounded b r) }
    ensures err { IfErr result (λ answer. answer.status ≢ 0) }
    ensures shorter { IfErr result (λ answer. answer.status ≡ 1 → (b : List ℕ) (r : ℕ)
        → IsFoundFor b (Below r) found.now → IsShorter b r (moves_in answer)) }
{
    match found {
        Found::Refuted(_) => Ok(()),
        Found::Solved(letters) => Err(Answer::shorter(letters.as_slice())),
        Found::Spent => Err(Answer::refused(Fault::K1(None))),
        Found::Beyond => Err(Answer::refused(Fault::K2)),
    }
}

/// A shortest solution of a board.
fn answer_shortest(help: &mut Help<'_>, board: &Board) -> Answer
    requires { side_of board.now ≡ help.old.bundle.now.side }
    ensures yes { result.status ≡ 0 → Solves board.now (moves_in result) result.count
        × IsBounded board.now result.count }
    ensures shorter { result.status ≢ 1 }
{
    if !is_solvable(board) {
        return Answer::refused(Fault::K2);
    }
    let start = Start::of(help.bundle, board);
    told_shortest(board, &help.search(&start, Question::Shortest))
}

/// The answer that tells what a search for a shortest solution found.
fn told_shortest(board: &Board, found: &Found) -> Answer
    requires { IsFoundFor board.now Shortest found.now }
    ensures yes { result.status ≡ 0 → Solves board.now (moves_in result) result.count
        × IsBounded board.now result.count }
    ensures shorter { result.status ≢ 1 }
{
    match found {
        Found::Solved(letters) => match replay(board, letters.as_slice()) {
            Ok(count) if count <= 255 => {
                let verdict = Ok(Verdict::Optimal(count as u8));
                Answer::with_moves(&verdict, letters.as_slice())
            }
            _ => Answer::refused(Fault::K2),
        },
        Found::Spent => Answer::refused(Fault::K1(None)),
        Found::Refuted(_) | Found::Beyond => Answer::refused(Fault::K2),
    }
}

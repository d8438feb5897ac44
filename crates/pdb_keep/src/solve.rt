//! Searches for a shortest solution, and keeps the log that proves it shortest once both are checked.

ghost use Rattle.std.specs.Prelude.{◌≡◌, ◌∷◌, Bool, Err, Ok, List, ℕ, [], length, IfErr, IfOk, IfSome};
ghost use Rattle.puz_board.specs.BoardTexts.{Spells};
ghost use Rattle.puz_goal.specs.Turning.{board_for};
ghost use Rattle.puz_board.specs.Boards.{side_of};
ghost use Rattle.pdb_request.specs.Asked.{solve_shown};
ghost use Rattle.pdb_run.specs.Ended.{HasItsStatus};
ghost use Rattle.pdb_run.specs.Writing.{digests_of};
ghost use Rattle.pdb_run.specs.Answers.{IsMadeBy, IsReplyOf, all_bytes, digest_lines};
ghost use Rattle.pdb_run.specs.Runs.{Ends};
ghost use Rattle.pdb_verdict.specs.Bound.{TakesMemoryForBound};
ghost use Rattle.pdb_verdict.specs.FileBundles.{IsBundleOfFiles, IsReadBundle};
ghost use Rattle.pdb_verdict.specs.Inputs.{log_files};
ghost use Rattle.pdb_verdict.specs.Optimal.{IsOptimumOver, IsOptimumResult};
ghost use Rattle.pdb_verdict.specs.Replay.{puzzle_of};
ghost use Rattle.pdb_verdict.specs.declared.verdicts.Fault.TheVariants as fault;
ghost use Rattle.pdb_keep.specs.Solve.{IsSearchable, TellsSearch, letters_of, reply_to_search, searched, solve_plan};
ghost use Rattle.pdb_keep.specs.Steps.{CameTo, HasItsMoves, IsGivenUp, IsSearchAnswer};

use crate::made::Made;
use crate::other_boards::OtherBoards;
use crate::search_inputs::{Solving, with_bytes};
use crate::searches_alone::SearchesAlone;
use crate::shortest::find_shortest;
use crate::solutions::lines_on;
use crate::spared::replaced_by_log;
use log_check::LogRefusal;
use pdb_request::Solve;
use pdb_run::{
    Answered, CommandAnswer, Digested, Ended, Io, Keeping, Unanswered, beside, digested_beside,
    keep_and_conclude, read_inputs_and_try,
};
use pdb_verdict::{
    Fault, SaidMoves, TableFiles, given_up, optimum_over, over_tables, settled, told,
};
use puz_board::{Board, BoardFault};
use puz_goal::Goal;
use puz_make::{MakeFault, is_out_of_reach, log_of};
use set_sum::Bundle;
use std::sync::Wait;
use std::thread::Threads;
use work_run::{Gate, Workers};

/// The least boards of a search whose tree may be too large for a log: each has at most four nodes after it.
const MANY_BOARDS: u64 = 1 << 28;

/// A whole run of `solve`, whoever checks the tables and the log: at most its budget of boards is expanded, and the log is kept
/// once it and the moves are found to prove an optimum. That something can be kept there, and nothing but a log of the
/// board is replaced unasked, is tried before anything is checked.
#[inline(never)] // so that the stack has the values of one command alone
pub fn run_solve<'n, H: Threads + Wait + Sync, G: Gate + Sync, I: Io>(
    search: &Solve<'n, &'n str>,
    workers: &Workers<'_, H, G>,
    io: &mut I,
) -> Ended<'n, Fault>
    ensures caused { HasItsStatus result }
    ensures same_streams { I.streams io.new ≡ I.streams io.old }
    ensures ends { let plan = solve_plan (solve_shown search.now) in
        Ends plan (I.world io.old) (I.world io.new) result.status }
{
    let command = Solving(search);
    let keeping = Keeping {
        name: search.out,
        replaces: replaced_by_log(search.replace),
    };
    let others = OtherBoards {
        goal: search.goal,
        replace: search.replace,
    };
    let mut read = match read_inputs_and_try(workers.alloc, &command, keeping, &others, io) {
        Ok(inputs) => with_bytes(search, inputs),
        Err(ended) => return ended,
    };
    let answered = answer_search(&mut read, workers);
    keep_and_conclude(workers.alloc, &command, &answered, search.out, io)
}

/// The answer to a search. The board text comes before all else, and takes no memory.
#[inline(never)] // so that the stack hasn't the values of what is kept
fn answer_search<'i, H: Threads + Wait + Sync, G: Gate + Sync>(
    search: &'i mut Solve<'_, Vec<u8>>,
    workers: &Workers<'_, H, G>,
) -> Answered<'i, Unanswered, Fault>
    ensures { IsSearchAnswer search.old result.answer }
{
    let (fold, budget, goal) = (search.fold, search.budget, search.goal);
    let Solve {
        board,
        sets,
        tables,
        ..
    } = search;
    match Board::read(board.as_slice()) {
        Ok(board) => {
            let search = |bundle: Result<Bundle<'_>, Fault>| -> Result<Option<Made>, Fault>
                ensures { (fold : Bool) (text sets : List ℕ) (tables : List (List ℕ))
                    → Spells text board → IsReadBundle fold tables sets bundle.entry
                    → CameTo goal fold budget text sets tables result }
            { search_in(bundle, goal, &board, budget, workers) };
            let sets = sets.as_slice();
            let given = given_up(tables, fold);
            let kept = tables.as_slice();
            let files = TableFiles { given, kept, fold };
            let (digested, outcome) = over_tables(files, None, sets, workers, search);
            let fault = outcome.as_ref().err().copied();
            Answered {
                answer: answer_of(goal, digested, outcome),
                fault,
            }
        }
        Err(refused) => {
            let (digested, outcome) = refused_beside(workers, tables.as_slice(), refused);
            Answered {
                answer: answer_of(goal, digested, outcome),
                fault: Some(Fault::Board(refused)),
            }
        }
    }
}

/// That a board is refused, and the digest lines of the tables.
#[inline(never)] // so that the stack has the values of one way alone
fn refused_beside<'t, H: Threads + Wait + Sync, G: Gate + Sync>(
    workers: &Workers<'_, H, G>,
    tables: &'t [Vec<u8>],
    refused: BoardFault,
) -> (Digested<'t>, Result<Option<Made>, Fault>)
    ensures digested { digest_lines result.0 ≡ digests_of (all_bytes tables.entry.now) }
    ensures outcome { result.1 ≡ Err (fault.Board refused) }
{
    digested_beside(workers, tables, None, || Err(Fault::Board(refused)))
}

/// The answer on what comes of a search over tables with these digest lines.
fn answer_of<'i>(
    goal: Goal,
    digested: Digested<'i>,
    outcome: Result<Option<Made>, Fault>,
) -> Result<CommandAnswer<'i>, Unanswered>
    requires { HasItsMoves outcome }
    ensures { (fold : Bool) (budget : ℕ) (text sets : List ℕ) (tables : List (List ℕ))
        → digest_lines digested.entry ≡ digests_of tables
        → CameTo goal fold budget text sets tables outcome
        → IsMadeBy (TellsSearch goal fold budget text sets tables)
        (TakesMemoryForBound text tables) (IsSearchable goal fold text sets tables) result }
{
    let outcome = settled(outcome)?;
    match outcome {
        Ok(Some(made)) => Ok(answer_on(goal, digested, made)),
        Ok(None) => Err(Unanswered::Wrong),
        Err(refused) => Ok(told(digested, &Err(refused))),
    }
}

/// The answer on what a search made.
fn answer_on<'i>(goal: Goal, digested: Digested<'i>, made: Made) -> CommandAnswer<'i>
    requires { length (letters_of made.moves.items) ≡ made.count }
    ensures { (tables : List (List ℕ)) → digest_lines digested.entry ≡ digests_of tables
        → IsReplyOf result
        (reply_to_search goal tables (searched made.moves.items made.log.items made.count)) }
{
    CommandAnswer {
        digested,
        lines: lines_on(goal, made.moves.as_slice(), made.count),
        is_yes: true,
        made: Some(made.log),
        made_digest: made.digest,
    }
}

/// Searches for a shortest solution of a board over a bundle, where there is one, and checks what is found. Or the first refusal that
/// stands: why there is no bundle, `L4` where it has another side than the board, and then the maker's.
fn search_in<H: Threads + Wait + Sync, G: Gate + Sync>(
    bundle: Result<Bundle<'_>, Fault>,
    goal: Goal,
    board: &Board,
    budget: u64,
    workers: &Workers<'_, H, G>,
) -> Result<Option<Made>, Fault>
    ensures { (fold : Bool) (text sets : List ℕ) (tables : List (List ℕ))
        → Spells text board.now → IsReadBundle fold tables sets bundle.entry
        → CameTo goal fold budget text sets tables result }
{
    let bundle = bundle?;
    if board.side() != bundle.side() {
        return Err(Fault::Log(LogRefusal::L4));
    }
    search_over(&bundle, goal, board, budget, workers)
}

/// Searches for a shortest solution of a board over a bundle of its side, and checks what is found. There is nothing where the
/// check refuses that, or the maker finds that it is wrong.
#[inline(never)] // so that the stack hasn't its values while tables are checked
fn search_over<H: Threads + Wait + Sync, G: Gate + Sync>(
    bundle: &Bundle<'_>,
    goal: Goal,
    board: &Board,
    budget: u64,
    workers: &Workers<'_, H, G>,
) -> Result<Option<Made>, Fault>
    requires { side_of board.now ≡ bundle.now.side }
    ensures given_up { IfErr result (IsGivenUp bundle.now (board_for goal board.now) budget) }
    ensures made { (fold : Bool) (text sets : List ℕ) (tables : List (List ℕ))
        → Spells text board.now → IsBundleOfFiles fold tables sets bundle.now
        → IfOk result (λ made. IfSome made (λ made.
        let puzzle = puzzle_of text made.moves.items in
        IsOptimumResult (log_files goal fold puzzle sets made.log.items tables) (Ok made.count))) }
{
    let Some(found) = find(bundle, &goal.board_for(board), budget, workers)? else {
        return Ok(None);
    };
    let mut found = found;
    goal.turn_moves(found.moves.as_mut_slice());
    let (moves, log) = (found.moves.as_slice(), found.log.as_slice());
    let check = || -> Result<u8, Fault>
        ensures { let log = log.entry.now in
            IsOptimumOver goal bundle.entry.now board.entry.now moves.entry.now log result }
    {
        let said = SaidMoves { goal, board, moves };
        optimum_over(bundle, said, log, workers)
    };
    let (digest, answer) = beside(workers, &[], Some(log), check);
    let Ok(count) = settled(answer)? else {
        return Ok(None);
    };
    Ok(Some(Made {
        moves: found.moves,
        log: found.log,
        count,
        digest,
    }))
}

/// The moves and the log that are made for a board, unchecked; the moves are turned back for the goal before they are checked.
#[derive(Drop)]
struct Found {
    moves: Vec<u8>,
    log: Vec<u8>,
}

/// A shortest solution and its log, unchecked; nothing where the maker finds that it is wrong. A board that is out of reach isn't
/// searched. No worker passes the gate, which is told of each search.
fn find<H: Threads + Sync, G: Gate + Sync>(
    bundle: &Bundle<'_>,
    board: &Board,
    budget: u64,
    workers: &Workers<'_, H, G>,
) -> Result<Option<Found>, Fault>
    requires { side_of board.now ≡ bundle.now.side }
    ensures { IfErr result (IsGivenUp bundle.now board.now budget) }
{
    if is_out_of_reach(bundle, board) {
        return Err(Fault::K2);
    }
    let gate = SearchesAlone { gate: workers.gate };
    let workers = &Workers::new(workers.rt, workers.alloc, workers.count, &gate);
    let Some(shortest) = find_shortest(bundle, board, budget, workers)? else {
        return Ok(None);
    };
    let mut moves = Vec::new(workers.alloc);
    moves.extend_from_slice(shortest.letters.as_slice())?;
    match log_of(bundle, board, shortest.count, workers) {
        Ok(log) => Ok(Some(Found { moves, log })),
        Err(MakeFault::K5) if shortest.boards >= MANY_BOARDS => Err(Fault::K5),
        Err(MakeFault::Memory) => Err(Fault::Memory),
        Err(_) => Ok(None),
    }
}

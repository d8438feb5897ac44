//! Whether the moves of a puzzle text solve its board.

ghost use Rattle.std.specs.Prelude.{◌≡◌, ◌↔◌, ℕ, Ok};
ghost use Rattle.puz_board.specs.PuzzleTexts.{puzzle_parts};
ghost use Rattle.pdb_verdict.specs.Replay.{IsReplayTold, IsSolvedPuzzle, solved_parts};
ghost use Rattle.pdb_verdict.specs.declared.verdicts.Verdict.TheVariants.{Solution};

use crate::verdicts::{Fault, Verdict};
use puz_board::{Board, split_puzzle};
use puz_goal::{Goal, replay_for};

/// The verdict on a puzzle text: the moves behind its first `;` are a solution of the board before it for the goal. Or the first
/// refusal that stands: `P1`, then the board's, then the moves'. It takes no memory and waits for nobody.
#[tactic(auto, using(crate::proofs::ReplayLemmas::refused_told))]
pub fn verify_puzzle(goal: Goal, puzzle: &[u8]) -> Result<Verdict, Fault>
    // A yes comes exactly where it is true.
    ensures solved { (n : ℕ) → (result ≡ Ok (Solution n)) ↔ (IsSolvedPuzzle goal puzzle.now n) }

    // Which refusal it is.
    ensures exact { IsReplayTold goal puzzle.now result }
{
    let (_board, count) = solved_board(goal, puzzle)?;
    Ok(Verdict::Solution(count))
}

/// The board of a puzzle text, turned for its goal, and of how many moves the solution behind it is.
pub(crate) fn solved_board(goal: Goal, puzzle: &[u8]) -> Result<(Board, u16), Fault>
    ensures { result ≡ solved_parts goal (puzzle_parts puzzle.now) }
{
    let (board, moves) = split_puzzle(puzzle).ok_or(Fault::P1)?;
    let board = Board::read(board)?;
    let count = replay_for(goal, &board, moves)?;
    Ok((goal.board_for(&board), count))
}

//! Boards that may be meant for the other goal, told to people. No contract speaks of it.

use puz_board::{Board, is_solvable};
use puz_goal::Goal;

/// Whether a board that was read for the first goal has a solution for the last one, by parity.
pub fn is_solvable_last(goal: Goal, board: &Board) -> bool {
    goal == Goal::First && is_solvable(&Goal::Last.board_for(board))
}

/// Whether it has one for the last goal alone.
pub fn is_solvable_last_alone(goal: Goal, board: &Board) -> bool {
    is_solvable_last(goal, board) && !is_solvable(board)
}

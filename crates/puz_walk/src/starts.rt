//! Boards with which searches begin.

ghost use Rattle.std.specs.Prelude.{◌≡◌};
ghost use Rattle.puz_board.specs.Boards.{side_of};
ghost use Rattle.puz_walk.specs.Starts.{IsStart};

use crate::cuts::sums_of;
use puz_board::Board;
use set_sum::{Bundle, MOST_SETS};

/// A board, and what the sets of a bundle say of it.
#[derive(Drop)]
pub struct Start {
    pub board: Board,
    /// The sum of each set. None where a set says that the board has no solution of fewer than 256 moves.
    pub sums: Option<[u8; MOST_SETS]>,
}

impl Start {
    /// The start from a board, over the tables of a bundle.
    pub fn of(bundle: &Bundle<'_>, board: &Board) -> Start
        requires { side_of board.now ≡ bundle.now.side }
        ensures board { result.board ≡ board.now }
        ensures start { IsStart bundle.now result }
    {
        // Asked only for what its contract says.
        let _side = board.side();
        Start {
            board: *board,
            sums: sums_of(bundle, board, u8::MAX),
        }
    }
}

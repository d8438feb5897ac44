//! Goals.

ghost use Rattle.std.specs.Prelude.{◌≡◌, ◌≤◌, length};
ghost use Rattle.puz_board.specs.Boards.{side_of};
ghost use Rattle.puz_goal.specs.Goals.{goal_words};
ghost use Rattle.puz_goal.specs.Turning.{board_for, letter_for, moves_for};

use crate::letters::{turn_letters, turned_letter};
use crate::turning::half_turned;
use puz_board::Board;

/// Where the blank is at home. The tiles stand in order.
#[derive(Clone, Copy, Debug, PartialEq, Eq)]
pub enum Goal {
    /// The blank is in the first cell: each tile is in the cell of its own number.
    First,
    /// The blank is in the last cell: tile 1 is in the first.
    Last,
}

impl Goal {
    /// The board that has the same solutions for the first goal, up to half a turn.
    pub fn board_for(self, board: &Board) -> Board
        ensures value { result ≡ board_for self board.now }
        ensures side { side_of result ≡ side_of board.now }
    {
        match self {
            Goal::First => *board,
            Goal::Last => half_turned(board),
        }
    }

    /// The letter of a move up to that turn. Any other byte stays.
    pub fn letter_for(self, letter: u8) -> u8
        ensures { result ≡ letter_for self letter }
    {
        match self {
            Goal::First => letter,
            Goal::Last => turned_letter(letter),
        }
    }

    /// Turns the letters of a moves text. Turned again they are what they were.
    pub fn turn_moves(self, text: &mut [u8])
        ensures { text.new ≡ moves_for self text.old }
    {
        match self {
            Goal::First => {}
            Goal::Last => turn_letters(text),
        }
    }

    /// What the line of an answer ends with where this is the goal.
    pub fn words(self) -> &'static str
        ensures words { result.now ≡ goal_words self }
        ensures short { length result.now ≤ 20 }
    {
        match self {
            Goal::First => "",
            Goal::Last => " with the blank last",
        }
    }
}

//! What a file begins with.

use pdb_verdict::is_solvable_last_alone;
use puz_board::Board;
use puz_goal::Goal;
use std::str;

/// What a file begins with, where that tells another kind of file than the one that is wanted.
#[derive(Clone, Copy, Debug, PartialEq, Eq)]
pub enum Beginning {
    OfTable,
    OfLog,
    /// Of a board that has a solution with the blank last at home alone, as parity says.
    OfBoardSolvedLast,
    /// Of another board, whose last number is 0.
    OfBoardWithBlankLast,
    OfAny,
}

impl Beginning {
    /// What a file begins with whose first bytes these are.
    pub fn of(bytes: &[u8]) -> Beginning {
        if bytes.starts_with(b"PDBT") {
            Beginning::OfTable
        } else if bytes.starts_with(b"PDBL") {
            Beginning::OfLog
        } else if is_solved_last(bytes) {
            Beginning::OfBoardSolvedLast
        } else if has_blank_last(bytes) {
            Beginning::OfBoardWithBlankLast
        } else {
            Beginning::OfAny
        }
    }

    /// What is said of it.
    pub(crate) fn text(self) -> &'static str {
        match self {
            Beginning::OfTable => ". It begins as a table does: is a word left out before it?",
            Beginning::OfLog => ". It begins as a log does: is a word left out before it?",
            Beginning::OfBoardSolvedLast => "; with the blank last it has one: --goal last",
            Beginning::OfBoardWithBlankLast => {
                ". If the blank, 0, is last on your goal board, add --goal last"
            }
            Beginning::OfAny => "",
        }
    }
}

/// Whether a board that comes first, alone or with a `;` behind it, has a solution with the blank last at home, and none with the blank
/// first.
fn is_solved_last(bytes: &[u8]) -> bool {
    let text = bytes.split(|byte| *byte == b';').next().unwrap_or(b"");
    match Board::read(text) {
        Ok(board) => is_solvable_last_alone(Goal::First, &board),
        Err(_) => false,
    }
}

/// Whether the last number of a board is 0, where a board comes first, alone or with a `;` behind it.
fn has_blank_last(bytes: &[u8]) -> bool {
    let Ok(text) = str::from_utf8(bytes) else {
        return false;
    };
    let board = text.split(';').next().unwrap_or("");
    matches!(board.split_ascii_whitespace().last(), Some("0" | "00"))
}

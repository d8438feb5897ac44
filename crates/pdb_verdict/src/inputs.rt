//! What is to be checked.

use puz_goal::Goal;

/// What is to be checked.
#[derive(Clone, Copy)]
pub enum Inputs<'a> {
    /// Whether the moves of a puzzle text solve its board.
    Replay {
        puzzle: &'a [u8],
        /// Where the blank is at home.
        goal: Goal,
    },
    /// Whether the table of a table file is exact.
    Table {
        table: &'a [u8],
    },
    /// Whether a log proves its bound for the board of a board text, over table files and a set text.
    Bound {
        board: &'a [u8],
        sets: &'a [u8],
        log: &'a [u8],
        tables: &'a [Vec<u8>],
        /// Whether each table is folded once it is checked.
        fold: bool,
        /// Where the blank is at home.
        goal: Goal,
    },
    /// Whether the moves of a puzzle text solve its board, and a log proves that no solution has fewer moves.
    Optimal {
        puzzle: &'a [u8],
        sets: &'a [u8],
        log: &'a [u8],
        tables: &'a [Vec<u8>],
        /// Whether each table is folded once it is checked.
        fold: bool,
        /// Where the blank is at home.
        goal: Goal,
    },
}

//! Verdicts on claims, and the one type of all faults.

ghost use Rattle.std.specs.Prelude.{◌≡◌};
ghost use Rattle.pdb_verdict.specs.Steps.{of_log, of_table};
ghost use Rattle.pdb_verdict.specs.declared.verdicts.Fault.TheVariants as fault;

use log_check::{LogFault, LogRefusal};
use puz_board::{BoardFault, MoveFault, Side};
use set_sum::SetFault;
use std::alloc::{AllocError, AllocFailed};
use tab_rule::{Census, TableFault, TableRefusal};
use thiserror::Error;

/// A yes.
#[derive(Clone, Copy, Debug, PartialEq, Eq)]
pub enum Verdict {
    /// The moves are a solution, of so many moves: at most 1000.
    Solution(u16),
    /// Each entry of the table is right. The side of its pattern's boards, the pattern's tiles as a mask with bit t for
    /// tile t, and the census of its entries.
    Exact(Side, u32, Census),
    /// No solution of the board has fewer moves than so many, as the log proves.
    Bound(u8),
    /// The least number of moves of any solution of the board: the moves are so many, and the log proves that none has fewer.
    Optimal(u8),
}

/// A no, or want of memory: what every check and every maker of the program answers in place of what it finds. Which of
/// these a command may answer is said in its contract.
#[derive(Clone, Copy, Debug, PartialEq, Eq, Error)]
pub enum Fault {
    /// A puzzle text has no `;`.
    #[error("the puzzle text has no `;`")]
    P1,
    /// A board text is refused.
    #[error("the board text is refused: {0:?}")]
    Board(BoardFault),
    /// A moves text is refused.
    #[error("the moves text is refused: {0:?}")]
    Moves(MoveFault),
    /// A table file is refused.
    #[error("the table file is refused: {0:?}")]
    Table(TableRefusal),
    /// One of several table files, with this number from 0, is refused.
    #[error("the table file {0} is refused: {1:?}")]
    TableOf(usize, TableRefusal),
    /// The tables and the set text are refused.
    #[error("the sets are refused: {0:?}")]
    Sets(SetFault),
    /// A log file is refused.
    #[error("the log file is refused: {0:?}")]
    Log(LogRefusal),
    /// The moves are a solution, and more than the bound that the log proves.
    #[error("the solution has {solution} moves, and the bound is {bound}")]
    O1 { solution: u16, bound: u8 },
    /// The search has expanded as many boards as it may. The greatest bound that it has proved before, where it tells one: no
    /// solution of the board has fewer moves.
    #[error("the budget of boards is spent")]
    K1(Option<u8>),
    /// The board has no solution, as the parity of its numbers or a set says, or the next threshold of the search would be
    /// above 255.
    #[error("the board has no solution, or none that a log could prove shortest")]
    K2,
    /// A count of the table would be above 253.
    #[error("a count of the table would be above 253")]
    K3,
    /// A side and a mask are no pattern.
    #[error("this is no pattern")]
    K4,
    /// The log of a search would be longer than a log file may be.
    #[error("the log would be too long")]
    K5,
    /// A line of a claims text, with this number from 0, is no claim.
    #[error("line {0} of the claims is no claim")]
    Q1(u32),
    /// The board of the claim with this number, from 0, is of another side than the tables.
    #[error("the board of claim {0} has another side than the tables")]
    Q2(u32),
    /// Memory was refused.
    #[error("no memory")]
    Memory,
}

impl From<BoardFault> for Fault {
    ghost from_gives = { λ refused gives. gives ≡ fault.Board refused };

    fn from(refused: BoardFault) -> Fault {
        Fault::Board(refused)
    }
}

impl From<MoveFault> for Fault {
    ghost from_gives = { λ refused gives. gives ≡ fault.Moves refused };

    fn from(refused: MoveFault) -> Fault {
        Fault::Moves(refused)
    }
}

impl From<TableFault> for Fault {
    ghost from_gives = { λ why gives. gives ≡ of_table why };

    fn from(why: TableFault) -> Fault {
        match why {
            TableFault::Refused(refused) => Fault::Table(refused),
            TableFault::Memory => Fault::Memory,
        }
    }
}

impl From<SetFault> for Fault {
    ghost from_gives = { λ refused gives. gives ≡ fault.Sets refused };

    fn from(refused: SetFault) -> Fault {
        Fault::Sets(refused)
    }
}

impl From<LogFault> for Fault {
    ghost from_gives = { λ why gives. gives ≡ of_log why };

    fn from(why: LogFault) -> Fault {
        match why {
            LogFault::Refused(refused) => Fault::Log(refused),
            LogFault::Memory => Fault::Memory,
        }
    }
}

impl From<AllocError> for Fault {
    ghost from_gives = { λ _ gives. gives ≡ fault.Memory };

    fn from(_: AllocError) -> Fault {
        Fault::Memory
    }
}

impl<T: Drop> From<AllocFailed<T>> for Fault {
    ghost from_gives = { λ _ gives. gives ≡ fault.Memory };

    fn from(_: AllocFailed<T>) -> Fault {
        Fault::Memory
    }
}

//! What each cause means, in a sentence. docs/FORMATS.md shows these sentences.

use log_check::LogRefusal;
use log_file::FormFault;
use pdb_run::Cause;
use pdb_verdict::Fault;
use puz_board::{BoardFault, MoveFault};
use set_sum::SetFault;
use std::fmt;
use std::fmt::Formatter;
use tab_file::HeadFault;
use tab_rule::TableRefusal;

/// What is said where a maker's work is wrong.
const WRONG: &str =
    "what the program made is wrong, as its own check found, and is not kept: please report this";

/// What is said where memory is wanted.
const NO_MEMORY: &str = "the system refused memory, so there is no verdict";

/// What is said where a log would take the place of a file that the run reads.
pub(crate) const OUT_IS_READ: &str =
    "this run reads that file, so it is not replaced: `--replace` allows that";

/// What is said where a log would take the place of a table.
pub(crate) const OUT_IS_TABLE: &str =
    "a table is there, or what can't be read, so no log takes its place: `--replace` allows that";

/// What is said where a table would take the place of a log.
pub(crate) const OUT_IS_LOG: &str =
    "a log is there, or what can't be read, so no table takes its place: `--replace` allows that";

/// What is said where a log would take the place of one of another board.
pub(crate) const OUT_IS_ANOTHER_LOG: &str =
    "a log of another board is there, so it is not replaced: `--replace` allows that";

/// What is said where a table would take the place of another one.
pub(crate) const OUT_IS_ANOTHER_TABLE: &str =
    "a table of another side or mask is there, so it is not replaced: `--replace` allows that";

/// What is said where a table or a log would take the place of what is neither.
pub(crate) const OUT_IS_NEITHER: &str =
    "what is there is neither a table nor a log, or can't be read, so it is not replaced: `--replace` allows that";

/// What is said where the owner of what is there has made it read-only.
pub(crate) const OUT_IS_READ_ONLY: &str =
    "it is read-only to its owner, so it is not replaced: `chmod u+w` allows that";

/// What is said where an input can't be read.
const UNREAD: &str = "it can't be read: is it there, is it no folder, and may you read it?";

/// What is said where an input is too large.
const TOO_LONG: &str = "it has more bytes than such a file may have";

/// What is said where nothing can be kept.
const UNKEPT: &str =
    "nothing can be kept there: does its folder exist, may you write there, and is there room?";

/// Writes what a cause means. There is nothing to say where the output failed, and where lines or the words' mistake say it.
pub(crate) fn write_cause<W: fmt::Write>(
    f: &mut Formatter<W>,
    why: &Cause<'_, Fault>,
) -> fmt::Result {
    match why {
        Cause::Unread(_) => f.write_str(UNREAD),
        Cause::TooLong(_) => f.write_str(TOO_LONG),
        Cause::Spared(_) | Cause::Unkept(_) => f.write_str(UNKEPT),
        Cause::MadeWrong => f.write_str(WRONG),
        Cause::NoMemory => f.write_str(NO_MEMORY),
        Cause::Refused(fault) => write_fault(f, *fault),
        Cause::Unwritten | Cause::Words | Cause::Open => Ok(()),
    }
}

/// Writes what a refusal means.
fn write_fault<W: fmt::Write>(f: &mut Formatter<W>, fault: Fault) -> fmt::Result {
    match fault {
        Fault::P1 => f.write_str("there is no `;` between a board and its moves"),
        Fault::Board(refused) => write_board_fault(f, refused),
        Fault::Moves(refused) => write_moves_fault(f, refused),
        Fault::Table(refused) | Fault::TableOf(_, refused) => write_table_fault(f, refused),
        Fault::Sets(refused) => write_sets_fault(f, refused),
        Fault::Log(refused) => write_log_fault(f, refused),
        Fault::O1 { solution, bound } => write!(
            f,
            "the solution has {solution} moves, and the log proves that none has fewer than {bound}"
        ),
        other => write_search_fault(f, other),
    }
}

/// Of boards.
fn write_board_fault<W: fmt::Write>(f: &mut Formatter<W>, refused: BoardFault) -> fmt::Result {
    match refused {
        BoardFault::B1(place) => write!(
            f,
            "byte {place} of the board is no digit, space, tab or line end"
        ),
        BoardFault::B2(place) => write!(
            f,
            "three or more digits stand in a row, from byte {place} on"
        ),
        BoardFault::B3(count) => write!(
            f,
            "the board has {count} numbers, where 4, 9, 16 or 25 are wanted"
        ),
        BoardFault::B4(index) => write!(
            f,
            "number {index} of the board is too great for that many cells"
        ),
        BoardFault::B5(index) => write!(f, "number {index} of the board stands there twice"),
    }
}

/// Of moves.
fn write_moves_fault<W: fmt::Write>(f: &mut Formatter<W>, refused: MoveFault) -> fmt::Result {
    match refused {
        MoveFault::M1(place) => write!(
            f,
            "byte {place} behind the `;` is none of U, D, L, R, space, tab and line end"
        ),
        MoveFault::M2(step) => write!(f, "the move at step {step} takes the blank off the board"),
        MoveFault::M3 => f.write_str("there are more than 1000 moves"),
        MoveFault::M4 => f.write_str(
            "the moves don't end on the goal board, which has each number in its own cell",
        ),
    }
}

/// Of table files.
fn write_table_fault<W: fmt::Write>(f: &mut Formatter<W>, refused: TableRefusal) -> fmt::Result {
    match refused {
        TableRefusal::Head(refused) => f.write_str(head_text(refused)),
        TableRefusal::T7(entry) => write!(
            f,
            "the table is wrong: entry {entry} doesn't fit those one move away"
        ),
    }
}

/// Of the headers of table files.
fn head_text(refused: HeadFault) -> &'static str {
    match refused {
        HeadFault::T1 => "a table file has at least 20 bytes",
        HeadFault::T2 => "a table file begins with `PDBT` and a byte 1",
        HeadFault::T3 => "byte 5 of a table file is the side, 2 to 5",
        HeadFault::T4 => {
            "the mask in the header is no pattern of that side, or doesn't fit the bytes beside it"
        }
        HeadFault::T5 => "the header says a number of entries that such a table doesn't have",
        HeadFault::T6 => "the file is shorter or longer than its header says",
    }
}

/// Of set texts, and of tables that make no sets.
fn write_sets_fault<W: fmt::Write>(f: &mut Formatter<W>, refused: SetFault) -> fmt::Result {
    match refused {
        SetFault::S1(line) => write!(
            f,
            "line {line} isn't `set` and ascending numbers of tables, one space before each, with a line end and no CR"
        ),
        SetFault::S2(line) => write!(
            f,
            "line {line} names a table that isn't there: they are numbered from 0"
        ),
        SetFault::S3(line) => write!(f, "line {line} has two tables with a tile in common"),
        SetFault::S4(table) => write!(f, "table {table} is of another side than table 0"),
        SetFault::S5 => f.write_str("there may be 1 to 16 tables, and 1 to 16 lines"),
        SetFault::S6(line) => write!(
            f,
            "line {line} has two tables of the same tiles, one of them transposed"
        ),
    }
}

/// Of log files.
fn write_log_fault<W: fmt::Write>(f: &mut Formatter<W>, refused: LogRefusal) -> fmt::Result {
    match refused {
        LogRefusal::Form(FormFault::L1) => f.write_str(
            "a log file begins with `PDBL`, a version, a side and a number of lemmas",
        ),
        LogRefusal::Form(FormFault::L2(lemma)) => write!(
            f,
            "lemma {lemma} is cut short, or bytes are left over behind the last one"
        ),
        LogRefusal::Form(FormFault::L3(lemma)) => {
            write!(f, "the board of lemma {lemma} is no board")
        }
        LogRefusal::L4 => f.write_str("board, tables and log aren't all of one side"),
        LogRefusal::L5 => f.write_str("the log is one of another board"),
        LogRefusal::L6(lemma) => write!(f, "lemma {lemma} doesn't hold over these sets and tables"),
    }
}

/// Of searches, makers and claims.
fn write_search_fault<W: fmt::Write>(f: &mut Formatter<W>, fault: Fault) -> fmt::Result {
    match fault {
        Fault::K1(bound) => {
            f.write_str("the budget of boards is spent: `--budget N` allows more")?;
            write_ended(f, bound)
        }
        Fault::K2 => f.write_str("the board has no solution, or none of fewer than 255 moves"),
        Fault::K3 => f.write_str(
            "a count of the table would pass 253, the most that a table holds",
        ),
        Fault::K4 => f.write_str(
            "SIDE and MASK are no pattern: 1 to 3 tiles on side 2, to 8 on sides 3 and 4, to 6 on side 5, and none that isn't on the board",
        ),
        Fault::K5 => {
            f.write_str("the log would have more than 2^30 bytes, the most that a log may have")
        }
        Fault::Q1(line) => write!(
            f,
            "line {line} is none of `BOARD`, `BOARD ; MOVES`, `BOARD : N` and `BOARD : N part I/K`"
        ),
        Fault::Q2(line) => write!(
            f,
            "the board of line {line} is of another side than the tables"
        ),
        _ => f.write_str(NO_MEMORY),
    }
}

/// Of the searches before the one that spent the budget.
fn write_ended<W: fmt::Write>(f: &mut Formatter<W>, bound: Option<u8>) -> fmt::Result {
    match ended_below(bound) {
        Some(ended) => write!(
            f,
            ". The searches that ended found no solution of fewer than {ended} moves"
        ),
        None => Ok(()),
    }
}

/// The threshold below which the last search ended, where this bound is proved: all solutions have one parity, so that search proves
/// one more than its threshold. None where no search has ended.
pub(crate) fn ended_below(bound: Option<u8>) -> Option<u8> {
    match bound? {
        0 | 1 => None,
        bound => Some(bound - 1),
    }
}

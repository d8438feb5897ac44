//! The headers of log files, and sides.

use crate::fronts::FileStart;
use log_check::LogRefusal;
use log_file::{FormFault, LogView, ViewFault};
use puz_board::{Board, Side};
use std::alloc::Global;

/// Why a log is refused, as far as its first bytes tell, and the board and the tables' side where they are known.
pub(crate) fn log_fault(
    alloc: Global,
    front: Option<&FileStart>,
    board: Option<&Board>,
    side: Option<Side>,
) -> Option<LogRefusal> {
    if let Some(fault) = front.and_then(|front| form_fault(alloc, front)) {
        return Some(LogRefusal::Form(fault));
    }
    let of_log = front.and_then(|front| Side::of(*front.bytes().get(5)?));
    let of_board = board.map(|board| board.side());
    if differ(of_log, of_board) || differ(of_log, side) || differ(of_board, side) {
        return Some(LogRefusal::L4);
    }
    if is_of_another(alloc, front?.whole()?, board?) {
        Some(LogRefusal::L5)
    } else {
        None
    }
}

/// Why a file is no log file. Of a file that isn't seen whole this is said of its header alone.
fn form_fault(alloc: Global, front: &FileStart) -> Option<FormFault> {
    match LogView::read(alloc, front.bytes()) {
        Err(ViewFault::Refused(fault)) if fault == FormFault::L1 || front.whole().is_some() => {
            Some(fault)
        }
        _ => None,
    }
}

/// Whether two sides are known and differ.
pub(crate) fn differ(one: Option<Side>, other: Option<Side>) -> bool {
    match (one, other) {
        (Some(one), Some(other)) => one != other,
        _ => false,
    }
}

/// Whether the last lemma of a log has another board.
fn is_of_another(alloc: Global, file: &[u8], board: &Board) -> bool {
    match LogView::read(alloc, file) {
        Ok(log) => log.board(log.len() - 1) != *board,
        Err(_) => false,
    }
}

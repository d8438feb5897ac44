//! Looks at the files of a run before it begins.

use crate::fronts::FileStart;
use crate::headers::patterns_of;
use crate::logs::{differ, log_fault};
use crate::sets::sets_fault;
use claim_text::{first_of_another_side, is_remark, read_claims};
use log_check::LogRefusal;
use pdb_request::{LogCheck, LogClaim, Prove, Request, Solve};
use pdb_verdict::{Fault, begin_claim, is_solvable_last};
use puz_board::{Board, Side, is_solvable};
use puz_goal::Goal;
use std::alloc::Global;
use std::fs;
use std::rt::Files;
use tab_rule::TableRefusal;

/// What is needed to look at files.
#[derive(Drop)]
pub struct Look<'a, R> {
    pub alloc: Global,
    pub files: &'a R,
}

impl<R: Files> Look<'_, R> {
    /// The start of a file.
    fn front(&self, name: &str) -> Option<FileStart> {
        FileStart::of(self.alloc, self.files, name)
    }

    /// The board of the text of which something is claimed, turned for its goal, where all of the text is seen. `None` where the text is refused.
    fn board(&self, goal: Goal, claim: LogClaim, name: &str) -> Option<Option<Board>> {
        let front = self.front(name);
        match front.as_ref().and_then(|front| front.whole()) {
            Some(text) => Some(Some(begin_claim(goal, claim, text).ok()?.board)),
            None => Some(None),
        }
    }
}

/// Tables of fewer bytes together are checked before anyone has waited for it.
const MANY_BYTES: u64 = 1 << 22;

/// Whether the check of the tables that are named may take a while, by the sizes of their files. Of what is no plain file no size is
/// known, so it may.
pub fn takes_long<R: Files>(files: &R, asked: &Request<'_>) -> bool {
    let mut bytes = 0_u64;
    for name in asked.tables() {
        let size = match fs::metadata(files, *name) {
            Ok(data) if data.is_file() => data.len(),
            Ok(_) => MANY_BYTES,
            Err(_) => 0,
        };
        bytes = bytes.saturating_add(size);
    }
    bytes >= MANY_BYTES
}

/// The first refusal that the starts of the files tell already, where there is one: the run that does what was asked can't
/// end in a yes, as long as its files stay. It may still be refused for another cause, which comes first and takes a check to find.
///
/// Files are looked at where they are plain ones, and not read beyond 4096 bytes. Nothing is said where the text of the board or of the
/// claims is refused, which the run tells before it checks a table.
pub fn fault_ahead<R: Files>(look: &Look<'_, R>, asked: &Request<'_>) -> Option<Fault> {
    match asked {
        Request::LogCheck(check) => log_check_fault(look, check),
        Request::Solve(search) => search_fault(look, search),
        Request::Prove(prove) => prove_fault(look, prove),
        _ => None,
    }
}

/// Whether a run that has the blank first at home reads a board from a file that has a solution with the blank last. Of claims the first
/// board counts.
pub fn file_may_be_last<R: Files>(look: &Look<'_, R>, asked: &Request<'_>) -> bool {
    let Some(Some(name)) = board_text(asked) else {
        return false;
    };
    match look.front(name) {
        Some(front) => may_be_last(asked, front.bytes()),
        None => false,
    }
}

/// Whether it reads such a board from standard input, which begins so.
pub fn input_may_be_last(asked: &Request<'_>, start: &[u8]) -> bool {
    matches!(board_text(asked), Some(None)) && may_be_last(asked, start)
}

/// Whether the first board of a text that begins so has a solution with the blank last, where the blank is first at home.
fn may_be_last(asked: &Request<'_>, start: &[u8]) -> bool {
    let mut lines = start.split(|byte| *byte == b'\n');
    let first = match asked {
        Request::Prove(_) => lines.find(|line| !is_remark(line)),
        _ => Some(start),
    };
    let board = first.and_then(|text| text.split(|byte| *byte == b';' || *byte == b':').next());
    match board.map(|text| Board::read(text)) {
        Some(Ok(board)) => is_solvable_last(asked.goal(), &board),
        _ => false,
    }
}

/// Where the text is that has a board: the file of a name, or standard input.
fn board_text<'n>(asked: &Request<'n>) -> Option<Option<&'n str>> {
    match asked {
        Request::Replay(replay) => Some(replay.puzzle),
        Request::LogCheck(check) => Some(Some(check.text)),
        Request::Solve(search) => Some(Some(search.board)),
        Request::Prove(prove) => Some(prove.claims),
        Request::JoinParts(parts) => Some(parts.board),
        Request::TableCheck(_) | Request::MakeTable(_) => None,
    }
}

/// Of `bound` and `optimal`.
fn log_check_fault<R: Files>(look: &Look<'_, R>, check: &LogCheck<&str>) -> Option<Fault> {
    let board = look.board(check.goal, check.claim, check.text)?;
    match side_of(look, check.sets, check.tables.as_slice()) {
        Ok(side) => {
            let log = look.front(check.log);
            let fault = log_fault(look.alloc, log.as_ref(), board.as_ref(), side)?;
            Some(Fault::Log(fault))
        }
        Err(fault) => Some(fault),
    }
}

/// Of `solve`.
fn search_fault<R: Files>(look: &Look<'_, R>, search: &Solve<'_, &str>) -> Option<Fault> {
    let board = look.board(search.goal, LogClaim::Bound, search.board)?;
    match side_of(look, search.sets, search.tables.as_slice()) {
        Ok(side) => {
            let board = board?;
            if differ(Some(board.side()), side) {
                Some(Fault::Log(LogRefusal::L4))
            } else if is_solvable(&board) {
                None
            } else {
                Some(Fault::K2)
            }
        }
        Err(fault) => Some(fault),
    }
}

/// Of `prove`.
fn prove_fault<R: Files>(look: &Look<'_, R>, prove: &Prove<Option<&str>, &str>) -> Option<Fault> {
    let front = prove.claims.and_then(|name| look.front(name));
    let lines = front.as_ref().and_then(|front| front.whole_lines());
    if lines.is_some_and(|lines| read_claims(look.alloc, lines).is_err()) {
        return None;
    }
    match side_of(look, prove.sets, prove.tables.as_slice()) {
        Ok(side) => Some(Fault::Q2(line_of_another_side(look.alloc, lines?, side?)?)),
        Err(fault) => Some(fault),
    }
}

/// The number of the first of these lines whose claim has a board of another side.
fn line_of_another_side(alloc: Global, lines: &[u8], side: Side) -> Option<u32> {
    let Ok(claims) = read_claims(alloc, lines) else {
        return None;
    };
    first_of_another_side(lines, claims.as_slice(), side)
}

/// The side of tables, where it is seen. Or why the tables, or these and a set text, are refused.
fn side_of<R: Files>(
    look: &Look<'_, R>,
    sets: &str,
    tables: &[&str],
) -> Result<Option<Side>, Fault> {
    let patterns = match patterns_of(look.alloc, look.files, tables) {
        Ok(patterns) => patterns,
        Err((number, fault)) => return Err(Fault::TableOf(number, TableRefusal::Head(fault))),
    };
    let patterns = patterns.as_ref().map(|patterns| patterns.as_slice());
    let front = look.front(sets);
    let text = front.as_ref().and_then(|front| front.whole());
    match sets_fault(text, tables.len(), patterns) {
        Some(fault) => Err(Fault::Sets(fault)),
        None => Ok(patterns.and_then(|patterns| Some(patterns.first()?.side()))),
    }
}

//! What is spared for what the inputs hold: logs of other boards.

ghost use Rattle.std.specs.Prelude.{◌≡◌, ◌↔◌, List, ℕ, IfNone, IfOk, IfSome, IsTrue};
ghost use Rattle.log_file.specs.Logs.{IsLog};
ghost use Rattle.puz_goal.specs.Turning.{board_for};
ghost use Rattle.pdb_run.specs.Answers.{all_bytes};
ghost use Rattle.pdb_keep.specs.Spared.{EndsWith, IsLogOf, IsOfOtherSearch, IsSearched};

use log_file::{LogView, MOST_BYTES, ViewFault};
use pdb_run::Sparing;
use puz_board::Board;
use puz_goal::Goal;
use std::alloc::{AllocError, Global};

/// What a search for this goal spares, unless any file may be replaced.
#[derive(Clone, Copy)]
pub(crate) struct OtherBoards {
    pub(crate) goal: Goal,
    pub(crate) replace: bool,
}

impl OtherBoards {
    /// The board whose log may be replaced alone, turned for the goal, where there is one.
    fn searched(&self, inputs: &[Vec<u8>]) -> Option<Board>
        ensures some { IfSome result (IsSearched self.now.replace self.now.goal (all_bytes inputs.now)) }
        ensures none { IfNone result ((board : List ℕ)
            → IsSearched self.now.replace self.now.goal (all_bytes inputs.now) board → ⊥) }
    {
        if self.replace {
            return None;
        }
        match Board::read(inputs.first()?.as_slice()) {
            Ok(board) => Some(self.goal.board_for(&board)),
            Err(_) => None,
        }
    }
}

impl Sparing for OtherBoards {
    ghost spares = { λ other inputs file. IsOfOtherSearch other.replace other.goal inputs file };

    fn most_bytes(&self, inputs: &[Vec<u8>]) -> Option<u64> {
        match self.searched(inputs) {
            Some(_) => Some(MOST_BYTES as u64),
            None => None,
        }
    }

    fn spares(&self, alloc: Global, inputs: &[Vec<u8>], file: &[u8]) -> Result<bool, AllocError> {
        match self.searched(inputs) {
            Some(board) => Ok(!is_log_of(alloc, &board, file)?),
            None => Ok(false),
        }
    }
}

/// Nothing.
#[derive(Clone, Copy)]
pub(crate) struct Nothing;

impl Sparing for Nothing {
    ghost spares = { λ _ _ _. ⊥ };

    fn most_bytes(&self, _inputs: &[Vec<u8>]) -> Option<u64> {
        None
    }

    fn spares(
        &self,
        _alloc: Global,
        _inputs: &[Vec<u8>],
        _file: &[u8],
    ) -> Result<bool, AllocError> {
        Ok(false)
    }
}

/// Whether bytes are a log of a board.
fn is_log_of(alloc: Global, board: &Board, file: &[u8]) -> Result<bool, AllocError>
    ensures { IfOk result (λ is. IsTrue is ↔ IsLogOf board.now file.now) }
{
    if MOST_BYTES < file.len() {
        return Ok(false);
    }
    match LogView::read(alloc, file) {
        Ok(log) => Ok(ends_with(&log, board)),
        Err(ViewFault::Refused(_)) => Ok(false),
        Err(ViewFault::Memory) => Err(AllocError),
    }
}

/// Whether the last lemma of a log is of a board.
fn ends_with(log: &LogView<'_>, board: &Board) -> bool
    ensures ends { IsTrue result ↔ EndsWith log.now.lemmas board.now }
    ensures log { IsLog log.now }
{
    if log.side() != board.side() {
        return false;
    }
    log.board(log.len() - 1) == *board
}

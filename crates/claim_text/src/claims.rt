//! Claims, and the lines that say them.

ghost use Rattle.std.specs.Prelude.{◌≡◌, ◌<◌, ℕ, List, IfNone, IfSome, length};
ghost use Rattle.puz_board.specs.BoardTexts.{Spells};
ghost use Rattle.claim_text.specs.Claims.{IsClaim, IsMovesText, IsNoClaim, ShownAsks, SpellsAsks};
ghost use Rattle.claim_text.specs.Shown.{asks_shown, claim_shown};
ghost use Rattle.claim_text.specs.Claims.{moves as asks_moves, shortest};

use crate::bounds::read_asks;
use crate::cuts::split_at;
use crate::letters::is_moves_text;
use move_strings::BoundPart;
use puz_board::Board;

/// What a claim asks or says of the solutions of its board.
#[derive(Clone, Copy, Debug, PartialEq, Eq)]
pub enum Asks<'a> {
    /// A shortest solution is asked for.
    Shortest,
    /// The moves of this moves text are a shortest solution. It has 1,000 letters at most.
    Moves(&'a [u8]),
    /// No solution has fewer moves than this.
    Bound(u8),
    /// This part of this bound holds.
    Part(u8, BoundPart),
}

/// A claim on the solutions of a board.
#[derive(Clone, Copy, Debug, PartialEq, Eq)]
pub struct Claim<'a> {
    pub board: Board,
    pub asks: Asks<'a>,
}

/// The claim that a line says: `BOARD ; MOVES`, `BOARD : N`, `BOARD : N part I/K` or `BOARD`.
pub(crate) fn read_claim(line: &[u8]) -> Option<Claim<'_>>
    ensures some { IfSome result (λ claim. IsClaim line.now (claim_shown claim)) }
    ensures none { IfNone result (IsNoClaim line.now) }
{
    if let Some((board, moves)) = split_at(line, b';') {
        return moves_claim(board, moves);
    }
    match split_at(line, b':') {
        Some((board, behind)) => colon_claim(board, behind),
        None => shortest_claim(line),
    }
}

/// The claim that asks for a shortest solution of a board text.
fn shortest_claim(board: &[u8]) -> Option<Claim<'_>>
    ensures some { IfSome result (λ claim. Spells board.now claim.board
        × (asks_shown claim.asks ≡ shortest)) }
    ensures none { IfNone result ((b : List ℕ) → ¬ Spells board.now b) }
{
    let board = Board::read(board).ok()?;
    Some(Claim {
        board,
        asks: Asks::Shortest,
    })
}

/// The claim that the moves of a moves text are a shortest solution of a board text.
fn moves_claim<'a>(board: &'a [u8], moves: &'a [u8]) -> Option<Claim<'a>>
    ensures some { IfSome result (λ claim. Spells board.now claim.board × IsMovesText moves.now
        × (asks_shown claim.asks ≡ asks_moves moves.now)) }
    ensures none { IfNone result ((b : List ℕ) → Spells board.now b → ¬ IsMovesText moves.now) }
{
    let board = Board::read(board).ok()?;
    if !is_moves_text(moves) {
        return None;
    }
    Some(Claim {
        board,
        asks: Asks::Moves(moves),
    })
}

/// The claim that a board text and what stands behind its `:` say.
fn colon_claim<'a>(board: &'a [u8], behind: &'a [u8]) -> Option<Claim<'a>>
    ensures some { IfSome result (λ claim. Spells board.now claim.board
        × SpellsAsks behind.now (asks_shown claim.asks)) }
    ensures none { IfNone result ((b : List ℕ) (asks : ShownAsks) → Spells board.now b
        → ¬ SpellsAsks behind.now asks) }
{
    let board = Board::read(board).ok()?;
    match read_asks(behind) {
        Some(asks) => Some(Claim { board, asks }),
        None => None,
    }
}

//! Sides, boards, patterns, claims, strings, drafts and automata, where there are such and memory for them.

ghost use Rattle.std.specs.Prelude.{All};
ghost use Rattle.claim_text.specs.Lines.{HasFewLetters};
ghost use Rattle.claim_text.specs.Shown.{claim_shown};

use claim_text::{Claim, read_claims};
use move_strings::{Automaton, Draft};
use pat_place::Pattern;
use puz_board::{Board, Move, Side};
use std::alloc::AllocGlobal;
use std::process::Abort;
use string_make::draft_of;

/// The side of a board with so many cells in a row.
pub(crate) fn side_of(rt: &impl Abort, n: u8) -> Side {
    Side::of(n).expect(rt, "a side")
}

/// The board with these numbers in its cells.
pub(crate) fn board_of(rt: &impl Abort, numbers: &[u8]) -> Board {
    Board::from_cells(numbers).expect(rt, "a board")
}

/// The pattern of a side and a mask, where they are one.
pub(crate) fn pattern_of(n: u8, mask: u32) -> Option<Pattern> {
    Pattern::of_mask(Side::of(n)?, mask)
}

/// That pattern.
pub(crate) fn pattern_with(rt: &impl Abort, n: u8, mask: u32) -> Pattern {
    pattern_of(n, mask).expect(rt, "a pattern")
}

/// The claims of a text.
pub(crate) fn claims_of<'a, R: AllocGlobal + Abort>(rt: &R, text: &'a [u8]) -> Vec<Claim<'a>>
    ensures { All (λ claim. HasFewLetters (claim_shown claim)) result.items }
{
    read_claims(rt.alloc(), text).ok().expect(rt, "claims")
}

/// The moves that letters name.
pub(crate) fn moves_of<R: AllocGlobal + Abort>(rt: &R, letters: &[u8]) -> Vec<Move> {
    let mut moves = Vec::new(rt.alloc());
    for letter in letters {
        let mv = Move::of_byte(*letter).expect(rt, "a letter");
        moves.push(mv).expect(rt, "memory");
    }
    moves
}

/// The draft that is made for forbidden strings of up to so many moves.
pub(crate) fn draft<R: AllocGlobal + Abort>(rt: &R, longest: u8) -> Draft {
    draft_of(rt.alloc(), longest).ok().expect(rt, "memory")
}

/// The automaton of a draft, if it is right.
pub(crate) fn checked<R: AllocGlobal + Abort>(rt: &R, n: u8, draft: &Draft) -> Option<Automaton> {
    Automaton::check(rt.alloc(), side_of(rt, n), draft)
        .ok()
        .expect(rt, "memory")
}

//! What searches begin with: starts, and the automaton of reversals.

ghost use Rattle.std.specs.Prelude.{◌≡◌};
ghost use Rattle.puz_walk.specs.Starts.{IsStart};

use move_strings::Automaton;
use puz_board::{Board, Side};
use puz_walk::Start;
use set_sum::Bundle;
use std::process::Abort;

/// The start from a board, over a bundle of its side.
pub(crate) fn start_of<R: Abort>(rt: &R, bundle: &Bundle<'_>, board: &Board) -> Start
    ensures board { result.board ≡ board.now }
    ensures start { IsStart bundle.now result }
{
    if board.side() != bundle.side() {
        panic!(rt; "of the bundle's side");
    }
    Start::of(bundle, board)
}

/// The automaton of reversals.
pub(crate) fn reversals<R: AllocGlobal + Abort>(rt: &R, side: Side) -> Automaton
    ensures { result.side ≡ side }
{
    Automaton::of_reversals(rt.alloc(), side).expect(rt, "memory")
}

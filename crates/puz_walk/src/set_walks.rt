//! Walks over words whose code is for so many sets.

ghost use Rattle.std.specs.Prelude.{◌≡◌, IfNone, IfSome, length};
ghost use Rattle.puz_board.specs.Boards.{side_of};
ghost use Rattle.puz_walk.specs.Starts.{AreSumsOn};
ghost use Rattle.puz_walk.specs.Walks.{IsClosed};

use crate::walks::Walk;
use crate::word_bundles::WordBundle;
use crate::word_walks::{WordStep, WordWalk};
use puz_board::{Board, Move};
use set_sum::MOST_SETS;
use std::marker::Model;

/// A walk over the words of a bundle that has `SETS` sets. The compiler knows the number, so its code has no loop over sets.
#[derive(Drop)]
pub struct SetWalk<'a, const SETS: u8> {
    walk: WordWalk<'a>,
}

impl<'a, const SETS: u8> Model for SetWalk<'a, SETS> {
    ghost use Rattle.std.specs.Prelude.{◌≡◌, length};
    ghost use Rattle.puz_walk.specs.Walks.{ShownWalk};

    ghost Value = { ShownWalk };

    ghost view = { λ w. w.walk };

    ghost invariant = { λ w. length w.walk.bundle.sets ≡ SETS };
}

impl<'a, const SETS: u8> SetWalk<'a, SETS> {
    /// The walk from a board with these sums, unless it is closed below the bound.
    pub fn new(
        bundle: &'a WordBundle<'a>,
        board: &Board,
        sums: &[u8; MOST_SETS],
        bound: u8,
    ) -> Option<SetWalk<'a, SETS>>
        requires sets { length bundle.now.sets ≡ SETS }
        requires side { side_of board.now ≡ bundle.now.side }
        requires sums { AreSumsOn bundle.now board.now sums.now }
        ensures some { IfSome result (λ walk.
            walk ≡ record { bundle = bundle.now; board = board.now; bound = bound }) }
        ensures none { IfNone result (IsClosed bundle.now board.now bound) }
    {
        let walk = WordWalk::new(bundle, board, sums, bound)?;
        Some(SetWalk { walk })
    }
}

impl<'a, const SETS: u8> Walk for SetWalk<'a, SETS> {
    ghost use Rattle.puz_walk.specs.WordSteps.{IsWordStepFrom};

    type Step = WordStep;

    ghost shown = { λ w. w };

    ghost leads = { IsWordStepFrom };

    #[inline]
    fn is_goal(&self) -> bool {
        self.walk.is_goal()
    }

    fn sums(&self) -> [u8; MOST_SETS] {
        self.walk.sums()
    }

    #[inline(always)]
    fn enter(&mut self, mv: Move) -> Option<WordStep> {
        self.walk.enter_by(mv, SETS)
    }

    #[inline(always)]
    fn leave(&mut self, step: &WordStep) {
        self.walk.leave_by(step, SETS);
    }
}

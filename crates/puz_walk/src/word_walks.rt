//! Boards that are moved in place, cut off by edge words.

ghost use Rattle.std.specs.Prelude.{◌≡◌, ◌+◌, ◌≤◌, ◌↔◌, IfNone, IfSome, IsTrue, Some, length};
ghost use Rattle.puz_board.specs.Boards.{IsGoal, moved, side_of};
ghost use Rattle.puz_walk.specs.Starts.{AreSumsOn};
ghost use Rattle.puz_walk.specs.Walks.{IsClosed, LeadsNowhere, ShownWalk};
ghost use Rattle.puz_walk.specs.WordSteps.{IsWordStepFrom};

use crate::cuts::margin_of;
use crate::pasts::{Past, held_of};
use crate::walks::Walk;
use crate::word_bundles::WordBundle;
use crate::word_spots::{Slide, Spot, judge, move_back, move_blank, spot_of};
use puz_board::{Board, Move};
use set_sum::MOST_SETS;
use std::marker::Model;

/// A board that is moved in place while a solution of fewer moves than a bound is still to be searched for. What a move does
/// to the sums of the bundle's sets is read from edge words before the board is moved: no table is looked into.
#[derive(Drop)]
pub struct WordWalk<'a> {
    bundle: &'a WordBundle<'a>,
    spot: Spot,
    bound: u8,
    /// How far each sum must be below the bound.
    margin: u8,
}

impl<'a> Model for WordWalk<'a> {
    ghost use Rattle.puz_walk.specs.Walks.{ShownWalk};

    ghost Value = { ShownWalk };

    ghost use Rattle.puz_walk.specs.StoredWordWalks.{IsStoredWordWalk, word_walk_shown};

    ghost view = { word_walk_shown };

    ghost invariant = { IsStoredWordWalk };
}

/// A step of a walk, by which it is taken back: where the blank was, how it went, and what was kept before.
#[derive(Clone, Copy)]
pub struct WordStep {
    past: Past,
    from: u8,
    mv: Move,
}

impl<'a> WordWalk<'a> {
    /// The walk from a board with these sums, unless it is closed below the bound.
    pub fn new(
        bundle: &'a WordBundle<'a>,
        board: &Board,
        sums: &[u8; MOST_SETS],
        bound: u8,
    ) -> Option<WordWalk<'a>>
        requires side { side_of board.now ≡ bundle.now.side }
        requires sums { AreSumsOn bundle.now board.now sums.now }
        ensures some { IfSome result (λ walk.
            walk ≡ record { bundle = bundle.now; board = board.now; bound = bound }) }
        ensures none { IfNone result (IsClosed bundle.now board.now bound) }
    {
        // Asked only for what its contract says.
        let (_side, _sets) = (board.side(), bundle.sets());
        let margin = margin_of(bound, board.blank_parity());
        if bound < margin {
            return None;
        }
        let spot = spot_of(bundle, board, sums, bound - margin)?;
        Some(WordWalk {
            bundle,
            spot,
            bound,
            margin,
        })
    }

    /// Enters, as a walk does. It is given how many sets there are.
    #[inline(always)]
    pub(crate) fn enter_by(&mut self, mv: Move, sets: u8) -> Option<WordStep>
        requires { sets ≡ length self.old.bundle.sets }
        ensures none { IfNone result ((self.new ≡ self.old) × LeadsNowhere self.old mv) }
        ensures some { IfSome result (λ step.
            (moved self.old.board mv ≡ Some self.new.board)
            × (self.new.bundle ≡ self.old.bundle) × (self.new.bound + 1 ≡ self.old.bound)
            × IsWordStepFrom self.old self.new step) }
        ensures small { self.old.bound ≤ 255 }
    {
        let bundle = self.bundle;
        let from = self.spot.blank;
        let to = bundle.after(from, mv)?;
        let tile = self.spot.numbers[usize::from(to)];
        let slide = Slide { mv, tile, to };
        let sums = judge(bundle, &self.spot, slide, self.bound - self.margin, sets)?;
        let past = Past {
            sums: self.spot.sums,
            held: held_of(bundle, &self.spot.kept, slide, sets),
        };
        move_blank(bundle, &mut self.spot, slide, sums, sets);
        self.bound -= 1;
        Some(WordStep { past, from, mv })
    }

    /// Takes a step back, as a walk does. It is given how many sets there are.
    #[inline(always)]
    pub(crate) fn leave_by(&mut self, step: &WordStep, sets: u8)
        requires sets { sets ≡ length self.old.bundle.sets }
        requires step { (walk : ShownWalk) × IsWordStepFrom walk self.old step.now }
        ensures { (walk : ShownWalk) → IsWordStepFrom walk self.old step.now → self.new ≡ walk }
    {
        let to = step.from;
        let tile = self.spot.numbers[usize::from(to)];
        let slide = Slide {
            mv: step.mv.reverse(),
            tile,
            to,
        };
        move_back(self.bundle, &mut self.spot, slide, &step.past, sets);
        self.bound += 1;
    }
}

impl<'a> Walk for WordWalk<'a> {
    ghost use Rattle.puz_walk.specs.WordSteps.{IsWordStepFrom};

    type Step = WordStep;

    ghost shown = { λ w. w };

    ghost leads = { IsWordStepFrom };

    #[inline]
    fn is_goal(&self) -> bool {
        // Few boards have the blank in cell 0, as the goal board has.
        self.spot.blank == 0
            && is_in_order(&self.spot.numbers[..usize::from(self.bundle.side().cells())])
    }

    fn sums(&self) -> [u8; MOST_SETS] {
        self.spot.sums
    }

    #[inline(always)]
    fn enter(&mut self, mv: Move) -> Option<WordStep> {
        let sets = self.bundle.sets();
        self.enter_by(mv, sets)
    }

    #[inline(always)]
    fn leave(&mut self, step: &WordStep) {
        let sets = self.bundle.sets();
        self.leave_by(step, sets);
    }
}

/// Whether each number is in the cell of its own number.
#[inline]
fn is_in_order(numbers: &[u8]) -> bool
    ensures { IsTrue result ↔ IsGoal numbers.now }
{
    for (cell, number) in numbers.iter().enumerate() {
        if usize::from(*number) != cell {
            return false;
        }
    }
    true
}

//! Boards that are moved in place, cut off by sums.

ghost use Rattle.std.specs.Prelude.{◌≡◌, IfNone, IfSome};
ghost use Rattle.puz_board.specs.Boards.{blank, side_of};
ghost use Rattle.puz_board.specs.Cells.{step_of};
ghost use Rattle.puz_walk.specs.Walks.{IsClosed};

use crate::cuts::margin_of;
use crate::tallies::{Tally, Told, exchange, judge, tally_of};
use crate::walks::Walk;
use crate::ways::{Ways, all_ways, way_place};
use puz_board::{Board, Move};
use set_sum::{Bundle, MOST_SETS, Position};
use std::marker::Model;

/// A board that is moved in place, and the bound below which solutions of it are searched for. The sums of the sets of a bundle
/// cut boards off (Korf and Felner 2002). Of each set only the member is looked up whose pattern has the tile that moves: the
/// others say what they said before.
#[derive(Drop)]
pub struct SumWalk<'a> {
    position: Position<'a>,
    /// For each cell and move the cell to which it leads.
    ways: Ways,
    tally: Tally,
    bound: u8,
    /// How far each sum must be below the bound.
    margin: u8,
}

impl<'a> Model for SumWalk<'a> {
    ghost use Rattle.puz_walk.specs.Walks.{ShownWalk};

    ghost Value = { ShownWalk };

    ghost use Rattle.puz_walk.specs.StoredSumWalks.{IsStoredSumWalk, sum_walk_shown};

    ghost view = { sum_walk_shown };

    ghost invariant = { IsStoredSumWalk };
}

/// A step of a walk, by which it is taken back: where the blank was, and what the owners of the tile said.
#[derive(Clone, Copy)]
pub struct SumStep {
    from: u8,
    told: Told,
}

impl<'a> SumWalk<'a> {
    /// The walk from a board, unless no solution of fewer moves than the bound need be searched for.
    pub fn new(bundle: &'a Bundle<'a>, board: &Board, bound: u8) -> Option<SumWalk<'a>>
        requires { side_of board.now ≡ bundle.now.side }
        ensures some { IfSome result (λ walk. walk
            ≡ record { bundle = bundle.now; board = board.now; bound = bound }) }
        ensures none { IfNone result (IsClosed bundle.now board.now bound) }
    {
        let (side, _sets) = (board.side(), bundle.sets());
        let margin = margin_of(bound, board.blank_parity());
        if bound < margin {
            return None;
        }
        let position = Position::new(bundle, board);
        let tally = tally_of(&position, board, bound - margin)?;
        Some(SumWalk {
            position,
            ways: all_ways(side),
            tally,
            bound,
            margin,
        })
    }

    /// The cell to which a move leads the blank, where it stays on the board.
    #[inline]
    fn after(&self, mv: Move) -> Option<u8>
        ensures { result ≡ step_of self.now.bundle.side (blank self.now.board) mv }
    {
        let (blank, _side) = (self.position.blank(), self.position.bundle().side());
        self.ways[way_place(blank, mv)]
    }
}

impl<'a> Walk for SumWalk<'a> {
    ghost use Rattle.puz_walk.specs.SumSteps.{IsSumStep};

    type Step = SumStep;

    ghost shown = { λ w. w };

    ghost leads = { IsSumStep };

    #[inline]
    fn is_goal(&self) -> bool {
        self.position.is_goal()
    }

    fn sums(&self) -> [u8; MOST_SETS] {
        self.tally.sums
    }

    #[inline]
    fn enter(&mut self, mv: Move) -> Option<SumStep> {
        let limit = self.bound - self.margin;
        let from = self.position.blank();
        let to = self.after(mv)?;
        let tile = self.position.slide(to);
        let mut told = [0; MOST_SETS];
        if let Some(set) = judge(&self.position, &self.tally, tile, limit, &mut told) {
            // It often cuts off the next board too.
            self.tally.first = set;
            self.position.slide(from);
            return None;
        }
        exchange(self.position.bundle(), &mut self.tally, tile, &mut told);
        self.bound -= 1;
        Some(SumStep { from, told })
    }

    #[inline]
    fn leave(&mut self, step: &SumStep) {
        let tile = self.position.slide(step.from);
        let mut told = step.told;
        exchange(self.position.bundle(), &mut self.tally, tile, &mut told);
        self.bound += 1;
    }
}

//! Sums for the boards of a walk, which keep what was looked up.

ghost use Rattle.std.specs.Prelude.{◌≡◌, ℕ, ◌<◌, ◌≤◌, ◌↔◌, IfNone, IfSome, IsTrue, List, Some, None, length};
ghost use Rattle.puz_board.specs.Boards.{IsBoardOf, IsGoal, moved, side_of};
ghost use Rattle.puz_board.specs.Parity.{blank_parity};
ghost use Rattle.tab_rule.specs.declared.tables.Count.TheVariants.{Finite};
ghost use Rattle.set_sum.specs.Bundles.{IsBundle, BundleSays};
ghost use Rattle.set_sum.specs.Members.{MemberSays};
ghost use Rattle.set_sum.specs.Steps.{IsStepFrom};

use crate::bundles::{Bundle, MOST_MEMBERS};
use crate::known::{Known, PositionStep, joined, note, said_by};
use crate::members::Member;
use crate::owners::place_of;
use crate::positions::Position;
use puz_board::masks::has_cell;
use puz_board::{Board, Move};
use std::marker::Model;
use tab_rule::Count;

/// A board of which the sets of a bundle are asked, and which is moved in place. What a member was found to say is kept, and
/// still holds after the move of a tile that its pattern hasn't: such a move costs the pattern nothing, and may be taken
/// back (Korf and Felner 2002).
#[derive(Drop)]
pub struct Sums<'a> {
    position: Position<'a>,
    known: Known,
}

impl<'a> Model for Sums<'a> {
    ghost use Rattle.set_sum.specs.ShownSums.{ShownSums};

    ghost Value = { ShownSums };

    ghost use Rattle.set_sum.specs.StoredSums.{IsStoredSums, sums_shown};

    ghost view = { sums_shown };

    ghost invariant = { IsStoredSums };
}

impl<'a> Sums<'a> {
    /// The sums of a board, of which nothing is known yet.
    pub fn new(bundle: &'a Bundle<'a>, board: &Board) -> Sums<'a>
        requires { side_of board.now ≡ bundle.now.side }
        ensures { result ≡ record { bundle = bundle.now; board = board.now } }
    {
        Sums {
            position: Position::new(bundle, board),
            known: Known {
                places: 0,
                entries: [0; MOST_MEMBERS],
            },
        }
    }

    /// How many sets there are to ask.
    pub fn sets(&self) -> u8
        ensures sets { result ≡ length self.now.bundle.sets }
        ensures bundle { IsBundle self.now.bundle }
    {
        self.position.bundle().sets()
    }

    /// Whether the board is the goal board.
    pub fn is_goal(&self) -> bool
        ensures { IsTrue result ↔ IsGoal self.now.board }
    {
        self.position.is_goal()
    }

    /// The parity of how many rows and columns lie between the blank's cell and cell 0: 0 or 1.
    pub fn blank_parity(&self) -> u8
        ensures parity { result ≡ blank_parity self.now.board }
        ensures bit { result ≤ 1 }
    {
        self.position.blank_parity()
    }

    /// Whether this is the board.
    pub fn is_board(&self, board: &Board) -> bool
        requires { IsBoardOf self.now.bundle.side board.now }
        ensures { IsTrue result ↔ (board.now ≡ self.now.board) }
    {
        self.position.is_board(board)
    }

    /// Moves the board, where the blank stays on it. The answer is the step, by which the move is taken back.
    #[inline]
    pub fn step(&mut self, mv: Move) -> Option<PositionStep>
        ensures none { IfNone result ((moved self.old.board mv ≡ None) × (self.new ≡ self.old)) }
        ensures some { IfSome result (λ step. (moved self.old.board mv ≡ Some self.new.board)
            × (self.new.bundle ≡ self.old.bundle)
            × IsStepFrom self.old.bundle self.old.board self.new.board step) }
    {
        let from = self.position.blank();
        let to = self.position.after(mv)?;
        let step = PositionStep {
            from,
            known: self.known,
        };
        let tile = self.position.slide(to);
        self.known.places &= !self.position.bundle().owners(tile);
        Some(step)
    }

    /// Takes a step back. What was found out behind it and holds before it too is kept.
    #[inline]
    pub fn take_back(&mut self, step: &PositionStep)
        requires { (b : List ℕ) × IsStepFrom self.old.bundle b self.old.board step.now }
        ensures { (b : List ℕ) → IsStepFrom self.old.bundle b self.old.board step.now
            → self.new ≡ record { bundle = self.old.bundle; board = b } }
    {
        let tile = self.position.slide(step.from);
        let places = self.known.places & !self.position.bundle().owners(tile);
        self.known = joined(&step.known, &self.known, places);
    }

    /// The sum of what the members of a set say of the board, and `Never` where one of them does.
    pub fn sum(&mut self, set: u8) -> Count
        requires { set < length self.old.bundle.sets }
        ensures sum { BundleSays self.old.bundle set self.old.board result }
        ensures same { self.new ≡ self.old }
    {
        let bundle = self.position.bundle();
        let mut total = 0;
        for member in bundle.members(set) {
            match self.said(*member) {
                Count::Finite(count) => total += count,
                Count::Never => return Count::Never,
            }
        }
        Count::Finite(total)
    }

    /// What a member says of the board.
    #[inline]
    fn said(&mut self, member: Member) -> Count
        requires { member.table < length self.old.bundle.tables }
        ensures says { MemberSays self.old.bundle.tables member self.old.board result }
        ensures few { (d : ℕ) → result ≡ Finite d → d ≤ 255 }
        ensures same { self.new ≡ self.old }
    {
        // Asked only for what its contract says.
        let _side = self.position.bundle().side();
        let place = place_of(member);
        if !has_cell(self.known.places, place) {
            note(&mut self.known, place, self.position.entry(member));
        }
        said_by(self.known.entries[usize::from(place)])
    }
}

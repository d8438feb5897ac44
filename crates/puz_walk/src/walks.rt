//! Walks of any kind.

use puz_board::Move;
use set_sum::MOST_SETS;

/// A board that is moved in place, and the bound below which solutions of it are searched for.
pub trait Walk: Drop {
    ghost use Rattle.std.specs.Prelude.{◌≡◌, ◌+◌, ◌≤◌, ◌↔◌, IfNone, IfSome, IsTrue, Some};
    ghost use Rattle.puz_board.specs.Boards.{IsGoal, moved};
    ghost use Rattle.puz_walk.specs.Starts.{AreSumsOn};
    ghost use Rattle.puz_walk.specs.Walks.{IsOpen, LeadsNowhere, ShownWalk};

    /// A step of a walk, by which it is taken back.
    type Step: Copy;

    // What is seen of a walk.
    ghost shown: { Self → ShownWalk };

    // The step leads from one walk to the other.
    ghost leads: { Self → Self → Self.Step → Type 0 };

    /// Whether the board is the goal board.
    fn is_goal(&self) -> bool
        ensures goal { IsTrue result ↔ IsGoal (shown self.now).board }
        ensures is_open { IsOpen (shown self.now) };

    /// The sums of the sets on the board.
    fn sums(&self) -> [u8; MOST_SETS]
        ensures { let walk = shown self.now in AreSumsOn walk.bundle walk.board result };

    /// Moves the board, where the move leads to one of which solutions of fewer moves than one below the bound are still to be
    /// searched for. The answer is the step, by which the move is taken back.
    fn enter(&mut self, mv: Move) -> Option<Self::Step>
        ensures none { IfNone result ((self.new ≡ self.old) × LeadsNowhere (shown self.old) mv) }
        ensures some { IfSome result (λ step.
            let old = shown self.old in let new = shown self.new in
            (moved old.board mv ≡ Some new.board) × (new.bundle ≡ old.bundle)
            × (new.bound + 1 ≡ old.bound) × leads self.old self.new step) }
        ensures small { (shown self.old).bound ≤ 255 };

    /// Takes a step back.
    fn leave(&mut self, step: &Self::Step)
        requires { (walk : Self) × leads walk self.old step.now }
        ensures { (walk : Self) → leads walk self.old step.now → self.new ≡ walk };
}

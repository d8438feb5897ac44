//! Automata that read moves one by one, and refuse some.

ghost use Rattle.std.specs.Prelude.{◌≡◌, ◌≢◌, ◌↔◌, ℕ, IfOk, IfSome, List, MatchOption, SomeIff, true};
ghost use Rattle.puz_board.specs.declared.moves.Move.{Move};
ghost use Rattle.move_strings.specs.Automata.{IsAutomaton, IsState, left_out, next_at, refuses, reversal_steps};
ghost use Rattle.move_strings.specs.Drafts.{IsRightDraft, automaton_of};
ghost use Rattle.move_strings.specs.Strings.{HasReversal};

use crate::drafts::{Draft, LEFT_OUT, is_right, table_of};
use crate::order::rank_of_move;
use puz_board::{Move, Side};
use std::alloc::{AllocError, Global};
use std::marker::Model;

/// A finite automaton that prunes moves (Taylor and Korf 1993). It reads them one by one, from its first state on, which is 0,
/// and refuses them by leaving out one of their steps; then they have a string in them that is forbidden on boards of its side.
#[derive(Drop)]
pub struct Automaton {
    side: Side,
    /// Four steps for each state: the next state, or that the step is left out.
    steps: Vec<u32>,
}

impl Model for Automaton {
    ghost use Rattle.move_strings.specs.Automata.{ShownAutomaton, IsAutomaton};

    ghost Value = { ShownAutomaton };

    ghost view = { λ a. record { side = a.side; steps = a.steps.items } };

    ghost invariant = { λ a. IsAutomaton (record { side = a.side; steps = a.steps.items }) };
}

impl Automaton {
    /// The automaton of a draft for boards of a side, where the draft is right: each string has the witness that is given with it,
    /// and each step leads to a state with whose label the state's label and the move end, or is left out, where they end with a
    /// forbidden string.
    pub fn check(alloc: Global, side: Side, draft: &Draft) -> Result<Option<Automaton>, AllocError>
        ensures { IfOk result (λ checked.
            SomeIff checked (IsRightDraft side draft.now) (automaton_of side draft.now)) }
    {
        if !is_right(side, draft) {
            return Ok(None);
        }
        let steps = table_of(alloc, draft.steps.as_slice())?;
        Ok(Some(Automaton { side, steps }))
    }

    /// The automaton of reversals, with a state for each arriving move: it refuses the moves that somewhere take one of them
    /// straight back.
    pub fn of_reversals(alloc: Global, side: Side) -> Result<Automaton, AllocError>
        ensures value { IfOk result (λ automaton.
            automaton ≡ record { side = side; steps = reversal_steps }) }
        ensures refused { IfOk result (λ automaton. (moves : List Move)
            → (refuses automaton.steps 0 moves ≡ true) ↔ HasReversal moves) }
    {
        // Four steps for each state: the first, and those after U, D, L and R.
        let steps = vec![in alloc;
            1, 2, 3, 4, 1, LEFT_OUT, 3, 4, LEFT_OUT, 2, 3, 4, 1, 2, 3, LEFT_OUT, 1, 2, LEFT_OUT, 4,
        ]?;
        Ok(Automaton { side, steps })
    }

    /// The side of the boards, on which moves that it refuses have a forbidden string in them.
    pub fn side(&self) -> Side
        ensures side { result ≡ self.now.side }
        ensures automaton { IsAutomaton self.now }
    {
        self.side
    }

    /// The state after a move from a state, unless the step is left out.
    #[inline]
    pub fn next(&self, state: u32, mv: Move) -> Option<u32>
        requires { IsState self.now.steps state }
        ensures next { MatchOption result
            (next_at self.now.steps state mv ≡ left_out)
            (λ next. (next_at self.now.steps state mv ≡ next) × (next ≢ left_out)) }
        ensures state { IfSome result (IsState self.now.steps) }
    {
        let next = self.steps[4 * state as usize + usize::from(rank_of_move(mv))];
        if next == LEFT_OUT { None } else { Some(next) }
    }
}

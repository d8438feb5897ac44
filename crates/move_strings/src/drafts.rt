//! Drafts of automata, which nobody need trust.

ghost use Rattle.std.specs.Prelude.{◌≡◌, ◌*◌, ◌/◌, ◌%◌, ◌<◌, ◌↔◌, ◌++◌, ◌∷◌, [], IfOk, IsTrue, length, map};
ghost use Rattle.move_strings.specs.Drafts.{AreRightSteps, EndsWith, IsRightDraft, IsRightStep, move_of_rank, moves_at, number_of};

use crate::forbidden_strings::{Forbidden, are_forbidden};
use crate::order::rank_of_move;
use puz_board::{Move, Side};
use std::alloc::{AllocError, Global};

/// The step of a move from a state, as a draft has it.
#[derive(Clone, Copy, Debug, PartialEq, Eq)]
pub enum Transition {
    /// It leads to the state with this number.
    To(u32),
    /// It is left out, since it completes the forbidden string with this number.
    LeftOut(u32),
}

/// A draft of an automaton.
#[derive(Drop)]
pub struct Draft {
    /// The forbidden strings, each with its witness.
    pub forbidden: Vec<Forbidden>,
    /// For each state the moves that it stands for: those before it end so. No moves stand for the first.
    pub labels: Vec<Vec<Move>>,
    /// Four for each state, one for each move in the order of the letters.
    pub steps: Vec<Transition>,
}

/// What stands in the place of a step that is left out.
pub(crate) const LEFT_OUT: u32 = 4294967295;

/// Whether a draft is right for boards of a side.
pub(crate) fn is_right(side: Side, draft: &Draft) -> bool
    ensures { IsTrue result ↔ IsRightDraft side draft.now }
{
    let labels = draft.labels.as_slice();
    let forbidden = draft.forbidden.as_slice();
    let steps = draft.steps.as_slice();
    if labels.len() == 0 || labels.len() >= LEFT_OUT as usize {
        return false;
    }
    let first = labels[0].as_slice().len();
    if first != 0 || steps.len() != 4 * labels.len() {
        return false;
    }
    are_forbidden(side, forbidden) && are_right_steps(labels, forbidden, steps)
}

/// Whether each step is right.
fn are_right_steps(labels: &[Vec<Move>], forbidden: &[Forbidden], steps: &[Transition]) -> bool
    requires { length steps.now ≡ 4 * length labels.now }
    ensures { IsTrue result ↔ AreRightSteps labels.now forbidden.now steps.now }
{
    for (place, step) in steps.iter().enumerate() {
        if !is_right_step(labels, forbidden, place, *step) {
            return false;
        }
    }
    true
}

/// Whether the step at a place is right.
fn is_right_step(
    labels: &[Vec<Move>],
    forbidden: &[Forbidden],
    place: usize,
    step: Transition,
) -> bool
    requires { place / 4 < length labels.now }
    ensures { IsTrue result
        ↔ IsRightStep labels.now forbidden.now (moves_at labels.now place) step }
{
    let label = labels[place / 4].as_slice();
    let mv = move_at(place);
    match step {
        Transition::To(state) => {
            let state = state as usize;
            state < labels.len() && ends_so(label, mv, labels[state].as_slice())
        }
        Transition::LeftOut(number) => {
            let number = number as usize;
            number < forbidden.len() && ends_so(label, mv, forbidden[number].string.as_slice())
        }
    }
}

/// The table of steps.
pub(crate) fn table_of(alloc: Global, steps: &[Transition]) -> Result<Vec<u32>, AllocError>
    ensures { IfOk result (λ table. table.items ≡ map number_of steps.now) }
{
    let mut table = Vec::with_capacity(alloc, steps.len())?;
    for step in steps {
        table.push(match *step {
            Transition::To(state) => state,
            Transition::LeftOut(_) => LEFT_OUT,
        })?;
    }
    Ok(table)
}

/// The move of a place in the table.
fn move_at(place: usize) -> Move
    ensures { result ≡ move_of_rank (place % 4) }
{
    match place % 4 {
        0 => Move::Up,
        1 => Move::Down,
        2 => Move::Left,
        _ => Move::Right,
    }
}

/// Whether a label and one more move end with a string.
fn ends_so(label: &[Move], mv: Move, string: &[Move]) -> bool
    ensures { IsTrue result ↔ EndsWith (label.now ++ mv ∷ []) string.now }
{
    match string.split_last() {
        Some((last, front)) => rank_of_move(*last) == rank_of_move(mv) && ends_with(label, front),
        None => true,
    }
}

/// Whether moves end with a string.
fn ends_with(moves: &[Move], string: &[Move]) -> bool
    ensures { IsTrue result ↔ EndsWith moves.now string.now }
{
    if moves.len() < string.len() {
        return false;
    }
    let start = moves.len() - string.len();
    for (i, mv) in string.iter().enumerate() {
        if rank_of_move(moves[start + i]) != rank_of_move(*mv) {
            return false;
        }
    }
    true
}

//! The states of an automaton that finds strings (Aho and Corasick 1975): the proper beginnings of the forbidden strings.

use crate::strings::{Child, EMPTY, LONGEST, Strings, number_of};
use move_strings::{Transition, rank_of_move};
use puz_board::{MOVES, Move};
use std::alloc::{AllocError, Global};

/// The states. The empty string has the first.
#[derive(Drop)]
pub(crate) struct States {
    /// The string of each state, in order.
    strings: Vec<u32>,
    /// For each string its state, if it has one.
    states: Vec<Option<u32>>,
}

impl States {
    /// The states for strings that are found.
    pub(crate) fn new(alloc: Global, strings: &Strings) -> Result<States, AllocError> {
        let begins = begins_of(alloc, strings)?;
        let mut states = States {
            strings: Vec::new(alloc),
            states: Vec::with_capacity(alloc, begins.len())?,
        };
        for (string, begins) in begins.as_slice().iter().enumerate() {
            if *begins {
                let state = number_of(states.strings.len())?;
                states.states.push(Some(state))?;
                states.strings.push(number_of(string)?)?;
            } else {
                states.states.push(None)?;
            }
        }
        Ok(states)
    }

    /// The moves of each state's string.
    pub(crate) fn labels(
        &self,
        alloc: Global,
        strings: &Strings,
    ) -> Result<Vec<Vec<Move>>, AllocError> {
        let mut labels = Vec::with_capacity(alloc, self.strings.len())?;
        for string in self.strings.as_slice() {
            labels.push(strings.moves_of(alloc, *string)?)?;
        }
        Ok(labels)
    }

    /// The steps of each state.
    pub(crate) fn steps(
        &self,
        alloc: Global,
        strings: &Strings,
    ) -> Result<Vec<Transition>, AllocError> {
        let mut steps = Vec::new(alloc);
        for string in self.strings.as_slice() {
            self.push_steps(strings, *string, &mut steps)?;
        }
        Ok(steps)
    }

    /// Adds the steps of a string's state.
    fn push_steps(
        &self,
        strings: &Strings,
        string: u32,
        steps: &mut Vec<Transition>,
    ) -> Result<(), AllocError> {
        let failure = self.failure(strings, string);
        for mv in MOVES.iter() {
            let step = match strings.child(string, *mv) {
                Child::Forbidden(number) => Transition::LeftOut(number),
                Child::Kept(child) => match self.state(child) {
                    Some(state) => Transition::To(state),
                    None => step_of(steps.as_slice(), failure, *mv),
                },
                Child::LeftOut => step_of(steps.as_slice(), failure, *mv),
            };
            steps.push(step)?;
        }
        Ok(())
    }

    /// The state of the longest proper end of a string that has one.
    fn failure(&self, strings: &Strings, string: u32) -> Option<u32> {
        let mut end = string;
        for _ in 0..LONGEST {
            if end == EMPTY {
                return None;
            }
            end = strings.tail(end);
            if let Some(state) = self.state(end) {
                return Some(state);
            }
        }
        None
    }

    /// The state of a string.
    fn state(&self, string: u32) -> Option<u32> {
        self.states.get(string as usize).copied().flatten()
    }
}

/// The step of a move from a state with known steps; the first state where there is no state.
fn step_of(steps: &[Transition], state: Option<u32>, mv: Move) -> Transition {
    let Some(state) = state else {
        return Transition::To(0);
    };
    let place = (state as usize)
        .saturating_mul(4)
        .saturating_add(usize::from(rank_of_move(mv)));
    steps.get(place).copied().unwrap_or(Transition::To(0))
}

/// Whether each string is a proper beginning of a forbidden one. The empty one is told to be.
fn begins_of(alloc: Global, strings: &Strings) -> Result<Vec<bool>, AllocError> {
    let mut begins = vec![in alloc; false; strings.count()]?;
    if let Some(first) = begins.first_mut() {
        *first = true;
    }
    for found in strings.found.as_slice() {
        mark(strings, found.front, begins.as_mut_slice());
    }
    Ok(begins)
}

/// Marks a string and its beginnings, up to one that is marked.
fn mark(strings: &Strings, string: u32, begins: &mut [bool]) {
    let mut at = string;
    for _ in 0..LONGEST {
        let Some(is_marked) = begins.get_mut(at as usize) else {
            return;
        };
        if *is_marked {
            return;
        }
        *is_marked = true;
        at = strings.front(at);
    }
}

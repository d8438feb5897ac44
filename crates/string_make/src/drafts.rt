//! Drafts of automata.

use crate::searches::find;
use crate::states::States;
use crate::strings::{FoundString, LONGEST, Strings};
use move_strings::{Draft, Forbidden};
use std::alloc::{AllocError, Global};

/// A draft of the automaton that leaves out moves that complete a forbidden string of up to so many moves, 14 at most.
///
/// A string of moves is forbidden here if one that is shorter, or as long and earlier in the order U D L R, has the same effect
/// and stays in the same box of rows and columns (Taylor and Korf 1993). The automaton is that of Aho and Corasick (1975).
///
/// Nobody need trust the draft, and no clause speaks of it: `Automaton::check` decides.
pub fn draft_of(alloc: Global, longest: u8) -> Result<Draft, AllocError> {
    let strings = find(alloc, longest.min(LONGEST))?;
    let states = States::new(alloc, &strings)?;
    Ok(Draft {
        forbidden: forbidden_of(alloc, &strings)?,
        labels: states.labels(alloc, &strings)?,
        steps: states.steps(alloc, &strings)?,
    })
}

/// The forbidden strings that are found, with their witnesses.
fn forbidden_of(alloc: Global, strings: &Strings) -> Result<Vec<Forbidden>, AllocError> {
    let mut forbidden = Vec::new(alloc);
    for found in strings.found.as_slice() {
        forbidden.push(forbidden_as(alloc, strings, found)?)?;
    }
    Ok(forbidden)
}

/// A forbidden string with its witness.
fn forbidden_as(
    alloc: Global,
    strings: &Strings,
    found: &FoundString,
) -> Result<Forbidden, AllocError> {
    let mut string = strings.moves_of(alloc, found.front)?;
    string.push(found.last)?;
    let witness = strings.moves_of(alloc, found.witness)?;
    Ok(Forbidden { string, witness })
}

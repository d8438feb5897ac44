//! Strings of moves, and which of them no search need try (Taylor and Korf 1993).
#![tactic(auto)]

mod automata;
mod bound_parts;
mod drafts;
mod effects;
mod forbidden_strings;
pub mod laws;
mod order;

pub use automata::Automaton;
pub use bound_parts::{BoundPart, MOST_PARTS};
pub use drafts::{Draft, Transition};
pub use forbidden_strings::{Forbidden, are_forbidden};
pub use order::rank_of_move;

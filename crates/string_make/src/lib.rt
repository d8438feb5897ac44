//! The maker of drafts of automata. Nothing here is trusted: what it makes is for the checker.
#![tactic(auto)]

mod drafts;
mod effects;
mod grids;
mod indices;
mod searches;
mod states;
mod strings;

pub use drafts::draft_of;

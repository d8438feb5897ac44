//! Sums of disjoint additive pattern databases (Korf and Felner 2002): an admissible heuristic, as each sum is a lower bound of
//! the solutions of a board.
//!
//! Nothing here takes memory.
#![tactic(auto)]

mod bundles;
mod cells;
mod faults;
mod known;
pub mod laws;
mod lines;
mod members;
mod owners;
mod parts;
mod patterns;
mod positions;
mod set_texts;
mod sums;
mod tables;

pub use bundles::{Bundle, MOST_MEMBERS, MOST_SETS, MOST_TABLES};
pub use faults::SetFault;
pub use known::PositionStep;
pub use members::Member;
pub use parts::Part;
pub use patterns::one_side;
pub use positions::Position;
pub use set_texts::{SetText, text_fault};
pub use sums::Sums;

//! Depth-first searches that refute, with no log, that a board has a solution of fewer moves than a bound: IDA* (Korf 1985),
//! with moves pruned by a finite automaton (Taylor and Korf 1993).
#![tactic(auto)]

mod answers;
mod deepening;
mod efforts;
mod frontiers;
mod guides;
pub mod laws;
mod nodes;
mod outcomes;
mod part_walks;
mod prefixes;
mod refuting;
mod refuting_alone;
mod searches;
mod sharing;
mod thresholds;
mod walks;

pub use answers::{Letters, SearchAnswer};
pub use deepening::{Deepened, shortest, shortest_alone};
pub use guides::{Guide, Sets};
pub use refuting::{PartBound, refute, refute_alone};
pub use thresholds::{refute_by_thresholds, refute_by_thresholds_alone};

//! Where the blank is at home, in the first cell or in the last, and the half turn that makes the one of the other.
//!
//! Nothing here takes memory.
#![tactic(auto)]

mod goals;
pub mod laws;
mod letters;
mod replays;
mod turning;

pub use goals::Goal;
pub use replays::replay_for;

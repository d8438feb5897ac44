//! Boards that are moved in place, and cut off below a bound.
//!
//! Nothing here takes memory.
#![tactic(auto)]

mod cuts;
mod outlines;
mod owners;
mod pasts;
mod seats;
mod set_walks;
mod starts;
mod sum_walks;
mod tallies;
mod walks;
mod ways;
mod word_bundles;
mod word_spots;
mod word_walks;

pub use outlines::Outline;
pub use set_walks::SetWalk;
pub use starts::Start;
pub use sum_walks::{SumStep, SumWalk};
pub use walks::Walk;
pub use word_bundles::WordBundle;
pub use word_walks::{WordStep, WordWalk};

//! The command `prove`: bounds and optima by a proved search, without a log.
#![tactic(auto)]

mod answers;
mod asked;
mod batches;
mod help;
pub mod laws;
mod mistakes;
mod mistakes_behind;
mod runs;
mod words;
mod words_of_lines;

pub use answers::Finding;
pub use runs::run_prove;

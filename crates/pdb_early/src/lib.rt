//! What the starts of files tell of a run before it begins: refusals that are sure to stand.
#![tactic(auto)]

mod fronts;
mod headers;
mod inputs;
mod logs;
mod looks;
mod sets;

pub use inputs::KeptStart;
pub use looks::{Look, fault_ahead, file_may_be_last, input_may_be_last, takes_long};

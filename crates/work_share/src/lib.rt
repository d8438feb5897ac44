//! Workers that share the jobs of a task, and hand back what each job gives.
#![tactic(auto)]

mod draws;
mod places;
mod shares;
mod tasks;

pub use shares::share;
pub use tasks::Task;

//! The commands that check: whole runs of `replay`, of `table`, and of `bound` and `optimal`.
#![tactic(auto)]

mod log_checks;
mod replay;
mod table;

pub use log_checks::run_log_check;
pub use replay::run_replay;
pub use table::run_table;

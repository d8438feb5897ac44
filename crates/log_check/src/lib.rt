//! Lower bounds that a stranger's log proves: lemmas, the trees that refute shorter solutions, and logs checked whole.
#![tactic(auto)]

mod faults;
mod jobs;
pub mod laws;
mod lemmas;
mod logs;
mod nodes;
mod order;
mod walks;

pub use faults::{LogFault, LogRefusal};
pub use lemmas::check_lemma;
pub use logs::{check_log, check_log_by};

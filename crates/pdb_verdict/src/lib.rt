//! Verdicts on claimed solutions, pattern databases and lower bounds, and the lines that tell them: pure checks, bytes in and a
//! verdict out, and what all runs over tables share.
#![tactic(auto)]

mod bundles;
mod checks;
mod claims;
mod goals;
mod inputs;
mod known;
mod laws;
mod limits;
mod lines;
mod replay;
mod reports;
mod table;
mod tables;
mod verdicts;

pub use checks::verify;
pub use claims::{BegunClaim, SaidMoves, answer_over, begin_claim, optimum_over};
pub use goals::{is_solvable_last, is_solvable_last_alone};
pub use inputs::Inputs;
pub use known::known_table;
pub use laws::{
    inputs_have_a_result, inputs_have_one_result, results_are_true_verdicts,
    tables_told_no_are_not_exact, told_yeses_are_true, true_verdicts_hold_of_solutions,
};
pub use limits::{a_log, a_table, a_text, with_tables};
pub use lines::line_of;
pub use replay::verify_puzzle;
pub use reports::{
    digests, line, report, settled, told, told_for, told_or_memory, told_or_memory_for,
};
pub use table::verify_table;
pub use tables::{TableFiles, given_up, over_tables};
pub use verdicts::{Fault, Verdict};

//! What makers make, kept once it is checked: tables of patterns, and shortest solutions with the logs that prove them
//! shortest.
#![tactic(auto)]

mod laws;
mod made;
mod make_table;
mod other_boards;
mod search_inputs;
mod searches_alone;
mod shortest;
mod solutions;
mod solve;
mod spared;

pub use laws::{kept_logs_prove_optima, kept_tables_are_exact, told_moves_solve};
pub use make_table::run_make_table;
pub use solve::run_solve;

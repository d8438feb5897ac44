//! Makers of logs and of tables, and which boards are out of reach of logs. No log or table is trusted: they are for the checkers.
#![tactic(auto)]

mod board_table;
mod cells;
mod cuts;
mod keys;
mod leaves;
mod lemmas;
mod limits;
mod log_bytes;
mod logs;
mod positions;
mod reach;
mod refuting;
mod repeats;
mod sharing;
mod trees;
mod walks;
mod writing;

pub use limits::Limits;
pub use logs::{log_of, log_within};
pub use reach::is_out_of_reach;
pub use tab_make::{MakeFault, TableDraft, build, draft, entry_of, layer};

//! The words of the command line, and what they ask for.
#![tactic(auto)]

mod budget;
mod command_line;
mod faults;
mod files;
mod fold;
mod goal;
mod log_checks;
mod make_table;
mod masks;
mod numbers;
mod parts;
mod prove;
mod replace;
mod replay;
mod rows;
mod solve;
mod table;
mod workers;

pub use command_line::read_words;
pub use faults::{WordFault, unreadable_word, version_line};

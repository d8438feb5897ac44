//! The command `parts`: a bound, where lines say that each of its parts holds; moves that show it to be false; or the parts that are
//! still open.
#![tactic(auto)]

mod answers;
mod beside;
mod first;
mod joining;
pub mod laws;
mod marks;
mod noting;
mod runs;
mod whole_lines;

pub use runs::run_parts;

//! Runs: the placements of a table that differ in the last tile alone, and the least entries near all of them at once.
#![tactic(auto)]

mod beside;
mod blocks;
mod checks;
mod kernels;
mod masks;
mod near;
mod rows;
mod runs;
mod set_rows;

pub use blocks::{MissingRow, check_runs};
pub use rows::{KeptSet, RowTable};

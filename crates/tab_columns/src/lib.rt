//! The check of a block of a table by columns: a byte or a mask for each slot of all its placements, side by side.
#![tactic(auto)]

mod blocks;
mod columns;
mod floods;
mod limits;
mod neighbours;

pub use blocks::check_block;
pub use limits::passes;

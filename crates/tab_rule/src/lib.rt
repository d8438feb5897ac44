//! What tables of a pattern database mean: each entry is the least number of moves of the pattern's tiles that bring them
//! home, exactly where each keeps a rule on its neighbours.
#![tactic(auto)]

mod blocks;
mod census;
mod entries;
mod folded;
pub mod laws;
mod tables;

pub use blocks::{BLOCK_RANKS, block_count};
pub use census::Census;
pub use entries::goal_number;
pub use folded::{FoldedTable, fold};
pub use tables::{CheckedTable, Count, TableFault, TableRefusal};

//! Kernels over columns of bytes and of masks, by lanes. Each answers what its plain definition gives, at every length.
//!
//! Nothing here takes memory.
#![tactic(auto)]

mod columns;
mod floods;
mod local_rule;

pub use columns::min_into;
pub use floods::{flood, flood_step};
pub use local_rule::first_bad;
pub use tab_file::{count_eq, greatest_count};

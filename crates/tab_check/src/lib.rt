//! Pattern databases: whether each entry is the least number of moves of the pattern's tiles that bring them home.
#![tactic(auto)]

mod jobs;
mod tables;

pub use tab_columns::check_block;
pub use tab_rule::{
    BLOCK_RANKS, Census, CheckedTable, Count, FoldedTable, TableFault, TableRefusal, block_count,
    fold,
};
pub use tables::{check_table, check_table_by};

//! What holds of all words of the command line: which words ask for what, and which are mistakes. Each function here says
//! such a law, and does nothing.
#![tactic(auto)]

mod laws;
mod maker_laws;
mod parts_laws;
mod prove_laws;

pub use laws::{
    no_other_words_parse, what_bound_asks, what_optimal_asks, what_replay_asks, what_table_asks,
};
pub use maker_laws::{what_make_table_asks, what_solve_asks, what_tiles_write};
pub use parts_laws::what_parts_asks;
pub use prove_laws::what_prove_asks;

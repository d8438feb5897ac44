//! Laws of shortest solutions, ranks, exact tables and logs. A function of this crate that has no body says what holds of all of them.
#![tactic(auto)]

mod laws;
mod ranks;

pub use laws::{
    folded_logs_are_good_unfolded, kept_logs_are_taken, patterns_have_one_exact_file,
    shortest_solutions_take_nothing_back,
};
pub use ranks::{rank_of_unranked, unrank_ranked};

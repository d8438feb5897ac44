//! The book of jobs on two atomic words: many threads draw its jobs, each once, and the least reported place is kept.
#![tactic(auto)]

mod books;
mod laws;
mod passes;
mod rules;
mod views;

pub use books::Book;
pub use laws::shown_law;
pub use passes::Pass;

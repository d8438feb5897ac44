//! Log files: claimed lower bounds of boards, each with the bytes of a tree that is to prove it.
//!
//! What the trees prove isn't looked at here.
#![tactic(auto)]

mod checks;
mod faults;
mod fronts;
mod headers;
pub mod laws;
pub mod tree_bytes;
mod views;

pub use faults::{FormFault, ViewFault};
pub use fronts::BOUND_AND_LENGTH;
pub use headers::{HEADER_LEN, MOST_BYTES, MOST_LEMMAS, NEWEST_VERSION, SIGNATURE};
pub use views::{LemmaView, LogView};

//! The maker of tables. Nothing here is trusted: what it makes is for the checker.
#![tactic(auto)]

mod counts;
mod entries;
mod faults;
mod grids;
mod hosts;
mod layers;
mod sets;
mod shapes;
mod steps;
mod tables;
mod turns;
mod walks;

pub use entries::entry_of;
pub use faults::MakeFault;
pub use layers::layer;
pub use tables::{TableDraft, build, draft};

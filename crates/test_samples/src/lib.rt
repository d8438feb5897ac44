//! What tests begin with: boards, tables, logs, gates, and streams, a shelf and files that fail at the calls that they are told.
#![tactic(auto)]

pub mod boards;
pub mod files;
mod gates;
pub mod logs;
mod search;
mod shelves;
mod streams;
mod systems;

pub use gates::{HoldingGate, Log};
pub use search::LeastCosts;
pub use shelves::{FailingShelf, ShelfFault};
pub use streams::{EndlessReader, Failing, SampleReader, SampleWriter};
pub use systems::{Call, OpenSample, SampleFiles};

//! The program, over what the system gave it: words, streams and a shelf.
#![tactic(auto)]

mod arguments;
mod hosts;
mod in_memory;
pub mod laws;
mod programs;
mod refusals;
mod starts;

pub use arguments::ReadArguments;
pub use hosts::{ArgumentFault, ProgramCall, RunHost};
pub use in_memory::{MemoryRun, run_in_memory};
pub use programs::run;
pub use starts::start;

//! A book of jobs as a machine: which pass drew which job, what was reported, and the law that holds after every list of events.
#![tactic(auto)]

mod cores;
mod events;
mod laws;
mod passes;

pub use cores::{Core, MOST_WORKERS, Memory};
pub use events::{Answer, CoreFault, Event};
pub use laws::{book_law, share_law};
pub use passes::Deeds;

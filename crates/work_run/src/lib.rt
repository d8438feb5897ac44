//! Workers that share the jobs of a book: whatever the schedule, the answer is the least bad place of all jobs.
#![tactic(auto)]

mod gates;
mod jobs;
pub mod laws;
mod promises;
mod runs;
mod worker;
mod workers;

pub use gates::{Gate, OpenGate};
pub use jobs::Job;
pub use runs::{run_jobs, run_jobs_by};
pub use worker::work;
pub use workers::Workers;

//! Bytes in and bytes out: streams, and shelves of named bytes.
#![tactic(auto)]

pub mod disk;
pub mod memory;
pub mod shelf;
pub mod sinks;
pub mod sources;
pub mod streams;
pub mod watched;

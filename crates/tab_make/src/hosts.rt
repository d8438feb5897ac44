//! What a table is made with.

use std::alloc::Global;

/// What a table is made with: what starts threads, memory, and the gate that is told how far the table is made.
#[derive(Drop)]
pub(crate) struct Host<'h, R, G> {
    pub(crate) rt: &'h R,
    pub(crate) alloc: Global,
    pub(crate) gate: &'h G,
}

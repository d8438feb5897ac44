//! What a run has of its host: what starts threads, memory, the gate that workers pass, and its arguments.

ghost use Rattle.std.specs.Prelude.{◌≡◌};
ghost use Rattle.work_run.specs.Workers.{AreWorkers};

use crate::arguments::ReadArguments;
use std::alloc::Global;
use work_run::Workers;

/// What a run has of its host.
#[derive(Drop)]
pub struct RunHost<'h, H, G> {
    /// What starts threads.
    pub rt: &'h H,
    /// Memory.
    pub alloc: Global,
    /// The gate that each worker passes before a block.
    pub gate: &'h G,
}

impl<'h, H, G> RunHost<'h, H, G> {
    /// So many workers.
    pub(crate) fn workers(&self, count: u8) -> Workers<'h, H, G>
        requires { AreWorkers count }
        ensures { result ≡ count }
    {
        Workers::new(self.rt, self.alloc, count, self.gate)
    }
}

/// Why there are no arguments.
#[derive(Clone, Copy, Debug, Drop)]
pub enum ArgumentFault {
    /// Memory was refused.
    Memory,
    /// The argument with this index is no UTF-8 text.
    Unreadable(usize),
}

/// How the program is called: its host, and its arguments.
#[derive(Drop)]
pub struct ProgramCall<'c, 'n, 'h, H, G> {
    pub host: RunHost<'h, H, G>,
    pub arguments: Result<&'c ReadArguments<'n>, ArgumentFault>,
}

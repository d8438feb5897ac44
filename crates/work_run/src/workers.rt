//! Who runs the jobs of a check.

ghost use Rattle.std.specs.Prelude.{◌≡◌, ℕ};
ghost use Rattle.work_run.specs.Workers.{AreWorkers};

use std::alloc::Global;
use std::marker::Model;

/// Workers: what starts their threads, the memory that they and their caller take, how many they are, from 1 to 64, and the gate
/// that each passes before a job.
#[derive(Drop)]
pub struct Workers<'a, R, G> {
    /// What starts their threads.
    pub rt: &'a R,
    /// Memory.
    pub alloc: Global,
    /// How many they are: 1 to 64.
    pub count: u8,
    /// The gate that each passes before a job.
    pub gate: &'a G,
}

impl<'a, R, G> Model for Workers<'a, R, G> {
    ghost Value = { ℕ };

    ghost view = { λ workers. workers.count };

    ghost invariant = { λ workers. AreWorkers workers.count };
}

impl<'a, R, G> Workers<'a, R, G> {
    /// So many workers.
    pub fn new(rt: &'a R, alloc: Global, count: u8, gate: &'a G) -> Workers<'a, R, G>
        requires { AreWorkers count }
        ensures { result ≡ count }
    {
        Workers {
            rt,
            alloc,
            count,
            gate,
        }
    }
}

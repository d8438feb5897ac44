//! Work in jobs, each of which gives an outcome.

/// Work that is cut into jobs, which may be run in any order.
pub trait Task {
    ghost use Rattle.std.specs.Prelude.{◌≡◌, ℕ, ◌<◌};

    /// What a job gives.
    type Outcome: Send + Drop;

    // How many jobs there are.
    ghost jobs: { Self → ℕ };

    // What a job may give.
    ghost gives: { Self → ℕ → Self.Outcome → Type 0 };

    /// How many jobs there are.
    fn count(&self) -> usize
        ensures { result ≡ jobs self.now };

    /// Runs a job.
    fn run(&self, job: usize) -> Self::Outcome
        requires { job < jobs self.now }
        ensures { gives self.now job result };
}

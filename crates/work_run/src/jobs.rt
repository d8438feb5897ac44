//! Work in jobs, each with a range of places, some of which may be bad.

/// A check of places 0 up to 2^32 at most, cut into jobs that may be run in any order.
pub trait Job {
    ghost use Rattle.std.specs.Prelude.{◌≡◌, ℕ, ◌+◌, ◌<◌, ◌≤◌, ◌^◌};
    ghost use Rattle.work_run.specs.Faults.{IsLeastBad};

    // How many jobs there are.
    ghost jobs: { Self → ℕ };

    // Where the places of a job begin. Those of the job before end there.
    ghost begins: { Self → ℕ → ℕ };

    // Which places are bad.
    ghost bad: { Self → ℕ → Type 0 };

    /// How many jobs there are, at most 2^32.
    fn count(&self) -> u64
        ensures { result ≡ jobs self.now };

    /// The first place of a job, and past the last job the end of all places.
    fn first(&self, job: u64) -> u64
        requires { job ≤ jobs self.now }
        ensures { result ≡ begins self.now job };

    /// The least bad place of a job, or none where all its places are good.
    fn run(&self, job: u64) -> Option<u64>
        requires { job < jobs self.now }
        ensures { IsLeastBad (bad self.now)
            (begins self.now job) (begins self.now (job + 1)) result };

    ghost few: { (x : Self) → jobs x ≤ 2 ^ 32 };

    ghost from_zero: { (x : Self) → begins x 0 ≡ 0 };

    ghost rises: { (x : Self) (job : ℕ) → job < jobs x → begins x job ≤ begins x (job + 1) };

    ghost small: { (x : Self) → begins x (jobs x) ≤ 2 ^ 32 };
}

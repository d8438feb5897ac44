//! What a worker passes before each job that it runs.

/// A place where workers are watched, or held for a while.
pub trait Gate {
    /// Is called once by `run_jobs` or `run_jobs_by`, before any worker starts, with the number of jobs, and returns.
    ///
    /// So a gate can tell what share of the jobs was run. It does nothing unless an implementation says otherwise.
    fn begins(&self, _jobs: u64) {}

    /// Is called once before each job that is run, by the worker that runs it, and returns.
    fn before(&self, job: u64);

    /// Is called before a claim is answered, with the claim's number from 0, and returns. It does nothing unless an
    /// implementation says otherwise.
    fn asks(&self, _claim: u64) {}

    /// Is called before a board is searched for a solution of fewer moves than a bound, and returns. It does nothing unless an
    /// implementation says otherwise.
    fn searches(&self, _bound: u8) {}

    /// Is called now and then by a worker that searches, with the number of boards that it has expanded since its last call, and
    /// returns. It does nothing unless an implementation says otherwise.
    fn expanded(&self, _boards: u64) {}

    /// Is called by the maker of a table each time that it has found all counts up to so many moves, with how many these are and
    /// how many it looks for, and returns. It does nothing unless an implementation says otherwise.
    fn found(&self, _moves: u8, _counts: u64, _all: u64) {}

    /// Is called now and then by a thread that fills in a table, with the number of entries that it has filled in since its last
    /// call and the number of all entries, and returns. It does nothing unless an implementation says otherwise.
    fn filled(&self, _entries: u64, _all: u64) {}
}

/// Holds nobody.
#[derive(Drop)]
pub struct OpenGate;

impl Gate for OpenGate {
    fn before(&self, _job: u64) {}
}

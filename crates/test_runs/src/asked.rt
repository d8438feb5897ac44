//! What runs are asked for, for tests.

use pdb_request::{LogCheck, LogClaim, Request, Solve};
use puz_goal::Goal;
use std::alloc::{AllocError, Global};

/// A claim on a log over these tables.
pub(crate) fn log_check<'a>(
    alloc: Global,
    claim: LogClaim,
    tables: &[&'a str],
) -> Result<Request<'a>, AllocError> {
    Ok(Request::LogCheck(LogCheck {
        claim,
        text: "board",
        sets: "sets",
        log: "log",
        tables: tables.to_vec(alloc)?,
        workers: 1,
        fold: false,
        goal: Goal::First,
    }))
}

/// A bound of a board, over these tables.
pub(crate) fn bound<'a>(alloc: Global, tables: &[&'a str]) -> Result<Request<'a>, AllocError> {
    log_check(alloc, LogClaim::Bound, tables)
}

/// A search over the table `t0`.
pub(crate) fn search<'a>(alloc: Global) -> Result<Request<'a>, AllocError> {
    Ok(Request::Solve(Solve {
        board: "board",
        sets: "sets",
        out: "out",
        replace: false,
        tables: vec![in alloc; "t0"]?,
        workers: 1,
        fold: false,
        goal: Goal::First,
        budget: 1,
    }))
}

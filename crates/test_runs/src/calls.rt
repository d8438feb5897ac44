//! Calls of the system, for tests.

use crate::same::same;
use std::alloc::AllocError;
use std::process::Abort;
use test_samples::{Call, SampleFiles};

/// Ends the test where the calls of a system were not just these.
pub fn expect_calls<R: Abort>(
    rt: &R,
    files: &SampleFiles,
    calls: &[Call],
) -> Result<(), AllocError> {
    let found = files.calls()?;
    same(rt, &found.as_slice(), &calls);
    Ok(())
}

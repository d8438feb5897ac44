//! What ends a test where a value is not the one that is wanted. It is a function, and so is proved once.

use std::fmt::Debug;
use std::process::Abort;

/// Ends the test where what was found is not what was wanted, and shows both.
pub(crate) fn same<R: Abort, T: PartialEq + Debug>(rt: &R, found: &T, wanted: &T) {
    assert_eq!(rt; *found, *wanted);
}

/// Does so in one of several cases, and shows the case too.
pub(crate) fn same_for<R: Abort, T: PartialEq + Debug, C: Debug>(
    rt: &R,
    found: &T,
    wanted: &T,
    case: &C,
) {
    assert_eq!(rt; *found, *wanted, "{case:?}");
}

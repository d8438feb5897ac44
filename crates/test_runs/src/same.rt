//! What every test compares by: one function, so that a test is proved sooner than with a comparison in its own body.

use std::fmt::Debug;
use std::process::Abort;

/// Ends the test where what was found is not what was wanted, and shows both.
pub(crate) fn same<R: Abort, T: PartialEq + Debug>(rt: &R, found: &T, wanted: &T) {
    assert_eq!(rt; *found, *wanted);
}

/// Ends the test where what was found in some case is not what was wanted, and shows both and the case.
pub(crate) fn same_for<R: Abort, T: PartialEq + Debug, C: Debug>(
    rt: &R,
    found: &T,
    wanted: &T,
    case: &C,
) {
    assert_eq!(rt; *found, *wanted, "{case:?}");
}

/// The same of texts.
pub(crate) fn same_text<R: Abort>(rt: &R, found: &str, wanted: &str) {
    same(rt, &found, &wanted);
}

/// The same of bytes.
pub(crate) fn same_bytes<R: Abort>(rt: &R, found: &[u8], wanted: &[u8]) {
    same(rt, &found, &wanted);
}

/// Whether what was found is what was wanted.
pub(crate) fn equal<T: PartialEq>(found: &T, wanted: &T) -> bool {
    *found == *wanted
}

/// Ends the test where a fact does not hold in some case, and shows the case.
pub(crate) fn holds_for<R: Abort, C: Debug>(rt: &R, fact: bool, case: &C) {
    assert!(rt; fact, "{case:?}");
}

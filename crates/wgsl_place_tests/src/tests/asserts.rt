//! Assertions that take what they compare: one that is written out in a test makes its proof longer than a call does.

use std::fmt::Debug;
use std::process::Abort;

/// Asserts that the values are equal.
pub(super) fn assert_same<T: PartialEq + Debug + Drop>(rt: &impl Abort, value: T, wanted: T) {
    assert_eq!(rt; value, wanted);
}

/// Asserts that it is so.
pub(super) fn assert_that(rt: &impl Abort, is_so: bool) {
    assert!(rt; is_so);
}

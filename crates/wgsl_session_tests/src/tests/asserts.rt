//! Assertions that take what they compare: where a value is let go in a test itself, how it is dropped is
//! spelled out in the proof of that test.

use std::fmt::Debug;
use std::process::Abort;

/// Asserts that the values are equal.
pub(super) fn assert_same<T: PartialEq + Debug + Drop>(rt: &impl Abort, value: T, wanted: T) {
    assert_eq!(rt; value, wanted);
}

/// Asserts that the value is the wanted one.
pub(super) fn assert_is<T: PartialEq + Debug + Drop>(rt: &impl Abort, value: &T, wanted: T) {
    assert_eq!(rt; value, &wanted);
}

//! Assertions that take what they compare: where a value is let go in a test itself, how it is dropped is
//! spelled out in the proof of that test.

use std::alloc::Global;
use std::fmt::Debug;
use std::process::Abort;
use wgsl_values::Instance;

/// Asserts that the values are equal.
pub(super) fn assert_same<T: PartialEq + Debug + Drop>(rt: &impl Abort, value: T, wanted: T) {
    assert_eq!(rt; value, wanted);
}

/// Asserts the text of the value.
pub(super) fn assert_text(rt: &impl Abort, alloc: Global, value: &Instance, wanted: &str) {
    assert_eq!(rt; made!(rt; value.to_string(alloc)).as_str(), wanted);
}

//! Assertions that take what they compare: a test that drops none of it has a short proof.

use std::alloc::Global;
use std::fmt::{Debug, Display};
use std::process::Abort;

/// Asserts that the values are equal.
pub(super) fn assert_same<T: PartialEq + Debug + Drop>(rt: &impl Abort, value: T, wanted: T) {
    assert_eq!(rt; value, wanted);
}

/// Asserts that it is so.
pub(super) fn assert_that(rt: &impl Abort, is_so: bool) {
    assert!(rt; is_so);
}

/// Asserts that the answer is the wanted one.
pub(super) fn assert_gives<T: PartialEq + Debug + Drop, E: Debug + Drop>(
    rt: &impl Abort,
    answer: Result<T, E>,
    wanted: T,
) {
    assert_eq!(rt; answer.expect(rt, "an answer"), wanted);
}

/// Asserts that the copy equals the value, and neither equals the other.
pub(super) fn assert_copied<T: PartialEq + Debug + Drop, E: Debug + Drop>(
    rt: &impl Abort,
    copy: Result<T, E>,
    value: T,
    other: T,
) {
    let copy = copy.expect(rt, "a copy");
    assert_eq!(rt; copy, value);
    assert_ne!(rt; copy, other);
    assert_ne!(rt; value, other);
}

/// Asserts that the answer of the row is the wanted one.
pub(super) fn assert_row<T: PartialEq + Debug + Drop>(
    rt: &impl Abort,
    row: &str,
    answer: T,
    wanted: T,
) {
    assert_eq!(rt; answer, wanted, "{row}");
}

/// Asserts the text of the value.
pub(super) fn assert_text<T: Display>(rt: &impl Abort, alloc: Global, value: &T, wanted: &str) {
    let text = value.to_string(alloc).expect(rt, "memory");
    assert_eq!(rt; text.as_str(), wanted);
    drop(text);
}

/// Asserts that the value is the other one, which was made to compare them.
pub(super) fn assert_is<T: PartialEq + Debug + Drop>(rt: &impl Abort, value: &T, made: T) {
    assert_eq!(rt; value, &made);
}

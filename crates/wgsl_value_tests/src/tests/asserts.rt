//! Assertions that take what they compare: where a value is let go in a test itself, how it is dropped is
//! spelled out in the proof of that test.

use std::alloc::Global;
use std::fmt::{Debug, Display};
use std::process::Abort;
use wgsl_scalar::Error;

/// Asserts that the values are equal.
pub(super) fn assert_same<T: PartialEq + Debug + Drop>(rt: &impl Abort, value: T, wanted: T) {
    assert_eq!(rt; value, wanted);
}

/// Asserts that the answer is the wanted one.
pub(super) fn assert_gives<T: PartialEq + Debug + Drop, E: Debug + Drop>(
    rt: &impl Abort,
    answer: Result<T, E>,
    wanted: T,
) {
    assert_same(rt, answer.expect(rt, "an answer"), wanted);
}

/// Asserts that the answer is the wanted value.
pub(super) fn assert_some<T: PartialEq + Debug + Drop, E: Debug + Drop>(
    rt: &impl Abort,
    answer: Result<Option<T>, E>,
    wanted: &T,
) {
    let found = answer.expect(rt, "an answer");
    assert_same(rt, found.as_ref(), Some(wanted));
    drop(found);
}

/// Asserts that the answer is none.
pub(super) fn assert_none<T: Drop, E: Debug + Drop>(rt: &impl Abort, answer: Result<Option<T>, E>) {
    let found = answer.expect(rt, "an answer");
    assert!(rt; found.is_none());
    drop(found);
}

/// Asserts that the answer of the row is the wanted one.
pub(super) fn assert_row<T: PartialEq + Debug + Drop>(
    rt: &impl Abort,
    row: &str,
    answer: T,
    wanted: T,
) {
    assert_eq!(rt; answer, wanted, "{row}");
}

/// Asserts the text of the value.
pub(super) fn assert_text<T: Display>(rt: &impl Abort, alloc: Global, value: &T, wanted: &str) {
    let text = value.to_string(alloc).expect(rt, "memory");
    assert_same(rt, text.as_str(), wanted);
    drop(text);
}

/// Asserts that the value is the wanted one.
pub(super) fn assert_is<T: PartialEq + Debug + Drop>(rt: &impl Abort, value: &T, wanted: T) {
    assert_same(rt, value, &wanted);
    drop(wanted);
}

/// Asserts that the value is not the other one.
pub(super) fn assert_is_not<T: PartialEq + Drop>(rt: &impl Abort, value: &T, other: T) {
    assert!(rt; value != &other);
    drop(other);
}

/// Asserts that the part is there, and is the wanted one.
pub(super) fn assert_has<T: PartialEq + Debug + Drop>(
    rt: &impl Abort,
    part: Option<&T>,
    wanted: T,
) {
    assert_same(rt, part, Some(&wanted));
    drop(wanted);
}

/// Asserts that a call was refused with the error each time, but that one of the times want of memory may be told.
pub(super) fn assert_told(
    rt: &impl Abort,
    first: Option<Error>,
    second: Option<Error>,
    error: Error,
) {
    let wanted = Some(error);
    let memory = Some(Error::Memory);
    assert!(rt; first == wanted || first == memory);
    assert!(rt; second == wanted || second == memory);
    assert!(rt; first == wanted || second == wanted);
    drop((first, second, wanted, memory));
}

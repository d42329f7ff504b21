//! Assertions that take what they compare: where a value is let go in a test itself, how it is dropped is
//! spelled out in the proof of that test.

use std::fmt::Debug;
use std::process::Abort;

/// Asserts that the values are equal.
pub(super) fn assert_same<T: PartialEq + Debug + Drop>(rt: &impl Abort, value: T, wanted: T) {
    assert_eq!(rt; value, wanted);
}

/// Asserts that the answer is the wanted one.
pub(super) fn assert_gives<T: PartialEq + Debug + Drop, E: Debug + Drop>(
    rt: &impl Abort,
    answer: Result<T, E>,
    wanted: T,
) {
    assert_eq!(rt; answer.expect(rt, "an answer"), wanted);
}

/// Asserts that the answer is the wanted value.
pub(super) fn assert_some<T: PartialEq + Debug + Drop, E: Debug + Drop>(
    rt: &impl Abort,
    answer: Result<Option<T>, E>,
    wanted: &T,
) {
    assert_eq!(rt; answer.expect(rt, "an answer").as_ref(), Some(wanted));
}

/// Asserts that the value is the wanted one.
pub(super) fn assert_is<T: PartialEq + Debug + Drop>(rt: &impl Abort, value: &T, wanted: T) {
    assert_eq!(rt; value, &wanted);
}

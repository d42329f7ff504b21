//! Assertions that take what they compare: where a value is let go in a test itself, how it is dropped is
//! spelled out in the proof of that test.

use std::fmt::Debug;
use std::process::Abort;
use wgsl_scalar::Error;
use wgsl_session::Fault;

/// Whether the refusal is that of memory.
pub(super) fn is_of_memory(refusal: &Option<Error>) -> bool {
    matches!(refusal, Some(Error::Memory))
}

/// Whether the answer is that memory was wanting.
pub(super) fn wants_memory<T>(answer: &Result<T, Error>) -> bool {
    matches!(answer, Err(Error::Memory))
}

/// Whether the session's answer is that memory was wanting.
pub(super) fn is_memory<T>(answer: &Result<T, Fault>) -> bool {
    matches!(answer, Err(Fault::Of(Error::Memory)))
}

/// Asserts that the refusal is that of memory.
pub(super) fn assert_memory<E: Drop>(rt: &impl Abort, error: E)
where
    Error: From<E>,
{
    let error = Error::from(error);
    assert_eq!(rt; error.number(), 1);
    drop(error);
}

/// Asserts that the call is carried out, or wants memory.
pub(super) fn assert_made_or_memory<T: Drop>(rt: &impl Abort, answer: Result<T, Error>) {
    match answer {
        Ok(made) => drop(made),
        Err(error) => assert_memory(rt, error),
    }
}

/// Asserts that it is so.
pub(super) fn assert_that(rt: &impl Abort, is_so: bool) {
    assert!(rt; is_so);
}

/// Asserts the refusal of the call, or of the second where the first wanted memory and was made again.
pub(super) fn assert_refusal(
    rt: &impl Abort,
    first: Option<Error>,
    again: Option<Error>,
    wanted: &Error,
) {
    let refusal = again.or(first);
    assert_eq!(rt; refusal.as_ref(), Some(wanted));
    drop(refusal);
}

/// Asserts what the call is answered, or the second where the first wanted memory and was made again.
pub(super) fn assert_told<T: PartialEq + Debug + Drop>(
    rt: &impl Abort,
    first: T,
    again: Option<T>,
    wanted: T,
) {
    match again {
        Some(again) => {
            assert_same(rt, again, wanted);
            drop(first);
        }
        None => assert_same(rt, first, wanted),
    }
}

/// Asserts that the values are equal.
pub(super) fn assert_same<T: PartialEq + Debug + Drop>(rt: &impl Abort, value: T, wanted: T) {
    assert_eq!(rt; value, wanted);
}

/// Asserts that the answer is the wanted value, and no refusal.
pub(super) fn assert_gives<T: PartialEq + Debug + Drop, E: Debug + Drop>(
    rt: &impl Abort,
    answer: Result<T, E>,
    wanted: T,
) {
    assert_eq!(rt; answer.expect(rt, "an answer"), wanted);
}

/// Asserts that the value is the wanted one.
pub(super) fn assert_is<T: PartialEq + Debug + Drop>(rt: &impl Abort, value: T, wanted: &T) {
    assert_eq!(rt; &value, wanted);
}

/// Asserts that the answer is the wanted value, or that there is none.
pub(super) fn assert_answer<T: PartialEq + Debug + Drop>(
    rt: &impl Abort,
    answer: Option<T>,
    wanted: Option<&T>,
) {
    assert_eq!(rt; answer.as_ref(), wanted);
}

/// Asserts that the part is there, and is the wanted one.
pub(super) fn assert_has<T: PartialEq + Debug + Drop>(
    rt: &impl Abort,
    part: Option<&T>,
    wanted: T,
) {
    assert_eq!(rt; part, Some(&wanted));
}

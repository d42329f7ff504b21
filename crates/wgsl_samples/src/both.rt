//! Answers of which both are wanted.

use std::alloc::AllocError;

/// What both answers have; an error where one of them is that.
pub(crate) fn both<T: Drop, U: Drop>(
    first: Result<T, AllocError>,
    second: Result<U, AllocError>,
) -> Result<(T, U), AllocError> {
    Ok((first?, second?))
}

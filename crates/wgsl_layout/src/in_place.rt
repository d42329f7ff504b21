//! What copies into cells of bytes come to (WGSL: assignment statement; internal layout of values).

/// What a copy of a part over another came to, where bytes are copied and no value is made, as
/// [`crate::FlatCell::copy_within`] and [`crate::FlatCell::copy_from`] do.
#[derive(Clone, Copy, Debug, PartialEq, Eq)]
pub enum InPlace {
    /// The bytes are copied.
    Done,
    /// Both parts stand in cells of bytes, and the one does not fit the place of the other: it is of another type, or
    /// has another number of elements in a runtime-sized array. Nothing is changed.
    Misfit,
    /// One of the parts stands in a cell that is no bytes. Nothing is changed. Where there are cells of other kinds
    /// besides, this is their answer; a [`crate::FlatCell`] never gives it.
    NotBytes,
}

/// What a write of the value that bytes lay out came to, where only numbers are copied and no value is made, as
/// [`crate::FlatCell::put_bytes`] does. What refuses it is asked in the order of the cases here, but for `NotBytes`,
/// which is asked first.
#[derive(Clone, Copy, Debug, PartialEq, Eq)]
pub enum BytesWrite {
    /// The numbers are copied.
    Done,
    /// The bytes lay out no value of the type: they are too few. Nothing is changed.
    NoValue,
    /// The access of the reference may not write. Nothing is changed.
    NotWrite,
    /// The value does not fit the place: it has another number of elements in a runtime-sized array. Nothing is
    /// changed.
    Misfit,
    /// The place stands in a cell that is no bytes. Nothing is changed. Where there are cells of other kinds besides,
    /// this is their answer; a [`crate::FlatCell`] never gives it.
    NotBytes,
}

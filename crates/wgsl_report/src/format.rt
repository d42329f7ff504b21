//! How an answer is printed.

/// How an answer is printed.
#[derive(Clone, Copy, Debug, PartialEq, Eq)]
pub enum Format {
    /// For people; of constants a line for each.
    Table,
    /// Rows of 16 bytes, drawn.
    Bytes,
    /// For programs (`docs/JSON.md`).
    Json,
    /// Structures of the host in Rust.
    Rust,
    /// The same with the traits of bytemuck.
    Bytemuck,
    /// Structures of the host in C and C++.
    C,
}

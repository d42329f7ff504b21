//! What the bytes of a source may be of.

ghost use Rattle.std.specs.Prelude.{◌≡◌, ◌↔◌, ◌⊎◌, false, All, IsTrue};
ghost use Rattle.wgsl_source.specs.Bytes.{class_of, may_begin_line_break};

/// What a byte begins or goes on with.
#[derive(Clone, Copy)]
pub(crate) enum Class {
    /// A letter or `_`; also all that is no ASCII, but for the bytes that may begin a blank.
    Letter,
    Digit,
    /// A byte that may begin a letter, and may begin a blank character of several bytes.
    Lead,
    /// A character that is of no name and not blank.
    Symbol,
    /// A blank character that ends no line.
    Blank,
    /// A line break of one byte.
    Break,
}

impl Class {
    pub(crate) fn is_blank(self) -> bool
        ensures { IsTrue result ↔ ((self ≡ Class.Blank) ⊎ (self ≡ Class.Break)) }
    {
        matches!(self, Class::Blank | Class::Break)
    }
}

const L: Class = Class::Letter;

const D: Class = Class::Digit;

const W: Class = Class::Lead;

const S: Class = Class::Symbol;

const B: Class = Class::Blank;

const N: Class = Class::Break;

/// The class of each byte.
#[rattlefmt::skip]
static CLASSES: [Class; 256] = [
    S, S, S, S, S, S, S, S, S, B, N, N, N, N, S, S,
    S, S, S, S, S, S, S, S, S, S, S, S, S, S, S, S,
    B, S, S, S, S, S, S, S, S, S, S, S, S, S, S, S,
    D, D, D, D, D, D, D, D, D, D, S, S, S, S, S, S,
    S, L, L, L, L, L, L, L, L, L, L, L, L, L, L, L,
    L, L, L, L, L, L, L, L, L, L, L, S, S, S, S, L,
    S, L, L, L, L, L, L, L, L, L, L, L, L, L, L, L,
    L, L, L, L, L, L, L, L, L, L, L, S, S, S, S, S,
    L, L, L, L, L, L, L, L, L, L, L, L, L, L, L, L,
    L, L, L, L, L, L, L, L, L, L, L, L, L, L, L, L,
    L, L, L, L, L, L, L, L, L, L, L, L, L, L, L, L,
    L, L, L, L, L, L, L, L, L, L, L, L, L, L, L, L,
    L, L, W, L, L, L, L, L, L, L, L, L, L, L, L, L,
    L, L, L, L, L, L, L, L, L, L, L, L, L, L, L, L,
    L, L, W, L, L, L, L, L, L, L, L, L, L, L, L, L,
    L, L, L, L, L, L, L, L, L, L, L, L, L, L, L, L,
];

/// What this byte may be of.
pub(crate) fn class_of(byte: u8) -> Class
    ensures { result ≡ class_of byte }
{
    CLASSES[byte as usize]
}

/// Whether a line break may begin with this byte.
pub(crate) fn may_begin_line_break(byte: u8) -> bool
    ensures { result ≡ may_begin_line_break byte }
{
    matches!(class_of(byte), Class::Break | Class::Lead)
}

/// Eight bytes of 0x80.
const HIGH: u64 = 0x8080_8080_8080_8080;

/// Whether one of eight bytes may be of a line break: one below 0x0e, or one that is no ASCII.
pub(crate) fn may_break(bytes: [u8; 8]) -> bool
    ensures { result ≡ false → All (λ byte. may_begin_line_break byte ≡ false) bytes }
{
    let word = u64::from_le_bytes(bytes);
    // The difference borrows the highest bit of a byte only where one before it is below, too.
    (word.wrapping_sub(0x0e0e_0e0e_0e0e_0e0e) | word) & HIGH != 0
}

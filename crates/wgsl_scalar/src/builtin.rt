//! The builtin functions that errors name, and what builtins refuse.

ghost use Rattle.std.specs.Prelude.{◌≡◌};
ghost use Rattle.wgsl_scalar.specs.Builtins.{builtin_text};

/// A builtin function that has no meaning yet.
#[derive(Clone, Copy, Debug, PartialEq, Eq)]
pub enum BuiltinName {
    ExtractBits,
    InsertBits,
    FirstLeadingBit,
    FirstTrailingBit,
    ReverseBits,
    Dot4U8Packed,
    Dot4I8Packed,
}

impl BuiltinName {
    /// The name of the function in WGSL.
    pub fn as_str(self) -> &'static str
        ensures { result.now ≡ builtin_text self }
    {
        match self {
            BuiltinName::ExtractBits => "extractBits",
            BuiltinName::InsertBits => "insertBits",
            BuiltinName::FirstLeadingBit => "firstLeadingBit",
            BuiltinName::FirstTrailingBit => "firstTrailingBit",
            BuiltinName::ReverseBits => "reverseBits",
            BuiltinName::Dot4U8Packed => "dot4U8Packed",
            BuiltinName::Dot4I8Packed => "dot4I8Packed",
        }
    }
}

/// What a builtin function refuses in its arguments.
#[derive(Clone, Copy, Debug, PartialEq, Eq)]
pub enum BuiltinReason {
    /// An argument has to be a number, or a vector of numbers.
    NotNumber,
    /// An argument has to be an `i32` or a `u32`, or a vector of them.
    NotI32OrU32,
    /// An argument has to be a bool, or a vector of bools.
    NotBool,
    /// An argument has to be a vector.
    NotVector,
    /// An argument has to be a matrix.
    NotMatrix,
    /// An argument has to be an array.
    NotArray,
    /// An argument has to be an atomic.
    NotAtomic,
    /// An argument has to be a pointer.
    NotPointer,
    /// The arguments have no common type, or a number is outside of it.
    NoCommonType,
    /// An argument does not convert to the type that is asked.
    NotConverted,
    /// The arguments do not have as many components, or as many bytes, as each other.
    UnequalSizes,
    /// A number passes the range of the answer.
    OutOfRange,
}

impl BuiltinReason {
    /// The reason, in words. The text is not promised.
    pub fn as_str(self) -> &'static str {
        match self {
            BuiltinReason::NotNumber => "a number is expected",
            BuiltinReason::NotI32OrU32 => "an i32 or a u32 is expected",
            BuiltinReason::NotBool => "a bool is expected",
            BuiltinReason::NotVector => "a vector is expected",
            BuiltinReason::NotMatrix => "a matrix is expected",
            BuiltinReason::NotArray => "an array is expected",
            BuiltinReason::NotAtomic => "an atomic is expected",
            BuiltinReason::NotPointer => "a pointer is expected",
            BuiltinReason::NoCommonType => "the arguments have no common type",
            BuiltinReason::NotConverted => "an argument does not convert",
            BuiltinReason::UnequalSizes => "the arguments have unequal sizes",
            BuiltinReason::OutOfRange => "the answer is out of range",
        }
    }
}

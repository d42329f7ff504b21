//! Four bytes in a word (WGSL: data packing builtin functions; data unpacking builtin functions; numeric
//! builtin functions).

ghost use Rattle.std.specs.Prelude.{◌≡◌, ◌+◌, ◌<◌, ◌+ℤ◌, ◌≤ℤ◌, All, IfOk, length, map, negsuc, pos};
ghost use Rattle.wgsl_rules.specs.Kinds as kinds;
ghost use Rattle.wgsl_rules.specs.Types as types;
ghost use Rattle.wgsl_rules.specs.Values.{
  AreLiterals,
  IsStorable,
  IsWellFormed,
  number,
  type_of,
  vector,
};
ghost use Rattle.wgsl_rules.specs.View.{type_view};
ghost use Rattle.wgsl_scalar.specs.Answers.{Answers, Gives};
ghost use Rattle.wgsl_scalar.specs.Literals.{literal_of};
ghost use Rattle.wgsl_layout.specs.Buffers.{byte_of};
ghost use Rattle.wgsl_value_builtins.specs.Packing.{
  byte_product,
  byte_products,
  dot_packed_signed,
  dot_packed_unsigned,
  four_bytes,
  four_in,
  joined_bytes,
  limited_signed,
  low_byte,
  numbers,
  packed_signed,
  packed_signed_limited,
  packed_unsigned,
  packed_unsigned_limited,
  signed_byte,
  unpacked_signed,
  unpacked_unsigned,
  unsigned_byte,
  word_in,
};
ghost use Rattle.wgsl_values.specs.Make.{literals_view};
ghost use Rattle.wgsl_values.specs.View.{vals_view, value_of};

use crate::components::components;
use std::alloc::{AllocError, Global};
use wgsl_rules::{Convert, Type};
use wgsl_scalar::{BuiltinReason, Error, LiteralInstance};
use wgsl_values::{Instance, VecInstance};

// The number modulo 256.
fn low_byte(n: i32) -> u8
    ensures { result ≡ low_byte n }
{
    n.rem_euclid(256) as u8
}

// The number, limited to -128 to 127, modulo 256.
#[tactic(auto, using(crate::proofs::PackedBytes::limited))]
fn limited_byte(n: i32) -> u8
    ensures { result ≡ low_byte (limited_signed n) }
{
    low_byte(n.clamp(-128, 127))
}

// The number of the bytes, the lowest first.
fn word_of(bytes: [u8; 4]) -> Instance
    ensures value { value_of result ≡ number kinds.u32 (pos (joined_bytes bytes)) }
    ensures storable { IsStorable (value_of result) }
{
    Instance::from(u32::from_le_bytes(bytes))
}

// The type of vectors of four of the type.
fn four_of(alloc: Global, scalar: Type) -> Result<Type, AllocError>
    ensures { IfOk result (λ t. type_view t ≡ types.vec 4 (type_view scalar)) }
{
    Ok(Type::Vec(4, Box::new(alloc, scalar)?))
}

// The literals of a list of four.
fn four_literals(four: &[Instance]) -> [LiteralInstance; 4]
    requires counted { length four.now ≡ 4 }
    requires literals { AreLiterals (vals_view four.now) }
    ensures { literals_view result ≡ vals_view four.now }
{
    let [a, b, c, d] = four else {
        unreachable!();
    };
    [
        *a.unwrap_literal_ref(),
        *b.unwrap_literal_ref(),
        *c.unwrap_literal_ref(),
        *d.unwrap_literal_ref(),
    ]
}

// The components of the value as a vector of four of the type.
fn four_in(alloc: Global, e: &Instance, scalar: Type) -> Result<[LiteralInstance; 4], Error>
    requires { IsWellFormed (value_of e.now) }
    ensures value { Gives (λ four. numbers (literals_view four)) result (four_in (type_view scalar) (value_of e.now)) }
    ensures typed { IfOk result (λ four. All (λ l. type_of (literal_of l) ≡ type_view scalar) four) }
{
    let ty = four_of(alloc, scalar)?;
    match e.convert_to(alloc, &ty)? {
        Some(converted) => Ok(four_literals(components(&converted)?)),
        None => Err(Error::Builtin(BuiltinReason::NotConverted)),
    }
}

// The components of the value as a vector of four `i32`.
fn ints_in(alloc: Global, e: &Instance) -> Result<[i32; 4], Error>
    requires { IsWellFormed (value_of e.now) }
    ensures { Gives (λ ints. ints) result (four_in types.i32 (value_of e.now)) }
{
    let [a, b, c, d] = four_in(alloc, e, Type::I32)?;
    Ok([
        a.unwrap_i32(),
        b.unwrap_i32(),
        c.unwrap_i32(),
        d.unwrap_i32(),
    ])
}

// The components of the value as a vector of four `u32`.
fn words_in(alloc: Global, e: &Instance) -> Result<[u32; 4], Error>
    requires { IsWellFormed (value_of e.now) }
    ensures { Gives (map pos) result (four_in types.u32 (value_of e.now)) }
{
    let [a, b, c, d] = four_in(alloc, e, Type::U32)?;
    Ok([
        a.unwrap_u32(),
        b.unwrap_u32(),
        c.unwrap_u32(),
        d.unwrap_u32(),
    ])
}

/// The components modulo 256 as the bytes of a `u32`, the first one lowest. A value that does not convert to
/// a vector of four `i32` is refused by `Builtin` (WGSL: data packing builtin functions, `pack4xI8`). The
/// condition: the value is well-formed.
pub fn pack4xI8(alloc: Global, e: &Instance) -> Result<Instance, Error>
    requires { IsWellFormed (value_of e.now) }
    ensures value { Gives value_of result (packed_signed (value_of e.now)) }
    ensures storable { IfOk result (λ v. IsStorable (value_of v)) }
{
    let components = ints_in(alloc, e)?;
    Ok(word_of(components.map(low_byte)))
}

/// The components modulo 256 as the bytes of a `u32`, the first one lowest. A value that does not convert to
/// a vector of four `u32` is refused by `Builtin` (WGSL: data packing builtin functions, `pack4xU8`). The
/// condition: the value is well-formed.
pub fn pack4xU8(alloc: Global, e: &Instance) -> Result<Instance, Error>
    requires { IsWellFormed (value_of e.now) }
    ensures value { Gives value_of result (packed_unsigned (value_of e.now)) }
    ensures storable { IfOk result (λ v. IsStorable (value_of v)) }
{
    let components = words_in(alloc, e)?;
    Ok(word_of(components.map(|n| (n % 256) as u8)))
}

/// [`pack4xI8`] of the components, each first taken to -128 where it is less, to 127 where it is more (WGSL:
/// data packing builtin functions, `pack4xI8Clamp`). The condition: the value is well-formed.
pub fn pack4xI8Clamp(alloc: Global, e: &Instance) -> Result<Instance, Error>
    requires { IsWellFormed (value_of e.now) }
    ensures value { Gives value_of result (packed_signed_limited (value_of e.now)) }
    ensures storable { IfOk result (λ v. IsStorable (value_of v)) }
{
    let components = ints_in(alloc, e)?;
    Ok(word_of(components.map(limited_byte)))
}

/// [`pack4xU8`] of the components, each first taken to 255 where it is more (WGSL: data packing builtin
/// functions, `pack4xU8Clamp`). The condition: the value is well-formed.
pub fn pack4xU8Clamp(alloc: Global, e: &Instance) -> Result<Instance, Error>
    requires { IsWellFormed (value_of e.now) }
    ensures value { Gives value_of result (packed_unsigned_limited (value_of e.now)) }
    ensures storable { IfOk result (λ v. IsStorable (value_of v)) }
{
    let components = words_in(alloc, e)?;
    Ok(word_of(components.map(|n| n.min(255) as u8)))
}

/// The number of the value as a `u32`; refused by `Builtin` where it is none.
pub(crate) fn word_in(e: &Instance) -> Result<u32, Error>
    ensures { Answers pos result (word_in (value_of e.now)) }
{
    match e {
        Instance::Literal(literal) => match literal.to_kind(&Type::U32) {
            Some(word) => Ok(word.unwrap_u32()),
            None => Err(Error::Builtin(BuiltinReason::NotConverted)),
        },
        Instance::Struct(_) | Instance::Array(_) | Instance::Vec(_) => {
            Err(Error::Builtin(BuiltinReason::NotConverted))
        }
        Instance::Mat(_) | Instance::Ptr(_) | Instance::Ref(_) => {
            Err(Error::Builtin(BuiltinReason::NotConverted))
        }
        Instance::Atomic(_) | Instance::Deferred(_) => {
            Err(Error::Builtin(BuiltinReason::NotConverted))
        }
    }
}

// Byte i of the word, the lowest first, with its sign.
fn signed_byte(word: u32, i: usize) -> i8
    requires { i < 4 }
    ensures { result ≡ signed_byte (byte_of (pos word) i) }
{
    word.to_le_bytes()[i].cast_signed()
}

// Byte i of the word, the lowest first.
fn unsigned_byte(word: u32, i: usize) -> u8
    requires { i < 4 }
    ensures { result ≡ byte_of (pos word) i }
{
    word.to_le_bytes()[i]
}

// The bytes of the word, the lowest first, each with its sign.
fn signed_bytes(word: u32) -> [LiteralInstance; 4]
    ensures value { vector (literals_view result) ≡ four_bytes kinds.i32 signed_byte (pos word) }
    ensures storable { IsStorable (vector (literals_view result)) }
{
    let byte = |i| LiteralInstance::I32(i32::from(signed_byte(word, i)));
    [byte(0), byte(1), byte(2), byte(3)]
}

// The bytes of the word, the lowest first.
fn unsigned_bytes(word: u32) -> [LiteralInstance; 4]
    ensures value { vector (literals_view result) ≡ four_bytes kinds.u32 unsigned_byte (pos word) }
    ensures storable { IsStorable (vector (literals_view result)) }
{
    let byte = |i| LiteralInstance::U32(u32::from(unsigned_byte(word, i)));
    [byte(0), byte(1), byte(2), byte(3)]
}

/// The four bytes of the value as a `u32`, the lowest first, each with its sign as an `i32`. A value that does
/// not convert to `u32` is refused by `Builtin` (WGSL: data unpacking builtin functions, `unpack4xI8`).
pub fn unpack4xI8(alloc: Global, e: &Instance) -> Result<Instance, Error>
    ensures value { Gives value_of result (unpacked_signed (value_of e.now)) }
    ensures storable { IfOk result (λ v. IsStorable (value_of v)) }
{
    let word = word_in(e)?;
    Ok(Instance::Vec(VecInstance::from4(alloc, signed_bytes(word))?))
}

/// The four bytes of the value as a `u32`, the lowest first, each as a `u32`. A value that does not convert to
/// `u32` is refused by `Builtin` (WGSL: data unpacking builtin functions, `unpack4xU8`).
pub fn unpack4xU8(alloc: Global, e: &Instance) -> Result<Instance, Error>
    ensures value { Gives value_of result (unpacked_unsigned (value_of e.now)) }
    ensures storable { IfOk result (λ v. IsStorable (value_of v)) }
{
    let word = word_in(e)?;
    Ok(Instance::Vec(VecInstance::from4(alloc, unsigned_bytes(word))?))
}

// The product of byte i of both, each with its sign.
#[tactic(auto, using(crate::proofs::PackedBytes::fitting))]
fn signed_product(a: u32, b: u32, i: usize) -> i16
    requires { i < 4 }
    ensures { result ≡ byte_product signed_byte (pos a) (pos b) i }
{
    i16::from(signed_byte(a, i)) * i16::from(signed_byte(b, i))
}

// The product of byte i of both.
fn unsigned_product(a: u32, b: u32, i: usize) -> u16
    requires { i < 4 }
    ensures { pos result ≡ byte_product unsigned_byte (pos a) (pos b) i }
{
    u16::from(unsigned_byte(a, i)) * u16::from(unsigned_byte(b, i))
}

// The sum of the products of bytes i and i + 1, each with its sign.
fn signed_pair(a: u32, b: u32, i: usize) -> i32
    requires { i < 3 }
    ensures value { result ≡ byte_product signed_byte (pos a) (pos b) i +ℤ byte_product signed_byte (pos a) (pos b) (i + 1) }
    ensures least { negsuc 65535 ≤ℤ result }
    ensures greatest { result ≤ℤ pos 65535 }
{
    i32::from(signed_product(a, b, i)).strict_add(i32::from(signed_product(a, b, i + 1)))
}

// The sum of the four products, each byte with its sign.
fn signed_sum(a: u32, b: u32) -> i32
    ensures { result ≡ byte_products signed_byte (pos a) (pos b) }
{
    signed_pair(a, b, 0).strict_add(signed_pair(a, b, 2))
}

// The sum of the four products.
fn unsigned_sum(a: u32, b: u32) -> u32
    ensures { pos result ≡ byte_products unsigned_byte (pos a) (pos b) }
{
    let product = |i| u32::from(unsigned_product(a, b, i));
    (product(0) + product(1)) + (product(2) + product(3))
}

/// The sum of the four products of the bytes, without signs, that stand beside each other in the values as
/// `u32`. A value that does not convert to `u32` is refused by `Builtin` (WGSL: numeric builtin functions,
/// `dot4U8Packed`).
pub fn dot4U8Packed(_alloc: Global, a: &Instance, b: &Instance) -> Result<Instance, Error>
    ensures value { Answers value_of result (dot_packed_unsigned (value_of a.now) (value_of b.now)) }
    ensures storable { IfOk result (λ v. IsStorable (value_of v)) }
{
    let (a, b) = (word_in(a)?, word_in(b)?);
    Ok(Instance::from(unsigned_sum(a, b)))
}

/// The sum of the four products of the bytes, with their signs, that stand beside each other in the values as
/// `u32`. A value that does not convert to `u32` is refused by `Builtin` (WGSL: numeric builtin functions,
/// `dot4I8Packed`).
pub fn dot4I8Packed(_alloc: Global, a: &Instance, b: &Instance) -> Result<Instance, Error>
    ensures value { Answers value_of result (dot_packed_signed (value_of a.now) (value_of b.now)) }
    ensures storable { IfOk result (λ v. IsStorable (value_of v)) }
{
    let (a, b) = (word_in(a)?, word_in(b)?);
    Ok(Instance::from(signed_sum(a, b)))
}

//! Types (WGSL: types).

use crate::syntax::{AccessMode, AddressSpace, SamplerType, TextureType};

/// A type of WGSL.
///
/// `Vec(n, t)` has n components of the type t. `Mat(c, r, t)` has c columns and r rows.
/// `Array(t, None)` is runtime-sized: its type carries no length. Any value of this enumeration can
/// be built; whether a type has a size is told by [`Type::size_of`].
///
/// Types may stand in types to any depth. What goes through a type (`clone`, `==`, its text, sizes,
/// layouts, conversions, dropping it) calls itself for each type inside another, so the stack of the
/// process limits the depth: 4,095 levels are tried with 8 MiB, of structures that are each a member of
/// the next and of arrays. Much deeper the process ends by a signal, so whoever takes types from
/// elsewhere has to count their levels first.
#[cycle(types)]
#[derive(Debug, Drop)]
pub enum Type {
    Bool,
    AbstractInt,
    AbstractFloat,
    I32,
    U32,
    F32,
    F16,
    I64,
    U64,
    F64,
    Struct(Box<StructType>),
    Array(Box<Type>, Option<usize>),
    Vec(u8, Box<Type>),
    Mat(u8, u8, Box<Type>),
    Atomic(Box<Type>),
    Ptr(AddressSpace, Box<Type>, AccessMode),
    Ref(AddressSpace, Box<Type>, AccessMode),
    Texture(TextureType),
    Sampler(SamplerType),
}

/// A structure type: its name and its members in order (WGSL: structure types).
#[cycle(types)]
#[derive(Debug, Drop)]
pub struct StructType {
    pub name: String,
    pub members: Vec<StructMemberType>,
}

/// A member of a structure type. `size` and `align` are its attributes, in bytes
/// (WGSL: structure types).
#[cycle(types)]
#[derive(Debug, Drop)]
pub struct StructMemberType {
    pub name: String,
    pub ty: Type,
    pub size: Option<u32>,
    pub align: Option<u32>,
}

//! Values that tests join by operators, or hand to builtin functions, each by a name that a row has.

ghost use Rattle.std.specs.Prelude.{IfOk, IfSome};
ghost use Rattle.wgsl_rules.specs.Values.{IsStorable};
ghost use Rattle.wgsl_values.specs.View.{vec_view};

use crate::atomics::{atomic, counters, flagged, totals};
use crate::both::both;
use crate::composites::{array_of, matrix_of, structure_of, vector_of};
use crate::types::pair_type;
use std::alloc::{AllocError, Global};
use wgsl_rules::{AccessMode, AddressSpace, Type};
use wgsl_scalar::LiteralInstance;
use wgsl_scalar::LiteralInstance::{AbstractInt, Bool, I32, I64, U32};
use wgsl_values::{Instance, MemView, PtrInstance, RefInstance, VecInstance};

/// A value that a row names.
#[derive(Clone, Copy, Debug, PartialEq, Eq)]
pub enum Sample {
    One(LiteralInstance),
    Two([LiteralInstance; 2]),
    Three([LiteralInstance; 3]),
    Four([LiteralInstance; 4]),
    /// mat2x2(vec2(1u, 2u), vec2(3u, 4u))
    Matrix,
    /// mat2x3(vec3(1u, 2u, 3u), vec3(4u, 5u, 6u))
    Tall,
    /// array(1u, 2u)
    Array,
    /// The array of the literals, which is runtime-sized where that is true.
    Elements([LiteralInstance; 3], bool),
    /// Pair(1u, vec3(2u, 3u, 4u))
    Structure,
    /// A pointer to cell 0, an i32 of the storage space, for reads and writes.
    Pointer,
    /// The reference of that pointer.
    Reference,
    /// The atomic of the number, which is an i32 or a u32.
    Atomic(LiteralInstance),
    /// array(atomic<i32>(1i), atomic<i32>(-2i), atomic<i32>(3i)), which is runtime-sized where that is true.
    Totals(bool),
    /// A structure of atomics, the second member a runtime-sized array:
    /// Counters(atomic<u32>(7u), array(atomic<i32>(1i), atomic<i32>(-2i), atomic<i32>(3i)))
    Counters,
    /// A structure of atomics behind a bool, which has no layout:
    /// Flagged(true, atomic<u32>(7u), array(atomic<i32>(1i), atomic<i32>(-2i), atomic<i32>(3i)))
    Flagged,
    /// __deferred<u32>
    Deferred,
}

pub fn b(value: bool) -> Sample {
    Sample::One(Bool(value))
}

pub fn n(number: i64) -> Sample {
    Sample::One(AbstractInt(number))
}

pub fn i(number: i32) -> Sample {
    Sample::One(I32(number))
}

pub fn u(number: u32) -> Sample {
    Sample::One(U32(number))
}

pub fn l(number: i64) -> Sample {
    Sample::One(I64(number))
}

pub fn b2(x: bool, y: bool) -> Sample {
    Sample::Two([Bool(x), Bool(y)])
}

pub fn n2(x: i64, y: i64) -> Sample {
    Sample::Two([AbstractInt(x), AbstractInt(y)])
}

pub fn i2(x: i32, y: i32) -> Sample {
    Sample::Two([I32(x), I32(y)])
}

pub fn u2(x: u32, y: u32) -> Sample {
    Sample::Two([U32(x), U32(y)])
}

pub fn l2(x: i64, y: i64) -> Sample {
    Sample::Two([I64(x), I64(y)])
}

pub fn n3(x: i64, y: i64, z: i64) -> Sample {
    Sample::Three([AbstractInt(x), AbstractInt(y), AbstractInt(z)])
}

pub fn i3(x: i32, y: i32, z: i32) -> Sample {
    Sample::Three([I32(x), I32(y), I32(z)])
}

pub fn u3(x: u32, y: u32, z: u32) -> Sample {
    Sample::Three([U32(x), U32(y), U32(z)])
}

pub fn n4(x: i64, y: i64, z: i64, w: i64) -> Sample {
    Sample::Four([
        AbstractInt(x),
        AbstractInt(y),
        AbstractInt(z),
        AbstractInt(w),
    ])
}

pub fn i4(x: i32, y: i32, z: i32, w: i32) -> Sample {
    Sample::Four([I32(x), I32(y), I32(z), I32(w)])
}

pub fn u4(x: u32, y: u32, z: u32, w: u32) -> Sample {
    Sample::Four([U32(x), U32(y), U32(z), U32(w)])
}

fn literals(alloc: Global, literals: &[LiteralInstance]) -> Result<Vec<Instance>, AllocError> {
    let mut values = Vec::new(alloc);
    for literal in literals {
        values.push(Instance::from(*literal))?;
    }
    Ok(values)
}

/// The vector of the literals; none where there are fewer than two or more than four, or of several kinds.
pub fn vector(
    alloc: Global,
    components: &[LiteralInstance],
) -> Result<Option<VecInstance>, AllocError>
    ensures { IfOk result (λ o. IfSome o (λ v. IsStorable (vec_view v))) }
{
    Ok(vector_of(literals(alloc, components)?))
}

/// The vector as a value.
fn vector_value(
    alloc: Global,
    components: &[LiteralInstance],
) -> Result<Option<Instance>, AllocError> {
    Ok(vector(alloc, components)?.map(Instance::from))
}

fn columns(alloc: Global, columns: [&[LiteralInstance]; 2]) -> Result<Vec<Instance>, AllocError> {
    let mut values = Vec::new(alloc);
    for column in columns {
        if let Some(vector) = vector_value(alloc, column)? {
            values.push(vector)?;
        }
    }
    Ok(values)
}

fn matrix(
    alloc: Global,
    first: &[LiteralInstance],
    second: &[LiteralInstance],
) -> Result<Option<Instance>, AllocError> {
    let matrix = matrix_of(columns(alloc, [first, second])?);
    Ok(matrix.map(Instance::from))
}

fn array(
    alloc: Global,
    elements: &[LiteralInstance],
    runtime_sized: bool,
) -> Result<Option<Instance>, AllocError> {
    let array = array_of(literals(alloc, elements)?, runtime_sized);
    Ok(array.map(Instance::from))
}

fn structure(alloc: Global) -> Result<Option<Instance>, AllocError> {
    let Some(b) = vector_value(alloc, &[U32(2), U32(3), U32(4)])? else {
        return Ok(None);
    };
    let members = vec![in alloc; Instance::from(1u32), b]?;
    let (ty, members) = both(pair_type(alloc), Ok(members))?;
    let structure = structure_of(ty, members);
    Ok(structure.map(Instance::from))
}

fn reference() -> RefInstance {
    let space = AddressSpace::Storage;
    RefInstance::from_parts(0, MemView::Whole, Type::I32, space, AccessMode::ReadWrite)
}

/// The value; none where there is no vector, array or atomic of the literals.
pub fn make(alloc: Global, sample: Sample) -> Result<Option<Instance>, AllocError> {
    match sample {
        Sample::One(literal) => Ok(Some(Instance::from(literal))),
        Sample::Two(literals) => vector_value(alloc, &literals),
        Sample::Three(literals) => vector_value(alloc, &literals),
        Sample::Four(literals) => vector_value(alloc, &literals),
        Sample::Matrix => matrix(alloc, &[U32(1), U32(2)], &[U32(3), U32(4)]),
        Sample::Tall => {
            let first = [U32(1), U32(2), U32(3)];
            matrix(alloc, &first, &[U32(4), U32(5), U32(6)])
        }
        Sample::Array => array(alloc, &[U32(1), U32(2)], false),
        Sample::Elements(literals, runtime_sized) => array(alloc, &literals, runtime_sized),
        Sample::Structure => structure(alloc),
        Sample::Pointer => Ok(Some(Instance::from(PtrInstance::from(reference())))),
        Sample::Reference => Ok(Some(Instance::from(reference()))),
        Sample::Atomic(number) => atomic(alloc, number),
        Sample::Totals(runtime_sized) => totals(alloc, &[1, -2, 3], runtime_sized),
        Sample::Counters => counters(alloc, 7, &[1, -2, 3]),
        Sample::Flagged => flagged(alloc, 7, &[1, -2, 3]),
        Sample::Deferred => Ok(Some(Instance::from(Type::U32))),
    }
}

//! Atomics, and structures of them: one that is laid out as bytes, and one that has no layout.

use crate::both::both;
use crate::composites::{array_of, structure_of};
use crate::types::{array, member, struct_type};
use std::alloc::{AllocError, Global};
use wgsl_rules::{StructMemberType, StructType, Type};
use wgsl_scalar::LiteralInstance;
use wgsl_scalar::LiteralInstance::{I32, U32};
use wgsl_values::{AtomicInstance, Instance};

fn signed(alloc: Global, number: i32) -> Result<Instance, AllocError> {
    let atomic = AtomicInstance::new(alloc, Instance::from(number))?;
    Ok(Instance::from(atomic))
}

fn unsigned(alloc: Global, number: u32) -> Result<Instance, AllocError> {
    let atomic = AtomicInstance::new(alloc, Instance::from(number))?;
    Ok(Instance::from(atomic))
}

/// The atomic of the number; none of a literal that is no i32 and no u32.
pub fn atomic(alloc: Global, number: LiteralInstance) -> Result<Option<Instance>, AllocError> {
    match number {
        I32(number) => Ok(Some(signed(alloc, number)?)),
        U32(number) => Ok(Some(unsigned(alloc, number)?)),
        _ => Ok(None),
    }
}

fn atomics(alloc: Global, numbers: &[i32]) -> Result<Vec<Instance>, AllocError> {
    let mut atomics = Vec::new(alloc);
    for number in numbers {
        atomics.push(signed(alloc, *number)?)?;
    }
    Ok(atomics)
}

/// The array of the atomics of the numbers; none of no numbers.
pub fn totals(
    alloc: Global,
    numbers: &[i32],
    runtime_sized: bool,
) -> Result<Option<Instance>, AllocError> {
    let totals = array_of(atomics(alloc, numbers)?, runtime_sized);
    Ok(totals.map(Instance::from))
}

fn atomic_type(alloc: Global, scalar: Type) -> Result<Type, AllocError> {
    Ok(Type::Atomic(Box::new(alloc, scalar)?))
}

fn count_member(alloc: Global) -> Result<StructMemberType, AllocError> {
    member(alloc, "count", atomic_type(alloc, Type::U32)?, None)
}

fn totals_member(alloc: Global, n: Option<usize>) -> Result<StructMemberType, AllocError> {
    let totals = array(alloc, atomic_type(alloc, Type::I32)?, n)?;
    member(alloc, "totals", totals, None)
}

/// The members of an atomic u32 and of an array of so many atomics.
fn count_and_totals(
    alloc: Global,
    n: Option<usize>,
) -> Result<(StructMemberType, StructMemberType), AllocError> {
    both(count_member(alloc), totals_member(alloc, n))
}

/// struct Counters { count: atomic<u32>, totals: array<atomic<i32>> }
fn counters_type(alloc: Global) -> Result<StructType, AllocError> {
    let (count, totals) = count_and_totals(alloc, None)?;
    struct_type(alloc, "Counters", vec![in alloc; count, totals]?)
}

/// struct Flagged { flag: bool, count: atomic<u32>, totals: array<atomic<i32>, N> }
fn flagged_type(alloc: Global, n: usize) -> Result<StructType, AllocError> {
    let flag = member(alloc, "flag", Type::Bool, None);
    let (flag, (count, totals)) = both(flag, count_and_totals(alloc, Some(n)))?;
    struct_type(alloc, "Flagged", vec![in alloc; flag, count, totals]?)
}

/// The structure Counters of these numbers, which is laid out as bytes; none of no numbers.
pub fn counters(
    alloc: Global,
    count: u32,
    numbers: &[i32],
) -> Result<Option<Instance>, AllocError> {
    let Some(totals) = totals(alloc, numbers, true)? else {
        return Ok(None);
    };
    let (count, totals) = both(unsigned(alloc, count), Ok(totals))?;
    let members = vec![in alloc; count, totals]?;
    let (ty, members) = both(counters_type(alloc), Ok(members))?;
    let counters = structure_of(ty, members);
    Ok(counters.map(Instance::from))
}

/// The structure Flagged of true and these numbers, which has no layout; none of no numbers.
pub fn flagged(alloc: Global, count: u32, numbers: &[i32]) -> Result<Option<Instance>, AllocError> {
    let Some(totals) = totals(alloc, numbers, false)? else {
        return Ok(None);
    };
    let (count, totals) = both(unsigned(alloc, count), Ok(totals))?;
    let members = vec![in alloc; Instance::from(true), count, totals]?;
    let (ty, members) = both(flagged_type(alloc, numbers.len()), Ok(members))?;
    let flagged = structure_of(ty, members);
    Ok(flagged.map(Instance::from))
}

//! Values for runs in which a growth of memory is refused: what wants memory is made again.

ghost use Rattle.wgsl_rules.specs.Values.{IsStorable, IsWellFormed};
ghost use Rattle.wgsl_values.specs.View.{value_of};

use crate::tests::samples::{
    abstract_vector, array_from, array_of, matrix_from, pair_with, storable, structure_from,
    vector_of,
};
use std::alloc::{AllocError, Global};
use std::process::Abort;
use wgsl_rules::{StructType, Type};
use wgsl_samples::types::{array, matrix, member, pair, struct_type};
use wgsl_values::Instance;

/// Pair(a, vec3(2u, 3u, 4u))
pub(super) fn pair_of(rt: &impl Abort, alloc: Global, a: u32) -> Instance {
    Instance::from(answer_of!(rt; pair_with(rt, alloc, a)))
}

/// The vector of the numbers, each an u32.
pub(super) fn u32_vector(rt: &impl Abort, alloc: Global, components: &[u32]) -> Instance {
    Instance::from(answer_of!(rt; vector_of(rt, alloc, components)))
}

/// The vector of the numbers, each an AbstractInt.
pub(super) fn open_vector(rt: &impl Abort, alloc: Global, components: &[i64]) -> Instance {
    Instance::from(answer_of!(rt; abstract_vector(rt, alloc, components)))
}

/// The runtime-sized array of the numbers, each an u32.
pub(super) fn u32_array(rt: &impl Abort, alloc: Global, elements: &[u32]) -> Instance {
    Instance::from(answer_of!(rt; array_of(rt, alloc, elements, true)))
}

fn one(rt: &impl Abort, alloc: Global, value: Instance) -> Vec<Instance> {
    let mut values = answer_of!(rt; Vec::with_capacity(alloc, 2));
    values.push(value).expect(rt, "a place for it");
    values
}

fn two(rt: &impl Abort, alloc: Global, first: Instance, second: Instance) -> Vec<Instance> {
    let mut values = one(rt, alloc, first);
    values.push(second).expect(rt, "a place for it");
    values
}

fn light_type(alloc: Global) -> Result<StructType, AllocError> {
    let m = member(alloc, "m", matrix(alloc, Type::U32)?, None)?;
    let pairs = member(alloc, "pairs", array(alloc, pair(alloc)?, None)?, None)?;
    struct_type(alloc, "Light", vec![in alloc; m, pairs]?)
}

/// Light(mat2x3(vec3(1u, 2u, 3u), vec3(4u, 5u, 6u)), array(Pair(1u, vec3(2u, 3u, 4u)))), with the
/// members m and pairs, of which the second is runtime-sized.
pub(super) fn light(rt: &impl Abort, alloc: Global) -> Instance
    ensures storable { IsStorable (value_of result) }
    ensures well_formed { IsWellFormed (value_of result) }
{
    let first = u32_vector(rt, alloc, &[1, 2, 3]);
    let second = u32_vector(rt, alloc, &[4, 5, 6]);
    let columns = two(rt, alloc, first, second);
    let pairs = one(rt, alloc, pair_of(rt, alloc, 1));
    let m = Instance::from(matrix_from(rt, columns));
    let pairs = Instance::from(array_from(rt, pairs, true));
    let members = two(rt, alloc, m, pairs);
    let ty = answer_of!(rt; light_type(alloc));
    storable(rt, Instance::from(structure_from(rt, ty, members)))
}

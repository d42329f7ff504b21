//! Texts, types and values for tests with ample memory: without it the test ends.

ghost use Rattle.wgsl_rules.specs.Values.{IsStorable, IsWellFormed};
ghost use Rattle.wgsl_values.specs.View.{value_of};

use crate::tests::samples;
use crate::tests::samples::storable;
use std::alloc::Global;
use std::process::Abort;
use wgsl_rules::Type;
use wgsl_samples::{types, values};
use wgsl_values::Instance;

pub(super) fn text(rt: &impl Abort, alloc: Global, text: &str) -> String {
    String::from_str(alloc, text).expect(rt, "memory")
}

pub(super) fn vector(rt: &impl Abort, alloc: Global, n: u8, ty: Type) -> Type {
    types::vector(alloc, n, ty).expect(rt, "memory")
}

/// The bytes of the words, each little-endian.
pub(super) fn bytes_of(rt: &impl Abort, alloc: Global, words: &[u32]) -> Vec<u8> {
    values::bytes_of(alloc, words).expect(rt, "memory")
}

/// The vector of the numbers, each an u32.
pub(super) fn vector_of(rt: &impl Abort, alloc: Global, components: &[u32]) -> Instance
    ensures { IsStorable (value_of result) }
{
    Instance::from(samples::vector_of(rt, alloc, components).expect(rt, "memory"))
}

/// Pair(1u, vec3(2u, 3u, 4u))
pub(super) fn pair_value(rt: &impl Abort, alloc: Global) -> Instance
    ensures storable { IsStorable (value_of result) }
    ensures well_formed { IsWellFormed (value_of result) }
{
    let pair = samples::pair_value(rt, alloc).expect(rt, "memory");
    storable(rt, Instance::from(pair))
}

//! Texts, types and values that tests look at. That each value is storable is asserted as it is made.

ghost use Rattle.std.specs.Prelude.{IfOk};
ghost use Rattle.wgsl_rules.specs.Values.{IsStorable, IsWellFormed};
ghost use Rattle.wgsl_values.specs.View.{value_of, array_view, atomic_view, mat_view, struct_view, vec_view};

use std::alloc::{AllocError, Global};
use std::process::Abort;
use wgsl_rules::{StructType, Type};
use wgsl_samples::types;
use wgsl_samples::types::pair_type;
use wgsl_samples::values::numbers;
use wgsl_values::{
    ArrayInstance, AtomicInstance, Instance, MatInstance, StructInstance, VecInstance,
};

pub(super) fn text(rt: &impl Abort, alloc: Global, text: &str) -> String {
    String::from_str(alloc, text).expect(rt, "memory")
}

pub(super) fn vector(rt: &impl Abort, alloc: Global, n: u8, ty: Type) -> Type {
    types::vector(alloc, n, ty).expect(rt, "memory")
}

/// The value, which can be stored.
pub(super) fn storable(rt: &impl Abort, value: Instance) -> Instance
    ensures storable { IsStorable (value_of result) }
    ensures well_formed { IsWellFormed (value_of result) }
{
    assert!(rt; value.is_storable());
    assert!(rt; value.is_well_formed());
    value
}

pub(super) fn vector_from(rt: &impl Abort, components: Vec<Instance>) -> VecInstance
    ensures { IsStorable (vec_view result) }
{
    assert!(rt; VecInstance::can_make(&components));
    VecInstance::new(components)
}

/// The array of the elements.
pub(super) fn array_from(
    rt: &impl Abort,
    elements: Vec<Instance>,
    runtime_sized: bool,
) -> ArrayInstance
    ensures { IsStorable (array_view result) }
{
    assert!(rt; ArrayInstance::can_make(&elements, runtime_sized));
    ArrayInstance::new(elements, runtime_sized)
}

pub(super) fn matrix_from(rt: &impl Abort, columns: Vec<Instance>) -> MatInstance
    ensures { IsStorable (mat_view result) }
{
    assert!(rt; MatInstance::can_make(&columns));
    MatInstance::from_cols(columns)
}

pub(super) fn atomic_from(
    rt: &impl Abort,
    alloc: Global,
    content: Instance,
) -> Result<AtomicInstance, AllocError>
    ensures { IfOk result (λ a. IsStorable (atomic_view a)) }
{
    assert!(rt; AtomicInstance::can_make(&content));
    AtomicInstance::new(alloc, content)
}

pub(super) fn structure_from(
    rt: &impl Abort,
    ty: StructType,
    members: Vec<Instance>,
) -> StructInstance
    ensures { IsStorable (struct_view result) }
{
    assert!(rt; StructInstance::can_make(&ty, &members));
    StructInstance::new(ty, members)
}

/// Pair(a, vec3(2u, 3u, 4u))
pub(super) fn pair_with(
    rt: &impl Abort,
    alloc: Global,
    a: u32,
) -> Result<StructInstance, AllocError>
    ensures { IfOk result (λ s. IsStorable (struct_view s)) }
{
    let b = Instance::from(vector_from(rt, numbers(alloc, &[2, 3, 4])?));
    let members = vec![in alloc; Instance::from(a), b]?;
    Ok(structure_from(rt, pair_type(alloc)?, members))
}

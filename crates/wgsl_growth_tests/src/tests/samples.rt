//! Types and values that tests look at.

ghost use Rattle.wgsl_rules.specs.Values.{IsStorable, IsWellFormed};
ghost use Rattle.wgsl_values.specs.View.{value_of, array_view, atomic_view, mat_view, struct_view, vec_view};

use std::alloc::Global;
use std::process::Abort;
use wgsl_rules::{AccessMode, StructMemberType, StructType, Type};
use wgsl_samples::{types, values};
use wgsl_values::{
    ArrayInstance, AtomicInstance, Instance, MatInstance, MemView, RefInstance, StructInstance,
    VecInstance,
};

pub(super) fn text(rt: &impl Abort, alloc: Global, text: &str) -> String {
    made!(rt; String::from_str(alloc, text))
}

pub(super) fn vector(rt: &impl Abort, alloc: Global, n: u8, ty: Type) -> Type {
    made!(rt; types::vector(alloc, n, ty))
}

/// A matrix of 2 columns of 3 rows.
pub(super) fn matrix(rt: &impl Abort, alloc: Global, ty: Type) -> Type {
    made!(rt; types::matrix(alloc, ty))
}

pub(super) fn array(rt: &impl Abort, alloc: Global, ty: Type, count: Option<usize>) -> Type {
    made!(rt; types::array(alloc, ty, count))
}

pub(super) fn atomic(rt: &impl Abort, alloc: Global, ty: Type) -> Type {
    Type::Atomic(made!(rt; Box::new(alloc, ty)))
}

/// The type of references of the storage space.
pub(super) fn reference(rt: &impl Abort, alloc: Global, ty: Type, access: AccessMode) -> Type {
    made!(rt; types::reference(alloc, ty, access))
}

pub(super) fn member(rt: &impl Abort, alloc: Global, name: &str, ty: Type) -> StructMemberType {
    made!(rt; types::member(alloc, name, ty, None))
}

/// struct Pair { a: u32, b: vec3<u32> }
pub(super) fn pair(rt: &impl Abort, alloc: Global) -> Type {
    made!(rt; types::pair(alloc))
}

/// struct Pair { a: u32, b: vec3<u32> }
pub(super) fn pair_type(rt: &impl Abort, alloc: Global) -> StructType {
    made!(rt; types::pair_type(alloc))
}

/// struct S, with the two members.
pub(super) fn two_members(
    rt: &impl Abort,
    alloc: Global,
    first: StructMemberType,
    second: StructMemberType,
) -> StructType {
    let members = made!(rt; vec![in alloc; first, second]);
    made!(rt; types::struct_type(alloc, "S", members))
}

/// The value, which can be stored.
pub(super) fn storable(rt: &impl Abort, value: Instance) -> Instance
    ensures storable { IsStorable (value_of result) }
    ensures well_formed { IsWellFormed (value_of result) }
{
    assert!(rt; value.is_storable());
    assert!(rt; value.is_well_formed());
    value
}

/// The values of the numbers, each an u32.
pub(super) fn numbers(rt: &impl Abort, alloc: Global, numbers: &[u32]) -> Vec<Instance> {
    made!(rt; values::numbers(alloc, numbers))
}

fn vector_from(rt: &impl Abort, components: Vec<Instance>) -> VecInstance
    ensures { IsStorable (vec_view result) }
{
    assert!(rt; VecInstance::can_make(&components));
    VecInstance::new(components)
}

/// The vector of the numbers, each an u32.
pub(super) fn vector_of(rt: &impl Abort, alloc: Global, components: &[u32]) -> VecInstance
    ensures { IsStorable (vec_view result) }
{
    vector_from(rt, numbers(rt, alloc, components))
}

/// The vector of the numbers, each an AbstractInt.
pub(super) fn abstract_vector(rt: &impl Abort, alloc: Global, components: &[i64]) -> VecInstance
    ensures { IsStorable (vec_view result) }
{
    vector_from(rt, made!(rt; values::abstract_numbers(alloc, components)))
}

/// The vector of the numbers, each an i32.
pub(super) fn integer_vector(rt: &impl Abort, alloc: Global, components: &[i32]) -> VecInstance
    ensures { IsStorable (vec_view result) }
{
    vector_from(rt, made!(rt; values::integers(alloc, components)))
}

pub(super) fn array_from(
    rt: &impl Abort,
    elements: Vec<Instance>,
    runtime_sized: bool,
) -> ArrayInstance
    ensures { IsStorable (array_view result) }
{
    assert!(rt; ArrayInstance::can_make(&elements, runtime_sized));
    ArrayInstance::new(elements, runtime_sized)
}

/// The array of the numbers, each an u32.
pub(super) fn array_of(
    rt: &impl Abort,
    alloc: Global,
    elements: &[u32],
    runtime_sized: bool,
) -> ArrayInstance
    ensures { IsStorable (array_view result) }
{
    array_from(rt, numbers(rt, alloc, elements), runtime_sized)
}

/// The array of the two values.
pub(super) fn two_elements(
    rt: &impl Abort,
    alloc: Global,
    first: VecInstance,
    second: VecInstance,
) -> ArrayInstance
    ensures { IsStorable (array_view result) }
{
    let elements = vec![in alloc; Instance::from(first), Instance::from(second)];
    array_from(rt, made!(rt; elements), false)
}

/// The matrix of the two columns.
pub(super) fn two_columns(
    rt: &impl Abort,
    alloc: Global,
    first: VecInstance,
    second: VecInstance,
) -> MatInstance
    ensures { IsStorable (mat_view result) }
{
    let columns = vec![in alloc; Instance::from(first), Instance::from(second)];
    let columns = made!(rt; columns);
    assert!(rt; MatInstance::can_make(&columns));
    MatInstance::from_cols(columns)
}

/// The matrix with the columns (1u, 2u, 3u) and (4u, 5u, 6u).
pub(super) fn mat2x3(rt: &impl Abort, alloc: Global) -> MatInstance
    ensures { IsStorable (mat_view result) }
{
    let first = vector_of(rt, alloc, &[1, 2, 3]);
    two_columns(rt, alloc, first, vector_of(rt, alloc, &[4, 5, 6]))
}

/// The matrix with the columns (1, 2, 3) and (4, 5, 6), each number an AbstractInt.
pub(super) fn abstract_mat2x3(rt: &impl Abort, alloc: Global) -> MatInstance
    ensures { IsStorable (mat_view result) }
{
    let first = abstract_vector(rt, alloc, &[1, 2, 3]);
    two_columns(rt, alloc, first, abstract_vector(rt, alloc, &[4, 5, 6]))
}

/// The atomic of the number.
pub(super) fn atomic_of(rt: &impl Abort, alloc: Global, number: u32) -> AtomicInstance
    ensures { IsStorable (atomic_view result) }
{
    let content = Instance::from(number);
    assert!(rt; AtomicInstance::can_make(&content));
    made!(rt; AtomicInstance::new(alloc, content))
}

/// The value of the structure type that has the two members.
pub(super) fn of_two(
    rt: &impl Abort,
    alloc: Global,
    ty: StructType,
    first: Instance,
    second: Instance,
) -> StructInstance
    ensures { IsStorable (struct_view result) }
{
    let members = made!(rt; vec![in alloc; first, second]);
    assert!(rt; StructInstance::can_make(&ty, &members));
    StructInstance::new(ty, members)
}

/// Pair(a, vec3(2u, 3u, 4u))
pub(super) fn pair_with(rt: &impl Abort, alloc: Global, a: u32) -> StructInstance
    ensures { IsStorable (struct_view result) }
{
    let b = Instance::from(vector_of(rt, alloc, &[2, 3, 4]));
    of_two(rt, alloc, pair_type(rt, alloc), Instance::from(a), b)
}

/// The reference to `:m:2` of cell 7, of type u32, in the storage space, for reads and writes.
pub(super) fn reference_of(rt: &impl Abort, alloc: Global) -> RefInstance {
    made!(rt; values::reference_of(alloc))
}

/// The view of a member alone.
pub(super) fn named(rt: &impl Abort, alloc: Global, name: &str) -> MemView {
    MemView::Member(
        text(rt, alloc, name),
        made!(rt; Box::new(alloc, MemView::Whole)),
    )
}

/// The view of a part of an index alone.
pub(super) fn at(rt: &impl Abort, alloc: Global, index: usize) -> MemView {
    MemView::Index(index, made!(rt; Box::new(alloc, MemView::Whole)))
}

//! Types and values that tests look at. That each is storable is asserted as it is made.

ghost use Rattle.wgsl_rules.specs.Values.{IsStorable, IsWellFormed};
ghost use Rattle.wgsl_values.specs.View.{value_of, array_view, atomic_view, mat_view, struct_view, vec_view};

use std::alloc::Global;
use std::process::Abort;
use wgsl_rules::{AccessMode, StructMemberType, StructType, Type};
use wgsl_samples::{types, values};
use wgsl_scalar::LiteralInstance;
use wgsl_values::{
    ArrayInstance, AtomicInstance, Instance, MatInstance, MemView, PtrInstance, RefInstance,
    StructInstance, VecInstance,
};

pub(super) fn text(rt: &impl Abort, alloc: Global, text: &str) -> String {
    made!(rt; String::from_str(alloc, text))
}

pub(super) fn vector(rt: &impl Abort, alloc: Global, n: u8, ty: Type) -> Type {
    made!(rt; types::vector(alloc, n, ty))
}

/// A matrix of 2 columns of 3 rows.
pub(super) fn matrix(rt: &impl Abort, alloc: Global, ty: Type) -> Type {
    made!(rt; types::matrix(alloc, ty))
}

pub(super) fn array(rt: &impl Abort, alloc: Global, ty: Type, count: Option<usize>) -> Type {
    made!(rt; types::array(alloc, ty, count))
}

pub(super) fn reference(rt: &impl Abort, alloc: Global, ty: Type, access: AccessMode) -> Type {
    made!(rt; types::reference(alloc, ty, access))
}

/// struct Pair { a: u32, b: vec3<u32> }
pub(super) fn pair(rt: &impl Abort, alloc: Global) -> Type {
    made!(rt; types::pair(alloc))
}

/// struct Pair { a: u32, b: vec3<u32> }
pub(super) fn pair_type(rt: &impl Abort, alloc: Global) -> StructType {
    made!(rt; types::pair_type(alloc))
}

fn member(rt: &impl Abort, alloc: Global, name: &str, ty: Type) -> StructMemberType {
    made!(rt; types::member(alloc, name, ty, None))
}

/// The structure type of the two members.
fn two_members(
    rt: &impl Abort,
    alloc: Global,
    name: &str,
    first: StructMemberType,
    second: StructMemberType,
) -> StructType {
    let members = made!(rt; vec![in alloc; first, second]);
    made!(rt; types::struct_type(alloc, name, members))
}

/// The value, which can be stored.
pub(super) fn storable(rt: &impl Abort, value: Instance) -> Instance
    ensures storable { IsStorable (value_of result) }
    ensures well_formed { IsWellFormed (value_of result) }
{
    assert!(rt; value.is_storable());
    assert!(rt; value.is_well_formed());
    value
}

/// The values of the numbers, each an u32.
pub(super) fn numbers(rt: &impl Abort, alloc: Global, numbers: &[u32]) -> Vec<Instance> {
    made!(rt; values::numbers(alloc, numbers))
}

/// The values of the numbers, each an i32.
pub(super) fn integers(rt: &impl Abort, alloc: Global, numbers: &[i32]) -> Vec<Instance> {
    made!(rt; values::integers(alloc, numbers))
}

/// The two values.
fn both(rt: &impl Abort, alloc: Global, first: Instance, second: Instance) -> Vec<Instance> {
    made!(rt; vec![in alloc; first, second])
}

pub(super) fn vector_from(rt: &impl Abort, components: Vec<Instance>) -> VecInstance
    ensures { IsStorable (vec_view result) }
{
    assert!(rt; VecInstance::can_make(&components));
    VecInstance::new(components)
}

/// The vector of the numbers, each an u32.
pub(super) fn vector_of(rt: &impl Abort, alloc: Global, components: &[u32]) -> VecInstance
    ensures { IsStorable (vec_view result) }
{
    vector_from(rt, numbers(rt, alloc, components))
}

/// The vector of the numbers, each an AbstractInt.
pub(super) fn abstract_vector(rt: &impl Abort, alloc: Global, components: &[i64]) -> VecInstance
    ensures { IsStorable (vec_view result) }
{
    vector_from(rt, made!(rt; values::abstract_numbers(alloc, components)))
}

/// The array of the elements.
pub(super) fn array_from(
    rt: &impl Abort,
    elements: Vec<Instance>,
    runtime_sized: bool,
) -> ArrayInstance
    ensures { IsStorable (array_view result) }
{
    assert!(rt; ArrayInstance::can_make(&elements, runtime_sized));
    ArrayInstance::new(elements, runtime_sized)
}

/// The array of the numbers, each an AbstractInt.
pub(super) fn abstract_array(
    rt: &impl Abort,
    alloc: Global,
    elements: &[i64],
    runtime_sized: bool,
) -> ArrayInstance
    ensures { IsStorable (array_view result) }
{
    let elements = made!(rt; values::abstract_numbers(alloc, elements));
    array_from(rt, elements, runtime_sized)
}

/// The array of the numbers, each an u32.
pub(super) fn array_of(
    rt: &impl Abort,
    alloc: Global,
    elements: &[u32],
    runtime_sized: bool,
) -> ArrayInstance
    ensures { IsStorable (array_view result) }
{
    array_from(rt, numbers(rt, alloc, elements), runtime_sized)
}

fn matrix_from(rt: &impl Abort, columns: Vec<Instance>) -> MatInstance
    ensures { IsStorable (mat_view result) }
{
    assert!(rt; MatInstance::can_make(&columns));
    MatInstance::from_cols(columns)
}

/// The matrix of the two columns.
fn two_columns(
    rt: &impl Abort,
    alloc: Global,
    first: VecInstance,
    second: VecInstance,
) -> MatInstance
    ensures { IsStorable (mat_view result) }
{
    let columns = both(rt, alloc, Instance::from(first), Instance::from(second));
    matrix_from(rt, columns)
}

/// The matrix with the columns (1, 2, 3) and (4, 5, 6), each number an AbstractInt.
pub(super) fn abstract_mat2x3(rt: &impl Abort, alloc: Global) -> MatInstance
    ensures { IsStorable (mat_view result) }
{
    let first = abstract_vector(rt, alloc, &[1, 2, 3]);
    two_columns(rt, alloc, first, abstract_vector(rt, alloc, &[4, 5, 6]))
}

/// The matrix with the columns (1u, 2u, 3u) and (4u, 5u, 6u).
pub(super) fn mat2x3(rt: &impl Abort, alloc: Global) -> MatInstance
    ensures { IsStorable (mat_view result) }
{
    let first = vector_of(rt, alloc, &[1, 2, 3]);
    two_columns(rt, alloc, first, vector_of(rt, alloc, &[4, 5, 6]))
}

/// The matrix with the columns (1u, 4u), (2u, 5u) and (3u, 6u).
pub(super) fn mat3x2(rt: &impl Abort, alloc: Global) -> MatInstance
    ensures { IsStorable (mat_view result) }
{
    let first = Instance::from(vector_of(rt, alloc, &[1, 4]));
    let second = Instance::from(vector_of(rt, alloc, &[2, 5]));
    let third = Instance::from(vector_of(rt, alloc, &[3, 6]));
    matrix_from(rt, made!(rt; vec![in alloc; first, second, third]))
}

/// The atomic of the number, which is an i32 or a u32.
pub(super) fn atomic_of(rt: &impl Abort, alloc: Global, number: LiteralInstance) -> AtomicInstance
    ensures { IsStorable (atomic_view result) }
{
    let content = Instance::from(number);
    assert!(rt; AtomicInstance::can_make(&content));
    made!(rt; AtomicInstance::new(alloc, content))
}

/// The value of the structure type.
fn structure_from(rt: &impl Abort, ty: StructType, members: Vec<Instance>) -> StructInstance
    ensures { IsStorable (struct_view result) }
{
    assert!(rt; StructInstance::can_make(&ty, &members));
    StructInstance::new(ty, members)
}

/// The members of Pair(a, vec3(2u, 3u, 4u)).
pub(super) fn pair_members(rt: &impl Abort, alloc: Global, a: u32) -> Vec<Instance> {
    let b = vector_of(rt, alloc, &[2, 3, 4]);
    both(rt, alloc, Instance::from(a), Instance::from(b))
}

/// Pair(1u, vec3(2u, 3u, 4u))
pub(super) fn pair_value(rt: &impl Abort, alloc: Global) -> StructInstance
    ensures { IsStorable (struct_view result) }
{
    let members = pair_members(rt, alloc, 1);
    structure_from(rt, pair_type(rt, alloc), members)
}

/// Twins(1u, 2u), whose type has two members of the name a.
pub(super) fn twins(rt: &impl Abort, alloc: Global) -> StructInstance
    ensures { IsStorable (struct_view result) }
{
    let first = member(rt, alloc, "a", Type::U32);
    let second = member(rt, alloc, "a", Type::U32);
    let ty = two_members(rt, alloc, "Twins", first, second);
    structure_from(rt, ty, numbers(rt, alloc, &[1, 2]))
}

/// struct Light { m: mat2x3<u32>, pairs: array<Pair> }
fn light_type(rt: &impl Abort, alloc: Global) -> StructType {
    let m = member(rt, alloc, "m", matrix(rt, alloc, Type::U32));
    let pairs = array(rt, alloc, pair(rt, alloc), None);
    two_members(rt, alloc, "Light", m, member(rt, alloc, "pairs", pairs))
}

/// The array of the structure alone, which is runtime-sized.
fn array_of_one(rt: &impl Abort, alloc: Global, structure: StructInstance) -> ArrayInstance {
    let element = made!(rt; vec![in alloc; Instance::from(structure)]);
    array_from(rt, element, true)
}

/// Light(mat2x3(vec3(1u, 2u, 3u), vec3(4u, 5u, 6u)), array(Pair(1u, vec3(2u, 3u, 4u)))), with the
/// members m and pairs, of which the second is runtime-sized.
pub(super) fn light(rt: &impl Abort, alloc: Global) -> Instance
    ensures { IsStorable (value_of result) }
{
    let pairs = array_of_one(rt, alloc, pair_value(rt, alloc));
    let m = Instance::from(mat2x3(rt, alloc));
    let members = both(rt, alloc, m, Instance::from(pairs));
    Instance::from(structure_from(rt, light_type(rt, alloc), members))
}

/// How many kinds of values there are; the deferred ones are last.
pub(super) const KINDS: usize = 9;

/// The value of the kind, below `KINDS`.
pub(super) fn of_kind(rt: &impl Abort, alloc: Global, kind: usize) -> Instance {
    match kind {
        0 => Instance::from(7u32),
        1 => Instance::from(pair_value(rt, alloc)),
        2 => Instance::from(array_of(rt, alloc, &[1, 2, 3], false)),
        3 => Instance::from(vector_of(rt, alloc, &[1, 2, 3])),
        4 => Instance::from(mat2x3(rt, alloc)),
        5 => Instance::from(PtrInstance::from(reference_of(rt, alloc))),
        6 => Instance::from(reference_of(rt, alloc)),
        7 => Instance::from(atomic_of(rt, alloc, LiteralInstance::U32(5))),
        8 => Instance::from(Type::U32),
        _ => panic!(rt; "there is no kind {kind}"),
    }
}

/// The view `:m:2`.
pub(super) fn member_then_index(rt: &impl Abort, alloc: Global) -> MemView {
    made!(rt; values::member_then_index(alloc))
}

/// The reference to `:m:2` of cell 7, of type u32, in the storage space, for reads and writes.
pub(super) fn reference_of(rt: &impl Abort, alloc: Global) -> RefInstance {
    made!(rt; values::reference_of(alloc))
}

/// The view of a member alone.
pub(super) fn named(rt: &impl Abort, alloc: Global, name: &str) -> MemView {
    let end = made!(rt; Box::new(alloc, MemView::Whole));
    MemView::Member(text(rt, alloc, name), end)
}

/// The view `:m:1:2`.
pub(super) fn to_component(rt: &impl Abort, alloc: Global) -> MemView {
    let mut view = named(rt, alloc, "m");
    made!(rt; view.append_index(alloc, 1));
    made!(rt; view.append_index(alloc, 2));
    view
}

/// The view `:pairs:0:b`.
pub(super) fn to_member(rt: &impl Abort, alloc: Global) -> MemView {
    let mut view = named(rt, alloc, "pairs");
    made!(rt; view.append_index(alloc, 0));
    made!(rt; view.append_member(alloc, text(rt, alloc, "b")));
    view
}

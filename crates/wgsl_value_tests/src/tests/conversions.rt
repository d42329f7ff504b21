//! Conversions of literals, types and values.

ghost use Rattle.wgsl_rules.specs.Values.{IsWellFormed};
ghost use Rattle.wgsl_values.specs.View.{value_of};

use crate::tests::asserts::{assert_gives, assert_none, assert_same, assert_some};
use crate::tests::samples::{
    abstract_array, abstract_mat2x3, abstract_vector, array, array_from, integers, mat2x3, matrix,
    pair, pair_value, reference, reference_of, storable, vector, vector_from, vector_of,
};
use std::alloc::Global;
use std::fmt::Debug;
use std::process::Abort;
use wgsl_rules::{
    AccessMode, Convert, Type, convert, convert_all, convert_all_inner_to, convert_all_to,
    convert_inner,
};
use wgsl_scalar::LiteralInstance;
use wgsl_scalar::LiteralInstance::{AbstractInt, I32, I64, U32};
use wgsl_values::Instance;

#[test]
fn a_literal_converts_to_a_type(rt: HostRuntime) {
    let alloc = rt.alloc();
    let large = AbstractInt(4294967295);
    assert_gives(
        &rt,
        large.convert_to(alloc, &Type::U32),
        Some(U32(4294967295)),
    );
    assert_gives(&rt, large.convert_to(alloc, &Type::I32), None);
    assert_gives(
        &rt,
        U32(1).convert_inner_to(alloc, &Type::U32),
        Some(U32(1)),
    );
    assert_gives(
        &rt,
        AbstractInt(1).convert_inner_to(alloc, &Type::I32),
        Some(I32(1)),
    );
    assert_gives(&rt, U32(1).convert_inner_to(alloc, &Type::I32), None);
    assert_gives(&rt, AbstractInt(1).concretize(alloc), Some(I32(1)));
    assert_gives(&rt, U32(1).concretize(alloc), Some(U32(1)));
    assert_gives(&rt, large.concretize(alloc), None);
}

#[test]
fn two_literals_convert_to_their_common_type(rt: HostRuntime) {
    let alloc = rt.alloc();
    let one = AbstractInt(1);
    assert_gives(&rt, convert(alloc, &one, &U32(2)), Some((U32(1), U32(2))));
    assert_gives(&rt, convert(alloc, &U32(2), &one), Some((U32(2), U32(1))));
    assert_gives(&rt, convert(alloc, &one, &I64(2)), None);
    assert_gives(
        &rt,
        convert_inner(alloc, &one, &U32(2)),
        Some((U32(1), U32(2))),
    );
    assert_gives(&rt, convert_inner(alloc, &I32(1), &U32(2)), None);
}

/// Asserts that the answer is the wanted list.
fn assert_list<T: PartialEq + Debug + Drop, E: Debug + Drop>(
    rt: &impl Abort,
    answer: Result<Option<Vec<T>>, E>,
    wanted: &[T],
) {
    let list = answer.expect(rt, "memory").expect(rt, "a list");
    assert_same(rt, list.as_slice(), wanted);
    drop(list);
}

#[test]
fn literals_convert_to_their_common_type(rt: HostRuntime) {
    let alloc = rt.alloc();
    let literals = [AbstractInt(1), U32(2), AbstractInt(3)];
    let wanted = [U32(1), U32(2), U32(3)];
    assert_list(&rt, convert_all(alloc, &literals), &wanted);
    assert_list(&rt, convert_all_to(alloc, &literals, &Type::U32), &wanted);
    let found = convert_all_inner_to(alloc, &literals, &Type::U32);
    assert_list(&rt, found, &wanted);
    assert_none(&rt, convert_all(alloc, &[AbstractInt(1), I32(2), U32(3)]));
    assert_none(&rt, convert_all_to(alloc, &literals, &Type::I32));
    assert_none(&rt, convert_all_inner_to(alloc, &literals, &Type::I32));
}

#[test]
fn the_empty_list_has_no_common_type_and_converts_to_each(rt: HostRuntime) {
    let alloc = rt.alloc();
    let none: [LiteralInstance; 0] = [];
    assert_none(&rt, convert_all(alloc, &none));
    assert_list(&rt, convert_all_to(alloc, &none, &Type::U32), &none);
    assert_list(&rt, convert_all_inner_to(alloc, &none, &Type::U32), &none);
}

/// Asserts what the value is in the type.
pub(super) fn assert_to<T: Convert + PartialEq + Debug + Drop>(
    rt: &impl Abort,
    alloc: Global,
    value: &T,
    ty: Type,
    wanted: Option<&T>,
)
    requires { IsWellFormed (T.value_of value.now) }
{
    let found = value.convert_to(alloc, &ty).expect(rt, "memory");
    assert_same(rt, found.as_ref(), wanted);
    drop((ty, found));
}

/// Asserts what the value is with what is inside it in the type.
fn assert_inside<T: Convert + PartialEq + Debug + Drop>(
    rt: &impl Abort,
    alloc: Global,
    value: &T,
    ty: &Type,
    wanted: Option<&T>,
)
    requires { IsWellFormed (T.value_of value.now) }
{
    let found = value.convert_inner_to(alloc, ty).expect(rt, "memory");
    assert_same(rt, found.as_ref(), wanted);
    drop(found);
}

/// Asserts what the value is in its concrete type.
fn assert_concrete<T: Convert + PartialEq + Debug + Drop>(
    rt: &impl Abort,
    alloc: Global,
    value: &T,
    wanted: Option<&T>,
)
    requires { IsWellFormed (T.value_of value.now) }
{
    let found = value.concretize(alloc).expect(rt, "memory");
    assert_same(rt, found.as_ref(), wanted);
    drop(found);
}

#[test]
fn a_type_is_made_concrete(rt: HostRuntime) {
    let alloc = rt.alloc();
    let ty = array(&rt, alloc, vector(&rt, alloc, 2, Type::AbstractInt), None);
    let wanted = array(&rt, alloc, vector(&rt, alloc, 2, Type::I32), None);
    assert_concrete(&rt, alloc, &ty, Some(&wanted));
    assert_gives(&rt, ty.concretize(alloc), wanted);
    assert_gives(&rt, Type::AbstractFloat.concretize(alloc), Type::F32);
    assert_gives(&rt, Type::I64.concretize(alloc), Type::I64);
    let columns = matrix(&rt, alloc, Type::AbstractInt);
    let wanted = matrix(&rt, alloc, Type::F32);
    assert_gives(&rt, columns.concretize(alloc), wanted);
    drop((ty, columns));
}

#[test]
fn a_type_is_loaded_through_references(rt: HostRuntime) {
    let alloc = rt.alloc();
    let once = reference(&rt, alloc, Type::U32, AccessMode::Read);
    assert_same(&rt, once.loaded(), Type::U32);
    let inner = reference(&rt, alloc, Type::U32, AccessMode::Read);
    let twice = reference(&rt, alloc, inner, AccessMode::Write);
    assert_same(&rt, twice.loaded(), Type::U32);
    let two = vector(&rt, alloc, 2, Type::I32);
    assert_same(&rt, two.loaded(), vector(&rt, alloc, 2, Type::I32));
}

#[test]
fn a_type_converts_to_a_type(rt: HostRuntime) {
    let alloc = rt.alloc();
    let of_any = vector(&rt, alloc, 2, Type::AbstractInt);
    let of_u32 = vector(&rt, alloc, 2, Type::U32);
    assert_inside(&rt, alloc, &of_any, &Type::I64, None);
    assert_none(&rt, of_u32.convert_to(alloc, &of_any));
    assert_inside(&rt, alloc, &of_any, &Type::U32, Some(&of_u32));
    assert_some(&rt, of_any.convert_to(alloc, &of_u32), &of_u32);
    drop((of_any, of_u32));
}

#[test]
fn types_convert_to_their_common_type(rt: HostRuntime) {
    let alloc = rt.alloc();
    let any = Type::AbstractInt;
    let wanted = (Type::U32, Type::U32);
    assert_some(&rt, convert(alloc, &any, &Type::U32), &wanted);
    assert_none(&rt, convert(alloc, &any, &Type::I64));
    let readable = reference(&rt, alloc, Type::U32, AccessMode::Read);
    assert_some(&rt, convert(alloc, &readable, &Type::U32), &wanted);
    let of_any = vector(&rt, alloc, 2, Type::AbstractInt);
    let inner = (vector(&rt, alloc, 2, Type::I32), Type::I32);
    assert_some(&rt, convert_inner(alloc, &of_any, &Type::I32), &inner);
    drop((any, wanted, readable, of_any, inner));
}

#[test]
fn lists_of_types_convert(rt: HostRuntime) {
    let alloc = rt.alloc();
    let types = [Type::AbstractInt, Type::U32];
    let wanted = [Type::U32, Type::U32];
    assert_list(&rt, convert_all(alloc, &types), &wanted);
    assert_list(&rt, convert_all_to(alloc, &types, &Type::U32), &wanted);
    let found = convert_all_inner_to(alloc, &types, &Type::U32);
    assert_list(&rt, found, &wanted);
    assert_none(&rt, convert_all_to(alloc, &types, &Type::I32));
    drop((types, wanted));
}

#[test]
fn a_fixed_array_converts_to_arrays_of_its_count(rt: HostRuntime) {
    let alloc = rt.alloc();
    let value = abstract_array(&rt, alloc, &[1, 2], false);
    let wanted = array_from(&rt, integers(&rt, alloc, &[1, 2]), false);
    let two = array(&rt, alloc, Type::I32, Some(2));
    assert_to(&rt, alloc, &value, two, Some(&wanted));
    assert_inside(&rt, alloc, &value, &Type::I32, Some(&wanted));
    assert_concrete(&rt, alloc, &value, Some(&wanted));
    let endless = array(&rt, alloc, Type::I32, None);
    assert_to(&rt, alloc, &value, endless, None);
    let three = array(&rt, alloc, Type::I32, Some(3));
    assert_to(&rt, alloc, &value, three, None);
    drop((value, wanted));
}

#[test]
fn a_runtime_sized_array_converts_to_runtime_sized_ones(rt: HostRuntime) {
    let alloc = rt.alloc();
    let value = abstract_array(&rt, alloc, &[1, 2], true);
    let wanted = array_from(&rt, integers(&rt, alloc, &[1, 2]), true);
    let endless = array(&rt, alloc, Type::I32, None);
    assert_to(&rt, alloc, &value, endless, Some(&wanted));
    assert_inside(&rt, alloc, &value, &Type::I32, Some(&wanted));
    assert_inside(&rt, alloc, &value, &Type::I64, None);
    let two = array(&rt, alloc, Type::I32, Some(2));
    assert_to(&rt, alloc, &value, two, None);
    drop((value, wanted));
}

#[test]
fn a_vector_converts_to_vectors_of_its_size(rt: HostRuntime) {
    let alloc = rt.alloc();
    let value = abstract_vector(&rt, alloc, &[1, 2]);
    let wanted = vector_from(&rt, integers(&rt, alloc, &[1, 2]));
    let two = vector(&rt, alloc, 2, Type::I32);
    assert_to(&rt, alloc, &value, two, Some(&wanted));
    assert_inside(&rt, alloc, &value, &Type::I32, Some(&wanted));
    assert_concrete(&rt, alloc, &value, Some(&wanted));
    let three = vector(&rt, alloc, 3, Type::I32);
    assert_to(&rt, alloc, &value, three, None);
    let large = abstract_vector(&rt, alloc, &[4294967295, 1]);
    assert_concrete(&rt, alloc, &large, None);
    drop((value, wanted, large));
}

#[test]
fn a_matrix_converts_to_matrices_of_its_shape(rt: HostRuntime) {
    let alloc = rt.alloc();
    let value = abstract_mat2x3(&rt, alloc);
    let wanted = mat2x3(&rt, alloc);
    let own = matrix(&rt, alloc, Type::U32);
    assert_to(&rt, alloc, &value, own, Some(&wanted));
    assert_inside(&rt, alloc, &value, &Type::U32, Some(&wanted));
    let two = vector(&rt, alloc, 2, Type::U32);
    assert_to(&rt, alloc, &value, two, None);
    assert_concrete(&rt, alloc, &value, None);
    assert_concrete(&rt, alloc, &wanted, Some(&wanted));
    drop((value, wanted));
}

#[test]
fn a_structure_converts_to_its_own_type(rt: HostRuntime) {
    let alloc = rt.alloc();
    let value = pair_value(&rt, alloc);
    assert_to(&rt, alloc, &value, pair(&rt, alloc), Some(&value));
    assert_to(&rt, alloc, &value, Type::U32, None);
    let own = pair(&rt, alloc);
    assert_inside(&rt, alloc, &value, &own, Some(&value));
    assert_inside(&rt, alloc, &value, &Type::U32, None);
    assert_concrete(&rt, alloc, &value, Some(&value));
    drop((value, own));
}

#[test]
fn a_value_converts_to_a_type(rt: HostRuntime) {
    let alloc = rt.alloc();
    let value = storable(&rt, Instance::from(abstract_vector(&rt, alloc, &[1, 2])));
    let wanted = Instance::from(vector_of(&rt, alloc, &[1, 2]));
    let concrete = Instance::from(vector_from(&rt, integers(&rt, alloc, &[1, 2])));
    let two = vector(&rt, alloc, 2, Type::U32);
    assert_to(&rt, alloc, &value, two, Some(&wanted));
    assert_inside(&rt, alloc, &value, &Type::U32, Some(&wanted));
    assert_concrete(&rt, alloc, &value, Some(&concrete));
    assert_to(&rt, alloc, &value, Type::U32, None);
    drop((value, wanted, concrete));
}

#[test]
fn a_structure_has_nothing_inside_that_converts(rt: HostRuntime) {
    let alloc = rt.alloc();
    let value = storable(&rt, Instance::from(pair_value(&rt, alloc)));
    assert_to(&rt, alloc, &value, pair(&rt, alloc), Some(&value));
    let own = pair(&rt, alloc);
    assert_inside(&rt, alloc, &value, &own, None);
    assert_concrete(&rt, alloc, &value, Some(&value));
    drop((value, own));
}

#[test]
fn a_reference_converts_to_its_own_type_and_is_not_loaded(rt: HostRuntime) {
    let alloc = rt.alloc();
    let value = storable(&rt, Instance::from(reference_of(&rt, alloc)));
    let own = reference(&rt, alloc, Type::U32, AccessMode::ReadWrite);
    assert_to(&rt, alloc, &value, own, Some(&value));
    assert_to(&rt, alloc, &value, Type::U32, None);
    assert_inside(&rt, alloc, &value, &Type::U32, None);
    drop(value);
}

#[test]
fn two_values_convert_to_their_common_type(rt: HostRuntime) {
    let alloc = rt.alloc();
    let any = storable(&rt, Instance::from(abstract_vector(&rt, alloc, &[1, 2])));
    let typed = storable(&rt, Instance::from(vector_of(&rt, alloc, &[3, 4])));
    let wanted = Instance::from(vector_of(&rt, alloc, &[1, 2]));
    let second = Instance::from(vector_of(&rt, alloc, &[3, 4]));
    assert_gives(&rt, convert(alloc, &any, &typed), Some((wanted, second)));
    let scalar = storable(&rt, Instance::from(5u32));
    assert_none(&rt, convert(alloc, &any, &scalar));
    drop((any, typed, scalar));
}

#[test]
fn what_is_inside_converts_to_the_common_type(rt: HostRuntime) {
    let alloc = rt.alloc();
    let any = abstract_vector(&rt, alloc, &[1, 2]);
    let wanted = vector_from(&rt, integers(&rt, alloc, &[1, 2]));
    let found = convert_inner(alloc, &any, &I32(5));
    assert_gives(&rt, found, Some((wanted, I32(5))));
    let any = storable(&rt, Instance::from(any));
    let five = storable(&rt, Instance::from(5i32));
    let wanted = Instance::from(vector_from(&rt, integers(&rt, alloc, &[1, 2])));
    let found = convert_inner(alloc, &any, &five);
    assert_gives(&rt, found, Some((wanted, Instance::from(5i32))));
    drop((any, five));
}

#[test]
fn lists_of_values_convert(rt: HostRuntime) {
    let alloc = rt.alloc();
    let first = storable(&rt, Instance::from(1i64));
    let second = storable(&rt, Instance::from(2u32));
    let values = [first, second];
    let wanted = [Instance::from(1u32), Instance::from(2u32)];
    assert_list(&rt, convert_all(alloc, &values), &wanted);
    assert_list(&rt, convert_all_to(alloc, &values, &Type::U32), &wanted);
    let found = convert_all_inner_to(alloc, &values, &Type::U32);
    assert_list(&rt, found, &wanted);
    assert_none(&rt, convert_all_to(alloc, &values, &Type::I32));
    drop((values, wanted));
}

/// Asserts whether the value tells that its type converts to the type.
fn assert_tells(rt: &impl Abort, value: &Instance, ty: Type, wanted: bool)
    requires { IsWellFormed (value_of value.now) }
{
    assert!(rt; value.is_convertible_to(&ty) == wanted);
    drop(ty);
}

#[test]
fn a_value_tells_to_which_types_its_own_converts(rt: HostRuntime) {
    let alloc = rt.alloc();
    let large = storable(&rt, Instance::from(4294967295i64));
    assert_tells(&rt, &large, Type::I32, true);
    assert_tells(&rt, &large, Type::I64, false);
    let pair_of_any = storable(&rt, Instance::from(abstract_vector(&rt, alloc, &[1, 2])));
    assert_tells(&rt, &pair_of_any, vector(&rt, alloc, 2, Type::U32), true);
    assert_tells(&rt, &pair_of_any, vector(&rt, alloc, 3, Type::U32), false);
    let readable = storable(&rt, Instance::from(reference_of(&rt, alloc)));
    assert_tells(&rt, &readable, Type::U32, true);
    assert_tells(&rt, &readable, Type::I32, false);
    drop((large, pair_of_any, readable));
}

#[test]
fn a_composite_tells_to_which_types_its_own_converts(rt: HostRuntime) {
    let alloc = rt.alloc();
    let elements = abstract_array(&rt, alloc, &[1, 2], false);
    let elements = storable(&rt, Instance::from(elements));
    let two = array(&rt, alloc, Type::I32, Some(2));
    assert_tells(&rt, &elements, two, true);
    let endless = array(&rt, alloc, Type::I32, None);
    assert_tells(&rt, &elements, endless, false);
    let columns = storable(&rt, Instance::from(abstract_mat2x3(&rt, alloc)));
    assert_tells(&rt, &columns, matrix(&rt, alloc, Type::F32), true);
    assert_tells(&rt, &columns, matrix(&rt, alloc, Type::U64), false);
    let structure = storable(&rt, Instance::from(pair_value(&rt, alloc)));
    assert_tells(&rt, &structure, pair(&rt, alloc), true);
    assert_tells(&rt, &structure, Type::U32, false);
    drop((elements, columns, structure));
}

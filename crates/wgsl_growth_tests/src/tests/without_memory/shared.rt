//! Structure types that values share, and those of one value.

ghost use Rattle.wgsl_rules.specs.Values.{IsStorable};
ghost use Rattle.wgsl_values.specs.View.{struct_view};

use crate::tests::asserts::{assert_same, assert_that};
use crate::tests::samples::{member, numbers, pair_type, pair_with, two_members, vector_of};
use std::alloc::Global;
use std::process::Abort;
use wgsl_rules::{StructType, Type};
use wgsl_values::{Instance, SharedStructType, StructInstance};

/// struct S { a: u32, b: u32 }
fn other_type(rt: &impl Abort, alloc: Global) -> StructType {
    let b = member(rt, alloc, "b", Type::U32);
    two_members(rt, alloc, member(rt, alloc, "a", Type::U32), b)
}

/// The type of pairs, to be shared.
fn shared_pair_type(rt: &impl Abort, alloc: Global) -> SharedStructType {
    made!(rt; SharedStructType::new(alloc, pair_type(rt, alloc)))
}

/// The members of Pair(a, vec3(2u, 3u, 4u)).
fn members_with(rt: &impl Abort, alloc: Global, a: u32) -> Vec<Instance> {
    let b = Instance::from(vector_of(rt, alloc, &[2, 3, 4]));
    made!(rt; vec![in alloc; Instance::from(a), b])
}

/// The structure of the type, with these members.
fn of_shared(rt: &impl Abort, ty: SharedStructType, members: Vec<Instance>) -> StructInstance
    ensures { IsStorable (struct_view result) }
{
    assert!(rt; StructInstance::can_make(ty.get(), &members));
    StructInstance::of_shared(ty, members)
}

/// Asserts that it is the type, and not the other one.
fn assert_is_type(rt: &impl Abort, shared: &SharedStructType, ty: &StructType, other: &StructType) {
    assert_same(rt, shared.get(), ty);
    assert_that(rt, shared.is_type(ty));
    assert_that(rt, !shared.is_type(other));
}

/// The same type for another value. The condition: values share it.
fn again(rt: &impl Abort, alloc: Global, shared: &SharedStructType) -> SharedStructType {
    shared.clone(alloc).expect(rt, "no memory is taken")
}

#[test]
fn a_type_of_one_value(rt: HostRuntime) {
    let alloc = rt.alloc();
    let (ty, other) = (pair_type(&rt, alloc), other_type(&rt, alloc));
    let own = pair_type(&rt, alloc);
    let own = SharedStructType::own(own);
    assert_is_type(&rt, &own, &ty, &other);
    drop((ty, other, own));
}

#[test]
fn a_type_that_values_share(rt: HostRuntime) {
    let alloc = rt.alloc();
    let (ty, other) = (pair_type(&rt, alloc), other_type(&rt, alloc));
    let shared = shared_pair_type(&rt, alloc);
    let second = again(&rt, alloc, &shared);
    assert_is_type(&rt, &shared, &ty, &other);
    drop(shared);
    let third = again(&rt, alloc, &second);
    drop(second);
    assert_is_type(&rt, &third, &ty, &other);
    drop((ty, other, third));
}

#[test]
fn structures_of_a_type_that_they_share(rt: HostRuntime) {
    let alloc = rt.alloc();
    let shared = shared_pair_type(&rt, alloc);
    let (ones, nines) = (members_with(&rt, alloc, 1), members_with(&rt, alloc, 9));
    let (one, nine) = (pair_with(&rt, alloc, 1), pair_with(&rt, alloc, 9));
    let two = numbers(&rt, alloc, &[1, 2]);
    assert!(rt; !StructInstance::can_make(shared.get(), &two));
    let first = of_shared(&rt, shared, ones);
    let again = again(&rt, alloc, first.shared_ty());
    assert_same(&rt, first, one);
    assert_same(&rt, of_shared(&rt, again, nines), nine);
    drop(two);
}

#[test]
fn a_structure_of_a_type_of_its_own(rt: HostRuntime) {
    let alloc = rt.alloc();
    let (ty, members) = (pair_type(&rt, alloc), members_with(&rt, alloc, 1));
    let wanted = pair_with(&rt, alloc, 1);
    let value = of_shared(&rt, SharedStructType::own(ty), members);
    assert_that(&rt, value.shared_ty().is_type(wanted.struct_ty()));
    assert_same(&rt, value, wanted);
}

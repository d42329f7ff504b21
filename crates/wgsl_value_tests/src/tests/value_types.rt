//! The types of values of all kinds.

ghost use Rattle.wgsl_rules.specs.Values.{IsWellFormed};
ghost use Rattle.wgsl_values.specs.View.{value_of};

use crate::tests::asserts::assert_is;
use crate::tests::samples::{
    array, array_of, atomic_of, mat2x3, matrix, pair, pair_value, reference, reference_of,
    storable, vector, vector_of,
};
use std::alloc::Global;
use std::process::Abort;
use wgsl_rules::{AccessMode, AddressSpace, Ty, Type};
use wgsl_scalar::LiteralInstance::I32;
use wgsl_values::{Instance, PtrInstance};

/// Asserts the type and the inner type of what has one.
fn assert_type<T: Ty>(rt: &impl Abort, alloc: Global, value: &T, ty: &Type, inner: &Type)
    requires { IsWellFormed (T.value_of value.now) }
{
    assert_is(&rt, ty, value.ty(alloc).expect(rt, "memory"));
    assert_is(&rt, inner, value.inner_ty(alloc).expect(rt, "memory"));
    assert!(rt; value.has_ty(ty), "{ty}");
    assert!(rt; !value.has_ty(&Type::F64), "{ty}");
}

/// Asserts the type and the inner type of what a value is made from, and of that value.
fn assert_both<T: Ty>(rt: &impl Abort, alloc: Global, payload: T, ty: &Type, inner: &Type)
where
    Instance: From<T>,
    requires { IsWellFormed (T.value_of payload) }
{
    assert_type(rt, alloc, &payload, ty, inner);
    let value = storable(rt, Instance::from(payload));
    assert_type(rt, alloc, &value, ty, inner);
    drop(value);
}

/// Asserts that what has a type has another one.
fn assert_has_not<T: Ty>(rt: &impl Abort, value: &T, ty: Type)
    requires { IsWellFormed (T.value_of value.now) }
{
    assert!(rt; !value.has_ty(&ty), "{ty}");
    drop(ty);
}

#[test]
fn types_of_composites(rt: HostRuntime) {
    let alloc = rt.alloc();
    let own = pair(&rt, alloc);
    assert_both(&rt, alloc, pair_value(&rt, alloc), &own, &own);
    let two = array(&rt, alloc, Type::U32, Some(2));
    let value = array_of(&rt, alloc, &[1, 2], false);
    assert_has_not(&rt, &value, array(&rt, alloc, Type::U32, None));
    assert_has_not(&rt, &value, array(&rt, alloc, Type::U32, Some(3)));
    assert_both(&rt, alloc, value, &two, &Type::U32);
    let endless = array(&rt, alloc, Type::U32, None);
    let value = array_of(&rt, alloc, &[1, 2], true);
    assert_type(&rt, alloc, &value, &endless, &Type::U32);
    assert_has_not(&rt, &value, array(&rt, alloc, Type::U32, Some(2)));
    drop((own, two, endless, value));
}

#[test]
fn types_of_vectors_and_matrices(rt: HostRuntime) {
    let alloc = rt.alloc();
    let three = vector(&rt, alloc, 3, Type::U32);
    let value = vector_of(&rt, alloc, &[1, 2, 3]);
    assert_has_not(&rt, &value, vector(&rt, alloc, 2, Type::U32));
    assert_has_not(&rt, &value, vector(&rt, alloc, 3, Type::I32));
    assert_both(&rt, alloc, value, &three, &Type::U32);
    let columns = matrix(&rt, alloc, Type::U32);
    assert_both(&rt, alloc, mat2x3(&rt, alloc), &columns, &Type::U32);
    drop((three, columns));
}

#[test]
fn types_of_what_has_no_parts(rt: HostRuntime) {
    let alloc = rt.alloc();
    let literal = storable(&rt, Instance::from(-1i64));
    assert_type(&rt, alloc, &literal, &Type::AbstractInt, &Type::AbstractInt);
    let ty = Type::Atomic(Box::new(alloc, Type::I32).expect(&rt, "memory"));
    let value = atomic_of(&rt, alloc, I32(5));
    assert_both(&rt, alloc, value, &ty, &Type::I32);
    let own = vector(&rt, alloc, 2, Type::U32);
    let deferred = Instance::from(vector(&rt, alloc, 2, Type::U32));
    assert!(rt; deferred.is_well_formed());
    assert_type(&rt, alloc, &deferred, &own, &Type::U32);
    drop((literal, ty, own, deferred));
}

#[test]
fn types_of_references_and_pointers(rt: HostRuntime) {
    let alloc = rt.alloc();
    let own = reference(&rt, alloc, Type::U32, AccessMode::ReadWrite);
    let value = reference_of(&rt, alloc);
    let readable = reference(&rt, alloc, Type::U32, AccessMode::Read);
    assert_has_not(&rt, &value, readable);
    assert_both(&rt, alloc, value, &own, &Type::U32);
    let target = Box::new(alloc, Type::U32).expect(&rt, "memory");
    let ty = Type::Ptr(AddressSpace::Storage, target, AccessMode::ReadWrite);
    let value = PtrInstance::from(reference_of(&rt, alloc));
    assert_both(&rt, alloc, value, &ty, &Type::U32);
    drop((own, ty));
}

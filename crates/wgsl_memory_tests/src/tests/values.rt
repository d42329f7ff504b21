//! Values: what they are read from, their copies and their types.

use crate::tests::asserts::{assert_gives, assert_is, assert_same};
use crate::tests::fixtures::{bytes_of, vector};
use std::alloc::Global;
use std::process::Abort;
use wgsl_rules::{Ty, Type};
use wgsl_store::Buffers;
use wgsl_values::Instance;

/// The value of the type whose bytes are those of the numbers.
pub(super) fn value_of(rt: &impl Abort, alloc: Global, numbers: &[u32], ty: &Type) -> Instance {
    let bytes = bytes_of(rt, alloc, numbers);
    let value = Instance::from_buffer(alloc, bytes.as_slice(), ty).expect(rt, "memory");
    value.expect(rt, "a value")
}

#[test]
fn a_copy_equals_its_source(rt: HostRuntime) {
    let alloc = rt.alloc();
    let ty = vector(&rt, alloc, 3, Type::U32);
    let bytes = bytes_of(&rt, alloc, &[1, 2, 3]);
    let value = value_of(&rt, alloc, &[1, 2, 3], &ty);
    let copy = value.clone(alloc).expect(&rt, "memory");
    assert!(rt; copy.is_well_formed());
    assert!(rt; copy.has_ty(&ty));
    let again = copy.to_buffer(alloc).expect(&rt, "memory");
    assert_same(&rt, again, Some(bytes));
    assert_gives(&rt, copy.ty(alloc), ty);
    assert_is(&rt, &value, copy);
    drop(value);
}

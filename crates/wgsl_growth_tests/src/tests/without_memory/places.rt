//! Where the parts of types stand, what the uniform address space asks, and what measures of parts give.

use crate::tests::asserts::{assert_same, assert_that};
use crate::tests::samples::{array, atomic, matrix, member, pair, pair_type, two_members, vector};
use std::alloc::Global;
use std::process::Abort;
use wgsl_rules::AccessMode::{Read, ReadWrite, Write};
use wgsl_rules::{MemberMeasures, StructType, Type, UniformRule};

/// struct S { a: u32, b: array<u32> }
fn endless(rt: &impl Abort, alloc: Global) -> StructType {
    let elements = array(rt, alloc, Type::U32, None);
    let (a, b) = (
        member(rt, alloc, "a", Type::U32),
        member(rt, alloc, "b", elements),
    );
    two_members(rt, alloc, a, b)
}

#[test]
fn strides_and_bindings(rt: HostRuntime) {
    let alloc = rt.alloc();
    let threes = array(&rt, alloc, vector(&rt, alloc, 3, Type::U32), None);
    let (matrix, endless) = (matrix(&rt, alloc, Type::U32), endless(&rt, alloc));
    let whole = Type::Struct(made!(&rt; Box::new(alloc, self::endless(&rt, alloc))));
    let strides = [threes.stride(), matrix.stride(), Type::U32.stride()];
    assert_same(&rt, strides, [Some(16), Some(16), None]);
    let sizes = [
        threes.size_with(3),
        endless.size_with(3),
        whole.size_with(3),
    ];
    assert_same(&rt, sizes, [Some(48), Some(16), Some(16)]);
    let bindings = [
        threes.least_binding(),
        endless.least_binding(),
        whole.least_binding(),
    ];
    assert_same(&rt, bindings, [Some(16), Some(8), Some(8)]);
    let reads = [Read.is_read(), Write.is_read(), ReadWrite.is_read()];
    assert_same(&rt, reads, [true, false, true]);
    let writes = [Read.is_write(), Write.is_write(), ReadWrite.is_write()];
    assert_same(&rt, writes, [false, true, true]);
    drop((threes, matrix, endless));
    drop(whole);
}

#[test]
fn rules_of_the_uniform_address_space(rt: HostRuntime) {
    let alloc = rt.alloc();
    let threes = array(&rt, alloc, vector(&rt, alloc, 3, Type::U32), Some(2));
    let words = array(&rt, alloc, Type::U32, Some(2));
    let rows = [
        (pair(&rt, alloc), None, Some(16)),
        (threes, None, Some(16)),
        (words, Some(UniformRule::Stride(4)), Some(16)),
        (
            array(&rt, alloc, Type::U32, None),
            Some(UniformRule::RuntimeSized),
            Some(16),
        ),
        (
            atomic(&rt, alloc, Type::U32),
            Some(UniformRule::NotShared),
            Some(4),
        ),
    ];
    for (ty, rule, align) in &rows {
        assert_same(&rt, ty.uniform_rule(), *rule);
        assert_same(&rt, ty.required_align(), *align);
    }
    drop(rows);
}

#[test]
fn measures_of_parts_and_of_the_whole(rt: HostRuntime) {
    let alloc = rt.alloc();
    let (three, structure) = (vector(&rt, alloc, 3, Type::U32), pair_type(&rt, alloc));
    let same = pair_type(&rt, alloc);
    let (word, vector) = (Type::U32.measures(), three.measures());
    assert_same(&rt, vector.stride(), Some(16));
    assert_same(&rt, vector.of_array(Some(5)).size, Some(80));
    assert_same(&rt, word.of_member(Some(8), Some(16)).size, Some(8));
    let first = MemberMeasures::NONE.with(word.of_member(None, None));
    assert_same(&rt, first.offset_of(vector), Some(16));
    let both = first.with(vector.of_member(None, None));
    assert_that(&rt, both.have_layout());
    assert_same(&rt, both.of_struct().size, Some(32));
    assert_same(&rt, &structure, &same);
    assert_same(&rt, structure.members.len(), 2);
    drop((three, structure, same));
}

//! Sizes, alignments and layouts of types, also of types that no shader has.

use crate::tests::asserts::{assert_row, assert_same, assert_that};
use crate::tests::reading::{asked, boxed, declared, is_true, number, parted, ty};
use crate::tests::samples::{array, vector};
use std::alloc::Global;
use std::process::Abort;
use wgsl_rules::{Measures, MemberMeasures, StructMemberType, StructType, Type};

const STRUCTURES: &str = "\
    Empty {}
    Padded64 { a: u32; b: vec3<i64> }
    Filled64 { a: vec3<u64>; b: u32 }
    Aligned8 { @align(8) a: vec3<i64>; b: u32 }
    Aligned32 { @align(32) a: vec3<i64>; b: u32 }
    Padded { a: u32; b: vec3<u32> }
    Filled { a: vec3<u32>; b: u32 }
    FirstOf16 { @size(16) a: u32; b: u32 }
    SecondAt16 { a: u32; @align(16) b: u32 }
    Ends { a: vec4<u32>; b: array<u32> }
    EndsInside { a: u32; b: Ends }
    Begins { a: array<u32>; b: u32 }
    Sized { @size(8) a: array<u32> }
    AlignOf0 { @align(0) a: u32 }
    AlignOf3 { @align(3) a: u32 }
    AlignOf2 { @align(2) a: u32 }
    SizeOf2 { @size(2) a: u32 }
    SizeOfAll { @size(4294967295) a: u32 }
    Longest { a: array<u32, 1073741823>; b: u32 }
    Far { @align(2147483648) a: u32 }";

/// Types, their sizes and alignments, and whether they have a layout.
const MEASURES: &str = "\
    scalars_and_vectors: i32 = 4 4 true
    scalars_and_vectors: u64 = 8 8 true
    scalars_and_vectors: bool = 4 4 false
    scalars_and_vectors: f16 = 2 2 false
    scalars_and_vectors: AbstractInt = - - false
    scalars_and_vectors: atomic<i32> = 4 4 true
    scalars_and_vectors: vec2<i64> = 16 16 true
    scalars_and_vectors: vec3<u32> = 12 16 true
    scalars_and_vectors: vec3<f16> = 6 8 false
    scalars_and_vectors: vec4<u64> = 32 32 true
    matrices: mat3x3<u32> = 48 16 true
    matrices: mat2x2<u32> = 16 8 true
    matrices: mat2x4<i64> = 64 32 true
    matrices: mat2x3<i64> = 64 32 true
    matrices: mat5x2<u32> = 40 8 false
    three_components_of_64_bit_integers_stand_at_multiples_of_32: vec3<i64> = 24 32 true
    three_components_of_64_bit_integers_stand_at_multiples_of_32: array<vec3<i64>, 2> = 64 32 true
    three_components_of_64_bit_integers_stand_at_multiples_of_32: Padded64 = 64 32 true
    three_components_of_64_bit_integers_stand_at_multiples_of_32: Filled64 = 32 32 true
    three_components_of_64_bit_integers_stand_at_multiples_of_32: array<vec3<f64>, 2> = - - false
    an_alignment_of_three_64_bit_integers_is_a_multiple_of_32: Aligned8 = 32 8 false
    an_alignment_of_three_64_bit_integers_is_a_multiple_of_32: Aligned32 = 32 32 true
    structures: Padded = 32 16 true
    structures: Filled = 16 16 true
    structures: FirstOf16 = 20 4 true
    structures: SecondAt16 = 32 16 true
    runtime_sized_arrays: array<vec3<u32>> = - 16 true
    runtime_sized_arrays: Ends = - 16 true
    runtime_sized_arrays: EndsInside = - 16 false
    runtime_sized_arrays: Begins = - 4 false
    runtime_sized_arrays: Sized = 8 4 false
    attributes_that_are_not_valid: AlignOf0 = - 0 false
    attributes_that_are_not_valid: AlignOf3 = 6 3 false
    attributes_that_are_not_valid: AlignOf2 = 4 2 false
    attributes_that_are_not_valid: SizeOf2 = 4 4 false
    attributes_that_are_not_valid: SizeOfAll = - 4 false
    sizes_at_the_limit: array<u32, 1073741823> = 4294967292 4 true
    sizes_at_the_limit: array<u32, 1073741824> = - 4 false
    sizes_at_the_limit: array<u32, 18446744073709551615> = - 4 false
    sizes_at_the_limit: Longest = - 4 false
    sizes_at_the_limit: Far = 2147483648 2147483648 true
    types_that_are_no_wgsl: Empty = - 0 false
    types_that_are_no_wgsl: array<u32, 0> = 0 4 false
    types_that_are_no_wgsl: vec5<u32> = 20 20 false
    types_that_are_no_wgsl: atomic<i64> = 4 4 false
    types_that_are_no_wgsl: array<bool, 2> = 8 4 false";

#[test]
fn sizes_alignments_and_layouts(rt: HostRuntime) {
    let alloc = rt.alloc();
    let known = declared(&rt, alloc, STRUCTURES);
    for row in MEASURES.lines() {
        let (question, wanted) = asked(&rt, row);
        let (size, wanted) = parted(&rt, wanted, " ");
        let (align, has_layout) = parted(&rt, wanted, " ");
        let ty = ty(&rt, alloc, &known, question);
        assert_row(&rt, row, ty.size_of(), number(&rt, size));
        assert_row(&rt, row, ty.align_of(), number(&rt, align));
        assert_row(&rt, row, ty.has_layout(), is_true(&rt, has_layout));
        drop(ty);
    }
    drop(known);
}

/// Types and the least sizes of one of them.
const LEAST_SIZES: &str = "\
    runtime_sized_arrays: array<vec3<u32>> = 16
    runtime_sized_arrays: Ends = -";

#[test]
fn least_sizes(rt: HostRuntime) {
    let alloc = rt.alloc();
    let known = declared(&rt, alloc, STRUCTURES);
    for row in LEAST_SIZES.lines() {
        let (question, wanted) = asked(&rt, row);
        let ty = ty(&rt, alloc, &known, question);
        assert_row(&rt, row, ty.min_size_of(), number(&rt, wanted));
        drop(ty);
    }
    drop(known);
}

/// struct S { a: T }
fn one(rt: &impl Abort, alloc: Global, ty: Type) -> Type {
    let member = StructMemberType {
        name: String::from_str(alloc, "a").expect(rt, "memory"),
        ty,
        size: None,
        align: None,
    };
    let members = vec![in alloc; member].expect(rt, "memory");
    let name = String::from_str(alloc, "S").expect(rt, "memory");
    boxed(rt, alloc, StructType { name, members })
}

// An u32 in so many arrays of one, each the member of a structure.
fn deep(rt: &impl Abort, alloc: Global, depth: usize) -> Type {
    let mut ty = Type::U32;
    for _ in 0..depth {
        let inner = array(rt, alloc, ty, Some(1));
        ty = one(rt, alloc, inner);
    }
    ty
}

// Each level of a type is seen once: a second look at each would take longer than any test may.
#[test]
fn deep_types_are_measured_in_one_walk(rt: HostRuntime) {
    let ty = deep(&rt, rt.alloc(), 100);
    assert_same(&rt, ty.min_size_of(), Some(4));
    assert_same(&rt, (ty.size_of(), ty.align_of()), (Some(4), Some(4)));
    assert_same(&rt, ty.has_layout(), true);
    drop(ty);
}

fn measures_of(ty: Type) -> Measures {
    ty.measures()
}

#[test]
fn measures_of_members_and_of_their_structure(rt: HostRuntime) {
    let alloc = rt.alloc();
    let word = measures_of(Type::U32);
    let vector = measures_of(vector(&rt, alloc, 3, Type::U32));
    let first = word.of_member(None, None);
    assert_same(&rt, MemberMeasures::NONE.offset_of(first), Some(0));
    let one = MemberMeasures::NONE.with(first);
    assert_same(&rt, one.offset_of(first), Some(4));
    assert_same(&rt, one.offset_of(word.of_member(None, Some(16))), Some(16));
    let second = vector.of_member(None, None);
    assert_same(&rt, one.offset_of(second), Some(16));
    let both = one.with(second);
    assert_that(&rt, both.have_layout());
    let whole = both.of_struct();
    assert_same(&rt, whole.size, Some(32));
    assert_same(&rt, whole.align, Some(16));
    assert_that(&rt, whole.is_fixed && !whole.is_runtime_array);
}

#[test]
fn measures_of_arrays_and_of_what_comes_after_them(rt: HostRuntime) {
    let vector = measures_of(vector(&rt, rt.alloc(), 3, Type::U32));
    assert_same(&rt, vector.stride(), Some(16));
    let two = vector.of_array(Some(2));
    assert_same(&rt, two.size, Some(32));
    assert_that(&rt, two.is_fixed && !two.is_runtime_array);
    let endless = vector.of_array(None);
    assert_same(&rt, endless.size, None);
    assert_that(&rt, endless.is_runtime_array && !endless.is_fixed);
    let ends = MemberMeasures::NONE.with(endless.of_member(None, None));
    assert_that(&rt, ends.have_layout());
    let after = ends.with(measures_of(Type::U32).of_member(None, None));
    assert_that(&rt, !after.have_layout());
}

//! Types: what modes allow, sizes, copies, the types inside, ranks of conversions and common types.

use crate::tests::asserts::{assert_copied, assert_gives, assert_row, assert_same, assert_that};
use crate::tests::reading::{asked, declared, number, parted, ty};
use crate::tests::samples::{array, matrix, member, nested, pair, pair_type, reference, vector};
use std::process::Abort;
use wgsl_rules::laws::{a_put_is_held, fits_tests_the_place, views_lead_along_their_paths};
use wgsl_rules::{
    AccessMode, AddressSpace, StructType, Ty, Type, common_type_is_symmetric, conversion_rank,
    convert_all_ty, convert_ty,
};

const STRUCTURES: &str = "\
    Pair { a: u32; b: vec3<u32> }
    Empty {}
    Sized { @size(8) a: u32 }
    __frexp_result_abstract {}
    __frexp_result_f16 {}";

#[test]
fn modes_allow_reads_and_writes(rt: HostRuntime) {
    let (read, write) = (AccessMode::Read, AccessMode::Write);
    assert_same(&rt, (read.is_read(), read.is_write()), (true, false));
    assert_same(&rt, (write.is_read(), write.is_write()), (false, true));
    let both = AccessMode::ReadWrite;
    assert_same(&rt, (both.is_read(), both.is_write()), (true, true));
}

/// Types, their sizes and alignments.
const SIZES: &str = "\
    sizes_and_alignments: i32 = 4 4
    sizes_and_alignments: AbstractInt = - -
    sizes_and_alignments: u32 = 4 4
    sizes_and_alignments: vec2<u32> = 8 8
    sizes_and_alignments: vec3<u32> = 12 16
    sizes_and_alignments: vec4<u32> = 16 16
    sizes_and_alignments: Pair = 32 16
    sizes_and_alignments: Empty = - 0
    sizes_and_alignments: Sized = 8 4";

#[test]
fn sizes_and_alignments(rt: HostRuntime) {
    let alloc = rt.alloc();
    let known = declared(&rt, alloc, STRUCTURES);
    for row in SIZES.lines() {
        let (question, wanted) = asked(&rt, row);
        let (size, align) = parted(&rt, wanted, " ");
        let ty = ty(&rt, alloc, &known, question);
        assert_row(&rt, row, ty.size_of(), number(&rt, size));
        assert_row(&rt, row, ty.align_of(), number(&rt, align));
        drop(ty);
    }
    drop(known);
}

#[test]
fn copies_are_equal(rt: HostRuntime) {
    let alloc = rt.alloc();
    let nested = nested(&rt, alloc);
    assert_copied(&rt, nested.clone(alloc), nested, pair(&rt, alloc));
}

#[test]
fn copies_of_structures_and_members_are_equal(rt: HostRuntime) {
    let alloc = rt.alloc();
    let pair = pair_type(&rt, alloc);
    assert_gives(&rt, pair.clone(alloc), pair);
    let sized = member(&rt, alloc, Type::U32, Some(8));
    let other = member(&rt, alloc, Type::U32, None);
    assert_copied(&rt, sized.clone(alloc), sized, other);
}

#[test]
fn sizes_of_structures(rt: HostRuntime) {
    let pair = pair_type(&rt, rt.alloc());
    assert_same(&rt, (pair.size_of(), pair.align_of()), (Some(32), Some(16)));
    drop(pair);
}

fn assert_inner(rt: &impl Abort, ty: &Type, inner: Type) {
    assert_same(rt, ty.inner(), &inner);
    drop(inner);
}

fn assert_struct(rt: &impl Abort, ty: &Type, inner: StructType) {
    assert_same(rt, ty.as_struct(), Some(&inner));
    drop(inner);
}

fn assert_array(rt: &impl Abort, ty: &Type, inner: Type, count: Option<usize>) {
    assert_same(rt, ty.as_array(), Some((&inner, count)));
    drop(inner);
}

fn assert_vector(rt: &impl Abort, ty: &Type, n: u8, inner: Type) {
    assert_same(rt, ty.as_vec(), Some((n, &inner)));
    drop(inner);
}

fn assert_matrix(rt: &impl Abort, ty: &Type, columns: u8, rows: u8, inner: Type) {
    assert_same(rt, ty.as_mat(), Some((columns, rows, &inner)));
    drop(inner);
}

#[test]
fn types_inside_composites(rt: HostRuntime) {
    let alloc = rt.alloc();
    let record = pair(&rt, alloc);
    assert_struct(&rt, &record, pair_type(&rt, alloc));
    assert_inner(&rt, &record, pair(&rt, alloc));
    let list = array(&rt, alloc, Type::I32, Some(3));
    assert_array(&rt, &list, Type::I32, Some(3));
    assert_inner(&rt, &list, Type::I32);
    assert_that(&rt, list.as_struct().is_none());
    let endless = array(&rt, alloc, Type::I32, None);
    assert_array(&rt, &endless, Type::I32, None);
    let three = vector(&rt, alloc, 3, Type::U32);
    assert_vector(&rt, &three, 3, Type::U32);
    assert_inner(&rt, &three, Type::U32);
    assert_that(&rt, three.as_array().is_none());
    let grid = matrix(&rt, alloc, Type::F32);
    assert_matrix(&rt, &grid, 2, 3, Type::F32);
    assert_inner(&rt, &grid, Type::F32);
    assert_that(&rt, grid.as_vec().is_none());
    assert_that(&rt, three.as_mat().is_none());
    drop((record, list, endless, three, grid));
}

fn assert_atomic(rt: &impl Abort, ty: &Type, inner: Type) {
    assert_same(rt, ty.as_atomic(), Some(&inner));
    drop(inner);
}

fn assert_pointer(rt: &impl Abort, ty: &Type, space: AddressSpace, target: Type, mode: AccessMode) {
    assert_same(rt, ty.as_ptr(), Some((space, &target, mode)));
    drop(target);
}

fn assert_reference(
    rt: &impl Abort,
    ty: &Type,
    space: AddressSpace,
    target: Type,
    mode: AccessMode,
) {
    assert_same(rt, ty.as_reference(), Some((space, &target, mode)));
    drop(target);
}

#[test]
fn types_inside_atomics_pointers_and_references(rt: HostRuntime) {
    let alloc = rt.alloc();
    let atomic = Type::Atomic(Box::new(alloc, Type::U32).expect(&rt, "memory"));
    assert_atomic(&rt, &atomic, Type::U32);
    assert_inner(&rt, &atomic, Type::U32);
    assert_that(&rt, Type::U32.as_atomic().is_none());
    let target = Box::new(alloc, Type::I32).expect(&rt, "memory");
    let pointer = Type::Ptr(AddressSpace::Function, target, AccessMode::Write);
    assert_pointer(
        &rt,
        &pointer,
        AddressSpace::Function,
        Type::I32,
        AccessMode::Write,
    );
    assert_inner(&rt, &pointer, Type::I32);
    assert_that(&rt, pointer.as_reference().is_none());
    let readable = reference(&rt, alloc, Type::U32, AccessMode::Read);
    assert_reference(
        &rt,
        &readable,
        AddressSpace::Storage,
        Type::U32,
        AccessMode::Read,
    );
    assert_inner(&rt, &readable, Type::U32);
    assert_that(&rt, readable.as_ptr().is_none());
    drop((atomic, pointer, readable));
}

fn assert_has_type(rt: &impl Abort, ty: &Type, own: Type, other: Type) {
    assert_same(rt, ty.has_ty(&own), true);
    assert_same(rt, ty.has_ty(&other), false);
    drop((own, other));
}

#[test]
fn a_type_has_itself_as_its_type(rt: HostRuntime) {
    let alloc = rt.alloc();
    let three = vector(&rt, alloc, 3, Type::U32);
    assert_gives(&rt, three.inner_ty(alloc), Type::U32);
    assert_has_type(&rt, &three, vector(&rt, alloc, 3, Type::U32), Type::U32);
    assert_gives(&rt, three.ty(alloc), three);
}

/// Types, those that they are to be, and the ranks of these conversions.
const RANKS: &str = "\
    ranks_of_conversions: bool to bool = 0
    ranks_of_conversions: AbstractInt to i32 = 3
    ranks_of_conversions: AbstractInt to u32 = 4
    ranks_of_conversions: AbstractInt to AbstractFloat = 5
    ranks_of_conversions: AbstractInt to f32 = 6
    ranks_of_conversions: AbstractInt to f16 = 7
    ranks_of_conversions: AbstractInt to i64 = -
    ranks_of_conversions: AbstractInt to u64 = -
    ranks_of_conversions: AbstractFloat to f32 = 1
    ranks_of_conversions: AbstractFloat to f16 = 2
    ranks_of_conversions: AbstractFloat to AbstractInt = -
    ranks_of_conversions: ref<u32, storage read> to u32 = 0
    ranks_of_conversions: ref<u32, storage write> to u32 = -
    ranks_of_conversions: __frexp_result_abstract to __frexp_result_f16 = 2
    ranks_of_parts: vec2<AbstractInt> to vec2<u32> = 4
    ranks_of_parts: vec2<AbstractInt> to vec3<u32> = -
    ranks_of_parts: mat2x3<AbstractFloat> to mat2x3<f16> = 2
    ranks_of_parts: array<AbstractInt> to array<i32> = 3
    ranks_of_parts: array<AbstractInt> to array<i32, 3> = -
    ranks_of_parts: array<i32, 2> to array<i32, 3> = -";

#[test]
fn ranks_of_conversions(rt: HostRuntime) {
    let alloc = rt.alloc();
    let known = declared(&rt, alloc, STRUCTURES);
    for row in RANKS.lines() {
        let (question, wanted) = asked(&rt, row);
        let (from, to) = parted(&rt, question, " to ");
        let from = ty(&rt, alloc, &known, from);
        let to = ty(&rt, alloc, &known, to);
        let rank = number(&rt, wanted);
        assert_row(&rt, row, conversion_rank(&from, &to), rank);
        assert_row(&rt, row, from.is_convertible_to(&to), rank.is_some());
        drop((from, to));
    }
    drop(known);
}

fn assert_common(rt: &impl Abort, first: &Type, second: &Type, common: Option<&Type>) {
    assert_same(rt, convert_ty(first, second), common);
}

#[test]
fn common_types(rt: HostRuntime) {
    let alloc = rt.alloc();
    let readable = reference(&rt, alloc, Type::U32, AccessMode::Read);
    assert_common(&rt, &readable, &Type::U32, Some(&Type::U32));
    assert_common(&rt, &Type::U32, &readable, Some(&Type::U32));
    assert_common(&rt, &Type::I32, &Type::U32, None);
    let types = vec![in alloc; Type::AbstractInt, Type::F32, Type::AbstractFloat];
    let types = types.expect(&rt, "memory");
    assert_same(&rt, convert_all_ty(&types), Some(&Type::F32));
    assert_that(&rt, convert_all_ty(&[]).is_none());
    drop((readable, types));
}

#[test]
fn laws_of_types_and_views_do_nothing(_rt: HostRuntime) {
    common_type_is_symmetric();
    views_lead_along_their_paths();
    fits_tests_the_place();
    a_put_is_held();
}

//! Calls on types: arrays of one element in each other, structures that are each the member of the next, and references
//! to references.

use crate::tests::asserts::{assert_answer, assert_is, assert_same, assert_that};
use crate::tests::depth::{arrays, assert_text, levels, nested, structure, structure_chain};
use crate::tests::samples::reference;
use std::alloc::Global;
use std::process::Abort;
use wgsl_rules::AccessMode::Read;
use wgsl_rules::{
    Convert, MemberLayout, StructType, Ty, Type, UniformFault, UniformRule, conversion_rank,
    convert, convert_all, convert_all_inner_to, convert_all_to, convert_all_ty, convert_inner,
    convert_ty,
};

/// The type of so many references, each to the next, and the last to the type.
fn references(rt: &impl Abort, alloc: Global, levels: usize, inside: Type) -> Type {
    let mut ty = inside;
    for _ in 0..levels {
        ty = reference(rt, alloc, ty, Read);
    }
    ty
}

fn copy_of(rt: &impl Abort, alloc: Global, ty: &Type) -> Type {
    made!(rt; ty.clone(alloc))
}

/// Types, each with one that differs from it in the innermost type alone.
fn rows(rt: &impl Abort, alloc: Global, levels: usize) -> [(Type, Type); 3] {
    [
        (
            arrays(rt, alloc, levels, Type::U32),
            arrays(rt, alloc, levels, Type::I32),
        ),
        (
            structure_chain(rt, alloc, levels, Type::U32),
            structure_chain(rt, alloc, levels, Type::I32),
        ),
        (
            references(rt, alloc, levels, Type::U32),
            references(rt, alloc, levels, Type::I32),
        ),
    ]
}

#[test]
fn copies_and_whether_types_are_equal(rt: HostRuntime) {
    let alloc = rt.alloc();
    let rows = rows(&rt, alloc, levels(&rt));
    for (ty, other) in &rows {
        assert_is(&rt, copy_of(&rt, alloc, ty), ty);
        assert_is(&rt, made!(&rt; ty.ty(alloc)), ty);
        assert_that(&rt, ty.has_ty(ty));
        assert_that(&rt, !ty.has_ty(other));
        assert_same(&rt, conversion_rank(ty, ty), Some(0));
        assert_same(&rt, conversion_rank(ty, other), None);
    }
    drop(rows);
}

/// What is measured of a type, each by a call of its own.
fn measured(ty: &Type) -> [Option<u32>; 6] {
    [
        ty.size_of(),
        ty.min_size_of(),
        ty.align_of(),
        ty.size_with(7),
        ty.least_binding(),
        ty.measures().size,
    ]
}

#[test]
fn sizes_of_arrays(rt: HostRuntime) {
    let alloc = rt.alloc();
    let ty = arrays(&rt, alloc, levels(&rt), Type::U32);
    assert_same(&rt, measured(&ty), [Some(4); 6]);
    assert_same(&rt, ty.stride(), Some(4));
    assert_that(&rt, ty.has_layout());
    drop(ty);
}

#[test]
fn sizes_of_structures(rt: HostRuntime) {
    let alloc = rt.alloc();
    let ty = structure_chain(&rt, alloc, levels(&rt), Type::U32);
    assert_same(&rt, measured(&ty), [Some(4); 6]);
    assert_same(&rt, ty.stride(), None);
    assert_that(&rt, ty.has_layout());
    drop(ty);
}

#[test]
fn rules_of_uniform_space(rt: HostRuntime) {
    let alloc = rt.alloc();
    let ty = arrays(&rt, alloc, levels(&rt), Type::U32);
    assert_same(&rt, ty.uniform_rule(), Some(UniformRule::Stride(4)));
    assert_same(&rt, ty.required_align(), Some(16));
    drop(ty);
    let ty = structure_chain(&rt, alloc, levels(&rt), Type::U32);
    assert_same(&rt, ty.uniform_rule(), None);
    assert_same(&rt, ty.required_align(), Some(16));
    drop(ty);
}

/// Asserts what is told of a structure with one member of four bytes.
fn assert_structure(rt: &impl Abort, alloc: Global, ty: &StructType, fault: Option<UniformFault>) {
    let place = MemberLayout {
        offset: Some(0),
        size: Some(4),
        align: Some(4),
        padding: Some(0),
    };
    let layouts = made!(rt; ty.member_layouts(alloc));
    assert_same(rt, layouts.first().copied(), Some(place));
    let faults = made!(rt; ty.uniform_faults(alloc));
    assert_same(rt, faults.first().copied(), fault);
    let sizes = [ty.size_of(), ty.align_of(), ty.size_with(7)];
    assert_same(rt, sizes, [Some(4); 3]);
    assert_same(rt, ty.least_binding(), Some(4));
    assert_is(rt, made!(rt; ty.clone(alloc)), ty);
    for member in &ty.members {
        assert_is(rt, made!(rt; member.clone(alloc)), member);
    }
    let same = Type::Struct(made!(rt; Box::new(alloc, made!(rt; ty.clone(alloc)))));
    assert_that(rt, ty.is_convertible_to(&same));
    drop(same);
}

#[test]
fn structures_of_deep_members(rt: HostRuntime) {
    let alloc = rt.alloc();
    let around = levels(&rt).saturating_sub(1);
    let ty = structure(&rt, alloc, structure_chain(&rt, alloc, around, Type::U32));
    assert_structure(&rt, alloc, &ty, None);
    drop(ty);
    let ty = structure(&rt, alloc, arrays(&rt, alloc, around, Type::U32));
    let rule = UniformRule::Stride(4);
    let fault = UniformFault { member: 0, rule };
    assert_structure(&rt, alloc, &ty, Some(fault));
    drop(ty);
}

#[test]
fn ranks_and_common_types(rt: HostRuntime) {
    let alloc = rt.alloc();
    let depth = levels(&rt);
    let types = [
        arrays(&rt, alloc, depth, Type::AbstractInt),
        arrays(&rt, alloc, depth, Type::U32),
    ];
    let [numbers, words] = &types;
    assert_same(&rt, conversion_rank(numbers, words), Some(4));
    assert_same(&rt, conversion_rank(words, numbers), None);
    assert_that(&rt, numbers.is_convertible_to(words));
    assert_that(&rt, !words.is_convertible_to(numbers));
    assert_same(&rt, convert_ty(numbers, words), Some(words));
    assert_same(&rt, convert_ty(words, numbers), Some(words));
    assert_same(&rt, convert_all_ty(&types), Some(words));
    drop(types);
}

#[test]
fn conversions_of_types(rt: HostRuntime) {
    let alloc = rt.alloc();
    let depth = levels(&rt);
    let ty = arrays(&rt, alloc, depth, Type::AbstractInt);
    let words = arrays(&rt, alloc, depth, Type::U32);
    let inner = arrays(&rt, alloc, depth.saturating_sub(1), Type::U32);
    assert_is(&rt, made!(&rt; words.inner_ty(alloc)), &inner);
    let answer = made!(&rt; ty.convert_to(alloc, &words));
    assert_answer(&rt, answer, Some(&words));
    let answer = made!(&rt; ty.convert_inner_to(alloc, &inner));
    assert_answer(&rt, answer, Some(&words));
    drop((words, inner));
    let concrete = arrays(&rt, alloc, depth, Type::I32);
    assert_is(&rt, made!(&rt; ty.concretize(alloc)), &concrete);
    let answer = made!(&rt; Convert::concretize(&ty, alloc));
    assert_answer(&rt, answer, Some(&concrete));
    drop((ty, concrete));
}

#[test]
fn conversions_of_two_types(rt: HostRuntime) {
    let alloc = rt.alloc();
    let depth = levels(&rt);
    let ty = arrays(&rt, alloc, depth, Type::AbstractInt);
    let words = arrays(&rt, alloc, depth, Type::U32);
    let two = (copy_of(&rt, alloc, &words), copy_of(&rt, alloc, &words));
    let both = made!(&rt; convert(alloc, &ty, &words));
    assert_same(&rt, both, Some(two));
    let two = (copy_of(&rt, alloc, &words), copy_of(&rt, alloc, &words));
    let both = made!(&rt; convert_inner(alloc, &ty, &words));
    assert_same(&rt, both, Some(two));
    drop((ty, words));
}

/// Asserts that the list is the type twice.
fn assert_twice(rt: &impl Abort, list: Option<Vec<Type>>, ty: &Type) {
    let list = list.expect(rt, "a common type");
    assert_same(rt, list.len(), 2);
    for item in &list {
        assert_same(rt, item, ty);
    }
    drop(list);
}

#[test]
fn conversions_of_lists_of_types(rt: HostRuntime) {
    let alloc = rt.alloc();
    let depth = levels(&rt);
    let types = [
        arrays(&rt, alloc, depth, Type::AbstractInt),
        arrays(&rt, alloc, depth, Type::U32),
    ];
    let inner = arrays(&rt, alloc, depth.saturating_sub(1), Type::U32);
    let list = made!(&rt; convert_all(alloc, &types));
    assert_twice(&rt, list, &types[1]);
    let list = made!(&rt; convert_all_to(alloc, &types, &types[1]));
    assert_twice(&rt, list, &types[1]);
    let list = made!(&rt; convert_all_inner_to(alloc, &types, &inner));
    assert_twice(&rt, list, &types[1]);
    drop((types, inner));
}

#[test]
fn texts_of_types(rt: HostRuntime) {
    let alloc = rt.alloc();
    let depth = levels(&rt);
    let ty = arrays(&rt, alloc, depth, Type::U32);
    let wanted = nested(&rt, alloc, depth, ["array<", "u32", ", 1>"]);
    assert_text(&rt, alloc, &ty, wanted.as_str());
    drop(ty);
    let ty = references(&rt, alloc, depth, Type::U32);
    let wanted = nested(&rt, alloc, depth, ["ref<storage, ", "u32", ", read>"]);
    assert_text(&rt, alloc, &ty, wanted.as_str());
    drop(ty);
}

#[test]
fn the_type_behind_references(rt: HostRuntime) {
    let alloc = rt.alloc();
    let (ty, word) = (references(&rt, alloc, levels(&rt), Type::U32), Type::U32);
    assert_is(&rt, ty.loaded(), &word);
    drop(word);
}

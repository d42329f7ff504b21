//! Sizes, layouts, ranks and parts of types.

use crate::tests::asserts::{assert_has, assert_is, assert_same, assert_that};
use crate::tests::samples::{array, atomic, matrix, pair, pair_type, reference, vector};
use std::alloc::Global;
use std::process::Abort;
use wgsl_rules::AccessMode::{Read, ReadWrite, Write};
use wgsl_rules::AddressSpace::Storage;
use wgsl_rules::{Ty, Type, conversion_rank, convert_all_ty, convert_ty};

/// A type, its size, its least size and its alignment, and whether it has a layout.
type Row = (Type, Option<u32>, Option<u32>, Option<u32>, bool);

fn rows(rt: &impl Abort, alloc: Global) -> [Row; 7] {
    let five = array(rt, alloc, pair(rt, alloc), Some(5));
    let threes = array(rt, alloc, vector(rt, alloc, 3, Type::U32), None);
    let truths = vector(rt, alloc, 2, Type::Bool);
    let reads = reference(rt, alloc, Type::U32, Read);
    [
        (pair(rt, alloc), Some(32), Some(32), Some(16), true),
        (five, Some(160), Some(160), Some(16), true),
        (threes, None, Some(16), Some(16), true),
        (truths, Some(8), Some(8), Some(8), false),
        (
            matrix(rt, alloc, Type::U32),
            Some(32),
            Some(32),
            Some(16),
            true,
        ),
        (
            atomic(rt, alloc, Type::U32),
            Some(4),
            Some(4),
            Some(4),
            true,
        ),
        (reads, None, None, None, false),
    ]
}

#[test]
fn sizes_and_layouts(rt: HostRuntime) {
    let alloc = rt.alloc();
    let rows = rows(&rt, alloc);
    let (structure, truth) = (pair_type(&rt, alloc), Type::Bool);
    for (ty, size, least, align, has_layout) in &rows {
        let sizes = [ty.size_of(), ty.measures().size, ty.min_size_of()];
        assert_same(&rt, sizes, [*size, *size, *least]);
        assert_same(&rt, ty.align_of(), *align);
        let tests = [ty.has_layout(), ty.has_ty(ty), ty.has_ty(&truth)];
        assert_same(&rt, tests, [*has_layout, true, false]);
    }
    assert_same(&rt, structure.size_of(), Some(32));
    assert_same(&rt, structure.align_of(), Some(16));
    assert_that(&rt, structure.is_convertible_to(&rows[0].0));
    assert_that(&rt, !structure.is_convertible_to(&rows[1].0));
    drop((rows, structure, truth));
}

#[test]
fn ranks_and_common_types(rt: HostRuntime) {
    let alloc = rt.alloc();
    let word = Type::U32;
    let types = [
        array(&rt, alloc, vector(&rt, alloc, 2, Type::AbstractInt), None),
        array(&rt, alloc, vector(&rt, alloc, 2, Type::U32), None),
    ];
    let [numbers, words] = &types;
    assert_same(&rt, conversion_rank(numbers, words), Some(4));
    assert_same(&rt, conversion_rank(words, numbers), None);
    assert_that(&rt, numbers.is_convertible_to(words));
    assert_that(&rt, !words.is_convertible_to(numbers));
    assert_same(&rt, convert_ty(numbers, words), Some(words));
    assert_same(&rt, convert_ty(words, numbers), Some(words));
    assert_same(&rt, convert_ty(numbers, &word), None);
    assert_same(&rt, convert_all_ty(&types), Some(words));
    assert_same(&rt, convert_all_ty(&[]), None);
    drop((types, word));
}

#[test]
fn parts_of_types(rt: HostRuntime) {
    let alloc = rt.alloc();
    let rows = rows(&rt, alloc);
    let (two, structure) = (pair(&rt, alloc), pair_type(&rt, alloc));
    let target = made!(&rt; Box::new(alloc, Type::I32));
    let pointer = Type::Ptr(Storage, target, Write);
    let (word, truth, number) = (Type::U32, Type::Bool, Type::I32);
    let [
        (record, ..),
        (five, ..),
        (threes, ..),
        (truths, ..),
        (grid, ..),
        (atom, ..),
        (reads, ..),
    ] = &rows;
    assert_has(&rt, record.as_struct(), structure);
    assert_same(&rt, five.as_array(), Some((&two, Some(5))));
    assert_that(&rt, matches!(threes.as_array(), Some((_, None))));
    assert_same(&rt, truths.as_vec(), Some((2, &truth)));
    assert_same(&rt, grid.as_mat(), Some((2, 3, &word)));
    assert_same(&rt, atom.as_atomic(), Some(&word));
    assert_same(&rt, reads.as_reference(), Some((Storage, &word, Read)));
    assert_same(&rt, pointer.as_ptr(), Some((Storage, &number, Write)));
    assert_same(&rt, five.inner(), &two);
    assert_that(&rt, two.as_vec().is_none());
    drop((word, truth, number));
    drop((rows, two, pointer));
}

#[test]
fn loaded_types(rt: HostRuntime) {
    let alloc = rt.alloc();
    let two = pair(&rt, alloc);
    let inner = reference(&rt, alloc, pair(&rt, alloc), ReadWrite);
    let outer = reference(&rt, alloc, inner, Read);
    assert_is(&rt, outer.loaded(), &two);
    let same = two.loaded();
    assert_same(&rt, same.size_of(), Some(32));
    drop(same);
}

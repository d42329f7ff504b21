//! Where the members of structures stand, of floats too, how far elements and columns lie apart, how
//! large buffers are at least, and what breaks a rule of the uniform address space.

use crate::tests::asserts::assert_row;
use crate::tests::reading::{asked, boxed, declared, number, parted, structure, ty};
use std::alloc::Global;
use std::process::Abort;
use wgsl_rules::{MemberLayout, UniformFault, UniformRule};

/// A and B are the structures of the standard's examples, and A16 and B16 those with attributes.
const STRUCTURES: &str = "\
    WordAndVector { a: u32; b: vec3<u32> }
    A { u: f32; v: f32; w: vec2<f32>; x: f32 }
    B { a: vec2<f32>; b: vec3<f32>; c: f32; d: f32; e: A; f: vec3<f32>; g: array<A, 3>; h: i32 }
    A16 { u: f32; v: f32; w: vec2<f32>; @size(16) x: f32 }
    B16 { a: vec2<f32>; b: vec3<f32>; c: f32; d: f32; @align(16) e: A16; f: vec3<f32>; @align(16) g: array<A16, 3>; h: i32 }
    MatrixAndArrays { a: mat3x2<f32>; b: array<array<f32, 3>, 2>; c: vec3<f32> }
    Halves { a: f16; b: vec3<f16>; c: vec2<f16>; d: mat2x3<f16>; e: f16 }
    RuntimeSized { a: u32; @align(32) b: array<vec2<u32>> }
    AlignedTo8 { @align(8) a: A }
    Words { a: array<u32, 8> }
    WordsInside { a: Words }";

/// Structures, how large the buffer of a variable is at least, and the offset, size, alignment and padding of each member.
const LAYOUTS: &str = "\
    a_word_and_a_vector: WordAndVector = 32; 0 4 4 12; 16 12 16 4
    the_example_of_the_standard: B = 160; 0 8 8 8; 16 12 16 0; 28 4 4 0; 32 4 4 4; 40 24 8 0; 64 12 16 4; 80 72 8 0; 152 4 4 4
    the_example_of_the_standard_with_attributes: B16 = 208; 0 8 8 8; 16 12 16 0; 28 4 4 0; 32 4 4 12; 48 32 16 0; 80 12 16 4; 96 96 16 0; 192 4 4 12
    matrices_and_nested_arrays: MatrixAndArrays = 64; 0 24 8 0; 24 24 4 0; 48 12 16 4
    floats_of_16_bits: Halves = 48; 0 2 2 6; 8 6 8 2; 16 4 4 4; 24 16 8 0; 40 2 2 6
    a_runtime_sized_last_member: RuntimeSized = 64; 0 4 4 28; 32 - 32 -";

/// The layout of a text as `16 12 16 4`.
fn layout(rt: &impl Abort, text: &str) -> MemberLayout {
    let (offset, others) = parted(rt, text, " ");
    let (size, others) = parted(rt, others, " ");
    let (align, padding) = parted(rt, others, " ");
    MemberLayout {
        offset: number(rt, offset),
        size: number(rt, size),
        align: number(rt, align),
        padding: number(rt, padding),
    }
}

#[test]
fn layouts_of_members(rt: HostRuntime) {
    let alloc = rt.alloc();
    let known = declared(&rt, alloc, STRUCTURES);
    for row in LAYOUTS.lines() {
        let (question, wanted) = asked(&rt, row);
        let (least_binding, layouts) = parted(&rt, wanted, "; ");
        let least_binding = number(&rt, least_binding);
        let mut wanted = Vec::new(alloc);
        for text in layouts.split("; ") {
            wanted.push(layout(&rt, text)).expect(&rt, "memory");
        }
        let ty = structure(&rt, alloc, &known, question);
        let layouts = ty.member_layouts(alloc).expect(&rt, "memory");
        assert_row(&rt, row, layouts, wanted);
        assert_row(&rt, row, ty.least_binding(), least_binding);
        let ty = boxed(&rt, alloc, ty);
        assert_row(&rt, row, ty.least_binding(), least_binding);
        drop(ty);
    }
    drop(known);
}

/// Types, how many elements the last array has, and the size of the type then.
const SIZES: &str = "\
    sizes_with_so_many_elements: RuntimeSized with 5 = 96
    sizes_with_so_many_elements: RuntimeSized with 536870912 = -
    sizes_with_so_many_elements: array<u32, 2> with 5 = 8";

#[test]
fn sizes_with_so_many_elements(rt: HostRuntime) {
    let alloc = rt.alloc();
    let known = declared(&rt, alloc, STRUCTURES);
    for row in SIZES.lines() {
        let (question, wanted) = asked(&rt, row);
        let (text, elements) = parted(&rt, question, " with ");
        let elements = elements.parse::<usize>().expect(&rt, "a number");
        let ty = ty(&rt, alloc, &known, text);
        assert_row(&rt, row, ty.size_with(elements), number(&rt, wanted));
        drop(ty);
    }
    drop(known);
}

/// Types, how far their parts lie apart, and how large the buffer of a variable is at least.
const STRIDES: &str = "\
    strides_and_bindings: f32 = - 4
    strides_and_bindings: mat4x3<f32> = 16 64
    strides_and_bindings: mat2x3<f16> = 8 16
    strides_and_bindings: array<vec3<f32>, 4> = 16 64
    strides_and_bindings: array<vec3<f32>> = 16 16";

#[test]
fn strides_and_bindings(rt: HostRuntime) {
    let alloc = rt.alloc();
    for row in STRIDES.lines() {
        let (question, wanted) = asked(&rt, row);
        let (stride, least_binding) = parted(&rt, wanted, " ");
        let ty = ty(&rt, alloc, &[], question);
        assert_row(&rt, row, ty.stride(), number(&rt, stride));
        assert_row(&rt, row, ty.least_binding(), number(&rt, least_binding));
        drop(ty);
    }
}

/// The rule of a text as `Stride 4`; none of `nothing`.
fn rule(rt: &impl Abort, text: &str) -> Option<UniformRule> {
    let (name, digits) = text.split_once(' ').unwrap_or((text, "-"));
    let number = number(rt, digits);
    match name {
        "Stride" => number.map(UniformRule::Stride),
        "Align" => number.map(UniformRule::Align),
        "Offset" => number.map(UniformRule::Offset),
        "Distance" => number.map(UniformRule::Distance),
        "RuntimeSized" => Some(UniformRule::RuntimeSized),
        "NotShared" => Some(UniformRule::NotShared),
        "nothing" => None,
        _ => panic!(rt; "{name} is no rule"),
    }
}

/// Types, and what they break in uniform space.
const UNIFORM: &str = "\
    arrays_in_uniform_space: array<vec3<f32>, 4> = nothing
    arrays_in_uniform_space: array<f32, 4> = Stride 4
    arrays_in_uniform_space: array<vec2<f32>, 4> = Stride 8
    arrays_in_uniform_space: array<vec4<f32>> = RuntimeSized
    arrays_in_uniform_space: vec4<bool> = NotShared
    the_example_of_the_standard_in_uniform_space: B = Offset 40
    the_example_of_the_standard_in_uniform_space: B16 = nothing
    an_align_attribute_in_uniform_space: AlignedTo8 = Align 8
    a_rule_that_is_broken_inside: WordsInside = Stride 4";

#[test]
fn rules_of_uniform_space(rt: HostRuntime) {
    let alloc = rt.alloc();
    let known = declared(&rt, alloc, STRUCTURES);
    for row in UNIFORM.lines() {
        let (question, wanted) = asked(&rt, row);
        let ty = ty(&rt, alloc, &known, question);
        assert_row(&rt, row, ty.uniform_rule(), rule(&rt, wanted));
        drop(ty);
    }
    drop(known);
}

/// Structures, and what their members break in uniform space, by their positions.
const MEMBERS: &str = "\
    the_example_of_the_standard_in_uniform_space: B = 4 Offset 40; 5 Distance 64; 6 Stride 24
    the_example_of_the_standard_in_uniform_space: B16 = nothing
    an_align_attribute_in_uniform_space: AlignedTo8 = 0 Align 8
    a_rule_that_is_broken_inside: WordsInside = 0 Stride 4";

/// The faults of a text as `4 Offset 40; 5 Distance 64`.
fn faults(rt: &impl Abort, alloc: Global, text: &str) -> Vec<UniformFault> {
    let mut faults = Vec::new(alloc);
    if text == "nothing" {
        return faults;
    }
    for fault in text.split("; ") {
        let (member, broken) = parted(rt, fault, " ");
        let member = member.parse::<usize>().expect(rt, "a position");
        let rule = rule(rt, broken).expect(rt, "a rule");
        faults
            .push(UniformFault { member, rule })
            .expect(rt, "memory");
    }
    faults
}

#[test]
fn rules_of_uniform_space_that_members_break(rt: HostRuntime) {
    let alloc = rt.alloc();
    let known = declared(&rt, alloc, STRUCTURES);
    for row in MEMBERS.lines() {
        let (question, wanted) = asked(&rt, row);
        let ty = structure(&rt, alloc, &known, question);
        let found = ty.uniform_faults(alloc).expect(&rt, "memory");
        assert_row(&rt, row, found, faults(&rt, alloc, wanted));
        drop(ty);
    }
    drop(known);
}

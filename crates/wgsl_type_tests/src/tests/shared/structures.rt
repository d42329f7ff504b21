//! What structures break where they are declared.

use crate::tests::asserts::{assert_row, assert_same};
use crate::tests::reading::{asked, declared, structure};
use crate::tests::shared::{named, text_of};
use wgsl_interface::struct_faults;
use wgsl_rules::Type;
use wgsl_samples::types::struct_type;

const STRUCTURES: &str = "\
    Number { a: u32 }
    Truth { a: bool }
    Counter { a: atomic<u32> }
    FloatCounter { a: atomic<f32> }
    Abstract { a: AbstractFloat }
    LongVector { a: vec5<f32> }
    EmptyArray { a: array<f32, 0> }
    Floats { a: array<f32> }
    Sampling { a: sampler }
    Pointer { a: ptr<u32, function read_write> }
    Empty {}
    Open { n: u32; r: array<f32> }
    OpenFirst { r: array<f32>; n: u32 }
    OpenInside { a: Open }
    Rows { a: array<array<f32>, 2> }
    Opens { a: array<Open, 2> }
    AbstractNumber { b: AbstractInt }
    AbstractInside { a: AbstractNumber }
    OpenFirstInside { a: OpenFirst }
    Empties { a: array<Empty, 3> }";

/// Structures and what they break.
const FAULTS: &str = "\
    members_of_each_sort: Number = nothing
    members_of_each_sort: Truth = nothing
    members_of_each_sort: Counter = nothing
    members_of_each_sort: FloatCounter = a atomic-content
    members_of_each_sort: Abstract = a abstract-type
    members_of_each_sort: LongVector = a shape
    members_of_each_sort: EmptyArray = a shape
    members_of_each_sort: Floats = nothing
    members_of_each_sort: Sampling = a not-plain
    members_of_each_sort: Pointer = a not-plain
    members_of_each_sort: Empty = shape
    runtime_sized_members: OpenFirst = r runtime-not-last
    runtime_sized_members: OpenInside = a runtime-in-struct
    runtime_sized_members: Rows = a[] runtime-in-array
    runtime_sized_members: Opens = a[] runtime-in-array
    what_is_inside_other_structures_is_told_of_these: AbstractInside = nothing
    what_is_inside_other_structures_is_told_of_these: OpenFirstInside = nothing
    what_is_inside_other_structures_is_told_of_these: Empties = nothing";

#[test]
fn what_structures_break(rt: HostRuntime) {
    let alloc = rt.alloc();
    let known = declared(&rt, alloc, STRUCTURES);
    for row in FAULTS.lines() {
        let (question, wanted) = asked(&rt, row);
        let ty = structure(&rt, alloc, &known, question);
        let faults = struct_faults(alloc, &ty).expect(&rt, "memory");
        let text = text_of(&rt, alloc, faults);
        let wanted = if wanted == "nothing" { "" } else { wanted };
        assert_row(&rt, row, text.as_str(), wanted);
        drop((ty, text));
    }
    drop(known);
}

#[test]
fn a_hundred_faults_of_members_are_told(rt: HostRuntime) {
    let alloc = rt.alloc();
    let mut members = Vec::new(alloc);
    for _ in 0..150 {
        let member = named(&rt, alloc, "a", Type::AbstractInt);
        members.push(member).expect(&rt, "memory");
    }
    let ty = struct_type(alloc, "S", members).expect(&rt, "memory");
    let faults = struct_faults(alloc, &ty).expect(&rt, "memory");
    assert_same(&rt, faults.len(), 100);
    drop((ty, faults));
}

//! The cell whose parts tests look at.

use crate::tests::rows::{bytes_of, type_in};
use std::alloc::Global;
use std::process::Abort;
use wgsl_layout::FlatCell;
use wgsl_rules::Type;
use wgsl_samples::types::{member, structure};

/// The bytes of a `Scene` with three elements at its end: each number is the place that it has, counted in words of four
/// bytes; of the two words of an u64 each has its own.
pub(super) const SCENE: &str = "\
    00000000 -------- -------- -------- 04000000 05000000 06000000 -------- \
    08000000 09000000 0a000000 -------- 0c000000 0d000000 0e000000 -------- \
    10000000 -------- -------- -------- 14000000 15000000 16000000 -------- \
    18000000 -------- -------- -------- 1c000000 1d000000 1e000000 -------- \
    20000000 -------- 22000000 23000000 24000000 25000000 26000000";

/// The members of a `Scene`: the name of each, and words of its type.
const MEMBERS: &str = "\
a u32
b vec3 i32
m mat2x3 u32
pairs array2 Pair
n atomic i32
w u64
tail array atomic u32";

/// struct Scene {
///     a: u32, b: vec3<i32>, m: mat2x3<u32>, pairs: array<Pair, 2>, n: atomic<i32>, w: u64, tail: array<atomic<u32>>
/// }
pub(super) fn scene(rt: &impl Abort, alloc: Global) -> Type {
    let mut members = Vec::new(alloc);
    for line in MEMBERS.lines() {
        let (name, words) = line.split_once(' ').expect(rt, "a type");
        let ty = type_in(rt, alloc, words);
        let member = made!(rt; member(alloc, name, ty, None));
        made!(rt; members.push(member));
    }
    made!(rt; structure(alloc, "Scene", members))
}

/// A cell of the bytes of a `Scene`, with padding that is not 0.
pub(super) fn scene_cell(rt: &impl Abort, alloc: Global, bytes: &str) -> FlatCell {
    let ty = scene(rt, alloc);
    let bytes = bytes_of(rt, alloc, bytes, 0xff);
    let made = made!(rt; FlatCell::of_bytes(alloc, &ty, None, &bytes));
    drop((ty, bytes));
    made.expect(rt, "bytes of a value")
}

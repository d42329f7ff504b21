//! Calls that call themselves for each level of a type or a value, on types and values of as many levels as `DEPTH` in the
//! environment says, and calls on long views. `tools/depths` runs them with the levels and the stack of `docs/DEPTH.md`.

ghost use Rattle.wgsl_rules.specs.Values.{IsStorable, IsWellFormed};
ghost use Rattle.wgsl_values.specs.View.{array_view, value_of};

mod cells;
mod conversions;
mod layouts;
mod references;
mod sessions;
mod structures;
mod types;
mod values;
mod views;

use crate::tests::samples::{array, array_from, member, storable};
use std::alloc::Global;
use std::fmt::Display;
use std::process::Abort;
use std::rt::Env;
use std::str;
use wgsl_rules::{StructType, Type};
use wgsl_samples::types::struct_type;
use wgsl_values::{ArrayInstance, Instance, MemView};

fn number(digits: Option<&[u8]>) -> Option<usize> {
    str::from_utf8(digits?).ok()?.parse().ok()
}

/// How many levels types and values have: `DEPTH`, and 200 where the environment has none.
fn levels<R: Env + Abort>(rt: &R) -> usize {
    let mut digits = [0u8; 32];
    match rt.var("DEPTH", &mut digits) {
        Ok(count) => number(digits.get(..count)).expect(rt, "a number of levels"),
        Err(_) => 200,
    }
}

/// The type of so many arrays of one element, each in the next, and the type in the innermost.
fn arrays(rt: &impl Abort, alloc: Global, levels: usize, inside: Type) -> Type {
    let mut ty = inside;
    for _ in 0..levels {
        ty = array(rt, alloc, ty, Some(1));
    }
    ty
}

/// struct S { m: T }
fn structure(rt: &impl Abort, alloc: Global, inside: Type) -> StructType {
    let members = vec![in alloc; member(rt, alloc, "m", inside)];
    made!(rt; struct_type(alloc, "S", made!(rt; members)))
}

/// The type of so many structures, each the only member of the next, and the type in the innermost.
fn structure_chain(rt: &impl Abort, alloc: Global, levels: usize, inside: Type) -> Type {
    let mut ty = inside;
    for _ in 0..levels {
        let outer = structure(rt, alloc, ty);
        ty = Type::Struct(made!(rt; Box::new(alloc, outer)));
    }
    ty
}

/// The array of the one element.
fn array_around(rt: &impl Abort, alloc: Global, element: Instance) -> ArrayInstance
    ensures { IsStorable (array_view result) }
{
    array_from(rt, made!(rt; vec![in alloc; element]), false)
}

/// So many arrays of one element, each in the next, and the value in the innermost.
fn in_arrays(rt: &impl Abort, alloc: Global, levels: usize, inside: Instance) -> Instance
    ensures storable { IsStorable (value_of result) }
    ensures well_formed { IsWellFormed (value_of result) }
{
    let mut value = inside;
    for _ in 0..levels {
        value = Instance::from(array_around(rt, alloc, value));
    }
    storable(rt, value)
}

/// The view of so many steps, each to the part of index 0.
fn first_parts(rt: &impl Abort, alloc: Global, steps: usize) -> MemView {
    let mut view = MemView::Whole;
    for _ in 0..steps {
        view = MemView::Index(0, made!(rt; Box::new(alloc, view)));
    }
    view
}

/// The first text so many times, the second, and the third as many times as the first.
fn nested(rt: &impl Abort, alloc: Global, levels: usize, texts: [&str; 3]) -> String {
    let [before, inside, behind] = texts;
    let mut text = String::new(alloc);
    for _ in 0..levels {
        made!(rt; text.push_str(before));
    }
    made!(rt; text.push_str(inside));
    for _ in 0..levels {
        made!(rt; text.push_str(behind));
    }
    text
}

/// Asserts the text of the value.
fn assert_text<T: Display>(rt: &impl Abort, alloc: Global, value: &T, wanted: &str) {
    let text = made!(rt; value.to_string(alloc));
    assert_eq!(rt; text.as_str(), wanted);
}

//! Values of structures that are each the member of the next, with an eighth of the levels: each of them has its type with
//! those inside it, so they take memory with the square of their levels.

ghost use Rattle.wgsl_rules.specs.Values.{IsStorable, IsWellFormed};
ghost use Rattle.wgsl_values.specs.View.{value_of};

use crate::tests::asserts::{assert_answer, assert_has, assert_is, assert_same, assert_that};
use crate::tests::depth::{assert_text, levels, nested, structure, structure_chain};
use crate::tests::samples::{storable, text};
use std::alloc::Global;
use std::mem;
use std::process::Abort;
use wgsl_rules::AccessMode::ReadWrite;
use wgsl_rules::AddressSpace::Storage;
use wgsl_rules::{Convert, Ty, Type};
use wgsl_samples::values::bytes_of;
use wgsl_store::{Buffers, References, Store};
use wgsl_values::{Instance, MemView, RefInstance, SharedStructType, StructInstance};

/// So many structures, each the only member of the next, and the number in the innermost.
fn in_structures(rt: &impl Abort, alloc: Global, levels: usize, inside: u32) -> Instance
    ensures storable { IsStorable (value_of result) }
    ensures well_formed { IsWellFormed (value_of result) }
{
    let mut ty = Type::U32;
    let mut value = Instance::from(inside);
    for _ in 0..levels {
        let outer = structure(rt, alloc, ty);
        let copy = made!(rt; outer.clone(alloc));
        ty = Type::Struct(made!(rt; Box::new(alloc, copy)));
        let members = made!(rt; vec![in alloc; value]);
        assert!(rt; StructInstance::can_make(&outer, &members));
        value = Instance::from(StructInstance::new(outer, members));
    }
    drop(ty);
    storable(rt, value)
}

/// The view of so many steps, each to the member m.
fn members(rt: &impl Abort, alloc: Global, steps: usize) -> MemView {
    let mut view = MemView::Whole;
    for _ in 0..steps {
        let name = text(rt, alloc, "m");
        view = MemView::Member(name, made!(rt; Box::new(alloc, view)));
    }
    view
}

#[test]
fn copies_types_and_texts(rt: HostRuntime) {
    let alloc = rt.alloc();
    let depth = levels(&rt) / 8;
    let value = in_structures(&rt, alloc, depth, 1);
    let other = in_structures(&rt, alloc, depth, 2);
    let ty = structure_chain(&rt, alloc, depth, Type::U32);
    assert_is(&rt, made!(&rt; value.clone(alloc)), &value);
    assert_that(&rt, value != other);
    assert_is(&rt, made!(&rt; value.ty(alloc)), &ty);
    assert_that(&rt, value.has_ty(&ty));
    assert_that(&rt, value.is_convertible_to(&ty));
    let answer = made!(&rt; value.convert_to(alloc, &ty));
    assert_answer(&rt, answer, Some(&value));
    let wanted = nested(&rt, alloc, depth, ["S(", "1u", ")"]);
    assert_text(&rt, alloc, &value, wanted.as_str());
    drop((value, other, ty));
}

#[test]
fn members_are_lent_and_written(rt: HostRuntime) {
    let alloc = rt.alloc();
    let depth = levels(&rt) / 8;
    let mut value = in_structures(&rt, alloc, depth, 1);
    let wanted = in_structures(&rt, alloc, depth, 7);
    let view = members(&rt, alloc, depth);
    assert_has(&rt, value.view(alloc, &view).ok(), Instance::from(1u32));
    let mut part = value.view_mut(alloc, &view).expect(&rt, "a part");
    drop(mem::replace(&mut *part, Instance::from(9u32)));
    drop(part);
    let old = value.put(&view, Instance::from(7u32));
    assert_same(&rt, old, Some(Instance::from(9u32)));
    assert_same(&rt, value, wanted);
    drop(view);
}

#[test]
fn bytes_of_structures(rt: HostRuntime) {
    let alloc = rt.alloc();
    let depth = levels(&rt) / 8;
    let value = in_structures(&rt, alloc, depth, 5);
    let ty = structure_chain(&rt, alloc, depth, Type::U32);
    let bytes = made!(&rt; bytes_of(alloc, &[5]));
    let buffer = made!(&rt; value.to_buffer(alloc));
    assert_answer(&rt, buffer, Some(&bytes));
    let read = made!(&rt; Instance::from_buffer(alloc, &bytes, &ty));
    assert_answer(&rt, read, Some(&value));
    drop((value, ty));
}

#[test]
fn a_cell_of_structures(rt: HostRuntime) {
    let alloc = rt.alloc();
    let depth = levels(&rt) / 8;
    let mut store = Store::new(alloc);
    let value = in_structures(&rt, alloc, depth, 1);
    assert!(rt; store.holds_value(&value));
    let whole = made!(&rt; RefInstance::new(alloc, &mut store, value, Storage, ReadWrite));
    let next = in_structures(&rt, alloc, depth, 2);
    assert!(rt; store.holds(&whole));
    assert!(rt; store.holds_value(&next));
    assert_same(&rt, whole.write(alloc, &mut store, next), Ok(()));
    assert!(rt; store.holds(&whole));
    let wanted = in_structures(&rt, alloc, depth, 2);
    assert_same(&rt, made!(&rt; whole.read(alloc, &store)), wanted);
    drop((store, whole));
}

#[test]
fn types_that_are_shared(rt: HostRuntime) {
    let alloc = rt.alloc();
    let around = levels(&rt).saturating_sub(1);
    let ty = structure(&rt, alloc, structure_chain(&rt, alloc, around, Type::U32));
    let other = structure(&rt, alloc, structure_chain(&rt, alloc, around, Type::I32));
    let own = SharedStructType::own(ty);
    let copy = made!(&rt; own.clone(alloc));
    assert_same(&rt, &copy, &own);
    assert_that(&rt, own.is_type(copy.get()));
    assert_that(&rt, !own.is_type(&other));
    drop((own, copy, other));
}

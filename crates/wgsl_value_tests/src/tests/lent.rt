//! What is lent to be written: each function writes a part, and its contract says what the whole is afterwards, as
//! far as what was lent tells it.

ghost use Rattle.std.specs.Prelude.{◌≡◌, Ok, Some};
ghost use Rattle.wgsl_rules.specs.Paths.{viewed};
ghost use Rattle.wgsl_rules.specs.Types as types;
ghost use Rattle.wgsl_rules.specs.Values.{Val, IsStorable, IsWellFormed, type_of};
ghost use Rattle.wgsl_values.specs.View.{
  value_of,
  array_view,
  atomic_view,
  mat_view,
  steps_of,
  struct_view,
  vec_view,
};

use crate::tests::asserts::{assert_is, assert_text};
use crate::tests::samples::{light, storable, to_component, to_member, vector_of};
use std::alloc::Global;
use std::mem;
use std::process::Abort;
use wgsl_rules::{Ty, Type};
use wgsl_scalar::Error;
use wgsl_scalar::LiteralInstance::U32;
use wgsl_values::{
    ArrayInstance, AtomicInstance, Instance, MatInstance, MemView, StructInstance, VecInstance,
};

/// Writes 9 in the place of the component.
fn set_component(v: &mut VecInstance, i: usize)
    requires well_formed { IsWellFormed (vec_view v.old) }
    requires of_u32 { type_of (vec_view v.old) ≡ types.vec 3 types.u32 }
    ensures well_formed { IsWellFormed (vec_view v.new) }
    ensures ty { type_of (vec_view v.new) ≡ types.vec 3 types.u32 }
{
    if let Some(place) = v.get_mut(i) {
        drop(mem::replace(place, Instance::from(9u32)));
    }
}

/// Writes 9 in the place of the element.
fn set_element(a: &mut ArrayInstance, i: usize)
    requires well_formed { IsWellFormed (array_view a.old) }
    requires of_u32 { type_of (array_view a.old) ≡ types.array types.u32 (Some 2) }
    ensures well_formed { IsWellFormed (array_view a.new) }
    ensures ty { type_of (array_view a.new) ≡ types.array types.u32 (Some 2) }
{
    if let Some(place) = a.get_mut(i) {
        drop(mem::replace(place, Instance::from(9u32)));
    }
}

/// Writes 9 in the place of the member, where that is an u32.
fn set_member(s: &mut StructInstance, name: &str)
    requires well_formed { IsWellFormed (struct_view s.old) }
    requires storable { IsStorable (struct_view s.old) }
    ensures well_formed { IsWellFormed (struct_view s.new) }
    ensures storable { IsStorable (struct_view s.new) }
    ensures ty { type_of (struct_view s.new) ≡ type_of (struct_view s.old) }
{
    if let Some(place) = s.member_mut(name) {
        if place.has_ty(&Type::U32) {
            drop(mem::replace(place, Instance::from(9u32)));
        }
    }
}

/// Writes the vector in the place of the column.
fn set_column(m: &mut MatInstance, i: usize, column: Instance)
    requires well_formed { IsWellFormed (mat_view m.old) }
    requires of_u32 { type_of (mat_view m.old) ≡ types.mat 2 3 types.u32 }
    requires storable { IsStorable (value_of column) }
    requires vector { type_of (value_of column) ≡ types.vec 3 types.u32 }
    ensures well_formed { IsWellFormed (mat_view m.new) }
    ensures ty { type_of (mat_view m.new) ≡ types.mat 2 3 types.u32 }
{
    match m.col_mut(i) {
        Some(place) => drop(mem::replace(place, column)),
        None => drop(column),
    }
}

/// Writes 9 in the place of the component of a matrix.
fn set_in_column(m: &mut MatInstance, column: usize, row: usize)
    requires well_formed { IsWellFormed (mat_view m.old) }
    requires of_u32 { type_of (mat_view m.old) ≡ types.mat 2 3 types.u32 }
    ensures well_formed { IsWellFormed (mat_view m.new) }
    ensures ty { type_of (mat_view m.new) ≡ types.mat 2 3 types.u32 }
{
    if let Some(place) = m.get_mut(column, row) {
        drop(mem::replace(place, Instance::from(9u32)));
    }
}

/// Writes 9 in the place of what the atomic holds.
fn set_inner(a: &mut AtomicInstance)
    requires well_formed { IsWellFormed (atomic_view a.old) }
    requires of_u32 { type_of (atomic_view a.old) ≡ types.atomic types.u32 }
    ensures well_formed { IsWellFormed (atomic_view a.new) }
    ensures ty { type_of (atomic_view a.new) ≡ types.atomic types.u32 }
{
    drop(mem::replace(a.inner_mut(), Instance::from(9u32)));
}

/// Writes 9 in the place of the number that the view leads to.
fn set_viewed(alloc: Global, whole: &mut Instance, view: &MemView) -> Result<(), Error>
    requires well_formed { IsWellFormed (value_of whole.old) }
    requires of_u32 { (x : Val) → viewed (steps_of view.now) (value_of whole.old) ≡ Ok x → type_of x ≡ types.u32 }
    ensures well_formed { IsWellFormed (value_of whole.new) }
    ensures ty { type_of (value_of whole.new) ≡ type_of (value_of whole.old) }
{
    let mut part = whole.view_mut(alloc, view)?;
    drop(mem::replace(&mut *part, Instance::from(9u32)));
    Ok(())
}

/// Writes 9 in the place of what the view leads to, where that is an u32.
fn set_number(alloc: Global, whole: &mut Instance, view: &MemView) -> Result<(), Error>
    requires well_formed { IsWellFormed (value_of whole.old) }
    requires storable { IsStorable (value_of whole.old) }
    ensures storable { IsStorable (value_of whole.new) }
    ensures ty { type_of (value_of whole.new) ≡ type_of (value_of whole.old) }
{
    let mut part = whole.view_mut(alloc, view)?;
    if !part.has_ty(&Type::U32) {
        return Ok(());
    }
    drop(mem::replace(&mut *part, Instance::from(9u32)));
    Ok(())
}

/// vec3(1u, 2u, 3u)
fn three(rt: &impl Abort, alloc: Global) -> VecInstance
    ensures well_formed { IsWellFormed (vec_view result) }
    ensures ty { type_of (vec_view result) ≡ types.vec 3 types.u32 }
{
    VecInstance::from3(alloc, [U32(1), U32(2), U32(3)]).expect(rt, "memory")
}

#[test]
fn a_component_that_was_lent_is_replaced(rt: HostRuntime) {
    let alloc = rt.alloc();
    let mut components = three(&rt, alloc);
    set_component(&mut components, 1);
    assert_is(&rt, &components, vector_of(&rt, alloc, &[1, 9, 3]));
    set_component(&mut components, 3);
    assert_is(&rt, &components, vector_of(&rt, alloc, &[1, 9, 3]));
    drop(components);
}

#[test]
fn what_a_view_leads_to_is_replaced_where_it_is_a_number(rt: HostRuntime) {
    let alloc = rt.alloc();
    let mut value = storable(&rt, light(&rt, alloc));
    let (member, component) = (to_member(&rt, alloc), to_component(&rt, alloc));
    set_number(alloc, &mut value, &member).expect(&rt, "memory");
    assert_is(&rt, &value, light(&rt, alloc));
    set_number(alloc, &mut value, &component).expect(&rt, "memory");
    let text =
        "Light(mat2x3(vec3(1u, 2u, 3u), vec3(4u, 5u, 9u)), array(Pair(1u, vec3(2u, 3u, 4u))))";
    assert_text(&rt, alloc, &value, text);
    drop((value, member, component));
}

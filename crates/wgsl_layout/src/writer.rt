//! The bytes of a value, written in place by the plan of its type (WGSL: internal layout of values).

ghost use Rattle.std.specs.Prelude.{◌≡◌, length, IfOk, option_map};
ghost use Rattle.wgsl_rules.specs.Layout.{HasLayout, elements, runtime_count};
ghost use Rattle.wgsl_rules.specs.Paths.{parts};
ghost use Rattle.wgsl_rules.specs.Values.{IsStorable, type_of};
ghost use Rattle.wgsl_scalar.specs.Literals.{literal_of};
ghost use Rattle.wgsl_layout.specs.Buffers.{buffer, buffer_of};
ghost use Rattle.wgsl_layout.specs.Extents.{IsExtentOf};
ghost use Rattle.wgsl_layout.specs.Plan.{plan_of, plan_view, places_view, scalar};
ghost use Rattle.wgsl_layout.specs.Walk.{put, put_row, put_members, Stands, StandInRow, StandAsMembers};
ghost use Rattle.wgsl_values.specs.View.{value_of, mat_view, vals_view};

use crate::extent::Extent;
use crate::make::TypePlan;
use crate::plan::{Place, Plan};
use std::alloc::{AllocError, Global};
use wgsl_scalar::LiteralInstance;
use wgsl_values::{Instance, MatInstance};

/// The bytes of a value, as many as its layout has, in memory of their own; `None` where its type has no
/// layout. The condition: the value is storable.
pub(crate) fn write_buffer(alloc: Global, value: &Instance) -> Result<Option<Vec<u8>>, AllocError>
    requires { IsStorable (value_of value.now) }
    ensures { IfOk result (λ bytes. option_map (λ b. b.items) bytes ≡ buffer_of (value_of value.now)) }
{
    let ty = TypePlan::of_value(alloc, value)?;
    if !ty.has_layout {
        return Ok(None);
    }
    Ok(Some(write_whole(alloc, value, &ty.plan, ty.extent())?))
}

/// The bytes of a value, as many as its layout has, in memory of their own. The conditions: the value is
/// storable, its type has a layout, and the plan and the extent are those of that type.
pub(crate) fn write_whole(
    alloc: Global,
    value: &Instance,
    plan: &Plan,
    extent: Extent,
) -> Result<Vec<u8>, AllocError>
    requires storable { IsStorable (value_of value.now) }
    requires planned { plan_view plan.now ≡ plan_of (type_of (value_of value.now)) }
    requires extent { IsExtentOf (type_of (value_of value.now)) extent }
    requires laid { HasLayout (type_of (value_of value.now)) }
    ensures { IfOk result (λ b. b.items ≡ buffer (value_of value.now)) }
{
    // More bytes than can be counted are more than there is memory for.
    let Some(len) = extent.len(runtime_count(value)) else {
        return Err(AllocError);
    };
    let mut out = vec![in alloc; 0u8; len]?;
    write_value(out.as_mut_slice(), 0, value, plan);
    Ok(out)
}

/// How many elements the runtime-sized array has that the value is or ends in; 0 where there is none.
pub(crate) fn runtime_count(value: &Instance) -> usize
    ensures { result ≡ runtime_count (value_of value.now) }
{
    match value {
        Instance::Struct(s) => match s.members().last() {
            Some(last) => elements(last),
            None => 0,
        },
        Instance::Literal(_) | Instance::Array(_) | Instance::Vec(_) => elements(value),
        Instance::Mat(_) | Instance::Atomic(_) | Instance::Ptr(_) => elements(value),
        Instance::Ref(_) | Instance::Deferred(_) => elements(value),
    }
}

// How many elements a runtime-sized array has; 0 of any other value.
fn elements(value: &Instance) -> usize
    ensures { result ≡ elements (value_of value.now) }
{
    match value {
        Instance::Array(a) if a.runtime_sized() => a.n(),
        Instance::Array(_) | Instance::Literal(_) | Instance::Struct(_) | Instance::Vec(_) => 0,
        Instance::Mat(_) | Instance::Atomic(_) | Instance::Ptr(_) => 0,
        Instance::Ref(_) | Instance::Deferred(_) => 0,
    }
}

/// Writes each scalar of a value that begins at `base`, little-endian, at its place by the plan of its type.
/// Padding stays as it was. The condition: each place lies inside `out`.
#[cycle(write)]
pub(crate) fn write_value(out: &mut [u8], base: usize, value: &Instance, plan: &Plan)
    requires { Stands (value_of value.now) (plan_view plan.now) base (length out.old) }
    ensures { out.new ≡ put (value_of value.now) (plan_view plan.now) base out.old }
{
    match value {
        Instance::Literal(literal) => write_literal(out, base, *literal),
        Instance::Atomic(a) => write_value(out, base, a.inner(), plan),
        Instance::Vec(v) => {
            let Plan::Components(far) = plan else {
                unreachable!()
            };
            write_row(out, base, *far as usize, v.as_slice(), &Plan::Scalar)
        }
        Instance::Mat(m) => {
            let Plan::Row(far, column) = plan else {
                unreachable!()
            };
            write_columns(out, base, *far as usize, m, column)
        }
        Instance::Array(a) => {
            let Plan::Row(far, element) = plan else {
                unreachable!()
            };
            write_row(out, base, *far as usize, a.as_slice(), element)
        }
        Instance::Struct(s) => {
            let Plan::Members(_, places) = plan else {
                unreachable!()
            };
            write_members(out, base, s.members(), places.as_slice())
        }
        Instance::Ptr(_) | Instance::Ref(_) | Instance::Deferred(_) => unreachable!(),
    }
}

/// Writes a number at `at`.
pub(crate) fn write_literal(out: &mut [u8], at: usize, literal: LiteralInstance)
    requires { Stands (literal_of literal) scalar at (length out.old) }
    ensures { out.new ≡ put (literal_of literal) scalar at out.old }
{
    match literal {
        LiteralInstance::I32(n) => out[at..at + 4].copy_from_slice(&n.to_le_bytes()),
        LiteralInstance::U32(n) => out[at..at + 4].copy_from_slice(&n.to_le_bytes()),
        LiteralInstance::I64(n) => out[at..at + 8].copy_from_slice(&n.to_le_bytes()),
        LiteralInstance::U64(n) => out[at..at + 8].copy_from_slice(&n.to_le_bytes()),
        LiteralInstance::Bool(_) | LiteralInstance::AbstractInt(_) => unreachable!(),
    }
}

// Values `far` bytes apart, the first at `base`.
#[cycle(write)]
fn write_row(out: &mut [u8], base: usize, far: usize, values: &[Instance], plan: &Plan)
    requires { StandInRow (vals_view values.now) far (plan_view plan.now) base (length out.old) }
    ensures { out.new ≡ put_row (vals_view values.now) far (plan_view plan.now) base out.old }
{
    for (i, value) in values.iter().enumerate() {
        write_item(out, base + i * far, value, plan);
    }
}

// As `write_value`, which is called for what is no number.
#[inline(always)]
#[cycle(write)]
fn write_item(out: &mut [u8], base: usize, value: &Instance, plan: &Plan)
    requires { Stands (value_of value.now) (plan_view plan.now) base (length out.old) }
    ensures { out.new ≡ put (value_of value.now) (plan_view plan.now) base out.old }
{
    match value {
        Instance::Literal(literal) => write_literal(out, base, *literal),
        Instance::Struct(_) | Instance::Array(_) => write_value(out, base, value, plan),
        Instance::Vec(_) | Instance::Mat(_) => write_value(out, base, value, plan),
        Instance::Atomic(_) | Instance::Ptr(_) => write_value(out, base, value, plan),
        Instance::Ref(_) | Instance::Deferred(_) => write_value(out, base, value, plan),
    }
}

// The columns of a matrix, `far` bytes apart, the first at `base`.
#[cycle(write)]
fn write_columns(out: &mut [u8], base: usize, far: usize, matrix: &MatInstance, plan: &Plan)
    requires { StandInRow (parts (mat_view matrix.now)) far (plan_view plan.now) base (length out.old) }
    ensures { out.new ≡ put_row (parts (mat_view matrix.now)) far (plan_view plan.now) base out.old }
{
    for i in 0..matrix.c() {
        let column = matrix.col(i).unwrap();
        write_value(out, base + i * far, column, plan);
    }
}

// The members of a structure that begins at `base`, each at its place.
#[cycle(write)]
fn write_members(out: &mut [u8], base: usize, members: &[Instance], places: &[Place])
    requires { StandAsMembers (vals_view members.now) (places_view places.now) base (length out.old) }
    ensures { out.new ≡ put_members (vals_view members.now) (places_view places.now) base out.old }
{
    for (i, member) in members.iter().enumerate() {
        let place = &places[i];
        write_value(out, base + place.offset as usize, member, &place.plan);
    }
}

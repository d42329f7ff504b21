//! The numbers of a value, copied from bytes to bytes by the plan of its type, with no value between
//! (WGSL: internal layout of values).

ghost use Rattle.std.specs.Prelude.{◌≡◌, ◌+◌, ◌≤◌, length, IsTrue, is_some};
ghost use Rattle.wgsl_rules.specs.Layout.{layout, leaf, scalar_kind, size};
ghost use Rattle.wgsl_rules.specs.Types.{array, mat, vec};
ghost use Rattle.wgsl_rules.specs.View.{type_view, members_view, struct_view as struct_type_view};
ghost use Rattle.wgsl_layout.specs.Buffers.{decoded};
ghost use Rattle.wgsl_layout.specs.Plan.{plan_view, places_view, scalar};
ghost use Rattle.wgsl_layout.specs.Reading.{IsThere, AreThere, members_at};
ghost use Rattle.wgsl_layout.specs.Walk.{put, put_members};

use crate::plan::{Place, Plan};
use crate::reader::read_literal;
use crate::writer::write_literal;
use wgsl_rules::{StructMemberType, StructType, Type};

/// Copies the numbers of the value of the type that begins at `at` in the bytes to where it begins at `base`
/// in the others, by the plan of the type, with `count` elements in the runtime-sized array that the type is
/// or ends in. Padding stays as it was. The conditions: the type has a layout, the value lies in both whole,
/// and such an array has one element at least.
#[cycle(copy)]
pub(crate) fn copy_numbers(
    out: &mut [u8],
    base: usize,
    bytes: &[u8],
    at: usize,
    count: usize,
    ty: &Type,
    plan: &Plan,
)
    requires from { IsThere count (type_view ty.now) (plan_view plan.now) at (length bytes.now) }
    requires to { IsThere count (type_view ty.now) (plan_view plan.now) base (length out.old) }
    ensures { out.new ≡ put (decoded bytes.now at (layout count (type_view ty.now))) (plan_view plan.now) base out.old }
{
    match ty {
        Type::I32 | Type::U32 | Type::I64 | Type::U64 => copy_number(out, base, bytes, at, ty),
        Type::Atomic(content) => copy_number(out, base, bytes, at, content),
        Type::Vec(n, component) => copy_vector(out, base, bytes, at, *n, component, plan),
        Type::Mat(columns, rows, component) => {
            copy_matrix(out, base, bytes, at, *columns, *rows, component, plan)
        }
        Type::Array(element, n) => copy_array(out, base, bytes, at, count, element, *n, plan),
        Type::Struct(s) => copy_struct(out, base, bytes, at, count, s, plan),
        // No other type has a layout.
        Type::Bool | Type::AbstractInt | Type::AbstractFloat => unreachable!(),
        Type::F32 | Type::F16 | Type::F64 => unreachable!(),
        Type::Ptr(_, _, _) | Type::Ref(_, _, _) => unreachable!(),
        Type::Texture(_) | Type::Sampler(_) => unreachable!(),
    }
}

// The number of a scalar type.
fn copy_number(out: &mut [u8], base: usize, bytes: &[u8], at: usize, ty: &Type)
    requires scalar { IsTrue (is_some (scalar_kind (type_view ty.now))) }
    requires from { at + size (type_view ty.now) ≤ length bytes.now }
    requires to { base + size (type_view ty.now) ≤ length out.old }
    ensures { out.new ≡ put (decoded bytes.now at (leaf (type_view ty.now) (scalar_kind (type_view ty.now)))) scalar base out.old }
{
    let number = read_literal(bytes, at, ty);
    write_literal(out, base, number);
}

/// Copies the numbers of the vector of n components of the type that begins at `at` in the bytes to where it
/// begins at `base` in the others, by its plan. Padding stays as it was. The conditions: its type has a
/// layout, and it lies in both whole.
pub(crate) fn copy_vector(
    out: &mut [u8],
    base: usize,
    bytes: &[u8],
    at: usize,
    n: u8,
    component: &Type,
    plan: &Plan,
)
    requires from { IsThere 0 (vec n (type_view component.now)) (plan_view plan.now) at (length bytes.now) }
    requires to { IsThere 0 (vec n (type_view component.now)) (plan_view plan.now) base (length out.old) }
    ensures { out.new ≡ put (decoded bytes.now at (layout 0 (vec n (type_view component.now)))) (plan_view plan.now) base out.old }
{
    let Plan::Components(far) = plan else {
        unreachable!()
    };
    let far = *far as usize;
    let len = usize::from(n);
    for i in 0..len {
        copy_number(out, base + i * far, bytes, at + i * far, component);
    }
}

// The matrix of so many columns and rows of components of the type, by its plan.
fn copy_matrix(
    out: &mut [u8],
    base: usize,
    bytes: &[u8],
    at: usize,
    columns: u8,
    rows: u8,
    component: &Type,
    plan: &Plan,
)
    requires from { IsThere 0 (mat columns rows (type_view component.now)) (plan_view plan.now) at (length bytes.now) }
    requires to { IsThere 0 (mat columns rows (type_view component.now)) (plan_view plan.now) base (length out.old) }
    ensures { out.new ≡ put (decoded bytes.now at (layout 0 (mat columns rows (type_view component.now)))) (plan_view plan.now) base out.old }
{
    let Plan::Row(far, column) = plan else {
        unreachable!()
    };
    let far = *far as usize;
    let len = usize::from(columns);
    for i in 0..len {
        copy_vector(
            out,
            base + i * far,
            bytes,
            at + i * far,
            rows,
            component,
            column,
        );
    }
}

// The array of n elements of the type, or runtime-sized and of `count`, by its plan.
#[cycle(copy)]
fn copy_array(
    out: &mut [u8],
    base: usize,
    bytes: &[u8],
    at: usize,
    count: usize,
    element: &Type,
    n: Option<usize>,
    plan: &Plan,
)
    requires from { IsThere count (array (type_view element.now) n) (plan_view plan.now) at (length bytes.now) }
    requires to { IsThere count (array (type_view element.now) n) (plan_view plan.now) base (length out.old) }
    ensures { out.new ≡ put (decoded bytes.now at (layout count (array (type_view element.now) n))) (plan_view plan.now) base out.old }
{
    let Plan::Row(far, part) = plan else {
        unreachable!()
    };
    let far = *far as usize;
    let len = n.unwrap_or(count);
    for i in 0..len {
        copy_numbers(
            out,
            base + i * far,
            bytes,
            at + i * far,
            count,
            element,
            part,
        );
    }
}

// The value of the structure type, by its plan.
#[cycle(copy)]
fn copy_struct(
    out: &mut [u8],
    base: usize,
    bytes: &[u8],
    at: usize,
    count: usize,
    ty: &StructType,
    plan: &Plan,
)
    requires from { IsThere count (struct_type_view ty.now) (plan_view plan.now) at (length bytes.now) }
    requires to { IsThere count (struct_type_view ty.now) (plan_view plan.now) base (length out.old) }
    ensures { out.new ≡ put (decoded bytes.now at (layout count (struct_type_view ty.now))) (plan_view plan.now) base out.old }
{
    let Plan::Members(_, places) = plan else {
        unreachable!()
    };
    copy_members(
        out,
        base,
        bytes,
        at,
        count,
        ty.members.as_slice(),
        places.as_slice(),
    );
}

// The members at these places of a structure.
#[cycle(copy)]
fn copy_members(
    out: &mut [u8],
    base: usize,
    bytes: &[u8],
    at: usize,
    count: usize,
    members: &[StructMemberType],
    places: &[Place],
)
    requires from { AreThere count (members_view members.now) (places_view places.now) at (length bytes.now) }
    requires to { AreThere count (members_view members.now) (places_view places.now) base (length out.old) }
    ensures { out.new ≡ put_members (members_at bytes.now at count (members_view members.now) (places_view places.now)) (places_view places.now) base out.old }
{
    for (i, member) in members.iter().enumerate() {
        let place = &places[i];
        let offset = place.offset as usize;
        copy_numbers(
            out,
            base + offset,
            bytes,
            at + offset,
            count,
            &member.ty,
            &place.plan,
        );
    }
}

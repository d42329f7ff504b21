//! The value that bytes lay out (WGSL: internal layout of values).

ghost use Rattle.std.specs.Prelude.{◌≡◌, ◌+◌, ◌≤◌, ℕ, List, length, IfOk, IsTrue, is_some, option_map};
ghost use Rattle.wgsl_rules.specs.Layout.{layout, leaf, scalar_kind, size};
ghost use Rattle.wgsl_rules.specs.Types.{array, mat, struct, vec};
ghost use Rattle.wgsl_rules.specs.View.{type_view, members_view, struct_view as struct_type_view};
ghost use Rattle.wgsl_scalar.specs.Literals.{literal_of};
ghost use Rattle.wgsl_values.specs.View.{
  value_of,
  vals_view,
  array_view,
  mat_view,
  struct_view,
  vec_view,
};
ghost use Rattle.wgsl_layout.specs.Buffers.{decode, decoded, number_from};
ghost use Rattle.wgsl_layout.specs.Plan.{plan_view, places_view};
ghost use Rattle.wgsl_layout.specs.Reading.{IsThere, AreThere, members_at};
ghost use Rattle.wgsl_layout.specs.Sharing.{Suits};

use crate::make::TypePlan;
use crate::plan::{Place, Plan};
use crate::types::Types;
use std::alloc::{AllocError, Global};
use wgsl_rules::{StructMemberType, StructType, Type};
use wgsl_scalar::LiteralInstance;
use wgsl_values::{
    ArrayInstance, AtomicInstance, Instance, MatInstance, StructInstance, VecInstance,
};

// The number in the four bytes at `at`, the lowest byte first.
fn u32_at(bytes: &[u8], at: usize) -> u32
    requires { at + 4 ≤ length bytes.now }
    ensures { result ≡ number_from bytes.now at 4 }
{
    u32::from_le_bytes([bytes[at], bytes[at + 1], bytes[at + 2], bytes[at + 3]])
}

// The number in the eight bytes at `at`, the lowest byte first.
fn u64_at(bytes: &[u8], at: usize) -> u64
    requires { at + 8 ≤ length bytes.now }
    ensures { result ≡ number_from bytes.now at 8 }
{
    u64::from_le_bytes([
        bytes[at],
        bytes[at + 1],
        bytes[at + 2],
        bytes[at + 3],
        bytes[at + 4],
        bytes[at + 5],
        bytes[at + 6],
        bytes[at + 7],
    ])
}

/// The value of the type that the bytes lay out, from the first byte on, as [`crate::Buffers::from_buffer`] reads it,
/// with `AllocError` for its error: each number little-endian at its place (WGSL: internal layout of values). Where the
/// type is or ends in a runtime-sized array, that has as many elements as find room (WGSL: buffer binding determines
/// runtime-sized array element count). Padding is not looked at, and bytes past the end of the value are ignored.
///
/// `None` exactly where the type has no layout ([`Type::has_layout`]), or there are fewer bytes than a value of the
/// type takes, with one element at least in a runtime-sized array.
/// It calls itself for each level of the type: keep to 4,095 within a stack of 8 MiB.
pub fn read_buffer(alloc: Global, bytes: &[u8], ty: &Type) -> Result<Option<Instance>, AllocError>
    ensures { IfOk result (λ v. option_map value_of v ≡ decode bytes.now (type_view ty.now)) }
{
    let of_type = TypePlan::of_type(alloc, ty)?;
    if !of_type.has_layout {
        return Ok(None);
    }
    let Some(count) = of_type.extent().count_in(bytes.len()) else {
        return Ok(None);
    };
    let value = read_value(alloc, bytes, 0, count, ty, &of_type.plan, Types::Own)?;
    Ok(Some(value))
}

/// The number of a scalar type that stands at `at`.
pub(crate) fn read_literal(bytes: &[u8], at: usize, ty: &Type) -> LiteralInstance
    requires scalar { IsTrue (is_some (scalar_kind (type_view ty.now))) }
    requires inside { at + size (type_view ty.now) ≤ length bytes.now }
    ensures { literal_of result ≡ decoded bytes.now at (leaf (type_view ty.now) (scalar_kind (type_view ty.now))) }
{
    match ty {
        Type::I32 => LiteralInstance::I32(u32_at(bytes, at).cast_signed()),
        Type::U32 => LiteralInstance::U32(u32_at(bytes, at)),
        Type::I64 => LiteralInstance::I64(u64_at(bytes, at).cast_signed()),
        Type::U64 => LiteralInstance::U64(u64_at(bytes, at)),
        // No other type is a scalar of host-shared memory.
        Type::Bool | Type::AbstractInt | Type::AbstractFloat => unreachable!(),
        Type::F32 | Type::F16 | Type::F64 => unreachable!(),
        Type::Struct(_) | Type::Array(_, _) | Type::Vec(_, _) => unreachable!(),
        Type::Mat(_, _, _) | Type::Atomic(_) => unreachable!(),
        Type::Ptr(_, _, _) | Type::Ref(_, _, _) => unreachable!(),
        Type::Texture(_) | Type::Sampler(_) => unreachable!(),
    }
}

/// The vector of n components of the type that begins at `base`, by its plan. The condition: its type has a
/// layout, and the bytes hold it whole.
pub(crate) fn read_vector(
    alloc: Global,
    bytes: &[u8],
    base: usize,
    n: u8,
    component: &Type,
    plan: &Plan,
) -> Result<VecInstance, AllocError>
    requires { IsThere 0 (vec n (type_view component.now)) (plan_view plan.now) base (length bytes.now) }
    ensures { IfOk result (λ v. vec_view v ≡ decoded bytes.now base (layout 0 (vec n (type_view component.now)))) }
{
    let Plan::Components(far) = plan else {
        unreachable!()
    };
    let far = *far as usize;
    let len = usize::from(n);
    let mut components = Vec::with_capacity(alloc, len)?;
    for i in 0..len {
        let literal = read_literal(bytes, base + i * far, component);
        components.push(Instance::from(literal))?;
    }
    Ok(VecInstance::new(components))
}

// The matrix that begins at `base`, of so many columns and rows of components of the type, by its plan.
fn read_matrix(
    alloc: Global,
    bytes: &[u8],
    base: usize,
    columns: u8,
    rows: u8,
    component: &Type,
    plan: &Plan,
) -> Result<MatInstance, AllocError>
    requires { IsThere 0 (mat columns rows (type_view component.now)) (plan_view plan.now) base (length bytes.now) }
    ensures { IfOk result (λ v. mat_view v ≡ decoded bytes.now base (layout 0 (mat columns rows (type_view component.now)))) }
{
    let Plan::Row(far, column) = plan else {
        unreachable!()
    };
    let far = *far as usize;
    let len = usize::from(columns);
    let mut values = Vec::with_capacity(alloc, len)?;
    for i in 0..len {
        let vector = read_vector(alloc, bytes, base + i * far, rows, component, column)?;
        values.push(Instance::from(vector))?;
    }
    Ok(MatInstance::from_cols(values))
}

/// The value of the type that begins at `base`, by the plan of the type, with `count` elements in the
/// runtime-sized array that the type is or ends in. The condition: the type has a layout, the bytes hold
/// the value whole, and such an array has one element at least. Structures take their types as asked: a value that shares
/// its types is of the type.
#[cycle(read)]
pub(crate) fn read_value(
    alloc: Global,
    bytes: &[u8],
    base: usize,
    count: usize,
    ty: &Type,
    plan: &Plan,
    types: Types<'_>,
) -> Result<Instance, AllocError>
    requires there { IsThere count (type_view ty.now) (plan_view plan.now) base (length bytes.now) }
    requires suits { Suits types count (type_view ty.now) }
    ensures { IfOk result (λ v. value_of v ≡ decoded bytes.now base (layout count (type_view ty.now))) }
{
    match ty {
        Type::I32 | Type::U32 | Type::I64 | Type::U64 => {
            Ok(Instance::from(read_literal(bytes, base, ty)))
        }
        Type::Atomic(content) => {
            let number = read_literal(bytes, base, content);
            let atomic = AtomicInstance::new(alloc, Instance::from(number))?;
            Ok(Instance::from(atomic))
        }
        Type::Vec(n, component) => {
            let vector = read_vector(alloc, bytes, base, *n, component, plan)?;
            Ok(Instance::from(vector))
        }
        Type::Mat(columns, rows, component) => {
            let matrix = read_matrix(alloc, bytes, base, *columns, *rows, component, plan)?;
            Ok(Instance::from(matrix))
        }
        Type::Array(element, n) => {
            let array = read_array(alloc, bytes, base, count, element, *n, plan, types)?;
            Ok(Instance::from(array))
        }
        Type::Struct(s) => {
            let members = read_struct(alloc, bytes, base, count, s, plan, types)?;
            Ok(Instance::from(members))
        }
        // No other type has a layout.
        Type::Bool | Type::AbstractInt | Type::AbstractFloat => unreachable!(),
        Type::F32 | Type::F16 | Type::F64 => unreachable!(),
        Type::Ptr(_, _, _) | Type::Ref(_, _, _) => unreachable!(),
        Type::Texture(_) | Type::Sampler(_) => unreachable!(),
    }
}

// The array that begins at `base`, of n elements of the type, or runtime-sized and of `count`, by its
// plan.
#[cycle(read)]
fn read_array(
    alloc: Global,
    bytes: &[u8],
    base: usize,
    count: usize,
    element: &Type,
    n: Option<usize>,
    plan: &Plan,
    types: Types<'_>,
) -> Result<ArrayInstance, AllocError>
    requires there { IsThere count (array (type_view element.now) n) (plan_view plan.now) base (length bytes.now) }
    requires suits { Suits types count (array (type_view element.now) n) }
    ensures { IfOk result (λ v. array_view v ≡ decoded bytes.now base (layout count (array (type_view element.now) n))) }
{
    let Plan::Row(far, part) = plan else {
        unreachable!()
    };
    let far = *far as usize;
    let runtime_sized = n.is_none();
    let len = n.unwrap_or(count);
    let mut elements = Vec::with_capacity(alloc, len)?;
    for i in 0..len {
        let types = types.element(elements.as_slice(), len);
        let value = read_value(alloc, bytes, base + i * far, count, element, part, types)?;
        elements.push(value)?;
    }
    Ok(ArrayInstance::new(elements, runtime_sized))
}

// The value of the structure type that begins at `base`, by its plan.
#[cycle(read)]
fn read_struct(
    alloc: Global,
    bytes: &[u8],
    base: usize,
    count: usize,
    ty: &StructType,
    plan: &Plan,
    types: Types<'_>,
) -> Result<StructInstance, AllocError>
    requires there { IsThere count (struct_type_view ty.now) (plan_view plan.now) base (length bytes.now) }
    requires suits { Suits types count (struct_type_view ty.now) }
    ensures { IfOk result (λ v. struct_view v ≡ decoded bytes.now base (layout count (struct_type_view ty.now))) }
{
    let Plan::Members(_, places) = plan else {
        unreachable!()
    };
    let members = read_members(
        alloc,
        bytes,
        base,
        count,
        ty.members.as_slice(),
        places.as_slice(),
        types,
    )?;
    Ok(StructInstance::of_shared(types.structure(alloc, ty)?, members))
}

// The members at these places of a structure that begins at `base`.
#[cycle(read)]
fn read_members(
    alloc: Global,
    bytes: &[u8],
    base: usize,
    count: usize,
    members: &[StructMemberType],
    places: &[Place],
    types: Types<'_>,
) -> Result<Vec<Instance>, AllocError>
    requires there { AreThere count (members_view members.now) (places_view places.now) base (length bytes.now) }
    requires suits { (name : List ℕ) × Suits types count (struct name (members_view members.now)) }
    ensures { IfOk result (λ v. vals_view v.items ≡ members_at bytes.now base count (members_view members.now) (places_view places.now)) }
{
    let mut values = Vec::with_capacity(alloc, members.len())?;
    for (i, member) in members.iter().enumerate() {
        let place = &places[i];
        let at = base + place.offset as usize;
        let types = types.part(i);
        let value = read_value(alloc, bytes, at, count, &member.ty, &place.plan, types)?;
        values.push(value)?;
    }
    Ok(values)
}

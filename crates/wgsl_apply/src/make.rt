//! Values that are made of parts, and zero values (WGSL: value constructor built-in functions; zero
//! value built-in functions).

ghost use Rattle.std.specs.Prelude.{◌≡◌, IfOk, IfSome, MatchOption, false, option_map};
ghost use Rattle.wgsl_apply.specs.Zeros.{
  copies,
  zero_array,
  zero_matrix,
  zero_of,
  zero_scalar,
  zero_vector,
  zeros_of,
};
ghost use Rattle.wgsl_rules.specs.Values.{IsStorable, array_of, matrix, record_of, type_of, vector};
ghost use Rattle.wgsl_rules.specs.View.{
  members_view,
  struct_view as struct_type_view,
  type_view,
};
ghost use Rattle.wgsl_scalar.specs.Literals.{literal_of};
ghost use Rattle.wgsl_values.specs.View.{vals_view, value_of};

use std::alloc::{AllocError, Global};
use wgsl_rules::{StructMemberType, StructType, Type};
use wgsl_scalar::LiteralInstance;
use wgsl_values::{ArrayInstance, Instance, MatInstance, StructInstance, VecInstance};

/// The zero of a scalar type; `None` of any other type.
pub fn zero_literal(ty: &Type) -> Option<LiteralInstance>
    ensures value { option_map literal_of result ≡ zero_scalar (type_view ty.now) }
    ensures typed { IfSome result (λ l. type_of (literal_of l) ≡ type_view ty.now) }
{
    match ty {
        Type::Bool => Some(LiteralInstance::Bool(false)),
        Type::AbstractInt => Some(LiteralInstance::AbstractInt(0)),
        Type::I32 => Some(LiteralInstance::I32(0)),
        Type::U32 => Some(LiteralInstance::U32(0)),
        Type::I64 => Some(LiteralInstance::I64(0)),
        Type::U64 => Some(LiteralInstance::U64(0)),
        Type::AbstractFloat | Type::F32 | Type::F16 | Type::F64 => None,
        Type::Struct(_) | Type::Array(_, _) | Type::Vec(_, _) | Type::Mat(_, _, _) => None,
        Type::Atomic(_) | Type::Ptr(_, _, _) | Type::Ref(_, _, _) => None,
        Type::Texture(_) | Type::Sampler(_) => None,
    }
}

/// The zero value of a type; `None` where it has none: of atomics, pointers, references, floats,
/// textures, samplers, runtime-sized arrays, arrays of no elements, vectors and matrices that have not two
/// to four, and of what has such a part. It calls itself for each level of the type: keep to 4,095 within
/// a stack of 8 MiB.
#[cycle(zeros)]
pub fn zero(alloc: Global, ty: &Type) -> Result<Option<Instance>, AllocError>
    ensures value { IfOk result (λ o. option_map value_of o ≡ zero_of (type_view ty.now)) }
    ensures some { IfOk result (λ o. IfSome o (λ v. IsStorable (value_of v) × (type_of (value_of v) ≡ type_view ty.now))) }
{
    match ty {
        Type::Vec(n, scalar) => zero_vector(alloc, *n, scalar),
        Type::Mat(columns, rows, scalar) => zero_matrix(alloc, *columns, *rows, scalar),
        Type::Array(element, count) => match zero(alloc, element)? {
            Some(element) => array_of_copies(alloc, &element, *count),
            None => Ok(None),
        },
        Type::Struct(of) => zero_structure(alloc, of),
        Type::Bool | Type::AbstractInt | Type::I32 | Type::U32 | Type::I64 | Type::U64 => {
            Ok(zero_literal(ty).map(Instance::from))
        }
        Type::AbstractFloat | Type::F32 | Type::F16 | Type::F64 => Ok(None),
        Type::Atomic(_) | Type::Ptr(_, _, _) | Type::Ref(_, _, _) => Ok(None),
        Type::Texture(_) | Type::Sampler(_) => Ok(None),
    }
}

#[cycle(zeros)]
fn zero_structure(alloc: Global, ty: &StructType) -> Result<Option<Instance>, AllocError>
    ensures { IfOk result (λ o. option_map value_of o ≡ zero_of (struct_type_view ty.now)) }
{
    match zero_members(alloc, ty.members.as_slice())? {
        Some(members) => Ok(make_structure(ty.clone(alloc)?, members)),
        None => Ok(None),
    }
}

#[cycle(zeros)]
fn zero_members(
    alloc: Global,
    members: &[StructMemberType],
) -> Result<Option<Vec<Instance>>, AllocError>
    ensures { IfOk result (λ o. option_map (λ vs. vals_view vs.items) o ≡ zeros_of (members_view members.now)) }
{
    let mut values = Vec::with_capacity(alloc, members.len())?;
    for member in members {
        match zero(alloc, &member.ty)? {
            Some(value) => values.push(value)?,
            None => return Ok(None),
        }
    }
    Ok(Some(values))
}

// Not inlined, as the next two: `zero` calls itself, and its frame would have the room of their locals.
#[inline(never)]
fn zero_vector(alloc: Global, n: u8, scalar: &Type) -> Result<Option<Instance>, AllocError>
    ensures { IfOk result (λ o. option_map value_of o ≡ zero_vector n (type_view scalar.now)) }
{
    match zero_literal(scalar) {
        Some(literal) => {
            let components = copies(alloc, &Instance::from(literal), usize::from(n))?;
            Ok(make_vector(components))
        }
        None => Ok(None),
    }
}

#[inline(never)]
fn zero_matrix(
    alloc: Global,
    columns: u8,
    rows: u8,
    scalar: &Type,
) -> Result<Option<Instance>, AllocError>
    ensures { IfOk result (λ o. option_map value_of o ≡ zero_matrix columns rows (type_view scalar.now)) }
{
    match zero_vector(alloc, rows, scalar)? {
        Some(column) => Ok(make_matrix(copies(alloc, &column, usize::from(columns))?)),
        None => Ok(None),
    }
}

// The array of so many of a value; `None` of no count.
#[inline(never)]
fn array_of_copies(
    alloc: Global,
    value: &Instance,
    count: Option<usize>,
) -> Result<Option<Instance>, AllocError>
    requires { IsStorable (value_of value.now) }
    ensures { IfOk result (λ o. option_map value_of o ≡ zero_array count (Some (value_of value.now))) }
{
    match count {
        Some(count) => Ok(make_array(copies(alloc, value, count)?)),
        None => Ok(None),
    }
}

fn copies(alloc: Global, value: &Instance, count: usize) -> Result<Vec<Instance>, AllocError>
    ensures { IfOk result (λ vs. vals_view vs.items ≡ copies count (value_of value.now)) }
{
    let mut values = Vec::with_capacity(alloc, count)?;
    while values.len() < count {
        values.push(value.clone(alloc)?)?;
    }
    Ok(values)
}

/// The vector of the components; `None` where these are not two to four literals of one kind.
pub fn make_vector(components: Vec<Instance>) -> Option<Instance>
    ensures value { MatchOption result
        (¬ IsStorable (vector (vals_view components.items)))
        (λ v. value_of v ≡ vector (vals_view components.items)) }
    ensures some { IfSome result (λ v. IsStorable (value_of v)) }
{
    if !VecInstance::can_make(components.as_slice()) {
        return None;
    }
    Some(Instance::from(VecInstance::new(components)))
}

/// The matrix of the columns; `None` where these are not two to four vectors of one type.
pub fn make_matrix(columns: Vec<Instance>) -> Option<Instance>
    ensures value { MatchOption result
        (¬ IsStorable (matrix (vals_view columns.items)))
        (λ v. value_of v ≡ matrix (vals_view columns.items)) }
    ensures some { IfSome result (λ v. IsStorable (value_of v)) }
{
    if !MatInstance::can_make(columns.as_slice()) {
        return None;
    }
    Some(Instance::from(MatInstance::from_cols(columns)))
}

/// The array of the elements; `None` where there is none, one may not be stored, or their types differ.
/// It calls itself for each level of the elements: keep to 4,095 within a stack of 8 MiB.
pub fn make_array(elements: Vec<Instance>) -> Option<Instance>
    ensures value { MatchOption result
        (¬ IsStorable (array_of false (vals_view elements.items)))
        (λ v. value_of v ≡ array_of false (vals_view elements.items)) }
    ensures some { IfSome result (λ v. IsStorable (value_of v)) }
{
    if !ArrayInstance::can_make(elements.as_slice(), false) {
        return None;
    }
    Some(Instance::from(ArrayInstance::new(elements, false)))
}

/// The structure of the members; `None` where these are not one of each member's type, in order. It
/// calls itself for each level of a value or type: keep to 4,095 within a stack of 8 MiB.
pub fn make_structure(ty: StructType, members: Vec<Instance>) -> Option<Instance>
    ensures value { MatchOption result
        (¬ IsStorable (record_of (struct_type_view ty) (vals_view members.items)))
        (λ v. value_of v ≡ record_of (struct_type_view ty) (vals_view members.items)) }
    ensures some { IfSome result (λ v. IsStorable (value_of v)) }
{
    if !StructInstance::can_make(&ty, members.as_slice()) {
        return None;
    }
    Some(Instance::from(StructInstance::new(ty, members)))
}

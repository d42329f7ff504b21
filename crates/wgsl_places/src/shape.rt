//! The types of parts, as views name them (WGSL: composite value decomposition expressions).

ghost use Rattle.std.specs.Prelude.{◌≡◌, ◌<◌, ℕ, Some, length, option_map};
ghost use Rattle.wgsl_places.specs.Steps.{field_at, shape_ty, step_to};
ghost use Rattle.wgsl_rules.specs.Paths.{index_named};
ghost use Rattle.wgsl_rules.specs.Values.{index as index_step, member as member_step};
ghost use Rattle.wgsl_rules.specs.View.{members_view, struct_view, type_view};

use wgsl_rules::{StructMemberType, StructType, Type};

/// The type of a part.
#[derive(Clone, Copy)]
pub(crate) enum Shape<'a> {
    /// This one.
    Whole(&'a Type),
    /// That of a matrix' columns: vectors of so many components of the type.
    Column(u8, &'a Type),
}

impl<'a> Shape<'a> {
    /// The position and the type of the first member of the name; `None` where there is none: structures alone have
    /// members.
    pub(crate) fn member(self, name: &str) -> Option<(usize, Shape<'a>)>
        ensures { option_map (λ p. (p.0, shape_ty p.1)) result ≡ step_to (member_step name.now) (shape_ty self.entry) }
    {
        match self {
            Shape::Whole(ty) => member_of_struct(ty.as_struct()?, name),
            Shape::Column(_, _) => None,
        }
    }

    /// The type of the parts that have an index; `None` where none have: arrays, vectors and matrices have such parts.
    pub(crate) fn element(self) -> Option<Shape<'a>>
        ensures { (i : ℕ) → option_map (λ s. (i, shape_ty s)) result ≡ step_to (index_step i) (shape_ty self.entry) }
    {
        match self {
            Shape::Whole(ty) => element_of(ty),
            Shape::Column(_, component) => Some(Shape::Whole(component)),
        }
    }
}

// The first member of the name.
fn member_of_struct<'a>(ty: &'a StructType, name: &str) -> Option<(usize, Shape<'a>)>
    ensures { option_map (λ p. (p.0, shape_ty p.1)) result ≡ step_to (member_step name.now) (struct_view ty.now) }
{
    let members = ty.members.as_slice();
    let i = position(members, name)?;
    Some((i, type_of_member(members, i)))
}

// The type of the member at the position.
fn type_of_member(members: &[StructMemberType], i: usize) -> Shape<'_>
    requires { i < length members.now }
    ensures { Some (shape_ty result) ≡ field_at i (members_view members.now) }
{
    Shape::Whole(&members[i].ty)
}

// The position of the first member of the name.
fn position(members: &[StructMemberType], name: &str) -> Option<usize>
    ensures { result ≡ index_named name.now (members_view members.now) }
{
    for (i, member) in members.iter().enumerate() {
        if member.name.as_str() == name {
            return Some(i);
        }
    }
    None
}

// The type of the elements, components or columns.
fn element_of(ty: &Type) -> Option<Shape<'_>>
    ensures { (i : ℕ) → option_map (λ s. (i, shape_ty s)) result ≡ step_to (index_step i) (type_view ty.now) }
{
    match ty {
        Type::Array(element, _) => Some(Shape::Whole(element)),
        Type::Vec(_, component) => Some(Shape::Whole(component)),
        Type::Mat(_, rows, component) => Some(Shape::Column(*rows, component)),
        Type::Bool | Type::AbstractInt | Type::AbstractFloat => None,
        Type::I32 | Type::U32 | Type::F32 | Type::F16 => None,
        Type::I64 | Type::U64 | Type::F64 | Type::Atomic(_) => None,
        Type::Struct(_) | Type::Texture(_) | Type::Sampler(_) => None,
        Type::Ptr(_, _, _) | Type::Ref(_, _, _) => None,
    }
}

//! Where a part of a value stands, as its type and the plan of its type tell (WGSL: internal layout of values).

ghost use Rattle.std.specs.Prelude.{
  ◌≡◌,
  ◌↔◌,
  ◌+◌,
  ◌*◌,
  ◌<◌,
  ℕ,
  IfOk,
  IfSome,
  IsTrue,
  Some,
  is_some,
  length,
  option_map,
};
ghost use Rattle.std.specs.Option.{unwrap_or};
ghost use Rattle.wgsl_rules.specs.Layout.{layout, member_parts, repeated};
ghost use Rattle.wgsl_rules.specs.Paths.{index_named};
ghost use Rattle.wgsl_rules.specs.TypeParts.{array_part, atomic_part, vec_part};
ghost use Rattle.wgsl_rules.specs.Types.{array, mat, vec};
ghost use Rattle.wgsl_rules.specs.Values.{index as index_step, member as member_step};
ghost use Rattle.wgsl_rules.specs.View.{type_view, struct_view, members_view};
ghost use Rattle.wgsl_layout.specs.Located.{
  IsInside,
  IsLocated,
  is_indexable as indexable,
  number_of_parts,
  part_range,
  range_behind,
  shape_plan,
  shape_ty,
  step_range,
};
ghost use Rattle.wgsl_layout.specs.Plan.{places_of, places_view, plan_view};
ghost use Rattle.wgsl_layout.specs.Ranges.{further, part_at, parts_in};
ghost use Rattle.wgsl_layout.specs.Reading.{AreThere, IsThere};

use crate::plan::{Place, Plan};
use std::alloc::{AllocError, Global};
use wgsl_rules::{StructMemberType, StructType, Type};

/// A part of a value of a type that has a layout, as the type alone tells it.
#[derive(Clone, Copy)]
pub(crate) struct Located<'a> {
    /// Where it begins in the bytes of the whole.
    pub(crate) start: usize,
    /// How many bytes the whole has.
    pub(crate) len: usize,
    /// How many elements the runtime-sized array has that the whole is or ends in.
    pub(crate) count: usize,
    pub(crate) shape: Shape<'a>,
}

/// The type of a part, and where the parts of its values stand.
#[derive(Clone, Copy)]
pub(crate) enum Shape<'a> {
    /// The whole, a member or an element: of this type.
    Whole(&'a Type, &'a Plan),
    /// A column of a matrix: of so many components of the type.
    Column(u8, &'a Type, &'a Plan),
    /// A component of a vector: of this scalar type.
    Component(&'a Type),
}

// The steps are compiled into the loop that follows a view (`viewed`): a part is many words, and one that is handed from call to
// call is copied at each.
impl<'a> Located<'a> {
    /// The first member of the name; `None` where there is none: structures alone have members. The condition:
    /// this part stands in its whole, and its plan is that of its type.
    #[inline(always)]
    pub(crate) fn member(self, name: &str) -> Option<Located<'a>>
        requires { IsLocated self }
        ensures range { option_map part_range result ≡ step_range (member_step name.now) self.entry }
        ensures there { IfSome result (IsInside self.entry) }
    {
        match self.shape {
            Shape::Whole(ty, plan) => self.member_of_type(ty, plan, name),
            Shape::Column(_, _, _) | Shape::Component(_) => None,
        }
    }

    /// The part of the index; `None` past the end, or where no part has an index: those of arrays, vectors and
    /// matrices have. The condition: this part stands in its whole, and its plan is that of its type.
    #[inline(always)]
    pub(crate) fn index(self, i: usize) -> Option<Located<'a>>
        requires { IsLocated self }
        ensures range { option_map part_range result ≡ step_range (index_step i) self.entry }
        ensures there { IfSome result (IsInside self.entry) }
    {
        match self.shape {
            Shape::Whole(ty, plan) => self.part_of_type(ty, plan, i),
            Shape::Column(n, component, plan) => self.component(n, component, plan, i),
            Shape::Component(_) => None,
        }
    }

    // The member of the name, where the part is of the type and the plan is that of the type.
    #[inline(always)]
    fn member_of_type(self, ty: &'a Type, plan: &'a Plan, name: &str) -> Option<Located<'a>>
        requires { IsThere self.count (type_view ty.now) (plan_view plan.now) self.start self.len }
        ensures range { option_map part_range result ≡ range_behind (member_step name.now) self.entry.count (type_view ty.now) self.entry.start }
        ensures there { IfSome result (IsInside self.entry) }
    {
        match ty {
            Type::Struct(s) => self.member_of_struct(s, plan, name),
            Type::Bool | Type::AbstractInt | Type::AbstractFloat => None,
            Type::I32 | Type::U32 | Type::F32 | Type::F16 => None,
            Type::I64 | Type::U64 | Type::F64 | Type::Atomic(_) => None,
            Type::Array(_, _) | Type::Vec(_, _) | Type::Mat(_, _, _) => None,
            Type::Ptr(_, _, _) | Type::Ref(_, _, _) => None,
            Type::Texture(_) | Type::Sampler(_) => None,
        }
    }

    // The member of the name, where the part is of the structure type.
    #[inline(always)]
    fn member_of_struct(self, ty: &'a StructType, plan: &'a Plan, name: &str) -> Option<Located<'a>>
        requires { IsThere self.count (struct_view ty.now) (plan_view plan.now) self.start self.len }
        ensures range { option_map part_range result ≡ range_behind (member_step name.now) self.entry.count (struct_view ty.now) self.entry.start }
        ensures there { IfSome result (IsInside self.entry) }
    {
        let Plan::Members(_, places) = plan else {
            unreachable!()
        };
        let members = ty.members.as_slice();
        let i = position(members, name)?;
        Some(self.member_at(members, places.as_slice(), i))
    }

    // The member at the position, where the part is a structure with these members at these places.
    fn member_at(
        self,
        members: &'a [StructMemberType],
        places: &'a [Place],
        i: usize,
    ) -> Located<'a>
        requires below { i < length members.now }
        requires there { AreThere self.count (members_view members.now) (places_view places.now) self.start self.len }
        requires planned { places_view places.now ≡ places_of (Some 0) (members_view members.now) }
        ensures range { Some (part_range result) ≡ option_map (further self.entry.start) (part_at i (member_parts self.entry.count (Some 0) (members_view members.now))) }
        ensures there { IsInside self.entry result }
    {
        let member = &members[i];
        let place = &places[i];
        Located {
            start: self.start + place.offset as usize,
            len: self.len,
            count: self.count,
            shape: Shape::Whole(&member.ty, &place.plan),
        }
    }

    // The part of the index, where the part is of the type and the plan is that of the type.
    #[inline(always)]
    fn part_of_type(self, ty: &'a Type, plan: &'a Plan, i: usize) -> Option<Located<'a>>
        requires { IsThere self.count (type_view ty.now) (plan_view plan.now) self.start self.len }
        ensures range { option_map part_range result ≡ range_behind (index_step i) self.entry.count (type_view ty.now) self.entry.start }
        ensures there { IfSome result (IsInside self.entry) }
    {
        match ty {
            Type::Array(element, n) => self.element(element, *n, plan, i),
            Type::Vec(n, component) => self.component(*n, component, plan, i),
            Type::Mat(columns, rows, component) => {
                self.column(*columns, *rows, component, plan, i)
            }
            Type::Bool | Type::AbstractInt | Type::AbstractFloat => None,
            Type::I32 | Type::U32 | Type::F32 | Type::F16 => None,
            Type::I64 | Type::U64 | Type::F64 | Type::Atomic(_) => None,
            Type::Struct(_) | Type::Texture(_) | Type::Sampler(_) => None,
            Type::Ptr(_, _, _) | Type::Ref(_, _, _) => None,
        }
    }

    // The element of the index, where the part is an array of n elements of the type, or runtime-sized.
    fn element(
        self,
        element: &'a Type,
        n: Option<usize>,
        plan: &'a Plan,
        i: usize,
    ) -> Option<Located<'a>>
        requires { IsThere self.count (array (type_view element.now) n) (plan_view plan.now) self.start self.len }
        ensures range { option_map part_range result ≡ range_behind (index_step i) self.entry.count (array (type_view element.now) n) self.entry.start }
        ensures there { IfSome result (IsInside self.entry) }
    {
        let Plan::Row(far, part) = plan else {
            unreachable!()
        };
        let n = n.unwrap_or(self.count);
        self.in_row(n, *far as usize, i, Shape::Whole(element, part))
    }

    // The column of the index, where the part is a matrix of so many columns and rows of components of the
    // type.
    fn column(
        self,
        columns: u8,
        rows: u8,
        component: &'a Type,
        plan: &'a Plan,
        i: usize,
    ) -> Option<Located<'a>>
        requires { IsThere self.count (mat columns rows (type_view component.now)) (plan_view plan.now) self.start self.len }
        ensures range { option_map part_range result ≡ range_behind (index_step i) self.entry.count (mat columns rows (type_view component.now)) self.entry.start }
        ensures there { IfSome result (IsInside self.entry) }
    {
        let Plan::Row(far, column) = plan else {
            unreachable!()
        };
        let shape = Shape::Column(rows, component, column);
        self.in_row(usize::from(columns), *far as usize, i, shape)
    }

    // The component of the index, where the part is a vector of n components of the type.
    fn component(self, n: u8, component: &'a Type, plan: &'a Plan, i: usize) -> Option<Located<'a>>
        requires { IsThere self.count (vec n (type_view component.now)) (plan_view plan.now) self.start self.len }
        ensures range { option_map part_range result ≡ range_behind (index_step i) self.entry.count (vec n (type_view component.now)) self.entry.start }
        ensures there { IfSome result (IsInside self.entry) }
    {
        let Plan::Components(far) = plan else {
            unreachable!()
        };
        let shape = Shape::Component(component);
        self.in_row(usize::from(n), *far as usize, i, shape)
    }

    // The part of the index, of n parts of this shape that stand so far apart.
    fn in_row(self, n: usize, far: usize, i: usize, shape: Shape<'a>) -> Option<Located<'a>>
        requires { (k : ℕ) → k < n → IsThere self.count (shape_ty shape) (shape_plan shape) (self.start + k * far) self.len }
        ensures range { option_map part_range result ≡ option_map (further self.entry.start) (part_at i (repeated (layout self.entry.count (shape_ty shape.entry)) far 0 n)) }
        ensures there { IfSome result (IsInside self.entry) }
    {
        if i >= n {
            return None;
        }
        Some(Located {
            start: self.start + i * far,
            len: self.len,
            count: self.count,
            shape,
        })
    }

    /// How many members, elements, components or columns the part has. The condition: it stands in its whole,
    /// and its plan is that of its type.
    pub(crate) fn part_count(self) -> usize
        requires { IsLocated self }
        ensures { result ≡ number_of_parts (parts_in (part_range self.entry).layout) }
    {
        match self.shape {
            Shape::Whole(ty, _) => parts_of_type(ty, self.count),
            Shape::Column(n, _, _) => usize::from(n),
            Shape::Component(_) => 0,
        }
    }

    /// The type of the part.
    pub(crate) fn ty(self, alloc: Global) -> Result<Type, AllocError>
        ensures { IfOk result (λ t. type_view t ≡ shape_ty self.entry.shape) }
    {
        match self.shape {
            Shape::Whole(ty, _) | Shape::Component(ty) => ty.clone(alloc),
            Shape::Column(n, component, _) => {
                let component = component.clone(alloc)?;
                Ok(Type::Vec(n, Box::new(alloc, component)?))
            }
        }
    }

    /// Whether the part is of this type.
    pub(crate) fn has_ty(self, ty: &Type) -> bool
        ensures { IsTrue result ↔ (type_view ty.now ≡ shape_ty self.entry.shape) }
    {
        match self.shape {
            Shape::Whole(own, _) => *ty == *own,
            Shape::Component(own) => *ty == *own,
            Shape::Column(n, component, _) => is_vector_of(ty, n, component),
        }
    }

    /// Whether the parts are of one type.
    pub(crate) fn has_ty_of(self, other: Located<'_>) -> bool
        ensures { IsTrue result ↔ (shape_ty other.entry.shape ≡ shape_ty self.entry.shape) }
    {
        match other.shape {
            Shape::Whole(ty, _) => self.has_ty(ty),
            Shape::Component(ty) => self.has_ty(ty),
            Shape::Column(n, component, _) => self.has_vector_ty(n, component),
        }
    }

    // Whether the part is a vector of n components of the type.
    fn has_vector_ty(self, n: u8, component: &Type) -> bool
        ensures { IsTrue result ↔ (vec n (type_view component.now) ≡ shape_ty self.entry.shape) }
    {
        match self.shape {
            Shape::Whole(ty, _) => is_vector_of(ty, n, component),
            Shape::Component(ty) => is_vector_of(ty, n, component),
            Shape::Column(m, own, _) => m == n && *own == *component,
        }
    }

    /// Whether the part is a vector.
    pub(crate) fn is_vector(self) -> bool
        ensures { result ≡ is_some (vec_part (shape_ty self.entry.shape)) }
    {
        match self.shape {
            Shape::Whole(ty, _) | Shape::Component(ty) => ty.as_vec().is_some(),
            Shape::Column(_, _, _) => true,
        }
    }

    /// The type of the number that the part holds; `None` where it is no atomic.
    pub(crate) fn atomic_content(self) -> Option<&'a Type>
        ensures { option_map (λ t. type_view t.now) result ≡ atomic_part (shape_ty self.entry.shape) }
    {
        match self.shape {
            Shape::Whole(ty, _) | Shape::Component(ty) => ty.as_atomic(),
            Shape::Column(_, _, _) => None,
        }
    }

    /// How many elements the part has; `None` where it is no array.
    pub(crate) fn element_count(self) -> Option<usize>
        ensures { result ≡ option_map (λ p. unwrap_or p.1 self.entry.count) (array_part (shape_ty self.entry.shape)) }
    {
        match self.shape {
            Shape::Whole(ty, _) | Shape::Component(ty) => {
                let (_, n) = ty.as_array()?;
                Some(n.unwrap_or(self.count))
            }
            Shape::Column(_, _, _) => None,
        }
    }

    /// Whether the part has indexed parts: it is an array, a vector or a matrix. The condition: it stands in its
    /// whole, and its plan is that of its type.
    pub(crate) fn is_indexable(self) -> bool
        requires { IsLocated self }
        ensures { result ≡ indexable (shape_ty self.entry.shape) }
    {
        match self.shape {
            Shape::Whole(ty, _) => is_indexable_type(ty),
            Shape::Column(_, _, _) => true,
            Shape::Component(_) => false,
        }
    }
}

// The position of the first member of the name.
fn position(members: &[StructMemberType], name: &str) -> Option<usize>
    ensures { result ≡ index_named name.now (members_view members.now) }
{
    for (i, member) in members.iter().enumerate() {
        if member.name.as_str() == name {
            return Some(i);
        }
    }
    None
}

// How many parts a value of the type has, with `count` elements in the runtime-sized array that the type is
// or ends in.
fn parts_of_type(ty: &Type, count: usize) -> usize
    ensures { result ≡ number_of_parts (parts_in (layout count (type_view ty.now))) }
{
    match ty {
        Type::Struct(s) => s.members.len(),
        Type::Array(_, n) => n.unwrap_or(count),
        Type::Vec(n, _) => usize::from(*n),
        Type::Mat(columns, _, _) => usize::from(*columns),
        Type::Bool | Type::AbstractInt | Type::AbstractFloat => 0,
        Type::I32 | Type::U32 | Type::F32 | Type::F16 => 0,
        Type::I64 | Type::U64 | Type::F64 | Type::Atomic(_) => 0,
        Type::Ptr(_, _, _) | Type::Ref(_, _, _) => 0,
        Type::Texture(_) | Type::Sampler(_) => 0,
    }
}

// Whether the type is that of vectors of n components of the other.
fn is_vector_of(ty: &Type, n: u8, component: &Type) -> bool
    ensures { IsTrue result ↔ (type_view ty.now ≡ vec n (type_view component.now)) }
{
    match ty.as_vec() {
        Some((m, own)) => m == n && *own == *component,
        None => false,
    }
}

// Whether it is the type of an array, a vector or a matrix.
fn is_indexable_type(ty: &Type) -> bool
    ensures { result ≡ indexable (type_view ty.now) }
{
    match ty {
        Type::Array(_, _) | Type::Vec(_, _) | Type::Mat(_, _, _) => true,
        Type::Bool | Type::AbstractInt | Type::AbstractFloat => false,
        Type::I32 | Type::U32 | Type::F32 | Type::F16 => false,
        Type::I64 | Type::U64 | Type::F64 | Type::Atomic(_) => false,
        Type::Struct(_) | Type::Texture(_) | Type::Sampler(_) => false,
        Type::Ptr(_, _, _) | Type::Ref(_, _, _) => false,
    }
}

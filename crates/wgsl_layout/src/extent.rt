//! How many bytes the values of a type take, and how many elements a runtime-sized array has in so many bytes (WGSL:
//! alignment and size; buffer binding determines runtime-sized array element count).

ghost use Rattle.std.specs.Prelude.{
  ◌≡◌,
  ◌^◌,
  ◌≤◌,
  ◌-◌,
  ◌/◌,
  ℕ,
  MatchOption,
  None,
  false,
  nat_le,
  if◌then◌else◌,
};
ghost use Rattle.wgsl_rules.specs.Layout.{
  HasLayout,
  at_least_one,
  count_in,
  has_fixed_layout,
  layout_len,
  size,
};
ghost use Rattle.wgsl_rules.specs.Types.{Ty, array, vec};
ghost use Rattle.wgsl_rules.specs.View.{struct_view, type_view};
ghost use Rattle.wgsl_layout.specs.Extents.{IsExtentOf};
ghost use Rattle.wgsl_layout.specs.Plan.{plan_of, plan_view};

use crate::plan::Plan;
use wgsl_rules::{StructType, Type};

/// How many bytes the values of a type take.
#[derive(Clone, Copy)]
pub(crate) enum Extent {
    /// So many, which the type tells.
    Fixed(usize),
    /// As many as the elements of the runtime-sized array tell that the type is or ends in.
    Open(Tail),
}

/// A runtime-sized array: where it begins, from the start of the whole, and from one element to the next, in
/// bytes.
#[derive(Clone, Copy)]
pub(crate) struct Tail {
    pub(crate) start: u32,
    pub(crate) stride: u32,
}

impl Extent {
    /// Of the values of the type, by its plan. The condition: it has a layout.
    pub(crate) fn of(ty: &Type, plan: &Plan) -> Extent
        requires planned { plan_view plan.now ≡ plan_of (type_view ty.now) }
        requires laid { HasLayout (type_view ty.now) }
        ensures { IsExtentOf (type_view ty.now) result }
    {
        match ty {
            Type::Struct(s) => Extent::of_struct(s, plan),
            Type::Array(element, n) => Extent::of_array(element, *n, plan),
            Type::Vec(n, component) => Extent::of_vector(*n, component, plan),
            Type::Bool | Type::AbstractInt | Type::AbstractFloat => Extent::of_size(ty),
            Type::I32 | Type::U32 | Type::F32 | Type::F16 => Extent::of_size(ty),
            Type::I64 | Type::U64 | Type::F64 | Type::Atomic(_) => Extent::of_size(ty),
            Type::Mat(_, _, _) | Type::Ptr(_, _, _) | Type::Ref(_, _, _) => Extent::of_size(ty),
            Type::Texture(_) | Type::Sampler(_) => Extent::of_size(ty),
        }
    }

    // Of the values of a structure type.
    fn of_struct(ty: &StructType, plan: &Plan) -> Extent
        requires planned { plan_view plan.now ≡ plan_of (struct_view ty.now) }
        requires laid { HasLayout (struct_view ty.now) }
        ensures { IsExtentOf (struct_view ty.now) result }
    {
        let Plan::Members(size, _) = plan else {
            unreachable!()
        };
        if *size > 0 {
            Extent::Fixed(*size as usize)
        } else {
            Extent::Open(plan.tail())
        }
    }

    // Of the arrays of n elements of the type, or the runtime-sized ones.
    fn of_array(element: &Type, n: Option<usize>, plan: &Plan) -> Extent
        requires planned { plan_view plan.now ≡ plan_of (array (type_view element.now) n) }
        requires laid { HasLayout (array (type_view element.now) n) }
        ensures { IsExtentOf (array (type_view element.now) n) result }
    {
        let Plan::Row(far, _) = plan else {
            unreachable!()
        };
        match n {
            Some(n) => Extent::Fixed(n * *far as usize),
            None => Extent::Open(plan.tail()),
        }
    }

    /// Of the vectors of n components of the type. The condition: they have a layout.
    pub(crate) fn of_vector(n: u8, component: &Type, plan: &Plan) -> Extent
        requires planned { plan_view plan.now ≡ plan_of (vec n (type_view component.now)) }
        requires laid { HasLayout (vec n (type_view component.now)) }
        ensures { IsExtentOf (vec n (type_view component.now)) result }
    {
        let Plan::Components(far) = plan else {
            unreachable!()
        };
        Extent::Fixed(usize::from(n) * *far as usize)
    }

    /// Of the values of a type that is no structure and no array.
    pub(crate) fn of_size(ty: &Type) -> Extent
        ensures { result ≡ Extent.Fixed (size (type_view ty.now)) }
    {
        match ty {
            Type::I32 | Type::U32 => Extent::Fixed(4),
            Type::I64 | Type::U64 => Extent::Fixed(8),
            _ => Extent::Fixed(ty.measures().size.unwrap_or(0) as usize),
        }
    }

    /// How many bytes a value takes; `None` where the type does not tell it.
    pub(crate) fn size(self) -> Option<usize>
        ensures { (t : Ty) → IsExtentOf t self → MatchOption result (has_fixed_layout t ≡ false) (λ n. (count : ℕ) → n ≡ layout_len count t) }
    {
        match self {
            Extent::Fixed(size) => Some(size),
            Extent::Open(_) => None,
        }
    }

    /// How many bytes a value takes, with so many elements in the runtime-sized array that the type is or ends in;
    /// `None` where they are 2^64 or more.
    pub(crate) fn len(self, count: usize) -> Option<usize>
        ensures { (t : Ty) → IsExtentOf t self → MatchOption result (2 ^ 64 ≤ layout_len count t) (λ n. n ≡ layout_len count t) }
    {
        match self {
            Extent::Fixed(size) => Some(size),
            Extent::Open(tail) => {
                let elements = count.checked_mul(tail.stride as usize)?;
                elements.checked_add(tail.start as usize)
            }
        }
    }

    /// How many elements the runtime-sized array that the type is or ends in has in so many bytes, as many
    /// as find room; 0 where there is no such array. `None` where the bytes are too few for a value of the
    /// type, which has one element at least.
    pub(crate) fn count_in(self, len: usize) -> Option<usize>
        ensures { (t : Ty) → IsExtentOf t self → result ≡ count_in len t }
    {
        match self {
            Extent::Fixed(size) => { if size <= len { Some(0) } else { None } }
            Extent::Open(tail) => tail.count_in(len),
        }
    }
}

impl Tail {
    /// As many elements as find room in so many bytes of the whole, one at least; `None` where the bytes are too few.
    fn count_in(self, len: usize) -> Option<usize>
        ensures { result ≡ (if nat_le self.start len then at_least_one ((len - self.start) / self.stride) else None) }
    {
        let room = len.checked_sub(self.start as usize)?;
        let n = room.checked_div(self.stride as usize)?;
        if n == 0 { None } else { Some(n) }
    }
}

//! The plan of a type, found in one walk down the type together with its sizes (WGSL: alignment and size;
//! structure member layout).

ghost use Rattle.std.specs.Prelude.{◌≡◌, ℕ, List, IfOk, ◌||◌};
ghost use Rattle.wgsl_rules.specs.Layout.{HasLayout};
ghost use Rattle.wgsl_rules.specs.Measures.{AreMeasuresOf};
ghost use Rattle.wgsl_rules.specs.Types.{Ty, array, struct};
ghost use Rattle.wgsl_rules.specs.Values.{IsStorable, type_of};
ghost use Rattle.wgsl_rules.specs.View.{type_view, struct_view, members_view};
ghost use Rattle.wgsl_layout.specs.Extents.{IsExtentOf};
ghost use Rattle.wgsl_layout.specs.Plan.{fixed_size, plan_view, scalar};
ghost use Rattle.wgsl_layout.specs.TypePlan.{IsPlanOf};
ghost use Rattle.wgsl_values.specs.View.{value_of};

use crate::extent::Extent;
use crate::plan::{Place, Plan};
use std::alloc::{AllocError, Global};
use wgsl_rules::{Measures, MemberMeasures, StructMemberType, StructType, Ty, Type};
use wgsl_values::Instance;

/// The plan of a type, and what else is known of the type when it is made.
#[derive(Drop)]
pub(crate) struct TypePlan {
    pub(crate) plan: Plan,
    measures: Measures,
    pub(crate) has_layout: bool,
}

// Of pointers and references.
const NO_BYTES: Measures = Measures {
    size: None,
    align: None,
    is_fixed: false,
    is_runtime_array: false,
};

impl TypePlan {
    /// Of any type, in one walk down it; an offset or a distance that is not known is 0.
    #[cycle(type_plans)]
    pub(crate) fn of_type(alloc: Global, ty: &Type) -> Result<TypePlan, AllocError>
        ensures { IfOk result (IsPlanOf (type_view ty.now)) }
    {
        match ty {
            Type::Struct(s) => TypePlan::of_struct(alloc, s),
            Type::Array(element, n) => TypePlan::of_type(alloc, element)?.of_array(alloc, *n),
            Type::Vec(_, component) => {
                let far = component.measures().size.unwrap_or(0);
                Ok(TypePlan::of_plan(Plan::Components(far), ty.measures()))
            }
            Type::Mat(_, _, component) => {
                let far = component.measures().size.unwrap_or(0);
                let measures = ty.measures();
                let column = Box::new(alloc, Plan::Components(far))?;
                let plan = Plan::Row(measures.align.unwrap_or(0), column);
                Ok(TypePlan::of_plan(plan, measures))
            }
            Type::Bool | Type::AbstractInt | Type::AbstractFloat => Ok(TypePlan::of_leaf(ty)),
            Type::I32 | Type::U32 | Type::F32 | Type::F16 => Ok(TypePlan::of_leaf(ty)),
            Type::I64 | Type::U64 | Type::F64 | Type::Atomic(_) => Ok(TypePlan::of_leaf(ty)),
            Type::Ptr(_, _, _) | Type::Ref(_, _, _) => Ok(TypePlan::of_leaf(ty)),
            Type::Texture(_) | Type::Sampler(_) => Ok(TypePlan::of_leaf(ty)),
        }
    }

    /// Of a structure type.
    #[cycle(type_plans)]
    pub(crate) fn of_struct(alloc: Global, ty: &StructType) -> Result<TypePlan, AllocError>
        ensures { IfOk result (IsPlanOf (struct_view ty.now)) }
    {
        TypePlan::of_members(alloc, ty.members.as_slice())
    }

    // Of the structure type of these members.
    #[cycle(type_plans)]
    fn of_members(alloc: Global, members: &[StructMemberType]) -> Result<TypePlan, AllocError>
        ensures { (name : List ℕ) → IfOk result (IsPlanOf (struct name (members_view members.now))) }
    {
        let mut places = Vec::with_capacity(alloc, members.len())?;
        let mut so_far = MemberMeasures::NONE;
        for member in members {
            let part = TypePlan::of_type(alloc, &member.ty)?;
            let measures = part.measures.of_member(member.size, member.align);
            let offset = so_far.offset_of(measures).unwrap_or(0);
            places.push(Place {
                offset,
                plan: part.plan,
            })?;
            so_far = so_far.with(measures);
        }
        let measures = so_far.of_struct();
        Ok(TypePlan {
            plan: Plan::Members(fixed_size(measures), places),
            measures,
            has_layout: so_far.have_layout(),
        })
    }

    /// How many bytes the values of the type take.
    pub(crate) fn extent(&self) -> Extent
        ensures { (t : Ty) → IsPlanOf t self.now → HasLayout t → IsExtentOf t result }
    {
        if self.measures.is_fixed {
            Extent::Fixed(self.measures.size.unwrap_or(0) as usize)
        } else {
            Extent::Open(self.plan.tail())
        }
    }

    /// Of an array of n elements of this type; of a runtime-sized one where n is `None`.
    fn of_array(self, alloc: Global, n: Option<usize>) -> Result<TypePlan, AllocError>
        ensures { (t : Ty) → IsPlanOf t self → IfOk result (IsPlanOf (array t n)) }
    {
        let stride = self.measures.stride().unwrap_or(0);
        let measures = self.measures.of_array(n);
        let plan = Plan::Row(stride, Box::new(alloc, self.plan)?);
        Ok(TypePlan::of_plan(plan, measures))
    }

    // Of a type of one number, or of no bytes.
    fn of_leaf(ty: &Type) -> TypePlan
        ensures plan { plan_view result.plan ≡ scalar }
        ensures measures { AreMeasuresOf (type_view ty.now) result.measures }
        ensures layout { result.has_layout ≡ (result.measures.is_fixed || result.measures.is_runtime_array) }
    {
        TypePlan::of_plan(Plan::Scalar, ty.measures())
    }

    // Of a type that is no structure.
    fn of_plan(plan: Plan, measures: Measures) -> TypePlan
        ensures plan { plan_view result.plan ≡ plan_view plan }
        ensures measures { result.measures ≡ measures }
        ensures layout { result.has_layout ≡ (measures.is_fixed || measures.is_runtime_array) }
    {
        TypePlan {
            plan,
            measures,
            has_layout: measures.is_fixed || measures.is_runtime_array,
        }
    }

    /// Of the type of a value. A structure and an array tell it without their type being made. The condition:
    /// the value is storable.
    pub(crate) fn of_value(alloc: Global, value: &Instance) -> Result<TypePlan, AllocError>
        requires { IsStorable (value_of value.now) }
        ensures { IfOk result (IsPlanOf (type_of (value_of value.now))) }
    {
        match value {
            Instance::Struct(s) => TypePlan::of_struct(alloc, s.struct_ty()),
            Instance::Array(a) => {
                let n = if a.runtime_sized() { None } else { Some(a.n()) };
                TypePlan::of_value(alloc, &a.as_slice()[0])?.of_array(alloc, n)
            }
            Instance::Literal(_) | Instance::Vec(_) | Instance::Mat(_) | Instance::Atomic(_) => {
                TypePlan::of_type(alloc, &value.ty(alloc)?)
            }
            Instance::Ptr(_) | Instance::Ref(_) => { Ok(TypePlan::of_plan(Plan::Scalar, NO_BYTES)) }
            Instance::Deferred(_) => unreachable!(),
        }
    }
}

// How many bytes a value takes of the type of these measures, where it tells that, else 0.
fn fixed_size(measures: Measures) -> u32
    ensures { (t : Ty) → AreMeasuresOf t measures → result ≡ fixed_size t }
{
    if measures.is_fixed {
        measures.size.unwrap_or(0)
    } else {
        0
    }
}

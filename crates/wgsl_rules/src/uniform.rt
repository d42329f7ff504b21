//! What the uniform address space asks of a type beyond what holds of each address space (WGSL:
//! address spaces; address space layout constraints).

ghost use Rattle.std.specs.Prelude.{◌≡◌, ◌<◌, ◌+◌, ◌^◌, IfOk, Some};
ghost use Rattle.std.specs.Int.{next_multiple_of};
ghost use Rattle.wgsl_rules.specs.Uniform.{
  required_align,
  stride_rule,
  array_rule,
  align_rule,
  offset_rule,
  least_behind,
  place_rule,
  uniform_rule,
  members_rule,
  member_rule,
  faults_behind,
  uniform_faults,
  first_rule,
};
ghost use Rattle.wgsl_rules.specs.Layout.{amount};
ghost use Rattle.wgsl_rules.specs.View.{type_view, struct_view, member_view, members_view};

use crate::layout::is_multiple_of;
use crate::number::{rounded_if_known, sum_if_known};
use crate::ty::{StructMemberType, StructType, Type};
use std::alloc::{AllocError, Global};

/// What a type breaks that a variable of the uniform address space has (WGSL: address spaces; address
/// space layout constraints).
#[derive(Clone, Copy, Debug, PartialEq, Eq)]
pub enum UniformRule {
    /// The type is, or has inside, one whose values are not host-shareable, or not constructible: a
    /// bool, an abstract number, an atomic, a pointer, a texture or a sampler.
    NotShared,
    /// The type is, or has inside, a runtime-sized array.
    RuntimeSized,
    /// A stride or an offset is not known, or passes 4294967295.
    NotKnown,
    /// The elements of an array lie so many bytes apart, which is no multiple of 16 and of the
    /// alignment that their type requires.
    Stride(u32),
    /// The align attribute of a member has this number, which is no multiple of the alignment that the
    /// type of the member requires: that of an array or a structure is rounded up to 16.
    Align(u32),
    /// A member stands at this offset, which is no multiple of the alignment that its type requires.
    Offset(u32),
    /// A member stands at this offset, and the one in front of it, which is of a structure type, needs
    /// more bytes: as many as the structure has, rounded up to a multiple of 16.
    Distance(u32),
}

/// A member of a structure, by its position, and the rule that it breaks, in its place or inside its
/// type (WGSL: address space layout constraints).
#[derive(Clone, Copy, Debug, PartialEq, Eq)]
pub struct UniformFault {
    pub member: usize,
    pub rule: UniformRule,
}

impl Type {
    /// The first rule of the uniform address space that the type breaks, inside or as a whole; `None`
    /// where it breaks none, so that a variable of the type may be uniform (WGSL: address space layout
    /// constraints). Of a structure, [`StructType::uniform_faults`] has the members.
    ///
    /// It is not asked here whether attributes are valid in every address space, or how large the type
    /// is as a whole.
    /// It calls itself for each level of the type: keep to 4,095 within a stack of 8 MiB.
    #[cycle(uniform)]
    pub fn uniform_rule(&self) -> Option<UniformRule>
        ensures { result ≡ uniform_rule (type_view self.now) }
    {
        match self {
            Type::I32 | Type::U32 | Type::F32 | Type::F16 => None,
            Type::I64 | Type::U64 | Type::F64 => None,
            Type::Vec(_, component) => component.uniform_rule(),
            Type::Mat(_, _, component) => component.uniform_rule(),
            Type::Array(element, n) => array_rule(
                *n,
                element.uniform_rule(),
                element.measures().stride(),
                element.required_align(),
            ),
            Type::Struct(ty) => ty.uniform_rule(),
            Type::Bool | Type::AbstractInt | Type::AbstractFloat => Some(UniformRule::NotShared),
            Type::Atomic(_) | Type::Ptr(_, _, _) => Some(UniformRule::NotShared),
            Type::Ref(_, _, _) | Type::Texture(_) => Some(UniformRule::NotShared),
            Type::Sampler(_) => Some(UniformRule::NotShared),
        }
    }

    /// The number that the place of a value of the type has to be a multiple of in the uniform address
    /// space, in bytes: its alignment, for an array or a structure rounded up to 16 (WGSL: address
    /// space layout constraints). `None` where that is not known.
    /// It calls itself for each level of the type: keep to 4,095 within a stack of 8 MiB.
    pub fn required_align(&self) -> Option<u32>
        ensures { result ≡ required_align (type_view self.now) }
    {
        let align = self.align_of();
        match self {
            Type::Array(_, _) | Type::Struct(_) => rounded_if_known(Some(16), align),
            Type::Bool | Type::AbstractInt | Type::AbstractFloat => align,
            Type::I32 | Type::U32 | Type::F32 | Type::F16 => align,
            Type::I64 | Type::U64 | Type::F64 => align,
            Type::Vec(_, _) | Type::Mat(_, _, _) | Type::Atomic(_) => align,
            Type::Ptr(_, _, _) | Type::Ref(_, _, _) => align,
            Type::Texture(_) | Type::Sampler(_) => align,
        }
    }

    // Where a member may stand at least behind one of this type at this offset.
    fn least_behind(&self, offset: Option<u32>) -> u64
        ensures { result ≡ least_behind (type_view self.now) offset }
    {
        match self {
            Type::Struct(ty) => filled_end(amount(offset), amount(ty.size_of())),
            Type::Bool | Type::AbstractInt | Type::AbstractFloat => 0,
            Type::I32 | Type::U32 | Type::F32 | Type::F16 => 0,
            Type::I64 | Type::U64 | Type::F64 | Type::Array(_, _) => 0,
            Type::Vec(_, _) | Type::Mat(_, _, _) | Type::Atomic(_) => 0,
            Type::Ptr(_, _, _) | Type::Ref(_, _, _) => 0,
            Type::Texture(_) | Type::Sampler(_) => 0,
        }
    }
}

impl StructType {
    #[cycle(uniform)]
    fn uniform_rule(&self) -> Option<UniformRule>
        ensures { result ≡ uniform_rule (struct_view self.now) }
    {
        members_rule(self.members.as_slice())
    }

    /// The members that break a rule of the uniform address space, in their order, each with the first
    /// rule that it breaks; none where the structure breaks no rule (WGSL: address space layout
    /// constraints). [`Type::uniform_rule`] of the member's type tells what is wrong inside.
    ///
    /// Memory alone is refused.
    /// It calls itself for each level of the members' types: keep to 4,095 within a stack of 8 MiB.
    pub fn uniform_faults(&self, alloc: Global) -> Result<Vec<UniformFault>, AllocError>
        ensures all { IfOk result (λ faults. faults.items ≡ uniform_faults (struct_view self.now)) }
        ensures first { IfOk result (λ faults. first_rule faults.items ≡ uniform_rule (struct_view self.now)) }
    {
        faults_of(alloc, self.members.as_slice())
    }
}

impl StructMemberType {
    // The first rule that it breaks at this offset, where it may not stand before `least`.
    #[cycle(uniform)]
    fn uniform_rule(&self, offset: Option<u32>, least: u64) -> Option<UniformRule>
        ensures { result ≡ member_rule (member_view self.now) offset least }
    {
        let inner = self.ty.uniform_rule();
        inner.or(place_rule(self.align, self.ty.required_align(), offset, least))
    }
}

#[cycle(uniform)]
fn members_rule(members: &[StructMemberType]) -> Option<UniformRule>
    ensures { result ≡ members_rule (Some 0) 0 (members_view members.now) }
{
    let mut end = Some(0);
    let mut least = 0;
    for member in members {
        let measures = member.measures();
        let offset = rounded_if_known(measures.align, end);
        let rule = member.uniform_rule(offset, least);
        if rule.is_some() {
            return rule;
        }
        end = sum_if_known(offset, measures.size);
        least = member.ty.least_behind(offset);
    }
    None
}

fn faults_of(alloc: Global, members: &[StructMemberType]) -> Result<Vec<UniformFault>, AllocError>
    ensures all { IfOk result (λ faults. faults.items ≡ faults_behind 0 (Some 0) 0 (members_view members.now)) }
    ensures first { IfOk result (λ faults. first_rule faults.items ≡ members_rule (Some 0) 0 (members_view members.now)) }
{
    let mut faults = Vec::new(alloc);
    let mut end = Some(0);
    let mut least = 0;
    for (i, member) in members.iter().enumerate() {
        let measures = member.measures();
        let offset = rounded_if_known(measures.align, end);
        if let Some(rule) = member.uniform_rule(offset, least) {
            faults.push(UniformFault { member: i, rule })?;
        }
        end = sum_if_known(offset, measures.size);
        least = member.ty.least_behind(offset);
    }
    Ok(faults)
}

// Of an array of n elements, which break that inside, lie so far apart and require that alignment.
fn array_rule(
    n: Option<usize>,
    inner: Option<UniformRule>,
    stride: Option<u32>,
    required: Option<u32>,
) -> Option<UniformRule>
    ensures { result ≡ array_rule n inner stride required }
{
    match n {
        Some(_) => inner.or(stride_rule(stride, required)),
        None => Some(UniformRule::RuntimeSized),
    }
}

fn stride_rule(stride: Option<u32>, required: Option<u32>) -> Option<UniformRule>
    ensures { result ≡ stride_rule stride required }
{
    let Some(stride) = stride else {
        return Some(UniformRule::NotKnown);
    };
    if stride.is_multiple_of(16) && is_multiple_of(stride, required) {
        None
    } else {
        Some(UniformRule::Stride(stride))
    }
}

// Of a member with this align attribute, whose type requires that alignment, at this offset.
fn place_rule(
    attribute: Option<u32>,
    required: Option<u32>,
    offset: Option<u32>,
    least: u64,
) -> Option<UniformRule>
    ensures { result ≡ place_rule attribute required offset least }
{
    align_rule(attribute, required).or(offset_rule(offset, required, least))
}

fn align_rule(attribute: Option<u32>, required: Option<u32>) -> Option<UniformRule>
    ensures { result ≡ align_rule attribute required }
{
    let attribute = attribute?;
    if is_multiple_of(attribute, required) {
        None
    } else {
        Some(UniformRule::Align(attribute))
    }
}

fn offset_rule(offset: Option<u32>, required: Option<u32>, least: u64) -> Option<UniformRule>
    ensures { result ≡ offset_rule offset required least }
{
    let Some(offset) = offset else {
        return Some(UniformRule::NotKnown);
    };
    if !is_multiple_of(offset, required) {
        Some(UniformRule::Offset(offset))
    } else if u64::from(offset) < least {
        Some(UniformRule::Distance(offset))
    } else {
        None
    }
}

fn amount(n: Option<u32>) -> u64
    ensures value { result ≡ amount n }
    ensures limit { result < 2 ^ 32 }
{
    u64::from(n.unwrap_or(0))
}

// Where what is so large and stands there ends, with its size rounded up to a multiple of 16.
fn filled_end(offset: u64, size: u64) -> u64
    requires offset { offset < 2 ^ 32 }
    requires size { size < 2 ^ 32 }
    ensures { result ≡ offset + next_multiple_of size 16 }
{
    offset + size.next_multiple_of(16)
}

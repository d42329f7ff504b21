//! The fields of a structure of the host, which have the places of a shader's members, with each
//! byte of padding a field (WGSL: structure member layout).

ghost use Rattle.std.specs.Prelude.{◌≡◌, IfSome, Some, string_bytes};
ghost use Rattle.wgsl_rules.specs.Size.{size_of};
ghost use Rattle.wgsl_rules.specs.View.{type_view};
ghost use Rattle.wgsl_report.specs.Fields.{filled_behind, components_in};

use std::alloc::{AllocError, Global};
use wgsl_rules::{MemberLayout, StructMemberType, StructType, Type};

/// A field: a member, and how many bytes are filled behind its value.
#[derive(Clone, Copy)]
pub(crate) struct HostField<'a> {
    pub(crate) name: &'a str,
    pub(crate) ty: &'a Type,
    pub(crate) offset: u32,
    pub(crate) behind: u64,
}

/// The fields of a structure; `None` where a place is not known.
pub(crate) fn fields_of(
    alloc: Global,
    ty: &StructType,
) -> Result<Option<Vec<HostField<'_>>>, AllocError> {
    let layouts = ty.member_layouts(alloc)?;
    let mut fields = Vec::with_capacity(alloc, layouts.len())?;
    for (member, layout) in ty.members.iter().zip(layouts.iter()) {
        let Some(field) = field_of(member, *layout) else {
            return Ok(None);
        };
        fields.push(field)?;
    }
    Ok(Some(fields))
}

// Behind a runtime-sized array nothing is filled.
fn field_of(member: &StructMemberType, layout: MemberLayout) -> Option<HostField<'_>>
    ensures name { IfSome result (λ field. field.name.now ≡ string_bytes member.now.name) }
    ensures ty { IfSome result (λ field. field.ty.now ≡ member.now.ty) }
    ensures offset { IfSome result (λ field. layout.offset ≡ Some field.offset) }
    ensures behind { IfSome result (λ field. field.behind ≡ filled_behind layout.size (size_of (type_view member.now.ty)) layout.padding) }
{
    let offset = layout.offset?;
    Some(HostField {
        name: member.name.as_str(),
        ty: &member.ty,
        offset,
        behind: filled_behind(layout.size, member.ty.size_of(), layout.padding),
    })
}

fn filled_behind(size: Option<u32>, of_type: Option<u32>, padding: Option<u32>) -> u64
    ensures { result ≡ filled_behind size of_type padding }
{
    match (size, of_type) {
        (Some(size), Some(of_type)) => {
            u64::from(size.saturating_sub(of_type)) + u64::from(padding.unwrap_or(0))
        }
        (_, _) => 0,
    }
}

/// How many components a vector takes in a row of such vectors, in which they lie so far apart.
pub(crate) fn components_apart(stride: Option<u32>, component: &Type) -> u32
    ensures { result ≡ components_in stride (size_of (type_view component.now)) }
{
    match (stride, component.size_of()) {
        (Some(stride), Some(size)) if size > 0 => stride / size,
        (_, _) => 0,
    }
}

/// Whether the type is a runtime-sized array.
pub(crate) fn is_runtime_sized(ty: &Type) -> bool {
    matches!(ty, Type::Array(_, None))
}

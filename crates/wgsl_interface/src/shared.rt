//! Which types a variable may have, and which a host may share (WGSL: storable types; constructible
//! types; host-shareable types; fixed-footprint types; address spaces).

ghost use Rattle.std.specs.Prelude.{◌≡◌};
ghost use Rattle.wgsl_interface.specs.Plain.{
  is_plain,
  is_concrete,
  has_creation_fixed_footprint,
  has_fixed_footprint,
};
ghost use Rattle.wgsl_interface.specs.Shared.{
  is_handle,
  is_storable,
  is_constructible,
  is_host_shareable,
  is_read_write,
  may_be_of,
};
ghost use Rattle.wgsl_rules.specs.View.{type_view};

use crate::nature::nature_of;
use wgsl_rules::{AccessMode, AddressSpace, Type};

/// Whether the type is a scalar, an atomic or a composite of such types, as WGSL has it: a runtime-sized
/// array is the type itself, or stands last in a structure that is (WGSL: plain types). Abstract numbers are
/// plain.
/// It calls itself for each level of the type: keep to 4,095 within a stack of 8 MiB.
pub fn is_plain(ty: &Type) -> bool
    ensures { result ≡ is_plain (type_view ty.now) }
{
    nature_of(ty).is_plain
}

/// Whether no abstract number is inside (WGSL: abstract numeric types).
/// It calls itself for each level of the type: keep to 4,095 within a stack of 8 MiB.
pub fn is_concrete(ty: &Type) -> bool
    ensures { result ≡ is_concrete (type_view ty.now) }
{
    nature_of(ty).is_concrete
}

/// Whether the type is plain, and how many parts it has is known where a variable of it is made (WGSL:
/// fixed-footprint types). The count of an array is a number here, so that
/// [`has_creation_fixed_footprint`] says the same.
/// It calls itself for each level of the type: keep to 4,095 within a stack of 8 MiB.
pub fn has_fixed_footprint(ty: &Type) -> bool
    ensures { result ≡ has_fixed_footprint (type_view ty.now) }
{
    has_creation_fixed_footprint(ty)
}

/// Whether the type is plain, and no runtime-sized array is inside (WGSL: fixed-footprint types). An
/// array whose count an override gives has no such footprint in WGSL, and is no value of [`Type`].
/// It calls itself for each level of the type: keep to 4,095 within a stack of 8 MiB.
pub fn has_creation_fixed_footprint(ty: &Type) -> bool
    ensures { result ≡ has_creation_fixed_footprint (type_view ty.now) }
{
    let nature = nature_of(ty);
    nature.is_plain && nature.is_sized
}

/// Whether a variable may hold the type: it is plain and concrete, or a texture or a sampler (WGSL:
/// storable types).
/// It calls itself for each level of the type: keep to 4,095 within a stack of 8 MiB.
pub fn is_storable(ty: &Type) -> bool
    ensures { result ≡ is_storable (type_view ty.now) }
{
    let nature = nature_of(ty);
    nature.is_concrete && nature.is_plain || is_handle(ty)
}

/// Whether values of the type are made, loaded and passed on: it is plain, and no atomic and no runtime-sized
/// array is inside (WGSL: constructible types). Abstract numbers are constructible.
/// It calls itself for each level of the type: keep to 4,095 within a stack of 8 MiB.
pub fn is_constructible(ty: &Type) -> bool
    ensures { result ≡ is_constructible (type_view ty.now) }
{
    nature_of(ty).is_constructible
}

/// Whether a buffer of the host may hold the type: it is made of concrete numbers, and has no bool
/// inside (WGSL: host-shareable types). Numbers of 64 bits are shared.
/// It calls itself for each level of the type: keep to 4,095 within a stack of 8 MiB.
pub fn is_host_shareable(ty: &Type) -> bool
    ensures { result ≡ is_host_shareable (type_view ty.now) }
{
    nature_of(ty).is_host_shareable
}

/// Whether a variable of the address space, for which this access mode is given or none, may be of the
/// type (WGSL: address spaces; atomic types). Whether the mode may be given is told by
/// [`variable_rules`](crate::variable_rules), and what uniform space asks of the layout by
/// `Type::uniform_rule`.
/// It calls itself for each level of the type: keep to 4,095 within a stack of 8 MiB.
pub fn may_be_of(ty: &Type, space: AddressSpace, access: Option<AccessMode>) -> bool
    ensures { result ≡ may_be_of space access (type_view ty.now) }
{
    let nature = nature_of(ty);
    match space {
        AddressSpace::Storage => {
            nature.is_host_shareable && (is_read_write(access) || !nature.has_atomic)
        }
        AddressSpace::Uniform => nature.is_host_shareable && nature.is_constructible,
        AddressSpace::Workgroup => nature.is_concrete && nature.is_plain && nature.is_sized,
        AddressSpace::Private | AddressSpace::Function => {
            nature.is_concrete && nature.is_constructible
        }
        AddressSpace::Handle => is_handle(ty),
    }
}

/// A texture or a sampler.
pub(crate) fn is_handle(ty: &Type) -> bool
    ensures { result ≡ is_handle (type_view ty.now) }
{
    match ty {
        Type::Texture(_) | Type::Sampler(_) => true,
        Type::Bool | Type::AbstractInt | Type::AbstractFloat => false,
        Type::I32 | Type::U32 | Type::F32 | Type::F16 => false,
        Type::I64 | Type::U64 | Type::F64 => false,
        Type::Struct(_) | Type::Array(_, _) | Type::Vec(_, _) | Type::Mat(_, _, _) => false,
        Type::Atomic(_) | Type::Ptr(_, _, _) | Type::Ref(_, _, _) => false,
    }
}

/// A storage variable is read where no mode is given.
pub(crate) fn is_read_write(access: Option<AccessMode>) -> bool
    ensures { result ≡ is_read_write access }
{
    match access {
        Some(AccessMode::ReadWrite) => true,
        Some(AccessMode::Read | AccessMode::Write) | None => false,
    }
}

//! The types that type-generators take (WGSL: vector types; matrix types; atomic types; array types).

ghost use Rattle.std.specs.Prelude.{◌≡◌, is_some};
ghost use Rattle.wgsl_rules.specs.View.{type_view};
ghost use Rattle.wgsl_source.specs.Generators.{is_number_type, is_bool_type, takes_type};
ghost use Rattle.wgsl_rules.specs.Layout.{atomic_kind};

use crate::names::Generator;
use wgsl_rules::Type;

impl Generator {
    /// Whether the generator takes such a type.
    pub fn takes(self, inner: &Type) -> bool
        ensures { result ≡ takes_type self (type_view inner.now) }
    {
        match self {
            Generator::Vec(_) => is_number(inner) || is_bool(inner),
            Generator::Mat(_, _) => is_number(inner),
            Generator::Atomic => is_atomic_content(inner),
            Generator::Array => true,
        }
    }
}

fn is_number(ty: &Type) -> bool
    ensures { result ≡ is_number_type (type_view ty.now) }
{
    matches!(
        ty,
        Type::I32 | Type::U32 | Type::I64 | Type::U64 | Type::F32 | Type::F16 | Type::F64
    )
}

fn is_bool(ty: &Type) -> bool
    ensures { result ≡ is_bool_type (type_view ty.now) }
{
    matches!(ty, Type::Bool)
}

fn is_atomic_content(ty: &Type) -> bool
    ensures { result ≡ is_some (atomic_kind (type_view ty.now)) }
{
    matches!(ty, Type::I32 | Type::U32)
}

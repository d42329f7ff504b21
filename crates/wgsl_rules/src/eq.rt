//! When types are equal: field by field, names, attributes and counts included.

ghost use Rattle.std.specs.Prelude.{◌≡◌};
ghost use Rattle.wgsl_rules.specs.Same.{same, same_fields, same_field};
ghost use Rattle.wgsl_rules.specs.View.{type_view, struct_view, member_view, members_view};
ghost use Rattle.std.specs.Cmp.{partial_equiv_from_equiv};
ghost use Rattle.wgsl_rules.specs.Equal.{types_equiv, structs_equiv, members_equiv};

use crate::ty::{StructMemberType, StructType, Type};

/// It calls itself for each level of the types: keep to 4,095 within a stack of 8 MiB.
impl PartialEq for Type {
    ghost eq = { λ t u. same (type_view t) (type_view u) };

    ghost laws = { partial_equiv_from_equiv types_equiv };

    #[cycle(same)]
    fn eq(&self, other: &Type) -> bool {
        match self {
            Type::Bool => matches!(other, Type::Bool),
            Type::AbstractInt => matches!(other, Type::AbstractInt),
            Type::AbstractFloat => matches!(other, Type::AbstractFloat),
            Type::I32 => matches!(other, Type::I32),
            Type::U32 => matches!(other, Type::U32),
            Type::F32 => matches!(other, Type::F32),
            Type::F16 => matches!(other, Type::F16),
            Type::I64 => matches!(other, Type::I64),
            Type::U64 => matches!(other, Type::U64),
            Type::F64 => matches!(other, Type::F64),
            Type::Struct(a) => match other {
                Type::Struct(b) => **a == **b,
                _ => false,
            },
            Type::Array(a, n) => match other {
                Type::Array(b, m) => **a == **b && *n == *m,
                _ => false,
            },
            Type::Vec(n, a) => match other {
                Type::Vec(m, b) => *n == *m && **a == **b,
                _ => false,
            },
            Type::Mat(c, r, a) => match other {
                Type::Mat(d, s, b) => *c == *d && *r == *s && **a == **b,
                _ => false,
            },
            Type::Atomic(a) => match other {
                Type::Atomic(b) => **a == **b,
                _ => false,
            },
            Type::Ptr(s, a, access) => match other {
                Type::Ptr(z, b, mode) => *s == *z && **a == **b && *access == *mode,
                _ => false,
            },
            Type::Ref(s, a, access) => match other {
                Type::Ref(z, b, mode) => *s == *z && **a == **b && *access == *mode,
                _ => false,
            },
            Type::Texture(a) => match other {
                Type::Texture(b) => *a == *b,
                _ => false,
            },
            Type::Sampler(a) => match other {
                Type::Sampler(b) => *a == *b,
                _ => false,
            },
        }
    }
}

/// It calls itself for each level of the types: keep to 4,095 within a stack of 8 MiB.
impl PartialEq for StructType {
    ghost eq = { λ t u. same (struct_view t) (struct_view u) };

    ghost laws = { partial_equiv_from_equiv structs_equiv };

    #[cycle(same)]
    fn eq(&self, other: &StructType) -> bool {
        self.name.as_str() == other.name.as_str() && same_members(&self.members, &other.members)
    }
}

#[cycle(same)]
fn same_members(a: &[StructMemberType], b: &[StructMemberType]) -> bool
    ensures { result ≡ same_fields (members_view a.now) (members_view b.now) }
{
    if a.len() != b.len() {
        return false;
    }
    for (i, member) in a.iter().enumerate() {
        if !member.eq(&b[i]) {
            return false;
        }
    }
    true
}

/// It calls itself for each level of the types: keep to 4,095 within a stack of 8 MiB.
impl PartialEq for StructMemberType {
    ghost eq = { λ t u. same_field (member_view t) (member_view u) };

    ghost laws = { partial_equiv_from_equiv members_equiv };

    #[cycle(same)]
    fn eq(&self, other: &StructMemberType) -> bool {
        self.name.as_str() == other.name.as_str()
            && self.ty == other.ty
            && self.size == other.size
            && self.align == other.align
    }
}

impl Eq for Type {
    ghost laws = { types_equiv };
}

impl Eq for StructType {
    ghost laws = { structs_equiv };
}

impl Eq for StructMemberType {
    ghost laws = { members_equiv };
}

//! The types of literals, and their conversions (WGSL: scalar types; conversion rank).

use crate::literal::LiteralInstance;
use std::alloc::{AllocError, Global};
use wgsl_rules::{Convert, Ty, Type};

/// A literal's type is that of its kind, and it has no other type inside.
impl Ty for LiteralInstance {
    ghost use Rattle.wgsl_scalar.specs.Literals.{literal_of};

    ghost value_of = { literal_of };

    fn ty(&self, _alloc: Global) -> Result<Type, AllocError> {
        Ok(self.literal_ty())
    }

    fn inner_ty(&self, _alloc: Global) -> Result<Type, AllocError> {
        Ok(self.literal_ty())
    }

    fn has_ty(&self, ty: &Type) -> bool {
        match self {
            LiteralInstance::Bool(_) => matches!(ty, Type::Bool),
            LiteralInstance::AbstractInt(_) => matches!(ty, Type::AbstractInt),
            LiteralInstance::I32(_) => matches!(ty, Type::I32),
            LiteralInstance::U32(_) => matches!(ty, Type::U32),
            LiteralInstance::I64(_) => matches!(ty, Type::I64),
            LiteralInstance::U64(_) => matches!(ty, Type::U64),
        }
    }
}

/// A literal converts as [`LiteralInstance::to_kind`] says, and is itself what is inside it.
impl Convert for LiteralInstance {
    ghost use Rattle.wgsl_rules.specs.Converted.{converted, inner_converted};
    ghost use Rattle.wgsl_rules.proofs.lemmas.Converted.{
      converted-type,
      converted-well_formed,
      converted-own,
      inner_converted-well_formed,
    };
    ghost use Rattle.wgsl_scalar.specs.Literals.{literal_of};

    ghost converted = { converted };

    ghost converted_inner = { inner_converted };

    ghost gives_type = { λ x. converted-type (literal_of x) };

    ghost gives_well_formed = { λ x. converted-well_formed (literal_of x) };

    ghost inner_gives_well_formed = { λ x. inner_converted-well_formed (literal_of x) };

    ghost keeps_own = { λ x. converted-own (literal_of x) };

    fn convert_to(&self, _alloc: Global, ty: &Type) -> Result<Option<LiteralInstance>, AllocError> {
        Ok(self.to_kind(ty))
    }

    fn convert_inner_to(
        &self,
        _alloc: Global,
        ty: &Type,
    ) -> Result<Option<LiteralInstance>, AllocError> {
        Ok(self.to_kind(ty))
    }
}

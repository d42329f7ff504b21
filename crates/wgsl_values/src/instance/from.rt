//! What becomes a value.

ghost use Rattle.wgsl_rules.specs.Values.{IsStorable};

use crate::array::ArrayInstance;
use crate::atomic::AtomicInstance;
use crate::instance::Instance;
use crate::matrix::MatInstance;
use crate::pointer::{PtrInstance, RefInstance};
use crate::structure::StructInstance;
use crate::vector::VecInstance;
use wgsl_rules::Type;
use wgsl_scalar::LiteralInstance;

impl From<LiteralInstance> for Instance {
    ghost use Rattle.std.specs.Prelude.{◌≡◌};
    ghost use Rattle.wgsl_scalar.specs.Literals.{literal_of};
    ghost use Rattle.wgsl_values.specs.View.{value_of};

    ghost from_gives = { λ l v. value_of v ≡ literal_of l };

    fn from(literal: LiteralInstance) -> Instance
        ensures value { value_of result ≡ literal_of literal }
        ensures storable { IsStorable (value_of result) }
    {
        Instance::Literal(literal)
    }
}

impl From<StructInstance> for Instance {
    ghost use Rattle.std.specs.Prelude.{◌≡◌};
    ghost use Rattle.wgsl_values.specs.View.{value_of, struct_view};

    ghost from_gives = { λ s v. value_of v ≡ struct_view s };

    fn from(s: StructInstance) -> Instance {
        Instance::Struct(s)
    }
}

impl From<ArrayInstance> for Instance {
    ghost use Rattle.std.specs.Prelude.{◌≡◌};
    ghost use Rattle.wgsl_values.specs.View.{value_of, array_view};

    ghost from_gives = { λ a v. value_of v ≡ array_view a };

    fn from(a: ArrayInstance) -> Instance {
        Instance::Array(a)
    }
}

impl From<VecInstance> for Instance {
    ghost use Rattle.std.specs.Prelude.{◌≡◌};
    ghost use Rattle.wgsl_values.specs.View.{value_of, vec_view};

    ghost from_gives = { λ x v. value_of v ≡ vec_view x };

    fn from(v: VecInstance) -> Instance {
        Instance::Vec(v)
    }
}

impl From<MatInstance> for Instance {
    ghost use Rattle.std.specs.Prelude.{◌≡◌};
    ghost use Rattle.wgsl_values.specs.View.{value_of, mat_view};

    ghost from_gives = { λ m v. value_of v ≡ mat_view m };

    fn from(m: MatInstance) -> Instance {
        Instance::Mat(m)
    }
}

impl From<PtrInstance> for Instance {
    ghost use Rattle.std.specs.Prelude.{◌≡◌};
    ghost use Rattle.wgsl_values.specs.View.{value_of, ptr_view};

    ghost from_gives = { λ p v. value_of v ≡ ptr_view p };

    fn from(p: PtrInstance) -> Instance {
        Instance::Ptr(p)
    }
}

impl From<RefInstance> for Instance {
    ghost use Rattle.std.specs.Prelude.{◌≡◌};
    ghost use Rattle.wgsl_values.specs.View.{value_of, ref_view};

    ghost from_gives = { λ r v. value_of v ≡ ref_view r };

    fn from(r: RefInstance) -> Instance {
        Instance::Ref(r)
    }
}

impl From<AtomicInstance> for Instance {
    ghost use Rattle.std.specs.Prelude.{◌≡◌};
    ghost use Rattle.wgsl_values.specs.View.{value_of, atomic_view};

    ghost from_gives = { λ a v. value_of v ≡ atomic_view a };

    fn from(a: AtomicInstance) -> Instance {
        Instance::Atomic(a)
    }
}

/// The deferred value of the type.
impl From<Type> for Instance {
    ghost use Rattle.std.specs.Prelude.{◌≡◌};
    ghost use Rattle.wgsl_rules.specs.TypeParts.{type_value};
    ghost use Rattle.wgsl_values.specs.View.{value_of};

    ghost from_gives = { λ t v. value_of v ≡ type_value t };

    fn from(ty: Type) -> Instance {
        Instance::Deferred(ty)
    }
}

impl From<bool> for Instance {
    ghost use Rattle.std.specs.Prelude.{◌≡◌};
    ghost use Rattle.wgsl_rules.specs.Values.{truth};
    ghost use Rattle.wgsl_values.specs.View.{value_of};

    ghost from_gives = { λ b v. value_of v ≡ truth b };

    fn from(b: bool) -> Instance
        ensures value { value_of result ≡ truth b }
        ensures storable { IsStorable (value_of result) }
    {
        Instance::Literal(LiteralInstance::Bool(b))
    }
}

/// An abstract integer.
impl From<i64> for Instance {
    ghost use Rattle.std.specs.Prelude.{◌≡◌};
    ghost use Rattle.wgsl_rules.specs.Kinds as kinds;
    ghost use Rattle.wgsl_rules.specs.Values.{number};
    ghost use Rattle.wgsl_values.specs.View.{value_of};

    ghost from_gives = { λ n v. value_of v ≡ number kinds.abstract_int n };

    fn from(n: i64) -> Instance
        ensures value { value_of result ≡ number kinds.abstract_int n }
        ensures storable { IsStorable (value_of result) }
    {
        Instance::Literal(LiteralInstance::AbstractInt(n))
    }
}

impl From<i32> for Instance {
    ghost use Rattle.std.specs.Prelude.{◌≡◌};
    ghost use Rattle.wgsl_rules.specs.Kinds as kinds;
    ghost use Rattle.wgsl_rules.specs.Values.{number};
    ghost use Rattle.wgsl_values.specs.View.{value_of};

    ghost from_gives = { λ n v. value_of v ≡ number kinds.i32 n };

    fn from(n: i32) -> Instance
        ensures value { value_of result ≡ number kinds.i32 n }
        ensures storable { IsStorable (value_of result) }
    {
        Instance::Literal(LiteralInstance::I32(n))
    }
}

impl From<u32> for Instance {
    ghost use Rattle.std.specs.Prelude.{◌≡◌, pos};
    ghost use Rattle.wgsl_rules.specs.Kinds as kinds;
    ghost use Rattle.wgsl_rules.specs.Values.{number};
    ghost use Rattle.wgsl_values.specs.View.{value_of};

    ghost from_gives = { λ n v. value_of v ≡ number kinds.u32 (pos n) };

    fn from(n: u32) -> Instance
        ensures value { value_of result ≡ number kinds.u32 (pos n) }
        ensures storable { IsStorable (value_of result) }
    {
        Instance::Literal(LiteralInstance::U32(n))
    }
}

//! The names of functions that no constant expression of integers calls (WGSL: builtin functions).

ghost use Rattle.std.specs.Prelude.{◌≡◌};
ghost use Rattle.wgsl_functions.specs.Names.{
  angle_names,
  begins_among,
  geometry_names,
  invocation_beginnings,
  is_among,
  is_of_floats,
  is_of_memory,
  memory_beginnings,
  memory_names,
  packing_names,
  rounding_names,
};

/// Whether it is the name of a function of floats.
pub(crate) fn is_of_floats(name: &str) -> bool
    ensures { result ≡ is_of_floats name.now }
{
    is_angle(name) || is_geometry(name) || is_rounding(name) || is_packing(name)
}

fn is_angle(name: &str) -> bool
    ensures { result ≡ is_among angle_names name.now }
{
    matches!(
        name,
        "acos"
            | "acosh"
            | "asin"
            | "asinh"
            | "atan"
            | "atanh"
            | "atan2"
            | "cos"
            | "cosh"
            | "sin"
            | "sinh"
            | "tan"
            | "tanh"
            | "degrees"
            | "radians"
    )
}

fn is_geometry(name: &str) -> bool
    ensures { result ≡ is_among geometry_names name.now }
{
    matches!(
        name,
        "cross"
            | "determinant"
            | "distance"
            | "faceForward"
            | "length"
            | "normalize"
            | "reflect"
            | "refract"
            | "mix"
            | "smoothstep"
            | "step"
    )
}

fn is_rounding(name: &str) -> bool
    ensures { result ≡ is_among rounding_names name.now }
{
    matches!(
        name,
        "ceil"
            | "exp"
            | "exp2"
            | "floor"
            | "fma"
            | "fract"
            | "frexp"
            | "inverseSqrt"
            | "ldexp"
            | "log"
            | "log2"
            | "modf"
            | "pow"
            | "quantizeToF16"
            | "round"
            | "saturate"
            | "sqrt"
            | "trunc"
    )
}

fn is_packing(name: &str) -> bool
    ensures { result ≡ is_among packing_names name.now }
{
    matches!(
        name,
        "pack4x8snorm"
            | "pack4x8unorm"
            | "pack2x16snorm"
            | "pack2x16unorm"
            | "pack2x16float"
            | "unpack4x8snorm"
            | "unpack4x8unorm"
            | "unpack2x16snorm"
            | "unpack2x16unorm"
            | "unpack2x16float"
    )
}

/// Whether it is the name of a function of memory, textures or other invocations.
pub(crate) fn is_of_memory(name: &str) -> bool
    ensures { result ≡ is_of_memory name.now }
{
    is_of_stored(name) || begins_as_memory(name) || begins_as_invocations(name)
}

fn is_of_stored(name: &str) -> bool
    ensures { result ≡ is_among memory_names name.now }
{
    matches!(name, "arrayLength" | "storageBarrier")
}

fn begins_as_memory(name: &str) -> bool
    ensures { result ≡ begins_among memory_beginnings name.now }
{
    name.starts_with("atomic") || name.starts_with("texture") || name.starts_with("workgroup")
}

fn begins_as_invocations(name: &str) -> bool
    ensures { result ≡ begins_among invocation_beginnings name.now }
{
    name.starts_with("subgroup")
        || name.starts_with("quad")
        || name.starts_with("dpd")
        || name.starts_with("fwidth")
}

//! Names of types whose values are no constants (WGSL: memory view types; texture and sampler types).

ghost use Rattle.std.specs.Prelude.{◌≡◌};
ghost use Rattle.wgsl_functions.specs.Names.{is_among};
ghost use Rattle.wgsl_eval.specs.Opaque.{
  extension_names,
  is_opaque,
  memory_names,
  norm_formats,
  number_formats,
  sampled_names,
  sampler_names,
  storage_names,
};

/// Whether the name is that of such a type, or of what stands in the template list of one.
pub(crate) fn is_opaque(name: &str) -> bool
    ensures { result ≡ is_opaque name.now }
{
    is_sampler(name)
        || is_sampled(name)
        || is_storage(name)
        || is_memory(name)
        || is_number_format(name)
        || is_norm_format(name)
        || is_of_extension(name)
}

fn is_sampler(name: &str) -> bool
    ensures { result ≡ is_among sampler_names name.now }
{
    matches!(name, "sampler" | "sampler_comparison")
}

fn is_sampled(name: &str) -> bool
    ensures { result ≡ is_among sampled_names name.now }
{
    matches!(
        name,
        "texture_1d"
            | "texture_2d"
            | "texture_2d_array"
            | "texture_3d"
            | "texture_cube"
            | "texture_cube_array"
            | "texture_multisampled_2d"
            | "texture_depth_2d"
            | "texture_depth_2d_array"
            | "texture_depth_cube"
            | "texture_depth_cube_array"
            | "texture_depth_multisampled_2d"
            | "texture_external"
    )
}

fn is_storage(name: &str) -> bool
    ensures { result ≡ is_among storage_names name.now }
{
    matches!(
        name,
        "texture_storage_1d"
            | "texture_storage_2d"
            | "texture_storage_2d_array"
            | "texture_storage_3d"
    )
}

fn is_memory(name: &str) -> bool
    ensures { result ≡ is_among memory_names name.now }
{
    matches!(
        name,
        "ptr"
            | "function"
            | "private"
            | "workgroup"
            | "uniform"
            | "storage"
            | "read"
            | "write"
            | "read_write"
    )
}

fn is_number_format(name: &str) -> bool
    ensures { result ≡ is_among number_formats name.now }
{
    matches!(
        name,
        "rgba8uint"
            | "rgba8sint"
            | "rgba16uint"
            | "rgba16sint"
            | "rgba16float"
            | "rg8uint"
            | "rg8sint"
            | "rg16uint"
            | "rg16sint"
            | "rg16float"
            | "r8uint"
            | "r8sint"
            | "r16uint"
            | "r16sint"
            | "r16float"
            | "r32uint"
            | "r32sint"
            | "r32float"
            | "rg32uint"
            | "rg32sint"
            | "rg32float"
            | "rgba32uint"
            | "rgba32sint"
            | "rgba32float"
            | "rgb10a2uint"
            | "rg11b10ufloat"
    )
}

fn is_norm_format(name: &str) -> bool
    ensures { result ≡ is_among norm_formats name.now }
{
    matches!(
        name,
        "rgba8unorm"
            | "rgba8snorm"
            | "rgba16unorm"
            | "rgba16snorm"
            | "rg8unorm"
            | "rg8snorm"
            | "rg16unorm"
            | "rg16snorm"
            | "r8unorm"
            | "r8snorm"
            | "r16unorm"
            | "r16snorm"
            | "bgra8unorm"
            | "rgb10a2unorm"
    )
}

fn is_of_extension(name: &str) -> bool
    ensures { result ≡ is_among extension_names name.now }
{
    matches!(
        name,
        "binding_array" | "acceleration_structure" | "ray_query"
    )
}

//! The texts of types, enumerations and operators, as WGSL writes them.

ghost use Rattle.std.specs.Prelude.{Some};
ghost use Rattle.wgsl_rules.specs.Text.{
  space_text,
  access_text,
  sampled_text,
  texel_text,
  sampler_text,
  texture_text,
  enumerant_text,
  unary_text,
  binary_text,
  type_text,
};
ghost use Rattle.wgsl_rules.specs.View.{type_view};

use crate::syntax::{
    AccessMode, AddressSpace, BinaryOperator, Enumerant, SampledType, SamplerType, TexelFormat,
    TextureType, UnaryOperator,
};
use crate::ty::Type;
use std::fmt;

impl fmt::Display for AddressSpace {
    ghost output = { λ x. Some (space_text x) };

    fn fmt<W: fmt::Write>(&self, f: &mut fmt::Formatter<W>) -> fmt::Result {
        f.write_str(match self {
            AddressSpace::Function => "function",
            AddressSpace::Private => "private",
            AddressSpace::Workgroup => "workgroup",
            AddressSpace::Uniform => "uniform",
            AddressSpace::Storage => "storage",
            AddressSpace::Handle => "handle",
        })
    }
}

impl fmt::Display for AccessMode {
    ghost output = { λ x. Some (access_text x) };

    fn fmt<W: fmt::Write>(&self, f: &mut fmt::Formatter<W>) -> fmt::Result {
        f.write_str(match self {
            AccessMode::Read => "read",
            AccessMode::Write => "write",
            AccessMode::ReadWrite => "read_write",
        })
    }
}

impl fmt::Display for SampledType {
    ghost output = { λ x. Some (sampled_text x) };

    fn fmt<W: fmt::Write>(&self, f: &mut fmt::Formatter<W>) -> fmt::Result {
        f.write_str(match self {
            SampledType::I32 => "i32",
            SampledType::U32 => "u32",
            SampledType::F32 => "f32",
        })
    }
}

impl fmt::Display for TexelFormat {
    ghost output = { λ x. Some (texel_text x) };

    fn fmt<W: fmt::Write>(&self, f: &mut fmt::Formatter<W>) -> fmt::Result {
        f.write_str(match self {
            TexelFormat::Rgba8Unorm => "rgba8unorm",
            TexelFormat::Rgba8Snorm => "rgba8snorm",
            TexelFormat::Rgba8Uint => "rgba8uint",
            TexelFormat::Rgba8Sint => "rgba8sint",
            TexelFormat::Rgba16Uint => "rgba16uint",
            TexelFormat::Rgba16Sint => "rgba16sint",
            TexelFormat::Rgba16Float => "rgba16float",
            TexelFormat::R32Uint => "r32uint",
            TexelFormat::R32Sint => "r32sint",
            TexelFormat::R32Float => "r32float",
            TexelFormat::Rg32Uint => "rg32uint",
            TexelFormat::Rg32Sint => "rg32sint",
            TexelFormat::Rg32Float => "rg32float",
            TexelFormat::Rgba32Uint => "rgba32uint",
            TexelFormat::Rgba32Sint => "rgba32sint",
            TexelFormat::Rgba32Float => "rgba32float",
            TexelFormat::Bgra8Unorm => "bgra8unorm",
        })
    }
}

impl fmt::Display for SamplerType {
    ghost output = { λ x. Some (sampler_text x) };

    fn fmt<W: fmt::Write>(&self, f: &mut fmt::Formatter<W>) -> fmt::Result {
        f.write_str(match self {
            SamplerType::Sampler => "sampler",
            SamplerType::SamplerComparison => "sampler_comparison",
        })
    }
}

impl fmt::Display for TextureType {
    ghost output = { λ x. Some (texture_text x) };

    fn fmt<W: fmt::Write>(&self, f: &mut fmt::Formatter<W>) -> fmt::Result {
        match self {
            TextureType::Sampled1D(s) => write!(f, "texture_1d<{s}>"),
            TextureType::Sampled1DArray(s) => write!(f, "texture_1d_array<{s}>"),
            TextureType::Sampled2D(s) => write!(f, "texture_2d<{s}>"),
            TextureType::Sampled2DArray(s) => write!(f, "texture_2d_array<{s}>"),
            TextureType::Sampled3D(s) => write!(f, "texture_3d<{s}>"),
            TextureType::SampledCube(s) => write!(f, "texture_cube<{s}>"),
            TextureType::SampledCubeArray(s) => write!(f, "texture_cube_array<{s}>"),
            TextureType::Multisampled2D(s) => write!(f, "texture_multisampled_2d<{s}>"),
            TextureType::Multisampled2DArray(s) => write!(f, "texture_multisampled_2d_array<{s}>"),
            TextureType::Storage1D(t, a) => write!(f, "texture_storage_1d<{t}, {a}>"),
            TextureType::Storage1DArray(t, a) => write!(f, "texture_storage_1d_array<{t}, {a}>"),
            TextureType::Storage2D(t, a) => write!(f, "texture_storage_2d<{t}, {a}>"),
            TextureType::Storage2DArray(t, a) => write!(f, "texture_storage_2d_array<{t}, {a}>"),
            TextureType::Storage3D(t, a) => write!(f, "texture_storage_3d<{t}, {a}>"),
            TextureType::DepthMultisampled2D => f.write_str("texture_depth_multisampled_2d"),
            TextureType::External => f.write_str("texture_external<>"),
            TextureType::Depth2D => f.write_str("texture_depth_2d"),
            TextureType::Depth2DArray => f.write_str("texture_depth_2d_array"),
            TextureType::DepthCube => f.write_str("texture_depth_cube"),
            TextureType::DepthCubeArray => f.write_str("texture_depth_cube_array"),
        }
    }
}

impl fmt::Display for Enumerant {
    ghost output = { λ x. Some (enumerant_text x) };

    fn fmt<W: fmt::Write>(&self, f: &mut fmt::Formatter<W>) -> fmt::Result {
        match self {
            Enumerant::AccessMode(access) => write!(f, "{access}"),
            Enumerant::AddressSpace(space) => write!(f, "{space}"),
            Enumerant::TexelFormat(format) => write!(f, "{format}"),
        }
    }
}

impl fmt::Display for UnaryOperator {
    ghost output = { λ x. Some (unary_text x) };

    fn fmt<W: fmt::Write>(&self, f: &mut fmt::Formatter<W>) -> fmt::Result {
        f.write_str(match self {
            UnaryOperator::LogicalNegation => "!",
            UnaryOperator::Negation => "-",
            UnaryOperator::BitwiseComplement => "~",
            UnaryOperator::AddressOf => "&",
            UnaryOperator::Indirection => "*",
        })
    }
}

impl fmt::Display for BinaryOperator {
    ghost output = { λ x. Some (binary_text x) };

    fn fmt<W: fmt::Write>(&self, f: &mut fmt::Formatter<W>) -> fmt::Result {
        f.write_str(match self {
            BinaryOperator::ShortCircuitOr => "||",
            BinaryOperator::ShortCircuitAnd => "&&",
            BinaryOperator::Addition => "+",
            BinaryOperator::Subtraction => "-",
            BinaryOperator::Multiplication => "*",
            BinaryOperator::Division => "/",
            BinaryOperator::Remainder => "%",
            BinaryOperator::Equality => "==",
            BinaryOperator::Inequality => "!=",
            BinaryOperator::LessThan => "<",
            BinaryOperator::LessThanEqual => "<=",
            BinaryOperator::GreaterThan => ">",
            BinaryOperator::GreaterThanEqual => ">=",
            BinaryOperator::BitwiseOr => "|",
            BinaryOperator::BitwiseAnd => "&",
            BinaryOperator::BitwiseXor => "^",
            BinaryOperator::ShiftLeft => "<<",
            BinaryOperator::ShiftRight => ">>",
        })
    }
}

/// It calls itself for each level of the type: keep to 4,095 within a stack of 8 MiB.
impl fmt::Display for Type {
    ghost output = { λ t. Some (type_text (type_view t)) };

    fn fmt<W: fmt::Write>(&self, f: &mut fmt::Formatter<W>) -> fmt::Result {
        match self {
            Type::Bool => f.write_str("bool"),
            Type::AbstractInt => f.write_str("AbstractInt"),
            Type::AbstractFloat => f.write_str("AbstractFloat"),
            Type::I32 => f.write_str("i32"),
            Type::U32 => f.write_str("u32"),
            Type::F32 => f.write_str("f32"),
            Type::F16 => f.write_str("f16"),
            Type::I64 => f.write_str("i64"),
            Type::U64 => f.write_str("u64"),
            Type::F64 => f.write_str("f64"),
            Type::Struct(ty) => f.write_str(ty.name.as_str()),
            Type::Array(ty, Some(n)) => write!(f, "array<{ty}, {n}>"),
            Type::Array(ty, None) => write!(f, "array<{ty}>"),
            Type::Vec(n, ty) => write!(f, "vec{n}<{ty}>"),
            Type::Mat(c, r, ty) => write!(f, "mat{c}x{r}<{ty}>"),
            Type::Atomic(ty) => write!(f, "atomic<{ty}>"),
            Type::Ptr(space, ty, access) => write!(f, "ptr<{space}, {ty}, {access}>"),
            Type::Ref(space, ty, access) => write!(f, "ref<{space}, {ty}, {access}>"),
            Type::Texture(texture) => write!(f, "{texture}"),
            Type::Sampler(sampler) => write!(f, "{sampler}"),
        }
    }
}

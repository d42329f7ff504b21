//! The enumerations of the language: address spaces, access modes, texture formats, operators.

ghost use Rattle.std.specs.Prelude.{◌≡◌};
ghost use Rattle.wgsl_rules.specs.Access.{can_read, can_write};

/// The stage of a shader's life at which an expression is evaluated (WGSL: const-expressions,
/// override-expressions, runtime expressions).
#[derive(Clone, Copy, Debug, PartialEq, Eq)]
pub enum ShaderStage {
    /// While the shader module is made.
    Const,
    /// While the pipeline is made.
    Override,
    /// While the shader runs.
    Exec,
}

/// Where the memory of a variable lives (WGSL: address spaces).
#[derive(Clone, Copy, Debug, PartialEq, Eq)]
pub enum AddressSpace {
    Function,
    Private,
    Workgroup,
    Uniform,
    Storage,
    Handle,
}

/// What a reference or pointer may do to its memory (WGSL: memory access mode).
#[derive(Clone, Copy, Debug, PartialEq, Eq)]
pub enum AccessMode {
    Read,
    Write,
    ReadWrite,
}

impl AccessMode {
    /// Whether the memory may be read (WGSL: memory access mode).
    pub fn is_read(self) -> bool
        ensures { result ≡ can_read self }
    {
        matches!(self, AccessMode::Read | AccessMode::ReadWrite)
    }

    /// Whether the memory may be written (WGSL: memory access mode).
    pub fn is_write(self) -> bool
        ensures { result ≡ can_write self }
    {
        matches!(self, AccessMode::Write | AccessMode::ReadWrite)
    }
}

/// The type of a component of a sampled texture (WGSL: sampled texture types).
#[derive(Clone, Copy, Debug, PartialEq, Eq)]
pub enum SampledType {
    I32,
    U32,
    F32,
}

/// How a texel of a storage texture is kept (WGSL: texel formats).
#[derive(Clone, Copy, Debug, PartialEq, Eq)]
pub enum TexelFormat {
    Rgba8Unorm,
    Rgba8Snorm,
    Rgba8Uint,
    Rgba8Sint,
    Rgba16Uint,
    Rgba16Sint,
    Rgba16Float,
    R32Uint,
    R32Sint,
    R32Float,
    Rg32Uint,
    Rg32Sint,
    Rg32Float,
    Rgba32Uint,
    Rgba32Sint,
    Rgba32Float,
    Bgra8Unorm,
}

/// A texture type (WGSL: texture types).
#[derive(Clone, Copy, Debug, PartialEq, Eq)]
pub enum TextureType {
    Sampled1D(SampledType),
    Sampled1DArray(SampledType),
    Sampled2D(SampledType),
    Sampled2DArray(SampledType),
    Sampled3D(SampledType),
    SampledCube(SampledType),
    SampledCubeArray(SampledType),
    Multisampled2D(SampledType),
    Multisampled2DArray(SampledType),
    DepthMultisampled2D,
    External,
    Storage1D(TexelFormat, AccessMode),
    Storage1DArray(TexelFormat, AccessMode),
    Storage2D(TexelFormat, AccessMode),
    Storage2DArray(TexelFormat, AccessMode),
    Storage3D(TexelFormat, AccessMode),
    Depth2D,
    Depth2DArray,
    DepthCube,
    DepthCubeArray,
}

/// A sampler type (WGSL: sampler types).
#[derive(Clone, Copy, Debug, PartialEq, Eq)]
pub enum SamplerType {
    Sampler,
    SamplerComparison,
}

/// A word of the language that names a value of one of these (WGSL: enumeration types).
#[derive(Clone, Copy, Debug, PartialEq, Eq)]
pub enum Enumerant {
    AccessMode(AccessMode),
    AddressSpace(AddressSpace),
    TexelFormat(TexelFormat),
}

/// An operator before its one operand (WGSL: operator precedence).
#[derive(Clone, Copy, Debug, PartialEq, Eq)]
pub enum UnaryOperator {
    LogicalNegation,
    Negation,
    BitwiseComplement,
    AddressOf,
    Indirection,
}

/// An operator between its two operands (WGSL: operator precedence).
#[derive(Clone, Copy, Debug, PartialEq, Eq)]
pub enum BinaryOperator {
    ShortCircuitOr,
    ShortCircuitAnd,
    Addition,
    Subtraction,
    Multiplication,
    Division,
    Remainder,
    Equality,
    Inequality,
    LessThan,
    LessThanEqual,
    GreaterThan,
    GreaterThanEqual,
    BitwiseOr,
    BitwiseAnd,
    BitwiseXor,
    ShiftLeft,
    ShiftRight,
}

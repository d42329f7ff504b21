//! The types of WGSL, as host code and shader tools see them, and their sizes.
#![tactic(auto)]

mod clone;
mod conv;
mod display;
mod eq;
mod generic;
pub mod laws;
mod layout;
mod measures;
mod number;
mod parts;
mod places;
mod size;
mod syntax;
mod traits;
mod ty;
mod uniform;

pub use conv::{common_type_is_symmetric, conversion_rank, convert_all_ty, convert_ty};
pub use generic::{
    convert, convert_all, convert_all_inner_to, convert_all_to, convert_inner,
    convert_is_symmetric, converting_again_changes_nothing,
};
pub use measures::{Measures, MemberMeasures};
pub use places::MemberLayout;
pub use syntax::{
    AccessMode, AddressSpace, BinaryOperator, Enumerant, SampledType, SamplerType, ShaderStage,
    TexelFormat, TextureType, UnaryOperator,
};
pub use traits::{Convert, Ty};
pub use ty::{StructMemberType, StructType, Type};
pub use uniform::{UniformFault, UniformRule};

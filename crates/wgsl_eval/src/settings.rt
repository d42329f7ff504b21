//! How a source is evaluated.

use wgsl_functions::Dialect;
use wgsl_rules::ShaderStage;

/// How a source is evaluated.
#[derive(Clone, Copy, Debug, PartialEq, Eq)]
pub struct Settings {
    /// In another one than `Const` the values of overrides are evaluated too, as if no host had given others.
    pub stage: ShaderStage,
    /// Whether what the standard refuses is a fault.
    pub is_strict: bool,
    /// In `Wgsl` integers of 64 bits and matrices of integers are warned of, and abstract integers in a matrix are
    /// floats; in `Crate` all that the library has is taken.
    pub dialect: Dialect,
}

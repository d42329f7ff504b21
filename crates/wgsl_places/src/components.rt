//! The numbers of a vector's components.

ghost use Rattle.std.specs.Prelude.{◌≡◌, map};
ghost use Rattle.wgsl_places.specs.Components.{components_of};
ghost use Rattle.wgsl_scalar.specs.Literals.{literal_of};

use wgsl_scalar::LiteralInstance;

/// The components of a vector, in their order (WGSL: vector types). Those that [`Places`](crate::Places) loads are all
/// of one kind.
#[derive(Clone, Copy, Debug, PartialEq, Eq)]
pub enum Components {
    Two([LiteralInstance; 2]),
    Three([LiteralInstance; 3]),
    Four([LiteralInstance; 4]),
}

impl Components {
    /// The components, the first one first.
    pub fn as_slice(&self) -> &[LiteralInstance]
        ensures { map literal_of result.now ≡ components_of self.now }
    {
        match self {
            Components::Two(components) => components.as_slice(),
            Components::Three(components) => components.as_slice(),
            Components::Four(components) => components.as_slice(),
        }
    }
}

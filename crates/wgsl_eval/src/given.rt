//! Values that a host gives overrides (WGSL: override declarations; WebGPU: pipeline-overridable constants).

ghost use Rattle.std.specs.Prelude.{◌≡◌};
ghost use Rattle.std.specs.List.{position};
ghost use Rattle.std.specs.Str.{bytes_eq};
ghost use Rattle.wgsl_eval.specs.Overrides.{given_for, is_override};

use wgsl_scalar::LiteralInstance;
use wgsl_source::{Declared, Reading};

/// A value that a host gives an override.
#[derive(Clone, Copy, Debug, PartialEq, Eq)]
pub struct Given<'a> {
    /// The name of the override.
    pub name: &'a str,
    /// It converts to the type of the override as the language does it by itself.
    pub value: LiteralInstance,
}

/// Whether an override of the source has this name, so that a value that is given for it counts.
pub fn is_override(reading: &Reading<'_>, name: &str) -> bool
    ensures { result ≡ is_override reading.now name.now }
{
    match reading.number_of(name) {
        Some(number) => matches!(reading.declared(number), Some(Declared::Override { .. })),
        None => false,
    }
}

/// The value that is given for a name: of two the first.
pub(crate) fn given_for(given: &[Given<'_>], name: &str) -> Option<LiteralInstance>
    ensures { result ≡ given_for given.now name.now }
{
    let at = place_of(given, name)?;
    let one = given.get(at)?;
    Some(one.value)
}

fn place_of(given: &[Given<'_>], name: &str) -> Option<usize>
    ensures { result ≡ position (λ one. bytes_eq one.name.now name.now) given.now }
{
    given.iter().position(|one| one.name == name)
}

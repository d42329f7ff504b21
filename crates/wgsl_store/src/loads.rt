//! Values that are loaded (WGSL: load rule).

ghost use Rattle.std.specs.Prelude.{◌≡◌, IfOk, IfSome, option_map};
ghost use Rattle.wgsl_rules.specs.Values.{IsStorable, IsWellFormed};
ghost use Rattle.wgsl_rules.specs.View.{type_view};
ghost use Rattle.wgsl_scalar.specs.Answers.{Gives};
ghost use Rattle.wgsl_store.specs.Cells.{IsPart, part_value};
ghost use Rattle.wgsl_store.specs.Loaded.{as_reference, loaded_in};
ghost use Rattle.wgsl_store.specs.Memory.{HoldsValue, IsContent, IsKept, held};
ghost use Rattle.wgsl_store.specs.ReferenceCalls.{load, loaded};
ghost use Rattle.wgsl_values.specs.View.{value_of, reference_of};

use crate::cell::Part;
use crate::store::Store;
use std::alloc::Global;
use wgsl_rules::{Convert, Ty, Type};
use wgsl_scalar::Error;
use wgsl_values::{Instance, RefInstance};

/// What is loaded: values.
///
/// Both calls ask as a condition that the store keeps each reference and pointer in the value, as
/// [`Store::holds_value`] tests. They are refused with `NotRead` where a reference that is read on the
/// way has no read access.
///
/// A chain of references is followed in a loop: it takes no more stack where it is longer. But the
/// type of a reference holds that of the one that it leads to, so memory grows with the square of
/// its length, and the types are as deep as it is long (see [`Type`]).
pub trait Loads: Sized + Ty {
    /// The value itself, or what its reference leads to, read on while it is a reference.
    /// It calls itself for each level of a value or type: keep to 4,095 within a stack of 8 MiB.
    fn loaded(self, alloc: Global, store: &Store) -> Result<Self, Error>
        requires { HoldsValue store.now (Self.value_of self) }
        ensures outcome { Gives Self.value_of result (loaded (held store.now) (Self.value_of self)) }
        ensures well_formed { IsWellFormed (Self.value_of self) → IfOk result (λ v. IsWellFormed (Self.value_of v)) }
        ensures storable { IsStorable (Self.value_of self) → IfOk result (λ v. IsStorable (Self.value_of v)) }
        ensures held { IfOk result (λ v. HoldsValue store.now (Self.value_of v)) };

    /// The value, loaded and then converted to the type; `None` where it does not convert to it. The
    /// condition: it is well-formed too.
    /// It calls itself for each level of a value or type: keep to 4,095 within a stack of 8 MiB.
    fn convert_loaded(&self, alloc: Global, store: &Store, ty: &Type) -> Result<Option<Self>, Error>
        requires held { HoldsValue store.now (Self.value_of self.now) }
        requires well_formed { IsWellFormed (Self.value_of self.now) }
        ensures outcome { Gives (option_map Self.value_of) result (loaded_in (held store.now) (type_view ty.now) (Self.value_of self.now)) }
        ensures well_formed { IfOk result (λ o. IfSome o (λ v. IsWellFormed (Self.value_of v))) }
        ensures storable { IsStorable (Self.value_of self.now) → IfOk result (λ o. IfSome o (λ v. IsStorable (Self.value_of v))) }
        ensures held { IfOk result (λ o. IfSome o (λ v. HoldsValue store.now (Self.value_of v))) };
}

// The reference that the value is.
fn as_reference(value: &Instance) -> Option<&RefInstance>
    ensures { option_map (λ r. reference_of r.now) result ≡ as_reference (value_of value.now) }
{
    match value {
        Instance::Ref(reference) => Some(reference),
        Instance::Literal(_) | Instance::Struct(_) | Instance::Array(_) | Instance::Vec(_) => None,
        Instance::Mat(_) | Instance::Ptr(_) | Instance::Atomic(_) | Instance::Deferred(_) => None,
    }
}

// The reference that the part is. A part of bytes is none: references have no layout.
fn reference_at<'a>(part: Part<'a>) -> Option<&'a RefInstance>
    ensures { option_map (λ r. reference_of r.now) result ≡ as_reference (part_value part.entry) }
{
    match part {
        Part::Flat(_) => None,
        Part::Tree(value) => as_reference(value),
    }
}

// The part that the reference leads to, read on while it is a reference. The condition: it is kept.
fn load<'a>(reference: &RefInstance, store: &'a Store) -> Result<Part<'a>, Error>
    requires { IsKept store.now (reference_of reference.now) }
    ensures outcome { let r = reference_of reference.now in Gives part_value result (load (held store.now) r.ty r) }
    ensures part { IfOk result IsPart }
    ensures content { IfOk result (λ p. IsContent store.now (part_value p)) }
{
    let mut part = store.readable(reference)?;
    while let Some(next) = reference_at(part) {
        part = store.readable(next)?;
    }
    Ok(part)
}

// `load`, and a copy of what it gives.
fn load_value(alloc: Global, reference: &RefInstance, store: &Store) -> Result<Instance, Error>
    requires { IsKept store.now (reference_of reference.now) }
    ensures outcome { let r = reference_of reference.now in Gives value_of result (load (held store.now) r.ty r) }
    ensures content { IfOk result (λ v. IsContent store.now (value_of v)) }
{
    Ok(load(reference, store)?.value(alloc)?)
}

impl Loads for Instance {
    fn loaded(self, alloc: Global, store: &Store) -> Result<Instance, Error> {
        match as_reference(&self) {
            Some(reference) => load_value(alloc, reference, store),
            None => Ok(self),
        }
    }

    fn convert_loaded(
        &self,
        alloc: Global,
        store: &Store,
        ty: &Type,
    ) -> Result<Option<Instance>, Error> {
        let part = match as_reference(self) {
            Some(reference) => load(reference, store)?,
            None => Part::Tree(self),
        };
        Ok(part.convert_to(alloc, ty)?)
    }
}

//! Buffers whose numbers are reached by references.

ghost use Rattle.std.specs.Prelude.{◌≡◌, IfOk};
ghost use Rattle.wgsl_rules.specs.Values.{IsStorable, atomic_of};
ghost use Rattle.wgsl_scalar.specs.Literals.{literal_of};
ghost use Rattle.wgsl_values.specs.View.{value_of};

use crate::buffer::Buffer;
use crate::forms::Member;
use std::alloc::Global;
use wgsl_rules::Type;
use wgsl_scalar::{Error, LiteralInstance};
use wgsl_store::{References, Store};
use wgsl_values::{AtomicInstance, Instance, RefInstance};

/// A buffer with a reference to the whole of it. A reference is made for each part.
#[derive(Drop)]
pub(crate) struct ReferencedBuffer {
    alloc: Global,
    whole: RefInstance,
}

impl ReferencedBuffer {
    pub(crate) fn new(alloc: Global, whole: RefInstance) -> ReferencedBuffer
        ensures { result.whole ≡ whole }
    {
        ReferencedBuffer { alloc, whole }
    }
}

impl Buffer for ReferencedBuffer {
    ghost use Rattle.wgsl_store.specs.Memory.{IsKept};
    ghost use Rattle.wgsl_values.specs.View.{reference_of};

    type Part = RefInstance;

    ghost HasPart = { λ b cells p. IsKept cells (reference_of p) };

    ghost whole = { λ b. b.whole };

    fn whole(&self) -> &RefInstance {
        &self.whole
    }

    fn index(&self, store: &Store, of: &RefInstance, i: usize) -> Result<RefInstance, Error> {
        of.view_index(self.alloc, store, i)
    }

    fn member(
        &self,
        store: &Store,
        of: &RefInstance,
        member: Member,
    ) -> Result<RefInstance, Error> {
        let name = String::from_str(self.alloc, member.name())?;
        of.view_member(self.alloc, store, name)
    }

    fn load(&self, store: &Store, part: &RefInstance) -> Result<LiteralInstance, Error> {
        match part.read(self.alloc, store)? {
            Instance::Literal(number) => Ok(number),
            Instance::Atomic(atomic) => number_in(&atomic),
            _ => Err(Error::NotRead),
        }
    }

    fn put(
        &self,
        store: &mut Store,
        part: &RefInstance,
        number: LiteralInstance,
    ) -> Result<(), Error> {
        let value = match part.target_ty() {
            Type::Atomic(_) => atomic_with(self.alloc, number)?,
            _ => Instance::from(number),
        };
        part.write(self.alloc, store, value)
    }
}

// The number that the atomic holds.
fn number_in(atomic: &AtomicInstance) -> Result<LiteralInstance, Error> {
    match atomic.inner() {
        Instance::Literal(number) => Ok(*number),
        _ => Err(Error::NotRead),
    }
}

// An atomic that holds the number; `NotRead` where none does.
fn atomic_with(alloc: Global, number: LiteralInstance) -> Result<Instance, Error>
    ensures value { IfOk result (λ v. value_of v ≡ atomic_of (literal_of number)) }
    ensures storable { IfOk result (λ v. IsStorable (value_of v)) }
{
    let inner = Instance::from(number);
    if !AtomicInstance::can_make(&inner) {
        return Err(Error::NotRead);
    }
    Ok(Instance::from(AtomicInstance::new(alloc, inner)?))
}

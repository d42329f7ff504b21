//! Buffers whose numbers are reached by places.

ghost use Rattle.std.specs.Prelude.{List, IfOk};
ghost use Rattle.wgsl_place_jobs.specs.Places.{KeepsPlace};
ghost use Rattle.wgsl_rules.specs.Values.{Reference, Val};
ghost use Rattle.wgsl_store.specs.Memory.{IsKept};
ghost use Rattle.wgsl_values.specs.View.{reference_of};

use crate::buffer::Buffer;
use crate::forms::Member;
use std::alloc::Global;
use wgsl_places::{Place, Places};
use wgsl_scalar::{Error, LiteralInstance};
use wgsl_store::Store;
use wgsl_values::{MemView, RefInstance};

/// A buffer with the places of its type, and that of the whole of it.
#[derive(Drop)]
pub(crate) struct PlacedBuffer {
    places: Places,
    reference: RefInstance,
    whole: Place,
}

impl PlacedBuffer {
    /// The buffer that the reference names. One in a cell that is no bytes is refused with `NotRead`. The condition: the
    /// reference is kept.
    pub(crate) fn new(
        alloc: Global,
        store: &Store,
        reference: RefInstance,
    ) -> Result<PlacedBuffer, Error>
        requires { IsKept store.now (reference_of reference) }
        ensures { IfOk result (λ b. KeepsPlace b.places store.now (reference_of b.reference) b.whole) }
    {
        let places = Places::of(alloc, reference.target_ty())?.ok_or(Error::NotRead)?;
        let whole = places.place_in(store, &reference, &MemView::Whole);
        let whole = whole.ok_or(Error::NotRead)?;
        Ok(PlacedBuffer {
            places,
            reference,
            whole,
        })
    }
}

impl Buffer for PlacedBuffer {
    ghost use Rattle.wgsl_place_jobs.specs.Places.{KeepsPlace};
    ghost use Rattle.wgsl_values.specs.View.{reference_of};

    type Part = Place;

    ghost HasPart = { λ b cells p. KeepsPlace b.places cells (reference_of b.reference) p };

    ghost whole = { λ b. b.whole };

    fn whole(&self) -> &Place {
        &self.whole
    }

    fn index(&self, _store: &Store, of: &Place, i: usize) -> Result<Place, Error> {
        part(&self.places, *of, i)
    }

    fn member(&self, _store: &Store, of: &Place, member: Member) -> Result<Place, Error> {
        part(&self.places, *of, member.index())
    }

    fn load(&self, store: &Store, part: &Place) -> Result<LiteralInstance, Error> {
        match self.places.load_in(store, &self.reference, *part) {
            Some(number) => Ok(number),
            None => Err(Error::NotRead),
        }
    }

    fn put(&self, store: &mut Store, part: &Place, number: LiteralInstance) -> Result<(), Error> {
        if self.places.store_in(store, &self.reference, *part, number) {
            Ok(())
        } else {
            Err(Error::NotWrite)
        }
    }
}

// The part of the position; `NotRead` past the last, and of what has no parts.
fn part(places: &Places, of: Place, i: usize) -> Result<Place, Error>
    ensures { (cells : List Val) (r : Reference) → KeepsPlace places.now cells r of → IfOk result (KeepsPlace places.now cells r) }
{
    match places.part(of, i) {
        Some(place) => Ok(place),
        None => Err(Error::NotRead),
    }
}

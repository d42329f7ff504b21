//! Where the parts of the values of a type stand.

ghost use Rattle.std.specs.Prelude.{◌≡◌, false, IfOk, IfSome, List, MatchOption, map, option_map};
ghost use Rattle.std.specs.Bool.{OnFalse};
ghost use Rattle.std.specs.Option.{unwrap_or};
ghost use Rattle.std.specs.Prelude.{is_some};
ghost use Rattle.wgsl_places.specs.Components.{components_of};
ghost use Rattle.wgsl_places.specs.Memory.{IsPlaceOf};
ghost use Rattle.wgsl_places.specs.Places.{ArePlaces, IsPlace, IsPlaceAnswer, loaded, stored, whole_of};
ghost use Rattle.wgsl_places.specs.Steps.{shape_ty};
ghost use Rattle.wgsl_places.specs.Vectors.{loaded_vec, stored_vec};
ghost use Rattle.wgsl_rules.specs.Layout.{HasLayout, count_in, has_layout, type_in};
ghost use Rattle.wgsl_rules.specs.Values.{Reference, Val};
ghost use Rattle.wgsl_rules.specs.View.{type_view};
ghost use Rattle.wgsl_scalar.specs.Literals.{literal_of};
ghost use Rattle.wgsl_layout.specs.Layouts.{part_in};
ghost use Rattle.wgsl_layout.specs.Ranges.{Range, further, part_at, parts_in, view_range};
ghost use Rattle.wgsl_values.specs.View.{steps_of};

use crate::components::Components;
use crate::numbers::{load_number, store_number};
use crate::place::Place;
use crate::rows::{load_row, store_row};
use crate::shape::Shape;
use std::alloc::{AllocError, Global};
use std::marker::Model;
use wgsl_nodes::{Node, count_in, nodes_of, part_with, whole};
use wgsl_rules::Type;
use wgsl_scalar::LiteralInstance;
use wgsl_store::LayoutRefusal;
use wgsl_values::MemView;

/// Where the parts of the values of a type stand in bytes, and the numbers there. It is made once, and then serves any
/// number of reads and writes of bytes of the caller's, which hold a value of the type from their first byte on.
/// Contracts see the type.
#[derive(Drop)]
pub struct Places {
    ty: Type,
    nodes: Vec<Node>,
}

impl Model for Places {
    ghost use Rattle.wgsl_rules.specs.Codes.{ty_code};
    ghost use Rattle.wgsl_rules.specs.Types.{Ty};

    ghost Value = { Ty };

    ghost coded = { ty_code };

    ghost use Rattle.wgsl_places.specs.Tables.{HoldsTable, type_inside};

    ghost view = { type_inside };

    ghost invariant = { HoldsTable };
}

impl Places {
    /// Those of the type; `None` exactly where it has no layout ([`Type::has_layout`]).
    /// It calls itself for each level of the type: keep to 4,095 within a stack of 8 MiB.
    pub fn of(alloc: Global, ty: &Type) -> Result<Option<Places>, AllocError>
        ensures { let t = type_view ty.now in IfOk result (λ o. MatchOption o (has_layout t ≡ false) (λ p. (p ≡ t) × HasLayout t)) }
    {
        if !ty.has_layout() {
            return Ok(None);
        }
        let Some(nodes) = nodes_of(alloc, ty)? else {
            unreachable!()
        };
        let ty = ty.clone(alloc)?;
        Ok(Some(Places { ty, nodes }))
    }

    /// The type, which has a layout.
    pub fn ty(&self) -> &Type
        ensures ty { type_view result.now ≡ self.now }
        ensures laid { HasLayout self.now }
    {
        &self.ty
    }

    /// The place of the part that the view leads to, in so many bytes, which tell how many elements a runtime-sized
    /// array has: as many as find room. Refusals in order: `TooFewBytes`, `NoPart`. No memory is taken.
    /// It calls itself for each step of the view: keep to 4,095 within a stack of 8 MiB.
    pub fn place(&self, len: usize, view: &MemView) -> Result<Place, LayoutRefusal>
        ensures { IsPlaceAnswer self.now (part_in len (steps_of view.now) self.now) result }
    {
        let Some(whole) = self.whole(len) else {
            return Err(LayoutRefusal::TooFewBytes);
        };
        match self.viewed(whole, Shape::Whole(&self.ty), view) {
            Some(place) => Ok(place),
            None => Err(LayoutRefusal::NoPart),
        }
    }

    /// The place of the part of the position: a component, column, element or member of what stands there. `None` past
    /// the last, and of what has no parts. No memory is taken.
    pub fn part(&self, place: Place, i: usize) -> Option<Place>
        ensures part { (r : Range) → IsPlace self.now r place → ArePlaces self.now (option_map (further r.start) (part_at i (parts_in r.layout))) result }
        ensures of { (cells : List Val) (r : Reference) → IsPlaceOf self.now cells r place → IfSome result (IsPlaceOf self.now cells r) }
    {
        let elements = place.elements;
        let at = part_with(self.nodes.as_slice(), place.at, i as u64, elements as u64)?;
        Some(Place { at, elements })
    }

    /// The number that stands there, where it is a scalar or an atomic; `None` where it is neither, or does not lie in
    /// the bytes. No memory is taken.
    pub fn load(&self, bytes: &[u8], place: Place) -> Option<LiteralInstance>
        ensures { (r : Range) → IsPlace self.now r place → option_map literal_of result ≡ loaded bytes.now r }
    {
        if place.at.count != 1 {
            return None;
        }
        load_number(bytes, place.at.offset as usize, place.at.kind)
    }

    /// Puts the number there, and says whether it did: whether a scalar or an atomic of numbers of the kind stands there
    /// and lies in the bytes. Else all bytes are as before. No memory is taken.
    pub fn store(&self, bytes: &mut [u8], place: Place, number: LiteralInstance) -> bool
        ensures answer { (r : Range) → IsPlace self.now r place → result ≡ is_some (stored bytes.old r (literal_of number)) }
        ensures bytes { (r : Range) → IsPlace self.now r place → bytes.new ≡ unwrap_or (stored bytes.old r (literal_of number)) bytes.old }
        ensures refused { OnFalse result (bytes.new ≡ bytes.old) }
    {
        place.at.count == 1 && store_number(bytes, place.at.offset as usize, place.at.kind, number)
    }

    /// The components of the vector that stands there; `None` where no vector does, or it does not lie in the bytes. No
    /// memory is taken.
    pub fn load_vec(&self, bytes: &[u8], place: Place) -> Option<Components>
        ensures { (r : Range) → IsPlace self.now r place → option_map components_of result ≡ loaded_vec bytes.now r }
    {
        if !place.is_of_vector() {
            return None;
        }
        load_row(
            bytes,
            place.at.offset as usize,
            place.at.kind,
            place.at.count,
        )
    }

    /// Puts the components there, and says whether it did: whether a vector of as many numbers of their kind stands
    /// there and lies in the bytes. Else all bytes are as before. No memory is taken.
    pub fn store_vec(&self, bytes: &mut [u8], place: Place, components: &[LiteralInstance]) -> bool
        ensures answer { (r : Range) → IsPlace self.now r place → result ≡ is_some (stored_vec bytes.old r (map literal_of components.now)) }
        ensures bytes { (r : Range) → IsPlace self.now r place → bytes.new ≡ unwrap_or (stored_vec bytes.old r (map literal_of components.now)) bytes.old }
        ensures refused { OnFalse result (bytes.new ≡ bytes.old) }
    {
        if !place.is_of_vector() || components.len() != place.at.count as usize {
            return false;
        }
        store_row(bytes, place.at.offset as usize, place.at.kind, components)
    }

    // The place of the whole, in so many bytes; `None` where they are too few.
    fn whole(&self, len: usize) -> Option<Place>
        ensures { ArePlaces self.now (option_map (whole_of self.now) (count_in len self.now)) result }
    {
        let nodes = self.nodes.as_slice();
        let elements = count_in(nodes, 0, len as u64)?;
        let at = whole(nodes)?;
        Some(Place {
            at,
            elements: elements as usize,
        })
    }

    // The part that the view leads to, from a part of this type on.
    fn viewed(&self, place: Place, shape: Shape<'_>, view: &MemView) -> Option<Place>
        ensures { (r : Range) → IsPlace self.now r place → type_in r.layout ≡ shape_ty shape.entry → ArePlaces self.now (option_map (further r.start) (view_range (steps_of view.now) r.layout)) result }
    {
        match view {
            MemView::Whole => Some(place),
            MemView::Member(name, rest) => {
                let (i, member) = shape.member(name.as_str())?;
                self.viewed(self.part(place, i)?, member, rest)
            }
            MemView::Index(i, rest) => {
                let element = shape.element()?;
                self.viewed(self.part(place, *i)?, element, rest)
            }
        }
    }
}

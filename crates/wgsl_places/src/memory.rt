//! Places in what references name.

ghost use Rattle.std.specs.Prelude.{
  ◌≡◌,
  ◌↔◌,
  ◌&&◌,
  ◌+◌,
  ◌*◌,
  ◌<◌,
  ◌^◌,
  ℕ,
  List,
  IfSome,
  IsOkAnd,
  IsTrue,
  length,
  map,
  option_map,
  true,
};
ghost use Rattle.std.specs.Bool.{OnFalse, OnTrue};
ghost use Rattle.wgsl_places.specs.Components.{components_of};
ghost use Rattle.wgsl_places.specs.Memory.{
  IsPlaceAt,
  IsPlaceOf,
  loaded_at,
  loaded_vec_at,
  range_viewed,
  takes_at,
  takes_vec_at,
};
ghost use Rattle.wgsl_places.specs.Numbers.{row_width};
ghost use Rattle.wgsl_places.specs.Places.{ArePlaces};
ghost use Rattle.wgsl_places.specs.Rows.{HasRow, IsRow};
ghost use Rattle.wgsl_rules.specs.Access.{can_read, can_write};
ghost use Rattle.wgsl_rules.specs.Paths.{put_tree};
ghost use Rattle.wgsl_rules.specs.Types.{Ty};
ghost use Rattle.wgsl_rules.specs.Values.{Reference, vector};
ghost use Rattle.wgsl_scalar.specs.Literals.{literal_of};
ghost use Rattle.wgsl_store.specs.Copies.{in_bytes};
ghost use Rattle.wgsl_store.specs.Memory.{IsKept, IsSound, held, put_cells};
ghost use Rattle.wgsl_store.specs.MemoryLaws.{KeepsLayouts};
ghost use Rattle.wgsl_layout.specs.NumbersIn.{number_put};
ghost use Rattle.wgsl_values.specs.View.{reference_of, steps_of, vals_of};

use crate::components::Components;
use crate::numbers::{width_of, width_with};
use crate::place::Place;
use crate::places::Places;
use crate::rows::are_of_kind;
use wgsl_layout::laws::a_literal_may_be_stored;
use wgsl_scalar::LiteralInstance;
use wgsl_store::Store;
use wgsl_values::{MemView, RefInstance};

impl Places {
    /// Whether the reference is of the type of these places. No memory is taken.
    /// It calls itself for each level of the types: keep to 4,095 within a stack of 8 MiB.
    #[tactic(auto, using(wgsl_rules::specs::Equal::same_is))]
    pub fn are_of(&self, reference: &RefInstance) -> bool
        ensures { IsTrue result ↔ ((reference_of reference.now).ty ≡ self.now) }
    {
        *reference.target_ty() == *self.ty()
    }

    /// The place of the part that the view leads to in what the reference names; `None` where that is in a cell that is
    /// no bytes, as [`Store::bytes_of`] tells, or where the view leads nowhere. Access is not asked, and no memory is
    /// taken. It stays the place of a part, whatever is written. The conditions: the reference is kept, as
    /// [`Store::holds`] tests, and is of the type of these places, as [`Places::are_of`] tests.
    /// It calls itself for each step of the view: keep to 4,095 within a stack of 8 MiB.
    pub fn place_in(&self, store: &Store, reference: &RefInstance, view: &MemView) -> Option<Place>
        requires kept { IsKept store.now (reference_of reference.now) }
        requires typed { (reference_of reference.now).ty ≡ self.now }
        ensures place { let r = reference_of reference.now in IsOkAnd (held store.now r) (λ x. ArePlaces self.now (range_viewed (in_bytes store.now r) (steps_of view.now) x) result) }
        ensures of { IfSome result (IsPlaceOf self.now store.now (reference_of reference.now)) }
    {
        let bytes = store.bytes_of(reference)?;
        self.place(bytes.len(), view).ok()
    }

    /// The number that stands there in what the reference names, where it is a scalar or an atomic; `None` where it is
    /// neither, where the reference may not read, and in a cell that is no bytes. No memory is taken. The condition: the
    /// reference is kept, as [`Store::holds`] tests.
    pub fn load_in(
        &self,
        store: &Store,
        reference: &RefInstance,
        place: Place,
    ) -> Option<LiteralInstance>
        requires { IsKept store.now (reference_of reference.now) }
        ensures { let r = reference_of reference.now in (path : List ℕ) → IsOkAnd (held store.now r) (λ x. IsPlaceAt self.now x path place → option_map literal_of result ≡ loaded_at (can_read r.access && in_bytes store.now r) path x) }
    {
        if !reference.access().is_read() {
            return None;
        }
        self.load(store.bytes_from(reference)?, place)
    }

    /// Puts the number there in what the reference names, and says whether it did: whether the reference may write, its
    /// cell is bytes, and a scalar or an atomic of numbers of the kind stands there. Else nothing is changed. No memory
    /// is taken. Each reference that was kept is kept, and the place of a part of what any of these names is the place of
    /// it still. The conditions: the reference is kept, as [`Store::holds`] tests, and the place is that of a part of what
    /// it names, as [`Places::place_in`] and [`Places::part`] make them.
    pub fn store_in(
        &self,
        store: &mut Store,
        reference: &RefInstance,
        place: Place,
        number: LiteralInstance,
    ) -> bool
        requires kept { IsKept store.old (reference_of reference.now) }
        requires of { IsPlaceOf self.now store.old (reference_of reference.now) place }
        ensures answer { let r = reference_of reference.now in (path : List ℕ) → IsOkAnd (held store.old r) (λ x. IsPlaceAt self.now x path place → result ≡ (can_write r.access && (in_bytes store.old r && takes_at path x (literal_of number)))) }
        ensures put { let r = reference_of reference.now in OnTrue result ((path : List ℕ) → IsOkAnd (held store.old r) (λ x. IsPlaceAt self.now x path place → store.new ≡ put_cells store.old r (number_put path (literal_of number) x))) }
        ensures same { OnFalse result (store.new ≡ store.old) }
        ensures sound { IsSound store.new }
        ensures kept { (r : Reference) → IsKept store.old r → IsKept store.new r }
        ensures places { (t : Ty) (r : Reference) (p : Place) → IsKept store.old r → IsPlaceOf t store.old r p → IsPlaceOf t store.new r p }
    {
        let _ = store.len();
        if !reference.access().is_write() || place.at.count != 1 {
            return false;
        }
        match width_with(place.at.kind, number) {
            Some(_) => store.put_number(reference, place.at.offset as usize, number),
            None => false,
        }
    }

    /// The components of the vector that stands there in what the reference names; `None` where no vector does, where
    /// the reference may not read, and in a cell that is no bytes. No memory is taken. The condition: the reference is
    /// kept, as [`Store::holds`] tests.
    pub fn load_vec_in(
        &self,
        store: &Store,
        reference: &RefInstance,
        place: Place,
    ) -> Option<Components>
        requires { IsKept store.now (reference_of reference.now) }
        ensures { let r = reference_of reference.now in (path : List ℕ) → IsOkAnd (held store.now r) (λ x. IsPlaceAt self.now x path place → option_map components_of result ≡ loaded_vec_at (can_read r.access && in_bytes store.now r) path x) }
    {
        if reference.access().is_read() {
            self.load_vec(store.bytes_from(reference)?, place)
        } else {
            None
        }
    }

    /// Puts the components there in what the reference names, and says whether it did: whether the reference may write,
    /// its cell is bytes, and a vector of as many numbers of their kind stands there. Else nothing is changed. No memory
    /// is taken. Each reference that was kept is kept, and the place of a part of what any of these names is the place of
    /// it still. The conditions: the reference is kept, as [`Store::holds`] tests, and the place is that of a part of what
    /// it names, as [`Places::place_in`] and [`Places::part`] make them.
    pub fn store_vec_in(
        &self,
        store: &mut Store,
        reference: &RefInstance,
        place: Place,
        components: &[LiteralInstance],
    ) -> bool
        requires kept { IsKept store.old (reference_of reference.now) }
        requires of { IsPlaceOf self.now store.old (reference_of reference.now) place }
        ensures answer { let r = reference_of reference.now in (path : List ℕ) → IsOkAnd (held store.old r) (λ x. IsPlaceAt self.now x path place → result ≡ (can_write r.access && (in_bytes store.old r && takes_vec_at path x (map literal_of components.now)))) }
        ensures put { let r = reference_of reference.now in OnTrue result ((path : List ℕ) → IsOkAnd (held store.old r) (λ x. IsPlaceAt self.now x path place → store.new ≡ put_cells store.old r (put_tree path (vector (vals_of (map literal_of components.now))) x))) }
        ensures same { OnFalse result (store.new ≡ store.old) }
        ensures sound { IsSound store.new }
        ensures kept { (r : Reference) → IsKept store.old r → IsKept store.new r }
        ensures places { (t : Ty) (r : Reference) (p : Place) → IsKept store.old r → IsPlaceOf t store.old r p → IsPlaceOf t store.new r p }
    {
        let _ = store.len();
        if !reference.access().is_write() {
            return false;
        }
        match row_width(place, components) {
            Some(width) => put_row(
                store,
                reference,
                place.at.offset as usize,
                width,
                components,
            ),
            None => false,
        }
    }
}

// How far apart the numbers stand there; `None` where no vector of as many numbers of their kind does.
fn row_width(place: Place, numbers: &[LiteralInstance]) -> Option<usize>
    ensures { result ≡ row_width place.at.kind place.at.count numbers.now }
{
    if !place.is_of_vector()
        || numbers.len() != place.at.count as usize
        || !are_of_kind(place.at.kind, numbers)
    {
        return None;
    }
    width_of(place.at.kind)
}

// Puts the numbers there in what the reference names, so far apart from there on, and says whether it did: whether the
// cell is bytes. Else nothing is changed. The conditions: the reference is kept and may write, and in what it names a
// vector of as many numbers of their kinds stands there, which ends below 2 ^ 64.
fn put_row(
    store: &mut Store,
    reference: &RefInstance,
    at: usize,
    width: usize,
    numbers: &[LiteralInstance],
) -> bool
    requires kept { IsKept store.old (reference_of reference.now) }
    requires may_write { can_write (reference_of reference.now).access ≡ true }
    requires there { IsOkAnd (held store.old (reference_of reference.now)) (λ x. HasRow x at width (map literal_of numbers.now)) }
    requires below { at + length numbers.now * width < 2 ^ 64 }
    ensures bytes { result ≡ in_bytes store.old (reference_of reference.now) }
    ensures put { let r = reference_of reference.now in OnTrue result ((path : List ℕ) → IsOkAnd (held store.old r) (λ x. IsRow x path at width (map literal_of numbers.now) → store.new ≡ put_cells store.old r (put_tree path (vector (vals_of (map literal_of numbers.now))) x))) }
    ensures same { OnFalse result (store.new ≡ store.old) }
    ensures sound { IsSound store.new }
    ensures kept { (r : Reference) → IsKept store.old r → IsKept store.new r }
    ensures layouts { KeepsLayouts store.old store.new }
{
    let _ = store.len();
    for (i, number) in numbers.iter().enumerate() {
        a_literal_may_be_stored(*number);
        if !store.put_number(reference, at + i * width, *number) {
            return false;
        }
    }
    true
}

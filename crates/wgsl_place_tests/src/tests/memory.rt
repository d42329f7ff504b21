//! Numbers in what references name are loaded and stored by places.

ghost use Rattle.wgsl_places.specs.Memory.{IsPlaceOf};
ghost use Rattle.wgsl_store.specs.Memory.{IsKept};
ghost use Rattle.wgsl_values.specs.View.{reference_of};

use crate::tests::asserts::{assert_same, assert_that};
use crate::tests::numbers::literal;
use crate::tests::samples::Step::{self, Index, Member};
use crate::tests::samples::{LEN, ROWS, scene, scene_places, stepped, view_of};
use std::alloc::Global;
use std::process::Abort;
use wgsl_places::{Place, Places};
use wgsl_rules::AccessMode::{self, Read, ReadWrite, Write};
use wgsl_rules::AddressSpace::Storage;
use wgsl_samples::atomics::flagged;
use wgsl_scalar::Error;
use wgsl_scalar::LiteralInstance::{self, I32, U32};
use wgsl_store::{References, Store};
use wgsl_values::{Instance, MemView, RefInstance};

/// A reference with this access to a new cell, which holds a `Scene` of zeros.
pub(crate) fn zeros(
    rt: &impl Abort,
    alloc: Global,
    store: &mut Store,
    access: AccessMode,
) -> RefInstance {
    let ty = scene(alloc).expect(rt, "no memory to make it");
    let made = store.new_from_bytes(alloc, ty, &[0; LEN], Storage, access);
    let made = made.expect(rt, "no memory to make it");
    made.expect(rt, "bytes of a value")
}

/// The bytes of what the reference names.
pub(crate) fn bytes_of(rt: &impl Abort, store: &Store, reference: &RefInstance) -> [u8; LEN] {
    assert!(rt; store.holds(reference));
    let bytes = store.bytes_of(reference).expect(rt, "a cell of bytes");
    let mut copied = [0; LEN];
    for (i, byte) in bytes.iter().enumerate() {
        if i < LEN {
            copied[i] = *byte;
        }
    }
    copied
}

/// The place at the end of these steps in what the reference names, found by a view.
pub(crate) fn place_at(
    rt: &impl Abort,
    alloc: Global,
    places: &Places,
    store: &Store,
    cell: &RefInstance,
    steps: &[Step],
) -> Option<Place> {
    assert!(rt; store.holds(cell));
    assert!(rt; places.are_of(cell));
    let view = view_of(rt, alloc, steps);
    let place = places.place_in(store, cell, &view);
    drop(view);
    place
}

/// Stores the number at the end of these steps in what the reference names, and says whether it did.
fn is_stored(
    rt: &impl Abort,
    alloc: Global,
    places: &Places,
    store: &mut Store,
    cell: &RefInstance,
    steps: &[Step],
    number: LiteralInstance,
) -> bool {
    assert!(rt; store.holds(cell));
    assert!(rt; places.are_of(cell));
    let view = view_of(rt, alloc, steps);
    let place = places.place_in(store, cell, &view).expect(rt, "a part");
    drop(view);
    places.store_in(store, cell, place, number)
}

/// The number that is loaded there.
fn loaded(
    rt: &impl Abort,
    alloc: Global,
    places: &Places,
    store: &Store,
    cell: &RefInstance,
    steps: &[Step],
) -> Option<LiteralInstance> {
    let place = place_at(rt, alloc, places, store, cell, steps).expect(rt, "a part");
    assert!(rt; store.holds(cell));
    places.load_in(store, cell, place)
}

#[test]
fn each_number_of_a_cell_is_found_stored_and_loaded(rt: HostRuntime) {
    let alloc = rt.alloc();
    let places = scene_places(&rt, alloc);
    let mut store = Store::new(alloc);
    for row in ROWS {
        let cell = zeros(&rt, alloc, &mut store, ReadWrite);
        let place = place_at(&rt, alloc, &places, &store, &cell, row.steps);
        assert_same(&rt, place, Some(stepped(&rt, &places, row.steps)));
        let number = literal(&rt, row.kind, 0xfedc_ba98_7654_3210);
        let stored = is_stored(&rt, alloc, &places, &mut store, &cell, row.steps, number);
        assert!(rt; stored, "at {}", row.start);
        let mut wanted = [0; LEN];
        wanted[row.start..row.start + 4].copy_from_slice(&[0x10, 0x32, 0x54, 0x76]);
        if row.kind == "i64" || row.kind == "u64" {
            wanted[row.start + 4..row.start + 8].copy_from_slice(&[0x98, 0xba, 0xdc, 0xfe]);
        }
        assert_eq!(rt; bytes_of(&rt, &store, &cell), wanted, "at {}", row.start);
        assert_eq!(rt;
            loaded(&rt, alloc, &places, &store, &cell, row.steps),
            Some(number)
        );
        drop(cell);
    }
    drop((places, store));
}

#[test]
fn a_number_of_another_kind_is_not_stored(rt: HostRuntime) {
    let alloc = rt.alloc();
    let places = scene_places(&rt, alloc);
    let mut store = Store::new(alloc);
    let cell = zeros(&rt, alloc, &mut store, ReadWrite);
    let number = [Member("a", 0)];
    assert_that(
        &rt,
        !is_stored(&rt, alloc, &places, &mut store, &cell, &number, I32(1)),
    );
    assert_that(
        &rt,
        !is_stored(&rt, alloc, &places, &mut store, &cell, &[], U32(1)),
    );
    assert_same(&rt, loaded(&rt, alloc, &places, &store, &cell, &[]), None);
    assert_same(&rt, bytes_of(&rt, &store, &cell), [0; LEN]);
    drop((places, store, cell));
}

#[test]
fn leave_to_read_and_to_write_is_asked(rt: HostRuntime) {
    let alloc = rt.alloc();
    let places = scene_places(&rt, alloc);
    let mut store = Store::new(alloc);
    let number = [Member("a", 0)];
    let written = zeros(&rt, alloc, &mut store, Write);
    assert_that(
        &rt,
        is_stored(&rt, alloc, &places, &mut store, &written, &number, U32(7)),
    );
    assert_eq!(rt;
        loaded(&rt, alloc, &places, &store, &written, &number),
        None
    );
    assert_same(&rt, bytes_of(&rt, &store, &written)[0], 7);
    let read = zeros(&rt, alloc, &mut store, Read);
    assert_that(
        &rt,
        !is_stored(&rt, alloc, &places, &mut store, &read, &number, U32(7)),
    );
    assert_eq!(rt;
        loaded(&rt, alloc, &places, &store, &read, &number),
        Some(U32(0))
    );
    drop((places, store, written, read));
}

/// Stores one number in each of two cells, whose places were found before.
fn store_both(
    places: &Places,
    store: &mut Store,
    cells: (&RefInstance, &RefInstance),
    found: (Place, Place),
    number: LiteralInstance,
) -> bool
    requires one { IsKept store.old (reference_of cells.0.now) }
    requires other { IsKept store.old (reference_of cells.1.now) }
    requires here { IsPlaceOf places.now store.old (reference_of cells.0.now) found.0 }
    requires there { IsPlaceOf places.now store.old (reference_of cells.1.now) found.1 }
{
    places.store_in(store, cells.0, found.0, number)
        && places.store_in(store, cells.1, found.1, number)
}

/// The place of the first member of a `Scene` that the reference names.
fn first_member(rt: &impl Abort, places: &Places, store: &Store, cell: &RefInstance) -> Place
    requires { IsKept store.now (reference_of cell.now) }
    ensures { IsPlaceOf places.now store.now (reference_of cell.now) result }
{
    assert!(rt; places.are_of(cell));
    let whole = places
        .place_in(store, cell, &MemView::Whole)
        .expect(rt, "the whole");
    places.part(whole, 0).expect(rt, "a member")
}

#[test]
fn a_place_stays_while_another_cell_is_written(rt: HostRuntime) {
    let alloc = rt.alloc();
    let places = scene_places(&rt, alloc);
    let mut store = Store::new(alloc);
    let one = zeros(&rt, alloc, &mut store, ReadWrite);
    let other = zeros(&rt, alloc, &mut store, ReadWrite);
    assert!(rt; store.holds(&one));
    assert!(rt; store.holds(&other));
    let here = first_member(&rt, &places, &store, &one);
    let there = first_member(&rt, &places, &store, &other);
    assert_that(
        &rt,
        store_both(&places, &mut store, (&one, &other), (here, there), U32(7)),
    );
    assert_same(&rt, bytes_of(&rt, &store, &one)[0], 7);
    assert_same(&rt, bytes_of(&rt, &store, &other)[0], 7);
    drop((places, store, one, other));
}

/// struct { flag: bool, totals: array<atomic<i32>, 2> }, which has no layout, and a reference to its second member.
fn tree(rt: &impl Abort, alloc: Global, store: &mut Store) -> RefInstance {
    let made = flagged(alloc, 3, &[1, 2]).expect(rt, "no memory to make it");
    let value = made.expect(rt, "a value");
    assert!(rt; value.is_storable());
    assert!(rt; store.holds_value(&value));
    let made: Result<RefInstance, _> = References::new(alloc, store, value, Storage, ReadWrite);
    let cell = made.ok().expect(rt, "no memory to make it");
    assert!(rt; store.holds(&cell));
    let name = String::from_str(alloc, "totals").expect(rt, "no memory to make it");
    let part = cell.view_member(alloc, store, name);
    drop(cell);
    part.ok().expect(rt, "a member")
}

#[test]
fn a_cell_that_is_no_bytes_has_no_places(rt: HostRuntime) {
    let alloc = rt.alloc();
    let mut store = Store::new(alloc);
    let part = tree(&rt, alloc, &mut store);
    assert!(rt; store.holds(&part));
    let places = Places::of(alloc, part.target_ty()).expect(&rt, "no memory to make it");
    let places = places.expect(&rt, "a layout");
    assert_that(
        &rt,
        place_at(&rt, alloc, &places, &store, &part, &[]).is_none(),
    );
    let whole = places.place(8, &MemView::Whole).expect(&rt, "the whole");
    let first = places.part(whole, 0).expect(&rt, "an element");
    assert_same(&rt, places.load_in(&store, &part, first), None);
    assert_same(&rt, places.load_vec_in(&store, &part, first), None);
    assert_that(&rt, store.bytes_of(&part).is_none());
    assert_that(&rt, store.bytes_from(&part).is_none());
    drop((places, store, part));
}

#[test]
fn a_view_that_leads_nowhere_has_no_place(rt: HostRuntime) {
    let alloc = rt.alloc();
    let places = scene_places(&rt, alloc);
    let mut store = Store::new(alloc);
    let cell = zeros(&rt, alloc, &mut store, ReadWrite);
    let steps = [Member("tail", 5), Index(3)];
    assert_that(
        &rt,
        place_at(&rt, alloc, &places, &store, &cell, &steps).is_none(),
    );
    drop((places, store, cell));
}

/// Puts a number in the place of another in a new cell, and gives a reference to it; `None` where it was not put.
fn put_in_new(
    alloc: Global,
    store: &mut Store,
    number: u32,
    other: u32,
) -> Result<Option<RefInstance>, Error> {
    let cell: RefInstance = References::new(
        alloc,
        store,
        Instance::from(other),
        Storage,
        ReadWrite,
    )?;
    let is_put = store.put_number(&cell, 0, U32(number));
    Ok(if is_put { Some(cell) } else { None })
}

#[test]
fn numbers_of_a_cell_are_found_loaded_and_stored_without_memory(rt: HostRuntime) {
    let alloc = rt.alloc();
    let places = scene_places(&rt, alloc);
    let mut store = Store::new(alloc);
    let number = put_in_new(alloc, &mut store, 8, 7)
        .ok()
        .expect(&rt, "no memory to make it");
    let number = number.expect(&rt, "a cell of bytes");
    assert!(rt; store.holds(&number));
    assert_eq!(rt;
        store.bytes_from(&number).expect(&rt, "bytes"),
        [8, 0, 0, 0].as_slice()
    );
    let cell = zeros(&rt, alloc, &mut store, ReadWrite);
    let steps = [Member("tail", 5), Index(2)];
    assert_that(
        &rt,
        is_stored(&rt, alloc, &places, &mut store, &cell, &steps, U32(7)),
    );
    assert_eq!(rt;
        loaded(&rt, alloc, &places, &store, &cell, &steps),
        Some(U32(7))
    );
    assert_same(&rt, bytes_of(&rt, &store, &cell)[108], 7);
    drop((places, store, number, cell));
}

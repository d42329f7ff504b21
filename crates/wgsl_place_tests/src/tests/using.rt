//! The snippets of `docs/USING.md` on places.

use std::process::Abort;
use std::sync::Arc;
use std::test::Fail;
use wgsl_places::{Components, Places};
use wgsl_rules::AccessMode::ReadWrite;
use wgsl_rules::AddressSpace::Storage;
use wgsl_rules::Type;
use wgsl_scalar::LiteralInstance::U32;
use wgsl_store::{Layout, Store};
use wgsl_values::MemView;

#[test]
fn numbers_are_doubled_in_bytes_of_the_callers(rt: HostRuntime) -> Result<(), Fail> {
    let alloc = rt.alloc();
    let words = Type::Array(Box::new(alloc, Type::U32)?, None);
    let places = Places::of(alloc, &words)?.ok_or("a type without a layout")?;
    let mut bytes = [1, 0, 0, 0, 2, 0, 0, 0, 3, 0, 0, 0];
    let whole = places.place(bytes.len(), &MemView::Whole);
    let whole = whole.ok().ok_or("too few bytes")?;
    for i in 0..3 {
        let word = places.part(whole, i).ok_or("past the last")?;
        if let Some(U32(n)) = places.load(&bytes, word) {
            assert!(rt; places.store(&mut bytes, word, U32(n.wrapping_mul(2))));
        }
    }
    assert_eq!(rt; bytes, [2, 0, 0, 0, 4, 0, 0, 0, 6, 0, 0, 0]);
    Ok(())
}

#[test]
fn a_vector_is_turned_round_in_bytes_of_the_callers(rt: HostRuntime) -> Result<(), Fail> {
    let alloc = rt.alloc();
    let point = Type::Vec(3, Box::new(alloc, Type::U32)?);
    let points = Type::Array(Box::new(alloc, point)?, None);
    let places = Places::of(alloc, &points)?.ok_or("a type without a layout")?;
    let mut bytes = [1, 0, 0, 0, 2, 0, 0, 0, 3, 0, 0, 0, 9, 9, 9, 9];
    let whole = places.place(bytes.len(), &MemView::Whole);
    let whole = whole.ok().ok_or("too few bytes")?;
    let first = places.part(whole, 0).ok_or("past the last")?;
    if let Some(Components::Three(point)) = places.load_vec(&bytes, first) {
        let [x, y, z] = point;
        assert!(rt; places.store_vec(&mut bytes, first, &[z, y, x]));
    }
    assert_eq!(rt; bytes, [3, 0, 0, 0, 2, 0, 0, 0, 1, 0, 0, 0, 9, 9, 9, 9]);
    Ok(())
}

#[test]
fn a_number_is_doubled_in_a_shaders_memory(rt: HostRuntime) -> Result<(), Fail> {
    let alloc = rt.alloc();
    let words = Type::Array(Box::new(alloc, Type::U32)?, None);
    let places = Places::of(alloc, &words)?.ok_or("a type without a layout")?;
    let mut store = Store::new(alloc);
    let bytes = [1, 0, 0, 0, 2, 0, 0, 0, 3, 0, 0, 0];
    let made = store.new_from_bytes(alloc, words, &bytes, Storage, ReadWrite)?;
    let cell = made.ok_or("bytes of no value")?;
    assert!(rt; store.holds(&cell));
    assert!(rt; places.are_of(&cell));
    let Some(whole) = places.place_in(&store, &cell, &MemView::Whole) else {
        rt.abort()
    };
    let Some(last) = places.part(whole, 2) else {
        rt.abort()
    };
    if let Some(U32(n)) = places.load_in(&store, &cell, last) {
        assert!(rt; places.store_in(&mut store, &cell, last, U32(n.wrapping_mul(2))));
    }
    assert!(rt; store.holds(&cell));
    assert_eq!(rt; places.load_in(&store, &cell, last), Some(U32(6)));
    Ok(())
}

#[test]
fn cells_of_one_type_share_its_layout(rt: HostRuntime) -> Result<(), Fail> {
    let alloc = rt.alloc();
    let words = Type::Array(Box::new(alloc, Type::U32)?, None);
    let layout = Layout::of(alloc, &words)?.ok_or("a type without a layout")?;
    let layout = Arc::new(alloc, layout)?;
    let mut store = Store::new(alloc);
    for bytes in [[1, 0, 0, 0], [2, 0, 0, 0]] {
        let ty = words.clone(alloc)?;
        let made = store.new_sharing(alloc, ty, Some(&layout), &bytes, Storage, ReadWrite)?;
        let cell = made.ok_or("bytes of no value")?;
        assert!(rt; store.holds(&cell));
        assert_eq!(rt; store.bytes_of(&cell), Some(bytes.as_slice()));
    }
    assert_eq!(rt; store.len(), 2);
    Ok(())
}

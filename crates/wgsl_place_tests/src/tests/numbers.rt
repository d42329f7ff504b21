//! Numbers are found by views and step by step, and are loaded and stored where they stand.

use crate::tests::asserts::assert_same;
use crate::tests::samples::{LEN, ROWS, Row, place_of, scene_places, stepped};
use std::process::Abort;
use wgsl_scalar::LiteralInstance;

/// The number that the bytes are, reckoned byte by byte.
fn reckoned(rt: &impl Abort, bytes: &[u8], row: &Row) -> LiteralInstance {
    let width = if row.kind == "i64" || row.kind == "u64" {
        8
    } else {
        4
    };
    let end = row.start.saturating_add(width);
    let own = bytes.get(row.start..end).expect(rt, "bytes of a row");
    let mut number = 0u64;
    for byte in own.iter().rev() {
        number = number << 8 | u64::from(*byte);
    }
    literal(rt, row.kind, number)
}

/// The literal of the kind with these bits, the lower ones where it has fewer.
pub(super) fn literal(rt: &impl Abort, kind: &str, bits: u64) -> LiteralInstance {
    let word = (bits % 0x1_0000_0000) as u32;
    match kind {
        "i32" => LiteralInstance::I32(word.cast_signed()),
        "u32" => LiteralInstance::U32(word),
        "i64" => LiteralInstance::I64(bits.cast_signed()),
        "u64" => LiteralInstance::U64(bits),
        _ => rt.abort(),
    }
}

/// Bytes that differ from each other, some of which are of negative numbers.
fn sample_bytes() -> [u8; LEN] {
    let mut bytes = [0; LEN];
    for i in 0..LEN {
        bytes[i] = (i as u8).wrapping_mul(151).wrapping_add(200);
    }
    bytes
}

#[test]
fn each_number_is_found_and_loaded(rt: HostRuntime) {
    let alloc = rt.alloc();
    let places = scene_places(&rt, alloc);
    let bytes = sample_bytes();
    for row in ROWS {
        let place = place_of(&rt, alloc, &places, row.steps);
        assert_same(&rt, place, stepped(&rt, &places, row.steps));
        assert_same(&rt, place.start(), row.start);
        let wanted = reckoned(&rt, &bytes, row);
        assert_eq!(rt;
            places.load(&bytes, place),
            Some(wanted),
            "at {}",
            row.start
        );
    }
    drop(places);
}

#[test]
fn each_number_is_stored_in_its_own_bytes(rt: HostRuntime) {
    let alloc = rt.alloc();
    let places = scene_places(&rt, alloc);
    for row in ROWS {
        let place = stepped(&rt, &places, row.steps);
        let mut bytes = [0x55; LEN];
        let number = literal(&rt, row.kind, 0xfedc_ba98_7654_3210);
        assert!(rt; places.store(&mut bytes, place, number), "at {}", row.start);
        let mut wanted = [0x55; LEN];
        wanted[row.start..row.start + 4].copy_from_slice(&[0x10, 0x32, 0x54, 0x76]);
        if row.kind == "i64" || row.kind == "u64" {
            wanted[row.start + 4..row.start + 8].copy_from_slice(&[0x98, 0xba, 0xdc, 0xfe]);
        }
        assert_eq!(rt; bytes, wanted, "at {}", row.start);
        assert_same(&rt, places.load(&bytes, place), Some(number));
    }
    drop(places);
}

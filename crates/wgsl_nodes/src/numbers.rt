//! Numbers in bytes, the lowest byte first (WGSL: internal layout of values).

ghost use Rattle.std.specs.Prelude.{
  ◌≡◌,
  ◌+◌,
  ◌*◌,
  ◌≤◌,
  IsTrue,
  is_some,
  length,
  nat_le,
  unwrap_or,
};
ghost use Rattle.std.specs.Int.{bytes_low_first};
ghost use Rattle.std.specs.List.{list_all};
ghost use Rattle.wgsl_nodes.specs.Numbers.{
  fits_in,
  is_row,
  is_row_in,
  is_width,
  loaded,
  loaded_row,
  number_at,
  number_in,
  numbers_at,
  overwritten,
  stored,
  stored_in,
  stored_row,
  written_row,
  width_of,
};

use crate::places::Place;

/// The bits of the number at the place, filled up with zeros: of a float its IEEE bits, of a negative integer its two's
/// complement. `None` where the place is none of one number, or its bytes do not lie in these.
#[inline]
pub fn load(bytes: &[u8], place: Place) -> Option<u64>
    ensures { result ≡ loaded bytes.now place }
{
    if place.count != 1 {
        return None;
    }
    read(bytes, place.offset as usize, width_of(place.kind))
}

/// Writes the bits to the number at the place; every other byte stays. False, and nothing changed, where [`load`] is
/// `None` or the number has fewer bits than that.
#[inline]
pub fn store(bytes: &mut [u8], place: Place, bits: u64) -> bool
    ensures answer { result ≡ is_some (stored bytes.old place bits) }
    ensures bytes { bytes.new ≡ unwrap_or (stored bytes.old place bits) bytes.old }
{
    if place.count != 1 {
        return false;
    }
    write(bytes, place.offset as usize, width_of(place.kind), bits)
}

/// Reads the numbers of the vector at the place, as [`load`] reads one. False, and nothing changed, where the place is
/// none of as many numbers as `out` has, 2 to 4, or their bytes do not lie in these.
#[inline]
pub fn load_vec(bytes: &[u8], place: Place, out: &mut [u64]) -> bool
    ensures answer { result ≡ is_some (loaded_row bytes.now place (length out.old)) }
    ensures numbers { out.new ≡ unwrap_or (loaded_row bytes.now place (length out.old)) out.old }
{
    if !is_row_in(bytes.len(), place, out.len()) {
        return false;
    }
    read_row(bytes, place.offset as usize, width_of(place.kind), out);
    true
}

/// Writes the numbers to the vector at the place, as [`store`] writes one; every other byte stays. False, and nothing
/// changed, where the place is none of as many numbers, 2 to 4, their bytes do not lie in these, or one of them has too
/// many bits.
#[inline]
pub fn store_vec(bytes: &mut [u8], place: Place, numbers: &[u64]) -> bool
    ensures answer { result ≡ is_some (stored_row bytes.old place numbers.now) }
    ensures bytes { bytes.new ≡ unwrap_or (stored_row bytes.old place numbers.now) bytes.old }
{
    let width = width_of(place.kind);
    if !is_row_in(bytes.len(), place, numbers.len()) || !fit_in(width, numbers) {
        return false;
    }
    write_row(bytes, place.offset as usize, width, numbers);
    true
}

// How many bytes a number of the kind has; 0 of what is no kind.
#[inline]
pub(crate) fn width_of(kind: u32) -> usize
    ensures { result ≡ width_of kind }
{
    match kind {
        1 | 2 | 3 | 257 | 258 => 4,
        5 | 6 | 7 => 8,
        4 => 2,
        _ => 0,
    }
}

// Whether so many bytes lie there among `len`.
#[inline]
fn is_inside(len: usize, at: usize, count: usize) -> bool
    ensures { result ≡ nat_le (at + count) len }
{
    count <= len && at <= len - count
}

// Whether the place is one of so many numbers, 2 to 4, which lie in `len` bytes.
#[inline]
fn is_row_in(len: usize, place: Place, count: usize) -> bool
    ensures { result ≡ is_row_in len place count }
{
    let width = width_of(place.kind);
    is_row(place.count, count, width) && is_inside(len, place.offset as usize, count * width)
}

#[inline]
fn is_row(there: u32, count: usize, width: usize) -> bool
    ensures { result ≡ is_row there count width }
{
    2 <= count && count <= 4 && there as usize == count && is_width(width)
}

// Whether each of the numbers has so many bytes.
#[inline]
fn fit_in(width: usize, numbers: &[u64]) -> bool
    ensures { result ≡ list_all (fits_in width) numbers.now }
{
    numbers.iter().all(|bits| fits_in(width, *bits))
}

// Reads the numbers side by side from there on.
#[inline]
fn read_row(bytes: &[u8], at: usize, width: usize, out: &mut [u64])
    requires width { IsTrue (is_width width) }
    requires inside { at + length out.old * width ≤ length bytes.now }
    ensures { out.new ≡ numbers_at bytes.now at width (length out.old) }
{
    for i in 0..out.len() {
        out[i] = number_at(bytes, at + i * width, width);
    }
}

// Writes the numbers side by side from there on.
#[inline]
fn write_row(bytes: &mut [u8], at: usize, width: usize, numbers: &[u64])
    requires width { IsTrue (is_width width) }
    requires inside { at + length numbers.now * width ≤ length bytes.old }
    requires fit { IsTrue (list_all (fits_in width) numbers.now) }
    ensures { bytes.new ≡ written_row bytes.old at width numbers.now }
{
    for (i, bits) in numbers.iter().enumerate() {
        put_number(bytes, at + i * width, width, *bits);
    }
}

#[inline]
pub(crate) fn is_width(width: usize) -> bool
    ensures { result ≡ is_width width }
{
    width == 2 || width == 4 || width == 8
}

// Whether the bits are those of a number of so many bytes.
#[inline]
fn fits_in(width: usize, bits: u64) -> bool
    ensures { result ≡ fits_in width bits }
{
    match width {
        2 => bits < 0x1_0000,
        4 => bits < 0x1_0000_0000,
        _ => true,
    }
}

#[inline]
fn read(bytes: &[u8], at: usize, width: usize) -> Option<u64>
    ensures { result ≡ number_in bytes.now at width }
{
    // For each width alone, so that it is told apart once.
    match width {
        4 if is_inside(bytes.len(), at, 4) => Some(number_at(bytes, at, 4)),
        8 if is_inside(bytes.len(), at, 8) => Some(number_at(bytes, at, 8)),
        2 if is_inside(bytes.len(), at, 2) => Some(number_at(bytes, at, 2)),
        _ => None,
    }
}

#[inline]
fn write(bytes: &mut [u8], at: usize, width: usize, bits: u64) -> bool
    ensures answer { result ≡ is_some (stored_in bytes.old at width bits) }
    ensures bytes { bytes.new ≡ unwrap_or (stored_in bytes.old at width bits) bytes.old }
{
    match width {
        4 if is_inside(bytes.len(), at, 4) && fits_in(4, bits) => put_number(bytes, at, 4, bits),
        8 if is_inside(bytes.len(), at, 8) => put_number(bytes, at, 8, bits),
        2 if is_inside(bytes.len(), at, 2) && fits_in(2, bits) => put_number(bytes, at, 2, bits),
        _ => return false,
    }
    true
}

// The number of so many bytes that stands there.
#[inline]
fn number_at(bytes: &[u8], at: usize, width: usize) -> u64
    requires width { IsTrue (is_width width) }
    requires inside { at + width ≤ length bytes.now }
    ensures { result ≡ number_at bytes.now at width }
{
    match width {
        2 => u64::from(u16_at(bytes, at)),
        4 => u64::from(u32_at(bytes, at)),
        _ => u64_at(bytes, at),
    }
}

#[inline]
fn u16_at(bytes: &[u8], at: usize) -> u16
    requires { at + 2 ≤ length bytes.now }
    ensures { result ≡ number_at bytes.now at 2 }
{
    u16::from_le_bytes([bytes[at], bytes[at + 1]])
}

#[inline]
fn u32_at(bytes: &[u8], at: usize) -> u32
    requires { at + 4 ≤ length bytes.now }
    ensures { result ≡ number_at bytes.now at 4 }
{
    u32::from_le_bytes([bytes[at], bytes[at + 1], bytes[at + 2], bytes[at + 3]])
}

#[inline]
fn u64_at(bytes: &[u8], at: usize) -> u64
    requires { at + 8 ≤ length bytes.now }
    ensures { result ≡ number_at bytes.now at 8 }
{
    u64::from_le_bytes([
        bytes[at],
        bytes[at + 1],
        bytes[at + 2],
        bytes[at + 3],
        bytes[at + 4],
        bytes[at + 5],
        bytes[at + 6],
        bytes[at + 7],
    ])
}

// The number in so many bytes there.
#[inline]
fn put_number(bytes: &mut [u8], at: usize, width: usize, bits: u64)
    requires width { IsTrue (is_width width) }
    requires inside { at + width ≤ length bytes.old }
    requires fits { IsTrue (fits_in width bits) }
    ensures { bytes.new ≡ overwritten bytes.old at (bytes_low_first 0 width bits) }
{
    match width {
        2 => bytes[at..at + 2].copy_from_slice(&(bits as u16).to_le_bytes()),
        4 => bytes[at..at + 4].copy_from_slice(&(bits as u32).to_le_bytes()),
        _ => bytes[at..at + 8].copy_from_slice(&bits.to_le_bytes()),
    }
}

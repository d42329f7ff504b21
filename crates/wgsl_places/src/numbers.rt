//! Numbers in bytes, by their kinds as the records of a table have them (WGSL: internal layout of values).

ghost use Rattle.std.specs.Prelude.{◌≡◌, ◌+◌, ◌≤◌, is_some, length, nat_le, option_map};
ghost use Rattle.std.specs.Option.{unwrap_or};
ghost use Rattle.wgsl_places.specs.Numbers.{
  bytes_at,
  loaded_kind,
  number_put,
  stored_kind,
  width_of,
  width_with,
};
ghost use Rattle.wgsl_scalar.specs.Literals.{literal_of};
ghost use Rattle.wgsl_layout.specs.Plan.{scalar};
ghost use Rattle.wgsl_layout.specs.Walk.{Stands};

use wgsl_scalar::LiteralInstance;

/// The number of the kind that stands there; `None` where it is no kind that has a layout, or does not lie in the bytes.
pub(crate) fn load_number(bytes: &[u8], at: usize, kind: u32) -> Option<LiteralInstance>
    ensures { option_map literal_of result ≡ loaded_kind bytes.now at kind }
{
    match kind {
        1 | 257 => Some(LiteralInstance::I32(u32_at(bytes, at)?.cast_signed())),
        2 | 258 => Some(LiteralInstance::U32(u32_at(bytes, at)?)),
        5 => Some(LiteralInstance::I64(u64_at(bytes, at)?.cast_signed())),
        6 => Some(LiteralInstance::U64(u64_at(bytes, at)?)),
        _ => None,
    }
}

/// Puts a number there, where it is of the kind and lies in the bytes, and says whether it did.
pub(crate) fn store_number(bytes: &mut [u8], at: usize, kind: u32, number: LiteralInstance) -> bool
    ensures answer { result ≡ is_some (stored_kind bytes.old at kind (literal_of number)) }
    ensures bytes { bytes.new ≡ unwrap_or (stored_kind bytes.old at kind (literal_of number)) bytes.old }
{
    match width_with(kind, number) {
        Some(width) => {
            let is_inside = is_inside(bytes.len(), at, width);
            if is_inside {
                put(bytes, at, number);
            }
            is_inside
        }
        None => false,
    }
}

/// How many bytes a number of the kind takes; `None` where it is no kind that has a layout.
pub(crate) fn width_of(kind: u32) -> Option<usize>
    ensures { result ≡ width_of kind }
{
    match kind {
        1 | 2 | 257 | 258 => Some(4),
        5 | 6 => Some(8),
        _ => None,
    }
}

/// How many bytes the number takes; `None` where it is of another kind.
pub(crate) fn width_with(kind: u32, number: LiteralInstance) -> Option<usize>
    ensures { result ≡ width_with kind (literal_of number) }
{
    match (number, kind) {
        (LiteralInstance::I32(_), 1 | 257) => Some(4),
        (LiteralInstance::U32(_), 2 | 258) => Some(4),
        (LiteralInstance::I64(_), 5) => Some(8),
        (LiteralInstance::U64(_), 6) => Some(8),
        _ => None,
    }
}

/// Whether so many bytes from there on lie in bytes of this length.
pub(crate) fn is_inside(len: usize, at: usize, width: usize) -> bool
    ensures { result ≡ nat_le (at + width) len }
{
    at <= len && width <= len - at
}

// The number in the four bytes, the lowest byte first.
fn u32_at(bytes: &[u8], at: usize) -> Option<u32>
    ensures { result ≡ bytes_at bytes.now at 4 }
{
    if !is_inside(bytes.len(), at, 4) {
        return None;
    }
    Some(u32::from_le_bytes([bytes[at], bytes[at + 1], bytes[at + 2], bytes[at + 3]]))
}

// The number in the eight bytes, the lowest byte first.
fn u64_at(bytes: &[u8], at: usize) -> Option<u64>
    ensures { result ≡ bytes_at bytes.now at 8 }
{
    if !is_inside(bytes.len(), at, 8) {
        return None;
    }
    Some(u64::from_le_bytes([
        bytes[at],
        bytes[at + 1],
        bytes[at + 2],
        bytes[at + 3],
        bytes[at + 4],
        bytes[at + 5],
        bytes[at + 6],
        bytes[at + 7],
    ]))
}

/// Puts the bytes of the number there, the lowest first. The condition: it is of a kind that has a layout, and lies
/// inside.
pub(crate) fn put(bytes: &mut [u8], at: usize, number: LiteralInstance)
    requires { Stands (literal_of number) scalar at (length bytes.old) }
    ensures { bytes.new ≡ number_put bytes.old at (literal_of number) }
{
    match number {
        LiteralInstance::I32(n) => bytes[at..at + 4].copy_from_slice(&n.to_le_bytes()),
        LiteralInstance::U32(n) => bytes[at..at + 4].copy_from_slice(&n.to_le_bytes()),
        LiteralInstance::I64(n) => bytes[at..at + 8].copy_from_slice(&n.to_le_bytes()),
        LiteralInstance::U64(n) => bytes[at..at + 8].copy_from_slice(&n.to_le_bytes()),
        LiteralInstance::Bool(_) | LiteralInstance::AbstractInt(_) => unreachable!(),
    }
}

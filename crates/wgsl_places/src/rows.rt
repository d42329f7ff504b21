//! Numbers of one kind side by side in bytes, as the components of a vector stand (WGSL: internal layout of values).

ghost use Rattle.std.specs.Prelude.{
  ◌≡◌,
  ◌≤◌,
  is_some,
  length,
  map,
  option_map,
};
ghost use Rattle.std.specs.List.{list_all};
ghost use Rattle.std.specs.Option.{unwrap_or};
ghost use Rattle.wgsl_places.specs.Components.{components_of};
ghost use Rattle.wgsl_places.specs.Numbers.{
  is_of_kind,
  loaded_row,
  stored_row,
  width_of,
};
ghost use Rattle.wgsl_scalar.specs.Literals.{literal_of};
ghost use Rattle.wgsl_layout.specs.Plan.{scalar};
ghost use Rattle.wgsl_layout.specs.Walk.{StandInRow, put_row};
ghost use Rattle.wgsl_values.specs.View.{vals_of};

use crate::components::Components;
use crate::numbers::{is_inside, load_number, put, width_of, width_with};
use wgsl_scalar::LiteralInstance;

/// So many numbers of the kind, from there on; `None` where it is no kind that has a layout, or they do not all lie in
/// the bytes. The condition: they are as many as a vector has.
pub(crate) fn load_row(bytes: &[u8], at: usize, kind: u32, count: u32) -> Option<Components>
    requires { (2 ≤ count) × (count ≤ 4) }
    ensures { option_map components_of result ≡ loaded_row bytes.now at kind count }
{
    let width = width_of(kind)?;
    let x = load_number(bytes, at, kind)?;
    let y = load_number(bytes, at + width, kind)?;
    if count == 2 {
        return Some(Components::Two([x, y]));
    }
    let z = load_number(bytes, at + 2 * width, kind)?;
    if count == 3 {
        return Some(Components::Three([x, y, z]));
    }
    let w = load_number(bytes, at + 3 * width, kind)?;
    Some(Components::Four([x, y, z, w]))
}

/// Puts the numbers from there on, where each is of the kind and lies in the bytes, and says whether it did. The
/// condition: they are as many as a vector has.
pub(crate) fn store_row(bytes: &mut [u8], at: usize, kind: u32, numbers: &[LiteralInstance]) -> bool
    requires { (2 ≤ length numbers.now) × (length numbers.now ≤ 4) }
    ensures answer { result ≡ is_some (stored_row bytes.old at kind (map literal_of numbers.now)) }
    ensures bytes { bytes.new ≡ unwrap_or (stored_row bytes.old at kind (map literal_of numbers.now)) bytes.old }
{
    let Some(width) = width_of(kind) else {
        return false;
    };
    if !are_of_kind(kind, numbers) || !is_inside(bytes.len(), at, numbers.len() * width) {
        return false;
    }
    put_row(bytes, at, width, numbers);
    true
}

/// Whether each of the numbers is of the kind.
pub(crate) fn are_of_kind(kind: u32, numbers: &[LiteralInstance]) -> bool
    ensures { result ≡ list_all (λ n. is_of_kind kind (literal_of n)) numbers.now }
{
    numbers.iter().all(|number| is_of_kind(kind, *number))
}

fn is_of_kind(kind: u32, number: LiteralInstance) -> bool
    ensures { result ≡ is_of_kind kind (literal_of number) }
{
    width_with(kind, number).is_some()
}

// Puts the bytes of the numbers so far apart from there on. The condition: each is of a kind that has a layout, and lies
// inside.
fn put_row(bytes: &mut [u8], at: usize, width: usize, numbers: &[LiteralInstance])
    requires { StandInRow (vals_of (map literal_of numbers.now)) width scalar at (length bytes.old) }
    ensures { bytes.new ≡ put_row (vals_of (map literal_of numbers.now)) width scalar at bytes.old }
{
    for (i, number) in numbers.iter().enumerate() {
        put(bytes, at + i * width, *number);
    }
}

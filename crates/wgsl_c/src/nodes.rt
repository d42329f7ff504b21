//! Layouts as records, and what is found, read and written with them. But for the first call none takes memory.

ghost use Rattle.std.specs.Prelude.{
  ◌≡◌,
  ◌≤◌,
  ◌<◌,
  ◌-◌,
  ◌^◌,
  ◌↔◌,
  IsTrue,
  IfOk,
  List,
  MatchOption,
  None,
  ⊤,
  ℕ,
  is_some,
  length,
  option_and_then,
  slice_get,
  unwrap_or,
};
ghost use Rattle.std.specs.Str.{IsUtf8};
ghost use Rattle.wgsl_rules.specs.Layout.{count_in, layout_len};
ghost use Rattle.wgsl_rules.specs.Types.{Ty};
ghost use Rattle.wgsl_nodes.specs.HostTypes.{has_nodes};
ghost use Rattle.wgsl_nodes.specs.Lengths.{count_of_node, length_of_node};
ghost use Rattle.wgsl_nodes.specs.Nodes.{IsNodeOf};
ghost use Rattle.wgsl_nodes.specs.Numbers.{loaded, loaded_row, stored, stored_row};
ghost use Rattle.wgsl_nodes.specs.Paths.{behind_name};
ghost use Rattle.wgsl_nodes.specs.Places.{IsPlaceOf, part_in, part_of, place_in, placed};
ghost use Rattle.wgsl_nodes.specs.Tables.{IsTable};
ghost use Rattle.wgsl_c.specs.Answers.{IsAnswer, misuse};
ghost use Rattle.wgsl_c.specs.Records.{
  AreCompared,
  AreRecords,
  IsFoundAlong,
  IsFoundAt,
  IsLengthOf,
  IsTableOf,
  LeadsTo,
  number_or_none,
  place_or_nowhere,
};

use crate::answer::{Answer, Refusal, Stop, given};
use crate::asked::{settings_of, text_of, values_in};
use std::alloc::Global;
use wgsl_nodes::{Difference, Node, Place};
use wgsl_report::{Records, records_of};

/// A number, where there is one (`wgsl_number`).
#[repr(C)]
#[derive(Clone, Copy, Debug, PartialEq, Eq)]
pub struct Number {
    /// Its bits; 0 where there is none.
    pub bits: u64,
    /// 1 where there is one, else 0.
    pub is_there: u32,
    /// 0.
    pub spare: u32,
}

/// The record of what is nowhere.
pub const NOWHERE: u32 = 0xFFFF_FFFF;

/// The records of a type.
#[unsafe(no_mangle)]
pub extern "C" fn wgsl_layout(
    alloc: Global,
    source: &[u8],
    name: &[u8],
    defines: &[u8],
    stage: u32,
    flags: u32,
    out: &mut [Node],
) -> Answer
    ensures answer { IsAnswer (AreRecords source.now name.now stage flags) result out.old out.new }
    ensures stage { 3 ≤ stage → result ≡ misuse 4 }
    ensures flags { stage < 3 → 4 ≤ flags → result ≡ misuse 5 }
    ensures text { stage < 3 → flags < 4 → ¬ IsUtf8 source.now → result ≡ misuse 1 }
{
    let records = match table_named(alloc, source, name, defines, stage, flags) {
        Ok(records) => records,
        Err(stop) => return stop.answer(),
    };
    match &records.nodes {
        Some(nodes) => given_records(nodes.as_slice(), records.faults, out),
        None if records.is_faulty => given(&[], records.faults.max(1), out),
        None => Stop::Refused(Refusal::NoLayout).answer(),
    }
}

fn given_records(nodes: &[Node], faults: usize, out: &mut [Node]) -> Answer
    ensures { (source : List ℕ) → (text : List ℕ) → (stage : ℕ) → (flags : ℕ) → AreRecords source text stage flags nodes.now →
        IsAnswer (AreRecords source text stage flags) result out.old out.new }
{
    given(nodes, faults, out)
}

fn table_named(
    alloc: Global,
    source: &[u8],
    name: &[u8],
    defines: &[u8],
    stage: u32,
    flags: u32,
) -> Result<Records, Stop>
    ensures records { IfOk result (λ r. MatchOption r.nodes ⊤ (λ nodes. IsTableOf source.now name.now stage flags nodes.items)) }
    ensures stage { 3 ≤ stage → result ≡ Err (Stop.Misuse 4) }
    ensures flags { stage < 3 → 4 ≤ flags → result ≡ Err (Stop.Misuse 5) }
    ensures text { stage < 3 → flags < 4 → ¬ IsUtf8 source.now → result ≡ Err (Stop.Misuse 1) }
{
    let settings = settings_of(stage, flags, 4)?;
    let source = text_of(source, 1)?;
    let name = text_of(name, 2)?;
    let given = values_in(alloc, text_of(defines, 3)?, settings, 3)?;
    Ok(records_of(alloc, source, name, settings, &given)?)
}

/// Whether the records are a table.
#[unsafe(no_mangle)]
pub extern "C" fn wgsl_is_table(nodes: &[Node]) -> bool
    ensures { IsTrue result ↔ IsTable nodes.now }
{
    wgsl_nodes::is_table(nodes)
}

/// The place of the whole.
#[unsafe(no_mangle)]
pub extern "C" fn wgsl_whole(nodes: &[Node]) -> Place
    ensures answer { result ≡ place_or_nowhere (place_in nodes.now 0 0) }
    ensures on_table { (t : Ty) → IsNodeOf nodes.now 0 t → IsPlaceOf nodes.now 0 t result }
{
    place_of(wgsl_nodes::whole(nodes))
}

/// The place of a part by its position.
#[unsafe(no_mangle)]
pub extern "C" fn wgsl_part(nodes: &[Node], place: Place, index: u64, len: usize) -> Place
    ensures answer { result ≡ place_or_nowhere (part_of nodes.now place index len) }
    ensures on_table { (t : Ty) → length nodes.now < 2 ^ 32 → IsNodeOf nodes.now place.node t → IsFoundAt nodes.now place.offset (part_in (len - place.offset) index t) result }
{
    place_of(wgsl_nodes::part(nodes, place, index, len as u64))
}

/// The place of a path.
#[unsafe(no_mangle)]
pub extern "C" fn wgsl_place_of(nodes: &[Node], names: &[u8], len: usize, path: &[u8]) -> Place
    ensures answer { MatchOption (slice_get nodes.now 0) (result ≡ place_or_nowhere None) (λ root. LeadsTo nodes.now names.now len (placed nodes.now 0 0 root) (behind_name root path.now) result) }
    ensures on_table { (t : Ty) → length nodes.now < 2 ^ 32 → IsNodeOf nodes.now 0 t → IsFoundAlong nodes.now len t result }
{
    place_of(wgsl_nodes::place(nodes, names, len as u64, path))
}

/// The number at a place.
#[unsafe(no_mangle)]
pub extern "C" fn wgsl_load(bytes: &[u8], place: Place) -> Number
    ensures { result ≡ number_or_none (loaded bytes.now place) }
{
    number_of(wgsl_nodes::load(bytes, place))
}

/// Overwrites the number at a place.
#[unsafe(no_mangle)]
pub extern "C" fn wgsl_store(bytes: &mut [u8], place: Place, bits: u64) -> bool
    ensures answer { result ≡ is_some (stored bytes.old place bits) }
    ensures bytes { bytes.new ≡ unwrap_or (stored bytes.old place bits) bytes.old }
{
    wgsl_nodes::store(bytes, place, bits)
}

/// The numbers of a vector at a place.
#[unsafe(no_mangle)]
pub extern "C" fn wgsl_load_vector(bytes: &[u8], place: Place, numbers: &mut [u64]) -> bool
    ensures answer { result ≡ is_some (loaded_row bytes.now place (length numbers.old)) }
    ensures numbers { numbers.new ≡ unwrap_or (loaded_row bytes.now place (length numbers.old)) numbers.old }
{
    wgsl_nodes::load_vec(bytes, place, numbers)
}

/// Overwrites the numbers of a vector at a place.
#[unsafe(no_mangle)]
pub extern "C" fn wgsl_store_vector(bytes: &mut [u8], place: Place, numbers: &[u64]) -> bool
    ensures answer { result ≡ is_some (stored_row bytes.old place numbers.now) }
    ensures bytes { bytes.new ≡ unwrap_or (stored_row bytes.old place numbers.now) bytes.old }
{
    wgsl_nodes::store_vec(bytes, place, numbers)
}

/// How many bytes a value takes.
#[unsafe(no_mangle)]
pub extern "C" fn wgsl_size_with(nodes: &[Node], number: u32, elements: u64) -> Number
    ensures answer { result ≡ number_or_none (option_and_then (length_of_node elements) (slice_get nodes.now number)) }
    ensures on_table { (t : Ty) → IsNodeOf nodes.now number t → IsLengthOf (layout_len elements t) result }
{
    number_of(wgsl_nodes::size_with(nodes, number, elements))
}

/// How many elements find room.
#[unsafe(no_mangle)]
pub extern "C" fn wgsl_count_in(nodes: &[Node], number: u32, length: u64) -> Number
    ensures answer { result ≡ number_or_none (option_and_then (count_of_node length) (slice_get nodes.now number)) }
    ensures on_table { (t : Ty) → IsTrue (has_nodes t) → IsNodeOf nodes.now number t → result ≡ number_or_none (count_in length t) }
{
    number_of(wgsl_nodes::count_in(nodes, number, length))
}

/// The first difference of two tables; its field is 0 where there is none.
#[unsafe(no_mangle)]
pub extern "C" fn wgsl_first_difference(first: &[Node], second: &[Node]) -> Difference
    ensures { length first.now < 2 ^ 32 → length second.now < 2 ^ 32 → AreCompared first.now second.now result }
{
    match wgsl_nodes::first_difference(first, second) {
        Some(found) => Difference {
            what: found.what.saturating_add(1),
            ..found
        },
        None => Difference {
            of_first: 0,
            of_second: 0,
            what: 0,
        },
    }
}

fn number_of(found: Option<u64>) -> Number
    ensures { result ≡ number_or_none found }
{
    match found {
        Some(bits) => Number {
            bits,
            is_there: 1,
            spare: 0,
        },
        None => Number {
            bits: 0,
            is_there: 0,
            spare: 0,
        },
    }
}

fn place_of(found: Option<Place>) -> Place
    ensures { result ≡ place_or_nowhere found }
{
    match found {
        Some(place) => place,
        None => Place {
            offset: 0,
            node: NOWHERE,
            kind: 0,
            count: 0,
            spare: 0,
        },
    }
}

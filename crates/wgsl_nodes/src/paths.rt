//! Paths as WGSL writes them behind the name of a variable (WGSL: composite value decomposition expressions).

ghost use Rattle.std.specs.Prelude.{
  ◌≡◌,
  ◌<◌,
  ◌≤◌,
  ◌^◌,
  ◌*◌,
  ◌+◌,
  ◌-◌,
  ◌&&◌,
  ℕ,
  List,
  ◌∷◌,
  Some,
  None,
  IfSome,
  IsTrue,
  MatchOption,
  drop,
  false,
  true,
  length,
  nat_lt,
  option_and_then,
  option_map,
  position,
  slice_get,
  take,
};
ghost use Rattle.std.specs.List.{list_all};
ghost use Rattle.wgsl_rules.specs.Types.{Ty};
ghost use Rattle.wgsl_rules.specs.Values.{member, index};
ghost use Rattle.wgsl_nodes.specs.Nodes.{IsNodeOf};
ghost use Rattle.wgsl_nodes.specs.Places.{IsPartAlong, placed};
ghost use Rattle.wgsl_nodes.specs.Paths.{
  IsLed,
  IsOnward,
  IsStep,
  behind_name,
  component_of,
  ends,
  has_name,
  indexed_part,
  is_digit,
  is_name_byte,
  is_numeral,
  letter,
  members_of,
  named_part,
  stepped,
  value_after,
};

use crate::nodes::Node;
use crate::places::{Place, has_row, member_at, part_of, placed};

/// The place that a path leads to, written as WGSL writes it behind a variable's name, as `lights[3].color.y`, `[2].x` or
/// nothing: the first name of a path in a structure stands without its point. `names` are the bytes that the names of
/// the records speak of; an index is decimal; x, y, z, w and r, g, b, a are the components of a vector. In a value of
/// `len` bytes, as for [`crate::part`]. `None` where the text is no path, or leads to no part.
pub fn place(nodes: &[Node], names: &[u8], len: u64, path: &[u8]) -> Option<Place>
    ensures answer { MatchOption (slice_get nodes.now 0) (result ≡ None) (λ root. IsLed nodes.now names.now len (placed nodes.now 0 0 root) (behind_name root path.now) result) }
    ensures on_table { (t : Ty) → length nodes.now < 2 ^ 32 → IsNodeOf nodes.now 0 t → IfSome result (IsPartAlong nodes.now len 0 t) }
{
    place_of(nodes, names, len, path)
}

fn place_of(nodes: &[Node], names: &[u8], len: u64, path: &[u8]) -> Option<Place>
    ensures { MatchOption (slice_get nodes.now 0) (result ≡ None) (λ root. IsLed nodes.now names.now len (placed nodes.now 0 0 root) (behind_name root path.now) result) }
{
    let root = nodes.get(0)?;
    let start = placed(nodes, 0, 0, *root);
    if root.sort == Node::STRUCTURE && !path.is_empty() {
        let (member, rest) = name_step(nodes, names, len, start, path)?;
        follow(nodes, names, len, member, rest)
    } else {
        follow(nodes, names, len, start, path)
    }
}

// Where the text leads from a place.
fn follow(nodes: &[Node], names: &[u8], len: u64, start: Place, text: &[u8]) -> Option<Place>
    ensures { IsLed nodes.now names.now len start text.now result }
{
    let mut place = start;
    let mut rest = text;
    while !rest.is_empty() {
        let (next, behind) = step(nodes, names, len, place, rest)?;
        place = next;
        rest = behind;
    }
    Some(place)
}

// Where the first step of the text leads, and what is behind it.
fn step<'a>(
    nodes: &[Node],
    names: &[u8],
    len: u64,
    place: Place,
    text: &'a [u8],
) -> Option<(Place, &'a [u8])>
    ensures { (0 < length text.now) → IsStep nodes.now names.now len place text.now (option_map (λ q. (q.0, q.1.now)) result) }
{
    let (first, rest) = text.split_first()?;
    if *first == b'.' {
        name_step(nodes, names, len, place, rest)
    } else if *first == b'[' {
        index_step(nodes, names, len, place, rest)
    } else {
        None
    }
}

// Of the text behind a point.
fn name_step<'a>(
    nodes: &[Node],
    names: &[u8],
    len: u64,
    place: Place,
    text: &'a [u8],
) -> Option<(Place, &'a [u8])>
    ensures { IsStep nodes.now names.now len place (46 ∷ text.now) (option_map (λ q. (q.0, q.1.now)) result) }
{
    let end = name_len(text);
    if end == 0 {
        return None;
    }
    let (name, rest) = text.split_at(end);
    let next = named(nodes, names, len, place, name)?;
    Some((next, rest))
}

// Of the text behind a bracket.
fn index_step<'a>(
    nodes: &[Node],
    names: &[u8],
    len: u64,
    place: Place,
    text: &'a [u8],
) -> Option<(Place, &'a [u8])>
    ensures { IsStep nodes.now names.now len place (91 ∷ text.now) (option_map (λ q. (q.0, q.1.now)) result) }
{
    let (digits, rest) = text.split_at(digits_len(text));
    let rest = behind_bracket(rest)?;
    let next = indexed(nodes, len, place, number(digits)?)?;
    Some((next, rest))
}

// The part of that name: a member of a structure, or a component of a vector.
fn named(nodes: &[Node], names: &[u8], len: u64, place: Place, name: &[u8]) -> Option<Place>
    ensures { result ≡ stepped nodes.now names.now len place (member name.now) }
{
    let node = nodes.get(place.node as usize)?;
    named_in(nodes, names, len, place, name, *node)
}

fn named_in(
    nodes: &[Node],
    names: &[u8],
    len: u64,
    place: Place,
    name: &[u8],
    node: Node,
) -> Option<Place>
    ensures { result ≡ named_part nodes.now names.now len place name.now node }
{
    if node.sort == Node::STRUCTURE {
        let position = member_position(nodes, names, node, name)?;
        member_at(nodes, place.offset, u64::from(node.child) + position as u64)
    } else if node.sort == Node::VECTOR {
        part_of(nodes, place, component_of(name)?, len)
    } else {
        None
    }
}

// The element, column or component of that position.
fn indexed(nodes: &[Node], len: u64, place: Place, position: u64) -> Option<Place>
    ensures { result ≡ option_and_then (indexed_part nodes.now len place position) (slice_get nodes.now place.node) }
{
    let node = nodes.get(place.node as usize)?;
    indexed_in(nodes, len, place, position, *node)
}

fn indexed_in(nodes: &[Node], len: u64, place: Place, position: u64, node: Node) -> Option<Place>
    ensures { result ≡ indexed_part nodes.now len place position node }
{
    if has_row(node) {
        part_of(nodes, place, position, len)
    } else {
        None
    }
}

// Which member of the structure has the name.
fn member_position(nodes: &[Node], names: &[u8], node: Node, name: &[u8]) -> Option<usize>
    ensures { result ≡ position (has_name names.now name.now) (members_of nodes.now node) }
{
    members_of(nodes, node)
        .iter()
        .position(|member| has_name(names, name, *member))
}

// The records of its members.
pub(crate) fn members_of(nodes: &[Node], node: Node) -> &[Node]
    ensures { result.now ≡ members_of nodes.now node }
{
    let behind = match nodes.get(node.child as usize..) {
        Some(behind) => behind,
        None => &[],
    };
    match behind.get(..node.count as usize) {
        Some(members) => members,
        None => behind,
    }
}

fn has_name(names: &[u8], name: &[u8], node: Node) -> bool
    ensures { result ≡ has_name names.now name.now node }
{
    match names.get(node.name_start as usize..node.name_end as usize) {
        Some(own) => own == name,
        None => false,
    }
}

// Which component of a vector has the name.
fn component_of(name: &[u8]) -> Option<u64>
    ensures { result ≡ component_of name.now }
{
    match name {
        [b] => letter(*b),
        _ => None,
    }
}

fn letter(b: u8) -> Option<u64>
    ensures { result ≡ letter b }
{
    match b {
        b'x' | b'r' => Some(0),
        b'y' | b'g' => Some(1),
        b'z' | b'b' => Some(2),
        b'w' | b'a' => Some(3),
        _ => None,
    }
}

// Where the name ends that the text begins with: at a point, a bracket or the end.
fn name_len(text: &[u8]) -> usize
    ensures within { result ≤ length text.now }
    ensures name { list_all is_name_byte (take result text.now) ≡ true }
    ensures end { ends is_name_byte (drop result text.now) ≡ true }
{
    for (i, b) in text.iter().enumerate() {
        if !is_name_byte(*b) {
            return i;
        }
    }
    text.len()
}

// Where the digits end that the text begins with.
fn digits_len(text: &[u8]) -> usize
    ensures within { result ≤ length text.now }
    ensures digits { list_all is_digit (take result text.now) ≡ true }
    ensures end { ends is_digit (drop result text.now) ≡ true }
{
    for (i, b) in text.iter().enumerate() {
        if !is_digit(*b) {
            return i;
        }
    }
    text.len()
}

fn is_name_byte(b: u8) -> bool
    ensures { result ≡ is_name_byte b }
{
    b != b'.' && b != b'['
}

fn is_digit(b: u8) -> bool
    ensures { result ≡ is_digit b }
{
    b'0' <= b && b <= b'9'
}

// What is behind the bracket that the text begins with.
fn behind_bracket(text: &[u8]) -> Option<&[u8]>
    ensures { MatchOption result ((rest : List ℕ) → text.now ≡ 93 ∷ rest → ⊥) (λ rest. text.now ≡ 93 ∷ rest.now) }
{
    match text {
        [b']', rest @ ..] => Some(rest),
        _ => None,
    }
}

// The number that decimal digits write; `None` of no digits, of more than one where the first is 0, and of 2^64 or more.
fn number(digits: &[u8]) -> Option<u64>
    requires { IsTrue (list_all is_digit digits.now) }
    ensures { MatchOption result ((is_numeral digits.now && nat_lt (value_after 0 digits.now) (2 ^ 64)) ≡ false) (λ n. IsTrue (is_numeral digits.now) × (n ≡ value_after 0 digits.now)) }
{
    if !is_numeral(digits) {
        return None;
    }
    value_of(digits)
}

fn is_numeral(digits: &[u8]) -> bool
    requires { IsTrue (list_all is_digit digits.now) }
    ensures { result ≡ is_numeral digits.now }
{
    !digits.is_empty() && (digits.len() == 1 || b'0' < digits[0])
}

fn value_of(digits: &[u8]) -> Option<u64>
    requires { IsTrue (list_all is_digit digits.now) }
    ensures { MatchOption result (2 ^ 64 ≤ value_after 0 digits.now) (λ n. n ≡ value_after 0 digits.now) }
{
    let mut value: u64 = 0;
    for b in digits {
        value = with_digit(value, *b)?;
    }
    Some(value)
}

// The number with a digit more behind it.
fn with_digit(value: u64, digit: u8) -> Option<u64>
    requires { IsTrue (is_digit digit) }
    ensures { MatchOption result (2 ^ 64 ≤ value * 10 + (digit - 48)) (λ n. n ≡ value * 10 + (digit - 48)) }
{
    value.checked_mul(10)?.checked_add(u64::from(digit - b'0'))
}

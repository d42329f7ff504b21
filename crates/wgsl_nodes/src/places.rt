//! Places: where the parts of a value stand in bytes, found step by step (WGSL: internal layout of values; composite
//! value decomposition expressions).

ghost use Rattle.std.specs.Prelude.{◌≡◌, ◌-◌, ◌^◌, ◌<◌, ◌&&◌, IsSomeAnd, length};
ghost use Rattle.wgsl_rules.specs.Types.{Ty};
ghost use Rattle.wgsl_nodes.specs.Nodes.{IsNodeOf};
ghost use Rattle.wgsl_nodes.specs.Places.{
  IsPartAt,
  IsPlaceOf,
  count_at,
  has_part,
  has_part_with,
  has_row,
  kind_at,
  member_place,
  part_in,
  part_of,
  part_of_node,
  part_of_with,
  part_where,
  part_with,
  place_in,
  placed,
};

use crate::nodes::Node;

/// Where a part of a value stands: the byte where it begins, from the value's first on, and the number of its record.
///
/// So that numbers are read with no table: the kind of the number, or of a vector's components, and how many there are
/// side by side, 1 of a number and 2 to 4 of a vector; both are 0 of what is neither. `spare` is 0.
#[repr(C)]
#[derive(Clone, Copy, Debug, PartialEq, Eq)]
pub struct Place {
    pub offset: u64,
    pub node: u32,
    pub kind: u32,
    pub count: u32,
    pub spare: u32,
}

/// The place of the whole; `None` where there are no records.
pub fn whole(nodes: &[Node]) -> Option<Place>
    ensures answer { result ≡ place_in nodes.now 0 0 }
    ensures on_table { (t : Ty) → IsNodeOf nodes.now 0 t → IsSomeAnd result (IsPlaceOf nodes.now 0 t) }
{
    place_at(nodes, 0, 0)
}

/// The place of the part of the position in what stands there: a component, column, element or member, in a value of
/// `len` bytes, which tell how many elements a runtime-sized array has. `None` beyond the last part, of what has no
/// parts, where a record is not there, and where the offset is 2^64 or more.
pub fn part(nodes: &[Node], place: Place, index: u64, len: u64) -> Option<Place>
    ensures answer { result ≡ part_of nodes.now place index len }
    ensures on_table { (t : Ty) → length nodes.now < 2 ^ 32 → IsNodeOf nodes.now place.node t → IsPartAt nodes.now place.offset (part_in (len - place.offset) index t) result }
{
    part_of(nodes, place, index, len)
}

// The part of the position, by the records alone.
pub(crate) fn part_of(nodes: &[Node], place: Place, index: u64, len: u64) -> Option<Place>
    ensures { result ≡ part_of nodes.now place index len }
{
    let node = nodes.get(place.node as usize)?;
    let room = len.saturating_sub(place.offset);
    part_of_node(nodes, place.offset, room, index, *node)
}

/// The place of the part of the position, as [`part`] finds it, in a value with so many elements in the runtime-sized
/// array that its type is or ends in.
pub fn part_with(nodes: &[Node], place: Place, index: u64, elements: u64) -> Option<Place>
    ensures answer { result ≡ part_of_with nodes.now place index elements }
    ensures on_table { (t : Ty) → length nodes.now < 2 ^ 32 → IsNodeOf nodes.now place.node t → IsPartAt nodes.now place.offset (part_with elements index t) result }
{
    part_of_with(nodes, place, index, elements)
}

// The part of the position, by the records alone.
fn part_of_with(nodes: &[Node], place: Place, index: u64, elements: u64) -> Option<Place>
    ensures { result ≡ part_of_with nodes.now place index elements }
{
    let node = nodes.get(place.node as usize)?;
    let is_there = has_part_with(*node, index, elements);
    part_where(nodes, place.offset, index, *node, is_there)
}

// In what begins at the offset, with so many bytes from there on.
fn part_of_node(nodes: &[Node], offset: u64, room: u64, index: u64, node: Node) -> Option<Place>
    ensures { result ≡ part_of_node nodes.now offset room index node }
{
    part_where(nodes, offset, index, node, has_part(node, index, room))
}

// In what begins at the offset, where a component, column or element is there if it says so.
fn part_where(nodes: &[Node], offset: u64, index: u64, node: Node, is_there: bool) -> Option<Place>
    ensures { result ≡ part_where nodes.now offset index node is_there }
{
    match node.sort {
        Node::STRUCTURE => {
            if index >= u64::from(node.count) {
                return None;
            }
            member_at(nodes, offset, u64::from(node.child) + index)
        }
        Node::VECTOR | Node::MATRIX | Node::ARRAY => {
            if !is_there {
                return None;
            }
            let start = index.checked_mul(u64::from(node.stride))?;
            place_at(nodes, offset.checked_add(start)?, u64::from(node.child))
        }
        _ => None,
    }
}

// Whether the component, column or element is there.
fn has_part(node: Node, index: u64, room: u64) -> bool
    ensures { result ≡ has_part node index room }
{
    if node.sort == Node::ARRAY && node.tail_stride != 0 {
        index < room / u64::from(node.tail_stride)
    } else {
        index < u64::from(node.count)
    }
}

// Whether the component, column or element is there, with so many elements in a runtime-sized array.
fn has_part_with(node: Node, index: u64, elements: u64) -> bool
    ensures { result ≡ has_part_with node index elements }
{
    if node.sort == Node::ARRAY && node.tail_stride != 0 {
        index < elements
    } else {
        index < u64::from(node.count)
    }
}

// The member of the number, in a structure that begins at the offset.
pub(crate) fn member_at(nodes: &[Node], offset: u64, number: u64) -> Option<Place>
    ensures { result ≡ member_place nodes.now offset number }
{
    let member = nodes.get(number as usize)?;
    place_at(nodes, offset.checked_add(u64::from(member.offset))?, number)
}

// The record of the number, at the offset.
fn place_at(nodes: &[Node], offset: u64, number: u64) -> Option<Place>
    ensures { result ≡ place_in nodes.now offset number }
{
    let node = nodes.get(number as usize)?;
    let number = u32::try_from(number).ok()?;
    Some(placed(nodes, offset, number, *node))
}

// Of the record, which has the number.
pub(crate) fn placed(nodes: &[Node], offset: u64, number: u32, node: Node) -> Place
    ensures { result ≡ placed nodes.now offset number node }
{
    Place {
        offset,
        node: number,
        kind: kind_at(nodes, node),
        count: count_at(node),
        spare: 0,
    }
}

// Whether its parts are components, columns or elements.
pub(crate) fn has_row(node: Node) -> bool
    ensures { result ≡ has_row node }
{
    matches!(node.sort, Node::VECTOR | Node::MATRIX | Node::ARRAY)
}

fn kind_at(nodes: &[Node], node: Node) -> u32
    ensures { result ≡ kind_at nodes.now node }
{
    if node.sort != Node::VECTOR {
        return node.kind;
    }
    match nodes.get(node.child as usize) {
        Some(component) => component.kind,
        None => 0,
    }
}

fn count_at(node: Node) -> u32
    ensures { result ≡ count_at node }
{
    if node.sort == Node::VECTOR {
        node.count
    } else {
        u32::from(node.kind != 0)
    }
}

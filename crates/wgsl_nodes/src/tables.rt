//! Whether records are a table.

ghost use Rattle.std.specs.Prelude.{
  ◌≡◌,
  ◌↔◌,
  ◌<◌,
  ◌*◌,
  ◌+◌,
  ◌==◌,
  ◌&&◌,
  ℕ,
  IsSomeAnd,
  IsTrue,
  Some,
  if◌then◌else◌,
  length,
  nat_lt,
  slice_get,
  sum_by,
  true,
};
ghost use Rattle.std.specs.Int.{next_multiple_of};
ghost use Rattle.wgsl_rules.specs.Layout.{is_from_2_to_4};
ghost use Rattle.wgsl_nodes.specs.Tables.{
  IsTable,
  are_members_sound,
  children_counted,
  is_array_sound,
  is_end_sound,
  is_matrix_sound,
  is_member_sound,
  is_number_sound,
  is_part_sound,
  is_row_sound,
  is_sound,
  is_sound_at,
  is_structure_sound,
  is_tail_sound,
  is_vector_sound,
  no_tail,
  vector_align,
};

use crate::nodes::Node;
use crate::numbers::{is_width, width_of};
use crate::paths::members_of;

/// Whether the records are a table, of whatever type: the first is there and begins at 0; the records count as many
/// children as stand behind it; each child stands behind its parent and is there; and each record's size, alignment,
/// distances and runtime-sized array agree with its kind or with its children. Members follow each other aligned, without
/// overlapping, inside the size, and a runtime-sized array begins where that ends. Names are not looked at.
pub fn is_table(nodes: &[Node]) -> bool
    ensures { IsTrue result ↔ IsTable nodes.now }
{
    has_root(nodes) && are_children_counted(nodes) && are_sound(nodes)
}

fn has_root(nodes: &[Node]) -> bool
    ensures { IsTrue result ↔ IsSomeAnd (slice_get nodes.now 0) (λ r. r.offset ≡ 0) }
{
    match nodes.get(0) {
        Some(root) => root.offset == 0,
        None => false,
    }
}

// Whether the records count as many children as stand behind the root: so no more than these are looked at as children.
fn are_children_counted(nodes: &[Node]) -> bool
    ensures { IsTrue result ↔ (sum_by children_counted nodes.now + 1 ≡ length nodes.now) }
{
    let most = nodes.len() as u64;
    let mut total: u64 = 0;
    for node in nodes {
        let children = children_counted(*node);
        if children > most - total {
            return false;
        }
        total += children;
    }
    total < most && total == most - 1
}

fn children_counted(node: Node) -> u64
    ensures { result ≡ children_counted node }
{
    match node.sort {
        Node::STRUCTURE => u64::from(node.count),
        Node::NUMBER => 0,
        _ => 1,
    }
}

fn are_sound(nodes: &[Node]) -> bool
    ensures { IsTrue result ↔ ((number : ℕ) → number < length nodes.now → is_sound_at nodes.now number ≡ true) }
{
    for number in 0..nodes.len() {
        if !is_sound_at(nodes, number) {
            return false;
        }
    }
    true
}

fn is_sound_at(nodes: &[Node], number: usize) -> bool
    ensures { result ≡ is_sound_at nodes.now number }
{
    match nodes.get(number) {
        Some(node) => is_sound(nodes, number, *node),
        None => true,
    }
}

fn is_sound(nodes: &[Node], number: usize, node: Node) -> bool
    ensures { result ≡ is_sound nodes.now number node }
{
    if node.sort == Node::NUMBER {
        return is_number_sound(node);
    }
    if node.kind != 0 || number >= node.child as usize {
        return false;
    }
    if node.sort == Node::STRUCTURE {
        is_structure_sound(nodes, node)
    } else {
        is_row_sound(nodes, node)
    }
}

fn is_row_sound(nodes: &[Node], node: Node) -> bool
    ensures { result ≡ is_row_sound node (slice_get nodes.now node.child) }
{
    match nodes.get(node.child as usize) {
        Some(part) => is_part_sound(node, *part),
        None => false,
    }
}

fn has_no_tail(node: Node) -> bool
    ensures { result ≡ no_tail node }
{
    node.tail_start == 0 && node.tail_stride == 0
}

fn is_number_sound(node: Node) -> bool
    ensures { result ≡ is_number_sound node }
{
    let width = width_of(node.kind);
    let is_sized = is_width(width) && node.size as usize == width && node.align as usize == width;
    is_sized && is_plain(node)
}

// Whether nothing is told of parts.
fn is_plain(node: Node) -> bool
    ensures { result ≡ ((node.count == 0 && (node.stride == 0 && node.child == 0)) && no_tail node) }
{
    node.count == 0 && node.stride == 0 && node.child == 0 && has_no_tail(node)
}

fn is_part_sound(node: Node, part: Node) -> bool
    ensures { result ≡ is_part_sound node part }
{
    if part.offset != 0 {
        return false;
    }
    match node.sort {
        Node::VECTOR => is_vector_sound(node, part),
        Node::MATRIX => is_matrix_sound(node, part),
        Node::ARRAY => is_array_sound(node, part),
        _ => false,
    }
}

fn is_from_2_to_4(n: u32) -> bool
    ensures { result ≡ is_from_2_to_4 n }
{
    2 <= n && n <= 4
}

fn is_vector_sound(node: Node, part: Node) -> bool
    ensures { result ≡ is_vector_sound node part }
{
    let is_shape = part.sort == Node::NUMBER
        && part.kind < Node::ATOMIC
        && is_from_2_to_4(node.count);
    is_shape
        && node.stride == part.size
        && is_product(node.size, node.count, part.size)
        && is_vector_align(node, part.size)
        && has_no_tail(node)
}

// Whether a number is the product of two.
fn is_product(n: u32, a: u32, b: u32) -> bool
    ensures { result ≡ (n == a * b) }
{
    u64::from(n) == u64::from(a) * u64::from(b)
}

// Three components are aligned as four.
fn is_vector_align(node: Node, bytes: u32) -> bool
    ensures { result ≡ (node.align == vector_align node.count bytes) }
{
    let aligned_as = if node.count == 3 { 4 } else { node.count };
    is_product(node.align, aligned_as, bytes)
}

fn is_matrix_sound(node: Node, part: Node) -> bool
    ensures { result ≡ is_matrix_sound node part }
{
    let is_shape = part.sort == Node::VECTOR && is_from_2_to_4(node.count);
    is_shape
        && node.stride == part.align
        && is_product(node.size, node.count, part.align)
        && node.align == part.align
        && has_no_tail(node)
}

fn is_array_sound(node: Node, part: Node) -> bool
    ensures { result ≡ is_array_sound node part }
{
    if part.tail_stride != 0 || part.align == 0 || node.align != part.align {
        return false;
    }
    is_stride(node.stride, part) && is_array_size(node)
}

// Whether it is from one such element to the next.
fn is_stride(stride: u32, part: Node) -> bool
    requires { 0 < part.align }
    ensures { result ≡ (stride == next_multiple_of part.size part.align) }
{
    part.size.checked_next_multiple_of(part.align) == Some(stride)
}

// Whether the size and the runtime-sized array are those of the array.
fn is_array_size(node: Node) -> bool
    ensures { result ≡ (if node.count == 0 then (node.size == 0 && nat_lt 0 node.stride) && (node.tail_start == 0 && node.tail_stride == node.stride) else node.size == node.count * node.stride && no_tail node) }
{
    if node.count == 0 {
        node.size == 0
            && node.stride != 0
            && node.tail_start == 0
            && node.tail_stride == node.stride
    } else {
        is_product(node.size, node.count, node.stride) && has_no_tail(node)
    }
}

fn is_structure_sound(nodes: &[Node], node: Node) -> bool
    ensures { result ≡ is_structure_sound nodes.now node }
{
    if node.count == 0 || node.stride != 0 {
        return false;
    }
    let end = u64::from(node.child) + u64::from(node.count);
    end <= nodes.len() as u64 && are_members_sound(node, members_of(nodes, node))
}

fn are_members_sound(node: Node, members: &[Node]) -> bool
    ensures { result ≡ are_members_sound node 0 members.now }
{
    let mut end: u64 = 0;
    for (i, member) in members.iter().enumerate() {
        if !is_member_sound(node, end, *member) {
            return false;
        }
        if member.tail_stride != 0 {
            return i + 1 == members.len() && is_tail_sound(node, *member);
        }
        end = u64::from(member.offset) + u64::from(member.size);
    }
    is_end_sound(node, end)
}

fn is_member_sound(node: Node, end: u64, member: Node) -> bool
    ensures { result ≡ is_member_sound node end member }
{
    if member.align == 0 || node.align == 0 {
        return false;
    }
    let is_aligned = member.offset % member.align == 0 && node.align % member.align == 0;
    is_aligned && end <= u64::from(member.offset)
}

fn is_tail_sound(node: Node, member: Node) -> bool
    ensures { result ≡ is_tail_sound node member }
{
    member.sort == Node::ARRAY
        && node.size == member.offset
        && node.tail_start == member.offset
        && node.tail_stride == member.tail_stride
}

fn is_end_sound(node: Node, end: u64) -> bool
    ensures { result ≡ is_end_sound node end }
{
    if node.align == 0 || node.size % node.align != 0 {
        return false;
    }
    end <= u64::from(node.size) && has_no_tail(node)
}

//! The table of a type, made in one walk down the type (WGSL: alignment and size; structure member layout).

ghost use Rattle.std.specs.Prelude.{
  ◌≡◌,
  ◌<◌,
  ◌+◌,
  ◌++◌,
  ℕ,
  List,
  Some,
  IfOk,
  OnOk,
  IsTrue,
  MatchOption,
  ◌*◌,
  ◌^◌,
  ◌&&◌,
  ◌==◌,
  None,
  if◌then◌else◌,
  is_none,
  is_some,
  length,
  max,
  nat_le,
  nat_lt,
  replicate,
  slice_get,
  slice_set,
  false,
  vec_len,
};
ghost use Rattle.std.specs.Option.{option_or};
ghost use Rattle.wgsl_rules.specs.Layout.{
  is_from_2_to_4,
  is_align_valid,
  is_size_valid,
};
ghost use Rattle.wgsl_rules.specs.Size.{align_of, size_of, with_both, fitting, round_up, sum_of};
ghost use Rattle.wgsl_rules.specs.Types.{Ty, array, atomic, mat, struct, vec};
ghost use Rattle.wgsl_rules.specs.View.{type_view, struct_view, members_view};
ghost use Rattle.wgsl_nodes.specs.Canonical.{table};
ghost use Rattle.wgsl_nodes.specs.HostTypes.{
  has_nodes,
  is_scalar,
  is_number,
};
ghost use Rattle.wgsl_nodes.specs.Names.{AreRenamed};
ghost use Rattle.wgsl_nodes.specs.Nodes.{IsNodeOf, Says};
ghost use Rattle.wgsl_nodes.specs.Tables.{IsTable};
ghost use Rattle.wgsl_nodes.specs.Making.{
  IsAdded,
  IsArrayOf,
  IsNumberOf,
  IsSpot,
  array_node,
  empty_node,
  has_spot,
  number_node,
  structure_node,
  vector_node,
};

use crate::nodes::Node;
use std::alloc::{AllocError, Global};
use wgsl_rules::{StructMemberType, StructType, Type};

/// The table of the type; `None` where it has none: where it has a number of another kind than [`Node::kind`] tells, is
/// not host-shareable, has an attribute of a member that is not valid, or a size, an alignment or an offset in it is not
/// known, but for the size of a runtime-sized array that it is or ends in.
///
/// Equal types have equal tables, record for record. Memory alone is refused, for a table of 2^32 records or more too.
/// It calls itself for each level of the type: keep to 4,095 within a stack of 8 MiB.
pub fn nodes_of(alloc: Global, ty: &Type) -> Result<Option<Vec<Node>>, AllocError>
    ensures { let t = type_view ty.now in
        IfOk result (λ made. MatchOption made (has_nodes t ≡ false) (λ nodes. IsTrue (has_nodes t) × IsNodeOf nodes.items 0 t × (length nodes.items < 2 ^ 32) × IsTable nodes.items × (nodes.items ≡ table t))) }
{
    let mut nodes = Vec::new(alloc);
    nodes.push(Node::EMPTY)?;
    match add_parts(&mut nodes, ty)? {
        Some(root) => {
            check_count(nodes.len())?;
            put(&mut nodes, 0, root);
            Ok(Some(nodes))
        }
        None => Ok(None),
    }
}

// The record of the type, of no place yet; what it leads to stands behind what stood in the table. `None` where the type
// has no table.
#[cycle(add_parts)]
fn add_parts(nodes: &mut Vec<Node>, ty: &Type) -> Result<Option<Node>, AllocError>
    ensures { let t = type_view ty.now in
        IfOk result (λ made. MatchOption made (has_nodes t ≡ false) (λ r. IsAdded nodes.old.items nodes.new.items r t)) }
{
    match ty {
        Type::I32 | Type::U32 | Type::F32 | Type::F16 => Ok(scalar_of(ty)),
        Type::I64 | Type::U64 | Type::F64 => Ok(scalar_of(ty)),
        Type::Atomic(content) => Ok(atomic_of(content)),
        Type::Vec(n, component) => add_component(nodes, *n, component, ty.align_of()),
        Type::Mat(columns, rows, component) => {
            add_column(
                nodes,
                *columns,
                *rows,
                component,
                ty.align_of(),
                ty.size_of(),
            )
        }
        Type::Array(element, n) => add_element(nodes, element, *n),
        Type::Struct(s) => add_structure(nodes, s),
        Type::Bool | Type::AbstractInt | Type::AbstractFloat => Ok(None),
        Type::Ptr(_, _, _) | Type::Ref(_, _, _) => Ok(None),
        Type::Texture(_) | Type::Sampler(_) => Ok(None),
    }
}

// The vector of n components of the type, whose alignment this is.
fn add_component(
    nodes: &mut Vec<Node>,
    n: u8,
    component: &Type,
    align: Option<u32>,
) -> Result<Option<Node>, AllocError>
    requires { align ≡ align_of (vec n (type_view component.now)) }
    ensures { let t = vec n (type_view component.now) in
        IfOk result (λ made. MatchOption made (has_nodes t ≡ false) (λ r. IsAdded nodes.old.items nodes.new.items r t)) }
{
    let (Some(part), Some(align)) = (scalar_of(component), align) else {
        return Ok(None);
    };
    if !is_from_2_to_4(n) {
        return Ok(None);
    }
    let child = number_at(nodes.len())?;
    nodes.push(part)?;
    Ok(Some(vector_of(n, part, align, child)))
}

// The matrix of so many columns and rows of the type, whose alignment and size these are.
fn add_column(
    nodes: &mut Vec<Node>,
    columns: u8,
    rows: u8,
    component: &Type,
    align: Option<u32>,
    size: Option<u32>,
) -> Result<Option<Node>, AllocError>
    requires align { align ≡ align_of (mat columns rows (type_view component.now)) }
    requires size { size ≡ size_of (mat columns rows (type_view component.now)) }
    ensures { let t = mat columns rows (type_view component.now) in
        IfOk result (λ made. MatchOption made (has_nodes t ≡ false) (λ r. IsAdded nodes.old.items nodes.new.items r t)) }
{
    let (Some(part), Some(align), Some(size)) = (scalar_of(component), align, size) else {
        return Ok(None);
    };
    if !is_from_2_to_4(columns) || !is_from_2_to_4(rows) {
        return Ok(None);
    }
    let child = number_at(nodes.len())?;
    let inner = number_behind(child)?;
    nodes.push(vector_of(rows, part, align, inner))?;
    nodes.push(part)?;
    Ok(Some(Node {
        sort: Node::MATRIX,
        size,
        align,
        count: u32::from(columns),
        stride: align,
        child,
        ..Node::EMPTY
    }))
}

// The array of so many elements, which are none where it is runtime-sized.
#[cycle(add_parts)]
fn add_element(
    nodes: &mut Vec<Node>,
    element: &Type,
    n: Option<usize>,
) -> Result<Option<Node>, AllocError>
    ensures { let t = array (type_view element.now) n in
        IfOk result (λ made. MatchOption made (has_nodes t ≡ false) (λ r. IsAdded nodes.old.items nodes.new.items r t)) }
{
    let child = nodes.len();
    let number = number_at(child)?;
    nodes.push(Node::EMPTY)?;
    let Some(part) = add_parts(nodes, element)? else {
        return Ok(None);
    };
    put(nodes, child, part);
    Ok(array_of(part, number, n))
}

// The structure type.
#[cycle(add_parts)]
fn add_structure(nodes: &mut Vec<Node>, ty: &StructType) -> Result<Option<Node>, AllocError>
    ensures { let t = struct_view ty.now in
        IfOk result (λ made. MatchOption made (has_nodes t ≡ false) (λ r. IsAdded nodes.old.items nodes.new.items r t)) }
{
    add_members(nodes, ty.members.as_slice())
}

// The structure of these members.
#[cycle(add_parts)]
fn add_members(
    nodes: &mut Vec<Node>,
    members: &[StructMemberType],
) -> Result<Option<Node>, AllocError>
    ensures { (name : List ℕ) → let t = struct name (members_view members.now) in
        IfOk result (λ made. MatchOption made (has_nodes t ≡ false) (λ r. IsAdded nodes.old.items nodes.new.items r t)) }
{
    let child = nodes.len();
    let first = number_at(child)?;
    let count = number_at(members.len())?;
    reserve(nodes, members.len())?;
    let mut so_far = Members { end: 0, align: 0 };
    for (i, member) in members.iter().enumerate() {
        let Some(part) = add_parts(nodes, &member.ty)? else {
            return Ok(None);
        };
        let Some(spot) = so_far.spot(part, member.align) else {
            return Ok(None);
        };
        let node = Node {
            offset: spot.offset,
            ..part
        };
        put(nodes, child + i, node);
        if part.tail_stride != 0 {
            let is_tail = is_tail(i + 1 == members.len(), member.size);
            return Ok(so_far.ended_by(is_tail, spot, part, first, count));
        }
        let Some(next) = so_far.with(spot, part, member.size) else {
            return Ok(None);
        };
        so_far = next;
    }
    Ok(so_far.structure(first, count))
}

// The record in the place of another.
fn put(nodes: &mut Vec<Node>, number: usize, node: Node)
    requires { number < vec_len nodes.old }
    ensures { nodes.new.items ≡ slice_set nodes.old.items number node }
{
    nodes[number] = node;
}

// Room for the records of so many members.
fn reserve(nodes: &mut Vec<Node>, count: usize) -> Result<(), AllocError>
    ensures { IfOk result (λ _. nodes.new.items ≡ nodes.old.items ++ replicate count empty_node) }
{
    for _ in 0..count {
        nodes.push(Node::EMPTY)?;
    }
    Ok(())
}

// The members of a structure so far: where the last ends, and the greatest alignment.
#[derive(Clone, Copy)]
struct Members {
    end: u32,
    align: u32,
}

// Where a member begins, and what its place is a multiple of.
#[derive(Clone, Copy)]
struct Spot {
    offset: u32,
    align: u32,
}

impl Members {
    // Of a member more, with its attribute.
    fn spot(self, part: Node, align: Option<u32>) -> Option<Spot>
        ensures { MatchOption result (has_spot (Some self.end) align (Some part.align) ≡ false) (IsSpot (Some self.end) align (Some part.align)) }
    {
        let align = member_align(align, part.align)?;
        let offset = self.end.checked_next_multiple_of(align)?;
        Some(Spot { offset, align })
    }

    // These and the member there, with its attribute.
    fn with(self, spot: Spot, part: Node, size: Option<u32>) -> Option<Members>
        ensures { MatchOption result ((is_size_valid size (Some part.size) && is_some (with_both sum_of (Some spot.offset) (option_or size (Some part.size)))) ≡ false) (λ m. IsTrue (is_size_valid size (Some part.size)) × (with_both sum_of (Some spot.offset) (option_or size (Some part.size)) ≡ Some m.end) × (m.align ≡ max self.align spot.align)) }
    {
        let size = member_size(size, part.size)?;
        Some(Members {
            end: spot.offset.checked_add(size)?,
            align: self.align.max(spot.align),
        })
    }

    // The structure of these members.
    fn structure(self, child: u32, count: u32) -> Option<Node>
        ensures { MatchOption result (with_both round_up (Some self.align) (Some self.end) ≡ None) (λ r. with_both round_up (Some self.align) (Some self.end) ≡ Some r.size × (r ≡ structure_node r.size self.align count child 0 0)) }
    {
        let size = self.end.checked_next_multiple_of(self.align)?;
        Some(Node {
            sort: Node::STRUCTURE,
            size,
            align: self.align,
            count,
            child,
            ..Node::EMPTY
        })
    }

    // The structure of these members and a last one there, where that may be its runtime-sized array.
    fn ended_by(self, is_tail: bool, spot: Spot, part: Node, child: u32, count: u32) -> Option<Node>
        ensures { result ≡ (if is_tail && part.sort == 3 then Some (structure_node spot.offset (max self.align spot.align) count child spot.offset part.tail_stride) else None) }
    {
        if !is_tail || part.sort != Node::ARRAY {
            return None;
        }
        Some(Node {
            sort: Node::STRUCTURE,
            size: spot.offset,
            align: self.align.max(spot.align),
            count,
            child,
            tail_start: spot.offset,
            tail_stride: part.tail_stride,
            ..Node::EMPTY
        })
    }
}

// What the place of a member is a multiple of: its attribute, or the alignment of its type.
fn member_align(attribute: Option<u32>, align: u32) -> Option<u32>
    ensures { MatchOption result (is_align_valid attribute (Some align) ≡ false) (λ a. IsTrue (is_align_valid attribute (Some align)) × (option_or attribute (Some align) ≡ Some a)) }
{
    match attribute {
        Some(attribute) => {
            (attribute.is_power_of_two() && attribute.is_multiple_of(align)).then_some(attribute)
        }
        None => Some(align),
    }
}

// How many bytes a member takes: its attribute, or the size of its type.
fn member_size(attribute: Option<u32>, size: u32) -> Option<u32>
    ensures { MatchOption result (is_size_valid attribute (Some size) ≡ false) (λ s. IsTrue (is_size_valid attribute (Some size)) × (option_or attribute (Some size) ≡ Some s)) }
{
    match attribute {
        Some(attribute) => (size <= attribute).then_some(attribute),
        None => Some(size),
    }
}

// The number of a record that stands there.
fn number_at(n: usize) -> Result<u32, AllocError>
    ensures { IfOk result (λ number. number ≡ n) }
{
    u32::try_from(n).or(Err(AllocError))
}

// That the records have numbers.
fn check_count(n: usize) -> Result<(), AllocError>
    ensures { OnOk result (n < 2 ^ 32) }
{
    if n < 0x1_0000_0000 {
        Ok(())
    } else {
        Err(AllocError)
    }
}

// The number of the record behind.
fn number_behind(number: u32) -> Result<u32, AllocError>
    ensures { IfOk result (λ behind. behind ≡ number + 1) }
{
    number.checked_add(1).ok_or(AllocError)
}

// Whether a runtime-sized array may be such a member.
fn is_tail(is_last: bool, size: Option<u32>) -> bool
    ensures { result ≡ (is_last && is_none size) }
{
    is_last && size.is_none()
}

// Of components, columns and rows.
fn is_from_2_to_4(n: u8) -> bool
    ensures { result ≡ is_from_2_to_4 n }
{
    2 <= n && n <= 4
}

// The record of a number of the kind and of so many bytes.
fn number(kind: u32, bytes: u32) -> Node
    ensures { result ≡ number_node kind bytes }
{
    Node {
        kind,
        size: bytes,
        align: bytes,
        ..Node::EMPTY
    }
}

// The record of a number that is no atomic; `None` of any other type.
fn scalar_of(ty: &Type) -> Option<Node>
    ensures { let t = type_view ty.now in MatchOption result (is_scalar t ≡ false) (λ r. IsTrue (is_scalar t) × IsNumberOf r t) }
{
    match ty {
        Type::I32 => Some(number(1, 4)),
        Type::U32 => Some(number(2, 4)),
        Type::F32 => Some(number(3, 4)),
        Type::F16 => Some(number(4, 2)),
        Type::I64 => Some(number(5, 8)),
        Type::U64 => Some(number(6, 8)),
        Type::F64 => Some(number(7, 8)),
        Type::Bool | Type::AbstractInt | Type::AbstractFloat => None,
        Type::Struct(_) | Type::Array(_, _) | Type::Vec(_, _) | Type::Mat(_, _, _) => None,
        Type::Atomic(_) | Type::Ptr(_, _, _) | Type::Ref(_, _, _) => None,
        Type::Texture(_) | Type::Sampler(_) => None,
    }
}

// The record of an atomic of the type.
fn atomic_of(content: &Type) -> Option<Node>
    ensures { let t = atomic (type_view content.now) in MatchOption result (is_number t ≡ false) (λ r. IsTrue (is_number t) × IsNumberOf r t) }
{
    match content {
        Type::I32 => Some(number(Node::ATOMIC + 1, 4)),
        Type::U32 => Some(number(Node::ATOMIC + 2, 4)),
        Type::Bool | Type::AbstractInt | Type::AbstractFloat => None,
        Type::F32 | Type::F16 | Type::I64 | Type::U64 | Type::F64 => None,
        Type::Struct(_) | Type::Array(_, _) | Type::Vec(_, _) | Type::Mat(_, _, _) => None,
        Type::Atomic(_) | Type::Ptr(_, _, _) | Type::Ref(_, _, _) => None,
        Type::Texture(_) | Type::Sampler(_) => None,
    }
}

// The vector of n such components, of this alignment.
fn vector_of(n: u8, part: Node, align: u32, child: u32) -> Node
    requires { n * part.size < 2 ^ 32 }
    ensures { result ≡ vector_node n part.size align child }
{
    Node {
        sort: Node::VECTOR,
        size: u32::from(n) * part.size,
        align,
        count: u32::from(n),
        stride: part.size,
        child,
        ..Node::EMPTY
    }
}

// The array of so many such elements; `None` where the element's size is not fixed, the count is 0, or the array's size
// is not known.
fn array_of(part: Node, child: u32, n: Option<usize>) -> Option<Node>
    ensures { (t : Ty) → IsTrue (has_nodes t) → Says part t → MatchOption result (has_nodes (array t n) ≡ false) (IsArrayOf t n child) }
{
    if part.tail_stride != 0 {
        return None;
    }
    let stride = stride_of(part)?;
    match n {
        Some(n) => sized_array(part.align, stride, child, n),
        None => Some(Node {
            sort: Node::ARRAY,
            align: part.align,
            stride,
            child,
            tail_stride: stride,
            ..Node::EMPTY
        }),
    }
}

// From one such element to the next.
fn stride_of(part: Node) -> Option<u32>
    ensures { result ≡ round_up part.align part.size }
{
    part.size.checked_next_multiple_of(part.align)
}

// Of n elements so far apart.
fn sized_array(align: u32, stride: u32, child: u32, n: usize) -> Option<Node>
    ensures { MatchOption result ((nat_le 1 n && (nat_lt n (2 ^ 32) && is_some (fitting (n * stride)))) ≡ false) (λ r. IsTrue (nat_le 1 n) × (fitting (n * stride) ≡ Some r.size) × (r ≡ array_node r.size align n stride child 0)) }
{
    let count = u32::try_from(n).ok()?;
    let size = u32::try_from(n.checked_mul(stride as usize)?).ok()?;
    if count == 0 {
        return None;
    }
    Some(Node {
        sort: Node::ARRAY,
        size,
        align,
        count,
        stride,
        child,
        ..Node::EMPTY
    })
}

/// Sets where the name of the record's member stands in a text of names, in bytes; nothing else changes. False, and
/// nothing changed, where there is no such record.
pub fn set_name(nodes: &mut [Node], number: u32, start: u32, end: u32) -> bool
    ensures renamed { AreRenamed nodes.old nodes.new }
    ensures set { MatchOption (slice_get nodes.old number) ((result ≡ false) × (nodes.new ≡ nodes.old)) (λ r. IsTrue result × (nodes.new ≡ slice_set nodes.old number (record r { name_start = start; name_end = end }))) }
{
    let at = number as usize;
    if at >= nodes.len() {
        return false;
    }
    nodes[at] = Node {
        name_start: start,
        name_end: end,
        ..nodes[at]
    };
    true
}

//! How many bytes values take, and how many elements find room (WGSL: structure member layout; buffer binding determines
//! runtime-sized array element count).

ghost use Rattle.std.specs.Prelude.{◌≡◌, ◌^◌, ◌≤◌, IsTrue, MatchOption, option_and_then, slice_get};
ghost use Rattle.wgsl_rules.specs.Layout.{count_in as elements_in, layout_len};
ghost use Rattle.wgsl_rules.specs.Types.{Ty};
ghost use Rattle.wgsl_nodes.specs.HostTypes.{has_nodes};
ghost use Rattle.wgsl_nodes.specs.Lengths.{count_of_node, length_of_node};
ghost use Rattle.wgsl_nodes.specs.Nodes.{IsNodeOf};

use crate::nodes::Node;

/// How many bytes a value of the record's type takes, with so many elements in the runtime-sized array that it is or ends
/// in, up to the end of the last: a structure that ends in one is not filled up to its alignment, as
/// [`Type::size_with`](wgsl_rules::Type::size_with) fills it up. The elements are not looked at where there is no such
/// array. `None` where there is no such record, and where the bytes are 2^64 or more.
pub fn size_with(nodes: &[Node], number: u32, count: u64) -> Option<u64>
    ensures answer { result ≡ option_and_then (length_of_node count) (slice_get nodes.now number) }
    ensures on_table { (t : Ty) → IsNodeOf nodes.now number t → MatchOption result (2 ^ 64 ≤ layout_len count t) (λ n. n ≡ layout_len count t) }
{
    length_at(nodes, number, count)
}

/// How many elements the runtime-sized array that the record's type is or ends in has in so many bytes: as many as find
/// room, one at least; 0 where there is no such array. `None` where there is no such record, and where the bytes are too
/// few for a value.
pub fn count_in(nodes: &[Node], number: u32, len: u64) -> Option<u64>
    ensures answer { result ≡ option_and_then (count_of_node len) (slice_get nodes.now number) }
    ensures on_table { (t : Ty) → IsTrue (has_nodes t) → IsNodeOf nodes.now number t → result ≡ elements_in len t }
{
    count_at(nodes, number, len)
}

fn length_at(nodes: &[Node], number: u32, count: u64) -> Option<u64>
    ensures { result ≡ option_and_then (length_of_node count) (slice_get nodes.now number) }
{
    let node = nodes.get(number as usize)?;
    length_of(*node, count)
}

fn count_at(nodes: &[Node], number: u32, len: u64) -> Option<u64>
    ensures { result ≡ option_and_then (count_of_node len) (slice_get nodes.now number) }
{
    let node = nodes.get(number as usize)?;
    count_of(*node, len)
}

fn length_of(node: Node, count: u64) -> Option<u64>
    ensures { result ≡ length_of_node count node }
{
    if node.tail_stride == 0 {
        return Some(u64::from(node.size));
    }
    let elements = count.checked_mul(u64::from(node.tail_stride))?;
    elements.checked_add(u64::from(node.tail_start))
}

fn count_of(node: Node, len: u64) -> Option<u64>
    ensures { result ≡ count_of_node len node }
{
    if node.tail_stride == 0 {
        return if u64::from(node.size) <= len {
            Some(0)
        } else {
            None
        };
    }
    let room = len.checked_sub(u64::from(node.tail_start))?;
    let count = room / u64::from(node.tail_stride);
    if count == 0 { None } else { Some(count) }
}

//! The first difference of two tables.

ghost use Rattle.std.specs.Prelude.{◌≡◌, ◌<◌, ◌^◌, ℕ, MatchOption, None, length, min};
ghost use Rattle.wgsl_rules.specs.Types.{Ty};
ghost use Rattle.wgsl_nodes.specs.Compare.{
  AgreeBelow,
  AreSame,
  DifferAt,
  IsFirstDifference,
  child_differs,
  differs,
  differs_in,
  unlike,
};
ghost use Rattle.wgsl_nodes.specs.Nodes.{IsNodeOf};

use crate::nodes::Node;

/// Where two tables differ: the numbers of the records, and which field of theirs, by its place in [`Node`]: 0 `sort` to
/// 9 `tail_stride`; [`Difference::LENGTH`] where one table has a record more.
#[repr(C)]
#[derive(Clone, Copy, Debug, PartialEq, Eq)]
pub struct Difference {
    pub of_first: u32,
    pub of_second: u32,
    pub what: u32,
}

impl Difference {
    pub const LENGTH: u32 = 10;
}

/// The first difference of two tables, in the order of their records, and of two records in the order sort, kind, count,
/// offset, stride, size, alignment and runtime-sized array; names are not looked at. `None` where the tables are the same
/// but for names.
///
/// In tables of [`crate::nodes_of`] the records before the first difference stand for the same parts of both types. The
/// numbers of children tell a difference only where no other field does, and that one has more records only where these
/// tell none either.
pub fn first_difference(a: &[Node], b: &[Node]) -> Option<Difference>
    ensures answer { length a.now < 2 ^ 32 → length b.now < 2 ^ 32 → MatchOption result (AreSame a.now b.now) (IsFirstDifference a.now b.now) }
    ensures on_tables { result ≡ None → length a.now < 2 ^ 32 → length b.now < 2 ^ 32 → (number : ℕ) (t : Ty) → IsNodeOf a.now number t → IsNodeOf b.now number t }
{
    first_of_all(a, b)
}

fn first_of_all(a: &[Node], b: &[Node]) -> Option<Difference>
    ensures { length a.now < 2 ^ 32 → length b.now < 2 ^ 32 → MatchOption result (AreSame a.now b.now) (IsFirstDifference a.now b.now) }
{
    let found = first_in(a, b, false);
    if found.is_some() {
        return found;
    }
    let found = first_in(a, b, true);
    if found.is_some() {
        return found;
    }
    if a.len() == b.len() {
        None
    } else {
        Some(at(a.len().min(b.len()), Difference::LENGTH))
    }
}

// The first difference in the numbers of children, or in all else.
fn first_in(a: &[Node], b: &[Node], in_child: bool) -> Option<Difference>
    ensures { length a.now < 2 ^ 32 → MatchOption result (AgreeBelow in_child a.now b.now (min (length a.now) (length b.now))) (λ d. (d.of_second ≡ d.of_first) × DifferAt in_child a.now b.now d.of_first d.what) }
{
    for i in 0..a.len().min(b.len()) {
        if let Some(what) = differs_in(in_child, a[i], b[i]) {
            return Some(at(i, what));
        }
    }
    None
}

// At the same number in both.
fn at(number: usize, what: u32) -> Difference
    ensures { number < 2 ^ 32 → result ≡ record { of_first = number; of_second = number; what = what } }
{
    let number = u32::try_from(number).unwrap_or(u32::MAX);
    Difference {
        of_first: number,
        of_second: number,
        what,
    }
}

fn differs_in(in_child: bool, x: Node, y: Node) -> Option<u32>
    ensures { result ≡ differs_in in_child x y }
{
    if in_child {
        unlike(7, x.child, y.child, None)
    } else {
        differs(x, y)
    }
}

fn differs(x: Node, y: Node) -> Option<u32>
    ensures { result ≡ differs x y }
{
    let tail_stride = unlike(9, x.tail_stride, y.tail_stride, None);
    let tail_start = unlike(8, x.tail_start, y.tail_start, tail_stride);
    let align = unlike(4, x.align, y.align, tail_start);
    let size = unlike(3, x.size, y.size, align);
    let stride = unlike(6, x.stride, y.stride, size);
    let offset = unlike(2, x.offset, y.offset, stride);
    let count = unlike(5, x.count, y.count, offset);
    let kind = unlike(1, x.kind, y.kind, count);
    unlike(0, x.sort, y.sort, kind)
}

// The field, if its numbers differ, else what comes behind it.
fn unlike(what: u32, x: u32, y: u32, behind: Option<u32>) -> Option<u32>
    ensures { result ≡ unlike what x y behind }
{
    if x == y { behind } else { Some(what) }
}

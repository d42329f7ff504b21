//! The parts of values, found without memory (WGSL: memory views; composite value decomposition expressions).

ghost use Rattle.std.specs.Prelude.{◌≡◌, ◌<◌, IfOk, IsSomeAnd, Err, None, Some, option_map};
ghost use Rattle.std.specs.Result.{result_ok};
ghost use Rattle.wgsl_rules.specs.Paths.{fits, member_named, part_at, parts, same_paths, viewed};
ghost use Rattle.wgsl_rules.specs.Values.{IsStorable, atomic_of, count, item, type_of};
ghost use Rattle.wgsl_rules.specs.View.{type_view};
ghost use Rattle.wgsl_scalar.specs.Answers.{refusal_of};
ghost use Rattle.wgsl_scalar.specs.Literals.{literal_of};
ghost use Rattle.wgsl_layout.specs.Arrays.{elements_in};
ghost use Rattle.wgsl_layout.specs.Atomics.{IsAtomicOf, number_in};
ghost use Rattle.wgsl_values.specs.View.{value_of, steps_of};

use std::alloc::{AllocError, Global};
use std::mem;
use wgsl_rules::{Ty, Type};
use wgsl_scalar::{Error, LiteralInstance};
use wgsl_values::{Instance, MemView};

/// How many members, elements, components or columns there are.
#[tactic(auto, using(crate::proofs::SamePaths::vals_counted))]
pub(crate) fn part_count(value: &Instance) -> usize
    ensures { result ≡ count (parts (value_of value.now)) }
{
    value.parts().len()
}

/// The member, element, component or column at the position.
#[tactic(auto, using(crate::proofs::SamePaths::vals_counted, wgsl_values::proofs::lemmas::Views::item_within))]
pub(crate) fn part(value: &Instance, i: usize) -> &Instance
    requires { i < count (parts (value_of value.now)) }
    ensures { item i (parts (value_of value.now)) ≡ Some (value_of result.now) }
{
    &value.parts()[i]
}

/// The first member of the name: structures alone have members.
pub(crate) fn member<'a>(value: &'a Instance, name: &str) -> Option<&'a Instance>
    ensures { option_map (λ v. value_of v.now) result ≡ option_map (λ p. p.1) (member_named name.now (value_of value.now)) }
{
    match value {
        Instance::Struct(s) => s.member(name),
        Instance::Literal(_) | Instance::Array(_) | Instance::Vec(_) | Instance::Mat(_) => None,
        Instance::Ptr(_) | Instance::Ref(_) | Instance::Atomic(_) | Instance::Deferred(_) => None,
    }
}

/// The part of the index: arrays, vectors and matrices have indexed parts.
pub(crate) fn indexed(value: &Instance, i: usize) -> Option<&Instance>
    ensures { option_map (λ v. value_of v.now) result ≡ option_map (λ p. p.1) (result_ok (part_at i (value_of value.now))) }
{
    match value {
        Instance::Array(a) => a.get(i),
        Instance::Vec(v) => v.get(i),
        Instance::Mat(m) => m.col(i),
        Instance::Literal(_) | Instance::Struct(_) | Instance::Ptr(_) => None,
        Instance::Ref(_) | Instance::Atomic(_) | Instance::Deferred(_) => None,
    }
}

/// Why there is no part of the index: `NotIndexable`, or `OutOfBounds` past the end. The conditions:
/// there is none, and the value may be stored.
pub(crate) fn no_part(alloc: Global, value: &Instance, i: usize) -> Result<Error, AllocError>
    requires none { result_ok (part_at i (value_of value.now)) ≡ None }
    requires storable { IsStorable (value_of value.now) }
    ensures { IfOk result (λ e. IsSomeAnd (refusal_of e) (λ f. part_at i (value_of value.now) ≡ Err f)) }
{
    let ty = value.ty(alloc)?;
    match value {
        Instance::Array(_) | Instance::Vec(_) | Instance::Mat(_) => {
            Ok(Error::OutOfBounds(i, ty, part_count(value)))
        }
        Instance::Literal(_) | Instance::Struct(_) | Instance::Ptr(_) => {
            Ok(Error::NotIndexable(ty))
        }
        Instance::Ref(_) | Instance::Atomic(_) | Instance::Deferred(_) => {
            Ok(Error::NotIndexable(ty))
        }
    }
}

/// The part that the view leads to; `None` where it leads nowhere.
pub(crate) fn part_viewed<'a>(value: &'a Instance, view: &MemView) -> Option<&'a Instance>
    ensures { option_map (λ v. value_of v.now) result ≡ result_ok (viewed (steps_of view.now) (value_of value.now)) }
{
    match view {
        MemView::Whole => Some(value),
        MemView::Member(name, rest) => part_viewed(member(value, name.as_str())?, rest),
        MemView::Index(i, rest) => part_viewed(indexed(value, *i)?, rest),
    }
}

/// The number of the atomic that the value is; `None` where it is no atomic. The condition: it may be stored.
pub(crate) fn atomic_number(value: &Instance) -> Option<LiteralInstance>
    requires { IsStorable (value_of value.now) }
    ensures { option_map literal_of result ≡ number_in (value_of value.now) }
{
    match value {
        Instance::Atomic(atomic) => Some(*atomic.inner().unwrap_literal_ref()),
        Instance::Literal(_) | Instance::Struct(_) | Instance::Array(_) | Instance::Vec(_) => None,
        Instance::Mat(_) | Instance::Ptr(_) | Instance::Ref(_) | Instance::Deferred(_) => None,
    }
}

/// How many elements the array has that the value is; `None` where it is no array.
pub(crate) fn element_count(value: &Instance) -> Option<usize>
    ensures { result ≡ elements_in (value_of value.now) }
{
    match value {
        Instance::Array(array) => Some(array.n()),
        Instance::Literal(_) | Instance::Struct(_) | Instance::Vec(_) | Instance::Mat(_) => None,
        Instance::Ptr(_) | Instance::Ref(_) | Instance::Atomic(_) | Instance::Deferred(_) => None,
    }
}

/// The atomic with this number in the place of its own. It takes no memory. The condition: the value is an
/// atomic of numbers of the kind.
pub(crate) fn with_number(value: Instance, number: LiteralInstance) -> Instance
    requires { IsAtomicOf (type_of (literal_of number)) (value_of value) }
    ensures { value_of result ≡ atomic_of (literal_of number) }
{
    match value {
        Instance::Atomic(mut atomic) => {
            drop(mem::replace(atomic.inner_mut(), Instance::from(number)));
            Instance::Atomic(atomic)
        }
        Instance::Literal(_) | Instance::Struct(_) | Instance::Array(_) => unreachable!(),
        Instance::Vec(_) | Instance::Mat(_) | Instance::Ptr(_) => unreachable!(),
        Instance::Ref(_) | Instance::Deferred(_) => unreachable!(),
    }
}

/// Whether the two have the same paths.
pub(crate) fn have_same_paths(value: &Instance, other: &Instance) -> bool
    ensures { result ≡ same_paths (value_of value.now) (value_of other.now) }
{
    let n = part_count(value);
    if n != part_count(other) {
        return false;
    }
    for i in 0..n {
        if !have_same_paths(part(value, i), part(other, i)) {
            return false;
        }
    }
    true
}

/// Whether the value fits the place of the part, which is of the type: it is of that type too, and
/// has the same paths. The condition: the value may be stored.
pub(crate) fn fits_place(value: &Instance, ty: &Type, part: &Instance) -> bool
    requires storable { IsStorable (value_of value.now) }
    requires typed { type_of (value_of part.now) ≡ type_view ty.now }
    ensures { result ≡ fits (value_of value.now) (value_of part.now) }
{
    value.has_ty(ty) && have_same_paths(value, part)
}

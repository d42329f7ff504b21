//! Lists of values: the members, elements, components or columns of one.

ghost use Rattle.std.specs.Borrow.{LendsIf, sem};
ghost use Rattle.std.specs.Fmt.{WritesOnOk};
ghost use Rattle.std.specs.Prelude.{◌≡◌, ◌≤◌, ◌↔◌, IfOk, IsTrue, option_map};
ghost use Rattle.std.specs.Vec.{with_item};
ghost use Rattle.wgsl_rules.specs.Converted.{all_converted};
ghost use Rattle.wgsl_rules.specs.Values.{AllOfType, AreStorable, HaveTypes, first_type, item};
ghost use Rattle.wgsl_rules.specs.View.{members_view, type_view};
ghost use Rattle.wgsl_values.specs.Rows.{list_row};
ghost use Rattle.wgsl_values.specs.Same.{same_values};
ghost use Rattle.wgsl_values.specs.Texts.{text_of_items, text_before_item};
ghost use Rattle.wgsl_values.specs.View.{value_of, vals_view};
ghost use Rattle.wgsl_values.specs.contracts.instance.Instance.{the_row};

use crate::instance::{Instance, write_value};
use std::alloc::{AllocError, Global};
use std::fmt;
use wgsl_rules::{Convert, StructMemberType, Ty, Type};

#[tactic(auto, using(crate::proofs::lemmas::Views::item_within, crate::proofs::lemmas::Views::item_past))]
pub(crate) fn nth(values: &[Instance], i: usize) -> Option<&Instance>
    ensures { option_map (λ v. value_of v.now) result ≡ item i (vals_view values.now) }
{
    if i < values.len() {
        Some(&values[i])
    } else {
        None
    }
}

// The part at the index, to be written.
#[tactic(auto, using(crate::proofs::lemmas::Views::item_within, crate::proofs::lemmas::Views::item_past))]
pub(crate) fn nth_mut(values: &mut Vec<Instance>, i: usize) -> Option<&mut Instance>
    ensures* writes_back { sem 𝓛 (LendsIf list_row the_row values.entry result (with_item values.old i) values.old) }
    ensures value { option_map (λ v. value_of v.now) result ≡ item i (vals_view values.old.items) }
{
    values.get_mut(i)
}

// Whether a vector has so many components, and a matrix so many columns.
pub(crate) fn is_component_count(n: usize) -> bool
    ensures { IsTrue result ↔ ((2 ≤ n) × (n ≤ 4)) }
{
    matches!(n, 2..=4)
}

// Whether all are storable, and of the type of the first. The first is not compared with itself:
// else arrays of one element, each in the next, would take time in proportion to their square.
#[cycle(storable)]
pub(crate) fn have_one_type(values: &[Instance]) -> bool
    ensures { IsTrue result ↔ (AllOfType (first_type (vals_view values.now)) (vals_view values.now) × AreStorable (vals_view values.now)) }
{
    for (i, value) in values.iter().enumerate() {
        if !value.is_storable() || (i > 0 && !value.same_type(&values[0])) {
            return false;
        }
    }
    true
}

// Whether there are as many values as members, each storable and of its member's type.
#[cycle(storable)]
pub(crate) fn have_types(values: &[Instance], members: &[StructMemberType]) -> bool
    ensures { IsTrue result ↔ (HaveTypes (members_view members.now) (vals_view values.now) × AreStorable (vals_view values.now)) }
{
    if values.len() != members.len() {
        return false;
    }
    for (i, value) in values.iter().enumerate() {
        if !value.is_storable() || !value.has_ty(&members[i].ty) {
            return false;
        }
    }
    true
}

#[cycle(clone)]
pub(crate) fn clone_values(
    alloc: Global,
    values: &Vec<Instance>,
) -> Result<Vec<Instance>, AllocError>
    ensures { IfOk result (λ v. vals_view v.items ≡ vals_view values.now.items) }
{
    let mut copies = Vec::with_capacity(alloc, values.len())?;
    for value in values {
        let copy = match value {
            Instance::Literal(literal) => Instance::Literal(*literal),
            _ => value.clone(alloc)?,
        };
        copies.push(copy)?;
    }
    Ok(copies)
}

// Each of the values in the type, where each converts to it.
#[cycle(convert)]
#[tactic(auto, using(crate::proofs::Conversions::value_steps))]
pub(crate) fn convert_values(
    alloc: Global,
    values: &Vec<Instance>,
    ty: &Type,
) -> Result<Option<Vec<Instance>>, AllocError>
    requires { AreStorable (vals_view values.now.items) }
    ensures { IfOk result (λ o. option_map (λ v. vals_view v.items) o ≡ all_converted (vals_view values.now.items) (type_view ty.now)) }
{
    let mut all = Vec::with_capacity(alloc, values.len())?;
    for value in values {
        let Some(converted) = value.convert_to(alloc, ty)? else {
            return Ok(None);
        };
        all.push(converted)?;
    }
    Ok(Some(all))
}

#[cycle(same)]
pub(crate) fn same_parts(a: &[Instance], b: &[Instance]) -> bool
    ensures { result ≡ same_values (vals_view a.now) (vals_view b.now) }
{
    if a.len() != b.len() {
        return false;
    }
    for (i, part) in a.iter().enumerate() {
        if !part.eq(&b[i]) {
            return false;
        }
    }
    true
}

#[cycle(texts)]
pub(crate) fn write_items<W: fmt::Write>(
    f: &mut fmt::Formatter<W>,
    items: &[Instance],
) -> fmt::Result
    ensures { WritesOnOk W.write_str_gives f.old result (text_of_items (vals_view items.now)) f.new }
{
    for (i, item) in items.iter().enumerate() {
        f.write_str(before_item(i == 0))?;
        write_value(f, item)?;
    }
    Ok(())
}

pub(crate) fn before_item(is_first: bool) -> &'static str
    ensures { result.now ≡ text_before_item is_first }
{
    if is_first { "" } else { ", " }
}

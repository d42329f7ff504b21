//! Whether all or any are true, and a choice between two values (WGSL: logical builtin functions).

ghost use Rattle.std.specs.Prelude.{◌≡◌, ◌&&◌, ◌||◌, IfOk, false, length, true};
ghost use Rattle.wgsl_rules.specs.Values.{IsStorable, IsWellFormed, type_of};
ghost use Rattle.wgsl_scalar.specs.Answers.{Answers, Gives};
ghost use Rattle.wgsl_scalar.specs.Literals.{literal_of};
ghost use Rattle.wgsl_value_builtins.specs.Logical.{
  all_hold,
  any_holds,
  components_selected,
  each_selected,
  one_selected,
  selected,
  selected_by,
  truth_in,
  truths_joined,
};
ghost use Rattle.wgsl_values.specs.View.{vals_view, value_of, vec_view};

use crate::cases::{are_of_one_type, is_known};
use crate::components::components;
use std::alloc::Global;
use wgsl_rules::convert;
use wgsl_scalar::{BuiltinReason, Error, LiteralInstance};
use wgsl_values::{Instance, VecInstance};

// The truth value of a bool; another literal is refused by `Builtin`.
fn literal_truth(literal: &LiteralInstance) -> Result<bool, Error>
    ensures { Answers (λ b. b) result (truth_in (literal_of literal.now)) }
{
    match literal {
        LiteralInstance::Bool(b) => Ok(*b),
        LiteralInstance::AbstractInt(_) | LiteralInstance::I32(_) | LiteralInstance::U32(_) => {
            Err(Error::Builtin(BuiltinReason::NotBool))
        }
        LiteralInstance::I64(_) | LiteralInstance::U64(_) => {
            Err(Error::Builtin(BuiltinReason::NotBool))
        }
    }
}

// The truth value of a bool; another value is refused by `Builtin`.
fn truth_in(value: &Instance) -> Result<bool, Error>
    ensures { Answers (λ b. b) result (truth_in (value_of value.now)) }
{
    match value {
        Instance::Literal(literal) => literal_truth(literal),
        Instance::Struct(_) | Instance::Array(_) | Instance::Vec(_) => {
            Err(Error::Builtin(BuiltinReason::NotBool))
        }
        Instance::Mat(_) | Instance::Ptr(_) | Instance::Ref(_) => {
            Err(Error::Builtin(BuiltinReason::NotBool))
        }
        Instance::Atomic(_) | Instance::Deferred(_) => Err(Error::Builtin(BuiltinReason::NotBool)),
    }
}

// Whether all of the bools are true.
fn all_of(bools: &[Instance]) -> Result<bool, Error>
    ensures { Answers (λ b. b) result (truths_joined ◌&&◌ true (vals_view bools.now)) }
{
    let mut all = true;
    for value in bools {
        let truth = truth_in(value)?;
        all = all && truth;
    }
    Ok(all)
}

// Whether any of the bools is true.
fn any_of(bools: &[Instance]) -> Result<bool, Error>
    ensures { Answers (λ b. b) result (truths_joined ◌||◌ false (vals_view bools.now)) }
{
    let mut any = false;
    for value in bools {
        let truth = truth_in(value)?;
        any = any || truth;
    }
    Ok(any)
}

/// Whether all components of a vector of bools are true; a bool is answered itself. Another value is refused
/// by `Builtin` (WGSL: logical builtin functions, `all`).
pub fn all(e: &Instance) -> Result<Instance, Error>
    ensures value { Answers value_of result (all_hold (value_of e.now)) }
    ensures storable { IfOk result (λ v. IsStorable (value_of v)) }
{
    match e {
        Instance::Vec(v) => Ok(Instance::from(all_of(v.as_slice())?)),
        Instance::Literal(_) | Instance::Struct(_) | Instance::Array(_) => {
            Ok(Instance::from(truth_in(e)?))
        }
        Instance::Mat(_) | Instance::Ptr(_) | Instance::Ref(_) => Ok(Instance::from(truth_in(e)?)),
        Instance::Atomic(_) | Instance::Deferred(_) => Ok(Instance::from(truth_in(e)?)),
    }
}

/// Whether any component of a vector of bools is true; a bool is answered itself. Another value is refused by
/// `Builtin` (WGSL: logical builtin functions, `any`).
pub fn any(e: &Instance) -> Result<Instance, Error>
    ensures value { Answers value_of result (any_holds (value_of e.now)) }
    ensures storable { IfOk result (λ v. IsStorable (value_of v)) }
{
    match e {
        Instance::Vec(v) => Ok(Instance::from(any_of(v.as_slice())?)),
        Instance::Literal(_) | Instance::Struct(_) | Instance::Array(_) => {
            Ok(Instance::from(truth_in(e)?))
        }
        Instance::Mat(_) | Instance::Ptr(_) | Instance::Ref(_) => Ok(Instance::from(truth_in(e)?)),
        Instance::Atomic(_) | Instance::Deferred(_) => Ok(Instance::from(truth_in(e)?)),
    }
}

// Of two values, by a bool, the second where it is true, else the first.
fn one_selected(cond: &Instance, f: Instance, t: Instance) -> Result<Instance, Error>
    ensures { Answers value_of result (one_selected (value_of cond.now) (value_of f) (value_of t)) }
{
    match truth_in(cond) {
        Ok(true) => {
            drop(f);
            Ok(t)
        }
        Ok(false) => {
            drop(t);
            Ok(f)
        }
        Err(error) => {
            drop((f, t));
            Err(error)
        }
    }
}

// The same of two components.
fn component_selected<'a>(
    cond: &Instance,
    f: &'a Instance,
    t: &'a Instance,
) -> Result<&'a Instance, Error>
    ensures { Answers (λ v. value_of v.now) result (one_selected (value_of cond.now) (value_of f.now) (value_of t.now)) }
{
    let is_second = truth_in(cond)?;
    Ok(if is_second { t } else { f })
}

// Of two lists, those of the second where the bools are true, else those of the first.
fn each_selected(
    alloc: Global,
    bools: &[Instance],
    f: &[Instance],
    t: &[Instance],
) -> Result<Vec<Instance>, Error>
    requires first { length f.now ≡ length bools.now }
    requires second { length t.now ≡ length bools.now }
    ensures { Gives (λ v. vals_view v.items) result (each_selected (vals_view bools.now) (vals_view f.now) (vals_view t.now)) }
{
    let mut picked = Vec::with_capacity(alloc, bools.len())?;
    for i in 0..bools.len() {
        let component = component_selected(&bools[i], &f[i], &t[i])?;
        picked.push(component.clone(alloc)?).unwrap();
    }
    Ok(picked)
}

// The same of the components of two vectors of one type; other values, and unequal counts, are refused by
// `Builtin`.
fn components_selected(
    alloc: Global,
    bools: &[Instance],
    f: &Instance,
    t: &Instance,
) -> Result<VecInstance, Error>
    requires first { IsStorable (value_of f.now) }
    requires second { IsStorable (value_of t.now) }
    requires one_type { type_of (value_of f.now) ≡ type_of (value_of t.now) }
    ensures { Gives vec_view result (components_selected (vals_view bools.now) (value_of f.now) (value_of t.now)) }
{
    let f = components(f)?;
    let t = components(t)?;
    if bools.len() != f.len() {
        return Err(Error::Builtin(BuiltinReason::UnequalSizes));
    }
    Ok(VecInstance::new(each_selected(alloc, bools, f, t)?))
}

// Of two values of one type, by a bool, or by component.
fn selected_by(alloc: Global, cond: &Instance, f: Instance, t: Instance) -> Result<Instance, Error>
    requires first { IsStorable (value_of f) }
    requires second { IsStorable (value_of t) }
    requires one_type { type_of (value_of f) ≡ type_of (value_of t) }
    ensures { Gives value_of result (selected_by (value_of cond.now) (value_of f) (value_of t)) }
{
    match cond {
        Instance::Vec(bools) => {
            let selected = components_selected(alloc, bools.as_slice(), &f, &t);
            drop((f, t));
            Ok(Instance::Vec(selected?))
        }
        Instance::Literal(_) | Instance::Struct(_) | Instance::Array(_) => {
            one_selected(cond, f, t)
        }
        Instance::Mat(_) | Instance::Ptr(_) | Instance::Ref(_) => one_selected(cond, f, t),
        Instance::Atomic(_) | Instance::Deferred(_) => one_selected(cond, f, t),
    }
}

// Of two values, by a bool, a copy of the second where it is true, else of the first.
fn one_copied(alloc: Global, cond: &Instance, f: &Instance, t: &Instance) -> Result<Instance, Error>
    ensures { Gives value_of result (one_selected (value_of cond.now) (value_of f.now) (value_of t.now)) }
{
    let value = component_selected(cond, f, t)?;
    Ok(value.clone(alloc)?)
}

// As `selected_by`, of values that stay with the caller: only what is picked is copied.
fn copied_by(alloc: Global, cond: &Instance, f: &Instance, t: &Instance) -> Result<Instance, Error>
    requires first { IsStorable (value_of f.now) }
    requires second { IsStorable (value_of t.now) }
    requires one_type { type_of (value_of f.now) ≡ type_of (value_of t.now) }
    ensures { Gives value_of result (selected_by (value_of cond.now) (value_of f.now) (value_of t.now)) }
{
    match cond {
        Instance::Vec(bools) => {
            Ok(Instance::Vec(components_selected(alloc, bools.as_slice(), f, t)?))
        }
        Instance::Literal(_) | Instance::Struct(_) | Instance::Array(_) => {
            one_copied(alloc, cond, f, t)
        }
        Instance::Mat(_) | Instance::Ptr(_) | Instance::Ref(_) => one_copied(alloc, cond, f, t),
        Instance::Atomic(_) | Instance::Deferred(_) => one_copied(alloc, cond, f, t),
    }
}

/// Of two values in their common type the second where the condition is true, else the first; by component
/// where the condition is a vector of bools, and the values are vectors of its count. Refused by `Builtin`:
/// values that have no common type or do not convert to it, deferred values, and other conditions (WGSL:
/// logical builtin functions, `select`). The condition: all are well-formed.
/// It calls itself for each level of a value or type: keep to 4,095 within a stack of 8 MiB.
pub fn select(alloc: Global, f: &Instance, t: &Instance, cond: &Instance) -> Result<Instance, Error>
    requires first { IsWellFormed (value_of f.now) }
    requires second { IsWellFormed (value_of t.now) }
    requires condition { IsWellFormed (value_of cond.now) }
    ensures value { Gives value_of result (selected (value_of f.now) (value_of t.now) (value_of cond.now)) }
    ensures storable { IfOk result (λ v. IsStorable (value_of v)) }
{
    if !is_known(f) || !is_known(t) {
        return Err(Error::Builtin(BuiltinReason::NoCommonType));
    }
    if are_of_one_type(f, t) {
        return copied_by(alloc, cond, f, t);
    }
    match convert(alloc, f, t)? {
        Some((f, t)) => selected_by(alloc, cond, f, t),
        None => Err(Error::Builtin(BuiltinReason::NoCommonType)),
    }
}

//! The scalars of values, and what they are in other types (WGSL: value constructor built-in
//! functions).

ghost use Rattle.std.specs.Prelude.{◌≡◌, ◌≢◌, ◌∷◌, ◌++◌, ◌↔◌, [], ℕ, None, IfOk, IfSome, IsTrue, MatchOption, length, map, option_map};
ghost use Rattle.wgsl_eval.specs.Constructors.{
  AreScalars,
  columns_of,
  components_for,
  conversion_for,
  conversion_of,
  scalars_in,
  scalars_of,
  vector_of,
};
ghost use Rattle.wgsl_eval.specs.Lists.{each_of};
ghost use Rattle.wgsl_rules.specs.Values.{IsStorable, IsVector};
ghost use Rattle.wgsl_rules.specs.View.{type_view};
ghost use Rattle.wgsl_scalar.specs.Literals.{literal_of as value_of_literal};
ghost use Rattle.wgsl_values.specs.View.{value_of};

use crate::answer::Answer;
use crate::evaluator::Evaluator;
use std::alloc::{AllocError, Global};
use wgsl_apply::{literal_of, make_vector};
use wgsl_functions::written;
use wgsl_rules::Type;
use wgsl_scalar::LiteralInstance;
use wgsl_values::Instance;

/// Scalars, or the answer that there is in their place.
#[derive(Drop)]
pub(crate) enum Scalars {
    Of(Vec<LiteralInstance>),
    Other(Answer),
}

/// How scalars become those of another type.
#[derive(Clone, Copy)]
pub(crate) enum Conversion {
    /// As the language does it by itself.
    Automatic,
    /// As one that is written out.
    Written,
}

impl Conversion {
    /// How the components for a vector of these values become its own: one vector is converted
    /// component by component.
    #[tactic(auto, using(crate::proofs::Scalars::alone_steps))]
    pub(crate) fn of(values: &[Instance]) -> Conversion
        ensures { result ≡ conversion_for (map value_of values.now) }
    {
        match only(values) {
            Some(value) => Conversion::of_one(value),
            None => Conversion::Automatic,
        }
    }

    #[tactic(auto, using(crate::proofs::Scalars::alone_steps))]
    fn of_one(value: &Instance) -> Conversion
        ensures { result ≡ conversion_for (value_of value.now ∷ []) }
    {
        if is_vector(value) {
            Conversion::Written
        } else {
            Conversion::Automatic
        }
    }

    /// The scalar in the type.
    pub(crate) fn scalar(self, literal: LiteralInstance, ty: &Type) -> Option<LiteralInstance>
        ensures { option_map value_of_literal result ≡ conversion_of self (type_view ty.now) (value_of_literal literal) }
    {
        match self {
            Conversion::Automatic => literal.to_kind(ty),
            Conversion::Written => written(literal, ty),
        }
    }
}

impl Evaluator<'_> {
    /// Each of the scalars in the type.
    #[tactic(auto, using(crate::proofs::Each::each_steps))]
    pub(crate) fn converted_scalars(
        &self,
        token: usize,
        literals: &[LiteralInstance],
        ty: &Type,
        conversion: Conversion,
    ) -> Result<Scalars, AllocError>
        ensures { IfOk result (AreScalars (each_of (conversion_of conversion (type_view ty.now)) (map value_of_literal literals.now))) }
    {
        let mut converted = Vec::with_capacity(self.alloc, literals.len())?;
        for literal in literals {
            match conversion.scalar(*literal, ty) {
                Some(literal) => converted.push(literal)?,
                None => {
                    drop(converted);
                    return self.unconverted_scalar(token, *literal, ty);
                }
            }
        }
        Ok(Scalars::Of(converted))
    }

    // What a scalar that is none of the type leaves.
    fn unconverted_scalar(
        &self,
        token: usize,
        literal: LiteralInstance,
        ty: &Type,
    ) -> Result<Scalars, AllocError>
        ensures { IfOk result (AreScalars None) }
    {
        let value = Instance::from(literal);
        let answer = self.not_converted(token, &value, ty);
        drop(value);
        Ok(Scalars::Other(answer?))
    }
}

/// As many components as the vector has: those of the values, or one scalar each time. `None` where
/// a value is among them that is no scalar and no vector.
#[tactic(auto, using(crate::proofs::Scalars::alone_steps))]
pub(crate) fn components_of(
    alloc: Global,
    n: usize,
    values: &[Instance],
) -> Result<Option<Vec<LiteralInstance>>, AllocError>
    ensures { IfOk result (λ o. IfSome o (λ ls. map value_of_literal ls.items ≡ components_for n (map value_of values.now))) }
{
    match only_literal(values) {
        Some(literal) => Ok(Some(vec![in alloc; literal; n]?)),
        None => flattened(alloc, values),
    }
}

/// The scalars of scalars and vectors, in their order. `None` where another value is among them.
#[tactic(auto, using(crate::proofs::Scalars::scalar_steps))]
pub(crate) fn flattened(
    alloc: Global,
    values: &[Instance],
) -> Result<Option<Vec<LiteralInstance>>, AllocError>
    ensures { IfOk result (λ o. IfSome o (λ ls. map value_of_literal ls.items ≡ scalars_of (map value_of values.now))) }
{
    let mut literals = Vec::new(alloc);
    for value in values {
        if !add_scalars(&mut literals, value)? {
            return Ok(None);
        }
    }
    Ok(Some(literals))
}

// Adds the scalars of a scalar or a vector; whether it is one.
#[tactic(auto, using(crate::proofs::Scalars::scalar_steps))]
fn add_scalars(literals: &mut Vec<LiteralInstance>, value: &Instance) -> Result<bool, AllocError>
    ensures { IfOk result (λ is_added. IsTrue is_added → map value_of_literal literals.new.items ≡ map value_of_literal literals.old.items ++ scalars_in (value_of value.now)) }
{
    match value {
        Instance::Literal(literal) => {
            literals.push(*literal)?;
            Ok(true)
        }
        Instance::Vec(vector) => add_components(literals, vector.as_slice()),
        _ => Ok(false),
    }
}

#[tactic(auto, using(crate::proofs::Scalars::scalar_steps))]
fn add_components(
    literals: &mut Vec<LiteralInstance>,
    components: &[Instance],
) -> Result<bool, AllocError>
    ensures { IfOk result (λ is_added. IsTrue is_added → map value_of_literal literals.new.items ≡ map value_of_literal literals.old.items ++ map value_of components.now) }
{
    for component in components {
        match literal_of(component) {
            Some(literal) => literals.push(literal)?,
            None => return Ok(false),
        }
    }
    Ok(true)
}

/// The vector of the scalars, where they make one.
#[tactic(auto, using(crate::proofs::Scalars::scalar_steps))]
pub(crate) fn vector_of(
    alloc: Global,
    literals: &[LiteralInstance],
) -> Result<Option<Instance>, AllocError>
    ensures value { IfOk result (λ o. IfSome o (λ v. value_of v ≡ vector_of (map value_of_literal literals.now))) }
    ensures storable { IfOk result (λ o. IfSome o (λ v. IsStorable (value_of v))) }
{
    let mut components = Vec::with_capacity(alloc, literals.len())?;
    for literal in literals {
        components.push(Instance::from(*literal))?;
    }
    Ok(make_vector(components))
}

fn is_vector(value: &Instance) -> bool
    ensures { IsTrue result ↔ IsVector (value_of value.now) }
{
    matches!(value, Instance::Vec(_))
}

// The value, where there is one alone.
fn only(values: &[Instance]) -> Option<&Instance>
    ensures { MatchOption result (length values.now ≢ 1) (λ v. map value_of values.now ≡ value_of v.now ∷ []) }
{
    if values.len() == 1 {
        Some(&values[0])
    } else {
        None
    }
}

// The literal, where there is one value alone, and it is one.
#[tactic(auto, using(crate::proofs::Scalars::alone_steps))]
fn only_literal(values: &[Instance]) -> Option<LiteralInstance>
    ensures { MatchOption result ((n : ℕ) → components_for n (map value_of values.now) ≡ scalars_of (map value_of values.now)) (λ l. map value_of values.now ≡ value_of_literal l ∷ []) }
{
    match only(values) {
        Some(value) => literal_of(value),
        None => None,
    }
}

/// The columns of the scalars of a matrix, one column after the other, where they make such ones.
#[tactic(auto, using(crate::proofs::Columns::column_steps))]
pub(crate) fn columns_of(
    alloc: Global,
    columns: usize,
    rows: usize,
    literals: &[LiteralInstance],
) -> Result<Option<Vec<Instance>>, AllocError>
    ensures { IfOk result (λ o. IfSome o (λ vs. map value_of vs.items ≡ columns_of columns rows (map value_of_literal literals.now))) }
{
    let mut made = Vec::with_capacity(alloc, columns)?;
    let mut rest = literals;
    for done in 0..columns {
        let Some((column, behind)) = rest.split_at_checked(rows) else {
            return Ok(None);
        };
        match vector_of(alloc, column)? {
            Some(column) => made.push(column)?,
            None => return Ok(None),
        }
        rest = behind;
    }
    Ok(Some(made))
}

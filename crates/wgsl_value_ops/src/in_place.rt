//! Vectors whose components are replaced in place: this takes no memory.

ghost use Rattle.std.specs.Prelude.{◌≡◌, ◌<◌, ◌≤◌, IfErr, length, map, take};
ghost use Rattle.std.specs.List.{zip};
ghost use Rattle.wgsl_value_ops.specs.Closures.{
  AnswersAt,
  AnswersAtPair,
  AnswersEach,
  IsCallableAt,
  IsCallableAtPairs,
  Refused,
  seen,
};
ghost use Rattle.wgsl_rules.specs.Paths.{parts};
ghost use Rattle.wgsl_rules.specs.Values.{AreLiterals, AreStorable, IsStorable, count, vector};
ghost use Rattle.wgsl_scalar.specs.Literals.{literal_of};
ghost use Rattle.wgsl_values.specs.View.{value_of, vals_of, vals_view, vec_view};
ghost use Rattle.wgsl_values.specs.Written.{with_part};

use crate::operators::component;
use wgsl_scalar::{Error, LiteralInstance};
use wgsl_values::{Instance, VecInstance};

/// Puts what the closure answers at each of up to four literals in the first places, one after the
/// other, up to its first refusal, which is answered.
pub(crate) fn answer_into<F: Fn(&LiteralInstance) -> Result<LiteralInstance, Error>>(
    values: &[Instance],
    f: &F,
    answers: &mut [LiteralInstance; 4],
) -> Result<(), Error>
    requires literals { AreLiterals (vals_view values.now) }
    requires most { length values.now ≤ 4 }
    requires callable { IsCallableAt F.Fn f.now (map value_of values.now) }
    ensures answers { AnswersEach (AnswersAt F.Fn f.now) (map value_of values.now) (seen (λ _. map literal_of (take (length values.now) answers.new)) result) }
    ensures refused { IfErr result (Refused (AnswersAt F.Fn f.now) (map value_of values.now)) }
{
    for i in 0..values.len() {
        let answer = f(values[i].unwrap_literal_ref())?;
        answers[i] = answer;
    }
    Ok(())
}

/// Puts what the closure answers at each two of up to four literals in the first places, one after
/// the other, up to its first refusal, which is answered.
pub(crate) fn answer_pairs_into<
    F: Fn(&LiteralInstance, &LiteralInstance) -> Result<LiteralInstance, Error>,
>(
    left: &[Instance],
    right: &[Instance],
    f: &F,
    answers: &mut [LiteralInstance; 4],
) -> Result<(), Error>
    requires left { AreLiterals (vals_view left.now) }
    requires right { AreLiterals (vals_view right.now) }
    requires equal { length left.now ≡ length right.now }
    requires most { length left.now ≤ 4 }
    requires callable { IsCallableAtPairs F.Fn f.now (zip (map value_of left.now) (map value_of right.now)) }
    ensures answers { AnswersEach (AnswersAtPair F.Fn f.now) (zip (map value_of left.now) (map value_of right.now)) (seen (λ _. map literal_of (take (length left.now) answers.new)) result) }
    ensures refused { IfErr result (Refused (AnswersAtPair F.Fn f.now) (zip (map value_of left.now) (map value_of right.now))) }
{
    for i in 0..left.len() {
        let answer = f(left[i].unwrap_literal_ref(), right[i].unwrap_literal_ref())?;
        answers[i] = answer;
    }
    Ok(())
}

// Puts the literal in the place of component i.
fn replace_component(target: &mut VecInstance, i: usize, literal: LiteralInstance)
    requires within { i < count (parts (vec_view target.old)) }
    ensures replaced { vec_view target.new ≡ with_part i (literal_of literal) (vec_view target.old) }
    ensures storable { IsStorable (literal_of literal) }
{
    let value = component(literal);
    if let Some(place) = target.get_mut(i) {
        *place = value;
    }
}

/// Puts the first literals in the place of the components.
pub(crate) fn replace_components(target: &mut VecInstance, literals: &[LiteralInstance; 4])
    requires most { count (parts (vec_view target.old)) ≤ 4 }
    ensures components { vec_view target.new ≡ vector (vals_of (map literal_of (take (count (parts (vec_view target.old))) literals.now))) }
    ensures storable { AreStorable (vals_of (map literal_of (take (count (parts (vec_view target.old))) literals.now))) }
{
    for i in 0..target.n() {
        replace_component(target, i, literals[i]);
    }
}

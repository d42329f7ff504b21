//! What is done component by component (WGSL: arithmetic expressions).

ghost use Rattle.std.specs.Prelude.{
  ◌≡◌,
  ◌<◌,
  List,
  Result,
  Ok,
  Err,
  IfErr,
  IfOk,
  OnErr,
  OnOk,
  IsTrue,
  Some,
  length,
  map,
};
ghost use Rattle.std.specs.List.{zip};
ghost use Rattle.wgsl_value_ops.specs.Closures.{
  AnswersAt,
  AnswersAtPair,
  AnswersEach,
  AnswersOneKind,
  AnswersPairs,
  IsCallableAt,
  IsCallableAtPairs,
  Refused,
  components_of,
  pairs_of,
  seen,
};
ghost use Rattle.wgsl_rules.specs.Paths.{parts, same_paths};
ghost use Rattle.wgsl_rules.specs.Values.{
  AreLiterals,
  AreStorable,
  IsStorable,
  IsVector,
  IsWellFormed,
  count,
  item,
  vector,
};
ghost use Rattle.wgsl_values.specs.View.{value_of, mat_view, vals_view, vec_view};

use crate::in_place::{answer_into, answer_pairs_into, replace_components};
use crate::operators::component;
use std::alloc::Global;
use wgsl_rules::Ty;
use wgsl_scalar::{Error, LiteralInstance};
use wgsl_values::{Instance, MatInstance, VecInstance};

// What the closure answers at each of the literals, or its first refusal.
fn answers<F: Fn(&LiteralInstance) -> Result<LiteralInstance, Error>>(
    alloc: Global,
    values: &[Instance],
    f: &F,
) -> Result<Vec<Instance>, Error>
    requires literals { AreLiterals (vals_view values.now) }
    requires callable { IsCallableAt F.Fn f.now (map value_of values.now) }
    ensures answers { AnswersEach (AnswersAt F.Fn f.now) (map value_of values.now) (seen (λ v. map value_of v.items) result) }
    ensures storable { IfOk result (λ v. AreStorable (vals_view v.items)) }
{
    let mut out = Vec::with_capacity(alloc, values.len())?;
    for value in values {
        let answer = f(value.unwrap_literal_ref())?;
        out.push(component(answer)).unwrap();
    }
    Ok(out)
}

// What the closure answers at each two of the literals, or its first refusal.
fn answers_at_pairs<F: Fn(&LiteralInstance, &LiteralInstance) -> Result<LiteralInstance, Error>>(
    alloc: Global,
    left: &[Instance],
    right: &[Instance],
    f: &F,
) -> Result<Vec<Instance>, Error>
    requires left { AreLiterals (vals_view left.now) }
    requires right { AreLiterals (vals_view right.now) }
    requires equal { length left.now ≡ length right.now }
    requires callable { IsCallableAtPairs F.Fn f.now (zip (map value_of left.now) (map value_of right.now)) }
    ensures answers { AnswersEach (AnswersAtPair F.Fn f.now) (zip (map value_of left.now) (map value_of right.now)) (seen (λ v. map value_of v.items) result) }
    ensures storable { IfOk result (λ v. AreStorable (vals_view v.items)) }
{
    let mut out = Vec::with_capacity(alloc, left.len())?;
    for i in 0..left.len() {
        let answer = f(left[i].unwrap_literal_ref(), right[i].unwrap_literal_ref())?;
        out.push(component(answer)).unwrap();
    }
    Ok(out)
}

// The components of a column.
fn column(matrix: &MatInstance, i: usize) -> &[Instance]
    requires own { IsWellFormed (mat_view matrix.now) }
    requires within { i < count (parts (mat_view matrix.now)) }
    ensures { item i (parts (mat_view matrix.now)) ≡ Some (vector (vals_view result.now)) }
{
    matrix.col(i).unwrap().unwrap_vec_ref().as_slice()
}

// Whether the matrices have as many columns and as many rows.
fn have_one_shape(left: &MatInstance, right: &MatInstance) -> bool
    requires left { IsWellFormed (mat_view left.now) }
    requires right { IsWellFormed (mat_view right.now) }
    ensures { result ≡ same_paths (mat_view left.now) (mat_view right.now) }
{
    left.c() == right.c() && left.r() == right.r()
}

/// What is done at each component of a vector, or of a matrix column by column.
///
/// The conditions: values are well-formed, the closure may be called at the components, and its
/// answers are of one kind. The first refusal in the order of the components is answered. An answer
/// has the shape of the value, and takes memory for each of its vectors and for its list of columns.
pub trait Compwise: Sized + Ty {
    /// The closure's answers in the place of the components.
    fn compwise_unary<F: Fn(&LiteralInstance) -> Result<LiteralInstance, Error>>(
        &self,
        alloc: Global,
        f: F,
    ) -> Result<Self, Error>
        requires own { IsWellFormed (Self.value_of self.now) }
        requires callable { IsCallableAt F.Fn f (components_of (Self.value_of self.now)) }
        requires one_kind { AnswersOneKind (AnswersAt F.Fn f) (components_of (Self.value_of self.now)) }
        ensures answers { AnswersEach (AnswersAt F.Fn f) (components_of (Self.value_of self.now)) (seen (λ v. components_of (Self.value_of v)) result) }
        ensures storable { IfOk result (λ v. IsStorable (Self.value_of v)) }
        ensures shape { IfOk result (λ v. IsTrue (same_paths (Self.value_of v) (Self.value_of self.now))) };

    /// Puts the closure's answers in the place of the components. After a refusal nothing is changed,
    /// nor where memory is wanting; a vector takes none: its error is the closure's.
    fn compwise_unary_mut<F: Fn(&LiteralInstance) -> Result<LiteralInstance, Error>>(
        &mut self,
        alloc: Global,
        f: F,
    ) -> Result<(), Error>
        requires own { IsWellFormed (Self.value_of self.old) }
        requires callable { IsCallableAt F.Fn f (components_of (Self.value_of self.old)) }
        requires one_kind { AnswersOneKind (AnswersAt F.Fn f) (components_of (Self.value_of self.old)) }
        ensures answers { AnswersEach (AnswersAt F.Fn f) (components_of (Self.value_of self.old)) (seen (λ _. components_of (Self.value_of self.new)) result) }
        ensures storable { OnOk result (IsStorable (Self.value_of self.new)) }
        ensures shape { OnOk result (IsTrue (same_paths (Self.value_of self.new) (Self.value_of self.old))) }
        ensures no_memory { IsVector (Self.value_of self.old) → IfErr result (Refused (AnswersAt F.Fn f) (components_of (Self.value_of self.old))) }
        ensures err { OnErr result (self.new ≡ self.old) };

    /// The closure's answers at each component and the one that stands in its place on the right.
    /// Values of unequal shapes, that is of other counts of components, columns or rows, are refused by
    /// `CompwiseBinary` with their types, own type first.
    fn compwise_binary<F: Fn(&LiteralInstance, &LiteralInstance) -> Result<LiteralInstance, Error>>(
        &self,
        alloc: Global,
        rhs: &Self,
        f: F,
    ) -> Result<Self, Error>
        requires own { IsWellFormed (Self.value_of self.now) }
        requires others { IsWellFormed (Self.value_of rhs.now) }
        requires callable { IsCallableAtPairs F.Fn f (pairs_of (Self.value_of self.now) (Self.value_of rhs.now)) }
        requires one_kind { AnswersOneKind (AnswersAtPair F.Fn f) (pairs_of (Self.value_of self.now) (Self.value_of rhs.now)) }
        ensures answers { AnswersPairs (AnswersAtPair F.Fn f) (Self.value_of self.now) (Self.value_of rhs.now) (seen (λ v. components_of (Self.value_of v)) result) }
        ensures storable { IfOk result (λ v. IsStorable (Self.value_of v)) }
        ensures shape { IfOk result (λ v. IsTrue (same_paths (Self.value_of v) (Self.value_of self.now))) };

    /// Puts the closure's answers in the place of the components, as [`Compwise::compwise_binary`] finds
    /// them. After a refusal nothing is changed, nor where memory is wanting; a vector takes none but for
    /// the types in `CompwiseBinary`.
    fn compwise_binary_mut<
        F: Fn(&LiteralInstance, &LiteralInstance) -> Result<LiteralInstance, Error>,
    >(&mut self, alloc: Global, rhs: &Self, f: F) -> Result<(), Error>
        requires own { IsWellFormed (Self.value_of self.old) }
        requires others { IsWellFormed (Self.value_of rhs.now) }
        requires callable { IsCallableAtPairs F.Fn f (pairs_of (Self.value_of self.old) (Self.value_of rhs.now)) }
        requires one_kind { AnswersOneKind (AnswersAtPair F.Fn f) (pairs_of (Self.value_of self.old) (Self.value_of rhs.now)) }
        ensures answers { AnswersPairs (AnswersAtPair F.Fn f) (Self.value_of self.old) (Self.value_of rhs.now) (seen (λ _. components_of (Self.value_of self.new)) result) }
        ensures storable { OnOk result (IsStorable (Self.value_of self.new)) }
        ensures shape { OnOk result (IsTrue (same_paths (Self.value_of self.new) (Self.value_of self.old))) }
        ensures no_memory { IsVector (Self.value_of self.old) → IsTrue (same_paths (Self.value_of self.old) (Self.value_of rhs.now)) → IfErr result (Refused (AnswersAtPair F.Fn f) (pairs_of (Self.value_of self.old) (Self.value_of rhs.now))) }
        ensures err { OnErr result (self.new ≡ self.old) };
}

impl Compwise for VecInstance {
    fn compwise_unary<F: Fn(&LiteralInstance) -> Result<LiteralInstance, Error>>(
        &self,
        alloc: Global,
        f: F,
    ) -> Result<VecInstance, Error> {
        Ok(VecInstance::new(answers(alloc, self.as_slice(), &f)?))
    }

    fn compwise_unary_mut<F: Fn(&LiteralInstance) -> Result<LiteralInstance, Error>>(
        &mut self,
        _alloc: Global,
        f: F,
    ) -> Result<(), Error> {
        let mut answers = [LiteralInstance::Bool(false); 4];
        if let Err(refusal) = answer_into(self.as_slice(), &f, &mut answers) {
            return Err(refusal);
        }
        replace_components(self, &answers);
        Ok(())
    }

    fn compwise_binary<F: Fn(&LiteralInstance, &LiteralInstance) -> Result<LiteralInstance, Error>>(
        &self,
        alloc: Global,
        rhs: &VecInstance,
        f: F,
    ) -> Result<VecInstance, Error> {
        let left = self.as_slice();
        let right = rhs.as_slice();
        if left.len() != right.len() {
            return Err(Error::CompwiseBinary(self.ty(alloc)?, rhs.ty(alloc)?));
        }
        Ok(VecInstance::new(answers_at_pairs(alloc, left, right, &f)?))
    }

    fn compwise_binary_mut<
        F: Fn(&LiteralInstance, &LiteralInstance) -> Result<LiteralInstance, Error>,
    >(&mut self, alloc: Global, rhs: &VecInstance, f: F) -> Result<(), Error> {
        let left = self.as_slice();
        let right = rhs.as_slice();
        if left.len() != right.len() {
            return Err(Error::CompwiseBinary(self.ty(alloc)?, rhs.ty(alloc)?));
        }
        let mut answers = [LiteralInstance::Bool(false); 4];
        if let Err(refusal) = answer_pairs_into(left, right, &f, &mut answers) {
            return Err(refusal);
        }
        replace_components(self, &answers);
        Ok(())
    }
}

impl Compwise for MatInstance {
    fn compwise_unary<F: Fn(&LiteralInstance) -> Result<LiteralInstance, Error>>(
        &self,
        alloc: Global,
        f: F,
    ) -> Result<MatInstance, Error> {
        let mut columns = Vec::with_capacity(alloc, self.c())?;
        for i in 0..self.c() {
            let components = answers(alloc, column(self, i), &f)?;
            columns
                .push(Instance::Vec(VecInstance::new(components)))
                .unwrap();
        }
        Ok(MatInstance::from_cols(columns))
    }

    fn compwise_unary_mut<F: Fn(&LiteralInstance) -> Result<LiteralInstance, Error>>(
        &mut self,
        alloc: Global,
        f: F,
    ) -> Result<(), Error> {
        *self = self.compwise_unary(alloc, f)?;
        Ok(())
    }

    fn compwise_binary<F: Fn(&LiteralInstance, &LiteralInstance) -> Result<LiteralInstance, Error>>(
        &self,
        alloc: Global,
        rhs: &MatInstance,
        f: F,
    ) -> Result<MatInstance, Error> {
        if !have_one_shape(self, rhs) {
            return Err(Error::CompwiseBinary(self.ty(alloc)?, rhs.ty(alloc)?));
        }
        let mut columns = Vec::with_capacity(alloc, self.c())?;
        for i in 0..self.c() {
            let components = answers_at_pairs(alloc, column(self, i), column(rhs, i), &f)?;
            columns
                .push(Instance::Vec(VecInstance::new(components)))
                .unwrap();
        }
        Ok(MatInstance::from_cols(columns))
    }

    fn compwise_binary_mut<
        F: Fn(&LiteralInstance, &LiteralInstance) -> Result<LiteralInstance, Error>,
    >(&mut self, alloc: Global, rhs: &MatInstance, f: F) -> Result<(), Error> {
        *self = self.compwise_binary(alloc, rhs, f)?;
        Ok(())
    }
}

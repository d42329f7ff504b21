//! The operators on a vector and a scalar (WGSL: arithmetic expressions).

ghost use Rattle.std.specs.Prelude.{◌≡◌, IfOk};
ghost use Rattle.wgsl_value_ops.specs.Vectors.{dot_product, of_scalar_before, of_vector_scalar, total};
ghost use Rattle.wgsl_rules.specs.Paths.{parts};
ghost use Rattle.wgsl_rules.specs.Values.{IsStorable, IsWellFormed};
ghost use Rattle.wgsl_rules.specs.declared.syntax.BinaryOperator.TheVariants as between;
ghost use Rattle.wgsl_scalar.specs.Answers.{Answers, Gives};
ghost use Rattle.wgsl_scalar.specs.Literals.{literal_of};
ghost use Rattle.wgsl_values.specs.View.{vec_view};

use crate::lifted::{of_components, of_scalar_vector, of_vector_scalar};
use crate::operators::literal_at;
use std::alloc::Global;
use wgsl_rules::{BinaryOperator, ShaderStage, Ty};
use wgsl_scalar::{Error, LiteralInstance};
use wgsl_values::VecInstance;

/// The operators on a vector and a scalar: both in their common type, then component by component.
/// Without one they are refused by `Binary` with the type of the vector first.
pub trait VecOperators: Sized + Ty {
    /// Of `op_add`.
    fn op_add_sca(
        &self,
        alloc: Global,
        rhs: &LiteralInstance,
        stage: ShaderStage,
    ) -> Result<Self, Error>
        requires { IsWellFormed (Self.value_of self.now) }
        ensures value { Gives Self.value_of result (of_vector_scalar between.Addition stage (Self.value_of self.now) (literal_of rhs.now)) }
        ensures storable { IfOk result (λ v. IsStorable (Self.value_of v)) };

    /// Of `op_sub`.
    fn op_sub_sca(
        &self,
        alloc: Global,
        rhs: &LiteralInstance,
        stage: ShaderStage,
    ) -> Result<Self, Error>
        requires { IsWellFormed (Self.value_of self.now) }
        ensures value { Gives Self.value_of result (of_vector_scalar between.Subtraction stage (Self.value_of self.now) (literal_of rhs.now)) }
        ensures storable { IfOk result (λ v. IsStorable (Self.value_of v)) };

    /// Of `op_mul`.
    fn op_mul_sca(
        &self,
        alloc: Global,
        rhs: &LiteralInstance,
        stage: ShaderStage,
    ) -> Result<Self, Error>
        requires { IsWellFormed (Self.value_of self.now) }
        ensures value { Gives Self.value_of result (of_vector_scalar between.Multiplication stage (Self.value_of self.now) (literal_of rhs.now)) }
        ensures storable { IfOk result (λ v. IsStorable (Self.value_of v)) };

    /// Of `op_div`.
    fn op_div_sca(
        &self,
        alloc: Global,
        rhs: &LiteralInstance,
        stage: ShaderStage,
    ) -> Result<Self, Error>
        requires { IsWellFormed (Self.value_of self.now) }
        ensures value { Gives Self.value_of result (of_vector_scalar between.Division stage (Self.value_of self.now) (literal_of rhs.now)) }
        ensures storable { IfOk result (λ v. IsStorable (Self.value_of v)) };

    /// Of `op_rem`.
    fn op_rem_sca(
        &self,
        alloc: Global,
        rhs: &LiteralInstance,
        stage: ShaderStage,
    ) -> Result<Self, Error>
        requires { IsWellFormed (Self.value_of self.now) }
        ensures value { Gives Self.value_of result (of_vector_scalar between.Remainder stage (Self.value_of self.now) (literal_of rhs.now)) }
        ensures storable { IfOk result (λ v. IsStorable (Self.value_of v)) };

    /// All products first, and then their sum from the left (WGSL: dot). Unequal counts are refused by
    /// `CompwiseBinary`.
    fn dot(&self, alloc: Global, rhs: &Self, stage: ShaderStage) -> Result<LiteralInstance, Error>
        requires own { IsWellFormed (Self.value_of self.now) }
        requires others { IsWellFormed (Self.value_of rhs.now) }
        ensures { Gives literal_of result (dot_product stage (Self.value_of self.now) (Self.value_of rhs.now)) };
}

impl VecOperators for VecInstance {
    fn op_add_sca(
        &self,
        alloc: Global,
        rhs: &LiteralInstance,
        stage: ShaderStage,
    ) -> Result<VecInstance, Error> {
        of_vector_scalar(alloc, BinaryOperator::Addition, stage, self, rhs)
    }

    fn op_sub_sca(
        &self,
        alloc: Global,
        rhs: &LiteralInstance,
        stage: ShaderStage,
    ) -> Result<VecInstance, Error> {
        of_vector_scalar(alloc, BinaryOperator::Subtraction, stage, self, rhs)
    }

    fn op_mul_sca(
        &self,
        alloc: Global,
        rhs: &LiteralInstance,
        stage: ShaderStage,
    ) -> Result<VecInstance, Error> {
        of_vector_scalar(alloc, BinaryOperator::Multiplication, stage, self, rhs)
    }

    fn op_div_sca(
        &self,
        alloc: Global,
        rhs: &LiteralInstance,
        stage: ShaderStage,
    ) -> Result<VecInstance, Error> {
        of_vector_scalar(alloc, BinaryOperator::Division, stage, self, rhs)
    }

    fn op_rem_sca(
        &self,
        alloc: Global,
        rhs: &LiteralInstance,
        stage: ShaderStage,
    ) -> Result<VecInstance, Error> {
        of_vector_scalar(alloc, BinaryOperator::Remainder, stage, self, rhs)
    }

    fn dot(
        &self,
        alloc: Global,
        rhs: &VecInstance,
        stage: ShaderStage,
    ) -> Result<LiteralInstance, Error> {
        let products = of_components(alloc, BinaryOperator::Multiplication, stage, self, rhs)?;
        total(&products, stage)
    }
}

// The sum of the components, from the left.
fn total(vector: &VecInstance, stage: ShaderStage) -> Result<LiteralInstance, Error>
    requires { IsWellFormed (vec_view vector.now) }
    ensures { Answers literal_of result (total (parts (vec_view vector.now))) }
{
    let components = vector.as_slice();
    let mut sum = literal_at(components, 0);
    for i in 1..components.len() {
        sum = sum.op_add(&literal_at(components, i), stage)?;
    }
    Ok(sum)
}

/// The operators on a scalar and a vector. A sum and a product are those of the vector and the scalar, the
/// types in a refusal included.
pub trait ScalarOperators: Sized + Ty {
    /// Of `op_add`.
    fn op_add_vec(
        &self,
        alloc: Global,
        rhs: &VecInstance,
        stage: ShaderStage,
    ) -> Result<VecInstance, Error>
        requires { IsWellFormed (vec_view rhs.now) }
        ensures value { Gives vec_view result (of_scalar_before between.Addition stage (Self.value_of self.now) (vec_view rhs.now)) }
        ensures storable { IfOk result (λ v. IsStorable (vec_view v)) };

    /// Of `op_sub`.
    fn op_sub_vec(
        &self,
        alloc: Global,
        rhs: &VecInstance,
        stage: ShaderStage,
    ) -> Result<VecInstance, Error>
        requires { IsWellFormed (vec_view rhs.now) }
        ensures value { Gives vec_view result (of_scalar_before between.Subtraction stage (Self.value_of self.now) (vec_view rhs.now)) }
        ensures storable { IfOk result (λ v. IsStorable (vec_view v)) };

    /// Of `op_mul`.
    fn op_mul_vec(
        &self,
        alloc: Global,
        rhs: &VecInstance,
        stage: ShaderStage,
    ) -> Result<VecInstance, Error>
        requires { IsWellFormed (vec_view rhs.now) }
        ensures value { Gives vec_view result (of_scalar_before between.Multiplication stage (Self.value_of self.now) (vec_view rhs.now)) }
        ensures storable { IfOk result (λ v. IsStorable (vec_view v)) };

    /// Of `op_div`.
    fn op_div_vec(
        &self,
        alloc: Global,
        rhs: &VecInstance,
        stage: ShaderStage,
    ) -> Result<VecInstance, Error>
        requires { IsWellFormed (vec_view rhs.now) }
        ensures value { Gives vec_view result (of_scalar_before between.Division stage (Self.value_of self.now) (vec_view rhs.now)) }
        ensures storable { IfOk result (λ v. IsStorable (vec_view v)) };

    /// Of `op_rem`.
    fn op_rem_vec(
        &self,
        alloc: Global,
        rhs: &VecInstance,
        stage: ShaderStage,
    ) -> Result<VecInstance, Error>
        requires { IsWellFormed (vec_view rhs.now) }
        ensures value { Gives vec_view result (of_scalar_before between.Remainder stage (Self.value_of self.now) (vec_view rhs.now)) }
        ensures storable { IfOk result (λ v. IsStorable (vec_view v)) };
}

impl ScalarOperators for LiteralInstance {
    fn op_add_vec(
        &self,
        alloc: Global,
        rhs: &VecInstance,
        stage: ShaderStage,
    ) -> Result<VecInstance, Error> {
        of_vector_scalar(alloc, BinaryOperator::Addition, stage, rhs, self)
    }

    fn op_sub_vec(
        &self,
        alloc: Global,
        rhs: &VecInstance,
        stage: ShaderStage,
    ) -> Result<VecInstance, Error> {
        of_scalar_vector(alloc, BinaryOperator::Subtraction, stage, self, rhs)
    }

    fn op_mul_vec(
        &self,
        alloc: Global,
        rhs: &VecInstance,
        stage: ShaderStage,
    ) -> Result<VecInstance, Error> {
        of_vector_scalar(alloc, BinaryOperator::Multiplication, stage, rhs, self)
    }

    fn op_div_vec(
        &self,
        alloc: Global,
        rhs: &VecInstance,
        stage: ShaderStage,
    ) -> Result<VecInstance, Error> {
        of_scalar_vector(alloc, BinaryOperator::Division, stage, self, rhs)
    }

    fn op_rem_vec(
        &self,
        alloc: Global,
        rhs: &VecInstance,
        stage: ShaderStage,
    ) -> Result<VecInstance, Error> {
        of_scalar_vector(alloc, BinaryOperator::Remainder, stage, self, rhs)
    }
}

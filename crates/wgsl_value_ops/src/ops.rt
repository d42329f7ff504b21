//! The operators on vectors and on values of every kind (WGSL: expressions).

ghost use Rattle.std.specs.Prelude.{IfOk};
ghost use Rattle.wgsl_value_ops.specs.Instances.{of_one, of_two};
ghost use Rattle.wgsl_rules.specs.Values.{IsStorable, IsWellFormed};
ghost use Rattle.wgsl_rules.specs.declared.syntax.BinaryOperator.TheVariants as between;
ghost use Rattle.wgsl_rules.specs.declared.syntax.ShaderStage.TheVariants as stages;
ghost use Rattle.wgsl_rules.specs.declared.syntax.UnaryOperator.TheVariants as before;
ghost use Rattle.wgsl_scalar.specs.Answers.{Gives};
ghost use Rattle.wgsl_values.specs.View.{value_of, vec_view};

use crate::instances::{of_one, of_two};
use crate::lifted::{of_components, of_converted, of_each};
use std::alloc::Global;
use wgsl_rules::{BinaryOperator, ShaderStage, Ty, UnaryOperator};
use wgsl_scalar::Error;
use wgsl_values::{Instance, VecInstance};

/// The operators of WGSL on vectors and on values of every kind.
///
/// Both values are well-formed: that is the condition of each call. Vectors are taken component by
/// component, and the first refusal in their order is answered. A value that is no literal and no vector is
/// refused with its type: a call then calls itself for each level of that: keep to 4,095 within a stack
/// of 8 MiB.
pub trait Operators: Sized + Ty {
    /// The other bool at each component; `Unary` of numbers (WGSL: logical expressions, `!`).
    fn op_not(&self, alloc: Global) -> Result<Self, Error>
        requires { IsWellFormed (Self.value_of self.now) }
        ensures value { Gives Self.value_of result (of_one before.LogicalNegation (Self.value_of self.now)) }
        ensures storable { IfOk result (λ v. IsStorable (Self.value_of v)) };

    /// The negative (WGSL: arithmetic expressions, unary `-`).
    fn op_neg(&self, alloc: Global) -> Result<Self, Error>
        requires { IsWellFormed (Self.value_of self.now) }
        ensures value { Gives Self.value_of result (of_one before.Negation (Self.value_of self.now)) }
        ensures storable { IfOk result (λ v. IsStorable (Self.value_of v)) };

    /// Each bit turned (WGSL: bit expressions, `~`).
    fn op_bitnot(&self, alloc: Global) -> Result<Self, Error>
        requires { IsWellFormed (Self.value_of self.now) }
        ensures value { Gives Self.value_of result (of_one before.BitwiseComplement (Self.value_of self.now)) }
        ensures storable { IfOk result (λ v. IsStorable (Self.value_of v)) };

    /// The sum (WGSL: arithmetic expressions, `+`).
    fn op_add(&self, alloc: Global, rhs: &Self, stage: ShaderStage) -> Result<Self, Error>
        requires own { IsWellFormed (Self.value_of self.now) }
        requires others { IsWellFormed (Self.value_of rhs.now) }
        ensures value { Gives Self.value_of result (of_two between.Addition stage (Self.value_of self.now) (Self.value_of rhs.now)) }
        ensures storable { IfOk result (λ v. IsStorable (Self.value_of v)) };

    /// The difference (WGSL: arithmetic expressions, `-`).
    fn op_sub(&self, alloc: Global, rhs: &Self, stage: ShaderStage) -> Result<Self, Error>
        requires own { IsWellFormed (Self.value_of self.now) }
        requires others { IsWellFormed (Self.value_of rhs.now) }
        ensures value { Gives Self.value_of result (of_two between.Subtraction stage (Self.value_of self.now) (Self.value_of rhs.now)) }
        ensures storable { IfOk result (λ v. IsStorable (Self.value_of v)) };

    /// The product (WGSL: arithmetic expressions, `*`).
    fn op_mul(&self, alloc: Global, rhs: &Self, stage: ShaderStage) -> Result<Self, Error>
        requires own { IsWellFormed (Self.value_of self.now) }
        requires others { IsWellFormed (Self.value_of rhs.now) }
        ensures value { Gives Self.value_of result (of_two between.Multiplication stage (Self.value_of self.now) (Self.value_of rhs.now)) }
        ensures storable { IfOk result (λ v. IsStorable (Self.value_of v)) };

    /// The quotient, cut toward zero (WGSL: arithmetic expressions, `/`).
    fn op_div(&self, alloc: Global, rhs: &Self, stage: ShaderStage) -> Result<Self, Error>
        requires own { IsWellFormed (Self.value_of self.now) }
        requires others { IsWellFormed (Self.value_of rhs.now) }
        ensures value { Gives Self.value_of result (of_two between.Division stage (Self.value_of self.now) (Self.value_of rhs.now)) }
        ensures storable { IfOk result (λ v. IsStorable (Self.value_of v)) };

    /// What the quotient leaves (WGSL: arithmetic expressions, `%`).
    fn op_rem(&self, alloc: Global, rhs: &Self, stage: ShaderStage) -> Result<Self, Error>
        requires own { IsWellFormed (Self.value_of self.now) }
        requires others { IsWellFormed (Self.value_of rhs.now) }
        ensures value { Gives Self.value_of result (of_two between.Remainder stage (Self.value_of self.now) (Self.value_of rhs.now)) }
        ensures storable { IfOk result (λ v. IsStorable (Self.value_of v)) };

    /// Whether equal (WGSL: comparison expressions, `==`).
    fn op_eq(&self, alloc: Global, rhs: &Self) -> Result<Self, Error>
        requires own { IsWellFormed (Self.value_of self.now) }
        requires others { IsWellFormed (Self.value_of rhs.now) }
        ensures value { Gives Self.value_of result (of_two between.Equality stages.Exec (Self.value_of self.now) (Self.value_of rhs.now)) }
        ensures storable { IfOk result (λ v. IsStorable (Self.value_of v)) };

    /// Whether unequal (WGSL: comparison expressions, `!=`).
    fn op_ne(&self, alloc: Global, rhs: &Self) -> Result<Self, Error>
        requires own { IsWellFormed (Self.value_of self.now) }
        requires others { IsWellFormed (Self.value_of rhs.now) }
        ensures value { Gives Self.value_of result (of_two between.Inequality stages.Exec (Self.value_of self.now) (Self.value_of rhs.now)) }
        ensures storable { IfOk result (λ v. IsStorable (Self.value_of v)) };

    /// Whether less (WGSL: comparison expressions, `<`).
    fn op_lt(&self, alloc: Global, rhs: &Self) -> Result<Self, Error>
        requires own { IsWellFormed (Self.value_of self.now) }
        requires others { IsWellFormed (Self.value_of rhs.now) }
        ensures value { Gives Self.value_of result (of_two between.LessThan stages.Exec (Self.value_of self.now) (Self.value_of rhs.now)) }
        ensures storable { IfOk result (λ v. IsStorable (Self.value_of v)) };

    /// Whether at most (WGSL: comparison expressions, `<=`).
    fn op_le(&self, alloc: Global, rhs: &Self) -> Result<Self, Error>
        requires own { IsWellFormed (Self.value_of self.now) }
        requires others { IsWellFormed (Self.value_of rhs.now) }
        ensures value { Gives Self.value_of result (of_two between.LessThanEqual stages.Exec (Self.value_of self.now) (Self.value_of rhs.now)) }
        ensures storable { IfOk result (λ v. IsStorable (Self.value_of v)) };

    /// Whether greater (WGSL: comparison expressions, `>`).
    fn op_gt(&self, alloc: Global, rhs: &Self) -> Result<Self, Error>
        requires own { IsWellFormed (Self.value_of self.now) }
        requires others { IsWellFormed (Self.value_of rhs.now) }
        ensures value { Gives Self.value_of result (of_two between.GreaterThan stages.Exec (Self.value_of self.now) (Self.value_of rhs.now)) }
        ensures storable { IfOk result (λ v. IsStorable (Self.value_of v)) };

    /// Whether at least (WGSL: comparison expressions, `>=`).
    fn op_ge(&self, alloc: Global, rhs: &Self) -> Result<Self, Error>
        requires own { IsWellFormed (Self.value_of self.now) }
        requires others { IsWellFormed (Self.value_of rhs.now) }
        ensures value { Gives Self.value_of result (of_two between.GreaterThanEqual stages.Exec (Self.value_of self.now) (Self.value_of rhs.now)) }
        ensures storable { IfOk result (λ v. IsStorable (Self.value_of v)) };

    /// The bits of either (WGSL: bit expressions, `|`).
    fn op_bitor(&self, alloc: Global, rhs: &Self) -> Result<Self, Error>
        requires own { IsWellFormed (Self.value_of self.now) }
        requires others { IsWellFormed (Self.value_of rhs.now) }
        ensures value { Gives Self.value_of result (of_two between.BitwiseOr stages.Exec (Self.value_of self.now) (Self.value_of rhs.now)) }
        ensures storable { IfOk result (λ v. IsStorable (Self.value_of v)) };

    /// The bits of both (WGSL: bit expressions, `&`).
    fn op_bitand(&self, alloc: Global, rhs: &Self) -> Result<Self, Error>
        requires own { IsWellFormed (Self.value_of self.now) }
        requires others { IsWellFormed (Self.value_of rhs.now) }
        ensures value { Gives Self.value_of result (of_two between.BitwiseAnd stages.Exec (Self.value_of self.now) (Self.value_of rhs.now)) }
        ensures storable { IfOk result (λ v. IsStorable (Self.value_of v)) };

    /// The bits of one alone (WGSL: bit expressions, `^`).
    fn op_bitxor(&self, alloc: Global, rhs: &Self) -> Result<Self, Error>
        requires own { IsWellFormed (Self.value_of self.now) }
        requires others { IsWellFormed (Self.value_of rhs.now) }
        ensures value { Gives Self.value_of result (of_two between.BitwiseXor stages.Exec (Self.value_of self.now) (Self.value_of rhs.now)) }
        ensures storable { IfOk result (λ v. IsStorable (Self.value_of v)) };

    /// The number times 2 to the count (WGSL: bit expressions, `<<`).
    fn op_shl(&self, alloc: Global, rhs: &Self, stage: ShaderStage) -> Result<Self, Error>
        requires own { IsWellFormed (Self.value_of self.now) }
        requires others { IsWellFormed (Self.value_of rhs.now) }
        ensures value { Gives Self.value_of result (of_two between.ShiftLeft stage (Self.value_of self.now) (Self.value_of rhs.now)) }
        ensures storable { IfOk result (λ v. IsStorable (Self.value_of v)) };

    /// The number by 2 to the count, rounded down (WGSL: bit expressions, `>>`).
    fn op_shr(&self, alloc: Global, rhs: &Self, stage: ShaderStage) -> Result<Self, Error>
        requires own { IsWellFormed (Self.value_of self.now) }
        requires others { IsWellFormed (Self.value_of rhs.now) }
        ensures value { Gives Self.value_of result (of_two between.ShiftRight stage (Self.value_of self.now) (Self.value_of rhs.now)) }
        ensures storable { IfOk result (λ v. IsStorable (Self.value_of v)) };
}

impl Operators for VecInstance {
    fn op_not(&self, alloc: Global) -> Result<VecInstance, Error> {
        of_each(alloc, UnaryOperator::LogicalNegation, self)
    }

    fn op_neg(&self, alloc: Global) -> Result<VecInstance, Error> {
        of_each(alloc, UnaryOperator::Negation, self)
    }

    fn op_bitnot(&self, alloc: Global) -> Result<VecInstance, Error> {
        of_each(alloc, UnaryOperator::BitwiseComplement, self)
    }

    fn op_add(
        &self,
        alloc: Global,
        rhs: &VecInstance,
        stage: ShaderStage,
    ) -> Result<VecInstance, Error> {
        of_converted(alloc, BinaryOperator::Addition, stage, self, rhs)
    }

    fn op_sub(
        &self,
        alloc: Global,
        rhs: &VecInstance,
        stage: ShaderStage,
    ) -> Result<VecInstance, Error> {
        of_converted(alloc, BinaryOperator::Subtraction, stage, self, rhs)
    }

    fn op_mul(
        &self,
        alloc: Global,
        rhs: &VecInstance,
        stage: ShaderStage,
    ) -> Result<VecInstance, Error> {
        of_converted(alloc, BinaryOperator::Multiplication, stage, self, rhs)
    }

    fn op_div(
        &self,
        alloc: Global,
        rhs: &VecInstance,
        stage: ShaderStage,
    ) -> Result<VecInstance, Error> {
        of_converted(alloc, BinaryOperator::Division, stage, self, rhs)
    }

    fn op_rem(
        &self,
        alloc: Global,
        rhs: &VecInstance,
        stage: ShaderStage,
    ) -> Result<VecInstance, Error> {
        of_converted(alloc, BinaryOperator::Remainder, stage, self, rhs)
    }

    fn op_eq(&self, alloc: Global, rhs: &VecInstance) -> Result<VecInstance, Error> {
        of_converted(
            alloc,
            BinaryOperator::Equality,
            ShaderStage::Exec,
            self,
            rhs,
        )
    }

    fn op_ne(&self, alloc: Global, rhs: &VecInstance) -> Result<VecInstance, Error> {
        of_converted(
            alloc,
            BinaryOperator::Inequality,
            ShaderStage::Exec,
            self,
            rhs,
        )
    }

    fn op_lt(&self, alloc: Global, rhs: &VecInstance) -> Result<VecInstance, Error> {
        of_converted(
            alloc,
            BinaryOperator::LessThan,
            ShaderStage::Exec,
            self,
            rhs,
        )
    }

    fn op_le(&self, alloc: Global, rhs: &VecInstance) -> Result<VecInstance, Error> {
        of_converted(
            alloc,
            BinaryOperator::LessThanEqual,
            ShaderStage::Exec,
            self,
            rhs,
        )
    }

    fn op_gt(&self, alloc: Global, rhs: &VecInstance) -> Result<VecInstance, Error> {
        of_converted(
            alloc,
            BinaryOperator::GreaterThan,
            ShaderStage::Exec,
            self,
            rhs,
        )
    }

    fn op_ge(&self, alloc: Global, rhs: &VecInstance) -> Result<VecInstance, Error> {
        of_converted(
            alloc,
            BinaryOperator::GreaterThanEqual,
            ShaderStage::Exec,
            self,
            rhs,
        )
    }

    fn op_bitor(&self, alloc: Global, rhs: &VecInstance) -> Result<VecInstance, Error> {
        of_components(
            alloc,
            BinaryOperator::BitwiseOr,
            ShaderStage::Exec,
            self,
            rhs,
        )
    }

    fn op_bitand(&self, alloc: Global, rhs: &VecInstance) -> Result<VecInstance, Error> {
        of_components(
            alloc,
            BinaryOperator::BitwiseAnd,
            ShaderStage::Exec,
            self,
            rhs,
        )
    }

    fn op_bitxor(&self, alloc: Global, rhs: &VecInstance) -> Result<VecInstance, Error> {
        of_components(
            alloc,
            BinaryOperator::BitwiseXor,
            ShaderStage::Exec,
            self,
            rhs,
        )
    }

    fn op_shl(
        &self,
        alloc: Global,
        rhs: &VecInstance,
        stage: ShaderStage,
    ) -> Result<VecInstance, Error> {
        of_components(alloc, BinaryOperator::ShiftLeft, stage, self, rhs)
    }

    fn op_shr(
        &self,
        alloc: Global,
        rhs: &VecInstance,
        stage: ShaderStage,
    ) -> Result<VecInstance, Error> {
        of_components(alloc, BinaryOperator::ShiftRight, stage, self, rhs)
    }
}

impl Operators for Instance {
    fn op_not(&self, alloc: Global) -> Result<Instance, Error> {
        of_one(alloc, UnaryOperator::LogicalNegation, self)
    }

    fn op_neg(&self, alloc: Global) -> Result<Instance, Error> {
        of_one(alloc, UnaryOperator::Negation, self)
    }

    fn op_bitnot(&self, alloc: Global) -> Result<Instance, Error> {
        of_one(alloc, UnaryOperator::BitwiseComplement, self)
    }

    fn op_add(&self, alloc: Global, rhs: &Instance, stage: ShaderStage) -> Result<Instance, Error> {
        of_two(alloc, BinaryOperator::Addition, stage, self, rhs)
    }

    fn op_sub(&self, alloc: Global, rhs: &Instance, stage: ShaderStage) -> Result<Instance, Error> {
        of_two(alloc, BinaryOperator::Subtraction, stage, self, rhs)
    }

    fn op_mul(&self, alloc: Global, rhs: &Instance, stage: ShaderStage) -> Result<Instance, Error> {
        of_two(alloc, BinaryOperator::Multiplication, stage, self, rhs)
    }

    fn op_div(&self, alloc: Global, rhs: &Instance, stage: ShaderStage) -> Result<Instance, Error> {
        of_two(alloc, BinaryOperator::Division, stage, self, rhs)
    }

    fn op_rem(&self, alloc: Global, rhs: &Instance, stage: ShaderStage) -> Result<Instance, Error> {
        of_two(alloc, BinaryOperator::Remainder, stage, self, rhs)
    }

    fn op_eq(&self, alloc: Global, rhs: &Instance) -> Result<Instance, Error> {
        of_two(
            alloc,
            BinaryOperator::Equality,
            ShaderStage::Exec,
            self,
            rhs,
        )
    }

    fn op_ne(&self, alloc: Global, rhs: &Instance) -> Result<Instance, Error> {
        of_two(
            alloc,
            BinaryOperator::Inequality,
            ShaderStage::Exec,
            self,
            rhs,
        )
    }

    fn op_lt(&self, alloc: Global, rhs: &Instance) -> Result<Instance, Error> {
        of_two(
            alloc,
            BinaryOperator::LessThan,
            ShaderStage::Exec,
            self,
            rhs,
        )
    }

    fn op_le(&self, alloc: Global, rhs: &Instance) -> Result<Instance, Error> {
        of_two(
            alloc,
            BinaryOperator::LessThanEqual,
            ShaderStage::Exec,
            self,
            rhs,
        )
    }

    fn op_gt(&self, alloc: Global, rhs: &Instance) -> Result<Instance, Error> {
        of_two(
            alloc,
            BinaryOperator::GreaterThan,
            ShaderStage::Exec,
            self,
            rhs,
        )
    }

    fn op_ge(&self, alloc: Global, rhs: &Instance) -> Result<Instance, Error> {
        of_two(
            alloc,
            BinaryOperator::GreaterThanEqual,
            ShaderStage::Exec,
            self,
            rhs,
        )
    }

    fn op_bitor(&self, alloc: Global, rhs: &Instance) -> Result<Instance, Error> {
        of_two(
            alloc,
            BinaryOperator::BitwiseOr,
            ShaderStage::Exec,
            self,
            rhs,
        )
    }

    fn op_bitand(&self, alloc: Global, rhs: &Instance) -> Result<Instance, Error> {
        of_two(
            alloc,
            BinaryOperator::BitwiseAnd,
            ShaderStage::Exec,
            self,
            rhs,
        )
    }

    fn op_bitxor(&self, alloc: Global, rhs: &Instance) -> Result<Instance, Error> {
        of_two(
            alloc,
            BinaryOperator::BitwiseXor,
            ShaderStage::Exec,
            self,
            rhs,
        )
    }

    fn op_shl(&self, alloc: Global, rhs: &Instance, stage: ShaderStage) -> Result<Instance, Error> {
        of_two(alloc, BinaryOperator::ShiftLeft, stage, self, rhs)
    }

    fn op_shr(&self, alloc: Global, rhs: &Instance, stage: ShaderStage) -> Result<Instance, Error> {
        of_two(alloc, BinaryOperator::ShiftRight, stage, self, rhs)
    }
}

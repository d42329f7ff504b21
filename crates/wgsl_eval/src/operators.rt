//! Operators between the answers before them (WGSL: operators).

ghost use Rattle.std.specs.Prelude.{◌≡◌, IfOk, false};
ghost use Rattle.wgsl_values.specs.View.{value_of as val_of};
ghost use Rattle.wgsl_eval.specs.Answers.{IsAnswer, IsSoundValue};
ghost use Rattle.wgsl_eval.specs.Evaluators.{setting_of};
ghost use Rattle.wgsl_eval.specs.Given.{IsOfOne, IsOfTwo, IsOfValue, IsOfValues, UnlessRefused, is_decided};

use crate::answer::{Answer, Guard, Value};
use crate::evaluator::Evaluator;
use std::alloc::AllocError;
use wgsl_apply::{Asked, against_operator};
use wgsl_rules::{BinaryOperator, UnaryOperator};
use wgsl_scalar::LiteralInstance;
use wgsl_values::Instance;

impl Evaluator<'_> {
    pub(crate) fn unary(
        &mut self,
        operator: UnaryOperator,
        token: usize,
        operand: Answer,
    ) -> Result<Answer, AllocError>
        requires { IsAnswer operand }
        ensures keeps { setting_of self.new ≡ setting_of self.old }
        ensures given { IfOk result (λ answer. UnlessRefused self.old.reading.now token answer (IsOfOne operator operand answer)) }
        ensures answer { IfOk result IsAnswer }
    {
        if self.reading.is_refused(token) {
            drop(operand);
            return Ok(Answer::Faulty);
        }
        match operand {
            Answer::Value(value) => self.of_one(operator, token, value),
            other => self.unready(token, other),
        }
    }

    fn of_one(
        &self,
        operator: UnaryOperator,
        token: usize,
        value: Value,
    ) -> Result<Answer, AllocError>
        ensures given { IfOk result (IsOfValue operator (val_of value.instance)) }
        ensures answer { IfOk result IsAnswer }
    {
        let answer = self.of_operand(operator, token, &value);
        drop(value);
        answer
    }

    // The operator before an operand that is lent.
    fn of_operand(
        &self,
        operator: UnaryOperator,
        token: usize,
        value: &Value,
    ) -> Result<Answer, AllocError>
        ensures given { IfOk result (IsOfValue operator (val_of value.now.instance)) }
        ensures answer { IfOk result IsAnswer }
    {
        match wgsl_apply::unary(self.alloc, operator, &value.instance) {
            Ok(answer) => Ok(Answer::Value(Value::answered(answer, value.size))),
            Err(error) => {
                let answer = self.refused(token, &error, Asked::Unary(operator, &value.instance));
                drop(error);
                answer
            }
        }
    }

    pub(crate) fn binary(
        &mut self,
        operator: BinaryOperator,
        token: usize,
        left: Answer,
        right: Answer,
    ) -> Result<Answer, AllocError>
        requires left { IsAnswer left }
        requires right { IsAnswer right }
        ensures keeps { setting_of self.new ≡ setting_of self.old }
        ensures given { IfOk result (λ answer. UnlessRefused self.old.reading.now token answer (IsOfTwo (setting_of self.old) operator left right answer)) }
        ensures answer { IfOk result IsAnswer }
    {
        if self.reading.is_refused(token) {
            drop(left);
            drop(right);
            return Ok(Answer::Faulty);
        }
        match left {
            Answer::Value(left) => self.binary_with(operator, token, left, right),
            other => {
                drop(right);
                self.unready(token, other)
            }
        }
    }

    // The operator behind a left operand that is a value.
    fn binary_with(
        &mut self,
        operator: BinaryOperator,
        token: usize,
        left: Value,
        right: Answer,
    ) -> Result<Answer, AllocError>
        requires left { IsSoundValue left }
        requires right { IsAnswer right }
        ensures keeps { setting_of self.new ≡ setting_of self.old }
        ensures given { IfOk result (IsOfTwo (setting_of self.old) operator (Answer.Value left) right) }
        ensures answer { IfOk result IsAnswer }
    {
        match right {
            Answer::Value(right) => self.of_two(operator, token, left, right),
            Answer::Wrong(message, Guard::Guarded) if is_decided(operator, &left.instance) => {
                drop(message);
                Ok(Answer::Value(left))
            }
            other => {
                drop(left);
                self.unready(token, other)
            }
        }
    }

    fn of_two(
        &mut self,
        operator: BinaryOperator,
        token: usize,
        left: Value,
        right: Value,
    ) -> Result<Answer, AllocError>
        ensures keeps { setting_of self.new ≡ setting_of self.old }
        ensures given { IfOk result (IsOfValues self.old.stage self.old.is_strict operator (val_of left.instance) (val_of right.instance)) }
        ensures answer { IfOk result IsAnswer }
    {
        let answer = self.of_operands(operator, token, &left, &right);
        drop(left);
        drop(right);
        answer
    }

    // The operator between operands that are lent.
    fn of_operands(
        &mut self,
        operator: BinaryOperator,
        token: usize,
        left: &Value,
        right: &Value,
    ) -> Result<Answer, AllocError>
        ensures keeps { setting_of self.new ≡ setting_of self.old }
        ensures given { IfOk result (IsOfValues self.old.stage self.old.is_strict operator (val_of left.now.instance) (val_of right.now.instance)) }
        ensures answer { IfOk result IsAnswer }
    {
        let (a, b) = (&left.instance, &right.instance);
        match wgsl_apply::binary(self.alloc, operator, self.stage, a, b) {
            Ok(answer) => {
                let value = Value::answered(answer, left.size.larger(right.size));
                let against = against_operator(operator, self.stage, a, b);
                self.judged(token, value, against)
            }
            Err(error) => {
                let answer = self.refused(token, &error, Asked::Binary(operator, a, b));
                drop(error);
                answer
            }
        }
    }
}

// Whether the operator does not evaluate its right operand.
fn is_decided(operator: BinaryOperator, left: &Instance) -> bool
    ensures { result ≡ is_decided operator (val_of left.now) }
{
    match (operator, left) {
        (BinaryOperator::ShortCircuitAnd, Instance::Literal(LiteralInstance::Bool(false))) => true,
        (BinaryOperator::ShortCircuitOr, Instance::Literal(LiteralInstance::Bool(true))) => true,
        _ => false,
    }
}

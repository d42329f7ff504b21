//! Steps that take answers away. Those of which a step takes all are copied where they name a value.
//! Each kind of step is a function of its own, since a function clears the room of all its locals when it begins.

ghost use Rattle.std.specs.Prelude.{◌≡◌, IfOk, OnOk};
ghost use Rattle.wgsl_source.specs.declared.expression.Callee.TheVariants as callees;
ghost use Rattle.wgsl_source.specs.declared.expression.Step.TheVariants as steps;
ghost use Rattle.wgsl_eval.specs.Answers.{AreAnswers};
ghost use Rattle.wgsl_eval.specs.Evaluators.{setting_of};
ghost use Rattle.wgsl_eval.specs.Waitings.{AreWaiting, IsDone, IsWaiting};

use crate::answer::Answer;
use crate::evaluator::Evaluator;
use crate::waiting::popped_waiting;
use std::alloc::AllocError;
use wgsl_rules::{BinaryOperator, UnaryOperator};

impl Evaluator<'_> {
    /// The step of an operator with one operand.
    pub(crate) fn unary_step(
        &mut self,
        operator: UnaryOperator,
        token: usize,
        answers: &mut Vec<Answer>,
    ) -> Result<Answer, AllocError>
        requires { AreWaiting self.old.meanings.items answers.old.items }
        ensures keeps { setting_of self.new ≡ setting_of self.old }
        ensures done { IfOk result (IsDone (setting_of self.old) (steps.Unary operator token) answers.old.items answers.new.items) }
        ensures left { OnOk result (AreWaiting self.old.meanings.items answers.new.items) }
        ensures next { IfOk result (IsWaiting self.old.meanings.items) }
    {
        self.keep_last(answers)?;
        let operand = popped_waiting(answers);
        self.unary(operator, token, operand)
    }

    /// The step of an operator with two operands.
    pub(crate) fn binary_step(
        &mut self,
        operator: BinaryOperator,
        token: usize,
        answers: &mut Vec<Answer>,
    ) -> Result<Answer, AllocError>
        requires { AreWaiting self.old.meanings.items answers.old.items }
        ensures keeps { setting_of self.new ≡ setting_of self.old }
        ensures done { IfOk result (IsDone (setting_of self.old) (steps.Binary operator token) answers.old.items answers.new.items) }
        ensures left { OnOk result (AreWaiting self.old.meanings.items answers.new.items) }
        ensures next { IfOk result (IsWaiting self.old.meanings.items) }
    {
        self.keep_last(answers)?;
        let right = popped_waiting(answers);
        match self.keep_last(answers) {
            Ok(()) => {
                let left = popped_waiting(answers);
                self.binary(operator, token, left, right)
            }
            Err(error) => {
                drop(right);
                Err(error)
            }
        }
    }

    /// The step of a template list.
    pub(crate) fn template_step(
        &mut self,
        token: usize,
        count: usize,
        answers: &mut Vec<Answer>,
    ) -> Result<Answer, AllocError>
        requires { AreWaiting self.old.meanings.items answers.old.items }
        ensures keeps { setting_of self.new ≡ setting_of self.old }
        ensures done { IfOk result (IsDone (setting_of self.old) (steps.Template token count) answers.old.items answers.new.items) }
        ensures left { OnOk result (AreWaiting self.old.meanings.items answers.new.items) }
        ensures next { IfOk result (IsWaiting self.old.meanings.items) }
    {
        let arguments = self.taken(answers, count)?;
        self.template(token, arguments)
    }

    /// The step of a call by a name.
    pub(crate) fn call_step(
        &mut self,
        token: usize,
        count: usize,
        answers: &mut Vec<Answer>,
    ) -> Result<Answer, AllocError>
        requires meanings { AreAnswers self.old.meanings.items }
        requires answers { AreWaiting self.old.meanings.items answers.old.items }
        ensures keeps { setting_of self.new ≡ setting_of self.old }
        ensures done { IfOk result (IsDone (setting_of self.old) (steps.Call token callees.Name count) answers.old.items answers.new.items) }
        ensures left { OnOk result (AreWaiting self.old.meanings.items answers.new.items) }
        ensures next { IfOk result (IsWaiting self.old.meanings.items) }
    {
        let arguments = self.taken(answers, count)?;
        self.call(token, arguments)
    }

    /// The step of a call of what a template list left.
    pub(crate) fn call_answer_step(
        &mut self,
        token: usize,
        count: usize,
        answers: &mut Vec<Answer>,
    ) -> Result<Answer, AllocError>
        requires { AreWaiting self.old.meanings.items answers.old.items }
        ensures keeps { setting_of self.new ≡ setting_of self.old }
        ensures done { IfOk result (IsDone (setting_of self.old) (steps.Call token callees.Answer count) answers.old.items answers.new.items) }
        ensures left { OnOk result (AreWaiting self.old.meanings.items answers.new.items) }
        ensures next { IfOk result (IsWaiting self.old.meanings.items) }
    {
        let arguments = self.taken(answers, count)?;
        self.keep_last(answers)?;
        let callee = popped_waiting(answers);
        self.call_answer(token, callee, arguments)
    }

    /// The step of a member, which is taken of the value where it is.
    pub(crate) fn member_step(
        &mut self,
        token: usize,
        answers: &mut Vec<Answer>,
    ) -> Result<Answer, AllocError>
        requires { AreWaiting self.old.meanings.items answers.old.items }
        ensures keeps { setting_of self.new ≡ setting_of self.old }
        ensures done { IfOk result (IsDone (setting_of self.old) (steps.Member token) answers.old.items answers.new.items) }
        ensures left { OnOk result (AreWaiting self.old.meanings.items answers.new.items) }
        ensures next { IfOk result (IsWaiting self.old.meanings.items) }
    {
        let whole = popped_waiting(answers);
        self.member(token, whole)
    }

    /// The step of an index; the element is taken of the value where it is.
    pub(crate) fn index_step(
        &mut self,
        token: usize,
        answers: &mut Vec<Answer>,
    ) -> Result<Answer, AllocError>
        requires { AreWaiting self.old.meanings.items answers.old.items }
        ensures keeps { setting_of self.new ≡ setting_of self.old }
        ensures done { IfOk result (IsDone (setting_of self.old) (steps.Index token) answers.old.items answers.new.items) }
        ensures left { OnOk result (AreWaiting self.old.meanings.items answers.new.items) }
        ensures next { IfOk result (IsWaiting self.old.meanings.items) }
    {
        self.keep_last(answers)?;
        let index = popped_waiting(answers);
        let whole = popped_waiting(answers);
        self.index(token, whole, index)
    }
}

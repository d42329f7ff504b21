//! Values in the types to which they convert by themselves (WGSL: feasible automatic conversion).

ghost use Rattle.std.specs.Prelude.{◌≡◌, IfOk, None, Some};
ghost use Rattle.wgsl_rules.specs.View.{type_view};
ghost use Rattle.wgsl_values.specs.View.{value_of as val_of};
ghost use Rattle.wgsl_eval.specs.Answers.{IsAnswer, IsFault, IsSoundValue};
ghost use Rattle.wgsl_eval.specs.Evaluators.{setting_of};
ghost use Rattle.wgsl_eval.specs.Given.{IsConverted};

use crate::answer::{Answer, Guard, Need, Value};
use crate::evaluator::Evaluator;
use crate::sized::SizedType;
use std::alloc::AllocError;
use wgsl_apply::{automatic, has_rank, is_short};
use wgsl_rules::Type;
use wgsl_values::Instance;

impl Evaluator<'_> {
    /// The value in a type to which it converts by itself.
    pub(crate) fn converted(
        &mut self,
        token: usize,
        value: Value,
        of: &SizedType,
    ) -> Result<Answer, AllocError>
        requires { IsSoundValue value }
        ensures keeps { setting_of self.new ≡ setting_of self.old }
        ensures converted { IfOk result (IsConverted (val_of value.instance) (type_view of.now.ty)) }
        ensures answer { IfOk result IsAnswer }
    {
        let answer = self.converted_of(token, &value, of);
        drop(value);
        answer
    }

    // A copy of the value in a type to which it converts by itself.
    fn converted_of(
        &mut self,
        token: usize,
        value: &Value,
        of: &SizedType,
    ) -> Result<Answer, AllocError>
        requires { IsSoundValue value.now }
        ensures keeps { setting_of self.new ≡ setting_of self.old }
        ensures converted { IfOk result (IsConverted (val_of value.now.instance) (type_view of.now.ty)) }
        ensures answer { IfOk result IsAnswer }
    {
        if of.has_float {
            return Ok(self.skipped(token, Need::Float));
        }
        if !self.spend(value.size.parts) {
            return self.too_large(token);
        }
        match automatic(self.alloc, &value.instance, &of.ty)? {
            Some(instance) => Ok(Answer::Value(Value {
                instance,
                size: value.size,
            })),
            None => self.not_converted(token, &value.instance, &of.ty),
        }
    }

    /// A value does not convert to the type.
    pub(crate) fn not_converted(
        &self,
        token: usize,
        value: &Instance,
        ty: &Type,
    ) -> Result<Answer, AllocError>
        ensures fault { IfOk result IsFault }
        ensures answer { IfOk result IsAnswer }
    {
        let guard = if has_rank(self.alloc, value, ty)? {
            Guard::Guarded
        } else {
            Guard::Never
        };
        let mut text = String::new(self.alloc);
        if is_short(value) {
            write!(text, "{value} is no {ty}")?;
        } else {
            write!(text, "this value is no {ty}")?;
        }
        Ok(self.wrong(token, guard, text))
    }
}

//! The numbers that attributes give (WGSL: attributes).

ghost use Rattle.std.specs.Prelude.{◌≡◌, IfOk, None};
ghost use Rattle.wgsl_rules.specs.Layout.{is_at_least};
ghost use Rattle.wgsl_values.specs.View.{value_of};
ghost use Rattle.wgsl_eval.specs.Answers.{AreAnswers, IsAnswer, IsFault, value_in};
ghost use Rattle.wgsl_eval.specs.Evaluators.{setting_of};
ghost use Rattle.wgsl_eval.specs.Structures.{IsAttribute, IsNoNumber, IsNone, IsNumberOf, is_valid_for};

use crate::answer::{Answer, Guard, Need, Part, Skip};
use crate::call::natural_in;
use crate::evaluator::Evaluator;
use std::alloc::AllocError;
use wgsl_rules::{BinaryOperator, Type, UnaryOperator};
use wgsl_source::{Callee, Span, Step};
use wgsl_values::Instance;

/// What an attribute gives, or why it gives nothing.
#[derive(Drop)]
pub(crate) enum Attribute {
    /// A number, where an attribute is given.
    Number(Option<u32>),
    Other(Answer),
}

/// What the number of an attribute is used for.
#[derive(Clone, Copy)]
pub(crate) enum Use<'a> {
    /// The size of a member of the type.
    Size(&'a Type),
    /// The alignment of a member.
    Align,
    /// The group or the binding of a variable.
    Binding,
}

impl Evaluator<'_> {
    /// The number that an attribute gives.
    pub(crate) fn attribute(
        &mut self,
        span: Option<Span>,
        of: Use<'_>,
    ) -> Result<Attribute, AllocError>
        requires { AreAnswers self.old.meanings.items }
        ensures keeps { setting_of self.new ≡ setting_of self.old }
        ensures attribute { IfOk result (IsAttribute (setting_of self.old) span (is_valid_for of.entry)) }
    {
        let Some(span) = span else {
            return Ok(Attribute::Number(None));
        };
        let answer = self.expression(span)?;
        match answer {
            Answer::Value(value) => {
                let number = self.number_for(span.token, &value.instance, of);
                drop(value);
                number
            }
            other => Ok(Attribute::Other(self.no_number(span, other)?)),
        }
    }
}

impl Evaluator<'_> {
    // The number that a value is, where it may be used so.
    fn number_for(
        &self,
        token: usize,
        value: &Instance,
        of: Use<'_>,
    ) -> Result<Attribute, AllocError>
        ensures { IfOk result (IsNumberOf (value_of value.now) (is_valid_for of.entry)) }
    {
        let Some(number) = natural_in(value) else {
            let text = "an attribute is from 0 to 4294967295";
            return Ok(Attribute::Other(self.wrong_text(token, text)?));
        };
        if of.is_valid(number) {
            return Ok(Attribute::Number(Some(number)));
        }
        Ok(Attribute::Other(self.refused_number(token, number, of)?))
    }

    // A number that may not be used so.
    fn refused_number(&self, token: usize, number: u32, of: Use<'_>) -> Result<Answer, AllocError>
        ensures fault { IfOk result IsFault }
        ensures answer { IfOk result IsAnswer }
    {
        let mut text = String::new(self.alloc);
        match of.least() {
            Some(least) => write!(text, "size {number} is less than {least}, that of the type")?,
            None => write!(text, "{} {number} {}", of.noun(), of.complaint())?,
        }
        Ok(self.wrong(token, Guard::Never, text))
    }

    // What is left where no value is found: an attribute is a constant, and an integer.
    fn no_number(&self, span: Span, answer: Answer) -> Result<Answer, AllocError>
        requires none { value_in answer ≡ None }
        requires answer { IsAnswer answer }
        ensures none { IfOk result IsNone }
        ensures number { IfOk result (IsNoNumber answer) }
        ensures answer { IfOk result IsAnswer }
    {
        match answer {
            Answer::Skipped(skip) => self.skipped_number(span, skip),
            Answer::Variable(variable) => {
                drop(variable);
                self.wrong_text(span.token, "an attribute is a constant")
            }
            Answer::Type(of) | Answer::Bitcast(of) => {
                drop(of);
                self.wrong_text(span.token, "a type stands where a value belongs")
            }
            other => Ok(other),
        }
    }

    // What needs floats may yet be an integer.
    fn skipped_number(&self, span: Span, skip: Skip) -> Result<Answer, AllocError>
        ensures none { IfOk result IsNone }
        ensures number { IfOk result (IsNoNumber (Answer.Skipped skip)) }
        ensures answer { IfOk result IsAnswer }
    {
        if skip.need != Need::Float {
            return self.wrong_text(span.token, "an attribute is a constant");
        }
        if self.is_float(span) {
            return self.wrong_text(span.token, "an attribute is an integer");
        }
        Ok(Answer::Skipped(skip.in_part(Part::Attribute)))
    }

    // Whether an expression that needs floats is one of them: an operator between numbers, or a call of a type of floats.
    fn is_float(&self, span: Span) -> bool {
        let steps = self.reading.steps(span);
        let is_called = match steps.last() {
            Some(last) => self.is_float_call(*last),
            None => false,
        };
        is_called || steps.iter().all(|step| self.is_of_numbers(*step))
    }

    fn is_of_numbers(&self, step: Step) -> bool {
        match step {
            Step::Number(_) | Step::Unary(UnaryOperator::Negation, _) => true,
            Step::Binary(operator, _) => is_arithmetic(operator),
            _ => self.is_float_call(step),
        }
    }

    fn is_float_call(&self, step: Step) -> bool {
        match step {
            Step::Call(token, Callee::Name, _) => {
                let word = self.reading.word(token);
                matches!(word, "f32" | "f16") && self.reading.number_of(word).is_none()
            }
            _ => false,
        }
    }
}

impl Use<'_> {
    // Whether the number may be used so.
    fn is_valid(self, number: u32) -> bool
        ensures { result ≡ is_valid_for self.entry number }
    {
        match self {
            Use::Size(ty) => is_at_least(number, ty.size_of()),
            Use::Align => number.is_power_of_two(),
            Use::Binding => true,
        }
    }

    // The least size.
    fn least(self) -> Option<u32> {
        match self {
            Use::Size(ty) => ty.size_of(),
            Use::Align | Use::Binding => None,
        }
    }

    fn noun(self) -> &'static str {
        match self {
            Use::Size(_) => "size",
            Use::Align => "alignment",
            Use::Binding => "binding",
        }
    }

    // What is wrong with a number that may not be used so.
    fn complaint(self) -> &'static str {
        match self {
            Use::Size(_) => "stands before a type without a fixed size",
            Use::Align => "is no power of two",
            Use::Binding => "is none",
        }
    }
}

fn is_arithmetic(operator: BinaryOperator) -> bool {
    matches!(
        operator,
        BinaryOperator::Addition
            | BinaryOperator::Subtraction
            | BinaryOperator::Multiplication
            | BinaryOperator::Division
            | BinaryOperator::Remainder
    )
}

fn is_at_least(number: u32, least: Option<u32>) -> bool
    ensures { result ≡ is_at_least number least }
{
    match least {
        Some(least) => least <= number,
        None => false,
    }
}

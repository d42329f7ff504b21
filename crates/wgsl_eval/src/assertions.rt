//! What a source asserts (WGSL: const_assert statement).

ghost use Rattle.std.specs.Prelude.{◌≡◌, IfOk, OnOk};
ghost use Rattle.wgsl_values.specs.View.{value_of};
ghost use Rattle.wgsl_eval.specs.Answers.{AreAnswers, IsAnswer};
ghost use Rattle.wgsl_eval.specs.Assertions.{AreAsserted, IsAsserted, IsAssertion, IsHeld, IsTold, is_truth};
ghost use Rattle.wgsl_eval.specs.Evaluators.{setting_of};

use crate::answer::{Answer, Skip};
use crate::evaluator::Evaluator;
use crate::message::Message;
use std::alloc::AllocError;
use wgsl_scalar::LiteralInstance;
use wgsl_source::Span;
use wgsl_values::Instance;

/// What is found of a `const_assert`.
#[derive(Clone, Copy, Debug, PartialEq, Eq)]
pub enum Assertion {
    Holds,
    /// What is asserted is not evaluated.
    Skipped(Skip),
    /// It is false, or it has a fault, or names what has one.
    Faulty,
}

impl Evaluator<'_> {
    /// What is found of each assertion, one after the other.
    #[tactic(auto, using(crate::proofs::Walks::asserted_none, crate::proofs::Walks::asserted_all))]
    pub(crate) fn assert_all(&mut self) -> Result<Vec<Assertion>, AllocError>
        requires { AreAnswers self.old.meanings.items }
        ensures asserted { IfOk result (λ found. AreAsserted (setting_of self.old) self.old.reading.now.asserts found.items (setting_of self.new)) }
        ensures answers { OnOk result (AreAnswers self.new.meanings.items) }
    {
        let asserts = self.reading.asserts();
        let mut found = Vec::with_capacity(self.alloc, asserts.len())?;
        for span in asserts {
            let assertion = self.assert(*span)?;
            found.push(assertion)?;
        }
        Ok(found)
    }

    fn assert(&mut self, span: Span) -> Result<Assertion, AllocError>
        requires { AreAnswers self.old.meanings.items }
        ensures { IfOk result (λ found. IsAsserted (setting_of self.old) span found (setting_of self.new)) }
    {
        let answer = self.expression(span)?;
        self.assertion_of(span.token, answer)
    }

    // What is found of an assertion of this answer.
    fn assertion_of(&mut self, token: usize, answer: Answer) -> Result<Assertion, AllocError>
        requires { IsAnswer answer }
        ensures { IfOk result (λ found. IsAssertion (setting_of self.old) answer found (setting_of self.new)) }
    {
        match answer {
            Answer::Value(value) => {
                let found = self.held(token, &value.instance);
                drop(value);
                found
            }
            Answer::Skipped(skip) => Ok(Assertion::Skipped(skip)),
            Answer::Wrong(message, _) => {
                self.tell(message)?;
                Ok(Assertion::Faulty)
            }
            Answer::Faulty => Ok(Assertion::Faulty),
            other @ (Answer::Type(_)
            | Answer::Bitcast(_)
            | Answer::Variable(_)
            | Answer::Named(_)) => {
                drop(other);
                self.refuted(token, "a type stands where a value belongs")
            }
        }
    }

    // Whether the value that is asserted is true.
    fn held(&mut self, token: usize, value: &Instance) -> Result<Assertion, AllocError>
        ensures { IfOk result (λ found. IsHeld (setting_of self.old) (value_of value.now) found (setting_of self.new)) }
    {
        if is_truth(value) {
            return Ok(Assertion::Holds);
        }
        match value {
            Instance::Literal(LiteralInstance::Bool(_)) => {
                self.refuted(token, "this is asserted and false")
            }
            _ => self.refuted(token, "what is asserted is no bool"),
        }
    }

    fn refuted(&mut self, token: usize, text: &str) -> Result<Assertion, AllocError>
        ensures { IfOk result (λ found. (found ≡ Assertion.Faulty) × IsTold (setting_of self.old) (setting_of self.new)) }
    {
        let text = String::from_str(self.alloc, text)?;
        let extent = self.reading.extent(token);
        self.tell(Message::fault(extent, text))?;
        Ok(Assertion::Faulty)
    }
}

fn is_truth(value: &Instance) -> bool
    ensures { result ≡ is_truth (value_of value.now) }
{
    matches!(value, Instance::Literal(LiteralInstance::Bool(true)))
}

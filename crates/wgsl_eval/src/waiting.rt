//! What waits for the steps that take it: answers, and values that are named.

ghost use Rattle.std.specs.Prelude.{◌≡◌, [], ◌∷◌, IfOk, IsTrue, OnOk, Some, ◌↔◌};
ghost use Rattle.wgsl_eval.specs.Answers.{AreAnswers, meaning_at};
ghost use Rattle.wgsl_eval.specs.Given.{below, top};
ghost use Rattle.wgsl_eval.specs.Waitings.{AreWaiting, HasValue, IsKept, IsTaken, IsWaiting, IsWhole, name_in, value_at};

use crate::answer::{Answer, Value};
use crate::evaluator::Evaluator;
use std::alloc::AllocError;

impl Evaluator<'_> {
    /// Copies the value that the last answer names, if it names one: a step takes all of it.
    #[inline]
    pub(crate) fn keep_last(&self, answers: &mut Vec<Answer>) -> Result<(), AllocError>
        requires { AreWaiting self.now.meanings.items answers.old.items }
        ensures kept { OnOk result (IsKept self.now.meanings.items answers.old.items answers.new.items) }
        ensures left { OnOk result (AreWaiting self.now.meanings.items answers.new.items) }
    {
        match last_name(answers.as_slice()) {
            Some(number) => self.keep(answers, number),
            None => Ok(()),
        }
    }

    // Puts a copy of the value of the declaration in the place of the last answer, which names it. It stands apart, so that
    // `keep_last`, which mostly finds no name, has no room of these locals to clear.
    #[inline(never)]
    fn keep(&self, answers: &mut Vec<Answer>, number: usize) -> Result<(), AllocError>
        requires waiting { AreWaiting self.now.meanings.items answers.old.items }
        requires named { name_in (top answers.old.items) ≡ Some number }
        ensures kept { OnOk result (IsKept self.now.meanings.items answers.old.items answers.new.items) }
        ensures left { OnOk result (AreWaiting self.now.meanings.items answers.new.items) }
    {
        let value = self.named_value(number).copy(self.alloc)?;
        let name = popped_waiting(answers);
        drop(name);
        answers.push(Answer::Value(value))?;
        Ok(())
    }

    /// So many of the last answers, taken away, in their order; the values that they name are copied.
    pub(crate) fn taken(
        &self,
        answers: &mut Vec<Answer>,
        count: usize,
    ) -> Result<Vec<Answer>, AllocError>
        requires { AreWaiting self.now.meanings.items answers.old.items }
        ensures taken { IfOk result (λ list. IsTaken self.now.meanings.items count answers.old.items list.items answers.new.items) }
        ensures left { OnOk result (AreWaiting self.now.meanings.items answers.new.items) }
        ensures answers { IfOk result (λ list. AreAnswers list.items) }
    {
        let mut list = Vec::with_capacity(self.alloc, count)?;
        for number in 0..count {
            self.keep_last(answers)?;
            let answer = popped_waiting(answers);
            list.push(answer)?;
        }
        list.reverse();
        Ok(list)
    }

    // The value that the declaration of the number was found to be. The condition: it is one.
    fn named_value(&self, number: usize) -> &Value
        requires { IsWaiting self.now.meanings.items (Answer.Named number) }
        ensures { meaning_at self.now.meanings.items number ≡ Answer.Value result.now }
    {
        match self.meanings.get(number) {
            Some(Answer::Value(value)) => value,
            _ => unreachable!(),
        }
    }

    /// The value that an answer has or names, lent. The condition: it has or names one.
    pub(crate) fn whole<'a>(&'a self, answer: &'a Answer) -> &'a Value
        requires { IsWhole self.now.meanings.items answer.now }
        ensures { value_at self.now.meanings.items answer.now ≡ Some result.now }
    {
        match answer {
            Answer::Value(value) => value,
            Answer::Named(number) => self.named_value(*number),
            _ => unreachable!(),
        }
    }
}

/// The last of what waits, taken away; a fault that was told where nothing waits.
#[inline]
pub(crate) fn popped_waiting(answers: &mut Vec<Answer>) -> Answer
    ensures last { result ≡ top answers.old.items }
    ensures left { answers.new.items ≡ below answers.old.items }
{
    answers.pop().unwrap_or(Answer::Faulty)
}

/// Whether an answer has or names a value.
pub(crate) fn has_value(answer: &Answer) -> bool
    ensures { IsTrue result ↔ HasValue answer.now }
{
    matches!(answer, Answer::Value(_) | Answer::Named(_))
}

// The number of the declaration whose value the last answer names, if it names one.
#[inline]
fn last_name(answers: &[Answer]) -> Option<usize>
    ensures { result ≡ name_in (top answers.now) }
{
    match answers.last() {
        Some(last) => name_in(last),
        None => None,
    }
}

#[inline]
fn name_in(answer: &Answer) -> Option<usize>
    ensures { result ≡ name_in answer.now }
{
    match answer {
        Answer::Named(number) => Some(*number),
        _ => None,
    }
}

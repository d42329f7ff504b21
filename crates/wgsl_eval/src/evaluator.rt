//! Walks the steps of expressions, whose answers wait on a stack of their own.

ghost use Rattle.std.specs.Prelude.{◌≡◌, ◌<◌, ◌+◌, ◌&&◌, IfOk, IsSome, MatchBool, None, OnErr, OnOk, Some, false, is_some, replicate};
ghost use Rattle.wgsl_scalar.specs.Answers.{builtin_reason_of, refusal_of};
ghost use Rattle.wgsl_apply.specs.Refused.{is_of_numbers as is_number_refusal};
ghost use Rattle.wgsl_values.specs.View.{value_of as val_of};
ghost use Rattle.wgsl_source.specs.Readings.{extent_at};
ghost use Rattle.wgsl_eval.specs.Answers.{AreAnswers, IsAnswer, IsFault, IsFaultOf, IsFaultWith, IsSkippedFor, IsSoundValue, IsUnready, guard_for};
ghost use Rattle.wgsl_eval.specs.Evaluated.{setting_with};
ghost use Rattle.wgsl_eval.specs.Evaluators.{is_obeyed, setting_of};
ghost use Rattle.wgsl_eval.specs.Given.{IsJudged, below, top};
ghost use Rattle.wgsl_eval.specs.Waitings.{AreWaiting, IsDone, IsWaiting};
ghost use Rattle.wgsl_eval.specs.Meanings.{AreDeclared, with_fault};
ghost use Rattle.wgsl_eval.specs.Runs.{IsFound};

use crate::answer::{Answer, Guard, Need, Part, Skip, Value};
use crate::given::Given;
use crate::message::{Message, Messages};
use crate::settings::Settings;
use crate::waiting::popped_waiting;
use std::alloc::{AllocError, Global};
use wgsl_apply::{Asked, is_of_numbers, refusal_text};
use wgsl_functions::Dialect;
use wgsl_rules::ShaderStage;
use wgsl_scalar::Error;
use wgsl_source::{Callee, Reading, Span, Step};

/// The most parts of values that are made and named in all.
const WORK: usize = 1 << 22;

/// For how many names that nothing has the one is told that may be meant.
const GUESSES: usize = 8;

/// Evaluates expressions one after the other.
#[derive(Drop)]
pub(crate) struct Evaluator<'a> {
    pub(crate) alloc: Global,
    pub(crate) reading: &'a Reading<'a>,
    pub(crate) stage: ShaderStage,
    /// Whether what the standard refuses is a fault.
    pub(crate) is_strict: bool,
    pub(crate) dialect: Dialect,
    /// The values that a host gives overrides.
    pub(crate) given: &'a [Given<'a>],
    pub(crate) messages: Messages,
    pub(crate) meanings: Vec<Answer>,
    /// How many parts may still be made.
    pub(crate) work: usize,
    /// How many times a name may still be looked for that was meant.
    pub(crate) guesses: usize,
}

impl<'a> Evaluator<'a> {
    /// One to which nothing is known of the declarations. A host gives these values.
    pub(crate) fn with_given(
        alloc: Global,
        reading: &'a Reading<'a>,
        settings: Settings,
        given: &'a [Given<'a>],
    ) -> Result<Evaluator<'a>, AllocError>
        ensures unknown { IfOk result (λ e. setting_of e ≡ setting_with reading.entry.now given.entry.now settings) }
        ensures answers { IfOk result (λ e. AreAnswers e.meanings.items) }
    {
        Ok(Evaluator {
            alloc,
            reading,
            stage: settings.stage,
            is_strict: settings.is_strict,
            dialect: settings.dialect,
            given,
            messages: Messages::new(alloc),
            meanings: unknown(alloc, reading.len())?,
            work: WORK,
            guesses: GUESSES,
        })
    }

    /// Gives each declaration its meaning, those that it names having theirs.
    #[tactic(auto, using(crate::proofs::Walks::declared_none, crate::proofs::Walks::declared_more, crate::proofs::Walks::declared_all))]
    pub(crate) fn declare_all(&mut self) -> Result<(), AllocError>
        requires { AreAnswers self.old.meanings.items }
        ensures declared { OnOk result (AreDeclared (setting_of self.old) self.old.reading.now.order (setting_of self.new)) }
        ensures answers { AreAnswers self.new.meanings.items }
    {
        let order = self.reading.order();
        for number in order {
            self.declare(*number)?;
        }
        Ok(())
    }

    /// What an expression stands for.
    pub(crate) fn expression(&mut self, span: Span) -> Result<Answer, AllocError>
        requires { AreAnswers self.old.meanings.items }
        ensures keeps { setting_of self.new ≡ setting_of self.old }
        ensures found { IfOk result (IsFound (setting_of self.old) span) }
        ensures answer { IfOk result IsAnswer }
    {
        let steps = self.reading.steps(span);
        let mut answers = Vec::new(self.alloc);
        for step in steps {
            let answer = self.step(*step, &mut answers)?;
            answers.push(answer)?;
        }
        self.keep_last(&mut answers)?;
        Ok(popped_waiting(&mut answers))
    }

    // Does a step, and takes the answers that it needs away.
    fn step(&mut self, step: Step, answers: &mut Vec<Answer>) -> Result<Answer, AllocError>
        requires meanings { AreAnswers self.old.meanings.items }
        requires answers { AreWaiting self.old.meanings.items answers.old.items }
        ensures keeps { setting_of self.new ≡ setting_of self.old }
        ensures done { IfOk result (IsDone (setting_of self.old) step answers.old.items answers.new.items) }
        ensures left { OnOk result (AreWaiting self.old.meanings.items answers.new.items) }
        ensures next { IfOk result (IsWaiting self.old.meanings.items) }
    {
        match step {
            Step::Name(token) => self.named(token),
            Step::Number(token) => self.number(token),
            Step::Unary(operator, token) => self.unary_step(operator, token, answers),
            Step::Binary(operator, token) => self.binary_step(operator, token, answers),
            Step::Template(token, count) => self.template_step(token, count, answers),
            Step::Call(token, Callee::Name, count) => self.call_step(token, count, answers),
            Step::Call(token, Callee::Answer, count) => self.call_answer_step(
                token, count, answers,
            ),
            Step::Member(token) => self.member_step(token, answers),
            Step::Index(token) => self.index_step(token, answers),
        }
    }
}

impl Evaluator<'_> {
    /// A fault at a token.
    pub(crate) fn wrong(&self, token: usize, guard: Guard, text: String) -> Answer
        ensures fault { IsFault result }
        ensures guard { IsFaultWith guard result }
        ensures answer { IsAnswer result }
    {
        let extent = self.reading.extent(token);
        Answer::Wrong(Message::fault(extent, text), guard)
    }

    /// A fault of types at a token.
    pub(crate) fn wrong_text(&self, token: usize, text: &str) -> Result<Answer, AllocError>
        ensures fault { IfOk result IsFault }
        ensures answer { IfOk result IsAnswer }
    {
        let text = String::from_str(self.alloc, text)?;
        Ok(self.wrong(token, Guard::Never, text))
    }

    pub(crate) fn skipped(&self, token: usize, need: Need) -> Answer
        ensures extent { result ≡ Answer.Skipped (record {
          start = (extent_at self.now.reading.now token).start;
          end = (extent_at self.now.reading.now token).end;
          need = need;
          part = Part.Expression;
        }) }
        ensures skipped { IsSkippedFor need result }
        ensures answer { IsAnswer result }
    {
        Answer::Skipped(Skip::new(self.reading.extent(token), need))
    }

    /// What a refused call leaves.
    pub(crate) fn refused(
        &self,
        token: usize,
        error: &Error,
        asked: Asked<'_>,
    ) -> Result<Answer, AllocError>
        ensures fault { IfOk result IsFault }
        ensures guard { IfOk result (IsFaultOf (is_number_refusal (refusal_of error.now) (builtin_reason_of error.now))) }
        ensures refusal { OnOk result (IsSome (refusal_of error.now)) }
        ensures answer { IfOk result IsAnswer }
    {
        if *error == Error::Memory {
            return Err(AllocError);
        }
        let text = refusal_text(self.alloc, error, asked)?;
        let guard = guard_for(is_of_numbers(error));
        Ok(self.wrong(token, guard, text))
    }

    /// The value, unless the standard refuses it and is to be obeyed.
    pub(crate) fn judged(
        &mut self,
        token: usize,
        value: Value,
        against: Option<&'static str>,
    ) -> Result<Answer, AllocError>
        requires { IsSoundValue value }
        ensures keeps { setting_of self.new ≡ setting_of self.old }
        ensures judged { IfOk result (IsJudged (self.old.is_strict && is_some against.entry) (val_of value.instance)) }
        ensures answer { IfOk result IsAnswer }
    {
        let Some(against) = against else {
            return Ok(Answer::Value(value));
        };
        if self.is_strict {
            drop(value);
            let text = String::from_str(self.alloc, against)?;
            return Ok(self.wrong(token, Guard::Guarded, text));
        }
        match self.warn(token, against) {
            Ok(()) => Ok(Answer::Value(value)),
            Err(error) => {
                drop(value);
                Err(error)
            }
        }
    }

    /// An answer that WGSL does not have: it stays with a warning, or is a fault of types where the standard is to be
    /// obeyed. In the other dialect nothing is said.
    pub(crate) fn beyond(
        &mut self,
        token: usize,
        answer: Answer,
        text: &str,
    ) -> Result<Answer, AllocError>
        requires { IsAnswer answer }
        ensures keeps { setting_of self.new ≡ setting_of self.old }
        ensures beyond { IfOk result (λ a. MatchBool (is_obeyed self.old.dialect self.old.is_strict) (IsFault a) (a ≡ answer)) }
        ensures answer { IfOk result IsAnswer }
    {
        match (self.dialect, self.is_strict) {
            (Dialect::Crate, _) => Ok(answer),
            (Dialect::Wgsl, true) => {
                drop(answer);
                self.wrong_text(token, text)
            }
            (Dialect::Wgsl, false) => match self.warn(token, text) {
                Ok(()) => Ok(answer),
                Err(error) => {
                    drop(answer);
                    Err(error)
                }
            },
        }
    }

    fn warn(&mut self, token: usize, text: &str) -> Result<(), AllocError>
        ensures { setting_of self.new ≡ setting_of self.old }
    {
        let text = String::from_str(self.alloc, text)?;
        self.messages.add_warning(self.reading.extent(token), text)
    }

    /// Whether so much more may be made.
    pub(crate) fn spend(&mut self, parts: usize) -> bool
        ensures keeps { setting_of self.new ≡ setting_of self.old }
        ensures work { MatchBool result (self.new.work + parts ≡ self.old.work) ((self.new.work ≡ self.old.work) × (self.old.work < parts)) }
    {
        match self.work.checked_sub(parts) {
            Some(left) => {
                self.work = left;
                true
            }
            None => false,
        }
    }

    /// A fault of a value that is too large to be made.
    pub(crate) fn too_large(&self, token: usize) -> Result<Answer, AllocError>
        ensures fault { IfOk result IsFault }
        ensures answer { IfOk result IsAnswer }
    {
        self.wrong_text(token, "this has too many parts to be evaluated")
    }

    /// What an answer that is no value leaves where a value belongs.
    pub(crate) fn unready(&self, token: usize, answer: Answer) -> Result<Answer, AllocError>
        requires { IsAnswer answer }
        ensures unready { IfOk result (IsUnready answer) }
        ensures answer { IfOk result IsAnswer }
    {
        match answer {
            Answer::Type(of) | Answer::Bitcast(of) => {
                drop(of);
                self.wrong_text(token, "a type stands where a value belongs")
            }
            Answer::Variable(variable) => {
                drop(variable);
                Ok(self.skipped(token, Need::Variable))
            }
            other => Ok(other),
        }
    }

    /// Tells what is wrong.
    pub(crate) fn tell(&mut self, message: Message) -> Result<(), AllocError>
        ensures told { OnOk result (setting_of self.new ≡ with_fault (setting_of self.old) message) }
        ensures kept { OnErr result (setting_of self.new ≡ setting_of self.old) }
    {
        self.messages.add_fault(message)
    }
}

// So many declarations of which nothing is known.
fn unknown(alloc: Global, count: usize) -> Result<Vec<Answer>, AllocError>
    ensures unknown { IfOk result (λ v. v.items ≡ replicate count Answer.Faulty) }
    ensures answers { IfOk result (λ v. AreAnswers v.items) }
{
    let mut meanings = Vec::with_capacity(alloc, count)?;
    for number in 0..count {
        meanings.push(Answer::Faulty)?;
    }
    Ok(meanings)
}

fn guard_for(of_numbers: bool) -> Guard
    ensures { result ≡ guard_for of_numbers }
{
    if of_numbers {
        Guard::Guarded
    } else {
        Guard::Never
    }
}

pub(crate) fn popped(answers: &mut Vec<Answer>) -> Answer
    requires { AreAnswers answers.old.items }
    ensures top { result ≡ top answers.old.items }
    ensures below { answers.new.items ≡ below answers.old.items }
    ensures answer { IsAnswer result }
    ensures left { AreAnswers answers.new.items }
{
    answers.pop().unwrap_or(Answer::Faulty)
}

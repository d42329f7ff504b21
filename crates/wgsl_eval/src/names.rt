//! What names and numbers stand for (WGSL: identifiers; literals).

ghost use Rattle.std.specs.Prelude.{◌≡◌, ◌<◌, ◌+◌, IfOk, MatchBool, None, Some, false};
ghost use Rattle.std.specs.Bool.{OnTrue};
ghost use Rattle.wgsl_scalar.specs.Literals.{literal_of};
ghost use Rattle.wgsl_source.specs.Readings.{word_at};
ghost use Rattle.wgsl_source.specs.declared.literal.Literal.TheVariants as literals;
ghost use Rattle.wgsl_eval.specs.Answers.{AreAnswers, IsAnswer, IsFault, meaning_at, value_in};
ghost use Rattle.wgsl_eval.specs.Calls.{IsCopy, IsLanguageType};
ghost use Rattle.wgsl_eval.specs.Evaluators.{setting_of};
ghost use Rattle.wgsl_eval.specs.Given.{is_placeholder, IsLanguageName, IsNamed, IsOfLiteral, IsOfNumber};
ghost use Rattle.wgsl_eval.specs.Waitings.{IsCharged, IsWaiting, Stands, work_of};
ghost use Rattle.wgsl_eval.specs.Reasons.{is_wide};
ghost use Rattle.wgsl_eval.specs.TypeNames.{predeclared_type};

use crate::answer::{Answer, Guard, Need, Value};
use crate::evaluator::Evaluator;
use crate::nearest::nearest;
use crate::opaque::is_opaque;
use crate::types::predeclared;
use std::alloc::AllocError;
use wgsl_scalar::LiteralInstance;
use wgsl_source::{Literal, Predeclared, Scalar, language_name};
use wgsl_values::Instance;

/// How many characters a name has at most that is told.
const NAMED: usize = 40;

/// What is told of integers of 64 bits.
const WIDE: &str = "WGSL has no 64-bit integers";

impl Evaluator<'_> {
    pub(crate) fn number(&mut self, token: usize) -> Result<Answer, AllocError>
        ensures keeps { setting_of self.new ≡ setting_of self.old }
        ensures number { IfOk result (IsOfNumber (setting_of self.old) (word_at self.old.reading.now token)) }
        ensures answer { IfOk result IsAnswer }
    {
        match self.reading.literal(token) {
            Literal::Integer(literal) => self.integer(token, literal),
            Literal::Float => Ok(self.skipped(token, Need::Float)),
            Literal::Wrong => self.wrong_number(token),
        }
    }

    // A number that is none of its kind.
    fn wrong_number(&self, token: usize) -> Result<Answer, AllocError>
        ensures fault { IfOk result IsFault }
        ensures answer { IfOk result IsAnswer }
    {
        let word = self.reading.word(token);
        if word.chars().count() > NAMED {
            return self.wrong_text(token, "this is no number of its kind");
        }
        let mut text = String::new(self.alloc);
        write!(text, "{word} is no {}", kind_of(word))?;
        Ok(self.wrong(token, Guard::Never, text))
    }

    fn integer(&mut self, token: usize, literal: LiteralInstance) -> Result<Answer, AllocError>
        ensures keeps { setting_of self.new ≡ setting_of self.old }
        ensures literal { IfOk result (IsOfLiteral (setting_of self.old) (literals.Integer literal)) }
        ensures answer { IfOk result IsAnswer }
    {
        let answer = value_of(literal);
        if is_wide(literal) {
            self.beyond(token, answer, WIDE)
        } else {
            Ok(answer)
        }
    }

    // What a name stands for by itself.
    pub(crate) fn named(&mut self, token: usize) -> Result<Answer, AllocError>
        requires { AreAnswers self.old.meanings.items }
        ensures keeps { setting_of self.new ≡ setting_of self.old }
        ensures named { IfOk result (λ w. (a : Answer) → Stands self.old.meanings.items w a → IsNamed (setting_of self.old) (word_at self.old.reading.now token) a) }
        ensures waiting { IfOk result (IsWaiting self.old.meanings.items) }
    {
        let reading = self.reading;
        match reading.number_of(reading.word(token)) {
            Some(number) => self.of_declared(token, number),
            None => self.of_language(token),
        }
    }

    // What the language has for a name.
    fn of_language(&mut self, token: usize) -> Result<Answer, AllocError>
        ensures keeps { setting_of self.new ≡ setting_of self.old }
        ensures named { IfOk result (IsLanguageName (word_at self.old.reading.now token)) }
        ensures answer { IfOk result IsAnswer }
    {
        let reading = self.reading;
        let name = reading.word(token);
        match name {
            "true" => return Ok(value_of(LiteralInstance::Bool(true))),
            "false" => return Ok(value_of(LiteralInstance::Bool(false))),
            _ => {}
        }
        match language_name(name) {
            Some(named) => self.language_type(token, named),
            None if is_opaque(name) => Ok(self.skipped(token, Need::Opaque)),
            None if is_placeholder(name) => Ok(Answer::Faulty),
            None => self.nothing_named(token),
        }
    }

    /// A name that nothing has. Of the first such names the one that may be meant is told.
    pub(crate) fn nothing_named(&mut self, token: usize) -> Result<Answer, AllocError>
        ensures keeps { setting_of self.new ≡ setting_of self.old }
        ensures fault { IfOk result IsFault }
        ensures answer { IfOk result IsAnswer }
    {
        let reading = self.reading;
        let word = reading.word(token);
        if word.chars().count() > NAMED {
            return self.wrong_text(token, "nothing has this name");
        }
        let mut text = String::new(self.alloc);
        write!(text, "nothing is named {word}")?;
        if self.may_guess() {
            if let Some(meant) = nearest(reading, word) {
                write!(text, "; did you mean {meant}?")?;
            }
        }
        Ok(self.wrong(token, Guard::Never, text))
    }

    // Whether all names may be looked at once more for the one that is meant.
    fn may_guess(&mut self) -> bool
        ensures { setting_of self.new ≡ setting_of self.old }
    {
        match self.guesses.checked_sub(1) {
            Some(left) => {
                self.guesses = left;
                true
            }
            None => false,
        }
    }

    // What a declaration was found to stand for. A value with parts is named by it, and copied where all of it is taken.
    fn of_declared(&mut self, token: usize, number: usize) -> Result<Answer, AllocError>
        requires { AreAnswers self.old.meanings.items }
        ensures keeps { setting_of self.new ≡ setting_of self.old }
        ensures copy { IfOk result (λ w. (a : Answer) → Stands self.old.meanings.items w a → IsCopy (meaning_at self.old.meanings.items number) a) }
        ensures waiting { IfOk result (IsWaiting self.old.meanings.items) }
        ensures work { IfOk result (IsCharged (work_of (meaning_at self.old.meanings.items number)) self.old.work self.new.work) }
    {
        if !self.is_charged(number) {
            return self.too_large(token);
        }
        if self.has_parts(number) {
            Ok(Answer::Named(number))
        } else {
            self.copy(token, number)
        }
    }

    // Whether a name of the declaration may be charged for, which it is then: a value counts each time it is named.
    fn is_charged(&mut self, number: usize) -> bool
        ensures keeps { setting_of self.new ≡ setting_of self.old }
        ensures work { MatchBool result
            (self.new.work + work_of (meaning_at self.old.meanings.items number) ≡ self.old.work)
            ((self.new.work ≡ self.old.work) × (self.old.work < work_of (meaning_at self.old.meanings.items number))) }
    {
        let work = match self.meanings.get(number) {
            Some(meaning) => meaning.work(),
            None => 1,
        };
        self.spend(work)
    }

    // Whether the declaration was found to be a value with parts.
    fn has_parts(&self, number: usize) -> bool
        requires { AreAnswers self.now.meanings.items }
        ensures { OnTrue result (IsWaiting self.now.meanings.items (Answer.Named number)) }
    {
        match self.meanings.get(number) {
            Some(Answer::Value(value)) => !matches!(value.instance, Instance::Literal(_)),
            _ => false,
        }
    }

    pub(crate) fn language_type(
        &mut self,
        token: usize,
        named: Predeclared,
    ) -> Result<Answer, AllocError>
        ensures keeps { setting_of self.new ≡ setting_of self.old }
        ensures ty { IfOk result (IsLanguageType (predeclared_type named)) }
        ensures answer { IfOk result IsAnswer }
    {
        match predeclared(self.alloc, named)? {
            Some(ty) if is_wide_type(named) => self.beyond(token, Answer::Type(ty), WIDE),
            Some(ty) => Ok(Answer::Type(ty)),
            None => self.wrong_text(token, "this type takes a template list"),
        }
    }

    /// What is left behind a name of what a declaration was found to stand for: a fault is told once.
    pub(crate) fn copied(&mut self, token: usize, number: usize) -> Result<Answer, AllocError>
        requires { AreAnswers self.old.meanings.items }
        ensures keeps { setting_of self.new ≡ setting_of self.old }
        ensures copy { IfOk result (IsCopy (meaning_at self.old.meanings.items number)) }
        ensures answer { IfOk result IsAnswer }
        ensures work { IfOk result (IsCharged (work_of (meaning_at self.old.meanings.items number)) self.old.work self.new.work) }
    {
        if !self.is_charged(number) {
            return self.too_large(token);
        }
        self.copy(token, number)
    }

    fn copy(&self, token: usize, number: usize) -> Result<Answer, AllocError>
        requires { AreAnswers self.now.meanings.items }
        ensures copy { IfOk result (IsCopy (meaning_at self.now.meanings.items number)) }
        ensures answer { IfOk result IsAnswer }
    {
        match self.meanings.get(number) {
            Some(Answer::Value(value)) => Ok(Answer::Value(value.copy(self.alloc)?)),
            Some(Answer::Type(ty)) => Ok(Answer::Type(ty.copy(self.alloc)?)),
            Some(Answer::Variable(_)) => Ok(self.skipped(token, Need::Variable)),
            Some(Answer::Skipped(skip)) => Ok(self.skipped(token, skip.need)),
            _ => Ok(Answer::Faulty),
        }
    }
}

// What a number would be.
fn kind_of(number: &str) -> &'static str {
    if let Some(digits) = number.strip_suffix("li") {
        return kind_if(digits, "i64");
    }
    if let Some(digits) = number.strip_suffix("lu") {
        return kind_if(digits, "u64");
    }
    if let Some(digits) = number.strip_suffix('i') {
        return kind_if(digits, "i32");
    }
    match number.strip_suffix('u') {
        Some(digits) => kind_if(digits, "u32"),
        None => kind_if(number, "AbstractInt"),
    }
}

// The kind, where the digits are those of a number.
fn kind_if(digits: &str, kind: &'static str) -> &'static str {
    if are_digits(digits) { kind } else { "number" }
}

fn are_digits(text: &str) -> bool {
    let (first, bytes) = (text.as_bytes().first(), text.as_bytes());
    match text.strip_prefix("0x") {
        Some(digits) => {
            !digits.is_empty()
                && digits
                    .as_bytes()
                    .iter()
                    .all(|byte| byte.is_ascii_hexdigit())
        }
        None => first != Some(&b'0') && bytes.iter().all(|byte| byte.is_ascii_digit()),
    }
}

// Whether it is a type of integers of 64 bits.
fn is_wide_type(named: Predeclared) -> bool {
    matches!(named, Predeclared::Scalar(Scalar::I64 | Scalar::U64))
}

fn is_wide(literal: LiteralInstance) -> bool
    ensures { result ≡ is_wide literal }
{
    matches!(literal, LiteralInstance::I64(_) | LiteralInstance::U64(_))
}

/// A literal as an answer.
pub(crate) fn value_of(literal: LiteralInstance) -> Answer
    ensures value { value_in result ≡ Some (literal_of literal) }
    ensures answer { IsAnswer result }
{
    Answer::Value(Value::literal(literal))
}

// Whether it stands for a text that a preprocessor has to put there, which the reader tells.
fn is_placeholder(name: &str) -> bool
    ensures { result ≡ is_placeholder name.now }
{
    name.starts_with("#{")
}

//! The values of a source, and what its assertions are found to be.

ghost use Rattle.std.specs.Prelude.{if◌then◌else◌, [], ◌∷◌, ◌++◌, ◌≡◌, ◌≤◌, All, IfOk, OnOk, Option, Some, false, is_some, map, slice_get, unwrap_or, vec_len};
ghost use Rattle.std.specs.List.Sorted.{IsSortedByKey};
ghost use Rattle.std.specs.Option.{option_map};
ghost use Rattle.std.specs.Ordering.{nat_cmp};
ghost use Rattle.wgsl_eval.specs.Answers.{AreAnswers, IsAnswer, IsSoundOutcome, outcome_in};
ghost use Rattle.wgsl_eval.specs.Evaluated.{IsEvaluated, IsEvaluatedWith, of_wgsl, values_of};
ghost use Rattle.wgsl_eval.specs.Evaluation.{has_value, has_value_among, value_names, value_names_among};
ghost use Rattle.wgsl_eval.specs.Evaluators.{setting_of};
ghost use Rattle.wgsl_eval.specs.Messages.{AreTold};
ghost use Rattle.wgsl_eval.specs.Overrides.{given_for};
ghost use Rattle.wgsl_source.specs.declared.expression.Span.{Span};

use crate::answer::{Answer, Skip};
use crate::assertions::Assertion;
use crate::evaluator::{Evaluator, popped};
use crate::given::{Given, given_for};
use crate::message::Message;
use crate::settings::Settings;
use std::alloc::{AllocError, Global};
use wgsl_functions::Dialect;
use wgsl_rules::ShaderStage;
use wgsl_source::{Declared, Reading};
use wgsl_values::Instance;

/// The values of a source, what is found of its assertions, and what is told of them, each in its order.
/// Of many faults and of many warnings the first that are found are told, and faults before warnings.
#[derive(Debug, PartialEq, Eq, Drop)]
pub struct Evaluation {
    pub values: Vec<Evaluated>,
    pub asserts: Vec<Assertion>,
    pub messages: Vec<Message>,
}

/// A declaration of a value: the token that names it, and what it has.
#[derive(Debug, PartialEq, Eq, Drop)]
pub struct Evaluated {
    pub token: usize,
    pub outcome: Outcome,
}

/// What a declaration has.
#[derive(Debug, PartialEq, Eq, Drop)]
pub enum Outcome {
    Value(Instance),
    /// What stands there is not evaluated.
    Skipped(Skip),
    /// What has a fault, or names what has one.
    Faulty,
}

/// The values of the declarations of a source in WGSL, and what is wrong in them. In another stage than
/// `Const` the values of overrides are evaluated too, as if no host had given others.
///
/// A type of a source has 4,096 types at most, and a value 64 others inside each other: a stack of 8 MiB is enough.
///
/// The only error is that memory is wanting.
pub fn evaluate(
    alloc: Global,
    reading: &Reading<'_>,
    stage: ShaderStage,
    is_strict: bool,
) -> Result<Evaluation, AllocError>
    ensures count { IfOk result (λ e. vec_len e.messages ≤ 100) }
    ensures sorted { IfOk result (λ e. IsSortedByKey (λ m. m.start) nat_cmp e.messages.items) }
    ensures names { IfOk result (λ e. map (λ v. v.token) e.values.items ≡ value_names reading.now stage 0 reading.now.declared) }
    ensures evaluated { IfOk result (IsEvaluated reading.now (of_wgsl stage is_strict)) }
    ensures sound { IfOk result (λ e. All (λ v. IsSoundOutcome v.outcome) e.values.items) }
{
    let settings = Settings {
        stage,
        is_strict,
        dialect: Dialect::Wgsl,
    };
    evaluate_in(alloc, reading, settings)
}

/// The same with these settings.
pub fn evaluate_in(
    alloc: Global,
    reading: &Reading<'_>,
    settings: Settings,
) -> Result<Evaluation, AllocError>
    ensures count { IfOk result (λ e. vec_len e.messages ≤ 100) }
    ensures sorted { IfOk result (λ e. IsSortedByKey (λ m. m.start) nat_cmp e.messages.items) }
    ensures names { IfOk result (λ e. map (λ v. v.token) e.values.items ≡ value_names reading.now settings.stage 0 reading.now.declared) }
    ensures evaluated { IfOk result (IsEvaluated reading.now settings) }
    ensures sound { IfOk result (λ e. All (λ v. IsSoundOutcome v.outcome) e.values.items) }
{
    evaluate_with(alloc, reading, settings, &[])
}

/// The same with values that a host gives overrides: one has its value in each stage, `Const` too, and what names it is
/// evaluated; but one of floats is skipped, and one that declares no type and whose own value is none stays what that is
/// found to be. What is given converts to the type that the override declares, or else to that of its own value; a fault
/// at the override's name says where it does not. What is given for another name counts for nothing: ask `is_override`.
pub fn evaluate_with(
    alloc: Global,
    reading: &Reading<'_>,
    settings: Settings,
    given: &[Given<'_>],
) -> Result<Evaluation, AllocError>
    ensures count { IfOk result (λ e. vec_len e.messages ≤ 100) }
    ensures sorted { IfOk result (λ e. IsSortedByKey (λ m. m.start) nat_cmp e.messages.items) }
    ensures names { IfOk result (λ e. map (λ v. v.token) e.values.items ≡ value_names_among reading.now given.now settings.stage 0 reading.now.declared) }
    ensures evaluated { IfOk result (IsEvaluatedWith reading.now given.now settings) }
    ensures sound { IfOk result (λ e. All (λ v. IsSoundOutcome v.outcome) e.values.items) }
{
    let mut evaluator = Evaluator::with_given(alloc, reading, settings, given)?;
    evaluator.declare_all()?;
    let asserts = evaluator.assert_all()?;
    evaluator.into_evaluation(asserts)
}

impl Evaluator<'_> {
    fn into_evaluation(self, asserts: Vec<Assertion>) -> Result<Evaluation, AllocError>
        requires { AreAnswers self.meanings.items }
        ensures count { IfOk result (λ e. vec_len e.messages ≤ 100) }
        ensures sorted { IfOk result (λ e. IsSortedByKey (λ m. m.start) nat_cmp e.messages.items) }
        ensures told { IfOk result (λ e. AreTold (setting_of self.entry).faults e.messages.items) }
        ensures asserts { IfOk result (λ e. e.asserts ≡ asserts) }
        ensures names { IfOk result (λ e. map (λ v. v.token) e.values.items ≡ value_names_among self.entry.reading.now self.entry.given.now self.entry.stage 0 self.entry.reading.now.declared) }
        ensures values { IfOk result (λ e. e.values.items ≡ values_of (setting_of self.entry) 0 self.entry.reading.now.declared) }
        ensures sound { IfOk result (λ e. All (λ v. IsSoundOutcome v.outcome) e.values.items) }
    {
        let Evaluator {
            alloc,
            reading,
            stage,
            is_strict: _,
            dialect: _,
            given,
            messages,
            mut meanings,
            work: _,
            guesses: _,
        } = self;
        let messages = messages.into_sorted()?;
        let mut values = Vec::new(alloc);
        meanings.reverse();
        for number in 0..reading.len() {
            let meaning = popped(&mut meanings);
            let is_value = is_value(reading, given, stage, number);
            add_value(&mut values, is_value, reading.name(number), meaning)?;
        }
        Ok(Evaluation {
            values,
            asserts,
            messages,
        })
    }
}

fn add_value(
    values: &mut Vec<Evaluated>,
    is_value: bool,
    token: usize,
    meaning: Answer,
) -> Result<(), AllocError>
    requires answer { IsAnswer meaning }
    requires sound { All (λ v. IsSoundOutcome v.outcome) values.old.items }
    ensures names { OnOk result (map (λ v. v.token) values.new.items ≡
        (if is_value then map (λ v. v.token) values.old.items ++ token ∷ [] else map (λ v. v.token) values.old.items)) }
    ensures values { OnOk result (values.new.items ≡
        (if is_value then values.old.items ++ (record { token = token; outcome = outcome_in meaning }) ∷ [] else values.old.items)) }
    ensures sound { OnOk result (All (λ v. IsSoundOutcome v.outcome) values.new.items) }
{
    if is_value {
        values.push(Evaluated {
            token,
            outcome: outcome_of(meaning),
        })?;
    } else {
        drop(meaning);
    }
    Ok(())
}

// Whether the declaration of a number has a value.
fn is_value(reading: &Reading<'_>, given: &[Given<'_>], stage: ShaderStage, number: usize) -> bool
    ensures { result ≡ unwrap_or (option_map (has_value_among reading.now given.now stage number) (slice_get reading.now.declared number)) false }
{
    match reading.declared(number) {
        Some(declared) => has_value(reading, given, stage, number, declared),
        None => false,
    }
}

fn has_value(
    reading: &Reading<'_>,
    given: &[Given<'_>],
    stage: ShaderStage,
    number: usize,
    declared: Declared,
) -> bool
    ensures { result ≡ has_value_among reading.now given.now stage number declared }
{
    match declared {
        Declared::Const { .. } => true,
        Declared::Override { .. } => {
            is_given(given, reading.word(reading.name(number))) || is_late(stage)
        }
        _ => false,
    }
}

fn is_given(given: &[Given<'_>], name: &str) -> bool
    ensures { result ≡ is_some (given_for given.now name.now) }
{
    given_for(given, name).is_some()
}

// Whether overrides have their own values in the stage.
fn is_late(stage: ShaderStage) -> bool
    ensures { (ty : Option Span) → (value : Option Span) → result ≡ has_value stage (Declared.Override ty value) }
{
    match stage {
        ShaderStage::Const => false,
        ShaderStage::Override | ShaderStage::Exec => true,
    }
}

fn outcome_of(meaning: Answer) -> Outcome
    requires { IsAnswer meaning }
    ensures outcome { result ≡ outcome_in meaning }
    ensures sound { IsSoundOutcome result }
{
    match meaning {
        Answer::Value(value) => Outcome::Value(value.instance),
        Answer::Skipped(skip) => Outcome::Skipped(skip),
        other => {
            drop(other);
            Outcome::Faulty
        }
    }
}

//! The declarations of a module with their types and values (WGSL: declaration and scope).

ghost use Rattle.std.specs.Prelude.{◌≡◌, ◌≤◌, IfOk, false, vec_len};
ghost use Rattle.std.specs.List.Sorted.{IsSortedByKey};
ghost use Rattle.std.specs.Ordering.{nat_cmp};
ghost use Rattle.wgsl_eval.specs.Answers.{AreAnswers};
ghost use Rattle.wgsl_eval.specs.Evaluated.{AreDeclarations, AreDeclarationsWith, AreItems, IsItem, kind_in, of_wgsl};
ghost use Rattle.wgsl_eval.specs.Evaluators.{setting_of};
ghost use Rattle.wgsl_eval.specs.Messages.{AreTold};

use crate::answer::{Answer, Skip};
use crate::evaluator::{Evaluator, popped};
use crate::given::Given;
use crate::message::Message;
use crate::settings::Settings;
use crate::variable::Variable;
use std::alloc::{AllocError, Global};
use wgsl_functions::Dialect;
use wgsl_rules::{ShaderStage, Type};
use wgsl_source::{Declared, Extent, Reading};
use wgsl_values::Instance;

/// The declarations of a module in their order, and what is told of them in its order. Of many faults and of many
/// warnings the first that are found are told, and faults before warnings.
#[derive(Debug, PartialEq, Eq, Drop)]
pub struct Declarations {
    pub items: Vec<Item>,
    pub messages: Vec<Message>,
}

/// A declaration: its name, the bytes of the source that the name has, and what is declared.
#[derive(Debug, PartialEq, Eq, Drop)]
pub struct Item {
    pub name: String,
    pub start: usize,
    pub end: usize,
    pub kind: ItemKind,
}

/// What is declared.
#[derive(Debug, PartialEq, Eq, Drop)]
pub enum ItemKind {
    /// A structure type.
    Struct(Type),
    /// Another name for a type.
    Alias(Type),
    /// A value that is known before the shader runs.
    Value(Instance),
    /// A variable whose type has values in memory.
    Variable(Variable),
    /// A function, an `override` that has no value here, a float, a texture, and whatever else has no such
    /// type and no such value; why, and where.
    Skipped(Skip),
    /// What has a fault, or names what has one.
    Faulty,
}

/// What the declarations of a module are found to be, for a host: the types of its structures and
/// variables with their counts and attributes, which are evaluated as the constants of WGSL are. Its
/// assertions are not checked.
///
/// A type of a source has 4,096 types at most, and a value 64 others inside each other: a stack of 8 MiB is enough.
///
/// The only error is that memory is wanting.
pub fn resolve(alloc: Global, reading: &Reading<'_>) -> Result<Declarations, AllocError>
    ensures count { IfOk result (λ d. vec_len d.messages ≤ 100) }
    ensures sorted { IfOk result (λ d. IsSortedByKey (λ m. m.start) nat_cmp d.messages.items) }
    ensures declared { IfOk result (AreDeclarations reading.now (of_wgsl ShaderStage.Const false)) }
{
    let settings = Settings {
        stage: ShaderStage::Const,
        is_strict: false,
        dialect: Dialect::Wgsl,
    };
    resolve_in(alloc, reading, settings)
}

/// The same with these settings.
pub fn resolve_in(
    alloc: Global,
    reading: &Reading<'_>,
    settings: Settings,
) -> Result<Declarations, AllocError>
    ensures count { IfOk result (λ d. vec_len d.messages ≤ 100) }
    ensures sorted { IfOk result (λ d. IsSortedByKey (λ m. m.start) nat_cmp d.messages.items) }
    ensures declared { IfOk result (AreDeclarations reading.now settings) }
{
    resolve_with(alloc, reading, settings, &[])
}

/// The same with values that a host gives overrides, as `evaluate_with` takes them: counts of elements that name such an
/// override are evaluated.
pub fn resolve_with(
    alloc: Global,
    reading: &Reading<'_>,
    settings: Settings,
    given: &[Given<'_>],
) -> Result<Declarations, AllocError>
    ensures count { IfOk result (λ d. vec_len d.messages ≤ 100) }
    ensures sorted { IfOk result (λ d. IsSortedByKey (λ m. m.start) nat_cmp d.messages.items) }
    ensures declared { IfOk result (AreDeclarationsWith reading.now given.now settings) }
{
    let mut evaluator = Evaluator::with_given(alloc, reading, settings, given)?;
    evaluator.declare_all()?;
    evaluator.into_declarations()
}

impl Evaluator<'_> {
    fn into_declarations(self) -> Result<Declarations, AllocError>
        requires { AreAnswers self.meanings.items }
        ensures count { IfOk result (λ d. vec_len d.messages ≤ 100) }
        ensures sorted { IfOk result (λ d. IsSortedByKey (λ m. m.start) nat_cmp d.messages.items) }
        ensures told { IfOk result (λ d. AreTold (setting_of self.entry).faults d.messages.items) }
        ensures items { IfOk result (λ d. AreItems (setting_of self.entry) d.items.items) }
    {
        let Evaluator {
            alloc,
            reading,
            messages,
            mut meanings,
            ..
        } = self;
        let messages = messages.into_sorted()?;
        let mut items = Vec::with_capacity(alloc, reading.len())?;
        meanings.reverse();
        for number in 0..reading.len() {
            let meaning = popped(&mut meanings);
            items.push(item_of(alloc, reading, number, meaning)?)?;
        }
        Ok(Declarations { items, messages })
    }
}

fn item_of(
    alloc: Global,
    reading: &Reading<'_>,
    number: usize,
    meaning: Answer,
) -> Result<Item, AllocError>
    ensures { IfOk result (IsItem reading.now meaning number) }
{
    let token = reading.name(number);
    let Extent { start, end } = reading.extent(token);
    match String::from_str(alloc, reading.word(token)) {
        Ok(name) => Ok(Item {
            name,
            start,
            end,
            kind: kind_of(reading.declared(number), meaning),
        }),
        Err(error) => {
            drop(meaning);
            Err(error)
        }
    }
}

fn kind_of(declared: Option<Declared>, meaning: Answer) -> ItemKind
    ensures { result ≡ kind_in declared meaning }
{
    match meaning {
        Answer::Type(of) => match declared {
            Some(Declared::Struct { .. }) => ItemKind::Struct(of.ty),
            _ => ItemKind::Alias(of.ty),
        },
        Answer::Value(value) => ItemKind::Value(value.instance),
        Answer::Variable(variable) => ItemKind::Variable(variable),
        Answer::Skipped(skip) => ItemKind::Skipped(skip),
        Answer::Named(_) | Answer::Bitcast(_) | Answer::Wrong(_, _) | Answer::Faulty => {
            ItemKind::Faulty
        }
    }
}

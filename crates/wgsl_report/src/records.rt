//! The layout of a type as records, of a type by its name or as a source may write it.

ghost use Rattle.std.specs.Prelude.{◌≡◌, IfOk, IfSome, MatchOption, string_bytes, ⊤};
ghost use Rattle.wgsl_nodes.specs.Names.{AreRenamed};
ghost use Rattle.wgsl_rules.specs.Types.{Ty};
ghost use Rattle.wgsl_rules.specs.View.{type_view};
ghost use Rattle.wgsl_report.specs.Records.{AreNodesOf, IfType, IsLast, IsLayoutOf, IsOfName, IsTypeOf, IsVariable};
ghost use Rattle.wgsl_report.specs.Scopes.{with_alias};

use crate::defines::{GivenValues, Values, values_for};
use crate::eval::is_expression;
use crate::scope::free_name;
use std::alloc::{AllocError, Global};
use wgsl_eval::{Declarations, Item, ItemKind, Message, Settings, Severity, resolve_with};
use wgsl_nodes::{Node, nodes_of, set_name};
use wgsl_rules::{StructType, Type};
use wgsl_source::{Declared, Extent, Reading};

/// The layout of a type as records, and how many faults there are.
#[derive(Drop)]
pub struct Records {
    /// The records; the names of members stand in the text of the module. `None` where there are none.
    pub nodes: Option<Vec<Node>>,
    /// The faults of the module, and of the type; 1 where the text is none by its form.
    pub faults: usize,
    /// Whether the type is faulty, or none that there is.
    pub is_faulty: bool,
}

/// A module with another name for a type behind it.
#[derive(Drop)]
struct WithAlias {
    text: String,
    /// The name, which the module does not have.
    name: String,
    /// Where the type begins.
    start: usize,
}

/// What has the name that is asked for.
#[derive(Clone, Copy)]
enum Found<'a> {
    Type(&'a Type),
    Faulty,
    Skipped,
}

/// The records of a type: of the variable of this name, or of the type that the module may write so.
///
/// The error is that memory is wanting, for 2^32 records or more too.
pub fn records_of(
    alloc: Global,
    module: &str,
    ty: &str,
    settings: Settings,
    defined: &GivenValues<'_>,
) -> Result<Records, AllocError>
    ensures { IfOk result (λ r. MatchOption r.nodes ⊤ (λ nodes. (t : Ty) × IsTypeOf «module».now ty.now settings t × IsLayoutOf t nodes.items)) }
{
    if !is_expression(alloc, ty)? {
        return Ok(Records {
            nodes: None,
            faults: 1,
            is_faulty: true,
        });
    }
    let WithAlias { text, name, start } = with_alias(alloc, module, ty)?;
    let reading = Reading::of_module(alloc, text.as_str())?;
    let Values {
        given,
        messages: of_overrides,
    } = values_for(alloc, module, &reading, defined, settings)?;
    let Declarations { items, messages } = resolve_with(
        alloc,
        &reading,
        settings,
        given.as_slice(),
    )?;
    let variable = variable_named(items.as_slice(), ty);
    let is_variable = variable.is_some();
    let found = variable.unwrap_or(last_named(items.as_slice(), name.as_str()));
    let of_form = reading.faults().len();
    let of_values = faults_of(messages.as_slice(), is_variable, start);
    let faults = of_form
        .saturating_add(of_values)
        .saturating_add(faults_of(of_overrides.as_slice(), false, 0));
    let records = records_with_names(alloc, &reading, found, faults);
    drop(reading);
    records
}

fn records_with_names(
    alloc: Global,
    reading: &Reading<'_>,
    found: Found<'_>,
    faults: usize,
) -> Result<Records, AllocError>
    ensures { IfOk result (λ r. MatchOption r.nodes ⊤ (λ nodes. AreNodesOf found.entry nodes.items)) }
{
    let (nodes, is_faulty) = match found {
        Found::Type(ty) => (named_nodes(alloc, reading, ty)?, false),
        Found::Faulty => (None, true),
        Found::Skipped => (None, false),
    };
    Ok(Records {
        nodes,
        faults,
        is_faulty,
    })
}

// The records of a type, with the names of members.
fn named_nodes(
    alloc: Global,
    reading: &Reading<'_>,
    ty: &Type,
) -> Result<Option<Vec<Node>>, AllocError>
    ensures { IfOk result (λ made. MatchOption made ⊤ (λ nodes. IsLayoutOf (type_view ty.now) nodes.items)) }
{
    let Some(mut nodes) = nodes_of(alloc, ty)? else {
        return Ok(None);
    };
    name_members(nodes.as_mut_slice(), reading, 0, ty);
    Ok(Some(nodes))
}

fn with_alias(alloc: Global, module: &str, ty: &str) -> Result<WithAlias, AllocError>
    ensures { IfOk result (λ w. string_bytes w.text ≡ with_alias «module».now (string_bytes w.name) ty.now) }
{
    let name = free_name(alloc, module)?;
    let mut text = String::from_str(alloc, module)?;
    write!(text, "\nalias {name} = ")?;
    let start = text.len();
    write!(text, "{ty}\n;\n")?;
    Ok(WithAlias { text, name, start })
}

// The type of the first declaration of this name, if that is a variable.
fn variable_named<'a>(items: &'a [Item], name: &str) -> Option<Found<'a>>
    ensures { IfSome result (λ found. IfType found (λ t. IsVariable name.now t items.now)) }
{
    for item in items {
        if item.name.as_str() == name {
            return match &item.kind {
                ItemKind::Variable(variable) => Some(Found::Type(&variable.ty)),
                _ => None,
            };
        }
    }
    None
}

// What the last declaration is, which has this name.
fn last_named<'a>(items: &'a [Item], name: &str) -> Found<'a>
    ensures { IfType result (λ t. IsLast name.now t items.now) }
{
    match items.last() {
        Some(item) if item.name.as_str() == name => named(item),
        _ => Found::Faulty,
    }
}

// What stands behind a name of a type.
fn named(item: &Item) -> Found<'_>
    ensures { IfType result (λ t. IsOfName t item.now.kind) }
{
    match &item.kind {
        ItemKind::Struct(ty) | ItemKind::Alias(ty) => Found::Type(ty),
        ItemKind::Skipped(_) => Found::Skipped,
        ItemKind::Value(_) | ItemKind::Variable(_) | ItemKind::Faulty => Found::Faulty,
    }
}

// How many of the messages are faults, without those of the type where it is a variable's.
fn faults_of(messages: &[Message], is_variable: bool, start: usize) -> usize {
    let mut count = 0usize;
    for message in messages {
        let is_of_type = is_variable && message.start >= start;
        if message.severity == Severity::Fault && !is_of_type {
            count = count.saturating_add(1);
        }
    }
    count
}

// Gives the members of the structures in the type the places of their names in the text.
#[cycle(name_members)]
fn name_members(nodes: &mut [Node], reading: &Reading<'_>, number: u32, ty: &Type)
    ensures { AreRenamed nodes.old nodes.new }
{
    let Some(node) = nodes.get(number as usize) else {
        return;
    };
    let child = node.child;
    match ty {
        Type::Array(element, _) => name_members(nodes, reading, child, element),
        Type::Struct(structure) => name_each(nodes, reading, child, structure),
        _ => {}
    }
}

#[cycle(name_members)]
fn name_each(nodes: &mut [Node], reading: &Reading<'_>, first: u32, structure: &StructType)
    ensures { AreRenamed nodes.old nodes.new }
{
    let mut number = first;
    for (i, member) in structure.members.iter().enumerate() {
        if let Some(extent) = extent_of_member(reading, structure.name.as_str(), i) {
            set_extent(nodes, number, extent);
        }
        name_members(nodes, reading, number, &member.ty);
        number = number.saturating_add(1);
    }
}

// Where the name of a member stands, of the structure of this name.
fn extent_of_member(reading: &Reading<'_>, structure: &str, i: usize) -> Option<Extent> {
    let number = reading.number_of(structure)?;
    let Declared::Struct { first, .. } = reading.declared(number)? else {
        return None;
    };
    let field = reading.field(first.checked_add(i)?)?;
    Some(reading.extent(field.name))
}

fn set_extent(nodes: &mut [Node], number: u32, extent: Extent)
    ensures { AreRenamed nodes.old nodes.new }
{
    if let (Ok(start), Ok(end)) = (u32::try_from(extent.start), u32::try_from(extent.end)) {
        set_name(nodes, number, start, end);
    }
}

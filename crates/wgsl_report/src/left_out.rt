//! What a source declares that has no layout here, and why.

ghost use Rattle.std.specs.Prelude.{◌≡◌, Some, None, if◌then◌else◌};
ghost use Rattle.wgsl_report.specs.Kinds.{is_looked_for, skip_in};

use crate::request::Request;
use std::alloc::{AllocError, Global};
use wgsl_eval::{Item, ItemKind, Message, Need, Part, Severity, Skip};
use wgsl_rules::AddressSpace;
use wgsl_source::{Declared, Reading};

/// A declaration that has no layout here, and why.
#[derive(Clone, Copy)]
pub(crate) struct LeftOut<'a> {
    pub(crate) item: &'a Item,
    pub(crate) declared: Declared,
    pub(crate) skip: Skip,
    /// Whether it is asked for.
    pub(crate) is_named: bool,
}

/// What is left out of what is asked for, in the order of the source. Where no names are asked for these are structures, and
/// variables that have memory.
pub(crate) fn left_out<'a>(
    alloc: Global,
    items: &'a [Item],
    reading: &Reading<'_>,
    request: &Request<'_>,
) -> Result<Vec<LeftOut<'a>>, AllocError> {
    let mut found = Vec::new(alloc);
    let names = request.names.as_slice();
    for (number, item) in items.iter().enumerate() {
        let (Some(skip), Some(declared)) = (skip_in(item), reading.declared(number)) else {
            continue;
        };
        let is_named = names.iter().any(|name| *name == item.name.as_str());
        if is_named || names.is_empty() && is_looked_for(declared, skip) {
            found.push(LeftOut {
                item,
                declared,
                skip,
                is_named,
            })?;
        }
    }
    Ok(found)
}

/// Adds what is told of what is left out of a text.
pub(crate) fn add_left_out(
    alloc: Global,
    messages: &mut Vec<Message>,
    text: &str,
    left_out: &[LeftOut<'_>],
    is_strict: bool,
) -> Result<(), AllocError> {
    for one in left_out {
        messages.push(one.message(alloc, text, is_strict)?)?;
    }
    Ok(())
}

// Why the declaration is skipped, if it is.
fn skip_in(item: &Item) -> Option<Skip>
    ensures { result ≡ skip_in item.now.kind }
{
    match &item.kind {
        ItemKind::Skipped(skip) => Some(*skip),
        _ => None,
    }
}

// Whether a layout is looked for of what is declared so: of structures, and of variables outside of private space. What needs a
// texture, a sampler or a pointer has none.
fn is_looked_for(declared: Declared, skip: Skip) -> bool
    ensures { result ≡ is_looked_for declared skip.need }
{
    if skip.need == Need::Opaque {
        return false;
    }
    match declared {
        Declared::Struct { .. } => true,
        Declared::Variable(variable) => variable.space != Some(AddressSpace::Private),
        _ => false,
    }
}

impl LeftOut<'_> {
    /// The word of the source for what is declared.
    pub(crate) fn kind(&self) -> &'static str {
        match self.declared {
            Declared::Struct { .. } => "struct",
            Declared::Alias(_) => "alias",
            Declared::Const { .. } => "const",
            Declared::Override { .. } => "override",
            Declared::Variable(_) => "var",
            Declared::Function => "fn",
        }
    }

    /// What is told of it: a fault where it is asked for, or strictness is.
    pub(crate) fn message(
        &self,
        alloc: Global,
        text: &str,
        is_strict: bool,
    ) -> Result<Message, AllocError> {
        let name = &self.item.name;
        let mut said = format!(in alloc; "{name} has no layout here: ")?;
        self.add_reason(&mut said, text)?;
        let severity = if self.is_named || is_strict {
            Severity::Fault
        } else {
            Severity::Note
        };
        Ok(Message {
            start: self.skip.start,
            end: self.skip.end,
            severity,
            text: said,
        })
    }

    /// Why it has none, in a text of which it is declared.
    pub(crate) fn add_reason(&self, out: &mut String, text: &str) -> Result<(), AllocError> {
        if self.skip.start == self.item.start {
            return out.push_str(match self.declared {
                Declared::Function => "it is a function",
                Declared::Override { .. } => "it is an override",
                _ => "it has no type of its own",
            });
        }
        add_need(out, text, self.skip)
    }
}

/// What needs what, of an expression in the text that is not evaluated.
pub(crate) fn add_need(out: &mut String, text: &str, skip: Skip) -> Result<(), AllocError> {
    match skip.part {
        Part::Count => out.push_str("its count ")?,
        Part::Attribute => out.push_str("its attribute ")?,
        Part::Expression => {
            let found = text.get(skip.start..skip.end).unwrap_or("");
            write!(out, "`{found}` ")?;
        }
    }
    out.push_str(match skip.need {
        Need::Float => "needs a float",
        Need::Override => "needs an override",
        Need::Variable => "needs a variable",
        Need::Function => "needs a function",
        Need::Opaque => "has no layout",
        Need::Runtime => "needs what is known at run time",
    })
}

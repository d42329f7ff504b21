//! What is printed of the layouts of a source.

ghost use Rattle.std.specs.Prelude.{◌≡◌, ◌<◌, IfOk, OnOk, is_some, string_len};
ghost use Rattle.wgsl_report.specs.Faults.{Tells, TellsIf};
ghost use Rattle.wgsl_report.specs.Kinds.{is_left_out};

use crate::bytes::add_bytes;
use crate::c::add_c;
use crate::defines::{GivenValues, Values, values_for};
use crate::finding::fault_count;
use crate::findings::{joined, layout_findings};
use crate::findings_json::Told;
use crate::format::Format;
use crate::interface::Interface;
use crate::interface_table::add_interface;
use crate::json::{Whole, add_json};
use crate::left_out::{LeftOut, add_left_out, left_out};
use crate::nearest::nearest;
use crate::numbers::{Numbers, host_numbers};
use crate::report::{Report, errors_of};
use crate::request::Request;
use crate::rust::{Traits, add_rust};
use crate::structures::{Asked, is_shared};
use crate::table::add_tables;
use std::alloc::{AllocError, Global};
use wgsl_eval::{Declarations, Given, Item, ItemKind, Message, Settings, resolve_with};
use wgsl_rules::ShaderStage;
use wgsl_source::{Declared, Reading};

/// What a source has of what is asked for, and what is told of it.
pub fn layouts_of(
    alloc: Global,
    file: &str,
    text: &str,
    request: &Request<'_>,
    defined: &GivenValues<'_>,
) -> Result<Report, AllocError> {
    let reading = Reading::of_module(alloc, text)?;
    let report = layouts_in(alloc, (file, text), &reading, request, defined);
    drop(reading);
    report
}

// The same of a source of this name and text that is read.
fn layouts_in(
    alloc: Global,
    (file, text): (&str, &str),
    reading: &Reading<'_>,
    request: &Request<'_>,
    defined: &GivenValues<'_>,
) -> Result<Report, AllocError> {
    let Values { given, messages } = values_for(alloc, text, reading, defined, request.settings)?;
    let report = layouts_with(
        alloc,
        (file, text),
        reading,
        request,
        given.as_slice(),
        messages,
    );
    drop(given);
    report
}

// The same where these values are given, of which these messages tell.
fn layouts_with(
    alloc: Global,
    (file, text): (&str, &str),
    reading: &Reading<'_>,
    request: &Request<'_>,
    given: &[Given<'_>],
    of_overrides: Vec<Message>,
) -> Result<Report, AllocError> {
    let Declarations { items, messages } = resolve_with(alloc, reading, request.settings, given)?;
    let report = layouts_of_items(
        alloc,
        (file, text),
        reading,
        request,
        given,
        items.as_slice(),
        (messages, of_overrides),
    );
    drop(items);
    report
}

// The same of declarations that were found to be these, of which and of overrides these messages tell.
fn layouts_of_items(
    alloc: Global,
    (file, text): (&str, &str),
    reading: &Reading<'_>,
    request: &Request<'_>,
    given: &[Given<'_>],
    items: &[Item],
    (messages, of_overrides): (Vec<Message>, Vec<Message>),
) -> Result<Report, AllocError> {
    let settings = request.settings;
    let Numbers {
        of,
        messages: of_numbers,
    } = host_numbers(alloc, text, reading, settings, given, items)?;
    let values = override_values(alloc, reading, settings, given)?;
    let messages = joined(messages, of_numbers, of_overrides)?;
    let interface = Interface::new(alloc, reading, items, of.as_slice())?;
    let whole = Whole {
        interface: &interface,
        values: values.as_slice(),
    };
    report_of(
        alloc,
        (file, text),
        reading,
        request,
        items,
        whole,
        messages,
    )
}

// What is printed of the declarations of a source of this name and text, and what is told of them beside these messages.
fn report_of(
    alloc: Global,
    (file, text): (&str, &str),
    reading: &Reading<'_>,
    request: &Request<'_>,
    items: &[Item],
    whole: Whole<'_, '_>,
    mut messages: Vec<Message>,
) -> Result<Report, AllocError> {
    let is_strict = request.settings.is_strict;
    let left_out = left_out(alloc, items, reading, request)?;
    let left_out = left_out.as_slice();
    add_left_out(alloc, &mut messages, text, left_out, is_strict)?;
    let (interface, messages) = (whole.interface, messages.as_slice());
    let findings = layout_findings(alloc, text, reading, items, interface, is_strict, messages)?;
    let findings = findings.as_slice();
    let told = Told {
        file,
        text,
        findings,
    };
    let order = reading.order();
    let output = output_of(alloc, items, order, request, whole, left_out, told)?;
    let mut errors = errors_of(alloc, file, text, findings)?;
    let missing = add_missing(alloc, &mut errors, items, file, request.names.as_slice())?;
    Ok(Report {
        output,
        errors,
        faults: fault_count(findings).saturating_add(missing),
    })
}

// The values that overrides have, by the numbers of declarations; none where there are no overrides.
fn override_values(
    alloc: Global,
    reading: &Reading<'_>,
    settings: Settings,
    given: &[Given<'_>],
) -> Result<Vec<Item>, AllocError> {
    let has_overrides = (0..reading.len()).any(|number| matches!(
        reading.declared(number),
        Some(Declared::Override { .. })
    ));
    if !has_overrides {
        return Ok(Vec::new(alloc));
    }
    let of_pipeline = Settings {
        stage: ShaderStage::Override,
        ..settings
    };
    Ok(resolve_with(alloc, reading, of_pipeline, given)?.items)
}

fn output_of(
    alloc: Global,
    items: &[Item],
    order: &[usize],
    request: &Request<'_>,
    whole: Whole<'_, '_>,
    left_out: &[LeftOut<'_>],
    told: Told<'_>,
) -> Result<String, AllocError> {
    let asked = Asked::new(items, request.names.as_slice());
    let whole = if asked.is_by_name() {
        None
    } else {
        Some(whole)
    };
    let mut output = String::new(alloc);
    match request.format {
        Format::Table => {
            add_tables(alloc, &mut output, asked)?;
            if let Some(whole) = whole {
                add_interface(alloc, &mut output, whole.interface, whole.values)?;
            }
        }
        Format::Bytes => add_bytes(alloc, &mut output, asked)?,
        Format::Json | Format::Rust | Format::Bytemuck | Format::C => {
            let names = asked.names_with_inner(alloc)?;
            let asked = Asked::new(items, names.as_slice());
            match request.format {
                Format::Rust => add_rust(alloc, &mut output, asked, Traits::Copy)?,
                Format::Bytemuck => add_rust(alloc, &mut output, asked, Traits::Bytemuck)?,
                Format::C => add_c(alloc, &mut output, order, asked)?,
                _ => add_json(alloc, &mut output, asked, whole, left_out, told)?,
            }
        }
    }
    Ok(output)
}

// Tells the names that are asked for and not there, or that have no layout here, and answers how many
// there are.
fn add_missing(
    alloc: Global,
    errors: &mut String,
    items: &[Item],
    file: &str,
    names: &[&str],
) -> Result<usize, AllocError>
    ensures { IfOk result (λ missing. Tells missing errors.old errors.new) }
{
    let mut missing = 0usize;
    for name in names {
        if add_reason(alloc, errors, items, file, name)? {
            missing = missing.saturating_add(1);
        }
    }
    Ok(missing)
}

// Tells why nothing is printed of a name, and answers whether there is a reason.
fn add_reason(
    alloc: Global,
    errors: &mut String,
    items: &[Item],
    file: &str,
    name: &str,
) -> Result<bool, AllocError>
    ensures { IfOk result (λ is_told. TellsIf is_told errors.old errors.new) }
{
    match items.iter().find(|item| item.name.as_str() == name) {
        Some(item) => match why_left_out(&item.kind) {
            Some(reason) => writeln!(errors, "{file}: error: `{name}` {reason}")?,
            None => return Ok(false),
        },
        None => add_unknown(alloc, errors, items, file, name)?,
    }
    Ok(true)
}

// Tells that nothing has the name, and which name is nearest to it.
fn add_unknown(
    alloc: Global,
    errors: &mut String,
    items: &[Item],
    file: &str,
    name: &str,
) -> Result<(), AllocError>
    ensures { OnOk result (string_len errors.old < string_len errors.new) }
{
    write!(errors, "{file}: error: nothing is named {name}")?;
    if let Some(other) = nearest(alloc, name, items)? {
        write!(errors, ", but {other} is there")?;
    }
    errors.push('\n')
}

// Why nothing is printed of a declaration; what has a fault, or is skipped, is told among the
// messages.
fn why_left_out(kind: &ItemKind) -> Option<&'static str>
    ensures { is_some result ≡ is_left_out kind.now }
{
    match kind {
        ItemKind::Struct(_) | ItemKind::Skipped(_) | ItemKind::Faulty => None,
        ItemKind::Variable(variable) if is_shared(variable) => None,
        ItemKind::Variable(_) => Some("is skipped: it is no variable in storage or uniform space"),
        ItemKind::Alias(_) => Some("is skipped: it is another name for a type"),
        ItemKind::Value(_) => Some("is skipped: it is a value, which has no layout"),
    }
}

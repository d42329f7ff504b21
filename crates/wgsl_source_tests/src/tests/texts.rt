//! The text of what a source declares: a part for each declaration and each fault.

use std::alloc::{AllocError, Global};
use std::process::Abort;
use wgsl_source::{Declared, Lines, Place, Reading, Reason};

/// Asserts that the source declares what the text says.
pub(super) fn assert_declares(rt: &impl Abort, alloc: Global, source: &str, wanted: &str) {
    let text = text_of(alloc, source).expect(rt, "memory");
    assert_text(rt, text, wanted, source);
}

/// Asserts that the text of the source is the one that is wanted.
pub(super) fn assert_text(rt: &impl Abort, text: String, wanted: &str, source: &str) {
    assert_eq!(rt; text.as_str(), wanted, "of {source}");
}

/// Asserts that each source declares what the text beside it says.
pub(super) fn assert_all_declare(rt: &impl Abort, alloc: Global, rows: &[(&str, &str)]) {
    for (source, wanted) in rows {
        assert_declares(rt, alloc, source, wanted);
    }
}

/// The reading of a module, for which there is memory.
pub(super) fn reading_of<'a>(rt: &impl Abort, alloc: Global, source: &'a str) -> Reading<'a> {
    Reading::of_module(alloc, source).expect(rt, "memory")
}

pub(super) fn text_of(alloc: Global, source: &str) -> Result<String, AllocError> {
    let reading = Reading::of_module(alloc, source)?;
    let mut text = String::new(alloc);
    let added = add_reading(alloc, &mut text, &reading, source);
    drop(reading);
    added?;
    Ok(text)
}

fn add_reading(
    alloc: Global,
    text: &mut String,
    reading: &Reading<'_>,
    source: &str,
) -> Result<(), AllocError> {
    for number in 0..reading.len() {
        separate(text)?;
        add_declaration(text, reading, number)?;
    }
    let lines = Lines::new(alloc, source)?;
    for fault in reading.faults() {
        separate(text)?;
        add_fault(text, lines.place(source, fault.start), fault.reason)?;
    }
    Ok(())
}

fn add_fault(text: &mut String, place: Place, reason: Reason) -> Result<(), AllocError> {
    let (line, column) = (place.line, place.column);
    write!(text, "{line}:{column} {reason}")
}

pub(super) fn separate(text: &mut String) -> Result<(), AllocError> {
    if text.is_empty() {
        return Ok(());
    }
    text.push_str("; ")
}

fn add_declaration(
    text: &mut String,
    reading: &Reading<'_>,
    number: usize,
) -> Result<(), AllocError> {
    let name = reading.word(reading.name(number));
    match reading.declared(number) {
        Some(Declared::Struct { first, end }) => {
            write!(text, "struct {name}")?;
            add_members(text, reading, first, end)
        }
        Some(Declared::Alias(_)) => write!(text, "alias {name}"),
        Some(Declared::Const { .. }) => write!(text, "const {name}"),
        Some(Declared::Override { .. }) => write!(text, "override {name}"),
        Some(Declared::Variable(_)) => write!(text, "var {name}"),
        Some(Declared::Function) => write!(text, "fn {name}"),
        None => Ok(()),
    }
}

fn add_members(
    text: &mut String,
    reading: &Reading<'_>,
    first: usize,
    end: usize,
) -> Result<(), AllocError> {
    text.push('(')?;
    for number in first..end {
        if number > first {
            text.push_str(", ")?;
        }
        if let Some(field) = reading.field(number) {
            text.push_str(reading.word(field.name))?;
        }
    }
    text.push(')')
}

//! Entry points with the sizes of their workgroups, the numbers of overrides, and variables of immediate data.

use crate::tests::modules::assert_orders;
use crate::tests::texts::{assert_all_declare, assert_text, reading_of, separate};
use std::alloc::{AllocError, Global};
use std::process::Abort;
use wgsl_source::{Declared, DeclaredEntry, EntryStage, Reading, Span};

// Of each expression its first word stands for it.
const ENTRIES: [(&str, &str); 12] = [
    ("fn f() { }", "f"),
    ("@vertex fn f() -> @builtin(position) vec4f { }", "f vertex"),
    ("@fragment fn f() { } fn g() { }", "f fragment; g"),
    ("@compute @workgroup_size(64) fn f() { }", "f compute 64"),
    (
        "@workgroup_size(X + 1, 2 * Y,) @compute fn f() { }",
        "f compute X 2",
    ),
    (
        "@compute @workgroup_size(8, (9), n) fn f() { }",
        "f compute 8 ( n",
    ),
    (
        "@compute @workgroup_size(1, 2, 3,) fn f() { }",
        "f compute 1 2 3",
    ),
    ("@workgroup_size(4) fn f() { }", "f"),
    ("@must_use @compute fn f() { }", "f compute"),
    ("@id(7) override n: u32;", "n id 7"),
    ("@id(A + 1) override n = 1; override m = 2;", "n id A; m"),
    ("@compute const N = 1; @id(3) fn f() { }", "N; f"),
];

const FAULTS: [(&str, &str); 12] = [
    (
        "@vertex @vertex fn f() { } const N = 1;",
        "const N; 1:10 this name is there already",
    ),
    (
        "@vertex @fragment fn f() { } const N = 1;",
        "const N; 1:10 this function is of another stage already",
    ),
    (
        "@workgroup_size(1) @workgroup_size(2) fn f() { } const N = 1;",
        "const N; 1:21 this name is there already",
    ),
    (
        "@id(1) @id(2) override n = 1; const N = 1;",
        "const N; 1:9 this name is there already",
    ),
    (
        "@workgroup_size() fn f() { } const N = 1;",
        "const N; 1:17 expected a type or a value",
    ),
    (
        "@workgroup_size(1, 2, 3, 4) fn f() { } const N = 1;",
        "const N; 1:26 expected `)`",
    ),
    (
        "@workgroup_size(1,,) fn f() { } const N = 1;",
        "const N; 1:19 expected a type or a value",
    ),
    (
        "@workgroup_size fn f() { } const N = 1;",
        "const N; 1:17 expected `(`",
    ),
    (
        "@id override n = 1; const N = 1;",
        "const N; 1:5 expected `(`",
    ),
    (
        "@id() override n = 1; const N = 1;",
        "const N; 1:5 expected a type or a value",
    ),
    (
        "var<immediates> a: u32; const N = 1;",
        "const N; 1:5 expected an address space",
    ),
    (
        "@compute @workgroup_size(N) fn f() { } const N = f();",
        "fn f; const N; 1:50 this needs itself",
    ),
];

// Whether each is one of immediate data.
const IMMEDIATE: [(&str, &str); 4] = [
    ("var<immediate> a: u32;", "a immediate"),
    ("var<push_constant> a: u32;", "a immediate"),
    ("var<immediate, read> a: u32;", "a immediate read"),
    ("var<private> a: u32; var b: sampler;", "a; b"),
];

// A constant stands before the function whose workgroup's size names it.
const ORDERS: [(&str, &str); 3] = [
    (
        "@compute @workgroup_size(N) fn f() { } const N = 4;",
        "N; f",
    ),
    (
        "@compute @workgroup_size(1, M + 1) fn f() { } override M = N; const N = 4;",
        "N; M; f",
    ),
    ("@id(N) override m = 1; const N = 4;", "N; m"),
];

fn add_declaration(
    text: &mut String,
    reading: &Reading<'_>,
    number: usize,
) -> Result<(), AllocError> {
    separate(text)?;
    text.push_str(reading.word(reading.name(number)))?;
    if let Some(entry) = reading.entry(number) {
        add_entry(text, reading, entry)?;
    }
    if let Some(id) = reading.id(number) {
        text.push_str(" id")?;
        add_span(text, reading, id)?;
    }
    add_space(text, reading.declared(number))
}

fn add_entry(
    text: &mut String,
    reading: &Reading<'_>,
    entry: DeclaredEntry,
) -> Result<(), AllocError> {
    text.push_str(match entry.stage {
        EntryStage::Vertex => " vertex",
        EntryStage::Fragment => " fragment",
        EntryStage::Compute => " compute",
    })?;
    for size in &entry.workgroup_size {
        if let Some(span) = *size {
            add_span(text, reading, span)?;
        }
    }
    Ok(())
}

fn add_span(text: &mut String, reading: &Reading<'_>, span: Span) -> Result<(), AllocError> {
    text.push(' ')?;
    text.push_str(reading.word(span.token))
}

fn add_space(text: &mut String, declared: Option<Declared>) -> Result<(), AllocError> {
    let Some(Declared::Variable(variable)) = declared else {
        return Ok(());
    };
    if variable.is_immediate {
        text.push_str(" immediate")?;
    }
    if variable.is_immediate && variable.access.is_some() {
        text.push_str(" read")?;
    }
    Ok(())
}

fn text_of(rt: &impl Abort, alloc: Global, source: &str) -> String {
    let reading = reading_of(rt, alloc, source);
    let mut text = String::new(alloc);
    for number in 0..reading.len() {
        add_declaration(&mut text, &reading, number).expect(rt, "memory");
    }
    drop(reading);
    text
}

fn assert_texts(rt: &impl Abort, alloc: Global, rows: &[(&str, &str)]) {
    for (source, wanted) in rows {
        let text = text_of(rt, alloc, source);
        assert_text(rt, text, wanted, source);
    }
}

#[test]
fn entry_points_have_their_stages_and_sizes(rt: HostRuntime) {
    assert_texts(&rt, rt.alloc(), &ENTRIES);
}

#[test]
fn faults_of_host_attributes_are_told(rt: HostRuntime) {
    assert_all_declare(&rt, rt.alloc(), &FAULTS);
}

#[test]
fn immediate_data_is_told_apart(rt: HostRuntime) {
    assert_texts(&rt, rt.alloc(), &IMMEDIATE);
}

#[test]
fn attributes_name_declarations_before_theirs(rt: HostRuntime) {
    assert_orders(&rt, rt.alloc(), &ORDERS);
}

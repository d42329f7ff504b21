//! What readings show of modules: what stands at a variable, and an order of the declarations.

use crate::tests::texts::{assert_text, reading_of, separate};
use std::alloc::{AllocError, Global};
use std::process::Abort;
use wgsl_source::{Declared, DeclaredVariable, Reading, Span};

const VARIABLES: [(&str, &str); 6] = [
    (
        "@group(0) @binding(1) var<storage, read_write> data: array<u32>;",
        "storage; read_write; type array; group 0; binding 1",
    ),
    (
        "@binding(N) @group(2 + 3,) var<uniform> u: mat2x2h;",
        "uniform; type mat2x2h; group 2; binding N",
    ),
    ("var<private> p: i32 = 1;", "private; type i32"),
    ("var<storage,> s: S;", "storage; type S"),
    (
        "@group(1) var t: texture_2d<f32>;",
        "type texture_2d; group 1",
    ),
    ("var v = 7;", ""),
];

const ORDERS: [(&str, &str); 5] = [
    ("const A = 1; const B = A; const C = B;", "A; B; C"),
    ("const A = B * 2; const B = C; const C = 3;", "C; B; A"),
    (
        "struct S { t: array<T, 2> } struct T { @size(N) a: u32 } const N = 8;",
        "N; T; S",
    ),
    (
        "@group(G) @binding(0) var<uniform> v: A; alias A = vec2<f32>; override G = f(A);",
        "A; G; v",
    ),
    ("const N = f(1); fn f() { g(); }", "f; N"),
];

fn add_variable(
    text: &mut String,
    reading: &Reading<'_>,
    variable: DeclaredVariable,
) -> Result<(), AllocError> {
    if let Some(space) = variable.space {
        write!(text, "{space}")?;
    }
    if let Some(access) = variable.access {
        write!(text, "; {access}")?;
    }
    add_first_word(text, reading, "type", variable.ty)?;
    add_first_word(text, reading, "group", variable.group)?;
    add_first_word(text, reading, "binding", variable.binding)
}

// The token that the expression begins with, where there is one.
fn add_first_word(
    text: &mut String,
    reading: &Reading<'_>,
    name: &str,
    span: Option<Span>,
) -> Result<(), AllocError> {
    let Some(span) = span else {
        return Ok(());
    };
    separate(text)?;
    let word = reading.word(span.token);
    write!(text, "{name} {word}")
}

/// What stands at the first declaration, if it is a variable.
fn text_of_variable(rt: &impl Abort, alloc: Global, source: &str) -> String {
    let reading = reading_of(rt, alloc, source);
    let mut text = String::new(alloc);
    if let Some(Declared::Variable(variable)) = reading.declared(0) {
        add_variable(&mut text, &reading, variable).expect(rt, "memory");
    }
    drop(reading);
    text
}

fn add_order(text: &mut String, reading: &Reading<'_>) -> Result<(), AllocError> {
    for number in reading.order() {
        separate(text)?;
        text.push_str(reading.word(reading.name(*number)))?;
    }
    Ok(())
}

/// The names of the declarations in their order.
fn text_of_order(rt: &impl Abort, alloc: Global, source: &str) -> String {
    let reading = reading_of(rt, alloc, source);
    let mut text = String::new(alloc);
    add_order(&mut text, &reading).expect(rt, "memory");
    drop(reading);
    text
}

#[test]
fn what_stands_at_variables_is_shown(rt: HostRuntime) {
    for (source, wanted) in &VARIABLES {
        let text = text_of_variable(&rt, rt.alloc(), source);
        assert_text(&rt, text, wanted, source);
    }
}

/// Asserts that the declarations of each source have the order of the text beside it.
pub(super) fn assert_orders(rt: &impl Abort, alloc: Global, rows: &[(&str, &str)]) {
    for (source, wanted) in rows {
        let text = text_of_order(rt, alloc, source);
        assert_text(rt, text, wanted, source);
    }
}

#[test]
fn declarations_stand_behind_those_that_they_name(rt: HostRuntime) {
    assert_orders(&rt, rt.alloc(), &ORDERS);
}

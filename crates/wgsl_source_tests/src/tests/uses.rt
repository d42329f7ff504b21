//! Which declarations a declaration names, by WGSL's rules of scope.

use crate::tests::asserts::assert_that;
use crate::tests::texts::{assert_text, reading_of, separate};
use std::alloc::{AllocError, Global};
use std::process::Abort;
use wgsl_source::Reading;

const DECLARATIONS: [(&str, &str); 9] = [
    ("const A = 1; const B = A + A;", "A:; B: A"),
    ("const B = A + C; const A = 1;", "B: A; A:"),
    (
        "struct S { A: array<T, N>, N: u32 } alias T = u32; const N = 2; const A = 1;",
        "S: T N; T:; N:; A:",
    ),
    (
        "@group(G) @binding(0) var<uniform> u: S; const G = 0; struct S { a: u32 }",
        "u: G S; G:; S:",
    ),
    (
        "@id(I) override n: T = D; const I = 1; const D = 2; alias T = u32;",
        "n: I D T; I:; D:; T:",
    ),
    ("const A = s.a.A; const s = 1;", "A: s; s:"),
    ("const N = f(N); fn f() { }", "N: N f; f:"),
    (
        "@compute @workgroup_size(X, 2, Y) fn f() { } const X = 1; override Y = 2;",
        "f: X Y; X:; Y:",
    ),
    ("const_assert A < 2; const A = 1;", "A:"),
];

const BODIES: [(&str, &str); 10] = [
    ("fn f() { g(); } fn g() { }", "f: g; g:"),
    ("fn g() { } fn f() { g(); g(); f(); }", "g:; f: g f"),
    (
        "fn f(x: S, @location(N) y: T) -> R { } struct S { a: u32 } alias T = u32; alias R = u32; const N = 1;",
        "f: S T R N; S:; T:; R:; N:",
    ),
    (
        "fn f() { a.b.c = d[e]; } const b = 1; var c: u32; var<private> a: S; const e = 1; var<private> d: u32; struct S { b: u32 }",
        "f: a e d; b:; c:; a: S; e:; d:; S:",
    ),
    (
        "@must_use fn f() { @diagnostic(off, must_use) if (a) { } } const must_use = 1; const a = true; const diagnostic = 1; const off = 1;",
        "f: a; must_use:; a:; diagnostic:; off:",
    ),
    (
        "fn f(@builtin(position) p: vec4f, @location(0) @interpolate(flat, center) q: u32) { } const position = 1; const center = 2; const flat = 3; const p = 4;",
        "f:; position:; center:; flat:; p:",
    ),
    (
        "fn f() -> @location(0) @interpolate(flat) color { } alias color = vec4f;",
        "f: color; color:",
    ),
    (
        "fn f() { switch a { case b, c: { } default { } } } const a = 1; const b = 1; const c = 1;",
        "f: a b c; a:; b:; c:",
    ),
    (
        "fn f() { var x: array<T, N> = array<T, N>(); return x; } const N = 1; alias T = u32;",
        "f: N T; N:; T:",
    ),
    (
        "fn f() { let y = x > N; } const N = 1; const x = 1; const y = 1;",
        "f: N x; N:; x:; y:",
    ),
];

const SCOPES: [(&str, &str); 15] = [
    // A parameter is known in the body, and not in the types before it.
    ("fn f(a: u32) { return a; } const a = 1;", "f:; a:"),
    ("fn f(a: a) -> a { return a; } alias a = u32;", "f: a; a:"),
    (
        "fn f(a: u32) { } fn g() { a; } const a = 1;",
        "f:; g: a; a:",
    ),
    // A name is known behind the end of its own declaration.
    ("fn f() { let a = a + 1; } const a = 1;", "f: a; a:"),
    ("fn f() { let a = 1; let b = a; } const a = 1;", "f:; a:"),
    ("fn f() { b = a; let a = 1; } const a = 1;", "f: a; a:"),
    ("fn f() { const a = 1; return a; } const a = 1;", "f:; a:"),
    ("fn f() { var a = 1; a = 2; } const a = 1;", "f:; a:"),
    (
        "fn f() { var<function> a: u32; var<function, read_write> b = a; b = 1; } const a = 1; const b = 1;",
        "f:; a:; b:",
    ),
    // It is known to the end of the block.
    ("fn f() { { let a = 1; } b = a; } const a = 1;", "f: a; a:"),
    (
        "fn f() { if c { let a = 1; } else { a; } } const a = 1;",
        "f: a; a:",
    ),
    // What a block declares again is known in the block around it.
    (
        "fn f() { let a = 1; { let a = 2; a; } a; } const a = 1;",
        "f:; a:",
    ),
    // The variable of a `for` is known in the loop.
    (
        "fn f() { for (var i = 0; i < n; i++) { i; } } const i = 1; const n = 2;",
        "f: n; i:; n:",
    ),
    (
        "fn f() { for (var i = 0; i < 2; i++) { { i; } } i; } const i = 1;",
        "f: i; i:",
    ),
    (
        "fn f() { for (var i = i; ; ) { } for (;;) { let j = 1; } j; } const i = 1; const j = 1;",
        "f: i j; i:; j:",
    ),
];

fn add_uses(
    text: &mut String,
    reading: &Reading<'_>,
    lists: &[Vec<usize>],
) -> Result<(), AllocError> {
    for (number, list) in lists.iter().enumerate() {
        separate(text)?;
        text.push_str(reading.word(reading.name(number)))?;
        text.push(':')?;
        add_names(text, reading, list.as_slice())?;
    }
    Ok(())
}

fn add_names(text: &mut String, reading: &Reading<'_>, list: &[usize]) -> Result<(), AllocError> {
    for named in list {
        text.push(' ')?;
        text.push_str(reading.word(reading.name(*named)))?;
    }
    Ok(())
}

/// The declarations of the source, and those that each names.
fn text_of(rt: &impl Abort, alloc: Global, source: &str) -> String {
    let reading = reading_of(rt, alloc, source);
    let lists = reading.uses(alloc).expect(rt, "memory");
    let mut text = String::new(alloc);
    add_uses(&mut text, &reading, lists.as_slice()).expect(rt, "memory");
    drop(lists);
    drop(reading);
    text
}

fn assert_uses(rt: &impl Abort, alloc: Global, rows: &[(&str, &str)]) {
    for (source, wanted) in rows {
        let text = text_of(rt, alloc, source);
        assert_text(rt, text, wanted, source);
    }
}

#[test]
fn declarations_name_what_they_look_up(rt: HostRuntime) {
    assert_uses(&rt, rt.alloc(), &DECLARATIONS);
}

#[test]
fn functions_name_what_stands_in_them(rt: HostRuntime) {
    assert_uses(&rt, rt.alloc(), &BODIES);
}

#[test]
fn names_of_functions_are_known_in_their_blocks(rt: HostRuntime) {
    assert_uses(&rt, rt.alloc(), &SCOPES);
}

#[test]
fn expressions_name_nothing(rt: HostRuntime) {
    let reading = Reading::of_expression(rt.alloc(), "a + b").expect(&rt, "memory");
    let lists = reading.uses(rt.alloc()).expect(&rt, "memory");
    assert_that(&rt, lists.is_empty());
    drop(lists);
    drop(reading);
}

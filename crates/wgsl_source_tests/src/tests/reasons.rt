//! Each reason for which a source is not read as it stands, at its place.

use crate::tests::texts::{assert_all_declare, assert_declares};
use std::test::Fail;

const ROWS: [(&str, &str); 7] = [
    ("((((", "1:1 expected a declaration"),
    ("var<input> a: u32;", "1:5 expected an address space"),
    ("var<storage, full> a: u32;", "1:14 expected an access mode"),
    ("var<storage read> a: u32;", "1:13 expected `>`"),
    ("alias A = array<u32 4>;", "1:21 expected `>`"),
    (
        "const N = 1;\n/* a /* b */",
        "const N; 2:1 this comment has no end",
    ),
    (
        "struct S { a: A } alias A = array<S, 2>;",
        "struct S(a); alias A; 1:35 this needs itself",
    ),
];

const BRACKETS: usize = 1_048_576;

#[test]
fn reasons_have_their_places(rt: HostRuntime) {
    assert_all_declare(&rt, rt.alloc(), &ROWS);
}

// The 4097th bracket is one too many.
#[test]
fn many_brackets_are_one_fault(rt: HostRuntime) -> Result<(), Fail> {
    let mut source = String::from_str(rt.alloc(), "const N = ")?;
    for _ in 0..BRACKETS {
        source.push('(')?;
    }
    let wanted = "1:4107 too many brackets inside each other";
    assert_declares(&rt, rt.alloc(), source.as_str(), wanted);
    Ok(())
}

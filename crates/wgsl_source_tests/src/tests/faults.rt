//! Sources that are not read as they stand, and what is read behind the fault.

use crate::tests::texts::assert_all_declare;

const ROWS: [(&str, &str); 17] = [
    ("struct S { a u32 }", "1:14 expected `:`"),
    ("struct S { a: u32", "1:18 expected `}`"),
    (
        "struct { a: u32 } const N = 1;",
        "const N; 1:8 expected a name",
    ),
    ("alias A = u32\nconst N = 1;", "const N; 2:1 expected `;`"),
    ("foo; const N = 1;", "const N; 1:1 expected a declaration"),
    (
        "const N = ; const M = 2;",
        "const M; 1:11 expected a type or a value",
    ),
    (
        "const N = (1 + 2; const M = 2;",
        "const M; 1:17 expected `)`",
    ),
    ("alias A = array<u32, 4;", "1:20 expected `;`"),
    ("/* /* */ const N = 1;", "1:1 this comment has no end"),
    (
        "const N = 1; const N = 2;",
        "const N; const N; 1:20 this name is there already",
    ),
    ("struct S { s: S }", "struct S(s); 1:15 this needs itself"),
    (
        "struct A { b: B } struct B { a: A }",
        "struct A(b); struct B(a); 1:33 this needs itself",
    ),
    (
        "const A = B; const B = A;",
        "const A; const B; 1:24 this needs itself",
    ),
    ("const N == 1; const M = 2;", "const M; 1:9 expected `=`"),
    ("override N == 1;", "1:12 expected `=`"),
    ("alias A == u32;", "1:9 expected `=`"),
    ("const N = = 1;", "1:11 expected a type or a value"),
];

#[test]
fn faults_have_their_places(rt: HostRuntime) {
    assert_all_declare(&rt, rt.alloc(), &ROWS);
}

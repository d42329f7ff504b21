//! Where directives end, and what is read behind one without its `;`.

use crate::tests::texts::assert_all_declare;

const WHOLE: [(&str, &str); 4] = [
    ("enable f16, subgroups; const N = 1;", "const N"),
    (
        "requires readonly_and_readwrite_storage_textures,; const N = 1;",
        "const N",
    ),
    (
        "diagnostic(off, chromium.unreachable_code,); const N = 1;",
        "const N",
    ),
    ("enable f16;;struct S { a: u32 }", "struct S(a)"),
];

const OPEN: [(&str, &str); 15] = [
    (
        "enable f16 struct S { a: u32 } const N = 1;",
        "struct S(a); const N; 1:12 expected `;`",
    ),
    (
        "enable f16, struct S { a: u32 }",
        "struct S(a); 1:13 expected `;`",
    ),
    ("enable const N = 1;", "const N; 1:8 expected `;`"),
    (
        "requires a\n@group(0) @binding(1) var<uniform> u: u32;",
        "var u; 2:1 expected `;`",
    ),
    (
        "diagnostic(off, a) alias A = u32;",
        "alias A; 1:20 expected `;`",
    ),
    (
        "diagnostic(off, a fn f() {} const N = 1;",
        "fn f; const N; 1:19 expected `)`",
    ),
    (
        "enable f16 override o: u32;",
        "override o; 1:12 expected `;`",
    ),
    (
        "enable f16 const_assert true; const N = 1;",
        "const N; 1:12 expected `;`",
    ),
    (
        "enable f16 var<private> a: u32;",
        "var a; 1:12 expected `;`",
    ),
    (
        "enable f16 { a; } const N = 1;",
        "const N; 1:12 expected `;`",
    ),
    ("enable f16", "1:11 expected `;`"),
    ("enable f16 // const N = 1;", "1:27 expected `;`"),
    ("diagnostic(off, a", "1:18 expected `)`"),
    ("enable 1; const N = 1;", "const N; 1:8 expected `;`"),
    (
        "enable f16\nenable f16;\nconst N = 1;",
        "const N; 2:1 expected `;`",
    ),
];

#[test]
fn directives_end_with_their_semicolons(rt: HostRuntime) {
    assert_all_declare(&rt, rt.alloc(), &WHOLE);
}

#[test]
fn declarations_behind_open_directives_are_read(rt: HostRuntime) {
    assert_all_declare(&rt, rt.alloc(), &OPEN);
}

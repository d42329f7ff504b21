//! The tokens that sources are made of: template lists, comments and names.

use crate::tests::texts::assert_all_declare;

const TEMPLATES: [(&str, &str); 5] = [
    ("struct S { a: array<vec2<u32>>}", "struct S(a)"),
    ("alias A = array<array<u32, (16 >> 2)>, 1 + 1>;", "alias A"),
    (
        "const N = 3; alias A = array<u32, select(4, 5, N < 4 && N >= 2)>; const B = N < 4;",
        "const N; alias A; const B",
    ),
    (
        "struct S { a: array<u32, N * 2> } const N = M + 1; const M = 3;",
        "struct S(a); const N; const M",
    ),
    (
        "alias mat = mat2x3h; alias v = vec4u; alias w = vec2<i32,>;",
        "alias mat; alias v; alias w",
    ),
];

const TOKENS: [(&str, &str); 6] = [
    ("\u{feff}const N = 1;", "const N"),
    (
        "const N = 1;\u{feff}",
        "const N; 1:13 expected a declaration",
    ),
    (
        "/* a /* b */ /* c /* d */ */ e */ const N = 1; // f */ const M = 2;",
        "const N",
    ),
    (
        "const/**/N/*/ */=//\n1/* // */;/***/const M=N//*/\r+1;",
        "const N; const M",
    ),
    (
        "// a\u{2028}const N = 1; // b\u{85}const M = 2; // c\rconst K = 3;",
        "const N; const M; const K",
    ),
    (
        "struct Δέλτα { réflexion: u32 } alias 朝焼け = Δέλτα;",
        "struct Δέλτα(réflexion); alias 朝焼け",
    ),
];

#[test]
fn template_lists_end_where_they_do(rt: HostRuntime) {
    assert_all_declare(&rt, rt.alloc(), &TEMPLATES);
}

#[test]
fn comments_and_names_are_tokens(rt: HostRuntime) {
    assert_all_declare(&rt, rt.alloc(), &TOKENS);
}

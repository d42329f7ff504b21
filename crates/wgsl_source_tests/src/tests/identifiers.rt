//! Words that are no names, at their places; what they name is read all the same.

use crate::tests::texts::assert_all_declare;

const KEYWORDS: [(&str, &str); 5] = [
    ("const alias = 1;", "const alias; 1:7 this is a keyword"),
    ("fn while() {}", "fn while; 1:4 this is a keyword"),
    (
        "struct S { a: u32, var: u32, const_assert: i32 }",
        "struct S(a, var, const_assert); 1:20 this is a keyword; 1:30 this is a keyword",
    ),
    (
        "override true: bool; alias if = u32;",
        "override true; alias if; 1:10 this is a keyword; 1:28 this is a keyword",
    ),
    (
        "const aliases = 1; const Alias = 2; const ali = 3;",
        "const aliases; const Alias; const ali",
    ),
];

const RESERVED: [(&str, &str); 5] = [
    (
        "struct NULL { yield: u32 }",
        "struct NULL(yield); 1:8 this word is reserved; 1:15 this word is reserved",
    ),
    (
        "var<private> target: u32; const non_coherent = 1;",
        "var target; const non_coherent; 1:14 this word is reserved; 1:33 this word is reserved",
    ),
    (
        "const demote_to_helper = as; alias as = u32;",
        "const demote_to_helper; alias as; 1:7 this word is reserved; 1:36 this word is reserved",
    ),
    ("fn main(self: u32) { let match = 1; }", "fn main"),
    (
        "const Null = 1; alias color = u32;",
        "const Null; alias color",
    ),
];

const UNDERSCORES: [(&str, &str); 3] = [
    (
        "const _ = 1; const __ = 2;",
        "const _; const __; 1:7 this is no identifier; 1:20 this is no identifier",
    ),
    (
        "struct __S { _: u32, __a: u32 }",
        "struct __S(_, __a); 1:8 this is no identifier; 1:14 this is no identifier; 1:22 this is no identifier",
    ),
    ("struct _S { _1: u32, a__: u32 }", "struct _S(_1, a__)"),
];

#[test]
fn keywords_are_no_names(rt: HostRuntime) {
    assert_all_declare(&rt, rt.alloc(), &KEYWORDS);
}

#[test]
fn reserved_words_are_no_names(rt: HostRuntime) {
    assert_all_declare(&rt, rt.alloc(), &RESERVED);
}

#[test]
fn names_do_not_begin_with_two_underscores(rt: HostRuntime) {
    assert_all_declare(&rt, rt.alloc(), &UNDERSCORES);
}

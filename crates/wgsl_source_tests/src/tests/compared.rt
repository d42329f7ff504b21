//! Tokens and brackets of many made sources, compared with what is found of them in the plain way.

use crate::tests::made::{between, characters_of, choice_of, choices, comment_of, source_of};
use crate::tests::plain_forms::plain_form;
use crate::tests::plain_modules::{Module, module_of, sorted};
use crate::tests::plain_tokens::{Lexed, Token, TokenKind, tokens_of};
use std::alloc::Global;
use std::process::Abort;
use wgsl_source::{Callee, Declared, Reading, Step};

/// Characters of each sort, alone and beside each other: blanks and line breaks of one byte and of more, characters that
/// begin as these do, what begins and ends comments, numbers and names, runs of about eight bytes, and what begins
/// lines for a preprocessor.
const PIECES: [&str; 57] = [
    " ", "\t", "\n", "\r", "\r\n", "\u{b}", "\u{c}", "\u{85}", "\u{200e}", "\u{200f}", "\u{2028}",
    "\u{2029}", "\u{80}", "\u{a0}", "\u{200d}", "\u{2027}", "\u{202a}", "\u{e}", "\u{0}", "\u{7f}",
    "é", "界", "𝒙", "/", "*", "//", "/*", "*/", "/**/", "a", "e", "p", "x", "X", "_", "Z", "0", "9",
    "0x", "0X1p", "1e", "1.", ".5", ".", "+", "-", "<", ">", "=", "(", ";", "@", "       ",
    "abcdefgh", "0123456", "~#$", "#",
];

/// What stands before a character: nothing, blanks, digits, letters, symbols, and what begins comments.
const BEFORE: [&str; 11] = ["", " ", "\r", "1", "a", "é", "+", "/", "(.", "//a", "/*a"];

/// What stands behind a character: nothing, blanks, digits, letters, symbols, and what ends comments.
const BEHIND: [&str; 11] = ["", "\t", "\n", "1", "a", "é", "=", "/", "<5", "b\nc", "*/b"];

/// What stands in a line before its end.
const WITHIN: [&str; 4] = ["", "\t", "\u{a0}", "界"];

/// What ends a line, and what begins as that does.
const ENDS: [&str; 13] = [
    "\n", "\r", "\r\n", "\u{b}", "\u{c}", "\u{85}", "\u{2028}", "\u{2029}", "\u{e}", "\t",
    "\u{80}", "\u{2027}", "界",
];

/// Text of more than three words of eight bytes, in which no line ends.
const BEHIND_LINE: &str = "b//cdefghijklmnopqrstuvwxyz";

/// What numbers begin with, up to a suffix or an exponent, and what begins as they do.
const DIGITS: [&str; 27] = [
    "0", "1", "9", "08", "1x", "0x", "0X", "0x1", "0Xf", "0xe", "0xE", "0x.8", "0x1.", "1.", "1.5",
    ".0", ".1", ".2", ".3", ".4", ".5", ".6", ".7", ".8", ".9", "a.5", "._",
];

/// The suffixes of numbers, and others, with what stands behind.
const SUFFIXED: [&[&str]; 3] = [
    &DIGITS,
    &[
        "", "i", "u", "li", "lu", "f", "h", "lf", "l", "ul", "il", "iu", "F", "_", "é", "g",
    ],
    &["", "+1", " -", ".x", "e-1"],
];

/// Numbers with exponents, and with what is none, or has no digits.
const EXPONENTS: [&[&str]; 6] = [
    &DIGITS,
    &["", "e", "E", "p", "P"],
    &["", "+", "-"],
    &["", "23", "."],
    &["", "f", "e", "P"],
    &["", "+1"],
];

/// A function, or an attribute with a bracket, and short rows of brackets and of what ends a declaration.
const SHORT: [&[&str]; 6] = [
    &["fn f ", "@a ("],
    &["(", ")", "[", "]", "{", "}", ";"],
    &["(", ")", "[", "]", "{", "}", ";"],
    &["(", ")", "[", "]", "{", "}", ";"],
    &["(", ")", "[", "]", "{", "}", ";"],
    &["(", ")", "[", "]", "{", "}", ";"],
];

/// Brackets, what stands between them, and what begins functions and attributes.
const BRACKETS: [&str; 20] = [
    "(", ")", "[", "]", "{", "}", "(", ")", "[", "]", "a ", "1,", "<", ";", "fn f ", "fn g", "fn ",
    "@a ", "@b(", "@",
];

/// Sources in two parts that are well formed with one of these characters between them, and with no other. Before an
/// operand blanks are among them.
const SYMBOLS: [(&str, &str, &str); 20] = [
    ("const a", "1;", "="),
    ("const a=1", "", ";"),
    ("const a ", " u32=1;", ":"),
    ("const a=b", "c=1;", ""),
    ("const a=b", "1);", "("),
    ("const a=b(1", ";", ")"),
    ("const a=b", "1];", "["),
    ("const a=b[1", ";", "]"),
    ("const a=b", "1>;", "<"),
    ("var<private", "a:u32;", ">"),
    ("var", "private>a:u32;", "<"),
    ("var<storage", "read>a:u32;", ","),
    ("struct s", "a:u32}", "{"),
    ("struct s{a:u32", "", "}"),
    ("", "a fn f(){}", "@"),
    ("const a=b=", "c;", "="),
    ("const a=b", "=c;", "!=<>"),
    ("const a=b(1 ", " 2);", ",+-*/%<>&|^"),
    ("const a=b ", " c;", ".+-*/%<>&|^"),
    (
        "const a= ",
        " b;",
        "!-~&* \t\n\u{b}\u{c}\r\u{85}\u{200e}\u{200f}\u{2028}\u{2029}",
    ),
];

fn lexed_of(rt: &impl Abort, alloc: Global, source: &str) -> Lexed {
    tokens_of(alloc, source).expect(rt, "memory")
}

/// Asserts that the reading has these tokens, and then the end of the source.
fn assert_tokens(rt: &impl Abort, reading: &Reading<'_>, tokens: &[Token], source: &str) {
    for (number, token) in tokens.iter().enumerate() {
        let extent = reading.extent(number);
        assert_eq!(rt; extent.start, token.start, "of {source:?}");
        assert_eq!(rt; extent.end, token.end, "of {source:?}");
    }
    let behind = reading.extent(tokens.len());
    assert_eq!(rt; behind.start, source.len(), "of {source:?}");
    assert_eq!(rt; behind.end, source.len(), "of {source:?}");
}

/// Asserts that the reading has these functions, and that all this is wrong in it.
fn assert_module(rt: &impl Abort, reading: &Reading<'_>, module: &Module, source: &str) {
    assert_eq!(rt; reading.len(), module.functions.len(), "of {source:?}");
    for (number, name) in module.functions.iter().enumerate() {
        assert_eq!(rt; reading.name(number), *name, "of {source:?}");
    }
    assert_eq!(rt; reading.faults(), module.faults.as_slice(), "of {source:?}");
}

/// The steps of an expression.
fn steps_of<'a>(reading: &'a Reading<'_>) -> &'a [Step] {
    match reading.declared(0) {
        Some(Declared::Const { value, .. }) => reading.steps(value),
        _ => &[],
    }
}

/// The token that a step names, and what it is, where that is a name or a number.
fn word_of(step: Step) -> Option<(usize, TokenKind)> {
    match step {
        Step::Number(token) => Some((token, TokenKind::Number)),
        Step::Name(token) | Step::Member(token) => Some((token, TokenKind::Name)),
        Step::Template(token, _) => Some((token, TokenKind::Name)),
        Step::Call(token, Callee::Name, _) => Some((token, TokenKind::Name)),
        Step::Call(_, Callee::Answer, _) | Step::Index(_) => None,
        Step::Unary(_, _) | Step::Binary(_, _) => None,
    }
}

/// Asserts that the steps take these tokens for names and numbers that are so.
fn assert_words(rt: &impl Abort, steps: &[Step], tokens: &[Token], source: &str) {
    for step in steps {
        if let Some((token, kind)) = word_of(*step) {
            let is_one = tokens.get(token).is_some_and(|token| token.kind == kind);
            assert!(rt; is_one, "of {source:?}");
        }
    }
}

/// Asserts that the source is read as an expression as its plain form is, but for what is wrong in its tokens.
fn assert_as_plain(rt: &impl Abort, alloc: Global, source: &str, lexed: &Lexed) {
    let form = plain_form(alloc, source, lexed).expect(rt, "memory");
    let plain = Reading::of_expression(alloc, form.as_str()).expect(rt, "memory");
    assert_tokens(rt, &plain, lexed.tokens.as_slice(), form.as_str());
    let reading = Reading::of_expression(alloc, source).expect(rt, "memory");
    assert_eq!(rt; reading.declared(0), plain.declared(0), "of {source:?}");
    assert_eq!(rt; steps_of(&reading), steps_of(&plain), "of {source:?}");
    assert_words(rt, steps_of(&reading), lexed.tokens.as_slice(), source);
    let faults = sorted(alloc, lexed.faults.as_slice(), plain.faults()).expect(rt, "memory");
    assert_eq!(rt; reading.faults(), faults.as_slice(), "of {source:?}");
}

/// Asserts that the source is read as a module as the plain way reads it.
fn assert_read(rt: &impl Abort, alloc: Global, source: &str, lexed: &Lexed) {
    let reading = Reading::of_module(alloc, source).expect(rt, "memory");
    let module = module_of(alloc, source, lexed).expect(rt, "memory");
    assert_tokens(rt, &reading, lexed.tokens.as_slice(), source);
    assert_module(rt, &reading, &module, source);
}

/// Asserts that all that is shown of the source is what the plain way finds of it.
fn assert_found(rt: &impl Abort, alloc: Global, source: &str) {
    let lexed = lexed_of(rt, alloc, source);
    assert_read(rt, alloc, source, &lexed);
    assert_as_plain(rt, alloc, source, &lexed);
}

#[test]
fn made_sources_have_the_tokens_of_the_plain_way(rt: HostRuntime) {
    for seed in 0..8000u64 {
        let source = source_of(rt.alloc(), seed, "a", &PIECES, 24).expect(&rt, "memory");
        assert_found(&rt, rt.alloc(), source.as_str());
    }
}

#[test]
fn characters_are_taken_as_the_plain_way_takes_them(rt: HostRuntime) {
    let characters = characters_of(rt.alloc()).expect(&rt, "memory");
    for character in characters.as_str().chars() {
        for before in &BEFORE {
            for behind in &BEHIND {
                let source = between(rt.alloc(), before, character, behind).expect(&rt, "memory");
                assert_found(&rt, rt.alloc(), source.as_str());
            }
        }
    }
}

#[test]
fn symbols_are_taken_for_no_other_character(rt: HostRuntime) {
    let characters = characters_of(rt.alloc()).expect(&rt, "memory");
    for (before, behind, symbols) in &SYMBOLS {
        for character in characters.as_str().chars() {
            let source = between(rt.alloc(), before, character, behind).expect(&rt, "memory");
            let reading = Reading::of_module(rt.alloc(), source.as_str()).expect(&rt, "memory");
            let is_one = symbols.chars().any(|symbol| symbol == character);
            assert_eq!(rt; reading.faults().is_empty(), is_one, "of {source:?}");
        }
    }
}

/// Asserts that all that is shown of the line is what the plain way finds of it, alone and with text behind it.
fn assert_line(rt: &impl Abort, alloc: Global, line: String) {
    assert_found(rt, alloc, line.as_str());
    let mut source = line;
    source.push_str(BEHIND_LINE).expect(rt, "memory");
    assert_found(rt, alloc, source.as_str());
}

#[test]
fn comments_of_each_length_end_where_the_plain_way_ends_them(rt: HostRuntime) {
    for within in &WITHIN {
        for end in &ENDS {
            for letters in 0..26usize {
                for more in 0..26 - letters {
                    let line = comment_of(rt.alloc(), letters, within, more, end);
                    assert_line(&rt, rt.alloc(), line.expect(&rt, "memory"));
                }
            }
        }
    }
}

#[test]
fn numbers_end_where_the_plain_way_ends_them(rt: HostRuntime) {
    for rows in [SUFFIXED.as_slice(), EXPONENTS.as_slice()] {
        for number in 0..choices(rows) {
            let source = choice_of(rt.alloc(), number, rows).expect(&rt, "memory");
            assert_found(&rt, rt.alloc(), source.as_str());
        }
    }
}

#[test]
fn short_rows_of_brackets_end_where_the_plain_way_ends_them(rt: HostRuntime) {
    for count in 1..=SHORT.len() {
        let rows = &SHORT[..count];
        for number in 0..choices(rows) {
            let source = choice_of(rt.alloc(), number, rows).expect(&rt, "memory");
            let lexed = lexed_of(&rt, rt.alloc(), source.as_str());
            assert_read(&rt, rt.alloc(), source.as_str(), &lexed);
        }
    }
}

#[test]
fn brackets_of_modules_end_where_the_plain_way_ends_them(rt: HostRuntime) {
    for seed in 0..10_000u64 {
        let source = source_of(rt.alloc(), seed, "", &BRACKETS, 30).expect(&rt, "memory");
        let lexed = lexed_of(&rt, rt.alloc(), source.as_str());
        assert_read(&rt, rt.alloc(), source.as_str(), &lexed);
    }
}

//! Which words are no names (WGSL: identifiers; keyword summary; reserved words).

ghost use Rattle.std.specs.Prelude.{◌≡◌, true, All, OnOk, map};
ghost use Rattle.std.specs.List.{list_any};
ghost use Rattle.std.specs.Str.{bytes_eq};
ghost use Rattle.wgsl_source.specs.Faults.{KeepsFaults};
ghost use Rattle.wgsl_source.specs.Identifiers.{IsNameOrTold, are_grouped, is_in_group, is_no_identifier, is_one_of, keywords, reserved_words, why_no_name, words_in};
ghost use Rattle.wgsl_source.specs.Readings.{extent_in};

use crate::cursor::Cursor;
use crate::declaration::{Declaration, Member, Module};
use crate::fault::{Faults, Reason};
use std::alloc::AllocError;

/// The words that have a meaning of their own, by their first letters.
#[rattlefmt::skip]
static KEYWORDS: [&[&str]; 26] = [
    &["alias"],
    &["break"],
    &["case", "const", "const_assert", "continue", "continuing"],
    &["default", "diagnostic", "discard"],
    &["else", "enable"],
    &["false", "fn", "for"],
    &[], // g
    &[], // h
    &["if"],
    &[], // j
    &[], // k
    &["let", "loop"],
    &[], // m
    &[], // n
    &["override"],
    &[], // p
    &[], // q
    &["requires", "return"],
    &["struct", "switch"],
    &["true"],
    &[], // u
    &["var"],
    &["while"],
    &[], // x
    &[], // y
    &[], // z
];

/// Those of the words that are kept for what may come that begin with a capital letter.
static CAPITALIZED: [&str; 2] = ["NULL", "Self"];

/// The others, by their first letters.
#[rattlefmt::skip]
static RESERVED: [&[&str]; 26] = [
    &[
        "abstract", "active", "alignas", "alignof", "as", "asm", "asm_fragment", "async",
        "attribute", "auto", "await",
    ],
    &["become"],
    &[
        "cast", "catch", "class", "co_await", "co_return", "co_yield", "coherent", "column_major",
        "common", "compile", "compile_fragment", "concept", "const_cast", "consteval", "constexpr",
        "constinit", "crate",
    ],
    &["debugger", "decltype", "delete", "demote", "demote_to_helper", "do", "dynamic_cast"],
    &["enum", "explicit", "export", "extends", "extern", "external"],
    &["fallthrough", "filter", "final", "finally", "friend", "from", "fxgroup"],
    &["get", "goto", "groupshared"],
    &["highp"],
    &["impl", "implements", "import", "inline", "instanceof", "interface"],
    &[], // j
    &[], // k
    &["layout", "lowp"],
    &[
        "macro", "macro_rules", "match", "mediump", "meta", "mod", "module", "move", "mut",
        "mutable",
    ],
    &[
        "namespace", "new", "nil", "noexcept", "noinline", "nointerpolation", "non_coherent",
        "noncoherent", "noperspective", "null", "nullptr",
    ],
    &["of", "operator"],
    &[
        "package", "packoffset", "partial", "pass", "patch", "pixelfragment", "precise",
        "precision", "premerge", "priv", "protected", "pub", "public",
    ],
    &[], // q
    &[
        "readonly", "ref", "regardless", "register", "reinterpret_cast", "require", "resource",
        "restrict",
    ],
    &[
        "self", "set", "shared", "sizeof", "smooth", "snorm", "static", "static_assert",
        "static_cast", "std", "subroutine", "super",
    ],
    &[
        "target", "template", "this", "thread_local", "throw", "trait", "try", "type", "typedef",
        "typeid", "typename", "typeof",
    ],
    &["union", "unless", "unorm", "unsafe", "unsized", "use", "using"],
    &["varying", "virtual", "volatile"],
    &["wgsl", "where", "with", "writeonly"],
    &[], // x
    &["yield"],
    &[], // z
];

/// A fault at each declaration and each member whose name is none.
pub(crate) fn check_names(
    module: &Module,
    cursor: Cursor<'_>,
    faults: &mut Faults,
) -> Result<(), AllocError>
    ensures kept { KeepsFaults faults.old.faults.items faults.new.faults.items }
    ensures declarations { OnOk result (All (λ d. IsNameOrTold cursor.entry.text.now (map extent_in cursor.entry.tokens.now) faults.new.faults.items d.name) «module».now.declarations.items) }
    ensures members { OnOk result (All (λ m. IsNameOrTold cursor.entry.text.now (map extent_in cursor.entry.tokens.now) faults.new.faults.items m.name) «module».now.members.items) }
{
    check_declarations(module.declarations.as_slice(), cursor, faults)?;
    check_members(module.members.as_slice(), cursor, faults)
}

fn check_declarations(
    declarations: &[Declaration],
    cursor: Cursor<'_>,
    faults: &mut Faults,
) -> Result<(), AllocError>
    ensures kept { KeepsFaults faults.old.faults.items faults.new.faults.items }
    ensures told { OnOk result (All (λ d. IsNameOrTold cursor.entry.text.now (map extent_in cursor.entry.tokens.now) faults.new.faults.items d.name) declarations.now) }
{
    for declaration in declarations {
        check_name(declaration.name, cursor, faults)?;
    }
    Ok(())
}

fn check_members(
    members: &[Member],
    cursor: Cursor<'_>,
    faults: &mut Faults,
) -> Result<(), AllocError>
    ensures kept { KeepsFaults faults.old.faults.items faults.new.faults.items }
    ensures told { OnOk result (All (λ m. IsNameOrTold cursor.entry.text.now (map extent_in cursor.entry.tokens.now) faults.new.faults.items m.name) members.now) }
{
    for member in members {
        check_name(member.name, cursor, faults)?;
    }
    Ok(())
}

fn check_name(name: usize, cursor: Cursor<'_>, faults: &mut Faults) -> Result<(), AllocError>
    ensures kept { KeepsFaults faults.old.faults.items faults.new.faults.items }
    ensures told { OnOk result (IsNameOrTold cursor.entry.text.now (map extent_in cursor.entry.tokens.now) faults.new.faults.items name) }
{
    match why_no_name(cursor.text_at(name)) {
        Some(reason) => faults.add(cursor.fault_at(name, reason)),
        None => Ok(()),
    }
}

// Why nothing that a module declares has this name.
fn why_no_name(word: &str) -> Option<Reason>
    ensures { result ≡ why_no_name word.now }
{
    if is_keyword(word) {
        Some(Reason::Keyword)
    } else if is_reserved(word) {
        Some(Reason::Reserved)
    } else if is_no_identifier(word) {
        Some(Reason::NoIdentifier)
    } else {
        None
    }
}

fn is_keyword(word: &str) -> bool
    ensures { result ≡ is_one_of keywords word.now }
{
    is_in(&KEYWORDS, word)
}

fn is_reserved(word: &str) -> bool
    ensures { result ≡ is_one_of reserved_words word.now }
{
    is_one_of(&CAPITALIZED, word) || is_in(&RESERVED, word)
}

fn is_no_identifier(word: &str) -> bool
    ensures { result ≡ is_no_identifier word.now }
{
    word == "_" || word.starts_with("__")
}

// Whether it is one of the words, which stand in groups by their first letters from `a` on.
fn is_in(groups: &[&[&str]], word: &str) -> bool
    requires { are_grouped 97 groups.now ≡ true }
    ensures { result ≡ is_one_of (words_in groups.now) word.now }
{
    match word.as_bytes() {
        [first, ..] => match first.checked_sub(b'a') {
            Some(letter) => is_in_group(groups, usize::from(letter), word),
            None => false,
        },
        [] => false,
    }
}

fn is_in_group(groups: &[&[&str]], number: usize, word: &str) -> bool
    ensures { result ≡ is_in_group groups.now number word.now }
{
    match groups.get(number) {
        Some(group) => is_one_of(group, word),
        None => false,
    }
}

/// Whether it is one of these words.
pub(crate) fn is_one_of(words: &[&str], word: &str) -> bool
    ensures { result ≡ list_any (λ known. bytes_eq known.now word.now) words.now }
{
    words.iter().any(|known| *known == word)
}

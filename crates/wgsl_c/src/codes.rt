//! The numbers for kinds of what is told (`wgsl_code`), and their words.

ghost use Rattle.std.specs.Prelude.{◌≤◌};
ghost use Rattle.std.specs.Str.{IsUtf8};
ghost use Rattle.wgsl_c.specs.Answers.{IsAnswer};

use crate::answer::{Answer, given_text};

/// The word of each number.
const WORDS: [&str; 37] = [
    "other",
    "expected",
    "open-comment",
    "preprocessor",
    "placeholder",
    "import",
    "too-deep",
    "duplicate-name",
    "second-stage",
    "needs-itself",
    "mixed-operators",
    "double-operator",
    "keyword",
    "reserved-word",
    "no-identifier",
    "evaluation",
    "against-standard",
    "left-out",
    "shape",
    "not-plain",
    "abstract-type",
    "atomic-content",
    "runtime-not-last",
    "runtime-in-struct",
    "runtime-in-array",
    "bool-shared",
    "runtime-space",
    "atomic-space",
    "atomic-access",
    "not-handle",
    "write-access",
    "access-space",
    "group-missing",
    "binding-missing",
    "group-space",
    "binding-space",
    "same-binding",
];

/// The word for a code.
#[unsafe(no_mangle)]
pub extern "C" fn wgsl_code_text(code: u32, out: &mut [u8]) -> Answer
    ensures { IsAnswer IsUtf8 result out.old out.new }
{
    given_text(word_of(code), 0, out)
}

fn word_of(code: u32) -> &'static str {
    match WORDS.get(code as usize) {
        Some(word) => word,
        None => "other",
    }
}

/// The code of the word; 0 where it has none.
pub(crate) fn code_of(word: &str) -> u32
    ensures { result ≤ 36 }
{
    match WORDS.iter().position(|other| *other == word) {
        Some(code) => code as u32,
        None => 0,
    }
}

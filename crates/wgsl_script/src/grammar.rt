//! The words of a line: names, numbers, handles, address spaces and access modes.

ghost use Rattle.std.specs.Prelude.{◌≡◌, ◌≢◌, IfSome, IsNone};
ghost use Rattle.std.specs.List.{list_all};
ghost use Rattle.std.specs.Option.{SomeIff};
ghost use Rattle.wgsl_rules.specs.declared.syntax.AddressSpace.{AddressSpace};
ghost use Rattle.wgsl_rules.specs.declared.syntax.AccessMode.{AccessMode};
ghost use Rattle.wgsl_rules.specs.Text.{space_text, access_text};
ghost use Rattle.wgsl_script.specs.Words.{is_name, begins_name, continues_name, IsNumber, number, IsCount, IsHandle, handle};

use std::alloc::{AllocError, Global};
use wgsl_rules::{AccessMode, AddressSpace};

/// The most digits of a number.
const DIGITS: usize = 10;

/// A line without its end: the LF, and one CR right before it.
pub(crate) fn without_end(line: &[u8]) -> &[u8] {
    match line.strip_suffix(b"\n") {
        Some(line) => line.strip_suffix(b"\r").unwrap_or(line),
        None => line,
    }
}

/// The words of a line: what stands between spaces.
pub(crate) fn words_of<'a>(alloc: Global, line: &'a str) -> Result<Vec<&'a str>, AllocError> {
    line.split(' ')
        .filter(|word| !word.is_empty())
        .collect(alloc)
}

/// Whether the word is a name: an ASCII letter or `_`, then letters, digits and `_`.
pub(crate) fn is_name(word: &str) -> bool
    ensures { result ≡ is_name word.now }
{
    match word.as_bytes().split_first() {
        Some((first, rest)) => begins_name(*first) && all_continue_name(rest),
        None => false,
    }
}

fn all_continue_name(bytes: &[u8]) -> bool
    ensures { result ≡ list_all continues_name bytes.now }
{
    bytes.iter().all(|byte| continues_name(*byte))
}

fn begins_name(byte: u8) -> bool
    ensures { result ≡ begins_name byte }
{
    byte.is_ascii_alphabetic() || byte == b'_'
}

fn continues_name(byte: u8) -> bool
    ensures { result ≡ continues_name byte }
{
    begins_name(byte) || byte.is_ascii_digit()
}

/// The number of 1 to 10 decimal digits.
pub(crate) fn number_of(word: &str) -> Option<usize>
    ensures { SomeIff result (IsNumber word.now) (number word.now) }
{
    if word.starts_with('+') {
        return None;
    }
    if word.len() > DIGITS {
        return None;
    }
    word.parse().ok()
}

/// A count or an attribute: a number up to 4294967295.
pub(crate) fn count_of(word: &str) -> Option<u32>
    ensures { SomeIff result (IsCount word.now) (number word.now) }
{
    u32::try_from(number_of(word)?).ok()
}

/// The number of a handle, which stands behind an `&`.
pub(crate) fn handle_of(word: &str) -> Option<usize>
    ensures { SomeIff result (IsHandle word.now) (handle word.now) }
{
    number_of(word.strip_prefix('&')?)
}

/// The address space that a word names.
pub(crate) fn space_of(word: &str) -> Option<AddressSpace>
    ensures named { IfSome result (λ space. word.now ≡ space_text space) }
    ensures none { IsNone result → (space : AddressSpace) → word.now ≢ space_text space }
{
    match word {
        "function" => Some(AddressSpace::Function),
        "private" => Some(AddressSpace::Private),
        "workgroup" => Some(AddressSpace::Workgroup),
        "uniform" => Some(AddressSpace::Uniform),
        "storage" => Some(AddressSpace::Storage),
        "handle" => Some(AddressSpace::Handle),
        _ => None,
    }
}

/// The access mode that a word names.
pub(crate) fn access_of(word: &str) -> Option<AccessMode>
    ensures named { IfSome result (λ access. word.now ≡ access_text access) }
    ensures none { IsNone result → (access : AccessMode) → word.now ≢ access_text access }
{
    match word {
        "read" => Some(AccessMode::Read),
        "write" => Some(AccessMode::Write),
        "read_write" => Some(AccessMode::ReadWrite),
        _ => None,
    }
}

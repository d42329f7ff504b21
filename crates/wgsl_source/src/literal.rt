//! The numbers that a source writes (WGSL: numeric literals).

ghost use Rattle.std.specs.Prelude.{◌≡◌, ◌||◌, ◌++◌, ℕ, List, MatchOption, option_and_then};
ghost use Rattle.std.specs.Option.{option_map};
ghost use Rattle.wgsl_scalar.specs.Literals.{literal_of as value_of};
ghost use Rattle.wgsl_source.specs.declared.literal.Suffix.{Suffix};
ghost use Rattle.wgsl_source.specs.Numbers.{suffix_text, number_in, IsHexadecimal, Reads, ReadsDecimal, ReadsNumeral, EndsInDigit, has_byte, is_decimal_float_text, is_float_text, Means};

use wgsl_scalar::LiteralInstance;

/// What a numeric literal is.
#[derive(Clone, Copy, Debug, PartialEq, Eq)]
pub enum Literal {
    Integer(LiteralInstance),
    /// A number of floats, which has no value here.
    Float,
    /// A number that is none of its kind, or no number at all.
    Wrong,
}

/// The kind that a suffix names.
#[derive(Clone, Copy)]
enum Suffix {
    None,
    I32,
    U32,
    I64,
    U64,
}

/// What the text of a numeric literal stands for.
pub(crate) fn literal_of(text: &str) -> Literal
    ensures { Means text.now result }
{
    if is_float(text) {
        return Literal::Float;
    }
    let (digits, suffix) = split_suffix(text);
    match literal_in(suffix, number_of(digits)) {
        Some(literal) => Literal::Integer(literal),
        None => Literal::Wrong,
    }
}

// The number in the kind of the suffix, where it is one of it.
fn literal_in(suffix: Suffix, number: Option<u64>) -> Option<LiteralInstance>
    ensures { option_map value_of result ≡ option_and_then (number_in suffix) number }
{
    suffix.literal(number?)
}

// Whether the number has a point, an exponent or a suffix of floats.
fn is_float(text: &str) -> bool
    ensures { result ≡ is_float_text text.now }
{
    if has(text, b'.') {
        return true;
    }
    match hexadecimal(text) {
        Some(digits) => has_either(digits, b'p', b'P'),
        None => is_decimal_float(text),
    }
}

fn is_decimal_float(text: &str) -> bool
    ensures { result ≡ is_decimal_float_text text.now }
{
    has_either(text, b'e', b'E') || has_either(text, b'f', b'h')
}

fn has_either(text: &str, first: u8, second: u8) -> bool
    ensures { result ≡ (has_byte text.now first || has_byte text.now second) }
{
    has(text, first) || has(text, second)
}

fn has(text: &str, byte: u8) -> bool
    ensures { result ≡ has_byte text.now byte }
{
    text.as_bytes().contains(&byte)
}

// The digits of a hexadecimal number.
fn hexadecimal(text: &str) -> Option<&str>
    ensures { MatchOption result
        ((digits : List ℕ) → ¬ IsHexadecimal text.now digits)
        (λ digits. IsHexadecimal text.now digits.now) }
{
    match text.strip_prefix("0x") {
        Some(digits) => Some(digits),
        None => text.strip_prefix("0X"),
    }
}

fn split_suffix(text: &str) -> (&str, Suffix)
    ensures parts { text.now ≡ result.0.now ++ suffix_text result.1 }
    ensures each { (digits : List ℕ) (suffix : Suffix) → EndsInDigit digits → text.now ≡ digits ++ suffix_text suffix → (result.1 ≡ suffix) × (result.0.now ≡ digits) }
{
    if let Some(digits) = text.strip_suffix("li") {
        return (digits, Suffix::I64);
    }
    if let Some(digits) = text.strip_suffix("lu") {
        return (digits, Suffix::U64);
    }
    if let Some(digits) = text.strip_suffix('i') {
        return (digits, Suffix::I32);
    }
    match text.strip_suffix('u') {
        Some(digits) => (digits, Suffix::U32),
        None => (text, Suffix::None),
    }
}

fn number_of(digits: &str) -> Option<u64>
    ensures { ReadsNumeral digits.now result }
{
    match hexadecimal(digits) {
        Some(digits) => hexadecimal_number(digits),
        None => decimal_number(digits),
    }
}

fn hexadecimal_number(digits: &str) -> Option<u64>
    ensures { Reads 16 digits.now result }
{
    u64::from_str_radix(digits, 16).ok()
}

// A number of more than one digit does not begin with 0.
fn decimal_number(digits: &str) -> Option<u64>
    ensures { ReadsDecimal digits.now result }
{
    if digits.len() > 1 && digits.starts_with('0') {
        return None;
    }
    digits.parse().ok()
}

impl Suffix {
    // The number of the kind, where it is one.
    fn literal(self, number: u64) -> Option<LiteralInstance>
        ensures { option_map value_of result ≡ number_in self number }
    {
        match self {
            Suffix::None => Some(LiteralInstance::AbstractInt(i64::try_from(number).ok()?)),
            Suffix::I32 => Some(LiteralInstance::I32(i32::try_from(number).ok()?)),
            Suffix::U32 => Some(LiteralInstance::U32(u32::try_from(number).ok()?)),
            Suffix::I64 => Some(LiteralInstance::I64(i64::try_from(number).ok()?)),
            Suffix::U64 => Some(LiteralInstance::U64(number)),
        }
    }
}

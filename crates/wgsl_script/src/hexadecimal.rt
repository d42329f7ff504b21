//! Bytes as hexadecimal digits, two a byte, the higher one first.

ghost use Rattle.std.specs.Prelude.{◌≡◌, ◌≢◌, ◌<◌, ◌++◌, ◌∷◌, [], ℕ, List, All, Ok, None, IfOk, IfSome, IsNone, OnOk, string_bytes};
ghost use Rattle.std.specs.Char.{digit_char, to_ascii_lowercase};
ghost use Rattle.std.specs.Str.{str_to_ascii_lowercase};
ghost use Rattle.wgsl_script.specs.Hexadecimal.{hexadecimal, digits_of};

use std::alloc::{AllocError, Global};

/// The bytes that the digits of a word write, in either case; `None` where the word is no even
/// number of digits.
pub(crate) fn bytes_of(alloc: Global, word: &str) -> Result<Option<Vec<u8>>, AllocError>
    ensures some { IfOk result (λ r. IfSome r (λ bytes. str_to_ascii_lowercase word.now ≡ hexadecimal bytes.items)) }
    ensures none { result ≡ Ok None → (bytes : List ℕ) → All (λ b. b < 256) bytes → str_to_ascii_lowercase word.now ≢ hexadecimal bytes }
{
    let mut digits = word.as_bytes();
    let mut bytes = Vec::with_capacity(alloc, digits.len() / 2)?;
    while let [high, low, rest @ ..] = digits {
        let Some(byte) = byte_of(*high, *low) else {
            return Ok(None);
        };
        bytes.push(byte)?;
        digits = rest;
    }
    if digits.is_empty() {
        Ok(Some(bytes))
    } else {
        Ok(None)
    }
}

/// The byte that two digits write.
fn byte_of(high: u8, low: u8) -> Option<u8>
    ensures some { IfSome result (λ b. to_ascii_lowercase high ∷ to_ascii_lowercase low ∷ [] ≡ digits_of b) }
    ensures none { IsNone result → (b : ℕ) → b < 256 → to_ascii_lowercase high ∷ to_ascii_lowercase low ∷ [] ≢ digits_of b }
{
    let high = char::from(high).to_digit(16)?;
    let low = char::from(low).to_digit(16)?;
    Some((high * 16 + low) as u8)
}

/// Adds the digits of the bytes, in lower case.
pub(crate) fn push_bytes(text: &mut String, bytes: &[u8]) -> Result<(), AllocError>
    ensures { OnOk result (string_bytes text.new ≡ string_bytes text.old ++ hexadecimal bytes.now) }
{
    for byte in bytes {
        push_digit(text, byte / 16)?;
        push_digit(text, byte % 16)?;
    }
    Ok(())
}

/// Adds the digit of a number below 16.
fn push_digit(text: &mut String, n: u8) -> Result<(), AllocError>
    requires { n < 16 }
    ensures { OnOk result (string_bytes text.new ≡ string_bytes text.old ++ digit_char n ∷ []) }
{
    text.push(char::from_digit(u32::from(n), 16).unwrap())
}

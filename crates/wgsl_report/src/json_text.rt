//! Strings in JSON (RFC 8259: strings).

use std::alloc::AllocError;

/// The number of the form that the program's JSON has: one more with each change that a program could trip over.
pub(crate) const SCHEMA: u32 = 1;

/// The text in quotation marks.
pub(crate) fn add_string(out: &mut String, text: &str) -> Result<(), AllocError> {
    out.push('"')?;
    for character in text.chars() {
        add_character(out, character)?;
    }
    out.push('"')
}

/// The key for bytes of a source, and these.
pub(crate) fn add_span(out: &mut String, start: usize, end: usize) -> Result<(), AllocError> {
    write!(out, ", \"span\": {{\"start\": {start}, \"end\": {end}}}")
}

// A quotation mark, a backslash and what is below the space are escaped.
fn add_character(out: &mut String, character: char) -> Result<(), AllocError> {
    match character {
        '"' => out.push_str("\\\""),
        '\\' => out.push_str("\\\\"),
        '\n' => out.push_str("\\n"),
        '\r' => out.push_str("\\r"),
        '\t' => out.push_str("\\t"),
        other if u32::from(other) < 0x20 => {
            let code = u32::from(other);
            write!(out, "\\u{code:04x}")
        }
        other => out.push(other),
    }
}

//! What readings show of expressions: what the grammar refuses in them, and what literals stand for.

use crate::tests::texts::{assert_text, separate};
use std::alloc::{AllocError, Global};
use std::process::Abort;
use wgsl_source::{Lines, Literal, Reading};

const MIXES: [(&str, &str); 8] = [
    ("(a & b) == c", ""),
    (
        "a & b == c",
        "1:7 refused this operator and the one before it need brackets",
    ),
    (
        "a || b < 1 && c",
        "1:12 refused this operator and the one before it need brackets",
    ),
    ("a * b + c < d + e && f == g && !h", ""),
    (
        "1 << b + c",
        "1:8 refused this operator and the one before it need brackets",
    ),
    ("-a << ~b < f(c | d, e & f) - m[g ^ h]", ""),
    ("a &&&b && - -c", ""),
    (
        "a --b",
        "1:4 refused two of these beside each other are no operators here",
    ),
];

const COMPARISONS: [(&str, &str); 4] = [
    (
        "a < b < c",
        "1:7 refused this operator and the one before it need brackets",
    ),
    (
        "a == b + 1 != c && d >= e",
        "1:12 refused this operator and the one before it need brackets",
    ),
    ("(a < b) == (c < d)", ""),
    ("a < b c", "1:7 expected the end"),
];

const LITERALS: [(&str, &str); 12] = [
    ("12", "12"),
    ("12i", "12i"),
    ("0xFFu", "255u"),
    ("9223372036854775807li", "9223372036854775807li"),
    ("18446744073709551615lu", "18446744073709551615lu"),
    ("9223372036854775808", "wrong"),
    ("2147483648i", "wrong"),
    ("4294967296u", "wrong"),
    ("012", "wrong"),
    ("12ul", "wrong"),
    ("0x1p2", "float"),
    ("1e3", "float"),
];

fn add_faults(
    text: &mut String,
    reading: &Reading<'_>,
    lines: &Lines,
    source: &str,
) -> Result<(), AllocError> {
    for fault in reading.faults() {
        separate(text)?;
        let place = lines.place(source, fault.start);
        let (line, column) = (place.line, place.column);
        write!(text, "{line}:{column}")?;
        if is_refused_at(reading, source.len(), fault.start) {
            text.push_str(" refused")?;
        }
        let reason = fault.reason;
        write!(text, " {reason}")?;
    }
    Ok(())
}

/// Whether one of so many tokens is refused that begins there.
fn is_refused_at(reading: &Reading<'_>, tokens: usize, start: usize) -> bool {
    (0..tokens).any(|token| reading.is_refused(token) && reading.extent(token).start == start)
}

/// The faults of an expression.
fn text_of_faults(rt: &impl Abort, alloc: Global, source: &str) -> String {
    let reading = Reading::of_expression(alloc, source).expect(rt, "memory");
    let lines = Lines::new(alloc, source).expect(rt, "memory");
    let mut text = String::new(alloc);
    add_faults(&mut text, &reading, &lines, source).expect(rt, "memory");
    drop(lines);
    drop(reading);
    text
}

fn text_of(alloc: Global, literal: Literal) -> Result<String, AllocError> {
    match literal {
        Literal::Integer(number) => format!(in alloc; "{number}"),
        Literal::Float => String::from_str(alloc, "float"),
        Literal::Wrong => String::from_str(alloc, "wrong"),
    }
}

/// The literal that an expression is.
fn literal_of(rt: &impl Abort, alloc: Global, source: &str) -> Literal {
    let reading = Reading::of_expression(alloc, source).expect(rt, "memory");
    let literal = reading.literal(0);
    drop(reading);
    literal
}

fn assert_tell(rt: &impl Abort, alloc: Global, rows: &[(&str, &str)]) {
    for (source, wanted) in rows {
        let text = text_of_faults(rt, alloc, source);
        assert_text(rt, text, wanted, source);
    }
}

#[test]
fn mixed_operators_are_refused_at_their_places(rt: HostRuntime) {
    assert_tell(&rt, rt.alloc(), &MIXES);
}

#[test]
fn comparisons_do_not_follow_each_other(rt: HostRuntime) {
    assert_tell(&rt, rt.alloc(), &COMPARISONS);
}

#[test]
fn literals_are_numbers_of_their_suffixes(rt: HostRuntime) {
    for (source, wanted) in &LITERALS {
        let literal = literal_of(&rt, rt.alloc(), source);
        let text = text_of(rt.alloc(), literal).expect(&rt, "memory");
        assert_text(&rt, text, wanted, source);
    }
}

//! What is told of a source, as JSON.

use crate::finding::{Finding, severity_word};
use crate::json_text::add_string;
use crate::utf16::utf16_column;
use std::alloc::{AllocError, Global};
use wgsl_source::Lines;

/// A source by the name of its file, and what is told of it.
#[derive(Clone, Copy)]
pub(crate) struct Told<'a> {
    pub(crate) file: &'a str,
    pub(crate) text: &'a str,
    pub(crate) findings: &'a [Finding],
}

/// One list: bytes from 0, lines from 1, columns from 1 in characters and in the units of UTF-16.
pub(crate) fn add_findings(
    alloc: Global,
    out: &mut String,
    told: Told<'_>,
) -> Result<(), AllocError> {
    let lines = Lines::new(alloc, told.text)?;
    out.push_str("\"messages\": [")?;
    for (i, finding) in told.findings.iter().enumerate() {
        out.push_str(if i == 0 { "\n    " } else { ",\n    " })?;
        add_finding(out, told.text, &lines, finding)?;
    }
    out.push_str(if told.findings.is_empty() {
        "]"
    } else {
        "\n  ]"
    })
}

fn add_finding(
    out: &mut String,
    text: &str,
    lines: &Lines,
    finding: &Finding,
) -> Result<(), AllocError> {
    let (severity, code) = (severity_word(finding.severity), finding.code);
    let place = lines.place(text, finding.start);
    write!(out, "{{\"severity\": \"{severity}\", \"code\": \"{code}\"")?;
    for (key, number) in [
        ("start", finding.start),
        ("end", finding.end),
        ("line", place.line),
        ("column", place.column),
        ("utf16_column", utf16_column(text, lines, place)),
    ] {
        write!(out, ", \"{key}\": {number}")?;
    }
    out.push_str(", \"text\": ")?;
    add_string(out, finding.text.as_str())?;
    if !finding.path.is_empty() {
        out.push_str(", \"path\": ")?;
        add_string(out, finding.path.as_str())?;
    }
    out.push('}')
}

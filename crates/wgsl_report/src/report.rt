//! What is printed of a source, and what is told of it.

ghost use Rattle.std.specs.Prelude.{◌<◌, IfOk, OnOk, ◌≡◌, if◌then◌else◌, nat_lt, string_len};
ghost use Rattle.wgsl_report.specs.Faults.{fault_count};

use crate::end::End;
use crate::finding::{Finding, fault_count, severity_word};
use std::alloc::{AllocError, Global};
use wgsl_source::Lines;

/// How many characters of a line are printed.
const SHOWN: usize = 120;

/// What goes to standard output and to standard error, and how many faults are told.
#[derive(Drop)]
pub struct Report {
    /// What is asked for, in its format.
    pub output: String,
    /// What is told, with the lines of the source.
    pub errors: String,
    /// How many of what is told are faults, without warnings and notes.
    pub faults: usize,
    ghost told: { 0 < faults → 0 < string_len errors },
}

impl Report {
    ghost use Rattle.wgsl_report.specs.declared.end.End.TheVariants.{Well, Faults};

    /// What is printed, and the findings, of a source of this name.
    pub(crate) fn new(
        alloc: Global,
        file: &str,
        text: &str,
        output: String,
        findings: &[Finding],
    ) -> Result<Report, AllocError>
        ensures { IfOk result (λ report. report.faults ≡ fault_count findings.now) }
    {
        Ok(Report {
            output,
            errors: errors_of(alloc, file, text, findings)?,
            faults: fault_count(findings),
        })
    }

    /// How a program ends that prints it.
    pub fn end(&self) -> End
        ensures { result ≡ (if nat_lt 0 self.now.faults then Faults else Well) }
    {
        if self.faults > 0 {
            End::Faults
        } else {
            End::Well
        }
    }
}

/// A source, and by what its places are told.
#[derive(Drop)]
struct Source<'a> {
    file: &'a str,
    text: &'a str,
    lines: &'a Lines,
}

/// The findings of a source of this name, one behind the other.
pub(crate) fn errors_of(
    alloc: Global,
    file: &str,
    text: &str,
    findings: &[Finding],
) -> Result<String, AllocError>
    ensures { IfOk result (λ errors. 0 < fault_count findings.now → 0 < string_len errors) }
{
    let lines = Lines::new(alloc, text)?;
    let source = Source {
        file,
        text,
        lines: &lines,
    };
    let mut errors = String::new(alloc);
    for finding in findings {
        add_finding(&mut errors, &source, finding)?;
    }
    Ok(errors)
}

// Where it is, what is said, and the line with a mark.
fn add_finding(
    errors: &mut String,
    source: &Source<'_>,
    finding: &Finding,
) -> Result<(), AllocError>
    ensures { OnOk result (string_len errors.old < string_len errors.new) }
{
    let Source { file, text, lines } = source;
    let place = lines.place(text, finding.start);
    let (line, column) = (place.line, place.column);
    let said = &finding.text;
    let kind = severity_word(finding.severity);
    writeln!(errors, "{file}:{line}:{column}: {kind}: {said}")?;
    add_line(errors, lines.line(text, line), column.saturating_sub(1))
}

// The line, or the part of it round this character, and a mark below the character.
fn add_line(errors: &mut String, line: &str, before: usize) -> Result<(), AllocError>
    ensures { OnOk result (string_len errors.old < string_len errors.new) }
{
    let left_out = if before < SHOWN {
        0
    } else {
        before.saturating_sub(SHOWN / 2)
    };
    errors.push_str("    ")?;
    for character in line.chars().skip(left_out).take(SHOWN) {
        errors.push(character)?;
    }
    errors.push_str("\n    ")?;
    let shown = before.saturating_sub(left_out);
    for character in line.chars().skip(left_out).take(shown) {
        errors.push(if character == '\t' { '\t' } else { ' ' })?;
    }
    errors.push_str("^\n")
}

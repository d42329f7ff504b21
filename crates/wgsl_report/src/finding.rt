//! What is told of a source.

ghost use Rattle.std.specs.Prelude.{◌≡◌, IfOk, map};
ghost use Rattle.wgsl_report.specs.Faults.{fault_count, is_fault, severities_in, starts_in};

use std::alloc::{AllocError, Global};
use wgsl_eval::{Message, Severity};
use wgsl_source::{Fault, Reason};

/// How many characters of what was found are printed.
const FOUND: usize = 40;

/// Bytes of a source, how much it matters what is said of them, a short name for the kind of that, and what is said.
#[derive(Drop)]
pub struct Finding {
    /// The first byte.
    pub start: usize,
    /// The byte behind the last one.
    pub end: usize,
    /// Whether it is a fault, a warning or a note.
    pub severity: Severity,
    /// The name for its kind, as `duplicate-name`.
    pub code: &'static str,
    /// The path of the member that it is about, as `name.a[].b`; empty where it is about none.
    pub path: String,
    /// What is said.
    pub text: String,
}

/// What is wrong in the form of a source, and behind that its messages.
pub(crate) fn findings_of(
    alloc: Global,
    text: &str,
    faults: &[Fault],
    messages: &[Message],
) -> Result<Vec<Finding>, AllocError>
    ensures starts { IfOk result (λ found. map (λ f. f.start) found.items ≡ starts_in faults.now messages.now) }
    ensures severities { IfOk result (λ found. map (λ f. f.severity) found.items ≡ severities_in faults.now messages.now) }
{
    let mut found = Vec::new(alloc);
    for fault in faults {
        found.push(of_fault(alloc, text, *fault)?)?;
    }
    for message in messages {
        found.push(of_message(alloc, message)?)?;
    }
    Ok(found)
}

/// In the order of their places; at one place they stay as they are.
pub(crate) fn sort(findings: &mut Vec<Finding>) -> Result<(), AllocError> {
    findings.sort_by_key(|finding| finding.start)
}

/// How many of them are faults.
pub(crate) fn fault_count(findings: &[Finding]) -> usize
    ensures { result ≡ fault_count findings.now }
{
    findings.iter().filter(|finding| is_fault(finding)).count()
}

fn is_fault(finding: &Finding) -> bool
    ensures { result ≡ is_fault finding.now }
{
    finding.severity == Severity::Fault
}

fn of_message(alloc: Global, message: &Message) -> Result<Finding, AllocError>
    ensures start { IfOk result (λ f. f.start ≡ message.now.start) }
    ensures severity { IfOk result (λ f. f.severity ≡ message.now.severity) }
{
    let code = match message.severity {
        Severity::Fault => "evaluation",
        Severity::Warning => "against-standard",
        Severity::Note => "left-out",
    };
    Ok(Finding {
        start: message.start,
        end: message.end,
        severity: message.severity,
        code,
        path: String::new(alloc),
        text: String::from_str(alloc, message.text.as_str())?,
    })
}

fn of_fault(alloc: Global, text: &str, fault: Fault) -> Result<Finding, AllocError>
    ensures start { IfOk result (λ f. f.start ≡ fault.start) }
    ensures severity { IfOk result (λ f. f.severity ≡ Severity.Fault) }
{
    let reason = fault.reason;
    let end = end_of_found(text, fault);
    let mut said = format!(in alloc; "{reason}")?;
    add_found(&mut said, text.get(fault.start..end).unwrap_or(""))?;
    Ok(Finding {
        start: fault.start,
        end,
        severity: Severity::Fault,
        code: code_of(reason),
        path: String::new(alloc),
        text: said,
    })
}

// The end of what stands at a fault: `==` is one token.
fn end_of_found(text: &str, fault: Fault) -> usize {
    let rest = text.get(fault.start..).unwrap_or("");
    let end = fault.start.saturating_add(2);
    if fault.end < end && rest.starts_with("==") {
        end
    } else {
        fault.end
    }
}

// What stands there, the front of it.
fn add_found(said: &mut String, found: &str) -> Result<(), AllocError> {
    if found.is_empty() {
        return said.push_str(", found the end of the source");
    }
    said.push_str(", found `")?;
    for character in found.chars().take(FOUND) {
        said.push(character)?;
    }
    said.push('`')
}

fn code_of(reason: Reason) -> &'static str {
    match reason {
        Reason::Expected(_) => "expected",
        Reason::OpenComment => "open-comment",
        Reason::Preprocessor => "preprocessor",
        Reason::Placeholder => "placeholder",
        Reason::Import => "import",
        Reason::TooDeep => "too-deep",
        Reason::DuplicateName => "duplicate-name",
        Reason::SecondStage => "second-stage",
        Reason::ContainsItself => "needs-itself",
        Reason::Mixed => "mixed-operators",
        Reason::Double => "double-operator",
        Reason::Keyword => "keyword",
        Reason::Reserved => "reserved-word",
        Reason::NoIdentifier => "no-identifier",
    }
}

/// The word for how much it matters what is said.
pub(crate) fn severity_word(severity: Severity) -> &'static str {
    match severity {
        Severity::Fault => "error",
        Severity::Warning => "warning",
        Severity::Note => "note",
    }
}

//! What is told of a source.

ghost use Rattle.std.specs.Prelude.{◌≡◌, ◌<◌, ◌≤◌, All, IfOk};
ghost use Rattle.std.specs.Str.{IsUtf8};
ghost use Rattle.wgsl_c.specs.Answers.{IsAnswer, TellsNumbers, misuse};
ghost use Rattle.wgsl_c.specs.Faults.{CountsErrors, IsFault, errors_in, severity_number};

use crate::answer::{Answer, Refusal, Stop, given, given_text};
use crate::asked::{settings_of, text_of, values_in};
use crate::codes::code_of;
use std::alloc::{AllocError, Global};
use wgsl_eval::Severity;
use wgsl_report::{Finding, Format, Request, all_findings, utf16_column};
use wgsl_source::Lines;

/// Something that is told (`wgsl_fault`).
#[repr(C)]
#[derive(Clone, Copy, Debug, PartialEq, Eq)]
pub struct Fault {
    /// The first byte.
    pub start: usize,
    /// The byte behind the last one.
    pub end: usize,
    /// From 1.
    pub line: usize,
    /// From 1, in characters.
    pub column: usize,
    /// From 1, in units of UTF-16.
    pub column_utf16: usize,
    /// 1 of an error, 2 of a warning, 3 of a note.
    pub severity: u32,
    /// The kind of what is told.
    pub code: u32,
}

/// A source, and how it is asked about.
#[derive(Clone, Copy)]
struct Asked<'a> {
    source: &'a [u8],
    defines: &'a [u8],
    stage: u32,
    flags: u32,
}

/// All that is told of a source.
#[unsafe(no_mangle)]
#[tactic(auto, using(crate::proofs::Counts::counted, crate::proofs::Counts::uncounted))]
pub extern "C" fn wgsl_faults(
    alloc: Global,
    source: &[u8],
    defines: &[u8],
    stage: u32,
    flags: u32,
    records: &mut [Fault],
) -> Answer
    ensures answer { IsAnswer (All IsFault) result records.old records.new }
    ensures errors { CountsErrors result records.new }
    ensures numbers { TellsNumbers stage flags 3 result }
    ensures text { stage < 3 → flags < 4 → ¬ IsUtf8 source.now → result ≡ misuse 1 }
{
    let asked = Asked {
        source,
        defines,
        stage,
        flags,
    };
    match faults_of(alloc, asked) {
        Ok(faults) => given(faults.as_slice(), errors_in(faults.as_slice()), records),
        Err(stop) => stop.answer(),
    }
}

/// The text of one of them.
#[unsafe(no_mangle)]
pub extern "C" fn wgsl_fault_text(
    alloc: Global,
    source: &[u8],
    defines: &[u8],
    stage: u32,
    flags: u32,
    number: usize,
    out: &mut [u8],
) -> Answer
    ensures answer { IsAnswer IsUtf8 result out.old out.new }
    ensures numbers { TellsNumbers stage flags 3 result }
    ensures text { stage < 3 → flags < 4 → ¬ IsUtf8 source.now → result ≡ misuse 1 }
{
    let asked = Asked {
        source,
        defines,
        stage,
        flags,
    };
    match findings(alloc, asked) {
        Ok(findings) => match findings.get(number) {
            Some(finding) => given_text(finding.text.as_str(), 0, out),
            None => Stop::Refused(Refusal::NoSuchFault).answer(),
        },
        Err(stop) => stop.answer(),
    }
}

fn findings(alloc: Global, asked: Asked<'_>) -> Result<Vec<Finding>, Stop>
    ensures stage { 3 ≤ asked.entry.stage → result ≡ Err (Stop.Misuse 3) }
    ensures flags { asked.entry.stage < 3 → 4 ≤ asked.entry.flags → result ≡ Err (Stop.Misuse 4) }
    ensures text { asked.entry.stage < 3 → asked.entry.flags < 4 → ¬ IsUtf8 asked.entry.source.now → result ≡ Err (Stop.Misuse 1) }
{
    let settings = settings_of(asked.stage, asked.flags, 3)?;
    let source = text_of(asked.source, 1)?;
    let defined = values_in(alloc, text_of(asked.defines, 2)?, settings, 2)?;
    let request = Request {
        format: Format::Table,
        settings,
        names: Vec::new(alloc),
    };
    Ok(all_findings(alloc, source, &request, &defined)?)
}

fn faults_of(alloc: Global, asked: Asked<'_>) -> Result<Vec<Fault>, Stop>
    ensures stage { 3 ≤ asked.entry.stage → result ≡ Err (Stop.Misuse 3) }
    ensures flags { asked.entry.stage < 3 → 4 ≤ asked.entry.flags → result ≡ Err (Stop.Misuse 4) }
    ensures text { asked.entry.stage < 3 → asked.entry.flags < 4 → ¬ IsUtf8 asked.entry.source.now → result ≡ Err (Stop.Misuse 1) }
    ensures faults { IfOk result (λ faults. All IsFault faults.items) }
{
    let findings = findings(alloc, asked)?;
    let source = text_of(asked.source, 1)?;
    let lines = Lines::new(alloc, source)?;
    let mut faults = Vec::new(alloc);
    for finding in &findings {
        faults
            .push(fault_of(source, &lines, finding))
            .map_err(AllocError::from)?;
    }
    Ok(faults)
}

// What is told, of a text with these lines.
fn fault_of(text: &str, lines: &Lines, finding: &Finding) -> Fault
    ensures { IsFault result }
{
    let place = lines.place(text, finding.start);
    Fault {
        start: finding.start,
        end: finding.end,
        line: place.line,
        column: place.column,
        column_utf16: utf16_column(text, lines, place),
        severity: severity_number(finding.severity),
        code: code_of(finding.code),
    }
}

fn severity_number(severity: Severity) -> u32
    ensures { result ≡ severity_number severity }
{
    match severity {
        Severity::Fault => 1,
        Severity::Warning => 2,
        Severity::Note => 3,
    }
}

// How many are errors.
fn errors_in(faults: &[Fault]) -> usize
    ensures { result ≡ errors_in faults.now }
{
    faults.iter().filter(|fault| fault.severity == 1).count()
}

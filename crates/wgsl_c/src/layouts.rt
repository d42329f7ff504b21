//! Layouts and constants, as the program prints them.

ghost use Rattle.std.specs.Prelude.{◌≡◌, ◌≢◌, ◌<◌, ◌≤◌};
ghost use Rattle.std.specs.Str.{IsUtf8};
ghost use Rattle.wgsl_c.specs.Answers.{IsAnswer, TellsNumbers, misuse};

use crate::answer::{Answer, Stop, given_text};
use crate::asked::{format_of, names_in, settings_of, text_of, values_in};
use std::alloc::Global;
use wgsl_report::{Format, Report, Request, layouts_of, values_of};

/// The name of a source.
const FILE: &str = "-";

/// Where the members of structures stand, and how large buffers are.
#[unsafe(no_mangle)]
pub extern "C" fn wgsl_layout_text(
    alloc: Global,
    source: &[u8],
    names: &[u8],
    defines: &[u8],
    format: u32,
    stage: u32,
    flags: u32,
    out: &mut [u8],
) -> Answer
    ensures answer { IsAnswer IsUtf8 result out.old out.new }
    ensures format { 6 ≤ format → result ≡ misuse 4 }
    ensures numbers { format < 6 → TellsNumbers stage flags 5 result }
    ensures text { format < 6 → stage < 3 → flags < 4 → ¬ IsUtf8 source.now → result ≡ misuse 1 }
{
    match layouts(alloc, source, names, defines, format, stage, flags) {
        Ok(report) => given_text(report.output.as_str(), report.faults, out),
        Err(stop) => stop.answer(),
    }
}

fn layouts(
    alloc: Global,
    source: &[u8],
    names: &[u8],
    defines: &[u8],
    format: u32,
    stage: u32,
    flags: u32,
) -> Result<Report, Stop>
    ensures format { 6 ≤ format → result ≡ Err (Stop.Misuse 4) }
    ensures stage { format < 6 → 3 ≤ stage → result ≡ Err (Stop.Misuse 5) }
    ensures flags { format < 6 → stage < 3 → 4 ≤ flags → result ≡ Err (Stop.Misuse 6) }
    ensures text { format < 6 → stage < 3 → flags < 4 → ¬ IsUtf8 source.now → result ≡ Err (Stop.Misuse 1) }
{
    let format = format_of(format, 4)?;
    let settings = settings_of(stage, flags, 5)?;
    let source = text_of(source, 1)?;
    let names = names_in(alloc, text_of(names, 2)?)?;
    let given = values_in(alloc, text_of(defines, 3)?, settings, 3)?;
    let request = Request {
        format,
        settings,
        names,
    };
    Ok(layouts_of(alloc, FILE, source, &request, &given)?)
}

/// The type and the value of each constant.
#[unsafe(no_mangle)]
pub extern "C" fn wgsl_eval_text(
    alloc: Global,
    source: &[u8],
    defines: &[u8],
    format: u32,
    stage: u32,
    flags: u32,
    out: &mut [u8],
) -> Answer
    ensures answer { IsAnswer IsUtf8 result out.old out.new }
    ensures format { format ≢ 0 → format ≢ 2 → result ≡ misuse 3 }
    ensures numbers_of_text { format ≡ 0 → TellsNumbers stage flags 4 result }
    ensures numbers_of_json { format ≡ 2 → TellsNumbers stage flags 4 result }
{
    match values(alloc, source, defines, format, stage, flags) {
        Ok(report) => given_text(report.output.as_str(), report.faults, out),
        Err(stop) => stop.answer(),
    }
}

fn values(
    alloc: Global,
    source: &[u8],
    defines: &[u8],
    format: u32,
    stage: u32,
    flags: u32,
) -> Result<Report, Stop>
    ensures format { format ≢ 0 → format ≢ 2 → result ≡ Err (Stop.Misuse 3) }
    ensures stage_of_text { format ≡ 0 → 3 ≤ stage → result ≡ Err (Stop.Misuse 4) }
    ensures stage_of_json { format ≡ 2 → 3 ≤ stage → result ≡ Err (Stop.Misuse 4) }
    ensures flags_of_text { format ≡ 0 → stage < 3 → 4 ≤ flags → result ≡ Err (Stop.Misuse 5) }
    ensures flags_of_json { format ≡ 2 → stage < 3 → 4 ≤ flags → result ≡ Err (Stop.Misuse 5) }
{
    let format = match format {
        0 => Format::Table,
        2 => Format::Json,
        _ => return Err(Stop::Misuse(3)),
    };
    let settings = settings_of(stage, flags, 4)?;
    let source = text_of(source, 1)?;
    let given = values_in(alloc, text_of(defines, 2)?, settings, 2)?;
    let request = Request {
        format,
        settings,
        names: Vec::new(alloc),
    };
    Ok(values_of(alloc, FILE, source, &request, &given)?)
}

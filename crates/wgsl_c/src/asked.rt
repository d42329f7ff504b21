//! What a call is asked, by numbers and lines.

ghost use Rattle.std.specs.Prelude.{◌≡◌, ◌<◌, ◌≤◌, ◌+◌, IfOk, IsOk};
ghost use Rattle.std.specs.Str.{IsUtf8};
ghost use Rattle.wgsl_c.specs.Asked.{AreSettings, format_number};

use crate::answer::Stop;
use std::alloc::{AllocError, Global};
use std::str;
use wgsl_eval::{Dialect, Settings};
use wgsl_report::{Format, GivenValues, define_of, values_given};
use wgsl_rules::ShaderStage;

/// The format of a number, which is the argument of that number.
pub(crate) fn format_of(format: u32, number: u32) -> Result<Format, Stop>
    ensures format { IfOk result (λ found. format_number found ≡ format) }
    ensures none { 6 ≤ format → result ≡ Err (Stop.Misuse number) }
    ensures sound { format < 6 → IsOk result }
{
    match format {
        0 => Ok(Format::Table),
        1 => Ok(Format::Bytes),
        2 => Ok(Format::Json),
        3 => Ok(Format::Rust),
        4 => Ok(Format::Bytemuck),
        5 => Ok(Format::C),
        _ => Err(Stop::Misuse(number)),
    }
}

/// The settings of a stage and of flags, which is the argument behind that of this number.
pub(crate) fn settings_of(stage: u32, flags: u32, number: u32) -> Result<Settings, Stop>
    requires { number < 100 }
    ensures settings { IfOk result (AreSettings stage flags) }
    ensures sound { stage < 3 → flags < 4 → IsOk result }
    ensures stage { 3 ≤ stage → result ≡ Err (Stop.Misuse number) }
    ensures flags { stage < 3 → 4 ≤ flags → result ≡ Err (Stop.Misuse (number + 1)) }
{
    let stage = match stage {
        0 => ShaderStage::Const,
        1 => ShaderStage::Override,
        2 => ShaderStage::Exec,
        _ => return Err(Stop::Misuse(number)),
    };
    let (is_strict, dialect) = match flags {
        0 => (false, Dialect::Wgsl),
        1 => (true, Dialect::Wgsl),
        2 => (false, Dialect::Crate),
        3 => (true, Dialect::Crate),
        _ => return Err(Stop::Misuse(number + 1)),
    };
    Ok(Settings {
        stage,
        is_strict,
        dialect,
    })
}

/// The text of bytes, which are the argument of this number.
pub(crate) fn text_of(bytes: &[u8], number: u32) -> Result<&str, Stop>
    ensures text { IfOk result (λ text. text.now ≡ bytes.now) }
    ensures sound { IsUtf8 bytes.now → IsOk result }
    ensures none { ¬ IsUtf8 bytes.now → result ≡ Err (Stop.Misuse number) }
{
    match str::from_utf8(bytes) {
        Ok(text) => Ok(text),
        Err(_) => Err(Stop::Misuse(number)),
    }
}

/// The names that stand in lines.
pub(crate) fn names_in(alloc: Global, lines: &str) -> Result<Vec<&str>, AllocError> {
    let mut names = Vec::new(alloc);
    for line in lines.lines() {
        let name = line.trim();
        if !name.is_empty() {
            names.push(name)?;
        }
    }
    Ok(names)
}

/// What lines of `NAME=VALUE` give overrides, which are the argument of this number.
pub(crate) fn values_in<'a>(
    alloc: Global,
    lines: &'a str,
    settings: Settings,
    number: u32,
) -> Result<GivenValues<'a>, Stop> {
    let mut defines = Vec::new(alloc);
    for line in lines.lines() {
        if !line.trim().is_empty() {
            let define = define_of(line).ok_or(Stop::Misuse(number))?;
            defines.push(define).map_err(AllocError::from)?;
        }
    }
    match values_given(alloc, defines.as_slice(), settings)? {
        Ok(given) => Ok(given),
        Err(_) => Err(Stop::Misuse(number)),
    }
}

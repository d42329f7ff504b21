//! Scripts, and the version.

ghost use Rattle.std.specs.Prelude.{◌≡◌, ◌<◌, codes, length};
ghost use Rattle.std.specs.Str.{IsUtf8};
ghost use Rattle.wgsl_c.specs.Answers.{IsAnswer, answer_of, left_in, stopped};

use crate::answer::{Answer, Refusal, Stop, given};
use std::alloc::Global;
use wgsl_report::VERSION;
use wgsl_script::{LIMIT, RunFault, run_script};

/// The lines that a script is answered.
#[unsafe(no_mangle)]
pub extern "C" fn wgsl_script(alloc: Global, script: &[u8], out: &mut [u8]) -> Answer
    ensures answer { IsAnswer (λ lines. Unit {0}) result out.old out.new }
    ensures long { 1048576 < length script.now → result ≡ stopped (Stop.Refused Refusal.ScriptTooLong) }
{
    match lines_of(alloc, script) {
        Ok(lines) => given(lines.as_slice(), 0, out),
        Err(stop) => stop.answer(),
    }
}

fn lines_of(alloc: Global, script: &[u8]) -> Result<Vec<u8>, Stop>
    ensures long { 1048576 < length script.now → result ≡ Err (Stop.Refused Refusal.ScriptTooLong) }
{
    if script.len() > LIMIT {
        return Err(Stop::Refused(Refusal::ScriptTooLong));
    }
    let mut reader = script;
    let mut lines = Vec::new(alloc);
    match run_script(alloc, &mut reader, &mut lines) {
        Ok(()) => Ok(lines),
        Err(RunFault::TooLong) => Err(Stop::Refused(Refusal::ScriptTooLong)),
        Err(RunFault::Read | RunFault::Write | RunFault::Memory) => Err(Stop::Memory),
    }
}

/// The version of the library.
#[unsafe(no_mangle)]
pub extern "C" fn wgsl_version(out: &mut [u8]) -> Answer
    ensures answer { result ≡ answer_of 0 5 (length out.old) }
    ensures left { out.new ≡ left_in (codes "0.1.0") out.old }
{
    given(VERSION.as_bytes(), 0, out)
}

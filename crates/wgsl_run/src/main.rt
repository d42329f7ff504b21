//! Runs scripts of calls on a shader's memory.
#![tactic(auto)]

mod output;
#[cfg(test)]
mod tests;

use output::Buffered;
use std::alloc::Global;
use std::io;
use std::io::{Read, Write};
use std::process::ExitCode;
use wgsl_script::{RunFault, run_script};

/// How many bytes of output may wait.
const BUFFER: usize = 8192;

fn main(rt: HostRuntime) -> ExitCode {
    match run(&rt) {
        Ok(()) => ExitCode::SUCCESS,
        Err(fault) => {
            let text = fault.text();
            let _ = eprintln!(rt; "wgsl_run: {text}");
            ExitCode::from(fault.status())
        }
    }
}

/// Runs the script of standard input.
fn run<R: AllocGlobal + Input + Print>(rt: &R) -> Result<(), RunFault> {
    let mut output = Buffered::new(rt.alloc(), BUFFER, io::writer(rt))?;
    run_buffered(rt.alloc(), &mut rt.reader(), &mut output)
}

/// Runs the script. What is printed waits in the buffer, and is written at the latest when the run
/// ends; a fault of the run before that is the one that is told.
fn run_buffered<R: Read, W: Write + Drop>(
    alloc: Global,
    reader: &mut R,
    output: &mut Buffered<W>,
) -> Result<(), RunFault> {
    let outcome = run_script(alloc, reader, output);
    let flushed = output.flush().map_err(|_| RunFault::Write);
    outcome.and(flushed)
}

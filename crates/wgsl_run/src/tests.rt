//! Scripts over memory: what each line is answered, and how a run ends.

mod coverage;
mod faults;
mod grammar;
mod growth;
mod limits;
mod reading;
mod rows;
mod seeds;

use std::alloc::Global;
use std::fmt::{Debug, Write};
use std::process::Abort;
use wgsl_script::{RunFault, run_script};

/// Asserts that it is so.
fn assert_that(rt: &impl Abort, is_so: bool) {
    assert!(rt; is_so);
}

/// Asserts that the values are equal.
fn assert_same<T: PartialEq + Debug + Drop>(rt: &impl Abort, value: T, wanted: T) {
    assert_eq!(rt; value, wanted);
}

/// The output of a script that is run to its end.
fn output_of(alloc: Global, script: &[u8]) -> Result<Vec<u8>, RunFault> {
    let mut reader = script;
    let mut output = Vec::new(alloc);
    run_script(alloc, &mut reader, &mut output)?;
    Ok(output)
}

/// Asserts what a script prints, which shows this.
fn assert_shows(rt: &impl Abort, alloc: Global, shows: &str, script: &[u8], wanted: &[u8]) {
    let output = output_of(alloc, script).expect(rt, "a run to its end");
    assert_eq!(rt; output.as_slice(), wanted, "{shows}");
}

/// Asserts what a script prints.
fn assert_prints(rt: &impl Abort, alloc: Global, script: &[u8], wanted: &[u8]) {
    assert_shows(rt, alloc, "a script", script, wanted);
}

/// What a script shows, and its lines with what each prints: nothing where that is empty.
struct Script {
    shows: &'static str,
    lines: &'static [(&'static str, &'static str)],
}

/// Asserts what each line of a script prints.
fn assert_answers(rt: &impl Abort, alloc: Global, script: &Script) {
    let mut text = String::new(alloc);
    let mut wanted = String::new(alloc);
    for (line, answer) in script.lines {
        writeln!(text, "{line}").expect(rt, "memory");
        if !answer.is_empty() {
            writeln!(wanted, "{answer}").expect(rt, "memory");
        }
    }
    let (text, wanted) = (text.as_bytes(), wanted.as_bytes());
    assert_shows(rt, alloc, script.shows, text, wanted);
}

/// Asserts what each line of each of the scripts prints.
fn assert_scripts(rt: &impl Abort, alloc: Global, scripts: &[Script]) {
    for script in scripts {
        assert_answers(rt, alloc, script);
    }
}

/// Asserts that each line, with one of the words in the place of its star, prints the answer.
fn assert_each(rt: &impl Abort, alloc: Global, line: &str, words: &[&str], answer: &str) {
    let (before, after) = line.split_once('*').expect(rt, "a line with a star");
    let mut script = String::new(alloc);
    let mut wanted = String::new(alloc);
    for word in words {
        writeln!(script, "{before}{word}{after}").expect(rt, "memory");
        writeln!(wanted, "{answer}").expect(rt, "memory");
    }
    assert_shows(rt, alloc, line, script.as_bytes(), wanted.as_bytes());
}

//! Rows of the builtin functions of memory: `place with access: call -> answer`, and behind that, where the call is not
//! refused, what the cell then has: ` => text => words`. Where a row has several accesses, each is meant.

use crate::tests::atomics::steps::{Only, assert_call, assert_refused};
use crate::tests::atomics::{Change, OnMemory, Place};
use crate::tests::rows::{parted, sample, two_samples};
use std::alloc::Global;
use std::process::Abort;
use wgsl_rules::AccessMode;
use wgsl_samples::operands::Sample;

/// The change of the name.
pub(crate) fn change(rt: &impl Abort, name: &str) -> Change {
    match name {
        "add" => Change::Add,
        "sub" => Change::Sub,
        "max" => Change::Max,
        "min" => Change::Min,
        "and" => Change::And,
        "or" => Change::Or,
        "xor" => Change::Xor,
        "exchange" => Change::Exchange,
        _ => panic!(rt; "{name} is no change"),
    }
}

/// The call of a text as `length`, `load`, `store 3`, `add -7i` or `compare 3; 8`.
pub(crate) fn call(rt: &impl Abort, text: &str) -> OnMemory {
    if text == "length" {
        return OnMemory::Length;
    }
    if text == "load" {
        return OnMemory::Load;
    }
    let (name, values) = parted(rt, text, " ");
    match name {
        "store" => OnMemory::Store(sample(rt, values)),
        "compare" => {
            let (comparand, new) = two_samples(rt, values);
            OnMemory::CompareExchange(comparand, new)
        }
        _ => OnMemory::Change(change(rt, name), sample(rt, values)),
    }
}

fn access(rt: &impl Abort, name: &str) -> AccessMode {
    match name {
        "read" => AccessMode::Read,
        "write" => AccessMode::Write,
        "read_write" => AccessMode::ReadWrite,
        _ => panic!(rt; "{name} is no access mode"),
    }
}

/// The index of a text as `1]`.
fn index(rt: &impl Abort, text: &str) -> &'static [usize] {
    match text {
        "0]" => &[0],
        "1]" => &[1],
        "2]" => &[2],
        _ => panic!(rt; "{text} is no index"),
    }
}

/// The names of a cell and of its member, and the index, of a text as `counters.totals[1]`.
fn steps(rt: &impl Abort, text: &'static str) -> (&'static str, &'static str, &'static [usize]) {
    let (names, indices) = match text.split_once('[') {
        Some((names, text)) => (names, index(rt, text)),
        None => (text, [].as_slice()),
    };
    match names.split_once('.') {
        Some((cell, name)) => (cell, name, indices),
        None => (names, "", indices),
    }
}

/// What the cell has, and the place in it, of a text as `atomic 5i` or `counters.totals[1] as atomic 0i`, in which a
/// value of the type of the place stands behind a part.
fn place(rt: &impl Abort, text: &'static str, access: AccessMode) -> (Sample, Place) {
    let (text, part) = match text.split_once(" as ") {
        Some((text, part)) => (text, Some(part)),
        None => (text, None),
    };
    let (cell, name, indices) = steps(rt, text);
    let cell = sample(rt, cell);
    let like = match part {
        Some(part) => sample(rt, part),
        None => cell,
    };
    let place = Place {
        name,
        indices,
        like,
        access,
    };
    (cell, place)
}

/// What the cell has, and the place in it, of a text as `array with read`.
pub(crate) fn accessed(rt: &impl Abort, text: &'static str) -> (Sample, Place) {
    let (part, name) = parted(rt, text, " with ");
    place(rt, part, access(rt, name))
}

/// The numbers of a text as `1 4294967294`; none of `nothing`.
pub(crate) fn words(rt: &impl Abort, alloc: Global, text: &str) -> Vec<u32> {
    let mut words = Vec::new(alloc);
    if text == "nothing" {
        return words;
    }
    for digits in text.split(' ') {
        let word = digits.parse::<u32>().expect(rt, "a word");
        again!(rt; words.push(word));
    }
    words
}

/// Asserts the row at a place.
fn assert_row(
    rt: &impl Abort,
    alloc: Global,
    row: &str,
    at: (Sample, Place),
    function: OnMemory,
    outcome: &str,
) {
    let Some((wanted, after)) = outcome.split_once(" => ") else {
        assert_refused(rt, alloc, row, at, function, outcome);
        return;
    };
    let (text, digits) = parted(rt, after, " => ");
    let words = words(rt, alloc, digits);
    let after = (text, words.as_slice());
    assert_call(rt, alloc, row, at, function, wanted, after);
    drop(words);
}

/// Asserts each row, each with a store of its own.
pub(crate) fn assert_rows(rt: &impl Abort, alloc: Global, rows: &'static str) {
    for row in rows.lines() {
        let (question, outcome) = parted(rt, row, " -> ");
        let (at, function) = parted(rt, question, ": ");
        let (part, names) = parted(rt, at, " with ");
        let function = call(rt, function);
        for name in names.split(", ") {
            let at = place(rt, part, access(rt, name));
            assert_row(rt, alloc, row, at, function, outcome);
        }
    }
}

/// Asserts each row, all on one store.
pub(crate) fn assert_steps(rt: &impl Abort, alloc: Global, rows: &'static str) {
    let (first, _) = parted(rt, rows, ": ");
    let (cell, _) = accessed(rt, first);
    let mut only = Only::new(rt, alloc, cell);
    for row in rows.lines() {
        let (question, outcome) = parted(rt, row, " -> ");
        let (at, function) = parted(rt, question, ": ");
        let (_, place) = accessed(rt, at);
        let (wanted, after) = parted(rt, outcome, " => ");
        let (text, digits) = parted(rt, after, " => ");
        let words = words(rt, alloc, digits);
        let step = (place, call(rt, function));
        only.assert_step(rt, alloc, row, step, wanted, (text, words.as_slice()));
        drop(words);
    }
    drop(only);
}

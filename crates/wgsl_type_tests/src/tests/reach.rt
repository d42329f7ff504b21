//! What declarations reach by those that they name.

use crate::tests::asserts::{assert_row, assert_same};
use crate::tests::reading::{asked, numbers, parted};
use std::alloc::Global;
use std::process::Abort;
use wgsl_interface::reached;

/// The lists of those that each declaration names, the declaration at which to begin, and what is reached.
const REACHED: &str = "\
    declarations_in_a_row: 1 | 2 | 3 | nothing from 0 = 0 1 2 3
    declarations_in_a_row: 1 | 2 | 3 | nothing from 2 = 2 3
    declarations_in_a_row: 1 | 2 | 3 | nothing from 3 = 3
    declarations_in_a_row: nothing | 0 | 1 | 2 from 3 = 0 1 2 3
    declarations_in_a_row: nothing | 0 | 1 | 2 from 1 = 0 1
    declarations_that_two_name: 3 2 3 | 0 4 | 5 5 | 5 | nothing | nothing from 0 = 0 2 3 5
    declarations_that_two_name: 3 2 3 | 0 4 | 5 5 | 5 | nothing | nothing from 1 = 0 1 2 3 4 5
    declarations_that_two_name: 3 2 3 | 0 4 | 5 5 | 5 | nothing | nothing from 4 = 4
    declarations_in_cycles: 0 | 0 from 0 = 0
    declarations_in_cycles: 0 | 0 from 1 = 0 1
    declarations_in_cycles: 1 | 2 | 0 4 | 1 | 4 2 from 1 = 0 1 2 4
    declarations_in_cycles: 1 | 2 | 0 4 | 1 | 4 2 from 4 = 0 1 2 4
    declarations_in_cycles: 1 | 2 | 0 4 | 1 | 4 2 from 3 = 0 1 2 3 4
    numbers_of_no_declaration: 2 1 18446744073709551615 | 3 1 from 0 = 0 1
    numbers_of_no_declaration: 2 1 18446744073709551615 | 3 1 from 2 = nothing
    numbers_of_no_declaration: 2 1 18446744073709551615 | 3 1 from 18446744073709551615 = nothing
    numbers_of_no_declaration: none from 0 = nothing";

/// The lists of a text as `1 | 2 3 | nothing`; `none` has none.
fn lists(rt: &impl Abort, alloc: Global, text: &str) -> Vec<Vec<usize>> {
    let mut lists = Vec::new(alloc);
    if text == "none" {
        return lists;
    }
    for list in text.split(" | ") {
        lists.push(numbers(rt, alloc, list)).expect(rt, "memory");
    }
    lists
}

#[test]
fn declarations_that_are_reached(rt: HostRuntime) {
    let alloc = rt.alloc();
    for row in REACHED.lines() {
        let (question, wanted) = asked(&rt, row);
        let (uses, from) = parted(&rt, question, " from ");
        let uses = lists(&rt, alloc, uses);
        let from = from.parse::<usize>().expect(&rt, "a number");
        let found = reached(alloc, uses.as_slice(), from).expect(&rt, "memory");
        assert_row(&rt, row, found, numbers(&rt, alloc, wanted));
        drop(uses);
    }
}

/// So many declarations, each of which names the next, and the last one the first.
fn cycle_of(rt: &impl Abort, alloc: Global, count: usize) -> Vec<Vec<usize>> {
    let mut uses = Vec::new(alloc);
    for i in 0..count {
        let next = if i + 1 < count { i + 1 } else { 0 };
        let named = Vec::from_slice(alloc, &[next]).expect(rt, "memory");
        uses.push(named).expect(rt, "memory");
    }
    uses
}

#[test]
fn a_cycle_of_ten_thousand(rt: HostRuntime) {
    let alloc = rt.alloc();
    let uses = cycle_of(&rt, alloc, 10_000);
    let found = reached(alloc, uses.as_slice(), 5_000).expect(&rt, "memory");
    assert_same(&rt, found.len(), 10_000);
    for (i, number) in found.iter().enumerate() {
        assert_same(&rt, *number, i);
    }
    drop((uses, found));
}

//! The resources that are at one group and binding: the first of them, and the pairs that one entry point uses.

use crate::tests::asserts::{assert_row, assert_same};
use crate::tests::reading::{asked, numbers, parted};
use std::alloc::Global;
use std::process::Abort;
use wgsl_interface::{Binding, BindingPair, first_at_binding, pairs_at_binding};

fn at(group: u32, binding: u32) -> Binding {
    Binding { group, binding }
}

/// Groups and bindings, and for each the position of the first that is the same; `-` where that is none.
const FIRSTS: &str = "\
    firsts_of_few: nothing = nothing
    firsts_of_few: 0 0 = -
    firsts_of_few: 0 0, 0 0 = -, 0
    firsts_of_few: 0 1, 1 0 = -, -
    firsts_of_few: 0 1, 0 2, 1 1 = -, -, -
    firsts_of_few: 4294967295 4294967295, 4294967295 0, 0 4294967295, 4294967295 4294967295 = -, -, -, 0
    firsts_and_not_those_just_in_front: 0 1, 1 0, 0 1, 0 1, 1 0, 2 2 = -, -, 0, 0, 1, -";

/// The bindings of a text as `0 1, 1 0`.
fn bindings(rt: &impl Abort, alloc: Global, text: &str) -> Vec<Binding> {
    let mut bindings = Vec::new(alloc);
    if text == "nothing" {
        return bindings;
    }
    for part in text.split(", ") {
        let (group, binding) = parted(rt, part, " ");
        let group = group.parse::<u32>().expect(rt, "a group");
        let binding = binding.parse::<u32>().expect(rt, "a binding");
        bindings.push(at(group, binding)).expect(rt, "memory");
    }
    bindings
}

/// The positions of a text as `-, 0`.
fn positions(rt: &impl Abort, alloc: Global, text: &str) -> Vec<Option<usize>> {
    let mut positions = Vec::new(alloc);
    if text == "nothing" {
        return positions;
    }
    for part in text.split(", ") {
        let position = match part {
            "-" => None,
            _ => Some(part.parse::<usize>().expect(rt, "a position")),
        };
        positions.push(position).expect(rt, "memory");
    }
    positions
}

#[test]
fn firsts_of_few(rt: HostRuntime) {
    let alloc = rt.alloc();
    for row in FIRSTS.lines() {
        let (question, wanted) = asked(&rt, row);
        let bindings = bindings(&rt, alloc, question);
        let firsts = first_at_binding(alloc, &bindings).expect(&rt, "memory");
        assert_row(&rt, row, firsts, positions(&rt, alloc, wanted));
        drop(bindings);
    }
}

// Of seven groups and eleven bindings, in turn.
#[test]
fn firsts_of_many(rt: HostRuntime) {
    let alloc = rt.alloc();
    let mut bindings = Vec::new(alloc);
    for i in 0..1000 {
        bindings.push(at(6 - i % 7, i % 11)).expect(&rt, "memory");
    }
    let firsts = first_at_binding(alloc, bindings.as_slice()).expect(&rt, "memory");
    assert_same(&rt, firsts.len(), 1000);
    for (i, first) in firsts.iter().enumerate() {
        let wanted = (i >= 77).then_some(i % 77);
        assert_same(&rt, (i, *first), (i, wanted));
    }
    drop((bindings, firsts));
}

/// The seven declarations of which entry points use some; two have no binding.
const DECLARED: [Option<Binding>; 7] = [
    Some(Binding {
        group: 0,
        binding: 1,
    }),
    Some(Binding {
        group: 1,
        binding: 0,
    }),
    None,
    Some(Binding {
        group: 0,
        binding: 1,
    }),
    None,
    Some(Binding {
        group: 0,
        binding: 1,
    }),
    Some(Binding {
        group: 1,
        binding: 0,
    }),
];

/// Declarations that are used, and the pairs at one binding among them.
const PAIRS: &str = "\
    pairs_of_what_is_used: nothing = nothing
    pairs_of_what_is_used: 0 1 2 = nothing
    pairs_of_what_is_used: 2 4 = nothing
    pairs_of_what_is_used: 0 3 = 0 3
    pairs_of_what_is_used: 1 2 3 4 5 = 3 5
    pairs_of_what_is_used: 3 0 = 3 0
    pairs_with_the_first_of_many: 0 1 2 3 4 5 6 = 0 3, 0 5, 1 6
    pairs_with_the_first_of_many: 0 1 5 6 3 = 0 5, 1 6, 0 3
    pairs_of_no_declarations: 7 0 18446744073709551615 3 8 = 0 3";

/// The pairs of a text as `0 3, 0 5`.
fn pairs(rt: &impl Abort, alloc: Global, text: &str) -> Vec<BindingPair> {
    let mut pairs = Vec::new(alloc);
    if text == "nothing" {
        return pairs;
    }
    for part in text.split(", ") {
        let (first, later) = parted(rt, part, " ");
        let first = first.parse::<usize>().expect(rt, "a position");
        let later = later.parse::<usize>().expect(rt, "a position");
        pairs
            .push(BindingPair { first, later })
            .expect(rt, "memory");
    }
    pairs
}

#[test]
fn pairs_of_what_is_used(rt: HostRuntime) {
    let alloc = rt.alloc();
    for row in PAIRS.lines() {
        let (question, wanted) = asked(&rt, row);
        let used = numbers(&rt, alloc, question);
        let found = pairs_at_binding(alloc, &DECLARED, &used).expect(&rt, "memory");
        assert_row(&rt, row, found, pairs(&rt, alloc, wanted));
        drop(used);
    }
}

#[test]
fn pairs_of_no_declarations(rt: HostRuntime) {
    let pairs = pairs_at_binding(rt.alloc(), &[], &[0, 1]).expect(&rt, "memory");
    assert!(&rt; pairs.is_empty());
    drop(pairs);
}

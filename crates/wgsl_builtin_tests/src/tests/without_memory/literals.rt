//! Literals of one type: builtin functions take them as they are, and answer literals.

use crate::tests::builtins::Three::{Clamp, Select};
use crate::tests::builtins::Two::{Dot, Max, Min};
use crate::tests::builtins::{Three, Two, of_three, of_two};
use crate::tests::rows::{literal_of, parted};
use std::alloc::Global;
use std::process::Abort;
use wgsl_rules::ShaderStage::Const;
use wgsl_samples::operands::vector;
use wgsl_scalar::LiteralInstance::Bool;
use wgsl_scalar::{BuiltinReason, Error, LiteralInstance};
use wgsl_value_builtins::{insertBits, select};
use wgsl_values::Instance;

/// The rows, in memory of their own.
fn rows_of(rt: &impl Abort, alloc: Global, rows: &str) -> String {
    made!(rt; String::from_str(alloc, rows))
}

/// The literal, or the reason of a refusal by `Builtin`.
fn answer(rt: &impl Abort, text: &str) -> Result<Instance, Error> {
    match text {
        "NotNumber" => Err(Error::Builtin(BuiltinReason::NotNumber)),
        "NotVector" => Err(Error::Builtin(BuiltinReason::NotVector)),
        "NotBool" => Err(Error::Builtin(BuiltinReason::NotBool)),
        "NotI32OrU32" => Err(Error::Builtin(BuiltinReason::NotI32OrU32)),
        _ => Ok(Instance::from(literal_of(rt, text))),
    }
}

fn assert_answer(rt: &impl Abort, row: &str, found: Result<Instance, Error>, wanted: &str) {
    let wanted = answer(rt, wanted);
    assert!(rt; found == wanted, "{row}");
    drop((found, wanted));
}

/// Both literals of `1i; 2i`.
fn two(rt: &impl Abort, text: &str) -> (LiteralInstance, LiteralInstance) {
    let (a, b) = parted(rt, text, "; ");
    (literal_of(rt, a), literal_of(rt, b))
}

/// Asserts each row: `literal; literal -> answer`.
fn assert_of_two(rt: &impl Abort, alloc: Global, function: Two, rows: &str) {
    let rows = rows_of(rt, alloc, rows);
    for row in rows.as_str().lines() {
        let (literals, wanted) = parted(rt, row, " -> ");
        let (a, b) = two(rt, literals);
        let (a, b) = (Instance::from(a), Instance::from(b));
        let answer = of_two(alloc, function, &a, &b);
        assert_answer(rt, row, answer, wanted);
        drop((a, b));
    }
    drop(rows);
}

#[test]
fn functions_of_two_literals(rt: HostRuntime) {
    let alloc = rt.alloc();
    let rows = "\
        1i; 2i -> 1i
        4294967295u; 1u -> 1u
        -2; 3 -> -2
        -5li; 3li -> -5li
        true; false -> NotNumber";
    assert_of_two(&rt, alloc, Min, rows);
    let rows = "\
        -1i; -3i -> -1i
        4294967295u; 1u -> 4294967295u
        -2; 3 -> 3
        5lu; 3lu -> 5lu";
    assert_of_two(&rt, alloc, Max, rows);
    assert_of_two(&rt, alloc, Dot(Const), "3i; 4i -> NotVector");
}

/// Asserts each row: `literal; literal; literal -> answer`.
fn assert_of_three(rt: &impl Abort, alloc: Global, function: Three, rows: &str) {
    let rows = rows_of(rt, alloc, rows);
    for row in rows.as_str().lines() {
        let (literals, wanted) = parted(rt, row, " -> ");
        let (a, others) = parted(rt, literals, "; ");
        let (b, c) = two(rt, others);
        let a = Instance::from(literal_of(rt, a));
        let (b, c) = (Instance::from(b), Instance::from(c));
        let answer = of_three(alloc, function, &a, &b, &c);
        assert_answer(rt, row, answer, wanted);
        drop((a, b, c));
    }
    drop(rows);
}

#[test]
fn functions_of_three_literals(rt: HostRuntime) {
    let alloc = rt.alloc();
    let rows = "\
        300i; 0i; 255i -> 255i
        -9li; 2li; 3li -> 2li
        7; 0; 9 -> 7";
    assert_of_three(&rt, alloc, Clamp, rows);
    // the lesser of high and the greater of e and low
    let rows = "\
        1u; 10u; 3u -> 3u
        true; true; true -> NotNumber";
    assert_of_three(&rt, alloc, Clamp, rows);
    let rows = "\
        1i; 2i; false -> 1i
        1lu; 2lu; true -> 2lu
        true; false; true -> false
        1; 2; 1 -> NotBool";
    assert_of_three(&rt, alloc, Select, rows);
}

/// Asserts the row: `literal; literal; offset; count -> answer`.
fn assert_inserted(rt: &impl Abort, alloc: Global, row: &str) {
    let (values, wanted) = parted(rt, row, " -> ");
    let (e, others) = parted(rt, values, "; ");
    let (newbits, field) = parted(rt, others, "; ");
    let e = Instance::from(literal_of(rt, e));
    let newbits = Instance::from(literal_of(rt, newbits));
    let (offset, count) = two(rt, field);
    let (offset, count) = (Instance::from(offset), Instance::from(count));
    let answer = insertBits(alloc, &e, &newbits, &offset, &count);
    assert_answer(rt, row, answer, wanted);
    drop((e, newbits, offset, count));
}

#[test]
fn bits_inserted_into_a_literal(rt: HostRuntime) {
    let alloc = rt.alloc();
    let rows = "\
        0u; 5u; 3u; 2u -> 8u
        255u; 0u; 4u; 32u -> 15u
        0i; -1i; 31u; 1u -> -2147483648i
        -1i; 0i; 0u; 4u -> -16i
        0; 5; 3u; 2u -> NotI32OrU32";
    let rows = rows_of(&rt, alloc, rows);
    for row in rows.as_str().lines() {
        assert_inserted(&rt, alloc, row);
    }
    drop(rows);
}

#[test]
fn literals_are_not_selected_by_component(rt: HostRuntime) {
    let alloc = rt.alloc();
    let bools = made!(&rt; vector(alloc, &[Bool(true), Bool(false)])).expect(&rt, "a vector");
    let (f, t, bools) = (
        Instance::from(1i32),
        Instance::from(2i32),
        Instance::from(bools),
    );
    let answer = select(alloc, &f, &t, &bools);
    assert_answer(&rt, "select", answer, "NotVector");
    drop((f, t, bools));
}

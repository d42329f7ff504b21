//! Long lists of atomics, writes and reads through overlapping references, against a plain memory of words: in a cell
//! of bytes, and in one whose type has no layout.

use crate::tests::answers::made;
use crate::tests::atomics::Change;
use crate::tests::atomics::calls::{changed, compared, loaded, stored};
use crate::tests::atomics::memory::{Memory, at, pointer};
use crate::tests::atomics::plain::{Given, Numbers, Plain, number};
use std::alloc::Global;
use std::fmt::Debug;
use std::process::Abort;
use wgsl_rules::{StructType, Type};
use wgsl_samples::atomics::{atomic, counters, flagged, totals};
use wgsl_samples::operands::Sample;
use wgsl_samples::types::{member, struct_type};
use wgsl_scalar::{Error, LiteralInstance};
use wgsl_store::{References, Store};
use wgsl_values::{Instance, RefInstance, StructInstance};

/// What a call answers.
#[derive(Debug, PartialEq, Eq, Drop)]
enum Answer {
    Value(Instance),
    Done,
    /// The number of the error.
    Refused(u8),
}

const WRITE_REF_TYPE: Answer = Answer::Refused(7);

const BINARY: Answer = Answer::Refused(13);

const PARAM_TYPE: Answer = Answer::Refused(22);

const BUILTIN: Answer = Answer::Refused(23);

fn refused(error: Error) -> Answer {
    let number = error.number();
    drop(error);
    Answer::Refused(number)
}

fn answered(answer: Result<Instance, Error>) -> Answer {
    match answer {
        Ok(value) => Answer::Value(value),
        Err(error) => refused(error),
    }
}

fn done(answer: Result<(), Error>) -> Answer {
    match answer {
        Ok(()) => Answer::Done,
        Err(error) => refused(error),
    }
}

/// Asserts that the values are equal.
fn assert_same<T: PartialEq + Debug + Drop>(rt: &impl Abort, value: T, wanted: T) {
    assert_eq!(rt; value, wanted);
}

/// The value of the number of the word there.
fn value(at: usize, word: u32) -> Answer {
    Answer::Value(Instance::from(number(at, word)))
}

fn assert_load(rt: &impl Abort, alloc: Global, memory: &Memory, plain: &Plain, i: usize) {
    let p = pointer(rt, alloc, &memory.words, i);
    let answer = answered(loaded(rt, alloc, &memory.store, &p));
    drop(p);
    assert_same(rt, answer, value(i, plain.word(i)));
}

fn assert_store(
    rt: &impl Abort,
    alloc: Global,
    memory: &mut Memory,
    plain: &mut Plain,
    i: usize,
    given: Given,
) {
    let p = pointer(rt, alloc, &memory.words, i);
    let v = made(rt, alloc, Sample::One(given.literal(i)));
    let answer = done(stored(rt, alloc, &mut memory.store, &p, &v));
    drop((p, v));
    let wanted = match given.word() {
        Some(word) => {
            plain.put(i, word);
            Answer::Done
        }
        None => PARAM_TYPE,
    };
    assert_same(rt, answer, wanted);
}

/// How the change refuses a number of the other kind.
fn refusal(change: Change) -> Answer {
    match change {
        Change::Max | Change::Min => BUILTIN,
        Change::Exchange => PARAM_TYPE,
        Change::Add | Change::Sub | Change::And | Change::Or | Change::Xor => BINARY,
    }
}

fn assert_change(
    rt: &impl Abort,
    alloc: Global,
    memory: &mut Memory,
    plain: &mut Plain,
    i: usize,
    (change, given): (Change, Given),
) {
    let p = pointer(rt, alloc, &memory.words, i);
    let v = made(rt, alloc, Sample::One(given.literal(i)));
    let answer = answered(changed(rt, alloc, change, &mut memory.store, &p, &v));
    drop((p, v));
    let wanted = match given.word() {
        Some(word) => value(i, plain.change(i, change, word)),
        None => refusal(change),
    };
    assert_same(rt, answer, wanted);
}

/// struct __atomic_compare_exchange_result { old_value, exchanged: bool }
fn exchange_type(rt: &impl Abort, alloc: Global, number: Type) -> StructType {
    let old = member(alloc, "old_value", number, None).expect(rt, "memory");
    let exchanged = member(alloc, "exchanged", Type::Bool, None).expect(rt, "memory");
    let members = vec![in alloc; old, exchanged].expect(rt, "memory");
    struct_type(alloc, "__atomic_compare_exchange_result", members).expect(rt, "memory")
}

/// What a compare and exchange answers.
fn exchange_result(
    rt: &impl Abort,
    alloc: Global,
    old: LiteralInstance,
    exchanged: bool,
) -> Answer {
    let ty = exchange_type(rt, alloc, old.literal_ty());
    let members = vec![in alloc; Instance::from(old), Instance::from(exchanged)];
    let members = members.expect(rt, "memory");
    assert!(rt; StructInstance::can_make(&ty, &members));
    Answer::Value(Instance::from(StructInstance::new(ty, members)))
}

/// What a compare and exchange of the word there answers.
fn exchanged(
    rt: &impl Abort,
    alloc: Global,
    plain: &mut Plain,
    i: usize,
    comparand: Given,
    new: Given,
) -> Answer {
    let old = plain.word(i);
    match (comparand.word(), new.word()) {
        (Some(comparand), Some(new)) => {
            if old == comparand {
                plain.put(i, new);
            }
            exchange_result(rt, alloc, number(i, old), old == comparand)
        }
        _ => PARAM_TYPE,
    }
}

fn assert_exchange(
    rt: &impl Abort,
    alloc: Global,
    memory: &mut Memory,
    plain: &mut Plain,
    i: usize,
    (comparand, new): (Given, Given),
) {
    let p = pointer(rt, alloc, &memory.words, i);
    let c = made(rt, alloc, Sample::One(comparand.literal(i)));
    let n = made(rt, alloc, Sample::One(new.literal(i)));
    let answer = answered(compared(rt, alloc, &mut memory.store, &p, &c, &n));
    drop((p, c, n));
    let wanted = exchanged(rt, alloc, plain, i, comparand, new);
    assert_same(rt, answer, wanted);
}

fn read(rt: &impl Abort, alloc: Global, store: &Store, reference: &RefInstance) -> Answer {
    assert!(rt; store.holds(reference));
    answered(reference.read(alloc, store))
}

fn write(
    rt: &impl Abort,
    alloc: Global,
    store: &mut Store,
    reference: &RefInstance,
    value: Instance,
) -> Answer {
    assert!(rt; store.holds(reference));
    assert!(rt; value.is_storable());
    assert!(rt; store.holds_value(&value));
    done(reference.write(alloc, store, value))
}

/// The atomic of the number.
fn atomic_of(rt: &impl Abort, alloc: Global, number: LiteralInstance) -> Instance {
    let atomic = atomic(alloc, number).expect(rt, "memory");
    atomic.expect(rt, "an atomic")
}

/// The totals of a structure, the first of which are runtime-sized.
fn totals_of(rt: &impl Abort, alloc: Global, structure: usize, numbers: &[i32]) -> Instance {
    let totals = totals(alloc, numbers, structure == 0).expect(rt, "memory");
    totals.expect(rt, "totals")
}

fn assert_read(rt: &impl Abort, alloc: Global, memory: &Memory, plain: &Plain, i: usize) {
    let answer = read(rt, alloc, &memory.store, at(rt, &memory.words, i));
    let wanted = atomic_of(rt, alloc, number(i, plain.word(i)));
    assert_same(rt, answer, Answer::Value(wanted));
}

/// Writes the value, and asserts what is answered.
fn assert_written(
    rt: &impl Abort,
    alloc: Global,
    memory: &mut Memory,
    i: usize,
    value: Instance,
    wanted: Answer,
) {
    let reference = at(rt, &memory.words, i);
    let answer = write(rt, alloc, &mut memory.store, reference, value);
    assert_same(rt, answer, wanted);
}

/// Writes the atomic of an argument that is no abstract number.
fn assert_write(
    rt: &impl Abort,
    alloc: Global,
    memory: &mut Memory,
    plain: &mut Plain,
    i: usize,
    given: Given,
) {
    match given {
        Given::Own(word) => {
            plain.put(i, word);
            let value = atomic_of(rt, alloc, number(i, word));
            assert_written(rt, alloc, memory, i, value, Answer::Done);
        }
        Given::Other(_) => {
            let value = atomic_of(rt, alloc, given.literal(i));
            assert_written(rt, alloc, memory, i, value, WRITE_REF_TYPE);
        }
        Given::Abstract(word) => {
            let value = Instance::from(number(i, word));
            assert_written(rt, alloc, memory, i, value, WRITE_REF_TYPE);
        }
    }
}

/// Reads the totals of a structure, and writes them with each changed by a step.
fn assert_totals(
    rt: &impl Abort,
    alloc: Global,
    memory: &mut Memory,
    plain: &mut Plain,
    structure: usize,
    step: u32,
) {
    let reference = at(rt, &memory.totals, structure);
    let answer = read(rt, alloc, &memory.store, reference);
    let wanted = totals_of(rt, alloc, structure, &plain.totals(structure));
    assert_same(rt, answer, Answer::Value(wanted));
    plain.change_totals(structure, step);
    let changed = totals_of(rt, alloc, structure, &plain.totals(structure));
    let answer = write(rt, alloc, &mut memory.store, reference, changed);
    assert_same(rt, answer, Answer::Done);
}

/// Makes one call on both, and asserts that they answer the same.
fn assert_step(
    rt: &impl Abort,
    alloc: Global,
    memory: &mut Memory,
    plain: &mut Plain,
    numbers: &mut Numbers,
) {
    let i = numbers.below(plain.words.len());
    match numbers.below(8) {
        0 => assert_load(rt, alloc, memory, plain, i),
        1 => assert_read(rt, alloc, memory, plain, i),
        2 => assert_write(rt, alloc, memory, plain, i, numbers.given()),
        3 => assert_store(rt, alloc, memory, plain, i, numbers.given()),
        4 => assert_totals(rt, alloc, memory, plain, i % 2, numbers.word()),
        5 => {
            let arguments = (numbers.given(), numbers.given());
            assert_exchange(rt, alloc, memory, plain, i, arguments);
        }
        _ => {
            let arguments = (numbers.change(), numbers.given());
            assert_change(rt, alloc, memory, plain, i, arguments);
        }
    }
}

/// Makes a list of calls on both, in two structures with the count 9 and the totals 1 to 5.
fn assert_run(rt: &impl Abort, alloc: Global, seed: u64) {
    let first = counters(alloc, 9, &[1, 2, 3, 4, 5]).expect(rt, "memory");
    let second = flagged(alloc, 9, &[1, 2, 3, 4, 5]).expect(rt, "memory");
    let mut memory = Memory::new(alloc);
    memory.add(rt, alloc, first.expect(rt, "a structure"));
    memory.add(rt, alloc, second.expect(rt, "a structure"));
    let words = vec![in alloc; 9, 1, 2, 3, 4, 5, 9, 1, 2, 3, 4, 5].expect(rt, "memory");
    let mut plain = Plain { words };
    let mut numbers = Numbers { state: seed };
    for _ in 0..2000 {
        assert_step(rt, alloc, &mut memory, &mut plain, &mut numbers);
    }
    drop((memory, plain));
}

#[test]
fn atomics_answer_as_a_plain_memory(rt: HostRuntime) {
    let alloc = rt.alloc();
    for seed in [1, 2, 3, 4, 5] {
        assert_run(&rt, alloc, seed);
    }
}

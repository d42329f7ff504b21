//! Calls of the builtin functions of memory, each of which tests its conditions first.

ghost use Rattle.wgsl_rules.specs.Values.{IsWellFormed};
ghost use Rattle.wgsl_types.specs.Atomics.{KeepsPointer};
ghost use Rattle.wgsl_values.specs.View.{value_of};

use crate::tests::answers::made;
use crate::tests::atomics::{Change, OnMemory};
use std::alloc::Global;
use std::process::Abort;
use wgsl_scalar::Error;
use wgsl_store::Store;
use wgsl_types::{
    arrayLength, atomicAdd, atomicAnd, atomicCompareExchangeWeak, atomicExchange, atomicLoad,
    atomicMax, atomicMin, atomicOr, atomicStore, atomicSub, atomicXor,
};
use wgsl_values::Instance;

/// Ends the test where the store does not keep what the pointer points to.
fn keep(rt: &impl Abort, store: &Store, p: &Instance)
    ensures { KeepsPointer store.now (value_of p.now) }
{
    match p {
        Instance::Ptr(pointer) => assert!(rt; store.holds(pointer.ptr())),
        Instance::Literal(_) | Instance::Struct(_) | Instance::Array(_) => {}
        Instance::Vec(_) | Instance::Mat(_) | Instance::Ref(_) => {}
        Instance::Atomic(_) | Instance::Deferred(_) => {}
    }
}

/// The change through the pointer.
pub(crate) fn changed(
    rt: &impl Abort,
    alloc: Global,
    change: Change,
    store: &mut Store,
    p: &Instance,
    v: &Instance,
) -> Result<Instance, Error>
    requires { IsWellFormed (value_of v.now) }
{
    keep(rt, store, p);
    match change {
        Change::Add => atomicAdd(alloc, store, p, v),
        Change::Sub => atomicSub(alloc, store, p, v),
        Change::Max => atomicMax(alloc, store, p, v),
        Change::Min => atomicMin(alloc, store, p, v),
        Change::And => atomicAnd(alloc, store, p, v),
        Change::Or => atomicOr(alloc, store, p, v),
        Change::Xor => atomicXor(alloc, store, p, v),
        Change::Exchange => atomicExchange(alloc, store, p, v),
    }
}

pub(crate) fn stored(
    rt: &impl Abort,
    alloc: Global,
    store: &mut Store,
    p: &Instance,
    v: &Instance,
) -> Result<(), Error>
    requires { IsWellFormed (value_of v.now) }
{
    keep(rt, store, p);
    atomicStore(alloc, store, p, v)
}

pub(super) fn compared(
    rt: &impl Abort,
    alloc: Global,
    store: &mut Store,
    p: &Instance,
    comparand: &Instance,
    new: &Instance,
) -> Result<Instance, Error>
    requires comparand { IsWellFormed (value_of comparand.now) }
    requires new { IsWellFormed (value_of new.now) }
{
    keep(rt, store, p);
    atomicCompareExchangeWeak(alloc, store, p, comparand, new)
}

pub(crate) fn loaded(
    rt: &impl Abort,
    alloc: Global,
    store: &Store,
    p: &Instance,
) -> Result<Instance, Error> {
    keep(rt, store, p);
    atomicLoad(alloc, store, p)
}

pub(crate) fn length(
    rt: &impl Abort,
    alloc: Global,
    store: &Store,
    p: &Instance,
) -> Result<Instance, Error> {
    keep(rt, store, p);
    arrayLength(alloc, store, p)
}

/// The answer of a function that answers a value.
fn valued(answer: Result<Instance, Error>) -> Result<Option<Instance>, Error> {
    match answer {
        Ok(value) => Ok(Some(value)),
        Err(error) => Err(error),
    }
}

/// What the function answers; none where it answers nothing.
pub(super) fn called(
    rt: &impl Abort,
    alloc: Global,
    function: OnMemory,
    store: &mut Store,
    p: &Instance,
) -> Result<Option<Instance>, Error> {
    match function {
        OnMemory::Length => valued(length(rt, alloc, store, p)),
        OnMemory::Load => valued(loaded(rt, alloc, store, p)),
        OnMemory::Store(v) => {
            let v = made(rt, alloc, v);
            let answer = stored(rt, alloc, store, p, &v);
            drop(v);
            match answer {
                Ok(()) => Ok(None),
                Err(error) => Err(error),
            }
        }
        OnMemory::Change(change, v) => {
            let v = made(rt, alloc, v);
            let answer = changed(rt, alloc, change, store, p, &v);
            drop(v);
            valued(answer)
        }
        OnMemory::CompareExchange(comparand, new) => {
            let comparand = made(rt, alloc, comparand);
            let new = made(rt, alloc, new);
            let answer = compared(rt, alloc, store, p, &comparand, &new);
            drop((comparand, new));
            valued(answer)
        }
    }
}

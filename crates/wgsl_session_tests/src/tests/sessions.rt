//! Calls on sessions and references, each of which tests its condition first.

ghost use Rattle.std.specs.Prelude.{map};
ghost use Rattle.wgsl_session.specs.Calls.{AreSoundCalls, IsSoundCall};
ghost use Rattle.wgsl_session.specs.View.{call_of};

use std::alloc::Global;
use std::process::Abort;
use wgsl_scalar::Error;
use wgsl_session::{Call, Fault, Reply, Session};
use wgsl_store::{References, Store};
use wgsl_values::{Instance, RefInstance};

/// The call, which a session takes.
fn sound(rt: &impl Abort, call: Call) -> Call
    ensures { IsSoundCall (call_of result) }
{
    assert!(rt; call.is_sound());
    call
}

/// Puts the call behind the others.
#[tactic(auto, using(crate::proofs::SoundCalls::sound_pushed))]
pub(super) fn add_call(rt: &impl Abort, calls: &mut Vec<Call>, call: Call)
    requires { AreSoundCalls (map call_of calls.old.items) }
    ensures { AreSoundCalls (map call_of calls.new.items) }
{
    let call = sound(rt, call);
    calls.push(call).expect(rt, "memory");
}

/// The answer of a call, whose condition is tested first.
pub(super) fn call(rt: &impl Abort, session: &mut Session, call: Call) -> Result<Reply, Fault> {
    assert!(rt; call.is_sound());
    session.call(call)
}

/// What the reference names.
pub(super) fn read(
    rt: &impl Abort,
    alloc: Global,
    store: &Store,
    reference: &RefInstance,
) -> Result<Instance, Error> {
    assert!(rt; store.holds(reference));
    reference.read(alloc, store)
}

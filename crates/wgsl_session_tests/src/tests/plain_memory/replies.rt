//! The calls and answers of the plain memory as those of a session.

use crate::tests::plain_memory::memory::{Answer, Call, Memory, Refusal};
use crate::tests::plain_memory::values::member_name;
use std::alloc::Global;
use std::process::Abort;
use wgsl_scalar::Error;
use wgsl_session as session;
use wgsl_session::{Fault, Reply};

impl Memory {
    /// The call on a session.
    pub(super) fn call(&self, rt: &impl Abort, alloc: Global, call: &Call) -> session::Call {
        match call {
            Call::New(content, space, access) => {
                let value = self.shapes.value(rt, alloc, content);
                session::Call::New(value, *space, *access)
            }
            Call::NewOf(handle, space, access) => session::Call::NewOf(*handle, *space, *access),
            Call::Member(handle, name) => {
                session::Call::Member(*handle, member_name(rt, alloc, *name))
            }
            Call::Index(handle, i) => session::Call::Index(*handle, *i),
            Call::Read(handle) => session::Call::Read(*handle),
            Call::Write(handle, content) => {
                session::Call::Write(*handle, self.shapes.value(rt, alloc, content))
            }
            Call::Replace(handle, content) => {
                session::Call::Replace(*handle, self.shapes.value(rt, alloc, content))
            }
            Call::Copy(from, to) => session::Call::Copy(*from, *to),
            Call::Load(handle) => session::Call::Load(*handle),
        }
    }

    /// The refusal with its types and its name.
    fn fault(&self, rt: &impl Abort, alloc: Global, refusal: Refusal) -> Fault {
        let shapes = &self.shapes;
        Fault::Of(match refusal {
            Refusal::NoHandle => return Fault::NoHandle,
            Refusal::NotRead => Error::NotRead,
            Refusal::NotWrite => Error::NotWrite,
            Refusal::NotReadWrite => Error::NotReadWrite,
            Refusal::Component(shape, name) => {
                let name = member_name(rt, alloc, name);
                Error::Component(shapes.ty(rt, alloc, shape), name)
            }
            Refusal::NotIndexable(shape) => Error::NotIndexable(shapes.ty(rt, alloc, shape)),
            Refusal::OutOfBounds(i, shape, count) => {
                Error::OutOfBounds(i, shapes.ty(rt, alloc, shape), count)
            }
            Refusal::WriteRefType(given, named) => {
                let given = shapes.ty(rt, alloc, given);
                Error::WriteRefType(given, shapes.ty(rt, alloc, named))
            }
        })
    }

    /// What a session has to answer.
    pub(super) fn reply(
        &self,
        rt: &impl Abort,
        alloc: Global,
        answer: &Result<Answer, Refusal>,
    ) -> Result<Reply, Fault> {
        match answer {
            Ok(Answer::Handle(handle)) => Ok(Reply::Handle(*handle)),
            Ok(Answer::Value(content)) => Ok(Reply::Value(self.value(rt, alloc, content))),
            Ok(Answer::Done) => Ok(Reply::Done),
            Err(refusal) => Err(self.fault(rt, alloc, *refusal)),
        }
    }
}

//! Calls on a memory by handles, and what they answer (WGSL: memory views; load rule; assignment statement).

ghost use Rattle.std.specs.Prelude.{◌≡◌, ◌↔◌, IfOk, IsTrue};
ghost use Rattle.wgsl_session.specs.Calls.{IsSoundCall};
ghost use Rattle.wgsl_session.specs.View.{call_of, fault_of, reason_of, reply_of};

use crate::plain::is_plain;
use std::alloc::{AllocError, Global};
use wgsl_rules::{AccessMode, AddressSpace};
use wgsl_scalar::Error;
use wgsl_values::Instance;

/// A call on the memory of a [`crate::Session`]. A handle is a number, counted from 0, and names a
/// reference; a handle that is not there is refused first, with [`Fault::NoHandle`]. A value that is
/// handed in may be stored, and holds no reference or pointer, as [`Call::is_sound`] tests.
#[derive(Debug, PartialEq, Eq, Drop)]
pub enum Call {
    /// Makes a cell with the value, and a handle of a reference to the whole of it, with this address
    /// space and access mode. It has no refusal of its own.
    New(Instance, AddressSpace, AccessMode),
    /// Makes a cell with the reference of the handle, and a handle of a reference to the whole of it,
    /// with this address space and access mode. It has no refusal of its own.
    NewOf(usize, AddressSpace, AccessMode),
    /// Makes a handle of the first member of the name, in what the handle names. Refusals in order:
    /// `NotRead` without read access, `Component` where there is no structure or no such member.
    Member(usize, String),
    /// Makes a handle of the element, component or column of the index, in what the handle names.
    /// Refusals in order: `NotRead` without read access, `NotIndexable` where there is no array, vector
    /// or matrix, `OutOfBounds` past its end.
    Index(usize, usize),
    /// Reads what the handle names. Refused with `NotRead` without read access.
    Read(usize),
    /// Writes the value to what the handle names. Refusals in order: `NotWrite` without write access,
    /// `WriteRefType` where the value is of another type, or has other paths, as a runtime-sized array
    /// of another length has. One that is accepted takes no memory.
    Write(usize, Instance),
    /// Writes the value to what the handle names, and answers the old value; write access alone is
    /// needed. Refusals in order: `NotReadWrite` without it, `WriteRefType` as in a write.
    Replace(usize, Instance),
    /// Copies what the first handle names to what the second names, as it stood before. It is refused as a
    /// read of the first, then as a write to the second. One that is accepted takes no memory where both stand in
    /// cells of bytes.
    Copy(usize, usize),
    /// Reads what the handle names, and reads on while the value is a reference (WGSL: load rule).
    /// Refused with `NotRead` where one of these references has no read access.
    Load(usize),
}

/// What an accepted call answers.
#[derive(Debug, PartialEq, Eq, Drop)]
pub enum Reply {
    /// The new handle.
    Handle(usize),
    /// The value that was read, or the old value.
    Value(Instance),
    /// The value is written.
    Done,
}

/// Why a call is refused; nothing has changed then.
#[derive(Debug, PartialEq, Eq, Drop)]
pub enum Fault {
    /// There is no handle of a number that the call names.
    NoHandle,
    /// The reference of a handle refuses it, or memory could not be had.
    Of(Error),
}

impl From<Error> for Fault {
    ghost use Rattle.std.specs.Prelude.{◌≡◌};
    ghost use Rattle.wgsl_session.specs.declared.call.Fault.TheVariants.{Of};

    ghost from_gives = { λ error fault. fault ≡ Of error };

    fn from(error: Error) -> Fault {
        Fault::Of(error)
    }
}

impl From<AllocError> for Fault {
    ghost use Rattle.std.specs.Prelude.{◌≡◌};
    ghost use Rattle.wgsl_scalar.specs.declared.error.Error.TheVariants.{Memory};
    ghost use Rattle.wgsl_session.specs.declared.call.Fault.TheVariants.{Of};

    ghost from_gives = { λ _ fault. fault ≡ Of Memory };

    fn from(_error: AllocError) -> Fault {
        Fault::Of(Error::Memory)
    }
}

impl Call {
    /// Whether a session takes the call: a value that it hands in may be stored, and holds no
    /// reference or pointer. It takes no memory.
    /// It calls itself for each level of the value: keep to 4,095 within a stack of 8 MiB.
    pub fn is_sound(&self) -> bool
        ensures { IsTrue result ↔ IsSoundCall (call_of self.now) }
    {
        match self {
            Call::New(value, _, _) => is_plain(value),
            Call::Write(_, value) => is_plain(value),
            Call::Replace(_, value) => is_plain(value),
            Call::NewOf(_, _, _) | Call::Member(_, _) | Call::Index(_, _) => true,
            Call::Read(_) | Call::Copy(_, _) | Call::Load(_) => true,
        }
    }

    /// A copy of the call, in memory of its own, but for structure types that values share already: it shares them.
    /// It calls itself for each level of the value: keep to 4,095 within a stack of 8 MiB.
    pub fn clone(&self, alloc: Global) -> Result<Call, AllocError>
        ensures { IfOk result (λ c. call_of c ≡ call_of self.now) }
    {
        match self {
            Call::New(value, space, access) => Ok(Call::New(value.clone(alloc)?, *space, *access)),
            Call::NewOf(handle, space, access) => Ok(Call::NewOf(*handle, *space, *access)),
            Call::Member(handle, name) => Ok(Call::Member(*handle, name.clone()?)),
            Call::Index(handle, i) => Ok(Call::Index(*handle, *i)),
            Call::Read(handle) => Ok(Call::Read(*handle)),
            Call::Write(handle, value) => Ok(Call::Write(*handle, value.clone(alloc)?)),
            Call::Replace(handle, value) => Ok(Call::Replace(*handle, value.clone(alloc)?)),
            Call::Copy(from, to) => Ok(Call::Copy(*from, *to)),
            Call::Load(handle) => Ok(Call::Load(*handle)),
        }
    }
}

impl Reply {
    /// A copy of the reply, in memory of its own, but for structure types that values share already: it shares them.
    /// It calls itself for each level of the value: keep to 4,095 within a stack of 8 MiB.
    pub fn clone(&self, alloc: Global) -> Result<Reply, AllocError>
        ensures { IfOk result (λ r. reply_of r ≡ reply_of self.now) }
    {
        match self {
            Reply::Handle(handle) => Ok(Reply::Handle(*handle)),
            Reply::Value(value) => Ok(Reply::Value(value.clone(alloc)?)),
            Reply::Done => Ok(Reply::Done),
        }
    }
}

impl Fault {
    /// A copy of the fault, in memory of its own.
    /// It calls itself for each level of the types: keep to 4,095 within a stack of 8 MiB.
    pub fn clone(&self, alloc: Global) -> Result<Fault, AllocError>
        ensures fault { IfOk result (λ f. fault_of f ≡ fault_of self.now) }
        ensures reason { IfOk result (λ f. reason_of f ≡ reason_of self.now) }
    {
        match self {
            Fault::NoHandle => Ok(Fault::NoHandle),
            Fault::Of(error) => Ok(Fault::Of(error.clone(alloc)?)),
        }
    }
}

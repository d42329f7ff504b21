//! A shader's memory behind handles (WGSL: memory views; load rule; assignment statement).

use crate::call::{Call, Fault, Reply};
use std::alloc::{AllocError, Global};
use std::marker::Model;
use std::sync::Arc;
use wgsl_rules::{AccessMode, AddressSpace, Type};
use wgsl_store::{Layout, Loads, References, Store};
use wgsl_values::{Instance, RefInstance};

/// A shader's memory: a store, and the references that handles name. A handle is a number, counted from 0.
///
/// Each reference is kept in the store: its cell is there, and its view leads to a value of its type.
/// Cells and handles live as long as the session.
#[derive(Drop)]
pub struct Session {
    alloc: Global,
    store: Store,
    handles: Vec<RefInstance>,
}

impl Model for Session {
    ghost use Rattle.std.specs.Prelude.{map};
    ghost use Rattle.wgsl_rules.specs.Values.{Val};
    ghost use Rattle.wgsl_session.specs.Calls.{State};
    ghost use Rattle.wgsl_session.specs.Codes.{state_code};
    ghost use Rattle.wgsl_store.specs.Memory.{AllKept};
    ghost use Rattle.wgsl_values.specs.View.{reference_of};

    ghost Value = { State Val };

    ghost coded = { state_code };

    ghost view = { λ s. record { cells = s.store; handles = map reference_of s.handles.items } };

    ghost invariant = { λ s. AllKept s.store (map reference_of s.handles.items) };
}

impl Session {
    ghost use Rattle.std.specs.Prelude.{◌≡◌, [], IfOk, IfSome, IsOk, OnErr, Some, map, option_map, slice_get, string_bytes, true};
    ghost use Rattle.wgsl_rules.specs.Values.{Reference, Val};
    ghost use Rattle.wgsl_rules.specs.View.{type_view};
    ghost use Rattle.wgsl_session.specs.Calls as model;
    ghost use Rattle.wgsl_session.specs.Calls.{
      AreSoundCalls,
      IsAcceptedWrite,
      IsGood,
      IsReached,
      IsRun,
      IsRunTaken,
      IsSoundCall,
      IsStep,
      of_values,
      with_cell,
      with_handle,
    };
    ghost use Rattle.wgsl_session.specs.Flat.{IsFlatRun, IsFlatStep, flat_of};
    ghost use Rattle.wgsl_session.specs.LaidOut.{IsStepOf, IsWriteOf};
    ghost use Rattle.wgsl_session.specs.View.{IsContentReply, answer_of, call_of};
    ghost use Rattle.wgsl_layout.specs.Buffers.{decode};
    ghost use Rattle.wgsl_store.specs.Copies.{in_bytes};
    ghost use Rattle.wgsl_store.specs.Memory.{IsContent, IsKept};
    ghost use Rattle.wgsl_values.specs.View.{reference_of, value_of};

    /// A session without cells and handles; it takes no memory.
    pub fn new(alloc: Global) -> Self
        ensures { result ≡ record { cells = []; handles = [] } }
    {
        Session {
            alloc,
            store: Store::new(alloc),
            handles: Vec::new(alloc),
        }
    }

    /// The cells that the references of the handles lead to.
    pub fn store(&self) -> &Store
        ensures { result.now ≡ self.now.cells }
    {
        &self.store
    }

    /// The reference of the handle, if it is there. It is kept in the store.
    pub fn reference(&self, handle: usize) -> Option<&RefInstance>
        ensures reference { option_map (λ r. reference_of r.now) result ≡ slice_get self.now.handles handle }
        ensures kept { IfSome result (λ r. IsKept self.now.cells (reference_of r.now)) }
    {
        reference_at(&self.handles, handle)
    }

    /// Makes one call, and answers it. The condition: the call is sound, as [`Call::is_sound`] tests.
    /// Refusals in order: `NoHandle` where a handle that it names is not there; then those of [`Call`],
    /// each within [`Fault::Of`]. Want of memory is `Memory` there. After any of these no cell and no
    /// handle has changed, and none is new. A [`Call::Write`] that is accepted takes no memory, nor does a
    /// [`Call::Copy`] that is accepted and whose handles both name parts of cells of bytes, as
    /// [`Store::bytes_of`] tells: neither is ever answered with `Memory`.
    /// It calls itself for each level of a value or type: keep to 4,095 within a stack of 8 MiB, and to 2,047 steps of a
    /// handle that is written through.
    pub fn call(&mut self, call: Call) -> Result<Reply, Fault>
        requires { IsSoundCall (call_of call) }
        ensures step { IsStep self.old (call_of call) self.new (answer_of result) }
        // The same in the memory of bytes that the cells stand for.
        ensures bytes { IsFlatStep (flat_of self.old) (call_of call) (flat_of self.new) (answer_of result) }
        ensures good { IsGood self.new }
        // A write that is accepted is made, whatever memory there is; so is a copy between cells of bytes.
        ensures accepted { IsAcceptedWrite self.old (call_of call) → IsOk result }
        // What is read may be stored again, and is held.
        ensures content { IfOk result (IsContentReply self.new.cells) }
    {
        self.attest();
        self.answer(call)
    }

    /// Makes the calls, in order, and answers one reply for each, as [`Session::call`] does: a call that
    /// is refused changes nothing, and those after it are made. A [`Call::Write`], or a [`Call::Copy`] between
    /// cells of bytes, that is accepted where its turn comes is never answered with `Memory`. The condition: each
    /// call is sound, as [`Call::is_sound`] tests. Room for the replies is asked for first; the only error is that
    /// it is refused, and then no call is made.
    /// It calls itself for each level of a value or type: keep to 4,095 within a stack of 8 MiB, and to 2,047 steps of a
    /// handle that is written through.
    pub fn run(&mut self, calls: Vec<Call>) -> Result<Vec<Result<Reply, Fault>>, AllocError>
        requires { AreSoundCalls (map call_of calls.items) }
        ensures run { IfOk result (λ replies. IsRun self.old (map call_of calls.items) self.new (map answer_of replies.items)) }
        // The same in the memory of bytes that the cells stand for.
        ensures bytes { IfOk result (λ replies. IsFlatRun (flat_of self.old) (map call_of calls.items) (flat_of self.new) (map answer_of replies.items)) }
        ensures good { IsGood self.new }
        // A write that is accepted is made, whatever memory there is; so is a copy between cells of bytes.
        ensures accepted { IfOk result (λ replies. IsRunTaken self.old (map call_of calls.items) self.new (map answer_of replies.items)) }
        ensures err { OnErr result (self.new ≡ self.old) }
    {
        self.attest();
        let mut replies = Vec::with_capacity(self.alloc, calls.len())?;
        for call in calls {
            replies.push(self.call(call)).unwrap();
        }
        Ok(replies)
    }

    /// Makes the call [`Call::New`] with the value of the type that the bytes lay out, as
    /// [`wgsl_store::Buffers::from_buffer`] reads it, and answers its reply; `None`, and nothing is changed, where they
    /// lay out none. The bytes are copied, with zeros for padding, and no value is made of them. The only fault is
    /// `Memory`, within [`Fault::Of`].
    /// It calls itself for each level of the type: keep to 4,095 within a stack of 8 MiB.
    pub fn new_from_bytes(
        &mut self,
        ty: Type,
        bytes: &[u8],
        space: AddressSpace,
        access: AccessMode,
    ) -> Result<Option<Reply>, Fault>
        ensures step { IsStepOf IsStep (λ v. model.new v space access) (decode bytes.now (type_view ty)) self.old self.new result }
        // The same in the memory of bytes that the cells stand for.
        ensures bytes { IsStepOf IsFlatStep (λ v. model.new v space access) (decode bytes.now (type_view ty)) (flat_of self.old) (flat_of self.new) result }
        ensures good { IsGood self.new }
    {
        self.new_sharing(ty, None, bytes, space, access)
    }

    /// As [`Session::new_from_bytes`]; where the layout is that of the type, and one more owner of it can be counted, the
    /// cell shares it with all that have it, and takes no memory for one of its own. Else the layout is passed over.
    /// It calls itself for each level of the type: keep to 4,095 within a stack of 8 MiB.
    pub fn new_sharing(
        &mut self,
        ty: Type,
        layout: Option<&Arc<Layout>>,
        bytes: &[u8],
        space: AddressSpace,
        access: AccessMode,
    ) -> Result<Option<Reply>, Fault>
        ensures step { IsStepOf IsStep (λ v. model.new v space access) (decode bytes.now (type_view ty)) self.old self.new result }
        // The same in the memory of bytes that the cells stand for.
        ensures bytes { IsStepOf IsFlatStep (λ v. model.new v space access) (decode bytes.now (type_view ty)) (flat_of self.old) (flat_of self.new) result }
        ensures good { IsGood self.new }
    {
        self.attest();
        self.make_from_bytes(ty, layout, bytes, space, access)
    }

    /// Makes the call [`Call::Write`] with the value that the bytes lay out in the type of what the handle names, as
    /// [`wgsl_store::Buffers::from_buffer`] reads it, and answers its reply; `None`, and nothing is changed, where they
    /// lay out none. `NoHandle` comes first, and then that there is no value; the other refusals are those of the call.
    /// Where the handle names a part of a cell of bytes, as [`Store::bytes_of`] tells, the numbers are copied, and no
    /// value is made of them: then a write that is accepted takes no memory, and is never answered with `Memory`.
    /// It calls itself for each level of a value or type, and for each step of a handle: keep to 2,047 within a stack of
    /// 8 MiB.
    pub fn write_bytes(&mut self, handle: usize, bytes: &[u8]) -> Result<Option<Reply>, Fault>
        ensures step { IsWriteOf IsStep handle bytes.now self.old.handles self.old self.new result }
        // The same in the memory of bytes that the cells stand for.
        ensures bytes { IsWriteOf IsFlatStep handle bytes.now self.old.handles (flat_of self.old) (flat_of self.new) result }
        ensures good { IsGood self.new }
        ensures accepted { (r : Reference) (v : Val) → slice_get self.old.handles handle ≡ Some r → in_bytes self.old.cells r ≡ true → decode bytes.now r.ty ≡ Some v → IsAcceptedWrite self.old (model.write handle v) → IsOk result }
    {
        self.attest();
        self.write_from_bytes(handle, bytes)
    }

    // Does nothing: its contract says what holds of every session.
    fn attest(&self)
        ensures { IsGood self.now }
    {
        let _ = self.store.len();
        let _ = &self.handles;
    }

    // Makes one call.
    fn answer(&mut self, call: Call) -> Result<Reply, Fault>
        requires { IsSoundCall (call_of call) }
        ensures step { IsStep self.old (call_of call) self.new (answer_of result) }
        ensures accepted { IsAcceptedWrite self.old (call_of call) → IsOk result }
        ensures content { IfOk result (IsContentReply self.new.cells) }
    {
        match call {
            Call::New(value, space, access) => self.make(value, space, access),
            Call::NewOf(handle, space, access) => self.make_of(handle, space, access),
            Call::Member(handle, name) => self.member(handle, name),
            Call::Index(handle, i) => self.index(handle, i),
            Call::Read(handle) => self.read(handle),
            Call::Write(handle, value) => self.write(handle, value),
            Call::Replace(handle, value) => self.replace(handle, value),
            Call::Copy(from, to) => self.copy(from, to),
            Call::Load(handle) => self.load(handle),
        }
    }

    // A cell with the value, and a handle of it.
    fn make(
        &mut self,
        value: Instance,
        space: AddressSpace,
        access: AccessMode,
    ) -> Result<Reply, Fault>
        requires { IsContent self.old.cells (value_of value) }
        ensures step { IsReached (with_cell (of_values self.old.cells) self.old (value_of value) space access) self.old self.new (answer_of result) }
        ensures content { IfOk result (IsContentReply self.new.cells) }
    {
        let handle = self.handles.len();
        self.handles.reserve(1)?;
        let reference: RefInstance = References::new(
            self.alloc,
            &mut self.store,
            value,
            space,
            access,
        )?;
        self.handles.push(reference).unwrap();
        Ok(Reply::Handle(handle))
    }

    // A cell with the value of the type that the bytes lay out, and a handle of it.
    fn make_from_bytes(
        &mut self,
        ty: Type,
        layout: Option<&Arc<Layout>>,
        bytes: &[u8],
        space: AddressSpace,
        access: AccessMode,
    ) -> Result<Option<Reply>, Fault>
        ensures { IsStepOf IsStep (λ v. model.new v space access) (decode bytes.now (type_view ty)) self.old self.new result }
    {
        let handle = self.handles.len();
        self.handles.reserve(1)?;
        let made = self
            .store
            .new_sharing(self.alloc, ty, layout, bytes, space, access)?;
        let Some(reference) = made else {
            return Ok(None);
        };
        self.handles.push(reference).unwrap();
        Ok(Some(Reply::Handle(handle)))
    }

    fn make_of(
        &mut self,
        handle: usize,
        space: AddressSpace,
        access: AccessMode,
    ) -> Result<Reply, Fault>
        ensures step { IsStep self.old (model.new_of handle space access) self.new (answer_of result) }
        ensures content { IfOk result (IsContentReply self.new.cells) }
    {
        let Some(reference) = self.reference(handle) else {
            return Err(Fault::NoHandle);
        };
        let reference = reference.clone(self.alloc)?;
        self.make(Instance::Ref(reference), space, access)
    }

    // A handle of the reference.
    fn add_handle(&mut self, reference: RefInstance) -> Result<Reply, Fault>
        requires { IsKept self.old.cells (reference_of reference) }
        ensures step { IsReached (with_handle self.old self.old.cells (reference_of reference)) self.old self.new (answer_of result) }
        ensures content { IfOk result (IsContentReply self.new.cells) }
    {
        let handle = self.handles.len();
        self.handles.reserve(1)?;
        self.handles.push(reference).unwrap();
        Ok(Reply::Handle(handle))
    }

    fn member(&mut self, handle: usize, name: String) -> Result<Reply, Fault>
        ensures step { IsStep self.old (model.member handle (string_bytes name)) self.new (answer_of result) }
        ensures content { IfOk result (IsContentReply self.new.cells) }
    {
        let Some(reference) = reference_at(&self.handles, handle) else {
            return Err(Fault::NoHandle);
        };
        let made = reference.view_member(self.alloc, &self.store, name)?;
        self.add_handle(made)
    }

    fn index(&mut self, handle: usize, i: usize) -> Result<Reply, Fault>
        ensures step { IsStep self.old (model.index handle i) self.new (answer_of result) }
        ensures content { IfOk result (IsContentReply self.new.cells) }
    {
        let Some(reference) = reference_at(&self.handles, handle) else {
            return Err(Fault::NoHandle);
        };
        let made = reference.view_index(self.alloc, &self.store, i)?;
        self.add_handle(made)
    }

    fn read(&self, handle: usize) -> Result<Reply, Fault>
        ensures step { IsStep self.now (model.read_of handle) self.now (answer_of result) }
        ensures content { IfOk result (IsContentReply self.now.cells) }
    {
        let Some(reference) = reference_at(&self.handles, handle) else {
            return Err(Fault::NoHandle);
        };
        Ok(Reply::Value(reference.read(self.alloc, &self.store)?))
    }

    fn write(&mut self, handle: usize, value: Instance) -> Result<Reply, Fault>
        requires { IsContent self.old.cells (value_of value) }
        ensures step { IsStep self.old (model.write handle (value_of value)) self.new (answer_of result) }
        ensures accepted { IsAcceptedWrite self.old (model.write handle (value_of value)) → IsOk result }
        ensures content { IfOk result (IsContentReply self.new.cells) }
    {
        let Some(reference) = reference_at(&self.handles, handle) else {
            return Err(Fault::NoHandle);
        };
        reference.write(self.alloc, &mut self.store, value)?;
        Ok(Reply::Done)
    }

    // Writes the value that the bytes lay out.
    fn write_from_bytes(&mut self, handle: usize, bytes: &[u8]) -> Result<Option<Reply>, Fault>
        ensures step { IsWriteOf IsStep handle bytes.now self.old.handles self.old self.new result }
        ensures accepted { (r : Reference) (v : Val) → slice_get self.old.handles handle ≡ Some r → in_bytes self.old.cells r ≡ true → decode bytes.now r.ty ≡ Some v → IsAcceptedWrite self.old (model.write handle v) → IsOk result }
    {
        let Some(reference) = reference_at(&self.handles, handle) else {
            return Err(Fault::NoHandle);
        };
        if self.store.write_bytes(self.alloc, reference, bytes)? {
            Ok(Some(Reply::Done))
        } else {
            Ok(None)
        }
    }

    fn replace(&mut self, handle: usize, value: Instance) -> Result<Reply, Fault>
        requires { IsContent self.old.cells (value_of value) }
        ensures step { IsStep self.old (model.replace handle (value_of value)) self.new (answer_of result) }
        ensures content { IfOk result (IsContentReply self.new.cells) }
    {
        let Some(reference) = reference_at(&self.handles, handle) else {
            return Err(Fault::NoHandle);
        };
        let old = reference.read_write(self.alloc, &mut self.store, value)?;
        Ok(Reply::Value(old))
    }

    fn copy(&mut self, from: usize, to: usize) -> Result<Reply, Fault>
        ensures step { IsStep self.old (model.copy from to) self.new (answer_of result) }
        ensures accepted { IsAcceptedWrite self.old (model.copy from to) → IsOk result }
        ensures content { IfOk result (IsContentReply self.new.cells) }
    {
        let Some(source) = reference_at(&self.handles, from) else {
            return Err(Fault::NoHandle);
        };
        let Some(target) = reference_at(&self.handles, to) else {
            return Err(Fault::NoHandle);
        };
        source.copy_to(self.alloc, &mut self.store, target)?;
        Ok(Reply::Done)
    }

    fn load(&self, handle: usize) -> Result<Reply, Fault>
        ensures step { IsStep self.now (model.load_of handle) self.now (answer_of result) }
        ensures content { IfOk result (IsContentReply self.now.cells) }
    {
        let Some(reference) = reference_at(&self.handles, handle) else {
            return Err(Fault::NoHandle);
        };
        let value = reference.read(self.alloc, &self.store)?;
        let loaded = value.loaded(self.alloc, &self.store)?;
        Ok(Reply::Value(loaded))
    }
}

ghost use Rattle.std.specs.Prelude.{◌≡◌, map, option_map, slice_get};
ghost use Rattle.wgsl_values.specs.View.{reference_of};

fn reference_at(handles: &Vec<RefInstance>, handle: usize) -> Option<&RefInstance>
    ensures { option_map (λ r. reference_of r.now) result ≡ slice_get (map reference_of handles.now.items) handle }
{
    handles.get(handle)
}

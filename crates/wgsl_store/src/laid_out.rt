//! Cells and writes of the values that bytes lay out (WGSL: internal layout of values; assignment statement).

use crate::references::{References, misfit_of_part};
use crate::store::Store;
use std::alloc::{AllocError, Global};
use std::sync::Arc;
use wgsl_layout::{BytesWrite, Layout, read_buffer};
use wgsl_rules::{AccessMode, AddressSpace, Type};
use wgsl_scalar::Error;
use wgsl_values::{MemView, RefInstance};

impl Store {
    ghost use Rattle.std.specs.Prelude.{◌≡◌, IfOk, IfSome, IsOk, OnErr, false, option_map, true};
    ghost use Rattle.wgsl_rules.specs.Values.{Reference};
    ghost use Rattle.wgsl_rules.specs.View.{type_view};
    ghost use Rattle.wgsl_scalar.specs.Answers.{Gives};
    ghost use Rattle.wgsl_layout.specs.Buffers.{decode};
    ghost use Rattle.wgsl_store.specs.Copies.{in_bytes};
    ghost use Rattle.wgsl_store.specs.LaidOut.{IsNewOf, left_by, written_of};
    ghost use Rattle.wgsl_store.specs.Memory.{IsKept, IsSound};
    ghost use Rattle.wgsl_values.specs.View.{reference_of};

    /// Makes a cell that holds the value of the type that the bytes lay out, as [`crate::Buffers::from_buffer`] reads
    /// it, and a reference to the whole of it, as [`References::new`] makes them of a value; `None`, and nothing is
    /// changed, where they lay out none. The bytes are copied, with zeros for padding, and no value is made of them.
    /// It calls itself for each level of the type: keep to 4,095 within a stack of 8 MiB.
    pub fn new_from_bytes(
        &mut self,
        alloc: Global,
        ty: Type,
        bytes: &[u8],
        space: AddressSpace,
        access: AccessMode,
    ) -> Result<Option<RefInstance>, AllocError>
        ensures made { IfOk result (λ o. IsNewOf (decode bytes.now (type_view ty)) space access self.old self.new (option_map reference_of o)) }
        ensures err { OnErr result (self.new ≡ self.old) }
        ensures sound { IsSound self.new }
        ensures own_kept { IfOk result (λ o. IfSome o (λ r. IsKept self.new (reference_of r))) }
        ensures kept { (r : Reference) → IsKept self.old r → IsKept self.new r }
    {
        self.new_sharing(alloc, ty, None, bytes, space, access)
    }

    /// As [`Store::new_from_bytes`]; where the layout is that of the type, and one more owner of it can be counted, the
    /// cell shares it with all that have it, and takes no memory for one of its own. Else the layout is passed over.
    /// It calls itself for each level of the type: keep to 4,095 within a stack of 8 MiB.
    pub fn new_sharing(
        &mut self,
        alloc: Global,
        ty: Type,
        layout: Option<&Arc<Layout>>,
        bytes: &[u8],
        space: AddressSpace,
        access: AccessMode,
    ) -> Result<Option<RefInstance>, AllocError>
        ensures made { IfOk result (λ o. IsNewOf (decode bytes.now (type_view ty)) space access self.old self.new (option_map reference_of o)) }
        ensures err { OnErr result (self.new ≡ self.old) }
        ensures sound { IsSound self.new }
        ensures own_kept { IfOk result (λ o. IfSome o (λ r. IsKept self.new (reference_of r))) }
        ensures kept { (r : Reference) → IsKept self.old r → IsKept self.new r }
    {
        let cell = self.len();
        if !self.add_bytes(alloc, &ty, layout, bytes)? {
            return Ok(None);
        }
        Ok(Some(RefInstance::from_parts(cell, MemView::Whole, ty, space, access)))
    }

    /// Writes the value that the bytes lay out in the type of the reference, as [`crate::Buffers::from_buffer`] reads
    /// it, to what the reference names, and says whether they lay out one: where they lay out none, nothing is changed,
    /// and no other refusal is asked. Refusals in order: `NotWrite` without write access, `WriteRefType` where the value
    /// has other paths than what stands there, as a runtime-sized array of another length has. Where the reference names
    /// a part of a cell of bytes, as [`Store::bytes_of`] tells, the numbers are copied, and no value is made of them:
    /// then a write that is accepted takes no memory, and is never answered with `Memory`. The condition: the reference
    /// is kept, as [`Store::holds`] tests.
    /// It calls itself for each level of a value or type, and for each step of its view: keep to 2,047 within a stack of
    /// 8 MiB.
    pub fn write_bytes(
        &mut self,
        alloc: Global,
        reference: &RefInstance,
        bytes: &[u8],
    ) -> Result<bool, Error>
        requires { IsKept self.old (reference_of reference.now) }
        ensures outcome { let r = reference_of reference.now in Gives (left_by self.new) result (written_of self.old r (decode bytes.now r.ty)) }
        ensures accepted { let r = reference_of reference.now in in_bytes self.old r ≡ true → IsOk (written_of self.old r (decode bytes.now r.ty)) → IsOk result }
        ensures none { IfOk result (λ wrote. wrote ≡ false → self.new ≡ self.old) }
        ensures err { OnErr result (self.new ≡ self.old) }
        ensures sound { IsSound self.new }
        ensures kept { (r : Reference) → IsKept self.old r → IsKept self.new r }
    {
        match self.put_bytes(reference, bytes) {
            BytesWrite::Done => Ok(true),
            BytesWrite::NoValue => Ok(false),
            BytesWrite::NotWrite => Err(Error::NotWrite),
            // What the bytes lay out is of the type of the reference.
            BytesWrite::Misfit => Err(misfit_of_part(alloc, reference, reference)?),
            BytesWrite::NotBytes => self.write_read(alloc, reference, bytes),
        }
    }

    // `Store::write_bytes` by a value: it is read and written. The further condition: the store is sound.
    fn write_read(
        &mut self,
        alloc: Global,
        reference: &RefInstance,
        bytes: &[u8],
    ) -> Result<bool, Error>
        requires kept { IsKept self.old (reference_of reference.now) }
        requires sound { IsSound self.old }
        ensures outcome { let r = reference_of reference.now in Gives (left_by self.new) result (written_of self.old r (decode bytes.now r.ty)) }
        ensures none { IfOk result (λ wrote. wrote ≡ false → self.new ≡ self.old) }
        ensures err { OnErr result (self.new ≡ self.old) }
        ensures sound { IsSound self.new }
        ensures kept { (r : Reference) → IsKept self.old r → IsKept self.new r }
    {
        let Some(value) = read_buffer(alloc, bytes, reference.target_ty())? else {
            return Ok(false);
        };
        reference.write(alloc, self, value)?;
        Ok(true)
    }
}

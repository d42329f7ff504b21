//! Calls on references to parts of cells (WGSL: memory views; load rule; assignment statement).

ghost use Rattle.std.specs.Prelude.{
  ◌≡◌,
  ◌++◌,
  ◌∷◌,
  [],
  IfOk,
  IfErr,
  IsOk,
  IsTrue,
  OnOk,
  OnErr,
  Err,
  None,
  Some,
  true,
  option_map,
  string_bytes,
};
ghost use Rattle.wgsl_rules.specs.Access.{can_read, can_write};
ghost use Rattle.wgsl_rules.specs.Types.{atomic};
ghost use Rattle.wgsl_rules.specs.Values.{
  Reference,
  IsStorable,
  atomic_of,
  type_of,
  index as index_step,
  member as member_step,
};
ghost use Rattle.wgsl_rules.specs.Refusals.{write_ref_type};
ghost use Rattle.wgsl_scalar.specs.Answers.{Gives, refusal_of};
ghost use Rattle.wgsl_scalar.specs.Literals.{literal_of};
ghost use Rattle.wgsl_store.specs.Atomics.{atomic_number};
ghost use Rattle.wgsl_store.specs.Components.{names_component};
ghost use Rattle.wgsl_store.specs.Copies.{are_in_bytes, copied};
ghost use Rattle.wgsl_store.specs.Memory.{HoldsValue, IsContent, IsKept, IsSound, held, put_cells};
ghost use Rattle.wgsl_store.specs.ReferenceCalls.{
  deeper,
  read,
  read_written,
  whole_of_new,
  written,
};
ghost use Rattle.wgsl_values.specs.View.{reference_of, value_of};

use crate::store::Store;
use std::alloc::{AllocError, Global};
use wgsl_layout::InPlace;
use wgsl_rules::{AccessMode, AddressSpace, Ty};
use wgsl_scalar::{Error, LiteralInstance};
use wgsl_values::{Instance, MemView, RefInstance};

/// What is done with a reference to a part of a cell of a [`Store`].
///
/// Each call takes the store, and asks as a condition that the reference is kept there, as
/// [`Store::holds`] tests: its cell is there, and its view leads to a value of its type. A value that
/// is handed in may be stored, as `is_storable` tests, and each reference and pointer in it is kept,
/// as [`Store::holds_value`] tests. Want of memory is `Memory`; after any error the store is as before.
/// Each reference that was kept before a call is kept after it.
pub trait References: Sized {
    /// The reference that it stands for.
    ghost reference_of: { Self → Reference };

    /// Makes a cell that holds the value, and a reference to the whole of it. The only error is
    /// `Memory`.
    /// It calls itself for each level of a value or type: keep to 4,095 within a stack of 8 MiB.
    fn new(
        alloc: Global,
        store: &mut Store,
        value: Instance,
        space: AddressSpace,
        access: AccessMode,
    ) -> Result<Self, Error>
        requires storable { IsStorable (value_of value) }
        requires held { HoldsValue store.old (value_of value) }
        ensures ok { IfOk result (λ r. reference_of r ≡ whole_of_new store.old (value_of value) space access) }
        ensures added { OnOk result (store.new ≡ store.old ++ value_of value ∷ []) }
        ensures memory { IfErr result (λ e. refusal_of e ≡ None) }
        ensures err { OnErr result (store.new ≡ store.old) }
        ensures sound { OnOk result (IsSound store.new) }
        ensures own_kept { IfOk result (λ r. IsKept store.new (reference_of r)) }
        ensures kept { (r : Reference) → IsKept store.old r → IsKept store.new r };

    /// A reference to the first member of the name. Refusals in order: `NotRead` without read access,
    /// `Component` where the part is no structure or has no member of the name.
    /// It calls itself for each level of a value or type: keep to 4,095 within a stack of 8 MiB.
    fn view_member(&self, alloc: Global, store: &Store, name: String) -> Result<Self, Error>
        requires { IsKept store.now (reference_of self.now) }
        ensures outcome { Gives reference_of result (deeper (held store.now) (reference_of self.now) (member_step (string_bytes name))) }
        ensures kept { IfOk result (λ r. IsKept store.now (reference_of r)) };

    /// A reference to the element, component or column of the index. Refusals in order: `NotRead`
    /// without read access, `NotIndexable` where the part is no array, vector or matrix,
    /// `OutOfBounds` past its end.
    /// It calls itself for each level of a value or type: keep to 4,095 within a stack of 8 MiB.
    fn view_index(&self, alloc: Global, store: &Store, i: usize) -> Result<Self, Error>
        requires { IsKept store.now (reference_of self.now) }
        ensures outcome { Gives reference_of result (deeper (held store.now) (reference_of self.now) (index_step i)) }
        ensures kept { IfOk result (λ r. IsKept store.now (reference_of r)) };

    /// Whether the part is a component of a vector, wherever the vector stands: it may be a whole cell, a
    /// member, an element or a column of a matrix (WGSL: vector access expression). Read access is not
    /// needed, and no memory is taken.
    /// It calls itself for each step of the view: keep to 4,095 within a stack of 8 MiB.
    fn names_component(&self, store: &Store) -> bool
        requires { IsKept store.now (reference_of self.now) }
        ensures { result ≡ names_component store.now (reference_of self.now) };

    /// A copy of the value of the part. Refused with `NotRead` without read access.
    /// It calls itself for each level of a value or type: keep to 4,095 within a stack of 8 MiB.
    fn read(&self, alloc: Global, store: &Store) -> Result<Instance, Error>
        requires { IsKept store.now (reference_of self.now) }
        ensures outcome { Gives value_of result (read (held store.now) (reference_of self.now)) }
        ensures content { IfOk result (λ v. IsContent store.now (value_of v)) };

    /// Puts the value in the place of the part. Refusals in order: `NotWrite` without write access,
    /// `WriteRefType`, the type of the value first, where the value does not fit: it is of another
    /// type, or has other paths, as a runtime-sized array of another length has. A write that is accepted
    /// takes no memory: it is never answered with `Memory`.
    /// It calls itself for each level of a value or type, and for each step of its view: keep to 2,047 within a stack of
    /// 8 MiB.
    fn write(&self, alloc: Global, store: &mut Store, value: Instance) -> Result<(), Error>
        requires kept { IsKept store.old (reference_of self.now) }
        requires storable { IsStorable (value_of value) }
        requires held { HoldsValue store.old (value_of value) }
        ensures outcome { Gives (λ _. store.new) result (written store.old (reference_of self.now) (value_of value)) }
        ensures accepted { IsOk (written store.old (reference_of self.now) (value_of value)) → IsOk result }
        ensures err { OnErr result (store.new ≡ store.old) }
        ensures sound { OnOk result (IsSound store.new) }
        ensures kept { (r : Reference) → IsKept store.old r → IsKept store.new r };

    /// Copies what this reference names to what the other names (WGSL: assignment statement). The two may be one
    /// part. Refused as [`References::read`] of this one, then as
    /// [`References::write`] to the other.
    ///
    /// Where both stand in cells of bytes, as [`Store::bytes_of`] tells, the bytes are copied in place: a copy that is
    /// accepted takes no memory, and is never answered with `Memory`. Else the value is read and written.
    /// It calls itself for each level of a value or type, and for each step of its view: keep to 2,047 within a stack of
    /// 8 MiB.
    fn copy_to(&self, alloc: Global, store: &mut Store, target: &Self) -> Result<(), Error>
        requires from { IsKept store.old (reference_of self.now) }
        requires to { IsKept store.old (reference_of target.now) }
        ensures outcome { Gives (λ _. store.new) result (copied store.old (reference_of self.now) (reference_of target.now)) }
        ensures accepted { IsTrue (are_in_bytes store.old (reference_of self.now) (reference_of target.now)) → IsOk (copied store.old (reference_of self.now) (reference_of target.now)) → IsOk result }
        ensures err { OnErr result (store.new ≡ store.old) }
        ensures sound { OnOk result (IsSound store.new) }
        ensures kept { (r : Reference) → IsKept store.old r → IsKept store.new r };

    /// Puts the value in the place of the part, and answers the old value; write access alone is
    /// needed. Refusals in order: `NotReadWrite` without it, `WriteRefType` as in
    /// [`References::write`].
    /// It calls itself for each level of a value or type, and for each step of its view: keep to 2,047 within a stack of
    /// 8 MiB.
    fn read_write(
        &self,
        alloc: Global,
        store: &mut Store,
        value: Instance,
    ) -> Result<Instance, Error>
        requires kept { IsKept store.old (reference_of self.now) }
        requires storable { IsStorable (value_of value) }
        requires held { HoldsValue store.old (value_of value) }
        ensures outcome { Gives (λ v. record { old = value_of v; cells = store.new }) result (read_written store.old (reference_of self.now) (value_of value)) }
        ensures err { OnErr result (store.new ≡ store.old) }
        ensures sound { OnOk result (IsSound store.new) }
        ensures content { IfOk result (λ v. IsContent store.new (value_of v)) }
        ensures kept { (r : Reference) → IsKept store.old r → IsKept store.new r };

    /// The number of the atomic that the reference names; `None` where it names no atomic (WGSL: atomic
    /// builtin functions, `atomicLoad`). Whether the reference may read is not asked here: who reads an atomic
    /// asks it. No memory is taken.
    /// It calls itself for each step of the view: keep to 4,095 within a stack of 8 MiB.
    fn atomic_number(&self, store: &Store) -> Option<LiteralInstance>
        requires { IsKept store.now (reference_of self.now) }
        ensures { option_map literal_of result ≡ atomic_number store.now (reference_of self.now) };

    /// Puts the number into the atomic that the reference names (WGSL: atomic builtin functions,
    /// `atomicStore`). It is never refused, and takes no memory. The further conditions: the reference may
    /// write, it is to an atomic of numbers of the kind, and an atomic of the number may be stored.
    /// It calls itself for each step of the view: keep to 2,047 within a stack of 8 MiB.
    fn put_atomic_number(&self, store: &mut Store, number: LiteralInstance)
        requires kept { IsKept store.old (reference_of self.now) }
        requires may_write { can_write (reference_of self.now).access ≡ true }
        requires typed { (reference_of self.now).ty ≡ atomic (type_of (literal_of number)) }
        requires storable { IsStorable (atomic_of (literal_of number)) }
        ensures put { store.new ≡ put_cells store.old (reference_of self.now) (atomic_of (literal_of number)) }
        ensures sound { IsSound store.new }
        ensures kept { (r : Reference) → IsKept store.old r → IsKept store.new r };
}

// Why the value does not fit the place that the reference names: `WriteRefType`, the type of the value
// first. The condition: it may be stored.
fn misfit(alloc: Global, reference: &RefInstance, value: &Instance) -> Result<Error, AllocError>
    requires { IsStorable (value_of value.now) }
    ensures { IfOk result (λ e. refusal_of e ≡ Some (write_ref_type (type_of (value_of value.now)) (reference_of reference.now).ty)) }
{
    Ok(Error::WriteRefType(value.ty(alloc)?, reference.target_ty().clone(alloc)?))
}

// `References::read_write`; another value may be left for the one that is put.
fn exchange(
    alloc: Global,
    reference: &RefInstance,
    store: &mut Store,
    value: &mut Instance,
) -> Result<Instance, Error>
    requires kept { IsKept store.old (reference_of reference.now) }
    requires content { IsContent store.old (value_of value.old) }
    ensures outcome { Gives (λ v. record { old = value_of v; cells = store.new }) result (read_written store.old (reference_of reference.now) (value_of value.old)) }
    ensures err { OnErr result (store.new ≡ store.old) }
    ensures sound { OnOk result (IsSound store.new) }
    ensures content { IfOk result (λ v. IsContent store.new (value_of v)) }
    ensures kept { (r : Reference) → IsKept store.old r → IsKept store.new r }
{
    if !reference.access().is_write() {
        return Err(Error::NotReadWrite);
    }
    match store.replace(alloc, reference, value)? {
        Some(old) => Ok(old),
        None => Err(misfit(alloc, reference, value)?),
    }
}

/// Why what the first reference names does not fit the place that the second names: `WriteRefType`, the type of the
/// first reference first.
pub(crate) fn misfit_of_part(
    alloc: Global,
    from: &RefInstance,
    to: &RefInstance,
) -> Result<Error, AllocError>
    ensures { IfOk result (λ e. refusal_of e ≡ Some (write_ref_type (reference_of from.now).ty (reference_of to.now).ty)) }
{
    Ok(Error::WriteRefType(from.target_ty().clone(alloc)?, to.target_ty().clone(alloc)?))
}

// `References::copy_to` by a value: it is read and written.
fn copy_value(
    alloc: Global,
    store: &mut Store,
    from: &RefInstance,
    to: &RefInstance,
) -> Result<(), Error>
    requires from { IsKept store.old (reference_of from.now) }
    requires to { IsKept store.old (reference_of to.now) }
    ensures outcome { Gives (λ _. store.new) result (copied store.old (reference_of from.now) (reference_of to.now)) }
    ensures err { OnErr result (store.new ≡ store.old) }
    ensures sound { OnOk result (IsSound store.new) }
    ensures kept { (r : Reference) → IsKept store.old r → IsKept store.new r }
{
    let value = from.read(alloc, store)?;
    to.write(alloc, store, value)
}

// `References::copy_to`, where the one reference may be read and the other written.
fn copy_part(
    alloc: Global,
    store: &mut Store,
    from: &RefInstance,
    to: &RefInstance,
) -> Result<(), Error>
    requires from { IsKept store.old (reference_of from.now) }
    requires to { IsKept store.old (reference_of to.now) }
    requires may_read { can_read (reference_of from.now).access ≡ true }
    requires may_write { can_write (reference_of to.now).access ≡ true }
    ensures outcome { Gives (λ _. store.new) result (copied store.old (reference_of from.now) (reference_of to.now)) }
    ensures accepted { IsTrue (are_in_bytes store.old (reference_of from.now) (reference_of to.now)) → IsOk (copied store.old (reference_of from.now) (reference_of to.now)) → IsOk result }
    ensures err { OnErr result (store.new ≡ store.old) }
    ensures sound { OnOk result (IsSound store.new) }
    ensures kept { (r : Reference) → IsKept store.old r → IsKept store.new r }
{
    match store.copy(from, to) {
        InPlace::Done => Ok(()),
        InPlace::Misfit => Err(misfit_of_part(alloc, from, to)?),
        InPlace::NotBytes => copy_value(alloc, store, from, to),
    }
}

impl References for RefInstance {
    ghost use Rattle.wgsl_values.specs.View.{reference_of};

    ghost reference_of = { reference_of };

    fn new(
        alloc: Global,
        store: &mut Store,
        value: Instance,
        space: AddressSpace,
        access: AccessMode,
    ) -> Result<RefInstance, Error> {
        let ty = value.ty(alloc)?;
        let cell = store.add(alloc, value)?;
        Ok(RefInstance::from_parts(cell, MemView::Whole, ty, space, access))
    }

    fn view_member(
        &self,
        alloc: Global,
        store: &Store,
        name: String,
    ) -> Result<RefInstance, Error> {
        let whole = store.readable(self)?;
        let Some(part) = whole.member(name.as_str()) else {
            return Err(Error::Component(whole.ty(alloc)?, name));
        };
        let ty = part.ty(alloc)?;
        let view = self.view().with_member(alloc, name)?;
        Ok(RefInstance::from_parts(self.cell(), view, ty, self.space(), self.access()))
    }

    fn view_index(&self, alloc: Global, store: &Store, i: usize) -> Result<RefInstance, Error> {
        let whole = store.readable(self)?;
        let Some(part) = whole.index(i) else {
            return Err(whole.no_part(alloc, i)?);
        };
        let ty = part.ty(alloc)?;
        let view = self.view().with_index(alloc, i)?;
        Ok(RefInstance::from_parts(self.cell(), view, ty, self.space(), self.access()))
    }

    fn names_component(&self, store: &Store) -> bool {
        store.names_component(self)
    }

    fn read(&self, alloc: Global, store: &Store) -> Result<Instance, Error> {
        Ok(store.readable(self)?.value(alloc)?)
    }

    fn write(&self, alloc: Global, store: &mut Store, mut value: Instance) -> Result<(), Error> {
        if !self.access().is_write() {
            drop(value);
            return Err(Error::NotWrite);
        }
        if store.put(self, &mut value) {
            drop(value);
            return Ok(());
        }
        let refusal = misfit(alloc, self, &value).unwrap_or(Error::Memory);
        drop(value);
        Err(refusal)
    }

    fn copy_to(&self, alloc: Global, store: &mut Store, target: &RefInstance) -> Result<(), Error> {
        if !self.access().is_read() {
            return Err(Error::NotRead);
        }
        if target.access().is_write() {
            copy_part(alloc, store, self, target)
        } else {
            Err(Error::NotWrite)
        }
    }

    fn read_write(
        &self,
        alloc: Global,
        store: &mut Store,
        mut value: Instance,
    ) -> Result<Instance, Error> {
        let answer = exchange(alloc, self, store, &mut value);
        drop(value);
        answer
    }

    fn atomic_number(&self, store: &Store) -> Option<LiteralInstance> {
        store.atomic_number(self)
    }

    fn put_atomic_number(&self, store: &mut Store, number: LiteralInstance) {
        store.put_atomic_number(self, number);
    }
}

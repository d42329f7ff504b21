//! The cells that references name (WGSL: memory locations).

use crate::cell::{Cell, Part};
use crate::parts::{part, part_count};
use std::alloc::{AllocError, Global};
use std::marker::Model;
use std::sync::Arc;
use wgsl_layout::laws::a_literal_may_be_stored;
use wgsl_layout::{BytesWrite, InPlace, Layout};
use wgsl_rules::Type;
use wgsl_scalar::{Error, LiteralInstance};
use wgsl_values::{Instance, RefInstance};

/// The cells of a shader's memory, counted from 0. A cell lives as long as the store.
///
/// Each cell holds a value that may be stored, and each reference or pointer at any path of any cell
/// is kept: its cell is there, and its view leads to a value of its type. A value whose type has a
/// layout is held as its bytes.
#[derive(Drop)]
pub struct Store {
    cells: Vec<Cell>,
}

impl Model for Store {
    ghost use Rattle.std.specs.Prelude.{List, map};
    ghost use Rattle.std.specs.Coded.{coded_list};
    ghost use Rattle.wgsl_rules.specs.Values.{Val};
    ghost use Rattle.wgsl_rules.specs.Codes.{val_code};
    ghost use Rattle.wgsl_store.specs.Cells.{AreCells, cell_value};

    ghost Value = { List Val };

    ghost coded = { coded_list val_code };

    ghost view = { λ s. map cell_value s.cells.items };

    ghost invariant = { λ s. AreCells s.cells.items };
}

impl Store {
    ghost use Rattle.std.specs.Prelude.{
      ◌≡◌,
      ◌↔◌,
      ◌<◌,
      ◌++◌,
      ◌∷◌,
      [],
      length,
      true,
      ℕ,
      List,
      IfNone,
      IfOk,
      IfSome,
      IsOkAnd,
      IsTrue,
      OnOk,
      OnErr,
      Ok,
      option_map,
      slice_get,
    };
    ghost use Rattle.std.specs.Bool.{OnFalse, OnTrue};
    ghost use Rattle.std.specs.Result.{result_ok};
    ghost use Rattle.wgsl_rules.specs.Access.{can_write};
    ghost use Rattle.wgsl_rules.specs.Paths.{parts};
    ghost use Rattle.wgsl_rules.specs.Types.{atomic};
    ghost use Rattle.wgsl_rules.specs.Values.{Reference, IsStorable, atomic_of, type_of};
    ghost use Rattle.wgsl_rules.specs.View.{type_view};
    ghost use Rattle.wgsl_store.specs.Arrays.{element_count};
    ghost use Rattle.wgsl_store.specs.Atomics.{atomic_number};
    ghost use Rattle.wgsl_layout.specs.Buffers.{decode};
    ghost use Rattle.wgsl_store.specs.Cells.{IsPart, part_value};
    ghost use Rattle.wgsl_store.specs.Components.{names_component};
    ghost use Rattle.wgsl_store.specs.Copies.{AreCopied, are_in_bytes, in_bytes};
    ghost use Rattle.wgsl_store.specs.Exchanges.{AreExchanged};
    ghost use Rattle.wgsl_layout.specs.Fitting.{FitsAt};
    ghost use Rattle.wgsl_store.specs.HeldBytes.{held_bytes, read_bytes};
    ghost use Rattle.wgsl_layout.specs.LaidOut.{CameTo};
    ghost use Rattle.wgsl_store.specs.LaidOut.{IsAdded};
    ghost use Rattle.wgsl_store.specs.Memory.{
      AllKept,
      HoldsValue,
      IsContent,
      IsKept,
      IsSound,
      held,
      put_cells,
      references_in,
    };
    ghost use Rattle.wgsl_store.specs.MemoryLaws.{KeepsLayouts};
    ghost use Rattle.wgsl_layout.specs.NumbersIn.{AreFrom, HasNumberAt, IsNumberAt, number_put};
    ghost use Rattle.wgsl_store.specs.ReferenceCalls.{read};
    ghost use Rattle.wgsl_scalar.specs.Answers.{Answers, Gives};
    ghost use Rattle.wgsl_scalar.specs.Literals.{literal_of};
    ghost use Rattle.wgsl_values.specs.View.{value_of, reference_of};

    /// A store without cells; it takes no memory.
    pub fn new(alloc: Global) -> Self
        ensures { result ≡ [] }
    {
        Store {
            cells: Vec::new(alloc),
        }
    }

    /// How many cells there are.
    pub fn len(&self) -> usize
        ensures count { result ≡ length self.now }

        // What holds of every store; a caller learns it here.
        ensures sound { IsSound self.now }
    {
        self.cells.len()
    }

    /// Whether the reference is kept: its cell is there, and its view leads to a value of its type.
    /// It takes no memory.
    /// It calls itself for each level of a value or type: keep to 4,095 within a stack of 8 MiB.
    pub fn holds(&self, reference: &RefInstance) -> bool
        ensures { IsTrue result ↔ IsKept self.now (reference_of reference.now) }
    {
        match self.find(reference) {
            Some(part) => part.has_ty(reference.target_ty()),
            None => false,
        }
    }

    /// Whether each reference and pointer in the value is kept. It takes no memory.
    /// It calls itself for each level of a value or type: keep to 4,095 within a stack of 8 MiB.
    #[cycle(holds_value)]
    pub fn holds_value(&self, value: &Instance) -> bool
        ensures { IsTrue result ↔ HoldsValue self.now (value_of value.now) }
    {
        match value {
            Instance::Ptr(pointer) => self.holds(pointer.ptr()),
            Instance::Ref(reference) => self.holds(reference),
            Instance::Struct(_) | Instance::Array(_) => self.holds_parts(value),
            Instance::Vec(_) | Instance::Mat(_) => self.holds_parts(value),
            Instance::Literal(_) | Instance::Atomic(_) | Instance::Deferred(_) => true,
        }
    }

    // Whether each reference and pointer in the parts is kept.
    #[cycle(holds_value)]
    fn holds_parts(&self, value: &Instance) -> bool
        ensures { IsTrue result ↔ AllKept self.now (references_in (parts (value_of value.now))) }
    {
        for i in 0..part_count(value) {
            if !self.holds_value(part(value, i)) {
                return false;
            }
        }
        true
    }

    // The whole of a cell, if it is there.
    fn cell(&self, i: usize) -> Option<Part<'_>>
        ensures value { option_map part_value result ≡ slice_get self.now i }
        ensures part { IfSome result IsPart }
        ensures sound { IsSound self.now }
    {
        Some(self.cells.get(i)?.whole())
    }

    // The part that the reference names; `None` where its cell is not there, or its view leads
    // nowhere.
    fn find(&self, reference: &RefInstance) -> Option<Part<'_>>
        ensures value { option_map part_value result ≡ result_ok (held self.now (reference_of reference.now)) }
        ensures part { IfSome result IsPart }
        ensures content { IfSome result (λ p. IsContent self.now (part_value p)) }
    {
        let cell = self.cell(reference.cell())?;
        cell.viewed(reference.view())
    }

    // The part that the reference names. The condition: it is kept.
    fn part(&self, reference: &RefInstance) -> Part<'_>
        requires { IsKept self.now (reference_of reference.now) }
        ensures value { held self.now (reference_of reference.now) ≡ Ok (part_value result) }
        ensures part { IsPart result }
        ensures content { IsContent self.now (part_value result) }
    {
        match self.find(reference) {
            Some(part) => part,
            None => unreachable!(),
        }
    }

    /// The part that the reference names, where it may be read; else `NotRead`. The condition: it is
    /// kept.
    pub(crate) fn readable(&self, reference: &RefInstance) -> Result<Part<'_>, Error>
        requires { IsKept self.now (reference_of reference.now) }
        ensures outcome { Gives part_value result (read (held self.now) (reference_of reference.now)) }
        ensures part { IfOk result IsPart }
        ensures content { IfOk result (λ p. IsContent self.now (part_value p)) }
    {
        if reference.access().is_read() {
            Ok(self.part(reference))
        } else {
            Err(Error::NotRead)
        }
    }

    /// The bytes of the part that the reference names, lent, as they stand in its cell: the buffer of the value
    /// that a read gives ([`crate::Buffers::to_buffer`]), with the padding inside it; `None` in a cell that is no
    /// bytes, since the type of its whole value has no layout. Refused with `NotRead` without read access. No memory
    /// is taken. The condition: the reference is kept, as [`Store::holds`] tests.
    pub fn read_bytes(&self, reference: &RefInstance) -> Result<Option<&[u8]>, Error>
        requires { IsKept self.now (reference_of reference.now) }
        ensures { Answers (option_map (λ b. b.now)) result (read_bytes self.now (reference_of reference.now)) }
    {
        if !reference.access().is_read() {
            return Err(Error::NotRead);
        }
        Ok(self.bytes_of(reference))
    }

    /// The bytes that [`Store::read_bytes`] lends; read access is not asked. `None` in a cell that is no bytes. No
    /// memory is taken. The condition: the reference is kept, as [`Store::holds`] tests.
    pub fn bytes_of(&self, reference: &RefInstance) -> Option<&[u8]>
        requires { IsKept self.now (reference_of reference.now) }
        ensures bytes { IsOkAnd (held self.now (reference_of reference.now)) (λ x. option_map (λ b. b.now) result ≡ held_bytes self.now (reference_of reference.now) x) }
        ensures sound { IsSound self.now }
    {
        let cell = &self.cells[reference.cell()];
        cell.bytes_at(reference.view())
    }

    /// The bytes of its cell from the part on that the reference names, lent: they begin with those that
    /// [`Store::read_bytes`] lends, and the length of the part is not found. `None` in a cell that is no bytes. Read
    /// access is not asked, and no memory is taken. The condition: the reference is kept, as [`Store::holds`] tests.
    pub fn bytes_from(&self, reference: &RefInstance) -> Option<&[u8]>
        requires { IsKept self.now (reference_of reference.now) }
        ensures bytes { IsOkAnd (held self.now (reference_of reference.now)) (λ x. AreFrom (in_bytes self.now (reference_of reference.now)) x (option_map (λ b. b.now) result)) }
        ensures sound { IsSound self.now }
    {
        let cell = &self.cells[reference.cell()];
        cell.bytes_from(reference.view())
    }

    /// Puts the number in the place of that of the scalar or the atomic which begins so many bytes behind the first of
    /// the part that the reference names, and says whether it did: whether the cell is bytes, as [`Store::bytes_from`]
    /// tells. Else nothing is changed. No memory is taken. The conditions: the reference is kept, as [`Store::holds`]
    /// tests, and may write, and in what it names a scalar or an atomic of numbers of the kind begins there.
    pub fn put_number(
        &mut self,
        reference: &RefInstance,
        at: usize,
        number: LiteralInstance,
    ) -> bool
        requires kept { IsKept self.old (reference_of reference.now) }
        requires may_write { can_write (reference_of reference.now).access ≡ true }
        requires there { IsOkAnd (held self.old (reference_of reference.now)) (λ x. HasNumberAt x at (literal_of number)) }
        ensures bytes { result ≡ in_bytes self.old (reference_of reference.now) }
        ensures put { OnTrue result ((path : List ℕ) → IsOkAnd (held self.old (reference_of reference.now)) (λ x. IsNumberAt x path at (literal_of number) → self.new ≡ put_cells self.old (reference_of reference.now) (number_put path (literal_of number) x))) }
        ensures same { OnFalse result (self.new ≡ self.old) }
        ensures sound { IsSound self.new }
        ensures kept { (r : Reference) → IsKept self.old r → IsKept self.new r }
        // Where the parts stand of what any other reference names stays as it was.
        ensures layouts { KeepsLayouts self.old self.new }
    {
        a_literal_may_be_stored(number);
        let cell = &mut self.cells[reference.cell()];
        cell.put_number(reference, at, number)
    }

    /// Whether the reference names a component of a vector: the last step of its view is taken from a
    /// vector. It takes no memory.
    pub(crate) fn names_component(&self, reference: &RefInstance) -> bool
        ensures { result ≡ names_component self.now (reference_of reference.now) }
    {
        match self.cell(reference.cell()) {
            Some(cell) => cell.leads_to_component(reference.view()),
            None => false,
        }
    }

    /// The number of the atomic that the reference names; `None` where it names no atomic. Read access is not
    /// asked, and no memory is taken. The condition: the reference is kept.
    pub(crate) fn atomic_number(&self, reference: &RefInstance) -> Option<LiteralInstance>
        requires { IsKept self.now (reference_of reference.now) }
        ensures { option_map literal_of result ≡ atomic_number self.now (reference_of reference.now) }
    {
        self.part(reference).atomic_number()
    }

    /// How many elements the array has that the reference names; `None` where it names no array (WGSL: array builtin
    /// functions, `arrayLength`). Read access is not asked, and no memory is taken. The condition: the reference is
    /// kept, as [`Store::holds`] tests.
    /// It calls itself for each step of the view: keep to 4,095 within a stack of 8 MiB.
    pub fn element_count(&self, reference: &RefInstance) -> Option<usize>
        requires { IsKept self.now (reference_of reference.now) }
        ensures { result ≡ element_count self.now (reference_of reference.now) }
    {
        self.part(reference).element_count()
    }

    /// Makes a last cell that holds the value, and answers its number.
    pub(crate) fn add(&mut self, alloc: Global, value: Instance) -> Result<usize, AllocError>
        requires { IsContent self.old (value_of value) }
        ensures ok { IfOk result (λ n. n ≡ length self.old) }
        ensures added { OnOk result (self.new ≡ self.old ++ value_of value ∷ []) }
        ensures err { OnErr result (self.new ≡ self.old) }
        ensures sound { IsSound self.new }
        ensures kept { (r : Reference) → IsKept self.old r → IsKept self.new r }
    {
        let n = self.cells.len();
        let cell = Cell::new(alloc, value)?;
        self.cells.push(cell)?;
        Ok(n)
    }

    /// Makes a last cell of bytes that holds the value of the type that the bytes lay out, and says whether they lay
    /// out one; where they lay out none, nothing is changed. The layout is shared where it is that of the type and one
    /// more owner of it can be counted. The condition: the store is sound, as [`Store::len`] tells of each.
    pub(crate) fn add_bytes(
        &mut self,
        alloc: Global,
        ty: &Type,
        layout: Option<&Arc<Layout>>,
        bytes: &[u8],
    ) -> Result<bool, AllocError>
        requires { IsSound self.old }
        ensures added { IfOk result (λ b. IsAdded (decode bytes.now (type_view ty.now)) self.old self.new b) }
        ensures err { OnErr result (self.new ≡ self.old) }
        ensures sound { IsSound self.new }
        ensures kept { (r : Reference) → IsKept self.old r → IsKept self.new r }
    {
        let Some(cell) = Cell::of_bytes(alloc, ty, layout, bytes)? else {
            return Ok(false);
        };
        self.cells.push(cell)?;
        Ok(true)
    }

    /// Puts the value in the place of the part that the reference names, where it fits there, and says whether it did;
    /// another value may be left for it then. Else nothing is changed. It takes no memory. The condition: the reference is
    /// kept.
    pub(crate) fn put(&mut self, reference: &RefInstance, value: &mut Instance) -> bool
        requires kept { IsKept self.old (reference_of reference.now) }
        requires content { IsContent self.old (value_of value.old) }
        ensures fit { IsTrue result ↔ FitsAt (value_of value.old) (held self.old (reference_of reference.now)) }
        ensures put { OnTrue result (self.new ≡ put_cells self.old (reference_of reference.now) (value_of value.old)) }
        ensures same { OnFalse result (self.new ≡ self.old) }
        ensures back { OnFalse result (value_of value.new ≡ value_of value.old) }
        ensures sound { IsSound self.new }
        ensures kept { (r : Reference) → IsKept self.old r → IsKept self.new r }
    {
        let cell = &mut self.cells[reference.cell()];
        cell.put(reference, value)
    }

    /// Puts the value in the place of the part that the reference names, where it fits there, and answers the value that
    /// stood there; another value may be left for it then. `None` where it does not fit. After that, and after want of
    /// memory, nothing is changed. The condition: the reference is kept.
    pub(crate) fn replace(
        &mut self,
        alloc: Global,
        reference: &RefInstance,
        value: &mut Instance,
    ) -> Result<Option<Instance>, AllocError>
        requires kept { IsKept self.old (reference_of reference.now) }
        requires content { IsContent self.old (value_of value.old) }
        ensures exchanged { IfOk result (λ o. AreExchanged (option_map value_of o) self.old self.new (reference_of reference.now) (value_of value.old)) }
        ensures back { IfOk result (λ o. IfNone o (value_of value.new ≡ value_of value.old)) }
        ensures err { OnErr result (self.new ≡ self.old) }
        ensures content { IfOk result (λ o. IfSome o (λ v. IsContent self.new (value_of v))) }
        ensures sound { IsSound self.new }
        ensures kept { (r : Reference) → IsKept self.old r → IsKept self.new r }
    {
        let cell = &mut self.cells[reference.cell()];
        cell.replace(alloc, reference, value)
    }

    /// Writes the value that the bytes lay out in the type of the reference to what the reference names, where that
    /// stands in a cell of bytes: the numbers are copied, where they lay out a value, the reference may write, and the
    /// value fits there; what refuses it is asked in this order. It takes no memory. The condition: the reference is
    /// kept.
    pub(crate) fn put_bytes(&mut self, reference: &RefInstance, bytes: &[u8]) -> BytesWrite
        requires { IsKept self.old (reference_of reference.now) }
        ensures put { let r = reference_of reference.now in CameTo result (in_bytes self.old r) (can_write r.access) (held self.old r) (λ w. put_cells self.old r w) self.old self.new (decode bytes.now r.ty) }
        ensures sound { IsSound self.new }
        ensures kept { (r : Reference) → IsKept self.old r → IsKept self.new r }
    {
        let cell = &mut self.cells[reference.cell()];
        cell.write_bytes(reference, bytes)
    }

    /// Copies the bytes of the part that one reference names over those of the part that the other names, where both
    /// stand in cells of bytes and the one fits the place of the other; the parts may overlap. Access is not asked,
    /// and no memory is taken. The conditions: each reference is kept.
    pub(crate) fn copy(&mut self, from: &RefInstance, to: &RefInstance) -> InPlace
        requires from { IsKept self.old (reference_of from.now) }
        requires to { IsKept self.old (reference_of to.now) }
        ensures copied { IsOkAnd (held self.old (reference_of from.now)) (AreCopied result (are_in_bytes self.old (reference_of from.now) (reference_of to.now)) self.old self.new (reference_of to.now)) }
        ensures sound { IsSound self.new }
        ensures kept { (r : Reference) → IsKept self.old r → IsKept self.new r }
    {
        copy_among(self.cells.as_mut_slice(), from, to)
    }

    /// Puts the number into the atomic that the reference names. Write access is not asked, and no memory is
    /// taken. The conditions: the reference is kept, it is to an atomic of numbers of the kind, and an atomic
    /// of the number may be stored.
    pub(crate) fn put_atomic_number(&mut self, reference: &RefInstance, number: LiteralInstance)
        requires kept { IsKept self.old (reference_of reference.now) }
        requires typed { (reference_of reference.now).ty ≡ atomic (type_of (literal_of number)) }
        requires storable { IsStorable (atomic_of (literal_of number)) }
        ensures put { self.new ≡ put_cells self.old (reference_of reference.now) (atomic_of (literal_of number)) }
        ensures sound { IsSound self.new }
        ensures kept { (r : Reference) → IsKept self.old r → IsKept self.new r }
    {
        let cell = &mut self.cells[reference.cell()];
        cell.put_atomic_number(reference, number);
    }
}

ghost use Rattle.std.specs.Prelude.{◌≡◌, ◌<◌, IsOk, IsOkAnd, Some, map, slice_get};
ghost use Rattle.std.specs.List.{All};
ghost use Rattle.wgsl_store.specs.Cells.{IsCell, cell_value};
ghost use Rattle.wgsl_store.specs.Copies.{AreCopied, are_in_bytes};
ghost use Rattle.wgsl_store.specs.Memory.{held};
ghost use Rattle.wgsl_values.specs.View.{reference_of};

// `Store::copy`, among the cells.
fn copy_among(cells: &mut [Cell], from: &RefInstance, to: &RefInstance) -> InPlace
    requires forms { All IsCell cells.old }
    requires from { IsOk (held (map cell_value cells.old) (reference_of from.now)) }
    requires to { IsOk (held (map cell_value cells.old) (reference_of to.now)) }
    ensures copied { IsOkAnd (held (map cell_value cells.old) (reference_of from.now)) (AreCopied result (are_in_bytes (map cell_value cells.old) (reference_of from.now) (reference_of to.now)) (map cell_value cells.old) (map cell_value cells.new) (reference_of to.now)) }
    ensures forms { All IsCell cells.new }
{
    let source = from.cell();
    let target = to.cell();
    if source < target {
        return copy_onward(cells, from, to);
    }
    if target < source {
        return copy_back(cells, from, to);
    }
    let cell = &mut cells[target];
    cell.copy_within(from.view(), to.view())
}

// `Store::copy` to a later cell.
fn copy_onward(cells: &mut [Cell], from: &RefInstance, to: &RefInstance) -> InPlace
    requires forms { All IsCell cells.old }
    requires from { IsOk (held (map cell_value cells.old) (reference_of from.now)) }
    requires to { IsOk (held (map cell_value cells.old) (reference_of to.now)) }
    requires onward { (reference_of from.now).cell < (reference_of to.now).cell }
    ensures copied { IsOkAnd (held (map cell_value cells.old) (reference_of from.now)) (AreCopied result (are_in_bytes (map cell_value cells.old) (reference_of from.now) (reference_of to.now)) (map cell_value cells.old) (map cell_value cells.new) (reference_of to.now)) }
    ensures forms { All IsCell cells.new }
{
    let (front, back) = cells.split_at_mut(to.cell());
    let source = &front[from.cell()];
    let target = &mut back[0];
    target.copy_from(source, from.view(), to.view())
}

// `Store::copy` to an earlier cell.
fn copy_back(cells: &mut [Cell], from: &RefInstance, to: &RefInstance) -> InPlace
    requires forms { All IsCell cells.old }
    requires from { IsOk (held (map cell_value cells.old) (reference_of from.now)) }
    requires to { IsOk (held (map cell_value cells.old) (reference_of to.now)) }
    requires back { (reference_of to.now).cell < (reference_of from.now).cell }
    ensures copied { IsOkAnd (held (map cell_value cells.old) (reference_of from.now)) (AreCopied result (are_in_bytes (map cell_value cells.old) (reference_of from.now) (reference_of to.now)) (map cell_value cells.old) (map cell_value cells.new) (reference_of to.now)) }
    ensures forms { All IsCell cells.new }
{
    let (front, back) = cells.split_at_mut(from.cell());
    let source = &back[0];
    let target = &mut front[to.cell()];
    target.copy_from(source, from.view(), to.view())
}

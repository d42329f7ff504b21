//! Cells and the parts of them that are lent, each as bytes or as a tree (WGSL: memory locations; memory
//! views).

ghost use Rattle.std.specs.Prelude.{
  ◌≡◌,
  ◌↔◌,
  ◌&&◌,
  ℕ,
  List,
  Err,
  IfNone,
  IfOk,
  IfSome,
  IsOk,
  IsOkAnd,
  IsSomeAnd,
  IsTrue,
  None,
  Ok,
  OnErr,
  option_map,
};
ghost use Rattle.std.specs.Bool.{OnFalse, OnTrue};
ghost use Rattle.std.specs.Result.{result_ok};
ghost use Rattle.wgsl_rules.specs.Access.{can_write};
ghost use Rattle.wgsl_rules.specs.Converted.{converted};
ghost use Rattle.wgsl_rules.specs.Paths.{fits, member_named, part_at, put_viewed, viewed};
ghost use Rattle.wgsl_rules.specs.Values.{IsStorable, IsWellFormed, atomic_of, type_of};
ghost use Rattle.wgsl_rules.specs.View.{type_view};
ghost use Rattle.wgsl_scalar.specs.Answers.{refusal_of};
ghost use Rattle.wgsl_scalar.specs.Literals.{literal_of};
ghost use Rattle.wgsl_layout.specs.Arrays.{elements_in};
ghost use Rattle.wgsl_layout.specs.Atomics.{IsAtomicOf, number_in};
ghost use Rattle.wgsl_layout.specs.Buffers.{decode};
ghost use Rattle.wgsl_layout.specs.Fitting.{LeadsIn};
ghost use Rattle.wgsl_store.specs.Cells.{IsCell, IsPart, cell_value, part_value};
ghost use Rattle.wgsl_layout.specs.Components.{is_vector};
ghost use Rattle.wgsl_store.specs.Components.{has_steps, leads_to_component};
ghost use Rattle.wgsl_layout.specs.Copies.{IsCopied};
ghost use Rattle.wgsl_layout.specs.Exchanges.{IsExchanged};
ghost use Rattle.wgsl_store.specs.Copies.{is_bytes};
ghost use Rattle.wgsl_layout.specs.Fitting.{FitsAt};
ghost use Rattle.wgsl_store.specs.HeldBytes.{bytes_at};
ghost use Rattle.wgsl_layout.specs.LaidOut.{CameTo};
ghost use Rattle.wgsl_layout.specs.NumbersIn.{AreFrom, HasNumberAt, IsNumberAt, number_put};
ghost use Rattle.wgsl_values.specs.View.{reference_of, steps_of, value_of};

use crate::parts::{
    atomic_number, element_count, fits_place, indexed, member, no_part, part_viewed, with_number,
};
use std::alloc::{AllocError, Global};
use std::mem;
use std::sync::Arc;
use wgsl_layout::{BytesWrite, FlatCell, FlatPart, InPlace, Layout};
use wgsl_rules::{Convert, Ty, Type};
use wgsl_scalar::{Error, LiteralInstance};
use wgsl_values::{Instance, MemView, RefInstance};

/// What a cell of a store holds.
#[derive(Drop)]
pub(crate) enum Cell {
    /// A value of a type that has a layout, as its bytes.
    Flat(FlatCell),
    /// A value of any other type.
    Tree(Instance),
}

/// A part of a cell, lent: as the type and the bytes tell it, or the value itself.
#[derive(Clone, Copy)]
pub(crate) enum Part<'a> {
    /// A range of bytes, with its type.
    Flat(FlatPart<'a>),
    /// A value.
    Tree(&'a Instance),
}

impl Cell {
    /// A cell that holds the value: as bytes where its type has a layout. The condition: it may be
    /// stored.
    pub(crate) fn new(alloc: Global, value: Instance) -> Result<Cell, AllocError>
        requires { IsStorable (value_of value) }
        ensures value { IfOk result (λ c. cell_value c ≡ value_of value) }
        ensures cell { IfOk result IsCell }
    {
        match FlatCell::new(alloc, &value) {
            Ok(Some(bytes)) => Ok(Cell::Flat(bytes)),
            Ok(None) => Ok(Cell::Tree(value)),
            Err(error) => {
                drop(value);
                Err(error)
            }
        }
    }

    /// A cell that holds the value of the type that the bytes lay out, as bytes; `None` where they lay out none. The
    /// layout is shared where it is that of the type and one more owner of it can be counted.
    pub(crate) fn of_bytes(
        alloc: Global,
        ty: &Type,
        layout: Option<&Arc<Layout>>,
        bytes: &[u8],
    ) -> Result<Option<Cell>, AllocError>
        ensures value { IfOk result (λ o. option_map cell_value o ≡ decode bytes.now (type_view ty.now)) }
        ensures cell { IfOk result (λ o. IfSome o IsCell) }
    {
        let Some(cell) = FlatCell::of_bytes(alloc, ty, layout, bytes)? else {
            return Ok(None);
        };
        Ok(Some(Cell::Flat(cell)))
    }

    /// The whole value, lent.
    pub(crate) fn whole(&self) -> Part<'_>
        ensures value { part_value result ≡ cell_value self.now }
        ensures part { IsPart result }
    {
        match self {
            Cell::Flat(bytes) => Part::Flat(bytes.whole()),
            Cell::Tree(value) => Part::Tree(value),
        }
    }

    /// The bytes of the part that the view leads to, lent; `None` in a cell that is a tree. The condition: the
    /// view leads to a part.
    pub(crate) fn bytes_at(&self, view: &MemView) -> Option<&[u8]>
        requires cell { IsCell self.now }
        requires there { IsOk (viewed (steps_of view.now) (cell_value self.now)) }
        ensures { IsOkAnd (viewed (steps_of view.now) (cell_value self.now)) (λ x. option_map (λ b. b.now) result ≡ bytes_at (cell_value self.now) x) }
    {
        match self {
            Cell::Flat(bytes) => Some(bytes.bytes_at(view)),
            Cell::Tree(_) => None,
        }
    }

    /// The bytes of the cell from the part on that the view leads to, lent; `None` in a cell that is a tree. The
    /// condition: the view leads to a part.
    pub(crate) fn bytes_from(&self, view: &MemView) -> Option<&[u8]>
        requires cell { IsCell self.now }
        requires there { IsOk (viewed (steps_of view.now) (cell_value self.now)) }
        ensures { IsOkAnd (viewed (steps_of view.now) (cell_value self.now)) (λ x. AreFrom (is_bytes (cell_value self.now)) x (option_map (λ b. b.now) result)) }
    {
        match self {
            Cell::Flat(bytes) => Some(bytes.bytes_from(view)),
            Cell::Tree(_) => None,
        }
    }

    /// Puts the value in the place of the part that the reference leads to in the cell, where it fits there, and says
    /// whether it did; a tree takes the value itself, and leaves another one for it. Else nothing is changed. It takes no
    /// memory. The conditions: the reference leads to a value of its type, and the value may be stored.
    pub(crate) fn put(&mut self, reference: &RefInstance, value: &mut Instance) -> bool
        requires cell { IsCell self.old }
        requires leads { LeadsIn (cell_value self.old) (reference_of reference.now) }
        requires storable { IsStorable (value_of value.old) }
        ensures fit { IsTrue result ↔ FitsAt (value_of value.old) (viewed (reference_of reference.now).view (cell_value self.old)) }
        ensures put { OnTrue result (cell_value self.new ≡ put_viewed (reference_of reference.now).view (value_of value.old) (cell_value self.old)) }
        ensures same { OnFalse result (cell_value self.new ≡ cell_value self.old) }
        ensures back { OnFalse result (value_of value.new ≡ value_of value.old) }
        ensures cell { IsCell self.new }
    {
        match self {
            Cell::Flat(bytes) => bytes.put(reference.view(), value),
            Cell::Tree(whole) => match replace_tree(whole, reference, value) {
                Some(old) => {
                    drop(old);
                    true
                }
                None => false,
            },
        }
    }

    /// Puts the value in the place of the part that the reference leads to in the cell, where it fits there, and answers
    /// the value that stood there; a tree takes the value itself, and leaves another one for it. `None` where it does not
    /// fit. After that, and after want of memory, nothing is changed; a tree takes none. The conditions: the reference
    /// leads to a value of its type, and the value may be stored.
    pub(crate) fn replace(
        &mut self,
        alloc: Global,
        reference: &RefInstance,
        value: &mut Instance,
    ) -> Result<Option<Instance>, AllocError>
        requires cell { IsCell self.old }
        requires leads { LeadsIn (cell_value self.old) (reference_of reference.now) }
        requires storable { IsStorable (value_of value.old) }
        ensures exchanged { IfOk result (λ o. IsExchanged (option_map value_of o) (cell_value self.old) (cell_value self.new) (reference_of reference.now).view (value_of value.old)) }
        ensures back { IfOk result (λ o. IfNone o (value_of value.new ≡ value_of value.old)) }
        ensures err { OnErr result (cell_value self.new ≡ cell_value self.old) }
        ensures cell { IsCell self.new }
    {
        match self {
            Cell::Flat(bytes) => bytes.replace(alloc, reference.view(), value),
            Cell::Tree(whole) => Ok(replace_tree(whole, reference, value)),
        }
    }

    /// Writes the value that the bytes lay out in the type of the reference to the place that the reference leads to, as
    /// [`FlatCell::put_bytes`], where the cell is bytes. It takes no memory. The condition: the reference leads to a
    /// value of its type.
    pub(crate) fn write_bytes(&mut self, reference: &RefInstance, bytes: &[u8]) -> BytesWrite
        requires cell { IsCell self.old }
        requires leads { LeadsIn (cell_value self.old) (reference_of reference.now) }
        ensures put { let r = reference_of reference.now in let v = cell_value self.old in CameTo result (is_bytes v) (can_write r.access) (viewed r.view v) (λ w. put_viewed r.view w v) v (cell_value self.new) (decode bytes.now r.ty) }
        ensures cell { IsCell self.new }
    {
        match self {
            Cell::Flat(cell) => cell.put_bytes(reference, bytes),
            Cell::Tree(_) => BytesWrite::NotBytes,
        }
    }

    /// Copies the bytes of the part that one view leads to over those of the part that the other leads to, where the
    /// cell is bytes and the one fits the place of the other; the parts may overlap. It takes no memory. The
    /// conditions: each view leads to a part.
    pub(crate) fn copy_within(&mut self, from: &MemView, to: &MemView) -> InPlace
        requires cell { IsCell self.old }
        requires from { IsOk (viewed (steps_of from.now) (cell_value self.old)) }
        requires to { IsOk (viewed (steps_of to.now) (cell_value self.old)) }
        ensures copied { IsOkAnd (viewed (steps_of from.now) (cell_value self.old)) (IsCopied result (is_bytes (cell_value self.old)) (cell_value self.old) (cell_value self.new) (steps_of to.now)) }
        ensures cell { IsCell self.new }
    {
        match self {
            Cell::Flat(bytes) => bytes.copy_within(from, to),
            Cell::Tree(_) => InPlace::NotBytes,
        }
    }

    /// Copies the bytes of the part of another cell that one view leads to over those of the part of this cell that
    /// the other leads to, where both cells are bytes and the one fits the place of the other. It takes no memory.
    /// The conditions: each view leads to a part.
    pub(crate) fn copy_from(&mut self, other: &Cell, from: &MemView, to: &MemView) -> InPlace
        requires own { IsCell self.old }
        requires other { IsCell other.now }
        requires from { IsOk (viewed (steps_of from.now) (cell_value other.now)) }
        requires to { IsOk (viewed (steps_of to.now) (cell_value self.old)) }
        ensures copied { IsOkAnd (viewed (steps_of from.now) (cell_value other.now)) (IsCopied result (is_bytes (cell_value other.now) && is_bytes (cell_value self.old)) (cell_value self.old) (cell_value self.new) (steps_of to.now)) }
        ensures cell { IsCell self.new }
    {
        let Cell::Flat(source) = other else {
            return InPlace::NotBytes;
        };
        match self {
            Cell::Flat(bytes) => bytes.copy_from(source, from, to),
            Cell::Tree(_) => InPlace::NotBytes,
        }
    }

    /// Puts the number into the atomic that the reference leads to in the cell. It takes no memory. The
    /// conditions: the reference leads to an atomic of numbers of the kind, and an atomic of the number may
    /// be stored.
    pub(crate) fn put_atomic_number(&mut self, reference: &RefInstance, number: LiteralInstance)
        requires cell { IsCell self.old }
        requires there { IsOkAnd (viewed (reference_of reference.now).view (cell_value self.old)) (IsAtomicOf (type_of (literal_of number))) }
        requires storable { IsStorable (atomic_of (literal_of number)) }
        ensures put { cell_value self.new ≡ put_viewed (reference_of reference.now).view (atomic_of (literal_of number)) (cell_value self.old) }
        ensures cell { IsCell self.new }
    {
        match self {
            Cell::Flat(bytes) => bytes.put_atomic_number(reference.view(), number),
            Cell::Tree(whole) => put_number_in_tree(whole, reference.view(), number),
        }
    }

    /// Puts the number in the place of that of the scalar or the atomic which begins so many bytes behind the first of
    /// the part that the reference leads to, where the cell is bytes, and says whether it is; else nothing is changed. It
    /// takes no memory. The condition: the reference leads to a part, in which one of numbers of the kind begins there.
    pub(crate) fn put_number(
        &mut self,
        reference: &RefInstance,
        at: usize,
        number: LiteralInstance,
    ) -> bool
        requires cell { IsCell self.old }
        requires there { IsOkAnd (viewed (reference_of reference.now).view (cell_value self.old)) (λ x. HasNumberAt x at (literal_of number)) }
        ensures bytes { result ≡ is_bytes (cell_value self.old) }
        ensures put { OnTrue result ((path : List ℕ) → IsOkAnd (viewed (reference_of reference.now).view (cell_value self.old)) (λ x. IsNumberAt x path at (literal_of number) → cell_value self.new ≡ put_viewed (reference_of reference.now).view (number_put path (literal_of number) x) (cell_value self.old))) }
        ensures same { OnFalse result (cell_value self.new ≡ cell_value self.old) }
        ensures cell { IsCell self.new }
    {
        match self {
            Cell::Flat(bytes) => {
                bytes.put_number(reference.view(), at, number);
                true
            }
            Cell::Tree(_) => false,
        }
    }
}

// `Cell::replace` in a cell that is a tree.
fn replace_tree(
    whole: &mut Instance,
    reference: &RefInstance,
    value: &mut Instance,
) -> Option<Instance>
    requires leads { LeadsIn (value_of whole.old) (reference_of reference.now) }
    requires storable { IsStorable (value_of value.old) }
    ensures exchanged { IsExchanged (option_map value_of result) (value_of whole.old) (value_of whole.new) (reference_of reference.now).view (value_of value.old) }
    ensures back { IfNone result (value_of value.new ≡ value_of value.old) }
{
    let Some(part) = part_viewed(whole, reference.view()) else {
        unreachable!()
    };
    if !fits_place(value, reference.target_ty(), part) {
        return None;
    }
    let new = mem::replace(value, Instance::from(LiteralInstance::Bool(false)));
    whole.put(reference.view(), new)
}

// `Cell::put_atomic_number` in a cell that is a tree: the number stands in the place of the atomic while that
// is out of the tree.
fn put_number_in_tree(whole: &mut Instance, view: &MemView, number: LiteralInstance)
    requires { IsOkAnd (viewed (steps_of view.now) (value_of whole.old)) (IsAtomicOf (type_of (literal_of number))) }
    ensures { value_of whole.new ≡ put_viewed (steps_of view.now) (atomic_of (literal_of number)) (value_of whole.old) }
{
    let Some(atomic) = whole.put(view, Instance::from(number)) else {
        unreachable!()
    };
    let _ = whole.put(view, with_number(atomic, number));
}

// Whether the view goes on to a part of the value.
fn has_steps(view: &MemView) -> bool
    ensures { result ≡ has_steps (steps_of view.now) }
{
    !matches!(view, MemView::Whole)
}

impl<'a> Part<'a> {
    /// The first member of the name: structures alone have members.
    pub(crate) fn member(self, name: &str) -> Option<Part<'a>>
        requires { IsPart self }
        ensures value { option_map part_value result ≡ option_map (λ p. p.1) (member_named name.now (part_value self.entry)) }
        ensures part { IfSome result IsPart }
    {
        match self {
            Part::Flat(part) => Some(Part::Flat(part.member(name)?)),
            Part::Tree(value) => Some(Part::Tree(member(value, name)?)),
        }
    }

    /// The part of the index: arrays, vectors and matrices have indexed parts.
    pub(crate) fn index(self, i: usize) -> Option<Part<'a>>
        requires { IsPart self }
        ensures value { option_map part_value result ≡ option_map (λ p. p.1) (result_ok (part_at i (part_value self.entry))) }
        ensures part { IfSome result IsPart }
    {
        match self {
            Part::Flat(part) => Some(Part::Flat(part.index(i)?)),
            Part::Tree(value) => Some(Part::Tree(indexed(value, i)?)),
        }
    }

    /// The part that the view leads to; `None` where it leads nowhere.
    pub(crate) fn viewed(self, view: &MemView) -> Option<Part<'a>>
        requires { IsPart self }
        ensures value { option_map part_value result ≡ result_ok (viewed (steps_of view.now) (part_value self.entry)) }
        ensures part { IfSome result IsPart }
    {
        match self {
            Part::Flat(part) => Some(Part::Flat(part.viewed(view)?)),
            Part::Tree(value) => Some(Part::Tree(part_viewed(value, view)?)),
        }
    }

    /// Whether the part is a vector.
    pub(crate) fn is_vector(self) -> bool
        ensures { result ≡ is_vector (part_value self.entry) }
    {
        match self {
            Part::Flat(part) => part.is_vector(),
            Part::Tree(value) => matches!(value, Instance::Vec(_)),
        }
    }

    /// Whether the last step of the view is taken from a vector.
    pub(crate) fn leads_to_component(self, view: &MemView) -> bool
        requires { IsPart self }
        ensures { result ≡ leads_to_component (λ steps. viewed steps (part_value self.entry)) (steps_of view.now) }
    {
        match view {
            MemView::Whole => false,
            MemView::Member(_, rest) | MemView::Index(_, rest) if !has_steps(rest) => {
                self.is_vector()
            }
            MemView::Member(name, rest) => match self.member(name.as_str()) {
                Some(part) => part.leads_to_component(rest),
                None => false,
            },
            MemView::Index(i, rest) => match self.index(*i) {
                Some(part) => part.leads_to_component(rest),
                None => false,
            },
        }
    }

    /// The type of the part. The condition: it may be stored.
    pub(crate) fn ty(self, alloc: Global) -> Result<Type, AllocError>
        requires part { IsPart self }
        requires storable { IsStorable (part_value self) }
        ensures { IfOk result (λ t. type_view t ≡ type_of (part_value self.entry)) }
    {
        match self {
            Part::Flat(part) => part.ty(alloc),
            Part::Tree(value) => value.ty(alloc),
        }
    }

    /// Whether the part is of this type. The condition: it may be stored.
    pub(crate) fn has_ty(self, ty: &Type) -> bool
        requires part { IsPart self }
        requires storable { IsStorable (part_value self) }
        ensures { IsTrue result ↔ (type_of (part_value self.entry) ≡ type_view ty.now) }
    {
        match self {
            Part::Flat(part) => part.has_ty(ty),
            Part::Tree(value) => value.has_ty(ty),
        }
    }

    /// A copy of the value of the part.
    pub(crate) fn value(self, alloc: Global) -> Result<Instance, AllocError>
        requires { IsPart self }
        ensures { IfOk result (λ v. value_of v ≡ part_value self.entry) }
    {
        match self {
            Part::Flat(part) => part.value(alloc),
            Part::Tree(value) => value.clone(alloc),
        }
    }

    /// The number of the atomic that the part is; `None` where it is no atomic. The condition: it may be
    /// stored.
    pub(crate) fn atomic_number(self) -> Option<LiteralInstance>
        requires part { IsPart self }
        requires storable { IsStorable (part_value self) }
        ensures { option_map literal_of result ≡ number_in (part_value self.entry) }
    {
        match self {
            Part::Flat(part) => part.atomic_number(),
            Part::Tree(value) => atomic_number(value),
        }
    }

    /// How many elements the array has that the part is; `None` where it is no array.
    pub(crate) fn element_count(self) -> Option<usize>
        ensures { result ≡ elements_in (part_value self.entry) }
    {
        match self {
            Part::Flat(part) => part.element_count(),
            Part::Tree(value) => element_count(value),
        }
    }

    /// Why there is no part of the index: `NotIndexable`, or `OutOfBounds` past the end. The conditions:
    /// there is none, and the part may be stored.
    pub(crate) fn no_part(self, alloc: Global, i: usize) -> Result<Error, AllocError>
        requires part { IsPart self }
        requires none { result_ok (part_at i (part_value self)) ≡ None }
        requires storable { IsStorable (part_value self) }
        ensures { IfOk result (λ e. IsSomeAnd (refusal_of e) (λ f. part_at i (part_value self.entry) ≡ Err f)) }
    {
        match self {
            Part::Flat(part) => part.no_part(alloc, i),
            Part::Tree(value) => no_part(alloc, value, i),
        }
    }

    /// The value of the part in the type; `None` where it does not convert to it. The condition: it is
    /// well-formed.
    pub(crate) fn convert_to(self, alloc: Global, ty: &Type) -> Result<Option<Instance>, AllocError>
        requires part { IsPart self }
        requires well_formed { IsWellFormed (part_value self) }
        ensures { IfOk result (λ o. option_map value_of o ≡ converted (part_value self.entry) (type_view ty.now)) }
    {
        match self {
            Part::Flat(part) => part.value(alloc)?.convert_to(alloc, ty),
            Part::Tree(value) => value.convert_to(alloc, ty),
        }
    }
}

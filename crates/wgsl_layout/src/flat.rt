//! Cells that hold their values as bytes (WGSL: memory locations; internal layout of values).

ghost use Rattle.std.specs.Prelude.{◌≡◌, IfSome, IsSome, Some};
ghost use Rattle.wgsl_rules.specs.Access.{can_write};
ghost use Rattle.wgsl_rules.specs.Layout.{layout};
ghost use Rattle.wgsl_rules.specs.View.{type_view};
ghost use Rattle.wgsl_layout.specs.FlatCells.{owned_type};
ghost use Rattle.wgsl_layout.specs.Layouts.{HasRoom};
ghost use Rattle.wgsl_layout.specs.Located.{IsLocated, part_range};
ghost use Rattle.wgsl_layout.specs.Ranges.{view_range};
ghost use Rattle.wgsl_values.specs.View.{reference_of, steps_of};

use crate::in_place::{BytesWrite, InPlace};
use crate::laws::a_literal_may_be_stored;
use crate::layout::Layout;
use crate::located::Located;
use crate::make::TypePlan;
use crate::reader::read_literal;
use crate::writer::{runtime_count, write_literal};
use std::alloc::{AllocError, Global};
use std::marker::Model;
use std::sync::Arc;
use wgsl_rules::{Ty, Type};
use wgsl_scalar::{Error, LiteralInstance};
use wgsl_values::{Instance, MemView, RefInstance};

/// A cell that holds its value as bytes: a value of a type that has a layout ([`Type::has_layout`]), as the bytes that
/// [`crate::Buffers::to_buffer`] makes of it, in memory of the cell's own (WGSL: memory locations; internal layout of
/// values). Each number stands little-endian at its place, an atomic as its content, and every byte that is padding is
/// 0 at all times.
///
/// The type of the value stays, and so does the number of elements of a runtime-sized array: what is written changes
/// numbers alone, and the bytes stay as many. The cell has the layout of its type by itself, or shares one with others;
/// nothing else tells the two apart.
///
/// Parts are named by views, from the whole on: members by name, elements, columns and components by index from 0. A
/// view leads to a part where [`FlatPart::viewed`] of [`FlatCell::whole`] answers one. Positions and lengths are
/// counted in bytes, the parts of an array, a vector or a matrix one by one.
///
/// No call here asks for access but [`FlatCell::put_bytes`]. Contracts see the value.
#[derive(Drop)]
pub struct FlatCell {
    owner: Owner,
    count: usize,
    bytes: Vec<u8>,
}

/// Who has the layout of a cell.
#[derive(Drop)]
pub(crate) enum Owner {
    /// The cell alone.
    Own(Layout),
    /// All that share it.
    Shared(Arc<Layout>),
}

impl Model for FlatCell {
    ghost use Rattle.wgsl_rules.specs.Codes.{val_code};
    ghost use Rattle.wgsl_rules.specs.Values.{Val};

    ghost Value = { Val };

    ghost coded = { val_code };

    ghost use Rattle.wgsl_layout.specs.FlatCells.{IsFlatCell, flat_value};

    ghost view = { flat_value };

    ghost invariant = { IsFlatCell };
}

/// A part of the value of a cell of bytes, lent while it is looked at: the whole, a member, an element, a column of a
/// matrix, or a component of a vector (WGSL: memory views; composite value decomposition expressions). It refers to the
/// bytes and the layout of the cell, and is copied at will; no value is made of the part before [`FlatPart::value`].
///
/// Most calls on it ask as a condition that it is located in its bytes, as [`FlatCell::whole`] and the calls that lead
/// to further parts promise.
#[derive(Clone, Copy)]
pub struct FlatPart<'a> {
    bytes: &'a [u8],
    located: Located<'a>,
}

impl FlatCell {
    ghost use Rattle.std.specs.Prelude.{
      ◌≡◌,
      ◌↔◌,
      ℕ,
      List,
      false,
      length,
      take,
      true,
      IfOk,
      IsOk,
      IsOkAnd,
      IsTrue,
      MatchOption,
      OnErr,
      option_map,
    };
    ghost use Rattle.std.specs.Bool.{OnFalse, OnTrue};
    ghost use Rattle.wgsl_rules.specs.Access.{can_write};
    ghost use Rattle.wgsl_rules.specs.Layout.{has_layout};
    ghost use Rattle.wgsl_rules.specs.Paths.{put_viewed, viewed};
    ghost use Rattle.wgsl_rules.specs.Values.{IsStorable, atomic_of, type_of};
    ghost use Rattle.wgsl_rules.specs.View.{type_view};
    ghost use Rattle.wgsl_scalar.specs.Literals.{literal_of};
    ghost use Rattle.wgsl_layout.specs.Atomics.{IsAtomicOf};
    ghost use Rattle.wgsl_layout.specs.Buffers.{buffer, decode};
    ghost use Rattle.wgsl_layout.specs.Fitting.{LeadsIn};
    ghost use Rattle.wgsl_layout.specs.Copies.{IsCopied};
    ghost use Rattle.wgsl_layout.specs.Exchanges.{IsExchanged};
    ghost use Rattle.wgsl_layout.specs.Fitting.{FitsAt};
    ghost use Rattle.wgsl_layout.specs.FlatCells.{IsFlatPart, IsPartAt, owned_type, part_value};
    ghost use Rattle.wgsl_layout.specs.LaidOut.{CameTo};
    ghost use Rattle.wgsl_layout.specs.NumbersIn.{HasNumberAt, IsNumberAt, number_put};
    ghost use Rattle.wgsl_values.specs.View.{reference_of, value_of, steps_of};

    /// A cell of the value, with a layout of its own; `None` exactly where the type of the value has no layout
    /// ([`Type::has_layout`]). The condition: the value may be stored, as `is_storable` tests.
    /// It calls itself for each level of the value: keep to 4,095 within a stack of 8 MiB.
    pub fn new(alloc: Global, value: &Instance) -> Result<Option<FlatCell>, AllocError>
        requires { IsStorable (value_of value.now) }
        ensures { let v = value_of value.now in IfOk result (λ o. MatchOption o (has_layout (type_of v) ≡ false) (λ c. c ≡ v)) }
    {
        let ty = value.ty(alloc)?;
        let of_type = TypePlan::of_type(alloc, &ty)?;
        if !of_type.has_layout {
            return Ok(None);
        }
        let layout = Layout::from_plan(ty, of_type.plan);
        let bytes = layout.write_whole(alloc, value)?;
        Ok(Some(FlatCell {
            owner: Owner::Own(layout),
            count: runtime_count(value),
            bytes,
        }))
    }

    /// A cell of the value of the type that the bytes lay out, from the first byte on, as [`crate::read_buffer`] reads
    /// it; the numbers alone are copied, and no value is made. A runtime-sized array has as many elements as find room
    /// (WGSL: buffer binding determines runtime-sized array element count). Padding is not looked at, and is 0 in the
    /// cell; bytes past the end of the value are ignored.
    ///
    /// The cell shares the layout where one is given and is that of the type; else, where none is given, it is that of
    /// another type, or no more owners of it can be counted, the cell has one of its own. The answer is the same.
    ///
    /// `None` exactly where the type has no layout ([`Type::has_layout`]), or there are fewer bytes than a value of the
    /// type takes, with one element at least in a runtime-sized array.
    /// It calls itself for each level of the type: keep to 4,095 within a stack of 8 MiB.
    pub fn of_bytes(
        alloc: Global,
        ty: &Type,
        layout: Option<&Arc<Layout>>,
        bytes: &[u8],
    ) -> Result<Option<FlatCell>, AllocError>
        ensures { IfOk result (λ o. o ≡ decode bytes.now (type_view ty.now)) }
    {
        if let Some(owner) = sharing(ty, layout) {
            return FlatCell::of_layout(alloc, owner, bytes);
        }
        let of_type = TypePlan::of_type(alloc, ty)?;
        if !of_type.has_layout {
            return Ok(None);
        }
        if of_type.extent().count_in(bytes.len()).is_none() {
            return Ok(None);
        }
        let own_ty = ty.clone(alloc)?;
        let layout = Layout::from_plan(own_ty, of_type.plan);
        FlatCell::of_layout(alloc, Owner::Own(layout), bytes)
    }

    // As `FlatCell::of_bytes`, of the type of the layout, which the cell has.
    fn of_layout(alloc: Global, owner: Owner, bytes: &[u8]) -> Result<Option<FlatCell>, AllocError>
        ensures { IfOk result (λ o. o ≡ decode bytes.now (owned_type owner)) }
    {
        let layout = owner.layout();
        layout.attest();
        let extent = layout.extent();
        let Some(count) = extent.count_in(bytes.len()) else {
            return Ok(None);
        };
        // They are no more than the bytes, which are counted.
        let Some(len) = extent.len(count) else {
            unreachable!()
        };
        let mut out = vec![in alloc; 0u8; len]?;
        layout.copy_whole(out.as_mut_slice(), bytes, count);
        Ok(Some(FlatCell {
            owner,
            count,
            bytes: out,
        }))
    }

    /// The whole value, lent: the part that the others are parts of.
    pub fn whole(&self) -> FlatPart<'_>
        ensures value { part_value result ≡ self.now }
        ensures part { IsFlatPart result }
    {
        FlatPart {
            bytes: self.bytes.as_slice(),
            located: self.owner.layout().whole(self.count, self.bytes.len()),
        }
    }

    /// The bytes of the part that the view leads to, lent: from its first byte to behind its last, with the padding
    /// inside it, as many as [`crate::Buffers::to_buffer`] makes of the value of the part: the tail padding of a
    /// structure is among them, and none behind a vector of three components. The condition: the view leads to a part.
    pub fn bytes_at(&self, view: &MemView) -> &[u8]
        requires { IsOk (viewed (steps_of view.now) self.now) }
        ensures bytes { IsOkAnd (viewed (steps_of view.now) self.now) (λ x. result.now ≡ buffer x) }
        ensures laid { has_layout (type_of self.now) ≡ true }
    {
        if let MemView::Whole = view {
            return self.bytes.as_slice();
        }
        self.part_at(view).slice(self.bytes.as_slice())
    }

    /// The bytes of the cell from the first of the part on that the view leads to, lent: they begin with those that
    /// [`FlatCell::bytes_at`] lends and go on to the last of the cell, and the length of the part is not found. The
    /// condition: the view leads to a part.
    pub fn bytes_from(&self, view: &MemView) -> &[u8]
        requires { IsOk (viewed (steps_of view.now) self.now) }
        ensures bytes { IsOkAnd (viewed (steps_of view.now) self.now) (λ x. take (length (buffer x)) result.now ≡ buffer x) }
        ensures laid { has_layout (type_of self.now) ≡ true }
    {
        let start = self.part_at(view).start;
        &self.bytes.as_slice()[start..]
    }

    // Where the part stands that the view leads to. The condition: the view leads to a part.
    fn part_at(&self, view: &MemView) -> Located<'_>
        requires { IsOk (viewed (steps_of view.now) self.now) }
        ensures part { IsPartAt self.now (steps_of view.now) result }
        ensures laid { has_layout (type_of self.now) ≡ true }
        ensures storable { IsStorable self.now }
    {
        part_of(&self.owner, self.count, self.bytes.len(), view)
    }

    /// Puts the value in the place of the part that the view leads to, where it fits there, and says whether it did
    /// (WGSL: assignment statement). It fits as [`FlatPart::fits`] tells: it is of the part's type, and a runtime-sized
    /// array has as many elements as there. Else nothing is changed; every byte outside the part stays in any case. It
    /// takes no memory. The conditions: the value may be stored, as `is_storable` tests, and the view leads to a part.
    /// It calls itself for each level of the type: keep to 4,095 within a stack of 8 MiB.
    pub fn put(&mut self, view: &MemView, value: &Instance) -> bool
        requires storable { IsStorable (value_of value.now) }
        requires there { IsOk (viewed (steps_of view.now) self.old) }
        ensures fit { IsTrue result ↔ FitsAt (value_of value.now) (viewed (steps_of view.now) self.old) }
        ensures put { OnTrue result (self.new ≡ put_viewed (steps_of view.now) (value_of value.now) self.old) }
        ensures same { OnFalse result (self.new ≡ self.old) }
    {
        let part = part_of(&self.owner, self.count, self.bytes.len(), view);
        if !part.fits(value) {
            return false;
        }
        part.write(self.bytes.as_mut_slice(), value);
        true
    }

    /// Puts the value in the place of the part that the view leads to, where it fits there, as [`FlatCell::put`] does, and
    /// answers the value that stood there: a copy in memory of its own, made before anything is written. `None` where the
    /// value does not fit. After that, and after want of memory, nothing is changed; every byte outside the part stays in
    /// any case. The conditions: the value may be stored, as `is_storable` tests, and the view leads to a part.
    /// It calls itself for each level of the type: keep to 4,095 within a stack of 8 MiB.
    pub fn replace(
        &mut self,
        alloc: Global,
        view: &MemView,
        value: &Instance,
    ) -> Result<Option<Instance>, AllocError>
        requires storable { IsStorable (value_of value.now) }
        requires there { IsOk (viewed (steps_of view.now) self.old) }
        ensures exchanged { IfOk result (λ o. IsExchanged (option_map value_of o) self.old self.new (steps_of view.now) (value_of value.now)) }
        ensures err { OnErr result (self.new ≡ self.old) }
    {
        let part = part_of(&self.owner, self.count, self.bytes.len(), view);
        if !part.fits(value) {
            return Ok(None);
        }
        let old = part.read(alloc, self.bytes.as_slice())?;
        let bytes = self.bytes.as_mut_slice();
        part.write(bytes, value);
        Ok(Some(old))
    }

    /// Copies the numbers of the value that the bytes lay out, from the first byte on, to the place that the view of
    /// the reference leads to; which cell it names is not looked at. The value is of the type of the reference, and a
    /// runtime-sized array has as many elements as find room in the bytes; their padding is not looked at, and bytes
    /// past the end of the value are ignored.
    ///
    /// Refusals in order, after which nothing is changed: `NoValue` where the bytes are fewer than a value of the type
    /// takes, `NotWrite` where the access of the reference may not write, `Misfit` where a runtime-sized array has
    /// another number of elements than the one that stands there. `NotBytes` is never answered. Every byte outside the
    /// place stays in any case. It takes no memory. The condition: the reference leads to a value of its type.
    /// It calls itself for each level of the type: keep to 4,095 within a stack of 8 MiB.
    pub fn put_bytes(&mut self, reference: &RefInstance, bytes: &[u8]) -> BytesWrite
        requires { LeadsIn self.old (reference_of reference.now) }
        ensures put { let r = reference_of reference.now in CameTo result true (can_write r.access) (viewed r.view self.old) (λ w. put_viewed r.view w self.old) self.old self.new (decode bytes.now r.ty) }
        ensures laid { has_layout (type_of self.old) ≡ true }
    {
        let part = part_of(&self.owner, self.count, self.bytes.len(), reference.view());
        let Some(count) = part.count_in(bytes.len()) else {
            return BytesWrite::NoValue;
        };
        if !may_write(reference) {
            return BytesWrite::NotWrite;
        }
        if !part.has_count(count) {
            return BytesWrite::Misfit;
        }
        part.copy_numbers(self.bytes.as_mut_slice(), bytes);
        BytesWrite::Done
    }

    /// Copies the part that one view leads to over the part of the same cell that the other leads to, as they were
    /// before the copy: `Done` where the one fits the place of the other, which is of the same type and has as many
    /// elements in a runtime-sized array; else `Misfit`, and nothing is changed. `NotBytes` is never answered. The
    /// parts may overlap, and every byte outside the second stays. It takes no memory. The conditions: each view leads
    /// to a part.
    /// It calls itself for each level of the type: keep to 4,095 within a stack of 8 MiB.
    pub fn copy_within(&mut self, from: &MemView, to: &MemView) -> InPlace
        requires from { IsOk (viewed (steps_of from.now) self.old) }
        requires to { IsOk (viewed (steps_of to.now) self.old) }
        ensures copied { IsOkAnd (viewed (steps_of from.now) self.old) (IsCopied result true self.old self.new (steps_of to.now)) }
        ensures laid { has_layout (type_of self.old) ≡ true }
    {
        let source = part_of(&self.owner, self.count, self.bytes.len(), from);
        let target = part_of(&self.owner, self.count, self.bytes.len(), to);
        if !target.is_like(source) {
            return InPlace::Misfit;
        }
        target.copy_within(self.bytes.as_mut_slice(), source);
        InPlace::Done
    }

    /// Copies the part of another cell that one view leads to over the part of this cell that the other leads to, as
    /// [`FlatCell::copy_within`] does in one cell, with the same refusal; the cells may be of different types. It takes
    /// no memory. The conditions: each view leads to a part.
    /// It calls itself for each level of the types: keep to 4,095 within a stack of 8 MiB.
    pub fn copy_from(&mut self, other: &FlatCell, from: &MemView, to: &MemView) -> InPlace
        requires from { IsOk (viewed (steps_of from.now) other.now) }
        requires to { IsOk (viewed (steps_of to.now) self.old) }
        ensures copied { IsOkAnd (viewed (steps_of from.now) other.now) (IsCopied result true self.old self.new (steps_of to.now)) }
        ensures own { has_layout (type_of self.old) ≡ true }
        ensures other { has_layout (type_of other.now) ≡ true }
    {
        let source = other.part_at(from);
        let target = part_of(&self.owner, self.count, self.bytes.len(), to);
        if !target.is_like(source) {
            return InPlace::Misfit;
        }
        let part = source.slice(other.bytes.as_slice());
        target.copy_from(self.bytes.as_mut_slice(), part);
        InPlace::Done
    }

    /// Puts the number into the atomic that the view leads to, and changes nothing else (WGSL: atomic types). It takes
    /// no memory. The conditions: the view leads to an atomic of numbers of the kind, and an atomic of the number may
    /// be stored: of an `i32` or a `u32`.
    pub fn put_atomic_number(&mut self, view: &MemView, number: LiteralInstance)
        requires there { IsOkAnd (viewed (steps_of view.now) self.old) (IsAtomicOf (type_of (literal_of number))) }
        requires storable { IsStorable (atomic_of (literal_of number)) }
        ensures { self.new ≡ put_viewed (steps_of view.now) (atomic_of (literal_of number)) self.old }
    {
        let part = part_of(&self.owner, self.count, self.bytes.len(), view);
        part.write_atomic_number(self.bytes.as_mut_slice(), number);
    }

    /// Puts the number in the place of that of the scalar or the atomic which begins `at` bytes behind the first of the
    /// part that the view leads to, 0 of the part itself, and changes nothing else. It takes no memory. The condition:
    /// the view leads to a part, in which one of numbers of the kind begins there.
    pub fn put_number(&mut self, view: &MemView, at: usize, number: LiteralInstance)
        requires { IsOkAnd (viewed (steps_of view.now) self.old) (λ x. HasNumberAt x at (literal_of number)) }
        ensures put { (path : List ℕ) → IsOkAnd (viewed (steps_of view.now) self.old) (λ x. IsNumberAt x path at (literal_of number) → self.new ≡ put_viewed (steps_of view.now) (number_put path (literal_of number) x) self.old) }
        ensures laid { has_layout (type_of self.old) ≡ true }
    {
        a_literal_may_be_stored(number);
        let start = self.part_at(view).start;
        write_literal(self.bytes.as_mut_slice(), start + at, number);
    }
}

impl Owner {
    ghost use Rattle.std.specs.Prelude.{◌≡◌};
    ghost use Rattle.wgsl_layout.specs.FlatCells.{owned_type};

    /// The layout.
    fn layout(&self) -> &Layout
        ensures { result.now ≡ owned_type self.now }
    {
        match self {
            Owner::Own(layout) => layout,
            Owner::Shared(layout) => layout,
        }
    }
}

// The layout for one more that shares it, where it is that of the type and its owners can be counted.
fn sharing(ty: &Type, layout: Option<&Arc<Layout>>) -> Option<Owner>
    ensures { IfSome result (λ o. owned_type o ≡ type_view ty.now) }
{
    let layout = layout?;
    if *layout.ty() == *ty {
        return match Arc::try_clone(layout) {
            Ok(layout) => Some(Owner::Shared(layout)),
            Err(_) => None,
        };
    }
    None
}

// Where the part stands that the view leads to, in so many bytes of a value with so many elements. The condition: the
// view leads to a part.
fn part_of<'a>(owner: &'a Owner, count: usize, len: usize, view: &MemView) -> Located<'a>
    requires room { HasRoom count (owned_type owner.now) len }
    requires there { IsSome (view_range (steps_of view.now) (layout count (owned_type owner.now))) }
    ensures there { IsLocated result }
    ensures found { view_range (steps_of view.now) (layout count (owned_type owner.now)) ≡ Some (part_range result) }
    ensures whole { result.len ≡ len }
{
    let layout = owner.layout();
    if let MemView::Whole = view {
        return layout.whole(count, len);
    }
    match layout.viewed(count, len, view) {
        Some(part) => part,
        None => unreachable!(),
    }
}

// Whether the reference may write.
fn may_write(reference: &RefInstance) -> bool
    ensures { result ≡ can_write (reference_of reference.now).access }
{
    reference.access().is_write()
}

impl<'a> FlatPart<'a> {
    ghost use Rattle.std.specs.Prelude.{
      ◌≡◌,
      ◌↔◌,
      Err,
      IfOk,
      IfSome,
      IsSomeAnd,
      IsTrue,
      None,
      option_map,
    };
    ghost use Rattle.std.specs.Result.{result_ok};
    ghost use Rattle.wgsl_rules.specs.Paths.{fits, member_named, part_at, viewed};
    ghost use Rattle.wgsl_rules.specs.Values.{IsStorable, type_of};
    ghost use Rattle.wgsl_rules.specs.View.{type_view};
    ghost use Rattle.wgsl_scalar.specs.Answers.{refusal_of};
    ghost use Rattle.wgsl_scalar.specs.Literals.{literal_of};
    ghost use Rattle.wgsl_layout.specs.Arrays.{elements_in};
    ghost use Rattle.wgsl_layout.specs.Atomics.{number_in};
    ghost use Rattle.wgsl_layout.specs.Components.{is_vector};
    ghost use Rattle.wgsl_layout.specs.FlatCells.{IsFlatPart, part_value};
    ghost use Rattle.wgsl_values.specs.View.{value_of, steps_of};

    /// The first member of the name; `None` where there is none: structures alone have members (WGSL: structure access
    /// expression).
    pub fn member(self, name: &str) -> Option<FlatPart<'a>>
        requires { IsFlatPart self }
        ensures value { option_map part_value result ≡ option_map (λ p. p.1) (member_named name.now (part_value self.entry)) }
        ensures part { IfSome result IsFlatPart }
    {
        let located = self.located.member(name)?;
        Some(FlatPart {
            bytes: self.bytes,
            located,
        })
    }

    /// The part of the index, from 0 on: an element of an array, a component of a vector, a column of a matrix. `None`
    /// past the end, or where it is none of these; [`FlatPart::no_part`] tells which.
    pub fn index(self, i: usize) -> Option<FlatPart<'a>>
        requires { IsFlatPart self }
        ensures value { option_map part_value result ≡ option_map (λ p. p.1) (result_ok (part_at i (part_value self.entry))) }
        ensures part { IfSome result IsFlatPart }
    {
        let located = self.located.index(i)?;
        Some(FlatPart {
            bytes: self.bytes,
            located,
        })
    }

    /// The part that the view leads to from this one on, by [`FlatPart::member`] and [`FlatPart::index`] for its steps,
    /// the outermost first; this part itself where it has none. `None` where a step leads nowhere.
    pub fn viewed(self, view: &MemView) -> Option<FlatPart<'a>>
        requires { IsFlatPart self }
        ensures value { option_map part_value result ≡ result_ok (viewed (steps_of view.now) (part_value self.entry)) }
        ensures part { IfSome result IsFlatPart }
    {
        let located = self.located.viewed(view)?;
        Some(FlatPart {
            bytes: self.bytes,
            located,
        })
    }

    /// A copy of the type of the part; a runtime-sized array has no number of elements there.
    /// It calls itself for each level of the type: keep to 4,095 within a stack of 8 MiB.
    pub fn ty(self, alloc: Global) -> Result<Type, AllocError>
        requires { IsFlatPart self }
        ensures { IfOk result (λ t. type_view t ≡ type_of (part_value self.entry)) }
    {
        self.located.ty(alloc)
    }

    /// Whether the part is of this type, as `==` compares it with [`FlatPart::ty`], which is not made.
    /// It calls itself for each level of the types: keep to 4,095 within a stack of 8 MiB.
    pub fn has_ty(self, ty: &Type) -> bool
        requires { IsFlatPart self }
        ensures { IsTrue result ↔ (type_view ty.now ≡ type_of (part_value self.entry)) }
    {
        self.located.has_ty(ty)
    }

    /// Whether the part is a vector; a column of a matrix is one.
    pub fn is_vector(self) -> bool
        ensures { result ≡ is_vector (part_value self.entry) }
    {
        self.located.is_vector()
    }

    /// The value of the part, read from its bytes: a copy in memory of its own.
    /// It calls itself for each level of the type: keep to 4,095 within a stack of 8 MiB.
    pub fn value(self, alloc: Global) -> Result<Instance, AllocError>
        requires { IsFlatPart self }
        ensures { IfOk result (λ v. value_of v ≡ part_value self.entry) }
    {
        self.located.read(alloc, self.bytes)
    }

    /// The number of the atomic that the part is; `None` where it is no atomic (WGSL: atomic types).
    pub fn atomic_number(self) -> Option<LiteralInstance>
        requires { IsFlatPart self }
        ensures { option_map literal_of result ≡ number_in (part_value self.entry) }
    {
        let content = self.located.atomic_content()?;
        Some(read_literal(self.bytes, self.located.start, content))
    }

    /// How many elements the array has that the part is, of a fixed size or runtime-sized; `None` where it is no array,
    /// as a vector, a matrix, and a structure that ends in one.
    pub fn element_count(self) -> Option<usize>
        ensures { result ≡ elements_in (part_value self.entry) }
    {
        self.located.element_count()
    }

    /// Whether the value fits the place of the part: it is of the part's type, and has the same paths, so as many
    /// elements in the runtime-sized array that the type is or ends in. The condition: the value may be stored, as
    /// `is_storable` tests.
    /// It calls itself for each level of the type: keep to 4,095 within a stack of 8 MiB.
    pub fn fits(self, value: &Instance) -> bool
        requires part { IsFlatPart self }
        requires storable { IsStorable (value_of value.now) }
        ensures { result ≡ fits (value_of value.now) (part_value self.entry) }
    {
        self.located.fits(value)
    }

    /// Why there is no part of the index: `NotIndexable` with the type where the part has no indexed parts, else
    /// `OutOfBounds` with the index, the type and the number of parts. The condition: there is none, as
    /// [`FlatPart::index`] tells.
    /// It calls itself for each level of the type: keep to 4,095 within a stack of 8 MiB.
    pub fn no_part(self, alloc: Global, i: usize) -> Result<Error, AllocError>
        requires part { IsFlatPart self }
        requires none { result_ok (part_at i (part_value self)) ≡ None }
        ensures { IfOk result (λ e. IsSomeAnd (refusal_of e) (λ f. part_at i (part_value self.entry) ≡ Err f)) }
    {
        let ty = self.ty(alloc)?;
        if self.located.is_indexable() {
            Ok(Error::OutOfBounds(i, ty, self.located.part_count()))
        } else {
            Ok(Error::NotIndexable(ty))
        }
    }
}

//! Layouts: where the parts of the values of a type stand in bytes, found once for the type, and what is read and
//! written in bytes of the caller's (WGSL: internal layout of values; memory views).

ghost use Rattle.std.specs.Prelude.{
  ◌≡◌,
  ◌+◌,
  ◌^◌,
  ◌≤◌,
  ℕ,
  IfOk,
  MatchOption,
  OnErr,
  IfSome,
  false,
  length,
  option_and_then,
  option_map,
};
ghost use Rattle.std.specs.Result.{result_ok};
ghost use Rattle.wgsl_rules.specs.Layout.{
  HasLayout,
  count_in,
  has_fixed_layout,
  has_layout,
  layout_len,
  length_in,
  type_in,
};
ghost use Rattle.wgsl_rules.specs.Paths.{viewed};
ghost use Rattle.wgsl_rules.specs.Values.{IsStorable};
ghost use Rattle.wgsl_rules.specs.View.{type_view};
ghost use Rattle.wgsl_layout.specs.Buffers.{decode};
ghost use Rattle.wgsl_layout.specs.Ranges.{bytes_in};
ghost use Rattle.wgsl_values.specs.View.{steps_of, value_of};

use crate::copier::copy_numbers;
use crate::extent::Extent;
use crate::located::Located;
use crate::make::TypePlan;
use crate::plan::Plan;
use crate::writer::write_whole;
use std::alloc::{AllocError, Global};
use std::fmt;
use std::marker::Model;
use std::ops::Range;
use wgsl_rules::Type;
use wgsl_values::{Instance, MemView};

/// The layout of a type: where the parts of its values stand in bytes. It is made once, and then serves any number
/// of reads and writes of bytes of the caller's, which hold a value of the type from their first byte on. Contracts
/// see the type.
#[derive(Drop)]
pub struct Layout {
    ty: Type,
    plan: Plan,
}

impl Model for Layout {
    ghost use Rattle.wgsl_rules.specs.Codes.{ty_code};
    ghost use Rattle.wgsl_rules.specs.Types.{Ty};

    ghost Value = { Ty };

    ghost coded = { ty_code };

    ghost use Rattle.wgsl_layout.specs.Layouts.{IsLayout, type_inside};

    ghost view = { type_inside };

    ghost invariant = { IsLayout };
}

/// Why a part of bytes is not named, or not written.
#[derive(Clone, Copy, Debug, PartialEq, Eq)]
pub enum LayoutRefusal {
    /// There are fewer bytes than a value of the type takes, with one element at least in a runtime-sized array.
    TooFewBytes,
    /// The view leads to no part.
    NoPart,
    /// The value is not of the type of the part.
    OtherType,
    /// The value takes another number of bytes than the part: the runtime-sized array that its type is or ends in
    /// has another number of elements.
    OtherLength,
}

impl Layout {
    ghost use Rattle.wgsl_layout.specs.Layouts.{
      answer_map,
      part_in,
      span_of,
      written,
    };
    ghost use Rattle.wgsl_rules.specs.Layout.{layout};
    ghost use Rattle.wgsl_rules.specs.Values.{type_of};
    ghost use Rattle.wgsl_layout.specs.Buffers.{buffer, decoded};
    ghost use Rattle.wgsl_layout.specs.Layouts.{HasRoom};
    ghost use Rattle.wgsl_layout.specs.Located.{IsLocated, part_range};
    ghost use Rattle.wgsl_layout.specs.Extents.{IsExtentOf};
    ghost use Rattle.wgsl_layout.specs.Plan.{plan_of, plan_view};
    ghost use Rattle.wgsl_layout.specs.Ranges.{view_range};
    ghost use Rattle.wgsl_layout.specs.Walk.{put};

    /// The layout of the type; `None` exactly where the type has none ([`Type::has_layout`]).
    /// It calls itself for each level of the type: keep to 4,095 within a stack of 8 MiB.
    pub fn of(alloc: Global, ty: &Type) -> Result<Option<Layout>, AllocError>
        ensures { let t = type_view ty.now in IfOk result (λ o. MatchOption o (has_layout t ≡ false) (λ l. (l ≡ t) × HasLayout t)) }
    {
        let of_type = TypePlan::of_type(alloc, ty)?;
        if !of_type.has_layout {
            return Ok(None);
        }
        let ty = ty.clone(alloc)?;
        Ok(Some(Layout {
            ty,
            plan: of_type.plan,
        }))
    }

    /// The layout of the type, of which this is the plan. The condition: the type has a layout.
    pub(crate) fn from_plan(ty: Type, plan: Plan) -> Layout
        requires laid { HasLayout (type_view ty) }
        requires planned { plan_view plan ≡ plan_of (type_view ty) }
        ensures { result ≡ type_view ty }
    {
        Layout { ty, plan }
    }

    /// A copy of the layout, in memory of its own.
    /// It calls itself for each level of the type: keep to 4,095 within a stack of 8 MiB.
    pub fn clone(&self, alloc: Global) -> Result<Layout, AllocError>
        ensures { IfOk result (λ l. l ≡ self.now) }
    {
        let ty = self.ty.clone(alloc)?;
        let plan = self.plan.clone(alloc)?;
        Ok(Layout { ty, plan })
    }

    /// The type, which has a layout.
    pub fn ty(&self) -> &Type
        ensures ty { type_view result.now ≡ self.now }
        ensures laid { HasLayout self.now }
    {
        &self.ty
    }

    /// How many bytes a value takes; `None` where the type is or ends in a runtime-sized array, whose elements tell
    /// it ([`Layout::size_with`]).
    pub fn size(&self) -> Option<usize>
        ensures { MatchOption result (has_fixed_layout self.now ≡ false) (λ n. (count : ℕ) → n ≡ layout_len count self.now) }
    {
        self.extent().size()
    }

    /// How many bytes a value takes with so many elements in the runtime-sized array that the type is or ends in,
    /// which are not looked at where there is none; `None` where the bytes are 2^64 or more.
    pub fn size_with(&self, count: usize) -> Option<usize>
        ensures { MatchOption result (2 ^ 64 ≤ layout_len count self.now) (λ n. n ≡ layout_len count self.now) }
    {
        self.extent().len(count)
    }

    /// How many elements the runtime-sized array that the type is or ends in has in so many bytes, as many as find
    /// room; 0 where there is no such array. `None` where the bytes are too few for a value of the type, which has
    /// one element at least (WGSL: buffer binding determines runtime-sized array element count).
    pub fn count_in(&self, len: usize) -> Option<usize>
        ensures { result ≡ count_in len self.now }
    {
        self.extent().count_in(len)
    }

    /// The bytes of the part that the view leads to, in so many bytes: from its first byte to behind its last, with
    /// the padding inside it. Refusals in order: `TooFewBytes`, `NoPart`. No memory is taken.
    pub fn range(&self, len: usize, view: &MemView) -> Result<Range<usize>, LayoutRefusal>
        ensures range { answer_map (λ r. (r.start, r.end)) result ≡ answer_map span_of (part_in len (steps_of view.now) self.now) }
        ensures inside { IfOk result (λ r. (r.start ≤ r.end) × (r.end ≤ len)) }
    {
        let part = self.part(len, view)?;
        let end = part.start + part.size();
        Ok(part.start..end)
    }

    /// The type of the part that the view leads to, in so many bytes; `None` where [`Layout::range`] refuses.
    /// It calls itself for each level of the type: keep to 4,095 within a stack of 8 MiB.
    pub fn part_ty(
        &self,
        alloc: Global,
        len: usize,
        view: &MemView,
    ) -> Result<Option<Type>, AllocError>
        ensures { IfOk result (λ t. option_map type_view t ≡ option_map (λ r. type_in r.layout) (result_ok (part_in len (steps_of view.now) self.now))) }
    {
        match self.part(len, view) {
            Ok(part) => Ok(Some(part.ty(alloc)?)),
            Err(_) => Ok(None),
        }
    }

    /// The value of the part that the view leads to, in a value of the type that the bytes lay out from their first
    /// byte on; a runtime-sized array has as many elements as find room. It is what the bytes of the part lay out,
    /// and no byte outside [`Layout::range`] is looked at. `None` where that refuses.
    /// It calls itself for each level of the type: keep to 4,095 within a stack of 8 MiB.
    pub fn read(
        &self,
        alloc: Global,
        bytes: &[u8],
        view: &MemView,
    ) -> Result<Option<Instance>, AllocError>
        ensures value { IfOk result (λ v. option_map value_of v ≡ option_and_then (λ w. result_ok (viewed (steps_of view.now) w)) (decode bytes.now self.now)) }
        ensures bytes { IfOk result (λ v. option_map value_of v ≡ option_and_then (λ r. decode (bytes_in bytes.now r) (type_in r.layout)) (result_ok (part_in (length bytes.now) (steps_of view.now) self.now))) }
    {
        match self.part(bytes.len(), view) {
            Ok(part) => Ok(Some(part.read(alloc, bytes)?)),
            Err(_) => Ok(None),
        }
    }

    /// Overwrites the bytes of the part that the view leads to with those of the value: padding inside the part
    /// becomes 0, and every byte outside [`Layout::range`] stays as it is. Refusals in order, after which all bytes
    /// are as before: `TooFewBytes`, `NoPart`, `OtherType`, `OtherLength`. No memory is taken. The condition: the
    /// value may be stored, as `is_storable` tests.
    /// It calls itself for each level of the type: keep to 4,095 within a stack of 8 MiB.
    pub fn write(
        &self,
        bytes: &mut [u8],
        view: &MemView,
        value: &Instance,
    ) -> Result<(), LayoutRefusal>
        requires { IsStorable (value_of value.now) }
        ensures outcome { answer_map (λ _. bytes.new) result ≡ written bytes.old (steps_of view.now) self.now (value_of value.now) }
        ensures err { OnErr result (bytes.new ≡ bytes.old) }
    {
        let part = self.part(bytes.len(), view)?;
        if !part.is_type_of(value) {
            return Err(LayoutRefusal::OtherType);
        }
        if !part.is_count_of(value) {
            return Err(LayoutRefusal::OtherLength);
        }
        part.overwrite(bytes, value);
        Ok(())
    }

    /// Does nothing: its contract says what holds of every layout.
    pub(crate) fn attest(&self)
        ensures { HasLayout self.now }
    {
        let _ = &self.ty;
    }

    /// How many bytes a value takes.
    pub(crate) fn extent(&self) -> Extent
        ensures { IsExtentOf self.now result }
    {
        Extent::of(&self.ty, &self.plan)
    }

    // Where the part stands that the view leads to, in so many bytes.
    fn part(&self, len: usize, view: &MemView) -> Result<Located<'_>, LayoutRefusal>
        ensures range { answer_map part_range result ≡ part_in len (steps_of view.now) self.now }
        ensures there { IfOk result (λ p. IsLocated p × (p.len ≡ len)) }
        ensures laid { HasLayout self.now }
    {
        self.attest();
        let Some(count) = self.count_in(len) else {
            return Err(LayoutRefusal::TooFewBytes);
        };
        match self.viewed(count, len, view) {
            Some(part) => Ok(part),
            None => Err(LayoutRefusal::NoPart),
        }
    }

    /// The whole of a value with so many elements in the runtime-sized array that the type is or ends in, in so many
    /// bytes, in which it finds room.
    pub(crate) fn whole(&self, count: usize, len: usize) -> Located<'_>
        requires { HasRoom count self.now len }
        ensures range { part_range result ≡ record { start = 0; layout = layout count self.now } }
        ensures there { IsLocated result }
        ensures len { result.len ≡ len }
    {
        Located::of_whole(&self.ty, &self.plan, count, len)
    }

    /// The part that the view leads to in such a whole; `None` where it leads nowhere.
    pub(crate) fn viewed(&self, count: usize, len: usize, view: &MemView) -> Option<Located<'_>>
        requires { HasRoom count self.now len }
        ensures range { option_map part_range result ≡ view_range (steps_of view.now) (layout count self.now) }
        ensures there { IfSome result (λ p. IsLocated p × (p.len ≡ len)) }
    {
        self.whole(count, len).viewed(view)
    }

    /// The bytes of the value, which is of the type. The condition: it may be stored.
    pub(crate) fn write_whole(&self, alloc: Global, value: &Instance) -> Result<Vec<u8>, AllocError>
        requires storable { IsStorable (value_of value.now) }
        requires typed { type_of (value_of value.now) ≡ self.now }
        ensures { IfOk result (λ b. b.items ≡ buffer (value_of value.now)) }
    {
        write_whole(alloc, value, &self.plan, self.extent())
    }

    /// Copies the numbers of the value that the bytes lay out, with so many elements, as [`Layout::count_in`] tells, to
    /// where they stand in the others, which are as many as the value takes.
    pub(crate) fn copy_whole(&self, out: &mut [u8], bytes: &[u8], count: usize)
        requires from { HasRoom count self.now (length bytes.now) }
        requires to { HasRoom count self.now (length out.old) }
        ensures { out.new ≡ put (decoded bytes.now 0 (layout count self.now)) (plan_of self.now) 0 out.old }
    {
        copy_numbers(out, 0, bytes, 0, count, &self.ty, &self.plan);
    }
}

/// As `==` of the types: the rest of a layout follows from its type.
/// It calls itself for each level of the types: keep to 4,095 within a stack of 8 MiB.
impl PartialEq for Layout {
    ghost use Rattle.std.specs.Cmp.{partial_equiv_from_equiv};
    ghost use Rattle.wgsl_rules.specs.Equal.{same-equiv};
    ghost use Rattle.wgsl_rules.specs.Same.{same};

    ghost eq = { same };

    ghost laws = { partial_equiv_from_equiv same-equiv };

    fn eq(&self, other: &Layout) -> bool {
        self.ty == other.ty
    }
}

impl Eq for Layout {
    ghost use Rattle.wgsl_rules.specs.Equal.{same-equiv};

    ghost laws = { same-equiv };
}

/// The type alone.
impl fmt::Debug for Layout {
    fn fmt<W: fmt::Write>(&self, f: &mut fmt::Formatter<W>) -> fmt::Result {
        f.debug_struct("Layout")
            .field("ty", &self.ty)
            .finish_non_exhaustive()
    }
}

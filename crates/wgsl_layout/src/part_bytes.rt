//! Parts of values in bytes: how far they reach, what is read there, what fits there and how it is written (WGSL:
//! internal layout of values; memory views).

ghost use Rattle.std.specs.Prelude.{◌≡◌, ◌↔◌, IsTrue};
ghost use Rattle.wgsl_rules.specs.Types.{vec};
ghost use Rattle.wgsl_rules.specs.Values.{IsStorable, type_of};
ghost use Rattle.wgsl_rules.specs.View.{type_view};
ghost use Rattle.wgsl_values.specs.View.{vec_view};

use crate::copier::{copy_numbers, copy_vector};
use crate::extent::Extent;
use crate::located::{Located, Shape};
use crate::plan::Plan;
use crate::reader::{read_value, read_vector};
use crate::types::Types;
use crate::writer::{runtime_count, write_literal, write_value};
use std::alloc::{AllocError, Global};
use wgsl_rules::{Ty, Type};
use wgsl_scalar::LiteralInstance;
use wgsl_values::{Instance, MemView, VecInstance};

impl<'a> Located<'a> {
    ghost use Rattle.std.specs.Prelude.{
      ◌≡◌,
      ◌≤◌,
      ◌⊎◌,
      ◌↔◌,
      true,
      IfOk,
      IfSome,
      IsTrue,
      length,
      option_map,
    };
    ghost use Rattle.wgsl_rules.specs.Layout.{count_in, layout_of, length_in};
    ghost use Rattle.wgsl_rules.specs.Values.{IsStorable, atomic_of, type_of};
    ghost use Rattle.wgsl_scalar.specs.Literals.{literal_of};
    ghost use Rattle.wgsl_layout.specs.Buffers.{buffer, decoded};
    ghost use Rattle.wgsl_layout.specs.Extents.{IsExtentOf};
    ghost use Rattle.wgsl_layout.specs.Located.{
      IsInside,
      IsLocated,
      part_range,
      shape_plan,
      shape_ty,
    };
    ghost use Rattle.wgsl_layout.specs.Ranges.{bytes_in, further, overwritten, view_range};
    ghost use Rattle.wgsl_layout.specs.Walk.{put};
    ghost use Rattle.wgsl_values.specs.View.{value_of, steps_of};

    /// The whole of a value of the type, which takes `len` bytes, by the plan of the type; with `count`
    /// elements in the runtime-sized array that the type is or ends in.
    pub(crate) fn of_whole(ty: &'a Type, plan: &'a Plan, count: usize, len: usize) -> Located<'a>
        ensures { result ≡ record { start = 0; len = len; count = count; shape = Shape.Whole ty.entry plan.entry } }
    {
        Located {
            start: 0,
            len,
            count,
            shape: Shape::Whole(ty, plan),
        }
    }

    /// The part that the view leads to; `None` where it leads nowhere.
    // Compiled by itself: within its callers it would make them too large to be compiled into the calls on whole cells, which
    // have nothing to follow.
    #[inline(never)]
    pub(crate) fn viewed(self, view: &MemView) -> Option<Located<'a>>
        requires { IsLocated self }
        ensures range { option_map part_range result ≡ option_map (further self.entry.start) (view_range (steps_of view.now) (part_range self.entry).layout) }
        ensures there { IfSome result (IsInside self.entry) }
    {
        let mut part = self;
        let mut rest = view;
        loop {
            match rest {
                MemView::Whole => return Some(part),
                MemView::Member(name, behind) => {
                    part = part.member(name.as_str())?;
                    rest = behind;
                }
                MemView::Index(i, behind) => {
                    part = part.index(*i)?;
                    rest = behind;
                }
            }
        }
    }

    /// How many bytes the part has. The condition: it stands in its whole, and its plan is that of its type.
    pub(crate) fn size(self) -> usize
        requires { IsLocated self }
        ensures { result ≡ length_in (part_range self.entry).layout }
    {
        match self.extent().len(self.count) {
            Some(size) => size,
            // It stands in bytes, which are counted.
            None => unreachable!(),
        }
    }

    // How many bytes the values of the part's type take.
    fn extent(self) -> Extent
        requires { IsLocated self }
        ensures { IsExtentOf (shape_ty self.entry.shape) result }
    {
        match self.shape {
            Shape::Whole(ty, plan) => Extent::of(ty, plan),
            Shape::Column(n, component, plan) => Extent::of_vector(n, component, plan),
            Shape::Component(ty) => Extent::of_size(ty),
        }
    }

    /// The bytes of the part, lent. The conditions: the part stands in these bytes, and its plan is that of its
    /// type.
    pub(crate) fn slice<'b>(self, bytes: &'b [u8]) -> &'b [u8]
        requires located { IsLocated self }
        requires whole { self.len ≡ length bytes.now }
        ensures { result.now ≡ bytes_in bytes.now (part_range self.entry) }
    {
        let end = self.start + self.size();
        &bytes[self.start..end]
    }

    /// Whether the parts are laid out alike: they are of one type, and take as many bytes. The conditions: each
    /// stands in its whole, and its plan is that of its type.
    pub(crate) fn is_like(self, other: Located<'_>) -> bool
        requires own { IsLocated self }
        requires other { IsLocated other }
        ensures { IsTrue result ↔ ((part_range other.entry).layout ≡ (part_range self.entry).layout) }
    {
        if !self.has_ty_of(other) {
            return false;
        }
        self.count == other.count || self.size() == other.size()
    }

    /// Overwrites the bytes of the part with these. The conditions: the part stands in the bytes, and these are as
    /// many as it has.
    pub(crate) fn copy_from(self, bytes: &mut [u8], part: &[u8])
        requires located { IsLocated self }
        requires whole { self.len ≡ length bytes.old }
        requires long { length part.now ≡ length_in (part_range self).layout }
        ensures { bytes.new ≡ overwritten bytes.old self.entry.start part.now }
    {
        let end = self.start + part.len();
        bytes[self.start..end].copy_from_slice(part);
    }

    /// Overwrites the bytes of the part with those that another part of the same bytes has; the ranges of the two
    /// may overlap. The conditions: each part stands in the bytes, and they are laid out alike.
    pub(crate) fn copy_within(self, bytes: &mut [u8], other: Located<'_>)
        requires own { IsLocated self }
        requires other { IsLocated other }
        requires whole { self.len ≡ length bytes.old }
        requires one { other.len ≡ self.len }
        requires alike { (part_range other).layout ≡ (part_range self).layout }
        ensures { bytes.new ≡ overwritten bytes.old self.entry.start (bytes_in bytes.old (part_range other.entry)) }
    {
        let end = other.start + other.size();
        bytes.copy_within(other.start..end, self.start);
    }

    /// Copies the numbers of the value of the part's type that begins with the first of the bytes to the place of
    /// the part. Padding stays as it was. The conditions: the part stands in its whole, and the bytes hold such a
    /// value whole, with as many elements in a runtime-sized array as the part has.
    pub(crate) fn copy_numbers(self, out: &mut [u8], bytes: &[u8])
        requires located { IsLocated self }
        requires whole { self.len ≡ length out.old }
        requires long { length_in (part_range self).layout ≤ length bytes.now }
        ensures { out.new ≡ put (decoded bytes.now 0 (part_range self.entry).layout) (shape_plan self.entry.shape) self.entry.start out.old }
    {
        match self.shape {
            Shape::Whole(ty, plan) => {
                copy_numbers(out, self.start, bytes, 0, self.count, ty, plan)
            }
            Shape::Column(n, component, plan) => {
                copy_vector(out, self.start, bytes, 0, n, component, plan)
            }
            Shape::Component(ty) => {
                copy_numbers(out, self.start, bytes, 0, self.count, ty, &Plan::Scalar)
            }
        }
    }

    /// The value that the bytes lay out in the place of the part. The conditions: the part stands in these
    /// bytes, and its plan is that of its type.
    pub(crate) fn read(self, alloc: Global, bytes: &[u8]) -> Result<Instance, AllocError>
        requires located { IsLocated self }
        requires whole { self.len ≡ length bytes.now }
        ensures { IfOk result (λ v. value_of v ≡ decoded bytes.now self.entry.start (part_range self.entry).layout) }
    {
        match self.shape {
            Shape::Whole(ty, plan) => {
                read_value(alloc, bytes, self.start, self.count, ty, plan, Types::Own)
            }
            Shape::Column(n, component, plan) => {
                let column = read_vector(alloc, bytes, self.start, n, component, plan)?;
                Ok(Instance::from(column))
            }
            Shape::Component(ty) => {
                read_value(
                    alloc,
                    bytes,
                    self.start,
                    self.count,
                    ty,
                    &Plan::Scalar,
                    Types::Own,
                )
            }
        }
    }

    /// Whether the value has the layout of the part: it is of the part's type, and has as many elements in
    /// the runtime-sized array that the type is or ends in. The condition: the value may be stored.
    pub(crate) fn fits(self, value: &Instance) -> bool
        requires located { IsLocated self }
        requires storable { IsStorable (value_of value.now) }
        ensures { IsTrue result ↔ (layout_of (value_of value.now) ≡ (part_range self.entry).layout) }
    {
        self.is_type_of(value) && self.is_count_of(value)
    }

    /// Whether the value, which is of the part's type, has as many elements as the part in the runtime-sized
    /// array that the type is or ends in. The condition: the value may be stored.
    pub(crate) fn is_count_of(self, value: &Instance) -> bool
        requires located { IsLocated self }
        requires storable { IsStorable (value_of value.now) }
        requires typed { type_of (value_of value.now) ≡ shape_ty self.shape }
        ensures { IsTrue result ↔ (layout_of (value_of value.now) ≡ (part_range self.entry).layout) }
    {
        self.has_count(runtime_count(value))
    }

    /// Whether the value is of the part's type. The condition: the value may be stored.
    pub(crate) fn is_type_of(self, value: &Instance) -> bool
        requires { IsStorable (value_of value.now) }
        ensures { IsTrue result ↔ (type_of (value_of value.now) ≡ shape_ty self.entry.shape) }
    {
        match self.shape {
            Shape::Whole(ty, _) | Shape::Component(ty) => value.has_ty(ty),
            Shape::Column(n, component, _) => match value {
                Instance::Vec(v) => is_vector_of(v, n, component),
                Instance::Literal(_) | Instance::Struct(_) | Instance::Array(_) => false,
                Instance::Mat(_) | Instance::Ptr(_) | Instance::Ref(_) => false,
                Instance::Atomic(_) | Instance::Deferred(_) => false,
            },
        }
    }

    /// Overwrites the bytes of the part with those of the value: padding in them becomes 0, and no other byte
    /// changes. The conditions: the part stands in these bytes, its plan is that of its type, and the value has
    /// its layout and may be stored.
    pub(crate) fn overwrite(self, bytes: &mut [u8], value: &Instance)
        requires located { IsLocated self }
        requires whole { self.len ≡ length bytes.old }
        requires storable { IsStorable (value_of value.now) }
        requires alike { layout_of (value_of value.now) ≡ (part_range self).layout }
        ensures { bytes.new ≡ overwritten bytes.old self.entry.start (buffer (value_of value.now)) }
    {
        // A number has no padding.
        if let Instance::Literal(number) = value {
            return write_literal(bytes, self.start, *number);
        }
        let end = self.start + self.size();
        bytes[self.start..end].fill(0);
        self.write(bytes, value);
    }

    /// Writes the scalars of the value in the place of the part, of which it has the layout.
    pub(crate) fn write(self, bytes: &mut [u8], value: &Instance)
        requires located { IsLocated self }
        requires whole { self.len ≡ length bytes.old }
        requires storable { IsStorable (value_of value.now) }
        requires alike { layout_of (value_of value.now) ≡ (part_range self).layout }
        ensures { bytes.new ≡ put (value_of value.now) (shape_plan self.entry.shape) self.entry.start bytes.old }
    {
        match self.shape {
            Shape::Whole(_, plan) => write_value(bytes, self.start, value, plan),
            Shape::Column(_, _, plan) => write_value(bytes, self.start, value, plan),
            Shape::Component(_) => write_value(bytes, self.start, value, &Plan::Scalar),
        }
    }

    /// How many elements so many bytes of their own hold of the runtime-sized array that the type of the part is or
    /// ends in, as many as find room; 0 where there is no such array. `None` where the bytes are too few for a value of
    /// the type (WGSL: buffer binding determines runtime-sized array element count). The condition: the part stands in
    /// its whole, and its plan is that of its type.
    pub(crate) fn count_in(self, len: usize) -> Option<usize>
        requires { IsLocated self }
        ensures { result ≡ count_in len (shape_ty self.entry.shape) }
    {
        self.extent().count_in(len)
    }

    /// Whether a value of the part's type with so many elements, as [`Located::count_in`] counts them, has the layout
    /// of the part.
    pub(crate) fn has_count(self, count: usize) -> bool
        ensures { IsTrue result ↔ ((count ≡ 0) ⊎ (count ≡ self.entry.count)) }
    {
        count == 0 || count == self.count
    }

    /// Writes the number of the atomic that the part is; an atomic of this number has its layout.
    pub(crate) fn write_atomic_number(self, bytes: &mut [u8], number: LiteralInstance)
        requires located { IsLocated self }
        requires whole { self.len ≡ length bytes.old }
        requires storable { IsStorable (atomic_of (literal_of number)) }
        requires alike { layout_of (atomic_of (literal_of number)) ≡ (part_range self).layout }
        ensures { bytes.new ≡ put (atomic_of (literal_of number)) (shape_plan self.entry.shape) self.entry.start bytes.old }
    {
        write_literal(bytes, self.start, number);
    }
}

// Whether the vector has n components of the type. The condition: the vector may be stored.
fn is_vector_of(value: &VecInstance, n: u8, component: &Type) -> bool
    requires { IsStorable (vec_view value.now) }
    ensures { IsTrue result ↔ (type_of (vec_view value.now) ≡ vec n (type_view component.now)) }
{
    value.n() == usize::from(n) && value[0].has_ty(component)
}

//! Pointers and references (WGSL: reference and pointer types).

ghost use Rattle.std.specs.Cmp.{partial_equiv_from_equiv};
ghost use Rattle.std.specs.Prelude.{◌≡◌, ◌↔◌, IfOk, IsTrue, is_some, Some};
ghost use Rattle.wgsl_rules.specs.Conversion.{rank};
ghost use Rattle.wgsl_rules.specs.Types as types;
ghost use Rattle.wgsl_rules.specs.Values.{pointer, type_of};
ghost use Rattle.wgsl_rules.specs.View.{type_view};
ghost use Rattle.wgsl_values.specs.Equal.{ptrs_equiv, refs_equiv};
ghost use Rattle.wgsl_values.specs.Same.{same_value};
ghost use Rattle.wgsl_values.specs.Texts.{text_of_value};
ghost use Rattle.wgsl_values.specs.View.{value_of, ptr_view, reference_of, steps_of, ref_view};

use crate::view::MemView;
use std::alloc::{AllocError, Global};
use std::fmt;
use std::fmt::Display;
use wgsl_rules::{AccessMode, AddressSpace, Ty, Type};

/// A pointer: what it points to is what a reference names (WGSL: reference and pointer types).
#[derive(Debug, Drop)]
pub struct PtrInstance {
    pub(crate) ptr: RefInstance,
}

impl PtrInstance {
    /// The reference to what it points to.
    pub fn ptr(&self) -> &RefInstance
        ensures { pointer (reference_of result.now) ≡ ptr_view self.now }
    {
        &self.ptr
    }

    /// A copy of the pointer; what it points to is the same.
    /// It calls itself for each level of the target's type: keep to 4,095 within a stack of 8 MiB.
    pub fn clone(&self, alloc: Global) -> Result<PtrInstance, AllocError>
        ensures { IfOk result (λ p. ptr_view p ≡ ptr_view self.now) }
    {
        let ptr = self.ptr.clone(alloc)?;
        Ok(PtrInstance { ptr })
    }

    pub(crate) fn is_convertible_to(&self, ty: &Type) -> bool
        ensures { result ≡ is_some (rank (type_of (ptr_view self.now)) (type_view ty.now)) }
    {
        self.has_ty(ty)
    }
}

/// The pointer to what the reference names (WGSL: address-of expression).
impl From<RefInstance> for PtrInstance {
    ghost use Rattle.std.specs.Prelude.{◌≡◌};
    ghost use Rattle.wgsl_rules.specs.Values.{pointer};
    ghost use Rattle.wgsl_values.specs.View.{ptr_view, reference_of};

    ghost from_gives = { λ r p. ptr_view p ≡ pointer (reference_of r) };

    fn from(r: RefInstance) -> PtrInstance {
        PtrInstance { ptr: r }
    }
}

/// WGSL: reference and pointer types.
impl Ty for PtrInstance {
    ghost use Rattle.wgsl_values.specs.View.{ptr_view};

    ghost value_of = { ptr_view };

    fn ty(&self, alloc: Global) -> Result<Type, AllocError> {
        let target = self.ptr.ty.clone(alloc)?;
        Ok(Type::Ptr(self.ptr.space, Box::new(alloc, target)?, self.ptr.access))
    }

    fn inner_ty(&self, alloc: Global) -> Result<Type, AllocError> {
        self.ptr.ty.clone(alloc)
    }

    fn has_ty(&self, ty: &Type) -> bool {
        match ty.as_ptr() {
            Some((space, target, access)) => self.ptr.names(space, target, access),
            None => false,
        }
    }
}

/// The type, as `ptr<function, u32, read_write>`.
/// It calls itself for each level of the target's type: keep to 4,095 within a stack of 8 MiB.
impl Display for PtrInstance {
    ghost output = { λ p. Some (text_of_value (ptr_view p)) };

    fn fmt<W: fmt::Write>(&self, f: &mut fmt::Formatter<W>) -> fmt::Result {
        let RefInstance {
            space,
            ty,
            access,
            ..
        } = &self.ptr;
        write!(f, "ptr<{space}, {ty}, {access}>")
    }
}

/// It calls itself for each level of the target's type: keep to 4,095 within a stack of 8 MiB.
impl PartialEq for PtrInstance {
    ghost eq = { λ v w. same_value (ptr_view v) (ptr_view w) };

    ghost laws = { partial_equiv_from_equiv ptrs_equiv };

    fn eq(&self, other: &PtrInstance) -> bool {
        self.ptr == other.ptr
    }
}

impl Eq for PtrInstance {
    ghost laws = { ptrs_equiv };
}

/// A reference: a part of a cell of a memory, with its type, its address space and what may be done
/// with it (WGSL: reference and pointer types; memory views).
///
/// The cell is a number; which memory it is of is not part of the reference.
#[derive(Debug, Drop)]
pub struct RefInstance {
    pub(crate) cell: usize,
    pub(crate) view: MemView,
    pub(crate) ty: Type,
    pub(crate) space: AddressSpace,
    pub(crate) access: AccessMode,
}

impl RefInstance {
    /// A reference of these parts. Whether a store has such a cell, and the cell such a part, is not
    /// asked.
    pub fn from_parts(
        cell: usize,
        view: MemView,
        ty: Type,
        space: AddressSpace,
        access: AccessMode,
    ) -> RefInstance
        ensures { reference_of result ≡ record { cell = cell; view = steps_of view; ty = type_view ty; space = space; access = access } }
    {
        RefInstance {
            cell,
            view,
            ty,
            space,
            access,
        }
    }

    /// The number of the cell.
    pub fn cell(&self) -> usize
        ensures { result ≡ (reference_of self.now).cell }
    {
        self.cell
    }

    /// The view from the value of the cell to the part that is referred to.
    pub fn view(&self) -> &MemView
        ensures { steps_of result.now ≡ (reference_of self.now).view }
    {
        &self.view
    }

    /// The type of the part that is referred to.
    pub fn target_ty(&self) -> &Type
        ensures { type_view result.now ≡ (reference_of self.now).ty }
    {
        &self.ty
    }

    /// The address space.
    pub fn space(&self) -> AddressSpace
        ensures { result ≡ (reference_of self.now).space }
    {
        self.space
    }

    /// The access mode.
    pub fn access(&self) -> AccessMode
        ensures { result ≡ (reference_of self.now).access }
    {
        self.access
    }

    /// A copy of the reference; what it names is the same.
    /// It calls itself for each level of the target's type: keep to 4,095 within a stack of 8 MiB.
    pub fn clone(&self, alloc: Global) -> Result<RefInstance, AllocError>
        ensures { IfOk result (λ r. reference_of r ≡ reference_of self.now) }
    {
        let view = self.view.clone(alloc)?;
        let ty = self.ty.clone(alloc)?;
        Ok(RefInstance {
            cell: self.cell,
            view,
            ty,
            space: self.space,
            access: self.access,
        })
    }

    // Whether it names a part of the type, in the space, for the access.
    pub(crate) fn names(&self, space: AddressSpace, ty: &Type, access: AccessMode) -> bool
        ensures { IsTrue result ↔ (type_of (ref_view self.now) ≡ types.ref space (type_view ty.now) access) }
    {
        self.space == space && self.ty == *ty && self.access == access
    }

    // To its own type; and to that of what may be read through it.
    pub(crate) fn is_convertible_to(&self, ty: &Type) -> bool
        ensures { result ≡ is_some (rank (type_of (ref_view self.now)) (type_view ty.now)) }
    {
        self.has_ty(ty) || (self.access.is_read() && self.ty == *ty)
    }
}

/// The reference to what the pointer points to (WGSL: indirection expression).
impl From<PtrInstance> for RefInstance {
    ghost use Rattle.std.specs.Prelude.{◌≡◌};
    ghost use Rattle.wgsl_rules.specs.Values.{pointer};
    ghost use Rattle.wgsl_values.specs.View.{ptr_view, reference_of};

    ghost from_gives = { λ p r. ptr_view p ≡ pointer (reference_of r) };

    fn from(p: PtrInstance) -> RefInstance {
        p.ptr
    }
}

/// WGSL: reference and pointer types.
impl Ty for RefInstance {
    ghost use Rattle.wgsl_values.specs.View.{ref_view};

    ghost value_of = { ref_view };

    fn ty(&self, alloc: Global) -> Result<Type, AllocError> {
        let target = self.ty.clone(alloc)?;
        Ok(Type::Ref(self.space, Box::new(alloc, target)?, self.access))
    }

    fn inner_ty(&self, alloc: Global) -> Result<Type, AllocError> {
        self.ty.clone(alloc)
    }

    fn has_ty(&self, ty: &Type) -> bool {
        match ty.as_reference() {
            Some((space, target, access)) => self.names(space, target, access),
            None => false,
        }
    }
}

/// The type, as `ref<function, u32, read_write>`.
/// It calls itself for each level of the target's type: keep to 4,095 within a stack of 8 MiB.
impl Display for RefInstance {
    ghost output = { λ r. Some (text_of_value (ref_view r)) };

    fn fmt<W: fmt::Write>(&self, f: &mut fmt::Formatter<W>) -> fmt::Result {
        write!(f, "ref<{}, {}, {}>", self.space, self.ty, self.access)
    }
}

/// It calls itself for each level of the target's type: keep to 4,095 within a stack of 8 MiB.
impl PartialEq for RefInstance {
    ghost eq = { λ v w. same_value (ref_view v) (ref_view w) };

    ghost laws = { partial_equiv_from_equiv refs_equiv };

    fn eq(&self, other: &RefInstance) -> bool {
        self.cell == other.cell
            && self.view == other.view
            && self.space == other.space
            && self.ty == other.ty
            && self.access == other.access
    }
}

impl Eq for RefInstance {
    ghost laws = { refs_equiv };
}

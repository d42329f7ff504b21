//! Where the structures of a value that is read take their types from (WGSL: structure types).

ghost use Rattle.std.specs.Prelude.{◌≡◌, ℕ, Option, Some, IfOk};
ghost use Rattle.wgsl_rules.specs.Layout.{layout};
ghost use Rattle.wgsl_rules.specs.Types.{Ty, array};
ghost use Rattle.wgsl_rules.specs.View.{struct_view};
ghost use Rattle.wgsl_layout.specs.Ranges.{Range, part_at, parts_in};
ghost use Rattle.wgsl_layout.specs.Sharing.{IsFirstRead, Suits};

use std::alloc::{AllocError, Global};
use wgsl_rules::StructType;
use wgsl_values::{Instance, SharedStructType};

/// Where the structures of a value that is read take their types from: those in the first element of an array get copies,
/// which those in the other elements share. The value is the same whatever this is.
#[derive(Clone, Copy)]
pub(crate) enum Types<'a> {
    /// Each owns a copy: the value stands in no array of several elements.
    Own,
    /// Each gets a copy that others may share: the value stands in the first element.
    New,
    /// Each shares the type of the structure at the same place in this value, which is the first element.
    Of(&'a Instance),
}

impl<'a> Types<'a> {
    /// Of the next of so many elements of an array, behind those that were read.
    pub(crate) fn element(self, read: &'a [Instance], len: usize) -> Types<'a>
        ensures { (n : ℕ) (t : Ty) (m : Option ℕ) → Suits self.entry n (array t m) → IsFirstRead read.now n t → Suits result n t }
    {
        match self {
            Types::Of(_) => self.part(0),
            Types::Own | Types::New => match read.first() {
                Some(first) => Types::Of(first),
                None if len > 1 => Types::New,
                None => self,
            },
        }
    }

    /// Of the member or element at the position.
    pub(crate) fn part(self, i: usize) -> Types<'a>
        ensures { (n : ℕ) (t u : Ty) → Suits self.entry n t → ((r : Range) → part_at i (parts_in (layout n t)) ≡ Some r → r.layout ≡ layout n u) → Suits result n u }
    {
        match self {
            Types::Of(value) => match value.parts().get(i) {
                Some(part) => Types::Of(part),
                None => Types::Own,
            },
            Types::Own | Types::New => self,
        }
    }

    /// The type of a structure, which is this one. The condition: a value that shares its types is of that type.
    pub(crate) fn structure(
        self,
        alloc: Global,
        ty: &StructType,
    ) -> Result<SharedStructType, AllocError>
        requires { (n : ℕ) × Suits self n (struct_view ty.now) }
        ensures { IfOk result (λ s. s ≡ struct_view ty.now) }
    {
        if let Types::Of(Instance::Struct(first)) = self {
            return first.shared_ty().clone(alloc);
        }
        let copy = ty.clone(alloc)?;
        match self {
            Types::New => SharedStructType::new(alloc, copy),
            Types::Own | Types::Of(_) => Ok(SharedStructType::own(copy)),
        }
    }
}

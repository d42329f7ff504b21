//! Structure types that values share (WGSL: structure types).

ghost use Rattle.std.specs.Prelude.{◌≡◌};
ghost use Rattle.wgsl_rules.specs.Paths.{index_in};
ghost use Rattle.wgsl_rules.specs.View.{struct_view as struct_type_view};

use std::alloc::{AllocError, Global};
use std::fmt;
use std::marker::Model;
use std::sync::Arc;
use wgsl_rules::StructType;

/// The structure type of a value: of that value alone ([`SharedStructType::own`]), or of any number of values that share
/// it ([`SharedStructType::new`]), so that a further value of it takes no memory for its type. Contracts see the type.
#[derive(Drop)]
pub struct SharedStructType {
    owner: Owner,
}

/// Who has the type.
#[derive(Drop)]
pub(crate) enum Owner {
    /// This alone.
    Own(StructType),
    /// All that share it.
    Shared(Arc<StructType>),
}

impl Model for SharedStructType {
    ghost use Rattle.wgsl_rules.specs.Codes.{ty_code};
    ghost use Rattle.wgsl_rules.specs.Types.{Ty};

    ghost Value = { Ty };

    ghost coded = { ty_code };

    ghost use Rattle.wgsl_values.specs.Shared.{owned_type};

    ghost view = { λ s. owned_type s.owner };
}

impl SharedStructType {
    ghost use Rattle.std.specs.Prelude.{◌≡◌, ◌↔◌, IfOk, IfSome, IsTrue};
    ghost use Rattle.wgsl_rules.specs.Paths.{index_in};
    ghost use Rattle.wgsl_rules.specs.Same.{same};
    ghost use Rattle.wgsl_rules.specs.View.{struct_view};

    /// The type, to be shared.
    pub fn new(alloc: Global, ty: StructType) -> Result<SharedStructType, AllocError>
        ensures { IfOk result (λ s. s ≡ struct_view ty) }
    {
        let shared = Arc::new(alloc, ty)?;
        Ok(SharedStructType {
            owner: Owner::Shared(shared),
        })
    }

    /// The type of one value, which takes no memory.
    pub fn own(ty: StructType) -> SharedStructType
        ensures { result ≡ struct_view ty }
    {
        SharedStructType {
            owner: Owner::Own(ty),
        }
    }

    /// The type.
    #[inline(always)]
    pub fn get(&self) -> &StructType
        ensures { struct_view result.now ≡ self.now }
    {
        match &self.owner {
            Owner::Own(ty) => ty,
            Owner::Shared(ty) => ty,
        }
    }

    /// Whether it is this type. It takes no memory. It calls itself for each level of the types: keep to 4,095 within a
    /// stack of 8 MiB.
    #[tactic(auto, using(wgsl_rules::specs::Equal::same_is))]
    pub fn is_type(&self, ty: &StructType) -> bool
        ensures { IsTrue result ↔ (self.now ≡ struct_view ty.now) }
    {
        self.equals(ty)
    }

    /// Whether it is this type, as `==` of types tells it.
    #[inline(always)]
    pub(crate) fn equals(&self, ty: &StructType) -> bool
        ensures { result ≡ same self.now (struct_view ty.now) }
    {
        *self.get() == *ty
    }

    /// Whether both are one type.
    #[inline(always)]
    pub(crate) fn is_same(&self, other: &SharedStructType) -> bool
        ensures { result ≡ same self.now other.now }
    {
        self.equals(other.get())
    }

    /// The position of the first member of the name.
    #[inline(always)]
    pub(crate) fn position(&self, name: &str) -> Option<usize>
        ensures { result ≡ index_in name.now self.now }
    {
        position(self.get(), name)
    }

    /// The same type for another value. A type that values share takes no memory, unless it has as many owners as can be
    /// counted; else the type is copied, and the copy is of that value alone. A copy calls itself for each level of the
    /// type: keep to 4,095 within a stack of 8 MiB.
    pub fn clone(&self, alloc: Global) -> Result<SharedStructType, AllocError>
        ensures { IfOk result (λ s. s ≡ self.now) }
    {
        if let Some(shared) = self.shared() {
            return Ok(shared);
        }
        let copy = self.get().clone(alloc)?;
        Ok(SharedStructType::own(copy))
    }

    // The same type, where values share it and its owners can be counted.
    fn shared(&self) -> Option<SharedStructType>
        ensures { IfSome result (λ s. s ≡ self.now) }
    {
        match &self.owner {
            Owner::Own(_) => None,
            Owner::Shared(ty) => match Arc::try_clone(ty) {
                Ok(ty) => Some(SharedStructType {
                    owner: Owner::Shared(ty),
                }),
                Err(_) => None,
            },
        }
    }
}

/// As `==` of the types, whether values share them or not. It calls itself for each level of the types: keep to 4,095
/// within a stack of 8 MiB.
impl PartialEq for SharedStructType {
    ghost use Rattle.std.specs.Cmp.{partial_equiv_from_equiv};
    ghost use Rattle.wgsl_rules.specs.Equal.{same-equiv};
    ghost use Rattle.wgsl_rules.specs.Same.{same};

    ghost eq = { same };

    ghost laws = { partial_equiv_from_equiv same-equiv };

    fn eq(&self, other: &SharedStructType) -> bool {
        self.is_same(other)
    }
}

impl Eq for SharedStructType {
    ghost use Rattle.wgsl_rules.specs.Equal.{same-equiv};

    ghost laws = { same-equiv };
}

/// As the type itself.
impl fmt::Debug for SharedStructType {
    fn fmt<W: fmt::Write>(&self, f: &mut fmt::Formatter<W>) -> fmt::Result {
        fmt::Debug::fmt(self.get(), f)
    }
}

/// The position of the first member of the name.
fn position(ty: &StructType, name: &str) -> Option<usize>
    ensures { result ≡ index_in name.now (struct_type_view ty.now) }
{
    for (i, member) in ty.members.iter().enumerate() {
        if member.name.as_str() == name {
            return Some(i);
        }
    }
    None
}

//! Atomics (WGSL: atomic types).

ghost use Rattle.std.specs.Borrow.{Lends, sem};
ghost use Rattle.std.specs.Cmp.{partial_equiv_from_equiv};
ghost use Rattle.std.specs.Prelude.{◌≡◌, ◌↔◌, IfOk, IsTrue, Some};
ghost use Rattle.wgsl_rules.specs.Types as types;
ghost use Rattle.wgsl_rules.specs.Types.{Ty};
ghost use Rattle.wgsl_rules.specs.Values.{IsStorable, atomic_of, type_of};
ghost use Rattle.wgsl_values.specs.Equal.{atomics_equiv};
ghost use Rattle.wgsl_values.specs.Rows.{holding};
ghost use Rattle.wgsl_values.specs.Same.{same_value};
ghost use Rattle.wgsl_values.specs.Texts.{text_of_value};
ghost use Rattle.wgsl_values.specs.View.{value_of, atomic_view};
ghost use Rattle.wgsl_values.specs.Written.{IsAsSound, IsKept};
ghost use Rattle.wgsl_values.specs.contracts.atomic.AtomicInstance as atomic_row;
ghost use Rattle.wgsl_values.specs.contracts.instance.Instance.{the_row};
ghost use Rattle.wgsl_values.specs.declared.instance.Instance.{Instance};

use crate::instance::Instance;
use std::alloc::{AllocError, Global};
use std::fmt;
use std::fmt::Display;
use wgsl_rules::{Ty, Type};

/// An atomic: the number that it holds (WGSL: atomic types).
#[cycle(values)]
#[derive(Debug, Drop)]
pub struct AtomicInstance {
    pub(crate) content: Box<Instance>,
}

impl AtomicInstance {
    /// An atomic that holds the value (WGSL: atomic types). The condition: an `i32` or a `u32`.
    pub fn new(alloc: Global, inst: Instance) -> Result<Self, AllocError>
        requires { IsStorable (atomic_of (value_of inst)) }
        ensures { IfOk result (λ a. atomic_view a ≡ atomic_of (value_of inst)) }
    {
        let content = Box::new(alloc, inst)?;
        Ok(AtomicInstance { content })
    }

    /// Whether the condition of [`AtomicInstance::new`] holds.
    pub fn can_make(inst: &Instance) -> bool
        ensures { IsTrue result ↔ IsStorable (atomic_of (value_of inst.now)) }
    {
        match inst {
            Instance::Literal(literal) => {
                let ty = literal.literal_ty();
                ty == Type::I32 || ty == Type::U32
            }
            _ => false,
        }
    }

    /// The number that it holds.
    pub fn inner(&self) -> &Instance
        ensures { atomic_of (value_of result.now) ≡ atomic_view self.now }
    {
        &self.content
    }

    /// The number that the atomic holds, to be written (WGSL: atomic types). An atomic is well-formed
    /// again where what was written is an `i32` or a `u32`.
    pub fn inner_mut(&mut self) -> &mut Instance
        ensures* writes_back { sem 𝓛 (Lends atomic_row.the_row the_row self.entry result (holding self.old)) }
        ensures value { atomic_of (value_of result.now) ≡ atomic_view self.old }
        ensures written { (w : Instance) → atomic_view (holding self.old w) ≡ atomic_of (value_of w) }
        ensures kept { (w : Instance) → IsStorable (value_of w) → type_of (value_of w) ≡ type_of (value_of result.now)
            → IsKept (atomic_view (holding self.old w)) (atomic_view self.old) }
        ensures sound { IsAsSound (value_of result.now) (atomic_view self.old) }
        ensures ty { (t : Ty) → type_of (atomic_view self.old) ≡ types.atomic t → type_of (value_of result.now) ≡ t }
    {
        &mut *self.content
    }

    /// A copy of the atomic, in memory of its own.
    #[cycle(clone)]
    pub fn clone(&self, alloc: Global) -> Result<AtomicInstance, AllocError>
        ensures { IfOk result (λ v. atomic_view v ≡ atomic_view self.now) }
    {
        let content = self.content.clone(alloc)?;
        Ok(AtomicInstance {
            content: Box::new(alloc, content)?,
        })
    }
}

/// An atomic's type is that of atomics of what it holds (WGSL: atomic types).
impl Ty for AtomicInstance {
    ghost use Rattle.wgsl_values.specs.View.{atomic_view};

    ghost value_of = { atomic_view };

    fn ty(&self, alloc: Global) -> Result<Type, AllocError> {
        Ok(Type::Atomic(Box::new(alloc, self.content.scalar_ty())?))
    }

    fn inner_ty(&self, _alloc: Global) -> Result<Type, AllocError> {
        Ok(self.content.scalar_ty())
    }

    fn has_ty(&self, ty: &Type) -> bool {
        match ty.as_atomic() {
            Some(inner) => self.content.scalar_ty() == *inner,
            None => false,
        }
    }
}

/// The type, and the number in parentheses, as `atomic<i32>(5i)`; both are empty where it holds no
/// literal.
impl Display for AtomicInstance {
    ghost output = { λ a. Some (text_of_value (atomic_view a)) };

    fn fmt<W: fmt::Write>(&self, f: &mut fmt::Formatter<W>) -> fmt::Result {
        match &*self.content {
            Instance::Literal(content) => {
                write!(f, "atomic<{}>({content})", content.literal_ty())
            }
            _ => f.write_str("atomic<>()"),
        }
    }
}

impl PartialEq for AtomicInstance {
    ghost eq = { λ v w. same_value (atomic_view v) (atomic_view w) };

    ghost laws = { partial_equiv_from_equiv atomics_equiv };

    #[cycle(same)]
    fn eq(&self, other: &AtomicInstance) -> bool {
        (*self.content).eq(&other.content)
    }
}

impl Eq for AtomicInstance {
    ghost laws = { atomics_equiv };
}

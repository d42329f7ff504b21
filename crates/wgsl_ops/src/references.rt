//! The operators that values of every kind alone have (WGSL: logical expressions; address-of expression; indirection
//! expression).

ghost use Rattle.std.specs.Prelude.{IfOk};
ghost use Rattle.wgsl_ops.specs.Instances.{KeepsReference, address_of, indirection, of_two};
ghost use Rattle.wgsl_rules.specs.Values.{IsStorable, IsWellFormed};
ghost use Rattle.wgsl_rules.specs.declared.syntax.BinaryOperator.TheVariants as between;
ghost use Rattle.wgsl_rules.specs.declared.syntax.ShaderStage.TheVariants as stages;
ghost use Rattle.wgsl_scalar.specs.Answers.{Gives};
ghost use Rattle.wgsl_store.specs.Memory.{IsKept};
ghost use Rattle.wgsl_values.specs.View.{ref_view, reference_of, value_of};

use std::alloc::Global;
use wgsl_rules::{AddressSpace, Ty, UnaryOperator};
use wgsl_scalar::Error;
use wgsl_store::{References, Store};
use wgsl_value_ops::{logical_and, logical_or};
use wgsl_values::{Instance, PtrInstance, RefInstance};

/// The operators that values of every kind alone have. A call that copies a reference or names a type calls
/// itself for each level of the type: keep to 4,095 within a stack of 8 MiB.
pub trait InstanceOperators: Sized + Ty {
    /// Whether one of two bools is true (WGSL: logical expressions, `||`).
    fn op_or(&self, alloc: Global, rhs: &Self) -> Result<Self, Error>
        requires own { IsWellFormed (Self.value_of self.now) }
        requires others { IsWellFormed (Self.value_of rhs.now) }
        ensures value { Gives Self.value_of result (of_two between.ShortCircuitOr stages.Exec (Self.value_of self.now) (Self.value_of rhs.now)) }
        ensures storable { IfOk result (λ v. IsStorable (Self.value_of v)) };

    /// Whether both of two bools are true (WGSL: logical expressions, `&&`).
    fn op_and(&self, alloc: Global, rhs: &Self) -> Result<Self, Error>
        requires own { IsWellFormed (Self.value_of self.now) }
        requires others { IsWellFormed (Self.value_of rhs.now) }
        ensures value { Gives Self.value_of result (of_two between.ShortCircuitAnd stages.Exec (Self.value_of self.now) (Self.value_of rhs.now)) }
        ensures storable { IfOk result (λ v. IsStorable (Self.value_of v)) };

    /// The pointer to what a reference names, which is kept in the store, as [`Store::holds`] tests (WGSL:
    /// address-of expression). Refusals in order: `Unary` for a value that is no reference, `PtrHandle` in
    /// the handle address space, `PtrVecComp` where it names a component of a vector. Read access is not
    /// needed.
    fn op_ref(&self, alloc: Global, store: &Store) -> Result<Self, Error>
        requires well_formed { IsWellFormed (Self.value_of self.now) }
        requires kept { KeepsReference store.now (Self.value_of self.now) }
        ensures value { Gives Self.value_of result (address_of store.now (Self.value_of self.now)) }
        ensures storable { IfOk result (λ v. IsStorable (Self.value_of v)) };

    /// The reference that a pointer holds (WGSL: indirection expression). Refused by `Unary`: a value that is
    /// no pointer.
    fn op_deref(&self, alloc: Global) -> Result<Self, Error>
        requires { IsWellFormed (Self.value_of self.now) }
        ensures value { Gives Self.value_of result (indirection (Self.value_of self.now)) }
        ensures storable { IfOk result (λ v. IsStorable (Self.value_of v)) };
}

// The pointer to what the reference names.
fn address_of(alloc: Global, reference: &RefInstance, store: &Store) -> Result<Instance, Error>
    requires { IsKept store.now (reference_of reference.now) }
    ensures value { Gives value_of result (address_of store.now (ref_view reference.now)) }
    ensures storable { IfOk result (λ v. IsStorable (value_of v)) }
{
    if reference.space() == AddressSpace::Handle {
        return Err(Error::PtrHandle);
    }
    if reference.names_component(store) {
        return Err(Error::PtrVecComp);
    }
    Ok(Instance::from(PtrInstance::from(reference.clone(alloc)?)))
}

impl InstanceOperators for Instance {
    fn op_or(&self, alloc: Global, rhs: &Instance) -> Result<Instance, Error> {
        logical_or(alloc, self, rhs)
    }

    fn op_and(&self, alloc: Global, rhs: &Instance) -> Result<Instance, Error> {
        logical_and(alloc, self, rhs)
    }

    fn op_ref(&self, alloc: Global, store: &Store) -> Result<Instance, Error> {
        match self {
            Instance::Ref(reference) => address_of(alloc, reference, store),
            Instance::Literal(_) | Instance::Struct(_) | Instance::Array(_) | Instance::Vec(_) => {
                Err(Error::Unary(UnaryOperator::AddressOf, self.ty(alloc)?))
            }
            Instance::Mat(_) | Instance::Ptr(_) | Instance::Atomic(_) | Instance::Deferred(_) => {
                Err(Error::Unary(UnaryOperator::AddressOf, self.ty(alloc)?))
            }
        }
    }

    fn op_deref(&self, alloc: Global) -> Result<Instance, Error> {
        match self {
            Instance::Ptr(pointer) => Ok(Instance::Ref(pointer.ptr().clone(alloc)?)),
            Instance::Literal(_) | Instance::Struct(_) | Instance::Array(_) | Instance::Vec(_) => {
                Err(Error::Unary(UnaryOperator::Indirection, self.ty(alloc)?))
            }
            Instance::Mat(_) | Instance::Ref(_) | Instance::Atomic(_) | Instance::Deferred(_) => {
                Err(Error::Unary(UnaryOperator::Indirection, self.ty(alloc)?))
            }
        }
    }
}

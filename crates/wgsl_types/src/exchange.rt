//! Compare and exchange (WGSL: atomic builtin functions, `atomicCompareExchangeWeak`).

ghost use Rattle.std.specs.Prelude.{◌≡◌, IfOk, OnOk, OnErr, Ok, None, true};
ghost use Rattle.wgsl_rules.specs.Access.{can_write};
ghost use Rattle.wgsl_rules.specs.Types.{atomic};
ghost use Rattle.wgsl_rules.specs.Values.{
  Reference,
  IsStorable,
  IsWellFormed,
  atomic_of,
  type_of,
};
ghost use Rattle.wgsl_rules.specs.View.{member_view, struct_view, type_view};
ghost use Rattle.wgsl_scalar.specs.Answers.{Gives};
ghost use Rattle.wgsl_scalar.specs.Literals.{literal_of};
ghost use Rattle.wgsl_store.specs.Memory.{IsKept, IsSound};
ghost use Rattle.wgsl_types.specs.Atomics.{
  KeepsPointer,
  atomic_compare_exchanged,
  exchange_result,
  exchange_type,
  exchanged_if_equal,
};
ghost use Rattle.wgsl_values.specs.View.{reference_of, value_of};

use crate::atomic::{argument, load, put_number};
use crate::pointers::writable;
use std::alloc::{AllocError, Global};
use wgsl_rules::{StructMemberType, StructType, Type};
use wgsl_scalar::{Error, LiteralInstance};
use wgsl_store::Store;
use wgsl_values::{Instance, RefInstance, StructInstance};

// A member without attributes.
fn member(alloc: Global, name: &str, ty: Type) -> Result<StructMemberType, AllocError>
    ensures { IfOk result (λ m. member_view m ≡ record { name = name.now; ty = type_view ty; size = None; align = None }) }
{
    Ok(StructMemberType {
        name: String::from_str(alloc, name)?,
        ty,
        size: None,
        align: None,
    })
}

// The structure type of what a compare and exchange answers, with numbers of the type.
fn exchange_type(alloc: Global, ty: Type) -> Result<StructType, AllocError>
    ensures { IfOk result (λ t. struct_view t ≡ exchange_type (type_view ty)) }
{
    let old = member(alloc, "old_value", ty)?;
    let exchanged = member(alloc, "exchanged", Type::Bool)?;
    let name = String::from_str(alloc, "__atomic_compare_exchange_result")?;
    Ok(StructType {
        name,
        members: vec![in alloc; old, exchanged]?,
    })
}

// What a compare and exchange answers.
fn exchange_result(
    alloc: Global,
    old: LiteralInstance,
    exchanged: bool,
) -> Result<Instance, AllocError>
    ensures value { IfOk result (λ v. value_of v ≡ exchange_result (literal_of old) exchanged) }
    ensures storable { IfOk result (λ v. IsStorable (value_of v)) }
{
    let ty = exchange_type(alloc, old.literal_ty())?;
    let members = vec![in alloc; Instance::Literal(old), Instance::from(exchanged)]?;
    Ok(Instance::Struct(StructInstance::new(ty, members)))
}

// Puts the new number into the atomic that the reference names, where the old one equals the comparand; the answer is
// made before. The conditions: the reference is kept and may write, and it names an atomic of numbers of the new one's
// kind.
fn exchange_if_equal(
    alloc: Global,
    store: &mut Store,
    reference: &RefInstance,
    old: LiteralInstance,
    comparand: &Instance,
    new: Instance,
) -> Result<Instance, Error>
    requires kept { IsKept store.old (reference_of reference.now) }
    requires may_write { can_write (reference_of reference.now).access ≡ true }
    requires typed { (reference_of reference.now).ty ≡ atomic (type_of (value_of new)) }
    requires storable { IsStorable (atomic_of (value_of new)) }
    ensures outcome { Gives (λ a. record { answer = value_of a; cells = store.new }) result (Ok (exchanged_if_equal store.old (reference_of reference.now) (literal_of old) (value_of comparand.now) (value_of new))) }
    ensures storable { IfOk result (λ a. IsStorable (value_of a)) }
    ensures err { OnErr result (store.new ≡ store.old) }
    ensures sound { OnOk result (IsSound store.new) }
    ensures kept { (r : Reference) → IsKept store.old r → IsKept store.new r }
{
    // `len` ensures that the store is sound.
    let _cells = store.len();
    let exchanged = Instance::Literal(old) == *comparand;
    let answer = exchange_result(alloc, old, exchanged)?;
    if exchanged {
        put_number(store, reference, new);
    }
    Ok(answer)
}

/// The number of the atomic and whether it equals the comparand; where it does, the atomic then holds the new value
/// (WGSL: atomic builtin functions, `atomicCompareExchangeWeak`).
///
/// The answer is a structure `__atomic_compare_exchange_result` with the members `old_value`, of the kind of the
/// atomic, and `exchanged`, a bool. An exchange never fails by chance. Refusals in order: those of
/// [`crate::atomicLoad`], `ParamType` for the comparand and then for the new value where it does not convert to what
/// the atomic holds, or `Builtin` where it is deferred, `NotReadWrite` without write access, equal or not. After any
/// error the store is as before. The conditions: the store keeps the reference of the pointer, and the comparand and
/// the new value are well-formed.
/// It calls itself for each level of a value or type: keep to 4,095 within a stack of 8 MiB, and to 2,047 steps of the
/// view of the pointer's reference.
pub fn atomicCompareExchangeWeak(
    alloc: Global,
    store: &mut Store,
    p: &Instance,
    comparand: &Instance,
    new: &Instance,
) -> Result<Instance, Error>
    requires kept { KeepsPointer store.old (value_of p.now) }
    requires comparand { IsWellFormed (value_of comparand.now) }
    requires new { IsWellFormed (value_of new.now) }
    ensures outcome { Gives (λ a. record { answer = value_of a; cells = store.new }) result (atomic_compare_exchanged store.old (value_of p.now) (value_of comparand.now) (value_of new.now)) }
    ensures storable { IfOk result (λ a. IsStorable (value_of a)) }
    ensures err { OnErr result (store.new ≡ store.old) }
    ensures sound { OnOk result (IsSound store.new) }
    ensures kept { (r : Reference) → IsKept store.old r → IsKept store.new r }
{
    // `len` ensures that the store is sound.
    let _cells = store.len();
    let old = load(store, p)?;
    let ty = old.literal_ty();
    let comparand = argument(alloc, &ty, comparand)?;
    let number = argument(alloc, &ty, new)?;
    let reference = writable(p)?;
    exchange_if_equal(alloc, store, reference, old, &comparand, number)
}

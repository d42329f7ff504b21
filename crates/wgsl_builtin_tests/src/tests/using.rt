//! The snippets of `docs/USING.md` on operators, builtin functions and atomics. All names are those of `wgsl_types`.

use std::test::Fail;
use wgsl_types::LiteralInstance::{I32, U32};
use wgsl_types::{
    AccessMode, AddressSpace, AtomicInstance, BinaryOperator, Error, Instance, Operators,
    PtrInstance, RefInstance, References, ShaderStage, Store, Type, VecInstance, atomicAdd,
    bitcast_t, clamp, is_bitcast_target,
};

#[test]
fn an_operator_is_evaluated(rt: HostRuntime) -> Result<(), Fail> {
    let alloc = rt.alloc();
    let left = Instance::from(VecInstance::from2(alloc, [I32(7), I32(-7)])?);
    let right = Instance::from(2i64);
    assert!(rt; left.is_well_formed());
    assert!(rt; right.is_well_formed());
    let quotient = left.op_div(alloc, &right, ShaderStage::Const)?;
    let text = quotient.to_string(alloc)?;
    assert_eq!(rt; text.as_str(), "vec2(3i, -3i)");
    Ok(())
}

#[test]
fn an_operator_refuses_its_operands(rt: HostRuntime) -> Result<(), Fail> {
    let alloc = rt.alloc();
    let (left, right) = (Instance::from(true), Instance::from(1u32));
    assert!(rt; left.is_well_formed());
    assert!(rt; right.is_well_formed());
    let answer = left.op_add(alloc, &right, ShaderStage::Exec);
    let refusal = Error::Binary(BinaryOperator::Addition, Type::Bool, Type::U32);
    assert_eq!(rt; answer, Err(refusal));
    Ok(())
}

#[test]
fn a_builtin_function_is_evaluated(rt: HostRuntime) -> Result<(), Fail> {
    let (low, high) = (Instance::from(0i64), Instance::from(8i64));
    let nine = Instance::from(9i32);
    assert!(rt; low.is_well_formed());
    assert!(rt; high.is_well_formed());
    assert!(rt; nine.is_well_formed());
    let limited = clamp(rt.alloc(), &nine, &low, &high)?;
    assert_eq!(rt; limited, Instance::from(8i32));
    Ok(())
}

#[test]
fn a_value_with_the_same_bytes(rt: HostRuntime) -> Result<(), Fail> {
    let one = Instance::from(-1i32);
    assert!(rt; one.is_well_formed());
    assert!(rt; is_bitcast_target(&Type::U32));
    let word = bitcast_t(rt.alloc(), &Type::U32, &one)?;
    assert_eq!(rt; word, Instance::from(4294967295u32));
    Ok(())
}

#[test]
fn an_atomic_is_changed_through_a_pointer(rt: HostRuntime) -> Result<(), Fail> {
    let alloc = rt.alloc();
    let (storage, access) = (AddressSpace::Storage, AccessMode::ReadWrite);
    let mut store = Store::new(alloc);
    let five = Instance::from(AtomicInstance::new(alloc, Instance::from(5u32))?);
    assert!(rt; five.is_storable());
    assert!(rt; store.holds_value(&five));
    let cell = RefInstance::new(alloc, &mut store, five, storage, access)?;
    let pointer = Instance::from(PtrInstance::from(cell));
    let three = Instance::from(3i64);
    assert!(rt; three.is_well_formed());
    let old = atomicAdd(alloc, &mut store, &pointer, &three)?;
    assert_eq!(rt; old, Instance::from(U32(5)));
    Ok(())
}

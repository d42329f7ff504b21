//! The example of the README.

use std::alloc::{AllocError, Global};
use std::process::Abort;
use std::test::Fail;
use wgsl_rules::{StructMemberType, StructType, Ty, Type};
use wgsl_scalar::LiteralInstance::U32;
use wgsl_store::Buffers;
use wgsl_values::{Instance, MemView, StructInstance, VecInstance};

fn member(alloc: Global, name: &str, ty: Type) -> Result<StructMemberType, AllocError> {
    Ok(StructMemberType {
        name: String::from_str(alloc, name)?,
        ty,
        size: None,
        align: None,
    })
}

/// struct Pair { a: u32, b: vec3<u32> }
pub fn pair_type(alloc: Global) -> Result<StructType, AllocError> {
    let a = member(alloc, "a", Type::U32)?;
    let vector = Type::Vec(3, Box::new(alloc, Type::U32)?);
    let b = member(alloc, "b", vector)?;
    Ok(StructType {
        name: String::from_str(alloc, "Pair")?,
        members: vec![in alloc; a, b]?,
    })
}

#[test]
fn the_example_of_the_readme(rt: HostRuntime) -> Result<(), Fail> {
    let alloc = rt.alloc();
    let ty = pair_type(alloc)?;
    let b = VecInstance::from3(alloc, [U32(2), U32(3), U32(4)])?;
    let members = vec![in alloc; Instance::from(1u32), Instance::from(b)]?;
    // The condition of `new`: these are members of the type.
    if !StructInstance::can_make(&ty, &members) {
        return Err(Fail::new("no Pair"));
    }
    let mut pair = Instance::from(StructInstance::new(ty, members));
    // The condition of `view` and `view_mut`.
    if !pair.is_well_formed() {
        return Err(Fail::new("no value"));
    }

    let mut view = MemView::Whole;
    view.append_member(alloc, String::from_str(alloc, "b")?)?;
    view.append_index(alloc, 2)?;
    assert_eq!(rt; pair.view(alloc, &view)?, &Instance::from(4u32));

    *pair.view_mut(alloc, &view)? = Instance::from(9u32);
    let text = pair.to_string(alloc)?;
    assert_eq!(rt; text.as_str(), "Pair(1u, vec3(2u, 3u, 9u))");
    assert_is_laid_out(&rt, alloc, pair)
}

/// Writes the value as bytes, and reads it back.
fn assert_is_laid_out(rt: &impl Abort, alloc: Global, pair: Instance) -> Result<(), Fail> {
    // The condition of `to_buffer`.
    if !pair.is_well_formed() {
        return Err(Fail::new("no value"));
    }
    let ty = pair.ty(alloc)?;
    let bytes = pair.to_buffer(alloc)?.unwrap_or(Vec::new(alloc)); // none where the type has no layout
    let words = [1, 0, 0, 0, 0, 0, 0, 0, 0, 0, 0, 0, 0, 0, 0, 0]; // a, and 12 bytes of padding
    assert!(rt; bytes.starts_with(&words));
    assert_eq!(rt; bytes.len(), 32);
    let read = Instance::from_buffer(alloc, &bytes, &ty)?; // none where the bytes lay out no value of the type
    assert_eq!(rt; read, Some(pair));
    Ok(())
}

//! Values that tests look at.

use crate::both::both;
use std::alloc::{AllocError, Global};
use wgsl_rules::{AccessMode, AddressSpace, Type};
use wgsl_values::{Instance, MemView, RefInstance};

/// The values of the numbers, each an u32.
pub fn numbers(alloc: Global, numbers: &[u32]) -> Result<Vec<Instance>, AllocError> {
    let mut values = Vec::new(alloc);
    for n in numbers {
        values.push(Instance::from(*n))?;
    }
    Ok(values)
}

/// The values of the numbers, each an i32.
pub fn integers(alloc: Global, numbers: &[i32]) -> Result<Vec<Instance>, AllocError> {
    let mut values = Vec::new(alloc);
    for n in numbers {
        values.push(Instance::from(*n))?;
    }
    Ok(values)
}

/// The values of the numbers, each an AbstractInt.
pub fn abstract_numbers(alloc: Global, numbers: &[i64]) -> Result<Vec<Instance>, AllocError> {
    let mut values = Vec::new(alloc);
    for n in numbers {
        values.push(Instance::from(*n))?;
    }
    Ok(values)
}

/// The view `:m:2`.
pub fn member_then_index(alloc: Global) -> Result<MemView, AllocError> {
    let index = MemView::Index(2, Box::new(alloc, MemView::Whole)?);
    let index = Box::new(alloc, index)?;
    let (name, index) = both(format!(in alloc; "m"), Ok(index))?;
    Ok(MemView::Member(name, index))
}

/// The steps of a view: the member of the name, where it is not empty, and then the indices.
pub fn view(alloc: Global, name: &str, indices: &[usize]) -> Result<MemView, AllocError> {
    let mut view = MemView::Whole;
    if !name.is_empty() {
        view.append_member(alloc, String::from_str(alloc, name)?)?;
    }
    for index in indices {
        view.append_index(alloc, *index)?;
    }
    Ok(view)
}

/// The reference to `:m:2` of cell 7, of type u32, in the storage space, for reads and writes.
pub fn reference_of(alloc: Global) -> Result<RefInstance, AllocError> {
    let view = member_then_index(alloc)?;
    let space = AddressSpace::Storage;
    Ok(RefInstance::from_parts(7, view, Type::U32, space, AccessMode::ReadWrite))
}

/// The bytes of the words, each little-endian.
pub fn bytes_of(alloc: Global, words: &[u32]) -> Result<Vec<u8>, AllocError> {
    let mut bytes = Vec::new(alloc);
    for word in words {
        bytes.extend_from_slice(&word.to_le_bytes())?;
    }
    Ok(bytes)
}

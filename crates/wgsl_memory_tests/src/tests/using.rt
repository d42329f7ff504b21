//! The snippets of `docs/USING.md` on types, values, bytes, stores and sessions.

use crate::tests::readme::pair_type;
use std::test::Fail;
use wgsl_rules::AccessMode::ReadWrite;
use wgsl_rules::AddressSpace::Storage;
use wgsl_rules::{Convert, Type, UniformRule, convert};
use wgsl_scalar::Error;
use wgsl_scalar::LiteralInstance::U32;
use wgsl_session::{Call, Fault, Reply, Session};
use wgsl_store::{Buffers, Layout, References, Show, Store};
use wgsl_values::{Instance, MemView, RefInstance, VecInstance};

#[test]
fn the_members_of_a_structure_are_laid_out(rt: HostRuntime) -> Result<(), Fail> {
    let alloc = rt.alloc();
    let ty = pair_type(alloc)?; // struct Pair { a: u32, b: vec3<u32> }
    let places = ty.member_layouts(alloc)?;
    assert_eq!(rt; places.len(), 2);
    assert_eq!(rt; places[1].offset, Some(16));
    assert_eq!(rt; ty.size_of(), Some(32));
    Ok(())
}

#[test]
fn a_uniform_variable_may_not_be_of_the_type(rt: HostRuntime) -> Result<(), Fail> {
    let words = Type::Array(Box::new(rt.alloc(), Type::U32)?, Some(5));
    assert_eq!(rt; words.uniform_rule(), Some(UniformRule::Stride(4)));
    Ok(())
}

#[test]
fn a_value_becomes_bytes(rt: HostRuntime) -> Result<(), Fail> {
    let alloc = rt.alloc();
    let vector = Instance::from(VecInstance::from2(alloc, [U32(2), U32(258)])?);
    assert!(rt; vector.is_well_formed());
    let bytes = vector.to_buffer(alloc)?.ok_or("a type without a layout")?;
    assert_eq!(rt; bytes.as_slice(), [2, 0, 0, 0, 2, 1, 0, 0].as_slice());
    Ok(())
}

#[test]
fn bytes_become_a_value(rt: HostRuntime) -> Result<(), Fail> {
    let alloc = rt.alloc();
    let ty = Type::Array(Box::new(alloc, Type::U32)?, None);
    let bytes = [7, 0, 0, 0, 8, 0, 0, 0];
    let value = Instance::from_buffer(alloc, &bytes, &ty)?.ok_or("too few bytes")?;
    let text = value.to_string(alloc)?;
    assert_eq!(rt; text.as_str(), "array(7u, 8u)");
    Ok(())
}

#[test]
fn a_part_is_written_in_bytes_of_the_callers(rt: HostRuntime) -> Result<(), Fail> {
    let alloc = rt.alloc();
    let ty = Type::Vec(3, Box::new(alloc, Type::U32)?);
    let layout = Layout::of(alloc, &ty)?.ok_or("a type without a layout")?;
    let view = MemView::Index(2, Box::new(alloc, MemView::Whole)?);
    let nine = Instance::from(9u32);
    assert!(rt; nine.is_storable());
    let mut bytes = [0xff; 14];
    assert_eq!(rt; layout.write(&mut bytes, &view, &nine), Ok(()));
    assert_eq!(rt;
        bytes,
        [255, 255, 255, 255, 255, 255, 255, 255, 9, 0, 0, 0, 255, 255]
    );
    let range = layout.range(bytes.len(), &view);
    assert_eq!(rt; range.map(|r| (r.start, r.end)), Ok((8, 12)));
    Ok(())
}

#[test]
fn a_buffer_has_so_many_elements(rt: HostRuntime) -> Result<(), Fail> {
    let alloc = rt.alloc();
    let ty = Type::Array(Box::new(alloc, Type::U32)?, None);
    let layout = Layout::of(alloc, &ty)?.ok_or("a type without a layout")?;
    assert_eq!(rt; layout.count_in(14), Some(3));
    assert_eq!(rt; layout.size_with(3), Some(12));
    Ok(())
}

#[test]
fn a_part_of_a_value_is_written(rt: HostRuntime) -> Result<(), Fail> {
    let alloc = rt.alloc();
    let mut vector = Instance::from(VecInstance::from2(alloc, [U32(2), U32(3)])?);
    assert!(rt; vector.is_well_formed());
    let view = MemView::Index(1, Box::new(alloc, MemView::Whole)?);
    *vector.view_mut(alloc, &view)? = Instance::from(9u32);
    let text = vector.to_string(alloc)?;
    assert_eq!(rt; text.as_str(), "vec2(2u, 9u)");
    Ok(())
}

#[test]
fn references_lead_to_parts_of_a_cell(rt: HostRuntime) -> Result<(), Fail> {
    let alloc = rt.alloc();
    let mut store = Store::new(alloc);
    let vector = Instance::from(VecInstance::from2(alloc, [U32(2), U32(3)])?);
    assert!(rt; vector.is_storable());
    assert!(rt; store.holds_value(&vector));
    let whole = RefInstance::new(alloc, &mut store, vector, Storage, ReadWrite)?;
    let last = whole.view_index(alloc, &store, 1)?;
    let nine = Instance::from(9u32);
    assert!(rt; nine.is_storable());
    assert!(rt; store.holds_value(&nine));
    last.write(alloc, &mut store, nine)?;
    let text = whole.show(alloc, &store)?;
    assert_eq!(rt;
        text.as_str(),
        "ref<storage, vec2<u32>, read_write>(vec2(2u, 9u))"
    );
    Ok(())
}

#[test]
fn a_session_runs_a_list_of_calls(rt: HostRuntime) -> Result<(), Fail> {
    let alloc = rt.alloc();
    let mut session = Session::new(alloc);
    let five = Call::New(Instance::from(5u32), Storage, ReadWrite);
    assert!(rt; five.is_sound());
    let calls = vec![in alloc; five, Call::Read(0), Call::Read(1)]?;
    let replies = session.run(calls)?;
    assert_eq!(rt; replies.len(), 3);
    assert_eq!(rt; replies[0], Ok(Reply::Handle(0)));
    assert_eq!(rt; replies[1], Ok(Reply::Value(Instance::from(5u32))));
    assert_eq!(rt; replies[2], Err(Fault::NoHandle));
    Ok(())
}

#[test]
fn a_value_is_converted(rt: HostRuntime) -> Result<(), Fail> {
    let alloc = rt.alloc();
    let negative = Instance::from(-7i64); // an abstract number
    assert!(rt; negative.is_well_formed());
    let signed = negative.convert_to(alloc, &Type::I32)?;
    assert_eq!(rt; signed, Some(Instance::from(-7i32)));
    let unsigned = negative.convert_to(alloc, &Type::U32)?;
    assert_eq!(rt; unsigned, None);
    Ok(())
}

#[test]
fn two_values_are_taken_to_their_common_type(rt: HostRuntime) -> Result<(), Fail> {
    let (a, b) = (Instance::from(7i64), Instance::from(5u32));
    assert!(rt; a.is_well_formed());
    assert!(rt; b.is_well_formed());
    let both = convert(rt.alloc(), &a, &b)?;
    assert_eq!(rt; both, Some((Instance::from(7u32), Instance::from(5u32))));
    Ok(())
}

#[test]
fn a_refusal_says_why(rt: HostRuntime) -> Result<(), Fail> {
    let alloc = rt.alloc();
    let vector = Instance::from(VecInstance::from2(alloc, [U32(2), U32(3)])?);
    assert!(rt; vector.is_well_formed());
    let view = MemView::Index(2, Box::new(alloc, MemView::Whole)?);
    match vector.view(alloc, &view) {
        Err(Error::OutOfBounds(index, ty, count)) => {
            let text = format!(in alloc; "{ty} has {count} parts, and none at {index}")?;
            assert_eq!(rt; text.as_str(), "vec2<u32> has 2 parts, and none at 2");
        }
        answer => assert!(rt; answer.is_err(), "there is a part"),
    }
    Ok(())
}

//! Texts, written to what takes no memory, and whether values of the other sorts are equal.

use crate::tests::asserts::{assert_same, assert_that};
use crate::tests::samples::{
    array, array_of, atomic_of, mat2x3, named, pair, pair_type, pair_with, reference_of, text,
    vector as vector_type, vector_of,
};
use std::alloc::AllocError;
use std::fmt;
use std::fmt::{Display, Write};
use std::process::Abort;
use wgsl_rules::{
    AccessMode, AddressSpace, BinaryOperator, Enumerant, TexelFormat, Ty, Type, UnaryOperator,
};
use wgsl_samples::values::member_then_index;
use wgsl_scalar::LiteralInstance::I32;
use wgsl_scalar::{BuiltinName, BuiltinReason, Error};
use wgsl_session::Fault;
use wgsl_values::{CallSignature, Instance, MemView, Placed, PtrInstance, TpltParam};

/// Takes a text piece by piece, as long as it goes on as the wanted one does.
#[derive(Drop)]
struct Wanted<'a> {
    rest: &'a str,
}

impl Write for Wanted<'_> {
    fn write_str(&mut self, piece: &str) -> fmt::Result {
        match self.rest.strip_prefix(piece) {
            Some(rest) => {
                self.rest = rest;
                Ok(())
            }
            None => Err(fmt::Error),
        }
    }
}

/// Asserts the text of the value.
fn assert_text<T: Display>(rt: &impl Abort, value: &T, wanted: &str) {
    let mut wanted = Wanted { rest: wanted };
    let written = write!(wanted, "{value}");
    assert_that(rt, written.is_ok());
    assert_same(rt, wanted.rest, "");
}

#[test]
fn texts_of_types_and_words(rt: HostRuntime) {
    let alloc = rt.alloc();
    let pair = pair(&rt, alloc);
    let target = made!(&rt; Box::new(alloc, Type::I32));
    let pointer = Type::Ptr(AddressSpace::Storage, target, AccessMode::Read);
    assert_text(&rt, &pair, "Pair");
    assert_text(&rt, &pointer, "ptr<storage, i32, read>");
    assert_text(&rt, &AccessMode::ReadWrite, "read_write");
    assert_text(&rt, &AddressSpace::Workgroup, "workgroup");
    assert_text(&rt, &Enumerant::AccessMode(AccessMode::Write), "write");
    assert_text(&rt, &TexelFormat::Rgba8Unorm, "rgba8unorm");
    assert_text(&rt, &BinaryOperator::Addition, "+");
    assert_text(&rt, &UnaryOperator::Negation, "-");
    assert_text(&rt, &I32(-5), "-5i");
    assert_same(&rt, BuiltinName::ExtractBits.as_str(), "extractBits");
    assert_that(&rt, !BuiltinReason::NotBool.as_str().is_empty());
    drop((pair, pointer));
}

#[test]
fn texts_of_values(rt: HostRuntime) {
    let alloc = rt.alloc();
    let rows = [
        (
            Instance::from(pair_with(&rt, alloc, 1)),
            "Pair(1u, vec3(2u, 3u, 4u))",
        ),
        (
            Instance::from(array_of(&rt, alloc, &[1, 2], true)),
            "array(1u, 2u)",
        ),
        (
            Instance::from(mat2x3(&rt, alloc)),
            "mat2x3(vec3(1u, 2u, 3u), vec3(4u, 5u, 6u))",
        ),
        (Instance::from(atomic_of(&rt, alloc, 5)), "atomic<u32>(5u)"),
        (
            Instance::from(reference_of(&rt, alloc)),
            "ref<storage, u32, read_write>",
        ),
        (Instance::from(pair(&rt, alloc)), "__deferred<Pair>"),
    ];
    let view = made!(&rt; member_then_index(alloc));
    for (value, wanted) in &rows {
        assert_text(&rt, value, wanted);
    }
    assert_text(&rt, &view, ":m:2");
    drop((rows, view));
}

#[test]
fn signatures(rt: HostRuntime) {
    let alloc = rt.alloc();
    let four = TpltParam::Instance(Instance::from(4i64));
    let template = made!(&rt; vec![in alloc; TpltParam::OfType(Type::F32), four]);
    let signature = CallSignature {
        name: text(&rt, alloc, "f"),
        tplt: Some(template),
        args: made!(&rt; vec![in alloc; Type::U32]),
    };
    let other = CallSignature {
        name: text(&rt, alloc, "f"),
        tplt: None,
        args: made!(&rt; vec![in alloc; Type::U32]),
    };
    assert_text(&rt, &signature, "f<f32, 4>(u32)");
    assert_text(&rt, &other, "f(u32)");
    assert_same(&rt, &signature, &signature);
    assert_that(&rt, signature != other);
    drop((signature, other));
}

#[test]
fn each_sort_is_compared_and_has_its_type(rt: HostRuntime) {
    let (alloc, word, number) = (rt.alloc(), Type::U32, Type::I32);
    let (pair, one) = (pair_with(&rt, alloc, 1), pair_with(&rt, alloc, 1));
    let ty = Type::Struct(made!(&rt; Box::new(alloc, pair_type(&rt, alloc))));
    let (matrix, same) = (mat2x3(&rt, alloc), mat2x3(&rt, alloc));
    let (atomic, six) = (atomic_of(&rt, alloc, 5), atomic_of(&rt, alloc, 6));
    let (reference, pointer) = (
        reference_of(&rt, alloc),
        PtrInstance::from(reference_of(&rt, alloc)),
    );
    assert_same(&rt, &pair, &one);
    assert_that(&rt, pair.has_ty(&ty));
    assert_same(&rt, &matrix, &same);
    assert_that(&rt, !matrix.has_ty(&ty));
    assert_that(&rt, atomic != six);
    assert_that(&rt, !atomic.has_ty(&word));
    assert_that(&rt, !reference.has_ty(&word));
    assert_same(&rt, &reference, pointer.ptr());
    assert_same(&rt, &pointer, &pointer);
    assert_that(&rt, !pointer.has_ty(&word));
    assert_text(&rt, &pointer, "ptr<storage, u32, read_write>");
    assert_that(&rt, I32(5).has_ty(&number));
    drop((pair, one, ty));
    drop((matrix, same, atomic));
    drop((six, reference, pointer));
    drop((word, number));
}

#[test]
fn lists_are_compared_and_have_their_types(rt: HostRuntime) {
    let alloc = rt.alloc();
    let (list, vector) = (
        array_of(&rt, alloc, &[1, 2], false),
        vector_of(&rt, alloc, &[1, 2]),
    );
    let (elements, components) = (
        array(&rt, alloc, Type::U32, Some(2)),
        vector_type(&rt, alloc, 2, Type::U32),
    );
    assert_same(&rt, &list, &list);
    assert_same(&rt, &vector, &vector);
    assert_that(&rt, list.has_ty(&elements));
    assert_that(&rt, !list.has_ty(&components));
    assert_that(&rt, vector.has_ty(&components));
    assert_that(&rt, !vector.has_ty(&elements));
    assert_text(&rt, &list, "array(1u, 2u)");
    assert_text(&rt, &vector, "vec2(1u, 2u)");
    drop((list, vector));
    drop((elements, components));
}

#[test]
fn a_value_is_put_in_its_place(rt: HostRuntime) {
    let alloc = rt.alloc();
    let mut pair = Instance::from(pair_with(&rt, alloc, 1));
    let (view, same) = (named(&rt, alloc, "a"), named(&rt, alloc, "a"));
    let wanted = Instance::from(pair_with(&rt, alloc, 9));
    let whole = MemView::Whole;
    assert_same(&rt, &view, &same);
    assert_that(&rt, view != whole);
    Instance::from(9u32).place(&mut pair, &view);
    assert_same(&rt, pair, wanted);
    drop((view, same, whole));
}

#[test]
fn errors_become_faults(rt: HostRuntime) {
    let kept = vector_of(&rt, rt.alloc(), &[1, 2]);
    assert_same(&rt, Error::from(AllocError), Error::Memory);
    assert_same(&rt, Fault::from(AllocError), Fault::Of(Error::Memory));
    assert_same(&rt, Fault::from(Error::NotRead), Fault::Of(Error::NotRead));
    drop(kept);
}

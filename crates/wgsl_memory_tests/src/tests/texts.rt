//! The texts of types, words, operators and literals.

use crate::tests::words::Structures;
use std::alloc::Global;
use std::fmt::Display;
use std::process::Abort;
use wgsl_rules::AccessMode::{Read, ReadWrite, Write};
use wgsl_rules::{
    AddressSpace, BinaryOperator, Enumerant, SampledType, SamplerType, TexelFormat, TextureType,
    Type, UnaryOperator,
};
use wgsl_samples::types::{pair, reference};
use wgsl_scalar::LiteralInstance::{AbstractInt, Bool, I32, I64, U32, U64};
use wgsl_scalar::{BuiltinName, BuiltinReason, LiteralInstance};

fn assert_text<T: Display + Drop>(rt: &impl Abort, alloc: Global, value: T, text: &str) {
    assert_eq!(rt;
        format!(in alloc; "{value}").expect(rt, "memory").as_str(),
        text
    );
}

/// Types by names, and their texts.
const TYPES: [(&str, &str); 17] = [
    ("bool", "bool"),
    ("int", "AbstractInt"),
    ("AbstractFloat", "AbstractFloat"),
    ("F16", "f16"),
    ("u64", "u64"),
    ("External", "texture_external<>"),
    ("DepthCubeArray", "texture_depth_cube_array"),
    ("SamplerComparison", "sampler_comparison"),
    ("Multisampled2DArray", "texture_multisampled_2d_array<f32>"),
    ("Storage2D", "texture_storage_2d<rgba16float, write>"),
    ("Pair", "Pair"),
    ("array<vec3<i64>,12>", "array<vec3<i64>, 12>"),
    ("array<f64>", "array<f64>"),
    ("mat2x3<f32>", "mat2x3<f32>"),
    ("atomic<u32>", "atomic<u32>"),
    ("Ptr", "ptr<function, i32, read_write>"),
    ("Ref", "ref<storage, u32, read>"),
];

fn type_of(rt: &impl Abort, alloc: Global, name: &str) -> Type {
    match name {
        "AbstractFloat" => Type::AbstractFloat,
        "F16" => Type::F16,
        "External" => Type::Texture(TextureType::External),
        "DepthCubeArray" => Type::Texture(TextureType::DepthCubeArray),
        "SamplerComparison" => Type::Sampler(SamplerType::SamplerComparison),
        "Multisampled2DArray" => {
            Type::Texture(TextureType::Multisampled2DArray(SampledType::F32))
        }
        "Storage2D" => Type::Texture(TextureType::Storage2D(TexelFormat::Rgba16Float, Write)),
        "Pair" => pair(alloc).expect(rt, "memory"),
        "Ptr" => {
            let inner = Box::new(alloc, Type::I32).expect(rt, "memory");
            Type::Ptr(AddressSpace::Function, inner, ReadWrite)
        }
        "Ref" => reference(alloc, Type::U32, Read).expect(rt, "memory"),
        word => Structures::new(alloc).ty(rt, alloc, word),
    }
}

#[test]
fn texts_of_types(rt: HostRuntime) {
    let alloc = rt.alloc();
    for (name, text) in &TYPES {
        assert_text(&rt, alloc, type_of(&rt, alloc, name), text);
    }
}

const WORDS: [(Enumerant, &str); 3] = [
    (Enumerant::AccessMode(ReadWrite), "read_write"),
    (
        Enumerant::AddressSpace(AddressSpace::Workgroup),
        "workgroup",
    ),
    (
        Enumerant::TexelFormat(TexelFormat::Bgra8Unorm),
        "bgra8unorm",
    ),
];

const UNARY: [(UnaryOperator, &str); 3] = [
    (UnaryOperator::LogicalNegation, "!"),
    (UnaryOperator::BitwiseComplement, "~"),
    (UnaryOperator::Indirection, "*"),
];

const BINARY: [(BinaryOperator, &str); 4] = [
    (BinaryOperator::ShortCircuitOr, "||"),
    (BinaryOperator::BitwiseOr, "|"),
    (BinaryOperator::LessThanEqual, "<="),
    (BinaryOperator::ShiftLeft, "<<"),
];

#[test]
fn texts_of_words_and_operators(rt: HostRuntime) {
    let alloc = rt.alloc();
    for (word, text) in &WORDS {
        assert_text(&rt, alloc, word, text);
    }
    for (operator, text) in &UNARY {
        assert_text(&rt, alloc, operator, text);
    }
    for (operator, text) in &BINARY {
        assert_text(&rt, alloc, operator, text);
    }
}

const LITERALS: [(LiteralInstance, &str); 7] = [
    (I32(-5), "-5i"),
    (U32(7), "7u"),
    (AbstractInt(7), "7"),
    (I64(7), "7li"),
    (U64(7), "7lu"),
    (Bool(true), "true"),
    (Bool(false), "false"),
];

#[test]
fn texts_of_literals_name_the_kind(rt: HostRuntime) {
    for (literal, text) in &LITERALS {
        assert_text(&rt, rt.alloc(), literal, text);
    }
}

#[test]
fn texts_of_builtins(rt: HostRuntime) {
    assert_eq!(rt; BuiltinName::Dot4U8Packed.as_str(), "dot4U8Packed");
    assert!(rt; !BuiltinReason::NotNumber.as_str().is_empty());
}

//! Types by the texts that stand for them in the rows of tests, for runs in which no memory is refused.

use std::alloc::Global;
use std::process::Abort;
use wgsl_rules::AccessMode::{self, Read, ReadWrite, Write};
use wgsl_rules::AddressSpace::{self, Function, Handle, Private, Storage, Uniform, Workgroup};
use wgsl_rules::{SampledType, SamplerType, StructMemberType, StructType, TextureType, Type};

/// What stands before and behind the mark; the test ends where it is not there.
pub(super) fn parted<'a>(rt: &impl Abort, text: &'a str, mark: &str) -> (&'a str, &'a str) {
    match text.trim().split_once(mark) {
        Some(parts) => parts,
        None => panic!(rt; "no {mark} in {text}"),
    }
}

/// The question and the answer of a row `NAME: QUESTION = ANSWER`.
pub(super) fn asked<'a>(rt: &impl Abort, row: &'a str) -> (&'a str, &'a str) {
    let (question, answer) = parted(rt, row, " = ");
    let (_, question) = parted(rt, question, ": ");
    (question, answer)
}

/// What `true` or `false` says.
pub(super) fn is_true(rt: &impl Abort, text: &str) -> bool {
    text.parse::<bool>().expect(rt, "true or false")
}

/// The number of the digits; none of `-`.
pub(super) fn number(rt: &impl Abort, digits: &str) -> Option<u32> {
    match digits {
        "-" => None,
        _ => Some(digits.parse::<u32>().expect(rt, "a number")),
    }
}

/// The numbers of the text, as in `1 2`; none of `nothing`.
pub(super) fn numbers(rt: &impl Abort, alloc: Global, text: &str) -> Vec<usize> {
    let mut numbers = Vec::new(alloc);
    if text == "nothing" {
        return numbers;
    }
    for digits in text.split(' ') {
        let number = digits.parse::<usize>().expect(rt, "a number");
        numbers.push(number).expect(rt, "memory");
    }
    numbers
}

/// The space of the name.
pub(super) fn space(rt: &impl Abort, name: &str) -> AddressSpace {
    match name {
        "function" => Function,
        "private" => Private,
        "workgroup" => Workgroup,
        "uniform" => Uniform,
        "storage" => Storage,
        "handle" => Handle,
        _ => panic!(rt; "{name} is no space"),
    }
}

/// The mode of the name; none of `-`.
pub(super) fn mode(rt: &impl Abort, name: &str) -> Option<AccessMode> {
    match name {
        "read" => Some(Read),
        "write" => Some(Write),
        "read_write" => Some(ReadWrite),
        "-" => None,
        _ => panic!(rt; "{name} is no access mode"),
    }
}

/// The space and the mode of a text as `storage read`.
fn space_and_mode(rt: &impl Abort, text: &str) -> (AddressSpace, AccessMode) {
    let (name, words) = parted(rt, text, " ");
    (
        space(rt, name),
        mode(rt, words).expect(rt, "an access mode"),
    )
}

/// The structure of the name, of those that are known.
pub(super) fn structure(
    rt: &impl Abort,
    alloc: Global,
    known: &[StructType],
    name: &str,
) -> StructType {
    for ty in known {
        if ty.name.as_str() == name {
            return ty.clone(alloc).expect(rt, "memory");
        }
    }
    panic!(rt; "no type {name}")
}

pub(super) fn boxed(rt: &impl Abort, alloc: Global, ty: StructType) -> Type {
    Type::Struct(Box::new(alloc, ty).expect(rt, "memory"))
}

fn plain(rt: &impl Abort, alloc: Global, known: &[StructType], name: &str) -> Type {
    match name {
        "bool" => Type::Bool,
        "AbstractInt" => Type::AbstractInt,
        "AbstractFloat" => Type::AbstractFloat,
        "i32" => Type::I32,
        "u32" => Type::U32,
        "f32" => Type::F32,
        "f16" => Type::F16,
        "i64" => Type::I64,
        "u64" => Type::U64,
        "f64" => Type::F64,
        "texture_2d" => Type::Texture(TextureType::Sampled2D(SampledType::F32)),
        "sampler" => Type::Sampler(SamplerType::Sampler),
        "sampler_comparison" => Type::Sampler(SamplerType::SamplerComparison),
        _ => boxed(rt, alloc, structure(rt, alloc, known, name)),
    }
}

fn small(rt: &impl Abort, digits: &str) -> u8 {
    digits.parse::<u8>().expect(rt, "a small number")
}

/// How many elements an array has by what stands behind its element.
fn count(rt: &impl Abort, digits: &str) -> Option<usize> {
    match digits {
        "" => None,
        _ => Some(digits.parse::<usize>().expect(rt, "a count")),
    }
}

/// The type of the head, of what is inside, and of what stands behind that.
fn composite(rt: &impl Abort, alloc: Global, head: &str, inside: Type, behind: &str) -> Type {
    let inside = Box::new(alloc, inside).expect(rt, "memory");
    if let Some(digits) = head.strip_prefix("vec") {
        return Type::Vec(small(rt, digits), inside);
    }
    if let Some(shape) = head.strip_prefix("mat") {
        let (columns, rows) = parted(rt, shape, "x");
        return Type::Mat(small(rt, columns), small(rt, rows), inside);
    }
    match head {
        "array" => Type::Array(inside, count(rt, behind)),
        "atomic" => Type::Atomic(inside),
        "ref" => {
            let (space, mode) = space_and_mode(rt, behind);
            Type::Ref(space, inside, mode)
        }
        "ptr" => {
            let (space, mode) = space_and_mode(rt, behind);
            Type::Ptr(space, inside, mode)
        }
        _ => panic!(rt; "{head} is no type"),
    }
}

/// The type of the text, as `array<vec2<i32>, 3>`, `ref<u32, storage read>` or the name of a structure that is known.
pub(super) fn ty(rt: &impl Abort, alloc: Global, known: &[StructType], text: &str) -> Type {
    let Some((heads, inside)) = text.rsplit_once('<') else {
        return plain(rt, alloc, known, text);
    };
    let (innermost, _) = parted(rt, inside, ">");
    let (name, _) = innermost.split_once(',').unwrap_or((innermost, ""));
    let mut ty = plain(rt, alloc, known, name);
    let mut others = inside.strip_prefix(name).unwrap_or("").split('>');
    for head in heads.rsplit('<') {
        let behind = others.next().unwrap_or("");
        ty = composite(rt, alloc, head, ty, behind.trim_start_matches(", "));
    }
    ty
}

/// The number of the attribute of the name, as of `@size(8)`, among the words.
fn attribute(rt: &impl Abort, words: &str, name: &str) -> Option<u32> {
    let (_, behind) = words.split_once(name)?;
    let (digits, _) = parted(rt, behind, ")");
    number(rt, digits)
}

/// The member of a text as `@size(8) @align(16) a: u32`.
fn member(rt: &impl Abort, alloc: Global, known: &[StructType], text: &str) -> StructMemberType {
    let (words, named) = parted(rt, text, ": ");
    let name = words.rsplit(' ').next().expect(rt, "a name");
    StructMemberType {
        name: String::from_str(alloc, name).expect(rt, "memory"),
        ty: ty(rt, alloc, known, named),
        size: attribute(rt, words, "@size("),
        align: attribute(rt, words, "@align("),
    }
}

/// The structures of lines as `Pair { a: u32; b: vec3<u32> }`, each behind those that it names.
pub(super) fn declared(rt: &impl Abort, alloc: Global, lines: &str) -> Vec<StructType> {
    let mut known = Vec::new(alloc);
    for line in lines.lines() {
        let (name, text) = parted(rt, line, " {");
        let mut members = Vec::new(alloc);
        for part in text.trim_end_matches('}').split(';') {
            if !part.trim().is_empty() {
                let member = member(rt, alloc, &known, part);
                members.push(member).expect(rt, "memory");
            }
        }
        let name = String::from_str(alloc, name).expect(rt, "memory");
        known
            .push(StructType { name, members })
            .expect(rt, "memory");
    }
    known
}

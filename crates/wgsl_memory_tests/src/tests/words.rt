//! What rows of tests name by words: types, values, views and bytes. The test ends where there is none of the words.

ghost use Rattle.wgsl_rules.specs.Values.{IsStorable, IsWellFormed};
ghost use Rattle.wgsl_values.specs.View.{value_of};

use crate::tests::fixtures::{text, vector};
use crate::tests::samples::{
    array_from, atomic_from, matrix_from, storable, structure_from, vector_from,
};
use std::alloc::Global;
use std::fmt::Write;
use std::process::Abort;
use wgsl_rules::{AccessMode, StructMemberType, StructType, Type};
use wgsl_scalar::LiteralInstance;
use wgsl_scalar::LiteralInstance::{AbstractInt, Bool, I32, I64, U32, U64};
use wgsl_values::{Instance, MemView};

/// The most types or values inside each other.
const DEPTH: usize = 10;

/// The most parts that a value has.
const PARTS: usize = 100;

/// The words of a row that are not taken yet, with a space between any two.
#[derive(Drop)]
pub(super) struct Words<'a> {
    pub rest: &'a str,
}

impl<'a> Words<'a> {
    /// Takes the next word, which is empty where there is none.
    pub(super) fn next(&mut self) -> &'a str {
        let (word, rest) = self.rest.split_once(' ').unwrap_or((self.rest, ""));
        self.rest = rest;
        word
    }

    /// Takes the mark off the front, if it stands there.
    pub(super) fn takes(&mut self, mark: &str) -> bool {
        match self.rest.strip_prefix(mark) {
            Some(rest) => {
                self.rest = rest;
                true
            }
            None => false,
        }
    }

    /// Takes a number.
    pub(super) fn number(&mut self, rt: &impl Abort) -> usize {
        number(rt, self.next())
    }

    /// Takes the number of a reference or a handle, as that of `&2`.
    pub(super) fn handle(&mut self, rt: &impl Abort) -> usize {
        let word = self.next();
        number(rt, word.strip_prefix('&').expect(rt, "a handle"))
    }
}

pub(super) fn number(rt: &impl Abort, word: &str) -> usize {
    word.parse::<usize>().ok().expect(rt, "a number")
}

pub(super) fn access(rt: &impl Abort, word: &str) -> AccessMode {
    match word {
        "read" => AccessMode::Read,
        "write" => AccessMode::Write,
        "read_write" => AccessMode::ReadWrite,
        _ => panic!(rt; "{word} is no access mode"),
    }
}

/// The view of the word: each member and index stands behind a dot, as in `.b.1`.
pub(super) fn view(rt: &impl Abort, alloc: Global, word: &str) -> MemView {
    let mut view = MemView::Whole;
    for step in word.split('.') {
        if step.is_empty() {
            continue;
        }
        let put = match step.parse::<usize>() {
            Ok(i) => view.append_index(alloc, i),
            Err(_) => view.append_member(alloc, text(rt, alloc, step)),
        };
        put.expect(rt, "memory");
    }
    view
}

/// The bytes of the words, each little-endian: `7b` is the byte 7.
pub(super) fn bytes(rt: &impl Abort, alloc: Global, words: &str) -> Vec<u8> {
    let mut bytes = Vec::new(alloc);
    for word in words.split_whitespace() {
        let put = match word.strip_suffix('b') {
            Some(byte) => {
                let byte = byte.parse::<u8>().ok().expect(rt, "a byte");
                bytes.extend_from_slice(&[byte])
            }
            None => {
                let word = word.parse::<u32>().ok().expect(rt, "a word");
                bytes.extend_from_slice(&word.to_le_bytes())
            }
        };
        put.expect(rt, "memory");
    }
    bytes
}

/// The words of the bytes: what [`bytes`] takes for them.
pub(super) fn words_of(rt: &impl Abort, alloc: Global, bytes: &[u8]) -> String {
    let mut text = String::new(alloc);
    for four in bytes.chunks(4) {
        match four {
            [a, b, c, d] => {
                let word = u32::from_le_bytes([*a, *b, *c, *d]);
                add_number(rt, &mut text, word, "");
            }
            _ => {
                for byte in four {
                    add_number(rt, &mut text, u32::from(*byte), "b");
                }
            }
        }
    }
    text
}

/// Puts the number behind the others, and the mark behind it.
fn add_number(rt: &impl Abort, text: &mut String, number: u32, mark: &str) {
    let space = if text.is_empty() { "" } else { " " };
    write!(text, "{space}{number}{mark}").expect(rt, "memory");
}

/// The word without the attribute of the mark behind it, and the number of that.
fn attribute<'a>(rt: &impl Abort, word: &'a str, mark: &str) -> (&'a str, Option<u32>) {
    match word.split_once(mark) {
        Some((word, number)) => (
            word,
            Some(number.parse::<u32>().ok().expect(rt, "a number")),
        ),
        None => (word, None),
    }
}

/// What stands before the bracket and in it, and the count behind the comma there, if that is the last thing in it.
fn bracketed(word: &str) -> Option<(&str, &str, Option<usize>)> {
    let (head, inner) = word.strip_suffix('>')?.split_once('<')?;
    match inner.rsplit_once(',') {
        Some((ty, count)) if !count.ends_with('>') => Some((head, ty, count.parse::<usize>().ok())),
        _ => Some((head, inner, None)),
    }
}

/// The type with this head and the type in its brackets.
fn around(rt: &impl Abort, alloc: Global, head: &str, ty: Type, count: Option<usize>) -> Type {
    let ty = Box::new(alloc, ty).expect(rt, "memory");
    match head {
        "vec2" => Type::Vec(2, ty),
        "vec3" => Type::Vec(3, ty),
        "vec4" => Type::Vec(4, ty),
        "mat2x3" => Type::Mat(2, 3, ty),
        "atomic" => Type::Atomic(ty),
        "array" => Type::Array(ty, count),
        _ => {
            drop(ty);
            panic!(rt; "{head} has no brackets")
        }
    }
}

/// The types of numbers and truth values by their names; `int` is that of abstract integers.
const NUMBERS: [(&str, Type); 8] = [
    ("bool", Type::Bool),
    ("int", Type::AbstractInt),
    ("i32", Type::I32),
    ("u32", Type::U32),
    ("i64", Type::I64),
    ("u64", Type::U64),
    ("f32", Type::F32),
    ("f64", Type::F64),
];

fn is_same(one: &str, other: &str) -> bool {
    one == other
}

/// The type of the name.
fn number_type(rt: &impl Abort, alloc: Global, name: &str) -> Type {
    for (own, ty) in &NUMBERS {
        if is_same(own, name) {
            return ty.clone(alloc).expect(rt, "memory");
        }
    }
    panic!(rt; "{name} is no type");
}

/// The structures that a script has declared.
#[derive(Drop)]
pub(super) struct Structures {
    declared: Vec<StructType>,
}

impl Structures {
    pub(super) fn new(alloc: Global) -> Structures {
        Structures {
            declared: Vec::new(alloc),
        }
    }

    /// Declares the structure of `S a:u32@size=16@align=16 b:vec3<u32>`. It takes the place of an older one of its
    /// name, which its members may have.
    pub(super) fn declare(&mut self, rt: &impl Abort, alloc: Global, declaration: &str) {
        let (name, members_of) = declaration.split_once(' ').expect(rt, "members");
        let mut members = Vec::new(alloc);
        for word in members_of.split_whitespace() {
            let member = self.member(rt, alloc, word);
            members.push(member).expect(rt, "memory");
        }
        let name = text(rt, alloc, name);
        let structure = StructType { name, members };
        self.declared.push(structure).expect(rt, "memory");
    }

    fn member(&self, rt: &impl Abort, alloc: Global, word: &str) -> StructMemberType {
        let (name, word) = word.split_once(':').expect(rt, "a member");
        let (word, align) = attribute(rt, word, "@align=");
        let (word, size) = attribute(rt, word, "@size=");
        StructMemberType {
            name: text(rt, alloc, name),
            ty: self.ty(rt, alloc, word),
            size,
            align,
        }
    }

    /// The type of a name: of a structure, if one of the name is declared.
    fn named(&self, rt: &impl Abort, alloc: Global, name: &str) -> Type {
        for structure in self.declared.iter().rev() {
            if is_same(&structure.name, name) {
                let copy = structure.clone(alloc).expect(rt, "memory");
                return Type::Struct(Box::new(alloc, copy).expect(rt, "memory"));
            }
        }
        number_type(rt, alloc, name)
    }

    /// The type of the word, as `array<vec3<u32>,2>`.
    pub(super) fn ty(&self, rt: &impl Abort, alloc: Global, word: &str) -> Type {
        let mut heads = Vec::new(alloc);
        let mut inner = word;
        for _ in 0..DEPTH {
            let Some((head, word, count)) = bracketed(inner) else {
                break;
            };
            heads.push((head, count)).expect(rt, "memory");
            inner = word;
        }
        let mut ty = self.named(rt, alloc, inner);
        for (head, count) in heads.iter().rev() {
            ty = around(rt, alloc, head, ty, *count);
        }
        ty
    }

    /// The value of the type and the numbers that are the words: a truth value is 0 or 1, and a runtime-sized array has
    /// as many elements as there are numbers for.
    pub(super) fn value(&self, rt: &impl Abort, alloc: Global, words: &mut Words<'_>) -> Instance
        ensures storable { IsStorable (value_of result) }
        ensures well_formed { IsWellFormed (value_of result) }
    {
        let ty = self.ty(rt, alloc, words.next());
        let value = value_within(rt, alloc, &ty, words, DEPTH);
        drop(ty);
        storable(rt, value)
    }
}

/// The number of a type of numbers or truth values.
fn literal(ty: &Type, word: &str) -> Option<LiteralInstance> {
    Some(match ty {
        Type::Bool => Bool(word.parse::<u8>().ok()? != 0),
        Type::AbstractInt => AbstractInt(word.parse::<i64>().ok()?),
        Type::I32 => I32(word.parse::<i32>().ok()?),
        Type::U32 => U32(word.parse::<u32>().ok()?),
        Type::I64 => I64(word.parse::<i64>().ok()?),
        Type::U64 => U64(word.parse::<u64>().ok()?),
        _ => return None,
    })
}

fn has_parts(ty: &Type) -> bool {
    match ty {
        Type::Vec(_, _) | Type::Mat(_, _, _) | Type::Array(_, _) => true,
        Type::Struct(_) | Type::Atomic(_) => true,
        _ => false,
    }
}

/// The type of the part of the index; none where a value of the type has so many parts. In a runtime-sized array there
/// is one more as long as there are words.
fn part_ty(rt: &impl Abort, alloc: Global, ty: &Type, i: usize, is_more: bool) -> Option<Type> {
    let part = match ty {
        Type::Vec(count, part) if i < usize::from(*count) => &**part,
        Type::Array(part, Some(count)) if i < *count => &**part,
        Type::Array(part, None) if is_more => &**part,
        Type::Atomic(part) if i == 0 => &**part,
        Type::Struct(structure) => &structure.members.get(i)?.ty,
        Type::Mat(columns, rows, part) if i < usize::from(*columns) => {
            let part = (**part).clone(alloc).expect(rt, "memory");
            return Some(vector(rt, alloc, *rows, part));
        }
        _ => return None,
    };
    Some(part.clone(alloc).expect(rt, "memory"))
}

/// The value of a type with parts.
fn whole(rt: &impl Abort, alloc: Global, ty: &Type, mut parts: Vec<Instance>) -> Instance {
    match ty {
        Type::Vec(_, _) => Instance::from(vector_from(rt, parts)),
        Type::Mat(_, _, _) => Instance::from(matrix_from(rt, parts)),
        Type::Array(_, count) => Instance::from(array_from(rt, parts, count.is_none())),
        Type::Struct(structure) => {
            let structure = (**structure).clone(alloc).expect(rt, "memory");
            Instance::from(structure_from(rt, structure, parts))
        }
        _ => {
            let content = parts.pop().expect(rt, "a number");
            drop(parts);
            Instance::from(atomic_from(rt, alloc, content).expect(rt, "memory"))
        }
    }
}

/// The value of the type and the next numbers, which has fewer values inside each other.
fn value_within(
    rt: &impl Abort,
    alloc: Global,
    ty: &Type,
    words: &mut Words<'_>,
    depth: usize,
) -> Instance {
    let depth = depth.checked_sub(1).expect(rt, "a value of that depth");
    if !has_parts(ty) {
        let literal = literal(ty, words.next());
        return Instance::from(literal.expect(rt, "a number of the type"));
    }
    let mut parts = Vec::new(alloc);
    for i in 0..PARTS {
        let Some(part) = part_ty(rt, alloc, ty, i, !words.rest.is_empty()) else {
            break;
        };
        let value = value_within(rt, alloc, &part, words, depth);
        drop(part);
        parts.push(value).expect(rt, "memory");
    }
    whole(rt, alloc, ty, parts)
}

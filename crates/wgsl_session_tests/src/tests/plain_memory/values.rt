//! What the types of the table, and the bytes and handles of the plain memory, are as types, values and references.

use crate::tests::plain_memory::memory::{Content, Memory, Step, number_of, range};
use crate::tests::plain_memory::shapes::{Kind, Member, Place, Shape, Shapes, Sort};
use crate::tests::samples::{
    array_from, atomic_from, matrix_from, structure_from, text, vector_from,
};
use std::alloc::Global;
use std::process::Abort;
use wgsl_rules::{StructMemberType, StructType, Type};
use wgsl_scalar::LiteralInstance;
use wgsl_scalar::LiteralInstance::{AbstractInt, Bool, I32, I64, U32, U64};
use wgsl_values::{Instance, MemView, RefInstance};

const MEMBERS: [&str; 6] = ["a", "b", "c", "d", "e", "f"];

const STRUCTURES: [&str; 3] = ["S", "T", "U"];

/// The name of a member.
pub(super) fn member_name(rt: &impl Abort, alloc: Global, name: usize) -> String {
    let name = MEMBERS.get(name).copied().expect(rt, "a name");
    text(rt, alloc, name)
}

fn kind_type(kind: Kind) -> Type {
    match kind {
        Kind::Bool => Type::Bool,
        Kind::Abstract => Type::AbstractInt,
        Kind::I32 => Type::I32,
        Kind::U32 => Type::U32,
        Kind::I64 => Type::I64,
        Kind::U64 => Type::U64,
    }
}

/// The number of these bytes.
fn literal(kind: Kind, bytes: &[u8]) -> LiteralInstance {
    let number = number_of(bytes);
    let low = u32::try_from(number).unwrap_or(0);
    match kind {
        Kind::Bool => Bool(number != 0),
        Kind::Abstract => AbstractInt(number.cast_signed()),
        Kind::I32 => I32(low.cast_signed()),
        Kind::U32 => U32(low),
        Kind::I64 => I64(number.cast_signed()),
        Kind::U64 => U64(number),
    }
}

fn boxed<T: Drop>(rt: &impl Abort, alloc: Global, value: T) -> Box<T> {
    Box::new(alloc, value).expect(rt, "memory")
}

/// The type of a row of parts of this type. Of a matrix, the part is its number, and its columns have so many rows.
fn row_type(
    rt: &impl Abort,
    alloc: Global,
    (sort, count, rows): (Sort, usize, usize),
    part: Type,
) -> Type {
    let part = boxed(rt, alloc, part);
    let small = u8::try_from(count).unwrap_or(0);
    match sort {
        Sort::Vector => Type::Vec(small, part),
        Sort::Matrix => Type::Mat(small, u8::try_from(rows).unwrap_or(0), part),
        Sort::Array => Type::Array(part, Some(count)),
        Sort::Open => Type::Array(part, None),
    }
}

/// The type of a member with its attributes.
fn member_type(rt: &impl Abort, alloc: Global, member: Member, ty: Type) -> StructMemberType {
    StructMemberType {
        name: member_name(rt, alloc, member.name),
        ty,
        size: member.size,
        align: member.align,
    }
}

/// The structure type of the name of this number.
fn structure_type(
    rt: &impl Abort,
    alloc: Global,
    name: usize,
    members: Vec<StructMemberType>,
) -> StructType {
    let name = STRUCTURES.get(name).copied().expect(rt, "a name");
    StructType {
        name: text(rt, alloc, name),
        members,
    }
}

/// What a structure type is made of.
fn structure(rt: &impl Abort, ty: Type) -> StructType {
    match ty {
        Type::Struct(structure) => Box::into_inner(structure),
        other => {
            drop(other);
            panic!(rt; "no structure")
        }
    }
}

impl Shapes {
    /// The part that the type of a row has inside, and how many rows the columns of a matrix have.
    fn inner(&self, sort: Sort, part: usize) -> (usize, usize) {
        match (sort, self.shape(part)) {
            (Sort::Matrix, Shape::Row(_, rows, number)) => (number, rows),
            _ => (part, 0),
        }
    }

    /// The type of this number.
    pub(super) fn ty(&self, rt: &impl Abort, alloc: Global, shape: usize) -> Type {
        self.type_within(rt, alloc, shape, self.len().wrapping_add(1))
    }

    /// The type of this number, which has fewer types inside each other.
    fn type_within(&self, rt: &impl Abort, alloc: Global, shape: usize, depth: usize) -> Type {
        let depth = depth.checked_sub(1).expect(rt, "a type of that depth");
        match self.shape(shape) {
            Shape::Number(kind) => kind_type(kind),
            Shape::Atomic(kind) => Type::Atomic(boxed(rt, alloc, kind_type(kind))),
            Shape::Row(sort, count, part) => {
                let (part, rows) = self.inner(sort, part);
                let part = self.type_within(rt, alloc, part, depth);
                row_type(rt, alloc, (sort, count, rows), part)
            }
            Shape::Structure(name, _, _) => {
                let mut members = Vec::new(alloc);
                for member in self.members(shape) {
                    let ty = self.type_within(rt, alloc, member.shape, depth);
                    let member = member_type(rt, alloc, *member, ty);
                    members.push(member).expect(rt, "memory");
                }
                let ty = structure_type(rt, alloc, name, members);
                Type::Struct(boxed(rt, alloc, ty))
            }
            Shape::Reference(space, target, access) => {
                let target = self.type_within(rt, alloc, target, depth);
                Type::Ref(space, boxed(rt, alloc, target), access)
            }
        }
    }

    /// The value of a type with parts, from the values of its parts.
    fn whole(
        &self,
        rt: &impl Abort,
        alloc: Global,
        shape: usize,
        parts: Vec<Instance>,
    ) -> Instance {
        match self.shape(shape) {
            Shape::Row(Sort::Vector, _, _) => Instance::from(vector_from(rt, parts)),
            Shape::Row(Sort::Matrix, _, _) => Instance::from(matrix_from(rt, parts)),
            Shape::Row(Sort::Array, _, _) => Instance::from(array_from(rt, parts, false)),
            Shape::Row(Sort::Open, _, _) => Instance::from(array_from(rt, parts, true)),
            Shape::Structure(_, _, _) => {
                let ty = structure(rt, self.ty(rt, alloc, shape));
                Instance::from(structure_from(rt, ty, parts))
            }
            Shape::Number(_) | Shape::Atomic(_) | Shape::Reference(_, _, _) => {
                drop(parts);
                panic!(rt; "no parts")
            }
        }
    }

    /// The part there of what the bytes are, which has fewer values inside each other.
    fn value_within(
        &self,
        rt: &impl Abort,
        alloc: Global,
        content: &Content,
        place: Place,
        depth: usize,
    ) -> Instance {
        let depth = depth.checked_sub(1).expect(rt, "a value of that depth");
        let size = self.laid(place.shape).size;
        let bytes = range(&content.bytes, place.first, size);
        match self.shape(place.shape) {
            Shape::Number(kind) => Instance::from(literal(kind, bytes)),
            Shape::Atomic(kind) => {
                let number = Instance::from(literal(kind, bytes));
                Instance::from(atomic_from(rt, alloc, number).expect(rt, "memory"))
            }
            Shape::Row(_, _, _) | Shape::Structure(_, _, _) => {
                let places = self.parts(rt, alloc, place, content.elements);
                let mut parts = Vec::new(alloc);
                for part in &places {
                    let part = self.value_within(rt, alloc, content, *part, depth);
                    parts.push(part).expect(rt, "memory");
                }
                self.whole(rt, alloc, place.shape, parts)
            }
            Shape::Reference(_, _, _) => panic!(rt; "a reference in a value"),
        }
    }

    /// The value of what holds no reference.
    pub(super) fn value(&self, rt: &impl Abort, alloc: Global, content: &Content) -> Instance {
        let shape = content.shape;
        let place = Place { shape, first: 0 };
        self.value_within(rt, alloc, content, place, self.len().wrapping_add(1))
    }
}

impl Memory {
    /// The view from the whole of a cell to what the handle names.
    fn view(&self, rt: &impl Abort, alloc: Global, handle: usize) -> MemView {
        let mut view = MemView::Whole;
        let mut handle = handle;
        for _ in 0..self.handles.len() {
            let Ok(named) = self.named(handle) else {
                break;
            };
            let Some((whole, step)) = named.from else {
                break;
            };
            let rest = boxed(rt, alloc, view);
            view = match step {
                Step::Name(name) => MemView::Member(member_name(rt, alloc, name), rest),
                Step::Index(i) => MemView::Index(i, rest),
            };
            handle = whole;
        }
        view
    }

    /// The reference of the handle.
    pub(super) fn reference(&self, rt: &impl Abort, alloc: Global, handle: usize) -> RefInstance {
        let named = self.handles.get(handle).copied().expect(rt, "a handle");
        let view = self.view(rt, alloc, handle);
        let ty = self.shapes.ty(rt, alloc, named.shape);
        RefInstance::from_parts(named.cell, view, ty, named.space, named.access)
    }

    /// The value of the bytes.
    pub(super) fn value(&self, rt: &impl Abort, alloc: Global, content: &Content) -> Instance {
        match self.shapes.shape(content.shape) {
            Shape::Reference(_, _, _) => {
                let handle = usize::try_from(number_of(&content.bytes)).unwrap_or(usize::MAX);
                Instance::from(self.reference(rt, alloc, handle))
            }
            Shape::Number(_) | Shape::Atomic(_) => self.shapes.value(rt, alloc, content),
            Shape::Row(_, _, _) => self.shapes.value(rt, alloc, content),
            Shape::Structure(_, _, _) => self.shapes.value(rt, alloc, content),
        }
    }
}

//! Types as a table of rows: each names those that it is made of by their numbers in the table, and is there once.

use crate::tests::plain_memory::layout::{Laid, row_distance};
use std::alloc::Global;
use std::process::Abort;
use wgsl_rules::{AccessMode, AddressSpace};

/// The kind of a number, or of a truth value.
#[derive(Clone, Copy, PartialEq, Eq)]
pub(super) enum Kind {
    Bool,
    Abstract,
    I32,
    U32,
    I64,
    U64,
}

/// What has parts by index.
#[derive(Clone, Copy, PartialEq, Eq)]
pub(super) enum Sort {
    Vector,
    Matrix,
    Array,
    /// A runtime-sized array.
    Open,
}

/// A type.
#[derive(Clone, Copy, PartialEq, Eq)]
pub(super) enum Shape {
    Number(Kind),
    Atomic(Kind),
    /// So many components, columns or elements of one type. What is runtime-sized has 0 here.
    Row(Sort, usize, usize),
    /// A name, and the members: the first one's number in the table of members, and how many there are.
    Structure(usize, usize, usize),
    /// The type inside is the second.
    Reference(AddressSpace, usize, AccessMode),
}

/// A member of a structure.
#[derive(Clone, Copy, PartialEq, Eq)]
pub(super) struct Member {
    /// The number of its name.
    pub name: usize,
    pub shape: usize,
    pub align: Option<u32>,
    pub size: Option<u32>,
    /// Where it stands in the structure.
    pub offset: usize,
}

/// A type, and what its bytes are.
#[derive(Clone, Copy)]
pub(super) struct Entry {
    pub shape: Shape,
    pub laid: Laid,
}

/// A part of what has some type: its own type, and where it stands.
#[derive(Clone, Copy)]
pub(super) struct Place {
    pub shape: usize,
    pub first: usize,
}

#[derive(Drop)]
pub(super) struct Shapes {
    entries: Vec<Entry>,
    members: Vec<Member>,
}

impl Shapes {
    pub(super) fn new(alloc: Global) -> Shapes {
        Shapes {
            entries: Vec::new(alloc),
            members: Vec::new(alloc),
        }
    }

    /// How many types there are.
    pub(super) fn len(&self) -> usize {
        self.entries.len()
    }

    /// The type of this number. A structure without members where there is none.
    pub(super) fn entry(&self, shape: usize) -> Entry {
        let nothing = Entry {
            shape: Shape::Structure(0, 0, 0),
            laid: Laid::nothing(),
        };
        self.entries.get(shape).copied().unwrap_or(nothing)
    }

    pub(super) fn shape(&self, shape: usize) -> Shape {
        self.entry(shape).shape
    }

    pub(super) fn laid(&self, shape: usize) -> Laid {
        self.entry(shape).laid
    }

    /// The members of a structure; no other type has some.
    pub(super) fn members(&self, shape: usize) -> &[Member] {
        match self.shape(shape) {
            Shape::Structure(_, first, count) => {
                let from = self.members.get(first..).unwrap_or(&[]);
                from.get(..count).unwrap_or(&[])
            }
            Shape::Number(_) | Shape::Atomic(_) | Shape::Row(_, _, _) => &[],
            Shape::Reference(_, _, _) => &[],
        }
    }

    /// The first member of the name.
    pub(super) fn member(&self, shape: usize, name: usize) -> Option<Member> {
        for member in self.members(shape) {
            if member.name == name {
                return Some(*member);
            }
        }
        None
    }

    /// The number of the type, which is added where it is not there. It is no structure.
    pub(super) fn add(&mut self, rt: &impl Abort, shape: Shape) -> usize {
        for (i, entry) in self.entries.iter().enumerate() {
            if entry.shape == shape {
                return i;
            }
        }
        let laid = match shape {
            Shape::Number(kind) => Laid::number(kind),
            Shape::Atomic(_) => Laid::atomic(),
            Shape::Row(sort, count, part) => Laid::row(sort, count, self.entry(part)),
            Shape::Structure(_, _, _) => Laid::nothing(),
            Shape::Reference(_, _, _) => Laid::reference(),
        };
        self.add_entry(rt, Entry { shape, laid })
    }

    /// The number of the structure of that name with the members, whose places are not given yet. It is added where it
    /// is not there.
    pub(super) fn add_structure(
        &mut self,
        rt: &impl Abort,
        name: usize,
        members: &mut [Member],
    ) -> usize {
        let laid = self.place(members);
        for i in 0..self.entries.len() {
            let is_named = matches!(self.shape(i), Shape::Structure(other, _, _) if other == name);
            if is_named && self.members(i) == &*members {
                return i;
            }
        }
        let shape = Shape::Structure(name, self.members.len(), members.len());
        self.members.extend_from_slice(members).expect(rt, "memory");
        self.add_entry(rt, Entry { shape, laid })
    }

    fn add_entry(&mut self, rt: &impl Abort, entry: Entry) -> usize {
        let made = self.entries.len();
        self.entries.push(entry).expect(rt, "memory");
        made
    }

    /// The parts of what has the type and stands there. Its runtime-sized array, if it has one, has so many elements.
    pub(super) fn parts(
        &self,
        rt: &impl Abort,
        alloc: Global,
        place: Place,
        elements: usize,
    ) -> Vec<Place> {
        let mut parts = Vec::new(alloc);
        if let Shape::Row(sort, count, part) = self.shape(place.shape) {
            let distance = row_distance(sort, self.laid(part));
            for i in 0..part_count(sort, count, elements) {
                let first = place.first.wrapping_add(i.wrapping_mul(distance));
                let part = Place { shape: part, first };
                parts.push(part).expect(rt, "memory");
            }
        }
        for member in self.members(place.shape) {
            let first = place.first.wrapping_add(member.offset);
            let shape = member.shape;
            parts.push(Place { shape, first }).expect(rt, "memory");
        }
        parts
    }
}

/// How many parts there are where the type says count, and a runtime-sized array has so many elements.
pub(super) fn part_count(sort: Sort, count: usize, elements: usize) -> usize {
    match sort {
        Sort::Vector | Sort::Matrix | Sort::Array => count,
        Sort::Open => elements,
    }
}

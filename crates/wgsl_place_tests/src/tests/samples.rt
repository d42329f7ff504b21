//! The type that the tests look at, and the places of its numbers.

use std::alloc::{AllocError, Global};
use std::process::Abort;
use wgsl_places::{Place, Places};
use wgsl_rules::{StructMemberType, Type};
use wgsl_samples::types::{array, matrix, member, structure, vector};
use wgsl_values::MemView;

/// A step of a view, and the position of the part that it leads to.
#[derive(Clone, Copy)]
pub(super) enum Step {
    Member(&'static str, usize),
    Index(usize),
}

use Step::{Index, Member};

/// A number of `Scene`: the steps to it, where it begins, and its kind.
pub(super) struct Row {
    pub(super) steps: &'static [Step],
    pub(super) start: usize,
    pub(super) kind: &'static str,
}

/// The bytes of a `Scene` with three elements at its end.
pub(super) const LEN: usize = 112;

/// Numbers of each member, the first and the last of those that are alike.
pub(super) const ROWS: &[Row] = &[
    Row {
        steps: &[Member("a", 0)],
        start: 0,
        kind: "u32",
    },
    Row {
        steps: &[Member("b", 1), Index(0)],
        start: 16,
        kind: "i32",
    },
    Row {
        steps: &[Member("b", 1), Index(2)],
        start: 24,
        kind: "i32",
    },
    Row {
        steps: &[Member("grid", 2), Index(0), Index(1)],
        start: 36,
        kind: "u32",
    },
    Row {
        steps: &[Member("grid", 2), Index(1), Index(2)],
        start: 56,
        kind: "u32",
    },
    Row {
        steps: &[Member("spans", 3), Index(0), Member("low", 0)],
        start: 64,
        kind: "i64",
    },
    Row {
        steps: &[Member("spans", 3), Index(1), Member("low", 0)],
        start: 80,
        kind: "i64",
    },
    Row {
        steps: &[Member("spans", 3), Index(1), Member("high", 1)],
        start: 88,
        kind: "u64",
    },
    Row {
        steps: &[Member("total", 4)],
        start: 96,
        kind: "i32",
    },
    Row {
        steps: &[Member("tail", 5), Index(0)],
        start: 100,
        kind: "u32",
    },
    Row {
        steps: &[Member("tail", 5), Index(2)],
        start: 108,
        kind: "u32",
    },
];

fn atomic(alloc: Global, content: Type) -> Result<Type, AllocError> {
    Ok(Type::Atomic(Box::new(alloc, content)?))
}

pub(super) fn add_member(
    alloc: Global,
    members: &mut Vec<StructMemberType>,
    name: &str,
    ty: Type,
) -> Result<(), AllocError> {
    members.push(member(alloc, name, ty, None)?)?;
    Ok(())
}

fn add_members_of_span(
    alloc: Global,
    members: &mut Vec<StructMemberType>,
) -> Result<(), AllocError> {
    add_member(alloc, members, "low", Type::I64)?;
    add_member(alloc, members, "high", Type::U64)
}

/// struct Span { low: i64, high: u64 }
fn span(alloc: Global) -> Result<Type, AllocError> {
    let mut members = Vec::new(alloc);
    add_members_of_span(alloc, &mut members)?;
    structure(alloc, "Span", members)
}

fn add_members_of_scene(
    alloc: Global,
    members: &mut Vec<StructMemberType>,
) -> Result<(), AllocError> {
    add_member(alloc, members, "a", Type::U32)?;
    add_member(alloc, members, "b", vector(alloc, 3, Type::I32)?)?;
    add_member(alloc, members, "grid", matrix(alloc, Type::U32)?)?;
    let spans = array(alloc, span(alloc)?, Some(2))?;
    add_member(alloc, members, "spans", spans)?;
    add_member(alloc, members, "total", atomic(alloc, Type::I32)?)?;
    let tail = array(alloc, atomic(alloc, Type::U32)?, None)?;
    add_member(alloc, members, "tail", tail)
}

/// struct Scene {
///     a: u32, b: vec3<i32>, grid: mat2x3<u32>, spans: array<Span, 2>, total: atomic<i32>, tail: array<atomic<u32>>
/// }
pub(super) fn scene(alloc: Global) -> Result<Type, AllocError> {
    let mut members = Vec::new(alloc);
    add_members_of_scene(alloc, &mut members)?;
    structure(alloc, "Scene", members)
}

/// The places of a `Scene`.
pub(super) fn scene_places(rt: &impl Abort, alloc: Global) -> Places {
    let ty = scene(alloc).expect(rt, "no memory to make it");
    let places = Places::of(alloc, &ty).expect(rt, "no memory to make it");
    drop(ty);
    places.expect(rt, "a layout")
}

/// The view of these steps.
pub(super) fn view_of(rt: &impl Abort, alloc: Global, steps: &[Step]) -> MemView {
    let mut view = MemView::Whole;
    for step in steps {
        let longer = match step {
            Member(name, _) => match String::from_str(alloc, name) {
                Ok(name) => view.append_member(alloc, name),
                Err(error) => Err(error),
            },
            Index(i) => view.append_index(alloc, *i),
        };
        longer.expect(rt, "no memory to make it");
    }
    view
}

/// The place at the end of these steps, found in one go.
pub(super) fn place_of(rt: &impl Abort, alloc: Global, places: &Places, steps: &[Step]) -> Place {
    let view = view_of(rt, alloc, steps);
    let place = places.place(LEN, &view);
    drop(view);
    place.expect(rt, "a part")
}

/// The place at the end of these steps, found by one step after the other.
pub(super) fn stepped(rt: &impl Abort, places: &Places, steps: &[Step]) -> Place {
    stepped_in(rt, places, LEN, steps)
}

/// The same, in so many bytes.
pub(super) fn stepped_in(rt: &impl Abort, places: &Places, len: usize, steps: &[Step]) -> Place {
    let whole = places.place(len, &MemView::Whole);
    let mut place = whole.expect(rt, "the whole");
    for step in steps {
        let position = match step {
            Member(_, position) => *position,
            Index(i) => *i,
        };
        place = places.part(place, position).expect(rt, "a part");
    }
    place
}

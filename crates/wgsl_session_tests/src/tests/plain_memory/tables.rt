//! Tables of types that a seed gives: numbers, atomics and vectors of each kind, then matrices, arrays and structures
//! of what stands before them.

use crate::tests::plain_memory::layout::Layout;
use crate::tests::plain_memory::numbers::Numbers;
use crate::tests::plain_memory::shapes::{Kind, Member, Shape, Shapes, Sort};
use std::alloc::Global;
use std::process::Abort;

const KINDS: [Kind; 6] = [
    Kind::Bool,
    Kind::Abstract,
    Kind::I32,
    Kind::U32,
    Kind::I64,
    Kind::U64,
];

/// How many names members have.
pub(super) const NAMES: usize = 6;

/// How many matrices, arrays and structures a table has, but for those that are there already.
const MADE: usize = 60;

/// The most bytes that a part of an array or a structure may have, beside a runtime-sized array.
const LARGE: usize = 160;

/// What an `align` attribute is raised from to the alignment of the type. It is kept once in sixteen times; then it may
/// be too small, or no power of two.
const ALIGNS: [u32; 9] = [1, 3, 4, 8, 8, 16, 16, 32, 64];

/// What a `size` attribute adds to the size of the type. Once in sixteen times it takes four bytes away.
const MORE: [u32; 5] = [0, 4, 8, 12, 20];

/// How many types are looked at for one of a sort.
const DRAWS: usize = 200;

/// A sort of types.
#[derive(Clone, Copy)]
pub(super) enum Drawn {
    /// Of values that hold no reference.
    Value,
    /// That are or end in a runtime-sized array.
    Open,
    /// Truth values and abstract numbers, which have no layout.
    Unlaid,
    /// That a part may have: they are not large, and not runtime-sized.
    Part,
    /// Of these, that have a layout.
    LaidOut,
}

impl Shapes {
    /// A table with types of each sort.
    pub(super) fn random(rt: &impl Abort, alloc: Global, numbers: &mut Numbers) -> Shapes {
        let mut shapes = Shapes::new(alloc);
        for kind in KINDS {
            let number = shapes.add(rt, Shape::Number(kind));
            for count in 2..5 {
                shapes.add(rt, Shape::Row(Sort::Vector, count, number));
            }
        }
        shapes.add(rt, Shape::Atomic(Kind::I32));
        shapes.add(rt, Shape::Atomic(Kind::U32));
        for _ in 0..MADE {
            shapes.add_random(rt, alloc, numbers);
        }
        shapes
    }

    /// A matrix, an array or a structure.
    fn add_random(&mut self, rt: &impl Abort, alloc: Global, numbers: &mut Numbers) {
        let part = self.random_part(numbers);
        match numbers.below(8) {
            0 => self.add_matrix(rt, numbers),
            1 => {
                let count = numbers.below(4).wrapping_add(1);
                self.add(rt, Shape::Row(Sort::Array, count, part))
            }
            2 => self.add(rt, Shape::Row(Sort::Open, 0, part)),
            _ => self.add_members(rt, alloc, numbers),
        };
    }

    /// A matrix of any of the vectors.
    fn add_matrix(&mut self, rt: &impl Abort, numbers: &mut Numbers) -> usize {
        let kind = numbers.below(KINDS.len()).wrapping_mul(4);
        let column = numbers.below(3).wrapping_add(kind).wrapping_add(1);
        let columns = numbers.below(3).wrapping_add(2);
        self.add(rt, Shape::Row(Sort::Matrix, columns, column))
    }

    /// A structure of up to four members, and perhaps one that is or ends in a runtime-sized array.
    fn add_members(&mut self, rt: &impl Abort, alloc: Global, numbers: &mut Numbers) -> usize {
        let mut members = Vec::new(alloc);
        for _ in 0..numbers.below(5) {
            let shape = self.random_part(numbers);
            let member = self.random_member(numbers, shape);
            members.push(member).expect(rt, "memory");
        }
        if numbers.is_one_in(3) {
            let shape = self.draw(numbers, Drawn::Open);
            let member = self.random_member(numbers, shape);
            members.push(member).expect(rt, "memory");
            if numbers.is_one_in(8) {
                members.reverse();
            }
        }
        self.add_structure(rt, numbers.below(3), &mut members)
    }

    /// A type of a part. One of a few has no layout.
    fn random_part(&self, numbers: &mut Numbers) -> usize {
        if numbers.is_one_in(12) {
            self.draw(numbers, Drawn::Part)
        } else {
            self.draw(numbers, Drawn::LaidOut)
        }
    }

    fn is_drawn(&self, shape: usize, drawn: Drawn) -> bool {
        let laid = self.laid(shape);
        let is_part = !laid.is_open && laid.size <= LARGE;
        match drawn {
            Drawn::Value => !matches!(self.shape(shape), Shape::Reference(_, _, _)),
            Drawn::Open => laid.is_open,
            Drawn::Unlaid => {
                matches!(self.shape(shape), Shape::Number(_)) && laid.layout == Layout::Missing
            }
            Drawn::Part => is_part,
            Drawn::LaidOut => is_part && laid.layout == Layout::Fixed,
        }
    }

    /// A type of the sort; type 0 where none is found soon.
    pub(super) fn draw(&self, numbers: &mut Numbers, drawn: Drawn) -> usize {
        for _ in 0..DRAWS {
            let shape = numbers.below(self.len());
            if self.is_drawn(shape, drawn) {
                return shape;
            }
        }
        0
    }

    /// A member of the type: one of six has an `align` attribute, one of six a `size` attribute, and one of six both.
    fn random_member(&self, numbers: &mut Numbers, shape: usize) -> Member {
        let laid = self.laid(shape);
        let (is_aligned, is_sized) = match numbers.below(6) {
            0 => (true, false),
            1 => (false, true),
            2 => (true, true),
            _ => (false, false),
        };
        let own = u32::try_from(laid.align).unwrap_or(1);
        let align = match numbers.below(16) {
            0 => numbers.pick(&ALIGNS),
            _ => numbers.pick(&ALIGNS).max(own),
        };
        let own = u32::try_from(laid.size).unwrap_or(0);
        let size = match numbers.below(16) {
            0 => own.saturating_sub(4),
            _ => own.wrapping_add(numbers.pick(&MORE)),
        };
        Member {
            name: numbers.below(NAMES),
            shape,
            align: if is_aligned { Some(align) } else { None },
            size: if is_sized { Some(size) } else { None },
            offset: 0,
        }
    }
}

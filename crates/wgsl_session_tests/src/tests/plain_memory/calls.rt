//! Calls that a seed gives: most can be made, and the others name handles, members and parts that are not there, or
//! hand in values of other types or lengths.

use crate::tests::plain_memory::layout::Layout;
use crate::tests::plain_memory::memory::{Call, Content, Memory, Named};
use crate::tests::plain_memory::numbers::Numbers;
use crate::tests::plain_memory::shapes::{Kind, Place, Shape, Shapes};
use crate::tests::plain_memory::tables::{Drawn, NAMES};
use std::alloc::Global;
use std::process::Abort;

/// The most parts that a value has, those of its parts included.
const PARTS: usize = 10_000;

/// A sort of handles.
#[derive(Clone, Copy)]
enum Sought {
    Any,
    Structure,
    Row,
    Reference,
    /// Of a type that is or ends in a runtime-sized array.
    Open,
    /// Of a part that has a layout, in a cell that has none.
    Loose,
    /// Of this type.
    Like(usize),
}

/// The bytes of a number of the kind: of a truth value 0 or 1.
fn put_number(bytes: &mut [u8], first: usize, kind: Kind, number: u64) {
    let (number, len) = match kind {
        Kind::Bool => (number & 1, 4),
        Kind::I32 | Kind::U32 => (number, 4),
        Kind::Abstract | Kind::I64 | Kind::U64 => (number, 8),
    };
    let places = bytes.iter_mut().skip(first).take(len);
    for (place, byte) in places.zip(&number.to_le_bytes()) {
        *place = *byte;
    }
}

impl Shapes {
    /// A value of the type with any numbers, and 0 for each other byte. Its runtime-sized array, if it has one, has so
    /// many elements.
    fn random_content(
        &self,
        rt: &impl Abort,
        alloc: Global,
        numbers: &mut Numbers,
        shape: usize,
        elements: usize,
    ) -> Content {
        let laid = self.laid(shape);
        let elements = if laid.is_open { elements } else { 0 };
        let mut bytes = vec![in alloc; 0u8; laid.len(elements)].expect(rt, "memory");
        let mut places = vec![in alloc; Place { shape, first: 0 }].expect(rt, "memory");
        for i in 0..PARTS {
            let Some(place) = places.get(i).copied() else {
                break;
            };
            match self.shape(place.shape) {
                Shape::Number(kind) | Shape::Atomic(kind) => {
                    put_number(&mut bytes, place.first, kind, numbers.number());
                }
                Shape::Row(_, _, _) | Shape::Structure(_, _, _) => {
                    let parts = self.parts(rt, alloc, place, elements);
                    places.extend_from_slice(&parts).expect(rt, "memory");
                }
                Shape::Reference(_, _, _) => {}
            }
        }
        Content {
            shape,
            elements,
            bytes,
        }
    }

    /// A value of any type but a reference; one of four or more has a runtime-sized array, and one of twelve or more is
    /// a truth value or an abstract number.
    fn any_content(&self, rt: &impl Abort, alloc: Global, numbers: &mut Numbers) -> Content {
        let drawn = match numbers.below(12) {
            0 => Drawn::Unlaid,
            1 | 2 | 3 => Drawn::Open,
            _ => Drawn::Value,
        };
        let shape = self.draw(numbers, drawn);
        let elements = numbers.below(4).wrapping_add(1);
        self.random_content(rt, alloc, numbers, shape, elements)
    }
}

impl Memory {
    fn is_sought(&self, handle: usize, sought: Sought) -> bool {
        let Some(named) = self.handles.get(handle) else {
            return false;
        };
        let shape = self.shapes.shape(named.shape);
        match sought {
            Sought::Any => true,
            Sought::Structure => matches!(shape, Shape::Structure(_, _, _)),
            Sought::Row => matches!(shape, Shape::Row(_, _, _)),
            Sought::Reference => matches!(shape, Shape::Reference(_, _, _)),
            Sought::Open => self.shapes.laid(named.shape).is_open,
            Sought::Loose => self.is_loose(*named),
            Sought::Like(wanted) => named.shape == wanted,
        }
    }

    /// Whether the part has a layout, and its cell has none.
    fn is_loose(&self, named: Named) -> bool {
        let cell = self.cell_shape(named.cell);
        let is_laid_out = self.shapes.laid(named.shape).layout != Layout::Missing;
        is_laid_out && self.shapes.laid(cell).layout == Layout::Missing
    }

    /// A handle of the sort, if there is one; one of a few is of any sort, and one of many is not there.
    fn random_handle(&self, numbers: &mut Numbers, sought: Sought) -> usize {
        let count = self.handles.len();
        let start = numbers.below(count);
        if numbers.is_one_in(20) {
            return count.wrapping_add(numbers.below(3));
        }
        if !numbers.is_one_in(8) {
            for i in 0..count {
                let handle = start.wrapping_add(i).checked_rem(count).unwrap_or(0);
                if self.is_sought(handle, sought) {
                    return handle;
                }
            }
        }
        start
    }

    /// The type of what the handle names; type 0 where it is not there.
    pub(super) fn shape_at(&self, handle: usize) -> usize {
        match self.handles.get(handle) {
            Some(named) => named.shape,
            None => 0,
        }
    }

    /// The cell of what the handle names; cell 0 where it is not there.
    pub(super) fn cell_at(&self, handle: usize) -> usize {
        match self.handles.get(handle) {
            Some(named) => named.cell,
            None => 0,
        }
    }

    /// A value for what the handle names; one of a few is of another type or length.
    fn content_for(
        &self,
        rt: &impl Abort,
        alloc: Global,
        numbers: &mut Numbers,
        handle: usize,
    ) -> Content {
        let shape = self.shape_at(handle);
        let is_reference = matches!(self.shapes.shape(shape), Shape::Reference(_, _, _));
        if is_reference || numbers.is_one_in(8) {
            return self.shapes.any_content(rt, alloc, numbers);
        }
        let cell = self.cell_at(handle);
        let elements = if numbers.is_one_in(2) {
            numbers.below(4).wrapping_add(1)
        } else {
            self.elements(cell)
        };
        self.shapes
            .random_content(rt, alloc, numbers, shape, elements)
    }

    /// The name of a member of what the handle names, or any.
    fn random_name(&self, numbers: &mut Numbers, handle: usize) -> usize {
        let members = self.shapes.members(self.shape_at(handle));
        let i = numbers.below(members.len());
        match members.get(i) {
            Some(member) if !numbers.is_one_in(8) => member.name,
            _ => numbers.below(NAMES),
        }
    }

    /// The index of a part of what the handle names, or any.
    fn random_index(&self, numbers: &mut Numbers, handle: usize) -> usize {
        let count = match self.shapes.shape(self.shape_at(handle)) {
            Shape::Row(_, count, _) => count.max(2),
            Shape::Number(_) | Shape::Atomic(_) | Shape::Structure(_, _, _) => 1,
            Shape::Reference(_, _, _) => 1,
        };
        if numbers.is_one_in(60) {
            return usize::MAX;
        }
        numbers.below(count.wrapping_add(1))
    }

    /// A cell with a reference: to anything, or of a type that another cell has.
    fn random_new_of(&self, numbers: &mut Numbers) -> Call {
        let other = self.random_handle(numbers, Sought::Reference);
        let sought = match self.shapes.shape(self.shape_at(other)) {
            Shape::Reference(_, target, _) if numbers.is_one_in(2) => Sought::Like(target),
            _ => Sought::Any,
        };
        let handle = self.random_handle(numbers, sought);
        Call::NewOf(handle, numbers.space(), numbers.access())
    }

    /// A copy, mostly between places of one type: one of four goes to a reference, one of eight to what is or ends in a
    /// runtime-sized array, and one of eight to a part with a layout in a cell without one.
    fn random_copy(&self, numbers: &mut Numbers) -> Call {
        let sought = match numbers.below(8) {
            0 | 1 => Sought::Reference,
            2 => Sought::Open,
            3 => Sought::Loose,
            _ => Sought::Any,
        };
        let to = self.random_handle(numbers, sought);
        let from = self.random_handle(numbers, Sought::Like(self.shape_at(to)));
        Call::Copy(from, to)
    }

    fn random_new(&self, rt: &impl Abort, alloc: Global, numbers: &mut Numbers) -> Call {
        let content = self.shapes.any_content(rt, alloc, numbers);
        Call::New(content, numbers.space(), numbers.access())
    }

    /// A call of any sort. Without handles it makes one.
    pub(super) fn random_call(
        &self,
        rt: &impl Abort,
        alloc: Global,
        numbers: &mut Numbers,
    ) -> Call {
        if self.handles.is_empty() {
            return self.random_new(rt, alloc, numbers);
        }
        let sought = if numbers.is_one_in(8) {
            Sought::Open
        } else {
            Sought::Any
        };
        let any = self.random_handle(numbers, sought);
        match numbers.below(25) {
            0 | 1 => self.random_new(rt, alloc, numbers),
            2 | 3 => self.random_new_of(numbers),
            4 | 5 | 6 => {
                let handle = self.random_handle(numbers, Sought::Structure);
                Call::Member(handle, self.random_name(numbers, handle))
            }
            7 | 8 | 9 => {
                let handle = self.random_handle(numbers, Sought::Row);
                Call::Index(handle, self.random_index(numbers, handle))
            }
            10 | 11 => Call::Read(any),
            12 | 13 | 14 => Call::Write(any, self.content_for(rt, alloc, numbers, any)),
            15 | 16 | 17 => Call::Replace(any, self.content_for(rt, alloc, numbers, any)),
            18 | 19 | 20 | 21 | 22 => self.random_copy(numbers),
            _ if numbers.is_one_in(3) => Call::Load(any),
            _ => Call::Load(self.random_handle(numbers, Sought::Reference)),
        }
    }
}

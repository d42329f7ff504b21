//! A memory of bytes: cells, and handles that name ranges of them. What each call answers and changes is told in bytes
//! and numbers alone.

use crate::tests::plain_memory::shapes::{Place, Shape, Shapes, part_count};
use std::alloc::Global;
use std::process::Abort;
use wgsl_rules::AccessMode::{Read, ReadWrite, Write};
use wgsl_rules::{AccessMode, AddressSpace};

/// A value as bytes: of a type, with so many elements in its runtime-sized array. That of a reference is the number of
/// a handle.
#[derive(Drop)]
pub(super) struct Content {
    pub shape: usize,
    pub elements: usize,
    pub bytes: Vec<u8>,
}

/// A step to a part.
#[derive(Clone, Copy)]
pub(super) enum Step {
    /// To the first member of the name of this number.
    Name(usize),
    Index(usize),
}

/// What a handle names, of which type it is, and what it may do with it.
#[derive(Clone, Copy)]
pub(super) struct Named {
    pub cell: usize,
    /// The handle that the last step was taken from, and the step.
    pub from: Option<(usize, Step)>,
    pub first: usize,
    pub shape: usize,
    pub space: AddressSpace,
    pub access: AccessMode,
}

/// A call. A name is a number.
#[derive(Drop)]
pub(super) enum Call {
    New(Content, AddressSpace, AccessMode),
    NewOf(usize, AddressSpace, AccessMode),
    Member(usize, usize),
    Index(usize, usize),
    Read(usize),
    Write(usize, Content),
    Replace(usize, Content),
    Copy(usize, usize),
    Load(usize),
}

/// What an accepted call answers.
#[derive(Drop)]
pub(super) enum Answer {
    Handle(usize),
    Value(Content),
    Done,
}

/// Why a call is refused, with the numbers of types and of a name.
#[derive(Clone, Copy)]
pub(super) enum Refusal {
    NoHandle,
    NotRead,
    NotWrite,
    NotReadWrite,
    Component(usize, usize),
    NotIndexable(usize),
    OutOfBounds(usize, usize, usize),
    WriteRefType(usize, usize),
}

#[derive(Drop)]
pub(super) struct Memory {
    pub shapes: Shapes,
    pub cells: Vec<Content>,
    pub handles: Vec<Named>,
}

fn may_read(access: AccessMode) -> bool {
    match access {
        Read | ReadWrite => true,
        Write => false,
    }
}

fn may_write(access: AccessMode) -> bool {
    match access {
        Write | ReadWrite => true,
        Read => false,
    }
}

/// The bytes of a number.
fn number_bytes(rt: &impl Abort, alloc: Global, number: usize) -> Vec<u8> {
    let number = u64::try_from(number).unwrap_or(0);
    number.to_le_bytes().to_vec(alloc).expect(rt, "memory")
}

/// The number that the bytes are, the least first.
pub(super) fn number_of(bytes: &[u8]) -> u64 {
    let mut number = 0u64;
    for byte in bytes.iter().rev() {
        number = number.wrapping_mul(256).wrapping_add(u64::from(*byte));
    }
    number
}

/// So many of the bytes from there on, or as many as there are.
pub(super) fn range(bytes: &[u8], first: usize, len: usize) -> &[u8] {
    let from = bytes.get(first..).unwrap_or(&[]);
    from.get(..len).unwrap_or(from)
}

impl Memory {
    pub(super) fn new(alloc: Global, shapes: Shapes) -> Memory {
        Memory {
            shapes,
            cells: Vec::new(alloc),
            handles: Vec::new(alloc),
        }
    }

    pub(super) fn named(&self, handle: usize) -> Result<Named, Refusal> {
        self.handles.get(handle).copied().ok_or(Refusal::NoHandle)
    }

    /// What the handle names, which has to be read.
    fn readable(&self, handle: usize) -> Result<Named, Refusal> {
        let named = self.named(handle)?;
        if may_read(named.access) {
            Ok(named)
        } else {
            Err(Refusal::NotRead)
        }
    }

    /// How many elements the runtime-sized array of a cell has.
    pub(super) fn elements(&self, cell: usize) -> usize {
        match self.cells.get(cell) {
            Some(content) => content.elements,
            None => 0,
        }
    }

    /// The type of a cell; type 0 where it is not there.
    pub(super) fn cell_shape(&self, cell: usize) -> usize {
        match self.cells.get(cell) {
            Some(content) => content.shape,
            None => 0,
        }
    }

    /// The bytes that are named.
    fn bytes(&self, named: Named) -> &[u8] {
        let bytes: &[u8] = match self.cells.get(named.cell) {
            Some(content) => content.bytes.as_slice(),
            None => &[],
        };
        let len = self.shapes.laid(named.shape).len(self.elements(named.cell));
        range(bytes, named.first, len)
    }

    /// The value that is named.
    fn content(&self, rt: &impl Abort, alloc: Global, named: Named) -> Content {
        let is_open = self.shapes.laid(named.shape).is_open;
        Content {
            shape: named.shape,
            elements: if is_open {
                self.elements(named.cell)
            } else {
                0
            },
            bytes: self.bytes(named).to_vec(alloc).expect(rt, "memory"),
        }
    }

    fn read(&self, rt: &impl Abort, alloc: Global, handle: usize) -> Result<Answer, Refusal> {
        let named = self.readable(handle)?;
        Ok(Answer::Value(self.content(rt, alloc, named)))
    }

    /// Reads on while what is read is a reference, which is the number of a handle.
    fn load(&self, rt: &impl Abort, alloc: Global, handle: usize) -> Result<Answer, Refusal> {
        let mut named = self.readable(handle)?;
        for _ in 0..self.handles.len() {
            if !matches!(self.shapes.shape(named.shape), Shape::Reference(_, _, _)) {
                break;
            }
            let next = usize::try_from(number_of(self.bytes(named))).unwrap_or(usize::MAX);
            named = self.readable(next)?;
        }
        Ok(Answer::Value(self.content(rt, alloc, named)))
    }

    fn add_handle(&mut self, rt: &impl Abort, named: Named) -> Answer {
        let made = self.handles.len();
        self.handles.push(named).expect(rt, "memory");
        Answer::Handle(made)
    }

    fn add_cell(
        &mut self,
        rt: &impl Abort,
        content: Content,
        space: AddressSpace,
        access: AccessMode,
    ) -> Answer {
        let named = Named {
            cell: self.cells.len(),
            from: None,
            first: 0,
            shape: content.shape,
            space,
            access,
        };
        self.cells.push(content).expect(rt, "memory");
        self.add_handle(rt, named)
    }

    /// A cell with the reference of a handle.
    fn add_cell_of(
        &mut self,
        rt: &impl Abort,
        alloc: Global,
        handle: usize,
        space: AddressSpace,
        access: AccessMode,
    ) -> Result<Answer, Refusal> {
        let named = self.named(handle)?;
        let ty = Shape::Reference(named.space, named.shape, named.access);
        let content = Content {
            shape: self.shapes.add(rt, ty),
            elements: 0,
            bytes: number_bytes(rt, alloc, handle),
        };
        Ok(self.add_cell(rt, content, space, access))
    }

    fn member(&mut self, rt: &impl Abort, handle: usize, name: usize) -> Result<Answer, Refusal> {
        let named = self.readable(handle)?;
        let member = self.shapes.member(named.shape, name);
        let member = member.ok_or(Refusal::Component(named.shape, name))?;
        let part = Named {
            from: Some((handle, Step::Name(name))),
            first: named.first.wrapping_add(member.offset),
            shape: member.shape,
            ..named
        };
        Ok(self.add_handle(rt, part))
    }

    fn index(
        &mut self,
        rt: &impl Abort,
        alloc: Global,
        handle: usize,
        i: usize,
    ) -> Result<Answer, Refusal> {
        let named = self.readable(handle)?;
        let Shape::Row(sort, count, _) = self.shapes.shape(named.shape) else {
            return Err(Refusal::NotIndexable(named.shape));
        };
        let elements = self.elements(named.cell);
        let count = part_count(sort, count, elements);
        let place = Place {
            shape: named.shape,
            first: named.first,
        };
        let parts = self.shapes.parts(rt, alloc, place, elements);
        let part = parts.get(i).copied();
        drop(parts);
        let part = part.ok_or(Refusal::OutOfBounds(i, named.shape, count))?;
        let part = Named {
            from: Some((handle, Step::Index(i))),
            first: part.first,
            shape: part.shape,
            ..named
        };
        Ok(self.add_handle(rt, part))
    }

    /// Whether the value may stand in the place of what is named.
    fn fits(&self, content: &Content, named: Named) -> bool {
        let is_open = self.shapes.laid(named.shape).is_open;
        let is_as_long = !is_open || content.elements == self.elements(named.cell);
        content.shape == named.shape && is_as_long
    }

    /// Puts the value in the place of what is named.
    fn put(&mut self, named: Named, content: &Content) -> Result<(), Refusal> {
        if !self.fits(content, named) {
            return Err(Refusal::WriteRefType(content.shape, named.shape));
        }
        if let Some(cell) = self.cells.get_mut(named.cell) {
            let places = cell.bytes.iter_mut().skip(named.first);
            for (place, byte) in places.zip(&content.bytes) {
                *place = *byte;
            }
        }
        Ok(())
    }

    fn write(&mut self, handle: usize, content: &Content) -> Result<Answer, Refusal> {
        let named = self.named(handle)?;
        if !may_write(named.access) {
            return Err(Refusal::NotWrite);
        }
        self.put(named, content)?;
        Ok(Answer::Done)
    }

    /// As a write, and answers the old value.
    fn replace(
        &mut self,
        rt: &impl Abort,
        alloc: Global,
        handle: usize,
        content: &Content,
    ) -> Result<Answer, Refusal> {
        let named = self.named(handle)?;
        if !may_write(named.access) {
            return Err(Refusal::NotReadWrite);
        }
        let old = self.content(rt, alloc, named);
        self.put(named, content)?;
        Ok(Answer::Value(old))
    }

    fn copy(
        &mut self,
        rt: &impl Abort,
        alloc: Global,
        from: usize,
        to: usize,
    ) -> Result<Answer, Refusal> {
        self.named(from)?;
        self.named(to)?;
        let named = self.readable(from)?;
        let content = self.content(rt, alloc, named);
        let answer = self.write(to, &content);
        drop(content);
        answer
    }

    /// Makes the call.
    pub(super) fn step(
        &mut self,
        rt: &impl Abort,
        alloc: Global,
        call: &Call,
    ) -> Result<Answer, Refusal> {
        match call {
            Call::New(content, space, access) => {
                let content = copy_of(rt, alloc, content);
                Ok(self.add_cell(rt, content, *space, *access))
            }
            Call::NewOf(handle, space, access) => {
                self.add_cell_of(rt, alloc, *handle, *space, *access)
            }
            Call::Member(handle, name) => self.member(rt, *handle, *name),
            Call::Index(handle, i) => self.index(rt, alloc, *handle, *i),
            Call::Read(handle) => self.read(rt, alloc, *handle),
            Call::Write(handle, content) => self.write(*handle, content),
            Call::Replace(handle, content) => self.replace(rt, alloc, *handle, content),
            Call::Copy(from, to) => self.copy(rt, alloc, *from, *to),
            Call::Load(handle) => self.load(rt, alloc, *handle),
        }
    }
}

fn copy_of(rt: &impl Abort, alloc: Global, content: &Content) -> Content {
    Content {
        shape: content.shape,
        elements: content.elements,
        bytes: content.bytes.as_slice().to_vec(alloc).expect(rt, "memory"),
    }
}

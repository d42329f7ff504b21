//! What lists of calls meet, counted: each call on each sort of cell, each refusal of it, each address space with each
//! access mode, copies from each sort of cell to each, and members with attributes.

use crate::tests::plain_memory::layout::Layout;
use crate::tests::plain_memory::memory::{Answer, Call, Memory, Refusal};
use crate::tests::plain_memory::shapes::{Kind, Member, Shape};
use std::alloc::Global;
use std::fmt::Display;
use std::process::Abort;

/// How many times each has to be met.
const OFTEN: u32 = 20;

/// Calls that are accepted, each at a part of a cell of bytes, of a value whose type has no layout, or of a reference; of
/// a copy, at the one that is copied to. A reference is no value that is handed in, so no cell with one is made by `New`,
/// and none is written or replaced; it has no parts.
const ACCEPTED: &str = "\
accepted New Bytes
accepted New Value
accepted NewOf Reference
accepted Member Bytes
accepted Member Value
accepted Index Bytes
accepted Index Value
accepted Read Bytes
accepted Read Value
accepted Read Reference
accepted Write Bytes
accepted Write Value
accepted Replace Bytes
accepted Replace Value
accepted Copy Bytes
accepted Copy Value
accepted Copy Reference
accepted Load Bytes
accepted Load Value
accepted Load Reference";

/// The refusals of each call, in their order. What one refusal of the calls has two reasons for is two here:
/// `NoHandleToCopyTo` is where there is the handle that is copied from, and not the one that is copied to;
/// `NotReadBehind` is of a reference behind that of the handle; `NoStructure` and `NoMember` are `Component` of what is no
/// structure, and of a structure; `OtherType` is `WriteRefType` of a value of another type, and `OtherLength` of one of
/// the type, with a runtime-sized array of another length. `New` has none. That a reference names a cell or a part that is
/// not there can't be met, since each handle and each reference in a cell is kept; nor can a name or an index that leads
/// nowhere, but in the step that a call takes; nor want of memory.
const REFUSED: &str = "\
refused NewOf NoHandle
refused Member NoHandle
refused Member NotRead
refused Member NoStructure
refused Member NoMember
refused Index NoHandle
refused Index NotRead
refused Index NotIndexable
refused Index OutOfBounds
refused Read NoHandle
refused Read NotRead
refused Write NoHandle
refused Write NotWrite
refused Write OtherType
refused Write OtherLength
refused Replace NoHandle
refused Replace NotReadWrite
refused Replace OtherType
refused Replace OtherLength
refused Copy NoHandle
refused Copy NoHandleToCopyTo
refused Copy NotRead
refused Copy NotWrite
refused Copy OtherType
refused Copy OtherLength
refused Load NoHandle
refused Load NotRead
refused Load NotReadBehind";

/// Cells with a reference of this space and access to the whole of them, by the calls that make them.
const CELLS: &str = "\
cell New function read
cell New function write
cell New function read_write
cell New private read
cell New private write
cell New private read_write
cell New workgroup read
cell New workgroup write
cell New workgroup read_write
cell New uniform read
cell New uniform write
cell New uniform read_write
cell New storage read
cell New storage write
cell New storage read_write
cell New handle read
cell New handle write
cell New handle read_write
cell NewOf function read
cell NewOf function write
cell NewOf function read_write
cell NewOf private read
cell NewOf private write
cell NewOf private read_write
cell NewOf workgroup read
cell NewOf workgroup write
cell NewOf workgroup read_write
cell NewOf uniform read
cell NewOf uniform write
cell NewOf uniform read_write
cell NewOf storage read
cell NewOf storage write
cell NewOf storage read_write
cell NewOf handle read
cell NewOf handle write
cell NewOf handle read_write";

/// Accepted copies from a sort of cell to a sort: a part is copied between any two sorts of cells with values, and a
/// reference is no part of these; cells with a value of a type that has no layout; cells of bytes with a structure that
/// has a member with such attributes, and steps to such a member in a cell of bytes.
const OTHERS: &str = "\
copied Bytes Bytes
copied Bytes Value
copied Value Bytes
copied Value Value
copied Reference Reference
cell of Bool
cell of AbstractInt
cell of Row
cell of Structure
cell with Align
cell with Size
cell with Both
step to Align
step to Size
step to Both";

/// A line that is asked for, and how many times it is met.
#[derive(Clone, Copy)]
struct Count {
    line: &'static str,
    times: u32,
}

impl Count {
    fn is_of(&self, line: &str) -> bool {
        self.line == line
    }
}

/// How many times each is met.
#[derive(Drop)]
pub(super) struct Coverage {
    alloc: Global,
    counts: Vec<Count>,
}

fn name_of(call: &Call) -> &'static str {
    match call {
        Call::New(_, _, _) => "New",
        Call::NewOf(_, _, _) => "NewOf",
        Call::Member(_, _) => "Member",
        Call::Index(_, _) => "Index",
        Call::Read(_) => "Read",
        Call::Write(_, _) => "Write",
        Call::Replace(_, _) => "Replace",
        Call::Copy(_, _) => "Copy",
        Call::Load(_) => "Load",
    }
}

fn attributes_of(member: Member) -> Option<&'static str> {
    match (member.align, member.size) {
        (Some(_), Some(_)) => Some("Both"),
        (Some(_), None) => Some("Align"),
        (None, Some(_)) => Some("Size"),
        (None, None) => None,
    }
}

fn has(member: Member, attributes: &str) -> bool {
    match attributes_of(member) {
        Some(own) => own == attributes,
        None => false,
    }
}

impl Memory {
    /// What a cell of the type holds.
    fn sort_of(&self, shape: usize) -> &'static str {
        let is_missing = self.shapes.laid(shape).layout == Layout::Missing;
        match self.shapes.shape(shape) {
            Shape::Reference(_, _, _) => "Reference",
            _ if is_missing => "Value",
            _ => "Bytes",
        }
    }

    /// What the cell holds whose part the handle names.
    fn sort_at(&self, handle: usize) -> &'static str {
        self.sort_of(self.cell_shape(self.cell_at(handle)))
    }

    /// The sort of the type, which has no layout.
    fn unlaid(&self, shape: usize) -> &'static str {
        match self.shapes.shape(shape) {
            Shape::Number(Kind::Bool) => "Bool",
            Shape::Number(Kind::Abstract) => "AbstractInt",
            Shape::Row(_, _, _) => "Row",
            Shape::Structure(_, _, _) => "Structure",
            Shape::Number(_) | Shape::Atomic(_) | Shape::Reference(_, _, _) => "Bytes",
        }
    }

    fn cause(&self, call: &Call, refusal: Refusal) -> &'static str {
        match refusal {
            Refusal::NoHandle => match call {
                Call::Copy(from, _) if self.has_handle(*from) => "NoHandleToCopyTo",
                _ => "NoHandle",
            },
            Refusal::NotRead => match call {
                Call::Load(handle) if self.may_read(*handle) => "NotReadBehind",
                _ => "NotRead",
            },
            Refusal::NotWrite => "NotWrite",
            Refusal::NotReadWrite => "NotReadWrite",
            Refusal::Component(shape, _) => match self.shapes.shape(shape) {
                Shape::Structure(_, _, _) => "NoMember",
                _ => "NoStructure",
            },
            Refusal::NotIndexable(_) => "NotIndexable",
            Refusal::OutOfBounds(_, _, _) => "OutOfBounds",
            Refusal::WriteRefType(given, named) if given == named => "OtherLength",
            Refusal::WriteRefType(_, _) => "OtherType",
        }
    }

    fn has_handle(&self, handle: usize) -> bool {
        handle < self.handles.len()
    }

    fn may_read(&self, handle: usize) -> bool {
        match self.handles.get(handle) {
            Some(named) => named.access.is_read(),
            None => false,
        }
    }

    /// The attributes of the first member of the name in what the handle names.
    fn attributes_at(&self, handle: usize, name: usize) -> Option<&'static str> {
        attributes_of(self.shapes.member(self.shape_at(handle), name)?)
    }

    fn has_member_with(&self, shape: usize, attributes: &str) -> bool {
        for member in self.shapes.members(shape) {
            if has(*member, attributes) {
                return true;
            }
        }
        false
    }
}

impl Coverage {
    /// Nothing is met yet.
    pub(super) fn new(rt: &impl Abort, alloc: Global) -> Coverage {
        let mut coverage = Coverage {
            alloc,
            counts: Vec::new(alloc),
        };
        coverage.ask(rt, ACCEPTED);
        coverage.ask(rt, REFUSED);
        coverage.ask(rt, CELLS);
        coverage.ask(rt, OTHERS);
        coverage
    }

    /// Asks for what the lines say.
    fn ask(&mut self, rt: &impl Abort, lines: &'static str) {
        for line in lines.lines() {
            let count = Count { line, times: 0 };
            self.counts.push(count).expect(rt, "memory");
        }
    }

    /// Counts the line of the words, which has to be asked for.
    fn count<A: Display + Copy, B: Display + Copy>(
        &mut self,
        rt: &impl Abort,
        first: &str,
        second: A,
        third: B,
    ) {
        let line = format!(in self.alloc; "{first} {second} {third}").expect(rt, "memory");
        for count in self.counts.iter_mut() {
            if count.is_of(&line) {
                count.times = count.times.saturating_add(1);
                return;
            }
        }
        panic!(rt; "{line} can't be met");
    }

    /// Counts the call, which the memory has made and answered so.
    pub(super) fn add(
        &mut self,
        rt: &impl Abort,
        memory: &Memory,
        call: &Call,
        answer: &Result<Answer, Refusal>,
    ) {
        let name = name_of(call);
        match answer {
            Ok(_) => {
                let sort = self.add_accepted(rt, memory, call);
                self.count(rt, "accepted", name, sort);
            }
            Err(refusal) => self.count(rt, "refused", name, memory.cause(call, *refusal)),
        }
    }

    /// Counts what the accepted call met, and answers the sort of its cell.
    fn add_accepted(&mut self, rt: &impl Abort, memory: &Memory, call: &Call) -> &'static str {
        match call {
            Call::New(content, space, access) => {
                self.count(rt, "cell New", *space, *access);
                self.add_type(rt, memory, content.shape);
                memory.sort_of(content.shape)
            }
            Call::NewOf(_, space, access) => {
                self.count(rt, "cell NewOf", *space, *access);
                "Reference"
            }
            Call::Member(handle, name) => {
                self.add_step(rt, memory, *handle, *name);
                memory.sort_at(*handle)
            }
            Call::Index(handle, _) | Call::Read(handle) | Call::Load(handle) => {
                memory.sort_at(*handle)
            }
            Call::Write(handle, _) | Call::Replace(handle, _) => memory.sort_at(*handle),
            Call::Copy(from, to) => {
                let to = memory.sort_at(*to);
                self.count(rt, "copied", memory.sort_at(*from), to);
                to
            }
        }
    }

    /// Counts the type of a cell.
    fn add_type(&mut self, rt: &impl Abort, memory: &Memory, shape: usize) {
        if memory.sort_of(shape) == "Value" {
            self.count(rt, "cell", "of", memory.unlaid(shape));
            return;
        }
        for attributes in ["Align", "Size", "Both"] {
            if memory.has_member_with(shape, attributes) {
                self.count(rt, "cell", "with", attributes);
            }
        }
    }

    /// Counts the step to the first member of the name.
    fn add_step(&mut self, rt: &impl Abort, memory: &Memory, handle: usize, name: usize) {
        if memory.sort_at(handle) != "Bytes" {
            return;
        }
        if let Some(attributes) = memory.attributes_at(handle, name) {
            self.count(rt, "step", "to", attributes);
        }
    }

    /// Asserts that each is met often.
    pub(super) fn assert_met(&self, rt: &impl Abort) {
        for count in &self.counts {
            let Count { line, times } = *count;
            assert!(rt; times >= OFTEN, "{line} is met {times} times");
        }
    }
}

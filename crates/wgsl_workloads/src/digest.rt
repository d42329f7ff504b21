//! One number for all results.

use std::alloc::{AllocError, Global};
use wgsl_eval::{Message, Severity};
use wgsl_source::Fault;
use wgsl_types::{Instance, LiteralInstance, StructType, Type};

/// What all that was added comes to, in its order.
#[derive(Clone, Copy)]
pub(crate) struct Digest {
    state: u64,
}

impl Digest {
    pub(crate) fn new() -> Digest {
        Digest { state: 0 }
    }

    pub(crate) fn value(self) -> u64 {
        self.state
    }

    pub(crate) fn add(&mut self, n: u64) {
        let turned = self.state.rotate_left(5) ^ n;
        self.state = turned.wrapping_mul(0x9e37_79b9_7f4a_7c15);
    }

    pub(crate) fn add_count(&mut self, n: usize) {
        self.add(n as u64);
    }

    /// A number that may be wanting.
    pub(crate) fn add_number(&mut self, number: Option<u32>) {
        match number {
            Some(n) => self.add(u64::from(n)),
            None => self.add(1 << 40),
        }
    }

    /// The bytes of a source from the one to the other.
    pub(crate) fn add_extent(&mut self, start: usize, end: usize) {
        self.add_count(start);
        self.add_count(end);
    }

    /// How many bytes there are, and these, eight at once.
    pub(crate) fn add_bytes(&mut self, bytes: &[u8]) {
        self.add_count(bytes.len());
        let mut rest = bytes;
        while let Some((word, behind)) = rest.split_first_chunk::<8>() {
            self.add(u64::from_le_bytes(*word));
            rest = behind;
        }
        for byte in rest {
            self.add(u64::from(*byte));
        }
    }

    pub(crate) fn add_text(&mut self, text: &str) {
        self.add_bytes(text.as_bytes());
    }

    /// Where the faults stand, and what is wrong there.
    pub(crate) fn add_faults(&mut self, alloc: Global, faults: &[Fault]) -> Result<(), AllocError> {
        self.add_count(faults.len());
        for fault in faults {
            self.add_extent(fault.start, fault.end);
            let reason = fault.reason;
            let text = format!(in alloc; "{reason}")?;
            self.add_text(text.as_str());
        }
        Ok(())
    }

    /// Where the messages stand, how much they matter, and what they say.
    pub(crate) fn add_messages(&mut self, messages: &[Message]) {
        self.add_count(messages.len());
        for message in messages {
            self.add_extent(message.start, message.end);
            self.add(u64::from(message.severity == Severity::Fault));
            self.add_text(message.text.as_str());
        }
    }

    // The kind and the number.
    fn add_literal(&mut self, literal: LiteralInstance) {
        let (kind, number) = match literal {
            LiteralInstance::Bool(b) => (0, u64::from(b)),
            LiteralInstance::AbstractInt(n) => (1, n.cast_unsigned()),
            LiteralInstance::I32(n) => (2, u64::from(n.cast_unsigned())),
            LiteralInstance::U32(n) => (3, u64::from(n)),
            LiteralInstance::I64(n) => (4, n.cast_unsigned()),
            LiteralInstance::U64(n) => (5, n),
        };
        self.add(kind);
        self.add(number);
    }

    /// The kinds of the value and of its parts, and the numbers, in the order of the parts.
    pub(crate) fn add_value(&mut self, alloc: Global, value: &Instance) -> Result<(), AllocError> {
        if let Instance::Literal(literal) = value {
            self.add_literal(*literal);
            return Ok(());
        }
        let mut waiting = Vec::new(alloc);
        waiting.push(value)?;
        for _ in 0..u64::MAX {
            let Some(next) = waiting.pop() else {
                break;
            };
            self.add(kind_of_value(next));
            match next {
                Instance::Literal(literal) => self.add_literal(*literal),
                Instance::Atomic(atomic) => waiting.push(atomic.inner())?,
                other => {
                    self.add_count(other.parts().len());
                    for part in other.parts() {
                        waiting.push(part)?;
                    }
                }
            }
        }
        Ok(())
    }

    /// The type with all that stands in it: names, members, attributes and counts.
    pub(crate) fn add_type(&mut self, alloc: Global, ty: &Type) -> Result<(), AllocError> {
        let mut waiting = Vec::new(alloc);
        waiting.push(ty)?;
        for _ in 0..u64::MAX {
            let Some(next) = waiting.pop() else {
                break;
            };
            self.add_layer(next);
            match next {
                Type::Struct(structure) => {
                    for member in &structure.members {
                        waiting.push(&member.ty)?;
                    }
                }
                other => {
                    if let Some(inner) = inner_of(other) {
                        waiting.push(inner)?;
                    }
                }
            }
        }
        Ok(())
    }

    // The type without the types in it.
    fn add_layer(&mut self, ty: &Type) {
        self.add(kind_of_type(ty));
        match ty {
            Type::Struct(structure) => self.add_names(structure),
            Type::Array(_, count) => self.add_count(count.unwrap_or(0)),
            Type::Vec(n, _) => self.add(u64::from(*n)),
            Type::Mat(columns, rows, _) => {
                self.add(u64::from(*columns));
                self.add(u64::from(*rows));
            }
            _ => {}
        }
    }

    // The names of the structure and of its members, and their attributes.
    fn add_names(&mut self, structure: &StructType) {
        self.add_text(structure.name.as_str());
        self.add_count(structure.members.len());
        for member in &structure.members {
            self.add_text(member.name.as_str());
            self.add_number(member.size);
            self.add_number(member.align);
        }
    }
}

// The kind of a value.
fn kind_of_value(value: &Instance) -> u64 {
    match value {
        Instance::Literal(_) => 0,
        Instance::Struct(_) => 1,
        Instance::Array(_) => 2,
        Instance::Vec(_) => 3,
        Instance::Mat(_) => 4,
        Instance::Atomic(_) => 5,
        _ => 6,
    }
}

// The kind of a type.
fn kind_of_type(ty: &Type) -> u64 {
    match ty {
        Type::Bool => 0,
        Type::AbstractInt => 1,
        Type::AbstractFloat => 2,
        Type::I32 => 3,
        Type::U32 => 4,
        Type::F32 => 5,
        Type::F16 => 6,
        Type::I64 => 7,
        Type::U64 => 8,
        Type::F64 => 9,
        Type::Struct(_) => 10,
        Type::Array(_, Some(_)) => 11,
        Type::Array(_, None) => 12,
        Type::Vec(_, _) => 13,
        Type::Mat(_, _, _) => 14,
        Type::Atomic(_) => 15,
        _ => 16,
    }
}

// The type in an array, a vector, a matrix or an atomic.
fn inner_of(ty: &Type) -> Option<&Type> {
    match ty {
        Type::Array(inner, _) | Type::Vec(_, inner) | Type::Mat(_, _, inner) => Some(inner),
        Type::Atomic(inner) => Some(inner),
        _ => None,
    }
}

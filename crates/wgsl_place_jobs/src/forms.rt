//! The types of the buffers.

use std::alloc::{AllocError, Global};
use wgsl_rules::{StructMemberType, StructType, Type};

/// The members of a particle, in their order.
#[derive(Clone, Copy)]
pub(crate) enum Member {
    Position,
    Age,
    Velocity,
    Kind,
    State,
    Hits,
}

const MEMBERS: [Member; 6] = [
    Member::Position,
    Member::Age,
    Member::Velocity,
    Member::Kind,
    Member::State,
    Member::Hits,
];

impl Member {
    pub(crate) fn name(self) -> &'static str {
        match self {
            Member::Position => "position",
            Member::Age => "age",
            Member::Velocity => "velocity",
            Member::Kind => "kind",
            Member::State => "state",
            Member::Hits => "hits",
        }
    }

    /// Its position among the members.
    pub(crate) fn index(self) -> usize {
        self as usize
    }

    fn ty(self, alloc: Global) -> Result<Type, AllocError> {
        match self {
            Member::Position | Member::Velocity => Ok(Type::Vec(3, Box::new(alloc, Type::I32)?)),
            Member::Age | Member::Kind => Ok(Type::U32),
            Member::State => Ok(Type::Array(Box::new(alloc, Type::U32)?, Some(4))),
            Member::Hits => Ok(Type::Atomic(Box::new(alloc, Type::U32)?)),
        }
    }
}

/// A runtime-sized array of particles, each in 64 bytes.
pub(crate) fn particles(alloc: Global) -> Result<Type, AllocError> {
    let mut members = Vec::with_capacity(alloc, MEMBERS.len())?;
    for member in MEMBERS {
        members.push(StructMemberType {
            name: String::from_str(alloc, member.name())?,
            ty: member.ty(alloc)?,
            size: None,
            align: None,
        })?;
    }
    let name = String::from_str(alloc, "Particle")?;
    array(
        alloc,
        Type::Struct(Box::new(alloc, StructType { name, members })?),
    )
}

/// A runtime-sized array of numbers.
pub(crate) fn bins(alloc: Global) -> Result<Type, AllocError> {
    array(alloc, Type::U32)
}

fn array(alloc: Global, element: Type) -> Result<Type, AllocError> {
    Ok(Type::Array(Box::new(alloc, element)?, None))
}

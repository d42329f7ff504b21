//! A shader runs over storage buffers: hashes, a histogram, keys that are sorted and particles that move.

use crate::digest::Digest;
use crate::forms::{Form, Member, array, members, structure, structure_with};
use crate::machine::Machine;
use crate::programs::{
    BINS, BOUNDS, HASH, HASHES, HISTOGRAM, INVOCATION, PARTICLE, PARTICLES, RANDOM, SET_UP, SHIFTS,
    SORT, TOTAL,
};
use crate::random::Random;
use std::alloc::{AllocError, Global};
use wgsl_types::{Buffers, Error, Instance, Type};

/// How many vectors, keys, sums and particles there are.
const ELEMENTS: usize = 512;

const STATE: [Member; 3] = [
    ("age", Form::U32, None),
    ("energy", Form::I32, None),
    ("cells", Form::Octet, None),
];

const PARTICLE_MEMBERS: [Member; 3] = [
    ("position", Form::Vec3I32, None),
    ("velocity", Form::Vec3I32, None),
    ("kind", Form::U32, None),
];

/// So many workgroups of 64 invocations.
pub(crate) fn run(
    alloc: Global,
    random: &mut Random,
    scale: u32,
    digest: &mut Digest,
) -> Result<(), Error> {
    let mut machine = Machine::new(alloc);
    add_buffers(alloc, &mut machine, random)?;
    invoke(&mut machine, random, 0)?;
    machine.run(&SET_UP)?;
    for number in 0..scale.saturating_mul(64) {
        invoke(&mut machine, random, number)?;
        machine.run(&HASH)?;
        machine.run(&HISTOGRAM)?;
        machine.run(&SORT)?;
        machine.run(&PARTICLE)?;
    }
    for handle in HASHES..=BOUNDS {
        machine.add_bytes(handle, digest)?;
    }
    Ok(())
}

// Fills what an invocation finds: its number, and one that names another element.
fn invoke(machine: &mut Machine, random: &mut Random, number: u32) -> Result<(), Error> {
    let drawn = random.number();
    let is_own = drawn as usize % ELEMENTS == number as usize % ELEMENTS;
    let other = if is_own { drawn ^ 1 } else { drawn };
    machine.set(INVOCATION, Instance::from(number))?;
    machine.set(RANDOM, Instance::from(other))
}

// The buffers, in the order of their handles.
fn add_buffers(alloc: Global, machine: &mut Machine, random: &mut Random) -> Result<(), Error> {
    for handle in HASHES..=BOUNDS {
        let ty = buffer_type(alloc, handle)?;
        let bytes = random.bytes(alloc, words_of(handle))?;
        match Instance::from_buffer(alloc, &bytes, &ty)? {
            Some(value) => machine.add_buffer(value)?,
            None => return Err(Error::NotRead),
        }
    }
    Ok(())
}

fn buffer_type(alloc: Global, handle: usize) -> Result<Type, AllocError> {
    match handle {
        SHIFTS => Form::Vec4U32.ty(alloc),
        TOTAL => Form::Atomic.ty(alloc),
        HASHES => array(alloc, Form::Vec4U32.ty(alloc)?),
        BINS => array(alloc, Form::Atomic.ty(alloc)?),
        PARTICLES => array(alloc, particle(alloc)?),
        BOUNDS => array(alloc, Form::Vec3I32.ty(alloc)?),
        _ => array(alloc, Type::U32),
    }
}

// How many words of eight bytes the buffer has.
fn words_of(handle: usize) -> usize {
    match handle {
        HASHES => ELEMENTS * 2,
        SHIFTS => 2,
        TOTAL => 1,
        BINS => 32,
        BOUNDS => 4,
        PARTICLES => ELEMENTS * 10,
        _ => ELEMENTS / 2,
    }
}

fn particle(alloc: Global) -> Result<Type, AllocError> {
    let state = structure(alloc, "State", members(alloc, &STATE)?)?;
    structure_with(alloc, "Particle", &PARTICLE_MEMBERS, ("state", state))
}

//! A host fills the buffers of shaders, and reads them back.

use crate::digest::Digest;
use crate::forms::{Form, Member, array, members, structure, structure_with};
use crate::random::Random;
use std::alloc::{AllocError, Global};
use std::ops::Range;
use wgsl_types::{
    Buffers, Error, Instance, Layout, LayoutRefusal, MemView, StructMemberType, Type,
};

const SHADOW: [Member; 3] = [
    ("cascade", Form::U32, None),
    ("offset", Form::Vec3I32, None),
    ("extent", Form::Vec3U32, Some(32)),
];

const LIGHT: [Member; 5] = [
    ("kind", Form::U32, None),
    ("color", Form::Vec3U32, None),
    ("transform", Form::Mat4I32, None),
    ("weights", Form::Octet, None),
    ("mask", Form::I32, Some(16)),
];

const SCENE: [Member; 3] = [
    ("view", Form::Mat4I32, None),
    ("ambient", Form::Vec3U32, None),
    ("count", Form::U32, None),
];

/// The types of the members of a uniform block, by turns.
const UNIFORMS: [Form; 7] = [
    Form::Mat4I32,
    Form::Vec3I32,
    Form::U32,
    Form::Octet,
    Form::Vec4U32,
    Form::I32,
    Form::Vec3U32,
];

/// How many words of eight bytes the parts of a uniform block are read from and written to.
const BLOCK_WORDS: usize = 500;

/// How often each part of a uniform block is written, each time from other bytes.
const ROUNDS: u32 = 200;

/// How many lights there are whose members are read and written, each once.
const LIGHTS: usize = 640;

/// How many words of eight bytes a light takes.
const LIGHT_WORDS: usize = 28;

/// Paths to the parts of values of a layout, how many words of eight bytes these lie in, and how often each is written.
#[derive(Drop)]
struct Parts {
    layout: Layout,
    paths: Vec<MemView>,
    words: usize,
    rounds: u32,
}

/// So many times an array of 1,000 to 3,000 lights, a structure that ends in one, and the parts of a uniform block and of
/// many lights. The types have other names each time.
pub(crate) fn run(
    alloc: Global,
    random: &mut Random,
    scale: u32,
    digest: &mut Digest,
) -> Result<(), Error> {
    for number in 0..scale {
        let size = 28_000usize.saturating_add((number % 5) as usize * 14_000);
        copy_buffer(alloc, &lights(alloc, number)?, size, random, digest)?;
        copy_buffer(alloc, &scene(alloc, number)?, size, random, digest)?;
        change_parts(alloc, &block_parts(alloc, number)?, random, digest)?;
        change_parts(alloc, &light_parts(alloc, number)?, random, digest)?;
    }
    Ok(())
}

fn lights(alloc: Global, number: u32) -> Result<Type, AllocError> {
    let name = format!(in alloc; "Shadow_{number}")?;
    let shadow = structure(alloc, name.as_str(), members(alloc, &SHADOW)?)?;
    let name = format!(in alloc; "Light_{number}")?;
    let light = structure_with(alloc, name.as_str(), &LIGHT, ("shadow", shadow))?;
    array(alloc, light)
}

fn scene(alloc: Global, number: u32) -> Result<Type, AllocError> {
    let name = format!(in alloc; "Scene_{number}")?;
    structure_with(
        alloc,
        name.as_str(),
        &SCENE,
        ("lights", lights(alloc, number)?),
    )
}

// Reads the value of a buffer of so many words of eight bytes, and writes a copy of it.
fn copy_buffer(
    alloc: Global,
    ty: &Type,
    words: usize,
    random: &mut Random,
    digest: &mut Digest,
) -> Result<(), Error> {
    let bytes = random.bytes(alloc, words)?;
    match Instance::from_buffer(alloc, &bytes, ty)? {
        Some(value) => add_copy(alloc, &value, digest),
        None => Err(Error::NotRead),
    }
}

fn add_copy(alloc: Global, value: &Instance, digest: &mut Digest) -> Result<(), Error> {
    let copy = value.clone(alloc)?;
    digest.add(u64::from(copy == *value));
    add_buffer(alloc, &copy, digest)
}

fn add_buffer(alloc: Global, value: &Instance, digest: &mut Digest) -> Result<(), Error> {
    if !value.is_well_formed() {
        return Err(Error::NotRead);
    }
    if let Some(bytes) = value.to_buffer(alloc)? {
        digest.add_bytes(&bytes);
    }
    Ok(())
}

// The parts of a uniform block of 20 to 60 members.
fn block_parts(alloc: Global, number: u32) -> Result<Parts, Error> {
    let count = 20u32.saturating_add(number % 5 * 10);
    Ok(Parts {
        layout: layout_of(alloc, &block(alloc, number, count)?)?,
        paths: block_paths(alloc, count)?,
        words: BLOCK_WORDS,
        rounds: ROUNDS,
    })
}

// The members of lights.
fn light_parts(alloc: Global, number: u32) -> Result<Parts, Error> {
    Ok(Parts {
        layout: layout_of(alloc, &lights(alloc, number)?)?,
        paths: light_paths(alloc)?,
        words: LIGHTS * LIGHT_WORDS,
        rounds: 1,
    })
}

fn layout_of(alloc: Global, ty: &Type) -> Result<Layout, Error> {
    match Layout::of(alloc, ty)? {
        Some(layout) => Ok(layout),
        None => Err(Error::NotRead),
    }
}

// Writes parts of values, which lie in bytes, into others, and adds where the parts stand, and all bytes each time.
fn change_parts(
    alloc: Global,
    parts: &Parts,
    random: &mut Random,
    digest: &mut Digest,
) -> Result<(), Error> {
    let mut to = random.bytes(alloc, parts.words)?;
    for path in &parts.paths {
        add_range(parts.layout.range(to.len(), path), digest);
    }
    for _ in 0..parts.rounds {
        let from = random.bytes(alloc, parts.words)?;
        for path in &parts.paths {
            change_part(alloc, &parts.layout, path, &from, &mut to, digest)?;
        }
        digest.add_bytes(&to);
    }
    Ok(())
}

fn add_range(range: Result<Range<usize>, LayoutRefusal>, digest: &mut Digest) {
    match range {
        Ok(range) => {
            digest.add_count(range.start);
            digest.add_count(range.end);
        }
        Err(refusal) => digest.add(number_of(refusal)),
    }
}

// Writes the part of the bytes into others, and adds whether that was refused.
fn change_part(
    alloc: Global,
    layout: &Layout,
    path: &MemView,
    from: &[u8],
    to: &mut [u8],
    digest: &mut Digest,
) -> Result<(), Error> {
    let Some(value) = layout.read(alloc, from, path)? else {
        return Err(Error::NotRead);
    };
    if !value.is_storable() {
        return Err(Error::NotRead);
    }
    match layout.write(to, path, &value) {
        Ok(()) => digest.add(0),
        Err(refusal) => digest.add(number_of(refusal)),
    }
    Ok(())
}

fn number_of(refusal: LayoutRefusal) -> u64 {
    match refusal {
        LayoutRefusal::TooFewBytes => 1,
        LayoutRefusal::NoPart => 2,
        LayoutRefusal::OtherType => 3,
        LayoutRefusal::OtherLength => 4,
    }
}

// A structure of so many members.
fn block(alloc: Global, number: u32, count: u32) -> Result<Type, AllocError> {
    let mut members = Vec::new(alloc);
    for member in 0..count {
        let form = UNIFORMS[member as usize % UNIFORMS.len()];
        members.push(StructMemberType {
            name: member_name(alloc, member)?,
            ty: form.ty(alloc)?,
            size: match member % 4 {
                3 => Some(64),
                _ => None,
            },
            align: Some(16),
        })?;
    }
    let name = format!(in alloc; "Block_{number}")?;
    structure(alloc, name.as_str(), members)
}

fn member_name(alloc: Global, number: u32) -> Result<String, AllocError> {
    format!(in alloc; "member_{number}")
}

// The paths to the members, and to a part of each that has parts.
fn block_paths(alloc: Global, count: u32) -> Result<Vec<MemView>, AllocError> {
    let mut paths = Vec::new(alloc);
    for number in 0..count {
        paths.push(path(alloc, number, MemView::Whole)?)?;
        if !matches!(number % 7, 2 | 5) {
            let inner = MemView::Index(2, Box::new(alloc, MemView::Whole)?);
            paths.push(path(alloc, number, inner)?)?;
        }
    }
    Ok(paths)
}

// The path to a part of a member.
fn path(alloc: Global, number: u32, inner: MemView) -> Result<MemView, AllocError> {
    let name = member_name(alloc, number)?;
    Ok(MemView::Member(name, Box::new(alloc, inner)?))
}

// The paths to the members of the lights.
fn light_paths(alloc: Global) -> Result<Vec<MemView>, AllocError> {
    let mut paths = Vec::new(alloc);
    for number in 0..LIGHTS {
        for (name, _, _) in LIGHT {
            let name = String::from_str(alloc, name)?;
            let member = MemView::Member(name, Box::new(alloc, MemView::Whole)?);
            paths.push(MemView::Index(number, Box::new(alloc, member)?))?;
        }
    }
    Ok(paths)
}

//! The ways in which the job is done, each on buffers of its own with the same bytes.

ghost use Rattle.std.specs.Prelude.{IfOk};
ghost use Rattle.wgsl_rules.specs.Values.{Reference};
ghost use Rattle.wgsl_store.specs.Memory.{IsKept};
ghost use Rattle.wgsl_values.specs.View.{reference_of};

use crate::digest::Digest;
use crate::forms;
use crate::job::{self, BINS, PARTICLES};
use crate::places::PlacedBuffer;
use crate::random::Random;
use crate::references::ReferencedBuffer;
use std::alloc::Global;
use wgsl_rules::{AccessMode, AddressSpace, Type};
use wgsl_scalar::Error;
use wgsl_store::Store;
use wgsl_values::RefInstance;

/// How many words of eight bytes the particles take.
const PARTICLE_WORDS: usize = PARTICLES as usize * 8;

/// How many the other buffer takes.
const BIN_WORDS: usize = BINS as usize / 2;

/// What all bytes come to that the job leaves; `None` where there is no such way.
pub(crate) fn run(
    alloc: Global,
    way: &str,
    scale: u32,
    seed: u32,
) -> Result<Option<Digest>, Error> {
    let mut random = Random::new(u64::from(seed));
    let mut store = Store::new(alloc);
    let ty = forms::particles(alloc)?;
    let particles = add_buffer(alloc, &mut store, ty, PARTICLE_WORDS, &mut random)?;
    let ty = forms::bins(alloc)?;
    let bins = add_buffer(alloc, &mut store, ty, BIN_WORDS, &mut random)?;
    match way {
        "references" => {
            let particles = ReferencedBuffer::new(alloc, particles.clone(alloc)?);
            let bins = ReferencedBuffer::new(alloc, bins.clone(alloc)?);
            job::run(&mut store, &particles, &bins, &mut random, scale)?;
        }
        "places" => {
            let particles = PlacedBuffer::new(alloc, &store, particles.clone(alloc)?)?;
            let bins = PlacedBuffer::new(alloc, &store, bins.clone(alloc)?)?;
            job::run(&mut store, &particles, &bins, &mut random, scale)?;
        }
        _ => return Ok(None),
    }
    let mut digest = Digest::new();
    add_bytes(&store, &particles, &mut digest)?;
    add_bytes(&store, &bins, &mut digest)?;
    Ok(Some(digest))
}

// A buffer of the type, of so many words of eight bytes.
fn add_buffer(
    alloc: Global,
    store: &mut Store,
    ty: Type,
    words: usize,
    random: &mut Random,
) -> Result<RefInstance, Error>
    ensures own_kept { IfOk result (λ r. IsKept store.new (reference_of r)) }
    ensures kept { (r : Reference) → IsKept store.old r → IsKept store.new r }
{
    let bytes = random.bytes(alloc, words)?;
    let (space, access) = (AddressSpace::Storage, AccessMode::ReadWrite);
    match store.new_from_bytes(alloc, ty, &bytes, space, access)? {
        Some(reference) => Ok(reference),
        None => Err(Error::NotRead),
    }
}

// Adds the bytes of what the reference names.
fn add_bytes(store: &Store, reference: &RefInstance, digest: &mut Digest) -> Result<(), Error> {
    if !store.holds(reference) {
        return Err(Error::NotRead);
    }
    match store.bytes_of(reference) {
        Some(bytes) => digest.add_bytes(bytes),
        None => return Err(Error::NotRead),
    }
    Ok(())
}

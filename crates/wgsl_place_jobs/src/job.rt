//! Particles of a storage buffer move, hit each other, and are counted in bins.

ghost use Rattle.std.specs.Prelude.{List};

use crate::buffer::Buffer;
use crate::forms::Member;
use crate::numbers::{drawn, mixed, signed, unsigned};
use crate::random::Random;
use wgsl_scalar::{Error, LiteralInstance};
use wgsl_store::Store;

/// How many particles there are.
pub(crate) const PARTICLES: u32 = 512;

/// How many numbers the other buffer has.
pub(crate) const BINS: u32 = 256;

/// So many times 2,048 invocations, each of which changes a particle by turns, one that it hits, and a number of the
/// other buffer. The conditions: the store has both buffers.
pub(crate) fn run<B: Buffer>(
    store: &mut Store,
    particles: &B,
    bins: &B,
    random: &mut Random,
    scale: u32,
) -> Result<(), Error>
    requires particles { B.HasPart particles.now store.old (B.whole particles.now) }
    requires bins { B.HasPart bins.now store.old (B.whole bins.now) }
{
    'invocations: for number in 0..scale.saturating_mul(2048) {
        let hash = change_particle(store, particles, number % PARTICLES, random.number())?;
        hit(store, particles, hash % PARTICLES)?;
        let bin = bins.index(store, bins.whole(), (hash / PARTICLES % BINS) as usize)?;
        count(store, bins, &bin)?;
    }
    Ok(())
}

// Changes all but the hits of a particle, and answers a number that follows from all that was read.
fn change_particle<B: Buffer>(
    store: &mut Store,
    particles: &B,
    own: u32,
    word: u32,
) -> Result<u32, Error>
    requires { B.HasPart particles.now store.old (B.whole particles.now) }
    ensures { (b : B) (p : B.Part) → B.HasPart b store.old p → B.HasPart b store.new p }
{
    let particle = particles.index(store, particles.whole(), own as usize)?;
    let mut hash = move_particle(store, particles, &particle)?;
    let age = particles.member(store, &particle, Member::Age)?;
    hash = mixed(count(store, particles, &age)?, hash);
    let kind = particles.member(store, &particle, Member::Kind)?;
    hash = mix(store, particles, &kind, hash)?;
    let state = particles.member(store, &particle, Member::State)?;
    let word_of_state = particles.index(store, &state, (word % 4) as usize)?;
    mix(store, particles, &word_of_state, word ^ hash)
}

// Moves a particle along each axis, and answers a number that follows from where it is.
fn move_particle<B: Buffer>(
    store: &mut Store,
    particles: &B,
    particle: &B::Part,
) -> Result<u32, Error>
    requires { B.HasPart particles.now store.old particle.now }
    ensures { (b : B) (p : B.Part) → B.HasPart b store.old p → B.HasPart b store.new p }
{
    let position = particles.member(store, particle, Member::Position)?;
    let velocity = particles.member(store, particle, Member::Velocity)?;
    let mut moved = 0;
    'axes: for axis in 0..3 {
        let at = particles.index(store, &position, axis)?;
        let speed = particles.index(store, &velocity, axis)?;
        moved = mixed(moved, move_along(store, particles, &at, &speed)?);
    }
    Ok(moved)
}

// Moves a coordinate by its speed, and answers where it is.
fn move_along<B: Buffer>(
    store: &mut Store,
    particles: &B,
    at: &B::Part,
    speed: &B::Part,
) -> Result<u32, Error>
    requires at { B.HasPart particles.now store.old at.now }
    requires speed { B.HasPart particles.now store.old speed.now }
    ensures { (b : B) (p : B.Part) → B.HasPart b store.old p → B.HasPart b store.new p }
{
    let velocity = signed(particles.load(store, speed)?)?;
    let position = signed(particles.load(store, at)?)?.wrapping_add(velocity);
    particles.put(store, at, LiteralInstance::I32(position))?;
    let slowed = LiteralInstance::I32(drawn(velocity, position));
    particles.put(store, speed, slowed)?;
    Ok(position.cast_unsigned())
}

// Counts a hit of a particle.
fn hit<B: Buffer>(store: &mut Store, particles: &B, other: u32) -> Result<(), Error>
    requires { B.HasPart particles.now store.old (B.whole particles.now) }
    ensures { (b : B) (p : B.Part) → B.HasPart b store.old p → B.HasPart b store.new p }
{
    let particle = particles.index(store, particles.whole(), other as usize)?;
    let hits = particles.member(store, &particle, Member::Hits)?;
    count(store, particles, &hits)?;
    Ok(())
}

// Adds one to a number, and answers what it was.
fn count<B: Buffer>(store: &mut Store, buffer: &B, part: &B::Part) -> Result<u32, Error>
    requires { B.HasPart buffer.now store.old part.now }
    ensures { (b : B) (p : B.Part) → B.HasPart b store.old p → B.HasPart b store.new p }
{
    let number = unsigned(buffer.load(store, part)?)?;
    buffer.put(store, part, LiteralInstance::U32(number.wrapping_add(1)))?;
    Ok(number)
}

// Mixes a word into a number, and answers what it is.
fn mix<B: Buffer>(store: &mut Store, buffer: &B, part: &B::Part, word: u32) -> Result<u32, Error>
    requires { B.HasPart buffer.now store.old part.now }
    ensures { (b : B) (p : B.Part) → B.HasPart b store.old p → B.HasPart b store.new p }
{
    let number = mixed(unsigned(buffer.load(store, part)?)?, word);
    buffer.put(store, part, LiteralInstance::U32(number))?;
    Ok(number)
}

//! What a call answers, and what it writes.

ghost use Rattle.std.specs.Prelude.{◌≡◌, length};
ghost use Rattle.std.specs.Str.{IsUtf8};
ghost use Rattle.wgsl_c.specs.Answers.{IsAnswer, answer_of, left_in, refusal_for, refusal_number, stopped};
ghost use Rattle.wgsl_c.specs.declared.answer.Stop.TheVariants as stops;

use std::alloc::AllocError;
use wgsl_eval::Need;

/// What is handed out is whole.
pub const OK: u32 = 0;

/// The same, of a source that has faults.
pub const FAULT: u32 = 1;

/// There is nothing to hand out.
pub const REFUSED: u32 = 2;

/// There is too little room.
pub const ROOM: u32 = 3;

/// Memory is wanting.
pub const MEMORY: u32 = 4;

/// An argument is none that the call takes.
pub const MISUSE: u32 = 5;

/// What each call answers (`wgsl_answer`).
#[repr(C)]
#[derive(Clone, Copy, Debug, PartialEq, Eq)]
pub struct Answer {
    /// One of the constants above.
    pub status: u32,
    /// How many faults there are, or why nothing is handed out, or which argument is none, from 1.
    pub number: u32,
    /// How long what is handed out is, or would be.
    pub length: usize,
}

/// Why a call hands nothing out.
#[derive(Clone, Copy, Debug, PartialEq, Eq)]
pub(crate) enum Stop {
    Refused(Refusal),
    Memory,
    /// The argument of this number, from 1, is none that the call takes.
    Misuse(u32),
}

/// Why there is nothing to hand out (`wgsl_refusal`).
#[derive(Clone, Copy, Debug, PartialEq, Eq)]
pub(crate) enum Refusal {
    NeedsFloat,
    NeedsOverride,
    NeedsVariable,
    NeedsFunction,
    NeedsOpaque,
    NeedsRunTime,
    NoBytes,
    NoSuchFault,
    ScriptTooLong,
    NoLayout,
}

impl Refusal {
    fn number(self) -> u32
        ensures { result ≡ refusal_number self }
    {
        match self {
            Refusal::NeedsFloat => 1,
            Refusal::NeedsOverride => 2,
            Refusal::NeedsVariable => 3,
            Refusal::NeedsFunction => 4,
            Refusal::NeedsOpaque => 5,
            Refusal::NeedsRunTime => 6,
            Refusal::NoBytes => 7,
            Refusal::NoSuchFault => 8,
            Refusal::ScriptTooLong => 9,
            Refusal::NoLayout => 10,
        }
    }
}

impl Stop {
    /// What the call answers.
    pub(crate) fn answer(self) -> Answer
        ensures { result ≡ stopped self }
    {
        let (status, number) = match self {
            Stop::Refused(refusal) => (REFUSED, refusal.number()),
            Stop::Memory => (MEMORY, 0),
            Stop::Misuse(number) => (MISUSE, number),
        };
        Answer {
            status,
            number,
            length: 0,
        }
    }
}

impl From<AllocError> for Stop {
    ghost from_gives = { λ _ stop. stop ≡ stops.Memory };

    fn from(_error: AllocError) -> Stop {
        Stop::Memory
    }
}

impl From<Need> for Refusal {
    ghost from_gives = { λ need refusal. refusal ≡ refusal_for need };

    fn from(need: Need) -> Refusal {
        match need {
            Need::Float => Refusal::NeedsFloat,
            Need::Override => Refusal::NeedsOverride,
            Need::Variable => Refusal::NeedsVariable,
            Need::Function => Refusal::NeedsFunction,
            Need::Opaque => Refusal::NeedsOpaque,
            Need::Runtime => Refusal::NeedsRunTime,
        }
    }
}

/// Hands out a text, as `given`.
pub(crate) fn given_text(text: &str, faults: usize, out: &mut [u8]) -> Answer
    ensures { IsAnswer IsUtf8 result out.old out.new }
{
    given(text.as_bytes(), faults, out)
}

/// Hands things out, where there is room for all of them, of a source that has so many faults.
pub(crate) fn given<X: Copy>(things: &[X], faults: usize, out: &mut [X]) -> Answer
    ensures answer { result ≡ answer_of faults (length things.now) (length out.old) }
    ensures left { out.new ≡ left_in things.now out.old }
{
    let length = things.len();
    if length > out.len() {
        return Answer {
            status: ROOM,
            number: 0,
            length,
        };
    }
    out[..length].copy_from_slice(things);
    Answer {
        status: if faults == 0 { OK } else { FAULT },
        number: u32::try_from(faults).unwrap_or(u32::MAX),
        length,
    }
}

//! A plain memory of words, and numbers that a seed gives.

use crate::tests::atomics::Change;
use wgsl_scalar::LiteralInstance;
use wgsl_scalar::LiteralInstance::{AbstractInt, I32, U32};

/// How many totals each structure has.
pub(super) const TOTALS: usize = 5;

/// The words of a structure: its count, which is a u32, and its totals, each an i32.
pub(super) const WORDS: usize = 6;

/// The words of two structures.
#[derive(Drop)]
pub(super) struct Plain {
    pub words: Vec<u32>,
}

/// Whether the word is a count.
pub(super) fn is_count(at: usize) -> bool {
    at == 0 || at == WORDS
}

/// The number of the word there.
pub(super) fn number(at: usize, word: u32) -> LiteralInstance {
    if is_count(at) {
        U32(word)
    } else {
        I32(word.cast_signed())
    }
}

/// Whether the number of the one word is less than that of the other, as words there are.
fn is_less(at: usize, one: u32, other: u32) -> bool {
    if is_count(at) {
        one < other
    } else {
        one.cast_signed() < other.cast_signed()
    }
}

/// What the change makes of the word there.
fn changed(at: usize, change: Change, old: u32, word: u32) -> u32 {
    match change {
        Change::Add => old.wrapping_add(word),
        Change::Sub => old.wrapping_sub(word),
        Change::Max if is_less(at, word, old) => old,
        Change::Max => word,
        Change::Min if is_less(at, old, word) => old,
        Change::Min => word,
        Change::And => old & word,
        Change::Or => old | word,
        Change::Xor => old ^ word,
        Change::Exchange => word,
    }
}

impl Plain {
    /// The word there; 0 where there is none.
    pub(super) fn word(&self, at: usize) -> u32 {
        self.words.get(at).copied().unwrap_or(0)
    }

    /// Puts the word there.
    pub(super) fn put(&mut self, at: usize, word: u32) {
        if let Some(place) = self.words.get_mut(at) {
            *place = word;
        }
    }

    /// Changes the word there, and answers the one before.
    pub(super) fn change(&mut self, at: usize, change: Change, word: u32) -> u32 {
        let old = self.word(at);
        self.put(at, changed(at, change, old, word));
        old
    }

    /// The totals of a structure.
    pub(super) fn totals(&self, structure: usize) -> [i32; TOTALS] {
        let first = structure.wrapping_mul(WORDS).wrapping_add(1);
        let total = |i: usize| self.word(first.wrapping_add(i)).cast_signed();
        [total(0), total(1), total(2), total(3), total(4)]
    }

    /// Adds the step to each of the totals of a structure.
    pub(super) fn change_totals(&mut self, structure: usize, step: u32) {
        let first = structure.wrapping_mul(WORDS).wrapping_add(1);
        for i in 0..TOTALS {
            let _old = self.change(first.wrapping_add(i), Change::Add, step);
        }
    }
}

/// An argument of a call: a number of the kind that is there, an abstract one, or a number of the other kind.
#[derive(Clone, Copy, Debug, PartialEq, Eq)]
pub(super) enum Given {
    Own(u32),
    Abstract(u32),
    Other(u32),
}

impl Given {
    /// The argument for the word there.
    pub(super) fn literal(self, at: usize) -> LiteralInstance {
        match self {
            Given::Own(word) => number(at, word),
            Given::Abstract(word) if is_count(at) => AbstractInt(i64::from(word)),
            Given::Abstract(word) => AbstractInt(i64::from(word.cast_signed())),
            Given::Other(word) if is_count(at) => I32(word.cast_signed()),
            Given::Other(word) => U32(word),
        }
    }

    /// The word; none for a number of the other kind.
    pub(super) fn word(self) -> Option<u32> {
        match self {
            Given::Own(word) | Given::Abstract(word) => Some(word),
            Given::Other(_) => None,
        }
    }
}

/// Numbers that a seed gives, one after the other.
#[derive(Drop)]
pub(super) struct Numbers {
    pub state: u64,
}

impl Numbers {
    fn next(&mut self) -> u64 {
        self.state = self
            .state
            .wrapping_mul(6364136223846793005)
            .wrapping_add(1442695040888963407);
        self.state >> 33
    }

    /// A number below the limit, which is not 0; 0 where it is.
    pub(super) fn below(&mut self, limit: usize) -> usize {
        self.next().checked_rem(limit as u64).unwrap_or(0) as usize
    }

    /// A word: one of four beside 0, or any.
    pub(super) fn word(&mut self) -> u32 {
        let low = u32::try_from(self.next()).unwrap_or(u32::MAX);
        let is_small = self.below(2) == 0;
        let is_high = self.below(2) == 0;
        if is_small {
            (low & 3).wrapping_sub(2)
        } else if is_high {
            !low
        } else {
            low
        }
    }

    /// An argument: one of eight is of the other kind.
    pub(super) fn given(&mut self) -> Given {
        let word = self.word();
        match self.below(8) {
            0 => Given::Other(word),
            1 | 2 | 3 => Given::Abstract(word),
            _ => Given::Own(word),
        }
    }

    pub(super) fn change(&mut self) -> Change {
        match self.below(8) {
            0 => Change::Add,
            1 => Change::Sub,
            2 => Change::Max,
            3 => Change::Min,
            4 => Change::And,
            5 => Change::Or,
            6 => Change::Xor,
            _ => Change::Exchange,
        }
    }
}

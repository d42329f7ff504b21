//! Numbers that follow from a seed.

use std::alloc::{AllocError, Global};

/// A sequence of numbers, the same for the same seed (splitmix64, by Steele, Lea and Flood).
#[derive(Drop)]
pub(crate) struct Random {
    state: u64,
}

impl Random {
    pub(crate) fn new(seed: u64) -> Random {
        Random { state: seed }
    }

    /// Any number of 64 bits.
    pub(crate) fn word(&mut self) -> u64 {
        self.state = self.state.wrapping_add(0x9e37_79b9_7f4a_7c15);
        let mut mixed = self.state;
        mixed = (mixed ^ (mixed >> 30)).wrapping_mul(0xbf58_476d_1ce4_e5b9);
        mixed = (mixed ^ (mixed >> 27)).wrapping_mul(0x94d0_49bb_1331_11eb);
        mixed ^ (mixed >> 31)
    }

    /// Any number of 32 bits.
    pub(crate) fn number(&mut self) -> u32 {
        (self.word() & 0xffff_ffff) as u32
    }

    /// So many words of eight bytes.
    pub(crate) fn bytes(&mut self, alloc: Global, words: usize) -> Result<Vec<u8>, AllocError> {
        let mut bytes = Vec::new(alloc);
        for _ in 0..words {
            bytes.extend_from_slice(&self.word().to_le_bytes())?;
        }
        Ok(bytes)
    }
}

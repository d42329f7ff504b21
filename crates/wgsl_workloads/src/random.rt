//! Numbers that follow from a seed.

/// A sequence of numbers, the same for the same seed (splitmix64, by Steele, Lea and Flood).
#[derive(Drop)]
pub(crate) struct Random {
    state: u64,
}

impl Random {
    pub(crate) fn new(seed: u64) -> Random {
        Random { state: seed }
    }

    /// Any number of 64 bits.
    pub(crate) fn word(&mut self) -> u64 {
        self.state = self.state.wrapping_add(0x9e37_79b9_7f4a_7c15);
        let mut mixed = self.state;
        mixed = (mixed ^ (mixed >> 30)).wrapping_mul(0xbf58_476d_1ce4_e5b9);
        mixed = (mixed ^ (mixed >> 27)).wrapping_mul(0x94d0_49bb_1331_11eb);
        mixed ^ (mixed >> 31)
    }

    /// Any number of 32 bits.
    pub(crate) fn number(&mut self) -> u32 {
        (self.word() & 0xffff_ffff) as u32
    }

    /// A number below `n`; 0 where that is 0.
    pub(crate) fn below(&mut self, n: u32) -> u32 {
        self.number().checked_rem(n).unwrap_or(0)
    }

    /// An index below `n`, which is at most 4294967295; 0 where that is 0.
    pub(crate) fn index(&mut self, n: usize) -> usize {
        (self.word() & 0xffff_ffff) as usize % n.max(1)
    }
}

//! Numbers that a seed gives, one after the other.

use wgsl_rules::AccessMode::{Read, ReadWrite, Write};
use wgsl_rules::AddressSpace::{Function, Handle, Private, Storage, Uniform, Workgroup};
use wgsl_rules::{AccessMode, AddressSpace};

#[derive(Drop)]
pub(super) struct Numbers {
    state: u64,
}

impl Numbers {
    pub(super) fn new(seed: u64) -> Numbers {
        Numbers { state: seed }
    }

    /// A number of 31 bits.
    fn next(&mut self) -> u64 {
        self.state = self
            .state
            .wrapping_mul(6364136223846793005)
            .wrapping_add(1442695040888963407);
        self.state >> 33
    }

    /// A number below the limit, which is not 0; 0 where it is.
    pub(super) fn below(&mut self, limit: usize) -> usize {
        self.next().checked_rem(limit as u64).unwrap_or(0) as usize
    }

    /// True once in so many times.
    pub(super) fn is_one_in(&mut self, times: usize) -> bool {
        self.below(times) == 0
    }

    /// A number of 64 bits: one of eight around 0, or any.
    pub(super) fn number(&mut self) -> u64 {
        if self.is_one_in(4) {
            return (self.next() & 7).wrapping_sub(4);
        }
        let high = self.next().wrapping_mul(0x2_0000_0001);
        high ^ self.next()
    }

    /// One of the numbers; 0 where there are none.
    pub(super) fn pick(&mut self, numbers: &[u32]) -> u32 {
        let i = self.below(numbers.len());
        numbers.get(i).copied().unwrap_or(0)
    }

    pub(super) fn space(&mut self) -> AddressSpace {
        match self.below(6) {
            0 => Function,
            1 => Private,
            2 => Workgroup,
            3 => Uniform,
            4 => Storage,
            _ => Handle,
        }
    }

    /// An access mode; three of seven allow reads and writes.
    pub(super) fn access(&mut self) -> AccessMode {
        match self.below(7) {
            0 | 1 => Read,
            2 | 3 => Write,
            _ => ReadWrite,
        }
    }
}

//! One number for all bytes.

/// What all that was added comes to, in its order.
#[derive(Clone, Copy)]
pub(crate) struct Digest {
    state: u64,
}

impl Digest {
    pub(crate) fn new() -> Digest {
        Digest { state: 0 }
    }

    pub(crate) fn value(self) -> u64 {
        self.state
    }

    fn add(&mut self, n: u64) {
        let turned = self.state.rotate_left(5) ^ n;
        self.state = turned.wrapping_mul(0x9e37_79b9_7f4a_7c15);
    }

    /// How many bytes there are, and these, eight at once.
    pub(crate) fn add_bytes(&mut self, bytes: &[u8]) {
        self.add(bytes.len() as u64);
        let mut rest = bytes;
        while let Some((word, behind)) = rest.split_first_chunk::<8>() {
            self.add(u64::from_le_bytes(*word));
            rest = behind;
        }
        for byte in rest {
            self.add(u64::from(*byte));
        }
    }
}

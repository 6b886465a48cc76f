//! A digest of what runs wrote: FNV-1a, of 64 bits.

const BASIS: u64 = 0xcbf2_9ce4_8422_2325;

const PRIME: u64 = 0x0100_0000_01b3;

/// The digest of bytes so far.
#[derive(Clone, Copy)]
pub struct Digest {
    value: u64,
}

impl Digest {
    pub fn new() -> Digest {
        Digest { value: BASIS }
    }

    pub fn add(&mut self, bytes: &[u8]) {
        for byte in bytes {
            self.value = (self.value ^ u64::from(*byte)).wrapping_mul(PRIME);
        }
    }

    pub fn value(self) -> u64 {
        self.value
    }
}

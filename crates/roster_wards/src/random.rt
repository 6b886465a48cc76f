//! Random numbers, by splitmix64.

/// The step from a state to the next one.
const STEP: u64 = 0x9e37_79b9_7f4a_7c15;

const FIRST_FACTOR: u64 = 0xbf58_476d_1ce4_e5b9;

const SECOND_FACTOR: u64 = 0x94d0_49bb_1331_11eb;

/// Numbers that look random, and are the same for the same seed.
#[derive(Drop)]
pub struct Random {
    state: u64,
}

impl Random {
    /// The numbers of one bundle of a seed.
    pub fn new(seed: u32, bundle: u32) -> Random {
        Random {
            state: (u64::from(seed) << 32) | u64::from(bundle),
        }
    }

    fn next_word(&mut self) -> u64 {
        self.state = self.state.wrapping_add(STEP);
        let word = (self.state ^ (self.state >> 30)).wrapping_mul(FIRST_FACTOR);
        let word = (word ^ (word >> 27)).wrapping_mul(SECOND_FACTOR);
        word ^ (word >> 31)
    }

    /// A number below `bound`, which is below 2^32, or 0 if `bound` is 0.
    pub fn below(&mut self, bound: usize) -> usize {
        let half = (self.next_word() >> 32) as usize;
        half.wrapping_mul(bound) >> 32
    }

    /// A number from `least` to `most`.
    pub fn between(&mut self, least: usize, most: usize) -> usize {
        let count = most.saturating_sub(least).saturating_add(1);
        least.saturating_add(self.below(count))
    }
}

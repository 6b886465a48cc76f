//! Random numbers that are the same on every machine.

ghost use Rattle.std.specs.Prelude.{◌<◌};

/// A generator of the kind xorshift64*.
#[derive(Clone, Copy)]
pub(crate) struct Random {
    state: u64,
}

impl Random {
    /// The generator of a seed. From the state 0 there would be no other state, so it isn't used.
    pub(crate) fn of_seed(seed: u64) -> Random {
        let state = seed.wrapping_mul(SPREAD) ^ FIRST;
        Random {
            state: if state == 0 { FIRST } else { state },
        }
    }

    /// A number below `end`.
    pub(crate) fn below(&mut self, end: u32) -> u32
        requires { 0 < end }
        ensures { result < end }
    {
        let mut x = self.state;
        x ^= x >> 12;
        x ^= x << 25;
        x ^= x >> 27;
        self.state = x;
        (x.wrapping_mul(SPREAD) >> 32) as u32 % end
    }
}

/// The factor of the generator.
const SPREAD: u64 = 0x2545_F491_4F6C_DD1D;

/// The state with which the seed 0 begins.
const FIRST: u64 = 0x9E37_79B9_7F4A_7C15;

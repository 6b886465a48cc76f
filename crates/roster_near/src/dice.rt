//! Random numbers that are the same on every machine.

ghost use Rattle.std.specs.Prelude.{◌<◌};

use rand_core::{Rng, SeedableRng};
use rand_xoshiro::Xoshiro256PlusPlus;

/// What is drawn from.
pub(crate) struct Dice {
    generator: Xoshiro256PlusPlus,
}

// Written by hand, so that a function that drops it has one call to prove.
impl Drop for Dice {
    fn drop(self) {
        let Dice { generator: _ } = self;
    }
}

impl Dice {
    /// The numbers of a seed.
    pub(crate) fn of_seed(seed: u64) -> Dice {
        Dice {
            generator: Xoshiro256PlusPlus::seed_from_u64(seed),
        }
    }

    /// A number below `end`.
    pub(crate) fn below(&mut self, end: u64) -> u64
        requires { 0 < end }
        ensures { result < end }
    {
        self.generator.next_u64() % end
    }
}

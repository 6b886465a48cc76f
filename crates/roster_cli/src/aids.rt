//! What a run takes besides its request and its streams.

ghost use Rattle.std.specs.Prelude.{◌≡◌};

use roster_polish::Reporting;
use std::alloc::Global;

/// What a run takes besides its request and its streams: memory, the clock by which it ends if it has a limit
/// of time, and what it shows its rosters to.
#[derive(Drop)]
pub struct Aids<K, S> {
    pub alloc: Global,
    pub clock: K,
    pub reporting: Reporting<S>,
}

impl<K, S> Aids<K, S> {
    /// These, before the run.
    pub fn new(alloc: Global, clock: K, saver: S) -> Aids<K, S>
        ensures { result.reporting.saver ≡ saver }
    {
        let reporting = Reporting { start: 0, saver };
        Aids {
            alloc,
            clock,
            reporting,
        }
    }
}

//! A clock whose time passes by being read.

use std::cell::Cell;
use std::io;
use std::time::{Clock, Duration};

/// A clock that is later by a step at each reading.
#[derive(Drop)]
pub struct StepClock {
    micros: Cell<u64>,
    step: u64,
    readings: Cell<u64>,
}

impl StepClock {
    /// A clock that hasn't been read. The step is in microseconds.
    pub fn new(step: u64) -> StepClock {
        StepClock {
            micros: Cell::new(0),
            step,
            readings: Cell::new(0),
        }
    }

    /// How often it was read.
    pub fn readings(&self) -> u64 {
        self.readings.get()
    }
}

impl Clock for StepClock {
    fn monotonic(&self) -> io::Result<Duration> {
        let now = self.micros.get();
        self.micros.set(now.saturating_add(self.step));
        self.readings.set(self.readings.get().saturating_add(1));
        Ok(Duration::from_micros(now))
    }

    fn since_1970(&self) -> io::Result<Duration> {
        self.monotonic()
    }
}

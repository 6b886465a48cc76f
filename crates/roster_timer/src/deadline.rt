//! When the time of a run ends, by the readings of a clock.

ghost use Rattle.std.specs.Prelude.{◌≡◌, ◌-◌, ◌≤◌, ◌^◌, ◌↔◌, IfSome, None, true};
ghost use Rattle.roster_timer.specs.Deadlines.{IsLater, ends_after, is_up, time_of};

use std::io;
use std::time::{Clock, Duration};

/// Ends a run some seconds after it was started, by the readings of a clock. All times are in microseconds
/// of the clock. Without a number of seconds it never ends a run, and reads no clock. The time is up when
/// less is left than the longest step of the run took so far, of those that were measured. A clock that can't
/// be read is taken to be past the end.
#[derive(Clone, Copy)]
pub struct Deadline<K> {
    clock: K,
    ends: Option<u64>,
    /// The greatest reading so far.
    last: u64,
    /// How long a step took at most.
    step: u64,
}

impl<K: Clock + Copy> Deadline<K> {
    /// Starts the time of a run: it ends after this many seconds, if they are given.
    pub fn start(clock: K, seconds: Option<u32>) -> Deadline<K>
        ensures ends { result.ends ≡ ends_after result.last seconds }
    {
        let Some(seconds) = seconds else {
            return Deadline {
                clock,
                ends: None,
                last: 0,
                step: 0,
            };
        };
        let last = reading_of(&clock);
        let ends = last.saturating_add(seconds as u64 * 1_000_000);
        Deadline {
            clock,
            ends: Some(ends),
            last,
            step: 0,
        }
    }

    /// How many microseconds are left, by a reading that isn't kept: none once the time is up, and always the
    /// most if it never is.
    pub fn look(&self) -> u64
        ensures up { is_up (time_of self.now) ≡ true → result ≡ 0 }
        ensures endless { self.now.ends ≡ None → result ≡ 2 ^ 64 - 1 }
        ensures within { IfSome self.now.ends (λ ends. result ≤ ends - self.now.last) }
    {
        let Some(ends) = self.ends else {
            return u64::MAX;
        };
        ends.saturating_sub(self.last.max(reading_of(&self.clock)))
            .saturating_sub(self.step)
    }

    /// Reads the clock: how many microseconds are left, and 0 once the time is up.
    pub fn left(&mut self) -> u64
        ensures later { IsLater (time_of self.old) (time_of self.new) }
        ensures up { (result ≡ 0) ↔ (is_up (time_of self.new) ≡ true) }
    {
        let Some(ends) = self.ends else {
            return u64::MAX;
        };
        self.last = self.last.max(reading_of(&self.clock));
        ends.saturating_sub(self.last).saturating_sub(self.step)
    }

    /// The same after a step of the run, which began with the reading before.
    pub fn left_after_step(&mut self) -> u64
        ensures later { IsLater (time_of self.old) (time_of self.new) }
        ensures up { (result ≡ 0) ↔ (is_up (time_of self.new) ≡ true) }
    {
        let before = self.last;
        self.left();
        self.step = self.step.max(self.last.saturating_sub(before));
        self.left()
    }
}

/// What a clock reads.
fn reading_of<K: Clock>(clock: &K) -> u64 {
    match clock.monotonic() {
        Ok(time) => time
            .as_secs()
            .saturating_mul(1_000_000)
            .saturating_add(time.subsec_micros() as u64),
        Err(_) => u64::MAX,
    }
}

/// The clock of a run that has none: by it no time passes.
#[derive(Clone, Copy, Debug, Default, PartialEq, Eq)]
pub struct NoClock;

impl Clock for NoClock {
    fn monotonic(&self) -> io::Result<Duration> {
        Ok(Duration::ZERO)
    }

    fn since_1970(&self) -> io::Result<Duration> {
        Ok(Duration::ZERO)
    }
}

//! What a run may still take: searches, and time.

ghost use Rattle.std.specs.Prelude.{◌≡◌, ◌-◌, ◌<◌, false, true};
ghost use Rattle.roster_instance.specs.Counting.{one_if};
ghost use Rattle.roster_polish.specs.Budgets.{AreOver, AreRead};

use roster_timer::Deadline;
use std::time::Clock;

/// The most microseconds that a run can be given: a day. A run that has no limit of time counts as one that
/// has a day for each fade.
pub(crate) const MOST_MICROS: u64 = 86_400_000_000;

/// How many searches are left, and how many microseconds.
#[derive(Clone, Copy, Debug, Default)]
pub(crate) struct Left {
    pub(crate) searches: u64,
    pub(crate) micros: u64,
}

/// The searches that a run may still take, and the time after which it ends sooner. The clock is read between
/// two searches.
#[derive(Clone, Copy)]
pub(crate) struct Searches<K> {
    pub(crate) left: u64,
    pub(crate) deadline: Deadline<K>,
}

impl<K: Clock + Copy> Searches<K> {
    /// How many microseconds are left.
    pub(crate) fn time_left(&self) -> u64 {
        self.deadline.look()
    }

    /// The same with the searches.
    pub(crate) fn remaining(&self) -> Left {
        Left {
            searches: self.left,
            micros: self.time_left(),
        }
    }

    /// How many searches were made and how many microseconds have passed since this was left.
    pub(crate) fn made_since(&self, before: Left) -> Left {
        let now = self.remaining();
        Left {
            searches: before.searches.saturating_sub(now.searches),
            micros: before.micros.saturating_sub(now.micros),
        }
    }

    /// Whether no search is left, or no time.
    pub(crate) fn are_over(&mut self) -> bool
        ensures read { AreRead self.old self.new }
        ensures over { result ≡ true → AreOver self.new }
        ensures some { result ≡ false → 0 < self.new.left }
    {
        self.left == 0 || self.deadline.left() == 0
    }

    /// Takes one of those that are left if a search was made.
    pub(crate) fn take_if(&mut self, searched: bool)
        requires { searched ≡ true → 0 < self.old.left }
        ensures left { self.new.left ≡ self.old.left - one_if searched }
        ensures ends { self.new.deadline.ends ≡ self.old.deadline.ends }
    {
        if searched {
            self.left -= 1;
        }
    }
}

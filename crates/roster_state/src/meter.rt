//! The number of extensions that a search has made.

ghost use Rattle.std.specs.Prelude.{◌≡◌, ◌+◌, ◌<◌, ◌≤◌};
ghost use Rattle.roster_bundle.specs.Limits.{greatest_u64};

use roster_instance::Case;
use std::marker::Model;

/// Counts extensions: one state taken over one choice, and one cell of a line of completion bounds over one
/// offer. Only code with exclusive access to a case can make a meter. A function that has the case by shared
/// reference can't, so the meter that is passed to it counts all of its extensions.
#[derive(Drop)]
pub struct Meter {
    count: u64,

    /// It holds nothing. A mutable reference can neither be copied nor made from nothing, so no derive of
    /// `Clone`, `Copy` or `Default` compiles on a meter: a search can't count on a copy.
    unshared: [&'static mut (); 0],
}

impl Model for Meter {
    ghost use Rattle.std.specs.Prelude.{ℕ};

    ghost Value = { ℕ };

    ghost view = { λ m. m.count };
}

impl Meter {
    /// A meter that has counted nothing. The case stays as it is. Make it before the case is held: a held
    /// roster gives out its case by shared reference only.
    pub fn new(case: &mut Case) -> Meter
        ensures none { result ≡ 0 }
        ensures same { case.new ≡ case.old }
    {
        let _ = case;
        Meter {
            count: 0,
            unshared: [],
        }
    }

    /// The number of extensions that were counted.
    pub fn count(&self) -> u64
        ensures { result ≡ self.now }
    {
        self.count
    }

    /// How many more can still be counted.
    pub fn room(&self) -> u64
        ensures { result + self.now ≡ greatest_u64 }
    {
        u64::MAX - self.count
    }

    /// Counts one extension.
    pub(crate) fn add_one(&mut self)
        requires { self.old < greatest_u64 }
        ensures { self.new ≡ self.old + 1 }
    {
        self.count += 1;
    }

    /// Counts that many extensions. Each is counted by the call that makes it: a transition, a span or a line
    /// of completion bounds.
    pub(crate) fn add(&mut self, more: u64)
        requires { self.old + more ≤ greatest_u64 }
        ensures { self.new ≡ self.old + more }
    {
        self.count += more;
    }
}

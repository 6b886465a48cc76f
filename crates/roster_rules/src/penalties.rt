//! The penalty of a roster by its rules.

ghost use Rattle.std.specs.Prelude.{◌≡◌, min};
ghost use Rattle.roster_bundle.specs.Limits.{greatest_u64};
ghost use Rattle.roster_rules.specs.Penalties.{total_cost};

/// What each soft rule costs, in penalty points, weights included: staffing below the optimum, runs of
/// working days and of shifts, runs of days off, off requests, split weekends, totals of assignments, worked
/// weekends, wishes to work, a roster that is kept.
#[derive(Clone, Copy, Debug, Default, PartialEq, Eq)]
pub struct Costs {
    pub s1: u64,
    pub s2: u64,
    pub s3: u64,
    pub s4: u64,
    pub s5: u64,
    pub s6: u64,
    pub s7: u64,
    pub s8: u64,
    pub s9: u64,
}

impl Costs {
    /// The sum of all rules. If numbers that no roster costs add up to more than a `u64` holds, it is the
    /// greatest `u64`.
    pub fn total(&self) -> u64
        ensures { result ≡ min (total_cost self.now) greatest_u64 }
    {
        self.s1
            .saturating_add(self.s2)
            .saturating_add(self.s3)
            .saturating_add(self.s4)
            .saturating_add(self.s5)
            .saturating_add(self.s6)
            .saturating_add(self.s7)
            .saturating_add(self.s8)
            .saturating_add(self.s9)
    }
}

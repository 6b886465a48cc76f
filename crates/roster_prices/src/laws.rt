//! A law: each nurse has a row. The function does nothing; its clause is the law.

ghost use Rattle.std.specs.Prelude.{◌≡◌, true};
ghost use Rattle.roster_instance.specs.Rosters.{fits_case};
ghost use Rattle.roster_rules.specs.HardRules.{keeps_hard};
ghost use Rattle.roster_prices.specs.LowerBounds.{HaveRows};

use roster_instance::{Case, Roster};

/// In a roster that keeps the hard rules each nurse has a row that agrees with it on the frozen days: the
/// present one.
pub fn rows_exist(case: &Case, given: &Roster, from: u16)
    requires fits { fits_case case.now given.now ≡ true }
    requires keeps { keeps_hard case.now given.now ≡ true }
    ensures { HaveRows case.now from given.now }
{}

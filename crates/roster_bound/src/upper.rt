//! The roster whose penalty no lower bound exceeds.

ghost use Rattle.std.specs.Prelude.{◌≡◌, true};
ghost use Rattle.roster_rules.specs.HardRules.{keeps_hard};
ghost use Rattle.roster_rules.specs.Penalties.{penalty};

use roster_prices::Base;

/// The roster of a base, which keeps the hard rules, and its penalty.
#[derive(Clone, Copy)]
pub(crate) struct UpperBound<'a> {
    pub(crate) base: &'a Base<'a>,
    pub(crate) total: u64,
    ghost keeps: { keeps_hard base.now.case.now base.now.given.now ≡ true },
    ghost total_is: { total ≡ penalty base.now.case.now base.now.given.now },
}

//! How much a run can count on a meter.

ghost use Rattle.std.specs.Prelude.{◌+◌, ◌≤◌};
ghost use Rattle.roster_bundle.specs.Limits.{greatest_u64};
ghost use Rattle.roster_polish.specs.Polished.{first_searches, most_searches};
ghost use Rattle.roster_polish.specs.Settled.{extensions_of};

use roster_instance::Case;
use roster_rounds::extensions_are_few;

/// The greatest number of searches, besides those of the first descent, that a new meter can surely count.
pub const MOST_SEARCHES: u32 = 10_000_000;

/// A law: a new meter can count a run of this many searches, and those of the first descent.
pub fn searches_fit_meter(case: &Case, searches: u32)
    requires { searches ≤ most_searches }
    ensures { extensions_of case.now (searches + first_searches case.now) ≤ greatest_u64 }
{
    case.keeps_limits();
    extensions_are_few(case);
}

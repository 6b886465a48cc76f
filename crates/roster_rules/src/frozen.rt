//! Which days of a nurse are frozen.

ghost use Rattle.std.specs.Prelude.{◌≡◌, ◌<◌};
ghost use Rattle.roster_instance.specs.Meaning.{nurse_count};
ghost use Rattle.roster_rules.specs.AllowedRows.{is_frozen};

use roster_instance::Case;

/// Whether a day of a nurse is one of the weeks before week `from`, or fixed.
pub fn is_frozen(case: &Case, from: u16, nurse: usize, day: u16) -> bool
    requires { nurse < nurse_count case.now }
    ensures { result ≡ is_frozen case.now from nurse day }
{
    day / 7 < from || case.is_fixed(nurse, day)
}

//! Whether wishes to work are met.

ghost use Rattle.std.specs.Prelude.{◌≡◌, ◌<◌};
ghost use Rattle.roster_instance.specs.Days.{is_shift};
ghost use Rattle.roster_instance.specs.Meaning.{nurse_count};
ghost use Rattle.roster_rules.specs.Penalties.{meets_wishes};

use roster_instance::{Case, Shift};

/// Whether each wish of a nurse for a day is met by the shift that the nurse works on it, or by a day off.
pub fn meets_wishes(case: &Case, nurse: usize, day: u16, shift: Option<Shift>) -> bool
    requires { nurse < nurse_count case.now }
    ensures { result ≡ meets_wishes case.now nurse day shift }
{
    let wishes = case.wishes(nurse, day);
    if wishes.any && shift.is_none() {
        return false;
    }
    for number in 0..case.shifts() {
        if wishes.names(Shift(number)) && !is_shift(number, shift) {
            return false;
        }
    }
    true
}

fn is_shift(number: u8, shift: Option<Shift>) -> bool
    ensures { result ≡ is_shift number shift }
{
    match shift {
        Some(shift) => shift.0 == number,
        None => false,
    }
}

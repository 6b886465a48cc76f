//! The requests of a nurse for single days.

ghost use Rattle.std.specs.Prelude.{◌≡◌, ◌<◌, ◌≤◌, length};
ghost use Rattle.roster_instance.specs.Choices.{days_of};
ghost use Rattle.roster_instance.specs.Limits.{most_days};
ghost use Rattle.roster_instance.specs.Meaning.{nurse_count};
ghost use Rattle.roster_costs.specs.Sums.{most_of_part};
ghost use Rattle.roster_rules.specs.Penalties.{breaks_off_request, keep_cost, off_request_cost, wish_cost};

use roster_instance::{Case, Choice, Shift};
use roster_rules::weights::{OFF_REQUEST, WISH};
use roster_rules::{keep_cost_on, meets_wishes};

/// S4. The points for each day with a shift that an off request names.
pub(crate) fn off_request_cost(case: &Case, nurse: usize, row: &[Choice]) -> u64
    requires nurse { nurse < nurse_count case.now }
    requires days { length row.now ≤ most_days }
    ensures cost { result ≡ off_request_cost case.now nurse (days_of row.now) }
    ensures within { result ≤ most_of_part }
{
    let mut cost = 0;
    for (day, choice) in row.iter().enumerate() {
        if breaks_off_request(case, nurse, day as u16, choice.shift()) {
            cost += OFF_REQUEST as u64;
        }
    }
    cost
}

fn breaks_off_request(case: &Case, nurse: usize, day: u16, shift: Option<Shift>) -> bool
    requires { nurse < nurse_count case.now }
    ensures { result ≡ breaks_off_request case.now nurse day shift }
{
    match shift {
        Some(shift) => case.has_off_request(nurse, day, shift),
        None => false,
    }
}

/// S8. The points for each day with a wish to work that isn't met.
pub(crate) fn wish_cost(case: &Case, nurse: usize, row: &[Choice]) -> u64
    requires nurse { nurse < nurse_count case.now }
    requires days { length row.now ≤ most_days }
    ensures cost { result ≡ wish_cost case.now nurse (days_of row.now) }
    ensures within { result ≤ most_of_part }
{
    let mut cost = 0;
    for (day, choice) in row.iter().enumerate() {
        if !meets_wishes(case, nurse, day as u16, choice.shift()) {
            cost += WISH as u64;
        }
    }
    cost
}

/// S9. The points for each day that differs from the roster that is kept.
pub(crate) fn keep_cost(case: &Case, nurse: usize, row: &[Choice]) -> u64
    requires { length row.now ≤ most_days }
    ensures cost { result ≡ keep_cost case.now nurse (days_of row.now) }
    ensures within { result ≤ most_of_part }
{
    let keep = case.keep();
    if keep == 0 {
        return 0;
    }
    let mut cost = 0;
    for (day, choice) in row.iter().enumerate() {
        cost += keep_cost_on(case, nurse, day as u16, choice.shift()) as u64;
    }
    cost
}

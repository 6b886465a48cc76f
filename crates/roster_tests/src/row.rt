//! What a row costs its nurse, from day to day.

ghost use Rattle.std.specs.Prelude.{◌≡◌, ◌+◌, ◌<◌, ◌≤◌, true, IfSome, IsNone};
ghost use Rattle.roster_bundle.specs.Limits.{greatest_u64};
ghost use Rattle.roster_instance.specs.Choices.{days_of};
ghost use Rattle.roster_instance.specs.Meaning.{day_count, nurse_count};
ghost use Rattle.roster_instance.specs.Rosters.{is_row_of};
ghost use Rattle.roster_rules.specs.Penalties.{own_cost};
ghost use Rattle.roster_tests.specs.Rows.{KeepsSuccessions, days_tried};

use roster_case::{Case, Choice};
use roster_state::{Meter, end_cost, extend, start};

/// What a row costs its nurse in runs, split weekends, totals and worked weekends, in penalty points: the
/// cost of the start, of a transition on each day and of the end. None exactly if a shift forbids the next.
/// The meter counts one extension for each day, up to the first forbidden one and with it.
pub fn row_cost(case: &Case, nurse: usize, row: &[Choice], meter: &mut Meter) -> Option<u64>
    requires nurse { nurse < nurse_count case.now }
    requires row { is_row_of case.now row.now ≡ true }
    requires room { meter.old + day_count case.now ≤ greatest_u64 }
    ensures cost { IfSome result (λ cost. cost ≡ own_cost case.now nurse (days_of row.now)) }
    ensures kept { IfSome result (λ cost. KeepsSuccessions case.now nurse (days_of row.now)) }
    ensures forbidden { IsNone result → KeepsSuccessions case.now nurse (days_of row.now) → ⊥ }
    ensures counted { meter.new ≡ meter.old + days_tried case.now nurse (days_of row.now) }
{
    let (mut state, before) = start(case, nurse);
    let mut cost = before as u64;
    for day in 0..case.days() {
        let (next, more) = extend(case, nurse, day, state, row[day as usize].shift(), meter)?;
        state = next;
        cost += more as u64;
    }
    Some(cost + end_cost(case, nurse, state) as u64)
}

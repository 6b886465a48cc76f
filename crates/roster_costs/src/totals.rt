//! What the number of worked days of a row costs, compared with its limits.

ghost use Rattle.std.specs.Prelude.{◌≡◌, ◌≤◌, length};
ghost use Rattle.roster_instance.specs.Choices.{days_of};
ghost use Rattle.roster_instance.specs.Days.{days_worked};
ghost use Rattle.roster_instance.specs.Limits.{most_days};
ghost use Rattle.roster_costs.specs.Sums.{most_of_part};
ghost use Rattle.roster_rules.specs.Penalties.{totals_cost};

use roster_instance::{Case, Choice};
use roster_rules::weights::ASSIGNMENT;

/// S6. The points for each assignment below the least or above the greatest total, including the history's.
pub(crate) fn totals_cost(case: &Case, nurse: usize, row: &[Choice]) -> u64
    requires { length row.now ≤ most_days }
    ensures cost { result ≡ totals_cost case.now nurse (days_of row.now) }
    ensures within { result ≤ most_of_part }
{
    let total = case.past(nurse).assignments as u64 + days_worked(row);
    let limits = case.contract_rules(nurse).total;
    let missing = (limits.least as u64).saturating_sub(total);
    let extra = total.saturating_sub(limits.greatest as u64);
    ASSIGNMENT as u64 * missing + ASSIGNMENT as u64 * extra
}

/// The number of worked days.
fn days_worked(row: &[Choice]) -> u64
    requires { length row.now ≤ most_days }
    ensures days { result ≡ days_worked (days_of row.now) }
    ensures within { result ≤ most_days }
{
    let mut days = 0;
    for choice in row {
        if choice.shift().is_some() {
            days += 1;
        }
    }
    days
}

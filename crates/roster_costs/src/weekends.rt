//! The weekends of a row.

ghost use Rattle.std.specs.Prelude.{◌≡◌, ◌*◌, ◌≤◌, length};
ghost use Rattle.roster_instance.specs.Choices.{days_of};
ghost use Rattle.roster_instance.specs.Days.{split_weekends, worked_weekends, works};
ghost use Rattle.roster_instance.specs.Limits.{most_weeks};
ghost use Rattle.roster_costs.specs.Sums.{most_of_part};
ghost use Rattle.roster_rules.specs.Penalties.{split_cost, weekends_cost};

use roster_instance::{Case, Choice};
use roster_rules::weights::{SPLIT, WEEKEND};

/// S5. The points for each weekend of which exactly one day is worked, if the contract wants complete
/// weekends.
pub(crate) fn split_cost(case: &Case, nurse: usize, row: &[Choice], weeks: u16) -> u64
    requires days { length row.now ≡ 7 * weeks }
    requires weeks { weeks ≤ most_weeks }
    ensures cost { result ≡ split_cost case.now nurse (days_of row.now) }
    ensures within { result ≤ most_of_part }
{
    if !case.contract_rules(nurse).whole_weekends {
        return 0;
    }
    SPLIT as u64 * split_weekends(row, weeks)
}

/// S7. The points for each worked weekend above the greatest number, including the history's.
pub(crate) fn weekends_cost(case: &Case, nurse: usize, row: &[Choice], weeks: u16) -> u64
    requires days { length row.now ≡ 7 * weeks }
    requires weeks { weeks ≤ most_weeks }
    ensures cost { result ≡ weekends_cost case.now nurse (days_of row.now) }
    ensures within { result ≤ most_of_part }
{
    let weekends = case.past(nurse).weekends as u64 + worked_weekends(row, weeks);
    WEEKEND as u64 * weekends.saturating_sub(case.contract_rules(nurse).weekends as u64)
}

/// The number of weekends with a worked day.
fn worked_weekends(row: &[Choice], weeks: u16) -> u64
    requires days { length row.now ≡ 7 * weeks }
    requires weeks { weeks ≤ most_weeks }
    ensures weekends { result ≡ worked_weekends (days_of row.now) }
    ensures within { result ≤ most_weeks }
{
    let mut count = 0;
    for week in 0..weeks {
        let saturday = 7 * week as usize + 5;
        if works(row, saturday) || works(row, saturday + 1) {
            count += 1;
        }
    }
    count
}

/// The number of weekends with exactly one worked day.
fn split_weekends(row: &[Choice], weeks: u16) -> u64
    requires days { length row.now ≡ 7 * weeks }
    requires weeks { weeks ≤ most_weeks }
    ensures weekends { result ≡ split_weekends (days_of row.now) }
    ensures within { result ≤ most_weeks }
{
    let mut count = 0;
    for week in 0..weeks {
        let saturday = 7 * week as usize + 5;
        if works(row, saturday) != works(row, saturday + 1) {
            count += 1;
        }
    }
    count
}

/// Whether a day is worked; past the end it is not.
fn works(row: &[Choice], day: usize) -> bool
    ensures { result ≡ works (days_of row.now) day }
{
    match row.get(day) {
        Some(choice) => choice.shift().is_some(),
        None => false,
    }
}

//! What a roster costs.

ghost use Rattle.std.specs.Prelude.{◌≡◌, ◌+◌, ◌<◌, ◌≤◌, true, length};
ghost use Rattle.roster_instance.specs.Choices.{days_of};
ghost use Rattle.roster_instance.specs.Meaning.{day_count, nurse_count};
ghost use Rattle.roster_rules.specs.Penalties.{costs_of, nurse_cost, staffing_cost, total_cost};
ghost use Rattle.roster_rules.specs.PenaltyBounds.{most_staffing, penalty_limit};
ghost use Rattle.roster_costs.specs.Sums.{AreWithin, with_nurse};
ghost use Rattle.roster_instance.specs.Rosters.{fits_case};

use crate::requests::{keep_cost, off_request_cost, wish_cost};
use crate::runs::{free_run_cost, shift_run_cost, working_run_cost};
use crate::staffing::staffing_cost;
use crate::totals::totals_cost;
use crate::weekends::{split_cost, weekends_cost};
use roster_instance::{Case, Choice, Roster};
use roster_rules::Costs;

/// What a roster costs by each soft rule. The hard rules may be broken. Each row, and the nurses of each day,
/// are passed over once for each count, whatever runs there are.
pub fn costs(case: &Case, roster: &Roster) -> Costs
    requires { fits_case case.now roster.now ≡ true }
    ensures costs { result ≡ costs_of case.now roster.now }

    // No sum overflows: the penalty is below 2^33, and the staffing costs at most what it would if each slot
    // were short by the greatest number of nurses that a pair can ask for.
    ensures within { total_cost result < penalty_limit }
    ensures staffing { result.s1 ≤ most_staffing }
{
    costs_with(case, roster, staffing_cost(case, roster))
}

/// The same if the cost of the staffing is already known.
pub fn costs_with(case: &Case, roster: &Roster, staffing: u64) -> Costs
    requires fitting { fits_case case.now roster.now ≡ true }
    requires staffing { staffing ≡ staffing_cost case.now roster.now }
    ensures costs { result ≡ costs_of case.now roster.now }
    ensures within { total_cost result < penalty_limit }
    ensures staffing { result.s1 ≤ most_staffing }
{
    case.keeps_limits();
    by_rule(case, roster, staffing)
}

/// What a nurse's row costs, apart from staffing.
#[tactic(auto, unfolding(roster_rules::specs::Penalties::own_cost))]
pub fn nurse_cost(case: &Case, nurse: usize, row: &[Choice]) -> u32
    requires nurse { nurse < nurse_count case.now }
    requires days { length row.now ≡ day_count case.now }
    ensures cost { result ≡ nurse_cost case.now nurse (days_of row.now) }
{
    case.keeps_limits();
    let weeks = case.weeks();
    let cost = working_run_cost(case, nurse, row)
        + shift_run_cost(case, nurse, row)
        + free_run_cost(case, nurse, row)
        + off_request_cost(case, nurse, row)
        + wish_cost(case, nurse, row)
        + keep_cost(case, nurse, row)
        + split_cost(case, nurse, row, weeks)
        + totals_cost(case, nurse, row)
        + weekends_cost(case, nurse, row, weeks);
    cost as u32
}

#[tactic(auto, unfolding(roster_rules::specs::Penalties::costs_of))]
fn by_rule(case: &Case, roster: &Roster, staffing: u64) -> Costs
    requires fitting { fits_case case.now roster.now ≡ true }
    requires staffing { staffing ≡ staffing_cost case.now roster.now }
    ensures { result ≡ costs_of case.now roster.now }
{
    let mut costs = Costs {
        s1: staffing,
        ..Costs::default()
    };
    for nurse in 0..case.nurses() {
        add_nurse(&mut costs, case, nurse, roster.row(nurse));
    }
    costs
}

/// Adds what a nurse's row costs by each rule except staffing.
fn add_nurse(costs: &mut Costs, case: &Case, nurse: usize, row: &[Choice])
    requires nurse { nurse < nurse_count case.now }
    requires days { length row.now ≡ day_count case.now }
    requires within { AreWithin costs.old nurse }
    ensures costs { costs.new ≡ with_nurse case.now nurse (days_of row.now) costs.old }
    ensures within { AreWithin costs.new (nurse + 1) }
{
    case.keeps_limits();
    let weeks = case.weeks();
    costs.s2 += working_run_cost(case, nurse, row) + shift_run_cost(case, nurse, row);
    costs.s3 += free_run_cost(case, nurse, row);
    costs.s4 += off_request_cost(case, nurse, row);
    costs.s5 += split_cost(case, nurse, row, weeks);
    costs.s6 += totals_cost(case, nurse, row);
    costs.s7 += weekends_cost(case, nurse, row, weeks);
    costs.s8 += wish_cost(case, nurse, row);
    costs.s9 += keep_cost(case, nurse, row);
}

//! The totals of a nurse: assignments, S6, and worked weekends, S7. What the history has above the greatest
//! numbers, how many a day adds and what it costs, and what is missing in the end.

ghost use Rattle.std.specs.Prelude.{◌≡◌, ◌+◌, ◌*◌, ◌≤◌, [], if◌then◌else◌, is_some, min, nat_le};
ghost use Rattle.roster_instance.specs.Counting.{one_if};
ghost use Rattle.roster_instance.specs.Meaning.{past_of};
ghost use Rattle.roster_instance.specs.Sizes.{cap};
ghost use Rattle.roster_instance.specs.Small.{IsSmallPast};
ghost use Rattle.roster_rules.specs.DayLaw.{weekends_more};
ghost use Rattle.roster_rules.specs.Prefix.{due};
ghost use Rattle.roster_rules.specs.Weights.{assignment_weight, weekend_weight};
ghost use Rattle.roster_state.specs.MostCosts.{most_at_end, most_at_start};
ghost use Rattle.roster_state.specs.Transition.{end_cost_of};

use crate::state::State;
use roster_instance::{Case, ContractRules, Limits, Past, Shift};
use roster_rules::weekends_more;
use roster_rules::weights::{ASSIGNMENT, WEEKEND};
use std::cmp::min;

/// The points for the history's assignments and worked weekends above the greatest numbers.
pub(crate) fn start_cost(case: &Case, nurse: usize, past: Past) -> u32
    requires past { past ≡ past_of case.now nurse }
    requires small { IsSmallPast past }
    ensures cost { result ≡ due case.now nurse [] }
    ensures within { result ≤ most_at_start }
{
    let rules = case.contract_rules(nurse);
    let assignments = past.assignments.saturating_sub(rules.total.greatest) as u32;
    let weekends = past.weekends.saturating_sub(rules.weekends) as u32;
    ASSIGNMENT * assignments + WEEKEND * weekends
}

/// The assignments and the worked weekends after one more day, up to their caps.
#[inline(always)]
pub(crate) fn totals_after(
    rules: ContractRules,
    day: u16,
    state: State,
    shift: Option<Shift>,
) -> (u16, u16)
    ensures assignments { result.0
        ≡ min (state.assignments + one_if (is_some shift)) (cap rules.total) }
    ensures weekends { result.1
        ≡ min (state.weekends + weekends_more day (is_some state.last) (is_some shift))
        rules.weekends }
{
    let assignments = state.assignments as u32 + shift.is_some() as u32;
    let weekends = state.weekends as u32
        + weekends_more(day, state.last.is_some(), shift.is_some());
    (
        min(assignments, rules.total.cap() as u32) as u16,
        min(weekends, rules.weekends as u32) as u16,
    )
}

/// S6. The points for an assignment above the greatest total.
#[inline(always)]
pub(crate) fn assignment_more(total: Limits, assignments: u32) -> u32
    ensures cost { result ≡ (if nat_le total.greatest assignments then assignment_weight else 0) }
    ensures within { result ≤ assignment_weight }
{
    if assignments < total.greatest as u32 {
        return 0;
    }
    ASSIGNMENT
}

/// S6. The points for an assignment on the day, if it is above the greatest total.
#[inline(always)]
pub(crate) fn total_more(rules: ContractRules, state: State, shift: Option<Shift>) -> u32
    ensures cost { result ≡ (if is_some shift then (if nat_le rules.total.greatest state.assignments
        then assignment_weight else 0) else 0) }
    ensures within { result ≤ assignment_weight }
{
    match shift {
        Some(_) => assignment_more(rules.total, state.assignments as u32),
        None => 0,
    }
}

/// S6. The first place of a block from which on an assignment on the day is above the greatest total. It is
/// the number of places if the nurse is off.
#[inline(always)]
pub(crate) fn dearer_from(total: Limits, shift: Option<Shift>) -> u32
    ensures { result ≡ (if is_some shift then total.greatest else cap total + 1) }
{
    match shift {
        Some(_) => total.greatest as u32,
        None => total.cap() as u32 + 1,
    }
}

/// S7. The points for a worked weekend above the greatest number.
#[inline(always)]
pub(crate) fn weekend_more(
    rules: ContractRules,
    day: u16,
    state: State,
    shift: Option<Shift>,
) -> u32
    ensures cost { result ≡ (if nat_le rules.weekends state.weekends then weekend_weight
        * weekends_more day (is_some state.last) (is_some shift) else 0) }
    ensures within { result ≤ weekend_weight }
{
    if state.weekends < rules.weekends {
        return 0;
    }
    WEEKEND * weekends_more(day, state.last.is_some(), shift.is_some())
}

/// S6. The points for each assignment missing to the least total.
pub(crate) fn missing_cost(case: &Case, nurse: usize, state: State) -> u32
    ensures cost { result ≡ end_cost_of case.now nurse state }
    ensures within { result ≤ most_at_end }
{
    let total = case.contract_rules(nurse).total;
    ASSIGNMENT * total.least.saturating_sub(state.assignments) as u32
}

//! What the rest of a row costs at least, by the completion bound and by what is counted over all days.

ghost use Rattle.std.specs.Prelude.{◌≡◌, ◌+◌, ◌*◌, ◌<◌, ◌≤◌, length, true};
ghost use Rattle.roster_instance.specs.Meaning.{day_count};
ghost use Rattle.roster_state.specs.Codes.{fits_sizes};
ghost use Rattle.roster_completion.specs.CompletionBounds.{completion_count, completion_index};
ghost use Rattle.roster_completion.specs.Least.{IsAdjustmentOf, IsUnderRest, search_sizes};

use crate::completion_bounds::CompletionBounds;
use roster_rules::weights::ASSIGNMENT;
use roster_state::State;

/// What turns a completion bound into a lower bound of what the rest of a row costs: what assignments will
/// still cost whatever comes, and what the completion bound charges at the rates. Both are in the parts of a
/// point of the search's scale, as completion bounds are.
#[derive(Clone, Copy)]
pub struct Adjustment {
    /// What is due for assignments that will be missing.
    pub more: u32,
    /// What the completion bound charges for the assignments and the worked weekends to come.
    pub less: u32,
}

/// The adjustment of the completion bounds of a day, after this number of assignments and of worked weekends
/// before the day.
#[inline(always)]
pub fn adjustment_for(
    completion_bounds: &CompletionBounds<'_>,
    day: u16,
    assignments: u16,
    weekends: u16,
) -> Adjustment
    requires day { day ≤ day_count completion_bounds.now.search.case.now }
    requires assignments { assignments < (search_sizes completion_bounds.now.search).assignments }
    requires weekends { weekends < (search_sizes completion_bounds.now.search).weekends }
    ensures { IsAdjustmentOf completion_bounds.now day assignments weekends result }
{
    let left = (completion_bounds.days - day) as u32;
    let days = left.min(completion_bounds.ranges.assignments() - 1 - assignments as u32);
    let weeks = (left + 6) / 7;
    let weekends = weeks.min(completion_bounds.ranges.weekends() - 1 - weekends as u32);
    let missing = (completion_bounds.least as u32).saturating_sub(assignments as u32 + days);
    Adjustment {
        more: completion_bounds.search.scale * (ASSIGNMENT * missing),
        less: completion_bounds.rates.day * days + completion_bounds.rates.weekend * weekends,
    }
}

/// What the rest of a row costs at least, in the parts of a point of the search's scale, from a state
/// before a day on: the completion bound, plus what assignments still cost whatever comes, less what the
/// completion bound charges at the rates.
#[inline(always)]
pub fn at_least_adjusted(
    completion_bounds: &CompletionBounds<'_>,
    day: u16,
    state: &State,
    adjustment: &Adjustment,
) -> u32
    requires day { day ≤ day_count completion_bounds.now.search.case.now }
    requires fits { fits_sizes (search_sizes completion_bounds.now.search) state.now ≡ true }
    requires adjustment { IsAdjustmentOf completion_bounds.now day state.now.assignments
        state.now.weekends adjustment.now }
    ensures least { IsUnderRest completion_bounds.now.search day state.now result }
{
    let completion_bound = completion_bounds.cells[index(completion_bounds, day, state)];
    completion_bound
        .saturating_add(adjustment.more)
        .saturating_sub(adjustment.less)
}

/// The same, if the adjustment isn't at hand.
#[inline(always)]
pub fn at_least(completion_bounds: &CompletionBounds<'_>, day: u16, state: &State) -> u32
    requires day { day ≤ day_count completion_bounds.now.search.case.now }
    requires fits { fits_sizes (search_sizes completion_bounds.now.search) state.now ≡ true }
    ensures least { IsUnderRest completion_bounds.now.search day state.now result }
{
    let adjustment = adjustment_for(
        completion_bounds,
        day,
        state.assignments(),
        state.weekends(),
    );
    at_least_adjusted(completion_bounds, day, state, &adjustment)
}

/// The index of a state's completion bound.
#[inline(always)]
fn index(completion_bounds: &CompletionBounds<'_>, day: u16, state: &State) -> usize
    requires fits { fits_sizes completion_bounds.now.ranges state.now ≡ true }
    requires inside { (day + 1) * completion_count completion_bounds.now.ranges
        ≤ length completion_bounds.now.cells.now }
    ensures index { result ≡ completion_index completion_bounds.now.ranges day state.now }
    ensures inside { result < length completion_bounds.now.cells.now }
{
    let last = day as usize * completion_bounds.ranges.last() as usize
        + state.last_number() as usize;
    let run = last * completion_bounds.ranges.run() as usize + state.run() as usize;
    run * completion_bounds.ranges.shift_run() as usize + state.shift_run() as usize
}

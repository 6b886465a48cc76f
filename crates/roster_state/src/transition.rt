//! Transitions: one more day from a state, its cost, and the state after it.

ghost use Rattle.std.specs.Prelude.{◌≡◌, ◌+◌, ◌*◌, ◌<◌, ◌≤◌, ◌++◌, ◌∷◌, [], true, false, length, IfSome, None, Some, if◌then◌else◌, is_some, min, not};
ghost use Rattle.roster_instance.specs.Days.{Days};
ghost use Rattle.roster_instance.specs.Meaning.{contract_of, day_count, nurse_count, past_of, run_of_shift, shift_count, forbids};
ghost use Rattle.roster_rules.specs.Penalties.{own_cost};
ghost use Rattle.roster_rules.specs.DayLaw.{splits_more};
ghost use Rattle.roster_rules.specs.Prefix.{due, summary_of};
ghost use Rattle.roster_instance.specs.Sizes.{cap};
ghost use Rattle.roster_state.specs.Codes.{fits_sizes, sizes_of};
ghost use Rattle.roster_rules.specs.Weights.{assignment_weight, free_run_weight, shift_run_weight, split_weight, working_run_weight};
ghost use Rattle.roster_state.specs.MostCosts.{most_at_end, most_at_start, most_of_transition};
ghost use Rattle.roster_state.specs.Reachable.{can_be};
ghost use Rattle.roster_state.specs.Transition.{cost_apart, end_cost_of, ended, free_run, next_of, open_shift_run, shifts_more, split_more, transition_of, weekend_more, worked, working_run};
ghost use Rattle.roster_instance.specs.RunLaw.{day_violations};

use crate::state::State;
use crate::totals::{missing_cost, start_cost, total_more, totals_after, weekend_more};
use roster_instance::{Border, Case, ContractRules, Limits, Past, Shift};
use roster_rules::splits_more;
use roster_rules::weights::{FREE_RUN, SHIFT_RUN, SPLIT, WORKING_RUN};
use std::cmp::min;

/// The state before day 0, and what the history's totals already cost: points for each assignment and each
/// worked weekend above the greatest number.
pub fn start(case: &Case, nurse: usize) -> (State, u32)
    requires { nurse < nurse_count case.now }
    ensures state { result.0 ≡ summary_of case.now nurse [] }
    ensures cost { result.1 ≡ due case.now nurse [] }
    ensures fits { fits_sizes (sizes_of case.now nurse) result.0 ≡ true }
    ensures can_be { can_be case.now nurse result.0 ≡ true }
    ensures within { result.1 ≤ most_at_start }
{
    let past = case.past(nurse);
    (
        start_state(case, nurse, past),
        start_cost(case, nurse, past),
    )
}

/// One more day from a state, by the nurse's rules: the state after it and what the day costs. It counts
/// nothing.
#[inline(always)]
pub(crate) fn transition(
    case: &Case,
    nurse: usize,
    rules: ContractRules,
    day: u16,
    state: State,
    shift: Option<Shift>,
) -> Option<(State, u32)>
    requires rules { rules ≡ contract_of case.now nurse }
    requires shift { IfSome shift (λ s. s.0 < shift_count case.now) }
    requires fits { fits_sizes (sizes_of case.now nurse) state ≡ true }
    ensures next { result ≡ transition_of case.now nurse day state shift }
    ensures next_fits { IfSome result
        (λ transition. fits_sizes (sizes_of case.now nurse) transition.0 ≡ true) }
    ensures within { IfSome result (λ transition. transition.1 ≤ most_of_transition) }
{
    if case.forbids_next(state.last, shift) {
        return None;
    }
    Some((
        next_of(case, nurse, rules, day, state, shift),
        cost_apart(case, nurse, rules, day, state, shift) + total_more(rules, state, shift),
    ))
}

/// The state that `extend` gives, without its cost. It counts nothing.
pub fn after(
    case: &Case,
    nurse: usize,
    day: u16,
    state: State,
    shift: Option<Shift>,
) -> Option<State>
    requires nurse { nurse < nurse_count case.now }
    requires day { day < day_count case.now }
    requires shift { IfSome shift (λ s. s.0 < shift_count case.now) }
    requires fits { fits_sizes (sizes_of case.now nurse) state ≡ true }
    ensures state { result ≡ (if forbids case.now.successions state.last shift then None else Some
        (next_of case.now nurse day state shift)) }
    ensures summary { IfSome result (λ next. (days : Days) → length days ≡ day →
        state ≡ summary_of case.now nurse days →
        next ≡ summary_of case.now nurse (days ++ shift ∷ [])) }
    ensures next_fits { IfSome result (λ next. fits_sizes (sizes_of case.now nurse) next ≡ true) }
{
    if case.forbids_next(state.last, shift) {
        return None;
    }
    let rules = case.contract_rules(nurse);
    Some(next_of(case, nurse, rules, day, state, shift))
}

/// What the days cost in the end, besides the transitions: points for each assignment missing to the least
/// total.
pub fn end_cost(case: &Case, nurse: usize, state: State) -> u32
    requires nurse { nurse < nurse_count case.now }
    requires fits { fits_sizes (sizes_of case.now nurse) state ≡ true }
    ensures cost { result ≡ end_cost_of case.now nurse state }

    // From the summary of all days, what is owed and this cost together are the nurse's own cost.
    ensures closes { (days : Days) → state ≡ summary_of case.now nurse days →
        own_cost case.now nurse days ≡ due case.now nurse days + result }
    ensures within { result ≤ most_at_end }
{
    missing_cost(case, nurse, state)
}

// ---- the start and the end

fn start_state(case: &Case, nurse: usize, past: Past) -> State
    requires { past ≡ past_of case.now nurse }
    ensures { result ≡ summary_of case.now nurse [] }
{
    let rules = case.contract_rules(nurse);
    let (last, run, shift_run) = match past.border {
        Border::Free(run) => (None, min(run, rules.free.cap()), 0),
        Border::Working {
            shift,
            shift_run,
            working_run,
        } => (
            Some(shift),
            min(working_run, rules.working.cap()),
            min(shift_run, case.run_of_shift(shift).cap()),
        ),
    };
    State {
        last,
        run,
        shift_run,
        assignments: min(past.assignments, rules.total.cap()),
        weekends: min(past.weekends, rules.weekends),
    }
}

// ---- a transition

#[tactic(auto, unfolding(crate::specs::Transition::next_of))]
#[inline(always)]
pub(crate) fn next_of(
    case: &Case,
    nurse: usize,
    rules: ContractRules,
    day: u16,
    state: State,
    shift: Option<Shift>,
) -> State
    requires { rules ≡ contract_of case.now nurse }
    ensures { result ≡ next_of case.now nurse day state shift }
{
    let (run, shift_run) = match shift {
        Some(shift) => (
            longer(working_run(state), rules.working),
            longer(open_shift_run(state, shift), case.run_of_shift(shift)),
        ),
        None => (longer(free_run(state), rules.free), 0),
    };
    let (assignments, weekends) = totals_after(rules, day, state, shift);
    State {
        last: shift,
        run,
        shift_run,
        assignments,
        weekends,
    }
}

/// What the day costs, without an assignment above the greatest total.
#[inline(always)]
pub(crate) fn cost_apart(
    case: &Case,
    nurse: usize,
    rules: ContractRules,
    day: u16,
    state: State,
    shift: Option<Shift>,
) -> u32
    requires rules { rules ≡ contract_of case.now nurse }
    requires last { IfSome state.last (λ s. s.0 < shift_count case.now) }
    requires shift { IfSome shift (λ s. s.0 < shift_count case.now) }
    ensures cost { result ≡ cost_apart case.now nurse day state shift }
    ensures within { result + assignment_weight ≤ most_of_transition }
{
    case.keeps_limits();
    runs_more(rules, state, shift)
        + shifts_more(case, state, shift)
        + split_more(rules, day, state, shift)
        + weekend_more(rules, day, state, shift)
}

/// S2, S3. The points for each missing or extra day of the runs of working days and of days off.
#[inline(always)]
pub(crate) fn runs_more(rules: ContractRules, state: State, shift: Option<Shift>) -> u32
    ensures cost { result ≡ working_run_weight * day_violations rules.working (working_run state)
        (is_some shift) + free_run_weight * day_violations rules.free (free_run state)
        (not (is_some shift)) }
    ensures within { result ≤ 65536 * (working_run_weight + free_run_weight) }
{
    let works = shift.is_some();
    let working = rules.working.day_violations(working_run(state), works);
    let free = rules.free.day_violations(free_run(state), !works);
    WORKING_RUN * working + FREE_RUN * free
}

/// S5. The points for a weekend that the day splits, if the contract wants whole weekends.
#[inline(always)]
pub(crate) fn split_more(rules: ContractRules, day: u16, state: State, shift: Option<Shift>) -> u32
    ensures cost { result ≡ (if rules.whole_weekends then split_weight * splits_more day
        (is_some state.last) (is_some shift) else 0) }
    ensures within { result ≤ split_weight }
{
    if !rules.whole_weekends {
        return 0;
    }
    SPLIT * splits_more(day, state.last.is_some(), shift.is_some())
}

/// The points for each missing or extra day of the runs of the shifts. The run of the last shift may end,
/// that of this one goes on or begins, and no other is open.
#[tactic(auto, using(crate::proofs::ShiftLaw::shifts_by_two))]
#[inline(always)]
fn shifts_more(case: &Case, state: State, shift: Option<Shift>) -> u32
    requires last { IfSome state.last (λ s. s.0 < shift_count case.now) }
    requires shift { IfSome shift (λ s. s.0 < shift_count case.now) }
    ensures cost { result ≡ shifts_more case.now state shift }
    ensures within { result ≤ 2 * 65536 * shift_run_weight }
{
    SHIFT_RUN * ended(case, state, shift) + SHIFT_RUN * worked(case, state, shift)
}

/// What the run of the last shift misses if it ends.
#[inline(always)]
pub(crate) fn ended(case: &Case, state: State, shift: Option<Shift>) -> u32
    ensures violations { result ≡ ended (run_of_shift case.now) state.last state.shift_run shift }
    ensures within { result ≤ 65536 }
{
    match state.last {
        Some(last) if shift != Some(last) => {
            case.run_of_shift(last)
                .day_violations(state.shift_run as u32, false)
        }
        _ => 0,
    }
}

/// 1 if the worked shift is an extra day of its run.
#[inline(always)]
fn worked(case: &Case, state: State, shift: Option<Shift>) -> u32
    ensures violations { result ≡ worked (run_of_shift case.now) state.last state.shift_run shift }
    ensures within { result ≤ 65536 }
{
    match shift {
        Some(shift) => case
            .run_of_shift(shift)
            .day_violations(open_shift_run(state, shift), true),
        None => 0,
    }
}

// ---- the runs that are open

pub(crate) fn working_run(state: State) -> u32
    ensures run { result ≡ working_run state }
    ensures within { result ≤ 65535 }
{
    match state.last {
        Some(_) => state.run as u32,
        None => 0,
    }
}

fn free_run(state: State) -> u32
    ensures run { result ≡ free_run state }
    ensures within { result ≤ 65535 }
{
    match state.last {
        Some(_) => 0,
        None => state.run as u32,
    }
}

pub(crate) fn open_shift_run(state: State, shift: Shift) -> u32
    ensures run { result ≡ open_shift_run state shift.0 }
    ensures within { result ≤ 65535 }
{
    match state.last {
        Some(last) if last.0 == shift.0 => state.shift_run as u32,
        _ => 0,
    }
}

/// A run with one more day, up to its cap.
pub(crate) fn longer(run: u32, limits: Limits) -> u16
    requires { run ≤ 65535 }
    ensures { result ≡ min (run + 1) (cap limits) }
{
    min(run + 1, limits.cap() as u32) as u16
}

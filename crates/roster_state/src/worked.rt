//! A worked day, whatever the shift: what is the same for all shifts is computed once.

ghost use Rattle.std.specs.Prelude.{◌≡◌, ◌+◌, ◌*◌, ◌<◌, ◌≤◌, ◌-◌, true, IfSome, None, Some, is_some};
ghost use Rattle.roster_bundle.specs.Limits.{greatest_u64};
ghost use Rattle.roster_instance.specs.Meaning.{run_of_shift, shift_count};
ghost use Rattle.roster_rules.specs.Weights.{shift_run_weight};
ghost use Rattle.roster_state.specs.Codes.{fits_sizes, sizes_of};
ghost use Rattle.roster_state.specs.MostCosts.{most_of_transition};
ghost use Rattle.roster_state.specs.Transition.{ended, shifts_more, transition_of, with_assignments};
ghost use Rattle.roster_state.specs.Spans.{AreSpanTransitions, IsAlike};
ghost use Rattle.roster_state.specs.Worked.{IsWorkedDay};

use crate::days::NurseDays;
use crate::meter::Meter;
use crate::span::Span;
use crate::state::State;
use crate::totals::{assignment_more, totals_after, weekend_more};
use crate::transition::{
    ended, longer, open_shift_run, runs_more, split_more, transition, working_run,
};
use roster_instance::{Case, Shift};
use roster_rules::weights::SHIFT_RUN;

/// What a worked day brings to a state, whatever the shift. Its cost is read in this crate alone: other
/// crates get the cost of a transition from `extend` or `extend_span`, which count it.
#[derive(Clone, Copy)]
pub struct WorkedDay {
    /// The run of working days after it.
    pub(crate) run: u16,
    /// The assignments after it.
    pub assignments: u16,
    /// The worked weekends after it.
    pub weekends: u16,
    /// What it costs in penalty points, but for the runs of shifts.
    pub(crate) cost: u32,
    /// What the run of the last shift misses, in penalty points, if it ends.
    pub(crate) left: u32,
}

/// Any shift, for questions that depend only on whether one is worked.
const ANY: Option<Shift> = Some(Shift(0));

impl NurseDays<'_> {
    /// What a worked day brings to a state.
    #[inline(always)]
    pub fn worked(&self, day: u16, state: State) -> WorkedDay
        ensures worked { IsWorkedDay self.now.case.now self.now.nurse day state result }
    {
        let NurseDays { case, rules, .. } = *self;
        case.keeps_limits();
        let (assignments, weekends) = totals_after(rules, day, state, ANY);
        WorkedDay {
            run: longer(working_run(state), rules.working),
            assignments,
            weekends,
            cost: runs_more(rules, state, ANY)
                + split_more(rules, day, state, ANY)
                + weekend_more(rules, day, state, ANY)
                + assignment_more(rules.total, state.assignments as u32),
            left: SHIFT_RUN * ended(case, state, None),
        }
    }

    /// What a worked day brings to the first state of a span.
    #[inline(always)]
    pub fn worked_span(&self, day: u16, span: &Span) -> WorkedDay
        requires places { span.now.begin
            < (sizes_of self.now.case.now self.now.nurse).assignments }
        ensures { IsWorkedDay self.now.case.now self.now.nurse day
            (with_assignments span.now.block span.now.begin) result }
    {
        self.case.keeps_limits();
        self.worked(day, span.block.state(span.begin as u16))
    }

    /// The state after one more day, on which the nurse works this shift or is off, and what the day costs.
    /// What a worked day brings to the state is passed in. None exactly if the last shift forbids the next.
    /// Either way the meter counts one.
    #[inline(always)]
    pub fn extend(
        &self,
        day: u16,
        state: State,
        worked: &WorkedDay,
        shift: Option<Shift>,
        meter: &mut Meter,
    ) -> Option<(State, u32)>
        requires shift { IfSome shift (λ s. s.0 < shift_count self.now.case.now) }
        requires fits { fits_sizes (sizes_of self.now.case.now self.now.nurse) state ≡ true }
        requires worked { IsWorkedDay self.now.case.now self.now.nurse day state worked.now }
        requires room { meter.old < greatest_u64 }
        ensures counted { meter.new ≡ meter.old + 1 }
        ensures next { result ≡ transition_of self.now.case.now self.now.nurse day state shift }
        ensures next_fits { IfSome result (λ transition. fits_sizes
            (sizes_of self.now.case.now self.now.nurse) transition.0 ≡ true) }
        ensures within { IfSome result (λ transition. transition.1 ≤ most_of_transition) }

        // What a worked day brings is in the state after it.
        ensures works { is_some shift ≡ true → IfSome result
            (λ transition. (transition.0.assignments ≡ worked.now.assignments)
            × (transition.0.weekends ≡ worked.now.weekends)) }
    {
        meter.add(1);
        self.transition(day, state, worked, shift)
    }

    /// One more day, on which the nurse works this shift or is off, from all states of a span that the day
    /// treats alike. What a worked day brings to the first state is passed in. The result is the state to
    /// which the day leads from the first place of the first strip, and what it costs. From each other state
    /// it costs the same, and leads to the state that is as many worked weekends and assignments further.
    /// None exactly if the last shift forbids the next. Either way the meter counts one for each state.
    #[inline(always)]
    pub fn extend_span(
        &self,
        day: u16,
        span: &Span,
        worked: &WorkedDay,
        shift: Option<Shift>,
        meter: &mut Meter,
    ) -> Option<(State, u32)>
        requires shift { IfSome shift (λ s. s.0 < shift_count self.now.case.now) }
        requires fits { fits_sizes (sizes_of self.now.case.now self.now.nurse)
            span.now.block ≡ true }
        requires places { span.now.begin
            < (sizes_of self.now.case.now self.now.nurse).assignments }
        requires alike { IsAlike self.now.case.now self.now.nurse day span.now.block
            span.now.strips span.now.begin span.now.end }
        requires worked { IsWorkedDay self.now.case.now self.now.nurse day
            (with_assignments span.now.block span.now.begin) worked.now }
        requires room { meter.old + span.now.strips
            * (span.now.end - span.now.begin) ≤ greatest_u64 }
        ensures counted { meter.new ≡ meter.old + span.now.strips
            * (span.now.end - span.now.begin) }
        ensures transitions { AreSpanTransitions self.now.case.now self.now.nurse day span.now shift
            result }
        ensures next_fits { IfSome result (λ transition. fits_sizes
            (sizes_of self.now.case.now self.now.nurse) transition.0 ≡ true) }
        ensures within { IfSome result (λ transition. transition.1 ≤ most_of_transition) }
    {
        self.case.keeps_limits();
        let places = span.end.saturating_sub(span.begin);
        meter.add(span.strips as u64 * places as u64);
        let first = span.block.state(span.begin as u16);
        self.transition(day, first, worked, shift)
    }

    /// The transition from a state by a shift or a day off. It counts nothing.
    #[inline(always)]
    fn transition(
        &self,
        day: u16,
        state: State,
        worked: &WorkedDay,
        shift: Option<Shift>,
    ) -> Option<(State, u32)>
        requires shift { IfSome shift (λ s. s.0 < shift_count self.now.case.now) }
        requires fits { fits_sizes (sizes_of self.now.case.now self.now.nurse) state ≡ true }
        requires worked { IsWorkedDay self.now.case.now self.now.nurse day state worked.now }
        ensures next { result ≡ transition_of self.now.case.now self.now.nurse day state shift }
        ensures next_fits { IfSome result (λ transition. fits_sizes
            (sizes_of self.now.case.now self.now.nurse) transition.0 ≡ true) }
        ensures within { IfSome result (λ transition. transition.1 ≤ most_of_transition) }
        ensures works { is_some shift ≡ true → IfSome result
            (λ transition. (transition.0.assignments ≡ worked.now.assignments)
            × (transition.0.weekends ≡ worked.now.weekends)) }
    {
        match shift {
            Some(shift) => self.transition_worked(day, state, worked, shift),
            None => self.transition_off(day, state),
        }
    }

    /// The same for a worked shift.
    #[inline(always)]
    fn transition_worked(
        &self,
        day: u16,
        state: State,
        worked: &WorkedDay,
        shift: Shift,
    ) -> Option<(State, u32)>
        requires shift { shift.0 < shift_count self.now.case.now }
        requires fits { fits_sizes (sizes_of self.now.case.now self.now.nurse) state ≡ true }
        requires worked { IsWorkedDay self.now.case.now self.now.nurse day state worked.now }
        ensures next { result ≡ transition_of self.now.case.now self.now.nurse day state
            (Some shift) }
        ensures next_fits { IfSome result (λ transition. fits_sizes
            (sizes_of self.now.case.now self.now.nurse) transition.0 ≡ true) }
        ensures within { IfSome result (λ transition. transition.1 ≤ most_of_transition) }
        ensures works { IfSome result (λ transition.
            (transition.0.assignments ≡ worked.now.assignments) ×
            (transition.0.weekends ≡ worked.now.weekends)) }
    {
        let case = self.case;
        case.keeps_limits();
        if case.forbids_next(state.last, Some(shift)) {
            return None;
        }
        let run = open_shift_run(state, shift);
        let next = State {
            last: Some(shift),
            run: worked.run,
            shift_run: longer(run, case.run_of_shift(shift)),
            assignments: worked.assignments,
            weekends: worked.weekends,
        };
        Some((
            next,
            worked.cost + shift_cost(case, state, worked.left, shift),
        ))
    }

    /// The same for a day off. The two arms are compiled separately, for a day off after a worked day and
    /// after another day off.
    #[inline(always)]
    fn transition_off(&self, day: u16, state: State) -> Option<(State, u32)>
        requires fits { fits_sizes (sizes_of self.now.case.now self.now.nurse) state ≡ true }
        ensures next { result ≡ transition_of self.now.case.now self.now.nurse day state None }
        ensures next_fits { IfSome result (λ transition. fits_sizes
            (sizes_of self.now.case.now self.now.nurse) transition.0 ≡ true) }
        ensures within { IfSome result (λ transition. transition.1 ≤ most_of_transition) }
    {
        let NurseDays { case, nurse, rules } = *self;
        match state.last {
            Some(_) => transition(case, nurse, rules, day, state, None),
            None => transition(case, nurse, rules, day, state, None),
        }
    }
}

/// The points for the runs of shifts, if a shift is worked: the run of the last one goes on, or it ends and
/// one of another begins.
#[inline(always)]
fn shift_cost(case: &Case, state: State, left: u32, shift: Shift) -> u32
    requires last { IfSome state.last (λ s. s.0 < shift_count case.now) }
    requires shift { shift.0 < shift_count case.now }
    requires left { left ≡ shift_run_weight * ended (run_of_shift case.now) state.last
        state.shift_run None }
    requires small { left ≤ 65536 * shift_run_weight }
    ensures cost { result ≡ shifts_more case.now state (Some shift) }
    ensures within { result ≤ 2 * 65536 * shift_run_weight }
{
    let limits = case.run_of_shift(shift);
    match state.last {
        Some(last) if last.0 == shift.0 => {
            SHIFT_RUN * limits.day_violations(state.shift_run as u32, true)
        }
        _ => left + SHIFT_RUN * limits.day_violations(0, true),
    }
}

//! The completion bounds after a worked day.

ghost use Rattle.std.specs.Prelude.{◌≡◌, ◌+◌, ◌*◌, ◌<◌, ◌≤◌, length};
ghost use Rattle.roster_bundle.specs.Limits.{greatest_u64};
ghost use Rattle.roster_instance.specs.Meaning.{run_of_shift, shift_count};
ghost use Rattle.roster_rules.specs.Weights.{shift_run_weight};
ghost use Rattle.roster_state.specs.CompletionLines.{most_completion_bound, most_leave, most_weight};
ghost use Rattle.roster_completion.specs.Lines.{AreOnward, AreSet, IsAfterShift, IsLeave, IsUnderWays, UnderLine, UnderLines, extensions_of, work_ends, work_goes_on};

use crate::completion_day::CompletionDay;
use crate::ways::{MOST_LEAVE, Onward, Ways, least_way, ways_after};
use roster_instance::Shift;
use roster_offers::MOST_OFFERS;
use roster_rules::weights::{FREE_RUN, SHIFT_RUN, WORKING_RUN};
use roster_state::{LineCosts, Meter, fill_line, set_line};

/// What can follow a last shift: the ways on, and what a day off costs with the completion bound after it.
#[derive(Clone, Copy)]
pub(crate) struct AfterShift {
    pub(crate) last: Shift,
    pub(crate) ways: Ways,
    pub(crate) off: u32,
}

/// Sets the completion bounds after a last shift: a line for each run of working days.
pub(crate) fn set_after_shift(
    day: &CompletionDay<'_, '_>,
    onwards: &[Onward; MOST_OFFERS],
    last: Shift,
    here: &mut [u32],
    meter: &mut Meter,
)
    requires onwards { AreOnward day.now onwards.now }
    requires last { last.0 < shift_count day.now.case.now }
    requires capacity { length here.old ≡ day.now.runs * day.now.shift_runs }
    requires extensions { meter.old + extensions_of day.now here.old ≤ greatest_u64 }
    ensures under { UnderLines day.now (last.0 + 1) here.new }
    ensures set { AreSet day.now here.old here.new meter.old meter.new }
{
    let after = after_shift(day, onwards, last);
    for run in 0..day.runs {
        let first = run * day.shift_runs;
        set_run(
            day,
            &after,
            run,
            &mut here[first..first + day.shift_runs],
            meter,
        );
    }
}

/// What can follow a last shift on a day.
#[inline(always)]
fn after_shift(
    day: &CompletionDay<'_, '_>,
    onwards: &[Onward; MOST_OFFERS],
    last: Shift,
) -> AfterShift
    requires onwards { AreOnward day.now onwards.now }
    requires last { last.0 < shift_count day.now.case.now }
    ensures after { IsAfterShift day.now result }
    ensures last { result.last ≡ last }
{
    let ways = ways_after(day, onwards, last);
    let free = day.rules.free;
    let first = (free.cap() as usize).min(1) * day.shift_runs;
    AfterShift {
        last,
        ways,
        off: ways.off + day.goes_on(FREE_RUN, free, 0) + day.next[first],
    }
}

/// Sets a line: the completion bounds after a last shift with one run of working days.
#[inline(always)]
fn set_run(
    day: &CompletionDay<'_, '_>,
    after: &AfterShift,
    run: usize,
    here: &mut [u32],
    meter: &mut Meter,
)
    requires after { IsAfterShift day.now after.now }
    requires run { run < day.now.runs }
    requires capacity { length here.old ≡ day.now.shift_runs }
    requires extensions { meter.old + extensions_of day.now here.old ≤ greatest_u64 }
    ensures under { UnderLine day.now (after.now.last.0 + 1) run here.new }
    ensures set { AreSet day.now here.old here.new meter.old meter.new }
{
    let offers = day.offers.len();
    let most = day.rules.working.cap() as usize;
    // After a worked day the run has at least one day and goes no further than its cap. No row reaches the
    // other lines, unless a history does, so 0 is a lower bound there.
    if (run == 0 && 0 < most) || most < run {
        fill_line(0, offers, here, meter);
        return;
    }
    let costs = run_costs(day, after, run);
    let to = (run + 1).min(most);
    let first = ((after.last.0 as usize + 1) * day.runs + to) * day.shift_runs;
    let next = &day.next[first..first + day.shift_runs];
    set_line(costs, offers, next, here, meter);
}

/// The costs by which the line of a run of working days is set.
#[inline(always)]
fn run_costs(day: &CompletionDay<'_, '_>, after: &AfterShift, run: usize) -> LineCosts
    requires after { IsAfterShift day.now after.now }
    requires run { run < day.now.runs }
    ensures off { result.leave ≤ after.now.off + work_ends day.now run }
    ensures others { IsUnderWays day.now after.now run result.leave }
    ensures met { IsLeave day.now after.now run result.leave }
    ensures stay { result.stay ≡ after.now.ways.stay + work_goes_on day.now run }
    ensures run { result.run ≡ run_of_shift day.now.case.now after.now.last.0 }
    ensures weight { result.weight ≡ day.now.scale * shift_run_weight }
    ensures within { (result.leave ≤ most_leave) × (result.stay ≤ most_completion_bound) }
    ensures light { result.weight ≤ most_weight }
{
    let working = day.rules.working;
    let most = working.cap() as usize;
    let to = (run + 1).min(most) * day.shift_runs;
    let more = day.goes_on(WORKING_RUN, working, run as u32);
    let ended = day.ends(WORKING_RUN, working, run as u32);
    let others = least_way(&after.ways, to, day.next);
    // The run of the shift is no longer than the run of working days, unless that one is at its cap.
    let count = if run < most { run + 1 } else { day.shift_runs };
    LineCosts {
        run: day.case.run_of_shift(after.last),
        weight: day.parts(SHIFT_RUN),
        leave: (others + more).min(after.off + ended).min(MOST_LEAVE),
        stay: after.ways.stay + more,
        count,
    }
}

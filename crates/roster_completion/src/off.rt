//! The completion bounds after a day off.

ghost use Rattle.std.specs.Prelude.{◌≡◌, ◌+◌, ◌*◌, ◌<◌, ◌≤◌, ℕ, length, slice_index_or};
ghost use Rattle.roster_bundle.specs.Limits.{greatest_u64};
ghost use Rattle.roster_instance.specs.Meaning.{shift_count};
ghost use Rattle.roster_offers.specs.Lists.{IsOfferAt};
ghost use Rattle.roster_state.specs.CompletionLines.{most_completion_bound, most_leave};
ghost use Rattle.roster_completion.specs.Lines.{AreSet, IsAfterOff, IsEntryAt, IsOffCompletionBound, UnderLines, entry_cost, extensions_of};

use crate::completion_day::CompletionDay;
use crate::ways::{MOST_LEAVE, apart, way_to};
use roster_instance::Shift;
use roster_offers::Offer;
use roster_rules::weights::{FREE_RUN, WORKING_RUN};
use roster_state::{Meter, fill_line};

/// What can follow a day off: the least cost of a shift that begins, with the completion bound after it, and
/// the least cost of another day off.
#[derive(Clone, Copy)]
pub(crate) struct AfterOff {
    pub(crate) enter: u32,
    pub(crate) off: u32,
}

/// Sets the completion bounds after a day off: for each run of days off a line, all of whose cells have the
/// same value.
pub(crate) fn set_after_off(day: &CompletionDay<'_, '_>, here: &mut [u32], meter: &mut Meter)
    requires capacity { length here.old ≡ day.now.runs * day.now.shift_runs }
    requires extensions { meter.old + extensions_of day.now here.old ≤ greatest_u64 }
    ensures under { UnderLines day.now 0 here.new }
    ensures set { AreSet day.now here.old here.new meter.old meter.new }
{
    let after = after_off(day);
    for run in 0..day.runs {
        let first = run * day.shift_runs;
        let completion_bound = off_completion_bound(day, &after, run);
        set_off(
            day,
            completion_bound,
            &mut here[first..first + day.shift_runs],
            meter,
        );
    }
}

/// Sets a line: the completion bounds after a day off with one run of days off. The meter counts all of them,
/// those that no row reaches too.
#[inline(always)]
fn set_off(day: &CompletionDay<'_, '_>, completion_bound: u32, here: &mut [u32], meter: &mut Meter)
    requires completion_bound { completion_bound ≤ most_completion_bound }
    requires extensions { meter.old + extensions_of day.now here.old ≤ greatest_u64 }
    ensures all { (q : ℕ) → q < length here.new → slice_index_or here.new q 0 ≡ completion_bound }
    ensures set { AreSet day.now here.old here.new meter.old meter.new }
{
    fill_line(completion_bound, day.offers.len(), here, meter);
}

/// What can follow a day off, by the offers of the day.
fn after_off(day: &CompletionDay<'_, '_>) -> AfterOff
    ensures after { IsAfterOff day.now result }
{
    let mut after = AfterOff {
        enter: MOST_LEAVE,
        off: MOST_LEAVE,
    };
    for index in 0..day.offers.len() {
        add_entry(&mut after, day, index);
    }
    after
}

/// Takes one more offer into account.
fn add_entry(after: &mut AfterOff, day: &CompletionDay<'_, '_>, index: usize)
    requires index { index < length day.now.offers.now }
    ensures entry { IsEntryAt day.now after.new index }
    ensures lower { (after.new.off ≤ after.old.off) × (after.new.enter ≤ after.old.enter) }
{
    let offer = day.offers[index];
    match offer.choice.shift() {
        None => after.off = after.off.min(apart(day, false, offer)),
        Some(shift) => after.enter = after.enter.min(entry(day, offer, shift)),
    }
}

/// The cost of a shift that begins after a day off, with the completion bound after it.
fn entry(day: &CompletionDay<'_, '_>, offer: Offer, shift: Shift) -> u32
    requires offer { IsOfferAt day.now.case.now day.now.scale offer }
    requires shift { shift.0 < shift_count day.now.case.now }
    ensures cost { result ≤ entry_cost day.now offer shift }
{
    let working = day.rules.working;
    let way = way_to(day, false, offer, shift);
    let to = (working.cap() as usize).min(1) * day.shift_runs;
    way.price + day.goes_on(WORKING_RUN, working, 0) + day.next[way.index as usize + to]
}

/// The completion bound after a run of days off.
fn off_completion_bound(day: &CompletionDay<'_, '_>, after: &AfterOff, run: usize) -> u32
    requires run { run < day.now.runs }
    requires after { IsAfterOff day.now after.now }
    ensures completion_bound { IsOffCompletionBound day.now after.now run result }
    ensures within { result ≤ most_leave }
{
    let free = day.rules.free;
    let to = (run + 1).min(free.cap() as usize) * day.shift_runs;
    let more = day.goes_on(FREE_RUN, free, run as u32);
    let ended = day.ends(FREE_RUN, free, run as u32);
    let enter = (after.enter + ended).min(MOST_LEAVE);
    enter.min(after.off + more + day.next[to])
}

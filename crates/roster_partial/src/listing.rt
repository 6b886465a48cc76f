//! The rows within a limit, one after another.
//!
//! A walk goes over the days, depth first: it extends a partial row by the next offer of its day, and returns
//! to the day before if there is none. It leaves out each partial row whose cost and completion bound
//! together exceed the limit. Other than in a search, no partial row is left out for one that leads to the
//! same state, since all rows are wanted. So a walk keeps one partial row alone.

ghost use Rattle.std.specs.Prelude.{◌≡◌, ◌+◌, ◌<◌, ◌≤◌, IfSome, length, true};
ghost use Rattle.roster_bundle.specs.Limits.{greatest_u64};
ghost use Rattle.roster_instance.specs.Meaning.{shift_count};
ghost use Rattle.roster_offers.specs.Listed.{KeepsList};
ghost use Rattle.roster_partial.specs.Rates.{AreSetAt};
ghost use Rattle.roster_partial.specs.Searches.{days_in};

use crate::guesses::Guesses;
use crate::limited::Bounded;
use crate::rates::set_best_bounds;
use roster_completion::{CompletionBounds, Rates, at_least};
use roster_instance::{Case, Shift};
use roster_offers::{ListLimits, Offer, RowList, SearchInput, WalkDay};
use roster_state::{Meter, end_cost, extend, start};

/// Lists the rows of a search that cost at most a limit. The completion bounds are set in these cells.
/// Returns false if the list is full or extensions run out.
pub(crate) fn list_rows(
    search: &SearchInput<'_>,
    limits: ListLimits,
    guesses: &Guesses,
    cells: &mut [u32],
    list: &mut RowList,
    meter: &mut Meter,
) -> bool
    requires room { meter.old + limits.extensions ≤ greatest_u64 }
    ensures kept { KeepsList list.old list.new }
    ensures few { list.new.held ≤ length list.new.costs.items }
    ensures counted { (meter.old ≤ meter.new) × (meter.new ≤ meter.old + limits.extensions) }
{
    let (state, _) = start(search.case, search.nurse);
    list.begin(state);
    let bounded = Bounded {
        search: *search,
        last_count: meter.count() + limits.extensions,
    };
    let guess = guesses.of(search);
    let Some(best) = set_best_bounds(&bounded, guess, cells, meter) else {
        return false;
    };
    walk_with(&bounded, best.rates, limits.cost, cells, list, meter)
}

/// The same once the completion bounds are set at these rates.
fn walk_with(
    bounded: &Bounded<'_>,
    rates: Rates,
    limit: u32,
    cells: &[u32],
    list: &mut RowList,
    meter: &mut Meter,
) -> bool
    requires set { AreSetAt bounded.now.search rates cells.now }
    requires room { meter.old ≤ bounded.now.last_count }
    requires few { list.old.held ≤ length list.old.costs.items }
    ensures kept { KeepsList list.old list.new }
    ensures few { list.new.held ≤ length list.new.costs.items }
    ensures counted { (meter.old ≤ meter.new) × (meter.new ≤ bounded.now.last_count) }
{
    let SearchInput {
        case,
        nurse,
        scale,
        offers,
    } = bounded.search;
    // (The search is copied, since the completion bounds are borrowed for a shorter time.)
    let here = SearchInput {
        case,
        nurse,
        scale,
        offers,
    };
    let walk = Walk {
        completion_bounds: CompletionBounds::of(&here, rates, cells),
        limit,
    };
    walk_days(&walk, bounded.last_count, list, meter)
}

/// A walk that lists the rows that cost at most a limit, with completion bounds for the rest of a row.
#[derive(Clone, Copy)]
struct Walk<'a> {
    completion_bounds: CompletionBounds<'a>,
    limit: u32,
}

/// Lists rows until there is none left, the list is full, or the meter may count no more. Returns whether
/// there is none left.
fn walk_days(walk: &Walk<'_>, last_count: u64, list: &mut RowList, meter: &mut Meter) -> bool
    requires room { meter.old ≤ last_count }
    requires few { list.old.held ≤ length list.old.costs.items }
    ensures kept { KeepsList list.old list.new }
    ensures few { list.new.held ≤ length list.new.costs.items }
    ensures counted { (meter.old ≤ meter.new) × (meter.new ≤ last_count) }
{
    let days = walk.completion_bounds.search.case.days();
    let mut day: u16 = 0;
    'turns: for _turn in meter.count()..last_count {
        if day >= days {
            return false;
        }
        match take_turn(walk, day, list, meter) {
            Turn::Onward => day += 1,
            Turn::Back => {
                if day == 0 {
                    return true;
                }
                day -= 1;
            }
            Turn::Stay => {}
            Turn::Full => return false,
        }
    }
    false
}

/// What comes after a turn of a walk.
#[derive(Clone, Copy, PartialEq, Eq)]
enum Turn {
    /// The next day.
    Onward,
    /// The day before: this one has no offer left.
    Back,
    /// The next offer of the same day.
    Stay,
    /// Nothing: the list is full.
    Full,
}

/// Extends the partial row of a day by the next offer of the day, and lists the row if that was the last day.
fn take_turn(walk: &Walk<'_>, day: u16, list: &mut RowList, meter: &mut Meter) -> Turn
    requires day { day < days_in walk.now.completion_bounds.search }
    requires room { meter.old < greatest_u64 }
    ensures kept { KeepsList list.old list.new }
    ensures counted { (meter.old ≤ meter.new) × (meter.new ≤ meter.old + 1) }
{
    walk.completion_bounds.search.case.keeps_limits();
    let here = list.walk_day(day);
    let Some(offer) = next_offer(walk, day, here.next) else {
        return Turn::Back;
    };
    let after = WalkDay {
        next: here.next.saturating_add(1),
        ..here
    };
    list.enter(day, after);
    let Some(onward) = extend_within(walk, day, here, offer, meter) else {
        return Turn::Stay;
    };
    if day + 1 < walk.completion_bounds.days {
        list.enter(day + 1, onward);
        return Turn::Onward;
    }
    match cost_with_end(walk, onward) {
        Some(cost) if !list.list_walk(cost) => Turn::Full,
        _ => Turn::Stay,
    }
}

/// The offer of a day at this index, or none if there are no more.
fn next_offer(walk: &Walk<'_>, day: u16, index: u8) -> Option<Offer> {
    let offers = walk.completion_bounds.search.offers;
    let (day, index) = (day as usize, index as usize);
    if day < offers.len() && index < offers[day].len() {
        Some(offers[day][index])
    } else {
        None
    }
}

/// The partial row of one day more, or none if the offer may not follow, or if the row would cost more than
/// the limit.
fn extend_within(
    walk: &Walk<'_>,
    day: u16,
    here: WalkDay,
    offer: Offer,
    meter: &mut Meter,
) -> Option<WalkDay>
    requires day { day < days_in walk.now.completion_bounds.search }
    requires room { meter.old < greatest_u64 }
    ensures counted { (meter.old ≤ meter.new) × (meter.new ≤ meter.old + 1) }
{
    let bounds = &walk.completion_bounds;
    let SearchInput {
        case,
        nurse,
        scale,
        ..
    } = bounds.search;
    case.keeps_limits();
    let shift = offer.choice.shift();
    if !here.state.fits(&bounds.ranges) || !has_shift(case, shift) {
        return None;
    }
    let (state, more) = extend(case, nurse, day, here.state, shift, meter)?;
    let cost = here
        .cost
        .saturating_add(offer.price)
        .saturating_add(scale.saturating_mul(more));
    let least = at_least(bounds, day + 1, &state);
    if cost as u64 + least as u64 > walk.limit as u64 {
        return None;
    }
    Some(WalkDay {
        state,
        cost,
        next: 0,
    })
}

/// What a partial row of all days costs with what is missing at the end, or none if that is more than the
/// limit.
fn cost_with_end(walk: &Walk<'_>, last: WalkDay) -> Option<u32> {
    let search = &walk.completion_bounds.search;
    if !last.state.fits(&walk.completion_bounds.ranges) {
        return None;
    }
    let missing = end_cost(search.case, search.nurse, last.state);
    let cost = last
        .cost
        .saturating_add(search.scale.saturating_mul(missing));
    (cost <= walk.limit).then_some(cost)
}

/// Whether a shift, if there is one, is one of the case's.
fn has_shift(case: &Case, shift: Option<Shift>) -> bool
    ensures { result ≡ true → IfSome shift (λ s. s.0 < shift_count case.now) }
{
    match shift {
        Some(shift) => shift.0 < case.shifts(),
        None => true,
    }
}

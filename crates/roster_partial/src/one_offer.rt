//! One partial row and one offer.

ghost use Rattle.std.specs.Prelude.{◌≡◌, ◌+◌, ◌<◌, ◌≤◌, ℕ, List, Some, length, true, false, is_some};
ghost use Rattle.roster_bundle.specs.Limits.{greatest_u64};
ghost use Rattle.roster_offers.specs.Cheapest.{cheaper};
ghost use Rattle.roster_offers.specs.declared.offer.Offer.{Offer};
ghost use Rattle.roster_state.specs.Codes.{shift_digit};
ghost use Rattle.roster_partial.specs.Rates.{FitsNurse};
ghost use Rattle.roster_partial.specs.Rows.{IsEntryOf, best_of, count_in, earlier_in, rows_in};
ghost use Rattle.roster_partial.specs.Searches.{ArePut, IsAfterWork, IsAdjustmentIn, IsRowExtension, best_of_extension, best_onward, best_put, days_after, days_in};

use crate::limited::LimitedSearch;
use crate::rows::{
    Entry, INDICES, Link, REMAINDERS, RecentRows, drop_dominated, push_row, row_count,
};
use roster_completion::{Adjustment, adjustment_for, at_least_adjusted};
use roster_instance::Shift;
use roster_offers::SearchInput;
use roster_state::{Meter, NurseDays, State, WorkedDay};

/// A day by whose offers partial rows are extended: its number, and the index in the list at which the
/// partial rows of the day after it begin.
#[derive(Clone, Copy)]
pub struct RowsDay {
    pub day: u16,
    pub end: usize,
}

/// What is the same for all shifts that are worked on a day: what the worked day brings, and the adjustment
/// of the completion bound after it.
#[derive(Clone, Copy)]
pub struct AfterWork {
    pub worked: WorkedDay,
    pub adjustment: Adjustment,
}

/// Computes what is the same for all shifts that are worked on a day after a state.
#[inline(always)]
pub fn after_work(limited: &LimitedSearch<'_>, day: u16, state: State) -> AfterWork
    requires day { day < days_in limited.now.completion_bounds.search }
    ensures { IsAfterWork limited.now day state result }
{
    let SearchInput { case, nurse, .. } = limited.completion_bounds.search;
    case.keeps_limits();
    let days = NurseDays {
        case,
        nurse,
        rules: limited.rules,
    };
    let worked = days.worked(day, state);
    AfterWork {
        worked,
        adjustment: adjustment_for(
            &limited.completion_bounds,
            day + 1,
            worked.assignments,
            worked.weekends,
        ),
    }
}

/// The adjustment of the completion bound after a day on which this shift is worked, or none.
#[inline(always)]
fn adjustment_after(
    limited: &LimitedSearch<'_>,
    day: u16,
    work: &AfterWork,
    shift: Option<Shift>,
    state: &State,
) -> Adjustment
    requires day { day ≤ days_in limited.now.completion_bounds.search }
    requires fits { FitsNurse limited.now.completion_bounds.search state.now }
    requires worked { is_some shift ≡ true →
        IsAdjustmentIn limited.now day state.now work.now.adjustment }
    ensures { IsAdjustmentIn limited.now day state.now result }
{
    let bounds = &limited.completion_bounds;
    match shift {
        Some(_) => work.adjustment,
        None => adjustment_for(bounds, day, state.assignments(), state.weekends()),
    }
}

/// Whether a partial row is pruned: its cost with its completion bound is above the limit, so each row that
/// begins with it costs more than the limit.
#[inline(always)]
fn is_pruned(
    limited: &LimitedSearch<'_>,
    day: u16,
    state: &State,
    cost: u32,
    adjustment: &Adjustment,
) -> bool
    requires day { day ≤ days_in limited.now.completion_bounds.search }
    requires fits { FitsNurse limited.now.completion_bounds.search state.now }
    requires adjustment { IsAdjustmentIn limited.now day state.now adjustment.now }
    ensures pruned { result ≡ true → (rest : ℕ) (row : List Offer) →
        best_onward limited.now day state.now ≡ Some (rest, row) → limited.now.limit < cost + rest }
    ensures low { result ≡ false → cost ≤ limited.now.limit }
{
    let least = at_least_adjusted(&limited.completion_bounds, day, state, adjustment);
    cost as u64 + least as u64 > limited.limit as u64
}

/// A partial row and how it is extended: its state, the cost of its days, its link, and what is the same for
/// all shifts.
#[derive(Clone, Copy)]
pub struct RowExtension {
    pub state: State,
    pub cost: u32,
    pub link: Link,
    pub work: AfterWork,
}

/// Appends a partial row to those of its day, unless another one dominates it. Returns false if the list is
/// full.
#[inline(always)]
fn put(
    limited: &LimitedSearch<'_>,
    at: RowsDay,
    more: &Entry,
    rows: &mut [u32],
    recent: &mut RecentRows,
) -> bool
    requires entry { IsEntryOf (days_after limited.now at rows.old) more.now }
    requires offer { more.now.offer < 16 }
    requires last { shift_digit more.now.state.last < 16 }
    requires rows { ArePut limited.now at rows.old }
    ensures rows { ArePut limited.now at rows.new }
    ensures front { earlier_in rows.new at.end ≡ earlier_in rows.old at.end }
    ensures few { length (rows_in rows.new) ≤ length (rows_in rows.old) + 1 }
    ensures best { result ≡ true → best_put limited.now at rows.new
        ≡ cheaper (best_put limited.now at rows.old)
        (best_of (days_after limited.now at rows.old) more.now) }
    ensures full { result ≡ false → count_in rows.new ≡ limited.now.row_limit }
{
    let bucket = more.state.code(&limited.completion_bounds.ranges) as usize % REMAINDERS;
    let index = recent[bucket] as usize;
    if drop_dominated(rows, at.end, index, more) {
        return true;
    }
    let end = row_count(rows);
    if end >= limited.row_limit {
        return false;
    }
    push_row(rows, more);
    recent[bucket] = ((end - at.end) % INDICES) as u16;
    true
}

/// Extends a partial row by an offer of its day, and appends the longer one to the list, unless the offer is
/// forbidden, or the longer row is pruned or dominated. Returns false if the list is full.
#[inline(always)]
pub fn extend_row(
    limited: &LimitedSearch<'_>,
    at: RowsDay,
    extension: RowExtension,
    rows: &mut [u32],
    recent: &mut RecentRows,
    meter: &mut Meter,
) -> bool
    requires day { at.day < days_in limited.now.completion_bounds.search }
    requires extension { IsRowExtension limited.now at (earlier_in rows.old at.end) extension }
    requires rows { ArePut limited.now at rows.old }
    requires room { meter.old < greatest_u64 }
    ensures rows { ArePut limited.now at rows.new }
    ensures front { earlier_in rows.new at.end ≡ earlier_in rows.old at.end }
    ensures few { length (rows_in rows.new) ≤ length (rows_in rows.old) + 1 }
    ensures best { result ≡ true → best_put limited.now at rows.new ≡ cheaper
        (best_put limited.now at rows.old) (best_of_extension limited.now at rows.old extension) }
    ensures counted { meter.new ≡ meter.old + 1 }
    ensures full { result ≡ false → count_in rows.new ≡ limited.now.row_limit }
{
    let SearchInput {
        case,
        nurse,
        scale,
        offers,
    } = limited.completion_bounds.search;
    case.keeps_limits();
    let day_offers = offers[at.day as usize].as_slice();
    let offer = day_offers[extension.link.offer];
    let shift = offer.choice.shift();
    let days = NurseDays {
        case,
        nurse,
        rules: limited.rules,
    };
    let worked = &extension.work.worked;
    let Some(transition) = days.extend(at.day, extension.state, worked, shift, meter) else {
        return true;
    };
    let cost = extension.cost + offer.price + scale * transition.1;
    let adjustment = adjustment_after(limited, at.day + 1, &extension.work, shift, &transition.0);
    if is_pruned(limited, at.day + 1, &transition.0, cost, &adjustment) {
        return true;
    }
    let more = Entry {
        state: transition.0,
        cost,
        before: extension.link.before as u32,
        offer: extension.link.offer as u8,
    };
    put(limited, at, &more, rows, recent)
}

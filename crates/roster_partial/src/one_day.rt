//! One day: each partial row of it is extended by each of its offers.

ghost use Rattle.std.specs.Prelude.{◌≡◌, ◌+◌, ◌-◌, ◌*◌, ◌<◌, ◌≤◌, false, length, true};
ghost use Rattle.roster_bundle.specs.Limits.{greatest_u64};
ghost use Rattle.roster_offers.specs.Cheapest.{cheaper};
ghost use Rattle.roster_partial.specs.Allowed.{MayFollow};
ghost use Rattle.roster_partial.specs.Rows.{count_in, earlier_in, rows_in};
ghost use Rattle.roster_partial.specs.Searches.{AreOfDay, ArePut, IsOnwardFrom, best_before, best_of_day, best_put, days_in, offered};

use crate::allowed::{allow, indices_after, none_allowed};
use crate::limited::LimitedSearch;
use crate::one_offer::{RowExtension, RowsDay, after_work, extend_row};
use crate::rows::{Link, RecentRows, cost_at, row_state};
use roster_offers::SearchInput;
use roster_state::{Meter, State};

/// Extends each partial row of a day, which begin at an index of the list, by each of the day's offers.
/// Returns false if the list is full.
pub fn add_day(
    limited: &LimitedSearch<'_>,
    at: RowsDay,
    first: usize,
    rows: &mut [u32],
    recent: &mut RecentRows,
    meter: &mut Meter,
) -> bool
    requires day { at.day < days_in limited.now.completion_bounds.search }
    requires end { at.end ≡ length (rows_in rows.old) }
    requires rows { AreOfDay limited.now at.day first rows.old }
    requires room { meter.old + (at.end - first)
        * length (offered limited.now.completion_bounds.search at.day) ≤ greatest_u64 }
    ensures rows { ArePut limited.now at rows.new }
    ensures front { earlier_in rows.new at.end ≡ rows_in rows.old }
    ensures best { result ≡ true →
        best_put limited.now at rows.new ≡ best_of_day limited.now at.day first rows.old }
    ensures counted { meter.new ≤ meter.old + (at.end - first)
        * length (offered limited.now.completion_bounds.search at.day) }
    ensures each { length (rows_in rows.new) + meter.old ≤ at.end + meter.new }
    ensures full { result ≡ false → count_in rows.new ≡ limited.now.row_limit }
{
    let SearchInput { case, offers, .. } = limited.completion_bounds.search;
    case.keeps_limits();
    let offers = offers[at.day as usize].as_slice();
    let mut allowed = none_allowed();
    'befores: for before in first..at.end {
        let cost = cost_at(rows, before);
        if cost > limited.limit {
            continue;
        }
        let state = row_state(rows, before);
        allow(case, state, offers, &mut allowed, meter);
        let onward = OnwardRow {
            state,
            cost,
            before,
            allowed: indices_after(&allowed, state),
        };
        if !extend_by_all(limited, at, &onward, rows, recent, meter) {
            return false;
        }
    }
    true
}

/// A partial row that is being extended: what was read of it, its index in the list, and the indices of the
/// offers that may follow its last shift.
#[derive(Clone, Copy)]
struct OnwardRow<'a> {
    state: State,
    cost: u32,
    before: usize,
    allowed: &'a [u8],
}

/// Extends a partial row by each offer of its day that may follow. Returns false if the list is full.
fn extend_by_all(
    limited: &LimitedSearch<'_>,
    at: RowsDay,
    onward: &OnwardRow<'_>,
    rows: &mut [u32],
    recent: &mut RecentRows,
    meter: &mut Meter,
) -> bool
    requires day { at.day < days_in limited.now.completion_bounds.search }
    requires onward { IsOnwardFrom limited.now at (earlier_in rows.old at.end)
        onward.now.before onward.now.state onward.now.cost }
    requires allowed { MayFollow limited.now.completion_bounds.search.case.now onward.now.state.last
        (offered limited.now.completion_bounds.search at.day) onward.now.allowed.now }
    requires rows { ArePut limited.now at rows.old }
    requires room { meter.old + length onward.now.allowed.now ≤ greatest_u64 }
    ensures rows { ArePut limited.now at rows.new }
    ensures front { earlier_in rows.new at.end ≡ earlier_in rows.old at.end }
    ensures best { result ≡ true → best_put limited.now at rows.new
        ≡ cheaper (best_put limited.now at rows.old)
        (best_before limited.now at rows.old onward.now.before) }
    ensures counted { meter.new ≤ meter.old + length onward.now.allowed.now }
    ensures each { length (rows_in rows.new) + meter.old ≤ length (rows_in rows.old) + meter.new }
    ensures full { result ≡ false → count_in rows.new ≡ limited.now.row_limit }
{
    let work = after_work(limited, at.day, onward.state);
    'offers: for next in 0..onward.allowed.len() {
        let link = Link {
            before: onward.before,
            offer: onward.allowed[next] as usize,
        };
        let extension = RowExtension {
            state: onward.state,
            cost: onward.cost,
            link,
            work,
        };
        if !extend_row(limited, at, extension, rows, recent, meter) {
            return false;
        }
    }
    true
}

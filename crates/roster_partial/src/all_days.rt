//! The search over all days by the partial rows within a limit.

ghost use Rattle.std.specs.Prelude.{◌≡◌, ◌+◌, ◌*◌, ◌<◌, ◌≤◌, ℕ, [], IfSome, IsNone, None, length, option_map, take};
ghost use Rattle.roster_offers.specs.Offers.{choices_of};
ghost use Rattle.roster_offers.specs.Lists.{IsFound, no_row};
ghost use Rattle.roster_state.specs.Codes.{shift_digit};
ghost use Rattle.roster_partial.specs.Rates.{FitsNurse, most_offers};
ghost use Rattle.roster_partial.specs.Rows.{AreKept, IsEntryOf, IsLinked, best_of, count_in, entry_numbered, rows_in, within};
ghost use Rattle.roster_partial.specs.Searches.{HasCells, AreOfDay, IsFull, best_after_all, best_of_last, best_in, best_of_day, days_in, days_on, offered, offers_of_last};
ghost use Rattle.roster_partial.specs.declared.all_days.Within.TheVariants.{Dearer, Found, Full};

use crate::limited::LimitedSearch;
use crate::one_day::add_day;
use crate::one_offer::RowsDay;
use crate::rows::{
    Entry, RecentRows, clear_rows, cost_at, link_at, push_row, row_count, row_state,
};
use roster_instance::Choice;
use roster_offers::SearchInput;
use roster_state::{Meter, end_cost, start};

/// What the search by partial rows within a limit finds.
#[derive(Clone, Copy, Debug, PartialEq, Eq)]
pub enum Within {
    /// The best row, with its cost; its choices were written.
    Found(u32),
    /// No row is within the limit.
    Dearer,
    /// The partial rows ran out of capacity or of extensions.
    Full,
}

/// Searches the best row by the partial rows within a limit. If it finds one, `row` begins with its choices,
/// one for each day. The meter counts each extension of a partial row, at most one for each partial row that
/// is kept and each offer of the next day, and goes no further than `last_count`.
pub fn row_within(
    limited: &LimitedSearch<'_>,
    last_count: u64,
    rows: &mut [u32],
    recent: &mut RecentRows,
    row: &mut [Choice],
    meter: &mut Meter,
) -> Within
    requires row_capacity { days_in limited.now.completion_bounds.search ≤ length row.old }
    requires room { meter.old ≤ last_count }
    requires cells { 1 + 4 * limited.now.row_limit ≤ length rows.old }
    ensures best { (cost : ℕ) → result ≡ Found cost → IsFound
        (best_in limited.now.completion_bounds.search) cost
        (take (days_in limited.now.completion_bounds.search) row.new) }
    ensures below { (cost : ℕ) → result ≡ Found cost → cost < no_row }
    ensures full { result ≡ Full → IsFull limited.now.row_limit last_count rows.new meter.new }
    ensures dearer { result ≡ Dearer →
        within limited.now.limit (best_in limited.now.completion_bounds.search) ≡ None }
    ensures each_day { (cost : ℕ) → result ≡ Found cost →
        meter.old + days_in limited.now.completion_bounds.search ≤ meter.new }
    ensures counted { (meter.old ≤ meter.new) × (meter.new ≤ last_count) }
    ensures brief { meter.new ≤ meter.old + most_offers * limited.now.row_limit }
    ensures length { length row.new ≡ length row.old }
{
    clear_rows(rows);
    if limited.row_limit == 0 {
        return Within::Full;
    }
    push_row(rows, &start_entry(limited));
    let Some(first) = add_days(limited, last_count, rows, recent, meter) else {
        return Within::Full;
    };
    let Some((cost, index)) = least_at_end(limited, rows, first) else {
        return Within::Dearer;
    };
    read_row(&limited.completion_bounds.search, rows, index, row);
    Within::Found(cost)
}

/// The partial row of no days. It costs nothing: what the start owes isn't counted.
fn start_entry(limited: &LimitedSearch<'_>) -> Entry
    ensures entry { IsEntryOf (days_on limited.now 0 []) result }
    ensures best { best_of (days_on limited.now 0 []) result
        ≡ within limited.now.limit (best_in limited.now.completion_bounds.search) }
    ensures first { result.before ≡ 0 }
    ensures offer { result.offer ≡ 0 }
    ensures last { shift_digit result.state.last < 16 }
{
    let search = &limited.completion_bounds.search;
    search.case.keeps_limits();
    let (state, _) = start(search.case, search.nurse);
    Entry {
        state,
        cost: 0,
        before: 0,
        offer: 0,
    }
}

/// Extends the partial row of no days by all days, one after another. Returns where the partial rows of all
/// days begin in the list, or `None` if capacity or extensions ran out.
fn add_days(
    limited: &LimitedSearch<'_>,
    last_count: u64,
    rows: &mut [u32],
    recent: &mut RecentRows,
    meter: &mut Meter,
) -> Option<usize>
    requires room { meter.old ≤ last_count }
    requires rows { AreOfDay limited.now 0 0 rows.old }
    ensures rows { IfSome result (λ first. AreOfDay limited.now
        (days_in limited.now.completion_bounds.search) first rows.new) }
    ensures best { IfSome result (λ first. best_after_all limited.now first rows.new
        ≡ best_of_day limited.now 0 0 rows.old) }
    ensures each_day { IfSome result (λ first. first < length (rows_in rows.new) →
        meter.old + days_in limited.now.completion_bounds.search ≤ meter.new) }
    ensures counted { (meter.old ≤ meter.new) × (meter.new ≤ last_count) }
    ensures brief { meter.new ≤ meter.old + most_offers * limited.now.row_limit }
    ensures full { IsNone result → IsFull limited.now.row_limit last_count rows.new meter.new }
{
    let search = &limited.completion_bounds.search;
    let mut first = 0;
    for day in 0..search.case.days() {
        let end = row_count(rows);
        let offers = search.offers[day as usize].len() as u64;
        let extensions = (end - first) as u64 * offers;
        if extensions > last_count - meter.count() {
            return None;
        }
        let at = RowsDay { day, end };
        if !add_day(limited, at, first, rows, recent, meter) {
            return None;
        }
        first = end;
    }
    Some(first)
}

/// The cheapest row, the first if several are equally cheap, of the partial rows of all days, which begin at
/// `first`: its cost and its index. `None` if each costs more than the limit.
fn least_at_end(limited: &LimitedSearch<'_>, rows: &[u32], first: usize) -> Option<(u32, usize)>
    requires rows { AreOfDay limited.now (days_in limited.now.completion_bounds.search) first
        rows.now }
    ensures best { best_after_all limited.now first rows.now ≡ option_map (λ least.
        (least.0, offers_of_last limited.now.completion_bounds.search rows.now least.1)) result }
    ensures index { IfSome result
        (λ least. (first ≤ least.1) × (least.1 < count_in rows.now)) }
{
    let mut least: Option<(u32, usize)> = None;
    let end = row_count(rows);
    for index in first..end {
        let Some(cost) = cost_at_end(limited, rows, index) else {
            continue;
        };
        match least {
            Some((low, _)) if low <= cost => {}
            _ => least = Some((cost, index)),
        }
    }
    least
}

/// What the row of a partial row of all days costs, or `None` if that is more than the limit.
fn cost_at_end(limited: &LimitedSearch<'_>, rows: &[u32], index: usize) -> Option<u32>
    requires held { HasCells limited.now rows.now }
    requires inside { index < count_in rows.now }
    requires fits { FitsNurse limited.now.completion_bounds.search
        (entry_numbered (rows_in rows.now) index).state }
    ensures best { best_of_last limited.now rows.now index ≡ option_map
        (λ cost. (cost, offers_of_last limited.now.completion_bounds.search rows.now index)) result }
{
    let days = cost_at(rows, index);
    if days > limited.limit {
        return None;
    }
    let search = &limited.completion_bounds.search;
    let state = row_state(rows, index);
    let cost = days + search.scale * end_cost(search.case, search.nurse, state);
    if cost > limited.limit {
        return None;
    }
    Some(cost)
}

/// Reads the choices of a partial row of all days from the last day to the first: each partial row holds the
/// index of the one of the day before that it extends.
fn read_row(search: &SearchInput<'_>, rows: &[u32], last: usize, row: &mut [Choice])
    requires row_capacity { days_in search.now ≤ length row.old }
    requires kept { AreKept rows.now }
    requires inside { last < count_in rows.now }
    requires linked { IsLinked (offered search.now) (rows_in rows.now) (days_in search.now)
        (entry_numbered (rows_in rows.now) last) }
    ensures row { take (days_in search.now) row.new
        ≡ choices_of (offers_of_last search.now rows.now last) }
    ensures length { length row.new ≡ length row.old }
{
    let mut index = last;
    for day in (0..search.case.days()).rev() {
        let link = link_at(rows, index);
        row[day as usize] = search.offers[day as usize][link.offer].choice;
        index = link.before;
    }
}

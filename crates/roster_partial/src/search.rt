//! The search over a table of offers: by partial rows first, then by the label tables.

ghost use Rattle.std.specs.Prelude.{◌≡◌, ◌+◌, ◌*◌, ◌/◌, ◌<◌, ◌≤◌, ℕ, IfSome, IsSome, None, length, take};
ghost use Rattle.roster_bundle.specs.Limits.{greatest_u64};
ghost use Rattle.roster_laws.specs.Greatest.{extension_count};
ghost use Rattle.roster_offers.specs.Listed.{KeepsList};
ghost use Rattle.roster_offers.specs.Lists.{IsFound, no_row};
ghost use Rattle.roster_tables.specs.Search.{HasTables};
ghost use Rattle.roster_partial.specs.Counts.{CountsPartial, CountsSearch, ladder_limits, rows_kept};
ghost use Rattle.roster_partial.specs.Rates.{AreSetAt, most_offers};
ghost use Rattle.roster_partial.specs.Rows.{within};
ghost use Rattle.roster_partial.specs.Searches.{IsFull, best_in, days_in, offered};
ghost use Rattle.roster_partial.specs.declared.all_days.Within.TheVariants.{Dearer, Found, Full};

use crate::all_days::{Within, row_within};
use crate::closer::{pays, set_closer_bounds};
use crate::guesses::Guesses;
use crate::limited::{Bounded, LimitedSearch};
use crate::limits::Limits;
use crate::listing::list_rows;
use crate::rates::set_best_bounds;
use crate::rows::{MOST_ROWS, REMAINDERS, ROW_CELLS, RecentRows};
use roster_completion::{CompletionBounds, Rates, completion_cells};
use roster_instance::Choice;
use roster_offers::{ListLimits, RowList, SearchInput, most_search_extensions};
use roster_state::Meter;
use roster_tables::{DayBoxes, NO_ROW, Tables, extensions_at_most, find_boxes};

/// How many limits are tried at most with the same completion bounds.
const MOST_LIMITS: usize = 24;

/// What searches keep besides the tables and boxes, some 30 kB for each case: which states have a partial
/// row, and what earlier searches suggest. Only the time depends on it.
pub struct Hints {
    recent: RecentRows,
    guesses: Guesses,
}

// Written by hand, so that code that drops the hints has one call to prove.
impl Drop for Hints {
    fn drop(self) {
        let Hints {
            recent: _,
            guesses: _,
        } = self;
    }
}

impl Hints {
    /// Before the first search.
    pub fn none() -> Hints {
        Hints {
            recent: [0; REMAINDERS],
            guesses: Guesses::none(),
        }
    }
}

/// Whether a search begins with partial rows. It begins with the tables if the nurse has more completion
/// bounds than the tables take extensions at most.
fn begins(search: &SearchInput<'_>, extensions: u64) -> bool {
    completion_cells(search) as u64 <= extensions
}

/// Searches the best row over a table of offers, wherever these come from. `row` then begins with its
/// choices, one for each day, and the result is its cost: its prices, and what the nurse's own rules cost
/// along it, without what the start owes, in the parts of a point of the search's scale. The search takes
/// no memory. The meter counts each completion bound, each partial row and each state with each offer by
/// which it is extended: at least one extension for each day, and at most one for each state, day and
/// choice of the nurse. The extensions that the tables may need are set aside before anything else is
/// counted.
pub fn search_row(
    search: &SearchInput<'_>,
    hints: &mut Hints,
    boxes: &mut DayBoxes,
    tables: &mut Tables,
    row: &mut [Choice],
    meter: &mut Meter,
) -> u32
    requires some { IsSome (best_in search.now) }
    requires tables { HasTables search.now.case.now search.now.nurse tables.old }
    requires row_capacity { days_in search.now ≤ length row.old }
    requires room { meter.old + extension_count search.now.case.now
        search.now.nurse ≤ greatest_u64 }

    // The row, and its cost.
    ensures best { IsFound (best_in search.now) result (take (days_in search.now) row.new) }
    ensures below { result < no_row }
    ensures length { length row.new ≡ length row.old }

    // What it takes.
    ensures each_day { meter.old + days_in search.now ≤ meter.new }
    ensures counted { meter.new ≤ meter.old + extension_count search.now.case.now search.now.nurse }
    ensures are_reachable { CountsSearch (tables.old.labels / 2) search.now.case.now
        search.now.nurse (offered search.now) meter.old meter.new }
    ensures tables { tables.new ≡ tables.old }
{
    find_boxes(search, boxes);
    let extensions = extensions_at_most(search, boxes);
    if begins(search, extensions) {
        let bounded = Bounded {
            search: *search,
            last_count: meter.count()
                + (most_search_extensions(search.case, search.nurse) - extensions),
        };
        if let Some(cost) = search_in_tables(&bounded, hints, tables, row, meter) {
            return cost;
        }
    }
    roster_tables::search_states(search, boxes, tables, row, meter)
}

/// What `search_partial` does, in the cells of the two tables: the completion bounds in those of one, the
/// partial rows in those of the other.
fn search_in_tables(
    bounded: &Bounded<'_>,
    hints: &mut Hints,
    tables: &mut Tables,
    row: &mut [Choice],
    meter: &mut Meter,
) -> Option<u32>
    requires tables { HasTables bounded.now.search.case.now bounded.now.search.nurse tables.old }
    requires row_capacity { days_in bounded.now.search ≤ length row.old }
    requires room { meter.old ≤ bounded.now.last_count }
    ensures best { IfSome result (λ cost. IsFound (best_in bounded.now.search) cost
        (take (days_in bounded.now.search) row.new)) }
    ensures below { IfSome result (λ cost. cost < no_row) }
    ensures each_day { IfSome result (λ cost. meter.old + days_in bounded.now.search
        ≤ meter.new) }
    ensures counted { CountsPartial (tables.old.labels / 2) bounded.now.search.case.now
        bounded.now.search.nurse (offered bounded.now.search) meter.old meter.new }
    ensures most { meter.new ≤ bounded.now.last_count }
    ensures length { length row.new ≡ length row.old }
    ensures tables { tables.new ≡ tables.old }
{
    let (labels, later) = (&mut tables.labels, &mut tables.later);
    search_partial(bounded, hints, labels, later, row, meter)
}

/// Lists the rows of a search that cost at most a limit, with the completion bounds in the cells of a table.
/// Returns false if the list is full or extensions run out.
pub fn list_in_tables(
    search: &SearchInput<'_>,
    limits: ListLimits,
    hints: &Hints,
    tables: &mut Tables,
    list: &mut RowList,
    meter: &mut Meter,
) -> bool
    requires room { meter.old + limits.extensions ≤ greatest_u64 }
    ensures kept { KeepsList list.old list.new }
    ensures few { list.new.held ≤ length list.new.costs.items }
    ensures counted { (meter.old ≤ meter.new) × (meter.new ≤ meter.old + limits.extensions) }
    ensures tables { tables.new ≡ tables.old }
{
    list_rows(
        search,
        limits,
        &hints.guesses,
        &mut tables.labels,
        list,
        meter,
    )
}

/// Searches the best row by partial rows, within one limit after another: from the lower bound of its cost
/// up to the upper bound. If there are too many of them, and it pays, it sets closer completion bounds, and
/// then lowers limits too. Returns `None` if capacity or extensions run out nevertheless, or if no limit that
/// was tried is high enough.
fn search_partial(
    bounded: &Bounded<'_>,
    hints: &mut Hints,
    completion_bounds: &mut [u32],
    rows: &mut [u32],
    row: &mut [Choice],
    meter: &mut Meter,
) -> Option<u32>
    requires cells { 0 < length rows.old }
    requires row_capacity { days_in bounded.now.search ≤ length row.old }
    requires room { meter.old ≤ bounded.now.last_count }
    ensures best { IfSome result (λ cost. IsFound (best_in bounded.now.search) cost
        (take (days_in bounded.now.search) row.new)) }
    ensures below { IfSome result (λ cost. cost < no_row) }
    ensures each_day { IfSome result (λ cost. meter.old + days_in bounded.now.search
        ≤ meter.new) }
    ensures counted { CountsPartial (length rows.old) bounded.now.search.case.now
        bounded.now.search.nurse (offered bounded.now.search) meter.old meter.new }
    ensures most { meter.new ≤ bounded.now.last_count }
    ensures length { length row.new ≡ length row.old }
{
    let guess = hints.guesses.of(&bounded.search);
    let best = set_best_bounds(bounded, guess, completion_bounds, meter)?;
    let limits = Limits::above(&best, guess, bounded.search.scale);
    let ladder = Ladder {
        completion_bounds,
        rates: best.rates,
        limits,
    };
    if let Some(cost) = try_limits(bounded, &ladder, rows, &mut hints.recent, row, meter) {
        hints.guesses.learn(&bounded.search, &best, cost);
        return Some(cost);
    }
    if !pays(bounded, guess) {
        return None;
    }
    let closer = set_closer_bounds(bounded, best, completion_bounds, meter);
    let ladder = Ladder {
        completion_bounds,
        rates: closer.rates,
        limits: limits.again(&closer),
    };
    let cost = try_limits(bounded, &ladder, rows, &mut hints.recent, row, meter)?;
    hints.guesses.learn(&bounded.search, &closer, cost);
    Some(cost)
}

/// The limits that are tried with completion bounds, and the rates of these.
#[derive(Clone, Copy)]
struct Ladder<'a> {
    completion_bounds: &'a [u32],
    rates: Rates,
    limits: Limits,
}

/// Searches the best row by the partial rows within one limit after another. Returns `None` if no limit that
/// was tried is high enough, or if too many partial rows are within one, and it can't be lowered.
fn try_limits(
    bounded: &Bounded<'_>,
    ladder: &Ladder<'_>,
    rows: &mut [u32],
    recent: &mut RecentRows,
    row: &mut [Choice],
    meter: &mut Meter,
) -> Option<u32>
    requires set { AreSetAt bounded.now.search ladder.now.rates ladder.now.completion_bounds.now }
    requires cells { 0 < length rows.old }
    requires row_capacity { days_in bounded.now.search ≤ length row.old }
    requires room { meter.old ≤ bounded.now.last_count }
    ensures best { IfSome result (λ cost. IsFound (best_in bounded.now.search) cost
        (take (days_in bounded.now.search) row.new)) }
    ensures below { IfSome result (λ cost. cost < no_row) }
    ensures each_day { IfSome result (λ cost. meter.old + days_in bounded.now.search
        ≤ meter.new) }
    ensures counted { (meter.old ≤ meter.new) × (meter.new ≤ bounded.now.last_count) }
    ensures brief { meter.new ≤ meter.old
        + ladder_limits * (most_offers * rows_kept (length rows.old)) }
    ensures length { length row.new ≡ length row.old }
{
    let mut limits = ladder.limits;
    'limits: for _tried in 0..MOST_LIMITS {
        let attempt = Attempt {
            completion_bounds: ladder.completion_bounds,
            rates: ladder.rates,
            limit: limits.next.min(NO_ROW - 1),
        };
        let goes_on = match search_within(bounded, &attempt, rows, recent, row, meter) {
            Within::Found(cost) => return Some(cost),
            Within::Full => limits.lower(),
            Within::Dearer => limits.raise(),
        };
        if !goes_on {
            return None;
        }
    }
    None
}

/// A limit that is tried, in the parts of a point of the search's scale, with the completion bounds and their
/// rates.
#[derive(Clone, Copy)]
struct Attempt<'a> {
    completion_bounds: &'a [u32],
    rates: Rates,
    limit: u32,
    ghost low: { limit < no_row },
}

/// Searches the best row by the partial rows within a limit, with a list of as many as there are cells for.
fn search_within(
    bounded: &Bounded<'_>,
    attempt: &Attempt<'_>,
    rows: &mut [u32],
    recent: &mut RecentRows,
    row: &mut [Choice],
    meter: &mut Meter,
) -> Within
    requires set { AreSetAt bounded.now.search attempt.now.rates attempt.now.completion_bounds.now }
    requires cells { 0 < length rows.old }
    requires row_capacity { days_in bounded.now.search ≤ length row.old }
    requires room { meter.old ≤ bounded.now.last_count }
    ensures best { (cost : ℕ) → result ≡ Found cost → IsFound (best_in bounded.now.search) cost
        (take (days_in bounded.now.search) row.new) }
    ensures below { (cost : ℕ) → result ≡ Found cost → cost < no_row }
    ensures full { result ≡ Full → IsFull (rows_kept (length rows.old)) bounded.now.last_count
        rows.new meter.new }
    ensures dearer { result ≡ Dearer
        → within attempt.now.limit (best_in bounded.now.search) ≡ None }
    ensures each_day { (cost : ℕ) → result ≡ Found cost →
        meter.old + days_in bounded.now.search ≤ meter.new }
    ensures counted { (meter.old ≤ meter.new) × (meter.new ≤ bounded.now.last_count) }
    ensures brief { meter.new ≤ meter.old + most_offers * rows_kept (length rows.old) }
    ensures length { length row.new ≡ length row.old }
{
    let SearchInput {
        case,
        nurse,
        scale,
        offers,
    } = bounded.search;
    // (The search is copied, since the completion bounds are borrowed for a shorter time.)
    let here = SearchInput {
        case,
        nurse,
        scale,
        offers,
    };
    let limited = LimitedSearch {
        completion_bounds: CompletionBounds::of(&here, attempt.rates, attempt.completion_bounds),
        limit: attempt.limit,
        row_limit: ((rows.len() - 1) / ROW_CELLS).min(MOST_ROWS),
        rules: case.contract_rules(nurse),
    };
    row_within(&limited, bounded.last_count, rows, recent, row, meter)
}

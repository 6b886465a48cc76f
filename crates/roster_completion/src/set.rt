//! The completion bounds of all days.

ghost use Rattle.std.specs.Prelude.{◌≡◌, ◌↔◌, ◌+◌, ◌*◌, ◌<◌, ◌≤◌, false, length, true};
ghost use Rattle.roster_bundle.specs.Limits.{greatest_u64};
ghost use Rattle.roster_instance.specs.Limits.{most_days};
ghost use Rattle.roster_instance.specs.Meaning.{day_count};
ghost use Rattle.roster_offers.specs.Lists.{offers_on};
ghost use Rattle.roster_state.specs.Codes.{sizes_of};
ghost use Rattle.roster_completion.specs.Bounds.{AreKeptFrom, AreLowFrom};
ghost use Rattle.roster_state.specs.CompletionLines.{AreLow};
ghost use Rattle.roster_completion.specs.CompletionBounds.{AreCompletionBoundsOf, AreSmallRates, LieUnder, completion_count, search_cells, search_extensions};
ghost use Rattle.roster_completion.specs.Lines.{IsCompletionDayOf};
ghost use Rattle.roster_completion.specs.Once.{AreSmallRates-prop};

use crate::completion_day::CompletionDay;
use crate::day::set_day;
use crate::rates::Rates;
use roster_offers::SearchInput;
use roster_state::{Meter, Ranges};

/// A search whose completion bounds are to be set, with their rates, the number of values of each number of a
/// state, and the number of completion bounds of a day.
#[derive(Clone, Copy)]
struct Setting<'a> {
    search: SearchInput<'a>,
    rates: Rates,
    ranges: Ranges,
    count: usize,
    ghost small: { AreSmallRates search.scale rates } by { AreSmallRates-prop search.scale rates },
    ghost sizes: { ranges ≡ sizes_of search.case.now search.nurse },
    ghost counted: { count ≡ completion_count ranges },
}

/// Sets the completion bounds of all days at these rates, from the last day to the first, and returns whether
/// there are enough cells: one for each day and the end, and for each last shift and runs. The meter counts
/// each completion bound with each offer of its day, and nothing if there are too few cells.
pub fn set_completion_bounds(
    search: &SearchInput<'_>,
    rates: Rates,
    completion_bounds: &mut [u32],
    meter: &mut Meter,
) -> bool
    requires small { AreSmallRates search.now.scale rates }
    requires room { meter.old + search_extensions search.now ≤ greatest_u64 }
    ensures completion_bounds { result ≡ true → AreCompletionBoundsOf search.now rates
        completion_bounds.new }
    ensures capacity { (result ≡ true) ↔ (search_cells search.now ≤ length completion_bounds.old) }
    ensures length { length completion_bounds.new ≡ length completion_bounds.old }
    ensures counted { result ≡ true → meter.new ≡ meter.old + search_extensions search.now }
    ensures none { result ≡ false → meter.new ≡ meter.old }
{
    let ranges = Ranges::of(search.case, search.nurse);
    let count = completion_count(&ranges);
    let days = search.case.days();
    if completion_bounds.len() < (days as usize + 1) * count {
        return false;
    }
    let end = days as usize * count;
    // After the last day nothing is to come.
    completion_bounds[end..end + count].fill(0);
    let setting = Setting {
        search: *search,
        rates,
        ranges,
        count,
    };
    for day in (0..days).rev() {
        set_before(&setting, day, completion_bounds, meter);
    }
    true
}

/// How many completion bounds a search has: those of all days and of the end.
pub fn completion_cells(search: &SearchInput<'_>) -> usize
    ensures { result ≡ search_cells search.now }
{
    (search.case.days() as usize + 1) * completion_count(&Ranges::of(search.case, search.nurse))
}

/// How many extensions it takes to set the completion bounds of all days once: each completion bound with
/// each offer of its day.
pub fn completion_extensions(search: &SearchInput<'_>) -> u64
    ensures extensions { result ≡ search_extensions search.now }
    ensures within { result ≤ 9000000 * (most_days * 9) }
{
    let mut offers = 0;
    for day in 0..search.case.days() {
        offers += search.offers[day as usize].as_slice().len();
    }
    completion_count(&Ranges::of(search.case, search.nurse)) as u64 * offers as u64
}

/// How many completion bounds a day has.
fn completion_count(ranges: &Ranges) -> usize
    ensures count { result ≡ completion_count ranges.now }
    ensures within { result ≤ 9000000 }
{
    ranges.last() as usize * (ranges.run() as usize * ranges.shift_run() as usize)
}

/// A day whose completion bounds are to be set from those of the next day.
fn completion_day<'a, 'b>(setting: &Setting<'a>, day: u16, next: &'b [u32]) -> CompletionDay<'a, 'b>
    requires day { day < day_count setting.now.search.case.now }
    requires next { length next.now ≡ setting.now.count }
    requires low { AreLow next.now }
    ensures of { IsCompletionDayOf setting.now.search.case.now setting.now.search.nurse
        setting.now.search.scale setting.now.rates day
        (offers_on setting.now.search.offers.now day) next.now result }
{
    let search = setting.search;
    CompletionDay {
        case: search.case,
        nurse: search.nurse,
        scale: search.scale,
        day,
        rules: search.case.contract_rules(search.nurse),
        rates: setting.rates,
        offers: search.offers[day as usize].as_slice(),
        lasts: setting.ranges.last() as usize,
        runs: setting.ranges.run() as usize,
        shift_runs: setting.ranges.shift_run() as usize,
        next,
    }
}

/// Sets the completion bounds of a day from those of the next day, which follow them in the cells.
fn set_before(setting: &Setting<'_>, day: u16, completion_bounds: &mut [u32], meter: &mut Meter)
    requires day { day < day_count setting.now.search.case.now }
    requires capacity { day * setting.now.count + setting.now.count + setting.now.count
        ≤ length completion_bounds.old }
    requires low { AreLowFrom (day * setting.now.count + setting.now.count) setting.now.count
        completion_bounds.old }
    requires extensions { meter.old + setting.now.count
        * length (offers_on setting.now.search.offers.now day) ≤ greatest_u64 }
    ensures under { LieUnder setting.now.search.case.now setting.now.search.nurse
        setting.now.search.scale setting.now.rates (offers_on setting.now.search.offers.now)
        completion_bounds.new day }
    ensures kept { AreKeptFrom
        (day * setting.now.count + setting.now.count) completion_bounds.old completion_bounds.new }
    ensures low { AreLowFrom (day * setting.now.count) setting.now.count completion_bounds.new }
    ensures length { length completion_bounds.new ≡ length completion_bounds.old }
    ensures counted { meter.new ≡ meter.old + setting.now.count
        * length (offers_on setting.now.search.offers.now day) }
{
    let first = day as usize * setting.count;
    let (before, after) = completion_bounds.split_at_mut(first + setting.count);
    let open = completion_day(setting, day, &after[..setting.count]);
    set_day(&open, &mut before[first..], meter);
}

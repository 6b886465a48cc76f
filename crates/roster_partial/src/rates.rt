//! The rates at which a search by partial rows sets its completion bounds.

ghost use Rattle.std.specs.Prelude.{◌≡◌, ◌+◌, ◌-◌, ◌^◌, ◌≤◌, ◌<◌, IfSome, IsNone, true};
ghost use Rattle.roster_bundle.specs.Limits.{greatest_u64};
ghost use Rattle.roster_instance.specs.Meaning.{day_count};
ghost use Rattle.roster_offers.specs.Lists.{most_scale, offers_on};
ghost use Rattle.roster_completion.specs.CompletionBounds.{AreSmallRates, search_extensions};
ghost use Rattle.roster_partial.specs.Counts.{CountsSets, most_first};
ghost use Rattle.roster_partial.specs.Rates.{AreSetAt, FitsNurse, IsTried, RunsOut, most_offers, row_extensions, trial_extensions};

use crate::limited::Bounded;
use roster_completion::{
    CompletionBounds, Rates, at_least, completion_cells, completion_extensions,
    set_completion_bounds,
};
use roster_instance::Case;
use roster_offers::{MOST_OFFERS, SearchInput};
use roster_rules::weekends_more;
use roster_rules::weights::{ASSIGNMENT, WEEKEND};
use roster_state::{Meter, NurseDays, State, end_cost, start};
use std::cmp::min;

/// How many more pairs of rates are tried at most; fewer if an earlier search suggests where to begin.
const MOST_TRIALS: usize = 11;

const MOST_TRIALS_FROM_SAME: usize = 8;

const FEWEST_TRIALS_FROM_SAME: usize = 2;

const MOST_TRIALS_FROM_OTHER: usize = 5;

/// The fewest further trials of a nurse's first search. It makes one for each week, but for this number of
/// weeks.
const FEWEST_TRIALS: usize = 2;

const WEEKS_WITHOUT_TRIAL: usize = 2;

/// By how many points rates move at first: from the ends of their ranges, and from the rates of an earlier
/// search for another nurse. From those of the nurse's own last search they move by three halves of a point,
/// but by no less than this number of parts of it.
const FIRST_CHANGE: u32 = 8;

const NEXT_CHANGE: u32 = 4;

/// Once a row was found that costs at most this many penalty points more than the start's completion bound,
/// setting the completion bounds anew takes longer than it spares.
const CLOSE: u32 = 5;

/// The same after an earlier search for the same nurse, by how many points more than the spread that it had.
const NEXT_CLOSE: u32 = 15;

/// What an earlier search suggests for the next one, in the parts of a point of its scale. Only the time
/// depends on it.
#[derive(Clone, Copy)]
pub struct Guess {
    pub rates: Rates,
    /// How far apart the lower and the upper bound of its best row's cost were.
    pub spread: u32,
    /// By how much the best row's cost was above the lower bound.
    pub gap: u32,
    /// Whether it was a search for the same nurse.
    pub is_own: bool,
    /// Its scale, in a byte.
    pub scale: u8,
}

/// A scale in a byte: none is above 128.
pub(crate) fn scale_byte(scale: u32) -> u8 {
    scale.min(u8::MAX as u32) as u8
}

impl Guess {
    /// The same for a search at another scale.
    pub fn at(self, scale: u32) -> Guess {
        if self.scale as u32 == scale {
            return self;
        }
        let rates = Rates {
            day: self.parts_at(self.rates.day, scale),
            weekend: self.parts_at(self.rates.weekend, scale),
        };
        Guess {
            rates,
            spread: self.parts_at(self.spread, scale),
            gap: self.parts_at(self.gap, scale),
            is_own: self.is_own,
            scale: scale_byte(scale),
        }
    }

    /// A number of its parts of a point, in those of another scale.
    fn parts_at(&self, parts: u32, scale: u32) -> u32 {
        parts.saturating_mul(scale) / (self.scale as u32).max(1)
    }
}

/// The completion bounds that were set: their rates, and two bounds of the best row's cost, a lower one that
/// holds for each row and an upper one, the cost of some row.
#[derive(Clone, Copy)]
pub struct BestBounds {
    pub rates: Rates,
    pub low: u32,
    /// `u32::MAX` if no row was found.
    pub high: u32,
}

/// Sets the completion bounds of a search. It tries several pairs of rates and takes the one at which the
/// start's completion bound is highest: a rate is raised if the row that follows the completion bounds has
/// too many assignments or worked weekends, and lowered if it has fewer than it may. Returns `None` if there
/// are too few cells for the completion bounds, or too few extensions left to set them twice and follow two
/// rows.
pub fn set_best_bounds(
    bounded: &Bounded<'_>,
    guess: Option<Guess>,
    completion_bounds: &mut [u32],
    meter: &mut Meter,
) -> Option<BestBounds>
    requires room { meter.old ≤ bounded.now.last_count }
    ensures set { IfSome result
        (λ best. AreSetAt bounded.now.search best.rates completion_bounds.new) }
    ensures counted { CountsSets bounded.now.search.case.now bounded.now.search.nurse
        (offers_on bounded.now.search.offers.now) most_first most_first meter.old meter.new }
    ensures most { meter.new ≤ bounded.now.last_count }
    ensures none { IsNone result →
        RunsOut bounded.now.search completion_bounds.old (bounded.now.last_count - meter.old) }
{
    let (search, last_count) = (&bounded.search, bounded.last_count);
    let each = extensions_of_trial(bounded);
    if completion_bounds.len() < completion_cells(search) || last_count - meter.count() < 2 * each {
        return None;
    }
    let plan = plan_by(bounded, guess, meter);
    set_completion_bounds(search, plan.rates, completion_bounds, meter);
    let first = trial(bounded, plan.rates, completion_bounds, meter);
    let last = try_rates(bounded, plan, first, completion_bounds, meter);
    if !are_same(last.rates, last.set) {
        set_completion_bounds(search, last.rates, completion_bounds, meter);
    }
    Some(BestBounds {
        rates: last.rates,
        low: last.low,
        high: last.high,
    })
}

/// How many extensions it takes at most to set the completion bounds and to follow a row.
pub(crate) fn extensions_of_trial(bounded: &Bounded<'_>) -> u64
    ensures extensions { result ≡ trial_extensions bounded.now.search }
    ensures within { result ≤ 2 ^ 40 }
{
    let search = &bounded.search;
    completion_extensions(search) + MOST_OFFERS as u64 * search.case.days() as u64
}

// ---- rates, one pair after another

/// How rates are tried: the first pair, by how much the next ones differ, how many more are tried at most,
/// and how close a row must be to the completion bounds to be good enough. All are in the parts of a point
/// of the search's scale.
#[derive(Clone, Copy)]
struct TrialPlan {
    rates: Rates,
    by: u32,
    trials: usize,
    close: u32,
}

/// How rates are tried after an earlier search. If there was none, the first pair follows from the row of the
/// cheapest transitions.
fn plan_by(bounded: &Bounded<'_>, guess: Option<Guess>, meter: &mut Meter) -> TrialPlan
    requires room { meter.old + row_extensions bounded.now.search ≤ greatest_u64 }
    ensures small { AreSmallRates bounded.now.search.scale result.rates }
    ensures trials { result.trials ≤ 11 }
    ensures counted { (meter.old ≤ meter.new)
        × (meter.new ≤ meter.old + row_extensions bounded.now.search) }
{
    let scale = bounded.search.scale;
    let none = Rates { day: 0, weekend: 0 };
    let first = first_trials(bounded.search.case);
    match guess {
        Some(guess) if guess.is_own => TrialPlan {
            rates: within_range(guess.rates, scale),
            by: (scale + scale / 2).max(NEXT_CHANGE),
            trials: trials_from_same(bounded.search.case),
            close: guess.spread.saturating_add(scale * NEXT_CLOSE),
        },
        Some(guess) => TrialPlan {
            rates: within_range(guess.rates, scale),
            by: scale * NEXT_CHANGE,
            trials: min(MOST_TRIALS_FROM_OTHER, first),
            close: scale * CLOSE,
        },
        None => TrialPlan {
            rates: rates_after(
                bounded,
                none,
                scale * (ASSIGNMENT + WEEKEND),
                follow(&bounded.search, None, meter),
            ),
            by: scale * FIRST_CHANGE,
            trials: min(MOST_TRIALS, first),
            close: scale * CLOSE,
        },
    }
}

/// How many more pairs of rates a nurse's first search tries at most: over a few weeks the start's completion
/// bound is soon near the best row.
fn first_trials(case: &Case) -> usize {
    let weeks = case.weeks() as usize;
    weeks.saturating_sub(WEEKS_WITHOUT_TRIAL).max(FEWEST_TRIALS)
}

/// How many more pairs of rates a nurse's later searches try at most: one for each two weeks, since over more
/// weeks better completion bounds spare more partial rows.
fn trials_from_same(case: &Case) -> usize
    ensures { result ≤ 8 }
{
    let weeks = case.weeks() as usize;
    min(
        MOST_TRIALS_FROM_SAME,
        (weeks / 2).max(FEWEST_TRIALS_FROM_SAME),
    )
}

/// The rates, each at most what one assignment or worked weekend too many costs at a scale.
pub(crate) fn within_range(rates: Rates, scale: u32) -> Rates
    requires { scale ≤ most_scale }
    ensures { AreSmallRates scale result }
{
    Rates {
        day: min(rates.day, scale * ASSIGNMENT),
        weekend: min(rates.weekend, scale * WEEKEND),
    }
}

/// The best rates that were tried.
#[derive(Clone, Copy)]
pub(crate) struct Tried {
    pub(crate) rates: Rates,
    /// The start's completion bound at these rates.
    pub(crate) low: u32,
    /// The least cost of all rows that were followed, `u32::MAX` if there is none.
    pub(crate) high: u32,
    /// The rates at which completion bounds were set last.
    pub(crate) set: Rates,
    /// The row that follows the completion bounds at the best rates, if there is one.
    pub(crate) followed: Option<Followed>,
}

/// Judges completion bounds that were just set, as the first trial.
fn trial(bounded: &Bounded<'_>, rates: Rates, completion_bounds: &[u32], meter: &mut Meter) -> Tried
    requires set { AreSetAt bounded.now.search rates completion_bounds.now }
    requires room { meter.old + row_extensions bounded.now.search ≤ greatest_u64 }
    ensures rates { (result.rates ≡ rates) × (result.set ≡ rates) }
    ensures counted { (meter.old ≤ meter.new)
        × (meter.new ≤ meter.old + row_extensions bounded.now.search) }
{
    let SearchInput {
        case,
        nurse,
        scale,
        offers,
    } = bounded.search;
    // (The search is copied, since the completion bounds are borrowed for a shorter time.)
    let here = SearchInput {
        case,
        nurse,
        scale,
        offers,
    };
    let completion_bounds = CompletionBounds::of(&here, rates, completion_bounds);
    let (state, _) = start(case, nurse);
    let low = at_least(&completion_bounds, 0, &state);
    let followed = follow(&here, Some(&completion_bounds), meter);
    let high = match followed {
        Some(row) => row.cost,
        None => u32::MAX,
    };
    Tried {
        rates,
        low,
        high,
        set: rates,
        followed,
    }
}

/// Tries more rates, one pair after another, as long as others may be better and enough extensions are left
/// to set the completion bounds once more afterwards. If a pair isn't better, or was the best one before, the
/// next one is half as far from the best one.
fn try_rates(
    bounded: &Bounded<'_>,
    plan: TrialPlan,
    first: Tried,
    completion_bounds: &mut [u32],
    meter: &mut Meter,
) -> Tried
    requires tried { IsTried bounded.now.search completion_bounds.old first }
    requires room { meter.old + search_extensions bounded.now.search ≤ bounded.now.last_count }
    ensures tried { IsTried bounded.now.search completion_bounds.new result }
    ensures counted { CountsSets bounded.now.search.case.now bounded.now.search.nurse
        (offers_on bounded.now.search.offers.now) plan.trials plan.trials meter.old meter.new }
    ensures most { meter.new + search_extensions bounded.now.search ≤ bounded.now.last_count }
{
    let each = extensions_of_trial(bounded);
    let mut tried = first;
    let mut before = first.rates;
    let mut by = plan.by;
    'trials: for _trial in 0..plan.trials {
        let next = next_trial(bounded, &tried, before, by);
        let is_done = tried.high.saturating_sub(tried.low) <= plan.close
            || are_same(next.rates, tried.rates)
            || are_same(next.rates, tried.set);
        if is_done || bounded.last_count - meter.count() < 2 * each {
            return tried;
        }
        let last = tried;
        tried = try_more(bounded, tried, next.rates, completion_bounds, meter);
        by = next.by;
        if tried.low == last.low {
            by /= 2;
        } else {
            before = last.rates;
        }
    }
    tried
}

/// What is tried next: the rates, and by how much one of them is changed.
#[derive(Clone, Copy)]
struct NextTrial {
    rates: Rates,
    by: u32,
}

/// What to try after the best rates and those that were the best ones before. If it is these once more, the
/// change is half as large.
fn next_trial(bounded: &Bounded<'_>, tried: &Tried, before: Rates, by: u32) -> NextTrial
    requires small { AreSmallRates bounded.now.search.scale tried.now.rates }
    ensures small { AreSmallRates bounded.now.search.scale result.rates }
{
    let rates = rates_after(bounded, tried.rates, by, tried.followed);
    if !are_same(rates, before) {
        return NextTrial { rates, by };
    }
    let by = by / 2;
    NextTrial {
        rates: rates_after(bounded, tried.rates, by, tried.followed),
        by,
    }
}

/// Tries one more pair of rates, unless it is the best one. It becomes the best one if the start's completion
/// bound is higher at it.
pub(crate) fn try_more(
    bounded: &Bounded<'_>,
    tried: Tried,
    rates: Rates,
    completion_bounds: &mut [u32],
    meter: &mut Meter,
) -> Tried
    requires small { AreSmallRates bounded.now.search.scale rates }
    requires tried { IsTried bounded.now.search completion_bounds.old tried }
    requires room { meter.old + trial_extensions bounded.now.search ≤ greatest_u64 }
    ensures tried { IsTried bounded.now.search completion_bounds.new result }
    ensures counted { CountsSets bounded.now.search.case.now bounded.now.search.nurse
        (offers_on bounded.now.search.offers.now) 1 1 meter.old meter.new }
    ensures few { meter.new ≤ meter.old + trial_extensions bounded.now.search }
{
    if are_same(rates, tried.rates) {
        return tried;
    }
    set_completion_bounds(&bounded.search, rates, completion_bounds, meter);
    let other = trial(bounded, rates, completion_bounds, meter);
    let high = min(tried.high, other.high);
    if other.low > tried.low {
        return Tried { high, ..other };
    }
    Tried {
        high,
        set: rates,
        ..tried
    }
}

/// The rates to try next: each is raised if the followed row has too many of what it charges for, and lowered
/// if the row has fewer than it may.
fn rates_after(bounded: &Bounded<'_>, rates: Rates, by: u32, followed: Option<Followed>) -> Rates
    requires small { AreSmallRates bounded.now.search.scale rates }
    ensures small { AreSmallRates bounded.now.search.scale result }
{
    let Some(row) = followed else {
        return rates;
    };
    let rules = bounded.search.case.contract_rules(bounded.search.nurse);
    let most_days = rules.total.greatest as u32;
    let most_weekends = rules.weekends as u32;
    let scale = bounded.search.scale;
    let (day, weekend) = (scale * ASSIGNMENT, scale * WEEKEND);
    Rates {
        day: rate_after(rates.day, by, day, row.assignments, most_days),
        weekend: rate_after(rates.weekend, by, weekend, row.weekends, most_weekends),
    }
}

/// The next rate to try, at most `most`, for something of which a row has `count` and may have `greatest`.
fn rate_after(rate: u32, by: u32, most: u32, count: u32, greatest: u32) -> u32
    requires { rate ≤ most }
    ensures { result ≤ most }
{
    if count > greatest {
        return min(rate.saturating_add(by), most);
    }
    if count < greatest {
        return rate.saturating_sub(by);
    }
    rate
}

/// Whether two pairs of rates are the same.
pub(crate) fn are_same(rates: Rates, others: Rates) -> bool
    ensures { result ≡ true → rates ≡ others }
{
    rates.day == others.day && rates.weekend == others.weekend
}

// ---- the row that follows completion bounds

/// The row that follows completion bounds: its cost, and its assignments and worked weekends, those before
/// its first day included.
#[derive(Clone, Copy)]
pub(crate) struct Followed {
    cost: u32,
    assignments: u32,
    weekends: u32,
}

/// One transition of a row: the state after the day, and what the day costs.
#[derive(Clone, Copy)]
struct DayTransition {
    state: State,
    cost: u32,
}

/// Builds a row from the start on: on each day it makes the transition that is cheapest together with the
/// completion bound after it, or the cheapest one if there are no completion bounds yet. Returns `None` if a
/// day has no transition.
fn follow(
    search: &SearchInput<'_>,
    completion_bounds: Option<&CompletionBounds<'_>>,
    meter: &mut Meter,
) -> Option<Followed>
    requires same { IfSome completion_bounds (λ at. at.now.search ≡ search.now) }
    requires room { meter.old + row_extensions search.now ≤ greatest_u64 }
    ensures counted { (meter.old ≤ meter.new) × (meter.new ≤ meter.old + row_extensions search.now) }
{
    let SearchInput {
        case,
        nurse,
        scale,
        ..
    } = *search;
    let (mut state, _) = start(case, nurse);
    let mut row = Followed {
        cost: 0,
        assignments: state.assignments() as u32,
        weekends: state.weekends() as u32,
    };
    for day in 0..case.days() {
        let transition = best_transition(search, completion_bounds, day, state, meter)?;
        row = with_transition(row, day, &state, &transition);
        state = transition.state;
    }
    let end = scale.saturating_mul(end_cost(case, nurse, state));
    let cost = row.cost.saturating_add(end);
    Some(Followed { cost, ..row })
}

/// The row with one day more.
fn with_transition(
    row: Followed,
    day: u16,
    before: &State,
    transition: &DayTransition,
) -> Followed {
    let is_worked = transition.state.last_number() > 0;
    let weekends = weekends_more(day, before.last_number() > 0, is_worked);
    Followed {
        cost: row.cost.saturating_add(transition.cost),
        assignments: row.assignments.saturating_add(is_worked as u32),
        weekends: row.weekends.saturating_add(weekends),
    }
}

/// The transition by one of a day's offers that is cheapest, together with the completion bound after it if
/// there is one; of equally cheap ones the first. `None` if the last shift forbids each offer.
fn best_transition(
    search: &SearchInput<'_>,
    completion_bounds: Option<&CompletionBounds<'_>>,
    day: u16,
    state: State,
    meter: &mut Meter,
) -> Option<DayTransition>
    requires same { IfSome completion_bounds (λ at. at.now.search ≡ search.now) }
    requires day { day < day_count search.now.case.now }
    requires fits { FitsNurse search.now state }
    requires room { meter.old + most_offers ≤ greatest_u64 }
    ensures fits { IfSome result (λ transition. FitsNurse search.now transition.state) }
    ensures counted { (meter.old ≤ meter.new) × (meter.new ≤ meter.old + most_offers) }
{
    let SearchInput {
        case,
        nurse,
        scale,
        offers,
    } = *search;
    case.keeps_limits();
    let offers = offers[day as usize].as_slice();
    let days = NurseDays::of(case, nurse);
    let worked = days.worked(day, state);
    let mut best = None;
    let mut least = u64::MAX;
    for index in 0..offers.len() {
        let offer = offers[index];
        let shift = offer.choice.shift();
        let Some((next, more)) = days.extend(day, state, &worked, shift, meter) else {
            continue;
        };
        let cost = offer.price.saturating_add(scale.saturating_mul(more));
        let completion_bound = match completion_bounds {
            Some(completion_bounds) => at_least(completion_bounds, day + 1, &next),
            None => 0,
        };
        let whole = cost as u64 + completion_bound as u64;
        if whole < least {
            least = whole;
            best = Some(DayTransition { state: next, cost });
        }
    }
    best
}

//! Closer completion bounds, for searches in which too many partial rows survive by the first ones.

ghost use Rattle.std.specs.Prelude.{◌≡◌, ◌+◌, ◌≤◌};
ghost use Rattle.roster_offers.specs.Lists.{most_scale, offers_on};
ghost use Rattle.roster_completion.specs.CompletionBounds.{AreSmallRates, search_extensions};
ghost use Rattle.roster_partial.specs.Counts.{CountsSets, most_closer};
ghost use Rattle.roster_partial.specs.Rates.{AreSetAt, IsTried};

use crate::limited::Bounded;
use crate::rates::{
    BestBounds, Guess, Tried, are_same, extensions_of_trial, try_more, within_range,
};
use roster_completion::{Rates, set_completion_bounds};
use roster_state::Meter;

/// How many pairs of rates are tried at most.
const MOST_TRIALS: usize = 40;

/// By how many points one rate is changed at first.
const FIRST_CHANGE: u32 = 2;

/// Up to how many extensions of one trial closer bounds pay for a nurse of whom partial rows have found no
/// row yet. With many shifts over many weeks a trial takes more, and closer bounds didn't help there.
const FEW_EXTENSIONS: u64 = 500_000;

/// Whether it pays to set closer bounds: if partial rows have found a row of the nurse before, or if trials
/// take few extensions.
pub(crate) fn pays(bounded: &Bounded<'_>, guess: Option<Guess>) -> bool {
    let was_found = match guess {
        Some(guess) => guess.is_own,
        None => false,
    };
    was_found || extensions_of_trial(bounded) <= FEW_EXTENSIONS
}

/// Sets the completion bounds anew, at rates around those at which they were set: it raises or lowers one of
/// the two rates at a time, as long as the start's completion bound becomes higher, and by half as much after
/// that. This takes as long as many trials that follow rows, and finds rates that these miss.
pub(crate) fn set_closer_bounds(
    bounded: &Bounded<'_>,
    best: BestBounds,
    completion_bounds: &mut [u32],
    meter: &mut Meter,
) -> BestBounds
    requires set { AreSetAt bounded.now.search best.rates completion_bounds.old }
    requires room { meter.old ≤ bounded.now.last_count }
    ensures set { AreSetAt bounded.now.search result.rates completion_bounds.new }
    ensures counted { CountsSets bounded.now.search.case.now bounded.now.search.nurse
        (offers_on bounded.now.search.offers.now) most_closer most_closer meter.old meter.new }
    ensures most { meter.new ≤ bounded.now.last_count }
{
    if bounded.last_count - meter.count() < 2 * extensions_of_trial(bounded) {
        return best;
    }
    let first = Tried {
        rates: best.rates,
        low: best.low,
        high: best.high,
        set: best.rates,
        followed: None,
    };
    let last = try_around(bounded, first, completion_bounds, meter);
    if !are_same(last.rates, last.set) {
        set_completion_bounds(&bounded.search, last.rates, completion_bounds, meter);
    }
    BestBounds {
        rates: last.rates,
        low: last.low,
        high: last.high,
    }
}

/// Tries rates around the best ones, one pair after another, as long as enough extensions are left to set the
/// completion bounds once more afterwards.
fn try_around(
    bounded: &Bounded<'_>,
    first: Tried,
    completion_bounds: &mut [u32],
    meter: &mut Meter,
) -> Tried
    requires tried { IsTried bounded.now.search completion_bounds.old first }
    requires room { meter.old + search_extensions bounded.now.search ≤ bounded.now.last_count }
    ensures tried { IsTried bounded.now.search completion_bounds.new result }
    ensures counted { CountsSets bounded.now.search.case.now bounded.now.search.nurse
        (offers_on bounded.now.search.offers.now) 40 40 meter.old meter.new }
    ensures most { meter.new + search_extensions bounded.now.search ≤ bounded.now.last_count }
{
    let each = extensions_of_trial(bounded);
    let mut tried = first;
    let mut change = Change {
        by: bounded.search.scale * FIRST_CHANGE,
        direction: 0,
        failed: 0,
    };
    'trials: for _trial in 0..MOST_TRIALS {
        let rates = rates_after(tried.rates, change, bounded.search.scale);
        if change.by == 0 || bounded.last_count - meter.count() < 2 * each {
            return tried;
        }
        let low = tried.low;
        tried = try_more(bounded, tried, rates, completion_bounds, meter);
        change = change.next(tried.low > low);
    }
    tried
}

/// How rates are changed next: by how much, which of them and whether it is raised, by the number of the
/// direction, and in how many directions one after another that made the bounds no higher.
#[derive(Clone, Copy)]
struct Change {
    by: u32,
    direction: u32,
    failed: u32,
}

impl Change {
    /// The change after this one: the same as long as it makes the bounds higher, else that in the next
    /// direction, and after all four by half as much.
    fn next(self, is_higher: bool) -> Change {
        if is_higher {
            return Change { failed: 0, ..self };
        }
        let direction = if self.direction >= 3 {
            0
        } else {
            self.direction + 1
        };
        if self.failed >= 3 {
            return Change {
                by: self.by / 2,
                direction,
                failed: 0,
            };
        }
        Change {
            direction,
            failed: self.failed + 1,
            ..self
        }
    }
}

/// The rates after a change.
fn rates_after(rates: Rates, change: Change, scale: u32) -> Rates
    requires { scale ≤ most_scale }
    ensures { AreSmallRates scale result }
{
    let Rates { day, weekend } = rates;
    let by = change.by;
    let (day, weekend) = match change.direction {
        0 => (day.saturating_add(by), weekend),
        1 => (day.saturating_sub(by), weekend),
        2 => (day, weekend.saturating_add(by)),
        _ => (day, weekend.saturating_sub(by)),
    };
    within_range(Rates { day, weekend }, scale)
}

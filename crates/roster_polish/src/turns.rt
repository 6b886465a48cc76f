//! In which turns of a run the roster is faded again, and in which a neighbourhood of it is searched.

use crate::searches::Left;

/// The roster of the first fade has been searched enough after an eighth of all searches brought nothing
/// cheaper, or after this many; that of a later fade after half as many.
const MOST_PATIENCE: u64 = 10_000;

/// How much of a run goes to fades and to the neighbourhoods of their rosters: seven tenths. The rest goes to
/// the neighbourhoods of the best roster.
const TENTHS_WITH_FADES: u64 = 7;

/// How far the turns of a run have come: how many searches were left when a roster that was searched in
/// neighbourhoods was last made cheaper, what is left when no fade begins any more, what of this the
/// neighbourhoods of the best roster get, after how many searches that brought nothing a roster has been
/// searched enough, and how many microseconds a turn took that was no fade, at most.
#[derive(Clone, Copy, Debug, Default)]
pub(crate) struct Turns {
    since: u64,
    last_fade: Left,
    end: Left,
    patience: u64,
    longest: u64,
}

impl Turns {
    /// The turns of a run with this budget, of which some is left after its first fade. A later fade begins
    /// only if it can take as much as the first one before the last part begins.
    pub(crate) fn after_fade(all: Left, left: Left) -> Turns {
        let end = Left {
            searches: last_part_of(all.searches),
            micros: last_part_of(all.micros),
        };
        let made = all.searches.saturating_sub(left.searches);
        let took = all.micros.saturating_sub(left.micros);
        Turns {
            since: left.searches,
            last_fade: Left {
                searches: end.searches.saturating_add(made),
                micros: end.micros.saturating_add(took),
            },
            end,
            patience: (searches_within(all, made, took) / 8).min(MOST_PATIENCE),
            longest: 0,
        }
    }

    /// Whether the roster is faded again in the next turn, with this left: if it has been searched enough,
    /// and the last part of the run doesn't begin.
    pub(crate) fn fades_next(&self, left: Left) -> bool {
        self.since.saturating_sub(left.searches) > self.patience
            && left.searches > self.last_fade.searches
            && left.micros > self.last_fade.micros
    }

    /// Whether the roster of a later fade isn't searched on, with this left, if this many searches were left
    /// when it was last made cheaper.
    pub(crate) fn ends_search(&self, since: u64, left: Left) -> bool {
        left.searches <= self.end.searches
            || left.micros <= self.end.micros
            || since.saturating_sub(left.searches) > self.patience / 2
    }

    /// Whether another turn may be begun: if searches are left, and time for a turn as long as any so far.
    pub(crate) fn go_on(&self, left: Left) -> bool {
        left.searches > 0 && left.micros > self.longest
    }

    /// Records a turn, by what was left before and after it. Once a roster has been searched enough, fades
    /// follow one another until the last part of the run, whatever they bring.
    pub(crate) fn record(&mut self, before: Left, after: Left, faded: bool, cheaper: bool) {
        if !faded {
            let took = before.micros.saturating_sub(after.micros);
            self.longest = self.longest.max(took);
        }
        if cheaper && self.since.saturating_sub(after.searches) <= self.patience {
            self.since = after.searches;
        }
    }
}

/// The last part of a run.
fn last_part_of(all: u64) -> u64 {
    all / 10 * (10 - TENTHS_WITH_FADES)
}

/// How many searches a budget is, to judge by the microseconds that some of them took.
fn searches_within(all: Left, made: u64, took: u64) -> u64 {
    if took == 0 {
        return all.searches;
    }
    (all.micros / took).saturating_mul(made).min(all.searches)
}

//! The ways to go on from a last shift.

ghost use Rattle.std.specs.Prelude.{◌≡◌, ◌+◌, ◌*◌, ◌<◌, ◌≤◌, ℕ, length};
ghost use Rattle.roster_instance.specs.Choices.{shift_of};
ghost use Rattle.roster_instance.specs.Meaning.{shift_count};
ghost use Rattle.roster_offers.specs.Lists.{IsOfferAt, most_price_at};
ghost use Rattle.roster_state.specs.CompletionLines.{AreLow, most_leave};
ghost use Rattle.roster_completion.specs.Lines.{AreOnward, AreOpen, AreWays, IsLeastWay, IsOnward, IsOpenWay, IsWayAt, IsWayOf, apart_of, way_at, way_cost};

use crate::completion_day::CompletionDay;
use roster_instance::Shift;
use roster_offers::{MOST_OFFERS, Offer};
use roster_rules::weights::{SHIFT_RUN, SPLIT};
use roster_rules::{splits_more, weekends_more};

/// The greatest cost of a day and of what comes after it, as completion bounds count it: what is more counts
/// as this, which only makes a completion bound lower. No row costs more at the scale of a search. What the
/// run of a shift misses at the greatest scale comes to it, which makes 1,199,570,944 at most.
pub(crate) const MOST_LEAVE: u32 = 1_073_741_824;

/// Going on with another shift: what it costs when that shift begins, whatever the run of working days, and
/// the index of the first completion bound after it.
#[derive(Clone, Copy)]
pub(crate) struct Way {
    pub(crate) price: u32,
    pub(crate) index: u32,
}

/// What an offer costs after a worked day, whatever the last shift: its price with what doesn't depend on the
/// runs, and the way on if its shift begins.
#[derive(Clone, Copy)]
pub(crate) struct Onward {
    pub(crate) apart: u32,
    pub(crate) way: Way,
}

/// The ways on from a last shift: the least cost of a day off, the least cost of the same shift, and a way
/// for each offer of another shift that may follow.
#[derive(Clone, Copy)]
pub(crate) struct Ways {
    pub(crate) off: u32,
    pub(crate) stay: u32,
    pub(crate) count: usize,
    pub(crate) others: [Way; MOST_OFFERS],
}

/// A way that is never the cheapest.
const NO_WAY: Way = Way {
    price: MOST_LEAVE,
    index: 0,
};

/// What the offers of a day cost after a worked day, computed once for all last shifts.
pub(crate) fn onwards(day: &CompletionDay<'_, '_>) -> [Onward; MOST_OFFERS]
    ensures onwards { AreOnward day.now result }
{
    let nothing = Onward {
        apart: MOST_LEAVE,
        way: NO_WAY,
    };
    let mut all = [nothing; MOST_OFFERS];
    for index in 0..day.offers.len() {
        all[index] = of_offer(day, day.offers[index]);
    }
    all
}

/// What an offer costs after a worked day.
#[inline(always)]
fn of_offer(day: &CompletionDay<'_, '_>, offer: Offer) -> Onward
    requires offer { IsOfferAt day.now.case.now day.now.scale offer }
    ensures onward { IsOnward day.now result offer (shift_of offer.choice) }
    ensures open { IsOpenWay day.now result.way }
{
    Onward {
        apart: apart(day, true, offer),
        way: match offer.choice.shift() {
            None => NO_WAY,
            Some(shift) => way_to(day, true, offer, shift),
        },
    }
}

/// The ways on from a last shift on a day.
#[inline(always)]
pub(crate) fn ways_after(
    day: &CompletionDay<'_, '_>,
    onwards: &[Onward; MOST_OFFERS],
    last: Shift,
) -> Ways
    requires onwards { AreOnward day.now onwards.now }
    ensures ways { AreWays day.now last result }
{
    let mut ways = Ways {
        off: MOST_LEAVE,
        stay: MOST_LEAVE,
        count: 0,
        others: [NO_WAY; MOST_OFFERS],
    };
    for index in 0..day.offers.len() {
        add_way(&mut ways, day, onwards, last, index);
    }
    ways
}

/// Takes one more offer into account.
#[inline(always)]
fn add_way(
    ways: &mut Ways,
    day: &CompletionDay<'_, '_>,
    onwards: &[Onward; MOST_OFFERS],
    last: Shift,
    index: usize,
)
    requires onwards { AreOnward day.now onwards.now }
    requires index { index < length day.now.offers.now }
    requires capacity { length ways.old.others ≡ 9 }
    requires few { ways.old.count ≤ index }
    requires open { AreOpen day.now ways.old }
    ensures way { IsWayAt day.now last ways.new index }
    ensures others { (k : ℕ) → k < ways.old.count →
        way_at ways.new.others k ≡ way_at ways.old.others k }
    ensures more { (ways.old.count ≤ ways.new.count) × (ways.new.count ≤ index + 1) }
    ensures lower { (ways.new.off ≤ ways.old.off) × (ways.new.stay ≤ ways.old.stay) }
    ensures open { AreOpen day.now ways.new }
    ensures length { length ways.new.others ≡ 9 }
{
    let onward = onwards[index];
    match day.offers[index].choice.shift() {
        None => ways.off = ways.off.min(onward.apart),
        Some(shift) if day.case.forbids(last, shift) => {}
        Some(shift) if last.0 == shift.0 => ways.stay = ways.stay.min(onward.apart),
        Some(_) => {
            ways.others[ways.count] = onward.way;
            ways.count += 1;
        }
    }
}

/// The way on with a shift that begins after a worked day or a day off.
#[inline(always)]
pub(crate) fn way_to(day: &CompletionDay<'_, '_>, before: bool, offer: Offer, shift: Shift) -> Way
    requires offer { IsOfferAt day.now.case.now day.now.scale offer }
    requires shift { shift.0 < shift_count day.now.case.now }
    ensures way { IsWayOf day.now before offer shift result }
    ensures open { IsOpenWay day.now result }
{
    let run = day.case.run_of_shift(shift);
    let index = (shift.0 as usize + 1) * day.runs * day.shift_runs + (run.cap() as usize).min(1);
    Way {
        price: apart(day, before, offer) + day.goes_on(SHIFT_RUN, run, 0),
        index: index as u32,
    }
}

/// An offer's price with what doesn't depend on the runs, after a worked day or a day off.
#[inline(always)]
pub(crate) fn apart(day: &CompletionDay<'_, '_>, before: bool, offer: Offer) -> u32
    requires offer { IsOfferAt day.now.case.now day.now.scale offer }
    ensures cost { result ≡ apart_of day.now before offer }
    ensures within { result ≤ most_price_at day.now.scale + 80 * day.now.scale }
{
    let now = offer.choice.shift().is_some();
    let split = if day.rules.whole_weekends {
        day.parts(SPLIT * splits_more(day.day, before, now))
    } else {
        0
    };
    let rates = day.rates.day * now as u32
        + day.rates.weekend * weekends_more(day.day, before, now);
    offer.price + split + rates
}

/// The least cost of going on by one of the ways. `more` is how far the next run is from the first one.
#[inline(always)]
pub(crate) fn least_way(ways: &Ways, more: usize, next: &[u32]) -> u32
    requires count { ways.now.count ≤ length ways.now.others }
    requires price { (k : ℕ) → (way_at ways.now.others k).price ≤ most_leave }
    requires index { (k : ℕ) → (way_at ways.now.others k).index + more < length next.now }
    requires low { AreLow next.now }
    ensures least { (k : ℕ) → k < ways.now.count →
        result ≤ way_cost ways.now.others next.now more k }
    ensures met { IsLeastWay ways.now.others ways.now.count next.now more result }
    ensures within { result ≤ most_leave }
{
    let mut least = MOST_LEAVE;
    for index in 0..ways.count {
        let way = ways.others[index];
        least = least.min(way.price + next[way.index as usize + more]);
    }
    least
}

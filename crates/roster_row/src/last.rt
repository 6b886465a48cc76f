//! What the last search for each nurse says of the next one.

ghost use Rattle.std.specs.Prelude.{◌≡◌, ◌+◌, ◌*◌, ◌<◌, ◌≤◌, ◌^◌, ℕ, true, All, IfOk, IfSome, None, Some, is_some, length, replicate, slice_index_or, slice_set};
ghost use Rattle.roster_instance.specs.Choices.{shift_of};
ghost use Rattle.roster_instance.specs.Limits.{most_shifts};
ghost use Rattle.roster_instance.specs.Meaning.{Meaning, day_count, nurse_count};
ghost use Rattle.roster_rules.specs.AllowedRows.{best_row};
ghost use Rattle.roster_rules.specs.Improver.{step};
ghost use Rattle.roster_offers.specs.Lists.{AreOffersAt, offers_on};
ghost use Rattle.roster_row.specs.Recalled.{ArePrices, AreRemembered, IsDearer, RecallsSearches, RecallsSearchesAt, fits_last, gain_over, last_capacity, most_gain, price_index, prices_on};
ghost use Rattle.roster_row.specs.Searches.{AreOffersOf, AreShiftOffers};

use arrayvec::ArrayVec;
use roster_case::Held;
use roster_instance::{Case, Choice};
use roster_offers::{BestFault, MOST_OFFERS, Offer};
use roster_state::start;
use std::alloc::Global;

/// The price of what isn't offered.
const NOT_OFFERED: u32 = u32::MAX;

/// What the last search for each nurse went over and found: the price of each shift on each day, and the cost
/// of the best row. From this it follows for some nurses that no row has become cheaper than the present one,
/// so that the next search can be skipped. All searches of one value are at one scale. It takes 36 bytes for
/// each nurse and day, and 8 for each nurse: at most 5,244,800 bytes. One value serves all nurses of a case,
/// one after another.
pub struct LastSearches {
    /// For each nurse and day the price of a day off, and the price of each shift.
    pub(crate) prices: Vec<[u32; MOST_OFFERS]>,
    /// For each nurse what the best row cost, without what the start owes; `None` before the first search.
    pub(crate) costs: Vec<Option<u32>>,
}

// Written by hand, so that code that drops it has one call to prove.
impl Drop for LastSearches {
    fn drop(self) {
        let LastSearches {
            prices: _,
            costs: _,
        } = self;
    }
}

impl LastSearches {
    /// Capacity for the nurses of a case, by at most two allocations. No search is recorded.
    ///
    /// # Errors
    ///
    /// An allocation was refused.
    pub fn for_case(alloc: Global, case: &Case) -> Result<LastSearches, BestFault>
        ensures recalls { IfOk result (RecallsSearches case.now) }
    {
        let nurses = case.nurses();
        let days = case.days() as usize;
        Ok(LastSearches {
            prices: vec![in alloc; [NOT_OFFERED; MOST_OFFERS]; nurses * days]?,
            costs: vec![in alloc; None; nurses]?,
        })
    }

    /// Whether it serves the case: it has a cost for each nurse, and prices for each nurse and day.
    pub fn fits(&self, case: &Case) -> bool
        ensures { result ≡ fits_last case.now self.now }
    {
        let nurses = case.nurses();
        self.costs.len() == nurses && self.prices.len() == nurses * case.days() as usize
    }

    /// Forgets all searches.
    pub fn forget(&mut self)
        ensures prices { self.new.prices ≡ self.old.prices }
        ensures costs { self.new.costs.items ≡ replicate (length self.old.costs.items) None }
        ensures same_capacity { last_capacity self.new ≡ last_capacity self.old }
    {
        self.costs.fill(None);
    }

    /// Takes over what another value records of the same case.
    pub fn put(&mut self, other: &LastSearches)
        requires { (c : Meaning) × RecallsSearches c self.old × RecallsSearches c other.now }
        ensures prices { self.new.prices.items ≡ other.now.prices.items }
        ensures costs { self.new.costs.items ≡ other.now.costs.items }
        ensures recalls { (c : Meaning) → RecallsSearches c other.now → RecallsSearches c self.new }
        ensures same_capacity { last_capacity self.new ≡ last_capacity self.old }
    {
        self.prices.copy_from_slice(other.prices.as_slice());
        self.costs.copy_from_slice(other.costs.as_slice());
    }

    /// Whether the nurse's last search shows that no row is cheaper than the present one, given the nurse's
    /// offers of all days.
    pub(crate) fn has_none_cheaper(
        &self,
        held: &Held,
        nurse: usize,
        offers: &[ArrayVec<Offer, MOST_OFFERS>],
    ) -> bool
        requires nurse { nurse < nurse_count held.now.case }
        requires recalls { RecallsSearches held.now.case self.now }
        requires offers { AreOffersOf held.now.case held.now.roster nurse offers.now }
        ensures { result ≡ true → (from : ℕ) →
            AreShiftOffers held.now.case from held.now.roster nurse offers.now →
            step held.now.case (best_row held.now.case from) held.now.roster
            nurse ≡ held.now.roster }
    {
        held.case().keeps_limits();
        held.keeps_rules();
        let Some(cost) = self.costs[nurse] else {
            return false;
        };
        let (_, owed) = start(held.case(), nurse);
        let mut least = held.rest(nurse) + owed as u64 + cost as u64;
        let mut present = held.total();
        let days = offers.len();
        for day in 0..days {
            let before = &self.prices[nurse * days + day];
            let Some(Change { rise, fall }) = change_since(before, offers[day].as_slice()) else {
                return false;
            };
            least += rise as u64;
            present += fall as u64;
        }
        present <= least
    }

    /// Whether a search for the nurse is recorded.
    pub fn has_search(&self, nurse: usize) -> bool
        requires { nurse < length self.now.costs.items }
        ensures { result ≡ is_some (slice_index_or self.now.costs.items nurse None) }
    {
        self.costs[nurse].is_some()
    }

    /// How much more, at most, the present choice of a nurse's day has become dearer since her last search
    /// than any other offer of the day.
    pub fn most_gain(
        &self,
        case: &Case,
        nurse: usize,
        day: u16,
        present: Offer,
        offers: &[Offer],
    ) -> u64
        requires nurse { nurse < nurse_count case.now }
        requires day { day < day_count case.now }
        requires days { length self.now.prices.items ≡ nurse_count case.now * day_count case.now }
        requires present { price_index (shift_of present.choice) < 1 + most_shifts }
        requires indices { All (λ offer. price_index (shift_of offer.choice) < 1 + most_shifts)
            offers.now }
        ensures gain { result ≡ most_gain (prices_on case.now self.now nurse day) present
            offers.now }
        ensures within { result ≤ 2 ^ 33 }
    {
        case.keeps_limits();
        let prices = &self.prices[nurse * case.days() as usize + day as usize];
        let mut most = 0;
        for offer in offers {
            most = most.max(gain_over(prices, present, *offer));
        }
        most
    }

    /// Records the prices and the cost of a search for a nurse, instead of those of an earlier one. They are
    /// in the parts of a point of the search's scale.
    pub fn remember(
        &mut self,
        case: &Case,
        nurse: usize,
        offers: &[ArrayVec<Offer, MOST_OFFERS>],
        cost: u32,
    )
        requires nurse { nurse < nurse_count case.now }
        requires recalls { (scale : ℕ) × RecallsSearchesAt case.now scale self.old }
        requires days { length offers.now ≡ day_count case.now }
        requires offers { (scale : ℕ) × AreOffersAt case.now nurse scale offers.now }
        ensures recalls { AreRemembered case.now nurse (offers_on offers.now) cost self.old
            self.new }
        ensures recorded { self.new.costs.items ≡ slice_set self.old.costs.items nurse (Some cost) }
        ensures prices { (day : ℕ) → day < day_count case.now →
            ArePrices (offers_on offers.now day) (prices_on case.now self.new nurse day) }
        ensures same_capacity { last_capacity self.new ≡ last_capacity self.old }
    {
        case.keeps_limits();
        let days = offers.len();
        for day in 0..days {
            self.prices[nurse * days + day] = prices_by_shift(offers[day].as_slice());
        }
        self.costs[nurse] = Some(cost);
    }
}

/// How the prices of a day's offers have changed: each has risen by at least `rise` less `fall`, one of which
/// is 0.
#[derive(Clone, Copy)]
struct Change {
    rise: u32,
    fall: u32,
}

/// How a day's prices have changed since these. `None` if an offer had no price then.
fn change_since(prices: &[u32; MOST_OFFERS], offers: &[Offer]) -> Option<Change>
    requires indices { All (λ offer. price_index (shift_of offer.choice) < 1 + most_shifts)
        offers.now }
    ensures { IfSome result (λ change. All (IsDearer prices.now change.rise change.fall)
        offers.now) }
{
    let mut rise = u32::MAX;
    let mut fall = 0;
    for offer in offers {
        let before = prices[price_index(offer.choice)];
        if before == NOT_OFFERED {
            return None;
        }
        rise = rise.min(offer.price.saturating_sub(before));
        fall = fall.max(before.saturating_sub(offer.price));
    }
    Some(Change { rise, fall })
}

/// How much more the present choice has become dearer since these prices than an offer.
fn gain_over(prices: &[u32; MOST_OFFERS], present: Offer, offer: Offer) -> u64
    requires present { price_index (shift_of present.choice) < 1 + most_shifts }
    requires offer { price_index (shift_of offer.choice) < 1 + most_shifts }
    ensures gain { result ≡ gain_over prices.now present offer }
    ensures within { result ≤ 2 ^ 33 }
{
    let mine = prices[price_index(present.choice)] as u64;
    let others = prices[price_index(offer.choice)] as u64;
    (present.price as u64 + others).saturating_sub(mine + offer.price as u64)
}

/// The price of each shift on a day.
fn prices_by_shift(offers: &[Offer]) -> [u32; MOST_OFFERS]
    requires indices { All (λ offer. price_index (shift_of offer.choice) < 1 + most_shifts)
        offers.now }
    ensures { ArePrices offers.now result }
{
    let mut prices = [NOT_OFFERED; MOST_OFFERS];
    for offer in offers {
        prices[price_index(offer.choice)] = offer.price;
    }
    prices
}

/// The index of a choice's price: the day off comes first, then each shift.
fn price_index(choice: Choice) -> usize
    ensures { result ≡ price_index (shift_of choice) }
{
    match choice.shift() {
        None => 0,
        Some(shift) => shift.0 as usize + 1,
    }
}

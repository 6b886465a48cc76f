//! What a kicked nurse is offered.

ghost use Rattle.std.specs.Prelude.{◌≡◌, ◌+◌, ◌*◌, ◌<◌, true};
ghost use Rattle.roster_instance.specs.Meaning.{day_count, nurse_count};
ghost use Rattle.roster_instance.specs.Rosters.{is_choice_of};
ghost use Rattle.roster_slots.specs.Tables.{slot_prices};
ghost use Rattle.roster_prices.specs.LowerBounds.{price_by};
ghost use Rattle.roster_offers.specs.Workspaces.{fits_space};
ghost use Rattle.roster_polish.specs.Kicks.{AreKickOffers, FitsKick, from_on, kick_offers, price_from, shift_index};

use arrayvec::ArrayVec;
use roster_case::Held;
use roster_instance::{Case, Choice};
use roster_offers::{
    MOST_CHOICES, MOST_OFFERS, Offer, OffersDays, SearchesRows, Workspace, cheapest_by_shift,
    put_offers, request_cost,
};
use roster_row::choices;
use roster_slots::{DualPrices, MOST_DUAL_PRICE};

/// How a kick prices offers, and in which weeks it offers more than the present row.
#[derive(Clone, Copy)]
pub(crate) struct Kick<'a> {
    pub(crate) dual_prices: &'a DualPrices,
    /// Whether the prices go by dual prices, or are the true ones.
    pub(crate) by_dual_price: bool,
    /// By how many points choices are dearer: nine numbers for each day, for a day off and for each shift.
    pub(crate) dearer: &'a [u8],
    /// The weeks before this one are frozen.
    pub(crate) from: u16,
    /// The first week that is open, and the week after the last.
    pub(crate) first: u16,
    pub(crate) last: u16,
}

/// The week before which all is frozen, as it is for a day: a day outside of the open weeks is frozen too.
fn from_on(kick: &Kick<'_>, day: u16) -> u16
    ensures { result ≡ from_on kick.now day }
{
    let week = day / 7;
    if kick.first <= week && week < kick.last {
        kick.from
    } else {
        kick.from.max(week + 1)
    }
}

/// The price of an offer on a day in a kick.
fn price(kick: &Kick<'_>, case: &Case, nurse: usize, day: u16, offer: Offer) -> u32
    requires kick { FitsKick case.now kick.now }
    requires nurse { nurse < nurse_count case.now }
    requires day { day < day_count case.now }
    requires choice { is_choice_of case.now offer.choice ≡ true }
    ensures { result ≡ price_from case.now nurse kick.now day offer.choice offer.price }
{
    let price = if kick.by_dual_price {
        price_by_dual_price(kick, case, nurse, day, offer.choice)
    } else {
        offer.price
    };
    let position = shift_index(case, offer.choice) as usize;
    let more = kick.dearer[9 * day as usize + position];
    (price as u64 + more as u64).min(MOST_PRICE) as u32
}

/// The greatest price of an offer.
const MOST_PRICE: u64 = 1_918_200;

/// The price of a choice by dual prices: the greatest dual price less what the nurse earns, plus what the
/// requests cost.
fn price_by_dual_price(kick: &Kick<'_>, case: &Case, nurse: usize, day: u16, choice: Choice) -> u32
    requires kick { FitsKick case.now kick.now }
    requires nurse { nurse < nurse_count case.now }
    requires day { day < day_count case.now }
    requires choice { is_choice_of case.now choice ≡ true }
    ensures { result ≡ price_by case.now 1 (slot_prices 1 kick.now.dual_prices.now) nurse day
        choice }
{
    case.keeps_limits();
    let choice_dual_price = match choice {
        Choice::Off => 0,
        Choice::Work(shift, skill) => kick.dual_prices.at(1, day, shift, skill),
    };
    MOST_DUAL_PRICE - choice_dual_price + request_cost(case, nurse, day, choice.shift())
}

/// The index of a choice among the nine of a day: to be off, then the shifts.
fn shift_index(case: &Case, choice: Choice) -> u8
    requires { is_choice_of case.now choice ≡ true }
    ensures position { result ≡ shift_index choice }
    ensures within { result < 9 }
{
    case.keeps_limits();
    match choice {
        Choice::Off => 0,
        Choice::Work(shift, _) => 1 + shift.0,
    }
}

/// Replaces the offers in a workspace by those of each day, one for each shift.
pub(crate) fn offer_days<T: SearchesRows>(
    held: &Held,
    nurse: usize,
    kick: &Kick<'_>,
    workspace: &mut Workspace<T>,
)
    requires nurse { nurse < nurse_count held.now.case }
    requires kick { FitsKick held.now.case kick.now }
    requires fits { fits_space held.now.case workspace.old ≡ true }
    ensures offers { AreKickOffers held.now.case held.now.roster nurse kick.now
        workspace.new.offers }
    ensures fits { fits_space held.now.case workspace.new ≡ true }
{
    put_offers(held.case(), nurse, &Kicked { held, kick }, workspace)
}

/// Offers on each day what a kick offers of a held roster, one offer for each shift.
#[derive(Clone, Copy)]
struct Kicked<'a> {
    held: &'a Held,
    kick: &'a Kick<'a>,
}

impl OffersDays for Kicked<'_> {
    ghost use Rattle.std.specs.Prelude.{◌<◌};
    ghost use Rattle.roster_instance.specs.Meaning.{day_count, nurse_count};
    ghost use Rattle.roster_polish.specs.Kicks.{FitsKick, kick_offers};

    ghost Serves = { λ o n d. (n < nurse_count o.held.now.case) × (d < day_count o.held.now.case)
        × FitsKick o.held.now.case o.kick.now };

    ghost offers = { λ o n d. kick_offers o.held.now.case o.held.now.roster n o.kick.now d };

    fn offers_of_day(&self, nurse: usize, day: u16) -> ArrayVec<Offer, MOST_OFFERS> {
        offers_of_day(self.held, nurse, day, self.kick)
    }
}

/// The offers of one day, at the prices of the kick.
fn offers_of_day(
    held: &Held,
    nurse: usize,
    day: u16,
    kick: &Kick<'_>,
) -> ArrayVec<Offer, MOST_OFFERS>
    requires nurse { nurse < nurse_count held.now.case }
    requires day { day < day_count held.now.case }
    requires kick { FitsKick held.now.case kick.now }
    ensures { result.items ≡ kick_offers held.now.case held.now.roster nurse kick.now day }
{
    held.case().keeps_limits();
    let open = choices(held, nurse, day, from_on(kick, day));
    let mut offers = ArrayVec::<Offer, MOST_CHOICES>::new();
    for position in 0..open.len() {
        let offer = open[position];
        let price = price(kick, held.case(), nurse, day, offer);
        offers.push(Offer {
            choice: offer.choice,
            price,
        });
    }
    cheapest_by_shift(&offers)
}

//! The offers of all days of a nurse.

ghost use Rattle.std.specs.Prelude.{◌≡◌, ◌<◌, ℕ, List, length, true};
ghost use Rattle.roster_instance.specs.Meaning.{day_count};
ghost use Rattle.roster_offers.specs.declared.offer.Offer.{Offer};
ghost use Rattle.roster_offers.specs.Lists.{offers_on};
ghost use Rattle.roster_offers.specs.Workspaces.{SameCapacity, fits_space};

use crate::offer::{MOST_OFFERS, Offer};
use crate::workspace::{SearchesRows, Workspace};
use arrayvec::ArrayVec;
use roster_instance::Case;

/// What a nurse is offered on each day.
pub trait OffersDays {
    /// It offers choices on this day to this nurse.
    ghost Serves: { Self → (nurse day : ℕ) → Type 0 };

    /// The offers of a day.
    ghost offers: { Self → (nurse day : ℕ) → List Offer };

    /// All that the nurse is offered on a day.
    fn offers_of_day(&self, nurse: usize, day: u16) -> ArrayVec<Offer, MOST_OFFERS>
        requires serves { Serves self.now nurse day }
        ensures offers { result.items ≡ offers self.now nurse day };
}

/// Replaces the offers in a workspace by those of each day of the case, which a search then goes over.
pub fn put_offers<O: OffersDays, T: SearchesRows>(
    case: &Case,
    nurse: usize,
    by: &O,
    workspace: &mut Workspace<T>,
)
    requires serves { (day : ℕ) → day < day_count case.now → O.Serves by.now nurse day }
    requires fits { fits_space case.now workspace.old ≡ true }
    ensures days { length workspace.new.offers ≡ day_count case.now }
    ensures each { (day : ℕ) → day < day_count case.now →
        offers_on workspace.new.offers day ≡ O.offers by.now nurse day }
    ensures same_capacity { SameCapacity workspace.old workspace.new }
    ensures fits { fits_space case.now workspace.new ≡ true }
{
    case.keeps_limits();
    workspace.clear_offers();
    for day in 0..case.days() {
        workspace.push_offers(by.offers_of_day(nurse, day));
    }
}

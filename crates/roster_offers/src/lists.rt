//! The lists of offers that a search goes over.

ghost use Rattle.std.specs.Prelude.{◌<◌};
ghost use Rattle.roster_instance.specs.Meaning.{nurse_count};
ghost use Rattle.roster_offers.specs.Lists.{AreOffersAt, IsScaleOf};

use crate::offer::{MOST_OFFERS, Offer};
use arrayvec::ArrayVec;
use roster_instance::Case;

/// The greatest number of days of a case, `most_days` of the limits of an instance.
pub const MOST_DAYS: usize = 364;

/// A table of offers, with capacity for a list for each day of any case. It is long, so a caller who searches
/// often keeps one.
pub type DayOffers = ArrayVec<ArrayVec<Offer, MOST_OFFERS>, MOST_DAYS>;

/// The input of a search: a nurse of a case, and for each day what the nurse is offered. Prices, and the cost
/// of a row, are in parts of a point: a point has as many as the scale says, one at scale 1.
#[derive(Clone, Copy)]
pub struct SearchInput<'a> {
    pub case: &'a Case,
    pub nurse: usize,
    pub scale: u32,
    pub offers: &'a [ArrayVec<Offer, MOST_OFFERS>],
    pub ghost in_case: { nurse < nurse_count case.now },
    pub ghost in_scale: { IsScaleOf case.now scale },
    pub ghost for_nurse: { AreOffersAt case.now nurse scale offers.now },
}

//! The cheapest offer of a day for each shift.

ghost use Rattle.std.specs.Prelude.{◌≡◌, ◌+◌, ◌<◌, ◌≤◌, length, take};
ghost use Rattle.roster_instance.specs.Choices.{shift_of};
ghost use Rattle.roster_instance.specs.Limits.{most_shifts};
ghost use Rattle.roster_offers.specs.Offers.{cheapest_by_shift, same_shift};

use crate::offer::{MOST_OFFERS, Offer};
use arrayvec::ArrayVec;
use roster_instance::Choice;

/// For each shift the cheapest of its offers, which are next to each other in the list, and of equally cheap
/// ones the first.
pub fn cheapest_by_shift(offers: &[Offer]) -> ArrayVec<Offer, MOST_OFFERS>
    requires few { length (cheapest_by_shift offers.now) ≤ 1 + most_shifts }
    ensures cheapest { result.items ≡ cheapest_by_shift offers.now }
{
    let mut kept = ArrayVec::new();
    for index in 0..offers.len() {
        keep_offer(offers, index, &mut kept);
    }
    kept
}

/// Adds the offer at an index to those that are kept of the offers before it. If the last of these is for the
/// same shift, only the cheaper of the two is kept, of equally cheap ones the first.
fn keep_offer(offers: &[Offer], index: usize, kept: &mut ArrayVec<Offer, MOST_OFFERS>)
    requires index { index < length offers.now }
    requires few { length (cheapest_by_shift offers.now) ≤ 1 + most_shifts }
    requires kept { kept.old.items ≡ cheapest_by_shift (take index offers.now) }
    ensures kept { kept.new.items ≡ cheapest_by_shift (take (index + 1) offers.now) }
{
    let offer = offers[index];
    let Some(last) = kept.pop() else {
        kept.push(offer);
        return;
    };
    if !is_same_shift(last.choice, offer.choice) {
        kept.push(last);
        kept.push(offer);
    } else if offer.price < last.price {
        kept.push(offer);
    } else {
        kept.push(last);
    }
}

/// Whether both choices are the same shift, with whatever skills, or both are a day off.
fn is_same_shift(one: Choice, other: Choice) -> bool
    ensures { result ≡ same_shift (shift_of one) (shift_of other) }
{
    one.shift() == other.shift()
}

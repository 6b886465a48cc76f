//! Whether a row leads through the offers of all days.

ghost use Rattle.std.specs.Prelude.{◌≡◌, ◌+◌, ◌<◌, ◌&&◌, ℕ, All, false, length, slice_index_or};
ghost use Rattle.roster_instance.specs.Choices.{shift_of};
ghost use Rattle.roster_instance.specs.Limits.{most_shifts};
ghost use Rattle.roster_instance.specs.Meaning.{day_count, last_shift, past_of};
ghost use Rattle.roster_offers.specs.Lists.{offers_on};
ghost use Rattle.roster_offers.specs.declared.offer.Offer.{Offer};
ghost use Rattle.roster_who.specs.Ways.{goes_on, last_at, last_index, leads_on};

use arrayvec::ArrayVec;
use roster_instance::{Case, Choice, Shift};
use roster_offers::{MOST_OFFERS, Offer};
use roster_rules::last_shift;

/// For each last shift, none first: whether a row can go on from a day to the end.
type Ways = [bool; MOST_OFFERS];

/// Whether a row leads through the offers of all days after the nurse's history, such that no shift is
/// forbidden after the one before.
pub(crate) fn leads_through(
    case: &Case,
    nurse: usize,
    offers: &[ArrayVec<Offer, MOST_OFFERS>],
) -> bool
    requires days { length offers.now ≡ day_count case.now }
    requires places { (d : ℕ) → d < day_count case.now → All
        (λ offer. last_index (shift_of offer.choice) < 1 + most_shifts) (offers_on offers.now d) }
    ensures { result ≡ leads_on case.now (offers_on offers.now) (day_count case.now) 0
        (last_shift (past_of case.now nurse).border) }
{
    case.keeps_limits();
    let mut ways = [true; MOST_OFFERS];
    let days = offers.len();
    for after in 0..days {
        let day = days - 1 - after;
        ways = ways_before(case, offers[day].as_slice(), &ways);
    }
    ways[last_index(last_shift(case.past(nurse).border))]
}

/// The ways before a day, by its offers and the ways after it.
fn ways_before(case: &Case, offers: &[Offer], after: &Ways) -> Ways
    requires { All (λ offer. last_index (shift_of offer.choice) < 1 + most_shifts) offers.now }
    ensures { (at : ℕ) → at < 1 + most_shifts → slice_index_or result at false
        ≡ goes_on case.now offers.now after.now (last_at at) }
{
    let mut ways = [false; MOST_OFFERS];
    for index in 0..MOST_OFFERS {
        ways[index] = goes_on(case, last_at(index), offers, after);
    }
    ways
}

/// Whether one of the offers leads on after a last shift.
fn goes_on(case: &Case, last: Option<Shift>, offers: &[Offer], after: &Ways) -> bool
    requires { All (λ offer. last_index (shift_of offer.choice) < 1 + most_shifts) offers.now }
    ensures { result ≡ goes_on case.now offers.now after.now last }
{
    for offer in offers {
        let shift = offer.choice.shift();
        if !case.forbids_next(last, shift) && after[last_index(shift)] {
            return true;
        }
    }
    false
}

fn last_index(last: Option<Shift>) -> usize
    ensures { result ≡ last_index last }
{
    match last {
        None => 0,
        Some(shift) => shift.0 as usize + 1,
    }
}

fn last_at(index: usize) -> Option<Shift>
    requires { index < 1 + most_shifts }
    ensures { result ≡ last_at index }
{
    if index == 0 {
        return None;
    }
    Some(Shift((index - 1) as u8))
}

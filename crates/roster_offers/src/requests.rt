//! What a nurse's own requests cost on a day.

ghost use Rattle.std.specs.Prelude.{◌≡◌, ◌+◌, ◌<◌, ◌≤◌, ◌||◌, ◌==◌, false, not, None, Option};
ghost use Rattle.roster_instance.specs.declared.choice.Shift.{Shift};
ghost use Rattle.roster_instance.specs.Meaning.{nurse_count};
ghost use Rattle.roster_rules.specs.Penalties.{keep_cost_on, meets_wishes, off_request_cost_on, request_cost_on, wish_cost_on};
ghost use Rattle.roster_rules.specs.Weights.{most_request, off_request_weight, wish_weight};

use roster_instance::{Case, Shift};
use roster_rules::weights::{OFF_REQUEST, WISH};
use roster_rules::{keep_cost_on, meets_wishes};

/// What the requests of a day cost. `more` says whether more than off requests can cost something, which is
/// seldom the case.
pub fn cost_of_requests(
    case: &Case,
    nurse: usize,
    day: u16,
    shift: Option<Shift>,
    more: bool,
) -> u32
    requires nurse { nurse < nurse_count case.now }
    requires more { more ≡ false → wish_cost_on case.now nurse day shift
        + keep_cost_on case.now nurse day shift ≡ 0 }
    ensures cost { result ≡ request_cost_on case.now nurse day shift }
    ensures within { result ≤ most_request }
{
    if more {
        return request_cost(case, nurse, day, shift);
    }
    off_request_cost(case, nurse, day, shift)
}

/// Whether more than off requests can cost something on the day: a given roster is to be kept, or the nurse
/// has a wish to work on that day.
#[tactic(auto, using(roster_rules::proofs::KeptLemmas::free_at_no_points))]
pub fn can_cost_more(case: &Case, nurse: usize, day: u16) -> bool
    requires { nurse < nurse_count case.now }
    ensures more { result ≡ (not (case.now.keep == 0)
        || not (meets_wishes case.now nurse day None)) }
    ensures free { (shift : Option Shift) → result ≡ false → wish_cost_on case.now nurse day shift
        + keep_cost_on case.now nurse day shift ≡ 0 }
{
    if case.keep() != 0 {
        return true;
    }
    has_some_wish(case, nurse, day)
}

/// Whether the nurse has a wish to work on the day: one that a day off doesn't meet. Without such a wish no
/// wish costs anything on that day.
fn has_some_wish(case: &Case, nurse: usize, day: u16) -> bool
    requires { nurse < nurse_count case.now }
    ensures some { result ≡ not (meets_wishes case.now nurse day None) }
    ensures free { (shift : Option Shift) → result ≡ false →
        wish_cost_on case.now nurse day shift ≡ 0 }
{
    let wishes = case.wishes(nurse, day);
    let mut some = wishes.any;
    for number in 0..case.shifts() {
        some = some || wishes.names(Shift(number));
    }
    some
}

/// The points for the nurse's requests of a day, by the shift that is worked then, if one is.
pub fn request_cost(case: &Case, nurse: usize, day: u16, shift: Option<Shift>) -> u32
    requires { nurse < nurse_count case.now }
    ensures cost { result ≡ request_cost_on case.now nurse day shift }
    ensures within { result ≤ most_request }
{
    off_request_cost(case, nurse, day, shift)
        + wish_cost(case, nurse, day, shift)
        + keep_cost_on(case, nurse, day, shift)
}

/// S4. The points for an off request against the shift of a day, if one is worked.
fn off_request_cost(case: &Case, nurse: usize, day: u16, shift: Option<Shift>) -> u32
    requires { nurse < nurse_count case.now }
    ensures cost { result ≡ off_request_cost_on case.now nurse day shift }
    ensures within { result ≤ off_request_weight }
{
    match shift {
        Some(shift) => OFF_REQUEST * case.has_off_request(nurse, day, shift) as u32,
        None => 0,
    }
}

/// S8. The points for a wish to work that isn't met, also by a day off.
fn wish_cost(case: &Case, nurse: usize, day: u16, shift: Option<Shift>) -> u32
    requires { nurse < nurse_count case.now }
    ensures cost { result ≡ wish_cost_on case.now nurse day shift }
    ensures within { result ≤ wish_weight }
{
    WISH * !meets_wishes(case, nurse, day, shift) as u32
}

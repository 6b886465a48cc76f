//! Which offers of a day may follow a last shift. This is looked up once for each last shift of a day.

ghost use Rattle.std.specs.Prelude.{◌≡◌, ◌+◌, ◌<◌, ◌≤◌, IsNone, IsSome, IsSomeAnd, List, Some, length};
ghost use Rattle.roster_bundle.specs.Limits.{greatest_u64};
ghost use Rattle.roster_instance.specs.Meaning.{Meaning};
ghost use Rattle.roster_offers.specs.declared.offer.Offer.{Offer};
ghost use Rattle.roster_state.specs.Codes.{shift_digit};
ghost use Rattle.roster_partial.specs.Allowed.{AreListed, MayFollow, listed_after};
ghost use Rattle.roster_partial.specs.Rates.{most_offers};

use arrayvec::ArrayVec;
use roster_instance::Case;
use roster_offers::{MOST_OFFERS, Offer};
use roster_state::{BOXES, Meter, State, is_forbidden};

/// Indices of offers among those of a day.
pub type Indices = ArrayVec<u8, MOST_OFFERS>;

/// For each last shift, by its number, which is 0 if there is none, the indices of the offers that may follow
/// it; `None` until a partial row with this last shift has come.
pub type Allowed = [Option<Indices>; BOXES];

/// What is listed before the first partial row of a day: nothing.
pub fn none_allowed() -> Allowed
    ensures long { length result ≡ 9 }
    ensures each { (case : Meaning) (offers : List Offer) → AreListed case offers result }
{
    [None, None, None, None, None, None, None, None, None]
}

/// Looks up which offers may follow the last shift of a state, unless they are listed already. The meter
/// counts each offer that may not: these and the extensions by those that may are together as many as there
/// are offers.
pub fn allow(case: &Case, state: State, offers: &[Offer], allowed: &mut Allowed, meter: &mut Meter)
    requires digit { shift_digit state.last < length allowed.old }
    requires few { length offers.now ≤ most_offers }
    requires room { meter.old + length offers.now ≤ greatest_u64 }
    requires each { AreListed case.now offers.now allowed.old }
    ensures long { length allowed.new ≡ length allowed.old }
    ensures each { AreListed case.now offers.now allowed.new }
    ensures looked { IsNone (listed_after allowed.old state.last) →
        IsSomeAnd (listed_after allowed.new state.last)
        (λ indices. meter.new + length indices.items ≡ meter.old + length offers.now) }
    ensures kept { IsSome (listed_after allowed.old state.last) →
        (allowed.new ≡ allowed.old) × (meter.new ≡ meter.old) }
    ensures listed { IsSomeAnd (listed_after allowed.new state.last) (λ indices.
        (meter.old ≤ meter.new) ×
        (meter.new + length indices.items ≤ meter.old + length offers.now)) }
{
    let digit = state.last_number() as usize;
    if allowed[digit].is_none() {
        allowed[digit] = Some(allowed_after(case, state, offers, meter));
    }
}

/// The indices of the offers that may follow the last shift of a state, which are listed.
pub fn indices_after(allowed: &Allowed, state: State) -> &[u8]
    requires digit { shift_digit state.last < length allowed.now }
    requires listed { IsSome (listed_after allowed.now state.last) }
    ensures { listed_after allowed.now state.last ≡ Some (record { items = result.now }) }
{
    let indices = allowed[state.last_number() as usize].as_ref();
    indices.unwrap().as_slice()
}

/// The indices of the offers that may follow the last shift of a state. The meter counts each offer that may
/// not.
fn allowed_after(case: &Case, state: State, offers: &[Offer], meter: &mut Meter) -> Indices
    requires few { length offers.now ≤ most_offers }
    requires room { meter.old + length offers.now ≤ greatest_u64 }
    ensures allowed { MayFollow case.now state.last offers.now result.items }
    ensures counted { meter.new + length result.items ≡ meter.old + length offers.now }
{
    let mut indices = ArrayVec::new();
    for index in 0..offers.len() {
        if !is_forbidden(case, state, offers[index].choice.shift(), meter) {
            indices.push(index as u8);
        }
    }
    indices
}

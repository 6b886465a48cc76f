//! The least that slots cost by dual prices, in parts of a point.

ghost use Rattle.std.specs.Prelude.{◌≡◌, ◌+◌, ◌-◌, ◌*◌, ◌/◌, ◌%◌, ◌<◌, ◌≤◌};
ghost use Rattle.roster_instance.specs.Counting.{sum_below};
ghost use Rattle.roster_instance.specs.Limits.{most_small};
ghost use Rattle.roster_instance.specs.Meaning.{day_count, minimum, optimum, shift_count, skill_count};
ghost use Rattle.roster_rules.specs.Weights.{staffing_weight};
ghost use Rattle.roster_offers.specs.Lists.{most_scale};
ghost use Rattle.roster_slots.specs.Tables.{slot_prices};
ghost use Rattle.roster_slots.specs.Slots.{most_slot_cost, most_dual_price, slot_bound, slots_bound};

use crate::dual_prices::DualPrices;
use roster_instance::{Case, Need, Shift, Skill};
use roster_rules::weights::STAFFING;

/// The least that all slots cost together by dual prices.
#[tactic(auto, using(roster_rules::proofs::CountLemmas::sum_more))]
pub fn slots_bound(case: &Case, scale: u32, dual_prices: &DualPrices) -> u64
    requires scale { scale ≤ most_scale }
    requires dual_prices { dual_prices.now.days ≡ day_count case.now }
    ensures bound { result ≡ slots_bound case.now scale (slot_prices scale dual_prices.now) }
    ensures within { result ≤ day_count case.now * (64 * most_slot_cost) }
{
    let mut bound = 0;
    for day in 0..case.days() {
        bound += day_bound(case, scale, dual_prices, day);
    }
    bound
}

#[tactic(auto, using(roster_rules::proofs::CountLemmas::sum_more))]
fn day_bound(case: &Case, scale: u32, dual_prices: &DualPrices, day: u16) -> u64
    requires scale { scale ≤ most_scale }
    requires day { day < day_count case.now }
    requires dual_prices { dual_prices.now.days ≡ day_count case.now }
    ensures bound { result ≡ sum_below (shift_count case.now)
        (λ s. sum_below (skill_count case.now)
        (slot_bound case.now scale (slot_prices scale dual_prices.now) day s)) }
    ensures within { result ≤ 64 * most_slot_cost }
{
    let mut bound = 0;
    for shift in 0..case.shifts() {
        bound += shift_bound(case, scale, dual_prices, day, shift);
    }
    bound
}

#[tactic(auto, using(roster_rules::proofs::CountLemmas::sum_more))]
fn shift_bound(case: &Case, scale: u32, dual_prices: &DualPrices, day: u16, shift: u8) -> u64
    requires scale { scale ≤ most_scale }
    requires day { day < day_count case.now }
    requires shift { shift < shift_count case.now }
    requires dual_prices { dual_prices.now.days ≡ day_count case.now }
    ensures bound { result ≡ sum_below (skill_count case.now)
        (slot_bound case.now scale (slot_prices scale dual_prices.now) day shift) }
    ensures within { result ≤ 8 * most_slot_cost }
{
    let mut bound = 0;
    for skill in 0..case.skills() {
        bound += slot_bound(case, scale, dual_prices, day, Shift(shift), Skill(skill));
    }
    bound
}

/// The least that a slot costs: at the minimum, or at the optimum if that is more.
fn slot_bound(
    case: &Case,
    scale: u32,
    dual_prices: &DualPrices,
    day: u16,
    shift: Shift,
    skill: Skill,
) -> u64
    requires scale { scale ≤ most_scale }
    requires day { day < day_count case.now }
    requires shift { shift.0 < shift_count case.now }
    requires skill { skill.0 < skill_count case.now }
    requires dual_prices { dual_prices.now.days ≡ day_count case.now }
    ensures bound { result ≡ slot_bound case.now scale (slot_prices scale dual_prices.now) day
        shift.0 skill.0 }
    ensures within { result ≤ most_slot_cost }
{
    case.keeps_limits();
    let need = case.need(day, shift, skill);
    let dual_price = dual_prices.at(scale, day, shift, skill);
    let at_minimum = slot_cost(scale, need.optimum, dual_price, need.minimum);
    let at_optimum = slot_cost(
        scale,
        need.optimum,
        dual_price,
        need.minimum.max(need.optimum),
    );
    at_minimum.min(at_optimum)
}

/// What a slot costs with this many nurses: the penalty for those short of the optimum, and the dual price of
/// each.
fn slot_cost(scale: u32, optimum: u16, dual_price: u32, nurses: u16) -> u64
    requires scale { scale ≤ most_scale }
    requires optimum { optimum ≤ most_small }
    requires dual_price { dual_price ≤ scale * most_dual_price }
    requires nurses { nurses ≤ most_small }
    ensures cost { result ≡ scale * (staffing_weight * (optimum - nurses)) + dual_price * nurses }
    ensures within { result ≤ most_slot_cost }
{
    let missing = STAFFING * optimum.saturating_sub(nurses) as u32;
    scale as u64 * missing as u64 + dual_price as u64 * nurses as u64
}

/// The minimum and the optimum of a slot.
pub fn need_at(case: &Case, slot: usize) -> Need
    requires { slot < 64 * day_count case.now }
    ensures minimum { result.minimum ≡ minimum case.now (slot / 64) (slot % 64 / 8) (slot % 8) }
    ensures optimum { result.optimum ≡ optimum case.now (slot / 64) (slot % 64 / 8) (slot % 8) }
{
    case.keeps_limits();
    let (day, shift, skill) = (slot / 64, slot % 64 / 8, slot % 8);
    case.need(day as u16, Shift(shift as u8), Skill(skill as u8))
}

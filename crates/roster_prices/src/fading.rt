//! What slots pay in a fade: prices that go, pass after pass, from dual prices to what cover really costs.

ghost use Rattle.std.specs.Prelude.{◌≡◌, ◌*◌, ◌/◌, ◌<◌, ◌≤◌, IfSome, length, min, true};
ghost use Rattle.roster_instance.specs.Meaning.{day_count, minimum, nurse_count, optimum};
ghost use Rattle.roster_instance.specs.Rosters.{is_choice_of};
ghost use Rattle.roster_prices.specs.Fading.{HaveFollowed, followed_by};
ghost use Rattle.roster_slots.specs.Tables.{most_fine, slot_prices};
ghost use Rattle.roster_prices.specs.Workspaces.{FitsBound};
ghost use Rattle.roster_prices.specs.LowerBounds.{price_by};

use crate::offers::{Terms, price_with};
use crate::workspace::BoundWorkspace;
use roster_instance::{Case, Choice, Need, Roster, Shift, Skill};
use roster_offers::{SearchesRows, request_cost};
use roster_rules::weights::STAFFING;
use roster_slots::{DualPrices, FINE_PER_POINT, MOST_FINE, count_row, need_at};

/// How far a fade has come: the share of the dual price in what a slot pays, in 1024ths. The rest is what one
/// more nurse gains there: what a missing nurse costs if the slot is short of its optimum, and `missing`
/// points more if it is below its minimum.
#[derive(Clone, Copy)]
pub struct Fading {
    pub share: u32,
    pub missing: u32,
}

/// The share with which a slot pays its dual price alone.
pub const WHOLE: u32 = 1024;

/// Sets the cover to that of a roster's rows.
pub fn count_rows<T: SearchesRows>(case: &Case, roster: &Roster, bounds: &mut BoundWorkspace<T>)
    requires { FitsBound case.now bounds.old }
    ensures { FitsBound case.now bounds.new }
{
    bounds.rows.forget();
    for nurse in 0..case.nurses() {
        count_row(roster.row(nurse), &mut bounds.rows.cover);
    }
}

/// Moves the dual price of each slot that asks for nurses by this many fine units: up if the slot has too few
/// nurses, down if it has too many.
pub fn follow_cover<T: SearchesRows>(case: &Case, step: u32, bounds: &mut BoundWorkspace<T>)
    requires { FitsBound case.now bounds.old }
    ensures followed { HaveFollowed case.now step bounds.old bounds.new }
    ensures fits { FitsBound case.now bounds.new }
{
    for slot in 0..64 * case.days() as usize {
        let need = need_at(case, slot);
        let nurses = bounds.rows.cover[slot];
        let fine = bounds.dual_prices.fine_at(slot);
        bounds
            .dual_prices
            .put_fine(slot, followed(need, nurses, fine, step));
    }
}

/// Raises the dual price of each slot whose cover is below its minimum by this many points.
pub fn raise_uncovered<T: SearchesRows>(case: &Case, points: u32, bounds: &mut BoundWorkspace<T>)
    requires { FitsBound case.now bounds.old }
    ensures { FitsBound case.now bounds.new }
{
    for slot in 0..64 * case.days() as usize {
        if bounds.rows.cover[slot] < need_at(case, slot).minimum {
            let fine = bounds.dual_prices.fine_at(slot);
            let more = FINE_PER_POINT.saturating_mul(points);
            bounds.dual_prices.put_fine(slot, fine.saturating_add(more));
        }
    }
}

/// Sets what each slot pays in a fade, by the cover.
pub fn price_slots<T: SearchesRows>(
    case: &Case,
    fading: Fading,
    bounds: &BoundWorkspace<T>,
    fade_prices: &mut DualPrices,
)
    requires fits { FitsBound case.now bounds.now }
    requires days { fade_prices.old.days ≡ day_count case.now }
    ensures days { fade_prices.new.days ≡ fade_prices.old.days }
{
    for slot in 0..64 * case.days() as usize {
        price_slot(case, slot, fading, bounds, fade_prices);
    }
}

/// Takes a row out of the cover, and sets what its slots pay without it.
pub fn take_row<T: SearchesRows>(
    case: &Case,
    row: &[Choice],
    fading: Fading,
    bounds: &mut BoundWorkspace<T>,
    fade_prices: &mut DualPrices,
)
    requires fits { FitsBound case.now bounds.old }
    requires days { fade_prices.old.days ≡ day_count case.now }
    ensures fits { FitsBound case.now bounds.new }
    ensures days { fade_prices.new.days ≡ fade_prices.old.days }
{
    for day in 0..row.len() {
        if let Some(slot) = slot_of(case, row, day) {
            bounds.rows.cover[slot] = bounds.rows.cover[slot].saturating_sub(1);
            price_slot(case, slot, fading, bounds, fade_prices);
        }
    }
}

/// Adds a row to the cover, and sets what its slots pay with it.
pub fn put_row<T: SearchesRows>(
    case: &Case,
    row: &[Choice],
    fading: Fading,
    bounds: &mut BoundWorkspace<T>,
    fade_prices: &mut DualPrices,
)
    requires fits { FitsBound case.now bounds.old }
    requires days { fade_prices.old.days ≡ day_count case.now }
    ensures fits { FitsBound case.now bounds.new }
    ensures days { fade_prices.new.days ≡ fade_prices.old.days }
{
    count_row(row, &mut bounds.rows.cover);
    for day in 0..row.len() {
        if let Some(slot) = slot_of(case, row, day) {
            price_slot(case, slot, fading, bounds, fade_prices);
        }
    }
}

/// The price of a choice for a nurse on a day: the greatest dual price less what she earns, plus what the
/// requests cost.
pub fn price_of(terms: &Terms<'_>, nurse: usize, day: u16, choice: Choice) -> u32
    requires nurse { nurse < nurse_count terms.now.case.now }
    requires day { day < day_count terms.now.case.now }
    requires choice { is_choice_of terms.now.case.now choice ≡ true }
    ensures price { result ≡ price_by terms.now.case.now terms.now.scale
        (slot_prices terms.now.scale terms.now.dual_prices.now) nurse day choice }
{
    let asked = request_cost(terms.case, nurse, day, choice.shift());
    price_with(terms, day, choice, asked)
}

/// Whether the cover of some slot is below its minimum.
pub fn has_uncovered_slot<T: SearchesRows>(case: &Case, bounds: &BoundWorkspace<T>) -> bool
    requires { FitsBound case.now bounds.now }
{
    for slot in 0..64 * case.days() as usize {
        if bounds.rows.cover[slot] < need_at(case, slot).minimum {
            return true;
        }
    }
    false
}

/// The slot of a row on a day; none if the nurse is off or the case has no such day.
fn slot_of(case: &Case, row: &[Choice], day: usize) -> Option<usize>
    requires { day < length row.now }
    ensures { IfSome result (λ slot. slot < 64 * day_count case.now) }
{
    let Choice::Work(shift, skill) = row[day] else {
        return None;
    };
    let within = 8 * shift.0 as usize + skill.0 as usize;
    let slot = day.saturating_mul(64).saturating_add(within);
    if slot < 64 * case.days() as usize {
        Some(slot)
    } else {
        None
    }
}

/// A dual price that has followed the cover: the slot wants its optimum as long as the dual price is at most
/// what a missing nurse costs, and else its minimum.
fn followed(need: Need, nurses: u16, fine: u32, step: u32) -> u32
    requires { fine ≤ most_fine }
    ensures followed { result ≡ followed_by need.minimum need.optimum nurses fine step }
    ensures within { result ≤ most_fine }
{
    let wanted = if fine <= FINE_PER_POINT * STAFFING {
        need.minimum.max(need.optimum)
    } else {
        need.minimum
    };
    if need.minimum == 0 && need.optimum == 0 {
        fine
    } else if nurses < wanted {
        fine.saturating_add(step).min(MOST_FINE)
    } else if nurses > wanted {
        fine.saturating_sub(step)
    } else {
        fine
    }
}

/// Sets what a slot pays in a fade, by the cover.
fn price_slot<T: SearchesRows>(
    case: &Case,
    slot: usize,
    fading: Fading,
    bounds: &BoundWorkspace<T>,
    fade_prices: &mut DualPrices,
)
    requires slot { slot < 64 * day_count case.now }
    requires fits { FitsBound case.now bounds.now }
    requires days { fade_prices.old.days ≡ day_count case.now }
    ensures days { fade_prices.new.days ≡ fade_prices.old.days }
{
    let need = need_at(case, slot);
    let nurses = bounds.rows.cover[slot];
    let fine = bounds.dual_prices.fine_at(slot);
    fade_prices.put_fine(slot, faded_price(need, nurses, fine, fading));
}

/// What a slot pays in a fade, in fine units: a share of its dual price, and the rest of what one more nurse
/// gains.
fn faded_price(need: Need, nurses: u16, fine: u32, fading: Fading) -> u32 {
    let short = if nurses < need.optimum { STAFFING } else { 0 };
    let missing = if nurses < need.minimum {
        fading.missing
    } else {
        0
    };
    let gain = FINE_PER_POINT as u64 * (short as u64 + missing as u64);
    let share = fading.share.min(WHOLE) as u64;
    let all = fine as u64 * share + gain * (WHOLE as u64 - share) + WHOLE as u64 / 2;
    (all / WHOLE as u64).min(MOST_FINE as u64) as u32
}

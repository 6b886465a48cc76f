//! How far each nurse's present row is from the cheapest by dual prices: by that nurses are drawn.

ghost use Rattle.std.specs.Prelude.{◌≡◌, ◌<◌};
ghost use Rattle.roster_instance.specs.Meaning.{day_count, nurse_count};
ghost use Rattle.roster_near.specs.Spending.{CanGoOn, HasGoneOn};

use crate::problem::Problem;
use crate::space::NearSpace;
use crate::spend::search_one;
use crate::work::Budget;
use roster_costs::nurse_cost;
use roster_instance::{Case, Choice};
use roster_offers::SearchesRows;
use roster_prices::{BoundWorkspace, NearBase, Window, WindowTerms};
use roster_slots::{DualPrices, FINE_PER_POINT, need_at, slot_on, unreduced_cost};
use roster_state::Meter;

/// After how many tries the excess is computed anew.
const TRIES_PER_WEIGHING: u64 = 50;

/// Computes each nurse's excess anew if it is due: by how much the reduced cost of her present row is above
/// the least, and the prices of the slots in it that have more nurses than they ask for.
pub(crate) fn weigh_if_due<T: SearchesRows>(
    base: &NearBase<'_>,
    near: &mut NearSpace,
    bounds: &mut BoundWorkspace<T>,
    budget: &mut Budget,
    meter: &mut Meter,
)
    requires able { CanGoOn base.now.case.now bounds.old meter.old budget.old.left }
    ensures gone { HasGoneOn base.now.case.now bounds.new meter.old budget.old.left meter.new
        budget.new.left }
{
    if near.draws.tries % TRIES_PER_WEIGHING != 0 {
        return;
    }
    // No nurse is free, so that the cover is that of all.
    let window = Window {
        first: 0,
        end: base.case.days(),
    };
    near.problem.begin(window);
    near.problem.count_others(base);
    for nurse in 0..base.case.nurses() {
        weigh(base, nurse, near, bounds, budget, meter);
    }
}

/// Computes a nurse's excess, by one of the searches that are left.
fn weigh<T: SearchesRows>(
    base: &NearBase<'_>,
    nurse: usize,
    near: &mut NearSpace,
    bounds: &mut BoundWorkspace<T>,
    budget: &mut Budget,
    meter: &mut Meter,
)
    requires nurse { nurse < nurse_count base.now.case.now }
    requires able { CanGoOn base.now.case.now bounds.old meter.old budget.old.left }
    ensures gone { HasGoneOn base.now.case.now bounds.new meter.old budget.old.left meter.new
        budget.new.left }
{
    let dual_prices = &bounds.dual_prices;
    let terms = WindowTerms {
        base: &*base,
        dual_prices,
        window: near.problem.window,
        node: &[],
    };
    let Some(cost) = search_one(&terms, nurse, &mut bounds.rows, budget, meter) else {
        return;
    };
    let row = bounds.rows.workspace.row();
    let own = unreduced_cost(row, cost, base.scale, dual_prices);
    let least = reduced(base.case, row, own, dual_prices);
    let present = present_value(base, nurse, &near.problem, dual_prices);
    let excess = present.saturating_sub(least).max(0).unsigned_abs();
    if nurse < near.draws.excess.len() {
        near.draws.excess[nurse] = excess;
    }
}

/// The reduced cost of a nurse's present row, and the prices of the slots in it that have more nurses than
/// they ask for, in fine units.
fn present_value(
    base: &NearBase<'_>,
    nurse: usize,
    problem: &Problem,
    dual_prices: &DualPrices,
) -> i64
    requires nurse { nurse < nurse_count base.now.case.now }
    requires days { dual_prices.now.days ≡ day_count base.now.case.now }
{
    let row = base.given.row(nurse);
    if row.len() != base.case.days() as usize {
        return 0;
    }
    let own = nurse_cost(base.case, nurse, row);
    let value = reduced(base.case, row, own, dual_prices);
    value.saturating_add(price_of_excess(base.case, row, problem, dual_prices))
}

/// The reduced cost of a row, in fine units.
fn reduced(case: &Case, row: &[Choice], own: u32, dual_prices: &DualPrices) -> i64
    requires { dual_prices.now.days ≡ day_count case.now }
{
    let mut value = FINE_PER_POINT as i64 * own as i64;
    for day in 0..row.len() {
        let slot = slot_on(row[day], day) as usize;
        if slot < 64 * case.days() as usize {
            value = value.saturating_sub(dual_prices.fine_at(slot) as i64);
        }
    }
    value
}

/// The prices of a row's slots that have more nurses than they ask for, in fine units.
fn price_of_excess(case: &Case, row: &[Choice], problem: &Problem, dual_prices: &DualPrices) -> i64
    requires { dual_prices.now.days ≡ day_count case.now }
{
    let mut price: i64 = 0;
    for day in 0..row.len() {
        let slot = slot_on(row[day], day) as usize;
        if slot < 64 * case.days() as usize && slot < problem.cover.len() {
            let need = need_at(case, slot);
            if problem.cover[slot] > need.minimum.max(need.optimum) {
                price = price.saturating_add(dual_prices.fine_at(slot) as i64);
            }
        }
    }
    price
}

//! The cheapest pooled rows.

ghost use Rattle.std.specs.Prelude.{◌≡◌, ◌<◌, IfSome, length};
ghost use Rattle.roster_instance.specs.Meaning.{nurse_count};
ghost use Rattle.roster_slots.specs.ColumnPool.{FitsPool};
ghost use Rattle.roster_prices.specs.Workspaces.{FitsBound};

use crate::decisions::Decision;
use crate::workspace::BoundWorkspace;
use roster_instance::Case;
use roster_offers::SearchesRows;
use roster_slots::{ColumnPool, DualPrices, ROWS_PER_NURSE, fine_slots_cost, slot_on};

/// A pooled row, and what it costs by the dual prices, as `ColumnPool::cost_by` gives it.
#[derive(Clone, Copy)]
struct CheapestRow {
    at: usize,
    cost: u64,
}

/// The value of the dual prices by the pooled rows of a node: what all slots cost at least and each nurse's
/// cheapest pooled row, together, in fine units. The greatest dual price is in it once for each nurse and
/// day. It is no lower bound. Sets the cover to that of these rows, and counts one more use of each.
pub fn value_by_pooled_rows<T: SearchesRows>(
    case: &Case,
    node: &[Decision],
    bounds: &mut BoundWorkspace<T>,
    uses: &mut [u32],
) -> u64
    requires { FitsBound case.now bounds.old }
    ensures { FitsBound case.now bounds.new }
{
    let BoundWorkspace {
        rows,
        dual_prices,
        pool,
        ..
    } = bounds;
    rows.forget();
    let slots = fine_slots_cost(case, dual_prices);
    slots.saturating_add(count_cheapest(case, node, pool, dual_prices, &mut rows.cover, uses))
}

/// Adds each nurse's cheapest pooled row in a node to the cover and to the uses. Returns what they cost
/// together; a nurse without such a row costs more than any row.
fn count_cheapest(
    case: &Case,
    node: &[Decision],
    pool: &ColumnPool,
    dual_prices: &DualPrices,
    cover: &mut [u16],
    uses: &mut [u32],
) -> u64
    requires fits { FitsPool case.now pool.now }
    ensures { length cover.new ≡ length cover.old }
{
    let mut cost: u64 = 0;
    for nurse in 0..case.nurses() {
        let Some(pooled) = cheapest(case, node, nurse, pool, dual_prices) else {
            cost = cost.saturating_add(NO_POOLED_ROW);
            continue;
        };
        cost = cost.saturating_add(pooled.cost);
        pool.count_row(case, pooled.at, cover);
        if pooled.at < uses.len() {
            uses[pooled.at] = uses[pooled.at].saturating_add(1);
        }
    }
    cost
}

/// What a nurse without a pooled row costs.
const NO_POOLED_ROW: u64 = 1 << 52;

/// The pooled row of a nurse that is cheapest by the dual prices, of those that keep the decisions of a node:
/// the first if there are several.
fn cheapest(
    case: &Case,
    node: &[Decision],
    nurse: usize,
    pool: &ColumnPool,
    dual_prices: &DualPrices,
) -> Option<CheapestRow>
    requires nurse { nurse < nurse_count case.now }
    requires fits { FitsPool case.now pool.now }
    ensures { IfSome result (λ pooled. pooled.at < length pool.now.entries.items) }
{
    let first = ROWS_PER_NURSE * nurse;
    let mut cheapest = None;
    let mut least = u64::MAX;
    for at in first..first + ROWS_PER_NURSE {
        if pool.entries[at].turn == 0 {
            break;
        }
        let cost = pool.cost_by(case, at, dual_prices);
        if cost < least && keeps_decisions(case, node, nurse, at, pool) {
            least = cost;
            cheapest = Some(CheapestRow { at, cost });
        }
    }
    cheapest
}

/// Whether a pooled row of a nurse keeps the decisions of a node.
fn keeps_decisions(
    case: &Case,
    node: &[Decision],
    nurse: usize,
    at: usize,
    pool: &ColumnPool,
) -> bool
    requires fits { FitsPool case.now pool.now }
    requires at { at < length pool.now.entries.items }
{
    for decision in node {
        if decision.nurse as usize == nurse {
            let slot = pool.slot_at(case, at, decision.day);
            let does = slot == slot_on(decision.choice, decision.day as usize);
            if does != decision.does {
                return false;
            }
        }
    }
    true
}

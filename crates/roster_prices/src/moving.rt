//! How dual prices move from round to round.

ghost use Rattle.std.specs.Prelude.{◌+◌, ◌*◌, ◌≤◌};
ghost use Rattle.roster_bundle.specs.Limits.{greatest_u64};
ghost use Rattle.roster_instance.specs.Meaning.{nurse_count};
ghost use Rattle.roster_laws.specs.Greatest.{greatest_extension_count};
ghost use Rattle.roster_prices.specs.Workspaces.{CountsRound, FitsBound};

use crate::bounds::row_bounds;
use crate::decisions::Decision;
use crate::offers::{Base, Terms};
use crate::pooled::value_by_pooled_rows;
use crate::workspace::BoundWorkspace;
use roster_instance::Case;
use roster_offers::SearchesRows;
use roster_slots::target_cap;
use roster_state::Meter;

/// Improves the dual prices of a workspace by one round as raising a bound does, after `made` others, but
/// gives no bound. They move towards the penalty of a roster, if it is given. The round makes a search for
/// each nurse, and each search counts at least one extension for each day. It takes no memory.
pub fn improve_dual_prices<T: SearchesRows>(
    base: &Base<'_>,
    made: u16,
    penalty: Option<u64>,
    workspace: &mut BoundWorkspace<T>,
    meter: &mut Meter,
)
    requires fits { FitsBound base.now.case.now workspace.old }
    requires room { meter.old + nurse_count base.now.case.now * greatest_extension_count
        base.now.case.now ≤ greatest_u64 }
    ensures counted { CountsRound base.now.case.now meter.old meter.new }
    ensures fits { FitsBound base.now.case.now workspace.new }
{
    search_rows(base, workspace, meter);
    prepare_next(base.case, made, penalty, workspace);
}

/// Searches each nurse's cheapest row by the dual prices. The cover counts it, and the pool keeps it.
fn search_rows<T: SearchesRows>(
    base: &Base<'_>,
    workspace: &mut BoundWorkspace<T>,
    meter: &mut Meter,
)
    requires fits { FitsBound base.now.case.now workspace.old }
    requires room { meter.old + nurse_count base.now.case.now * greatest_extension_count
        base.now.case.now ≤ greatest_u64 }
    ensures counted { CountsRound base.now.case.now meter.old meter.new }
    ensures fits { FitsBound base.now.case.now workspace.new }
{
    let terms = Terms {
        case: base.case,
        dual_prices: &workspace.dual_prices,
        given: base.given,
        from: base.from,
        scale: base.scale,
    };
    row_bounds(&terms, &[], &mut workspace.rows, &mut workspace.pool, meter);
}

/// What each slot that asks for nurses pays in the first round: as much as a missing nurse costs. That gives
/// a good bound at once, but steps from there hardly move.
pub(crate) const FIRST_DUAL_PRICE: u32 = 30;

/// What it pays in the second round.
const SECOND_DUAL_PRICE: u32 = 15;

/// Sets the dual prices of the next round, after one before which `made` rounds were made. How many are yet
/// to come it doesn't know.
pub fn prepare_next<T: SearchesRows>(
    case: &Case,
    made: u16,
    penalty: Option<u64>,
    workspace: &mut BoundWorkspace<T>,
)
    requires fits { FitsBound case.now workspace.old }
    ensures { FitsBound case.now workspace.new }
{
    if made == 0 {
        workspace.dual_prices.set_all(case, SECOND_DUAL_PRICE);
        return;
    }
    if made == 1 {
        set_better(case, workspace);
    }
    move_by_pooled_rows(case, &[], target_cap(case, penalty), workspace, &mut []);
}

/// Sets the dual prices of the first round or those of the second, whichever have the greater value by the
/// rows of both.
fn set_better<T: SearchesRows>(case: &Case, workspace: &mut BoundWorkspace<T>)
    requires fits { FitsBound case.now workspace.old }
    ensures { FitsBound case.now workspace.new }
{
    workspace.dual_prices.set_all(case, FIRST_DUAL_PRICE);
    let first = value_by_pooled_rows(case, &[], workspace, &mut []);
    workspace.dual_prices.set_all(case, SECOND_DUAL_PRICE);
    let second = value_by_pooled_rows(case, &[], workspace, &mut []);
    if first > second {
        workspace.dual_prices.set_all(case, FIRST_DUAL_PRICE);
    }
}

/// How many subgradient steps follow each round of searches.
const STEPS_PER_ROUND: u16 = 50;

/// Makes the subgradient steps that follow a round of searches in a node, by its pooled rows, and counts how
/// often each row was the cheapest of its nurse. Their target is at most the cap; they end early if a value
/// reaches it. Returns the greatest value by the pooled rows.
pub fn move_by_pooled_rows<T: SearchesRows>(
    case: &Case,
    node: &[Decision],
    cap: u64,
    workspace: &mut BoundWorkspace<T>,
    uses: &mut [u32],
) -> u64
    requires { FitsBound case.now workspace.old }
    ensures { FitsBound case.now workspace.new }
{
    workspace.directions.forget();
    let mut most = 0;
    let mut target = cap;
    for made in 0..STEPS_PER_ROUND {
        let value = value_by_pooled_rows(case, node, workspace, uses);
        most = most.max(value);
        if made == 0 {
            target = workspace.target.begin_at(value, cap);
        }
        if value >= target {
            break;
        }
        if !make_step(case, short_for(target - value, made), workspace) {
            break;
        }
    }
    most
}

/// By how much a step is to raise the value, if it is so far below the target: by less and less from step to
/// step.
fn short_for(short: u64, made: u16) -> u64
    requires { made ≤ 50 }
{
    let left = (STEPS_PER_ROUND - made) as u64;
    short.min(MOST_SHORT).saturating_mul(left) / STEPS_PER_ROUND as u64
}

/// A step is never longer than for a value that is this many fine units below the target.
const MOST_SHORT: u64 = 1 << 40;

/// Makes a subgradient step by the cover, which is to raise the value by this much. Returns false if no dual
/// price would move.
fn make_step<T: SearchesRows>(case: &Case, short: u64, workspace: &mut BoundWorkspace<T>) -> bool
    requires fits { FitsBound case.now workspace.old }
    ensures { FitsBound case.now workspace.new }
{
    let BoundWorkspace {
        rows,
        dual_prices,
        directions,
        ..
    } = workspace;
    directions.set_subgradient(case, dual_prices, &rows.cover);
    let square = directions.turn();
    if square == 0 {
        return false;
    }
    dual_prices.step_along(&directions.direction, short, square);
    true
}

//! The lower bound by dual prices.

ghost use Rattle.std.specs.Prelude.{◌≡◌, ◌+◌, ◌*◌, ◌<◌, ◌≤◌};
ghost use Rattle.roster_bundle.specs.Limits.{greatest_u64};
ghost use Rattle.roster_instance.specs.Meaning.{day_count, nurse_count};
ghost use Rattle.roster_laws.specs.Greatest.{greatest_extension_count};
ghost use Rattle.roster_offers.specs.Lists.{most_scale};
ghost use Rattle.roster_slots.specs.Slots.{most_dual_price};
ghost use Rattle.roster_slots.specs.ColumnPool.{FitsPool};
ghost use Rattle.roster_slots.specs.Tables.{slot_prices};
ghost use Rattle.roster_prices.specs.Nodes.{IsLowerBoundIn, bound_in};
ghost use Rattle.roster_prices.specs.Workspaces.{CountsRound, FitsRows};
ghost use Rattle.roster_prices.specs.LowerBounds.{IsLowerBound, bound_by, in_points, rounded_up};
ghost use Rattle.roster_bound.specs.Rounds.{bound_of_sum, sum_in};

use roster_instance::Case;
use roster_offers::SearchesRows;
use roster_prices::{Decision, RowSpace, Terms, row_bounds};
use roster_slots::{ColumnPool, MOST_DUAL_PRICE, slots_bound};
use roster_state::Meter;

/// The lower bound by dual prices: every roster that fits the case, keeps the hard rules and has the given
/// one's frozen days has at least this penalty. The cover counts the first of each nurse's cheapest rows, and
/// the pool keeps these.
pub fn lower_bound<T: SearchesRows>(
    terms: &Terms<'_>,
    rows: &mut RowSpace<T>,
    pool: &mut ColumnPool,
    meter: &mut Meter,
) -> u64
    requires rows { FitsRows terms.now.case.now rows.old }
    requires pool { FitsPool terms.now.case.now pool.old }
    requires room { meter.old + nurse_count terms.now.case.now * greatest_extension_count
        terms.now.case.now ≤ greatest_u64 }
    ensures below { IsLowerBound terms.now.case.now terms.now.from terms.now.given.now result }
    ensures bound { result ≡ bound_by terms.now.case.now terms.now.from terms.now.given.now
        terms.now.scale (slot_prices terms.now.scale terms.now.dual_prices.now) }
    ensures rows { FitsRows terms.now.case.now rows.new }
    ensures pool { FitsPool terms.now.case.now pool.new }
    ensures counted { CountsRound terms.now.case.now meter.old meter.new }
{
    lower_bound_in(terms, &[], rows, pool, meter)
}

/// The same for the rosters of a node alone.
pub(crate) fn lower_bound_in<T: SearchesRows>(
    terms: &Terms<'_>,
    node: &[Decision],
    rows: &mut RowSpace<T>,
    pool: &mut ColumnPool,
    meter: &mut Meter,
) -> u64
    requires rows { FitsRows terms.now.case.now rows.old }
    requires pool { FitsPool terms.now.case.now pool.old }
    requires room { meter.old + nurse_count terms.now.case.now * greatest_extension_count
        terms.now.case.now ≤ greatest_u64 }
    ensures below { IsLowerBoundIn terms.now.case.now terms.now.from terms.now.given.now node.now
        result }
    ensures bound { result ≡ bound_in terms.now.case.now terms.now.from terms.now.given.now
        terms.now.scale (slot_prices terms.now.scale terms.now.dual_prices.now) node.now }
    ensures rows { FitsRows terms.now.case.now rows.new }
    ensures pool { FitsPool terms.now.case.now pool.new }
    ensures counted { CountsRound terms.now.case.now meter.old meter.new }
{
    terms.dual_prices.keep_most();
    let sum = sum_in(terms, node, rows, pool, meter);
    bound_of_sum(terms.case, terms.scale, sum)
}

/// What slots and nurses cost at least together in a node, in parts of a point, with the greatest dual price
/// still in the price of each day.
pub(crate) fn sum_in<T: SearchesRows>(
    terms: &Terms<'_>,
    node: &[Decision],
    rows: &mut RowSpace<T>,
    pool: &mut ColumnPool,
    meter: &mut Meter,
) -> u64
    requires rows { FitsRows terms.now.case.now rows.old }
    requires pool { FitsPool terms.now.case.now pool.old }
    requires room { meter.old + nurse_count terms.now.case.now * greatest_extension_count
        terms.now.case.now ≤ greatest_u64 }
    ensures sum { result ≡ sum_in terms.now.case.now terms.now.from terms.now.given.now
        terms.now.scale (slot_prices terms.now.scale terms.now.dual_prices.now) node.now }
    ensures within { result + (most_scale + 4) ≤ greatest_u64 }
    ensures rows { FitsRows terms.now.case.now rows.new }
    ensures pool { FitsPool terms.now.case.now pool.new }
    ensures counted { CountsRound terms.now.case.now meter.old meter.new }
{
    terms.case.keeps_limits();
    let slots = slots_bound(terms.case, terms.scale, terms.dual_prices);
    slots + row_bounds(terms, node, rows, pool, meter)
}

/// The lower bound that such a sum gives.
pub(crate) fn bound_of_sum(case: &Case, scale: u32, sum: u64) -> u64
    requires scale { 0 < scale }
    requires few { scale ≤ most_scale }
    requires room { sum + (most_scale + 4) ≤ greatest_u64 }
    ensures { result ≡ bound_of_sum case.now scale sum }
{
    let parts = sum.saturating_sub(price_offset(case, scale));
    rounded_up(case, in_points(scale, parts))
}

/// Parts of a point, rounded up to whole points.
fn in_points(scale: u32, parts: u64) -> u64
    requires scale { 0 < scale }
    requires few { scale ≤ most_scale }
    requires room { parts + most_scale ≤ greatest_u64 }
    ensures points { result ≡ in_points scale parts }
    ensures within { result ≤ parts + most_scale }
{
    (parts + (scale as u64 - 1)) / scale as u64
}

/// The next number that a penalty can be.
fn rounded_up(case: &Case, points: u64) -> u64
    requires { points + 4 ≤ greatest_u64 }
    ensures { result ≡ rounded_up case.now points }
{
    if case.keep() % 5 == 0 {
        5 * ((points + 4) / 5)
    } else {
        points
    }
}

/// What all nurses would earn at the greatest dual price on each day.
fn price_offset(case: &Case, scale: u32) -> u64
    requires { scale ≤ most_scale }
    ensures { result ≡ nurse_count case.now * (day_count case.now * (scale * most_dual_price)) }
{
    case.keeps_limits();
    let most = scale * MOST_DUAL_PRICE;
    case.nurses() as u64 * (case.days() as u64 * most as u64)
}

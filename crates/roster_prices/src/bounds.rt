//! The least that nurses cost by dual prices, in parts of a point.

ghost use Rattle.std.specs.Prelude.{◌≡◌, ◌+◌, ◌*◌, ◌≤◌, ◌<◌, Some, true};
ghost use Rattle.roster_bundle.specs.Limits.{greatest_u64};
ghost use Rattle.roster_instance.specs.Counting.{sum_below};
ghost use Rattle.roster_instance.specs.Meaning.{day_count, nurse_count};
ghost use Rattle.roster_laws.specs.Greatest.{extension_count, greatest_extension_count};
ghost use Rattle.roster_offers.specs.Workspaces.{fits_space};
ghost use Rattle.roster_slots.specs.ColumnPool.{FitsPool};
ghost use Rattle.roster_slots.specs.Tables.{slot_prices};
ghost use Rattle.roster_prices.specs.Days.{ArePricedOffers, AreDualPricedOffers};
ghost use Rattle.roster_prices.specs.Nodes.{dual_prices_of, most_row_bound, node_price, row_bound_in};
ghost use Rattle.roster_prices.specs.Workspaces.{CountsRound, FitsRows};
ghost use Rattle.roster_prices.specs.LowerBounds.{least_row};

use crate::decisions::Decision;
use crate::offers::{DayTerms, Terms};
use crate::workspace::RowSpace;
use arrayvec::ArrayVec;
use roster_offers::{
    MOST_OFFERS, NurseDay, Offer, OffersDays, SearchesRows, Workspace, offers_by_shift, put_offers,
};
use roster_rules::is_frozen;
use roster_slots::{ColumnPool, count_row, unreduced_cost};
use roster_state::{Meter, start};

/// The least that the rows of all nurses cost together by dual prices, if a choice that goes against a
/// branching decision of the node costs more. The cover counts the first of each nurse's cheapest rows, and
/// the pool keeps these.
pub fn row_bounds<T: SearchesRows>(
    terms: &Terms<'_>,
    node: &[Decision],
    rows: &mut RowSpace<T>,
    pool: &mut ColumnPool,
    meter: &mut Meter,
) -> u64
    requires rows { FitsRows terms.now.case.now rows.old }
    requires pool { FitsPool terms.now.case.now pool.old }
    requires room { meter.old + nurse_count terms.now.case.now * greatest_extension_count
        terms.now.case.now ≤ greatest_u64 }
    ensures bounds { result ≡ sum_below (nurse_count terms.now.case.now) (row_bound_in
        terms.now.case.now terms.now.from terms.now.given.now terms.now.scale
        (dual_prices_of terms.now) node.now) }
    ensures within { result ≤ nurse_count terms.now.case.now * most_row_bound }
    ensures rows { FitsRows terms.now.case.now rows.new }
    ensures pool { FitsPool terms.now.case.now pool.new }
    ensures counted { CountsRound terms.now.case.now meter.old meter.new }
{
    let case = terms.case;
    case.keeps_limits();
    rows.forget();
    let mut bounds = 0;
    for nurse in 0..case.nurses() {
        let bound = row_bound_in(terms, node, nurse, rows, meter);
        let row = rows.workspace.row();
        let cost = unreduced_cost(row, bound, terms.scale, terms.dual_prices);
        pool.keep(case, nurse, row, cost);
        bounds += bound;
    }
    bounds
}

/// The least that a row of the nurse costs by dual prices, if a choice that goes against a branching decision
/// of the node costs more. The workspace then shows the first of the cheapest rows, and the cover counts it.
fn row_bound_in<T: SearchesRows>(
    terms: &Terms<'_>,
    node: &[Decision],
    nurse: usize,
    rows: &mut RowSpace<T>,
    meter: &mut Meter,
) -> u64
    requires nurse { nurse < nurse_count terms.now.case.now }
    requires rows { FitsRows terms.now.case.now rows.old }
    requires room { meter.old + extension_count terms.now.case.now nurse ≤ greatest_u64 }
    ensures bound { result ≡ row_bound_in terms.now.case.now terms.now.from terms.now.given.now
        terms.now.scale (slot_prices terms.now.scale terms.now.dual_prices.now) node.now nurse }
    ensures within { result ≤ most_row_bound }
    ensures row { least_row terms.now.case.now terms.now.from terms.now.given.now terms.now.scale
        (node_price terms.now node.now nurse) nurse ≡ Some rows.new.workspace.row }
    ensures rows { FitsRows terms.now.case.now rows.new }
    ensures each_day { meter.old + day_count terms.now.case.now ≤ meter.new }
    ensures counted { meter.new ≤ meter.old + extension_count terms.now.case.now nurse }
{
    let case = terms.case;
    case.keeps_limits();
    offer_days_in(terms, node, nurse, &mut rows.workspace);
    let cost = rows.workspace.search_at(case, nurse, terms.scale, meter);
    count_row(rows.workspace.row(), &mut rows.cover);
    let (_, owed) = start(case, nurse);
    terms.scale as u64 * owed as u64 + cost as u64
}

/// Replaces the offers in a workspace by a nurse's offers of each day: to be off, and for each shift the
/// cheapest, the first if several are equally cheap.
pub fn offer_days<T: SearchesRows>(terms: &Terms<'_>, nurse: usize, workspace: &mut Workspace<T>)
    requires nurse { nurse < nurse_count terms.now.case.now }
    requires fits { fits_space terms.now.case.now workspace.old ≡ true }
    ensures offers { AreDualPricedOffers terms.now.case.now terms.now.from terms.now.given.now
        terms.now.scale (slot_prices terms.now.scale terms.now.dual_prices.now) nurse
        workspace.new.offers }
    ensures fits { fits_space terms.now.case.now workspace.new ≡ true }
{
    offer_days_in(terms, &[], nurse, workspace)
}

/// The same in a node.
fn offer_days_in<T: SearchesRows>(
    terms: &Terms<'_>,
    node: &[Decision],
    nurse: usize,
    workspace: &mut Workspace<T>,
)
    requires nurse { nurse < nurse_count terms.now.case.now }
    requires fits { fits_space terms.now.case.now workspace.old ≡ true }
    ensures offers { ArePricedOffers terms.now.case.now terms.now.from terms.now.given.now
        (node_price terms.now node.now nurse) nurse workspace.new.offers }
    ensures fits { fits_space terms.now.case.now workspace.new ≡ true }
{
    put_offers(terms.case, nurse, &NodeTerms { terms, node }, workspace)
}

/// Offers on each day what a node offers by dual prices, one offer for each shift.
#[derive(Clone, Copy)]
struct NodeTerms<'a> {
    terms: &'a Terms<'a>,
    node: &'a [Decision],
}

impl OffersDays for NodeTerms<'_> {
    ghost use Rattle.std.specs.Prelude.{◌<◌};
    ghost use Rattle.roster_instance.specs.Meaning.{day_count, nurse_count};
    ghost use Rattle.roster_slots.specs.Tables.{slot_prices};
    ghost use Rattle.roster_prices.specs.Days.{shift_offers};
    ghost use Rattle.roster_prices.specs.Nodes.{price_in};

    ghost Serves = { λ o n d. (n < nurse_count o.terms.now.case.now)
        × (d < day_count o.terms.now.case.now) };

    ghost offers = { λ o n d. shift_offers o.terms.now.case.now o.terms.now.from
        o.terms.now.given.now (price_in o.terms.now.case.now o.terms.now.scale
        (slot_prices o.terms.now.scale o.terms.now.dual_prices.now) o.node.now n) n d };

    fn offers_of_day(&self, nurse: usize, day: u16) -> ArrayVec<Offer, MOST_OFFERS> {
        let (terms, node) = (self.terms, self.node);
        let case = terms.case;
        let frozen = is_frozen(case, terms.from, nurse, day);
        let by = DayTerms {
            terms,
            node,
            frozen,
        };
        offers_by_shift(&NurseDay { case, nurse, day }, &by)
    }
}

//! The rows of a nurse within a window of days: outside of it she keeps her given choices.

ghost use Rattle.std.specs.Prelude.{◌≡◌, ◌+◌, ◌≤◌, ◌<◌, length};
ghost use Rattle.roster_bundle.specs.Limits.{greatest_u64};
ghost use Rattle.roster_instance.specs.Meaning.{day_count, nurse_count};
ghost use Rattle.roster_laws.specs.Greatest.{extension_count};
ghost use Rattle.roster_offers.specs.Listed.{KeepsList};
ghost use Rattle.roster_prices.specs.Nodes.{most_row_bound};
ghost use Rattle.roster_prices.specs.Windows.{window_from};
ghost use Rattle.roster_prices.specs.Workspaces.{FitsRows};

use crate::laws::rows_exist;
use crate::offers::{DayTerms, Terms};
use crate::window::{Window, WindowTerms};
use crate::workspace::RowSpace;
use arrayvec::ArrayVec;
use roster_offers::{
    ListInput, ListLimits, MOST_OFFERS, NurseDay, Offer, OffersDays, RowList, SearchesRows,
    most_search_extensions, offers_by_shift, put_offers,
};
use roster_rules::is_frozen;
use roster_state::{Meter, start};

/// The least that a row of the nurse within the window costs by dual prices, in parts of a point, with the
/// greatest dual price for each day. The workspace then shows the first of the cheapest rows.
pub fn window_bound<T: SearchesRows>(
    terms: &WindowTerms<'_>,
    nurse: usize,
    rows: &mut RowSpace<T>,
    meter: &mut Meter,
) -> u64
    requires nurse { nurse < nurse_count terms.now.base.now.case.now }
    requires rows { FitsRows terms.now.base.now.case.now rows.old }
    requires room { meter.old + extension_count terms.now.base.now.case.now nurse ≤ greatest_u64 }
    ensures within { result ≤ most_row_bound }
    ensures rows { FitsRows terms.now.base.now.case.now rows.new }
    ensures each_day { meter.old + day_count terms.now.base.now.case.now ≤ meter.new }
    ensures counted { meter.new ≤ meter.old + extension_count terms.now.base.now.case.now nurse }
{
    let base = terms.base;
    base.case.keeps_limits();
    put_offers(base.case, nurse, terms, &mut rows.workspace);
    let cost = rows
        .workspace
        .search_at(base.case, nurse, base.scale, meter);
    let (_, owed) = start(base.case, nurse);
    base.scale as u64 * owed as u64 + cost as u64
}

/// A listing makes at most this many extensions for each day of the case: a longer one takes more time than
/// many searches.
const MOST_LISTED_PER_DAY: u64 = 20_000;

/// Lists the rows of the nurse within the window that cost at most this many parts of a point by dual prices,
/// what the start owes included. The offers that it goes over are then in the workspace. Returns false if the
/// list is full, or if the extensions of a listing, or of one search, run out.
pub fn list_window<T: SearchesRows>(
    terms: &WindowTerms<'_>,
    nurse: usize,
    cost: u64,
    rows: &mut RowSpace<T>,
    list: &mut RowList,
    meter: &mut Meter,
) -> bool
    requires nurse { nurse < nurse_count terms.now.base.now.case.now }
    requires rows { FitsRows terms.now.base.now.case.now rows.old }
    requires room { meter.old + extension_count terms.now.base.now.case.now nurse ≤ greatest_u64 }
    ensures kept { KeepsList list.old list.new }
    ensures few { list.new.held ≤ length list.new.costs.items }
    ensures rows { FitsRows terms.now.base.now.case.now rows.new }
    ensures counted { (meter.old ≤ meter.new)
        × (meter.new ≤ meter.old + extension_count terms.now.base.now.case.now nurse) }
{
    let base = terms.base;
    base.case.keeps_limits();
    put_offers(base.case, nurse, terms, &mut rows.workspace);
    let (_, owed) = start(base.case, nurse);
    let unowed = cost.saturating_sub(base.scale as u64 * owed as u64);
    let limits = ListLimits {
        cost: unowed.min(u32::MAX as u64) as u32,
        extensions: most_search_extensions(base.case, nurse).min(
            MOST_LISTED_PER_DAY * base.case.days() as u64,
        ),
    };
    let input = ListInput {
        case: base.case,
        nurse,
        scale: base.scale,
    };
    rows.workspace.list_at(&input, limits, list, meter)
}

/// The week before which all is frozen, as it is for a day: a day outside of the window is frozen too.
fn window_from(window: Window, from: u16, day: u16) -> u16
    ensures { result ≡ window_from window from day }
{
    if window.first <= day && day < window.end {
        from
    } else {
        from.max(day / 7 + 1)
    }
}

/// Offers on each day what is open in the window, one offer for each shift.
impl OffersDays for WindowTerms<'_> {
    ghost use Rattle.std.specs.Prelude.{◌<◌};
    ghost use Rattle.roster_instance.specs.Meaning.{day_count, nurse_count};
    ghost use Rattle.roster_prices.specs.Windows.{window_offers};

    ghost Serves = { λ o n d. (n < nurse_count o.base.now.case.now)
        × (d < day_count o.base.now.case.now) };

    ghost offers = { λ o n d. window_offers o n d };

    fn offers_of_day(&self, nurse: usize, day: u16) -> ArrayVec<Offer, MOST_OFFERS> {
        let base = self.base;
        let (case, given) = (base.case, base.given);
        let from = window_from(self.window, base.from, day);
        rows_exist(case, given, from);
        let terms = Terms {
            case,
            dual_prices: self.dual_prices,
            given,
            from,
            scale: base.scale,
        };
        let by = DayTerms {
            terms: &terms,
            node: self.node,
            frozen: is_frozen(case, from, nurse, day),
        };
        offers_by_shift(&NurseDay { case, nurse, day }, &by)
    }
}

//! Whether a nurse whose turn it is in a fade is searched or left out.

ghost use Rattle.std.specs.Prelude.{◌≡◌, ◌+◌, ◌<◌, ◌≤◌, Some, false, true};
ghost use Rattle.roster_bundle.specs.Limits.{greatest_u64};
ghost use Rattle.roster_instance.specs.Meaning.{day_count, nurse_count};
ghost use Rattle.roster_instance.specs.Rosters.{is_row_of};
ghost use Rattle.roster_laws.specs.Greatest.{extension_count};
ghost use Rattle.roster_row.specs.Recalled.{RecallsSearchesAt};
ghost use Rattle.roster_prices.specs.Days.{AreDualPricedOffers};
ghost use Rattle.roster_slots.specs.Tables.{slot_prices};
ghost use Rattle.roster_offers.specs.Workspaces.{fits_space};
ghost use Rattle.roster_polish.specs.Fades.{best_by_terms};

use arrayvec::ArrayVec;
use roster_instance::{Choice, choice_on};
use roster_offers::{MOST_OFFERS, Offer, SearchesRows, Workspace};
use roster_prices::{Terms, offer_days, price_of};
use roster_row::LastSearches;
use roster_state::Meter;

/// A nurse is left out if her row can be at most this many points cheaper.
const LEAST_GAIN: u64 = 3;

/// A nurse's turn in a pass, and whether she is searched in any case.
#[derive(Clone, Copy)]
pub(crate) struct Turn {
    pub(crate) nurse: usize,
    pub(crate) surely: bool,
}

/// Searches a nurse's best row by what slots pay, or leaves her out. `row` is her present
/// one. Returns whether she was searched.
pub(crate) fn visit<T: SearchesRows>(
    terms: &Terms<'_>,
    turn: Turn,
    row: &[Choice],
    workspace: &mut Workspace<T>,
    last: &mut LastSearches,
    meter: &mut Meter,
) -> bool
    requires nurse { turn.nurse < nurse_count terms.now.case.now }
    requires row { is_row_of terms.now.case.now row.now ≡ true }
    requires fits { fits_space terms.now.case.now workspace.old ≡ true }
    requires recalls { RecallsSearchesAt terms.now.case.now terms.now.scale last.old }
    requires room { meter.old + extension_count terms.now.case.now turn.nurse ≤ greatest_u64 }
    ensures surely { turn.surely ≡ true → result ≡ true }
    ensures row { result ≡ true → best_by_terms terms.now turn.nurse ≡ Some workspace.new.row }
    ensures each_day { result ≡ true → meter.old + day_count terms.now.case.now ≤ meter.new }
    ensures spared { result ≡ false → meter.new ≡ meter.old }
    ensures counted { meter.new ≤ meter.old + extension_count terms.now.case.now turn.nurse }
    ensures fits { fits_space terms.now.case.now workspace.new ≡ true }
    ensures recalls { RecallsSearchesAt terms.now.case.now terms.now.scale last.new }
{
    offer_days(terms, turn.nurse, workspace);
    if !turn.surely && is_left_out(terms, turn.nurse, row, workspace.offers(), last) {
        return false;
    }
    search_offered(terms, turn.nurse, workspace, last, meter);
    true
}

/// Searches a nurse's best row by the offers in a workspace, and remembers that search.
fn search_offered<T: SearchesRows>(
    terms: &Terms<'_>,
    nurse: usize,
    workspace: &mut Workspace<T>,
    last: &mut LastSearches,
    meter: &mut Meter,
)
    requires nurse { nurse < nurse_count terms.now.case.now }
    requires offers { AreDualPricedOffers terms.now.case.now terms.now.from terms.now.given.now
        terms.now.scale (slot_prices terms.now.scale terms.now.dual_prices.now) nurse
        workspace.old.offers }
    requires fits { fits_space terms.now.case.now workspace.old ≡ true }
    requires recalls { RecallsSearchesAt terms.now.case.now terms.now.scale last.old }
    requires room { meter.old + extension_count terms.now.case.now nurse ≤ greatest_u64 }
    ensures row { best_by_terms terms.now nurse ≡ Some workspace.new.row }
    ensures each_day { meter.old + day_count terms.now.case.now ≤ meter.new }
    ensures counted { meter.new ≤ meter.old + extension_count terms.now.case.now nurse }
    ensures fits { fits_space terms.now.case.now workspace.new ≡ true }
    ensures recalls { RecallsSearchesAt terms.now.case.now terms.now.scale last.new }
{
    terms.case.keeps_limits();
    let cost = workspace.search_at(terms.case, nurse, terms.scale, meter);
    last.remember(terms.case, nurse, workspace.offers(), cost);
}

/// Whether a nurse's row, which her last search found, can be at most three points cheaper by these offers,
/// to judge by the prices that have changed since that search. A nurse without such a search isn't left out.
fn is_left_out(
    terms: &Terms<'_>,
    nurse: usize,
    row: &[Choice],
    offers: &[ArrayVec<Offer, MOST_OFFERS>],
    last: &LastSearches,
) -> bool
    requires nurse { nurse < nurse_count terms.now.case.now }
    requires row { is_row_of terms.now.case.now row.now ≡ true }
    requires offers { AreDualPricedOffers terms.now.case.now terms.now.from terms.now.given.now
        terms.now.scale (slot_prices terms.now.scale terms.now.dual_prices.now) nurse offers.now }
    requires recalls { RecallsSearchesAt terms.now.case.now terms.now.scale last.now }
{
    let case = terms.case;
    case.keeps_limits();
    let mut gain = 0;
    for day in 0..case.days() {
        let choice = choice_on(row, day);
        let present = Offer {
            choice,
            price: price_of(terms, nurse, day, choice),
        };
        let here = offers[day as usize].as_slice();
        gain += last.most_gain(case, nurse, day, present, here);
    }
    last.has_search(nurse) && gain <= LEAST_GAIN * terms.scale as u64
}

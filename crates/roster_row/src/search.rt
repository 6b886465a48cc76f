//! The best row of a nurse.

ghost use Rattle.std.specs.Prelude.{◌≡◌, ◌+◌, ◌<◌, ◌≤◌, [], true, IfNone, IfSome, OnSome};
ghost use Rattle.roster_bundle.specs.Limits.{greatest_u64};
ghost use Rattle.roster_instance.specs.Meaning.{day_count, nurse_count};
ghost use Rattle.roster_rules.specs.AllowedRows.{IsBestRow, best_row, penalty_with, row_keeps};
ghost use Rattle.roster_rules.specs.Improver.{step};
ghost use Rattle.roster_rules.specs.Prefix.{due};
ghost use Rattle.roster_laws.specs.Greatest.{extension_count, greatest_state_count};
ghost use Rattle.roster_laws.specs.OneRow.{rest_of};
ghost use Rattle.roster_offers.specs.Lists.{IsFound, best_over, offers_on};
ghost use Rattle.roster_offers.specs.Offers.{shift_offers};
ghost use Rattle.roster_offers.specs.Workspaces.{SameCapacity, fits_space};
ghost use Rattle.roster_row.specs.Recalled.{RecallsSearches, last_capacity};
ghost use Rattle.roster_row.specs.Searches.{AreOffersOf, AreShiftOffers};

use crate::last::LastSearches;
use crate::offer::choices_by_shift;
use arrayvec::ArrayVec;
use roster_case::Held;
use roster_offers::{MOST_OFFERS, Offer, OffersDays, SearchesRows, Workspace, put_offers};
use roster_state::{Meter, start};

/// What the search for a nurse's best row returns besides the row.
#[derive(Clone, Copy, Debug, PartialEq, Eq)]
pub struct Best {
    /// The roster's penalty with that row instead of the nurse's own.
    pub total: u64,
}

/// Searches a nurse's best row from a week on, by any row search. It promises what `best_row` of
/// `roster_best` promises, except that the row search says what is counted.
pub fn best_row<T: SearchesRows>(
    held: &Held,
    nurse: usize,
    from: u16,
    workspace: &mut Workspace<T>,
    meter: &mut Meter,
) -> Best
    requires nurse { nurse < nurse_count held.now.case }
    requires fits { fits_space held.now.case workspace.old ≡ true }
    requires room { meter.old + extension_count held.now.case nurse ≤ greatest_u64 }

    // The row, and the roster's penalty with it.
    ensures best { IsBestRow held.now.case from held.now.roster nurse workspace.new.row }
    ensures keeps { row_keeps held.now.case held.now.roster nurse workspace.new.row ≡ true }
    ensures total { result.total ≡ penalty_with held.now.case held.now.roster nurse
        workspace.new.row }

    // What it takes.
    ensures each_day { meter.old + day_count held.now.case ≤ meter.new }
    ensures counted { meter.new ≤ meter.old + extension_count held.now.case nurse }
    ensures are_reachable { T.IsCounted (greatest_state_count held.now.case) held.now.case nurse
        (shift_offers held.now.case from held.now.roster nurse) meter.old meter.new }
    ensures same_capacity { SameCapacity workspace.old workspace.new }
    ensures fits { fits_space held.now.case workspace.new ≡ true }
{
    held.keeps_rules();
    offers_of_days(held, nurse, from, workspace);
    let (_, best) = best_of_offers(held, nurse, workspace, meter);
    best
}

/// Searches a nurse's best row as `best_row` does, unless the nurse's last search shows that no row is
/// cheaper than the present one: then it changes nothing and returns `None`. It records each search that it
/// makes.
pub fn cheaper_row<T: SearchesRows>(
    held: &Held,
    nurse: usize,
    from: u16,
    workspace: &mut Workspace<T>,
    last: &mut LastSearches,
    meter: &mut Meter,
) -> Option<Best>
    requires nurse { nurse < nurse_count held.now.case }
    requires fits { fits_space held.now.case workspace.old ≡ true }
    requires recalls { RecallsSearches held.now.case last.old }
    requires room { meter.old + extension_count held.now.case nurse ≤ greatest_u64 }

    // The row, and the roster's penalty with it. If there is none, a step wouldn't change the roster.
    ensures best { OnSome result (IsBestRow held.now.case from held.now.roster nurse
        workspace.new.row) }
    ensures keeps { OnSome result (row_keeps held.now.case held.now.roster nurse
        workspace.new.row ≡ true) }
    ensures total { IfSome result (λ best. best.total ≡ penalty_with held.now.case held.now.roster
        nurse workspace.new.row) }
    ensures none { IfNone result (step held.now.case (best_row held.now.case from) held.now.roster
        nurse ≡ held.now.roster) }

    // What it takes.
    ensures spared { IfNone result (meter.new ≡ meter.old) }
    ensures each_day { OnSome result (meter.old + day_count held.now.case ≤ meter.new) }
    ensures counted { meter.new ≤ meter.old + extension_count held.now.case nurse }
    ensures are_reachable { OnSome result (T.IsCounted (greatest_state_count held.now.case)
        held.now.case nurse (shift_offers held.now.case from held.now.roster nurse) meter.old
        meter.new) }
    ensures same_capacity { SameCapacity workspace.old workspace.new }
    ensures same_last { last_capacity last.new ≡ last_capacity last.old }
    ensures fits { fits_space held.now.case workspace.new ≡ true }
    ensures recalls { RecallsSearches held.now.case last.new }
{
    held.case().keeps_limits();
    held.keeps_rules();
    offers_of_days(held, nurse, from, workspace);
    if last.has_none_cheaper(held, nurse, workspace.offers()) {
        return None;
    }
    let (cost, best) = best_of_offers(held, nurse, workspace, meter);
    last.remember(held.case(), nurse, workspace.offers(), cost);
    Some(best)
}

/// Searches over a nurse's offers of all days, which were put into the workspace. Besides the best row's
/// penalty it returns what that row costs without what the start owes.
fn best_of_offers<T: SearchesRows>(
    held: &Held,
    nurse: usize,
    workspace: &mut Workspace<T>,
    meter: &mut Meter,
) -> (u32, Best)
    requires nurse { nurse < nurse_count held.now.case }
    requires offers { AreOffersOf held.now.case held.now.roster nurse workspace.old.offers }
    requires fits { fits_space held.now.case workspace.old ≡ true }
    requires room { meter.old + extension_count held.now.case nurse ≤ greatest_u64 }
    ensures found { IsFound (best_over held.now.case nurse (offers_on workspace.old.offers))
        result.0 workspace.new.row }
    ensures total { result.1.total ≡ rest_of held.now.case held.now.roster nurse
        + due held.now.case nurse [] + result.0 }
    ensures each_day { meter.old + day_count held.now.case ≤ meter.new }
    ensures counted { meter.new ≤ meter.old + extension_count held.now.case nurse }
    ensures are_reachable { T.IsCounted (greatest_state_count held.now.case) held.now.case nurse
        (offers_on workspace.old.offers) meter.old meter.new }
    ensures same_capacity { SameCapacity workspace.old workspace.new }
    ensures fits { fits_space held.now.case workspace.new ≡ true }
    ensures offers { workspace.new.offers ≡ workspace.old.offers }
{
    // The case has small numbers, and the roster keeps the hard rules, so each day has an offer, and there is
    // a best row.
    held.case().keeps_limits();
    held.keeps_rules();
    let cost = workspace.search_offers(held.case(), nurse, meter);
    let (_, owed) = start(held.case(), nurse);
    let total = held.rest(nurse) + owed as u64 + cost as u64;
    (cost, Best { total })
}

/// Puts the offers of each day, one for each shift, into a workspace instead of those that are there.
fn offers_of_days<T: SearchesRows>(
    held: &Held,
    nurse: usize,
    from: u16,
    workspace: &mut Workspace<T>,
)
    requires nurse { nurse < nurse_count held.now.case }
    requires fits { fits_space held.now.case workspace.old ≡ true }
    ensures offers { AreShiftOffers held.now.case from held.now.roster nurse workspace.new.offers }
    ensures same_capacity { SameCapacity workspace.old workspace.new }
    ensures fits { fits_space held.now.case workspace.new ≡ true }
{
    put_offers(held.case(), nurse, &NextToOthers { held, from }, workspace)
}

/// Offers on each day what a nurse may do while the others' rows stay, one offer for each shift.
#[derive(Clone, Copy)]
struct NextToOthers<'a> {
    held: &'a Held,
    from: u16,
}

impl OffersDays for NextToOthers<'_> {
    ghost use Rattle.std.specs.Prelude.{◌<◌};
    ghost use Rattle.roster_instance.specs.Meaning.{day_count, nurse_count};
    ghost use Rattle.roster_offers.specs.Offers.{shift_offers};

    ghost Serves = { λ o n d. (n < nurse_count o.held.now.case) × (d < day_count o.held.now.case) };

    ghost offers = { λ o n d. shift_offers o.held.now.case o.from o.held.now.roster n d };

    fn offers_of_day(&self, nurse: usize, day: u16) -> ArrayVec<Offer, MOST_OFFERS> {
        choices_by_shift(self.held, nurse, day, self.from)
    }
}

//! Searches of single nurses, each of which is one of those that are left.

ghost use Rattle.std.specs.Prelude.{◌+◌, ◌<◌, ◌≤◌, IfSome};
ghost use Rattle.roster_bundle.specs.Limits.{greatest_u64};
ghost use Rattle.roster_instance.specs.Meaning.{nurse_count};
ghost use Rattle.roster_near.specs.Spending.{SpendsSearches, extensions_of};
ghost use Rattle.roster_prices.specs.Workspaces.{FitsRows};

use crate::work::Budget;
use roster_offers::{RowList, SearchesRows};
use roster_prices::{RowSpace, WindowTerms, list_window, window_bound};
use roster_state::Meter;

/// Searches the least that a nurse's rows within a window cost, as `window_bound` does. `None` if no search
/// is left, or the case doesn't have the nurse.
pub(crate) fn search_one<T: SearchesRows>(
    terms: &WindowTerms<'_>,
    nurse: usize,
    rows: &mut RowSpace<T>,
    budget: &mut Budget,
    meter: &mut Meter,
) -> Option<u64>
    requires rows { FitsRows terms.now.base.now.case.now rows.old }
    requires room { meter.old + extensions_of terms.now.base.now.case.now budget.old.left
        ≤ greatest_u64 }
    ensures nurse { IfSome result (λ _. nurse < nurse_count terms.now.base.now.case.now) }
    ensures rows { FitsRows terms.now.base.now.case.now rows.new }
    ensures spends { SpendsSearches terms.now.base.now.case.now meter.old budget.old.left meter.new
        budget.new.left }
{
    if budget.left == 0 {
        return None;
    }
    if nurse >= terms.base.case.nurses() {
        return None;
    }
    budget.take();
    Some(window_bound(terms, nurse, rows, meter))
}

/// A nurse whose rows are listed, and what they may cost, in parts of a point.
#[derive(Clone, Copy)]
pub(crate) struct Listing {
    pub(crate) nurse: usize,
    pub(crate) cost: u64,
}

/// Lists a nurse's rows within a window, as `list_window` does. Returns whether the list holds them all, or
/// `None` if no search is left, or the case doesn't have the nurse.
pub(crate) fn list_one<T: SearchesRows>(
    terms: &WindowTerms<'_>,
    listing: Listing,
    rows: &mut RowSpace<T>,
    list: &mut RowList,
    budget: &mut Budget,
    meter: &mut Meter,
) -> Option<bool>
    requires rows { FitsRows terms.now.base.now.case.now rows.old }
    requires room { meter.old + extensions_of terms.now.base.now.case.now budget.old.left
        ≤ greatest_u64 }
    ensures rows { FitsRows terms.now.base.now.case.now rows.new }
    ensures spends { SpendsSearches terms.now.base.now.case.now meter.old budget.old.left meter.new
        budget.new.left }
{
    if budget.left == 0 {
        return None;
    }
    if listing.nurse >= terms.base.case.nurses() {
        return None;
    }
    budget.take();
    Some(list_window(terms, listing.nurse, listing.cost, rows, list, meter))
}

//! The memory of a run.

ghost use Rattle.std.specs.Prelude.{◌≡◌, ◌+◌, ◌*◌, ◌<◌, ◌≤◌, ℕ, All, IfOk, length, true};
ghost use Rattle.roster_bundle.specs.Limits.{greatest_u64};
ghost use Rattle.roster_instance.specs.Meaning.{day_count, nurse_count};
ghost use Rattle.roster_instance.specs.Rosters.{fits_case};
ghost use Rattle.roster_row.specs.Recalled.{RecallsSearchesAt};
ghost use Rattle.roster_polish.specs.Fades.{AreMade};
ghost use Rattle.roster_polish.specs.Polished.{FitsPolish};
ghost use Rattle.roster_polish.specs.Settled.{Spends, extensions_of};

use crate::searches::Searches;
use roster_case::Held;
use roster_instance::{Case, Roster};
use roster_near::NearSpace;
use roster_offers::{BestFault, SearchesRows};
use roster_prices::{Base, BoundWorkspace, count_rows, improve_dual_prices};
use roster_row::LastSearches;
use roster_slots::DualPrices;
use roster_state::Meter;
use std::alloc::Global;
use std::time::Clock;

/// What a run writes into: what a run that raises a bound does, with the workspace of its searches; the last
/// searches; by how much each shift of a day is dearer in a kick; the rows of the kept roster, with its last
/// searches; for a fade, what each slot pays, its last searches, its rows, and the order of its nurses; what
/// searches in neighbourhoods do; and the best roster so far, and the dual prices with which fades begin.
/// Besides the memory of a bound, of the last searches, three times, and of a `NearSpace`, that is 521 bytes
/// a day, eight a nurse, and three copies of the rows. It serves one run after another.
pub struct PolishSpace<T: SearchesRows> {
    pub(crate) bounds: BoundWorkspace<T>,
    pub(crate) last: LastSearches,
    pub(crate) dearer: Vec<u8>,
    pub(crate) kept: Roster,
    pub(crate) kept_last: LastSearches,
    pub(crate) fade_prices: DualPrices,
    pub(crate) fade_last: LastSearches,
    pub(crate) faded: Roster,
    pub(crate) order: Vec<usize>,
    pub(crate) near: NearSpace,
    pub(crate) best: Roster,
    pub(crate) first_prices: DualPrices,
    /// Whether a search for a first roster has left these prices to the run after it.
    pub(crate) has_prices: bool,
}

// Written by hand, so that a function that drops it has one call to prove.
impl<T: SearchesRows> Drop for PolishSpace<T> {
    fn drop(self) {
        let PolishSpace {
            bounds: _,
            last: _,
            dearer: _,
            kept: _,
            kept_last: _,
            fade_prices: _,
            fade_last: _,
            faded: _,
            order: _,
            near: _,
            best: _,
            first_prices: _,
            has_prices: _,
        } = self;
    }
}

impl<T: SearchesRows> PolishSpace<T> {
    /// The memory for runs from rosters of a case, of which one is given, by at most 62 allocations and three
    /// for each nurse.
    ///
    /// # Errors
    ///
    /// An allocation was refused.
    pub fn for_roster(
        alloc: Global,
        case: &Case,
        roster: &Roster,
    ) -> Result<PolishSpace<T>, BestFault>
        requires { fits_case case.now roster.now ≡ true }
        ensures { IfOk result (FitsPolish case.now) }
    {
        Ok(PolishSpace {
            bounds: BoundWorkspace::for_case(alloc, case)?,
            last: LastSearches::for_case(alloc, case)?,
            dearer: vec![in alloc; 0; 9 * case.days() as usize]?,
            kept: roster.copy(alloc)?,
            kept_last: LastSearches::for_case(alloc, case)?,
            fade_prices: DualPrices::even(alloc, case, 0)?,
            fade_last: LastSearches::for_case(alloc, case)?,
            faded: roster.copy(alloc)?,
            order: vec![in alloc; 0; case.nurses()]?,
            near: NearSpace::for_case(alloc, case)?,
            best: roster.copy(alloc)?,
            first_prices: DualPrices::even(alloc, case, 0)?,
            has_prices: false,
        })
    }

    /// The memory for runs from rosters of a held one's case, by as many allocations.
    ///
    /// # Errors
    ///
    /// An allocation was refused.
    pub fn for_held(alloc: Global, held: &Held) -> Result<PolishSpace<T>, BestFault>
        ensures { IfOk result (FitsPolish held.now.case) }
    {
        held.keeps_rules();
        PolishSpace::for_roster(alloc, held.case(), held.roster())
    }

    /// Keeps a roster, with its last searches.
    pub(crate) fn keep(&mut self, held: &Held)
        requires { FitsPolish held.now.case self.old }
        ensures kept { self.new.kept ≡ held.now.roster }
        ensures faded { self.new.faded ≡ self.old.faded }
        ensures best { self.new.best ≡ self.old.best }
        ensures fits { FitsPolish held.now.case self.new }
    {
        self.kept.put_rows(held.roster());
        self.kept_last.put(&self.last);
    }

    /// Improves dual prices for at most this many rounds over all nurses, and within a quarter of the time
    /// that is left, and lets fades begin with them. Their searches are among those that are left.
    pub(crate) fn improve_prices<K: Clock + Copy>(
        &mut self,
        base: &Base<'_>,
        rounds: u16,
        penalty: Option<u64>,
        searches: &mut Searches<K>,
        meter: &mut Meter,
    )
        requires fits { FitsPolish base.now.case.now self.old }
        requires within { rounds * nurse_count base.now.case.now ≤ searches.old.left }
        requires room { meter.old + extensions_of base.now.case.now searches.old.left
            ≤ greatest_u64 }
        ensures made { AreMade base.now.case.now meter.old searches.old.left meter.new
            searches.new.left }
        ensures spends { Spends base.now.case.now meter.old searches.old.left meter.new
            searches.new.left }
        ensures ends { searches.new.deadline.ends ≡ searches.old.deadline.ends }
        ensures fits { FitsPolish base.now.case.now self.new }
    {
        base.case.keeps_limits();
        let nurses = base.case.nurses() as u64;
        let rest = searches.time_left() / 4 * 3;
        self.bounds.begin(base.case);
        for made in 0..rounds {
            if searches.time_left() <= rest {
                break;
            }
            improve_dual_prices(base, made, penalty, &mut self.bounds, meter);
            searches.left -= nurses;
        }
        self.first_prices.copy(&self.bounds.dual_prices);
    }

    /// Lets slots pay the dual prices with which fades begin.
    pub(crate) fn restore_prices(&mut self, case: &Case)
        requires { FitsPolish case.now self.old }
        ensures kept { self.new.kept ≡ self.old.kept }
        ensures faded { self.new.faded ≡ self.old.faded }
        ensures best { self.new.best ≡ self.old.best }
        ensures recalls { self.new.fade_last ≡ self.old.fade_last }
        ensures fits { FitsPolish case.now self.new }
    {
        case.keeps_limits();
        self.bounds.dual_prices.copy(&self.first_prices);
    }

    /// Begins a fade from a roster: its rows make the cover, the nurses are in their order, and no search is
    /// remembered.
    pub(crate) fn begin_fade(&mut self, case: &Case, given: &Roster)
        requires given { fits_case case.now given.now ≡ true }
        requires fits { FitsPolish case.now self.old }
        ensures kept { self.new.kept ≡ self.old.kept }
        ensures best { self.new.best ≡ self.old.best }
        ensures faded { self.new.faded ≡ given.now }
        ensures recalls { (scale : ℕ) → RecallsSearchesAt case.now scale self.new.fade_last }
        ensures fits { FitsPolish case.now self.new }
    {
        self.faded.put_rows(given);
        count_rows(case, given, &mut self.bounds);
        put_in_order(&mut self.order);
        self.fade_last.forget();
    }
}

/// Puts each number at its own index.
fn put_in_order(order: &mut [usize])
    ensures count { length order.new ≡ length order.old }
    ensures each { (end : ℕ) → length order.old ≤ end → All (λ n. n < end) order.old →
        All (λ n. n < end) order.new }
{
    for position in 0..order.len() {
        order[position] = position;
    }
}

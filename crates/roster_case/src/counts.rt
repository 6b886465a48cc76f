//! The counts that are kept of a roster which keeps the hard rules.

ghost use Rattle.std.specs.Prelude.{◌≡◌, ◌+◌, ◌*◌, ◌<◌, ◌≤◌, ◌==◌, ℕ, true, IfOk, if◌then◌else◌, length, slice_index_or};
ghost use Rattle.roster_instance.specs.Counting.{sum_below};
ghost use Rattle.roster_instance.specs.Limits.{most_nurses};
ghost use Rattle.roster_instance.specs.Meaning.{day_count, nurse_count};
ghost use Rattle.roster_instance.specs.Rosters.{days_of_nurse, fits_case, is_row_of, with_row};
ghost use Rattle.roster_rules.specs.Covers.{number_at};
ghost use Rattle.roster_rules.specs.Penalties.{nurse_cost, staffing_cost};
ghost use Rattle.roster_rules.specs.PenaltyBounds.{most_staffing};
ghost use Rattle.roster_case.specs.Held.{AreCounts, IsDay, no_day};

use crate::recount::recount;
use roster_costs::{covers, nurse_cost, slot, staffing_cost_of_day};
use roster_instance::{Case, Choice, Roster, Shift, Skill};
use roster_rules::weights::STAFFING;
use std::alloc::{AllocError, Global};

/// The counts of a day.
#[derive(Clone, Copy)]
pub(crate) struct DayCounts {
    /// The cover of each slot, by its index.
    pub(crate) covers: [u16; 64],
    /// By how many nurses the day is short of its optimums, over all slots.
    pub(crate) shortfall: u32,
}

/// The cover of each slot of each day, by how many nurses each day is short of its optimums, and what each
/// nurse and the staffing cost, in penalty points.
pub(crate) struct Counts {
    pub(crate) days: Vec<DayCounts>,
    /// What each nurse's row costs apart from staffing.
    pub(crate) nurse_costs: Vec<u32>,
    pub(crate) staffing_cost: u64,
}

// Written by hand, so that a function that drops the counts has one call to prove.
impl Drop for Counts {
    fn drop(self) {
        let Counts {
            days: _,
            nurse_costs: _,
            staffing_cost: _,
        } = self;
    }
}

impl Counts {
    /// The counts of a roster, with two allocations.
    pub(crate) fn of(alloc: Global, case: &Case, roster: &Roster) -> Result<Counts, AllocError>
        requires { fits_case case.now roster.now ≡ true }
        ensures { IfOk result (AreCounts case.now roster.now) }
    {
        let (days, staffing_cost) = staffing_of(alloc, case, roster)?;
        Ok(Counts {
            days,
            nurse_costs: nurse_costs_of(alloc, case, roster)?,
            staffing_cost,
        })
    }

    /// How many nurses work in a slot.
    pub(crate) fn cover(&self, day: u16, shift: Shift, skill: Skill) -> u16
        requires day { day < length self.now.days.items }
        requires slot { shift.0 < 8 × skill.0 < 8 }
        ensures { result ≡ number_at (slice_index_or self.now.days.items day no_day).covers shift.0
            skill.0 }
    {
        self.days[day as usize].covers[slot(shift, skill)]
    }

    /// By how many nurses a day is short of its optimums.
    pub(crate) fn shortfall(&self, day: u16) -> u32
        requires { day < length self.now.days.items }
        ensures { result ≡ (slice_index_or self.now.days.items day no_day).shortfall }
    {
        self.days[day as usize].shortfall
    }

    /// What the rows of all nurses but one cost.
    #[tactic(auto, using(roster_rules::proofs::CountLemmas::sum_more))]
    pub(crate) fn rest(&self, nurse: usize) -> u64
        requires { length self.now.nurse_costs.items ≤ most_nurses }
        ensures cost { result ≡ sum_below (length self.now.nurse_costs.items)
            (λ m. if m == nurse then 0 else slice_index_or self.now.nurse_costs.items m 0) }
        ensures within { result ≤ most_nurses * 4294967295 }
    {
        let mut cost = 0;
        for other in 0..self.nurse_costs.len() {
            if other != nurse {
                cost += self.nurse_costs[other] as u64;
            }
        }
        cost
    }

    /// What all rows and the staffing cost.
    #[tactic(auto, using(roster_rules::proofs::CountLemmas::sum_more))]
    pub(crate) fn total(&self) -> u64
        requires nurses { length self.now.nurse_costs.items ≤ most_nurses }
        requires staffing { self.now.staffing_cost ≤ most_staffing }
        ensures { result ≡ self.now.staffing_cost
            + sum_below (length self.now.nurse_costs.items)
            (λ n. slice_index_or self.now.nurse_costs.items n 0) }
    {
        let mut cost = 0;
        for nurse in 0..self.nurse_costs.len() {
            cost += self.nurse_costs[nurse] as u64;
        }
        self.staffing_cost + cost
    }

    /// Replaces a nurse's row in the counts, looking at that nurse's row alone.
    pub(crate) fn replace_row(&mut self, case: &Case, roster: &Roster, nurse: usize, row: &[Choice])
        requires fitting { fits_case case.now roster.now ≡ true }
        requires nurse { nurse < nurse_count case.now }
        requires row { is_row_of case.now row.now ≡ true }
        requires counts { AreCounts case.now roster.now self.old }
        ensures { AreCounts case.now (with_row roster.now nurse row.now) self.new }
    {
        case.keeps_limits();
        let change = recount(case, roster, nurse, row, &mut self.days);
        self.staffing_cost += STAFFING as u64 * change.more;
        self.staffing_cost -= STAFFING as u64 * change.fewer;
        self.nurse_costs[nurse] = nurse_cost(case, nurse, row);
    }
}

/// The counts of all days, and what the staffing costs by them.
#[tactic(auto, using(roster_rules::proofs::CountLemmas::sum_more))]
fn staffing_of(
    alloc: Global,
    case: &Case,
    roster: &Roster,
) -> Result<(Vec<DayCounts>, u64), AllocError>
    requires { fits_case case.now roster.now ≡ true }
    ensures days { IfOk result (λ r. length r.0.items ≡ day_count case.now) }
    ensures counts { IfOk result (λ r. (d : ℕ) → d < day_count case.now →
        IsDay case.now roster.now d (slice_index_or r.0.items d no_day)) }
    ensures cost { IfOk result (λ r. r.1 ≡ staffing_cost case.now roster.now) }
{
    case.keeps_limits();
    let mut days = Vec::with_capacity(alloc, case.days() as usize)?;
    let mut cost = 0;
    for day in 0..case.days() {
        let covers = covers(case, roster, day);
        let cost_of_day = staffing_cost_of_day(case, day, &covers);
        let shortfall = (cost_of_day / STAFFING as u64) as u32;
        days.push(DayCounts { covers, shortfall })?;
        cost += cost_of_day;
    }
    Ok((days, cost))
}

fn nurse_costs_of(alloc: Global, case: &Case, roster: &Roster) -> Result<Vec<u32>, AllocError>
    requires { fits_case case.now roster.now ≡ true }
    ensures nurses { IfOk result (λ costs. length costs.items ≡ nurse_count case.now) }
    ensures costs { IfOk result (λ costs. (n : ℕ) → n < nurse_count case.now →
        slice_index_or costs.items n 0 ≡ nurse_cost case.now n (days_of_nurse roster.now n)) }
{
    let mut costs = Vec::with_capacity(alloc, case.nurses())?;
    for nurse in 0..case.nurses() {
        costs.push(nurse_cost(case, nurse, roster.row(nurse)))?;
    }
    Ok(costs)
}

//! A search in one neighbourhood.

ghost use Rattle.std.specs.Prelude.{◌≡◌, ◌<◌};
ghost use Rattle.roster_instance.specs.Meaning.{day_count};
ghost use Rattle.roster_near.specs.Spending.{CanGoOn, HasGoneOn};
ghost use Rattle.roster_prices.specs.Workspaces.{FitsBound};

use crate::ascent::ascend;
use crate::excess::weigh_if_due;
use crate::lists::{Gap, list_all};
use crate::space::NearSpace;
use crate::task::Task;
use crate::work::{Budget, Work};
use roster_costs::nurse_cost;
use roster_offers::SearchesRows;
use roster_prices::{BoundWorkspace, NearBase};
use roster_slots::DualPrices;
use roster_state::Meter;

/// What came of a try: whether rows were found that are to be put in, and how many searches are left.
#[derive(Clone, Copy, Debug, PartialEq, Eq)]
pub struct Tried {
    pub found: bool,
    pub left: u64,
}

/// Draws a neighbourhood of a roster and searches it. If rows are found, they are read by
/// `NearSpace::write_found`: together they are cheaper, or as dear if one of the present shifts was
/// forbidden. No contract says so, so the roster with them is to be checked. All that is done counts as
/// searches: at least one. It takes no memory.
pub fn search_near<T: SearchesRows>(
    base: &NearBase<'_>,
    left: u64,
    near: &mut NearSpace,
    bounds: &mut BoundWorkspace<T>,
    prices: &mut DualPrices,
    meter: &mut Meter,
) -> Tried
    requires able { CanGoOn base.now.case.now bounds.old meter.old left }
    requires days { prices.old.days ≡ day_count base.now.case.now }
    ensures gone { HasGoneOn base.now.case.now bounds.new meter.old left meter.new result.left }
    ensures fewer { 0 < left → result.left < left }
    ensures days { prices.new.days ≡ day_count base.now.case.now }
{
    let mut budget = Budget { left, made: 0 };
    near.work = Work::default();
    let found = try_one(base, near, bounds, prices, &mut budget, meter);
    let besides = near.work.in_searches().max(1);
    Tried {
        found,
        left: budget.left.saturating_sub(besides),
    }
}

/// Draws a neighbourhood and searches it, within the searches that are left. Returns whether rows were found.
fn try_one<T: SearchesRows>(
    base: &NearBase<'_>,
    near: &mut NearSpace,
    bounds: &mut BoundWorkspace<T>,
    prices: &mut DualPrices,
    budget: &mut Budget,
    meter: &mut Meter,
) -> bool
    requires able { CanGoOn base.now.case.now bounds.old meter.old budget.old.left }
    requires days { prices.old.days ≡ day_count base.now.case.now }
    ensures gone { HasGoneOn base.now.case.now bounds.new meter.old budget.old.left meter.new
        budget.new.left }
    ensures days { prices.new.days ≡ day_count base.now.case.now }
{
    if base.from >= base.case.weeks() {
        return false;
    }
    weigh_if_due(base, near, bounds, budget, meter);
    let Some(drawn) = near.draw(base) else {
        return false;
    };
    let task = Task {
        base,
        node: drawn.forbidden.node(),
    };
    prices.set_all(base.case, 0);
    if !near.begin(&task, drawn.forbidden.is_some(), bounds) {
        near.draws.record(drawn, false, 0, 0);
        return false;
    }
    let before = budget.made;
    let closed = close(&task, near, bounds, prices, budget, meter);
    let searches = budget.made.saturating_sub(before);
    let work = near.work.in_searches().saturating_add(searches);
    near.draws.record(drawn, closed, near.problem.free, work);
    near.found.is_some
}

/// Searches the neighbourhood that was begun. Returns whether it was closed: then nothing in it is cheaper
/// than what was found.
fn close<T: SearchesRows>(
    task: &Task<'_>,
    near: &mut NearSpace,
    bounds: &mut BoundWorkspace<T>,
    prices: &mut DualPrices,
    budget: &mut Budget,
    meter: &mut Meter,
) -> bool
    requires able { CanGoOn task.now.base.now.case.now bounds.old meter.old budget.old.left }
    requires days { prices.old.days ≡ day_count task.now.base.now.case.now }
    ensures gone { HasGoneOn task.now.base.now.case.now bounds.new meter.old budget.old.left
        meter.new budget.new.left }
    ensures days { prices.new.days ≡ day_count task.now.base.now.case.now }
{
    let Some(value) = ascend(task, near, bounds, prices, budget, meter) else {
        return false;
    };
    let gap = near.found.target().saturating_sub(value);
    if gap < 0 {
        return true;
    }
    let gap = Gap {
        task,
        gap: gap.unsigned_abs(),
    };
    let Some(has_all) = list_all(&gap, near, bounds, prices, budget, meter) else {
        return false;
    };
    near.search_tree(gap.gap) && has_all
}

impl NearSpace {
    /// Begins the subproblem of the nurses and days that were drawn: with its slots, its first prices, what
    /// is to be undercut, and the rows at hand. Returns false if it has too many slots, or none.
    fn begin<T: SearchesRows>(
        &mut self,
        task: &Task<'_>,
        accepts_equal: bool,
        bounds: &BoundWorkspace<T>,
    ) -> bool
        requires { FitsBound task.now.base.now.case.now bounds.now }
    {
        self.found.is_some = false;
        if !self.problem.set_slots(task.base) {
            return false;
        }
        let case = task.base.case;
        self.prices.begin(case, &self.problem, &bounds.dual_prices);
        self.prices.set_earned(&self.problem);
        let Some(cost) = self.present_cost(task) else {
            return false;
        };
        self.found
            .begin(case, self.problem.days(), cost, accepts_equal);
        self.begin_hand(task, &bounds.pool);
        true
    }

    /// What the present rows of the free nurses cost together with what the slots lack, in points.
    fn present_cost(&mut self, task: &Task<'_>) -> Option<u64> {
        let case = task.base.case;
        self.prices.uncover();
        let mut own: u64 = 0;
        for free in 0..self.problem.free {
            let nurse = self.problem.nurse(free);
            let row = task.base.given.row(nurse);
            if nurse >= case.nurses() || row.len() != case.days() as usize {
                return None;
            }
            own = own.saturating_add(nurse_cost(case, nurse, row) as u64);
            self.problem.write_numbers(row, &mut self.numbers);
            let days = self.problem.days().min(self.numbers.len());
            self.problem
                .count_numbers(&self.numbers[..days], &mut self.prices.cover);
        }
        self.problem.cost(own, &self.prices.cover)
    }
}

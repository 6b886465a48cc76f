//! The lists: all rows of each free nurse whose value is within the gap of her least.

ghost use Rattle.std.specs.Prelude.{◌≡◌};
ghost use Rattle.roster_instance.specs.Meaning.{day_count};
ghost use Rattle.roster_near.specs.Spending.{CanGoOn, HasGoneOn};

use crate::choices::{cell_of, choice_of, number_of};
use crate::problem::NO_SLOT;
use crate::rows::Changed;
use crate::space::NearSpace;
use crate::spend::{Listing, list_one, search_one};
use crate::task::{Task, Turn};
use crate::work::Budget;
use arrayvec::ArrayVec;
use roster_instance::{Choice, Skill};
use roster_offers::{MOST_OFFERS, Offer, SearchesRows};
use roster_prices::{BoundWorkspace, WindowTerms};
use roster_rules::{is_able, is_frozen};
use roster_slots::{DualPrices, FINE_PER_POINT, unreduced_cost};
use roster_state::{Meter, start};

/// How many rows a nurse's list has at most.
pub(crate) const MOST_LISTED: u16 = 5000;

/// How often a limit is halved at most for one nurse.
const MOST_HALVINGS: u32 = 48;

/// A list to be made: the free nurse, and by how much a row may be above her least, in fine units.
#[derive(Clone, Copy)]
struct ListOf<'a> {
    turn: Turn<'a>,
    within: u64,
}

/// How a list ended.
#[derive(Clone, Copy, PartialEq, Eq)]
enum Listed {
    /// All rows within the limit are listed.
    All,
    /// There are too many.
    TooMany,
    /// No search is left.
    Stopped,
}

/// Makes the list of each free nurse, by the best prices, which are then those at hand. Returns whether all
/// rows within the gap are listed, or `None` if no search is left. Once a list is too long, its limit is
/// halved, the next nurse's is half as much again, and the rows at hand join what is listed.
pub(crate) fn list_all<T: SearchesRows>(
    gap: &Gap<'_>,
    near: &mut NearSpace,
    bounds: &mut BoundWorkspace<T>,
    prices: &mut DualPrices,
    budget: &mut Budget,
    meter: &mut Meter,
) -> Option<bool>
    requires able { CanGoOn gap.now.task.now.base.now.case.now bounds.old meter.old
        budget.old.left }
    requires days { prices.old.days ≡ day_count gap.now.task.now.base.now.case.now }
    ensures gone { HasGoneOn gap.now.task.now.base.now.case.now bounds.new meter.old
        budget.old.left meter.new budget.new.left }
    ensures days { prices.new.days ≡ day_count gap.now.task.now.base.now.case.now }
{
    let task = gap.task;
    near.prices.take_best();
    near.set_prices(task, prices);
    near.lists.begin(near.problem.days(), 0);
    let mut within = gap.gap;
    let mut has_all = true;
    for free in 0..near.problem.free {
        let wanted = ListOf {
            turn: Turn { task, free },
            within: more_within(within, gap.gap),
        };
        let Some(reached) = list_within(&wanted, near, bounds, prices, budget, meter) else {
            return None;
        };
        has_all = has_all && reached >= gap.gap;
        within = reached;
    }
    Some(has_all)
}

/// The limit of the next nurse: half as much again as the one before, and at most the gap.
fn more_within(within: u64, gap: u64) -> u64 {
    within.saturating_add(within / 2).min(gap)
}

/// Makes a nurse's list, within half the limit and half of that as long as it is too long. Returns the limit
/// that it was made with, or `None` if no search is left.
fn list_within<T: SearchesRows>(
    wanted: &ListOf<'_>,
    near: &mut NearSpace,
    bounds: &mut BoundWorkspace<T>,
    prices: &DualPrices,
    budget: &mut Budget,
    meter: &mut Meter,
) -> Option<u64>
    requires able { CanGoOn wanted.now.turn.task.now.base.now.case.now bounds.old meter.old
        budget.old.left }
    requires days { prices.now.days ≡ day_count wanted.now.turn.task.now.base.now.case.now }
    ensures gone { HasGoneOn wanted.now.turn.task.now.base.now.case.now bounds.new meter.old
        budget.old.left meter.new budget.new.left }
{
    let mut within = wanted.within;
    'halved: for _halvings in 0..MOST_HALVINGS {
        let next = ListOf {
            turn: wanted.turn,
            within,
        };
        match list_nurse(&next, near, bounds, prices, budget, meter) {
            Listed::Stopped => return None,
            Listed::All => break,
            Listed::TooMany => within /= 2,
        }
        if within == 0 {
            break;
        }
    }
    if within < wanted.within {
        near.list_hand(wanted.turn.free);
    }
    Some(within)
}

/// Makes a nurse's list.
fn list_nurse<T: SearchesRows>(
    wanted: &ListOf<'_>,
    near: &mut NearSpace,
    bounds: &mut BoundWorkspace<T>,
    prices: &DualPrices,
    budget: &mut Budget,
    meter: &mut Meter,
) -> Listed
    requires able { CanGoOn wanted.now.turn.task.now.base.now.case.now bounds.old meter.old
        budget.old.left }
    requires days { prices.now.days ≡ day_count wanted.now.turn.task.now.base.now.case.now }
    ensures gone { HasGoneOn wanted.now.turn.task.now.base.now.case.now bounds.new meter.old
        budget.old.left meter.new budget.new.left }
{
    let turn = wanted.turn;
    let Some(least) = search_least(&turn, near, bounds, prices, budget, meter) else {
        return Listed::Stopped;
    };
    let scale = turn.task.base.scale as u64;
    let parts = wanted.within.saturating_mul(scale) / FINE_PER_POINT as u64;
    let limit = Limit {
        turn,
        cost: least.saturating_add(parts),
    };
    let Some(has_all) = list_rows(&limit, near, bounds, prices, budget, meter) else {
        return Listed::Stopped;
    };
    let has_room = near.take_list(wanted, prices, bounds);
    if has_all && has_room {
        Listed::All
    } else {
        Listed::TooMany
    }
}

/// A free nurse, and what her rows may cost, in parts of a point.
#[derive(Clone, Copy)]
struct Limit<'a> {
    turn: Turn<'a>,
    cost: u64,
}

/// A task, and the gap that its lists are to span, in fine units.
#[derive(Clone, Copy)]
pub(crate) struct Gap<'a> {
    pub(crate) task: &'a Task<'a>,
    pub(crate) gap: u64,
}

/// Searches what a free nurse's rows cost at least, in parts of a point.
fn search_least<T: SearchesRows>(
    turn: &Turn<'_>,
    near: &mut NearSpace,
    bounds: &mut BoundWorkspace<T>,
    prices: &DualPrices,
    budget: &mut Budget,
    meter: &mut Meter,
) -> Option<u64>
    requires able { CanGoOn turn.now.task.now.base.now.case.now bounds.old meter.old
        budget.old.left }
    requires days { prices.now.days ≡ day_count turn.now.task.now.base.now.case.now }
    ensures gone { HasGoneOn turn.now.task.now.base.now.case.now bounds.new meter.old
        budget.old.left meter.new budget.new.left }
{
    let nurse = near.problem.nurse(turn.free);
    let terms = WindowTerms {
        base: turn.task.base,
        dual_prices: prices,
        window: near.problem.window,
        node: turn.task.node,
    };
    search_one(&terms, nurse, &mut bounds.rows, budget, meter)
}

/// Lists the rows of a free nurse over one offer for each shift. Returns whether the list holds them all, or
/// `None` if no search is left.
fn list_rows<T: SearchesRows>(
    limit: &Limit<'_>,
    near: &mut NearSpace,
    bounds: &mut BoundWorkspace<T>,
    prices: &DualPrices,
    budget: &mut Budget,
    meter: &mut Meter,
) -> Option<bool>
    requires able { CanGoOn limit.now.turn.task.now.base.now.case.now bounds.old meter.old
        budget.old.left }
    requires days { prices.now.days ≡ day_count limit.now.turn.task.now.base.now.case.now }
    ensures gone { HasGoneOn limit.now.turn.task.now.base.now.case.now bounds.new meter.old
        budget.old.left meter.new budget.new.left }
{
    let task = limit.turn.task;
    let terms = WindowTerms {
        base: task.base,
        dual_prices: prices,
        window: near.problem.window,
        node: task.node,
    };
    let listing = Listing {
        nurse: near.problem.nurse(limit.turn.free),
        cost: limit.cost,
    };
    let (rows, list) = (&mut bounds.rows, &mut near.listed);
    list_one(&terms, listing, rows, list, budget, meter)
}

impl NearSpace {
    /// Takes the rows that were listed over the offers in a workspace, and those of them with other skills
    /// that are within the limit too. Returns false if there are too many.
    fn take_list<T: SearchesRows>(
        &mut self,
        wanted: &ListOf<'_>,
        prices: &DualPrices,
        bounds: &BoundWorkspace<T>,
    ) -> bool {
        let Turn { task, free } = wanted.turn;
        self.lists.begin_after(free);
        self.work.list_rows(self.listed.len());
        let offers = bounds.rows.workspace.offers();
        let mut limit = i64::MAX;
        for row in 0..self.listed.len() {
            let Some(value) = self.take_listed(task, free, row, prices, offers) else {
                return false;
            };
            limit = limit.min(value.saturating_add(wanted.within.min(MOST_WITHIN) as i64));
        }
        self.add_skills(task, free, limit)
    }

    /// Takes a listed row, and returns its value; none if there is no capacity.
    fn take_listed(
        &mut self,
        task: &Task<'_>,
        free: usize,
        row: usize,
        prices: &DualPrices,
        offers: &[ArrayVec<Offer, MOST_OFFERS>],
    ) -> Option<i64> {
        self.read_listed(row, offers);
        let own = self.own_of_listed(task, free, row, prices);
        self.problem.write_numbers(&self.row, &mut self.numbers);
        let value = self.value_of_numbers(own);
        let days = self.problem.days().min(self.numbers.len());
        let span = self.lists.span(free);
        if !self
            .lists
            .push(free, MOST_LISTED as usize, own, &self.numbers[..days])
        {
            return None;
        }
        self.lists
            .set_value(span.first.saturating_add(span.count), value);
        Some(value)
    }

    /// Reads the choices of a listed row.
    fn read_listed(&mut self, row: usize, offers: &[ArrayVec<Offer, MOST_OFFERS>]) {
        for day in 0..self.row.len().min(offers.len()) {
            let index = self.listed.index(row, day) as usize;
            if index < offers[day].len() {
                self.row[day] = offers[day][index].choice;
            }
        }
    }

    /// What the listed row that was read costs its nurse without dual prices, in points.
    fn own_of_listed(&self, task: &Task<'_>, free: usize, row: usize, prices: &DualPrices) -> u32 {
        let nurse = self.problem.nurse(free);
        if nurse >= task.base.case.nurses() {
            return 0;
        }
        let (_, owed) = start(task.base.case, nurse);
        let scale = task.base.scale;
        let owed = (scale as u64).saturating_mul(owed as u64);
        let cost = owed.saturating_add(self.listed.cost(row) as u64);
        unreduced_cost(&self.row, cost, scale, prices)
    }

    /// Adds to each row of a nurse's list those with other skills whose value is within a limit. Returns
    /// false if there is no capacity.
    fn add_skills(&mut self, task: &Task<'_>, free: usize, limit: i64) -> bool {
        for offset in 0..self.problem.days() {
            let span = self.lists.span(free);
            for row in span.first..span.first.saturating_add(span.count) {
                if !self.add_skills_on(task, free, row, offset, limit) {
                    return false;
                }
            }
        }
        true
    }

    /// Adds the rows that differ from one on an open day, by another skill for the same shift.
    fn add_skills_on(
        &mut self,
        task: &Task<'_>,
        free: usize,
        row: usize,
        offset: usize,
        limit: i64,
    ) -> bool {
        let number = self.lists.number(row, offset);
        if number == 0 {
            return true;
        }
        for skill in 0..task.base.case.skills() {
            let other = with_skill(number, skill);
            let value = self.changed_value(row, offset, number, other);
            if value <= limit && self.is_other(task, free, offset, number, other) {
                let changed = Changed {
                    offset,
                    number: other,
                    value,
                };
                self.work.list_rows(1);
                if !self
                    .lists
                    .push_changed(free, MOST_LISTED as usize, row, changed)
                {
                    return false;
                }
            }
        }
        true
    }

    /// The value of a row with another choice on an open day.
    fn changed_value(&self, row: usize, offset: usize, number: u8, other: u8) -> i64 {
        self.lists
            .value(row)
            .saturating_add(self.earned_on(offset, number))
            .saturating_sub(self.earned_on(offset, other))
    }

    /// What a choice earns on an open day.
    fn earned_on(&self, offset: usize, number: u8) -> i64 {
        let cell = cell_of(offset, number);
        if cell < self.prices.earned.len() {
            self.prices.earned[cell] as i64
        } else {
            0
        }
    }

    /// Whether a choice is another one than that of the offer for its shift, which the nurse may make on an
    /// open day. Of the skills that cover no slot only one counts: the offered one, or else the first.
    fn is_other(&self, task: &Task<'_>, free: usize, offset: usize, number: u8, other: u8) -> bool {
        let nurse = self.problem.nurse(free);
        let day = self.problem.day(offset).min(u16::MAX as usize) as u16;
        if other == number || nurse >= task.base.case.nurses() {
            return false;
        }
        let case = task.base.case;
        let choice = choice_of(other);
        if is_frozen(case, task.base.from, nurse, day)
            || !is_able(case.skills_of(nurse), choice)
            || !task.allows(nurse, day as usize, choice)
        {
            return false;
        }
        let has_slot = self.problem.slot_of(cell_of(offset, other)) != NO_SLOT;
        has_slot || self.is_first_without_slot(task, nurse, offset, number, other)
    }

    /// Whether the offered choice covers a slot, and no skill before this one is without.
    fn is_first_without_slot(
        &self,
        task: &Task<'_>,
        nurse: usize,
        offset: usize,
        number: u8,
        other: u8,
    ) -> bool {
        if self.problem.slot_of(cell_of(offset, number)) == NO_SLOT {
            return false;
        }
        for skill in 0..task.base.case.skills() {
            let before = with_skill(number, skill);
            if before >= other {
                break;
            }
            let is_without = self.problem.slot_of(cell_of(offset, before)) == NO_SLOT;
            if is_without && is_able(task.base.case.skills_of(nurse), choice_of(before)) {
                return false;
            }
        }
        true
    }

    /// Adds the rows at hand to a nurse's list, as far as there is capacity.
    fn list_hand(&mut self, free: usize) {
        let span = self.hand.span(free);
        for row in span.first..span.first.saturating_add(span.count) {
            let numbers = self.hand.numbers(row);
            if self.lists.find(free, numbers).is_none() {
                let own = self.hand.own(row);
                self.work.list_rows(1);
                self.lists.push(free, usize::MAX, own, numbers);
            }
        }
    }
}

/// What a row may be above the least at most, in fine units.
const MOST_WITHIN: u64 = 1 << 60;

/// The number of a choice for the same shift with another skill.
fn with_skill(number: u8, skill: u8) -> u8 {
    match choice_of(number) {
        Choice::Off => 0,
        Choice::Work(shift, _) => number_of(Choice::Work(shift, Skill(skill))),
    }
}

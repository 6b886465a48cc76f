//! The rows at hand: the present row of each free nurse, the cheapest of her pooled rows, and those that the
//! rounds of searches find.

ghost use Rattle.std.specs.Prelude.{◌≡◌, ◌<◌, IfSome, length};
ghost use Rattle.roster_instance.specs.Meaning.{nurse_count};
ghost use Rattle.roster_slots.specs.ColumnPool.{FitsPool};

use crate::choices::choice_of;
use crate::problem::Problem;
use crate::rows::{Cheapest, earned_by};
use crate::space::NearSpace;
use crate::task::Task;
use roster_costs::nurse_cost;
use roster_instance::{Case, Choice};
use roster_slots::{ColumnPool, FINE_PER_POINT, OFF_SLOT, ROWS_PER_NURSE, slot_on};

/// How many pooled rows of a nurse are at hand.
const MOST_POOLED: usize = 25;

/// How many rows of a nurse are at hand at most.
pub(crate) const MOST_AT_HAND: usize = 72;

/// The values of a nurse's pooled rows, the greatest number for one that isn't in the neighbourhood.
type PoolValues = [i64; ROWS_PER_NURSE];

impl NearSpace {
    /// Takes the present row of each free nurse and the cheapest of her pooled rows, by the prices at hand.
    pub(crate) fn begin_hand(&mut self, task: &Task<'_>, pool: &ColumnPool)
        requires { FitsPool task.now.base.now.case.now pool.now }
    {
        self.hand.begin(self.problem.days(), MOST_AT_HAND);
        for free in 0..self.problem.free {
            let nurse = self.problem.nurse(free);
            if nurse < task.base.case.nurses() {
                self.take_present(task, free, nurse);
                self.take_pooled(task, free, nurse, pool);
            }
        }
    }

    /// Takes the present row of a nurse, unless it has a forbidden choice.
    fn take_present(&mut self, task: &Task<'_>, free: usize, nurse: usize)
        requires { nurse < nurse_count task.now.base.now.case.now }
    {
        let row = task.base.given.row(nurse);
        if row.len() != task.base.case.days() as usize {
            return;
        }
        let own = nurse_cost(task.base.case, nurse, row);
        self.problem.write_numbers(row, &mut self.numbers);
        if self.is_allowed(task, nurse) {
            self.take_numbers(free, own);
        }
    }

    /// Takes the row whose numbers are at hand, and returns its index.
    pub(crate) fn take_numbers(&mut self, free: usize, own: u32) -> Option<usize> {
        let days = self.problem.days().min(self.numbers.len());
        let numbers = &self.numbers[..days];
        if let Some(row) = self.hand.find(free, numbers) {
            return Some(row);
        }
        let span = self.hand.span(free);
        if self.hand.push(free, MOST_AT_HAND, own, numbers) {
            Some(span.first.saturating_add(span.count))
        } else {
            None
        }
    }

    /// Whether none of the numbers at hand is that of a forbidden choice.
    pub(crate) fn is_allowed(&self, task: &Task<'_>, nurse: usize) -> bool {
        for offset in 0..self.problem.days().min(self.numbers.len()) {
            let day = self.problem.day(offset);
            if !task.allows(nurse, day, choice_of(self.numbers[offset])) {
                return false;
            }
        }
        true
    }

    /// Takes the cheapest of a nurse's pooled rows that are in the neighbourhood.
    fn take_pooled(&mut self, task: &Task<'_>, free: usize, nurse: usize, pool: &ColumnPool)
        requires nurse { nurse < nurse_count task.now.base.now.case.now }
        requires pool { FitsPool task.now.base.now.case.now pool.now }
    {
        let case = task.base.case;
        let mut values = self.pool_values(task, nurse, pool);
        for _taken in 0..MOST_POOLED {
            let Some(least) = least_of(&values) else {
                return;
            };
            values[least] = i64::MAX;
            let at = ROWS_PER_NURSE * nurse + least;
            write_pooled(case, pool, at, &self.problem, &mut self.numbers);
            let own = pool.entries[at].cost;
            self.take_numbers(free, own);
        }
    }

    /// The values of a nurse's pooled rows.
    fn pool_values(&mut self, task: &Task<'_>, nurse: usize, pool: &ColumnPool) -> PoolValues
        requires nurse { nurse < nurse_count task.now.base.now.case.now }
        requires pool { FitsPool task.now.base.now.case.now pool.now }
    {
        let case = task.base.case;
        let mut values = [i64::MAX; ROWS_PER_NURSE];
        for index in 0..ROWS_PER_NURSE {
            let at = ROWS_PER_NURSE * nurse + index;
            let entry = pool.entries[at];
            if entry.turn == 0 {
                break;
            }
            if keeps_present(case, pool, at, &self.problem, task.base.given.row(nurse)) {
                write_pooled(case, pool, at, &self.problem, &mut self.numbers);
                if self.is_allowed(task, nurse) {
                    values[index] = self.value_of_numbers(entry.cost);
                }
            }
        }
        self.work.value_rows(ROWS_PER_NURSE);
        values
    }

    /// The value of the row whose numbers are at hand, by the prices at hand.
    pub(crate) fn value_of_numbers(&self, own: u32) -> i64 {
        let days = self.problem.days().min(self.numbers.len());
        let paid = earned_by(&self.numbers[..days], &self.prices.earned);
        (FINE_PER_POINT as i64 * own as i64).saturating_sub(paid)
    }

    /// What slots and rows at hand cost at least by the prices at hand. The cover is that of these rows, and
    /// they are considered together.
    pub(crate) fn value_hand(&mut self) -> i64 {
        self.prices.uncover();
        let mut value = self.prices.slots_value(&self.problem);
        for free in 0..self.problem.free.min(self.picks.len()) {
            let rows = self.hand.span(free).count;
            self.work.value_rows(rows);
            if let Some(least) = self.hand.cheapest(free, &self.prices.earned) {
                self.pick(free, least);
                value = value.saturating_add(least.value);
            }
        }
        self.consider_hand();
        value
    }

    /// Picks a row at hand for a nurse, and counts it in the cover.
    fn pick(&mut self, free: usize, least: Cheapest) {
        self.set_pick(free, least.row);
        let numbers = self.hand.numbers(least.row);
        self.problem.count_numbers(numbers, &mut self.prices.cover);
    }

    /// Sets which row was picked for a nurse.
    pub(crate) fn set_pick(&mut self, free: usize, row: usize) {
        if free < self.picks.len() {
            self.picks[free] = row.min(u32::MAX as usize) as u32;
        }
    }

    /// Which row was picked for a nurse.
    pub(crate) fn picked(&self, free: usize) -> usize {
        if free < self.picks.len() {
            self.picks[free] as usize
        } else {
            0
        }
    }

    /// Considers the picked rows at hand together.
    pub(crate) fn consider_hand(&mut self) {
        self.found
            .consider(&self.problem, &self.hand, &self.picks, &self.prices.cover);
    }
}

/// The index of the least of some values, the first if there are several; none if there is no value.
fn least_of(values: &PoolValues) -> Option<usize>
    ensures { IfSome result (λ least. least < 64) }
{
    let mut least = None;
    let mut value = i64::MAX;
    for index in 0..ROWS_PER_NURSE {
        if values[index] < value {
            value = values[index];
            least = Some(index);
        }
    }
    least
}

/// Whether a pooled row agrees with the present one on each day outside of the window.
fn keeps_present(
    case: &Case,
    pool: &ColumnPool,
    at: usize,
    problem: &Problem,
    present: &[Choice],
) -> bool
    requires fits { FitsPool case.now pool.now }
    requires at { at < length pool.now.entries.items }
{
    let window = problem.window;
    for day in 0..case.days() {
        let is_open = window.first <= day && day < window.end;
        let index = day as usize;
        if !is_open && index < present.len() {
            if pool.slot_at(case, at, day) != slot_on(present[index], index) {
                return false;
            }
        }
    }
    true
}

/// Writes the numbers of a pooled row's choices on the open days.
fn write_pooled(case: &Case, pool: &ColumnPool, at: usize, problem: &Problem, numbers: &mut [u8])
    requires fits { FitsPool case.now pool.now }
    requires at { at < length pool.now.entries.items }
{
    for offset in 0..problem.days().min(numbers.len()) {
        let day = problem.day(offset).min(u16::MAX as usize) as u16;
        let slot = pool.slot_at(case, at, day);
        numbers[offset] = if slot == OFF_SLOT {
            0
        } else {
            (slot % 64 + 1) as u8
        };
    }
}

//! The column pool: rows that searches found, by which dual prices move between two rounds of searches.

ghost use Rattle.std.specs.Prelude.{◌≡◌, ◌+◌, ◌*◌, ◌<◌, ◌≤◌, IfOk, length};
ghost use Rattle.roster_instance.specs.Meaning.{day_count, nurse_count};
ghost use Rattle.roster_offers.specs.Lists.{most_scale};
ghost use Rattle.roster_slots.specs.ColumnPool.{FitsPool, pooled_slot};

use crate::dual_prices::{DualPrices, FINE_PER_POINT, MOST_DUAL_PRICE, MOST_FINE};
use roster_instance::{Case, Choice};
use std::alloc::{AllocError, Global};

/// How many rows are kept for each nurse.
pub const ROWS_PER_NURSE: usize = 64;

/// What is recorded of a pooled row: what it costs its nurse without dual prices, in points, and the turn in
/// which it was last found, 0 if there is no row.
#[derive(Clone, Copy, Default)]
pub struct PoolEntry {
    pub cost: u32,
    pub turn: u32,
}

/// For each nurse the rows that were found last, 64 at most and no row twice. A row is held as its slot on
/// each day; a day off has a slot beyond those of all days. For each nurse that takes 128 bytes a day and 512
/// more: 18,841,600 bytes at most.
pub struct ColumnPool {
    pub(crate) days: usize,
    pub(crate) turn: u32,
    pub entries: Vec<PoolEntry>,
    pub(crate) slots: Vec<u16>,
}

// Written by hand, so that a function that drops it has one call to prove.
impl Drop for ColumnPool {
    fn drop(self) {
        let ColumnPool {
            days: _,
            turn: _,
            entries: _,
            slots: _,
        } = self;
    }
}

/// The slot of a day off: no case has this many slots.
pub const OFF_SLOT: u16 = u16::MAX;

impl ColumnPool {
    /// An empty pool with capacity for the nurses of a case, made by two allocations.
    ///
    /// # Errors
    ///
    /// An allocation was refused.
    pub fn for_case(alloc: Global, case: &Case) -> Result<ColumnPool, AllocError>
        ensures { IfOk result (FitsPool case.now) }
    {
        case.keeps_limits();
        let days = case.days() as usize;
        let rows = ROWS_PER_NURSE * case.nurses();
        Ok(ColumnPool {
            days,
            turn: 0,
            entries: vec![in alloc; PoolEntry::default(); rows]?,
            slots: vec![in alloc; OFF_SLOT; rows * days]?,
        })
    }

    /// Forgets all rows.
    pub fn forget(&mut self)
        ensures days { self.new.days ≡ self.old.days }
        ensures entries { length self.new.entries.items ≡ length self.old.entries.items }
        ensures slots { self.new.slots ≡ self.old.slots }
    {
        self.turn = 0;
        self.entries.fill(PoolEntry::default());
    }

    /// Keeps a row of a nurse, which costs her this many points without dual prices. If the nurse has no free
    /// entry, the row that was found longest ago goes.
    pub fn keep(&mut self, case: &Case, nurse: usize, row: &[Choice], cost: u32)
        requires nurse { nurse < nurse_count case.now }
        requires fits { FitsPool case.now self.old }
        ensures { FitsPool case.now self.new }
    {
        let at = self.room_for(case, nurse, row);
        self.turn = self.turn.saturating_add(1);
        self.entries[at] = PoolEntry {
            cost,
            turn: self.turn,
        };
        self.put_row(case, at, row);
    }

    /// The index at which a row of a nurse is kept: where it is already, or else that of a free entry, or
    /// that of the row that was found longest ago.
    fn room_for(&self, case: &Case, nurse: usize, row: &[Choice]) -> usize
        requires nurse { nurse < nurse_count case.now }
        requires fits { FitsPool case.now self.now }
        ensures { result < length self.now.entries.items }
    {
        let first = ROWS_PER_NURSE * nurse;
        let mut oldest = first;
        for at in first..first + ROWS_PER_NURSE {
            if self.entries[at].turn > 0 && self.is_row(case, at, row) {
                return at;
            }
            if self.entries[at].turn < self.entries[oldest].turn {
                oldest = at;
            }
        }
        oldest
    }

    /// Whether this row is kept at the index.
    fn is_row(&self, case: &Case, at: usize, row: &[Choice]) -> bool
        requires fits { FitsPool case.now self.now }
        requires at { at < length self.now.entries.items }
    {
        let first = at * self.days;
        for day in 0..row.len().min(self.days) {
            if self.slots[first + day] != slot_on(row[day], day) {
                return false;
            }
        }
        true
    }

    /// Writes the slots of a row at the index.
    fn put_row(&mut self, case: &Case, at: usize, row: &[Choice])
        requires fits { FitsPool case.now self.old }
        requires at { at < length self.old.entries.items }
        ensures { FitsPool case.now self.new }
    {
        let first = at * self.days;
        for day in 0..row.len().min(self.days) {
            self.slots[first + day] = slot_on(row[day], day);
        }
    }

    /// The reduced cost of a row in fine units, plus the greatest dual price for each day, so that it isn't
    /// negative.
    pub fn cost_by(&self, case: &Case, at: usize, dual_prices: &DualPrices) -> u64
        requires fits { FitsPool case.now self.now }
        requires at { at < length self.now.entries.items }
    {
        let first = at * self.days;
        let paid = dual_prices.fine_of(&self.slots[first..first + self.days]);
        let cost = FINE_PER_POINT as u64 * self.entries[at].cost as u64;
        let most = case.days() as u64 * MOST_FINE as u64;
        (cost + most).saturating_sub(paid)
    }

    /// The slot of a row on a day; `OFF_SLOT` if the nurse is off or the case has no such day.
    pub fn slot_at(&self, case: &Case, at: usize, day: u16) -> u16
        requires fits { FitsPool case.now self.now }
        requires at { at < length self.now.entries.items }
        ensures { day < day_count case.now → result ≡ pooled_slot self.now at day }
    {
        let first = at * self.days;
        let day = day as usize;
        if day < self.days {
            self.slots[first + day]
        } else {
            OFF_SLOT
        }
    }

    /// Counts a row in the cover of its slots.
    pub fn count_row(&self, case: &Case, at: usize, cover: &mut [u16])
        requires fits { FitsPool case.now self.now }
        requires at { at < length self.now.entries.items }
        ensures { length cover.new ≡ length cover.old }
    {
        let first = at * self.days;
        for day in 0..self.days {
            let slot = self.slots[first + day] as usize;
            if slot < cover.len() {
                cover[slot] = cover[slot].saturating_add(1);
            }
        }
    }
}

/// The slot of a choice on a day.
pub fn slot_on(choice: Choice, day: usize) -> u16 {
    let Choice::Work(shift, skill) = choice else {
        return OFF_SLOT;
    };
    let within = 8 * shift.0 as usize + skill.0 as usize;
    let slot = day.saturating_mul(64).saturating_add(within);
    slot.min(OFF_SLOT as usize) as u16
}

/// What a row that was found at this cost by dual prices, in parts of a point, costs its nurse without them,
/// in points, or the greatest number.
pub fn unreduced_cost(row: &[Choice], found: u64, scale: u32, dual_prices: &DualPrices) -> u32
    requires some { 0 < scale }
    requires few { scale ≤ most_scale }
{
    let mut cost = found;
    for day in 0..row.len() {
        let slot = slot_on(row[day], day) as usize;
        let unpaid = scale * MOST_DUAL_PRICE - dual_prices.at_or_none(scale, slot);
        cost = cost.saturating_sub(unpaid as u64);
    }
    (cost / scale as u64).min(u32::MAX as u64) as u32
}

//! Which rows of the lists are live in a node of the tree.

use crate::problem::{MOST_FREE, MOST_SLOTS, Problem};
use crate::rows::Rows;
use roster_instance::Case;
use std::alloc::{AllocError, Global};

/// How deep the tree is at most. A node beyond that isn't branched.
pub(crate) const MOST_LEVELS: usize = 128;

/// How many active rows a nurse has at most.
pub(crate) const MOST_ACTIVE: usize = 72;

/// A branching: whether a free nurse makes a choice on an open day, or another one. The first side to be
/// visited is the one with the choice, or the one without.
#[derive(Clone, Copy, Debug, Default, PartialEq, Eq)]
pub(crate) struct Branching {
    pub(crate) free: usize,
    pub(crate) offset: usize,
    pub(crate) number: u8,
    pub(crate) with_first: bool,
}

/// A level of the tree: a node's branching, and whether its second side is still to be visited.
#[derive(Clone, Copy, Debug, Default)]
struct Level {
    branching: Branching,
    is_open: bool,
}

/// The live rows of each free nurse, before those that aren't live; the few that are active, which are those
/// that were cheapest before; and for each level of the tree how many rows were live in its node, and the
/// prices there. A row that is dropped goes behind the live ones. So to return to a level its numbers alone
/// are needed. That takes 8 bytes for each row, 128 levels of 256 bytes and of four for each slot, and 18,432
/// bytes.
pub(crate) struct Live {
    rows: Vec<u32>,
    places: Vec<u32>,
    counts: Vec<u32>,
    active: Vec<u32>,
    active_counts: Vec<u32>,
    levels: Vec<Level>,
    level_counts: Vec<u32>,
    level_prices: Vec<u32>,
    slots: usize,
}

// Written by hand, so that a function that drops it has one call to prove.
impl Drop for Live {
    fn drop(self) {
        let Live {
            rows: _,
            places: _,
            counts: _,
            active: _,
            active_counts: _,
            levels: _,
            level_counts: _,
            level_prices: _,
            slots: _,
        } = self;
    }
}

impl Live {
    /// The memory for lists with this many rows, by eight allocations.
    ///
    /// # Errors
    ///
    /// An allocation was refused.
    pub(crate) fn for_case(alloc: Global, case: &Case, rows: usize) -> Result<Live, AllocError> {
        let slots = (case.days() as usize)
            .saturating_mul(case.shifts() as usize)
            .saturating_mul(case.skills() as usize)
            .min(MOST_SLOTS);
        Ok(Live {
            rows: vec![in alloc; 0; rows]?,
            places: vec![in alloc; 0; rows]?,
            counts: vec![in alloc; 0; MOST_FREE]?,
            active: vec![in alloc; 0; MOST_FREE * MOST_ACTIVE]?,
            active_counts: vec![in alloc; 0; MOST_FREE]?,
            levels: vec![in alloc; Level::default(); MOST_LEVELS]?,
            level_counts: vec![in alloc; 0; MOST_LEVELS * MOST_FREE]?,
            level_prices: vec![in alloc; 0; slots.saturating_mul(MOST_LEVELS)]?,
            slots,
        })
    }

    /// Begins with all rows live, and none active.
    pub(crate) fn begin(&mut self, problem: &Problem, lists: &Rows) {
        for free in 0..problem.free {
            let span = lists.span(free);
            self.set_count(free, span.count);
            for row in span.first..span.first.saturating_add(span.count) {
                self.put(row, row);
            }
        }
        self.active_counts.fill(0);
    }

    /// Sets how many live rows a nurse has.
    fn set_count(&mut self, free: usize, count: usize) {
        if free < self.counts.len() {
            self.counts[free] = count.min(u32::MAX as usize) as u32;
        }
    }

    /// Puts a row at a place.
    fn put(&mut self, place: usize, row: usize) {
        if place < self.rows.len() && row < self.places.len() {
            self.rows[place] = row.min(u32::MAX as usize) as u32;
            self.places[row] = place.min(u32::MAX as usize) as u32;
        }
    }

    /// How many live rows a nurse has.
    pub(crate) fn count(&self, free: usize) -> usize {
        if free < self.counts.len() {
            self.counts[free] as usize
        } else {
            0
        }
    }

    /// The row at a place: the live ones of a nurse are at the first places of her rows.
    pub(crate) fn row(&self, place: usize) -> usize {
        if place < self.rows.len() {
            self.rows[place] as usize
        } else {
            0
        }
    }

    /// Whether a row of a nurse, whose rows begin at `first`, is live.
    fn is_live(&self, free: usize, first: usize, row: usize) -> bool {
        row < self.places.len()
            && (self.places[row] as usize) < first.saturating_add(self.count(free))
    }

    /// Drops the live row of a nurse at a place: the last live one takes it.
    pub(crate) fn drop_at(&mut self, free: usize, first: usize, place: usize) {
        let count = self.count(free);
        let Some(fewer) = count.checked_sub(1) else {
            return;
        };
        let last = first.saturating_add(fewer);
        let (row, other) = (self.row(place), self.row(last));
        self.put(place, other);
        self.put(last, row);
        self.set_count(free, fewer);
    }

    /// How many active rows a nurse has, live or not.
    pub(crate) fn active_count(&self, free: usize) -> usize {
        if free < self.active_counts.len() {
            (self.active_counts[free] as usize).min(MOST_ACTIVE)
        } else {
            0
        }
    }

    /// An active row of a nurse whose rows begin at `first`, if it is live.
    pub(crate) fn active(&self, free: usize, first: usize, index: usize) -> Option<usize> {
        let at = free.saturating_mul(MOST_ACTIVE).saturating_add(index);
        if at >= self.active.len() {
            return None;
        }
        let row = self.active[at] as usize;
        if self.is_live(free, first, row) {
            Some(row)
        } else {
            None
        }
    }

    /// Makes a row of a nurse active. If there are too many, it takes the place of an earlier one. Returns
    /// whether it wasn't active before.
    pub(crate) fn activate(&mut self, free: usize, row: usize) -> bool {
        let first = free.saturating_mul(MOST_ACTIVE);
        for index in 0..self.active_count(free) {
            let at = first.saturating_add(index);
            if at < self.active.len() && self.active[at] as usize == row {
                return false;
            }
        }
        if free < self.active_counts.len() {
            let made = self.active_counts[free];
            let at = first.saturating_add(made as usize % MOST_ACTIVE);
            if at < self.active.len() {
                self.active[at] = row.min(u32::MAX as usize) as u32;
            }
            self.active_counts[free] = made.saturating_add(1);
        }
        true
    }

    /// Saves a node at a level, with its branching, the second side of which is to be visited.
    pub(crate) fn save(&mut self, level: usize, branching: Branching, prices: &[u32]) {
        if level < self.levels.len() {
            self.levels[level] = Level {
                branching,
                is_open: true,
            };
        }
        let first = level.saturating_mul(MOST_FREE);
        for free in 0..MOST_FREE {
            let at = first.saturating_add(free);
            if at < self.level_counts.len() && free < self.counts.len() {
                self.level_counts[at] = self.counts[free];
            }
        }
        let first = level.saturating_mul(self.slots);
        for slot in 0..prices.len().min(self.slots) {
            let at = first.saturating_add(slot);
            if at < self.level_prices.len() {
                self.level_prices[at] = prices[slot];
            }
        }
    }

    /// Returns to the last level before this one whose second side is to be visited, and takes its live rows
    /// and its prices. That side is then no longer to be visited.
    pub(crate) fn go_back(
        &mut self,
        depth: usize,
        prices: &mut [u32],
    ) -> Option<(usize, Branching)> {
        for level in (0..depth).rev() {
            if level < self.levels.len() && self.levels[level].is_open {
                let branching = self.levels[level].branching;
                self.levels[level].is_open = false;
                self.restore(level, prices);
                return Some((level, branching));
            }
        }
        None
    }

    /// Takes the live rows and the prices of a level.
    fn restore(&mut self, level: usize, prices: &mut [u32]) {
        let first = level.saturating_mul(MOST_FREE);
        for free in 0..self.counts.len() {
            let at = first.saturating_add(free);
            if at < self.level_counts.len() {
                self.counts[free] = self.level_counts[at];
            }
        }
        let first = level.saturating_mul(self.slots);
        for slot in 0..prices.len().min(self.slots) {
            let at = first.saturating_add(slot);
            if at < self.level_prices.len() {
                prices[slot] = self.level_prices[at];
            }
        }
    }
}

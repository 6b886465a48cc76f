//! The rows that a search lists, and the walk over the days by which it finds them.

ghost use Rattle.std.specs.Prelude.{◌≡◌, ◌+◌, ◌*◌, ◌<◌, ◌≤◌, ◌↔◌, IfOk, IsTrue, length, slice_index_or, slice_set};
ghost use Rattle.roster_bundle.specs.Limits.{greatest_u64};
ghost use Rattle.roster_instance.specs.Meaning.{day_count};
ghost use Rattle.roster_offers.specs.Listed.{KeepsList, no_cost, no_index};

use roster_instance::Case;
use roster_state::State;
use std::alloc::{AllocError, Global};

/// What a search that lists rows may do: list those that cost at most `cost`, in the parts of a point of its
/// scale, and count at most this many extensions.
#[derive(Clone, Copy, Debug)]
pub struct ListLimits {
    pub cost: u32,
    pub extensions: u64,
}

/// A day of the partial row that is being extended: the state before the day, the cost of the days before it,
/// and the index of the offer of the day that comes next.
#[derive(Clone, Copy, Default)]
pub struct WalkDay {
    pub state: State,
    pub cost: u32,
    pub next: u8,
}

/// Rows over the offers of one nurse, each with its cost, and the partial row from which the next one is
/// found. A row is held as the index of its offer on each day. That takes four bytes for each row, one for
/// each of its days, and 20 for each day of the partial row. One list serves all nurses of a case, one after
/// another.
pub struct RowList {
    pub(crate) days: usize,
    pub(crate) held: usize,
    pub(crate) costs: Vec<u32>,
    pub(crate) indices: Vec<u8>,
    pub(crate) walk: Vec<WalkDay>,
}

// Written by hand, so that a function that drops it has one call to prove.
impl Drop for RowList {
    fn drop(self) {
        let RowList {
            days: _,
            held: _,
            costs: _,
            indices: _,
            walk: _,
        } = self;
    }
}

impl RowList {
    /// An empty list with capacity for this many rows over the days of a case, by three allocations.
    ///
    /// # Errors
    ///
    /// An allocation was refused.
    pub fn for_case(alloc: Global, case: &Case, rows: u16) -> Result<RowList, AllocError>
        ensures rows { IfOk result (λ list. length list.costs.items ≡ rows) }
        ensures days { IfOk result (λ list. list.days ≡ day_count case.now) }
        ensures none { IfOk result (λ list. list.held ≡ 0) }
    {
        let days = case.days() as usize;
        let rows = rows as usize;
        Ok(RowList {
            days,
            held: 0,
            costs: vec![in alloc; 0; rows]?,
            indices: vec![in alloc; 0; rows.saturating_mul(days)]?,
            walk: vec![in alloc; WalkDay::default(); days]?,
        })
    }

    /// How many rows are listed.
    pub fn len(&self) -> usize
        ensures { result ≡ self.now.held }
    {
        self.held
    }

    /// Whether no row is listed.
    pub fn is_empty(&self) -> bool
        ensures { IsTrue result ↔ (self.now.held ≡ 0) }
    {
        self.held == 0
    }

    /// The cost of a listed row; the greatest number past the end.
    pub fn cost(&self, row: usize) -> u32
        ensures { result ≡ slice_index_or self.now.costs.items row no_cost }
    {
        match self.costs.get(row) {
            Some(cost) => *cost,
            None => u32::MAX,
        }
    }

    /// The index of the offer of a listed row on a day; the greatest number past the end.
    pub fn index(&self, row: usize, day: usize) -> u8
        ensures { row * self.now.days + day ≤ greatest_u64 → result ≡ slice_index_or
            self.now.indices.items (row * self.now.days + day) no_index }
    {
        let at = row.saturating_mul(self.days).saturating_add(day);
        match self.indices.get(at) {
            Some(index) => *index,
            None => u8::MAX,
        }
    }

    /// Forgets all rows, and begins the partial row of no days in this state.
    pub fn begin(&mut self, state: State)
        ensures kept { KeepsList self.old self.new }
        ensures none { self.new.held ≡ 0 }
    {
        self.held = 0;
        let first = WalkDay {
            state,
            cost: 0,
            next: 0,
        };
        self.enter(0, first);
    }

    /// A day of the partial row.
    pub fn walk_day(&self, day: u16) -> WalkDay
        ensures { (other : WalkDay) → day < length self.now.walk.items → result ≡ slice_index_or
            self.now.walk.items day other }
    {
        match self.walk.get(day as usize) {
            Some(walk_day) => *walk_day,
            None => WalkDay::default(),
        }
    }

    /// Sets a day of the partial row.
    pub fn enter(&mut self, day: u16, walk_day: WalkDay)
        ensures kept { KeepsList self.old self.new }
        ensures held { self.new.held ≡ self.old.held }
        ensures walk { self.new.walk.items ≡ slice_set self.old.walk.items day walk_day }
    {
        if let Some(here) = self.walk.get_mut(day as usize) {
            *here = walk_day;
        }
    }

    /// Lists the partial row, which has all days by now, with its cost. Its offer on each day is the one
    /// before the next. Returns false if the list is full.
    pub fn list_walk(&mut self, cost: u32) -> bool
        ensures { KeepsList self.old self.new }
    {
        let row = self.held;
        if row >= self.costs.len() {
            return false;
        }
        self.costs[row] = cost;
        let first = row.saturating_mul(self.days);
        for day in 0..self.walk.len() {
            let at = first.saturating_add(day);
            if at < self.indices.len() {
                self.indices[at] = self.walk[day].next.saturating_sub(1);
            }
        }
        self.held = row + 1;
        true
    }
}

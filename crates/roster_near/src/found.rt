//! The cheapest rows together that were found, and what has to be undercut.

ghost use Rattle.std.specs.Prelude.{◌≡◌};
ghost use Rattle.roster_near.specs.Drawn.{number_found};

use crate::problem::{MOST_FREE, Problem};
use crate::rows::Rows;
use roster_instance::Case;
use roster_slots::FINE_PER_POINT;
use std::alloc::{AllocError, Global};

/// What rows together have to undercut, in points, by at least a unit; whether such rows were found; and for
/// each free nurse the numbers of their choices on the open days. That takes 64 bytes for each day.
pub(crate) struct Found {
    pub(crate) cost: u64,
    pub(crate) unit: u64,
    pub(crate) is_some: bool,
    days: usize,
    numbers: Vec<u8>,
}

// Written by hand, so that a function that drops it has one call to prove.
impl Drop for Found {
    fn drop(self) {
        let Found {
            cost: _,
            unit: _,
            is_some: _,
            days: _,
            numbers: _,
        } = self;
    }
}

impl Found {
    /// The memory for the subproblems of a case, by one allocation.
    ///
    /// # Errors
    ///
    /// The allocation was refused.
    pub(crate) fn for_case(alloc: Global, case: &Case) -> Result<Found, AllocError> {
        Ok(Found {
            cost: 0,
            unit: 1,
            is_some: false,
            days: 0,
            numbers: vec![in alloc; 0; MOST_FREE * case.days() as usize]?,
        })
    }

    /// Begins with nothing found, and the present cost, which is to be undercut, or reached if an equal cost
    /// is accepted. Penalties differ by a unit at least: 5 points, unless the case keeps a roster at another
    /// number of points.
    pub(crate) fn begin(&mut self, case: &Case, days: usize, present: u64, accepts_equal: bool) {
        self.unit = if case.keep() % 5 == 0 { 5 } else { 1 };
        self.cost = if accepts_equal {
            present.saturating_add(self.unit)
        } else {
            present
        };
        self.is_some = false;
        self.days = days;
    }

    /// The greatest cost that is cheaper, in fine units: if no rows together cost as little, there is nothing
    /// to be found.
    pub(crate) fn target(&self) -> i64 {
        let points = self.cost.saturating_sub(self.unit).min(MOST_POINTS);
        points as i64 * FINE_PER_POINT as i64
    }

    /// Keeps a row for each free nurse if together they are cheaper.
    pub(crate) fn consider(
        &mut self,
        problem: &Problem,
        rows: &Rows,
        picks: &[u32],
        cover: &[u16],
    ) {
        let Some(cost) = problem.cost(own_of(problem, rows, picks), cover) else {
            return;
        };
        if cost >= self.cost {
            return;
        }
        self.cost = cost;
        self.is_some = true;
        for free in 0..problem.free.min(picks.len()) {
            self.keep_row(free, rows.numbers(picks[free] as usize));
        }
    }

    /// Keeps the numbers of a nurse's row.
    fn keep_row(&mut self, free: usize, numbers: &[u8]) {
        let first = free.saturating_mul(self.days);
        for offset in 0..numbers.len().min(self.days) {
            let at = first.saturating_add(offset);
            if at < self.numbers.len() {
                self.numbers[at] = numbers[offset];
            }
        }
    }

    /// The number of a nurse's choice on an open day.
    pub(crate) fn number(&self, free: usize, offset: usize) -> u8
        ensures { result ≡ number_found self.now free offset }
    {
        let at = free.saturating_mul(self.days).saturating_add(offset);
        if offset < self.days && at < self.numbers.len() {
            self.numbers[at]
        } else {
            0
        }
    }
}

/// No penalty is above this many points.
const MOST_POINTS: u64 = 1 << 34;

/// What rows cost their nurses together.
fn own_of(problem: &Problem, rows: &Rows, picks: &[u32]) -> u64 {
    let mut own: u64 = 0;
    for free in 0..problem.free.min(picks.len()) {
        own = own.saturating_add(rows.own(picks[free] as usize) as u64);
    }
    own
}

//! The memory of searches in neighbourhoods.

ghost use Rattle.std.specs.Prelude.{◌≡◌, ◌<◌, ℕ, length, min, slice_index_or};
ghost use Rattle.roster_bundle.specs.Limits.{greatest_u64};
ghost use Rattle.roster_instance.specs.Limits.{most_days};
ghost use Rattle.roster_instance.specs.Rosters.{choice_on};
ghost use Rattle.roster_near.specs.Drawn.{choice_found, free_nurses};

use crate::branching::Uses;
use crate::choices::choice_of;
use crate::draws::Draws;
use crate::found::Found;
use crate::hand::MOST_AT_HAND;
use crate::lists::MOST_LISTED;
use crate::live::Live;
use crate::prices::Prices;
use crate::problem::{MOST_FREE, Problem};
use crate::rows::Rows;
use crate::work::Work;
use roster_instance::{Case, Choice, choice_on};
use roster_offers::RowList;
use std::alloc::{AllocError, Global};

/// How many rows all lists together have at most, and how many choices.
const MOST_ROWS: usize = 60_000;

const MOST_CHOICES_LISTED: usize = 4_000_000;

/// What searches in neighbourhoods write into: the subproblem, with its prices; the rows at hand, and the
/// lists with what is live of them; and what is drawn by. Over four weeks with 16 slots a day that takes 3.9
/// MB for 12 nurses and more, over eight weeks 6.4 MB, and 15 MB at most. It serves one run after another.
pub struct NearSpace {
    pub(crate) problem: Problem,
    pub(crate) prices: Prices,
    pub(crate) hand: Rows,
    pub(crate) lists: Rows,
    pub(crate) live: Live,
    pub(crate) uses: Uses,
    pub(crate) found: Found,
    /// The rows of one nurse that a search lists.
    pub(crate) listed: RowList,
    /// Which row was picked for each free nurse.
    pub(crate) picks: Vec<u32>,
    /// The row at hand: the numbers of its choices on the open days, and its choices on all days.
    pub(crate) numbers: Vec<u8>,
    pub(crate) row: Vec<Choice>,
    pub(crate) work: Work,
    pub(crate) draws: Draws,
}

// Written by hand, so that a function that drops it has one call to prove.
impl Drop for NearSpace {
    fn drop(self) {
        let NearSpace {
            problem: _,
            prices: _,
            hand: _,
            lists: _,
            live: _,
            uses: _,
            found: _,
            listed: _,
            picks: _,
            numbers: _,
            row: _,
            work: _,
            draws: _,
        } = self;
    }
}

impl NearSpace {
    /// The memory for the neighbourhoods of a case, by 38 allocations.
    ///
    /// # Errors
    ///
    /// An allocation was refused.
    pub fn for_case(alloc: Global, case: &Case) -> Result<NearSpace, AllocError> {
        let days = case.days() as usize;
        let rows = rows_of(case);
        Ok(NearSpace {
            problem: Problem::for_case(alloc, case)?,
            prices: Prices::for_case(alloc, case)?,
            hand: Rows::with_capacity(
                alloc,
                MOST_FREE * MOST_AT_HAND,
                MOST_FREE * MOST_AT_HAND * days,
            )?,
            lists: Rows::with_capacity(
                alloc,
                rows,
                rows.saturating_mul(days).min(MOST_CHOICES_LISTED),
            )?,
            live: Live::for_case(alloc, case, rows)?,
            uses: Uses::for_case(alloc, case)?,
            found: Found::for_case(alloc, case)?,
            listed: RowList::for_case(alloc, case, MOST_LISTED)?,
            picks: vec![in alloc; 0; MOST_FREE]?,
            numbers: vec![in alloc; 0; days]?,
            row: vec![in alloc; Choice::Off; days]?,
            work: Work::default(),
            draws: Draws::for_case(alloc, case)?,
        })
    }

    /// Begins a run from a seed: no neighbourhood was searched yet.
    pub fn begin_run(&mut self, case: &Case, seed: u64) {
        self.draws.begin(case, seed);
    }

    /// How many nurses are free in the last neighbourhood.
    pub fn free(&self) -> usize
        ensures { result ≡ self.now.problem.free }
    {
        self.problem.free
    }

    /// The free nurse with this index; a number that no nurse has if there is none.
    pub fn nurse(&self, free: usize) -> usize
        ensures { result ≡ slice_index_or (free_nurses self.now.problem) free greatest_u64 }
    {
        self.problem.nurse(free)
    }

    /// Writes the row that was found for a free nurse, of whom `given` is the present one: it differs on open
    /// days alone.
    pub fn write_found(&mut self, free: usize, given: &[Choice])
        ensures row { (day : ℕ) → day < min (length self.old.row.items) most_days →
            choice_on self.new.row.items day ≡ choice_found self.old.problem self.old.found free
            given.now day }
        ensures length { length self.new.row.items ≡ length self.old.row.items }
        ensures problem { self.new.problem ≡ self.old.problem }
        ensures found { self.new.found ≡ self.old.found }
    {
        for day in 0..self.row.len().min(MOST_DAYS) {
            self.row[day] = self.choice_found(free, given, day as u16);
        }
    }

    /// The choice of a free nurse on a day in the rows that were found, of whom `given` is the present one.
    fn choice_found(&self, free: usize, given: &[Choice], day: u16) -> Choice
        ensures { result ≡ choice_found self.now.problem self.now.found free given.now day }
    {
        let window = self.problem.window;
        if window.first <= day && day < window.end {
            let offset = day - window.first;
            choice_of(self.found.number(free, offset as usize))
        } else {
            choice_on(given, day)
        }
    }

    /// The row that was written last.
    pub fn row(&self) -> &[Choice]
        ensures { result.now ≡ self.now.row.items }
    {
        &self.row
    }
}

/// How many rows the lists of a case have.
fn rows_of(case: &Case) -> usize {
    (case.nurses() * MOST_LISTED as usize).min(MOST_ROWS)
}

/// How many days a case has at most.
const MOST_DAYS: usize = 364;

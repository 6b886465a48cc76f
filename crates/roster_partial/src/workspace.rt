//! The memory of a search by partial rows and label tables.

use crate::search::{Hints, list_in_tables, search_row};
use roster_instance::Choice;
use roster_offers::{ListLimits, RowList, SearchInput, SearchesRows};
use roster_state::Meter;
use roster_tables::{DayBoxes, Tables};
use std::alloc::{AllocError, Global};

/// A search by partial rows first, and by the label tables if these fail. The completion bounds and the
/// partial rows are kept in the cells of the tables.
pub struct RowSearcher {
    hints: Hints,
    boxes: DayBoxes,
    tables: Tables,
}

/// What a search for a best row writes into. The label tables, the pointers and one row grow with the case.
/// The rest is arrays of the same size for every case, 111 kB: the offers of a nurse (29 kB), the boxes of
/// the days (53 kB), the hints (28 kB) and a span (1 kB).
pub type Workspace = roster_offers::Workspace<RowSearcher>;

// Written by hand, so that code that drops the tables has one call to prove.
impl Drop for RowSearcher {
    fn drop(self) {
        let RowSearcher {
            hints: _,
            boxes: _,
            tables: _,
        } = self;
    }
}

impl SearchesRows for RowSearcher {
    ghost use Rattle.roster_partial.specs.Counts.{CountsSearch};
    ghost use Rattle.roster_partial.specs.SameCounts.{counts_same};

    ghost capacity = { λ t. t.tables };

    ghost IsCounted = { λ cells c n offers before after. CountsSearch cells c n offers before after };

    ghost counted_same = { λ cells c n f g same. counts_same c n f g same cells };

    fn for_states(alloc: Global, states: usize, days: usize) -> Result<RowSearcher, AllocError> {
        Ok(RowSearcher {
            hints: Hints::none(),
            boxes: DayBoxes::new(),
            tables: Tables::new(alloc, states, days)?,
        })
    }

    fn labels(&self) -> usize {
        self.tables.labels()
    }

    fn pointers(&self) -> usize {
        self.tables.pointers()
    }

    fn search(&mut self, search: &SearchInput<'_>, row: &mut [Choice], meter: &mut Meter) -> u32 {
        search_row(
            search,
            &mut self.hints,
            &mut self.boxes,
            &mut self.tables,
            row,
            meter,
        )
    }

    fn list(
        &mut self,
        search: &SearchInput<'_>,
        limits: ListLimits,
        list: &mut RowList,
        meter: &mut Meter,
    ) -> bool {
        list_in_tables(search, limits, &self.hints, &mut self.tables, list, meter)
    }
}

//! The memory of a run.

ghost use Rattle.std.specs.Prelude.{◌≡◌, true, IfOk};
ghost use Rattle.roster_rounds.specs.Spaces.{fits_run};

use roster_instance::Case;
use roster_offers::{BestFault, SearchesRows, Workspace};
use roster_row::LastSearches;
use std::alloc::Global;

/// What a run writes into: the workspace of its searches, and what the last search of each nurse found out.
/// It can serve one run after another.
pub struct RunSpace<T: SearchesRows> {
    pub workspace: Workspace<T>,
    pub last: LastSearches,
}

// Written by hand, so that a function that drops it has one call to prove.
impl<T: SearchesRows> Drop for RunSpace<T> {
    fn drop(self) {
        let RunSpace {
            workspace: _,
            last: _,
        } = self;
    }
}

impl<T: SearchesRows> RunSpace<T> {
    /// Memory for runs over a case, with at most six allocations. In addition to the workspace it takes 36
    /// bytes for each nurse and day and 8 for each nurse: at most 5,244,800 bytes, those of 400 nurses over
    /// 52 weeks.
    ///
    /// # Errors
    ///
    /// An allocation was refused.
    pub fn for_case(alloc: Global, case: &Case) -> Result<RunSpace<T>, BestFault>
        ensures fits { IfOk result (λ space. fits_run case.now space ≡ true) }
    {
        Ok(RunSpace {
            workspace: Workspace::for_case(alloc, case)?,
            last: LastSearches::for_case(alloc, case)?,
        })
    }

    /// Whether it has capacity for runs over the case.
    pub fn fits(&self, case: &Case) -> bool
        ensures { result ≡ fits_run case.now self.now }
    {
        self.workspace.fits(case) && self.last.fits(case)
    }
}

//! The memory of a run that raises a bound.

ghost use Rattle.std.specs.Prelude.{◌≡◌, ℕ, ◌*◌, IfOk, length};
ghost use Rattle.roster_slots.specs.Tables.{slot_prices};
ghost use Rattle.roster_prices.specs.Workspaces.{FitsBound, FitsRows};
ghost use Rattle.roster_slots.specs.Slots.{SameDualPrices};
ghost use Rattle.roster_prices.specs.LowerBounds.{first_dual_prices};

use crate::moving::FIRST_DUAL_PRICE;
use roster_instance::Case;
use roster_offers::{BestFault, SearchesRows, Workspace};
use roster_slots::{ColumnPool, Directions, DualPrices, FINE_PER_POINT, Target};
use std::alloc::Global;

/// What the searches for the nurses' cheapest rows write into: the workspace of a search, and the cover,
/// which counts how many of these rows take each slot, with 64 slots for each day.
pub struct RowSpace<T: SearchesRows> {
    pub workspace: Workspace<T>,
    pub(crate) cover: Vec<u16>,
}

// Written by hand, so that a function that drops it has one call to prove.
impl<T: SearchesRows> Drop for RowSpace<T> {
    fn drop(self) {
        let RowSpace {
            workspace: _,
            cover: _,
        } = self;
    }
}

/// What a run that raises a bound writes into: what its searches do, the dual prices with the directions and
/// the target by which they move, the dual prices that are set aside, and the column pool. Besides a search's
/// workspace and the pool that is 64 times 18 bytes for each day: 419 kB at most. It serves one run after
/// another.
pub struct BoundWorkspace<T: SearchesRows> {
    pub rows: RowSpace<T>,
    pub dual_prices: DualPrices,
    pub aside: DualPrices,
    pub(crate) directions: Directions,
    pub(crate) target: Target,
    pub pool: ColumnPool,
}

// Written by hand, so that a function that drops it has one call to prove.
impl<T: SearchesRows> Drop for BoundWorkspace<T> {
    fn drop(self) {
        let BoundWorkspace {
            rows: _,
            dual_prices: _,
            aside: _,
            directions: _,
            target: _,
            pool: _,
        } = self;
    }
}

impl<T: SearchesRows> RowSpace<T> {
    /// The memory for the nurses of a case, by at most five allocations.
    ///
    /// # Errors
    ///
    /// An allocation was refused.
    pub fn for_case(alloc: Global, case: &Case) -> Result<RowSpace<T>, BestFault>
        ensures { IfOk result (FitsRows case.now) }
    {
        Ok(RowSpace {
            workspace: Workspace::for_case(alloc, case)?,
            cover: vec![in alloc; 0; 64 * case.days() as usize]?,
        })
    }

    /// Sets the cover to 0.
    pub(crate) fn forget(&mut self)
        ensures workspace { self.new.workspace ≡ self.old.workspace }
        ensures cover { length self.new.cover.items ≡ length self.old.cover.items }
    {
        self.cover.fill(0);
    }
}

impl<T: SearchesRows> BoundWorkspace<T> {
    /// The memory for a run over a case, by at most eleven allocations.
    ///
    /// # Errors
    ///
    /// An allocation was refused.
    pub fn for_case(alloc: Global, case: &Case) -> Result<BoundWorkspace<T>, BestFault>
        ensures fits { IfOk result (FitsBound case.now) }
    {
        let slots = 64 * case.days() as usize;
        Ok(BoundWorkspace {
            rows: RowSpace::for_case(alloc, case)?,
            dual_prices: DualPrices::even(alloc, case, 0)?,
            aside: DualPrices::even(alloc, case, 0)?,
            directions: Directions {
                subgradient: vec![in alloc; 0; slots]?,
                direction: vec![in alloc; 0; slots]?,
            },
            target: Target::with_margin(0),
            pool: ColumnPool::for_case(alloc, case)?,
        })
    }

    /// Begins anew, as if no round had been made: with the dual prices of the first round, and an empty pool.
    pub fn begin(&mut self, case: &Case)
        requires { FitsBound case.now self.old }
        ensures fits { FitsBound case.now self.new }
        ensures dual_prices { (scale : ℕ) → SameDualPrices case.now
            (slot_prices scale self.new.dual_prices) (first_dual_prices case.now scale) }
    {
        case.keeps_limits();
        self.target = Target::with_margin(FIRST_MARGIN * case.nurses() as u64);
        self.dual_prices.set_all(case, FIRST_DUAL_PRICE);
        self.pool.forget();
    }

    /// Begins the steps in a node: they go on from the dual prices, but with a small margin.
    pub fn begin_node(&mut self, case: &Case)
        requires { FitsBound case.now self.old }
        ensures { FitsBound case.now self.new }
    {
        case.keeps_limits();
        let margin = (NODE_MARGIN * case.nurses() as u64).max(LEAST_NODE_MARGIN);
        self.target = Target::with_margin(margin);
    }

    /// Sets the dual prices aside.
    pub fn set_dual_prices_aside(&mut self, case: &Case)
        requires { FitsBound case.now self.old }
        ensures { FitsBound case.now self.new }
    {
        let BoundWorkspace {
            dual_prices,
            aside,
            ..
        } = self;
        aside.copy(dual_prices);
    }

    /// Takes back the dual prices that were set aside.
    pub fn take_dual_prices_back(&mut self, case: &Case)
        requires { FitsBound case.now self.old }
        ensures { FitsBound case.now self.new }
    {
        let BoundWorkspace {
            dual_prices,
            aside,
            ..
        } = self;
        dual_prices.copy(aside);
    }
}

/// The margin of the first target, in fine units for each nurse: 20 points.
const FIRST_MARGIN: u64 = 20 * FINE_PER_POINT as u64;

/// That of the first one in a node: half a point for each nurse, and at least five points.
const NODE_MARGIN: u64 = FINE_PER_POINT as u64 / 2;

const LEAST_NODE_MARGIN: u64 = 5 * FINE_PER_POINT as u64;

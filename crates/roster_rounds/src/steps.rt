//! What makes the steps of a run.

ghost use Rattle.std.specs.Prelude.{◌≡◌, ◌+◌, ◌<◌, ◌≤◌, Bool, None, Option, Some, true, not};
ghost use Rattle.roster_bundle.specs.Limits.{greatest_u64};
ghost use Rattle.roster_instance.specs.Meaning.{Meaning, nurse_count};
ghost use Rattle.roster_rules.specs.AllowedRows.{best_row};
ghost use Rattle.roster_rules.specs.Improver.{same_rows, step};
ghost use Rattle.roster_rules.specs.Penalties.{penalty};
ghost use Rattle.roster_laws.specs.FrozenDays.{FrozenDaysStay};
ghost use Rattle.roster_laws.specs.Greatest.{extension_count};
ghost use Rattle.roster_offers.specs.Workspaces.{SameCapacity, Space, fits_space};
ghost use Rattle.roster_row.specs.Recalled.{LastCapacity, RecallsSearches, last_capacity};
ghost use Rattle.roster_rounds.specs.Spaces.{fits_run};

use crate::nurse::{step, step_or_skip};
use crate::outcome::Step;
use crate::space::RunSpace;
use roster_case::Held;
use roster_offers::{SearchesRows, Workspace};
use roster_state::Meter;

/// What makes the steps of a run, for one nurse after another: a `Workspace` makes a search for each step, a
/// `RunSpace` fewer.
pub trait Steps {
    /// It has capacity for runs over a case.
    ghost fits: { Meaning → Self → Bool };

    /// It has that capacity, and what it knows from the searches so far is true.
    ghost IsReady: { Meaning → Self → Type 0 };

    /// The workspace of its searches.
    ghost space: { Self → Space };

    /// The capacity for what it knows from the searches so far, if it keeps that.
    ghost known_capacity: { Self → Option LastCapacity };

    /// Begins a run: what is known from earlier searches is forgotten.
    fn begin(&mut self)
        ensures ready { (c : Meaning) → fits c self.old ≡ true → IsReady c self.new }
        ensures same_capacity { SameCapacity (space self.old) (space self.new) }
        ensures same_last { known_capacity self.new ≡ known_capacity self.old };

    /// Puts the nurse's best row in if it is strictly cheaper, as `crate::step` does.
    fn step(&mut self, held: &mut Held, nurse: usize, from: u16, meter: &mut Meter) -> Step
        requires nurse { nurse < nurse_count held.old.case }
        requires ready { IsReady held.old.case self.old }
        requires room { meter.old + extension_count held.old.case nurse ≤ greatest_u64 }
        ensures case { held.new.case ≡ held.old.case }
        ensures roster { held.new.roster
            ≡ step held.old.case (best_row held.old.case from) held.old.roster nurse }
        ensures frozen { FrozenDaysStay held.old.case from held.old.roster held.new.roster }
        ensures after { result.after ≡ penalty held.old.case held.new.roster }
        ensures changed { result.changed ≡ not (same_rows held.new.roster held.old.roster) }
        ensures counted { meter.new ≤ meter.old + extension_count held.old.case nurse }
        ensures same_capacity { SameCapacity (space self.old) (space self.new) }
        ensures same_last { known_capacity self.new ≡ known_capacity self.old }
        ensures ready { IsReady held.old.case self.new };

    /// If it is ready, it has the capacity.
    ghost ready_fits: { (c : Meaning) (s : Self) → IsReady c s → fits c s ≡ true };
}

/// Each step is a search.
impl<T: SearchesRows> Steps for Workspace<T> {
    ghost fits = { λ c w. fits_space c w };

    ghost IsReady = { λ c w. fits_space c w ≡ true };

    ghost space = { λ w. w };

    ghost known_capacity = { λ w. None };

    ghost ready_fits = { λ c w fits. fits };

    fn begin(&mut self) {}

    fn step(&mut self, held: &mut Held, nurse: usize, from: u16, meter: &mut Meter) -> Step {
        step(held, nurse, from, self, meter)
    }
}

/// A step is a search unless the nurse's last search shows that no row is cheaper.
impl<T: SearchesRows> Steps for RunSpace<T> {
    ghost fits = { λ c s. fits_run c s };

    ghost IsReady = { λ c s. (fits_run c s ≡ true) × RecallsSearches c s.last };

    ghost space = { λ s. s.workspace };

    ghost known_capacity = { λ s. Some (last_capacity s.last) };

    ghost ready_fits = { λ c s ready. ready.0 };

    fn begin(&mut self) {
        self.last.forget();
    }

    fn step(&mut self, held: &mut Held, nurse: usize, from: u16, meter: &mut Meter) -> Step {
        step_or_skip(
            held,
            nurse,
            from,
            &mut self.workspace,
            &mut self.last,
            meter,
        )
    }
}

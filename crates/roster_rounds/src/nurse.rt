//! One nurse's step: the row is replaced if that is cheaper.

ghost use Rattle.std.specs.Prelude.{◌≡◌, ◌+◌, ◌<◌, ◌≤◌, ℕ, true, not};
ghost use Rattle.roster_bundle.specs.Limits.{greatest_u64};
ghost use Rattle.roster_instance.specs.Meaning.{day_count, nurse_count};
ghost use Rattle.roster_rules.specs.AllowedRows.{IsBestRow, best_row, penalty_with, row_keeps};
ghost use Rattle.roster_rules.specs.Improver.{same_rows, step};
ghost use Rattle.roster_rules.specs.Penalties.{penalty};
ghost use Rattle.roster_laws.specs.FrozenDays.{FrozenDaysStay};
ghost use Rattle.roster_laws.specs.Greatest.{extension_count};
ghost use Rattle.roster_offers.specs.Workspaces.{SameCapacity, fits_space};
ghost use Rattle.roster_row.specs.Recalled.{RecallsSearches, last_capacity};

use crate::outcome::Step;
use roster_case::Held;
use roster_offers::{SearchesRows, Workspace};
use roster_row::{Best, LastSearches, best_row, cheaper_row};
use roster_state::Meter;

/// Puts a nurse's best row from a week on in if that makes the roster's penalty strictly smaller, and
/// otherwise changes nothing. The workspace shows that row afterwards, whether it was put in or not.
pub fn step<T: SearchesRows>(
    held: &mut Held,
    nurse: usize,
    from: u16,
    workspace: &mut Workspace<T>,
    meter: &mut Meter,
) -> Step
    requires nurse { nurse < nurse_count held.old.case }
    requires fits { fits_space held.old.case workspace.old ≡ true }
    requires room { meter.old + extension_count held.old.case nurse ≤ greatest_u64 }
    ensures case { held.new.case ≡ held.old.case }
    ensures roster { held.new.roster ≡ step held.old.case (best_row held.old.case from)
        held.old.roster nurse }
    ensures frozen { FrozenDaysStay held.old.case from held.old.roster held.new.roster }
    ensures before { result.before ≡ penalty held.old.case held.old.roster }
    ensures after { result.after ≡ penalty held.old.case held.new.roster }
    ensures changed { result.changed ≡ not (same_rows held.new.roster held.old.roster) }
    ensures best { IsBestRow held.old.case from held.old.roster nurse workspace.new.row }
    ensures each_day { meter.old + day_count held.old.case ≤ meter.new }
    ensures counted { meter.new ≤ meter.old + extension_count held.old.case nurse }
    ensures same_capacity { SameCapacity workspace.old workspace.new }
    ensures fits { fits_space held.old.case workspace.new ≡ true }
{
    let best = best_row(held, nurse, from, workspace, meter);
    put_in_cheaper(held, nurse, best, workspace)
}

/// The same step, without a search if the nurse's last search shows that no row is cheaper than the present
/// one. The workspace then shows the same row as before.
pub fn step_or_skip<T: SearchesRows>(
    held: &mut Held,
    nurse: usize,
    from: u16,
    workspace: &mut Workspace<T>,
    last: &mut LastSearches,
    meter: &mut Meter,
) -> Step
    requires nurse { nurse < nurse_count held.old.case }
    requires fits { fits_space held.old.case workspace.old ≡ true }
    requires recalls { RecallsSearches held.old.case last.old }
    requires room { meter.old + extension_count held.old.case nurse ≤ greatest_u64 }
    ensures case { held.new.case ≡ held.old.case }
    ensures roster { held.new.roster ≡ step held.old.case (best_row held.old.case from)
        held.old.roster nurse }
    ensures frozen { FrozenDaysStay held.old.case from held.old.roster held.new.roster }
    ensures before { result.before ≡ penalty held.old.case held.old.roster }
    ensures after { result.after ≡ penalty held.old.case held.new.roster }
    ensures changed { result.changed ≡ not (same_rows held.new.roster held.old.roster) }
    ensures counted { meter.new ≤ meter.old + extension_count held.old.case nurse }
    ensures same_capacity { SameCapacity workspace.old workspace.new }
    ensures same_last { last_capacity last.new ≡ last_capacity last.old }
    ensures fits { fits_space held.old.case workspace.new ≡ true }
    ensures recalls { RecallsSearches held.old.case last.new }
{
    let Some(best) = cheaper_row(held, nurse, from, workspace, last, meter) else {
        let total = held.total();
        return Step {
            before: total,
            after: total,
            changed: false,
        };
    };
    put_in_cheaper(held, nurse, best, workspace)
}

/// Puts the best row that the workspace shows in if that makes the roster's penalty strictly smaller, and
/// otherwise changes nothing.
fn put_in_cheaper<T: SearchesRows>(
    held: &mut Held,
    nurse: usize,
    best: Best,
    workspace: &Workspace<T>,
) -> Step
    requires nurse { nurse < nurse_count held.old.case }
    requires best { (from : ℕ) × IsBestRow held.old.case from held.old.roster nurse
        workspace.now.row }
    requires keeps { row_keeps held.old.case held.old.roster nurse workspace.now.row ≡ true }
    requires total { best.total ≡ penalty_with held.old.case held.old.roster nurse
        workspace.now.row }
    ensures case { held.new.case ≡ held.old.case }
    ensures roster { (from : ℕ) → IsBestRow held.old.case from held.old.roster nurse
        workspace.now.row → held.new.roster ≡ step held.old.case (best_row held.old.case from)
        held.old.roster nurse }
    ensures before { result.before ≡ penalty held.old.case held.old.roster }
    ensures after { result.after ≡ penalty held.old.case held.new.roster }
    ensures changed { result.changed ≡ not (same_rows held.new.roster held.old.roster) }
{
    let before = held.total();
    let changed = best.total < before;
    if changed {
        held.replace_row(nurse, workspace.row());
    }
    Step {
        before,
        after: best.total.min(before),
        changed,
    }
}

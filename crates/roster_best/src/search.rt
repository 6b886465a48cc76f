//! The search for the best row, with the workspace that programs use.

ghost use Rattle.std.specs.Prelude.{◌≡◌, ◌+◌, ◌<◌, ◌≤◌, true};
ghost use Rattle.roster_bundle.specs.Limits.{greatest_u64};
ghost use Rattle.roster_instance.specs.Meaning.{day_count, nurse_count};
ghost use Rattle.roster_rules.specs.AllowedRows.{IsBestRow, penalty_with, row_keeps};
ghost use Rattle.roster_laws.specs.Greatest.{extension_count, greatest_state_count};
ghost use Rattle.roster_offers.specs.Offers.{shift_offers};
ghost use Rattle.roster_offers.specs.Workspaces.{SameCapacity, fits_space};
ghost use Rattle.roster_partial.specs.Counts.{CountsSearch};

use roster_case::Held;
use roster_partial::Workspace;
use roster_row::Best;
use roster_state::Meter;

/// Searches a nurse's best row from a week on: among all rows with which the roster keeps the hard rules,
/// with the other rows, her days before that week and her fixed days as they are, the first of those with the
/// least penalty. Every `from` is allowed. `Workspace::row` shows the row afterwards. The search takes no
/// memory. The meter counts each completion bound, partial row and state with each choice by which it is
/// extended: at least one extension for each day, and at most one for each state, day and choice of the
/// nurse.
///
/// A caller who can't be sure of the conditions checks that `nurse < case.nurses()`, that
/// `workspace.fits(case)`, and that `meter.room()` is at least `most_search_extensions(case, nurse)`.
pub fn best_row(
    held: &Held,
    nurse: usize,
    from: u16,
    workspace: &mut Workspace,
    meter: &mut Meter,
) -> Best
    requires nurse { nurse < nurse_count held.now.case }
    requires fits { fits_space held.now.case workspace.old ≡ true }
    requires room { meter.old + extension_count held.now.case nurse ≤ greatest_u64 }

    // The row, and the roster's penalty with it.
    ensures best { IsBestRow held.now.case from held.now.roster nurse workspace.new.row }
    ensures keeps { row_keeps held.now.case held.now.roster nurse workspace.new.row ≡ true }
    ensures total { result.total ≡ penalty_with held.now.case held.now.roster nurse
        workspace.new.row }

    // What it takes.
    ensures each_day { meter.old + day_count held.now.case ≤ meter.new }
    ensures counted { meter.new ≤ meter.old + extension_count held.now.case nurse }
    ensures are_reachable { CountsSearch (greatest_state_count held.now.case) held.now.case nurse
        (shift_offers held.now.case from held.now.roster nurse) meter.old meter.new }
    ensures same_capacity { SameCapacity workspace.old workspace.new }
    ensures fits { fits_space held.now.case workspace.new ≡ true }
{
    roster_row::best_row(held, nurse, from, workspace, meter)
}

//! Whether a changed roster stays.

ghost use Rattle.std.specs.Prelude.{◌≡◌, true};
ghost use Rattle.roster_rules.specs.HardRules.{keeps_hard};
ghost use Rattle.roster_rules.specs.Penalties.{penalty};
ghost use Rattle.roster_laws.specs.FrozenDays.{FrozenDaysStay};
ghost use Rattle.roster_polish.specs.Descents.{StaysIfNoDearer};
ghost use Rattle.roster_polish.specs.Tries.{CanSearch, StaysNoDearer};

use crate::descend::{Aim, descend};
use crate::searches::Searches;
use crate::space::PolishSpace;
use roster_case::Held;
use roster_offers::SearchesRows;
use roster_state::Meter;
use std::time::Clock;

/// Runs a descent on a changed roster, to the penalty of the kept one. If the roster is then settled and no
/// dearer, it stays and is kept; else the kept one comes back. Returns whether it stayed.
pub(crate) fn stay_if_no_dearer<T: SearchesRows, K: Clock + Copy>(
    held: &mut Held,
    aim: Aim,
    searches: &mut Searches<K>,
    space: &mut PolishSpace<T>,
    meter: &mut Meter,
) -> bool
    requires able { CanSearch held.old.case searches.old space.old meter.old }
    requires keeps { keeps_hard held.old.case space.old.kept ≡ true }
    requires penalty { aim.penalty ≡ penalty held.old.case space.old.kept }
    requires frozen { FrozenDaysStay held.old.case aim.from space.old.kept held.old.roster }
    ensures tried { StaysNoDearer held.old.case aim.from space.old.kept held.new searches.old
        searches.new space.new meter.old meter.new result }
    ensures decided { StaysIfNoDearer held.old.case aim.from aim.penalty searches.new
        held.old.roster held.new.roster result }
    ensures faded { space.new.faded ≡ space.old.faded }
    ensures best { space.new.best ≡ space.old.best }
{
    let PolishSpace { bounds, last, .. } = space;
    let workspace = &mut bounds.rows.workspace;
    let settled = descend(held, aim, searches, workspace, last, meter);
    if settled && held.total() <= aim.penalty {
        space.keep(held);
        true
    } else {
        held.replace_rows(&space.kept);
        space.last.put(&space.kept_last);
        false
    }
}

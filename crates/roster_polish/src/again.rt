//! Another fade of a roster, whose result is searched on until that brings nothing more.

ghost use Rattle.std.specs.Prelude.{◌≡◌, ◌≤◌, true};
ghost use Rattle.roster_rules.specs.Penalties.{penalty};
ghost use Rattle.roster_polish.specs.Descents.{IsFadedAnew, IsSearchedOn, StaysIfCheaper};
ghost use Rattle.roster_polish.specs.Settled.{IsSettled};
ghost use Rattle.roster_polish.specs.Tries.{CanSearch, GoesOnSettled, StaysNoDearer};

use crate::descend::{Aim, descend};
use crate::fade::fade_rows;
use crate::kick::Kicking;
use crate::near::try_near;
use crate::searches::Searches;
use crate::space::PolishSpace;
use crate::turns::Turns;
use roster_case::Held;
use roster_offers::SearchesRows;
use roster_prices::Base;
use roster_state::Meter;
use std::time::Clock;

/// Fades the roster again, also if that makes it dearer, runs a descent, and searches neighbourhoods until
/// they have brought nothing for long. If the roster is then cheaper than the given one, it stays and is
/// kept; else the given one comes back. Returns whether it stayed.
pub(crate) fn try_again<T: SearchesRows, K: Clock + Copy>(
    held: &mut Held,
    from: u16,
    kicking: &mut Kicking<K>,
    space: &mut PolishSpace<T>,
    meter: &mut Meter,
) -> bool
    requires able { CanSearch held.old.case kicking.old.searches space.old meter.old }
    ensures tried { StaysNoDearer held.old.case from held.old.roster held.new kicking.old.searches
        kicking.new.searches space.new meter.old meter.new result }
    ensures decided { StaysIfCheaper held.old.case from kicking.new.searches held.old.roster
        held.new.roster result }
{
    held.keeps_rules();
    let penalty = held.total();
    space.best.put_rows(held.roster());
    if fade_and_search(held, from, kicking, space, meter) && held.total() < penalty {
        return true;
    }
    held.replace_rows(&space.best);
    space.last.forget();
    space.keep(held);
    false
}

/// Fades the roster, however dear that makes it, runs a descent, and searches neighbourhoods until they have
/// brought nothing for long. Returns whether the roster is then settled and kept.
fn fade_and_search<T: SearchesRows, K: Clock + Copy>(
    held: &mut Held,
    from: u16,
    kicking: &mut Kicking<K>,
    space: &mut PolishSpace<T>,
    meter: &mut Meter,
) -> bool
    requires able { CanSearch held.old.case kicking.old.searches space.old meter.old }
    ensures goes_on { GoesOnSettled held.old.case from held.old.roster held.new
        kicking.old.searches kicking.new.searches space.old space.new meter.old meter.new result }
    ensures searched { IsSearchedOn held.old.case from kicking.new.searches held.old.roster
        held.new.roster result }
{
    if !fade_anew(held, from, kicking, space, meter) {
        return false;
    }
    search_on(
        held,
        from,
        kicking.turns,
        &mut kicking.searches,
        space,
        meter,
    );
    true
}

/// Fades the roster and runs a descent. If the faded roster keeps the hard rules, it is held and kept,
/// however dear it is. Returns whether it does and is settled.
fn fade_anew<T: SearchesRows, K: Clock + Copy>(
    held: &mut Held,
    from: u16,
    kicking: &mut Kicking<K>,
    space: &mut PolishSpace<T>,
    meter: &mut Meter,
) -> bool
    requires able { CanSearch held.old.case kicking.old.searches space.old meter.old }
    ensures goes_on { GoesOnSettled held.old.case from held.old.roster held.new
        kicking.old.searches kicking.new.searches space.old space.new meter.old meter.new result }
    ensures fades { IsFadedAnew held.old.case from kicking.new.searches held.old.roster
        space.new.faded held.new.roster result }
{
    held.keeps_rules();
    let base = Base::of(held, from);
    let keeps = fade_rows(&base, kicking, space, meter);
    space.restore_prices(base.case);
    if !keeps {
        return false;
    }
    let aim = Aim {
        first: 0,
        penalty: u64::MAX,
        from,
    };
    held.replace_rows(&space.faded);
    let PolishSpace { bounds, last, .. } = space;
    let workspace = &mut bounds.rows.workspace;
    let settled = descend(held, aim, &mut kicking.searches, workspace, last, meter);
    space.keep(held);
    settled
}

/// Searches neighbourhoods of a settled roster until they have brought nothing for long, or the last part of
/// the run begins.
fn search_on<T: SearchesRows, K: Clock + Copy>(
    held: &mut Held,
    from: u16,
    turns: Turns,
    searches: &mut Searches<K>,
    space: &mut PolishSpace<T>,
    meter: &mut Meter,
)
    requires able { CanSearch held.old.case searches.old space.old meter.old }
    requires kept { space.old.kept ≡ held.old.roster }
    requires settled { IsSettled held.old.case from held.old.roster }
    ensures goes_on { GoesOnSettled held.old.case from held.old.roster held.new searches.old
        searches.new space.old space.new meter.old meter.new true }
    ensures no_dearer { penalty held.old.case held.new.roster ≤ penalty held.old.case
        held.old.roster }
{
    let mut since = searches.left;
    for _turn in 0..searches.left {
        if turns.ends_search(since, searches.remaining()) {
            break;
        }
        let before = held.total();
        try_near(held, from, searches, space, meter);
        if held.total() < before {
            since = searches.left;
        }
    }
}

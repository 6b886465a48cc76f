//! A try in a neighbourhood: a few nurses are free, within a window of days, and get the best rows together.

ghost use Rattle.std.specs.Prelude.{◌≡◌, ◌<◌, true};
ghost use Rattle.roster_instance.specs.Meaning.{day_count, nurse_count};
ghost use Rattle.roster_instance.specs.Rosters.{fits_case};
ghost use Rattle.roster_laws.specs.FrozenDays.{FrozenDaysStay};
ghost use Rattle.roster_polish.specs.Near.{AreFound};
ghost use Rattle.roster_polish.specs.Tries.{CanSearch, StaysNoDearer};
ghost use Rattle.roster_rules.specs.AllowedRows.{keeps_frozen_day, keeps_frozen_days};
ghost use Rattle.roster_rules.specs.HardRules.{keeps_hard};

use crate::descend::Aim;
use crate::searches::Searches;
use crate::space::PolishSpace;
use crate::stay::stay_if_no_dearer;
use roster_case::Held;
use roster_costs::first_hard;
use roster_instance::{Choice, Roster, choice_on, row_fits};
use roster_near::{NearSpace, search_near};
use roster_offers::SearchesRows;
use roster_prices::NearBase;
use roster_rules::is_frozen;
use roster_state::Meter;
use std::time::Clock;

/// Searches a neighbourhood, puts in the rows that it finds, and runs a descent. If the roster is then
/// settled and no dearer, it stays and is kept; else the kept one comes back. Returns whether it stayed.
pub(crate) fn try_near<T: SearchesRows, K: Clock + Copy>(
    held: &mut Held,
    from: u16,
    searches: &mut Searches<K>,
    space: &mut PolishSpace<T>,
    meter: &mut Meter,
) -> bool
    requires able { CanSearch held.old.case searches.old space.old meter.old }
    requires kept { space.old.kept ≡ held.old.roster }
    ensures tried { StaysNoDearer held.old.case from held.old.roster held.new searches.old
        searches.new space.new meter.old meter.new result }
    ensures best { space.new.best ≡ space.old.best }
{
    held.keeps_rules();
    let base = NearBase::of(held, from);
    if !find_rows(&base, searches, space, meter) {
        return false;
    }
    let aim = Aim {
        first: 0,
        penalty: held.total(),
        from,
    };
    held.replace_rows(&space.faded);
    stay_if_no_dearer(held, aim, searches, space, meter)
}

/// Searches a neighbourhood of a roster. If it finds rows, and the roster keeps the hard rules with them,
/// that roster is in the space's `faded`, with the frozen days as given.
fn find_rows<T: SearchesRows, K: Clock + Copy>(
    base: &NearBase<'_>,
    searches: &mut Searches<K>,
    space: &mut PolishSpace<T>,
    meter: &mut Meter,
) -> bool
    requires able { CanSearch base.now.case.now searches.old space.old meter.old }
    ensures keeps { result ≡ true → keeps_hard base.now.case.now space.new.faded ≡ true }
    ensures frozen { result ≡ true → FrozenDaysStay base.now.case.now base.now.from
        base.now.given.now space.new.faded }
    ensures found { AreFound base.now.case.now searches.old searches.new space.old space.new
        meter.old meter.new }
{
    let PolishSpace {
        bounds,
        fade_prices,
        near,
        faded,
        ..
    } = space;
    let tried = search_near(base, searches.left, near, bounds, fade_prices, meter);
    searches.left = tried.left;
    if !tried.found {
        return false;
    }
    faded.put_rows(base.given);
    put_found(base, near, faded) && first_hard(base.case, faded).is_none()
}

/// Puts in the rows that were found. Returns false if one of them isn't a row of the case, or changes a
/// frozen day.
fn put_found(base: &NearBase<'_>, near: &mut NearSpace, faded: &mut Roster) -> bool
    requires fits { fits_case base.now.case.now faded.old ≡ true }
    requires frozen { FrozenDaysStay base.now.case.now base.now.from base.now.given.now faded.old }
    ensures fits { fits_case base.now.case.now faded.new ≡ true }
    ensures frozen { FrozenDaysStay base.now.case.now base.now.from base.now.given.now faded.new }
{
    for free in 0..near.free() {
        let nurse = near.nurse(free);
        near.write_found(free, base.given.row(nurse));
        if nurse >= base.case.nurses() || !put_row(base, nurse, near.row(), faded) {
            return false;
        }
    }
    true
}

/// Puts in a nurse's row if it is one of the case's and keeps the frozen days. Returns whether it is and
/// does.
fn put_row(base: &NearBase<'_>, nurse: usize, row: &[Choice], faded: &mut Roster) -> bool
    requires nurse { nurse < nurse_count base.now.case.now }
    requires fits { fits_case base.now.case.now faded.old ≡ true }
    requires frozen { FrozenDaysStay base.now.case.now base.now.from base.now.given.now faded.old }
    ensures fits { fits_case base.now.case.now faded.new ≡ true }
    ensures frozen { FrozenDaysStay base.now.case.now base.now.from base.now.given.now faded.new }
{
    if !row_fits(base.case, row) || !keeps_frozen_days(base, nurse, row) {
        return false;
    }
    faded.put_row(nurse, row);
    true
}

/// Whether a row agrees with the given one on each frozen day.
fn keeps_frozen_days(base: &NearBase<'_>, nurse: usize, row: &[Choice]) -> bool
    requires { nurse < nurse_count base.now.case.now }
    ensures { result ≡ keeps_frozen_days base.now.case.now base.now.from base.now.given.now nurse
        row.now }
{
    let mut keeps = true;
    for day in 0..base.case.days() {
        keeps = keeps && keeps_frozen_day(base, nurse, day, choice_on(row, day));
    }
    keeps
}

/// Whether a choice on a day is the given one if the day is frozen.
fn keeps_frozen_day(base: &NearBase<'_>, nurse: usize, day: u16, choice: Choice) -> bool
    requires { nurse < nurse_count base.now.case.now }
    ensures { result ≡ keeps_frozen_day base.now.case.now base.now.from base.now.given.now nurse
        day choice }
{
    let given = choice_on(base.given.row(nurse), day);
    !is_frozen(base.case, base.from, nurse, day) || choice == given
}

//! A first roster: one that keeps the hard rules, from rows that may break them.

ghost use Rattle.std.specs.Prelude.{◌≡◌, ◌+◌, ◌<◌, ◌≤◌, [], false, true, if◌then◌else◌, min, nat_lt};
ghost use Rattle.roster_bundle.specs.Limits.{greatest_u64};
ghost use Rattle.roster_instance.specs.Rosters.{fits_case};
ghost use Rattle.roster_rules.specs.HardRules.{keeps_hard};
ghost use Rattle.roster_prices.specs.LowerBounds.{HaveRows};
ghost use Rattle.roster_laws.specs.FrozenDays.{FrozenDaysStay};
ghost use Rattle.roster_row.specs.Recalled.{RecallsSearchesAt};
ghost use Rattle.roster_polish.specs.Budgets.{AreOver};
ghost use Rattle.roster_polish.specs.Fades.{AreFaded, AreMade};
ghost use Rattle.roster_costs.specs.Minimums.{missing};
ghost use Rattle.roster_costs.specs.Irreparable.{irreparable};
ghost use Rattle.roster_polish.specs.Plans.{IsNoFarther, IsPlanned, IsUsedUp, keeps_rows};
ghost use Rattle.roster_polish.specs.Polished.{FitsPolish};
ghost use Rattle.roster_polish.specs.Settled.{Spends, extensions_of};
ghost use Rattle.roster_polish.specs.Tries.{CanSearch};

use crate::fade::{fade_rows, make_fade_pass};
use crate::kick::Kicking;
use crate::random::Random;
use crate::run::{Course, rounds_for};
use crate::searches::{MOST_MICROS, Searches};
use crate::space::PolishSpace;
use crate::turns::Turns;
use roster_costs::{first_absent_before, first_hard, first_succession_before, missing};
use roster_instance::{Case, Roster};
use roster_offers::{SearchesRows, greatest_scale};
use roster_prices::{Base, Fading, WHOLE, has_uncovered_slot, raise_uncovered};
use roster_slots::MOST_DUAL_PRICE;
use roster_state::Meter;
use roster_timer::Deadline;
use std::time::Clock;

/// How many passes the first fade makes. Each later one makes twice as many as the one before.
const FIRST_PASSES: u64 = 120;

/// In how many of its passes each nurse may be searched once. A fade that only has to keep the hard rules may
/// end sooner than one of `polish`.
const PASSES_PER_SEARCH: u64 = 4;

/// How many passes repair the rows of a fade at most, and from which of them on a missing nurse outweighs all
/// else.
const REPAIR_PASSES: u32 = 60;

const OUTWEIGHING_FROM: u32 = 40;

/// By how many points the dual price of a slot below its minimum is raised before such a pass.
const RAISE: u32 = 40;

/// What slots pay in such a pass: half of their dual prices, and more if nurses are missing.
const REPAIR: Fading = Fading {
    share: WHOLE / 2,
    missing: 300,
};

/// What they pay in the last of these passes: more for a missing nurse than another choice on one day can
/// make a row dearer.
const OUTWEIGHING: Fading = Fading {
    share: WHOLE / 8,
    missing: MOST_DUAL_PRICE,
};

/// What a search for a first roster leaves: this many searches, and the rest of the time.
#[derive(Clone, Copy)]
pub struct Rest<K> {
    pub searches: u32,
    pub deadline: Deadline<K>,
}

/// Looks for a roster that keeps the hard rules: fades the rows, each time in twice as many passes, until
/// they do, or no search or no time is left. Of the given roster and those with which the fades end, it then
/// leaves the one that is short of the fewest nurses to the minimums; the given one counts only if it breaks
/// minimums alone. Returns what is left. It takes no memory.
pub fn find_roster<T: SearchesRows, K: Clock + Copy>(
    case: &Case,
    roster: &mut Roster,
    course: &Course<K>,
    space: &mut PolishSpace<T>,
    meter: &mut Meter,
) -> Rest<K>
    requires roster { fits_case case.now roster.old ≡ true }
    requires repairable { irreparable case.now course.now.from roster.old ≡ [] }
    requires fits { FitsPolish case.now space.old }
    requires room { meter.old + extensions_of case.now course.now.searches ≤ greatest_u64 }
    ensures roster { fits_case case.now roster.new ≡ true }

    // The given roster stays if it keeps the hard rules. Else the one that is left is no farther, with its
    // frozen days.
    ensures planned { IsPlanned case.now course.now.from roster.old roster.new }

    // A roster that breaks a hard rule is left only if each search was made, or the time is up.
    ensures given_up { keeps_hard case.now roster.new ≡ false → IsUsedUp result }
    ensures ends { result.deadline.ends ≡ course.now.deadline.ends }
    ensures made { AreMade case.now meter.old course.now.searches meter.new result.searches }
    ensures spends { Spends case.now meter.old course.now.searches meter.new result.searches }
    ensures fits { FitsPolish case.now space.new }
{
    let all = course.searches;
    if first_hard(case, roster).is_none() {
        return Rest {
            searches: all,
            deadline: course.deadline,
        };
    }
    repairable_rows_exist(case, roster, course.from);
    let base = Base {
        case,
        given: roster,
        from: course.from,
        scale: greatest_scale(case),
    };
    let mut kicking = begin_plan(&base, course, space, meter);
    fade_until_kept(&base, &mut kicking, space, meter);
    roster.put_rows(&space.kept);
    let searches = left_of(kicking.searches.left, all);
    Rest {
        searches,
        deadline: kicking.searches.deadline,
    }
}

/// What is left of a number, as a number of the same type.
fn left_of(left: u64, all: u32) -> u32
    requires { left ≤ all }
    ensures { result ≡ left }
{
    left as u32
}

/// A law: if nothing is irreparable, each nurse has a row that agrees with the frozen days.
fn repairable_rows_exist(case: &Case, roster: &Roster, from: u16)
    requires fits { fits_case case.now roster.now ≡ true }
    requires repairable { irreparable case.now from roster.now ≡ [] }
    ensures { HaveRows case.now from roster.now }
{}

/// Improves the dual prices from which the fades begin, also those of the run that follows, and keeps the
/// given rows.
fn begin_plan<T: SearchesRows, K: Clock + Copy>(
    base: &Base<'_>,
    course: &Course<K>,
    space: &mut PolishSpace<T>,
    meter: &mut Meter,
) -> Kicking<K>
    requires fits { FitsPolish base.now.case.now space.old }
    requires room { meter.old + extensions_of base.now.case.now course.now.searches ≤ greatest_u64 }
    ensures kept { space.new.kept ≡ base.now.given.now }
    ensures passes { 0 < result.passes }
    ensures ends { result.searches.deadline.ends ≡ course.now.deadline.ends }
    ensures made { AreMade base.now.case.now meter.old course.now.searches meter.new
        result.searches.left }
    ensures spends { Spends base.now.case.now meter.old course.now.searches meter.new
        result.searches.left }
    ensures fits { FitsPolish base.now.case.now space.new }
{
    base.case.keeps_limits();
    let nurses = base.case.nurses() as u32;
    let rounds = rounds_for(course, nurses);
    let mut searches = Searches {
        left: course.searches as u64,
        deadline: course.deadline,
    };
    space.improve_prices(base, rounds as u16, None, &mut searches, meter);
    space.has_prices = true;
    space.kept.put_rows(base.given);
    Kicking {
        searches,
        random: Random::of_seed(course.seed),
        passes: FIRST_PASSES,
        passes_per_search: PASSES_PER_SEARCH,
        fade_micros: MOST_MICROS,
        turns: Turns::default(),
    }
}

/// Fades the given rows until they keep the hard rules or no search or time is left, and keeps the nearest
/// ones.
fn fade_until_kept<T: SearchesRows, K: Clock + Copy>(
    base: &Base<'_>,
    kicking: &mut Kicking<K>,
    space: &mut PolishSpace<T>,
    meter: &mut Meter,
)
    requires able { CanSearch base.now.case.now kicking.old.searches space.old meter.old }
    requires kept { space.old.kept ≡ base.now.given.now }
    requires passes { 0 < kicking.old.passes }
    ensures nearer { IsNoFarther base.now.case.now base.now.given.now space.new.kept }
    ensures given_up { keeps_hard base.now.case.now space.new.kept ≡ false →
        AreOver kicking.new.searches }
    ensures ends { kicking.new.searches.deadline.ends ≡ kicking.old.searches.deadline.ends }
    ensures frozen { FrozenDaysStay base.now.case.now base.now.from base.now.given.now
        space.new.kept }
    ensures made { AreMade base.now.case.now meter.old kicking.old.searches.left meter.new
        kicking.new.searches.left }
    ensures spends { Spends base.now.case.now meter.old kicking.old.searches.left meter.new
        kicking.new.searches.left }
    ensures fits { FitsPolish base.now.case.now space.new }
{
    let mut least = least_before(base);
    'fades: while !kicking.searches.are_over() {
        if fade_and_repair(base, kicking, space, meter) {
            space.kept.put_rows(&space.faded);
            return;
        }
        least = keep_if_nearer(base.case, least, space);
        kicking.passes = passes_after(kicking.passes);
    }
}

/// How many passes the fade after one with this many makes: twice as many.
fn passes_after(passes: u64) -> u64
    ensures { 0 < passes → 0 < result }
{
    passes.saturating_mul(2)
}

/// A roster is nearer than the given one if it is short of fewer nurses than this: those of which the given
/// one is short if it breaks minimums alone, and else any number.
fn least_before(base: &Base<'_>) -> u64
    ensures { keeps_rows base.now.case.now base.now.given.now ≡ true →
        result ≡ missing base.now.case.now base.now.given.now }
{
    let (case, given) = (base.case, base.given);
    let days = case.days();
    let follows = first_succession_before(case, given, days).is_none();
    if follows && first_absent_before(case, given, days).is_none() {
        missing(case, given)
    } else {
        u64::MAX
    }
}

/// Fades the given rows, and repairs them if they then break a minimum. Returns whether they keep the hard
/// rules. At least one search is made, and the frozen days are as given.
fn fade_and_repair<T: SearchesRows, K: Clock + Copy>(
    base: &Base<'_>,
    kicking: &mut Kicking<K>,
    space: &mut PolishSpace<T>,
    meter: &mut Meter,
) -> bool
    requires able { CanSearch base.now.case.now kicking.old.searches space.old meter.old }
    requires passes { 0 < kicking.old.passes }
    requires left { 0 < kicking.old.searches.left }
    ensures keeps { result ≡ true → keeps_hard base.now.case.now space.new.faded ≡ true }
    ensures fewer { kicking.new.searches.left < kicking.old.searches.left }
    ensures faded { AreFaded base.now kicking.old kicking.new space.old space.new meter.old
        meter.new }
{
    if fade_rows(base, kicking, space, meter) {
        return true;
    }
    repair_rows(base, kicking, space, meter)
}

/// Gives the nurses new rows, pass by pass, until no slot is below its minimum or the passes, the searches or
/// the time end. Slots below their minimums pay more each time, and in the last passes more than all else.
/// Returns whether the rows then keep the hard rules. The frozen days are as given.
fn repair_rows<T: SearchesRows, K: Clock + Copy>(
    base: &Base<'_>,
    kicking: &mut Kicking<K>,
    space: &mut PolishSpace<T>,
    meter: &mut Meter,
) -> bool
    requires able { CanSearch base.now.case.now kicking.old.searches space.old meter.old }
    requires frozen { FrozenDaysStay base.now.case.now base.now.from base.now.given.now
        space.old.faded }
    requires recalls { RecallsSearchesAt base.now.case.now base.now.scale space.old.fade_last }
    ensures keeps { result ≡ true → keeps_hard base.now.case.now space.new.faded ≡ true }
    ensures faded { AreFaded base.now kicking.old kicking.new space.old space.new meter.old
        meter.new }
{
    for pass in 0..REPAIR_PASSES {
        if !has_uncovered_slot(base.case, &space.bounds) {
            break;
        }
        if pass > 0 && kicking.searches.time_left() == 0 {
            break;
        }
        raise_uncovered(base.case, RAISE, &mut space.bounds);
        let fading = if pass < OUTWEIGHING_FROM {
            REPAIR
        } else {
            OUTWEIGHING
        };
        make_fade_pass(base, fading, kicking, space, meter);
    }
    first_hard(base.case, &space.faded).is_none()
}

/// Keeps the faded rows if they are short of fewer nurses than the least so far, and returns the new least.
fn keep_if_nearer<T: SearchesRows>(case: &Case, least: u64, space: &mut PolishSpace<T>) -> u64
    requires fits { FitsPolish case.now space.old }
    ensures kept { space.new.kept ≡ (if nat_lt (missing case.now space.old.faded) least
        then space.old.faded else space.old.kept) }
    ensures least { result ≡ min least (missing case.now space.old.faded) }
    ensures fits { FitsPolish case.now space.new }
{
    let missing = missing(case, &space.faded);
    if missing >= least {
        return least;
    }
    space.kept.put_rows(&space.faded);
    missing
}

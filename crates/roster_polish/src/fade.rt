//! A fade, which is a Lagrangian heuristic: pass after pass the nurses get their best rows by what slots pay,
//! and that goes from dual prices to what cover really costs.

ghost use Rattle.std.specs.Prelude.{◌≡◌, ◌+◌, ◌<◌, ◌≤◌, ℕ, All, false, length, true};
ghost use Rattle.roster_bundle.specs.Limits.{greatest_u64};
ghost use Rattle.roster_instance.specs.Limits.{most_nurses};
ghost use Rattle.roster_instance.specs.Meaning.{day_count, nurse_count};
ghost use Rattle.roster_rules.specs.HardRules.{keeps_hard};
ghost use Rattle.roster_laws.specs.FrozenDays.{FrozenDaysStay};
ghost use Rattle.roster_row.specs.Recalled.{RecallsSearchesAt};
ghost use Rattle.roster_laws.specs.Greatest.{extension_count};
ghost use Rattle.roster_polish.specs.Descents.{FadeStays};
ghost use Rattle.roster_polish.specs.Fades.{AreFaded};
ghost use Rattle.roster_polish.specs.Polished.{FitsPolish};
ghost use Rattle.roster_polish.specs.Tries.{CanSearch, StaysNoDearer};

use crate::descend::Aim;
use crate::kick::Kicking;
use crate::random::Random;
use crate::searches::Left;
use crate::space::PolishSpace;
use crate::stay::stay_if_no_dearer;
use crate::visit::{Turn, visit};
use roster_case::Held;
use roster_costs::first_hard;
use roster_instance::Case;
use roster_offers::SearchesRows;
use roster_prices::{
    Base, Fading, Terms, WHOLE, follow_cover, has_uncovered_slot, price_slots, put_row, take_row,
};
use roster_slots::FINE_PER_POINT;
use roster_state::Meter;
use std::time::Clock;

/// How many more passes a fade makes if slots are below their minimums: three times two.
const MORE_PASSES: u64 = 6;

/// How many points more a slot below its minimum pays. In each two of the additional passes that is three
/// times as many.
const BELOW_MINIMUM: u32 = 100;

/// The length of a fade: its passes; its searches, or microseconds, after which its last passes follow at
/// once; and in the last of how many parts of either the share of the dual prices falls at the latest.
#[derive(Clone, Copy)]
struct Length {
    passes: u64,
    most: Left,
    parts: u64,
}

/// Fades the roster and runs a descent. If the roster is then settled and no dearer, it stays and is kept;
/// else the kept one comes back. Returns whether it stayed.
pub(crate) fn try_fade<T: SearchesRows, K: Clock + Copy>(
    held: &mut Held,
    from: u16,
    kicking: &mut Kicking<K>,
    space: &mut PolishSpace<T>,
    meter: &mut Meter,
) -> bool
    requires able { CanSearch held.old.case kicking.old.searches space.old meter.old }
    requires kept { space.old.kept ≡ held.old.roster }
    ensures none { kicking.old.passes ≡ 0 → result ≡ false }
    ensures tried { StaysNoDearer held.old.case from held.old.roster held.new kicking.old.searches
        kicking.new.searches space.new meter.old meter.new result }
    ensures decided { 0 < kicking.old.passes → FadeStays held.old.case from
        kicking.new.searches held.old.roster space.new.faded held.new.roster result }
{
    held.keeps_rules();
    let base = Base::of(held, from);
    if kicking.passes == 0 {
        return false;
    }
    let keeps = fade_rows(&base, kicking, space, meter);
    space.restore_prices(base.case);
    if !keeps {
        space.last.put(&space.kept_last);
        return false;
    }
    let aim = Aim {
        first: 0,
        penalty: held.total(),
        from,
    };
    held.replace_rows(&space.faded);
    stay_if_no_dearer(held, aim, &mut kicking.searches, space, meter)
}

/// Fades rows, and returns whether they then keep the hard rules. The frozen days are as given.
pub(crate) fn fade_rows<T: SearchesRows, K: Clock + Copy>(
    base: &Base<'_>,
    kicking: &mut Kicking<K>,
    space: &mut PolishSpace<T>,
    meter: &mut Meter,
) -> bool
    requires able { CanSearch base.now.case.now kicking.old.searches space.old meter.old }
    ensures keeps { result ≡ true → keeps_hard base.now.case.now space.new.faded ≡ true }
    ensures breaks { result ≡ false → keeps_hard base.now.case.now space.new.faded ≡ false }
    ensures fewer { 0 < kicking.old.passes → 0 < kicking.old.searches.left →
        kicking.new.searches.left < kicking.old.searches.left }
    ensures faded { AreFaded base.now kicking.old kicking.new space.old space.new meter.old
        meter.new }
{
    let before = kicking.searches.remaining();
    let length = length_of(base.case, kicking);
    space.begin_fade(base.case, base.given);
    for pass in 0..length.passes.saturating_add(MORE_PASSES) {
        if kicking.searches.left == 0 {
            break;
        }
        if pass > 0 && kicking.searches.time_left() == 0 {
            break;
        }
        let is_more = pass >= length.passes && (pass - length.passes) % 2 == 0;
        if is_more && !has_uncovered_slot(base.case, &space.bounds) {
            break;
        }
        let made = kicking.searches.made_since(before);
        let is_long = made.searches > length.most.searches || made.micros > length.most.micros;
        if pass > 0 && is_long && pass < length.passes.saturating_sub(LAST_PASSES) {
            continue;
        }
        let fading = fading_in(pass, made, length);
        make_fade_pass(base, fading, kicking, space, meter);
        let step = step_in(fading.share, length.passes);
        follow_cover(base.case, step, &mut space.bounds);
    }
    first_hard(base.case, &space.faded).is_none()
}

/// How long a fade is.
fn length_of<K>(case: &Case, kicking: &Kicking<K>) -> Length
    ensures { result.passes ≡ kicking.now.passes }
{
    let each = kicking.passes / kicking.passes_per_search.max(1);
    Length {
        passes: kicking.passes,
        most: Left {
            searches: each.saturating_mul(case.nurses() as u64),
            micros: kicking.fade_micros,
        },
        parts: if each >= SEARCHES_FOR_QUARTER { 4 } else { 2 },
    }
}

/// From this many searches for each nurse on the share falls in the last quarter of them, and else in the
/// last half.
const SEARCHES_FOR_QUARTER: u64 = 200;

/// How many passes at the end of a fade go by the true prices alone.
const LAST_PASSES: u64 = 2;

/// How far a fade has come in one of its passes, after what it has `made`. The share of the dual prices falls
/// from all to none, which it has in the last two passes and from there on: as the square root of the passes
/// that are left, or of the last part of the searches or of the time if that is less.
fn fading_in(pass: u64, made: Left, length: Length) -> Fading {
    let even = length.passes.saturating_sub(LAST_PASSES);
    let left = share_of(even.saturating_sub(pass), even)
        .min(share_left(made.searches, length.most.searches, length.parts))
        .min(share_left(made.micros, length.most.micros, length.parts));
    Fading {
        share: root_of(left),
        missing: BELOW_MINIMUM * times_in(pass, length.passes),
    }
}

/// How much is left of the last of some equal parts of `all`, after `made` of it, in 1024ths; all of it
/// before that part begins.
fn share_left(made: u64, all: u64, parts: u64) -> u32 {
    share_of(all.saturating_sub(made).saturating_mul(parts), all)
}

/// How much `part` is of `all`, in 1024ths.
fn share_of(part: u64, all: u64) -> u32 {
    let whole = WHOLE as u64;
    (whole.saturating_mul(part) / all.max(1)).min(whole) as u32
}

/// The square root of a share, in 1024ths as well, rounded down.
fn root_of(share: u32) -> u32 {
    let mut root: u32 = 0;
    for halvings in 0..11u32 {
        let next = root.saturating_add(WHOLE >> halvings);
        if next.saturating_mul(next) <= WHOLE * share.min(WHOLE) {
            root = next;
        }
    }
    root
}

/// How far dual prices move after a pass, in fine units: farther the fewer passes there are, and by the share
/// that they have in what slots pay.
fn step_in(share: u32, passes: u64) -> u32 {
    let most = (ALL_STEPS / passes.max(1)).clamp(LEAST_STEP, MOST_STEP);
    most as u32 * share.min(WHOLE) / WHOLE
}

/// How far a dual price moves in all passes together: some 156 points, unless the least or the greatest step
/// of one pass, a quarter of a point and two points, changes that.
const ALL_STEPS: u64 = 40_000 * FINE_PER_POINT as u64 / 256;

const LEAST_STEP: u64 = FINE_PER_POINT as u64 / 4;

const MOST_STEP: u64 = FINE_PER_POINT as u64 * 2;

/// How many times as much a slot below its minimum pays in a pass: three times in the first two additional
/// ones.
fn times_in(pass: u64, passes: u64) -> u32
    ensures { result ≤ 27 }
{
    if pass < passes {
        return 1;
    }
    match (pass - passes) / 2 {
        0 => 3,
        1 => 9,
        _ => 27,
    }
}

/// Gives each nurse, in an order that is drawn, the best row by what the slots pay without her row. Nurses
/// who can gain little are left out, but never the first one.
pub(crate) fn make_fade_pass<T: SearchesRows, K: Clock + Copy>(
    base: &Base<'_>,
    fading: Fading,
    kicking: &mut Kicking<K>,
    space: &mut PolishSpace<T>,
    meter: &mut Meter,
)
    requires able { CanSearch base.now.case.now kicking.old.searches space.old meter.old }
    requires frozen { FrozenDaysStay base.now.case.now base.now.from base.now.given.now
        space.old.faded }
    requires recalls { RecallsSearchesAt base.now.case.now base.now.scale space.old.fade_last }
    ensures fewer { 0 < kicking.old.searches.left →
        kicking.new.searches.left < kicking.old.searches.left }
    ensures faded { AreFaded base.now kicking.old kicking.new space.old space.new meter.old
        meter.new }
{
    base.case.keeps_limits();
    price_slots(base.case, fading, &space.bounds, &mut space.fade_prices);
    shuffle(&mut space.order, &mut kicking.random);
    for position in 0..base.case.nurses() {
        if kicking.searches.left == 0 {
            break;
        }
        if position > 0 && kicking.searches.time_left() == 0 {
            break;
        }
        let nurse = space.order[position];
        let turn = Turn {
            nurse,
            surely: position == 0,
        };
        let searched = fade_nurse(base, turn, fading, space, meter);
        kicking.searches.take_if(searched);
    }
}

/// Gives a nurse the best row by what the slots pay without her present one, or leaves her out. The frozen
/// days are as given. Returns whether she was searched.
fn fade_nurse<T: SearchesRows>(
    base: &Base<'_>,
    turn: Turn,
    fading: Fading,
    space: &mut PolishSpace<T>,
    meter: &mut Meter,
) -> bool
    requires nurse { turn.nurse < nurse_count base.now.case.now }
    requires fits { FitsPolish base.now.case.now space.old }
    requires frozen { FrozenDaysStay base.now.case.now base.now.from base.now.given.now
        space.old.faded }
    requires recalls { RecallsSearchesAt base.now.case.now base.now.scale space.old.fade_last }
    requires room { meter.old + extension_count base.now.case.now turn.nurse ≤ greatest_u64 }
    ensures kept { space.new.kept ≡ space.old.kept }
    ensures best { space.new.best ≡ space.old.best }
    ensures frozen { FrozenDaysStay base.now.case.now base.now.from base.now.given.now
        space.new.faded }
    ensures surely { turn.surely ≡ true → result ≡ true }
    ensures each_day { result ≡ true → meter.old + day_count base.now.case.now ≤ meter.new }
    ensures spared { result ≡ false → meter.new ≡ meter.old }
    ensures counted { meter.new ≤ meter.old + extension_count base.now.case.now turn.nurse }
    ensures recalls { RecallsSearchesAt base.now.case.now base.now.scale space.new.fade_last }
    ensures fits { FitsPolish base.now.case.now space.new }
{
    let PolishSpace {
        bounds,
        fade_last,
        fade_prices,
        faded,
        ..
    } = space;
    let (case, nurse) = (base.case, turn.nurse);
    case.keeps_limits();
    take_row(case, faded.row(nurse), fading, bounds, fade_prices);
    let terms = Terms {
        case,
        dual_prices: fade_prices,
        given: base.given,
        from: base.from,
        scale: base.scale,
    };
    let workspace = &mut bounds.rows.workspace;
    let searched = visit(&terms, turn, faded.row(nurse), workspace, fade_last, meter);
    if searched {
        faded.put_row(nurse, bounds.rows.workspace.row());
    }
    put_row(case, faded.row(nurse), fading, bounds, fade_prices);
    searched
}

/// Shuffles an order.
fn shuffle(order: &mut [usize], random: &mut Random)
    requires few { length order.old ≤ most_nurses }
    ensures count { length order.new ≡ length order.old }
    ensures each { (end : ℕ) → All (λ n. n < end) order.old → All (λ n. n < end) order.new }
{
    let count = order.len();
    for position in 0..count {
        let other = position + random.below((count - position) as u32) as usize;
        order.swap(position, other);
    }
}

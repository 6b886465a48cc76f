//! A kick: a few nurses get the best rows by other prices, which are partly random, and then a descent
//! follows.

ghost use Rattle.std.specs.Prelude.{◌≡◌, ◌+◌, ◌<◌, ◌≤◌, length, true, min};
ghost use Rattle.roster_bundle.specs.Limits.{greatest_u64};
ghost use Rattle.roster_instance.specs.Meaning.{nurse_count};
ghost use Rattle.roster_laws.specs.FrozenDays.{FrozenDaysStay};
ghost use Rattle.roster_laws.specs.Greatest.{extension_count};
ghost use Rattle.roster_offers.specs.Workspaces.{fits_space};
ghost use Rattle.roster_polish.specs.Descents.{KickStays};
ghost use Rattle.roster_polish.specs.Kicks.{FitsKick};
ghost use Rattle.roster_polish.specs.Tries.{AreKicked, CanSearch, StaysNoDearer};

use crate::descend::Aim;
use crate::offers::{Kick, offer_days};
use crate::random::Random;
use crate::searches::Searches;
use crate::space::PolishSpace;
use crate::stay::stay_if_no_dearer;
use crate::turns::Turns;
use roster_case::Held;
use roster_offers::{SearchesRows, Workspace};
use roster_state::Meter;
use std::time::Clock;

/// What a fade and kicks take: searches and random numbers; how many passes the fade makes, 0 if there is no
/// fade; in how many of them each nurse may be searched once; how many microseconds a fade takes at most; and
/// whose turn it is after the first fade.
#[derive(Clone, Copy)]
pub(crate) struct Kicking<K> {
    pub(crate) searches: Searches<K>,
    pub(crate) random: Random,
    pub(crate) passes: u64,
    pub(crate) passes_per_search: u64,
    pub(crate) fade_micros: u64,
    pub(crate) turns: Turns,
}

/// What is drawn for a kick: whether its prices go by dual prices, its weeks, how many of a hundred prices
/// are raised, and by how many points at most.
#[derive(Clone, Copy)]
struct Draw {
    by_dual_price: bool,
    first: u16,
    last: u16,
    share: u32,
    most_points: u32,
}

/// Kicks a few nurses out of their rows and runs a descent. If the roster is then settled and no dearer, it
/// stays and is kept; else the kept one comes back. Returns whether it stayed.
pub(crate) fn try_kick<T: SearchesRows, K: Clock + Copy>(
    held: &mut Held,
    from: u16,
    kicking: &mut Kicking<K>,
    space: &mut PolishSpace<T>,
    meter: &mut Meter,
) -> bool
    requires able { CanSearch held.old.case kicking.old.searches space.old meter.old }
    requires kept { space.old.kept ≡ held.old.roster }
    ensures tried { StaysNoDearer held.old.case from held.old.roster held.new kicking.old.searches
        kicking.new.searches space.new meter.old meter.new result }
    ensures decided { KickStays held.old.case from kicking.new.searches held.old.roster
        held.new.roster result }
{
    held.keeps_rules();
    let penalty = held.total();
    let first = kick_nurses(held, from, kicking, space, meter);
    let aim = Aim {
        first,
        penalty,
        from,
    };
    stay_if_no_dearer(held, aim, &mut kicking.searches, space, meter)
}

/// Gives one to three nurses the best rows by the prices of a kick, and returns the nurse after the last of
/// them.
fn kick_nurses<T: SearchesRows, K: Clock + Copy>(
    held: &mut Held,
    from: u16,
    kicking: &mut Kicking<K>,
    space: &mut PolishSpace<T>,
    meter: &mut Meter,
) -> usize
    requires able { CanSearch held.old.case kicking.old.searches space.old meter.old }
    ensures kicked { AreKicked from held.old held.new kicking.old.searches kicking.new.searches
        space.old space.new meter.old meter.new }
{
    let draw = draw_kick(held.case().weeks(), from, &mut kicking.random);
    let mut after = 0;
    for _ in 0..1 + kicking.random.below(3) {
        if kicking.searches.left == 0 {
            break;
        }
        after = kick_one(held, draw, from, kicking, space, meter);
    }
    after
}

/// How many of four kicks go by dual prices, on average.
const BY_DUAL_PRICE: u32 = 2;

/// Draws the next kick. It has one to four weeks, or as many as may change if these are fewer.
fn draw_kick(weeks: u16, from: u16, random: &mut Random) -> Draw
    ensures few { result.last ≤ result.first + 4 }
    ensures open { min from weeks ≤ result.first }
    ensures within { result.last ≤ weeks }
{
    let frozen = from.min(weeks);
    let length = (1 + random.below(4)).min((weeks - frozen) as u32);
    let first = frozen as u32 + random.below((weeks - frozen) as u32 - length + 1);
    Draw {
        by_dual_price: random.below(4) < BY_DUAL_PRICE,
        first: first as u16,
        last: (first + length) as u16,
        share: 10 + random.below(61),
        most_points: 5 + random.below(56),
    }
}

/// Kicks one nurse, who is drawn, and returns the nurse after her.
fn kick_one<T: SearchesRows, K: Clock + Copy>(
    held: &mut Held,
    draw: Draw,
    from: u16,
    kicking: &mut Kicking<K>,
    space: &mut PolishSpace<T>,
    meter: &mut Meter,
) -> usize
    requires left { 0 < kicking.old.searches.left }
    requires able { CanSearch held.old.case kicking.old.searches space.old meter.old }
    ensures kicked { AreKicked from held.old held.new kicking.old.searches kicking.new.searches
        space.old space.new meter.old meter.new }
{
    held.case().keeps_limits();
    kicking.searches.left -= 1;
    let nurse = kicking.random.below(held.case().nurses() as u32) as usize;
    raise(draw, &mut space.dearer, &mut kicking.random);
    let kick = Kick {
        dual_prices: &space.bounds.dual_prices,
        by_dual_price: draw.by_dual_price,
        dearer: space.dearer.as_slice(),
        from,
        first: draw.first,
        last: draw.last,
    };
    kick_nurse(held, nurse, &kick, &mut space.bounds.rows.workspace, meter);
    nurse + 1
}

/// Draws by how much each shift of a day is dearer.
fn raise(draw: Draw, dearer: &mut [u8], random: &mut Random)
    ensures { length dearer.new ≡ length dearer.old }
{
    for position in 0..dearer.len() {
        let raised = random.below(100) < draw.share;
        let points = 1 + random.below(draw.most_points.max(1)) % 255;
        dearer[position] = if raised { points as u8 } else { 0 };
    }
}

/// Gives a nurse the best row by the prices of a kick.
fn kick_nurse<T: SearchesRows>(
    held: &mut Held,
    nurse: usize,
    kick: &Kick<'_>,
    workspace: &mut Workspace<T>,
    meter: &mut Meter,
)
    requires nurse { nurse < nurse_count held.old.case }
    requires kick { FitsKick held.old.case kick.now }
    requires fits { fits_space held.old.case workspace.old ≡ true }
    requires room { meter.old + extension_count held.old.case nurse ≤ greatest_u64 }
    ensures case { held.new.case ≡ held.old.case }
    ensures frozen { FrozenDaysStay held.old.case kick.now.from held.old.roster held.new.roster }
    ensures counted { meter.new ≤ meter.old + extension_count held.old.case nurse }
    ensures fits { fits_space held.old.case workspace.new ≡ true }
{
    // The roster keeps the hard rules, so the present row is offered, and there is a best one.
    held.keeps_rules();
    offer_days(held, nurse, kick, workspace);
    workspace.search_offers(held.case(), nurse, meter);
    held.replace_row(nurse, workspace.row());
}

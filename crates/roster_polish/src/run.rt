//! A run of a fade and of searches in neighbourhoods, or of kicks.

ghost use Rattle.std.specs.Prelude.{◌≡◌, ◌+◌, ◌*◌, ◌<◌, ◌≤◌, true, codes, if◌then◌else◌, IfErr, IfOk};
ghost use Rattle.roster_bundle.specs.Limits.{greatest_u64};
ghost use Rattle.roster_instance.specs.Limits.{most_nurses};
ghost use Rattle.roster_instance.specs.Meaning.{nurse_count};
ghost use Rattle.roster_laws.specs.FrozenDays.{FrozenDaysStay};
ghost use Rattle.roster_rules.specs.Penalties.{penalty};
ghost use Rattle.roster_polish.specs.Descents.{KickStays};
ghost use Rattle.roster_polish.specs.Polished.{FitsPolish, GivenLogStops, PolishLogStops, Polishes, PolishesGiven, first_searches, descent_searches};
ghost use Rattle.roster_polish.specs.Settled.{Spends, extensions_of};
ghost use Rattle.roster_polish.specs.Shown.{SawOnlyReported};
ghost use Rattle.roster_polish.specs.Tries.{CanSearch, StaysNoDearer};

use crate::again::try_again;
use crate::descend::descend_first;
use crate::fade::try_fade;
use crate::kick::{Kicking, try_kick};
use crate::log::log_kick;
use crate::near::try_near;
use crate::random::Random;
use crate::saves::{NoSaves, Reporting, Saves, show_if};
use crate::searches::{MOST_MICROS, Searches};
use crate::space::PolishSpace;
use crate::turns::Turns;
use roster_case::Held;
use roster_offers::SearchesRows;
use roster_prices::Base;
use roster_reports::{LogFault, log_start, log_word};
use roster_state::Meter;
use roster_text::Watch;
use roster_timer::Deadline;
use std::io::Write;
use std::time::Clock;

/// How a run is made: how many searches it may take besides those of the first descent, the seed of its
/// random numbers, the week before which all is frozen, whether it makes kicks alone, and no fade, and when
/// its time ends. The first descent isn't cut off by that.
#[derive(Clone, Copy)]
pub struct Course<K> {
    pub searches: u32,
    pub seed: u64,
    pub from: u16,
    pub kicks_alone: bool,
    pub deadline: Deadline<K>,
}

/// How a run ended: whether it is certain that no nurse has a cheaper row, and the penalty at the end.
#[derive(Clone, Copy, Debug, PartialEq, Eq)]
pub struct Polished {
    pub settled: bool,
    pub total: u64,
}

/// Runs a descent, then fades the roster, and then searches neighbourhoods of it, as long as searches are
/// left. If kicks alone are asked for, it kicks a few nurses at a time out of their rows in place of both. A
/// descent follows each of these, and the roster stays if it is then no dearer. A fade that stayed and each
/// later try that left the roster cheaper have a line in the log, which goes out as it is made; the first
/// line has the penalty of the given roster. It takes no memory.
///
/// # Errors
///
/// The log failed. The roster is then that of the first line that didn't wholly go out: the given one at the
/// first line, and at the others the one that the line reports.
pub fn polish<W: Write, T: SearchesRows, K: Clock + Copy>(
    held: &mut Held,
    course: &Course<K>,
    space: &mut PolishSpace<T>,
    meter: &mut Meter,
    log: &mut Watch<W>,
) -> Result<Polished, LogFault>
    requires fits { FitsPolish held.old.case space.old }
    requires room { meter.old + extensions_of held.old.case
        (course.now.searches + first_searches held.old.case) ≤ greatest_u64 }
    ensures case { held.new.case ≡ held.old.case }
    ensures ok { IfOk result (PolishesGiven W.contents held.old.case course.now.from
        held.old.roster course.now.searches course.now.kicks_alone held.new.roster log.old
        log.new) }
    ensures err { IfErr result (GivenLogStops W.contents held.old.case course.now.from
        held.old.roster course.now.searches course.now.kicks_alone held.new.roster log.old
        log.new) }
    ensures no_dearer { penalty held.old.case held.new.roster ≤ penalty held.old.case
        held.old.roster }
    ensures frozen { FrozenDaysStay held.old.case course.now.from held.old.roster held.new.roster }
    ensures counted { meter.new ≤ meter.old + extensions_of held.old.case
        (course.now.searches + descent_searches held.old.case course.now.from held.old.roster) }
    ensures fits { FitsPolish held.old.case space.new }
{
    let mut reporting = Reporting {
        start: held.total(),
        saver: NoSaves,
    };
    polish_found(held, course, &mut reporting, space, meter, log)
}

/// The same with another number in the first line of the log: that of the roster from which the given one was
/// found. The rosters that the log has reported are shown to a saver.
///
/// # Errors
///
/// As those of `polish`.
pub fn polish_found<W: Write, T: SearchesRows, K: Clock + Copy, S: Saves>(
    held: &mut Held,
    course: &Course<K>,
    reporting: &mut Reporting<S>,
    space: &mut PolishSpace<T>,
    meter: &mut Meter,
    log: &mut Watch<W>,
) -> Result<Polished, LogFault>
    requires fits { FitsPolish held.old.case space.old }
    requires room { meter.old + extensions_of held.old.case
        (course.now.searches + first_searches held.old.case) ≤ greatest_u64 }
    ensures case { held.new.case ≡ held.old.case }
    ensures ok { IfOk result (Polishes W.contents held.old.case course.now.from held.old.roster
        reporting.old.start course.now.searches course.now.kicks_alone held.new.roster log.old
        log.new) }
    ensures err { IfErr result (PolishLogStops W.contents held.old.case course.now.from
        held.old.roster reporting.old.start course.now.searches course.now.kicks_alone
        held.new.roster log.old log.new) }
    ensures saved { SawOnlyReported W.contents S.Saw held.old.case course.now.from held.old.roster
        reporting.old.start log.old reporting.old.saver reporting.new.saver }
    ensures no_dearer { penalty held.old.case held.new.roster ≤ penalty held.old.case
        held.old.roster }
    ensures frozen { FrozenDaysStay held.old.case course.now.from held.old.roster held.new.roster }
    ensures counted { meter.new ≤ meter.old + extensions_of held.old.case
        (course.now.searches + descent_searches held.old.case course.now.from held.old.roster) }
    ensures fits { FitsPolish held.old.case space.new }
{
    held.keeps_rules();
    let mut sent = log_start(log, 0, held.case(), reporting.start)?;
    reporting.saver.show(held);
    let mut settled = descend_first(held, course.from, space, meter);
    let mut kicking = begin(held, course, space, meter);
    let all = kicking.searches.remaining();
    let mut is_reported = false;
    if try_fade(held, course.from, &mut kicking, space, meter) {
        settled = true;
        is_reported = true;
        held.keeps_rules();
        sent = log_word(log, sent, b"fade", held.total())?;
    }
    kicking.turns = Turns::after_fade(all, kicking.searches.remaining());
    for kicks_before in 0..course.searches {
        let left = kicking.searches.remaining();
        if !kicking.turns.go_on(left) {
            break;
        }
        show_if(is_reported, held, &mut reporting.saver);
        let before = held.total();
        if !try_change(held, course, &mut kicking, space, meter) {
            continue;
        }
        settled = true;
        held.keeps_rules();
        let total = held.total();
        if total < before {
            is_reported = true;
            sent = log_kick(log, sent, kicks_before + 1, total)?;
        }
    }
    held.keeps_rules();
    let total = held.total();
    log_word(log, sent, end_word(settled), total)?;
    Ok(Polished { settled, total })
}

/// Tries one change: a kick if kicks alone are asked for, and else another fade or a search in a
/// neighbourhood, whichever is next. If the roster is then settled and no dearer, it stays and is kept; else
/// the kept one comes back. Returns whether it stayed.
fn try_change<T: SearchesRows, K: Clock + Copy>(
    held: &mut Held,
    course: &Course<K>,
    kicking: &mut Kicking<K>,
    space: &mut PolishSpace<T>,
    meter: &mut Meter,
) -> bool
    requires able { CanSearch held.old.case kicking.old.searches space.old meter.old }
    requires kept { space.old.kept ≡ held.old.roster }
    ensures tried { StaysNoDearer held.old.case course.now.from held.old.roster held.new
        kicking.old.searches kicking.new.searches space.new meter.old meter.new result }
    ensures kicked { course.now.kicks_alone ≡ true → KickStays held.old.case course.now.from
        kicking.new.searches held.old.roster held.new.roster result }
{
    if course.kicks_alone {
        return try_kick(held, course.from, kicking, space, meter);
    }
    let total = held.total();
    let before = kicking.searches.remaining();
    let fades = kicking.turns.fades_next(before);
    let stayed = if fades {
        try_again(held, course.from, kicking, space, meter)
    } else {
        try_near(held, course.from, &mut kicking.searches, space, meter)
    };
    let after = kicking.searches.remaining();
    let cheaper = held.total() < total;
    kicking.turns.record(before, after, fades, cheaper);
    stayed
}

/// The word of the log's last line.
fn end_word(settled: bool) -> &'static [u8]
    ensures { result.now ≡ (if settled then codes "settled" else codes "stopped") }
{
    if settled { b"settled" } else { b"stopped" }
}

/// Sets the dual prices from which a fade begins and by which kicks price, and keeps the roster.
fn begin<T: SearchesRows, K: Clock + Copy>(
    held: &Held,
    course: &Course<K>,
    space: &mut PolishSpace<T>,
    meter: &mut Meter,
) -> Kicking<K>
    requires fits { FitsPolish held.now.case space.old }
    requires room { meter.old + extensions_of held.now.case course.now.searches ≤ greatest_u64 }
    ensures kept { space.new.kept ≡ held.now.roster }
    ensures fadeless { course.now.kicks_alone ≡ true → result.passes ≡ 0 }
    ensures counted { meter.new + extensions_of held.now.case result.searches.left ≤ meter.old
        + extensions_of held.now.case course.now.searches }
    ensures fits { FitsPolish held.now.case space.new }
{
    held.case().keeps_limits();
    let mut searches = Searches {
        left: course.searches as u64,
        deadline: course.deadline,
    };
    set_first_prices(held, course, &mut searches, space, meter);
    space.near.begin_run(held.case(), course.seed);
    space.keep(held);
    let passes = passes_within(course, searches.left, held.case().nurses() as u32);
    Kicking {
        searches,
        random: Random::of_seed(course.seed),
        passes: passes.all,
        passes_per_search: passes.per_search,
        fade_micros: (searches.time_left() / 2).min(MOST_MICROS),
        turns: Turns::default(),
    }
}

/// Sets these prices: those that a search for a first roster has left stay, and else they are improved.
fn set_first_prices<T: SearchesRows, K: Clock + Copy>(
    held: &Held,
    course: &Course<K>,
    searches: &mut Searches<K>,
    space: &mut PolishSpace<T>,
    meter: &mut Meter,
)
    requires fits { FitsPolish held.now.case space.old }
    requires all { searches.old.left ≡ course.now.searches }
    requires room { meter.old + extensions_of held.now.case searches.old.left ≤ greatest_u64 }
    ensures spends { Spends held.now.case meter.old searches.old.left meter.new searches.new.left }
    ensures fits { FitsPolish held.now.case space.new }
{
    if space.has_prices {
        space.has_prices = false;
        space.restore_prices(held.case());
        return;
    }
    held.case().keeps_limits();
    let rounds = rounds_for(course, held.case().nurses() as u32);
    let base = Base::of(held, course.from);
    // A fade begins as one from an empty roster does, however dear the given one is.
    let penalty = course.kicks_alone.then_some(held.total());
    space.improve_prices(&base, rounds as u16, penalty, searches, meter);
}

/// For how many rounds dual prices are improved before a fade, with at most a quarter of the searches, or
/// before kicks alone, with at most half of them.
pub(crate) fn rounds_for<K>(course: &Course<K>, nurses: u32) -> u32
    requires nurses { nurses ≤ most_nurses }
    ensures few { result ≤ 100 }
    ensures within { result * nurses ≤ course.now.searches }
{
    if course.kicks_alone {
        return rounds_within(course.searches, 2, ROUNDS_OF_KICKS, nurses);
    }
    rounds_within(course.searches, 4, ROUNDS_OF_FADE, nurses)
}

/// For how many rounds they are improved at most. After more, all good rows of a nurse cost nearly the same
/// by them, so that each search takes longer, and fades end no better.
const ROUNDS_OF_FADE: u32 = 30;

/// The same if kicks alone are made.
const ROUNDS_OF_KICKS: u32 = 100;

/// For how many rounds over all nurses dual prices are improved, if they may take one of `parts` equal parts
/// of the searches, and are `most`.
fn rounds_within(searches: u32, parts: u32, most: u32, nurses: u32) -> u32
    requires parts { 0 < parts }
    requires few { parts ≤ 4 }
    requires nurses { nurses ≤ most_nurses }
    ensures few { result ≤ most }
    ensures within { result * nurses ≤ searches }
{
    (searches / (parts * nurses.max(1))).min(most)
}

/// The passes over all nurses that a fade makes, and in how many of them each nurse may be searched once,
/// since mostly she can gain little.
#[derive(Clone, Copy)]
struct Passes {
    all: u64,
    per_search: u64,
}

/// The passes of a fade: none for kicks alone. It makes four for each search of a nurse, or eight for few
/// nurses with many searches each.
fn passes_within<K>(course: &Course<K>, left: u64, nurses: u32) -> Passes
    requires some { 0 < nurses }
    requires few { nurses ≤ most_nurses }
    ensures none { course.now.kicks_alone ≡ true → result.all ≡ 0 }
{
    let each = searches_each(course, left, nurses);
    let has_many = each >= SEARCHES_FOR_MORE;
    let per_search = if has_many && nurses <= FEW_NURSES {
        8
    } else {
        4
    };
    Passes {
        all: per_search * each as u64,
        per_search,
    }
}

/// From this many searches for each nurse on they are many.
const SEARCHES_FOR_MORE: u32 = 200;

/// Up to this many nurses are few.
const FEW_NURSES: u32 = 20;

/// How many searches for each nurse a fade takes: none for kicks alone, and else as many as are left, up to
/// the most. It leaves three in a hundred of all searches, or four for each nurse if that is more, for passes
/// that it makes more if it ends below a minimum.
fn searches_each<K>(course: &Course<K>, left: u64, nurses: u32) -> u32
    requires some { 0 < nurses }
    requires few { nurses ≤ most_nurses }
    ensures none { course.now.kicks_alone ≡ true → result ≡ 0 }
{
    if course.kicks_alone {
        return 0;
    }
    let spare = (course.searches / 100 * 3).max(4 * nurses) as u64;
    let each = left.saturating_sub(spare) / nurses as u64;
    each.min(most_each(left, nurses) as u64) as u32
}

/// How many searches for each nurse a fade takes at most: 400, or half of those that are left for all nurses
/// if that is less. This half counts as 20,000 if it is less, and as 40,000 if it is more; and each nurse can
/// have as many as there are nurses, or 250 if there are more. Then fades from other random numbers, and
/// neighbourhoods, help more than a longer fade.
fn most_each(left: u64, nurses: u32) -> u32
    requires { 0 < nurses }
{
    let all = (left / 2).clamp(20_000, 40_000) as u32;
    (all / nurses).max(nurses.min(250)).min(400)
}

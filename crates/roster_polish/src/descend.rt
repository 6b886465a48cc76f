//! The descent: steps until no nurse has a cheaper row.

ghost use Rattle.std.specs.Prelude.{◌≡◌, ◌+◌, ◌<◌, ◌≤◌, ℕ, false, true, not, if◌then◌else◌};
ghost use Rattle.roster_bundle.specs.Limits.{greatest_u64};
ghost use Rattle.roster_instance.specs.Meaning.{nurse_count};
ghost use Rattle.roster_rules.specs.AllowedRows.{best_row};
ghost use Rattle.roster_rules.specs.Improver.{round, same_rows, step};
ghost use Rattle.roster_rules.specs.Penalties.{penalty};
ghost use Rattle.roster_laws.specs.FrozenDays.{FrozenDaysStay};
ghost use Rattle.roster_offers.specs.Workspaces.{fits_space};
ghost use Rattle.roster_row.specs.Recalled.{RecallsSearches};
ghost use Rattle.roster_polish.specs.declared.descend.Pass.TheVariants.{Changed, Stopped, Unchanged};
ghost use Rattle.roster_polish.specs.Budgets.{AreOver, IfEndless};
ghost use Rattle.roster_polish.specs.Descents.{Descends, IsPass};
ghost use Rattle.roster_polish.specs.Polished.{FitsPolish, first_run, first_searches, descent_searches};
ghost use Rattle.roster_laws.specs.Settled.{HasBestRow};
ghost use Rattle.roster_polish.specs.Settled.{Spends, extensions_of};

use crate::searches::Searches;
use crate::space::PolishSpace;
use roster_case::Held;
use roster_offers::{SearchesRows, Workspace};
use roster_rounds::step_or_skip;
use roster_row::LastSearches;
use roster_state::Meter;
use roster_timer::{Deadline, NoClock};
use std::time::Clock;

/// Where a descent begins, the penalty that is to be reached, and the week before which all is frozen.
#[derive(Clone, Copy)]
pub(crate) struct Aim {
    pub(crate) first: usize,
    pub(crate) penalty: u64,
    pub(crate) from: u16,
}

/// A nurse whose step is made, or with whom a pass begins, and the week before which all is frozen.
#[derive(Clone, Copy)]
struct Stepper {
    nurse: usize,
    from: u16,
}

/// How many rounds a descent makes at most.
pub(crate) const MOST_ROUNDS: u32 = 1_000_000;

/// How a pass of steps ended.
#[derive(Clone, Copy, PartialEq, Eq)]
enum Pass {
    /// No step changed the roster.
    Unchanged,
    Changed,
    /// No search was left, or no time.
    Stopped,
}

/// Runs a descent as `improve` does, however long it takes, and returns whether the roster is then settled.
pub(crate) fn descend_first<T: SearchesRows>(
    held: &mut Held,
    from: u16,
    space: &mut PolishSpace<T>,
    meter: &mut Meter,
) -> bool
    requires fits { FitsPolish held.old.case space.old }
    requires room { meter.old + extensions_of held.old.case
        (first_searches held.old.case) ≤ greatest_u64 }
    ensures case { held.new.case ≡ held.old.case }
    ensures roster { held.new.roster ≡ (first_run held.old.case from held.old.roster).roster }
    ensures settled { result ≡ (first_run held.old.case from held.old.roster).is_settled }
    ensures counted { meter.new ≤ meter.old + extensions_of held.old.case
        (descent_searches held.old.case from held.old.roster) }
    ensures fits { FitsPolish held.old.case space.new }
{
    held.case().keeps_limits();
    let PolishSpace { bounds, last, .. } = space;
    let workspace = &mut bounds.rows.workspace;
    let mut searches = Searches {
        left: MOST_ROUNDS as u64 * held.case().nurses() as u64,
        deadline: Deadline::start(NoClock, None),
    };
    let first = Stepper { nurse: 0, from };
    for rounds_before in 0..MOST_ROUNDS {
        if let Pass::Unchanged = make_pass(held, first, &mut searches, workspace, last, meter) {
            return true;
        }
    }
    false
}

/// Makes steps until no nurse has a cheaper row: first from a nurse on, then for all, pass by pass. Each
/// search is one of those that are left. It gives up if none is left, or if the roster is still too far above
/// the penalty that is to be reached. Returns whether the roster is settled.
pub(crate) fn descend<T: SearchesRows, K: Clock + Copy>(
    held: &mut Held,
    aim: Aim,
    searches: &mut Searches<K>,
    workspace: &mut Workspace<T>,
    last: &mut LastSearches,
    meter: &mut Meter,
) -> bool
    requires fits { fits_space held.old.case workspace.old ≡ true }
    requires recalls { RecallsSearches held.old.case last.old }
    requires room { meter.old + extensions_of held.old.case searches.old.left ≤ greatest_u64 }
    ensures case { held.new.case ≡ held.old.case }
    ensures descent { Descends held.old.case aim.from aim.penalty searches.new
        held.old.roster held.new.roster result }
    ensures frozen { FrozenDaysStay held.old.case aim.from held.old.roster held.new.roster }
    ensures no_dearer { penalty held.old.case held.new.roster ≤ penalty held.old.case
        held.old.roster }
    ensures spends { Spends held.old.case meter.old searches.old.left meter.new searches.new.left }
    ensures fits { fits_space held.old.case workspace.new ≡ true }
    ensures recalls { RecallsSearches held.old.case last.new }
{
    let mut first = aim.first;
    for pass in 0..MOST_ROUNDS {
        let stepper = Stepper {
            nurse: first,
            from: aim.from,
        };
        let end = make_pass(held, stepper, searches, workspace, last, meter);
        if first == 0 && end == Pass::Unchanged {
            return true;
        }
        if end == Pass::Stopped || held.total() > aim.penalty.saturating_add(slack(pass)) {
            return false;
        }
        first = 0;
    }
    false
}

/// How far above the penalty a roster may be after a pass. The first one has no limit, since it may begin
/// with a late nurse.
fn slack(pass: u32) -> u64
    ensures first { pass ≡ 0 → result ≡ greatest_u64 }
{
    match pass {
        0 => u64::MAX,
        1 => 60,
        2 => 30,
        _ => 15,
    }
}

/// Makes a step for each nurse from one on.
fn make_pass<T: SearchesRows, K: Clock + Copy>(
    held: &mut Held,
    first: Stepper,
    searches: &mut Searches<K>,
    workspace: &mut Workspace<T>,
    last: &mut LastSearches,
    meter: &mut Meter,
) -> Pass
    requires fits { fits_space held.old.case workspace.old ≡ true }
    requires recalls { RecallsSearches held.old.case last.old }
    requires room { meter.old + extensions_of held.old.case searches.old.left ≤ greatest_u64 }
    ensures case { held.new.case ≡ held.old.case }
    ensures round { IfEndless held.old.case first.nurse searches.old (held.new.roster ≡ round
        held.old.case (best_row held.old.case first.from) held.old.roster) }
    ensures end { IfEndless held.old.case first.nurse searches.old (result ≡ (if same_rows
        held.new.roster held.old.roster then Unchanged else Changed)) }
    ensures steps { IsPass held.old.case first.from first.nurse held.old.roster held.new.roster
        result }
    ensures stopped { result ≡ Stopped → AreOver searches.new }
    ensures falls { result ≡ Changed → penalty held.old.case held.new.roster < penalty held.old.case
        held.old.roster }
    ensures unchanged { result ≡ Unchanged → (n : ℕ) → first.nurse ≤ n →
        n < nurse_count held.old.case → HasBestRow held.old.case first.from held.new.roster n }
    ensures frozen { FrozenDaysStay held.old.case first.from held.old.roster held.new.roster }
    ensures no_dearer { penalty held.old.case held.new.roster ≤ penalty held.old.case
        held.old.roster }
    ensures few { first.nurse ≡ 0 →
        searches.old.left ≤ searches.new.left + nurse_count held.old.case }
    ensures spends { Spends held.old.case meter.old searches.old.left meter.new searches.new.left }
    ensures ends { searches.new.deadline.ends ≡ searches.old.deadline.ends }
    ensures fits { fits_space held.old.case workspace.new ≡ true }
    ensures recalls { RecallsSearches held.old.case last.new }
{
    let mut changed = false;
    for nurse in first.nurse..held.case().nurses() {
        if searches.are_over() {
            return Pass::Stopped;
        }
        let stepper = Stepper {
            nurse,
            from: first.from,
        };
        changed = step_within(held, stepper, searches, workspace, last, meter) || changed;
    }
    if changed {
        Pass::Changed
    } else {
        Pass::Unchanged
    }
}

/// Makes a nurse's step. If it takes a search, that is one of those that are left. Returns whether it changed
/// the roster.
fn step_within<T: SearchesRows, K: Clock + Copy>(
    held: &mut Held,
    stepper: Stepper,
    searches: &mut Searches<K>,
    workspace: &mut Workspace<T>,
    last: &mut LastSearches,
    meter: &mut Meter,
) -> bool
    requires nurse { stepper.nurse < nurse_count held.old.case }
    requires left { 0 < searches.old.left }
    requires fits { fits_space held.old.case workspace.old ≡ true }
    requires recalls { RecallsSearches held.old.case last.old }
    requires room { meter.old + extensions_of held.old.case searches.old.left ≤ greatest_u64 }
    ensures case { held.new.case ≡ held.old.case }
    ensures roster { held.new.roster ≡ step held.old.case (best_row held.old.case stepper.from)
        held.old.roster stepper.nurse }
    ensures changed { result ≡ not (same_rows held.new.roster held.old.roster) }
    ensures frozen { FrozenDaysStay held.old.case stepper.from held.old.roster held.new.roster }
    ensures one { searches.old.left ≤ searches.new.left + 1 }
    ensures spends { Spends held.old.case meter.old searches.old.left meter.new searches.new.left }
    ensures ends { searches.new.deadline.ends ≡ searches.old.deadline.ends }
    ensures fits { fits_space held.old.case workspace.new ≡ true }
    ensures recalls { RecallsSearches held.old.case last.new }
{
    let before = meter.count();
    let step = step_or_skip(held, stepper.nurse, stepper.from, workspace, last, meter);
    searches.take_if(meter.count() > before);
    step.changed
}

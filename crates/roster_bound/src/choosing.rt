//! By which decision a node is branched.

ghost use Rattle.std.specs.Prelude.{◌≡◌, ℕ, ◌<◌, ◌≤◌, IfNone, IfSome, length, slice_index};
ghost use Rattle.roster_instance.specs.Limits.{most_nurses};
ghost use Rattle.roster_instance.specs.Meaning.{day_count, nurse_count};
ghost use Rattle.roster_bound.specs.Branching.{AreChildrenOf};
ghost use Rattle.roster_bound.specs.PooledUses.{AgreeOn, AllAgree, HasNoDecision, IsUsed};
ghost use Rattle.roster_slots.specs.ColumnPool.{FitsPool, pooled_slot};
ghost use Rattle.roster_prices.specs.Workspaces.{FitsBound};
ghost use Rattle.roster_timer.specs.Deadlines.{IsLater, time_of};

use crate::nodes::{Children, Node};
use crate::pooled::move_in_node;
use arrayvec::ArrayVec;
use roster_instance::{Case, Choice, Shift, Skill};
use roster_offers::SearchesRows;
use roster_prices::{BoundWorkspace, Decision, value_by_pooled_rows};
use roster_slots::{ColumnPool, FINE_PER_POINT, OFF_SLOT, ROWS_PER_NURSE};
use roster_timer::Deadline;
use std::time::Clock;

/// A branching decision, and how many uses a nurse's rows have with it or without it, whichever is less.
#[derive(Clone, Copy, Default)]
struct Candidate {
    decision: Decision,
    uses: u32,
}

/// The slot of a row on a day.
#[derive(Clone, Copy)]
struct DaySlot {
    day: u16,
    slot: u16,
}

/// How many decisions are tried at most.
const TRIED: usize = 40;

/// For how many rounds subgradient steps are made before decisions are looked for, and in a trial of one.
const ROUNDS_BEFORE: u16 = 6;

const ROUNDS_IN_TRIAL: u16 = 2;

/// The gain of a child counts up to ten points, so that a decision isn't preferred for leaving hardly a
/// roster in it. A hundredth of a point is added, so that a child without any gain doesn't make all decisions
/// alike.
const MOST_GAIN: u64 = 10 * FINE_PER_POINT as u64;

const LEAST_GAIN: u64 = FINE_PER_POINT as u64 / 100;

/// The children of a node by the decision that promises most by the pooled rows: of those that split the uses
/// of a nurse's rows most evenly, the one for which the product of the children's gains is greatest. None
/// only if all used rows of each nurse are alike, or if the node can take no more decisions. Values above the
/// cap aren't aimed at. Once the time is up, the best decision of those that were tried so far is taken.
pub(crate) fn choose<T: SearchesRows, K: Clock + Copy>(
    case: &Case,
    node: &Node,
    cap: u64,
    deadline: &mut Deadline<K>,
    bounds: &mut BoundWorkspace<T>,
    uses: &mut [u32],
) -> Option<Children>
    requires { FitsBound case.now bounds.old }
    ensures two { IfSome result (λ two. AreChildrenOf node.now two.with two.without) }
    ensures none { IfNone result (HasNoDecision case.now node.now bounds.new.pool uses.new) }
    ensures later { IsLater (time_of deadline.old) (time_of deadline.new) }
    ensures fits { FitsBound case.now bounds.new }
{
    let decisions = node.decisions.as_slice();
    move_in_node(case, decisions, cap, ROUNDS_BEFORE, bounds, uses);
    let tried = candidates(case, &bounds.pool, uses);
    if tried.is_empty() {
        return None;
    }
    bounds.set_dual_prices_aside(case);
    let now = value_by_pooled_rows(case, decisions, bounds, &mut []);
    let mut chosen = None;
    let mut most = 0;
    for candidate in tried.as_slice() {
        if most > 0 && deadline.left_after_step() == 0 {
            break;
        }
        let Some(two) = node.branched_by(candidate.decision) else {
            return None;
        };
        let with = gain_of(case, &two.with, cap, now, bounds);
        let without = gain_of(case, &two.without, cap, now, bounds);
        let score = with.saturating_mul(without);
        if score <= most {
            continue;
        }
        most = score;
        chosen = Some(two);
    }
    bounds.take_dual_prices_back(case);
    chosen
}

/// By how much the value of the pooled rows is greater in a child, by subgradient steps from the dual prices
/// that were set aside.
fn gain_of<T: SearchesRows>(
    case: &Case,
    node: &Node,
    cap: u64,
    now: u64,
    bounds: &mut BoundWorkspace<T>,
) -> u64
    requires { FitsBound case.now bounds.old }
    ensures some { 0 < result }
    ensures fits { FitsBound case.now bounds.new }
{
    bounds.take_dual_prices_back(case);
    let decisions = node.decisions.as_slice();
    let value = move_in_node(case, decisions, cap, ROUNDS_IN_TRIAL, bounds, &mut []);
    value.saturating_sub(now).min(MOST_GAIN) + LEAST_GAIN
}

/// The decisions, one of each nurse and day, that split the uses of the nurses' rows most evenly. None only
/// if there is nothing to split.
fn candidates(case: &Case, pool: &ColumnPool, uses: &[u32]) -> ArrayVec<Candidate, TRIED>
    requires fits { FitsPool case.now pool.now }
    ensures { length result.items ≡ 0 → AllAgree case.now pool.now uses.now }
{
    case.keeps_limits();
    let mut found = ArrayVec::new();
    for nurse in 0..case.nurses() {
        for day in 0..case.days() {
            let candidate = most_even_decision(case, pool, uses, nurse, day);
            if candidate.uses > 0 {
                keep_more_even(&mut found, candidate);
            }
        }
    }
    found
}

/// Adds a decision to those found. If they are as many as are tried, it replaces the least even one, provided
/// that it is more even.
fn keep_more_even(found: &mut ArrayVec<Candidate, TRIED>, candidate: Candidate)
    ensures { 0 < length found.new.items }
{
    if !found.is_full() {
        found.push(candidate);
        return;
    }
    let kept = found.as_mut_slice();
    let mut least = 0;
    for at in 1..kept.len() {
        if kept[at].uses < kept[least].uses {
            least = at;
        }
    }
    if least < kept.len() && kept[least].uses < candidate.uses {
        kept[least] = candidate;
    }
}

/// The decision on a day that splits the uses of a nurse's rows most evenly.
fn most_even_decision(
    case: &Case,
    pool: &ColumnPool,
    uses: &[u32],
    nurse: usize,
    day: u16,
) -> Candidate
    requires nurse { nurse < nurse_count case.now }
    requires few { nurse_count case.now ≤ most_nurses }
    requires day { day < day_count case.now }
    requires fits { FitsPool case.now pool.now }
    ensures { result.uses ≡ 0 → AgreeOn pool.now uses.now nurse day }
{
    let first = ROWS_PER_NURSE * nurse;
    let mut slot = OFF_SLOT;
    let mut even = 0;
    for at in first..first + ROWS_PER_NURSE {
        if uses_of(uses, at) == 0 {
            continue;
        }
        let here = pool.slot_at(case, at, day);
        let less = less_used(case, pool, uses, nurse, DaySlot { day, slot: here });
        if less > even {
            slot = here;
            even = less;
        }
    }
    let decision = Decision {
        nurse: nurse as u16,
        day,
        choice: choice_at(slot),
        does: true,
    };
    Candidate {
        decision,
        uses: even,
    }
}

/// How many uses a nurse's rows have with a slot on a day or without it, whichever is less.
fn less_used(case: &Case, pool: &ColumnPool, uses: &[u32], nurse: usize, on: DaySlot) -> u32
    requires nurse { nurse < nurse_count case.now }
    requires day { on.day < day_count case.now }
    requires fits { FitsPool case.now pool.now }
    ensures { result ≡ 0 → (j k : ℕ) → IsUsed uses.now nurse j → IsUsed uses.now nurse k
        → pooled_slot pool.now j on.day ≡ on.slot → pooled_slot pool.now k on.day ≡ on.slot }
{
    let first = ROWS_PER_NURSE * nurse;
    let mut with: u32 = 0;
    let mut without: u32 = 0;
    for at in first..first + ROWS_PER_NURSE {
        let used = uses_of(uses, at);
        if used == 0 {
            continue;
        }
        if pool.slot_at(case, at, on.day) == on.slot {
            with = with.saturating_add(used);
        } else {
            without = without.saturating_add(used);
        }
    }
    with.min(without)
}

/// The uses of a row; 0 beyond all rows.
fn uses_of(uses: &[u32], at: usize) -> u32
    ensures { result ≡ slice_index uses.now at }
{
    if at < uses.len() { uses[at] } else { 0 }
}

/// The choice of a slot.
fn choice_at(slot: u16) -> Choice {
    if slot == OFF_SLOT {
        return Choice::Off;
    }
    Choice::Work(Shift((slot % 64 / 8) as u8), Skill((slot % 8) as u8))
}

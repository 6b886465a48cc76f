//! The states that differ in their assignments alone, and one more day from all of them at once.

ghost use Rattle.std.specs.Prelude.{◌≡◌, ◌↔◌, ◌+◌, ◌*◌, ◌<◌, ◌≤◌, ◌&&◌, ◌||◌, ℕ, true, nat_le, IfSome, IsNone, Some, is_some};
ghost use Rattle.roster_instance.specs.Meaning.{contract_of, forbids, nurse_count, shift_count};
ghost use Rattle.roster_instance.specs.Sizes.{cap};
ghost use Rattle.roster_rules.specs.Weights.{assignment_weight};
ghost use Rattle.roster_state.specs.Blocks.{AreBlockSteps};
ghost use Rattle.roster_state.specs.Codes.{blocks, code_of, fits_sizes, product, shift_digit, shift_numbered, sizes_of, state_at};
ghost use Rattle.roster_state.specs.MostCosts.{most_of_transition};
ghost use Rattle.roster_state.specs.Reachable.{can_be, excess};
ghost use Rattle.roster_state.specs.Transition.{with_assignments, with_weekends};

use crate::days::NurseDays;
use crate::ranges::Ranges;
use crate::state::{State, shift_digit, shift_numbered};
use crate::totals::dearer_from;
use crate::transition::{cost_apart, next_of};
use roster_instance::{Border, Case, ContractRules, Limits, Past, Shift};
use roster_rules::weights::ASSIGNMENT;
use std::cmp::min;
use std::marker::Model;

/// The states that differ in their assignments alone: place i is the state with i assignments.
#[derive(Clone, Copy)]
pub struct Block {
    /// Place 0.
    pub(crate) state: State,
}

impl Model for Block {
    ghost use Rattle.std.specs.Prelude.{◌≡◌};
    ghost use Rattle.roster_rules.specs.Prefix.{Summary};

    ghost Value = { Summary };

    ghost view = { λ b. b.state };

    ghost inverse = { λ s. record { state = s } };

    ghost invariant = { λ b. b.state.assignments ≡ 0 };
}

impl Block {
    /// The block of a state.
    pub fn of(state: State) -> Block
        ensures { result ≡ with_assignments state 0 }
    {
        Block {
            state: State {
                assignments: 0,
                ..state
            },
        }
    }

    /// The block with a number, which is the number of blocks before it. The places of all blocks together
    /// are all states, in the order of their codes.
    pub fn numbered(ranges: &Ranges, number: u32) -> Block
        requires { number < blocks ranges.now }
        ensures states { (a : ℕ) → a < ranges.now.assignments →
            state_at ranges.now (number * ranges.now.assignments + a) ≡ Some
            (with_assignments result a) }
        ensures fit { (a : ℕ) → a < ranges.now.assignments →
            fits_sizes ranges.now (with_assignments result a) ≡ true }
        ensures fits { fits_sizes ranges.now result ≡ true }
        ensures first { code_of ranges.now result ≡ number * ranges.now.assignments }
    {
        let shift_run = number / ranges.weekends;
        let run = shift_run / ranges.shift_run;
        Block {
            state: State {
                last: shift_numbered(run / ranges.run),
                run: (run % ranges.run) as u16,
                shift_run: (shift_run % ranges.shift_run) as u16,
                assignments: 0,
                weekends: (number % ranges.weekends) as u16,
            },
        }
    }

    /// The block with these runs and without worked weekends, for a last shift given by its number, 0 for
    /// none.
    #[inline(always)]
    pub fn of_runs(last: u32, run: u16, shift_run: u16) -> Block
        requires { last ≤ 256 }
        ensures { result ≡ record {
          last = shift_numbered last;
          run = run;
          shift_run = shift_run;
          assignments = 0;
          weekends = 0;
        } }
    {
        Block {
            state: State {
                last: shift_numbered(last),
                run,
                shift_run,
                assignments: 0,
                weekends: 0,
            },
        }
    }

    /// The last shift as a number, 0 for none.
    #[inline(always)]
    pub fn last_number(&self) -> u32
        ensures number { result ≡ shift_digit self.now.last }
    {
        shift_digit(self.state.last)
    }

    /// The block with that many worked weekends.
    #[inline(always)]
    pub fn with_weekends(self, weekends: u16) -> Block
        ensures { result ≡ with_weekends self weekends }
    {
        Block {
            state: State {
                weekends,
                ..self.state
            },
        }
    }

    /// Whether its states fit.
    pub fn fits(&self, ranges: &Ranges) -> bool
        ensures first { result ≡ fits_sizes ranges.now self.now }
        ensures each { (a : ℕ) → a < ranges.now.assignments →
            fits_sizes ranges.now (with_assignments self.now a) ≡ result }
    {
        self.state.fits(ranges)
    }

    /// The state of a place.
    pub fn state(&self, assignments: u16) -> State
        ensures { result ≡ with_assignments self.now assignments }
    {
        State {
            assignments,
            ..self.state
        }
    }

    /// The number of places of a block: one more than the greater of the least and the greatest total.
    pub fn places(&self, ranges: &Ranges) -> u32
        ensures places { result ≡ ranges.now.assignments }
        ensures within { result ≤ 1000 }
    {
        ranges.assignments()
    }

    /// The code of place 0. That of place i is i more.
    pub fn first(&self, ranges: &Ranges) -> u32
        requires { fits_sizes ranges.now self.now ≡ true }
        ensures first { result ≡ code_of ranges.now self.now }
        ensures each { (a : ℕ) → a < ranges.now.assignments →
            code_of ranges.now (with_assignments self.now a) ≡ result + a }
        ensures within { result + ranges.now.assignments ≤ product ranges.now }
    {
        self.state.code(ranges)
    }
}

impl NurseDays<'_> {
    /// Whether a row can lead to a block's states. After a day off there is no run of a shift. After a worked
    /// day the run of its shift is no longer than the run of working days, except if the history says
    /// otherwise or the latter is at its cap, above which it isn't counted. This holds before the first day
    /// and is kept from day to day, so no row meets a state that a search leaves out for it.
    #[inline(always)]
    pub fn can_be(&self, block: &Block) -> bool
        requires nurse { self.now.nurse < nurse_count self.now.case.now }
        ensures { result ≡ can_be self.now.case.now self.now.nurse block.now }
    {
        let NurseDays { case, nurse, rules } = *self;
        match block.state.last {
            None => block.state.run <= rules.free.cap() && block.state.shift_run == 0,
            Some(shift) => can_work(
                &block.state,
                rules.working,
                case.run_of_shift(shift),
                excess(case.past(nurse)),
            ),
        }
    }
}

/// Whether the runs of a working state are within their caps, and that of the shift is longer than that of
/// the working days by no more than `more` days, unless the working days are at their cap.
#[inline(always)]
fn can_work(state: &State, working: Limits, shift: Limits, more: u32) -> bool
    requires { more ≤ 65535 }
    ensures { result ≡ (nat_le state.now.run (cap working) && nat_le state.now.shift_run (cap shift)
        && (nat_le (cap working) state.now.run || nat_le state.now.shift_run
        (state.now.run + more))) }
{
    let is_full = working.cap() <= state.run;
    state.run <= working.cap()
        && state.shift_run <= shift.cap()
        && (is_full || state.shift_run as u32 <= state.run as u32 + more)
}

/// How many more days the history counts for its last shift than for working days.
#[inline(always)]
fn excess(past: Past) -> u32
    ensures days { result ≡ excess past.border }
    ensures within { result ≤ 65535 }
{
    match past.border {
        Border::Free(_) => 0,
        Border::Working {
            shift_run,
            working_run,
            ..
        } => shift_run.saturating_sub(working_run) as u32,
    }
}

/// What a day does to the places of a block.
#[derive(Clone, Copy)]
pub struct BlockStep {
    /// The block after the day.
    pub next: Block,

    /// Whether each place goes to the next one, except for the last place, which stays; otherwise all stay
    /// where they are.
    pub moves: bool,

    /// What the day costs at each place, in penalty points, without an assignment above the greatest total.
    pub cost: u32,

    /// The first place from which on the day costs 20 points more, for an assignment above the greatest
    /// total. It is the number of places if there is none.
    pub dearer_from: u32,
}

impl BlockStep {
    ghost use Rattle.roster_state.specs.Blocks.{place_after, place_cost};

    /// The place to which a place goes, in a block of that many places.
    #[inline(always)]
    pub fn place_after(&self, places: u32, place: u32) -> u32
        requires { place < places }
        ensures place { result ≡ place_after places self.now.moves place }
        ensures within { result < places }
    {
        if !self.moves {
            return place;
        }
        min(place + 1, places - 1)
    }

    /// What the day costs at a place, in penalty points.
    #[inline(always)]
    pub fn place_cost(&self, place: u32) -> u32
        requires { self.now.cost + assignment_weight ≤ most_of_transition }
        ensures cost { result ≡ place_cost self.now place }
        ensures within { result ≤ most_of_transition }
    {
        if place < self.dearer_from {
            return self.cost;
        }
        self.cost + ASSIGNMENT
    }
}

/// One more day from all states of a block, by the nurse's rules. It counts nothing.
#[inline(always)]
pub(crate) fn block_step(
    case: &Case,
    nurse: usize,
    rules: ContractRules,
    day: u16,
    block: Block,
    shift: Option<Shift>,
) -> Option<BlockStep>
    requires rules { rules ≡ contract_of case.now nurse }
    requires shift { IfSome shift (λ s. s.0 < shift_count case.now) }
    requires fits { fits_sizes (sizes_of case.now nurse) block ≡ true }
    ensures forbidden { IsNone result ↔ forbids case.now.successions block.last shift ≡ true }
    ensures transitions { AreBlockSteps case.now nurse day block shift result }
    ensures next_fits { IfSome result (λ transition. fits_sizes (sizes_of case.now nurse)
        transition.next ≡ true) }
    ensures dearer { IfSome result (λ transition. transition.dearer_from
        ≤ (sizes_of case.now nurse).assignments) }
    ensures within { IfSome result
        (λ transition. transition.cost + assignment_weight ≤ most_of_transition) }
{
    if case.forbids_next(block.state.last, shift) {
        return None;
    }
    Some(BlockStep {
        next: Block::of(next_of(case, nurse, rules, day, block.state, shift)),
        moves: shift.is_some(),
        cost: cost_apart(case, nurse, rules, day, block.state, shift),
        dearer_from: dearer_from(rules.total, shift),
    })
}

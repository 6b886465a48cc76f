//! Which states may be reachable between two days: for each last shift a box, an interval for each other
//! number.

ghost use Rattle.std.specs.Prelude.{◌≡◌, ◌≢◌, ℕ, ◌+◌, ◌<◌, ◌≤◌, false, true, IfSome, min, if◌then◌else◌};
ghost use Rattle.roster_instance.specs.Meaning.{day_count, forbids, nurse_count, shift_count};
ghost use Rattle.roster_rules.specs.Prefix.{Summary};
ghost use Rattle.roster_state.specs.Boxes.{InBox, InInterval, LeadsInto, box_at, empty_box, one_number, one_state};
ghost use Rattle.roster_state.specs.Codes.{shift_digit};
ghost use Rattle.roster_state.specs.Transition.{next_of, run_with, shift_run_with};

use crate::state::{State, shift_digit, shift_numbered};
use roster_instance::{Case, Shift};
use roster_rules::weekends_more;
use std::cmp::{max, min};

/// The numbers from the least to the greatest. None if the least is the greater.
#[derive(Clone, Copy)]
pub struct Interval {
    pub least: u16,
    pub greatest: u16,
}

/// No number.
const NO_NUMBER: Interval = Interval {
    least: u16::MAX,
    greatest: 0,
};

impl Interval {
    /// One number.
    pub fn of(number: u16) -> Interval
        ensures inside { InInterval result number }
        ensures alone { result ≡ one_number number }
    {
        Interval {
            least: number,
            greatest: number,
        }
    }

    /// The bounds of the interval's numbers below a size: the first one, and one past the last.
    #[inline(always)]
    pub fn below(self, size: u32) -> (u32, u32)
        ensures order { (result.0 ≤ result.1) × (result.1 ≤ size) }
        ensures each { (x : ℕ) → InInterval self x → x < size → (result.0 ≤ x) × (x < result.1) }
        ensures only { (x : ℕ) → result.0 ≤ x → x < result.1 → InInterval self x }
        ensures end { result.1 ≡ min (self.greatest + 1) size }
        ensures first { result.0 ≡ min self.least result.1 }
    {
        let end = min(self.greatest as u32 + 1, size);
        (min(self.least as u32, end), end)
    }

    /// Each number plus `more`, up to a cap.
    fn raised(self, more: u32, cap: u16) -> Interval
        requires { more ≤ 1 }
        ensures { (x : ℕ) → InInterval self x → InInterval result (min (x + more) cap) }
    {
        Interval {
            least: min(self.least as u32 + more, cap as u32) as u16,
            greatest: min(self.greatest as u32 + more, cap as u32) as u16,
        }
    }

    /// An interval with the numbers of both.
    fn joined(self, other: Interval) -> Interval
        ensures one { (x : ℕ) → InInterval self x → InInterval result x }
        ensures other { (x : ℕ) → InInterval other x → InInterval result x }
    {
        Interval {
            least: min(self.least, other.least),
            greatest: max(self.greatest, other.greatest),
        }
    }

    /// The same numbers if a run goes on, otherwise 0 alone.
    fn open(self, goes_on: bool) -> Interval
        ensures { (x : ℕ) → InInterval self x → InInterval result (if goes_on then x else 0) }
    {
        if goes_on { self } else { Interval::of(0) }
    }
}

/// The states with one last shift, or none, whose other numbers are in these intervals.
#[derive(Clone, Copy)]
pub struct StateBox {
    pub run: Interval,
    pub shift_run: Interval,
    pub weekends: Interval,
    pub assignments: Interval,
}

/// No state.
pub const EMPTY_BOX: StateBox = StateBox {
    run: NO_NUMBER,
    shift_run: NO_NUMBER,
    weekends: NO_NUMBER,
    assignments: NO_NUMBER,
};

/// The number of boxes: one for each last shift, and one for none.
pub const BOXES: usize = 9;

impl StateBox {
    /// One state.
    fn of(state: &State) -> StateBox
        ensures inside { InBox result state.now }
        ensures alone { result ≡ one_state state.now }
    {
        StateBox {
            run: Interval::of(state.run),
            shift_run: Interval::of(state.shift_run),
            weekends: Interval::of(state.weekends),
            assignments: Interval::of(state.assignments),
        }
    }

    /// Whether no run is in the box, and so no state. Otherwise there is a run, the least.
    fn is_empty(&self) -> bool
        ensures none { result ≡ true → (s : Summary) → InBox self.now s → 1 ≤ 0 }
        ensures some { result ≡ false → InInterval self.now.run self.now.run.least }
    {
        self.run.least > self.run.greatest
    }

    /// A box with the states of both.
    fn joined(&self, other: &StateBox) -> StateBox
        ensures one { (s : Summary) → InBox self.now s → InBox result s }
        ensures other { (s : Summary) → InBox other.now s → InBox result s }
    {
        StateBox {
            run: self.run.joined(other.run),
            shift_run: self.shift_run.joined(other.shift_run),
            weekends: self.weekends.joined(other.weekends),
            assignments: self.assignments.joined(other.assignments),
        }
    }
}

/// The boxes that hold one state and no other.
pub fn boxes_of(state: &State) -> [StateBox; 9]
    requires { shift_digit state.now.last < 9 }
    ensures inside { InBox (box_at result (shift_digit state.now.last)) state.now }
    ensures alone { box_at result (shift_digit state.now.last) ≡ one_state state.now }
    ensures others { (digit : ℕ) → digit ≢ shift_digit state.now.last →
        box_at result digit ≡ empty_box }
{
    let mut boxes = [EMPTY_BOX; BOXES];
    boxes[shift_digit(state.last) as usize] = StateBox::of(state);
    boxes
}

/// Widens the boxes after a day, so that they hold each state to which a shift, or a day off, leads from a
/// state of the boxes before it.
pub fn widen(
    case: &Case,
    nurse: usize,
    day: u16,
    boxes: &[StateBox; 9],
    shift: Option<Shift>,
    after: &mut [StateBox; 9],
)
    requires nurse { nurse < nurse_count case.now }
    requires day { day < day_count case.now }
    requires shift { IfSome shift (λ s. s.0 < shift_count case.now) }
    ensures leads { LeadsInto case.now nurse day boxes.now shift
        (box_at after.new (shift_digit shift)) }
    ensures keeps { (digit : ℕ) (s : Summary) → InBox (box_at after.old digit) s →
        InBox (box_at after.new digit) s }
{
    case.keeps_limits();
    let to = shift_digit(shift) as usize;
    let mut state_box = after[to];
    for digit in 0..case.shifts() as usize + 1 {
        let last = shift_numbered(digit as u32);
        state_box = box_with(case, nurse, day, &state_box, &boxes[digit], last, shift);
    }
    after[to] = state_box;
}

/// A box widened by the states to which a shift or a day off leads from those of another box, with this last
/// shift.
fn box_with(
    case: &Case,
    nurse: usize,
    day: u16,
    state_box: &StateBox,
    before: &StateBox,
    last: Option<Shift>,
    shift: Option<Shift>,
) -> StateBox
    ensures keeps { (s : Summary) → InBox state_box.now s → InBox result s }
    ensures leads { (s : Summary) → s.last ≡ last → InBox before.now s →
        forbids case.now.successions last shift ≡ false →
        InBox result (next_of case.now nurse day s shift) }
{
    if before.is_empty() || case.forbids_next(last, shift) {
        return *state_box;
    }
    state_box.joined(&box_after(case, nurse, day, before, last, shift))
}

/// A box of the states to which a shift or a day off leads from those of a box with this last shift.
fn box_after(
    case: &Case,
    nurse: usize,
    day: u16,
    before: &StateBox,
    last: Option<Shift>,
    shift: Option<Shift>,
) -> StateBox
    ensures { (s : Summary) → s.last ≡ last → InBox before.now s →
        InBox result (next_of case.now nurse day s shift) }
{
    let rules = case.contract_rules(nurse);
    let weekends = weekends_more(day, last.is_some(), shift.is_some());
    let assignments = shift.is_some() as u32;
    StateBox {
        run: run_after(case, nurse, before.run, last, shift),
        shift_run: shift_run_after(case, before.shift_run, last, shift),
        weekends: before.weekends.raised(weekends, rules.weekends),
        assignments: before.assignments.raised(assignments, rules.total.cap()),
    }
}

/// The run of working days, or of days off, after a day.
fn run_after(
    case: &Case,
    nurse: usize,
    run: Interval,
    last: Option<Shift>,
    shift: Option<Shift>,
) -> Interval
    ensures { (s : Summary) → s.last ≡ last → InInterval run s.run →
        InInterval result (run_with case.now nurse s shift) }
{
    let rules = case.contract_rules(nurse);
    match shift {
        Some(_) => run.open(last.is_some()).raised(1, rules.working.cap()),
        None => run.open(last.is_none()).raised(1, rules.free.cap()),
    }
}

/// The run of the last shift after a day.
fn shift_run_after(
    case: &Case,
    shift_run: Interval,
    last: Option<Shift>,
    shift: Option<Shift>,
) -> Interval
    ensures { (s : Summary) → s.last ≡ last → InInterval shift_run s.shift_run →
        InInterval result (shift_run_with case.now s shift) }
{
    let Some(shift) = shift else {
        return Interval::of(0);
    };
    let goes_on = match last {
        Some(last) => last.0 == shift.0,
        None => false,
    };
    shift_run
        .open(goes_on)
        .raised(1, case.run_of_shift(shift).cap())
}

//! The state of a nurse between two days.

ghost use Rattle.std.specs.Prelude.{◌≡◌, ◌↔◌, ◌+◌, ◌*◌, ◌<◌, ◌≤◌, true, IfSome, IsNone};
ghost use Rattle.roster_rules.specs.Prefix.{Summary};
ghost use Rattle.roster_state.specs.Codes.{code_of, fits_sizes, product, shift_digit, shift_numbered, state_at};

use crate::ranges::Ranges;
use roster_instance::Shift;
use std::marker::Model;

/// What the costs of the days to come depend on: the last shift or none, the run of working days or days off,
/// the run of that shift, the assignments and the worked weekends, each up to its cap.
#[derive(Clone, Copy, Default)]
pub struct State {
    pub(crate) last: Option<Shift>,
    pub(crate) run: u16,
    pub(crate) shift_run: u16,
    pub(crate) assignments: u16,
    pub(crate) weekends: u16,
}

impl Model for State {
    ghost use Rattle.roster_rules.specs.Prefix.{Summary};

    ghost Value = { Summary };

    ghost view = { λ s. record {
      last = s.last;
      run = s.run;
      shift_run = s.shift_run;
      assignments = s.assignments;
      weekends = s.weekends;
    } };

    ghost inverse = { λ s. record {
      last = s.last;
      run = s.run;
      shift_run = s.shift_run;
      assignments = s.assignments;
      weekends = s.weekends;
    } };
}

impl State {
    /// The last shift as a number, 0 for none.
    #[inline(always)]
    pub fn last_number(&self) -> u32
        ensures number { result ≡ shift_digit self.now.last }
    {
        shift_digit(self.last)
    }

    /// The run of working days or days off.
    #[inline(always)]
    pub fn run(&self) -> u16
        ensures { result ≡ self.now.run }
    {
        self.run
    }

    /// The run of the last shift, in days.
    #[inline(always)]
    pub fn shift_run(&self) -> u16
        ensures { result ≡ self.now.shift_run }
    {
        self.shift_run
    }

    /// The assignments.
    #[inline(always)]
    pub fn assignments(&self) -> u16
        ensures { result ≡ self.now.assignments }
    {
        self.assignments
    }

    /// The worked weekends.
    #[inline(always)]
    pub fn weekends(&self) -> u16
        ensures { result ≡ self.now.weekends }
    {
        self.weekends
    }

    /// Whether each number is one of its values.
    pub fn fits(&self, ranges: &Ranges) -> bool
        ensures { result ≡ fits_sizes ranges.now self.now }
    {
        shift_digit(self.last) < ranges.last
            && (self.run as u32) < ranges.run
            && (self.shift_run as u32) < ranges.shift_run
            && (self.assignments as u32) < ranges.assignments
            && (self.weekends as u32) < ranges.weekends
    }

    /// The code of the state, below the product of the ranges. States that differ in their assignments alone
    /// have consecutive codes.
    pub fn code(&self, ranges: &Ranges) -> u32
        requires { fits_sizes ranges.now self.now ≡ true }
        ensures code { result ≡ code_of ranges.now self.now }
        ensures within { result < product ranges.now }

        // Each state that fits has a code of its own, and is read back from it.
        ensures one { (other : Summary) → fits_sizes ranges.now other ≡ true →
            code_of ranges.now other ≡ result → other ≡ self.now }
        ensures back { state_at ranges.now result ≡ Some self.now }
    {
        let run = shift_digit(self.last) * ranges.run + self.run as u32;
        let shift_run = run * ranges.shift_run + self.shift_run as u32;
        let weekends = shift_run * ranges.weekends + self.weekends as u32;
        weekends * ranges.assignments + self.assignments as u32
    }

    /// The state with a code, none from the product on.
    pub fn from_code(ranges: &Ranges, code: u32) -> Option<State>
        ensures state { result ≡ state_at ranges.now code }
        ensures none { IsNone result ↔ product ranges.now ≤ code }
        ensures fits { IfSome result (λ state. fits_sizes ranges.now state ≡ true) }
        ensures back { IfSome result (λ state. code_of ranges.now state ≡ code) }
    {
        if code >= ranges.product() {
            return None;
        }
        let weekends = code / ranges.assignments;
        let shift_run = weekends / ranges.weekends;
        let run = shift_run / ranges.shift_run;
        Some(State {
            last: shift_numbered(run / ranges.run),
            run: (run % ranges.run) as u16,
            shift_run: (shift_run % ranges.shift_run) as u16,
            assignments: (code % ranges.assignments) as u16,
            weekends: (weekends % ranges.weekends) as u16,
        })
    }
}

/// The last shift as a number, 0 for none.
pub(crate) fn shift_digit(last: Option<Shift>) -> u32
    ensures number { result ≡ shift_digit last }
    ensures within { result ≤ 256 }
{
    match last {
        Some(shift) => shift.0 as u32 + 1,
        None => 0,
    }
}

pub(crate) fn shift_numbered(number: u32) -> Option<Shift>
    requires { number ≤ 256 }
    ensures { result ≡ shift_numbered number }
{
    if number == 0 {
        return None;
    }
    Some(Shift((number - 1) as u8))
}

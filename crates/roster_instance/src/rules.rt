//! The numbers of contracts, requirements, requests and histories.

ghost use Rattle.std.specs.Prelude.{◌≡◌, ◌≤◌, false, slice_index_or};
ghost use Rattle.roster_instance.specs.Sizes.{cap};
ghost use Rattle.roster_instance.specs.RunLaw.{day_violations};

use crate::choice::Shift;
use std::cmp::max;

/// A least and a greatest number, used as written, even if the least is above the greatest.
#[derive(Clone, Copy, Default)]
pub struct Limits {
    pub least: u16,
    pub greatest: u16,
}

impl Limits {
    /// A run, or a total, above its cap costs the same as one at its cap.
    pub fn cap(self) -> u16
        ensures { result ≡ cap self }
    {
        max(self.least, self.greatest)
    }

    /// What a day adds to the missing and the extra days of the runs of a kind, after a run of `run` days:
    /// one extra day if it is of the kind and the run has its greatest length, or the missing days of the run
    /// if the day ends it.
    pub fn day_violations(self, run: u32, of_kind: bool) -> u32
        ensures violations { result ≡ day_violations self run of_kind }
        ensures within { result ≤ 65536 }
    {
        if of_kind {
            return (self.greatest as u32 <= run) as u32;
        }
        if run == 0 {
            return 0;
        }
        (self.least as u32).saturating_sub(run)
    }
}

/// The minimum and the optimum of a slot, used as written, even if the minimum is above the optimum.
#[derive(Clone, Copy, Default)]
pub struct Need {
    pub minimum: u16,
    pub optimum: u16,
}

/// What a contract asks for: the numbers of assignments, of working days in a row and of days off in a row,
/// the greatest number of worked weekends, and whether a weekend is to be worked whole or not at all.
#[derive(Clone, Copy, Default)]
pub struct ContractRules {
    pub total: Limits,
    pub working: Limits,
    pub free: Limits,
    pub weekends: u16,
    pub whole_weekends: bool,
}

/// What the requests of a nurse for a day name: whether one says `Any`, and for each shift whether one names
/// it.
#[derive(Clone, Copy, Default)]
pub struct DayRequests {
    pub any: bool,
    pub shifts: [bool; 8],
}

impl DayRequests {
    /// Whether a request names this shift itself.
    pub fn names(&self, shift: Shift) -> bool
        ensures { result ≡ slice_index_or self.now.shifts shift.0 false }
    {
        match self.shifts.get(shift.0 as usize) {
            Some(named) => *named,
            None => false,
        }
    }
}

/// The run right before the first Monday.
#[derive(Clone, Copy)]
pub enum Border {
    /// That many days off.
    Free(u16),
    /// The last shift, the days in a row with that shift, and the working days in a row.
    Working {
        shift: Shift,
        shift_run: u16,
        working_run: u16,
    },
}

/// What a nurse did before the first Monday: the last run, the assignments and the worked weekends.
#[derive(Clone, Copy)]
pub struct Past {
    pub border: Border,
    pub assignments: u16,
    pub weekends: u16,
}

//! The ranges of the five numbers of a state.

ghost use Rattle.std.specs.Prelude.{◌≡◌, ◌*◌, ◌<◌, ◌≤◌};
ghost use Rattle.roster_instance.specs.Limits.{most_states};
ghost use Rattle.roster_instance.specs.Meaning.{nurse_count};
ghost use Rattle.roster_instance.specs.Sizes.{state_count};
ghost use Rattle.roster_state.specs.Codes.{blocks, product, sizes_of};

use roster_instance::{Case, MAX_STATES};
use std::cmp::max;
use std::marker::Model;

/// The number of values that each of the five numbers of a nurse's state has: the last shift or none, the run
/// of working days or days off, the run of the shift, the assignments and the worked weekends. Each goes from
/// 0 up to its cap.
#[derive(Clone, Copy)]
pub struct Ranges {
    pub(crate) last: u32,
    pub(crate) run: u32,
    pub(crate) shift_run: u32,
    pub(crate) assignments: u32,
    pub(crate) weekends: u32,
}

impl Model for Ranges {
    ghost use Rattle.roster_state.specs.Codes.{KeepLimits, Sizes};

    ghost Value = { Sizes };

    ghost view = { λ r. record {
      last = r.last;
      run = r.run;
      shift_run = r.shift_run;
      assignments = r.assignments;
      weekends = r.weekends;
    } };

    ghost inverse = { λ z. record {
      last = z.last;
      run = z.run;
      shift_run = z.shift_run;
      assignments = z.assignments;
      weekends = z.weekends;
    } };

    ghost invariant = { λ r. KeepLimits (record {
      last = r.last;
      run = r.run;
      shift_run = r.shift_run;
      assignments = r.assignments;
      weekends = r.weekends;
    }) };
}

impl Ranges {
    /// The ranges of a nurse.
    pub fn of(case: &Case, nurse: usize) -> Ranges
        requires { nurse < nurse_count case.now }
        ensures sizes { result ≡ sizes_of case.now nurse }
        ensures states { product result ≡ state_count case.now nurse }
    {
        // The product of these ranges is the number of states, which a case keeps within the limit.
        let states = case.states(nurse);
        prove!(states <= MAX_STATES);
        let rules = case.contract_rules(nurse);
        Ranges {
            last: case.shifts() as u32 + 1,
            run: max(rules.working.cap(), rules.free.cap()) as u32 + 1,
            shift_run: case.greatest_cap() as u32 + 1,
            assignments: rules.total.cap() as u32 + 1,
            weekends: rules.weekends as u32 + 1,
        }
    }

    /// The number of states, from 1 to 1,048,576.
    pub fn product(&self) -> u32
        ensures product { result ≡ product self.now }
        ensures some { 0 < result }
        ensures within { result ≤ most_states }
    {
        self.last * self.run * self.shift_run * self.assignments * self.weekends
    }

    /// The number of last shifts, none included.
    pub fn last(&self) -> u32
        ensures last { result ≡ self.now.last }
        ensures within { result ≤ 9 }
    {
        self.last
    }

    /// The number of values of the run of working days or days off.
    pub fn run(&self) -> u32
        ensures run { result ≡ self.now.run }
        ensures within { result ≤ 1000 }
    {
        self.run
    }

    /// The number of values of the run of the shift.
    pub fn shift_run(&self) -> u32
        ensures shift_run { result ≡ self.now.shift_run }
        ensures within { result ≤ 1000 }
    {
        self.shift_run
    }

    /// The number of states that differ in their assignments alone. They form a block, and their codes are
    /// consecutive.
    pub fn assignments(&self) -> u32
        ensures assignments { result ≡ self.now.assignments }
        ensures within { result ≤ 1000 }
    {
        self.assignments
    }

    /// The number of values of the worked weekends.
    pub fn weekends(&self) -> u32
        ensures weekends { result ≡ self.now.weekends }
        ensures within { result ≤ 1000 }
        ensures some { 0 < result }
    {
        self.weekends
    }

    /// The number of such blocks.
    pub fn blocks(&self) -> u32
        ensures blocks { result ≡ blocks self.now }
        ensures some { 0 < result }
        ensures all { result * self.now.assignments ≡ product self.now }
        ensures within { product self.now ≤ most_states }
    {
        self.last * self.run * self.shift_run * self.weekends
    }
}

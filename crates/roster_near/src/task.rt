//! What a search in a neighbourhood is given.

use roster_instance::{Case, Choice, Shift, Skill};
use roster_prices::{Decision, NearBase};

/// A roster to improve, and choices that are forbidden: branching decisions against them.
#[derive(Clone, Copy)]
pub(crate) struct Task<'a> {
    pub(crate) base: &'a NearBase<'a>,
    pub(crate) node: &'a [Decision],
}

/// A free nurse whose turn it is, by her index among the free ones.
#[derive(Clone, Copy)]
pub(crate) struct Turn<'a> {
    pub(crate) task: &'a Task<'a>,
    pub(crate) free: usize,
}

impl Task<'_> {
    /// Whether a nurse may make a choice on a day.
    pub(crate) fn allows(&self, nurse: usize, day: usize, choice: Choice) -> bool {
        for decision in self.node {
            if decision.nurse as usize == nurse
                && decision.day as usize == day
                && (decision.choice == choice) != decision.does
            {
                return false;
            }
        }
        true
    }
}

/// Branching decisions against one shift of a nurse on a day, with whichever skill; none if she is off.
#[derive(Clone, Copy)]
pub(crate) struct Forbidden {
    decisions: [Decision; 8],
    count: usize,
}

/// No decision.
const NO_DECISION: Decision = Decision {
    nurse: 0,
    day: 0,
    choice: Choice::Off,
    does: false,
};

impl Forbidden {
    /// Nothing is forbidden.
    pub(crate) fn nothing() -> Forbidden {
        Forbidden {
            decisions: [NO_DECISION; 8],
            count: 0,
        }
    }

    /// A shift of a nurse on a day is forbidden.
    pub(crate) fn shift(case: &Case, nurse: usize, day: u16, shift: Shift) -> Forbidden {
        let mut forbidden = Forbidden::nothing();
        for skill in 0..case.skills() {
            let at = skill as usize;
            if at < 8 {
                forbidden.decisions[at] = Decision {
                    nurse: nurse.min(u16::MAX as usize) as u16,
                    day,
                    choice: Choice::Work(shift, Skill(skill)),
                    does: false,
                };
                forbidden.count = at + 1;
            }
        }
        forbidden
    }

    /// The decisions.
    pub(crate) fn node(&self) -> &[Decision] {
        &self.decisions[..self.count.min(8)]
    }

    /// Whether something is forbidden.
    pub(crate) fn is_some(&self) -> bool {
        self.count > 0
    }
}

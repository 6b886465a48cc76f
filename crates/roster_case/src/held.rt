//! A roster that keeps the hard rules.

ghost use Rattle.std.specs.Prelude.{◌≡◌, ◌*◌, ◌<◌, ◌≤◌, true, [], IfOk, IfErr, OnOk, length};
ghost use Rattle.roster_instance.specs.Limits.{most_shifts, most_skills, most_small};
ghost use Rattle.roster_instance.specs.Meaning.{day_count, nurse_count, optimum, shift_count, skill_count};
ghost use Rattle.roster_instance.specs.Rosters.{cover, fits_case, row_of, with_row};
ghost use Rattle.roster_rules.specs.AllowedRows.{row_keeps};
ghost use Rattle.roster_rules.specs.HardRules.{hard_faults, keeps_hard};
ghost use Rattle.roster_rules.specs.Penalties.{costs_of, penalty, total_cost};
ghost use Rattle.roster_rules.specs.PenaltyBounds.{most_staffing, penalty_limit};
ghost use Rattle.roster_case.specs.Held.{IsHandedBack};
ghost use Rattle.roster_laws.specs.OneRow.{others, rest_of};
ghost use Rattle.roster_laws.specs.Staffing.{shortfall};

use crate::allowed::is_open_row;
use crate::counts::Counts;
use roster_costs::{costs_with, first_hard};
use roster_instance::{Case, Choice, Roster, Shift, Skill, choice_on, row_fits};
use roster_rules::{Costs, HardFault};
use std::alloc::Global;
use std::fmt::{self, Debug, Formatter};
use std::marker::Model;
use thiserror::Error;

/// A case and a roster that keeps the hard rules, with its counts: the cover of each slot, by how many nurses
/// each day is short of its optimums, and what each nurse and the staffing cost. A replaced row changes the
/// counts by that row alone, so nothing is counted anew.
pub struct Held {
    case: Case,
    roster: Roster,
    counts: Counts,
}

// Written by hand, so that a function that drops a held roster has one call to prove, not the drops of all
// its fields.
impl Drop for Held {
    fn drop(self) {
        let Held {
            case: _,
            roster: _,
            counts: _,
        } = self;
    }
}

impl Model for Held {
    ghost use Rattle.roster_case.specs.Held.{HeldRoster, IsHeld};

    ghost Value = { HeldRoster };

    ghost view = { λ h. record { case = h.case; roster = h.roster } };

    ghost invariant = { λ h. IsHeld h.case h.roster h.counts };
}

/// Why a roster isn't held. The case and the roster are handed back.
#[derive(Drop, Error)]
pub enum HeldFault {
    /// The first breach of the hard rules.
    #[error("{0}")]
    Hard(HardFault, Case, Roster),
    /// An allocation was refused.
    #[error("no memory")]
    Memory(Case, Roster),
}

// Written by hand, so that the reason is shown without the case and the roster.
impl Debug for HeldFault {
    fn fmt<W: fmt::Write>(&self, f: &mut Formatter<W>) -> fmt::Result {
        match self {
            HeldFault::Hard(fault, ..) => write!(f, "Hard({fault:?}, ..)"),
            HeldFault::Memory(..) => f.write_str("Memory(..)"),
        }
    }
}

impl Held {
    /// Holds a roster of the case. The hard rules are checked before any memory is taken. A meter of the
    /// search has to be made before this, since it borrows the case mutably.
    ///
    /// # Errors
    ///
    /// `Hard` if a hard rule is broken, with the first breach. `Memory` if an allocation was refused. Both
    /// hand the case and the roster back unchanged.
    pub fn new(alloc: Global, case: Case, roster: Roster) -> Result<Held, HeldFault>
        requires { fits_case case roster ≡ true }
        ensures held { IfOk result (λ held. held ≡ record { case = case; roster = roster }) }
        ensures keeps { OnOk result (hard_faults case roster ≡ []) }
        ensures refused { IfErr result (IsHandedBack case roster) }
    {
        if let Some(fault) = first_hard(&case, &roster) {
            return Err(HeldFault::Hard(fault, case, roster));
        }
        match Counts::of(alloc, &case, &roster) {
            Ok(counts) => Ok(Held {
                case,
                roster,
                counts,
            }),
            Err(_) => Err(HeldFault::Memory(case, roster)),
        }
    }

    /// The case, as it was given.
    pub fn case(&self) -> &Case
        ensures { result.now ≡ self.now.case }
    {
        &self.case
    }

    /// The roster. It fits the case and keeps the hard rules.
    pub fn roster(&self) -> &Roster
        ensures roster { result.now ≡ self.now.roster }
        ensures fits { fits_case self.now.case self.now.roster ≡ true }
        ensures keeps { keeps_hard self.now.case self.now.roster ≡ true }
    {
        &self.roster
    }

    /// A law: the roster fits the case and keeps the hard rules.
    pub fn keeps_rules(&self)
        ensures fits { fits_case self.now.case self.now.roster ≡ true }
        ensures keeps { keeps_hard self.now.case self.now.roster ≡ true }
    {
        self.roster();
    }

    /// The choices of a nurse, one for each day.
    pub fn row(&self, nurse: usize) -> &[Choice]
        ensures row { result.now ≡ row_of self.now.roster nurse }
        ensures days { nurse < nurse_count self.now.case →
            length result.now ≡ day_count self.now.case }
    {
        self.roster.row(nurse)
    }

    /// How many of the other nurses work in a slot.
    pub fn others(&self, nurse: usize, day: u16, shift: Shift, skill: Skill) -> u16
        requires nurse { nurse < nurse_count self.now.case }
        requires day { day < day_count self.now.case }
        requires shift { shift.0 < shift_count self.now.case }
        requires skill { skill.0 < skill_count self.now.case }
        ensures { result ≡ others self.now.roster nurse day shift.0 skill.0 }
    {
        self.case.keeps_limits();
        let own = choice_on(self.roster.row(nurse), day) == Choice::Work(shift, skill);
        self.counts.cover(day, shift, skill) - own as u16
    }

    /// By how many nurses a day is short of its optimums, over all slots. The number is kept, so it isn't
    /// counted anew.
    pub fn shortfall(&self, day: u16) -> u32
        requires { day < day_count self.now.case }
        ensures shortfall { result ≡ shortfall self.now.case (optimum self.now.case day)
            (cover self.now.roster day) }
        ensures within { result ≤ most_shifts * most_skills * most_small }
    {
        self.case.keeps_limits();
        self.counts.shortfall(day)
    }

    /// What the rows of all other nurses cost apart from staffing, in penalty points.
    pub fn rest(&self, nurse: usize) -> u64
        requires { nurse < nurse_count self.now.case }
        ensures { result ≡ rest_of self.now.case self.now.roster nurse }
    {
        self.case.keeps_limits();
        self.counts.rest(nurse)
    }

    /// What the roster costs by each soft rule. The cost of the staffing is kept, so it isn't counted anew.
    pub fn costs(&self) -> Costs
        ensures costs { result ≡ costs_of self.now.case self.now.roster }
        ensures within { total_cost result < penalty_limit }
        ensures staffing { result.s1 ≤ most_staffing }
    {
        costs_with(&self.case, &self.roster, self.counts.staffing_cost)
    }

    /// The roster's penalty, below 2^33.
    pub fn total(&self) -> u64
        ensures total { result ≡ penalty self.now.case self.now.roster }
        ensures within { result < penalty_limit }
    {
        self.case.keeps_limits();
        self.counts.total()
    }

    /// Whether a row is one of the case's (as many choices as days, and shifts and skills in range), and the
    /// roster keeps the hard rules if it replaces the nurse's row.
    pub fn row_keeps(&self, nurse: usize, row: &[Choice]) -> bool
        requires { nurse < nurse_count self.now.case }
        ensures { result ≡ row_keeps self.now.case self.now.roster nurse row.now }
    {
        row_fits(&self.case, row) && is_open_row(self, nurse, row)
    }

    /// Replaces a nurse's row. The case stays.
    pub fn replace_row(&mut self, nurse: usize, row: &[Choice])
        requires nurse { nurse < nurse_count self.old.case }
        requires keeps { row_keeps self.old.case self.old.roster nurse row.now ≡ true }
        ensures { self.new ≡ record {
          case = self.old.case;
          roster = with_row self.old.roster nurse
              row.now;
        } }
    {
        self.counts
            .replace_row(&self.case, &self.roster, nurse, row);
        self.roster.put_row(nurse, row);
    }

    /// Replaces all rows by those of a roster of the case, without taking memory. The case stays.
    pub fn replace_rows(&mut self, rows: &Roster)
        requires fits { fits_case self.old.case rows.now ≡ true }
        requires keeps { keeps_hard self.old.case rows.now ≡ true }
        ensures { self.new ≡ record { case = self.old.case; roster = rows.now } }
    {
        for nurse in 0..rows.nurses() {
            let row = rows.row(nurse);
            if row != self.roster.row(nurse) {
                self.counts
                    .replace_row(&self.case, &self.roster, nurse, row);
                self.roster.put_row(nurse, row);
            }
        }
    }
}

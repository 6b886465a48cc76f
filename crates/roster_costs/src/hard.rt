//! The hard rules: the first breach of a roster.

ghost use Rattle.std.specs.Prelude.{◌≡◌, ◌<◌, ◌≤◌, true, nat_lt, Option};
ghost use Rattle.roster_instance.specs.Faults.{below, fault_if, first_fault};
ghost use Rattle.roster_rules.specs.HardRules.{absence_fault, absence_faults, absences_before, hard_faults, skill_fault, skill_faults, staffing_fault, staffing_faults, succession_fault, succession_faults, successions_before};
ghost use Rattle.roster_rules.specs.declared.fault.HardFault.TheVariants.{H2};
ghost use Rattle.roster_instance.specs.Meaning.{day_count, nurse_count, shift_count, skill_count, minimum};
ghost use Rattle.roster_instance.specs.Rosters.{fits_case};

use crate::staffing::{covers, slot};
use roster_instance::{Case, Roster, Shift, Skill};
use roster_rules::{HardFault, is_able, is_here, last_shift};

/// The first breach of the hard rules: first slots with too few nurses, by day, shift and skill; then
/// forbidden successions, by nurse and day; then skills that a nurse doesn't have, by nurse and day; then
/// work of absent nurses, by nurse and day. None if the roster keeps them all.
#[tactic(auto, using(roster_rules::proofs::HardLemmas::first_fault_of_both), unfolding(roster_rules::specs::HardRules::hard_faults))]
pub fn first_hard(case: &Case, roster: &Roster) -> Option<HardFault>
    requires { fits_case case.now roster.now ≡ true }
    ensures { result ≡ first_fault (hard_faults case.now roster.now) }
{
    match first_understaffed(case, roster) {
        Some(fault) => Some(fault),
        None => match first_succession(case, roster) {
            Some(fault) => Some(fault),
            None => match first_unskilled(case, roster) {
                Some(fault) => Some(fault),
                None => first_absent(case, roster),
            },
        },
    }
}

// ---- staffing

fn first_understaffed(case: &Case, roster: &Roster) -> Option<HardFault>
    requires { fits_case case.now roster.now ≡ true }
    ensures { result ≡ first_fault (staffing_faults case.now roster.now) }
{
    first_understaffed_before(case, roster, case.days())
}

/// The first slot with too few nurses on the first days, by day, shift and skill.
#[tactic(auto, using(roster_rules::proofs::HardLemmas::below_more))]
fn first_understaffed_before(case: &Case, roster: &Roster, days: u16) -> Option<HardFault>
    requires fitting { fits_case case.now roster.now ≡ true }
    requires days { days ≤ day_count case.now }
    ensures { result ≡ first_fault (below days (λ d. below (shift_count case.now)
        (λ s. below (skill_count case.now) (λ k. staffing_fault case.now roster.now d s k)))) }
{
    for day in 0..days {
        if let Some(fault) = understaffed_on(case, roster, day) {
            return Some(fault);
        }
    }
    None
}

/// The first slot with too few nurses on a day, by shift and skill. The day's nurses are counted once.
pub fn understaffed_on(case: &Case, roster: &Roster, day: u16) -> Option<HardFault>
    requires { fits_case case.now roster.now ≡ true }
    ensures { result ≡ first_fault (below (shift_count case.now)
        (λ s. below (skill_count case.now) (λ k. staffing_fault case.now roster.now day s k))) }
{
    let (shifts, skills) = (case.shifts(), case.skills());
    let covers = covers(case, roster, day);
    for shift in 0..shifts {
        for skill in 0..skills {
            let have = covers[slot(Shift(shift), Skill(skill))];
            if let Some(fault) = understaffed(case, day, Shift(shift), Skill(skill), have) {
                return Some(fault);
            }
        }
    }
    None
}

/// The breach if a slot has fewer nurses than its minimum.
fn understaffed(case: &Case, day: u16, shift: Shift, skill: Skill, have: u16) -> Option<HardFault>
    ensures { result ≡ first_fault (fault_if (nat_lt have (minimum case.now day shift.0 skill.0))
        (H2 day shift skill have (minimum case.now day shift.0 skill.0))) }
{
    let need = case.need(day, shift, skill).minimum;
    if have >= need {
        return None;
    }
    Some(HardFault::H2 {
        day,
        shift,
        skill,
        have,
        need,
    })
}

// ---- successions

fn first_succession(case: &Case, roster: &Roster) -> Option<HardFault>
    requires { fits_case case.now roster.now ≡ true }
    ensures { result ≡ first_fault (succession_faults case.now roster.now) }
{
    first_succession_before(case, roster, case.days())
}

/// The first forbidden succession on the first days, by nurse and day.
#[tactic(auto, using(roster_rules::proofs::HardLemmas::below_more))]
pub fn first_succession_before(case: &Case, roster: &Roster, days: u16) -> Option<HardFault>
    requires fitting { fits_case case.now roster.now ≡ true }
    requires days { days ≤ day_count case.now }
    ensures { result ≡ first_fault (successions_before case.now roster.now days) }
{
    for nurse in 0..case.nurses() {
        if let Some(fault) = succession_of(case, roster, nurse, days) {
            return Some(fault);
        }
    }
    None
}

/// The first forbidden succession of a nurse on the first days, the history's last shift included.
fn succession_of(case: &Case, roster: &Roster, nurse: usize, days: u16) -> Option<HardFault>
    requires fitting { fits_case case.now roster.now ≡ true }
    requires within { nurse < nurse_count case.now }
    requires days { days ≤ day_count case.now }
    ensures { result ≡ first_fault (below days
        (λ d. succession_fault case.now roster.now nurse d)) }
{
    let row = roster.row(nurse);
    let mut last = last_shift(case.past(nurse).border);
    for day in 0..days {
        let shift = row[day as usize].shift();
        if case.forbids_next(last, shift) {
            return Some(HardFault::H3 { nurse, day });
        }
        last = shift;
    }
    None
}

// ---- skills

/// The first day, by nurse, on which a nurse doesn't have the skill.
#[tactic(auto, using(roster_rules::proofs::HardLemmas::below_more))]
pub fn first_unskilled(case: &Case, roster: &Roster) -> Option<HardFault>
    requires { fits_case case.now roster.now ≡ true }
    ensures { result ≡ first_fault (skill_faults case.now roster.now) }
{
    for nurse in 0..case.nurses() {
        if let Some(fault) = unskilled_of(case, roster, nurse) {
            return Some(fault);
        }
    }
    None
}

#[tactic(auto, using(roster_rules::proofs::HardLemmas::below_more))]
fn unskilled_of(case: &Case, roster: &Roster, nurse: usize) -> Option<HardFault>
    requires fitting { fits_case case.now roster.now ≡ true }
    requires within { nurse < nurse_count case.now }
    ensures { result ≡ first_fault (below (day_count case.now)
        (λ d. skill_fault case.now roster.now nurse d)) }
{
    let row = roster.row(nurse);
    let skills = case.skills_of(nurse);
    for day in 0..case.days() {
        if !is_able(skills, row[day as usize]) {
            return Some(HardFault::H4 { nurse, day });
        }
    }
    None
}

// ---- absences

fn first_absent(case: &Case, roster: &Roster) -> Option<HardFault>
    requires { fits_case case.now roster.now ≡ true }
    ensures { result ≡ first_fault (absence_faults case.now roster.now) }
{
    first_absent_before(case, roster, case.days())
}

/// The first work of an absent nurse on the first days, by nurse and day.
#[tactic(auto, using(roster_rules::proofs::HardLemmas::below_more))]
pub fn first_absent_before(case: &Case, roster: &Roster, days: u16) -> Option<HardFault>
    requires fitting { fits_case case.now roster.now ≡ true }
    requires days { days ≤ day_count case.now }
    ensures { result ≡ first_fault (absences_before case.now roster.now days) }
{
    for nurse in 0..case.nurses() {
        if let Some(fault) = absent_of(case, roster, nurse, days) {
            return Some(fault);
        }
    }
    None
}

#[tactic(auto, using(roster_rules::proofs::HardLemmas::below_more))]
fn absent_of(case: &Case, roster: &Roster, nurse: usize, days: u16) -> Option<HardFault>
    requires fitting { fits_case case.now roster.now ≡ true }
    requires within { nurse < nurse_count case.now }
    requires days { days ≤ day_count case.now }
    ensures { result ≡ first_fault (below days (λ d. absence_fault case.now roster.now nurse d)) }
{
    let row = roster.row(nurse);
    for day in 0..days {
        if !is_here(case, nurse, day, row[day as usize]) {
            return Some(HardFault::Absent { nurse, day });
        }
    }
    None
}

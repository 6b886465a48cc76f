//! Breaches that no change of the days that aren't frozen can repair.

ghost use Rattle.std.specs.Prelude.{◌≡◌, ◌<◌, ◌&&◌, not, true};
ghost use Rattle.roster_instance.specs.Faults.{first_fault};
ghost use Rattle.roster_instance.specs.Meaning.{day_count, forbids, nurse_count};
ghost use Rattle.roster_instance.specs.Rosters.{fits_case, row_of};
ghost use Rattle.roster_rules.specs.AllowedRows.{is_frozen};
ghost use Rattle.roster_rules.specs.HardRules.{is_here_on};
ghost use Rattle.roster_costs.specs.Irreparable.{frozen_absences, frozen_absences_of, frozen_minimums, frozen_minimums_on, frozen_successions, frozen_successions_of, is_frozen_for_all, irreparable};

use crate::hard::{first_unskilled, understaffed_on};
use roster_instance::{Case, Roster, Shift, choice_on};
use roster_rules::{HardFault, is_frozen, is_here, last_shift};

/// The first irreparable breach: a skill that a nurse doesn't have; or else, on frozen days, a forbidden
/// succession, work of an absent nurse, or a minimum that isn't reached on a day that is frozen for all.
pub fn first_irreparable(case: &Case, roster: &Roster, from: u16) -> Option<HardFault>
    requires { fits_case case.now roster.now ≡ true }
    ensures { result ≡ first_fault (irreparable case.now from roster.now) }
{
    match first_unskilled(case, roster) {
        Some(fault) => Some(fault),
        None => match first_frozen_succession(case, roster, from) {
            Some(fault) => Some(fault),
            None => match first_frozen_absence(case, roster, from) {
                Some(fault) => Some(fault),
                None => first_frozen_minimum(case, roster, from),
            },
        },
    }
}

/// The first forbidden succession on two frozen days, by nurse and day. The history counts as a frozen day
/// before the first.
#[tactic(auto, using(roster_rules::proofs::HardLemmas::below_more))]
fn first_frozen_succession(case: &Case, roster: &Roster, from: u16) -> Option<HardFault>
    requires { fits_case case.now roster.now ≡ true }
    ensures { result ≡ first_fault (frozen_successions case.now from roster.now) }
{
    for nurse in 0..case.nurses() {
        if let Some(fault) = frozen_succession_of(case, roster, from, nurse) {
            return Some(fault);
        }
    }
    None
}

fn frozen_succession_of(case: &Case, roster: &Roster, from: u16, nurse: usize) -> Option<HardFault>
    requires fitting { fits_case case.now roster.now ≡ true }
    requires within { nurse < nurse_count case.now }
    ensures { result ≡ first_fault (frozen_successions_of case.now from roster.now nurse
        (day_count case.now)) }
{
    let row = roster.row(nurse);
    let mut last = last_shift(case.past(nurse).border);
    let mut stays = true;
    for day in 0..case.days() {
        let shift = row[day as usize].shift();
        let frozen = is_frozen(case, from, nurse, day);
        if is_forbidden(case, stays, last, frozen, shift) {
            return Some(HardFault::H3 { nurse, day });
        }
        last = shift;
        stays = frozen;
    }
    None
}

/// Whether a day and the day before it both stay, and its shift may not follow the one before.
fn is_forbidden(
    case: &Case,
    stays: bool,
    last: Option<Shift>,
    frozen: bool,
    shift: Option<Shift>,
) -> bool
    ensures { result ≡ (stays && frozen && forbids case.now.successions last shift) }
{
    stays && frozen && case.forbids_next(last, shift)
}

/// The first work of an absent nurse on a frozen day, by nurse and day.
#[tactic(auto, using(roster_rules::proofs::HardLemmas::below_more))]
fn first_frozen_absence(case: &Case, roster: &Roster, from: u16) -> Option<HardFault>
    requires { fits_case case.now roster.now ≡ true }
    ensures { result ≡ first_fault (frozen_absences case.now from roster.now) }
{
    for nurse in 0..case.nurses() {
        if let Some(fault) = frozen_absence_of(case, roster, from, nurse) {
            return Some(fault);
        }
    }
    None
}

fn frozen_absence_of(case: &Case, roster: &Roster, from: u16, nurse: usize) -> Option<HardFault>
    requires fitting { fits_case case.now roster.now ≡ true }
    requires within { nurse < nurse_count case.now }
    ensures { result ≡ first_fault (frozen_absences_of case.now from roster.now nurse
        (day_count case.now)) }
{
    for day in 0..case.days() {
        if works_absent(case, roster, from, nurse, day) {
            return Some(HardFault::Absent { nurse, day });
        }
    }
    None
}

/// Whether the nurse works on a frozen day of an absence.
fn works_absent(case: &Case, roster: &Roster, from: u16, nurse: usize, day: u16) -> bool
    requires { nurse < nurse_count case.now }
    ensures { result ≡ (is_frozen case.now from nurse day && not
        (is_here_on case.now nurse (row_of roster.now nurse) day)) }
{
    let stays = is_frozen(case, from, nurse, day);
    stays && !is_here(case, nurse, day, choice_on(roster.row(nurse), day))
}

/// The first minimum that isn't reached on a day that is frozen for all, by day, shift and skill.
#[tactic(auto, using(roster_rules::proofs::HardLemmas::below_more))]
fn first_frozen_minimum(case: &Case, roster: &Roster, from: u16) -> Option<HardFault>
    requires { fits_case case.now roster.now ≡ true }
    ensures { result ≡ first_fault (frozen_minimums case.now from roster.now) }
{
    for day in 0..case.days() {
        if let Some(fault) = frozen_minimum_on(case, roster, from, day) {
            return Some(fault);
        }
    }
    None
}

fn frozen_minimum_on(case: &Case, roster: &Roster, from: u16, day: u16) -> Option<HardFault>
    requires { fits_case case.now roster.now ≡ true }
    ensures { result ≡ first_fault (frozen_minimums_on case.now from roster.now day) }
{
    if is_frozen_for_all(case, from, day) {
        return understaffed_on(case, roster, day);
    }
    None
}

/// Whether a day is frozen for each nurse.
fn is_frozen_for_all(case: &Case, from: u16, day: u16) -> bool
    ensures { result ≡ is_frozen_for_all case.now from day }
{
    for nurse in 0..case.nurses() {
        if !is_frozen(case, from, nurse, day) {
            return false;
        }
    }
    true
}

//! The case: what an instance says, apart from the roster.

ghost use Rattle.std.specs.Prelude.{◌≡◌, ◌≢◌, ◌+◌, ◌*◌, ◌<◌, ◌≤◌, ℕ, [], Some, IfOk, IfErr, IfSome, OnOk, flat_map, length, map, slice_index_or};
ghost use Rattle.std.specs.List.{enumerate_from};
ghost use Rattle.roster_bundle.specs.SmallNumbers.{SaysSmallNumbers};
ghost use Rattle.roster_bundle.specs.declared.bundle.Nurse.{Nurse};
ghost use Rattle.roster_instance.specs.CaseParts.{case_of, faults_after, HasFewStates, IsScenarioOf};
ghost use Rattle.roster_instance.specs.Bundles.{meaning_of, past_meant, week_meant};
ghost use Rattle.roster_instance.specs.Checking.{IsFirst};
ghost use Rattle.roster_instance.specs.Faults.{first_fault};
ghost use Rattle.roster_instance.specs.Limits.{most_days, most_keep, most_nurses, most_shifts, most_skills, most_small, most_states, most_weeks};
ghost use Rattle.roster_instance.specs.Meaning.{contract_of, day_count, has_off_request, is_absent, is_fixed, keeping, last_shift, need, nurse_at, nurse_count, nurse_name, past_of, run_of_shift, shift_count, skill_count, week_count, wishes_of, forbids};
ghost use Rattle.roster_instance.specs.Choices.{shift_of};
ghost use Rattle.roster_instance.specs.Names.{find_name};
ghost use Rattle.roster_instance.specs.Rosters.{choice_on, row_of};
ghost use Rattle.roster_instance.specs.Refusals.{case_faults, state_fault};
ghost use Rattle.roster_instance.specs.Sizes.{choice_count, greatest_of, state_count, cap};
ghost use Rattle.roster_instance.specs.Small.{AreSmall, HasSmallNumbers, HasSmallRules, IsSmallNeed, IsSmallPast};

use crate::choice::{Shift, Skill};
use crate::fault::CaseFault;
use crate::history::past_of;
use crate::roster::{Roster, choice_on};
use crate::rules::{Border, ContractRules, DayRequests, Limits, Need, Past};
use crate::scenario::Scenario;
use crate::sizes::{contract_of, greatest_cap, state_count};
use crate::table::Table;
use crate::week::{Week, weeks_of};
use roster_bundle::{Bundle, Nurse};
use std::alloc::{AllocError, AllocFailed, Global};
use std::marker::Model;

/// The most states in the search for a nurse.
pub const MAX_STATES: u32 = 1_048_576;

/// What the four texts of an instance say, apart from the roster. Shifts, skills, contracts and nurses are
/// numbered from 0 in the order of the scenario, and days from 0, the first Monday.
pub struct Case {
    scenario: Scenario,
    past: Table<Past>,
    weeks: Vec<Week>,
    // The roster that is kept, and the points for each day that differs from it.
    base: Roster,
    keep: u16,
}

// Written by hand, so that a function that drops a case has one call to prove, not the drops of all its
// fields.
impl Drop for Case {
    fn drop(self) {
        let Case {
            scenario: _,
            past: _,
            weeks: _,
            base: _,
            keep: _,
        } = self;
    }
}

impl Model for Case {
    ghost use Rattle.roster_instance.specs.CaseParts.{AreCaseParts, case_with};
    ghost use Rattle.roster_instance.specs.Meaning.{Meaning};

    ghost Value = { Meaning };

    ghost view = { λ c. case_with c.scenario c.past c.weeks.items c.base c.keep };

    ghost invariant = { λ c. AreCaseParts c.scenario c.past c.weeks.items c.base c.keep };
}

impl Case {
    /// The meaning of the four texts, if nothing in them but the solutions is refused. The bundle has to be
    /// the one that these bytes spell; then it has as many weeks as its scenario says, and its numbers are
    /// from 0 to 999. The case keeps copies of all names.
    ///
    /// # Errors
    ///
    /// The first fault in the order of the text: a name that is repeated, unknown or reserved, a section of
    /// another instance, a count out of limits, a history that doesn't fit, a repeated requirement. After
    /// these a nurse with too many states. `Memory` if an allocation was refused.
    pub fn from_bundle(alloc: Global, bundle: &Bundle, source: &[u8]) -> Result<Case, CaseFault>
        requires weeks { length bundle.now.week_data ≡ bundle.now.scenario.weeks.value }
        requires small { SaysSmallNumbers bundle.now }

        // A case that is returned has no fault, and means what the texts say.
        ensures meant { IfOk result (λ case. case ≡ meaning_of source.now bundle.now) }
        ensures taken { OnOk result (case_faults source.now bundle.now ≡ []) }
        ensures weeks { IfOk result (λ case. week_count case ≡ bundle.now.scenario.weeks.value) }

        // Otherwise the result is the first fault, apart from want of memory.
        ensures refused { IfErr result (λ f. f ≢ CaseFault.Memory →
            first_fault (case_faults source.now bundle.now) ≡ Some f) }
    {
        let scenario = Scenario::from_bundle(alloc, bundle, source)?;
        let later = read_history_and_weeks(alloc, source, bundle, &scenario)?;
        Ok(Case {
            scenario,
            past: later.past,
            weeks: later.weeks,
            base: Roster::empty(alloc),
            keep: 0,
        })
    }

    /// The same case, in which each day of a nurse costs `keep` points more if its shift, or that it is off,
    /// differs from this roster. At 0 points it is the case itself. Otherwise the case has a copy of the
    /// roster, made by one allocation for the list and one for each nurse, which replaces a roster that was
    /// kept before.
    ///
    /// # Errors
    ///
    /// An allocation was refused. The case is handed back unchanged.
    pub fn keeping(
        self,
        alloc: Global,
        roster: &Roster,
        keep: u16,
    ) -> Result<Case, AllocFailed<Case>>
        requires { keep ≤ most_keep }
        ensures kept { IfOk result (λ case. case ≡ keeping self roster.now keep) }
        ensures refused { IfErr result (λ failed. failed.value ≡ self) }
    {
        if keep == 0 {
            return Ok(self);
        }
        let Ok(base) = roster.copy(alloc) else {
            return Err(AllocFailed { value: self });
        };
        let mut case = self;
        case.base = base;
        case.keep = keep;
        Ok(case)
    }

    /// The scenario, in which names are looked up.
    pub(crate) fn scenario(&self) -> &Scenario
        ensures name { result.now.name.items ≡ self.now.name }
        ensures nurses { result.now.nurses ≡ self.now.nurse_names }
        ensures shifts { result.now.shifts ≡ self.now.shift_names }
        ensures skills { result.now.skills ≡ self.now.skill_names }
        ensures weeks { result.now.weeks ≡ week_count self.now }
        ensures small { HasSmallNumbers self.now }
    {
        &self.scenario
    }

    /// A law: the limits that every case keeps, on which the bounds of sums over it rest.
    pub fn keeps_limits(&self)
        ensures small { HasSmallNumbers self.now }
        ensures weeks { week_count self.now ≤ most_weeks }
        ensures shifts { shift_count self.now ≤ most_shifts }
        ensures skills { skill_count self.now ≤ most_skills }
        ensures nurses { nurse_count self.now ≤ most_nurses }
    {
        self.scenario();
        self.weeks();
        self.shifts();
        self.skills();
        self.nurses();
    }

    /// A law: no nurse's search has more states than the limit, and no nurse has more choices on a day than
    /// to be off and to work each shift with each skill.
    pub fn keeps_sizes(&self)
        ensures states { HasFewStates self.now }
        ensures choices { (n : ℕ) → choice_count self.now n ≤ 1 + most_shifts * most_skills }
    {
        let _ = &self.scenario;
    }

    // ---- sizes

    /// The number of weeks, at least 1.
    pub fn weeks(&self) -> u16
        ensures count { result ≡ week_count self.now }
        ensures some { 0 < result }
        ensures within { result ≤ most_weeks }
    {
        self.weeks.len() as u16
    }

    /// The number of days, 7 for each week.
    pub fn days(&self) -> u16
        ensures count { result ≡ day_count self.now }
        ensures within { result ≤ most_days }
    {
        7 * self.weeks()
    }

    /// The number of nurses, at least 1.
    pub fn nurses(&self) -> usize
        ensures count { result ≡ nurse_count self.now }
        ensures some { 0 < result }
        ensures within { result ≤ most_nurses }
    {
        self.scenario.nurses.len()
    }

    /// The number of shifts, from 1 to 8.
    pub fn shifts(&self) -> u8
        ensures count { result ≡ shift_count self.now }
        ensures some { 0 < result }
        ensures within { result ≤ most_shifts }
    {
        self.scenario.shifts.len() as u8
    }

    /// The number of skills, from 1 to 8.
    pub fn skills(&self) -> u8
        ensures count { result ≡ skill_count self.now }
        ensures some { 0 < result }
        ensures within { result ≤ most_skills }
    {
        self.scenario.skills.len() as u8
    }

    // ---- names

    /// The name of the scenario.
    pub fn name(&self) -> &[u8]
        ensures { result.now ≡ self.now.name }
    {
        self.scenario.name.as_slice()
    }

    pub fn shift_name(&self, shift: Shift) -> &[u8]
        requires { shift.0 < shift_count self.now }
        ensures { result.now ≡ slice_index_or self.now.shift_names shift.0 [] }
    {
        self.scenario.shifts.name(shift.0 as usize)
    }

    pub fn skill_name(&self, skill: Skill) -> &[u8]
        requires { skill.0 < skill_count self.now }
        ensures { result.now ≡ slice_index_or self.now.skill_names skill.0 [] }
    {
        self.scenario.skills.name(skill.0 as usize)
    }

    /// The name of the contract with a number.
    pub fn contract_name(&self, contract: usize) -> &[u8]
        requires { contract < length self.now.contract_names }
        ensures { result.now ≡ slice_index_or self.now.contract_names contract [] }
    {
        self.scenario.contracts.name(contract)
    }

    pub fn nurse_name(&self, nurse: usize) -> &[u8]
        requires { nurse < nurse_count self.now }
        ensures { result.now ≡ nurse_name self.now nurse }
    {
        self.scenario.nurses.name(nurse)
    }

    /// The number of the nurse with a name, compared byte for byte.
    pub fn find_nurse(&self, name: &[u8]) -> Option<usize>
        ensures found { result ≡ find_name self.now.nurse_names name.now }
        ensures within { IfSome result (λ nurse. nurse < nurse_count self.now) }
    {
        self.scenario.nurses.find(name)
    }

    // ---- what is asked for

    /// The minimum and the optimum of a slot of the case, each at most 999; (0,0) if no line of the week has
    /// them.
    pub fn need(&self, day: u16, shift: Shift, skill: Skill) -> Need
        ensures limits { result ≡ need self.now day shift.0 skill.0 }
        ensures small { IsSmallNeed result }
    {
        let index = 8 * shift.0 as usize + skill.0 as usize;
        match self.weeks.get(day as usize / 7) {
            Some(week) => week.need(index, day as usize % 7),
            None => Need::default(),
        }
    }

    /// The least and the greatest number of days in a row of a shift, each at most 999.
    pub fn run_of_shift(&self, shift: Shift) -> Limits
        ensures limits { result ≡ run_of_shift self.now shift.0 }
        ensures small { AreSmall result }
    {
        match self.scenario.runs.get(shift.0 as usize) {
            Some(run) => *run,
            None => Limits::default(),
        }
    }

    /// Whether a shift forbids another on the next day.
    pub fn forbids(&self, shift: Shift, next: Shift) -> bool
        ensures { result ≡ forbids self.now.successions (Some shift) (Some next) }
    {
        match self.scenario.successions.get(shift.0 as usize) {
            Some(forbidden) => match forbidden.get(next.0 as usize) {
                Some(forbidden) => *forbidden,
                None => false,
            },
            None => false,
        }
    }

    /// Whether the shift of one day, if there is one, forbids that of the next day, if there is one.
    pub fn forbids_next(&self, last: Option<Shift>, next: Option<Shift>) -> bool
        ensures { result ≡ forbids self.now.successions last next }
    {
        match (last, next) {
            (Some(last), Some(next)) => self.forbids(last, next),
            _ => false,
        }
    }

    /// Whether an off request names a nurse, a day and a shift of the case; one with `Any` names every shift.
    pub fn has_off_request(&self, nurse: usize, day: u16, shift: Shift) -> bool
        requires { nurse < nurse_count self.now }
        ensures { result ≡ has_off_request self.now nurse day shift.0 }
    {
        match self.weeks.get(day as usize / 7) {
            Some(week) => {
                let requests = week.off_requests(7 * nurse + day as usize % 7);
                requests.any || requests.names(shift)
            }
            None => false,
        }
    }

    /// What the wishes to work of a nurse name for a day.
    pub fn wishes(&self, nurse: usize, day: u16) -> DayRequests
        requires { nurse < nurse_count self.now }
        ensures { result ≡ wishes_of self.now nurse day }
    {
        match self.weeks.get(day as usize / 7) {
            Some(week) => week.wishes(7 * nurse + day as usize % 7),
            None => DayRequests::default(),
        }
    }

    /// Whether a nurse is absent on a day.
    pub fn is_absent(&self, nurse: usize, day: u16) -> bool
        requires { nurse < nurse_count self.now }
        ensures { result ≡ is_absent self.now nurse day }
    {
        match self.weeks.get(day as usize / 7) {
            Some(week) => week.is_absent(7 * nurse + day as usize % 7),
            None => false,
        }
    }

    /// Whether a nurse's choice on a day stays as the solution has it.
    pub fn is_fixed(&self, nurse: usize, day: u16) -> bool
        requires { nurse < nurse_count self.now }
        ensures { result ≡ is_fixed self.now nurse day }
    {
        match self.weeks.get(day as usize / 7) {
            Some(week) => week.is_fixed(7 * nurse + day as usize % 7),
            None => false,
        }
    }

    // ---- a roster that is kept

    /// The points for each day that differs from the roster that is kept; 0 if none is kept.
    pub fn keep(&self) -> u16
        ensures points { result ≡ self.now.keep }
        ensures within { result ≤ most_keep }
    {
        self.keep
    }

    /// The shift of a nurse on a day in the roster that is kept; none if no roster is kept.
    pub fn kept_shift(&self, nurse: usize, day: u16) -> Option<Shift>
        ensures { result ≡ shift_of (choice_on (row_of self.now.base nurse) day) }
    {
        choice_on(self.base.row(nurse), day).shift()
    }

    // ---- nurses

    /// The number of a nurse's contract.
    pub fn contract(&self, nurse: usize) -> usize
        ensures { result ≡ (nurse_at self.now nurse).contract }
    {
        match self.scenario.nurse_rules.get(nurse) {
            Some(rules) => rules.contract(),
            None => 0,
        }
    }

    /// What a nurse's contract asks for; each number is at most 999.
    pub fn contract_rules(&self, nurse: usize) -> ContractRules
        ensures rules { result ≡ contract_of self.now nurse }
        ensures small { HasSmallRules result }
    {
        contract_of(&self.scenario, nurse)
    }

    /// A nurse's skills, in the order of the nurse's line; at most 8.
    pub fn skills_of(&self, nurse: usize) -> &[Skill]
        ensures skills { result.now ≡ (nurse_at self.now nurse).skills }
        ensures few { length result.now ≤ most_skills }
    {
        match self.scenario.nurse_rules.get(nurse) {
            Some(rules) => rules.skills(),
            None => &[],
        }
    }

    /// What a nurse did before the first Monday; each number is at most 999. The last shift is one of the
    /// case's.
    pub fn past(&self, nurse: usize) -> Past
        ensures past { result ≡ past_of self.now nurse }
        ensures small { IsSmallPast result }
        ensures known { IfSome (last_shift result.border) (λ s. s.0 < shift_count self.now) }
    {
        match self.past.get(nurse) {
            Some(past) => past,
            None => Past {
                border: Border::Free(0),
                assignments: 0,
                weekends: 0,
            },
        }
    }

    // ---- sizes of the search

    /// The greatest cap of the runs of the shifts, at most 999.
    pub fn greatest_cap(&self) -> u16
        ensures cap { result ≡ greatest_of (map cap self.now.runs) }
        ensures small { result ≤ most_small }
    {
        greatest_cap(&self.scenario.runs)
    }

    /// The number of states in the search for a nurse, at most 1,048,576.
    pub fn states(&self, nurse: usize) -> u32
        requires { nurse < nurse_count self.now }
        ensures count { result ≡ state_count self.now nurse }
        ensures within { result ≤ most_states }
    {
        state_count(&self.scenario, nurse) as u32
    }

    /// The number of choices that a nurse has on a day, at most 65: to be off, and each shift with each of
    /// the nurse's skills.
    #[tactic(auto, unfolding(crate::specs::Sizes::choice_count))]
    pub fn choice_count(&self, nurse: usize) -> u32
        ensures count { result ≡ choice_count self.now nurse }
        ensures within { result ≤ 1 + most_shifts * most_skills }
    {
        let skills = self.skills_of(nurse).len() as u32;
        1 + self.shifts() as u32 * skills
    }
}

/// What the history and the week data say: the past of the nurses, and the weeks.
#[derive(Drop)]
struct HistoryAndWeeks {
    past: Table<Past>,
    weeks: Vec<Week>,
}

/// Reads the history and the weeks. They are taken if nothing in them is refused and no nurse has too many
/// states.
fn read_history_and_weeks(
    alloc: Global,
    source: &[u8],
    bundle: &Bundle,
    scenario: &Scenario,
) -> Result<HistoryAndWeeks, CaseFault>
    requires scenario { IsScenarioOf source.now bundle.now scenario.now }
    ensures past { IfOk result (λ later. later.past ≡ past_meant source.now scenario.now.nurses
        scenario.now.shifts bundle.now.history.nurses) }
    ensures weeks { IfOk result (λ later. later.weeks.items ≡ map
        (week_meant source.now scenario.now.shifts scenario.now.skills scenario.now.nurses)
        bundle.now.week_data) }
    ensures few { OnOk result (HasFewStates (case_of scenario.now [] [])) }
    ensures none { OnOk result (faults_after source.now bundle.now scenario.now ≡ []) }
    ensures first { IfErr result (IsFirst (faults_after source.now bundle.now scenario.now)) }
{
    let past = past_of(alloc, source, scenario, &bundle.history)?;
    let weeks = weeks_of(alloc, source, scenario, bundle.week_data.as_slice())?;
    check_states(scenario, bundle.scenario.nurses.items.as_slice())?;
    Ok(HistoryAndWeeks { past, weeks })
}

/// Checks that no nurse has too many states.
fn check_states(scenario: &Scenario, nurses: &[Nurse]) -> Result<(), CaseFault>
    requires { length nurses.now ≡ length scenario.now.nurses }
    ensures few { OnOk result (HasFewStates (case_of scenario.now [] [])) }
    ensures none { OnOk result (flat_map (state_fault (case_of scenario.now [] []))
        (enumerate_from 0 nurses.now) ≡ []) }
    ensures first { IfErr result (IsFirst (flat_map (state_fault (case_of scenario.now [] []))
        (enumerate_from 0 nurses.now))) }
{
    for (nurse, line) in nurses.iter().enumerate() {
        if state_count(scenario, nurse) > MAX_STATES as u128 {
            return Err(CaseFault::TooManyStates {
                nurse,
                name: line.name,
            });
        }
    }
    Ok(())
}

//! The scenario: its names, shifts, contracts and nurses.

ghost use Rattle.std.specs.Prelude.{◌≡◌, ◌<◌, ◌≤◌, ℕ, List, [], IfOk, IfErr, OnOk, count_by, flat_map, length, map};
ghost use Rattle.roster_bundle.specs.declared.bundle.Contract.{Contract};
ghost use Rattle.roster_bundle.specs.declared.bundle.Nurse.{Nurse};
ghost use Rattle.roster_bundle.specs.declared.bundle.Pair.{Pair};
ghost use Rattle.roster_bundle.specs.declared.bundle.ShiftType.{ShiftType};
ghost use Rattle.roster_bundle.specs.declared.token.Token.{Token};
ghost use Rattle.roster_instance.specs.Building.{HasCounts, HasSkills, HaveFewSkills};
ghost use Rattle.roster_instance.specs.Bundles.{contract_meant, limits_of, nurse_meant, numbers_among, skill_named, successions_meant};
ghost use Rattle.roster_instance.specs.Checking.{IsFirst};
ghost use Rattle.roster_instance.specs.Faults.{each};
ghost use Rattle.roster_instance.specs.Limits.{most_contracts, most_nurses, most_shifts, most_skills};
ghost use Rattle.roster_instance.specs.Names.{contract_names, names_of, nurse_names, shift_names, skill_names};
ghost use Rattle.roster_instance.specs.Refusals.{Among, AmongStaff, contract_faults, faults_of_shifts, faults_of_staff, limit_fault, listed_faults, nurse_faults, own_skill_faults, repeated_fault, reserved_fault, scenario_faults, shift_faults, succession_faults, unknown_fault};

use crate::choice::Skill;
use crate::fault::CaseFault;
use crate::names::Names;
use crate::rules::{ContractRules, Limits};
use crate::section::{Section, add_all};
use crate::table::Table;
use arrayvec::ArrayVec;
use roster_bundle::{Bundle, Contract, Listed, Nurse, Pair, ShiftType, Succession, Token};
use std::alloc::Global;
use std::marker::Model;

/// The most weeks, skills and shifts.
const MAX_WEEKS: usize = 52;

const MAX_SKILLS: usize = 8;

const MAX_SHIFTS: usize = 8;

/// The most contracts of a case.
pub const MAX_CONTRACTS: usize = 64;

/// The most nurses of a case.
pub const MAX_NURSES: usize = 400;

/// What a scenario says.
pub(crate) struct Scenario {
    pub(crate) name: Vec<u8>,
    pub(crate) skills: Names,
    pub(crate) shifts: Names,
    pub(crate) runs: Vec<Limits>,
    pub(crate) successions: Table<[bool; 8]>,
    pub(crate) contracts: Names,
    pub(crate) contract_rules: Vec<ContractRules>,
    pub(crate) nurses: Names,
    pub(crate) nurse_rules: Vec<NurseRules>,
    pub(crate) weeks: usize,
    ghost counts: { HasCounts weeks (length skills) (length shifts) (length nurses) },
    ghost few_skills: { HaveFewSkills nurse_rules.items },
}

// Written by hand, so that a function that drops a scenario has one call to prove, not the drops of all its
// fields.
impl Drop for Scenario {
    fn drop(self) {
        let Scenario {
            name: _,
            skills: _,
            shifts: _,
            runs: _,
            successions: _,
            contracts: _,
            contract_rules: _,
            nurses: _,
            nurse_rules: _,
            weeks: _,
        } = self;
    }
}

impl Scenario {
    ghost use Rattle.roster_instance.specs.CaseParts.{IsScenarioOf};

    pub(crate) fn from_bundle(
        alloc: Global,
        bundle: &Bundle,
        source: &[u8],
    ) -> Result<Scenario, CaseFault>
        ensures meant { IfOk result (IsScenarioOf source.now bundle.now) }
        ensures weeks { IfOk result (λ scenario. scenario.weeks ≡ bundle.now.scenario.weeks.value) }
        ensures none { OnOk result (scenario_faults source.now bundle.now ≡ []) }
        ensures first { IfErr result (IsFirst (scenario_faults source.now bundle.now)) }
    {
        let text = &bundle.scenario;
        let weeks = text.weeks.value as usize;
        check_count(MAX_WEEKS, text.weeks.token, weeks)?;
        let name = Vec::from_slice(alloc, text.name.text(source))?;
        let skills = skills_of(alloc, source, &text.skills)?;
        let shifts = read_shifts(alloc, source, bundle)?;
        let staff = read_staff(alloc, source, bundle, &skills)?;
        Ok(Scenario {
            name,
            skills,
            shifts: shifts.names,
            runs: shifts.runs,
            successions: shifts.successions,
            contracts: staff.contracts,
            contract_rules: staff.contract_rules,
            nurses: staff.nurses,
            nurse_rules: staff.nurse_rules,
            weeks,
        })
    }
}

/// The shifts of a scenario.
#[derive(Drop)]
struct Shifts {
    names: Names,
    runs: Vec<Limits>,
    successions: Table<[bool; 8]>,
}

fn read_shifts(alloc: Global, source: &[u8], bundle: &Bundle) -> Result<Shifts, CaseFault>
    ensures names { IfOk result (λ r. r.names ≡ shift_names source.now bundle.now) }
    ensures few { IfOk result (λ r. (0 < length r.names) × (length r.names ≤ most_shifts)) }
    ensures runs { IfOk result (λ r. r.runs.items ≡ map (λ (s : ShiftType). limits_of s.run)
        bundle.now.scenario.shifts.items) }
    ensures successions { IfOk result (λ r. r.successions ≡ successions_meant source.now
        (shift_names source.now bundle.now) bundle.now.scenario.successions) }
    ensures none { OnOk result (faults_of_shifts source.now bundle.now ≡ []) }
    ensures first { IfErr result (IsFirst (faults_of_shifts source.now bundle.now)) }
{
    let text = &bundle.scenario;
    let (names, runs) = shifts_of(alloc, source, &text.shifts)?;
    let successions = successions_of(alloc, source, &names, text.successions.as_slice())?;
    Ok(Shifts {
        names,
        runs,
        successions,
    })
}

/// The contracts and the nurses of a scenario.
#[derive(Drop)]
struct Staff {
    contracts: Names,
    contract_rules: Vec<ContractRules>,
    nurses: Names,
    nurse_rules: Vec<NurseRules>,
    ghost few_skills: { HaveFewSkills nurse_rules.items },
}

fn read_staff(
    alloc: Global,
    source: &[u8],
    bundle: &Bundle,
    skills: &Names,
) -> Result<Staff, CaseFault>
    requires skills { skills.now ≡ skill_names source.now bundle.now }
    requires few_skills { length skills.now ≤ most_skills }
    ensures contracts { IfOk result (λ r. r.contracts ≡ contract_names source.now bundle.now) }
    ensures rules { IfOk result (λ r. r.contract_rules.items ≡ map contract_meant
        bundle.now.scenario.contracts.items) }
    ensures nurses { IfOk result (λ r. r.nurses ≡ nurse_names source.now bundle.now) }
    ensures few { IfOk result (λ r. (0 < length r.nurses) × (length r.nurses ≤ most_nurses)) }
    ensures facts { IfOk result (λ r. r.nurse_rules.items ≡ map
        (nurse_meant source.now (contract_names source.now bundle.now)
        (skill_names source.now bundle.now)) bundle.now.scenario.nurses.items) }
    ensures none { OnOk result (faults_of_staff source.now bundle.now ≡ []) }
    ensures first { IfErr result (IsFirst (faults_of_staff source.now bundle.now)) }
{
    let text = &bundle.scenario;
    let (contracts, contract_rules) = contracts_of(alloc, source, &text.contracts)?;
    let (nurses, nurse_rules) = nurses_of(alloc, source, &contracts, skills, &text.nurses)?;
    Ok(Staff {
        contracts,
        contract_rules,
        nurses,
        nurse_rules,
    })
}

/// Checks that a count is from 1 to its limit.
fn check_count(limit: usize, token: Token, count: usize) -> Result<(), CaseFault>
    ensures within { OnOk result ((0 < count) × (count ≤ limit)) }
    ensures none { OnOk result (limit_fault limit token count ≡ []) }
    ensures first { IfErr result (IsFirst (limit_fault limit token count)) }
{
    if count == 0 || count > limit {
        return Err(CaseFault::Limit { line: token.line });
    }
    Ok(())
}

pub(crate) fn limits_of(pair: Pair) -> Limits
    ensures { result ≡ limits_of pair }
{
    Limits {
        least: pair.least,
        greatest: pair.greatest,
    }
}

// ---- skills

#[derive(Drop)]
struct SkillSection<'a> {
    alloc: Global,
    source: &'a [u8],
    names: Names,
}

impl<'a> Section<Token> for SkillSection<'a> {
    ghost About = { List ℕ };

    ghost about = { λ s. s.source.now };

    ghost faults = { repeated_fault };

    ghost built = { λ s earlier. s.names ≡ names_of s.source.now earlier };

    fn add(&mut self, token: &Token) -> Result<(), CaseFault> {
        self.names.add_token(self.alloc, self.source, *token)
    }
}

fn skills_of(alloc: Global, source: &[u8], skills: &Listed<Token>) -> Result<Names, CaseFault>
    ensures names { IfOk result (λ names. names ≡ names_of source.now skills.now.items) }
    ensures few { IfOk result (λ names. (0 < length names) × (length names ≤ most_skills)) }
    ensures none { OnOk result (listed_faults most_skills (repeated_fault source.now)
        skills.now ≡ []) }
    ensures first { IfErr result (IsFirst (listed_faults most_skills (repeated_fault source.now)
        skills.now)) }
{
    check_count(MAX_SKILLS, skills.count, skills.items.len())?;
    let mut section = SkillSection {
        alloc,
        source,
        names: Names::with_capacity(alloc, skills.items.len())?,
    };
    add_all(&mut section, skills.items.as_slice())?;
    Ok(section.names)
}

// ---- shifts

#[derive(Drop)]
struct ShiftSection<'a> {
    alloc: Global,
    source: &'a [u8],
    names: Names,
    runs: Vec<Limits>,
}

impl<'a> Section<ShiftType> for ShiftSection<'a> {
    ghost About = { List ℕ };

    ghost about = { λ s. s.source.now };

    ghost faults = { shift_faults };

    ghost built = { λ s earlier.
        (s.names ≡ names_of s.source.now (map (λ (e : ShiftType). e.name) earlier))
        × (s.runs.items ≡ map (λ (e : ShiftType). limits_of e.run) earlier) };

    fn add(&mut self, shift: &ShiftType) -> Result<(), CaseFault> {
        self.names.add_token(self.alloc, self.source, shift.name)?;
        check_not_reserved(self.source, shift.name)?;
        self.runs.push(limits_of(shift.run))?;
        Ok(())
    }
}

/// Checks that a shift isn't named with the word for all shifts or for none.
fn check_not_reserved(source: &[u8], token: Token) -> Result<(), CaseFault>
    ensures none { OnOk result (reserved_fault source.now token ≡ []) }
    ensures first { IfErr result (IsFirst (reserved_fault source.now token)) }
{
    let name = token.text(source);
    if name == b"Any".as_slice() || name == b"None".as_slice() {
        return Err(CaseFault::Reserved { line: token.line });
    }
    Ok(())
}

fn shifts_of(
    alloc: Global,
    source: &[u8],
    shifts: &Listed<ShiftType>,
) -> Result<(Names, Vec<Limits>), CaseFault>
    ensures names { IfOk result (λ r. r.0 ≡ names_of source.now
        (map (λ (s : ShiftType). s.name) shifts.now.items)) }
    ensures few { IfOk result (λ r. (0 < length r.0) × (length r.0 ≤ most_shifts)) }
    ensures runs { IfOk result (λ r. r.1.items ≡ map (λ (s : ShiftType). limits_of s.run)
        shifts.now.items) }
    ensures none { OnOk result (listed_faults most_shifts (shift_faults source.now)
        shifts.now ≡ []) }
    ensures first { IfErr result (IsFirst (listed_faults most_shifts (shift_faults source.now)
        shifts.now)) }
{
    let count = shifts.items.len();
    check_count(MAX_SHIFTS, shifts.count, count)?;
    let mut section = ShiftSection {
        alloc,
        source,
        names: Names::with_capacity(alloc, count)?,
        runs: Vec::with_capacity(alloc, count)?,
    };
    add_all(&mut section, shifts.items.as_slice())?;
    Ok((section.names, section.runs))
}

// ---- successions

/// The shifts that a line forbids.
#[derive(Drop)]
struct ForbiddenSection<'a> {
    source: &'a [u8],
    shifts: &'a Names,
    flags: [bool; 8],
}

impl<'a> Section<Token> for ForbiddenSection<'a> {
    ghost About = { Among };

    ghost about = { λ s. record { source = s.source.now; names = s.shifts.now } };

    ghost faults = { λ a earlier t. unknown_fault a.source a.names t };

    ghost built = { λ s earlier. s.flags ≡ numbers_among s.source.now s.shifts.now earlier };

    fn add(&mut self, token: &Token) -> Result<(), CaseFault> {
        let shift = self.shifts.number(self.source, *token)?;
        if shift < self.flags.len() {
            self.flags[shift] = true;
        }
        Ok(())
    }
}

fn forbidden_of(source: &[u8], shifts: &Names, tokens: &[Token]) -> Result<[bool; 8], CaseFault>
    ensures flags { IfOk result (λ flags. flags ≡ numbers_among source.now shifts.now tokens.now) }
    ensures none { OnOk result (flat_map (unknown_fault source.now shifts.now) tokens.now ≡ []) }
    ensures first { IfErr result (IsFirst (flat_map (unknown_fault source.now shifts.now)
        tokens.now)) }
{
    let mut section = ForbiddenSection {
        source,
        shifts,
        flags: [false; 8],
    };
    add_all(&mut section, tokens)?;
    Ok(section.flags)
}

#[derive(Drop)]
struct SuccessionSection<'a> {
    source: &'a [u8],
    shifts: &'a Names,
    lines: Table<[bool; 8]>,
}

impl<'a> Section<Succession> for SuccessionSection<'a> {
    ghost About = { Among };

    ghost about = { λ s. record { source = s.source.now; names = s.shifts.now } };

    ghost faults = { λ a. succession_faults a.source a.names };

    ghost built = { λ s earlier. s.lines ≡ successions_meant s.source.now s.shifts.now earlier };

    fn add(&mut self, line: &Succession) -> Result<(), CaseFault> {
        let shift = self.shifts.number(self.source, line.shift)?;
        if self.lines.get(shift).is_some() {
            return Err(CaseFault::Repeated {
                line: line.shift.line,
            });
        }
        let forbidden = forbidden_of(self.source, self.shifts, line.forbidden.as_slice())?;
        self.lines.set(shift, forbidden);
        Ok(())
    }
}

fn successions_of(
    alloc: Global,
    source: &[u8],
    shifts: &Names,
    lines: &[Succession],
) -> Result<Table<[bool; 8]>, CaseFault>
    ensures lines { IfOk result (λ table. table ≡ successions_meant source.now shifts.now
        lines.now) }
    ensures none { OnOk result (each (succession_faults source.now shifts.now) lines.now ≡ []) }
    ensures first { IfErr result (IsFirst (each (succession_faults source.now shifts.now)
        lines.now)) }
{
    let mut section = SuccessionSection {
        source,
        shifts,
        lines: Table::new(alloc, shifts.len())?,
    };
    add_all(&mut section, lines)?;
    Ok(section.lines)
}

// ---- contracts

#[derive(Drop)]
struct ContractSection<'a> {
    alloc: Global,
    source: &'a [u8],
    names: Names,
    rules: Vec<ContractRules>,
}

impl<'a> Section<Contract> for ContractSection<'a> {
    ghost About = { List ℕ };

    ghost about = { λ s. s.source.now };

    ghost faults = { contract_faults };

    ghost built = { λ s earlier. (s.names ≡ names_of s.source.now
        (map (λ (e : Contract). e.name) earlier)) × (s.rules.items ≡ map contract_meant earlier) };

    fn add(&mut self, contract: &Contract) -> Result<(), CaseFault> {
        self.names
            .add_token(self.alloc, self.source, contract.name)?;
        self.rules.push(rules_of(contract))?;
        Ok(())
    }
}

fn rules_of(contract: &Contract) -> ContractRules
    ensures { result ≡ contract_meant contract.now }
{
    ContractRules {
        total: limits_of(contract.total),
        working: limits_of(contract.working),
        free: limits_of(contract.free),
        weekends: contract.weekends,
        whole_weekends: contract.complete_weekends == 1,
    }
}

fn contracts_of(
    alloc: Global,
    source: &[u8],
    contracts: &Listed<Contract>,
) -> Result<(Names, Vec<ContractRules>), CaseFault>
    ensures names { IfOk result (λ r. r.0 ≡ names_of source.now
        (map (λ (c : Contract). c.name) contracts.now.items)) }
    ensures rules { IfOk result (λ r. r.1.items ≡ map contract_meant contracts.now.items) }
    ensures none { OnOk result (listed_faults most_contracts (contract_faults source.now)
        contracts.now ≡ []) }
    ensures first { IfErr result (IsFirst (listed_faults most_contracts (contract_faults source.now)
        contracts.now)) }
{
    let count = contracts.items.len();
    check_count(MAX_CONTRACTS, contracts.count, count)?;
    let mut section = ContractSection {
        alloc,
        source,
        names: Names::with_capacity(alloc, count)?,
        rules: Vec::with_capacity(alloc, count)?,
    };
    add_all(&mut section, contracts.items.as_slice())?;
    Ok((section.names, section.rules))
}

// ---- nurses

/// A nurse: the number of the contract, and the skills in the order of the line.
#[derive(Drop)]
pub(crate) struct NurseRules {
    contract: usize,
    skills: ArrayVec<Skill, 8>,
}

impl Model for NurseRules {
    ghost use Rattle.roster_instance.specs.Meaning.{NurseFacts};

    ghost Value = { NurseFacts };

    ghost view = { λ n. record { contract = n.contract; skills = n.skills.items } };
}

impl NurseRules {
    pub(crate) fn contract(&self) -> usize
        ensures { result ≡ self.now.contract }
    {
        self.contract
    }

    pub(crate) fn skills(&self) -> &[Skill]
        ensures skills { result.now ≡ self.now.skills }
        ensures few { length result.now ≤ most_skills }
    {
        self.skills.as_slice()
    }
}

/// A nurse's skills, and for each skill whether it is among them.
#[derive(Drop)]
struct OwnSkillSection<'a> {
    source: &'a [u8],
    skills: &'a Names,
    taken: [bool; 8],
    own: ArrayVec<Skill, 8>,
    ghost few: { length skills.now ≤ most_skills },
    ghost counted: { length own.items ≡ count_by (λ flag. flag) taken },
}

impl<'a> Section<Token> for OwnSkillSection<'a> {
    ghost About = { Among };

    ghost about = { λ s. record { source = s.source.now; names = s.skills.now } };

    ghost faults = { λ a. own_skill_faults a.source a.names };

    ghost built = { λ s earlier. HasSkills s.source.now s.skills.now earlier s.taken s.own.items };

    fn add(&mut self, token: &Token) -> Result<(), CaseFault> {
        let skill = self.skills.number(self.source, *token)?;
        if self.taken[skill] {
            return Err(CaseFault::Repeated { line: token.line });
        }
        self.taken[skill] = true;
        self.own.push(Skill(skill as u8));
        Ok(())
    }
}

fn own_skills_of(
    source: &[u8],
    skills: &Names,
    tokens: &[Token],
) -> Result<ArrayVec<Skill, 8>, CaseFault>
    requires { length skills.now ≤ most_skills }
    ensures own { IfOk result (λ own. own.items ≡ map (skill_named source.now skills.now)
        tokens.now) }
    ensures none { OnOk result (each (own_skill_faults source.now skills.now) tokens.now ≡ []) }
    ensures first { IfErr result (IsFirst (each (own_skill_faults source.now skills.now)
        tokens.now)) }
{
    let mut section = OwnSkillSection {
        source,
        skills,
        taken: [false; 8],
        own: ArrayVec::new(),
    };
    add_all(&mut section, tokens)?;
    Ok(section.own)
}

#[derive(Drop)]
struct NurseSection<'a> {
    alloc: Global,
    source: &'a [u8],
    contracts: &'a Names,
    skills: &'a Names,
    names: Names,
    rules: Vec<NurseRules>,
    ghost few: { length skills.now ≤ most_skills },
    ghost few_skills: { HaveFewSkills rules.items },
}

impl<'a> Section<Nurse> for NurseSection<'a> {
    ghost About = { AmongStaff };

    ghost about = { λ s. record
        { source = s.source.now; contracts = s.contracts.now; skills = s.skills.now } };

    ghost faults = { λ a. nurse_faults a.source a.contracts a.skills };

    ghost built = { λ s earlier.
        (s.names ≡ names_of s.source.now (map (λ (e : Nurse). e.name) earlier))
        × (s.rules.items ≡ map (nurse_meant s.source.now s.contracts.now s.skills.now) earlier) };

    fn add(&mut self, nurse: &Nurse) -> Result<(), CaseFault> {
        self.names.add_token(self.alloc, self.source, nurse.name)?;
        let contract = self.contracts.number(self.source, nurse.contract)?;
        let skills = own_skills_of(self.source, self.skills, nurse.skills.as_slice())?;
        self.rules.push(NurseRules { contract, skills })?;
        Ok(())
    }
}

fn nurses_of(
    alloc: Global,
    source: &[u8],
    contracts: &Names,
    skills: &Names,
    nurses: &Listed<Nurse>,
) -> Result<(Names, Vec<NurseRules>), CaseFault>
    requires { length skills.now ≤ most_skills }
    ensures names { IfOk result (λ r. r.0 ≡ names_of source.now
        (map (λ (n : Nurse). n.name) nurses.now.items)) }
    ensures few { IfOk result (λ r. (0 < length r.0) × (length r.0 ≤ most_nurses)) }
    ensures rules { IfOk result (λ r. r.1.items ≡ map
        (nurse_meant source.now contracts.now skills.now) nurses.now.items) }
    ensures few_skills { IfOk result (λ r. HaveFewSkills r.1.items) }
    ensures none { OnOk result (listed_faults most_nurses
        (nurse_faults source.now contracts.now skills.now) nurses.now ≡ []) }
    ensures first { IfErr result (IsFirst (listed_faults most_nurses
        (nurse_faults source.now contracts.now skills.now) nurses.now)) }
{
    let count = nurses.items.len();
    check_count(MAX_NURSES, nurses.count, count)?;
    let mut section = NurseSection {
        alloc,
        source,
        contracts,
        skills,
        names: Names::with_capacity(alloc, count)?,
        rules: Vec::with_capacity(alloc, count)?,
    };
    add_all(&mut section, nurses.items.as_slice())?;
    Ok((section.names, section.rules))
}

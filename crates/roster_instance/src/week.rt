//! The data of the weeks: requirements, off requests, wishes to work, absences, and fixed days.

ghost use Rattle.std.specs.Prelude.{◌≡◌, ◌*◌, ◌<◌, [], IfOk, IfErr, OnOk, false, flat_map, map, replicate, slice_index_or, slice_set, true};
ghost use Rattle.std.specs.Option.{option_map_or};
ghost use Rattle.roster_bundle.specs.Weekdays.{weekday};
ghost use Rattle.roster_bundle.specs.declared.bundle.WeekData.{WeekData};
ghost use Rattle.roster_instance.specs.CaseParts.{known_of, requests_with, with_any, with_shift};
ghost use Rattle.roster_instance.specs.Bundles.{days_meant, lines_of, need_of, needs_meant, needs_of_week, requests_meant, week_meant};
ghost use Rattle.roster_instance.specs.Checking.{IsFirst};
ghost use Rattle.roster_instance.specs.Faults.{each};
ghost use Rattle.roster_instance.specs.Meaning.{no_need, no_requests};
ghost use Rattle.roster_instance.specs.Refusals.{Known, day_faults, request_faults, requirement_faults, week_faults};

use crate::fault::CaseFault;
use crate::history::check_instance;
use crate::rules::{DayRequests, Need};
use crate::scenario::Scenario;
use crate::section::{Section, add_all};
use crate::table::Table;
use roster_bundle::{Day, Listed, NurseDay, Pair, Request, Requirement, WeekData, WeekPairs};
use std::alloc::{AllocError, Global};
use std::marker::Model;

/// A week: the requirements of each shift and skill, and for each nurse and weekday what the off requests and
/// the wishes name, whether the nurse is absent, and whether the day is fixed.
pub(crate) struct Week {
    needs: Table<[Need; 7]>,
    off_requests: Vec<DayRequests>,
    wishes: Vec<DayRequests>,
    absences: Vec<bool>,
    fixed: Vec<bool>,
}

// Written by hand, so that a function that drops a week has one call to prove.
impl Drop for Week {
    fn drop(self) {
        let Week {
            needs: _,
            off_requests: _,
            wishes: _,
            absences: _,
            fixed: _,
        } = self;
    }
}

impl Model for Week {
    ghost use Rattle.roster_instance.specs.Meaning.{WeekFacts};

    ghost Value = { WeekFacts };

    ghost view = { λ w. record {
      needs = w.needs;
      off_requests = w.off_requests.items;
      wishes = w.wishes.items;
      absences = w.absences.items;
      fixed = w.fixed.items;
    } };
}

impl Week {
    /// The minimum and the optimum of a shift and skill, by their index, on a weekday; (0,0) if no line has
    /// them.
    pub(crate) fn need(&self, index: usize, weekday: usize) -> Need
        ensures { result ≡ option_map_or (λ week. slice_index_or week weekday no_need)
            (slice_index_or self.now.needs index None) no_need }
    {
        match self.needs.get(index) {
            Some(days) => match days.get(weekday) {
                Some(need) => *need,
                None => Need::default(),
            },
            None => Need::default(),
        }
    }

    /// What the off requests of a nurse and weekday name, by their index.
    pub(crate) fn off_requests(&self, index: usize) -> DayRequests
        ensures { result ≡ slice_index_or self.now.off_requests index no_requests }
    {
        match self.off_requests.get(index) {
            Some(requests) => *requests,
            None => DayRequests::default(),
        }
    }

    /// What the wishes to work of a nurse and weekday name, by their index.
    pub(crate) fn wishes(&self, index: usize) -> DayRequests
        ensures { result ≡ slice_index_or self.now.wishes index no_requests }
    {
        match self.wishes.get(index) {
            Some(requests) => *requests,
            None => DayRequests::default(),
        }
    }

    /// Whether a nurse is absent on a weekday, by their index.
    pub(crate) fn is_absent(&self, index: usize) -> bool
        ensures { result ≡ slice_index_or self.now.absences index false }
    {
        match self.absences.get(index) {
            Some(absent) => *absent,
            None => false,
        }
    }

    /// Whether a nurse's weekday is fixed, by their index.
    pub(crate) fn is_fixed(&self, index: usize) -> bool
        ensures { result ≡ slice_index_or self.now.fixed index false }
    {
        match self.fixed.get(index) {
            Some(fixed) => *fixed,
            None => false,
        }
    }
}

/// A day's number; 0 is Monday.
pub(crate) fn weekday(day: Day) -> usize
    ensures number { result ≡ weekday day }
    ensures within { result < 7 }
{
    match day {
        Day::Monday => 0,
        Day::Tuesday => 1,
        Day::Wednesday => 2,
        Day::Thursday => 3,
        Day::Friday => 4,
        Day::Saturday => 5,
        Day::Sunday => 6,
    }
}

// ---- requirements

#[derive(Drop)]
struct RequirementSection<'a> {
    source: &'a [u8],
    scenario: &'a Scenario,
    lines: Table<[Need; 7]>,
}

impl<'a> Section<Requirement> for RequirementSection<'a> {
    ghost About = { Known };

    ghost about = { λ s. known_of s.source.now s.scenario.now };

    ghost faults = { λ k. requirement_faults k.source k.shifts k.skills };

    ghost built = { λ s earlier.
        s.lines ≡ needs_meant s.source.now s.scenario.now.shifts s.scenario.now.skills earlier };

    fn add(&mut self, line: &Requirement) -> Result<(), CaseFault> {
        let shift = self.scenario.shifts.number(self.source, line.shift)?;
        let skill = self.scenario.skills.number(self.source, line.skill)?;
        let index = 8 * shift + skill;
        if self.lines.get(index).is_some() {
            return Err(CaseFault::RepeatedRequirement {
                line: line.skill.line,
            });
        }
        self.lines.set(index, needs_of_week(&line.days));
        Ok(())
    }
}

fn need_of(pair: Pair) -> Need
    ensures { result ≡ need_of pair }
{
    Need {
        minimum: pair.least,
        optimum: pair.greatest,
    }
}

fn needs_of_week(days: &WeekPairs) -> [Need; 7]
    ensures { result ≡ needs_of_week days.now }
{
    [
        need_of(days.monday),
        need_of(days.tuesday),
        need_of(days.wednesday),
        need_of(days.thursday),
        need_of(days.friday),
        need_of(days.saturday),
        need_of(days.sunday),
    ]
}

fn needs_of(
    alloc: Global,
    source: &[u8],
    scenario: &Scenario,
    lines: &[Requirement],
) -> Result<Table<[Need; 7]>, CaseFault>
    ensures meant { IfOk result (λ table. table ≡ needs_meant source.now scenario.now.shifts
        scenario.now.skills lines.now) }
    ensures none { OnOk result (each (requirement_faults source.now scenario.now.shifts
        scenario.now.skills) lines.now ≡ []) }
    ensures first { IfErr result (IsFirst (each (requirement_faults source.now scenario.now.shifts
        scenario.now.skills) lines.now)) }
{
    let mut section = RequirementSection {
        source,
        scenario,
        lines: Table::new(alloc, 64)?,
    };
    add_all(&mut section, lines)?;
    Ok(section.lines)
}

// ---- off requests and wishes

#[derive(Drop)]
struct RequestSection<'a> {
    source: &'a [u8],
    scenario: &'a Scenario,
    requests: Vec<DayRequests>,
}

impl<'a> Section<Request> for RequestSection<'a> {
    ghost About = { Known };

    ghost about = { λ s. known_of s.source.now s.scenario.now };

    ghost faults = { λ k earlier q. request_faults k.source k.nurses k.shifts q };

    ghost built = { λ s earlier. s.requests.items
        ≡ requests_meant s.source.now s.scenario.now.nurses s.scenario.now.shifts earlier };

    fn add(&mut self, request: &Request) -> Result<(), CaseFault> {
        let nurse = self.scenario.nurses.number(self.source, request.nurse)?;
        let index = 7 * nurse + weekday(request.day);
        if request.shift.text(self.source) == b"Any".as_slice() {
            request_any(&mut self.requests, index);
        } else {
            let shift = self.scenario.shifts.number(self.source, request.shift)?;
            request_shift(&mut self.requests, index, shift);
        }
        Ok(())
    }
}

/// Marks that a request with this index says `Any`.
fn request_any(requests: &mut [DayRequests], index: usize)
    ensures { requests.new ≡ requests_with index with_any requests.old }
{
    if index < requests.len() {
        requests[index].any = true;
    }
}

/// Marks that a request with this index names a shift.
fn request_shift(requests: &mut [DayRequests], index: usize, shift: usize)
    ensures { requests.new ≡ requests_with index (with_shift shift) requests.old }
{
    if index < requests.len() {
        name_shift(&mut requests[index].shifts, shift);
    }
}

fn name_shift(shifts: &mut [bool; 8], shift: usize)
    ensures { shifts.new ≡ slice_set shifts.old shift true }
{
    if shift < 8 {
        shifts[shift] = true;
    }
}

/// The given number of entries without a request.
fn no_requests(alloc: Global, places: usize) -> Result<Vec<DayRequests>, AllocError>
    ensures { IfOk result (λ requests. requests.items ≡ replicate places no_requests) }
{
    vec![in alloc; DayRequests::default(); places]
}

fn requests_of(
    alloc: Global,
    source: &[u8],
    scenario: &Scenario,
    lines: &[Request],
) -> Result<Vec<DayRequests>, CaseFault>
    ensures meant { IfOk result (λ requests. requests.items ≡ requests_meant source.now
        scenario.now.nurses scenario.now.shifts lines.now) }
    ensures none { OnOk result (flat_map (request_faults source.now scenario.now.nurses
        scenario.now.shifts) lines.now ≡ []) }
    ensures first { IfErr result (IsFirst (flat_map
        (request_faults source.now scenario.now.nurses scenario.now.shifts) lines.now)) }
{
    let mut section = RequestSection {
        source,
        scenario,
        requests: no_requests(alloc, 7 * scenario.nurses.len())?,
    };
    add_all(&mut section, lines)?;
    Ok(section.requests)
}

/// The lines of a section that may be absent.
fn lines_of<T>(section: &Option<Listed<T>>) -> &[T]
    ensures { result.now ≡ lines_of section.now }
{
    match section {
        Some(section) => section.items.as_slice(),
        None => &[],
    }
}

// ---- absences and fixed days

#[derive(Drop)]
struct DaySection<'a> {
    source: &'a [u8],
    scenario: &'a Scenario,
    marks: Vec<bool>,
}

impl<'a> Section<NurseDay> for DaySection<'a> {
    ghost About = { Known };

    ghost about = { λ s. known_of s.source.now s.scenario.now };

    ghost faults = { λ k earlier a. day_faults k.source k.nurses a };

    ghost built = { λ s earlier. s.marks.items ≡ days_meant s.source.now s.scenario.now.nurses earlier };

    fn add(&mut self, line: &NurseDay) -> Result<(), CaseFault> {
        let nurse = self.scenario.nurses.number(self.source, line.nurse)?;
        mark(&mut self.marks, 7 * nurse + weekday(line.day));
        Ok(())
    }
}

fn mark(marks: &mut [bool], index: usize)
    ensures { marks.new ≡ slice_set marks.old index true }
{
    if index < marks.len() {
        marks[index] = true;
    }
}

/// The given number of flags, none of them set.
fn no_marks(alloc: Global, places: usize) -> Result<Vec<bool>, AllocError>
    ensures { IfOk result (λ marks. marks.items ≡ replicate places false) }
{
    vec![in alloc; false; places]
}

fn marks_of(
    alloc: Global,
    source: &[u8],
    scenario: &Scenario,
    lines: &[NurseDay],
) -> Result<Vec<bool>, CaseFault>
    ensures meant { IfOk result (λ marks. marks.items ≡ days_meant source.now
        scenario.now.nurses lines.now) }
    ensures none { OnOk result (flat_map (day_faults source.now scenario.now.nurses)
        lines.now ≡ []) }
    ensures first { IfErr result (IsFirst (flat_map (day_faults source.now scenario.now.nurses)
        lines.now)) }
{
    let mut section = DaySection {
        source,
        scenario,
        marks: no_marks(alloc, 7 * scenario.nurses.len())?,
    };
    add_all(&mut section, lines)?;
    Ok(section.marks)
}

// ---- weeks

#[derive(Drop)]
struct WeekSection<'a> {
    alloc: Global,
    source: &'a [u8],
    scenario: &'a Scenario,
    weeks: Vec<Week>,
}

impl<'a> Section<WeekData> for WeekSection<'a> {
    ghost About = { Known };

    ghost about = { λ s. known_of s.source.now s.scenario.now };

    ghost faults = { λ k earlier w. week_faults k w };

    ghost built = { λ s earlier. s.weeks.items ≡ map (week_meant s.source.now s.scenario.now.shifts
        s.scenario.now.skills s.scenario.now.nurses) earlier };

    fn add(&mut self, week: &WeekData) -> Result<(), CaseFault> {
        check_instance(self.source, &self.scenario.name, week.scenario)?;
        let needs = needs_of(
            self.alloc,
            self.source,
            self.scenario,
            week.requirements.as_slice(),
        )?;
        let off_requests = requests_of(
            self.alloc,
            self.source,
            self.scenario,
            week.off_requests.items.as_slice(),
        )?;
        let wishes = requests_of(
            self.alloc,
            self.source,
            self.scenario,
            lines_of(&week.on_requests),
        )?;
        let absences = marks_of(
            self.alloc,
            self.source,
            self.scenario,
            lines_of(&week.absences),
        )?;
        let fixed = marks_of(
            self.alloc,
            self.source,
            self.scenario,
            lines_of(&week.fixed_days),
        )?;
        self.weeks.push(Week {
            needs,
            off_requests,
            wishes,
            absences,
            fixed,
        })?;
        Ok(())
    }
}

pub(crate) fn weeks_of(
    alloc: Global,
    source: &[u8],
    scenario: &Scenario,
    weeks: &[WeekData],
) -> Result<Vec<Week>, CaseFault>
    ensures meant { IfOk result (λ built. built.items ≡ map
        (week_meant source.now scenario.now.shifts scenario.now.skills scenario.now.nurses)
        weeks.now) }
    ensures none { OnOk result (flat_map (week_faults (known_of source.now scenario.now))
        weeks.now ≡ []) }
    ensures first { IfErr result (IsFirst (flat_map (week_faults (known_of source.now scenario.now))
        weeks.now)) }
{
    let mut section = WeekSection {
        alloc,
        source,
        scenario,
        weeks: Vec::with_capacity(alloc, weeks.len())?,
    };
    add_all(&mut section, weeks)?;
    Ok(section.weeks)
}

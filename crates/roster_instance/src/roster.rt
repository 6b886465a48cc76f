//! Rosters: a row of choices for each nurse.

ghost use Rattle.std.specs.Prelude.{◌≡◌, true, ◌≢◌, ◌*◌, ◌/◌, ◌<◌, ◌≤◌, [], Some, IfOk, IfErr, OnOk, flat_map, length, map};
ghost use Rattle.std.specs.List.{enumerate_from, list_all, range_with_len};
ghost use Rattle.roster_bundle.specs.declared.bundle.Assignment.{Assignment};
ghost use Rattle.roster_bundle.specs.declared.bundle.Solution.{Solution};
ghost use Rattle.roster_instance.specs.Bundles.{index_of_line, row_meant, rows_of, solution_meant, work_meant};
ghost use Rattle.roster_instance.specs.Checking.{IsFirst};
ghost use Rattle.roster_instance.specs.Faults.{first_fault};
ghost use Rattle.roster_instance.specs.Limits.{most_nurses, most_weeks};
ghost use Rattle.roster_instance.specs.Meaning.{week_count};
ghost use Rattle.roster_instance.specs.CaseParts.{known_of};
ghost use Rattle.roster_instance.specs.Refusals.{KnownInWeek, assignment_faults, roster_faults, solution_faults};
ghost use Rattle.roster_instance.specs.Rosters.{choice_on, cover, fits_case, is_choice_of, is_row_of, row_of, with_row};
ghost use Rattle.roster_instance.specs.Tables.{table_of};

use crate::case::Case;
use crate::choice::{Choice, Shift, Skill};
use crate::fault::CaseFault;
use crate::history::check_instance;
use crate::scenario::Scenario;
use crate::section::{Section, add_all};
use crate::table::Table;
use crate::week::weekday;
use roster_bundle::{Assignment, Bundle, Solution};
use std::alloc::{AllocError, Global};
use std::marker::Model;

/// A row for each nurse, with a choice for each day.
pub struct Roster {
    rows: Vec<Vec<Choice>>,
}

// Written by hand, so that a function that drops a roster has one call to prove, not the drops of all its
// rows.
impl Drop for Roster {
    fn drop(self) {
        let Roster { rows: _ } = self;
    }
}

impl Model for Roster {
    ghost use Rattle.std.specs.Prelude.{map};
    ghost use Rattle.roster_instance.specs.Rosters.{Rows};

    ghost Value = { Rows };

    ghost view = { λ r. map (λ row. row.items) r.rows.items };
}

impl Roster {
    /// The rows that the solutions of a bundle describe, by the names of the case. Solution i is that of week
    /// i, whatever its own number is, and without a line a nurse is off. The bundle has as many weeks as the
    /// case.
    ///
    /// # Errors
    ///
    /// The first fault in the order of the text: another instance, an unknown name, or a second line of a
    /// nurse for one day. `Memory` if an allocation was refused.
    pub fn from_bundle(
        alloc: Global,
        case: &Case,
        bundle: &Bundle,
        source: &[u8],
    ) -> Result<Roster, CaseFault>
        requires { length bundle.now.solutions ≡ week_count case.now }

        // A roster that is returned has no fault, fits the case, and says what the solutions say.
        ensures meant { IfOk result (λ roster. roster ≡ rows_of source.now case.now bundle.now) }
        ensures fitting { IfOk result (λ roster. fits_case case.now roster ≡ true) }
        ensures taken { OnOk result (roster_faults source.now case.now bundle.now ≡ []) }

        // Otherwise the result is the first fault, apart from want of memory.
        ensures refused { IfErr result (λ f. f ≢ CaseFault.Memory →
            first_fault (roster_faults source.now case.now bundle.now) ≡ Some f) }
    {
        let tables = tables_of(alloc, source, case.scenario(), bundle.solutions.as_slice())?;
        let rows = rows_of(alloc, &tables, case.nurses())?;
        Ok(Roster { rows })
    }

    /// A roster without nurses, which takes no memory.
    pub(crate) fn empty(alloc: Global) -> Roster
        ensures { result ≡ [] }
    {
        Roster {
            rows: Vec::new(alloc),
        }
    }

    /// A copy, with one allocation for the list and one for each nurse.
    ///
    /// # Errors
    ///
    /// An allocation was refused.
    pub fn copy(&self, alloc: Global) -> Result<Roster, AllocError>
        ensures { IfOk result (λ copy. copy ≡ self.now) }
    {
        let mut rows = Vec::with_capacity(alloc, self.rows.len())?;
        for row in &self.rows {
            rows.push(row.to_vec(alloc)?)?;
        }
        Ok(Roster { rows })
    }

    /// The choices of a nurse, one for each day; none if the roster doesn't have this nurse.
    pub fn row(&self, nurse: usize) -> &[Choice]
        ensures { result.now ≡ row_of self.now nurse }
    {
        match self.rows.get(nurse) {
            Some(row) => row.as_slice(),
            None => &[],
        }
    }

    /// Replaces a nurse's row by one with the same number of days. Whether it fits the case isn't checked.
    pub fn put_row(&mut self, nurse: usize, row: &[Choice])
        requires nurse { nurse < length self.old }
        requires days { length row.now ≡ length (row_of self.old nurse) }
        ensures { self.new ≡ with_row self.old nurse row.now }
    {
        self.rows[nurse].copy_from_slice(row);
    }

    /// Replaces all rows by those of a roster with the same numbers of nurses and days, without taking
    /// memory. Whether they fit the case isn't checked.
    pub fn put_rows(&mut self, rows: &Roster)
        requires { map (λ row. length row) rows.now ≡ map (λ row. length row) self.old }
        ensures { self.new ≡ rows.now }
    {
        for nurse in 0..rows.nurses() {
            self.put_row(nurse, rows.row(nurse));
        }
    }

    /// The number of nurses.
    pub fn nurses(&self) -> usize
        ensures { result ≡ length self.now }
    {
        self.rows.len()
    }

    /// How many nurses work in a slot.
    pub fn cover(&self, day: u16, shift: Shift, skill: Skill) -> usize
        ensures { result ≡ cover self.now day shift.0 skill.0 }
    {
        let mut count = 0;
        for row in &self.rows {
            if choice_on(row, day) == Choice::Work(shift, skill) {
                count += 1;
            }
        }
        count
    }

    /// Whether the roster has the nurses and the days of the case, and only the case's shifts and skills.
    pub fn fits(&self, case: &Case) -> bool
        ensures { result ≡ fits_case case.now self.now }
    {
        self.rows.len() == case.nurses() && all_fit(case, &self.rows)
    }
}

/// The choice of a row on a day; off past the end.
pub fn choice_on(row: &[Choice], day: u16) -> Choice
    ensures { result ≡ choice_on row.now day }
{
    match row.get(day as usize) {
        Some(choice) => *choice,
        None => Choice::Off,
    }
}

fn all_fit(case: &Case, rows: &[Vec<Choice>]) -> bool
    ensures { result ≡ list_all (is_row_of case.now) (map (λ row. row.items) rows.now) }
{
    rows.iter().all(|row| row_fits(case, row))
}

/// Whether a row has a choice for each day, and only the case's shifts and skills.
pub fn row_fits(case: &Case, row: &[Choice]) -> bool
    ensures { result ≡ is_row_of case.now row.now }
{
    row.len() == case.days() as usize && choices_fit(case, row)
}

fn choices_fit(case: &Case, row: &[Choice]) -> bool
    ensures { result ≡ list_all (is_choice_of case.now) row.now }
{
    row.iter().all(|choice| choice_fits(case, *choice))
}

fn choice_fits(case: &Case, choice: Choice) -> bool
    ensures { result ≡ is_choice_of case.now choice }
{
    match choice {
        Choice::Off => true,
        Choice::Work(shift, skill) => shift.0 < case.shifts() && skill.0 < case.skills(),
    }
}

// ---- solutions

/// The lines of a solution, by the index of their nurse and weekday.
#[derive(Drop)]
struct LineSection<'a> {
    source: &'a [u8],
    scenario: &'a Scenario,
    week: u16,
    lines: Table<Choice>,
    // The nurse of the line before.
    near: usize,
    ghost early: { week < most_weeks },
}

impl<'a> Section<Assignment> for LineSection<'a> {
    ghost About = { KnownInWeek };

    ghost about = { λ s. record { known = known_of s.source.now s.scenario.now; week = s.week } };

    ghost faults = { λ a.
        assignment_faults a.known.source a.known.nurses a.known.shifts a.known.skills a.week };

    ghost built = { λ s earlier. s.lines
        ≡ table_of (index_of_line s.source.now s.scenario.now.nurses) (work_meant s.source.now
        s.scenario.now.shifts s.scenario.now.skills) (7 * length s.scenario.now.nurses) earlier };

    fn add(&mut self, line: &Assignment) -> Result<(), CaseFault> {
        let nurse = self
            .scenario
            .nurses
            .number_near(self.source, line.nurse, self.near)?;
        let shift = self.scenario.shifts.number(self.source, line.shift)?;
        let skill = self.scenario.skills.number(self.source, line.skill)?;
        let weekday = weekday(line.day);
        let index = 7 * nurse + weekday;
        if self.lines.get(index).is_some() {
            return Err(CaseFault::H1 {
                nurse,
                day: 7 * self.week + weekday as u16,
            });
        }
        let work = Choice::Work(Shift(shift as u8), Skill(skill as u8));
        self.lines.set(index, work);
        self.near = nurse;
        Ok(())
    }
}

fn table_of(
    alloc: Global,
    source: &[u8],
    scenario: &Scenario,
    week: u16,
    solution: &Solution,
) -> Result<Table<Choice>, CaseFault>
    requires { week < most_weeks }
    ensures meant { IfOk result (λ table. table ≡ solution_meant source.now scenario.now.nurses
        scenario.now.shifts scenario.now.skills solution.now) }
    ensures none { OnOk result (solution_faults (known_of source.now scenario.now)
        (week, solution.now) ≡ []) }
    ensures first { IfErr result (IsFirst (solution_faults (known_of source.now scenario.now)
        (week, solution.now))) }
{
    check_instance(source, &scenario.name, solution.scenario)?;
    let mut section = LineSection {
        source,
        scenario,
        week,
        lines: Table::new(alloc, 7 * scenario.nurses.len())?,
        near: 0,
    };
    add_all(&mut section, solution.assignments.items.as_slice())?;
    Ok(section.lines)
}

/// The tables of lines of all weeks.
fn tables_of(
    alloc: Global,
    source: &[u8],
    scenario: &Scenario,
    solutions: &[Solution],
) -> Result<Vec<Table<Choice>>, CaseFault>
    requires { length solutions.now ≤ most_weeks }
    ensures meant { IfOk result (λ tables. tables.items ≡ map
        (solution_meant source.now scenario.now.nurses scenario.now.shifts scenario.now.skills)
        solutions.now) }
    ensures none { OnOk result (flat_map (solution_faults (known_of source.now scenario.now))
        (enumerate_from 0 solutions.now) ≡ []) }
    ensures first { IfErr result (IsFirst (flat_map
        (solution_faults (known_of source.now scenario.now)) (enumerate_from 0 solutions.now))) }
{
    let mut tables = Vec::with_capacity(alloc, solutions.len())?;
    for (week, solution) in solutions.iter().enumerate() {
        tables.push(table_of(alloc, source, scenario, week as u16, solution)?)?;
    }
    Ok(tables)
}

// ---- rows

/// The rows of all nurses, by the tables of all weeks.
fn rows_of(
    alloc: Global,
    tables: &[Table<Choice>],
    nurses: usize,
) -> Result<Vec<Vec<Choice>>, AllocError>
    requires weeks { length tables.now ≤ most_weeks }
    requires nurses { nurses ≤ most_nurses }
    ensures { IfOk result (λ rows. map (λ row. row.items) rows.items ≡ map (row_meant tables.now)
        (range_with_len 0 nurses)) }
{
    let mut rows = Vec::with_capacity(alloc, nurses)?;
    for nurse in 0..nurses {
        rows.push(row_of(alloc, tables, nurse)?)?;
    }
    Ok(rows)
}

fn row_of(alloc: Global, tables: &[Table<Choice>], nurse: usize) -> Result<Vec<Choice>, AllocError>
    requires weeks { length tables.now ≤ most_weeks }
    requires nurse { nurse < most_nurses }
    ensures { IfOk result (λ row. row.items ≡ row_meant tables.now nurse) }
{
    let days = 7 * tables.len();
    let mut row = Vec::with_capacity(alloc, days)?;
    for day in 0..days {
        let choice = match tables[day / 7].get(7 * nurse + day % 7) {
            Some(choice) => choice,
            None => Choice::Off,
        };
        row.push(choice)?;
    }
    Ok(row)
}

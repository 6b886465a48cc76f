//! What the four texts say: numbers, days, and names as tokens of the source.

ghost use Rattle.std.specs.Prelude.{◌≡◌, ◌==◌, length};

use crate::token::Token;
use std::marker::Model;

/// A day of the week.
#[derive(Clone, Copy, Debug, PartialEq, Eq)]
pub enum Day {
    Monday,
    Tuesday,
    Wednesday,
    Thursday,
    Friday,
    Saturday,
    Sunday,
}

impl Day {
    ghost use Rattle.std.specs.Prelude.{◌≡◌};
    ghost use Rattle.roster_bundle.specs.Weekdays.{short, long};

    /// The days of a week, from Monday on.
    pub const ALL: [Day; 7] = [
        Day::Monday,
        Day::Tuesday,
        Day::Wednesday,
        Day::Thursday,
        Day::Friday,
        Day::Saturday,
        Day::Sunday,
    ];

    /// The day in three letters, as it is written.
    pub fn short(self) -> &'static str
        ensures { result.now ≡ short self }
    {
        match self {
            Day::Monday => "Mon",
            Day::Tuesday => "Tue",
            Day::Wednesday => "Wed",
            Day::Thursday => "Thu",
            Day::Friday => "Fri",
            Day::Saturday => "Sat",
            Day::Sunday => "Sun",
        }
    }

    /// The day's full name, which is accepted as well.
    pub fn long(self) -> &'static str
        ensures { result.now ≡ long self }
    {
        match self {
            Day::Monday => "Monday",
            Day::Tuesday => "Tuesday",
            Day::Wednesday => "Wednesday",
            Day::Thursday => "Thursday",
            Day::Friday => "Friday",
            Day::Saturday => "Saturday",
            Day::Sunday => "Sunday",
        }
    }
}

/// The items of a section, in the order of the text.
pub struct Items<T> {
    items: Vec<T>,
}

impl<T: Drop> Drop for Items<T> {
    fn drop(self) {
        let Items { items: _ } = self;
    }
}

impl<T> Model for Items<T> {
    ghost use Rattle.std.specs.Prelude.{List};

    ghost Value = { List T };

    ghost view = { λ a. a.items.items };
}

impl<T> Items<T> {
    /// The items of a list.
    pub fn from_vec(items: Vec<T>) -> Self
        ensures { result ≡ items.items }
    {
        Items { items }
    }

    pub fn as_slice(&self) -> &[T]
        ensures { result.now ≡ self.now }
    {
        self.items.as_slice()
    }

    /// The number of items.
    pub fn len(&self) -> usize
        ensures { result ≡ length self.now }
    {
        self.items.len()
    }

    pub fn is_empty(&self) -> bool
        ensures { result ≡ (length self.now == 0) }
    {
        self.items.is_empty()
    }
}

/// A number, and the token that it was read from.
#[derive(Clone, Copy)]
pub struct Number {
    pub token: Token,
    pub value: u32,
}

/// A section that begins with the count of its items; the count keeps its token.
pub struct Listed<T> {
    pub count: Token,
    pub items: Items<T>,
}

impl<T: Drop> Drop for Listed<T> {
    fn drop(self) {
        let Listed { count: _, items: _ } = self;
    }
}

/// A least and a greatest number, or a minimum and an optimum, each from 0 to 999.
#[derive(Clone, Copy)]
pub struct Pair {
    pub least: u16,
    pub greatest: u16,
}

/// A shift, and how many days in a row it is to be worked.
#[derive(Clone, Copy)]
pub struct ShiftType {
    pub name: Token,
    pub run: Pair,
}

/// The shifts that may not follow a shift on the next day.
#[derive(Drop)]
pub struct Succession {
    pub shift: Token,
    pub forbidden: Items<Token>,
}

/// What a contract asks for: the numbers of assignments, of days in a row of work and of days off, of worked
/// weekends, and whether weekends are to be complete.
#[derive(Clone, Copy)]
pub struct Contract {
    pub name: Token,
    pub total: Pair,
    pub working: Pair,
    pub free: Pair,
    pub weekends: u16,
    /// 1 if a weekend is to be worked whole or not at all, else 0.
    pub complete_weekends: u16,
}

/// A nurse with the name of a contract and the names of skills.
#[derive(Drop)]
pub struct Nurse {
    pub name: Token,
    pub contract: Token,
    pub skills: Items<Token>,
}

/// The scenario: what stays the same in every week.
pub struct Scenario {
    pub name: Token,
    pub weeks: Number,
    pub skills: Listed<Token>,
    pub shifts: Listed<ShiftType>,
    pub successions: Items<Succession>,
    pub contracts: Listed<Contract>,
    pub nurses: Listed<Nurse>,
}

impl Drop for Scenario {
    fn drop(self) {
        let Scenario {
            name: _,
            weeks: _,
            skills: _,
            shifts: _,
            successions: _,
            contracts: _,
            nurses: _,
        } = self;
    }
}

/// What a nurse did before the first Monday. The last shift may be the word `None`.
#[derive(Clone, Copy)]
pub struct NurseHistory {
    pub nurse: Token,
    pub assignments: u16,
    pub weekends: u16,
    pub last_shift: Token,
    pub shift_run: u16,
    pub working_run: u16,
    pub free_run: u16,
}

/// The history: a line for each nurse.
#[derive(Drop)]
pub struct History {
    pub week: Number,
    pub scenario: Token,
    pub nurses: Items<NurseHistory>,
}

/// A pair for each day of a week.
#[derive(Clone, Copy)]
pub struct WeekPairs {
    pub monday: Pair,
    pub tuesday: Pair,
    pub wednesday: Pair,
    pub thursday: Pair,
    pub friday: Pair,
    pub saturday: Pair,
    pub sunday: Pair,
}

/// How many nurses a shift and skill needs at least, and at best, on each day of a week.
#[derive(Clone, Copy)]
pub struct Requirement {
    pub shift: Token,
    pub skill: Token,
    pub days: WeekPairs,
}

/// A request: a nurse asks for a day free of a shift, or for a day with it; the shift may be the word `Any`.
#[derive(Clone, Copy)]
pub struct Request {
    pub nurse: Token,
    pub shift: Token,
    pub day: Day,
}

/// A nurse and a day, as absences and fixed days are listed.
#[derive(Clone, Copy)]
pub struct NurseDay {
    pub nurse: Token,
    pub day: Day,
}

/// What one week asks for.
#[derive(Drop)]
pub struct WeekData {
    pub scenario: Token,
    pub requirements: Items<Requirement>,
    pub off_requests: Listed<Request>,
    /// The wishes to work, if the week has that section.
    pub on_requests: Option<Listed<Request>>,
    /// The absences, if the week has that section.
    pub absences: Option<Listed<NurseDay>>,
    /// The days whose choice stays as the solution has it, if the week has that section.
    pub fixed_days: Option<Listed<NurseDay>>,
}

/// A nurse works a shift with a skill on a day.
#[derive(Clone, Copy)]
pub struct Assignment {
    pub nurse: Token,
    pub day: Day,
    pub shift: Token,
    pub skill: Token,
}

/// The roster of one week.
#[derive(Drop)]
pub struct Solution {
    pub week: Number,
    pub scenario: Token,
    pub assignments: Listed<Assignment>,
}

/// The four texts: a scenario, a history, the data of each week and a solution for each week.
pub struct Bundle {
    pub scenario: Scenario,
    pub history: History,
    pub week_data: Items<WeekData>,
    pub solutions: Items<Solution>,
}

// Written by hand, so that a function that drops a bundle has one call to prove, not the drops of all its
// fields.
impl Drop for Bundle {
    fn drop(self) {
        let Bundle {
            scenario: _,
            history: _,
            week_data: _,
            solutions: _,
        } = self;
    }
}

impl Bundle {
    /// The number of weeks.
    pub fn weeks(&self) -> usize
        ensures { result ≡ length self.now.week_data }
    {
        self.week_data.len()
    }
}

//! A ward: its nurses, and a roster that keeps the hard rules.

use crate::kind::Kind;
use crate::random::Random;
use std::alloc::{AllocError, Global};

/// What a nurse does on a day.
#[derive(Clone, Copy)]
pub struct Duty {
    pub shift: usize,
    pub skill: usize,
}

/// A week of a nurse, from Monday to Sunday.
pub type Week = [Option<Duty>; 7];

#[derive(Clone, Copy)]
pub enum Contract {
    FullTime,
    PartTime,
    HalfTime,
}

impl Contract {
    fn draw(random: &mut Random) -> Contract {
        match random.below(6) {
            0..=2 => Contract::FullTime,
            3 => Contract::PartTime,
            _ => Contract::HalfTime,
        }
    }

    /// The greatest number of days off in a row that a draw gives.
    fn most_days_off(self) -> usize {
        match self {
            Contract::FullTime => 3,
            Contract::PartTime => 5,
            Contract::HalfTime => 8,
        }
    }

    /// How many weekends in four weeks a contract allows.
    pub fn weekends(self) -> usize {
        match self {
            Contract::FullTime | Contract::PartTime => 2,
            Contract::HalfTime => 1,
        }
    }

    pub fn name(self) -> &'static str {
        match self {
            Contract::FullTime => "FullTime",
            Contract::PartTime => "PartTime",
            Contract::HalfTime => "HalfTime",
        }
    }
}

/// The days before the first Monday.
#[derive(Clone, Copy)]
pub enum Past {
    /// A number of days of work, and how many of them, up to the last, have this shift.
    Working {
        shift: usize,
        same: usize,
        days: usize,
    },
    Off {
        days: usize,
    },
}

impl Past {
    fn draw(kind: Kind, random: &mut Random) -> Past {
        if random.below(2) == 0 {
            let days = random.between(1, 5);
            return Past::Off { days };
        }
        let days = random.between(2, 5);
        Past::Working {
            shift: random.below(kind.shifts().len()),
            same: random.between(1, days),
            days,
        }
    }
}

/// A nurse whose skills are `skills` consecutive ones from `first_skill` on.
#[derive(Drop)]
pub struct Nurse {
    pub contract: Contract,
    pub first_skill: usize,
    pub skills: usize,
    pub past: Past,
    pub row: Vec<Week>,
}

impl Nurse {
    fn draw(
        alloc: Global,
        kind: Kind,
        weeks: u32,
        random: &mut Random,
    ) -> Result<Nurse, AllocError> {
        let (first_skill, skills) = draw_skills(kind, random);
        let mut nurse = Nurse {
            contract: Contract::draw(random),
            first_skill,
            skills,
            past: Past::draw(kind, random),
            row: Vec::new(alloc),
        };
        let mut run = Run::after(nurse.past, random);
        for _ in 0..weeks {
            let mut week = [None; 7];
            for duty in week.iter_mut() {
                *duty = run.next_day(kind, &nurse, random);
            }
            nurse.row.push(week)?;
        }
        Ok(nurse)
    }
}

/// Draws a nurse's first skill, and how many skills there are.
fn draw_skills(kind: Kind, random: &mut Random) -> (usize, usize) {
    if kind == Kind::Wide {
        return (0, kind.skills().len());
    }
    match random.below(30) {
        0..=4 => (0, 2),
        5..=10 => (1, 1),
        11..=16 => (1, 2),
        17..=23 => (2, 1),
        24..=25 => (2, 2),
        _ => (3, 1),
    }
}

/// A run of days of work or days off, with the number of days that are left.
#[derive(Drop)]
struct Run {
    is_work: bool,
    shift: usize,
    left: usize,
}

impl Run {
    /// What is left of the last run before the first Monday.
    fn after(past: Past, random: &mut Random) -> Run {
        let (is_work, shift) = match past {
            Past::Working { shift, .. } => (true, shift),
            Past::Off { .. } => (false, 0),
        };
        Run {
            is_work,
            shift,
            left: random.below(3),
        }
    }

    fn next_day(&mut self, kind: Kind, nurse: &Nurse, random: &mut Random) -> Option<Duty> {
        if self.left == 0 {
            self.turn(kind, nurse.contract, random);
        }
        self.left = self.left.saturating_sub(1);
        if !self.is_work {
            return None;
        }
        if random.below(6) == 0 {
            let other = random.below(kind.shifts().len());
            if kind.may_follow(self.shift, other) {
                self.shift = other;
            }
        }
        Some(Duty {
            shift: self.shift,
            skill: nurse.first_skill.saturating_add(random.below(nurse.skills)),
        })
    }

    /// Begins the next run.
    fn turn(&mut self, kind: Kind, contract: Contract, random: &mut Random) {
        self.is_work = !self.is_work;
        if self.is_work {
            self.shift = random.below(kind.shifts().len());
            self.left = random.between(3, 5);
        } else {
            self.left = random.between(2, contract.most_days_off());
        }
    }
}

/// A ward with its roster.
#[derive(Drop)]
pub struct Ward {
    pub kind: Kind,
    pub weeks: u32,
    pub nurses: Vec<Nurse>,
}

impl Ward {
    pub fn draw(
        alloc: Global,
        kind: Kind,
        count: u32,
        weeks: u32,
        random: &mut Random,
    ) -> Result<Ward, AllocError> {
        let mut nurses = Vec::new(alloc);
        for _ in 0..count {
            let nurse = Nurse::draw(alloc, kind, weeks, random)?;
            nurses.push(nurse)?;
        }
        Ok(Ward {
            kind,
            weeks,
            nurses,
        })
    }
    /// How many nurses do what on the days of a week.
    pub fn staffing(&self, alloc: Global, week: usize) -> Result<Staffing, AllocError> {
        let mut staffing = Staffing {
            counts: vec![in alloc; 0; SLOTS]?,
        };
        for nurse in self.nurses.iter() {
            if let Some(days) = nurse.row.get(week) {
                for (day, duty) in days.iter().enumerate() {
                    if let Some(duty) = duty {
                        staffing.add(*duty, day);
                    }
                }
            }
        }
        Ok(staffing)
    }

    /// How many duties there are in a week.
    pub fn duties(&self, week: usize) -> usize {
        let mut sum = 0usize;
        for nurse in self.nurses.iter() {
            if let Some(days) = nurse.row.get(week) {
                sum = sum.saturating_add(days.iter().filter(|duty| duty.is_some()).count());
            }
        }
        sum
    }
}

/// The index of a shift, skill and day of a week.
const SLOTS: usize = 448;

/// How many nurses do what on the days of a week.
#[derive(Drop)]
pub struct Staffing {
    counts: Vec<usize>,
}

impl Staffing {
    fn add(&mut self, duty: Duty, day: usize) {
        if let Some(count) = self.counts.get_mut(position(duty, day)) {
            *count = count.saturating_add(1);
        }
    }

    /// How many nurses do this on a day.
    pub fn count(&self, duty: Duty, day: usize) -> usize {
        self.counts.get(position(duty, day)).copied().unwrap_or(0)
    }
}

fn position(duty: Duty, day: usize) -> usize {
    let pair = duty.shift.wrapping_mul(8).wrapping_add(duty.skill);
    pair.wrapping_mul(7).wrapping_add(day)
}

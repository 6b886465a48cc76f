//! The text of a bundle.

use crate::kind::Kind;
use crate::random::Random;
use crate::text::Text;
use crate::ward::{Contract, Duty, Nurse, Past, Staffing, Ward};
use std::alloc::{AllocError, Global};

/// The days, each with a blank in front.
static DAYS: [&str; 7] = [" Mon", " Tue", " Wed", " Thu", " Fri", " Sat", " Sun"];

/// Contracts that make 1,048,320 states each.
const WIDE_CONTRACTS: &str = "FullTime (2,181) (1,7) (1,7) 9 1\n\
     PartTime (2,129) (1,7) (1,7) 13 1\nHalfTime (2,90) (1,7) (1,7) 19 0\n";

/// How large a ward is, and the seed of its bundles.
#[derive(Clone, Copy)]
pub struct Size {
    pub kind: Kind,
    pub nurses: u32,
    pub weeks: u32,
    pub seed: u32,
}

impl Size {
    /// The bundle of this size with this number. No two are the same.
    pub fn bundle(&self, alloc: Global, number: u32) -> Result<Vec<u8>, AllocError> {
        let mut random = Random::new(self.seed, number);
        let ward = Ward::draw(alloc, self.kind, self.nurses, self.weeks, &mut random)?;
        let mut writer = Writer {
            number,
            text: Text::new(alloc),
        };
        writer.put_scenario(&ward)?;
        writer.put_history(&ward)?;
        for week in 0..self.weeks as usize {
            let staffing = ward.staffing(alloc, week)?;
            writer.put_requirements(ward.kind, &staffing, &mut random)?;
            let requests = draw_requests(alloc, &ward, &mut random)?;
            writer.put_requests(&requests)?;
        }
        let endings = endings_of(alloc, self.kind)?;
        for week in 0..self.weeks as usize {
            writer.put_solution(&ward, week, &endings)?;
        }
        Ok(writer.text.into_bytes())
    }
}

/// A day on which a nurse doesn't want to work a shift, or any.
#[derive(Clone, Copy)]
struct OffRequest {
    nurse: usize,
    shift: Option<&'static str>,
    day: &'static str,
}

/// The requests of three nurses in five, half of them for a day without any shift.
fn draw_requests(
    alloc: Global,
    ward: &Ward,
    random: &mut Random,
) -> Result<Vec<OffRequest>, AllocError> {
    let mut requests = Vec::new(alloc);
    let shifts = ward.kind.shifts();
    for nurse in 0..ward.nurses.len() {
        if random.below(5) < 3 {
            let shift = random.below(shifts.len().saturating_mul(2));
            let day = random.below(DAYS.len());
            requests.push(OffRequest {
                nurse,
                shift: shifts.get(shift).copied(),
                day: DAYS.get(day).copied().unwrap_or(" Mon"),
            })?;
        }
    }
    Ok(requests)
}

/// A minimum that this number of nurses keeps, and an optimum.
fn draw_demand(kind: Kind, present: usize, random: &mut Random) -> (usize, usize) {
    let fewest = present.saturating_sub(random.below(2));
    let has_minimum = random.below(10) >= 4 && kind != Kind::Empty;
    let minimum = if has_minimum { fewest } else { 0 };
    (minimum, minimum.saturating_add(random.below(3)))
}

/// A bundle that is being written.
#[derive(Drop)]
struct Writer {
    number: u32,
    text: Text,
}

impl Writer {
    /// Puts the name of the scenario, which has the bundle's number.
    fn put_name(&mut self) -> Result<(), AllocError> {
        self.text.put("bench")?;
        self.text.put_number(self.number as usize)?;
        self.text.put("\n\n")
    }

    fn put_count(&mut self, section: &str, count: usize) -> Result<(), AllocError> {
        self.text.put(section)?;
        self.text.put(" = ")?;
        self.text.put_number(count)?;
        self.text.put("\n")
    }

    fn put_scenario(&mut self, ward: &Ward) -> Result<(), AllocError> {
        self.text.put("SCENARIO = ")?;
        self.put_name()?;
        self.put_count("WEEKS", ward.weeks as usize)?;
        self.put_count("\nSKILLS", ward.kind.skills().len())?;
        for skill in ward.kind.skills() {
            self.text.put(*skill)?;
            self.text.put("\n")?;
        }
        self.text.put("\n")?;
        self.text.put(ward.kind.shift_types())?;
        self.text.put("\nFORBIDDEN_SHIFT_TYPES_SUCCESSIONS\n")?;
        self.text.put(ward.kind.successions())?;
        self.text.put("\nCONTRACTS = 3\n")?;
        put_contracts(&mut self.text, ward.kind, ward.weeks as usize)?;
        self.put_count("\nNURSES", ward.nurses.len())?;
        for (index, nurse) in ward.nurses.iter().enumerate() {
            put_nurse_line(&mut self.text, ward.kind, index, nurse)?;
        }
        Ok(())
    }

    fn put_history(&mut self, ward: &Ward) -> Result<(), AllocError> {
        self.text.put("\nHISTORY\n0 ")?;
        self.put_name()?;
        self.text.put("NURSE_HISTORY\n")?;
        for (index, nurse) in ward.nurses.iter().enumerate() {
            self.text.put_nurse(index)?;
            put_past(&mut self.text, ward.kind, nurse.past)?;
        }
        Ok(())
    }

    fn put_requirements(
        &mut self,
        kind: Kind,
        staffing: &Staffing,
        random: &mut Random,
    ) -> Result<(), AllocError> {
        self.text.put("\nWEEK_DATA\n")?;
        self.put_name()?;
        self.text.put("REQUIREMENTS\n")?;
        for (shift, shift_name) in kind.shifts().iter().enumerate() {
            for (skill, skill_name) in kind.skills().iter().enumerate() {
                self.text.put(*shift_name)?;
                self.text.put(" ")?;
                self.text.put(*skill_name)?;
                for day in 0..7 {
                    let present = staffing.count(Duty { shift, skill }, day);
                    let (minimum, optimum) = draw_demand(kind, present, random);
                    self.text.put_pair(minimum, optimum)?;
                }
                self.text.put("\n")?;
            }
        }
        Ok(())
    }

    fn put_requests(&mut self, requests: &[OffRequest]) -> Result<(), AllocError> {
        self.put_count("\nSHIFT_OFF_REQUESTS", requests.len())?;
        for request in requests {
            self.text.put_nurse(request.nurse)?;
            self.text.put(" ")?;
            self.text.put(request.shift.unwrap_or("Any"))?;
            self.text.put(request.day)?;
            self.text.put("\n")?;
        }
        Ok(())
    }

    fn put_solution(
        &mut self,
        ward: &Ward,
        week: usize,
        endings: &[Vec<u8>],
    ) -> Result<(), AllocError> {
        self.text.put("\nSOLUTION\n")?;
        self.text.put_number(week)?;
        self.text.put(" ")?;
        self.put_name()?;
        if ward.kind == Kind::Empty {
            return self.put_count("ASSIGNMENTS", 0);
        }
        let skills = ward.kind.skills().len();
        self.put_count("ASSIGNMENTS", ward.duties(week))?;
        for (index, nurse) in ward.nurses.iter().enumerate() {
            if let Some(days) = nurse.row.get(week) {
                for (day, duty) in DAYS.iter().zip(days.iter()) {
                    if let Some(duty) = duty {
                        let position = duty.shift.wrapping_mul(skills).wrapping_add(duty.skill);
                        self.text.put_nurse(index)?;
                        self.text.put(*day)?;
                        if let Some(ending) = endings.get(position) {
                            self.text.put_bytes(ending)?;
                        }
                    }
                }
            }
        }
        Ok(())
    }
}

/// What an assignment's line ends with: the names of each shift and skill. Most lines of a bundle are of this
/// kind.
fn endings_of(alloc: Global, kind: Kind) -> Result<Vec<Vec<u8>>, AllocError> {
    let mut endings = Vec::new(alloc);
    for shift in kind.shifts() {
        for skill in kind.skills() {
            let mut ending = Text::new(alloc);
            ending.put(" ")?;
            ending.put(*shift)?;
            ending.put(" ")?;
            ending.put(*skill)?;
            ending.put("\n")?;
            endings.push(ending.into_bytes())?;
        }
    }
    Ok(endings)
}

/// Puts the contracts. Their numbers are those of four weeks, scaled to the ward's weeks.
fn put_contracts(text: &mut Text, kind: Kind, weeks: usize) -> Result<(), AllocError> {
    if kind == Kind::Wide {
        return text.put(WIDE_CONTRACTS);
    }
    put_contract(text, Contract::FullTime, (15, 22), " (3,5) (2,3) ", weeks)?;
    put_contract(text, Contract::PartTime, (7, 15), " (3,5) (2,5) ", weeks)?;
    put_contract(text, Contract::HalfTime, (5, 11), " (3,5) (3,5) ", weeks)
}

/// Puts a contract. Its totals are capped, since in a year there would be too many states otherwise.
fn put_contract(
    text: &mut Text,
    contract: Contract,
    assignments: (usize, usize),
    runs: &str,
    weeks: usize,
) -> Result<(), AllocError> {
    let scaled = |number: usize| number.saturating_mul(weeks) / 4;
    text.put(contract.name())?;
    text.put_pair(scaled(assignments.0), scaled(assignments.1).min(240))?;
    text.put(runs)?;
    text.put_number(scaled(contract.weekends()).min(19))?;
    text.put(" 1\n")
}

fn put_nurse_line(
    text: &mut Text,
    kind: Kind,
    index: usize,
    nurse: &Nurse,
) -> Result<(), AllocError> {
    text.put_nurse(index)?;
    text.put(" ")?;
    text.put(nurse.contract.name())?;
    text.put(" ")?;
    text.put_number(nurse.skills)?;
    for skill in kind
        .skills()
        .iter()
        .skip(nurse.first_skill)
        .take(nurse.skills)
    {
        text.put(" ")?;
        text.put(*skill)?;
    }
    text.put("\n")
}

/// Puts what a nurse did before the first Monday. The history counts no assignment and no weekend yet.
fn put_past(text: &mut Text, kind: Kind, past: Past) -> Result<(), AllocError> {
    text.put(" 0 0 ")?;
    match past {
        Past::Working { shift, same, days } => {
            text.put(name_at(kind.shifts(), shift))?;
            text.put(" ")?;
            text.put_number(same)?;
            text.put(" ")?;
            text.put_number(days)?;
            text.put(" 0\n")
        }
        Past::Off { days } => {
            text.put("None 0 0 ")?;
            text.put_number(days)?;
            text.put("\n")
        }
    }
}

/// The name at an index.
fn name_at(names: &[&'static str], index: usize) -> &'static str {
    names.get(index).copied().unwrap_or("None")
}

//! The kinds of wards.

/// What a ward is like.
#[derive(Clone, Copy, PartialEq, Eq)]
pub enum Kind {
    /// A ward like those of the competition.
    Ward,
    /// The same, with so few states for each nurse that a year fits.
    Year,
    /// The same as `Ward`, with minimums of 0 and an empty roster.
    Empty,
    /// Eight shifts, eight skills, and nurses with nearly as many states as there may be.
    Wide,
}

static WARD_SHIFTS: [&str; 4] = ["Early", "Day", "Late", "Night"];

static WARD_SKILLS: [&str; 4] = ["HeadNurse", "Nurse", "Caretaker", "Trainee"];

static WIDE_SHIFTS: [&str; 8] = [
    "Shift0", "Shift1", "Shift2", "Shift3", "Shift4", "Shift5", "Shift6", "Shift7",
];

static WIDE_SKILLS: [&str; 8] = [
    "Skill0", "Skill1", "Skill2", "Skill3", "Skill4", "Skill5", "Skill6", "Skill7",
];

const WARD_SHIFT_TYPES: &str =
    "SHIFT_TYPES = 4\nEarly (2,5)\nDay (2,28)\nLate (2,5)\nNight (4,5)\n";

const YEAR_SHIFT_TYPES: &str = "SHIFT_TYPES = 4\nEarly (2,5)\nDay (2,5)\nLate (2,5)\nNight (4,5)\n";

const WIDE_SHIFT_TYPES: &str = "SHIFT_TYPES = 8\nShift0 (1,7)\nShift1 (1,7)\nShift2 (1,7)\n\
     Shift3 (1,7)\nShift4 (1,7)\nShift5 (1,7)\nShift6 (1,7)\nShift7 (1,7)\n";

const WARD_SUCCESSIONS: &str = "Early 0\nDay 1 Early\nLate 2 Early Day\nNight 3 Early Day Late\n";

const WIDE_SUCCESSIONS: &str = "Shift0 1 Shift1\nShift1 1 Shift2\nShift2 1 Shift3\n\
     Shift3 1 Shift4\nShift4 1 Shift5\nShift5 1 Shift6\nShift6 1 Shift7\nShift7 1 Shift0\n";

impl Kind {
    pub fn of_word(word: &str) -> Option<Kind> {
        match word {
            "ward" => Some(Kind::Ward),
            "year" => Some(Kind::Year),
            "empty" => Some(Kind::Empty),
            "wide" => Some(Kind::Wide),
            _ => None,
        }
    }

    /// The most weeks that fit: with more a nurse would have too many states.
    pub fn most_weeks(self) -> u32 {
        match self {
            Kind::Ward | Kind::Empty => 19,
            Kind::Year | Kind::Wide => 52,
        }
    }

    pub fn shifts(self) -> &'static [&'static str] {
        match self {
            Kind::Wide => &WIDE_SHIFTS,
            _ => &WARD_SHIFTS,
        }
    }

    pub fn skills(self) -> &'static [&'static str] {
        match self {
            Kind::Wide => &WIDE_SKILLS,
            _ => &WARD_SKILLS,
        }
    }

    pub fn shift_types(self) -> &'static str {
        match self {
            Kind::Ward | Kind::Empty => WARD_SHIFT_TYPES,
            Kind::Year => YEAR_SHIFT_TYPES,
            Kind::Wide => WIDE_SHIFT_TYPES,
        }
    }

    pub fn successions(self) -> &'static str {
        match self {
            Kind::Wide => WIDE_SUCCESSIONS,
            _ => WARD_SUCCESSIONS,
        }
    }

    /// Whether the successions let a shift follow another on the next day.
    pub fn may_follow(self, before: usize, after: usize) -> bool {
        match self {
            Kind::Wide => after != before.saturating_add(1) % 8,
            _ => after >= before,
        }
    }
}

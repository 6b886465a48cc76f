//! What the hard rules ask of a nurse: the skill for the work, no work in an absence, and a shift that may
//! follow the one before.

ghost use Rattle.std.specs.Prelude.{◌≡◌, ◌<◌, ◌==◌};
ghost use Rattle.std.specs.List.{list_any};
ghost use Rattle.roster_instance.specs.Meaning.{last_shift, nurse_count};
ghost use Rattle.roster_rules.specs.HardRules.{is_able, is_here, may_take};

use roster_instance::{Border, Case, Choice, Shift, Skill};

/// The shift that the history ends with, if any.
pub fn last_shift(border: Border) -> Option<Shift>
    ensures { result ≡ last_shift border }
{
    match border {
        Border::Free(_) => None,
        Border::Working { shift, .. } => Some(shift),
    }
}

/// Whether a nurse with these skills has the skill for a choice.
pub fn is_able(skills: &[Skill], choice: Choice) -> bool
    ensures { result ≡ is_able skills.now choice }
{
    match choice {
        Choice::Off => true,
        Choice::Work(_, skill) => has_skill(skills, skill),
    }
}

/// Whether a nurse's absence allows a choice on a day: an absent nurse doesn't work.
pub fn is_here(case: &Case, nurse: usize, day: u16, choice: Choice) -> bool
    requires { nurse < nurse_count case.now }
    ensures { result ≡ is_here case.now nurse day choice }
{
    match choice {
        Choice::Off => true,
        Choice::Work(..) => !case.is_absent(nurse, day),
    }
}

/// Whether a nurse has the skill for a choice, and isn't absent if it is work.
pub fn may_take(case: &Case, nurse: usize, day: u16, choice: Choice) -> bool
    requires { nurse < nurse_count case.now }
    ensures { result ≡ may_take case.now nurse day choice }
{
    is_able(case.skills_of(nurse), choice) && is_here(case, nurse, day, choice)
}

fn has_skill(skills: &[Skill], skill: Skill) -> bool
    ensures { result ≡ list_any (λ own. own.0 == skill.0) skills.now }
{
    skills.iter().any(|own| own.0 == skill.0)
}

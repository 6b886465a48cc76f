//! Whether a row may replace a nurse's row.

ghost use Rattle.std.specs.Prelude.{◌≡◌, ◌<◌, ◌&&◌, not, nat_lt};
ghost use Rattle.roster_instance.specs.Choices.{shift_of};
ghost use Rattle.roster_instance.specs.Meaning.{day_count, forbids, minimum, nurse_count, shift_count, skill_count};
ghost use Rattle.roster_laws.specs.OneRow.{is_open, is_open_row, others};
ghost use Rattle.roster_laws.specs.Staffing.{meets, with_choice};

use crate::held::Held;
use roster_instance::{Choice, Shift, Skill, choice_on};
use roster_rules::{last_shift, may_take};

/// Whether each choice of a row of the case is open on its day and may follow the one before it.
pub(crate) fn is_open_row(held: &Held, nurse: usize, row: &[Choice]) -> bool
    requires { nurse < nurse_count held.now.case }
    ensures { result ≡ is_open_row held.now.case held.now.roster nurse row.now
        (day_count held.now.case) }
{
    let case = held.case();
    let mut last = last_shift(case.past(nurse).border);
    for day in 0..case.days() {
        let choice = choice_on(row, day);
        if !may_follow(held, nurse, day, last, choice) {
            return false;
        }
        last = choice.shift();
    }
    true
}

/// Whether a choice is open, and may follow the shift of the day before.
fn may_follow(held: &Held, nurse: usize, day: u16, last: Option<Shift>, choice: Choice) -> bool
    requires nurse { nurse < nurse_count held.now.case }
    requires day { day < day_count held.now.case }
    ensures { result ≡ (is_open held.now.case held.now.roster nurse day choice && not
        (forbids held.now.case.successions last (shift_of choice))) }
{
    is_open(held, nurse, day, choice) && !held.case().forbids_next(last, choice.shift())
}

/// Whether the nurse has the skill and isn't absent, and each minimum of the day is met with the choice.
fn is_open(held: &Held, nurse: usize, day: u16, choice: Choice) -> bool
    requires nurse { nurse < nurse_count held.now.case }
    requires day { day < day_count held.now.case }
    ensures { result ≡ is_open held.now.case held.now.roster nurse day choice }
{
    may_take(held.case(), nurse, day, choice) && meets(held, nurse, day, choice)
}

fn meets(held: &Held, nurse: usize, day: u16, choice: Choice) -> bool
    requires nurse { nurse < nurse_count held.now.case }
    requires day { day < day_count held.now.case }
    ensures { result ≡ meets held.now.case day
        (with_choice (others held.now.roster nurse day) choice) }
{
    let case = held.case();
    let (shifts, skills) = (case.shifts(), case.skills());
    for shift in 0..shifts {
        for skill in 0..skills {
            if !meets_at(held, nurse, day, choice, Shift(shift), Skill(skill)) {
                return false;
            }
        }
    }
    true
}

/// Whether the minimum of a slot is met.
fn meets_at(held: &Held, nurse: usize, day: u16, choice: Choice, shift: Shift, skill: Skill) -> bool
    requires nurse { nurse < nurse_count held.now.case }
    requires day { day < day_count held.now.case }
    requires shift { shift.0 < shift_count held.now.case }
    requires skill { skill.0 < skill_count held.now.case }
    ensures { result ≡ not (nat_lt (with_choice (others held.now.roster nurse day) choice shift.0
        skill.0) (minimum held.now.case day shift.0 skill.0)) }
{
    let need = held.case().need(day, shift, skill).minimum;
    let own = choice == Choice::Work(shift, skill);
    let have = held.others(nurse, day, shift, skill) as u32 + own as u32;
    have >= need as u32
}

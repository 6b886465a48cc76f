//! Choices as numbers: 0 for a day off, and from 1 on each shift with each skill.

ghost use Rattle.std.specs.Prelude.{◌≡◌};
ghost use Rattle.roster_near.specs.Drawn.{choice_of_number};

use roster_instance::{Choice, Shift, Skill};

/// How many numbers there are: a choice on an open day has the cell of that day and its number.
pub(crate) const NUMBERS: usize = 65;

/// The number of a choice.
pub(crate) fn number_of(choice: Choice) -> u8 {
    match choice {
        Choice::Off => 0,
        Choice::Work(shift, skill) => {
            let number = 1 + 8 * shift.0 as usize + skill.0 as usize;
            number.min(NUMBERS - 1) as u8
        }
    }
}

/// The choice of a number.
pub(crate) fn choice_of(number: u8) -> Choice
    ensures { result ≡ choice_of_number number }
{
    match number.checked_sub(1) {
        Some(work) => Choice::Work(Shift(work / 8), Skill(work % 8)),
        None => Choice::Off,
    }
}

/// The cell of an open day and a number.
pub(crate) fn cell_of(day: usize, number: u8) -> usize {
    day.saturating_mul(NUMBERS).saturating_add(number as usize)
}

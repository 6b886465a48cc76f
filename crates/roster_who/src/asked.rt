//! The assignment that somebody is to take.

ghost use Rattle.std.specs.Prelude.{◌≡◌, ◌<◌, ◌==◌, true};
ghost use Rattle.std.specs.Option.{option_map_or};
ghost use Rattle.roster_instance.specs.declared.choice.Skill.{Skill};
ghost use Rattle.roster_instance.specs.Meaning.{day_count};
ghost use Rattle.roster_instance.specs.Rosters.{fits_case};
ghost use Rattle.roster_who.specs.Offers.{AreCounted};
ghost use Rattle.roster_who.specs.Who.{is_asked};

use roster_instance::{Case, Choice, Roster, Shift, Skill};

/// An assignment that somebody is to take: a shift of a day, with a skill, or with any skill if none is
/// named.
#[derive(Clone, Copy, Debug, PartialEq, Eq)]
pub struct Asked {
    pub day: u16,
    pub shift: Shift,
    pub skill: Option<Skill>,
}

/// The question: the assignment, and the roster it is asked of, in which absent nurses are off, with the
/// cover of each slot of each day. The frozen days stay.
#[derive(Clone, Copy)]
pub(crate) struct Asking<'a> {
    pub(crate) case: &'a Case,
    pub(crate) roster: &'a Roster,
    pub(crate) covers: &'a [[u16; 64]],
    pub(crate) asked: Asked,
    pub(crate) from: u16,
    pub(crate) ghost fits: { fits_case case.now roster.now ≡ true },
    pub(crate) ghost day: { asked.day < day_count case.now },
    pub(crate) ghost counted: { AreCounted case.now roster.now covers.now },
}

/// Whether a choice is the assignment.
pub(crate) fn is_asked(asked: Asked, choice: Choice) -> bool
    ensures { result ≡ is_asked asked choice }
{
    match choice {
        Choice::Off => false,
        Choice::Work(shift, skill) => shift.0 == asked.shift.0 && is_skill(asked.skill, skill),
    }
}

fn is_skill(asked: Option<Skill>, skill: Skill) -> bool
    ensures { result ≡ option_map_or (λ (own : Skill). own.0 == skill.0) asked true }
{
    match asked {
        None => true,
        Some(own) => own.0 == skill.0,
    }
}

//! What a nurse does on a day.

/// A shift by its number, in the order of the scenario.
#[derive(Clone, Copy, Debug, Default, PartialEq, Eq)]
pub struct Shift(pub u8);

/// A skill by its number, in the order of the scenario.
#[derive(Clone, Copy, Debug, Default, PartialEq, Eq)]
pub struct Skill(pub u8);

/// What a nurse does on a day: off, or a shift worked with a skill.
#[derive(Clone, Copy, Debug, Default, PartialEq, Eq)]
pub enum Choice {
    #[default]
    Off,
    Work(Shift, Skill),
}

impl Choice {
    ghost use Rattle.std.specs.Prelude.{◌≡◌};
    ghost use Rattle.roster_instance.specs.Choices.{shift_of};

    /// The shift that is worked, if any.
    pub fn shift(self) -> Option<Shift>
        ensures { result ≡ shift_of self }
    {
        match self {
            Choice::Off => None,
            Choice::Work(shift, _) => Some(shift),
        }
    }
}

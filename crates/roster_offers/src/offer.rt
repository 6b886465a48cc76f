//! An offer of a day.

use roster_instance::Choice;

/// The greatest number of choices that a nurse has on a day: a day off, and each shift with each skill.
pub const MOST_CHOICES: usize = 65;

/// The greatest number of offers that a search goes over on a day: a day off, and one for each shift.
pub const MOST_OFFERS: usize = 9;

/// A choice that is offered to a nurse on a day, with its price in penalty points: that of the day's
/// staffing, and of the nurse's own requests.
#[derive(Clone, Copy, Debug, PartialEq, Eq)]
pub struct Offer {
    pub choice: Choice,
    pub price: u32,
}

impl Default for Offer {
    ghost use Rattle.std.specs.Prelude.{◌≡◌};
    ghost use Rattle.roster_instance.specs.declared.choice.Choice.TheVariants.{Off};

    /// A day off, at no price.
    ghost is_default = { λ offer. offer ≡ record { choice = Off; price = 0 } };

    fn default() -> Offer {
        Offer {
            choice: Choice::default(),
            price: 0,
        }
    }
}

//! A week of a roster, as it is written.

ghost use Rattle.std.specs.Prelude.{◌≡◌, ◌<◌, true};
ghost use Rattle.roster_instance.specs.Meaning.{week_count};
ghost use Rattle.roster_instance.specs.Rosters.{fits_case};

use crate::held::Held;
use roster_bundle::SolutionView;
use roster_instance::{Case, Choice, Roster};
use std::marker::Model;

/// A week of a roster that fits its case.
#[derive(Drop)]
pub struct WeekView<'a> {
    case: &'a Case,
    roster: &'a Roster,
    week: u16,
}

impl<'a> Model for WeekView<'a> {
    ghost use Rattle.std.specs.Prelude.{◌≡◌, ◌<◌, true};
    ghost use Rattle.roster_instance.specs.Meaning.{week_count};
    ghost use Rattle.roster_instance.specs.Rosters.{fits_case};
    ghost use Rattle.roster_case.specs.Shown.{WeekOf};

    ghost Value = { WeekOf };

    ghost view = { λ v. record { case = v.case.now; roster = v.roster.now; week = v.week } };

    ghost invariant = { λ v. (fits_case v.case.now v.roster.now ≡ true) × (v.week < week_count v.case.now) };
}

impl<'a> WeekView<'a> {
    /// The week with this number, from 0.
    pub fn of(case: &'a Case, roster: &'a Roster, week: u16) -> WeekView<'a>
        requires fitting { fits_case case.now roster.now ≡ true }
        requires within { week < week_count case.now }
        ensures { result ≡ record { case = case.now; roster = roster.now; week = week } }
    {
        WeekView { case, roster, week }
    }

    /// The same for a held roster.
    pub fn of_held(held: &'a Held, week: u16) -> WeekView<'a>
        requires { week < week_count held.now.case }
        ensures { result ≡ record { case = held.now.case; roster = held.now.roster; week = week } }
    {
        WeekView::of(held.case(), held.roster(), week)
    }
}

impl SolutionView for WeekView<'_> {
    ghost use Rattle.roster_case.specs.Shown.{shown_week};

    ghost shown = { λ v. shown_week v.case v.roster v.week };

    fn week(&self) -> u16 {
        self.week
    }

    fn name(&self) -> &[u8] {
        self.case.name()
    }

    fn nurses(&self) -> usize {
        self.case.nurses()
    }

    fn nurse(&self, nurse: usize) -> &[u8] {
        self.case.nurse_name(nurse)
    }

    fn on(&self, nurse: usize, weekday: u16) -> Option<(&[u8], &[u8])> {
        let day = 7 * self.week as usize + weekday as usize;
        match self.roster.row(nurse)[day] {
            Choice::Off => None,
            Choice::Work(shift, skill) => {
                Some((self.case.shift_name(shift), self.case.skill_name(skill)))
            }
        }
    }
}

//! A case, and a roster that fits it.

ghost use Rattle.std.specs.Prelude.{◌≡◌, true};
ghost use Rattle.roster_instance.specs.Rosters.{fits_case};

use roster_instance::{Case, Roster};

/// What the texts of an instance mean.
pub struct Instance {
    pub case: Case,
    pub roster: Roster,
    // The roster has a row of the case for each nurse.
    pub ghost fits: { fits_case case roster ≡ true },
}

// By hand, so that a caller who drops an instance has one call to prove, and not the drop of each field.
impl Drop for Instance {
    fn drop(self) {
        let Instance { case: _, roster: _ } = self;
    }
}

impl Instance {
    /// The case and the roster.
    pub fn into_parts(self) -> (Case, Roster)
        ensures case { result.0 ≡ self.case }
        ensures roster { result.1 ≡ self.roster }
        ensures fits { fits_case result.0 result.1 ≡ true }
    {
        let Instance { case, roster } = self;
        (case, roster)
    }

    /// The case alone.
    pub fn into_case(self) -> Case
        ensures { result ≡ self.case }
    {
        let (case, _) = self.into_parts();
        case
    }
}

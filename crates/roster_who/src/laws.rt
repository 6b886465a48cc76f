//! Who may take a shift of a roster that keeps the hard rules. The function here does nothing: it is a law.

ghost use Rattle.std.specs.Prelude.{◌≡◌, true};
ghost use Rattle.roster_instance.specs.Meaning.{Meaning};
ghost use Rattle.roster_instance.specs.Rosters.{Rows, fits_case};
ghost use Rattle.roster_rules.specs.HardRules.{keeps_hard};
ghost use Rattle.roster_who.specs.Who.{AreAllowedRows, CountPenalties, without_absent_work};

/// If a roster fits the case and keeps the hard rules, it has no work of absent nurses. The rows of a nurse
/// that have an assignment are then her allowed rows that have it, and their cost is the roster's penalty
/// with them.
pub fn takers_have_allowed_rows()
    ensures present { (c : Meaning) (r : Rows) → fits_case c r ≡ true → keeps_hard c r ≡ true →
        without_absent_work c r ≡ r }
    ensures rows { (c : Meaning) (r : Rows) → fits_case c r ≡ true → keeps_hard c r ≡ true →
        AreAllowedRows c r }
    ensures cost { (c : Meaning) (r : Rows) → fits_case c r ≡ true → keeps_hard c r ≡ true →
        CountPenalties c r }
{}

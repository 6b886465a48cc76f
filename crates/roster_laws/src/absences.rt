//! Bundles without absences.

ghost use Rattle.std.specs.Prelude.{◌≡◌, ℕ, List};
ghost use Rattle.roster_bundle.specs.declared.bundle.Bundle.{Bundle};
ghost use Rattle.roster_instance.specs.Bundles.{meaning_of};
ghost use Rattle.roster_instance.specs.Meaning.{Meaning};
ghost use Rattle.roster_instance.specs.Rosters.{Rows};
ghost use Rattle.roster_rules.specs.AllowedRows.{allowed_rows};
ghost use Rattle.roster_rules.specs.HardRules.{hard_faults};
ghost use Rattle.roster_laws.specs.Absences.{ListsNoAbsences, NobodyIsAbsent, first_four_faults, rows_by_first_four};

/// A bundle without the section of absences means a case in which nobody is absent. The hard rules are then
/// H1 to H4: a roster has no other breaches, and a nurse's allowed rows are those with which the roster keeps
/// H1 to H4 and that keep the frozen days.
pub fn absences_are_none()
    ensures nobody { (source : List ℕ) (b : Bundle) → ListsNoAbsences b →
        NobodyIsAbsent (meaning_of source b) }
    ensures breaches { (c : Meaning) → NobodyIsAbsent c → (r : Rows) →
        hard_faults c r ≡ first_four_faults c r }
    ensures rows { (c : Meaning) → NobodyIsAbsent c → (from : ℕ) (r : Rows) (n : ℕ) →
        allowed_rows c from r n ≡ rows_by_first_four c from r n }
{}

//! Bundles without fixed days.

ghost use Rattle.std.specs.Prelude.{◌≡◌, ◌/◌, ℕ, List, nat_lt};
ghost use Rattle.roster_bundle.specs.declared.bundle.Bundle.{Bundle};
ghost use Rattle.roster_instance.specs.Bundles.{meaning_of};
ghost use Rattle.roster_instance.specs.Meaning.{Meaning};
ghost use Rattle.roster_instance.specs.Rosters.{Rows};
ghost use Rattle.roster_rules.specs.AllowedRows.{allowed_rows, is_frozen};
ghost use Rattle.roster_laws.specs.FixedDays.{ListsNoFixedDays, NothingIsFixed, rows_by_weeks};

/// A bundle without the section of fixed days means a case in which no day of a nurse is fixed. The frozen
/// days are then those of the weeks before week `from`, for all nurses, and a nurse's allowed rows are those
/// that keep the hard rules and these days.
pub fn fixed_days_are_none()
    ensures nothing { (source : List ℕ) (b : Bundle) → ListsNoFixedDays b →
        NothingIsFixed (meaning_of source b) }
    ensures frozen { (c : Meaning) → NothingIsFixed c → (from n d : ℕ) →
        is_frozen c from n d ≡ nat_lt (d / 7) from }
    ensures rows { (c : Meaning) → NothingIsFixed c → (from : ℕ) (r : Rows) (n : ℕ) →
        allowed_rows c from r n ≡ rows_by_weeks c from r n }
{}

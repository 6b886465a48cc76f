//! Laws of the definitions, for the crates that go through a row day by day.

ghost use Rattle.std.specs.Prelude.{◌≡◌, ℕ, suc, ◌+◌, ◌-◌, Bool, [], ◌∷◌, ◌++◌, length, Option, is_some, if◌then◌else◌};
ghost use Rattle.roster_instance.specs.Counting.{one_if};
ghost use Rattle.roster_rules.specs.DayLaw.{added_by, open_run_in, splits_more, violations_in, weekends_more};
ghost use Rattle.roster_instance.specs.Days.{Days, days_worked, split_weekends, worked_weekends, works};
ghost use Rattle.roster_instance.specs.RunLaw.{day_violations};
ghost use Rattle.roster_rules.specs.Runs.{open_run, run_violations};
ghost use Rattle.roster_instance.specs.declared.choice.Shift.{Shift};
ghost use Rattle.roster_instance.specs.declared.rules.Limits.{Limits};

/// One more day: the violations of the runs of a kind of days, and the run that is open. They begin with no
/// violations and with the run of the border.
pub fn runs_grow_by_a_day()
    ensures no_violations { (l : Limits) (b : ℕ) (p : ℕ → Bool) → run_violations l b p 0 ≡ 0 }
    ensures border { (b : ℕ) (p : ℕ → Bool) → open_run b p 0 ≡ b }
    ensures violations { (l : Limits) (b : ℕ) (p : ℕ → Bool) (d : ℕ) →
        run_violations l b p (suc d) ≡ run_violations l b p d
        + day_violations l (open_run b p d) (p d) }
    ensures open { (b : ℕ) (p : ℕ → Bool) (d : ℕ) →
        open_run b p (suc d) ≡ (if p d then open_run b p d + 1 else 0) }
{}

/// The same for a row with one more day, if the kind is a test of the day's shift.
pub fn runs_of_a_row_grow_by_a_day()
    ensures violations { (l : Limits) (b : ℕ) (t : Option Shift → Bool) (days : Days)
        (c : Option Shift) → violations_in l b t (days ++ c ∷ []) ≡ violations_in l b t days
        + added_by l b t days c }
    ensures open { (b : ℕ) (t : Option Shift → Bool) (days : Days) (c : Option Shift) →
        open_run_in b t (days ++ c ∷ []) ≡ (if t c then open_run_in b t days + 1 else 0) }
{}

/// The worked days, the worked weekends and the split ones of a row with one more day.
pub fn weekends_grow_by_a_day()
    ensures worked { (days : Days) (c : Option Shift) →
        days_worked (days ++ c ∷ []) ≡ days_worked days + one_if (is_some c) }
    ensures weekends { (days : Days) (c : Option Shift) →
        worked_weekends (days ++ c ∷ []) ≡ worked_weekends days
        + weekends_more (length days) (works days (length days - 1)) (is_some c) }
    ensures split { (days : Days) (c : Option Shift) →
        split_weekends (days ++ c ∷ []) ≡ split_weekends days
        + splits_more (length days) (works days (length days - 1)) (is_some c) }
{}

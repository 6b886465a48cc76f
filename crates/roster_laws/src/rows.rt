//! The rows of a case, those that are allowed, and the best of them.

ghost use Rattle.std.specs.Prelude.{◌≡◌, ◌<◌, ◌↔◌, ℕ, true, AllPairs, Contains, IsSome, count_by, filter};
ghost use Rattle.roster_instance.specs.Choices.{all_choices, all_rows};
ghost use Rattle.roster_instance.specs.Counting.{one_if};
ghost use Rattle.roster_rules.specs.HardRules.{keeps_hard};
ghost use Rattle.roster_rules.specs.Improver.{same_row};
ghost use Rattle.roster_instance.specs.Meaning.{Meaning, day_count, nurse_count};
ghost use Rattle.roster_instance.specs.Rosters.{Row, Rows, fits_case, is_row_of, row_of, with_row};
ghost use Rattle.roster_rules.specs.AllowedRows.{allowed_rows, best_row, keeps_frozen_days, row_keeps};
ghost use Rattle.roster_laws.specs.FixedDays.{NothingIsFixed};
ghost use Rattle.roster_laws.specs.RowOrder.{IsEarlier};

/// The list of all rows has exactly the rows of the case, each once, in their order.
pub fn all_rows_are_the_rows_of_the_case()
    ensures members { (c : Meaning) (row : Row) →
        Contains (all_rows (all_choices c) (day_count c)) row ↔ (is_row_of c row ≡ true) }
    ensures once { (c : Meaning) (row : Row) → count_by (same_row row)
        (all_rows (all_choices c) (day_count c)) ≡ one_if (is_row_of c row) }
    ensures order { (c : Meaning) → AllPairs (IsEarlier (all_choices c))
        (all_rows (all_choices c) (day_count c)) }
{}

/// The allowed rows of a nurse from a week on are exactly the rows of the case with which the roster keeps
/// the hard rules and that keep the nurse's frozen days. If the roster keeps the hard rules, the present row
/// is one of them, so there is a best row. From week 0 on, with no fixed days, no day is frozen, and the
/// allowed rows are all rows with which the roster keeps the hard rules.
pub fn allowed_rows_keep_the_hard_rules()
    ensures members { (c : Meaning) (from : ℕ) (r : Rows) (n : ℕ) (row : Row) →
        Contains (allowed_rows c from r n) row ↔
        ((row_keeps c r n row ≡ true) × (keeps_frozen_days c from r n row ≡ true)) }
    ensures present { (c : Meaning) (from : ℕ) (r : Rows) (n : ℕ) → fits_case c r ≡ true →
        keeps_hard c r ≡ true → n < nurse_count c →
        Contains (allowed_rows c from r n) (row_of r n) }
    ensures best { (c : Meaning) (from : ℕ) (r : Rows) (n : ℕ) → fits_case c r ≡ true →
        keeps_hard c r ≡ true → n < nurse_count c → IsSome (best_row c from r n) }
    ensures from_week_0 { (c : Meaning) → NothingIsFixed c → (r : Rows) (n : ℕ) →
        allowed_rows c 0 r n ≡ filter (λ row. keeps_hard c (with_row r n row))
        (all_rows (all_choices c) (day_count c)) }
{}

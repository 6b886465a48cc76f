//! What the offers of all days say of a nurse's rows.

ghost use Rattle.std.specs.Prelude.{◌≡◌, ◌+◌, ◌<◌, ℕ, true, length};
ghost use Rattle.roster_instance.specs.Choices.{days_of};
ghost use Rattle.roster_instance.specs.Meaning.{Meaning, day_count, nurse_count};
ghost use Rattle.roster_instance.specs.Rosters.{Row, Rows, with_row};
ghost use Rattle.roster_rules.specs.HardRules.{keeps_hard};
ghost use Rattle.roster_rules.specs.Penalties.{request_cost, staffing_cost};
ghost use Rattle.roster_laws.specs.OneRow.{prices};
ghost use Rattle.roster_row.specs.Offers.{OffersGiveRows};

/// In a roster that keeps the hard rules, a row with a choice for each day may replace a nurse's row, so that
/// it is a row of the case and the hard rules and the frozen days are kept, exactly if each of its choices is
/// among the offers of its day and none of its shifts is forbidden by the one before it. The row's prices add
/// up to what the staffing costs with it, and the nurse's requests: off requests against it, and wishes to
/// work that it doesn't meet.
pub fn offers_give_the_allowed_rows()
    ensures allowed { (c : Meaning) (from : ℕ) (r : Rows) → keeps_hard c r ≡ true → (n : ℕ) →
        n < length r → n < nurse_count c → OffersGiveRows c from r n }
    ensures prices { (c : Meaning) (r : Rows) (n : ℕ) → n < length r → (row : Row) →
        length row ≡ day_count c → prices c r n row ≡ staffing_cost c (with_row r n row)
        + request_cost c n (days_of row) }
{}

//! A roster's penalty and the hard rules taken apart, and with one nurse's row replaced.

ghost use Rattle.std.specs.Prelude.{◌≡◌, ◌+◌, ◌*◌, ◌<◌, ◌==◌, ℕ, true, length};
ghost use Rattle.roster_instance.specs.declared.choice.Choice.TheVariants.{Off};
ghost use Rattle.roster_instance.specs.declared.choice.Shift.{Shift};
ghost use Rattle.roster_instance.specs.declared.choice.Skill.{Skill};
ghost use Rattle.roster_instance.specs.Counting.{sum_below};
ghost use Rattle.roster_rules.specs.HardRules.{keeps_hard};
ghost use Rattle.roster_instance.specs.Meaning.{Meaning, day_count, minimum, nurse_count, optimum, shift_count, skill_count};
ghost use Rattle.roster_rules.specs.Penalties.{over_nurses, own_cost, penalty, request_cost, staffing_cost, staffing_cost_by};
ghost use Rattle.roster_instance.specs.Rosters.{Row, Rows, choice_on, cover, with_row};
ghost use Rattle.roster_rules.specs.AllowedRows.{penalty_with};
ghost use Rattle.roster_rules.specs.Weights.{staffing_weight};
ghost use Rattle.roster_laws.specs.OneRow.{AllowedWhereOffered, is_open_row, keeps_by_parts, others, penalty_by_row};
ghost use Rattle.roster_laws.specs.Staffing.{WorkTakesOneOff, shortfall, meets, with_choice};

/// The penalty is that of the staffing, day by day, plus each nurse's own cost and requests.
pub fn penalty_by_parts()
    ensures penalty { (c : Meaning) (r : Rows) → penalty c r ≡ staffing_cost c r
        + over_nurses c r (λ n days. own_cost c n days + request_cost c n days) }
    ensures staffing { (c : Meaning) (r : Rows) →
        staffing_cost c r ≡ sum_below (day_count c) (λ d. staffing_cost_by c d (cover r d)) }
{}

/// A roster keeps the hard rules exactly if each slot has its minimum and each nurse's row keeps the
/// successions, the skills and the absences.
pub fn hard_rules_by_parts()
    ensures { (c : Meaning) (r : Rows) → keeps_hard c r ≡ keeps_by_parts c r }
{}

/// With one row replaced, the cover is that of the other nurses plus that of the row, and the penalty is the
/// rest, the nurse's own cost and the prices of the row's days. If the hard rules were kept, they are still
/// kept exactly if each choice of the row is open on its day and may follow the one before it; the frozen
/// days are kept as well exactly if each choice is offered.
pub fn one_row_replaced()
    ensures cover { (r : Rows) (n : ℕ) → n < length r → (row : Row) (d s k : ℕ) →
        cover (with_row r n row) d s k ≡ with_choice (others r n d) (choice_on row d) s k }
    ensures penalty { (c : Meaning) (r : Rows) (n : ℕ) → n < length r → n < nurse_count c →
        (row : Row) → length row ≡ day_count c →
        penalty_with c r n row ≡ penalty_by_row c r n row }
    ensures keeps { (c : Meaning) (r : Rows) → keeps_hard c r ≡ true → (n : ℕ) → n < length r →
        n < nurse_count c → (row : Row) →
        keeps_hard c (with_row r n row) ≡ is_open_row c r n row (day_count c) }
    ensures allowed { (c : Meaning) (r : Rows) → keeps_hard c r ≡ true → (n : ℕ) → n < length r →
        n < nurse_count c → (row : Row) (from : ℕ) →
        AllowedWhereOffered c from r n row }
{}

/// A day's staffing costs the same for each nurse by whom it is short of its optimums. Its minimums are met
/// if it isn't short of them. One more nurse makes it short by one less, if the number that is wanted in her
/// slot isn't reached yet.
pub fn staffing_by_shortfall()
    ensures staffing { (c : Meaning) (d : ℕ) (have : ℕ → ℕ → ℕ) →
        staffing_cost_by c d have ≡ staffing_weight * shortfall c (optimum c d) have }
    ensures minimums { (c : Meaning) (d : ℕ) (have : ℕ → ℕ → ℕ) →
        meets c d have ≡ (shortfall c (minimum c d) have == 0) }
    ensures off { (c : Meaning) (want have : ℕ → ℕ → ℕ) →
        shortfall c want (with_choice have Off) ≡ shortfall c want have }
    ensures work { (c : Meaning) (want have : ℕ → ℕ → ℕ) (shift : Shift) (skill : Skill) →
        shift.0 < shift_count c → skill.0 < skill_count c →
        WorkTakesOneOff c want have shift skill }
{}

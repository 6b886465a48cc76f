//! What a roster that is kept adds to the penalty.

ghost use Rattle.std.specs.Prelude.{◌≡◌, ◌+◌, ◌*◌, ℕ, Option};
ghost use Rattle.roster_instance.specs.declared.choice.Shift.{Shift};
ghost use Rattle.roster_instance.specs.Meaning.{Meaning, keeping};
ghost use Rattle.roster_instance.specs.Rosters.{Rows};
ghost use Rattle.roster_laws.specs.Kept.{changed_days};
ghost use Rattle.roster_rules.specs.HardRules.{hard_faults};
ghost use Rattle.roster_rules.specs.Penalties.{costs_of, off_request_cost_on, penalty, request_cost_on, wish_cost_on};

/// A roster that is kept adds its points for each day of a nurse that differs from it. It changes only the
/// penalty: the hard rules stay. At 0 points everything is as if no roster were kept.
pub fn kept_roster_costs_its_changes()
    ensures changes { (c : Meaning) (rows : Rows) (keep : ℕ) → c.keep ≡ 0 → (r : Rows) →
        penalty (keeping c rows keep) r ≡ penalty c r + keep * changed_days c rows r }
    ensures hard { (c : Meaning) (rows : Rows) (keep : ℕ) (r : Rows) →
        hard_faults (keeping c rows keep) r ≡ hard_faults c r }
    ensures none { (c : Meaning) (rows : Rows) → keeping c rows 0 ≡ c }
    ensures penalty { (c : Meaning) → c.keep ≡ 0 → (r : Rows) → let k = costs_of c r in
        penalty c r ≡ k.s1 + k.s2 + k.s3 + k.s4 + k.s5 + k.s6 + k.s7 + k.s8 }
    ensures price { (c : Meaning) → c.keep ≡ 0 → (n d : ℕ) (shift : Option Shift) →
        request_cost_on c n d shift ≡ off_request_cost_on c n d shift + wish_cost_on c n d shift }
{}

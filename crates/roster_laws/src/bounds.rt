//! A bound for penalties.

ghost use Rattle.std.specs.Prelude.{◌≡◌, ◌<◌, ◌≤◌, true};
ghost use Rattle.roster_instance.specs.Limits.{most_nurses};
ghost use Rattle.roster_instance.specs.Meaning.{Meaning, nurse_count};
ghost use Rattle.roster_instance.specs.Rosters.{Rows, fits_case};
ghost use Rattle.roster_instance.specs.Small.{IsSmall};
ghost use Rattle.roster_rules.specs.Penalties.{penalty};
ghost use Rattle.roster_rules.specs.PenaltyBounds.{most_penalty, most_penalty_unkept, penalty_limit};

/// In a case within the limits no roster costs more than 7,317,767,120 points, which is below 2^33. If no
/// roster is kept, it costs no more than 7,303,207,120.
pub fn penalties_are_low()
    ensures all { (c : Meaning) → IsSmall c → nurse_count c ≤ most_nurses
        → (r : Rows) → fits_case c r ≡ true
        → (penalty c r ≤ most_penalty) × (penalty c r < penalty_limit) }
    ensures unkept { (c : Meaning) → IsSmall c → nurse_count c ≤ most_nurses → c.keep ≡ 0
        → (r : Rows) → fits_case c r ≡ true → penalty c r ≤ most_penalty_unkept }
{}

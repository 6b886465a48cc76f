//! What a run guarantees, as one law of the definitions.

ghost use Rattle.std.specs.Prelude.{◌≡◌, ℕ, ◌<◌, ◌≤◌, All, AllPairs};
ghost use Rattle.roster_instance.specs.Meaning.{Meaning, nurse_count};
ghost use Rattle.roster_instance.specs.Rosters.{Rows};
ghost use Rattle.roster_rules.specs.AllowedRows.{best_row};
ghost use Rattle.roster_rules.specs.Improver.{log_of, run};
ghost use Rattle.roster_rules.specs.Penalties.{penalty};
ghost use Rattle.roster_laws.specs.Settled.{HasBestRow, settled_at};
ghost use Rattle.roster_rounds.specs.PutIn.{AllDo, IsAccepted};

/// A run from an accepted roster, with any number of rounds and any number of frozen weeks.
pub fn each_row_put_in_is_best()
    // Each row that is put in is the first of least penalty among all allowed rows of its nurse; nothing else
    // changes.
    ensures best { (c : Meaning) (r : Rows) (from rounds : ℕ) → IsAccepted c r
        → AllDo c from r (log_of c (best_row c from) rounds r) }

    // The penalty never rises.
    ensures falls { (c : Meaning) (r : Rows) (from rounds : ℕ) → IsAccepted c r
        → AllPairs (λ e later. penalty c later.roster ≤ penalty c e.roster)
        (log_of c (best_row c from) rounds r) }

    // Each roster along the run is one that would be accepted.
    ensures accepted { (c : Meaning) (r : Rows) (from rounds : ℕ) → IsAccepted c r
        → All (λ e. IsAccepted c e.roster) (log_of c (best_row c from) rounds r) }

    // If a run is settled, no allowed row of a nurse is cheaper than the present one.
    ensures settled { (c : Meaning) (r last : Rows) (from rounds : ℕ) → IsAccepted c r
        → run c (best_row c from) rounds r ≡ settled_at last
        → (n : ℕ) → n < nurse_count c → HasBestRow c from last n }
{}

//! Runs of the improver and their logs. A law that doesn't mention the best rows holds for every way to
//! choose them.

ghost use Rattle.std.specs.Prelude.{◌≡◌, ℕ, ◌+◌, ◌*◌, ◌<◌, ◌≤◌, ◌%◌, ◌⊎◌, ◌↔◌, suc, nat_lt, not, true, false, All, AllPairs};
ghost use Rattle.roster_rules.specs.HardRules.{keeps_hard};
ghost use Rattle.roster_rules.specs.Improver.{BestRows, entry, log_of, round, run, same_rows, step};
ghost use Rattle.roster_instance.specs.Meaning.{Meaning, nurse_count, week_count};
ghost use Rattle.roster_rules.specs.Penalties.{penalty, penalty_unit};
ghost use Rattle.roster_instance.specs.Rosters.{Row, Rows, fits_case, with_row};
ghost use Rattle.roster_rules.specs.AllowedRows.{IsBestRow, allowed_rows, best_row, penalty_with};
ghost use Rattle.roster_laws.specs.FrozenDays.{FrozenDaysStay};
ghost use Rattle.roster_laws.specs.Logs.{Descends, EachKeeps, EndKeeps, EndsWith, ending, end_of};
ghost use Rattle.roster_laws.specs.Settled.{ChangesNothing, HasBestRow, RoundChanges, best_run};

/// Two rosters pass the test for the same rows exactly if they are equal.
pub fn same_rows_are_equal()
    ensures { (a b : Rows) → (same_rows a b ≡ true) ↔ (a ≡ b) }
{}

/// A step puts the best row in if that is strictly cheaper, and otherwise changes nothing. So no allowed row
/// is cheaper than the roster after it.
pub fn steps_put_the_best_row_in()
    ensures cheaper { (c : Meaning) (from : ℕ) (r : Rows) (n : ℕ) (row : Row) →
        IsBestRow c from r n row → penalty_with c r n row < penalty c r →
        step c (best_row c from) r n ≡ with_row r n row }
    ensures as_dear { (c : Meaning) (from : ℕ) (r : Rows) (n : ℕ) (row : Row) →
        IsBestRow c from r n row → penalty c r ≤ penalty_with c r n row →
        step c (best_row c from) r n ≡ r }
    ensures least { (c : Meaning) (from : ℕ) (r : Rows) (n : ℕ) →
        All (λ row. penalty c (step c (best_row c from) r n) ≤ penalty_with c r n row)
        (allowed_rows c from r n) }
{}

/// The log ends as the run does, with the run's roster. It has at most as many rounds as were allowed, and
/// exactly as many if the run is stopped.
pub fn log_ends_with_the_run()
    ensures last { (c : Meaning) (best : BestRows) (rounds : ℕ) (r : Rows) →
        EndsWith (log_of c best rounds r)
        (entry (ending (run c best rounds r)) (run c best rounds r).roster) }
    ensures few { (c : Meaning) (best : BestRows) (rounds : ℕ) (r : Rows) →
        (end_of c best rounds r).rounds ≤ rounds }
    ensures all { (c : Meaning) (best : BestRows) (rounds : ℕ) (r : Rows) →
        (run c best rounds r).is_settled ≡ false → (end_of c best rounds r).rounds ≡ rounds }
{}

/// If a run is settled, no step and no round changes anything, and no allowed row of a nurse is cheaper.
pub fn settled_stays()
    ensures steps { (c : Meaning) (best : BestRows) (rounds : ℕ) (r : Rows) →
        (run c best rounds r).is_settled ≡ true → (n : ℕ) → n < nurse_count c →
        ChangesNothing c best (run c best rounds r).roster n }
    ensures round { (c : Meaning) (best : BestRows) (rounds : ℕ) (r : Rows) →
        (run c best rounds r).is_settled ≡ true →
        round c best (run c best rounds r).roster ≡ (run c best rounds r).roster }
    ensures rows { (c : Meaning) (from rounds : ℕ) (r : Rows) →
        (best_run c from rounds r).is_settled ≡ true → (n : ℕ) → n < nurse_count c →
        HasBestRow c from (best_run c from rounds r).roster n }
{}

/// A run that is stopped changed something in its last round.
pub fn last_round_decides()
    ensures { (c : Meaning) (best : BestRows) (k : ℕ) (r : Rows) →
        (run c best (suc k) r).is_settled ≡ false →
        RoundChanges c best (run c best k r).roster (run c best (suc k) r).roster }
{}

/// Each penalty is a multiple of its unit. The unit is 5, since each weight is a multiple of 5, or 1 if a
/// roster is kept at a number of points that isn't one. So a step that changes the roster makes it cheaper by
/// at least the unit, and the unit times the number of changes is at most the fall of the penalty.
pub fn changes_are_few()
    ensures multiples { (c : Meaning) (r : Rows) → penalty c r % penalty_unit c ≡ 0 }
    ensures unit { (c : Meaning) → (penalty_unit c ≡ 5) ⊎ (penalty_unit c ≡ 1) }
    ensures five { (c : Meaning) → c.keep % 5 ≡ 0 → penalty_unit c ≡ 5 }
    ensures changed { (c : Meaning) (best : BestRows) (r : Rows) (n : ℕ) →
        not (same_rows (step c best r n) r) ≡ nat_lt (penalty c (step c best r n)) (penalty c r) }
    ensures by_unit { (c : Meaning) (best : BestRows) (r : Rows) (n : ℕ) →
        same_rows (step c best r n) r ≡ false → penalty c (step c best r n)
        + penalty_unit c ≤ penalty c r }
    ensures fall { (c : Meaning) (best : BestRows) (rounds : ℕ) (r : Rows) →
        (end_of c best rounds r).total
        + penalty_unit c * (end_of c best rounds r).changes ≤ penalty c r }
    ensures settles { (c : Meaning) (best : BestRows) (rounds : ℕ) (r : Rows) →
        penalty c r < penalty_unit c * rounds → (run c best rounds r).is_settled ≡ true }
{}

/// Along the log no penalty is above an earlier one, and that of a change is below each earlier one by at
/// least the unit.
pub fn penalty_never_rises()
    ensures { (c : Meaning) (best : BestRows) (rounds : ℕ) (r : Rows) →
        AllPairs (Descends c) (log_of c best rounds r) }
{}

/// If a roster fits and keeps the hard rules, so do the rosters after a run of best rows and at each line of
/// its log.
pub fn runs_keep_the_hard_rules()
    ensures log { (c : Meaning) (from rounds : ℕ) (r : Rows) → fits_case c r ≡ true →
        keeps_hard c r ≡ true → EachKeeps c (log_of c (best_row c from) rounds r) }
    ensures run { (c : Meaning) (from rounds : ℕ) (r : Rows) → fits_case c r ≡ true →
        keeps_hard c r ≡ true → EndKeeps c (run c (best_row c from) rounds r) }
{}

/// A best row that is put in, a step, a run of best rows and each line of its log leave every frozen day of
/// every nurse as it was.
pub fn frozen_days_stay()
    ensures best { (c : Meaning) (from : ℕ) (r : Rows) (n : ℕ) (row : Row) →
        IsBestRow c from r n row → FrozenDaysStay c from r (with_row r n row) }
    ensures step { (c : Meaning) (from : ℕ) (r : Rows) (n : ℕ) →
        FrozenDaysStay c from r (step c (best_row c from) r n) }
    ensures log { (c : Meaning) (from rounds : ℕ) (r : Rows) →
        All (λ e. FrozenDaysStay c from r e.roster) (log_of c (best_row c from) rounds r) }
    ensures run { (c : Meaning) (from rounds : ℕ) (r : Rows) →
        FrozenDaysStay c from r (run c (best_row c from) rounds r).roster }
{}

/// If all weeks are frozen, a step and a run change nothing.
pub fn frozen_weeks_stay()
    ensures step { (c : Meaning) (from : ℕ) (r : Rows) → fits_case c r ≡ true →
        week_count c ≤ from → (n : ℕ) → step c (best_row c from) r n ≡ r }
    ensures run { (c : Meaning) (from rounds : ℕ) (r : Rows) → fits_case c r ≡ true →
        week_count c ≤ from → (run c (best_row c from) rounds r).roster ≡ r }
{}

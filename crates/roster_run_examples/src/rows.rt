//! Worked examples of rows in their order, of their first days, and of the log of a run of no rounds.
#![tactic(auto, unfolding(roster_instance::specs::Choices::all_rows, roster_rules::specs::HardRules::hard_faults, roster_rules::specs::Improver::log_of, roster_rules::specs::Penalties::costs_of, roster_rules::specs::Penalties::own_cost, roster_rules::specs::Penalties::penalty, roster_rules::specs::Prefix::due, roster_rules::specs::Prefix::summary_of, roster_rules::specs::Runs::open_run, roster_rules::specs::Runs::run_violations))]

ghost use Rattle.std.specs.Prelude.{◌≡◌, ℕ, [], ◌∷◌, Some, None, codes, flat_map, map, replicate};
ghost use Rattle.roster_instance.specs.Choices.{all_rows, days_of};
ghost use Rattle.roster_rules.specs.Improver.{line_of, log_of};
ghost use Rattle.roster_instance.specs.Meaning.{shift_at};
ghost use Rattle.roster_rules.specs.Penalties.{own_cost};
ghost use Rattle.roster_rules.specs.Prefix.{due, summary_of};
ghost use Rattle.roster_rules.specs.AllowedRows.{best_row, first_least, penalty_with};
ghost use Rattle.roster_run_examples.specs.Mini.{all_free, ann, early_but, mini, mini_of_one_shift};

/// Rows in their order, and the first of the least: one day off in the week costs the same from Tuesday to
/// Friday.
pub fn rows_in_order()
    ensures order { all_rows {A = ℕ} (0 ∷ 1 ∷ []) 2 ≡ (0 ∷ 0 ∷ []) ∷ (0 ∷ 1 ∷ []) ∷ (1 ∷ 0 ∷ [])
        ∷ (1 ∷ 1 ∷ []) ∷ [] }
    ensures first_of_equals { first_least (penalty_with mini all_free ann)
        (map early_but (0 ∷ 1 ∷ 2 ∷ 3 ∷ 4 ∷ 5 ∷ 6 ∷ [])) ≡ Some (early_but 1) }
    ensures best { best_row mini_of_one_shift 0 all_free ann ≡ Some (early_but 1) }
{}

/// What a prefix owes, and its summary.
pub fn prefixes_of_rows()
    ensures before_monday { summary_of mini ann [] ≡ record
        { last = None; run = 1; shift_run = 0; assignments = 0; weekends = 0 } }
    ensures nothing_due { due mini ann [] ≡ 0 }
    ensures monday_worked { summary_of mini ann (Some (shift_at 0) ∷ []) ≡ record
        { last = Some (shift_at 0); run = 1; shift_run = 1; assignments = 1; weekends = 0 } }
    ensures a_week_off { summary_of mini ann (replicate 7 None) ≡ record
        { last = None; run = 5; shift_run = 0; assignments = 0; weekends = 0 } }
    ensures a_week_off_due { due mini ann (replicate 7 None) ≡ 90 }
    ensures a_week_off_in_all { own_cost mini ann (replicate 7 None) ≡ 130 }
    ensures a_long_week { due mini ann (days_of (early_but 1)) ≡ 20 }
{}

/// The log of a run of no rounds.
pub fn log_of_no_rounds()
    ensures { flat_map (line_of mini) (log_of mini (best_row mini 0) 0 all_free) ≡ codes
        "start 470\nstopped 470\n" }
{}

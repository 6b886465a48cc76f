//! Worked examples of allowed rows, best rows and runs of the improver.
#![tactic(auto, unfolding(roster_instance::specs::Choices::all_rows, roster_rules::specs::HardRules::hard_faults, roster_rules::specs::Penalties::costs_of, roster_rules::specs::Penalties::penalty, roster_rules::specs::Runs::run_violations))]

ghost use Rattle.std.specs.Prelude.{◌≡◌, [], ◌∷◌, ◌++◌, Some, None, codes, filter, map, true, false};
ghost use Rattle.roster_run_examples.specs.Mini.{all_free, ann, bob, early_but, early_on, early_shift, free_week, mini, mini_of_one_shift};
ghost use Rattle.roster_rules.specs.AllowedRows.{allowed_rows, best_row, keeps_frozen_days, penalty_with, row_keeps};
ghost use Rattle.roster_run_examples.specs.Tight.{after_shift, ann_on_tuesday, beginning, bob_on_tuesday, early_as_head, early_first, early_night, early_second, fixing, log_text, needing, needing_weekdays, needing_without_ann, night_early, night_first, night_off_early, resting, run_of, shared_week, two_nights, unskilled, with_each_weekend, with_heads};

/// From Monday to Friday a nurse is needed, and Bob is off: Ann can choose her weekend. The row that is the
/// best without minimums is not allowed. If Bob works on Tuesday, Ann can be off on that day too.
pub fn rows_that_minimums_exclude()
    ensures allowed { allowed_rows needing_weekdays 0 all_free ann
        ≡ with_each_weekend (0 ∷ 1 ∷ 2 ∷ 3 ∷ 4 ∷ []) }
    ensures kept { filter (row_keeps needing_weekdays all_free ann)
        (map early_but (0 ∷ 1 ∷ 2 ∷ 3 ∷ 4 ∷ 5 ∷ 6 ∷ [])) ≡ early_but 5 ∷ early_but 6 ∷ [] }
    ensures best { best_row needing_weekdays 0 all_free ann
        ≡ Some (early_on (0 ∷ 1 ∷ 2 ∷ 3 ∷ 4 ∷ [])) }
    ensures penalty_of_the_best { penalty_with needing_weekdays all_free ann
        (early_on (0 ∷ 1 ∷ 2 ∷ 3 ∷ 4 ∷ [])) ≡ 190 }
    ensures penalty_of_an_excluded { penalty_with needing_weekdays all_free ann (early_but 1)
        ≡ 180 }
    ensures allowed_next_to_bob { allowed_rows needing_weekdays 0 bob_on_tuesday ann
        ≡ with_each_weekend (0 ∷ 2 ∷ 3 ∷ 4 ∷ []) ++ with_each_weekend (0 ∷ 1 ∷ 2 ∷ 3 ∷ 4 ∷ []) }
    ensures best_next_to_bob { best_row needing_weekdays 0 bob_on_tuesday ann ≡ Some (early_but 1) }
{}

/// A nurse is needed on Wednesday and Friday, and Early may not follow Early: Ann can work on Monday and
/// Sunday too, or not. Of the two best rows the first is the one that is off on Sunday. If she worked Early
/// on the day before, Monday is off.
pub fn rows_that_successions_exclude()
    ensures allowed { allowed_rows (resting (needing (2 ∷ 4 ∷ []))) 0 all_free ann ≡ early_on
        (2 ∷ 4 ∷ []) ∷ early_on (2 ∷ 4 ∷ 6 ∷ []) ∷ early_on (0 ∷ 2 ∷ 4 ∷ [])
        ∷ early_on (0 ∷ 2 ∷ 4 ∷ 6 ∷ []) ∷ [] }
    ensures best { best_row (resting (needing (2 ∷ 4 ∷ []))) 0 all_free ann ≡ Some
        (early_on (0 ∷ 2 ∷ 4 ∷ [])) }
    ensures allowed_after_early { allowed_rows (after_shift 0 (resting (needing (2 ∷ 4 ∷ [])))) 0
        all_free ann ≡ early_on (2 ∷ 4 ∷ []) ∷ early_on (2 ∷ 4 ∷ 6 ∷ []) ∷ [] }
    ensures best_after_early { best_row (after_shift 0 (resting (needing (2 ∷ 4 ∷ [])))) 0 all_free
        ann ≡ Some (early_on (2 ∷ 4 ∷ [])) }
{}

/// Ann lacks the skill: she can only be off. If a nurse is needed and Bob is off too, no row of hers is
/// allowed, and her step changes nothing.
pub fn rows_that_skills_exclude()
    ensures allowed { allowed_rows (unskilled (needing (1 ∷ []))) 0 bob_on_tuesday
        ann ≡ free_week ∷ [] }
    ensures best { best_row (unskilled (needing (1 ∷ []))) 0 bob_on_tuesday ann
        ≡ Some free_week }
    ensures nothing_allowed { allowed_rows (unskilled (needing (1 ∷ []))) 0 all_free ann ≡ [] }
    ensures none { best_row (unskilled (needing (1 ∷ []))) 0 all_free ann ≡ None }
{}

/// Ann is absent from Monday to Friday: she can choose her weekend. If a nurse is needed in an absence and
/// Bob is off, no row of hers is allowed.
pub fn rows_that_absences_exclude()
    ensures allowed { allowed_rows (needing_without_ann [] (0 ∷ 1 ∷ 2 ∷ 3 ∷ 4 ∷ [])) 0 all_free
        ann ≡ free_week ∷ early_on (6 ∷ []) ∷ early_on (5 ∷ []) ∷ early_on (5 ∷ 6 ∷ []) ∷ [] }
    ensures best { best_row (needing_without_ann [] (0 ∷ 1 ∷ 2 ∷ 3 ∷ 4 ∷ [])) 0 all_free ann ≡ Some
        (early_on (5 ∷ 6 ∷ [])) }
    ensures penalty_of_the_best { penalty_with (needing_without_ann [] (0 ∷ 1 ∷ 2 ∷ 3 ∷ 4 ∷ []))
        all_free ann (early_on (5 ∷ 6 ∷ [])) ≡ 310 }
    ensures nothing_allowed { allowed_rows (needing_without_ann (0 ∷ []) (0 ∷ [])) 0 all_free
        ann ≡ [] }
    ensures of_ann_alone { filter (row_keeps (needing_without_ann [] (1 ∷ [])) all_free bob)
        (early_on (1 ∷ []) ∷ early_on (2 ∷ []) ∷ []) ≡ early_on (1 ∷ []) ∷ early_on (2 ∷ []) ∷ [] }
{}

/// Ann's days except Monday are fixed as days off: she can choose Monday. If her Tuesday is fixed at work and
/// Sunday is free, she works on Tuesday in each row. Bob's days are free.
pub fn rows_that_fixed_days_exclude()
    ensures days_off { allowed_rows (fixing (1 ∷ 2 ∷ 3 ∷ 4 ∷ 5 ∷ 6 ∷ [])) 0 all_free ann
        ≡ free_week ∷ early_on (0 ∷ []) ∷ [] }
    ensures at_work { allowed_rows (fixing (0 ∷ 1 ∷ 2 ∷ 3 ∷ 4 ∷ 5 ∷ [])) 0 ann_on_tuesday ann
        ≡ early_on (1 ∷ []) ∷ early_on (1 ∷ 6 ∷ []) ∷ [] }
    ensures of_ann_alone { map (λ n. keeps_frozen_days (fixing (1 ∷ [])) 0 all_free n
        (early_on (1 ∷ []))) (ann ∷ bob ∷ []) ≡ false ∷ true ∷ [] }
{}

/// Night forbids Early on the next day, also on the first Monday. A head can't work as a nurse. A row has a
/// choice for each day, with a shift and a skill of the case.
pub fn rows_that_are_kept()
    ensures after_a_night { filter (row_keeps mini all_free ann)
        (night_early ∷ early_night ∷ night_off_early ∷ two_nights ∷ [])
        ≡ early_night ∷ night_off_early ∷ two_nights ∷ [] }
    ensures after_the_last_night { filter (row_keeps (after_shift 1 mini) all_free ann)
        (early_first ∷ night_first ∷ early_second ∷ []) ≡ night_first ∷ early_second ∷ [] }
    ensures with_the_skill { filter (row_keeps with_heads all_free ann)
        (early_first ∷ beginning (early_as_head ∷ []) ∷ free_week ∷ [])
        ≡ beginning (early_as_head ∷ []) ∷ free_week ∷ [] }
    ensures rows_of_the_case { filter (row_keeps mini_of_one_shift all_free ann)
        ([] ∷ (early_shift ∷ []) ∷ night_first ∷ beginning (early_as_head ∷ []) ∷ early_first ∷ [])
        ≡ early_first ∷ [] }
{}

/// Two rounds that change something, and a third that doesn't. With two rounds the run is stopped, with the
/// same roster.
pub fn run_of_three_rounds()
    ensures log { log_text 3 ≡ codes
        "start 470\n1 Ann 180\n1 Bob 20\nround 1 20\n2 Ann 0\nround 2 0\nround 3 0\nsettled 0\n" }
    ensures settled { run_of 3 ≡ record { roster = shared_week; is_settled = true } }
    ensures stopped { run_of 2 ≡ record { roster = shared_week; is_settled = false } }
    ensures stopped_log { log_text 2 ≡ codes
        "start 470\n1 Ann 180\n1 Bob 20\nround 1 20\n2 Ann 0\nround 2 0\nstopped 0\n" }
{}

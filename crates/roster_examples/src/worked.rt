//! Worked examples: what the definitions give for a small instance and for texts that differ from it in a few
//! lines.
#![tactic(auto, unfolding(roster_bundle::specs::Token::tokens_from, roster_bundle::specs::Token::token_at, roster_bundle::specs::Token::begins_at, roster_bundle::specs::Token::end_from, roster_bundle::specs::Token::is_separator, roster_bundle::specs::Token::is_mark, roster_bundle::specs::Token::is_word_byte, roster_bundle::specs::Token::follows_word_byte, roster_bundle::specs::Token::line_feeds, roster_text::specs::Reading::bundle_at, roster_text::specs::Reading::title_at, roster_text::specs::Reading::scenario_at, roster_text::specs::Reading::section_at, roster_text::specs::Reading::listed_at, roster_text::specs::Reading::times_at, roster_text::specs::Reading::shift_type_at, roster_text::specs::Reading::pair_at, roster_text::specs::Reading::until_with, roster_text::specs::Reading::succession_at, roster_text::specs::Reading::names_at, roster_text::specs::Reading::contract_at, roster_text::specs::Reading::nurse_at, roster_text::specs::Reading::history_at, roster_text::specs::Reading::nurse_history_at, roster_text::specs::Reading::week_data_at, roster_text::specs::Reading::requirement_at, roster_text::specs::Reading::week_pairs_at, roster_text::specs::Reading::solution_at, roster_text::specs::Reading::assignment_at, roster_text::specs::Reading::request_at, roster_text::specs::Reading::nurse_day_at, roster_text::specs::Reading::optional_at, roster_instance::specs::Tables::table_of, roster_instance::specs::Bundles::requests_meant, roster_instance::specs::Bundles::days_meant, roster_instance::specs::Bundles::meaning_of, roster_instance::specs::Bundles::rows_of, roster_instance::specs::Refusals::case_faults, roster_instance::specs::Refusals::roster_faults, roster_instance::specs::Sizes::state_count, roster_instance::specs::Sizes::choice_count, roster_rules::specs::HardRules::hard_faults, roster_rules::specs::Penalties::costs_of, roster_rules::specs::Penalties::penalty, roster_rules::specs::Runs::run_violations, roster_rules::specs::Runs::open_run))]

ghost use Rattle.std.specs.Prelude.{◌≡◌, [], ◌∷◌, None, Some, codes, take, true, false};
ghost use Rattle.roster_instance.specs.declared.fault.CaseFault.{CaseFault};
ghost use Rattle.roster_rules.specs.declared.fault.HardFault.{HardFault};
ghost use Rattle.roster_run_examples.specs.Mini.{mini, big, limits, is_among, early_on, early_but, free_week, all_free, ann, bob, costs, costs_with_wishes};
ghost use Rattle.roster_examples.specs.MiniText.{mini_lines, two_weeks, line, line_after, solved, assigned, bob_on_monday_night, bob_early_on_tuesday, requested, eve_on_tuesday, with_late, absence_and_skill, short_early_run, four_and_three_days, night_needed, around_the_night, heads_wanted, case_in, roster_in, refusals_in, refusal_in, breaches_in, costs_in, total_in, sizes_in};
ghost use Rattle.roster_instance.specs.Meaning.{keeping, shift_at, skill_at};
ghost use Rattle.roster_rules.specs.Penalties.{keep_cost_on, penalty};
ghost use Rattle.roster_instance.specs.Rosters.{fits_case};
ghost use Rattle.roster_rules.specs.Runs.{run_violations, open_run};
ghost use Rattle.roster_instance.specs.Sizes.{state_count, choice_count};

/// The text of the small instance means that instance, and nothing is refused in it.
pub fn text_of_the_small_instance()
    ensures case { case_in mini_lines ≡ Some mini }
    ensures roster { roster_in mini_lines ≡ Some all_free }
    ensures taken { refusals_in mini_lines ≡ Some [] }
    ensures fitting { fits_case mini all_free ≡ true }
{}

/// Refusals, each after one change of the text.
pub fn refusals_of_names_and_counts()
    ensures repeated { refusal_in (line 21 (codes "Ann Full 1 Nurse") mini_lines) ≡ Some
        (CaseFault.Repeated 21) }
    ensures unknown { refusal_in (line 20 (codes "Ann Part 1 Nurse") mini_lines) ≡ Some
        (CaseFault.Unknown 20) }
    ensures reserved { refusal_in (line 9 (codes "Any (1,5)") mini_lines) ≡ Some
        (CaseFault.Reserved 9) }
    ensures instance { refusal_in (line 31 (codes "maxi") mini_lines) ≡ Some
        (CaseFault.OtherInstance 31) }
    ensures week { refusal_in (line 24 (codes "1 mini") mini_lines) ≡ Some
        (CaseFault.HistoryWeek 24) }
    ensures history { refusal_in (line 28 (codes "Ann 0 0 None 0 0 1") mini_lines) ≡ Some
        (CaseFault.HistoryNurses 28) }
    ensures requirement { refusal_in (line_after 34
        (codes "Early Nurse (0,1) (0,1) (0,1) (0,1) (0,1) (0,1) (0,1)") mini_lines) ≡ Some
        (CaseFault.RepeatedRequirement 35) }
    ensures no_weeks { refusal_in (line 3 (codes "WEEKS = 0") (take 28 mini_lines)) ≡ Some
        (CaseFault.Limit 3) }
    ensures two_shifts_a_day { refusal_in (solved (codes "2")
        (codes "Ann Mon Early Nurse" ∷ codes "Ann Mon Night Nurse" ∷ []) mini_lines) ≡ Some
        (CaseFault.H1 0 0) }
    ensures most_states_taken { refusals_in (with_late (codes "(2,511) (1,7) (1,5) 7 1"))
        ≡ Some [] }
    ensures states { refusal_in (with_late (codes "(2,512) (1,7) (1,5) 7 1"))
        ≡ Some (CaseFault.TooManyStates 0 (record { start = 209; end = 212; line = 20 })) }
{}

/// Breaches of the hard rules.
pub fn breaches_of_the_hard_rules()
    ensures staffing { breaches_in (line 34 (codes
        "Early Nurse (1,1) (0,1) (0,1) (0,1) (0,1) (0,1) (0,1)") mini_lines) ≡ Some
        (HardFault.H2 0 (shift_at 0) (skill_at 0) 0 1 ∷ []) }
    ensures succession { breaches_in (solved (codes "2")
        (codes "Ann Tue Night Nurse" ∷ codes "Ann Wed Early Nurse" ∷ []) mini_lines) ≡ Some
        (HardFault.H3 ann 2 ∷ []) }
    ensures succession_from_the_history { breaches_in (line 27 (codes "Ann 0 0 Night 1 1 0")
        (assigned (codes "Ann Mon Early Nurse"))) ≡ Some
        (HardFault.H3 ann 0 ∷ []) }
    ensures skill { breaches_in (line 5 (codes "SKILLS = 2")
        (line 6 (codes "Nurse Head") (assigned (codes "Bob Tue Early Head"))))
        ≡ Some (HardFault.H4 bob 1 ∷ []) }
{}

/// Work of an absent nurse comes after work with a skill that the nurse lacks, and a line may repeat a nurse
/// and a day. In a week with both, the section comes after the wishes.
pub fn breaches_of_absences()
    ensures work { breaches_in (requested (codes "0 ABSENCES = 1 Bob Tue")
        bob_early_on_tuesday) ≡ Some (HardFault.Absent bob 1 ∷ []) }
    ensures another_day { breaches_in (requested (codes "0 ABSENCES = 1 Bob Tue")
        (solved (codes "2") (codes "Ann Tue Early Nurse" ∷ codes "Bob Wed Early Nurse" ∷ [])
        mini_lines)) ≡ Some [] }
    ensures after_a_skill { breaches_in absence_and_skill
        ≡ Some (HardFault.H4 bob 1 ∷ HardFault.Absent ann 0 ∷ []) }
    ensures after_wishes { breaches_in (requested
        (codes "0 SHIFT_ON_REQUESTS = 1 Bob Any Mon ABSENCES = 2 Bob Tuesday Bob Tue")
        bob_early_on_tuesday) ≡ Some (HardFault.Absent bob 1 ∷ []) }
    ensures twice { refusals_in (requested (codes "0 ABSENCES = 2 Bob Tuesday Bob Tue") mini_lines)
        ≡ Some [] }
    ensures unknown { refusal_in (requested (codes "0 ABSENCES = 1") eve_on_tuesday)
        ≡ Some (CaseFault.Unknown 37) }
    ensures unknown_after_a_wish { refusals_in (requested
        (codes "0 SHIFT_ON_REQUESTS = 1 Eve Any Tue ABSENCES = 1") eve_on_tuesday)
        ≡ Some (CaseFault.Unknown 36 ∷ CaseFault.Unknown 37 ∷ []) }
    ensures before_wishes { refusals_in
        (requested (codes "0 ABSENCES = 0 SHIFT_ON_REQUESTS = 0") mini_lines) ≡ None }
{}

/// The section of fixed days comes after the absences. What is fixed is no breach. A line has to name a known
/// nurse, and may occur twice.
pub fn fixed_days_in_the_texts()
    ensures work { breaches_in (requested (codes "0 ABSENCES = 1 Bob Wed FIXED = 1 Bob Tue")
        bob_early_on_tuesday) ≡ Some [] }
    ensures twice { refusals_in (requested (codes "0 FIXED = 2 Bob Tuesday Bob Tue") mini_lines)
        ≡ Some [] }
    ensures unknown { refusal_in (requested (codes "0 ABSENCES = 1 Bob Tue FIXED = 1")
        eve_on_tuesday) ≡ Some (CaseFault.Unknown 37) }
    ensures before_absences { refusals_in (requested (codes "0 FIXED = 0 ABSENCES = 0") mini_lines)
        ≡ None }
{}

/// Each nurse has eight days off in a row, one of them before the first Monday, and three too many.
pub fn penalties_of_an_empty_roster()
    ensures { costs_in mini_lines ≡ Some (costs 210 0 180 0 0 80 0) }
{}

/// The days before the first Monday count for the length of a run and for the position of its days, and have
/// no costs of their own.
pub fn penalties_with_runs_that_the_history_began()
    ensures going_on { costs_in (line 27 (codes "Ann 0 0 Early 7 7 0")
        (assigned (codes "Ann Mon Early Nurse"))) ≡ Some
        (costs 180 45 120 0 0 60 0) }
    ensures ended_before_monday { costs_in short_early_run ≡ Some (costs 210 75 150 0 0 80 0) }
    ensures of_no_days { costs_in (line 27 (codes "Ann 0 0 Early 0 0 0") mini_lines) ≡ Some
        (costs 210 0 150 0 0 80 0) }
    ensures without_a_shift { costs_in (line 27 (codes "Ann 0 0 None 4 4 1") mini_lines) ≡ Some
        (costs 210 0 180 0 0 80 0) }
{}

/// A least number above its greatest, the totals of the history, and a shift that two off requests name.
pub fn penalties_of_contracts_and_off_requests()
    ensures least_above_greatest { costs_in four_and_three_days ≡ Some (costs 30 90 90 0 0 60 0) }
    ensures totals_of_the_history { costs_in (line 27 (codes "Ann 9 3 None 0 0 1")
        (line 28 (codes "Bob 9 3 None 0 0 1") mini_lines)) ≡ Some (costs 210 0 180 0 0 160 120) }
    ensures off_requests_and_a_split_weekend { costs_in (requested
        (codes "2 Ann Any Sat Ann Early Sat") (assigned (codes "Ann Sat Early Nurse"))) ≡ Some
        (costs 180 0 120 10 30 60 0) }
{}

/// A day with two wishes that aren't met costs once. `Any` is met by each shift, and a wish for a shift by
/// that one alone. An off request and a wish may both cost on one day.
pub fn penalties_of_wishes()
    ensures two_for_a_day_off { costs_in (requested
        (codes "0 SHIFT_ON_REQUESTS = 2 Bob Night Mon Bob Any Mon") mini_lines) ≡ Some
        (costs_with_wishes 10 (costs 210 0 180 0 0 80 0)) }
    ensures any_by_a_shift { costs_in (requested (codes "0 SHIFT_ON_REQUESTS = 1 Bob Any Mon")
        bob_on_monday_night) ≡ Some
        (costs 210 0 120 0 0 60 0) }
    ensures another_shift { costs_in (requested
        (codes "1 Bob Any Mon SHIFT_ON_REQUESTS = 1 Bob Early Mon")
        bob_on_monday_night) ≡ Some
        (costs_with_wishes 10 (costs 210 0 120 10 0 60 0)) }
    ensures unknown { refusal_in
        (requested (codes "0 SHIFT_ON_REQUESTS = 1 Eve Any Tue") mini_lines)
        ≡ Some (CaseFault.Unknown 36) }
{}

/// Each day of a nurse that changes from the given roster costs its points: by a shift more, a shift less, or
/// another one.
pub fn penalties_with_a_kept_roster()
    ensures five_days { penalty (keeping mini (early_but 1 ∷ free_week ∷ []) 7)
        (early_but 4 ∷ early_on (4 ∷ 5 ∷ 6 ∷ []) ∷ []) ≡ 55 }
    ensures no_day { penalty (keeping mini (early_but 4 ∷ early_on (4 ∷ 5 ∷ 6 ∷ []) ∷ []) 7)
        (early_but 4 ∷ early_on (4 ∷ 5 ∷ 6 ∷ []) ∷ []) ≡ 20 }
    ensures another_shift { keep_cost_on (keeping mini (early_but 1 ∷ free_week ∷ []) 7) ann 0
        (Some (shift_at 1)) ≡ 7 }
    ensures same_shift { keep_cost_on (keeping mini (early_but 1 ∷ free_week ∷ []) 7) ann 0
        (Some (shift_at 0)) ≡ 0 }
{}

/// Days, off requests and assignments of a second week.
pub fn two_weeks_of_the_small_instance()
    ensures empty { costs_in (two_weeks (codes "0") (codes "0") (codes "0")) ≡ Some
        (costs 420 0 600 0 0 80 0) }
    ensures second_saturday { costs_in (two_weeks (codes "1 Bob Any Sat") (codes "0")
        (codes "1 Bob Sat Early Nurse")) ≡ Some (costs 390 0 540 10 30 60 0) }
    ensures one_line_a_day { refusals_in (two_weeks (codes "0") (codes "1 Bob Sat Night Nurse")
        (codes "1 Bob Sat Early Nurse")) ≡ Some [] }
    ensures two_lines_a_day { refusals_in (two_weeks (codes "0") (codes "0")
        (codes "2 Bob Sat Early Nurse Bob Sat Early Nurse")) ≡ Some (CaseFault.H1 bob 12 ∷ []) }
{}

/// The totals along the improver's run on the small instance, and around it.
pub fn totals_of_better_rosters()
    ensures one_row { penalty mini (early_but 1 ∷ free_week ∷ []) ≡ 180 }
    ensures two_rows { penalty mini (early_but 1 ∷ early_on (1 ∷ 5 ∷ 6 ∷ []) ∷ []) ≡ 20 }
    ensures settled { penalty mini (early_on (0 ∷ 2 ∷ 3 ∷ 4 ∷ []) ∷ early_on (1 ∷ 5 ∷ 6 ∷ []) ∷ [])
        ≡ 0 }
    ensures later_row { penalty mini (early_but 4 ∷ free_week ∷ []) ≡ 180 }
    ensures later_rows { penalty mini (early_but 4 ∷ early_on (4 ∷ 5 ∷ 6 ∷ []) ∷ []) ≡ 20 }
    ensures needed_night { total_in (night_needed (assigned (codes "Bob Thu Night Nurse")))
        ≡ Some 360 }
    ensures around_a_needed_night { total_in (night_needed around_the_night) ≡ Some 210 }
    ensures two_skills { total_in heads_wanted ≡ Some 680 }
{}

/// The missing and extra days of single runs.
pub fn violations_of_runs()
    ensures two_short_and_one_long { run_violations (limits 4 3) 0
        (is_among (0 ∷ 1 ∷ 3 ∷ 4 ∷ 5 ∷ 6 ∷ [])) 7 ≡ 3 }
    ensures open_at_the_end { run_violations (limits 4 5) 0 (is_among (6 ∷ [])) 7 ≡ 0 }
    ensures ended_a_day_before { run_violations (limits 4 5) 0 (is_among (5 ∷ [])) 7 ≡ 3 }
    ensures ended_before_monday { run_violations (limits 3 5) 1 (λ d. false) 7 ≡ 2 }
    ensures only_the_day_of_the_horizon { run_violations (limits 1 5) 7 (is_among (0 ∷ [])) 7 ≡ 1 }
    ensures sixteen_weeks { run_violations (limits 1 5) 1 (λ d. true) 112 ≡ 108 }
    ensures open_run_with_its_border { open_run 1 (λ d. true) 7 ≡ 8 }
    ensures none_without_days { run_violations (limits 4 5) 2 (λ d. false) 0 ≡ 0 }
{}

/// States and choices of each nurse.
pub fn sizes_of_instances()
    ensures small { sizes_in mini_lines ≡ Some ((1296, 3) ∷ (1296, 3) ∷ []) }
    ensures many_assignments { sizes_in (line 17 (codes "Full (2,999) (1,5) (1,5) 1 1") mini_lines)
        ≡ Some ((216000, 3) ∷ (216000, 3) ∷ []) }
    ensures most { sizes_in (with_late (codes "(2,511) (1,7) (1,5) 7 1"))
        ≡ Some ((1048576, 4) ∷ (1048576, 4) ∷ []) }
    ensures big_states { state_count big 0 ≡ 40500 }
    ensures big_choices { choice_count big 0 ≡ 5 }
{}

//! Worked examples of the definitions of a case: what they give for the text of a small instance
//! (`specs/MiniText.antt`), and for texts that differ from it in a few lines. The functions do nothing; a
//! check computes their clauses.
#![tactic(auto)]

mod worked;

pub use worked::{
    breaches_of_absences, breaches_of_the_hard_rules, fixed_days_in_the_texts,
    penalties_of_an_empty_roster, penalties_of_contracts_and_off_requests, penalties_of_wishes,
    penalties_with_a_kept_roster, penalties_with_runs_that_the_history_began,
    refusals_of_names_and_counts, sizes_of_instances, text_of_the_small_instance,
    totals_of_better_rosters, two_weeks_of_the_small_instance, violations_of_runs,
};

//! Worked examples of rows, best rows, and runs of the improver with their logs, on a small instance
//! (`specs/Mini.antt`) and on tighter ones (`specs/Tight.antt`). The functions do nothing; a check computes
//! their clauses.
#![tactic(auto)]

mod choosing;
mod rows;

pub use choosing::{
    rows_that_absences_exclude, rows_that_are_kept, rows_that_fixed_days_exclude,
    rows_that_minimums_exclude, rows_that_skills_exclude, rows_that_successions_exclude,
    run_of_three_rounds,
};
pub use rows::{log_of_no_rounds, prefixes_of_rows, rows_in_order};
